//! The journal that a server stores, whose doors and links are in memory.

ghost use Rattle.std.specs.Prelude.{All, IfOk};
ghost use Rattle.cdp_edge_server.specs.MemDoor.{IsNewDoor};

use cdp_edge::{MemShelf, MemSink, Shelf};
use cdp_edge_server::{FixedClock, Gate, Incoming, MemDoor, MemHarbor, MemLink};
use debug_host_commands::debug_main;
use std::alloc::{AllocError, Global};
use std::str;
use std::sync::Wait;
use std::test::Fail;
use std::thread::Threads;

// How often a link may be asked while it is held.
const PATIENCE: u64 = 10_000_000;

// The words of a text.
fn words_of(alloc: Global, text: &str) -> Result<Vec<String>, AllocError> {
    let mut words = Vec::new(alloc);
    for word in text.split(' ') {
        words.push(String::from_str(alloc, word)?)?;
    }
    Ok(words)
}

// A shelf with one script.
fn shelf(alloc: Global, script: &[u8]) -> Result<MemShelf, AllocError> {
    let mut all = Vec::new(alloc);
    all.push((String::from_str(alloc, "a.js")?, script.to_vec(alloc)?))?;
    Ok(MemShelf::new(all, Vec::new(alloc)))
}

// A door at which one link arrives that says this once the first gate is open, goes when the second is, and opens the third
// with its first text.
fn door(
    alloc: Global,
    text: &str,
    before: Option<Gate>,
    behind: Option<Gate>,
    opened: Gate,
) -> Result<MemDoor, AllocError>
    ensures { IfOk result IsNewDoor }
{
    let mut coming = Vec::new(alloc);
    if let Some(gate) = before {
        coming.push(Incoming::Hold(gate, PATIENCE))?;
    }
    coming.push(Incoming::Text(String::from_str(alloc, text)?))?;
    if let Some(gate) = behind {
        coming.push(Incoming::Hold(gate, PATIENCE))?;
    }
    coming.push(Incoming::Closed)?;
    let mut links = Vec::new(alloc);
    links.push(MemLink::new(coming, Vec::new(alloc)).opening(opened))?;
    Ok(MemDoor::new(links, Vec::new(alloc)))
}

// The doors of two clients at once: the first waits until the second was sent a text, and lets the program begin; the
// second goes when the first was answered.
fn two_doors(alloc: Global) -> Result<Vec<MemDoor>, AllocError>
    ensures { IfOk result (λ doors. All IsNewDoor doors.items) }
{
    let (first, first_again) = Gate::pair(alloc)?;
    let (second, second_again) = Gate::pair(alloc)?;
    let begin = r#"{"id":1,"method":"Runtime.runIfWaitingForDebugger"}"#;
    let enable = r#"{"id":1,"method":"Runtime.enable"}"#;
    let mut doors = Vec::new(alloc);
    doors.push(door(alloc, begin, Some(second), None, first)?)?;
    doors.push(door(alloc, enable, None, Some(first_again), second_again)?)?;
    Ok(doors)
}

// The status of a call with these words over a shelf and a harbor, at the moment 7.
fn call(
    rt: &(impl Threads + Wait + Sync),
    alloc: Global,
    words: &str,
    shelf: &mut MemShelf,
    harbor: &mut MemHarbor,
    out: &mut MemSink,
    err: &mut MemSink,
) -> Result<u8, AllocError> {
    let words = words_of(alloc, words)?;
    let mut clock = FixedClock::new(7);
    Ok(debug_main(rt, alloc, &words, shelf, out, err, harbor, &mut clock))
}

// How often one of the links of a harbor was sent just these texts.
fn times_sent(harbor: &MemHarbor, texts: &[String]) -> u64 {
    let mut times: u64 = 0;
    for door in harbor.doors() {
        for link in door.served() {
            if link.sent() == texts {
                times = times.saturating_add(1);
            }
        }
    }
    times
}

// The one reply to the client that lets the program begin.
fn replies_of_the_first(alloc: Global) -> Result<Vec<String>, AllocError> {
    let mut replies = Vec::new(alloc);
    replies.push(String::from_str(alloc, r#"{"id":1,"result":{}}"#)?)?;
    Ok(replies)
}

// What stands behind this on the lines that begin with it.
fn behind(alloc: Global, output: &str, beginning: &str) -> Result<Vec<String>, AllocError> {
    let mut texts = Vec::new(alloc);
    for line in output.split('\n') {
        if let Some(text) = line.strip_prefix(beginning) {
            texts.push(String::from_str(alloc, text)?)?;
        }
    }
    Ok(texts)
}

// The journal that a server stored is replayed: the program prints the same, and each of the two sessions is handed
// just the texts that one of the two clients was sent.
#[test]
fn a_stored_journal_plays_again(rt: HostRuntime) -> Result<(), Fail> {
    let alloc = rt.alloc();
    let mut shelf = shelf(alloc, b"console.log(1);\nconsole.log('two');\n")?;
    let mut harbor = MemHarbor::new(two_doors(alloc)?, Vec::new(alloc), Vec::new(alloc));
    let mut out = MemSink::new(Vec::new(alloc));
    let mut err = MemSink::new(Vec::new(alloc));
    let words = "serve --sessions 2 --wait --journal j a.js";
    let status = call(
        &rt,
        alloc,
        words,
        &mut shelf,
        &mut harbor,
        &mut out,
        &mut err,
    )?;
    assert_eq!(rt; status, 0);
    assert_eq!(rt; out.taken(), b"1\ntwo\n".as_slice());
    assert_eq!(rt; times_sent(&harbor, &replies_of_the_first(alloc)?), 1);
    let mut again = MemSink::new(Vec::new(alloc));
    let words = "replay --wait j a.js";
    let status = call(
        &rt,
        alloc,
        words,
        &mut shelf,
        &mut harbor,
        &mut again,
        &mut err,
    )?;
    assert_eq!(rt; status, 0);
    assert_eq!(rt; err.taken(), b"".as_slice());
    let output = str::from_utf8(again.taken()).unwrap_or("");
    let printed = behind(alloc, output, "out ")?;
    assert_eq!(rt; printed.len(), 2);
    assert_eq!(rt; printed[0].as_str(), "1");
    assert_eq!(rt; printed[1].as_str(), "two");
    let first = behind(alloc, output, "to 1 ")?;
    let second = behind(alloc, output, "to 2 ")?;
    assert!(rt; first.len() != second.len());
    assert_eq!(rt; times_sent(&harbor, &first), 1);
    assert_eq!(rt; times_sent(&harbor, &second), 1);
    Ok(())
}

// The status of a server at whose door nobody arrives, of one script, with these words and this shelf; what it told on
// the error stream is in `err`.
fn serve_nobody(
    rt: &(impl Threads + Wait + Sync),
    alloc: Global,
    words: &str,
    shelf: &mut MemShelf,
    err: &mut MemSink,
) -> Result<u8, AllocError> {
    let mut doors = Vec::new(alloc);
    doors.push(MemDoor::new(Vec::new(alloc), Vec::new(alloc)))?;
    let mut harbor = MemHarbor::new(doors, Vec::new(alloc), Vec::new(alloc));
    let mut out = MemSink::new(Vec::new(alloc));
    call(rt, alloc, words, shelf, &mut harbor, &mut out, err)
}

// The journal has the one run of the program, at the moment of the clock.
#[test]
fn a_server_stores_its_journal(rt: HostRuntime) -> Result<(), Fail> {
    let alloc = rt.alloc();
    let mut shelf = shelf(alloc, b"console.log(1);\n")?;
    let mut err = MemSink::new(Vec::new(alloc));
    let words = "serve --sessions 1 --journal j a.js";
    let status = serve_nobody(&rt, alloc, words, &mut shelf, &mut err)?;
    assert_eq!(rt; status, 0);
    assert_eq!(rt; err.taken(), b"".as_slice());
    let stored = shelf.read(alloc, "j");
    assert!(rt; stored.is_ok_and(|bytes| bytes.as_slice() == b"run 5 7\n".as_slice()));
    Ok(())
}

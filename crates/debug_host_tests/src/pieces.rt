//! Output that is taken in pieces, or in part at want of memory.

use crate::piece_sink::PieceSink;
use cdp_edge::{MemShelf, MemSink, Sink};
use cdp_edge_server::{FixedClock, MemHarbor};
use debug_host_commands::debug_main;
use std::alloc::{AllocError, Global};
use std::sync::Wait;
use std::test::Fail;
use std::thread::Threads;

const TWO_LINES: &[u8] = b"console.log(7);
console.log(8);
";

// A pause is asked for before the run, and the run goes on to its end.
const PAUSE: &[u8] = br#"attach
tell 1 {"id":1,"method":"Debugger.enable"}
tell 1 {"id":2,"method":"Debugger.pause"}
run 100 0
tell 1 {"id":3,"method":"Debugger.resume"}
run 100 0
take 1
"#;

const PAUSE_OUTPUT: &str = r#"attached 1
ran 1 paused
out 7
out 8
ran 8 ended
to 1 {"method":"Debugger.scriptParsed","params":{"endColumn":0,"endLine":2,"executionContextId":1,"hash":"3db94df2fa011ed1c7921df6a05bd013e2de3c9edd018c88a18b749cd656e3cc","scriptId":"1","startColumn":0,"startLine":0,"url":"two.js"}}
to 1 {"id":1,"result":{"debuggerId":"1"}}
to 1 {"id":2,"result":{}}
to 1 {"method":"Debugger.paused","params":{"callFrames":[{"callFrameId":"1.1.0","functionName":"","location":{"columnNumber":0,"lineNumber":0,"scriptId":"1"},"scopeChain":[{"object":{"className":"Object","description":"Object","objectId":"1.1","type":"object"},"type":"script"},{"object":{"className":"Object","description":"Object","objectId":"1.2","type":"object"},"type":"global"}],"this":{"type":"undefined"},"url":"two.js"}],"hitBreakpoints":[],"reason":"other"}}
to 1 {"id":3,"result":{}}
to 1 {"method":"Debugger.resumed","params":{}}
"#;

// A second pause stops before the call of the first line. One that is asked for while paused stops nothing.
const TWO_PAUSES: &[u8] = br#"attach
tell 1 {"id":1,"method":"Debugger.enable"}
tell 1 {"id":2,"method":"Debugger.pause"}
run 100 0
take 1
tell 1 {"id":3,"method":"Debugger.resume"}
tell 1 {"id":4,"method":"Debugger.pause"}
run 100 0
take 1
tell 1 {"id":5,"method":"Debugger.pause"}
tell 1 {"id":6,"method":"Debugger.resume"}
run 100 0
take 1
take 1"#;

const TWO_PAUSES_OUTPUT: &str = r#"attached 1
ran 1 paused
to 1 {"method":"Debugger.scriptParsed","params":{"endColumn":0,"endLine":2,"executionContextId":1,"hash":"3db94df2fa011ed1c7921df6a05bd013e2de3c9edd018c88a18b749cd656e3cc","scriptId":"1","startColumn":0,"startLine":0,"url":"two.js"}}
to 1 {"id":1,"result":{"debuggerId":"1"}}
to 1 {"id":2,"result":{}}
to 1 {"method":"Debugger.paused","params":{"callFrames":[{"callFrameId":"1.1.0","functionName":"","location":{"columnNumber":0,"lineNumber":0,"scriptId":"1"},"scopeChain":[{"object":{"className":"Object","description":"Object","objectId":"1.1","type":"object"},"type":"script"},{"object":{"className":"Object","description":"Object","objectId":"1.2","type":"object"},"type":"global"}],"this":{"type":"undefined"},"url":"two.js"}],"hitBreakpoints":[],"reason":"other"}}
ran 3 paused
to 1 {"id":3,"result":{}}
to 1 {"method":"Debugger.resumed","params":{}}
to 1 {"id":4,"result":{}}
to 1 {"method":"Debugger.paused","params":{"callFrames":[{"callFrameId":"1.2.0","functionName":"","location":{"columnNumber":8,"lineNumber":0,"scriptId":"1"},"scopeChain":[{"object":{"className":"Object","description":"Object","objectId":"1.3","type":"object"},"type":"script"},{"object":{"className":"Object","description":"Object","objectId":"1.4","type":"object"},"type":"global"}],"this":{"type":"undefined"},"url":"two.js"}],"hitBreakpoints":[],"reason":"other"}}
out 7
out 8
ran 5 ended
to 1 {"id":5,"result":{}}
to 1 {"id":6,"result":{}}
to 1 {"method":"Debugger.resumed","params":{}}
"#;

// The files that a call has.
const FILES: [(&str, &[u8]); 6] = [
    ("pause", PAUSE),
    ("pauses", TWO_PAUSES),
    ("two.js", TWO_LINES),
    ("lf", b"a\n\nb"),
    (
        "lines.js",
        b"let l = readline();\nwhile (l !== null) { console.log(l); l = readline(); }\n",
    ),
    ("count.js", b"for (let i = 1; i < 4; i++) console.log(i);\n"),
];

// The words of a text.
fn words_of(alloc: Global, text: &str) -> Result<Vec<String>, AllocError> {
    let mut words = Vec::new(alloc);
    for word in text.split(' ') {
        words.push(String::from_str(alloc, word)?)?;
    }
    Ok(words)
}

// A shelf of the files.
fn shelf(alloc: Global) -> Result<MemShelf, AllocError> {
    let mut all = Vec::new(alloc);
    for (name, bytes) in &FILES {
        all.push((String::from_str(alloc, name)?, bytes.to_vec(alloc)?))?;
    }
    Ok(MemShelf::new(all, Vec::new(alloc)))
}

// The status of a call without a port.
fn call<R: Threads + Wait + Sync, O: Sink + Send>(
    rt: &R,
    alloc: Global,
    words: &[String],
    shelf: &mut MemShelf,
    out: &mut O,
    err: &mut MemSink,
) -> u8 {
    let mut harbor = MemHarbor::new(Vec::new(alloc), Vec::new(alloc), Vec::new(alloc));
    let mut clock = FixedClock::new(0);
    debug_main(rt, alloc, words, shelf, out, err, &mut harbor, &mut clock)
}

#[test]
fn a_line_is_offered_in_one_write(rt: HostRuntime) -> Result<(), Fail> {
    let words = words_of(rt.alloc(), "replay pause two.js")?;
    let bytes = PAUSE_OUTPUT.len() as u64;
    for (most, writes) in [(1000, 11), (1, bytes)] {
        let mut shelf = shelf(rt.alloc())?;
        let mut err = MemSink::new(Vec::new(rt.alloc()));
        let mut out = PieceSink {
            most,
            taken: Vec::new(rt.alloc()),
            writes: 0,
            lines: 0,
        };
        let status = call(&rt, rt.alloc(), &words, &mut shelf, &mut out, &mut err);
        assert_eq!(rt; status, 0);
        assert_eq!(rt; out.taken.as_slice(), PAUSE_OUTPUT.as_bytes());
        assert!(rt; out.writes == writes && out.lines == writes);
    }
    Ok(())
}

#[test]
fn a_text_is_offered_in_one_write(rt: HostRuntime) -> Result<(), Fail> {
    let words = words_of(rt.alloc(), "run --input lf lines.js count.js")?;
    let whole = b"a\n\nb\n1\n2\n3\n";
    for (most, writes) in [(1000, 6), (1, 11)] {
        let mut shelf = shelf(rt.alloc())?;
        let mut err = MemSink::new(Vec::new(rt.alloc()));
        let mut out = PieceSink {
            most,
            taken: Vec::new(rt.alloc()),
            writes: 0,
            lines: 0,
        };
        let status = call(&rt, rt.alloc(), &words, &mut shelf, &mut out, &mut err);
        assert_eq!(rt; status, 0);
        assert_eq!(rt; out.taken.as_slice(), whole.as_slice());
        assert!(rt; out.writes == writes && out.lines == writes);
    }
    Ok(())
}

// At want of memory, which a trial makes, the status is 1, and a first part of the output stands.
#[test]
fn want_of_memory_cuts_the_output(rt: HostRuntime) -> Result<(), Fail> {
    let words = words_of(rt.alloc(), "replay pauses two.js")?;
    let mut shelf = shelf(rt.alloc())?;
    let mut out = MemSink::new(Vec::new(rt.alloc()));
    let mut err = MemSink::new(Vec::new(rt.alloc()));
    let status = call(&rt, rt.alloc(), &words, &mut shelf, &mut out, &mut err);
    let whole = TWO_PAUSES_OUTPUT.as_bytes();
    if status == 0 {
        assert_eq!(rt; out.taken(), whole);
        assert_eq!(rt; err.taken(), b"".as_slice());
    } else {
        assert_eq!(rt; status, 1);
        assert!(rt; whole.starts_with(out.taken()));
    }
    Ok(())
}

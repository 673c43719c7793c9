//! Whole conversations, by the end, the texts that were sent and the lines that were written.

use cdp_client::{Conversed, converse};
use cdp_edge::MemSink;
use cdp_edge_server::{Incoming, MemLink};
use std::alloc::{AllocError, Global};
use std::test::Fail;

/// An event.
const CREATED: &str =
    r#"{"method":"Runtime.executionContextCreated","params":{"context":{"id":1,"name":"debug_host","origin":""}}}"#;

/// An event.
const RESUMED: &str = r#"{"method":"Debugger.resumed","params":{}}"#;

/// The reply to the first command.
const FIRST: &str = r#"{"id":1,"result":{}}"#;

/// The reply to the second command.
const SECOND: &str = r#"{"error":{"code":-32601,"message":"'Foo.bar' wasn't found"},"id":2}"#;

/// A link that gives these texts, and then is closed.
fn link_of(alloc: Global, texts: &[&str]) -> Result<MemLink, AllocError> {
    let mut incoming = Vec::new(alloc);
    for text in texts {
        incoming.push(Incoming::Text(String::from_str(alloc, *text)?))?;
    }
    Ok(MemLink::new(incoming, Vec::new(alloc)))
}

/// Whether a link was sent just these texts.
fn was_sent(link: &MemLink, texts: &[&str]) -> bool {
    let sent = link.sent();
    if sent.len() != texts.len() {
        return false;
    }
    for i in 0..sent.len() {
        if sent[i].as_str() != texts[i] {
            return false;
        }
    }
    true
}

#[test]
fn one_command_is_done_and_one_refused(rt: HostRuntime) -> Result<(), Fail> {
    let alloc = rt.alloc();
    let mut link = link_of(alloc, [CREATED, FIRST, SECOND].as_slice())?;
    let mut out = MemSink::new(Vec::new(alloc));
    let end = converse(
        &rt,
        alloc,
        &mut link,
        b"Runtime.enable\nFoo.bar {}",
        &mut out,
    );
    assert!(rt; matches!(end, Conversed::Done));
    assert!(rt;
        was_sent(
            &link,
            [
                r#"{"id":1,"method":"Runtime.enable"}"#,
                r#"{"id":2,"method":"Foo.bar","params":{}}"#,
            ]
            .as_slice()
        )
    );
    assert!(rt; link.closed_with() == Some(1000));
    let written = format!(in alloc;
        "event {CREATED}\nreply 1 Runtime.enable {FIRST}\nreply 2 Foo.bar {SECOND}\n"
    )?;
    assert!(rt; out.taken() == written.as_bytes());
    Ok(())
}

#[test]
fn the_peer_closes_after_one_reply(rt: HostRuntime) -> Result<(), Fail> {
    let alloc = rt.alloc();
    let mut link = link_of(alloc, [CREATED, FIRST].as_slice())?;
    let mut out = MemSink::new(Vec::new(alloc));
    let end = converse(
        &rt,
        alloc,
        &mut link,
        b"Runtime.enable\nFoo.bar {}\n",
        &mut out,
    );
    assert!(rt; matches!(end, Conversed::PeerClosed { replies: 1 }));
    assert!(rt; link.closed_with() == None);
    Ok(())
}

#[test]
fn a_wait_is_met_by_an_event_before_it(rt: HostRuntime) -> Result<(), Fail> {
    let alloc = rt.alloc();
    let mut link = link_of(alloc, [RESUMED, FIRST, CREATED, "5%\r", RESUMED].as_slice())?;
    let mut out = MemSink::new(Vec::new(alloc));
    let file = b"Debugger.enable\nwait Debugger.resumed\nwait Debugger.resumed\n";
    let end = converse(&rt, alloc, &mut link, file, &mut out);
    assert!(rt; matches!(end, Conversed::Done));
    let written = format!(in alloc;
        "event {RESUMED}\nreply 1 Debugger.enable {FIRST}\nevent {CREATED}\nother 5%25%0D\nevent {RESUMED}\n"
    )?;
    assert!(rt; out.taken() == written.as_bytes());
    Ok(())
}

#[test]
fn a_file_is_checked_before_anything_is_sent(rt: HostRuntime) -> Result<(), Fail> {
    let alloc = rt.alloc();
    let mut link = link_of(alloc, [FIRST].as_slice())?;
    let mut out = MemSink::new(Vec::new(alloc));
    let end = converse(
        &rt,
        alloc,
        &mut link,
        b"Runtime.enable\nFoo.bar []\n",
        &mut out,
    );
    assert!(rt; matches!(end, Conversed::Refused { line: 2 }));
    assert!(rt; was_sent(&link, [].as_slice()));
    Ok(())
}

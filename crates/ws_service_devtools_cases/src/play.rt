//! Plays texts over one link, in memory.

use cdp_edge_server::{Incoming, Link, MemLink, Recv};
use std::alloc::{AllocError, Global};
use std::io;
use ws_service_devtools::DevtoolsLink;

/// A link to which the texts of a file come.
fn link_of(alloc: Global, file: &str) -> Result<DevtoolsLink<MemLink>, AllocError> {
    let mut coming = Vec::new(alloc);
    for line in file.lines() {
        if let Some(text) = line.strip_prefix("comes ") {
            coming.push(Incoming::Text(String::from_str(alloc, text)?))?;
        }
    }
    Ok(DevtoolsLink::new(alloc, MemLink::new(coming, Vec::new(alloc))))
}

/// Whether the next text is handed in so.
fn hands(link: &mut DevtoolsLink<MemLink>, text: &str) -> bool {
    match link.recv() {
        Recv::Text(found) => found.as_str() == text,
        _ => false,
    }
}

/// Whether what becomes of the next text is what a line says; a line that says nothing is no text's.
fn comes_true(link: &mut DevtoolsLink<MemLink>, line: &str) -> bool {
    if let Some(text) = line.strip_prefix("hands ") {
        return hands(link, text);
    }
    if line.starts_with("sends ") {
        return matches!(link.recv(), Recv::Quiet);
    }
    true
}

/// Whether just the replies of a file were sent, in its order.
fn sends_all(sent: &[String], file: &str) -> bool {
    let mut count: usize = 0;
    for line in file.lines() {
        if let Some(reply) = line.strip_prefix("sends ") {
            match sent.get(count) {
                Some(text) if text.as_str() == reply => count = count.saturating_add(1),
                _ => return false,
            }
        }
    }
    count == sent.len()
}

/// Plays the texts of a file, and tells what became of them otherwise than it says, and how many they were.
pub(crate) fn play<R: Print + AllocGlobal>(rt: &R, file: &str) -> io::Result<()> {
    let mut link = link_of(rt.alloc(), file)?;
    let mut count: usize = 0;
    for line in file.lines() {
        if line.starts_with("comes ") {
            count = count.saturating_add(1);
        }
        if !comes_true(&mut link, line) {
            println!(rt; "what becomes of text {count} isn't: {line}")?;
        }
    }
    if !sends_all(link.into_link().sent(), file) {
        println!(rt; "other replies are sent")?;
    }
    println!(rt; "{count} texts")
}

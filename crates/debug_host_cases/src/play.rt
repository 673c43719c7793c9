//! Plays the calls of a folder.

use crate::block::{Block, Case, read_block};
use crate::differences::tell_differences;
use crate::folder::{File, files_in};
use crate::harbor::{harbor_of, told_by};
use cdp_edge::{MemShelf, MemSink};
use cdp_edge_server::FixedClock;
use debug_host_commands::debug_main;
use std::alloc::{AllocError, Global};
use std::rt::Files;
use std::sync::Wait;
use std::thread::Threads;
use std::{io, str};

/// What came of a call.
#[derive(Drop)]
pub(crate) struct Came {
    pub(crate) status: u64,
    pub(crate) output: MemSink,
    pub(crate) errors: MemSink,
    /// What the clients were told.
    pub(crate) told: String,
}

/// Whether a word is the name of a file, or ends with it as `--input=NAME` does.
fn is_named(words: &[String], name: &str) -> bool {
    for word in words {
        if word.as_str().ends_with(name) {
            return true;
        }
    }
    false
}

/// Puts copies of the files that the words name on a list.
fn take_named(
    alloc: Global,
    named: &mut Vec<File>,
    files: &[File],
    words: &[String],
) -> Result<(), AllocError> {
    for (name, bytes) in files {
        if is_named(words, name.as_str()) {
            named.push((
                String::from_str(alloc, name.as_str())?,
                bytes.to_vec(alloc)?,
            ))?;
        }
    }
    Ok(())
}

/// Plays a call over the files of its block and of its folder.
fn play(
    rt: &(impl Threads + Wait + Sync),
    alloc: Global,
    files: &[File],
    folder: &[File],
    case: &Case,
) -> Result<Came, AllocError> {
    let mut named = Vec::new(alloc);
    take_named(alloc, &mut named, files, &case.words)?;
    take_named(alloc, &mut named, folder, &case.words)?;
    let mut shelf = MemShelf::new(named, case.failing_reads.clone()?);
    let mut output = MemSink::new(case.failing_output.clone()?);
    let mut errors = MemSink::new(case.failing_errors.clone()?);
    let mut harbor = harbor_of(alloc, &case.dialled, &case.doors, &case.failing_port)?;
    let mut clock = FixedClock::new(0);
    let status = debug_main(
        rt,
        alloc,
        &case.words,
        &mut shelf,
        &mut output,
        &mut errors,
        &mut harbor,
        &mut clock,
    );
    Ok(Came {
        status: u64::from(status),
        output,
        errors,
        told: told_by(alloc, &harbor)?,
    })
}

/// Plays the calls of a block, tells those that come to another end, and answers how many calls they are.
fn play_block<R: Threads + Wait + Sync + Print + AllocGlobal>(
    rt: &R,
    list: &str,
    folder: &[File],
    block: &Block,
) -> io::Result<usize> {
    for line in &block.unread {
        println!(rt; "{list}: no line of a list: {line}")?;
    }
    for case in &block.cases {
        let came = play(rt, rt.alloc(), &block.files, folder, case)?;
        tell_differences(rt, list, block, case, &came)?;
    }
    Ok(block.cases.len())
}

/// Plays the calls of a list, and answers how many they are.
fn play_list<R: Threads + Wait + Sync + Print + AllocGlobal>(
    rt: &R,
    list: &str,
    folder: &[File],
    bytes: &[u8],
) -> io::Result<usize> {
    let Ok(text) = str::from_utf8(bytes) else {
        println!(rt; "{list}: not UTF-8")?;
        return Ok(0);
    };
    let mut count: usize = 0;
    for lines in text.split("\n\n") {
        let block = read_block(rt.alloc(), folder, lines)?;
        count = count.saturating_add(play_block(rt, list, folder, &block)?);
    }
    Ok(count)
}

/// Plays the calls of the lists of a folder, which are its files whose names end with `.calls`, and answers how many calls
/// they are.
///
/// # Errors
///
/// Those of the system.
pub(crate) fn play_folder<R: Threads + Wait + Sync + Print + Files + AllocGlobal + Clone + Drop>(
    rt: &R,
    root: &str,
    folder: &str,
) -> io::Result<usize> {
    let path = format!(in rt.alloc(); "{root}/{folder}")?;
    let files = files_in(rt, path.as_str())?;
    let mut count: usize = 0;
    for (name, bytes) in &files {
        if name.as_str().ends_with(".calls") {
            let list = format!(in rt.alloc(); "{folder}/{name}")?;
            count = count.saturating_add(play_list(rt, list.as_str(), &files, bytes)?);
        }
    }
    Ok(count)
}

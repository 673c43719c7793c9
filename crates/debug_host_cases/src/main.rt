//! `debug_host_cases` plays the calls that folders list through the program's top call, over files in memory, and tells each that comes
//! to another end than is written there, and how many they were. The folders stand in the one that it runs in; one call more
//! is then served over a socket. Or they stand in the folder that its word names.
#![tactic(auto)]

mod block;
mod clients;
mod differences;
mod folder;
mod harbor;
mod loopback;
mod play;
mod texts;

use loopback::{free_port, send_until_served, serve, tell_both};
use std::io;
use std::rt::Files;
use std::sync::Wait;
use std::thread::{Threads, join};

fn main(rt: HostRuntime) -> io::Result<()> {
    if let Some(root) = std::env::args(&rt)?.nth(1) {
        return play_folders(&rt, root.as_str());
    }
    play_folders(&rt, ".")?;
    let port = free_port(&rt)?;
    let (served, sent) = join(&rt, || serve(rt, port), || send_until_served(rt, port));
    tell_both(&rt, served, sent)
}

/// Plays the folders of cases that stand in a folder.
fn play_folders<R: Threads + Wait + Sync + Print + Files + AllocGlobal + Clone + Drop>(
    rt: &R,
    root: &str,
) -> io::Result<()> {
    let mut count: usize = 0;
    for folder in &folder::folders_in(rt, root)? {
        count = count.saturating_add(play::play_folder(rt, root, folder.as_str())?);
    }
    println!(rt; "{count} calls")
}

//! `ws_service_devtools_cases` hands the texts of a file to a link that lets DevTools in, and tells each that is handed in
//! or answered otherwise than the file says, and how many they were.
#![tactic(auto)]

mod play;

use std::{fs, io};

fn main(rt: HostRuntime) -> io::Result<()> {
    let text = fs::read_to_string(&rt, "texts.txt")?;
    play::play(&rt, text.as_str())
}

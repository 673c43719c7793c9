//! `cdp_door_cases` plays the heads of a file to the port's front door, over wires in memory, and tells each that is answered
//! otherwise than its line says, and how many they were.
#![tactic(auto)]

mod case;
mod play;

use std::{fs, io};

fn main(rt: HostRuntime) -> io::Result<()> {
    let text = fs::read_to_string(&rt, "heads.txt")?;
    let mut count: usize = 0;
    for line in text.lines() {
        count = count.saturating_add(1);
        if !play::passes(&rt, line)? {
            println!(rt; "head {count} is answered otherwise")?;
        }
    }
    println!(rt; "{count} heads")
}

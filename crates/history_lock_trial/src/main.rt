//! Threads that take turns of one lock over a log. Two threads, and then sixteen, each leave 10,000 rows; the log must
//! have all of them once, those of each thread in order. Words ask for other numbers, and for turns that are held for so
//! many milliseconds: `history_lock_trial THREADS ROWS [MILLISECONDS]`.
#![tactic(auto)]

ghost use Rattle.std.specs.Prelude.{◌<◌};

mod log;
mod workers;

use std::alloc::Global;
use std::env;
use std::process::ExitCode;
use std::rt::Env;
use std::sync::Wait;
use std::thread::Threads;
use std::time::{Clock, Duration};
use workers::rows_in_order;

/// How many rows each thread leaves, where no words ask for another number.
const TURNS: u64 = 10000;

fn main(rt: HostRuntime) -> ExitCode {
    let alloc = rt.alloc();
    let done = match asked(&rt) {
        Some((threads, turns, held)) if 0 < threads => {
            tells_rows(&rt, alloc, threads, turns, held)
        }
        _ => {
            tells_rows(&rt, alloc, 2, TURNS, Duration::ZERO)
                && tells_rows(&rt, alloc, 16, TURNS, Duration::ZERO)
        }
    };
    if done {
        ExitCode::SUCCESS
    } else {
        ExitCode::FAILURE
    }
}

/// The numbers of threads and of their rows that the words ask for, if they do, and how long each turn is held.
fn asked(rt: &(impl Env + AllocGlobal)) -> Option<(usize, u64, Duration)> {
    let mut words = env::args(rt).ok()?.skip(1);
    let threads = words.next()?.parse::<usize>().ok()?;
    let turns = words.next()?.parse::<u64>().ok()?;
    let held = match words.next() {
        Some(word) => word.parse::<u64>().ok()?,
        None => 0,
    };
    Some((threads, turns, Duration::from_millis(held)))
}

/// Prints how many rows so many threads left. False where they aren't all there in order, and where printing fails.
fn tells_rows<R: Print + Threads + Wait + Clock + Sync>(
    rt: &R,
    alloc: Global,
    threads: usize,
    turns: u64,
    held: Duration,
) -> bool
    requires { 0 < threads }
{
    let Some(rows) = rows_in_order(rt, alloc, threads, turns, held) else {
        return false;
    };
    println!(rt; "{threads} threads: {rows} rows, each thread's in order").is_ok()
}

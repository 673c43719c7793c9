//! Threads that each take so many turns.
ghost use Rattle.std.specs.Prelude.{◌≡◌, ◌<◌, All, IfSome, length};
ghost use Rattle.history_lock_trial.specs.Rows.{rows_of, IsReady, Covers};

use crate::log::{Log, Row, in_order};
use history_lock::{HistoryLock, Pass};
use std::alloc::Global;
use std::marker::Brand;
use std::sync::Wait;
use std::thread::{Threads, for_each_mut, sleep};
use std::time::{Clock, Duration};

pub type LogLock = HistoryLock<Log, Option<Row>, Brand>;

pub type LogPass = Pass<Log, Option<Row>, Brand>;

/// One turn, which leaves a row and is held for so long.
fn leave_row<R: Wait + Clock>(rt: &R, lock: &LogLock, pass: &mut LogPass, row: Row, held: Duration)
    requires { IsReady lock.now pass.old }
    ensures { IsReady lock.now pass.new }
{
    let Ok(mut turn) = lock.enter(rt, pass) else {
        return;
    };
    let entry = turn.state().add(row);
    if !held.is_zero() {
        sleep(rt, held);
    }
    lock.leave(pass, turn, &entry);
}

/// So many turns of one thread, each held for so long.
fn leave_rows<R: Wait + Clock>(
    rt: &R,
    lock: &LogLock,
    pass: &mut LogPass,
    thread: u64,
    turns: u64,
    held: Duration,
)
    requires { IsReady lock.now pass.old }
    ensures { IsReady lock.now pass.new }
{
    for count in 0..turns {
        leave_row(rt, lock, pass, Row { thread, count }, held);
    }
}

/// The turns of all passes, each in a thread of its own.
fn all_leave_rows<R: Threads + Wait + Clock + Sync>(
    rt: &R,
    lock: &LogLock,
    passes: &mut [LogPass],
    turns: u64,
    held: Duration,
)
    requires { All (IsReady lock.now) passes.old }
    ensures { All (IsReady lock.now) passes.new }
{
    let threads = passes.len().max(1);
    for_each_mut(
        rt,
        passes,
        threads,
        &|i, pass| { leave_rows(rt, lock, pass, i as u64, turns, held) },
    );
}

/// All passes joined into one; none where there are none.
fn joined(lock: &LogLock, mut passes: Vec<LogPass>) -> Option<LogPass>
    requires { All (IsReady lock.now) passes.items }
    ensures ready { IfSome result (IsReady lock.now) }
    ensures whole { IfSome result (λ all. All (Covers all) passes.items) }
{
    let mut all = passes.pop()?;
    while let Some(other) = passes.pop() {
        lock.join(&mut all, other);
    }
    Some(all)
}

/// How many rows the log has, where they are all there in order. The turn itself leaves none.
fn count_rows<R: Wait>(
    rt: &R,
    alloc: Global,
    lock: &LogLock,
    pass: &mut LogPass,
    threads: usize,
    turns: u64,
) -> Option<usize>
    requires { IsReady lock.now pass.old }
    ensures { IfSome result (λ count. count ≡ length (rows_of pass.new.seen)) }
{
    let Ok(mut turn) = lock.enter(rt, pass) else {
        return None;
    };
    let found = in_order(alloc, turn.state().rows(), threads, turns);
    lock.leave(pass, turn, &None);
    found
}

/// How many rows the log has at the end, where they are all there in order. Each turn is held for so long.
pub fn rows_in_order<R: Threads + Wait + Clock + Sync>(
    rt: &R,
    alloc: Global,
    threads: usize,
    turns: u64,
    held: Duration,
) -> Option<usize>
    requires { 0 < threads }
{
    let Ok((lock, mut passes)) = LogLock::new(alloc, Log::new(alloc), threads) else {
        return None;
    };
    all_leave_rows(rt, &lock, passes.as_mut_slice(), turns, held);
    let mut all = joined(&lock, passes)?;
    count_rows(rt, alloc, &lock, &mut all, threads, turns)
}

//! A log of rows, which stands for the rows of its history.
ghost use Rattle.std.specs.Prelude.{◌≡◌, ◌++◌, [], ℕ, List, length, IfSome};
ghost use Rattle.history_lock_trial.specs.Rows.{rows_of, row_of};

use history_lock::Standing;
use std::alloc::Global;
use std::marker::Brand;

/// What one turn of a thread leaves: the thread, and how many rows it left before.
#[derive(Drop, Clone, Copy)]
pub struct Row {
    pub thread: u64,
    pub count: u64,
}

/// All rows so far.
#[derive(Drop)]
pub struct Log {
    rows: Vec<Row>,
}

impl Standing<Option<Row>, Brand> for Log {
    ghost stands = { λ log h. log.rows.items ≡ rows_of h };
}

impl Log {
    /// An empty log.
    pub fn new(alloc: Global) -> Log
        ensures { result.rows.items ≡ [] }
    {
        Log {
            rows: Vec::new(alloc),
        }
    }

    /// Adds a row, and answers it; none, and no row, where memory is wanting.
    pub fn add(&mut self, row: Row) -> Option<Row>
        ensures { self.new.rows.items ≡ self.old.rows.items ++ row_of result }
    {
        match self.rows.push(row) {
            Ok(()) => Some(row),
            Err(_) => None,
        }
    }

    /// The rows, in order.
    pub fn rows(&self) -> &[Row]
        ensures { result.now ≡ self.now.rows.items }
    {
        self.rows.as_slice()
    }
}

/// How many rows there are, where each of so many threads left so many in order, and nothing else is there.
pub fn in_order(alloc: Global, rows: &[Row], threads: usize, turns: u64) -> Option<usize>
    ensures { IfSome result (λ count. count ≡ length rows.now) }
{
    let mut counts = vec![in alloc; 0_u64; threads].ok()?;
    for row in rows {
        let count = counts.get_mut(row.thread as usize)?;
        if *count != row.count || *count >= turns {
            return None;
        }
        *count += 1;
    }
    counts
        .iter()
        .all(|count| *count == turns)
        .then_some(rows.len())
}

//! The entries of a table, by their numbers.

ghost use Rattle.std.specs.Prelude.{◌≡◌, IfOk, length, slice_get, option_copied};

use js_heap_memory::stored::Slots;
use js_machine_nodes::node::{CallEntry, ForEntry, FunctionEntry, ScriptEntry};
use js_machine_nodes::table::NodeTable;
use std::alloc::AllocError;

/// A call.
pub fn call_entry(table: &NodeTable, number: u32) -> Option<CallEntry>
    ensures { result ≡ slice_get table.now.calls.items number }
{
    table.calls.get(number as usize).copied()
}

/// A function's code.
pub fn function_entry(table: &NodeTable, number: u32) -> Option<&FunctionEntry>
    ensures { option_copied result ≡ slice_get table.now.functions.items number }
{
    table.functions.get(number as usize)
}

/// How many parameters a function has. No memory holds 2^32 of them.
pub fn parameter_count(entry: &FunctionEntry) -> Result<u32, AllocError>
    ensures { IfOk result (λ count. count ≡ length entry.now.parameters.items) }
{
    match u32::try_from(entry.parameters.len()) {
        Ok(count) => Ok(count),
        Err(_) => Err(AllocError),
    }
}

/// The names of a block.
pub fn block_entry(table: &NodeTable, number: u32) -> Option<&Slots>
    ensures { option_copied result ≡ slice_get table.now.blocks.items number }
{
    table.blocks.get(number as usize)
}

/// A script.
pub fn script_entry(table: &NodeTable, number: u32) -> Option<&ScriptEntry>
    ensures { option_copied result ≡ slice_get table.now.scripts.items number }
{
    table.scripts.get(number as usize)
}

/// A `for` with names.
pub fn for_entry(table: &NodeTable, number: u32) -> Option<&ForEntry>
    ensures { option_copied result ≡ slice_get table.now.fors.items number }
{
    table.fors.get(number as usize)
}

//! Scopes and functions in a heap.

ghost use Rattle.std.specs.Prelude.{◌≡◌, ℕ, List, option_copied};
ghost use Rattle.js_heap.specs.World.{read_cell};
ghost use Rattle.js_heap_memory.specs.Heaps.{heap_world};
ghost use Rattle.js_heap_memory.specs.Cells.{cell_at};
ghost use Rattle.frames_scopes.specs.Scopes.{scope_parts};
ghost use Rattle.frames_scopes.specs.Frames.{function_parts};
ghost use Rattle.frames_scopes.specs.Cells.{scope_seen, function_seen};

use js_heap::built_in::Code;
use js_heap::cell::ScopeKind;
use js_heap::value::Addr;
use js_heap_memory::heap::BaseHeap;
use js_heap_memory::stored::{FunctionName, Stored};
use js_heap_memory::world::World;

/// A scope but for its names.
#[derive(Clone, Copy)]
pub struct ScopeCell<'m> {
    pub kind: ScopeKind,
    pub name: &'m FunctionName,
    pub outer: Option<Addr>,
}

/// A function's code and name.
#[derive(Clone, Copy)]
pub struct FunctionRef<'m> {
    pub code: Code,
    pub name: &'m FunctionName,
}

/// The scope that a cell is, if it is one.
fn scope_of<'m>(cell: Option<&'m Stored>) -> Option<ScopeCell<'m>>
    ensures { (ts : List (List ℕ)) → scope_seen ts result ≡ scope_parts (cell_at ts (option_copied cell.entry)) }
{
    match cell {
        Some(
            Stored::Scope {
                kind,
                name,
                outer,
                ..
            },
        ) => Some(ScopeCell {
            kind: *kind,
            name,
            outer: *outer,
        }),
        _ => None,
    }
}

/// The scope at an address, if there is one.
pub fn scope_at<'m>(heap: &'m BaseHeap, a: Addr) -> Option<ScopeCell<'m>>
    ensures { (ts : List (List ℕ)) → scope_seen ts result ≡ scope_parts (read_cell (heap_world ts heap.now) a) }
{
    scope_of(heap.find(a))
}

/// The function that a cell is, if it is one.
fn function_of<'m>(cell: Option<&'m Stored>) -> Option<FunctionRef<'m>>
    ensures { (ts : List (List ℕ)) → function_seen ts result ≡ function_parts (cell_at ts (option_copied cell.entry)) }
{
    match cell {
        Some(Stored::Function(function)) => Some(FunctionRef {
            code: function.code,
            name: &function.name,
        }),
        _ => None,
    }
}

/// The function at an address, if there is one.
pub fn function_at<'m>(heap: &'m BaseHeap, a: Addr) -> Option<FunctionRef<'m>>
    ensures { (ts : List (List ℕ)) → function_seen ts result ≡ function_parts (read_cell (heap_world ts heap.now) a) }
{
    function_of(heap.find(a))
}

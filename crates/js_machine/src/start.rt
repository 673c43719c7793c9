//! What a run needs before its first step.

ghost use Rattle.std.specs.Prelude.{IfOk};
ghost use Rattle.js_machine_terms.specs.Views.{terms_view};
ghost use Rattle.js_machine.specs.Starts.{IsPrepared};

use js_heap_memory::heap::BaseHeap;
use js_heap_memory::names::NameTable;
use js_heap_memory::start::add_built_in_names;
use js_machine_compiler::scripts::{ScriptCode, code_of_scripts};
use js_machine_lowering_parts::literals::{literals_of, placed_scripts};
use js_machine_terms::term::Terms;
use std::alloc::{AllocError, Global};

/// The code of scripts, the names in it, and the cells before the first step.
#[derive(Drop)]
pub struct PreparedScripts {
    pub names: NameTable,
    pub code: ScriptCode,
    pub heap: BaseHeap,
}

/// Makes the code of scripts, which sessions may share, and the cells before the first step.
///
/// # Errors
///
/// There is no memory for them, also where the scripts have more string literals than there are addresses.
pub fn prepare(alloc: Global, scripts: &Terms) -> Result<PreparedScripts, AllocError>
    ensures { IfOk result (λ p. IsPrepared (terms_view scripts.now) p) }
{
    let literals = literals_of(alloc, scripts)?;
    let placed = placed_scripts(alloc, scripts)?;
    let mut names = NameTable::new(alloc);
    add_built_in_names(alloc, &mut names)?;
    let Some(mut code) = code_of_scripts(alloc, &mut names, &placed)? else {
        return Err(AllocError);
    };
    code.table.share();
    let heap = BaseHeap::start(alloc, &names, literals.as_slice())?;
    Ok(PreparedScripts { names, code, heap })
}

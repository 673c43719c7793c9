//! Sources made ready for an evaluation.

ghost use Rattle.std.specs.Prelude.{IfOk};
ghost use Rattle.pure_eval.specs.Preparing.{IsReady, IsPrepared, IsPreparedFunction};

use crate::literals::source_literals;
use cdp_text::units::Units;
use js_heap::value::Addr;
use js_machine_lowering::kept::kept_term;
use js_machine_lowering_parts::literals::{literals_in, literals_placed};
use js_tree::script::{Expression, FunctionCode};
use js_tree::tree::Expr;
use pure_eval::PreparedSource;
use std::alloc::{AllocError, Global};

/// A source of a tree that is kept at an address of a session, ready to be evaluated. AllocError also where
/// `literals_placed` gives it.
fn prepare_source(
    alloc: Global,
    at: Addr,
    source: &Units,
    tree: &Expr,
) -> Result<PreparedSource, AllocError>
    ensures { IfOk result (λ p. IsReady at source.now tree.now p) }
{
    let source = source.clone()?;
    let order = source_literals(alloc, tree)?;
    let kept = kept_term(alloc, at, tree)?;
    let literals = literals_in(alloc, &kept)?;
    let term = literals_placed(alloc, at, &kept)?;
    Ok(PreparedSource {
        source,
        order,
        literals,
        term,
    })
}

/// An expression whose source is kept at an address of a session, ready to be evaluated. AllocError also where
/// `literals_placed` gives it.
pub fn prepare(alloc: Global, at: Addr, e: &Expression) -> Result<PreparedSource, AllocError>
    ensures { IfOk result (λ p. IsPrepared at e.now p) }
{
    prepare_source(alloc, at, &e.source, &e.tree)
}

/// A function whose source is kept at an address of a session, ready to be called. AllocError also where `literals_placed`
/// gives it.
pub fn prepare_function(
    alloc: Global,
    at: Addr,
    function: &FunctionCode,
) -> Result<PreparedSource, AllocError>
    ensures { IfOk result (λ p. IsPreparedFunction at function.now p) }
{
    prepare_source(alloc, at, &function.source, &function.tree)
}

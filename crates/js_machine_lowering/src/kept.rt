//! The terms of expressions that evaluations keep.

ghost use Rattle.std.specs.Prelude.{◌≡◌, IfOk};
ghost use Rattle.js_semantics.specs.Evaluation.{kept_term};
ghost use Rattle.js_semantics.specs.Sources.{expression_source};
ghost use Rattle.js_machine_terms.specs.Views.{term_view};

use crate::expressions::expression_term;
use js_heap::value::Addr;
use js_machine_lowering_parts::places::LoweringContext;
use js_machine_terms::term::Term;
use js_semantics::form::Source;
use js_tree::tree::Expr;
use std::alloc::{AllocError, Global};

/// The term of an expression that is kept at an address.
pub fn kept_term(alloc: Global, at: Addr, e: &Expr) -> Result<Term, AllocError>
    ensures { IfOk result (λ t. term_view t ≡ kept_term at (expression_source e.now)) }
{
    let place = LoweringContext {
        source: Source::Kept(at),
        statement: 0,
        name: &[],
    };
    expression_term(alloc, e, place)
}

//! The terms of scripts.

ghost use Rattle.std.specs.Prelude.{◌≡◌, IfOk};
ghost use Rattle.js_semantics.specs.Sources.{term_of_script};
ghost use Rattle.js_machine_terms.specs.Views.{term_view};

use crate::functions::body_parts;
use crate::statements::{functions_terms, statements_terms};
use js_machine_lowering_parts::names::names_of;
use js_machine_lowering_parts::places::LoweringContext;
use js_machine_terms::term::{Term, end, part};
use js_semantics::form::{Form, Source};
use js_tree::script::Script;
use std::alloc::{AllocError, Global};

/// The term of a script.
pub fn term_of_script(alloc: Global, script: &Script) -> Result<Term, AllocError>
    ensures { IfOk result (λ t. term_view t ≡ term_of_script script.now) }
{
    let place = LoweringContext {
        source: Source::Script(script.number),
        statement: 0,
        name: &[],
    };
    let names = names_of(alloc, &script.body)?;
    let statements = statements_terms(alloc, &script.body, place)?;
    let functions = functions_terms(alloc, &script.body, place)?;
    let later = body_parts(alloc, statements, functions)?;
    part(alloc, Form::Script(script.number, names), end(alloc), later)
}

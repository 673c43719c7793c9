//! The terms of scripts.

ghost use Rattle.std.specs.Prelude.{◌≡◌, IfOk, map};
ghost use Rattle.js_semantics.specs.Sources.{term_of_script, terms_of_scripts};
ghost use Rattle.js_machine_terms.specs.Views.{term_view, terms_view};

use js_machine_lowering::script::term_of_script;
use js_machine_terms::term::{Term, Terms, terms_of};
use js_tree::script::Script;
use std::alloc::{AllocError, Global};

/// The terms of scripts, one by one.
fn script_terms(alloc: Global, scripts: &[Script]) -> Result<Vec<Term>, AllocError>
    ensures { IfOk result (λ ts. map term_view ts.items ≡ map term_of_script scripts.now) }
{
    let mut terms = Vec::new(alloc);
    for script in scripts {
        terms.push(term_of_script(alloc, script)?)?;
    }
    Ok(terms)
}

/// The terms of scripts.
///
/// # Errors
///
/// There is no memory for them.
#[tactic(auto, using(crate::proofs::ScriptLemmas::scripts_listed))]
pub fn terms_of_scripts(alloc: Global, scripts: &[Script]) -> Result<Terms, AllocError>
    ensures { IfOk result (λ ts. terms_view ts ≡ terms_of_scripts scripts.now) }
{
    Ok(terms_of(script_terms(alloc, scripts)?))
}

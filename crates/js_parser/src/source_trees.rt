//! The trees of sources.

ghost use Rattle.std.specs.Prelude.{◌≡◌, IfErr, IfOk};
ghost use Rattle.js_tree.specs.Height.{height, height_of_statements};
ghost use Rattle.js_parser_language.specs.Language.{IsExpression, IsFunction, IsScript};
ghost use Rattle.js_parser_language.specs.Places.{expression_places, statements_places};
ghost use Rattle.js_tree.specs.Views.{expression_view, statements_view};
ghost use Rattle.js_parser_readers.specs.declared.fault.ParseFault.TheVariants.{Memory};
ghost use Rattle.js_parser.specs.Answers.{Answers};
ghost use Rattle.js_parser.specs.Spans.{PlacedIn};

use crate::earlier::earlier_names;
use crate::faults::tree_or_fault;
use crate::lexing::lex;
use crate::token_trees::{expression_of, function_of, script_of};
use cdp_text::units::Units;
use js_parser_readers::fault::ParseFault;
use js_parser_readers::name_set::NameSet;
use js_parser_readers::nodes::Nodes;
use js_tree::tree::{Expr, Stmts};
use std::alloc::Global;

/// The tree of a source that is one expression.
pub fn expression_tree(nodes: &mut Nodes, source: &[u16]) -> Result<Expr, ParseFault>
    ensures answers { Answers IsExpression height source.now (λ x. expression_view x) result }
    ensures placed { IfOk result (λ x. PlacedIn source.now nodes.old nodes.new (expression_places x)) }
{
    let lexed = lex(nodes.alloc(), source)?;
    let read = expression_of(nodes, lexed.tokens.as_slice());
    tree_or_fault(&lexed, source.len(), read)
}

/// The tree of a source that is one function expression or one arrow function.
pub fn function_tree(nodes: &mut Nodes, source: &[u16]) -> Result<Expr, ParseFault>
    ensures answers { Answers IsFunction height source.now (λ x. expression_view x) result }
    ensures placed { IfOk result (λ x. PlacedIn source.now nodes.old nodes.new (expression_places x)) }
{
    let lexed = lex(nodes.alloc(), source)?;
    let read = function_of(nodes, lexed.tokens.as_slice());
    tree_or_fault(&lexed, source.len(), read)
}

/// The names of earlier scripts.
fn names_of(alloc: Global, declared: &[Units]) -> Result<NameSet<'_>, ParseFault>
    ensures names { IfOk result (λ names. names ≡ declared.now) }
    ensures fault { IfErr result (λ f. f ≡ Memory) }
{
    earlier_names(alloc, declared).map_err(|_| ParseFault::Memory)
}

/// The items of a source that is a script behind scripts that declare these names.
pub fn script_tree(
    nodes: &mut Nodes,
    source: &[u16],
    declared: &[Units],
) -> Result<Stmts, ParseFault>
    ensures answers { Answers (IsScript declared.now) height_of_statements source.now (λ x. statements_view x) result }
    ensures placed { IfOk result (λ x. PlacedIn source.now nodes.old nodes.new (statements_places x)) }
{
    let lexed = lex(nodes.alloc(), source)?;
    let names = names_of(nodes.alloc(), declared)?;
    let read = script_of(nodes, names, lexed.tokens.as_slice());
    tree_or_fault(&lexed, source.len(), read)
}

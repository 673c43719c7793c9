//! Sources parsed: scripts, expressions and functions (ECMA-262, 16.1, 13.16, 15.2 and 15.3).

ghost use Rattle.std.specs.Prelude.{◌++◌, ◌≡◌, ◌<◌, length, Err, IfErr, IfOk};
ghost use Rattle.std.specs.List.{range_with_len};
ghost use Rattle.cdp_text.specs.Units.{utf16_of};
ghost use Rattle.js_tree.specs.Height.{height, height_of_statements};
ghost use Rattle.js_parser_language.specs.Language.{BeginsLanguage, IsExpression, IsFunction, IsScript};
ghost use Rattle.js_parser_language.specs.Places.{expression_places, numbers_of, statements_places};
ghost use Rattle.js_tree.specs.Views.{expression_view, statements_view};
ghost use Rattle.js_parser_readers.specs.declared.fault.ParseFault.TheVariants.{TooLong};
ghost use Rattle.js_parser.specs.Answers.{FailsBy, OkOrMemory};
ghost use Rattle.js_parser.specs.Faults.{Caused, ComesFirst, IsCause, StandsInSource};
ghost use Rattle.js_parser.specs.Sources.{IsSource, tokens_of};
ghost use Rattle.js_parser.specs.Spans.{AreSpansIn};
ghost use Rattle.js_parser.specs.Texts.{BeginsText};

use crate::kept::{spans_of, text_of, url_of};
use crate::limits::MOST_UNITS;
use crate::source_trees::{expression_tree, function_tree, script_tree};
use cdp_text::units::Units;
use js_parser_readers::fault::ParseFault;
use js_parser_readers::nodes::Nodes;
use js_tree::script::{Expression, FunctionCode, Script};
use std::alloc::Global;

/// Parses a source that is one expression.
///
/// # Errors
///
/// As the fault says, the one that stands first in the source; `TooLong` before all else.
#[tactic(auto, using(js_parser_laws::proofs::Completeness::one_expression, crate::proofs::TextLemmas::expression_texts))]
pub fn parse_expression(alloc: Global, source: &[u16]) -> Result<Expression, ParseFault>
    // What is answered is the source's tree.
    ensures found { IfOk result (λ x. IsSource IsExpression height source.now (expression_view x.tree)) }
    ensures kept { IfOk result (λ x. x.source ≡ source.now) }
    // The span of each node is that of its own tokens.
    ensures spans { IfOk result (λ x. AreSpansIn source.now x.spans (expression_places x.tree)) }
    // The nodes are numbered 0, 1, .. in the order in which they end, and each number has a span.
    ensures numbered { IfOk result (λ x. numbers_of (expression_places x.tree) ≡ range_with_len 0 (length x.spans)) }
    // A source of the language within the limits is answered with its tree, unless memory runs out.
    ensures only { (e : _) → IsSource IsExpression height source.now e → OkOrMemory (λ x. expression_view x.tree ≡ e) result }
    // A source has at most one tree.
    ensures one { (ts : _) (e f : _) → IsExpression ts e → IsExpression ts f → e ≡ f }
    ensures long { MOST_UNITS < length source.now → result ≡ Err (TooLong (length source.now)) }
    // A fault that is answered stands in the source.
    ensures faults { IfErr result (λ f. Caused IsExpression height source.now f) }
    // Where first tokens of the source begin the language, the source, cut where the last of them ends, begins a text that is in it.
    ensures texts { (before : _) (left : _) → tokens_of source.now ≡ before ++ left → BeginsLanguage IsExpression before → BeginsText IsExpression source.now before }
    // Of those that have a place, it is the first for which the source has a cause.
    ensures first { (g : _) → IsCause IsExpression source.now g → IfErr result (λ f. ComesFirst f g) }
    // The fault that stands in a source is answered, unless memory runs out or a tree would be too deep.
    ensures exact { (f : _) → StandsInSource IsExpression height source.now f → FailsBy f result }
{
    let mut nodes = Nodes::new(alloc);
    let tree = expression_tree(&mut nodes, source)?;
    let spans = spans_of(&nodes, source)?;
    let source = text_of(alloc, source)?;
    Ok(Expression {
        source,
        tree,
        spans,
    })
}

/// Parses a source that is one function expression or one arrow function, without parentheses
/// around it.
///
/// # Errors
///
/// As the fault says, the one that stands first in the source; `TooLong` before all else.
#[tactic(auto, using(js_parser_laws::proofs::Completeness::one_function, crate::proofs::TextLemmas::function_texts))]
pub fn parse_function(alloc: Global, source: &[u16]) -> Result<FunctionCode, ParseFault>
    // What is answered is the source's tree.
    ensures found { IfOk result (λ x. IsSource IsFunction height source.now (expression_view x.tree)) }
    ensures kept { IfOk result (λ x. x.source ≡ source.now) }
    // The span of each node is that of its own tokens.
    ensures spans { IfOk result (λ x. AreSpansIn source.now x.spans (expression_places x.tree)) }
    // The nodes are numbered 0, 1, .. in the order in which they end, and each number has a span.
    ensures numbered { IfOk result (λ x. numbers_of (expression_places x.tree) ≡ range_with_len 0 (length x.spans)) }
    // A source of the language within the limits is answered with its tree, unless memory runs out.
    ensures only { (e : _) → IsSource IsFunction height source.now e → OkOrMemory (λ x. expression_view x.tree ≡ e) result }
    // A source has at most one tree.
    ensures one { (ts : _) (e f : _) → IsFunction ts e → IsFunction ts f → e ≡ f }
    ensures long { MOST_UNITS < length source.now → result ≡ Err (TooLong (length source.now)) }
    // A fault that is answered stands in the source.
    ensures faults { IfErr result (λ f. Caused IsFunction height source.now f) }
    // Where first tokens of the source begin the language, the source, cut where the last of them ends, begins a text that is in it.
    ensures texts { (before : _) (left : _) → tokens_of source.now ≡ before ++ left → BeginsLanguage IsFunction before → BeginsText IsFunction source.now before }
    // Of those that have a place, it is the first for which the source has a cause.
    ensures first { (g : _) → IsCause IsFunction source.now g → IfErr result (λ f. ComesFirst f g) }
    // The fault that stands in a source is answered, unless memory runs out or a tree would be too deep.
    ensures exact { (f : _) → StandsInSource IsFunction height source.now f → FailsBy f result }
{
    let mut nodes = Nodes::new(alloc);
    let tree = function_tree(&mut nodes, source)?;
    let spans = spans_of(&nodes, source)?;
    let source = text_of(alloc, source)?;
    Ok(FunctionCode {
        source,
        tree,
        spans,
    })
}

/// Parses a script that came from this URL and has this number among the scripts of a run. The
/// earlier scripts declare these names at their top.
///
/// # Errors
///
/// As the fault says, the one that stands first in the source; `TooLong` before all else.
#[tactic(auto, using(js_parser_laws::proofs::Completeness::one_script, crate::proofs::TextLemmas::script_texts))]
pub fn parse_script(
    alloc: Global,
    source: &[u16],
    url: &str,
    number: u32,
    declared: &[Units],
) -> Result<Script, ParseFault>
    // What is answered is the source's tree.
    ensures found { IfOk result (λ x. IsSource (IsScript declared.now) height_of_statements source.now (statements_view x.body)) }
    ensures kept { IfOk result (λ x. (x.source ≡ source.now) × (x.url ≡ utf16_of url.now) × (x.number ≡ number)) }
    // The span of each node is that of its own tokens.
    ensures spans { IfOk result (λ x. AreSpansIn source.now x.spans (statements_places x.body)) }
    // The nodes are numbered 0, 1, .. in the order in which they end, and each number has a span.
    ensures numbered { IfOk result (λ x. numbers_of (statements_places x.body) ≡ range_with_len 0 (length x.spans)) }
    // A source of the language within the limits is answered with its tree, unless memory runs out.
    ensures only { (body : _) → IsSource (IsScript declared.now) height_of_statements source.now body → OkOrMemory (λ x. statements_view x.body ≡ body) result }
    // A source has at most one tree.
    ensures one { (ts : _) (a b : _) → IsScript declared.now ts a → IsScript declared.now ts b → a ≡ b }
    ensures long { MOST_UNITS < length source.now → result ≡ Err (TooLong (length source.now)) }
    // A fault that is answered stands in the source.
    ensures faults { IfErr result (λ f. Caused (IsScript declared.now) height_of_statements source.now f) }
    // Where first tokens of the source begin the language, the source, cut where the last of them ends, begins a text that is in it.
    ensures texts { (before : _) (left : _) → tokens_of source.now ≡ before ++ left → BeginsLanguage (IsScript declared.now) before → BeginsText (IsScript declared.now) source.now before }
    // Of those that have a place, it is the first for which the source has a cause.
    ensures first { (g : _) → IsCause (IsScript declared.now) source.now g → IfErr result (λ f. ComesFirst f g) }
    // The fault that stands in a source is answered, unless memory runs out or a tree would be too deep.
    ensures exact { (f : _) → StandsInSource (IsScript declared.now) height_of_statements source.now f → FailsBy f result }
{
    let mut nodes = Nodes::new(alloc);
    let body = script_tree(&mut nodes, source, declared)?;
    let spans = spans_of(&nodes, source)?;
    let url = url_of(alloc, url)?;
    let source = text_of(alloc, source)?;
    Ok(Script {
        number,
        url,
        source,
        body,
        spans,
    })
}

//! What holds of the terms of trees without numbers, and of the places of their nodes. The functions do nothing: the contract of each
//! is the law.

ghost use Rattle.std.specs.Prelude.{◌≡◌, [], length, ℕ, List};
ghost use Rattle.std.specs.List.{range_with_len};
ghost use Rattle.js_tree.specs.declared.tree.Expr.{Expr};
ghost use Rattle.js_tree.specs.declared.node.Span.{Span};
ghost use Rattle.js_tree.specs.Spans.{span_of};
ghost use Rattle.js_tree.specs.Views.{expression_view};
ghost use Rattle.js_parser_language.specs.Tokens.{Token};
ghost use Rattle.js_parser_language.specs.Places.{AreSpans, expression_places, numbers_of};
ghost use Rattle.js_semantics.specs.Sources.{expression_source};
ghost use Rattle.js_parser_numbering.specs.NodeSpans.{node_span};
ghost use Rattle.js_parser_numbering.specs.Numbered.{numbered_made};
ghost use Rattle.js_parser_numbering.specs.NumberedPlaces.{numbered_places};

/// Of an expression whose nodes are numbered 0, 1, .. in the order in which they end, its tree without numbers says all
/// that is made of it.
#[tactic(auto, using(crate::proofs::NumberedLaws::numbered_same))]
pub fn trees_say_what_is_made_of_numbered_ones()
    ensures { (e : Expr) (count : _) → numbers_of (expression_places e) ≡ range_with_len 0 count → numbered_made (expression_view e) ≡ expression_source e }
{}

/// Of such an expression its tree without numbers says where each node begins and ends.
#[tactic(auto, using(crate::proofs::NumberedPlaceLaws::placed_same))]
pub fn trees_say_where_numbered_nodes_stand()
    ensures { (e : Expr) (count : _) → numbers_of (expression_places e) ≡ range_with_len 0 count → numbered_places (expression_view e) ≡ expression_places e }
{}

/// Of such an expression the places of its nodes and the tokens of its source say the span of each node.
#[tactic(auto, using(crate::proofs::NodeSpanLemmas::span_found))]
pub fn places_say_the_spans_of_numbered_nodes()
    ensures { (spans : List Span) (e : Expr) (ts : List Token) → AreSpans spans (expression_places e) 0 ts [] → numbers_of (expression_places e) ≡ range_with_len 0 (length spans) → (n : ℕ) → span_of spans n ≡ node_span n (expression_places e) ts }
{}

//! Parts of expressions and statements, and lists of trees.
//!
//! Each function makes one part: `view` says what it is, `places` where its nodes stand.

ghost use Rattle.std.specs.Prelude.{◌≡◌, ◌∷◌, [], ◌++◌, map, suc, max};
ghost use Rattle.std.specs.Option.{option_map};
ghost use Rattle.js_lexer.specs.declared.token.TokenKind.TheVariants as kinds;
ghost use Rattle.js_tree.specs.Trees as trees;
ghost use Rattle.js_parser_language.specs.Tokens.{identifier_name, numeric_literal, string_literal};
ghost use Rattle.js_parser_language.specs.Flat.{a, an_identifier, flat_parameters, flat_catch_parameter};
ghost use Rattle.js_tree.specs.Height.{height, height_of_statements, height_of_key, height_of_property};
ghost use Rattle.js_tree.specs.Views.{optional_view, expressions, statements, properties, declarators, expression_view, property_view, key_view, statement_view, block_view, catch_view, declarator_view, declarators_view, expressions_view, properties_view, statements_view};
ghost use Rattle.js_parser_language.specs.Boxes.{unboxed};
ghost use Rattle.js_parser_language.specs.Places.{in_turn, plain, a_symbol, node_of, in_braces, with_commas, assign_if_some, expression_places, property_places, key_places, statement_places, block_places, catch_places, declarator_places, declarators_places, expressions_places, properties_places, statements_places};

use crate::expressions::value_of;
use cdp_text::units::Units;
use js_tree::integer::SafeInteger;
use js_tree::names::ParameterNames;
use js_tree::node::NodeId;
use js_tree::tree::{
    Block, Catch, Declarator, Declarators, Expr, Exprs, PropertyDefinition, PropertyDefinitions,
    PropertyName, Stmt, Stmts,
};

/// A name or a reserved word.
#[tactic(auto, using(js_tree::proofs::ViewLemmas::view_word_key, crate::proofs::PlaceLemmas::places_word_key))]
pub fn word_key(name: Units) -> PropertyName
    ensures view { key_view result ≡ trees.word_key name }
    ensures places { key_places result ≡ plain (a_symbol (identifier_name name)) }
{
    PropertyName::Word(name)
}

/// A string literal that stands for these units.
#[tactic(auto, using(js_tree::proofs::ViewLemmas::view_string_key, crate::proofs::PlaceLemmas::places_string_key))]
pub fn string_key(value: Units) -> PropertyName
    ensures view { key_view result ≡ trees.string_key value }
    ensures places { key_places result ≡ plain (a_symbol (string_literal value)) }
{
    PropertyName::StringLiteral(value)
}

/// A numeric literal of this value.
#[tactic(auto, using(js_tree::proofs::ViewLemmas::view_number_key, crate::proofs::PlaceLemmas::places_number_key))]
pub fn number_key(value: SafeInteger) -> PropertyName
    ensures view { key_view result ≡ trees.number_key value.value }
    ensures places { key_places result ≡ plain (a_symbol (numeric_literal value.value)) }
{
    PropertyName::NumericLiteral(value)
}

/// `[key]`.
#[tactic(auto, using(js_tree::proofs::ViewLemmas::view_computed_key, crate::proofs::PlaceLemmas::places_computed_key))]
pub fn computed_key(key: Box<Expr>) -> PropertyName
    ensures view { key_view result ≡ trees.computed_key (expression_view key.value) }
    ensures places { key_places result ≡ in_turn (plain (a kinds.LeftBracket) ∷ (expression_places key.value) ∷ plain (a kinds.RightBracket) ∷ []) }
{
    PropertyName::Computed(Box::into_inner(key))
}

/// `name`, which is short for `name: name`.
#[tactic(auto, using(js_tree::proofs::ViewLemmas::view_shorthand_property, crate::proofs::PlaceLemmas::places_shorthand_property))]
pub fn shorthand_property(name: Units) -> PropertyDefinition
    ensures view { property_view result ≡ trees.shorthand name }
    ensures places { property_places result ≡ plain (an_identifier name) }
{
    PropertyDefinition::Shorthand { name }
}

/// `key: value`.
#[tactic(auto, using(js_tree::proofs::ViewLemmas::view_property, crate::proofs::PlaceLemmas::places_property))]
pub fn property(key: Box<PropertyName>, value: Box<Expr>) -> PropertyDefinition
    ensures view { property_view result ≡ trees.value (key_view key.value) (expression_view value.value) }
    ensures places { property_places result ≡ in_turn ((key_places key.value) ∷ plain (a kinds.Colon) ∷ (expression_places value.value) ∷ []) }
    ensures height { height_of_property (property_view result) ≡ max (height_of_key (key_view key.value)) (height (expression_view value.value)) }
{
    PropertyDefinition::Value {
        key: Box::into_inner(key),
        value: Box::into_inner(value),
    }
}

/// `key(parameters) { body }`.
#[tactic(auto, using(js_tree::proofs::ViewLemmas::view_method, crate::proofs::PlaceLemmas::places_method))]
pub fn method(
    node: NodeId,
    key: Box<PropertyName>,
    parameters: ParameterNames,
    body: Stmts,
) -> PropertyDefinition
    ensures view { property_view result ≡ trees.method (key_view key.value) parameters (statements_view body) }
    ensures places { property_places result ≡ node_of node ((key_places key.value) ∷ plain (flat_parameters parameters) ∷ in_braces (statements_places body) ∷ []) }
    ensures height { height_of_property (property_view result) ≡ suc (max (height_of_key (key_view key.value)) (height_of_statements (statements_view body))) }
{
    PropertyDefinition::Method {
        node,
        key: Box::into_inner(key),
        parameters,
        body,
    }
}

/// A declared name with its first value.
#[tactic(auto, using(js_tree::proofs::ViewLemmas::view_declarator, crate::proofs::PlaceLemmas::places_declarator))]
pub fn declarator(name: Units, initializer: Option<Box<Expr>>) -> Declarator
    ensures view { declarator_view result ≡ trees.declarator name (optional_view (unboxed initializer)) }
    ensures places { declarator_places result ≡ plain (an_identifier name) ++ assign_if_some (option_map expression_places (unboxed initializer)) }
{
    Declarator {
        name,
        initializer: value_of(initializer),
    }
}

/// `{ body }`.
#[tactic(auto, using(js_tree::proofs::ViewLemmas::view_block, crate::proofs::PlaceLemmas::places_block))]
pub fn block(node: NodeId, body: Stmts) -> Block
    ensures view { block_view result ≡ statements_view body }
    ensures places { block_places result ≡ node_of node (in_braces (statements_places body) ∷ []) }
{
    Block { node, body }
}

/// `catch (parameter) block`.
#[tactic(auto, using(js_tree::proofs::ViewLemmas::view_catch, crate::proofs::PlaceLemmas::places_catch))]
pub fn catch_clause(parameter: Option<Units>, block: Block) -> Catch
    ensures view { catch_view result ≡ trees.catch parameter (block_view block) }
    ensures places { catch_places result ≡ in_turn (plain (a kinds.Catch) ∷ plain (flat_catch_parameter parameter) ∷ block_places block ∷ []) }
{
    Catch { parameter, block }
}

/// Expressions in order, in the memory of the vector.
#[tactic(auto, using(js_tree::proofs::ViewLemmas::view_expressions, crate::proofs::PlaceLemmas::places_expressions))]
pub fn expressions_of(items: Vec<Expr>) -> Exprs
    ensures view { expressions_view result ≡ expressions (map expression_view items.items) }
    ensures places { expressions_places result ≡ with_commas (map expression_places items.items) }
{
    Exprs { items }
}

/// Statements in order, in the memory of the vector.
#[tactic(auto, using(js_tree::proofs::ViewLemmas::view_statements, crate::proofs::PlaceLemmas::places_statements))]
pub fn statements_of(items: Vec<Stmt>) -> Stmts
    ensures view { statements_view result ≡ statements (map statement_view items.items) }
    ensures places { statements_places result ≡ in_turn (map statement_places items.items) }
{
    Stmts { items }
}

/// Members of an object literal in order, in the memory of the vector.
#[tactic(auto, using(js_tree::proofs::ViewLemmas::view_properties, crate::proofs::PlaceLemmas::places_properties))]
pub fn properties_of(items: Vec<PropertyDefinition>) -> PropertyDefinitions
    ensures view { properties_view result ≡ properties (map property_view items.items) }
    ensures places { properties_places result ≡ with_commas (map property_places items.items) }
{
    PropertyDefinitions { items }
}

/// Declared names in order, in the memory of the vector.
#[tactic(auto, using(js_tree::proofs::ViewLemmas::view_declarators, crate::proofs::PlaceLemmas::places_declarators))]
pub fn declarators_of(items: Vec<Declarator>) -> Declarators
    ensures view { declarators_view result ≡ declarators (map declarator_view items.items) }
    ensures places { declarators_places result ≡ with_commas (map declarator_places items.items) }
{
    Declarators { items }
}

//! Numbering the nodes of a tree, with their spans.

ghost use Rattle.std.specs.Prelude.{◌≡◌, ◌∷◌, ◌++◌, [], length, map, All, IfOk, OnOk, OnErr, IfSome};
ghost use Rattle.js_tree.specs.Spans.{IsWithin};
ghost use Rattle.js_parser_language.specs.Places as places;
ghost use Rattle.js_parser_language.specs.Tokens.{head_of};
ghost use Rattle.js_parser_readers.specs.Places as spec;
ghost use Rattle.js_parser_readers.specs.Views.{tokens_view};

use js_lexer::token::Token;
use js_tree::node::{NodeId, Span, Spans};
use std::alloc::{AllocError, Global};
use std::marker::Model;

/// The spans of the nodes made so far, by their numbers, and the memory that trees are made in.
/// Contracts see a list of spans.
#[derive(Drop)]
pub struct Nodes {
    alloc: Global,
    spans: Vec<Span>,
}

impl Model for Nodes {
    ghost use Rattle.std.specs.Prelude.{List};
    ghost use Rattle.js_tree.specs.declared.node.Span.{Span};

    ghost Value = { List Span };

    ghost view = { λ nodes. nodes.spans.items };
}

/// Where the first token begins, and 0 where there is none.
fn start_of(tokens: &[Token<'_>]) -> usize
    ensures { result ≡ places.start_of (head_of (tokens_view tokens.now)) }
{
    match tokens {
        [first, ..] => first.start,
        [] => 0,
    }
}

/// Where the last of the tokens before the rest of them ends, and 0 where there is none. `None`
/// where that is above the greatest `usize`.
fn end_before(tokens: &[Token<'_>], rest: &[Token<'_>]) -> Option<usize>
    ensures { IfSome result (λ end. end ≡ spec.end_before (tokens_view tokens.now) (tokens_view rest.now)) }
{
    let last = tokens.len().saturating_sub(rest.len()).saturating_sub(1);
    match tokens.get(last) {
        Some(token) => token.start.checked_add(token.text.len()),
        None => Some(0),
    }
}

/// A span with what lies beyond the end of its source cut off.
fn cut_at(end: usize, span: Span) -> Span
    ensures { result ≡ spec.cut_at end span }
{
    let end = end.min(span.end);
    Span {
        start: span.start.min(end),
        end,
    }
}

impl Nodes {
    /// No nodes. It takes no memory.
    pub fn new(alloc: Global) -> Nodes
        ensures { result ≡ [] }
    {
        Nodes {
            alloc,
            spans: Vec::new(alloc),
        }
    }

    /// The memory that trees are made in.
    pub fn alloc(&self) -> Global {
        self.alloc
    }

    /// Numbers a node that was read from the first of the tokens up to the rest of them.
    ///
    /// # Errors
    ///
    /// No memory, also for a number above the greatest `u32`, or an end above the greatest `usize`.
    pub fn add(&mut self, tokens: &[Token<'_>], rest: &[Token<'_>]) -> Result<NodeId, AllocError>
        ensures span { OnOk result (self.new ≡ self.old ++ spec.span_between (tokens_view tokens.now) (tokens_view rest.now) ∷ []) }
        ensures number { IfOk result (λ node. node.0 ≡ length self.old) }
        ensures unchanged { OnErr result (self.new ≡ self.old) }
    {
        let Ok(number) = u32::try_from(self.spans.len()) else {
            return Err(AllocError);
        };
        let Some(end) = end_before(tokens, rest) else {
            return Err(AllocError);
        };
        self.spans.push(Span {
            start: start_of(tokens),
            end,
        })?;
        Ok(NodeId(number))
    }

    /// The spans of all nodes, in a source of so many units, beyond whose end none reaches.
    ///
    /// # Errors
    ///
    /// No memory.
    pub fn spans_within(&self, end: usize) -> Result<Spans, AllocError>
        ensures spans { IfOk result (λ spans. spans ≡ map (spec.cut_at end) self.now) }
        ensures within { IfOk result (λ spans. All (IsWithin end) spans) }
    {
        let mut items = Vec::new(self.alloc);
        for span in &self.spans {
            items.push(cut_at(end, *span))?;
        }
        Ok(Spans::from_vec(items))
    }
}

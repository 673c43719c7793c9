//! Numbers of nodes, and their places in a source.

ghost use Rattle.std.specs.Prelude.{◌≡◌, length};
ghost use Rattle.js_tree.specs.Spans.{span_of};

use std::marker::Model;

/// The number of a statement, an expression, a method or the arguments of a call within its tree.
#[derive(Clone, Copy)]
pub struct NodeId(pub u32);

/// A part of a source: the code units from `start` up to but not including `end`, counted from 0.
#[derive(Clone, Copy)]
pub struct Span {
    /// How many units stand before it.
    pub start: usize,
    /// How many units stand before what follows it.
    pub end: usize,
}

/// The spans of a tree's nodes, by their numbers. Contracts see a list of spans.
#[derive(Drop)]
pub struct Spans {
    items: Vec<Span>,
}

impl Model for Spans {
    ghost use Rattle.std.specs.Prelude.{List};
    ghost use Rattle.js_tree.specs.declared.node.Span.{Span};

    ghost Value = { List Span };

    ghost view = { λ spans. spans.items.items };
}

impl Spans {
    /// The spans in the memory of the vector.
    pub fn from_vec(items: Vec<Span>) -> Spans
        ensures { result ≡ items.items }
    {
        Spans { items }
    }

    /// How many spans there are.
    pub fn len(&self) -> usize
        ensures { result ≡ length self.now }
    {
        self.items.len()
    }

    /// The span of a node; of a number that no node has, the empty one at the start.
    pub fn of(&self, node: NodeId) -> Span
        ensures { result ≡ span_of self.now node.0 }
    {
        match self.items.get(node.0 as usize) {
            Some(span) => *span,
            None => Span { start: 0, end: 0 },
        }
    }
}

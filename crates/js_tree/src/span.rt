//! The spans of nodes in their sources.

ghost use Rattle.std.specs.Prelude.{◌≡◌, length};
ghost use Rattle.js_tree.specs.Spans.{IsWithin, span_of, units_in};
ghost use Rattle.js_tree.specs.Kept.{source_of, spans_of};

use crate::node::{NodeId, Span};
use crate::script::{Kept, Script};

/// The span of a node of a script; of a number that no node has, the empty one at the start.
pub fn span(script: &Script, node: NodeId) -> Span
    ensures span { result ≡ span_of script.now.spans node.0 }
    ensures within { IsWithin (length script.now.source) result }
{
    script.spans.of(node)
}

/// The span of a node of a kept tree; of a number that no node has, the empty one at the start.
pub fn span_in(code: &Kept, node: NodeId) -> Span
    ensures span { result ≡ span_of (spans_of code.now) node.0 }
    ensures within { IsWithin (length (source_of code.now)) result }
{
    match code {
        Kept::Expression(expression) => expression.spans.of(node),
        Kept::Function(function) => function.spans.of(node),
    }
}

/// The units of a span, as far as there are so many.
pub fn units_in(span: Span, units: &[u16]) -> &[u16]
    ensures { result.now ≡ units_in span units.now }
{
    let end = span.end.min(units.len());
    if span.start < end {
        &units[span.start..end]
    } else {
        &[]
    }
}

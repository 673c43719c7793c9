//! Where marks are in the scripts.

ghost use Rattle.std.specs.Prelude.{◌≡◌};
ghost use Rattle.js_tree.specs.Spans.{span_of};
ghost use Rattle.js_semantics.specs.Frames.{offset_of};
ghost use Rattle.js_machine_inspection.specs.Sources.{spans_in};

use js_semantics::form::{Mark, Source};
use js_tree::node::{NodeId, Span};
use js_tree::script::Script;

/// The span of a node of a source; in a source that is none of the scripts, the empty one at the start.
pub fn span_in(scripts: &[Script], source: Source, node: u32) -> Span
    ensures { result ≡ span_of (spans_in scripts.now source) node }
{
    let Source::Script(number) = source else {
        return Span { start: 0, end: 0 };
    };
    if number == 0 {
        return Span { start: 0, end: 0 };
    }
    match scripts.get(number as usize - 1) {
        Some(script) => script.spans.of(NodeId(node)),
        None => Span { start: 0, end: 0 },
    }
}

/// Where a mark is in a source, in code units.
pub fn offset_in(scripts: &[Script], source: Source, mark: Mark) -> usize
    ensures { result ≡ offset_of (spans_in scripts.now source) mark }
{
    match mark {
        Mark::Beginning => 0,
        Mark::Start(node) => span_in(scripts, source, node).start,
        Mark::BeforeEnd(node, back) => span_in(scripts, source, node).end.saturating_sub(back),
    }
}

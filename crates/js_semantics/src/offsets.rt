//! Where marks are in a source.

ghost use Rattle.std.specs.Prelude.{◌≡◌, ◌≤◌, length};
ghost use Rattle.js_semantics.specs.Frames.{offset_of};

use crate::form::Mark;
use js_tree::node::NodeId;
use js_tree::script::Script;
use js_tree::span::span;

/// The offset of a mark in a script, in code units; at most the source's length.
pub fn offset_of(script: &Script, mark: Mark) -> usize
    ensures offset { result ≡ offset_of script.now.spans mark }
    ensures within { result ≤ length script.now.source }
{
    match mark {
        Mark::Beginning => 0,
        Mark::Start(node) => span(script, NodeId(node)).start,
        Mark::BeforeEnd(node, back) => span(script, NodeId(node)).end.saturating_sub(back),
    }
}

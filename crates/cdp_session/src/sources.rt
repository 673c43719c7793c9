//! Where the sources of the functions stand that evaluations made.

use cdp_text::units::Units;
use js_parser::node_text::node_text;
use js_tree::node::NodeId;
use remote_objects::FunctionSources;
use std::alloc::{AllocError, Global};

/// The texts that were evaluated, which are parsed again where a function in them is described.
#[derive(Clone, Copy)]
pub(crate) struct EvaluatedTexts;

impl FunctionSources for EvaluatedTexts {
    ghost use Rattle.js_parser.specs.NodeTexts.{node_text};

    ghost node_text = { node_text };

    fn node_text(&self, alloc: Global, text: &[u16], node: u32) -> Result<Units, AllocError> {
        node_text(alloc, text, NodeId(node))
    }
}

//! The text of a node of an expression.

ghost use Rattle.std.specs.Prelude.{◌≡◌, IfOk};
ghost use Rattle.js_parser.specs.NodeTexts as texts;

use crate::parse::parse_expression;
use cdp_text::units::Units;
use js_parser_readers::fault::ParseFault;
use js_tree::node::NodeId;
use js_tree::span::units_in;
use std::alloc::{AllocError, Global};

/// Whether memory ran out.
pub fn lacks_memory(fault: ParseFault) -> bool
    ensures { result ≡ texts.lacks_memory fault }
{
    match fault {
        ParseFault::Memory => true,
        _ => false,
    }
}

/// The text of the node of this number in a text that is an expression, which a function is too; empty where the text is none, or no
/// node of it has the number.
///
/// # Errors
///
/// There is no memory for it.
pub fn node_text(alloc: Global, text: &[u16], node: NodeId) -> Result<Units, AllocError>
    ensures { IfOk result (λ units. units ≡ texts.node_text text.now node.0) }
{
    match parse_expression(alloc, text) {
        Ok(expression) => Units::from_slice(alloc, units_in(expression.spans.of(node), text)),
        Err(fault) => {
            if lacks_memory(fault) {
                Err(AllocError)
            } else {
                Units::from_slice(alloc, &[])
            }
        }
    }
}

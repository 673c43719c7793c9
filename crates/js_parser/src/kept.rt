//! What an answer keeps beside its tree.

ghost use Rattle.std.specs.Prelude.{◌≡◌, length, All, IfErr, IfOk, List};
ghost use Rattle.cdp_text.specs.Units.{utf16_of};
ghost use Rattle.js_parser_readers.specs.declared.fault.ParseFault.TheVariants.{Memory};
ghost use Rattle.js_parser_language.specs.Places.{FlatPlace};
ghost use Rattle.js_tree.specs.Spans.{IsWithin};
ghost use Rattle.js_parser_readers.specs.Placed.{IsForward};
ghost use Rattle.js_parser.specs.Spans.{AreSpansIn};

use cdp_text::units::{Units, units_of};
use js_parser_readers::fault::ParseFault;
use js_parser_readers::nodes::Nodes;
use js_tree::node::Spans;
use std::alloc::Global;

/// The text of a source.
pub fn text_of(alloc: Global, source: &[u16]) -> Result<Units, ParseFault>
    ensures text { IfOk result (λ text. text ≡ source.now) }
    ensures fault { IfErr result (λ f. f ≡ Memory) }
{
    Units::from_slice(alloc, source).map_err(|_| ParseFault::Memory)
}

/// The UTF-16 form of a URL.
pub fn url_of(alloc: Global, url: &str) -> Result<Units, ParseFault>
    ensures url { IfOk result (λ units. units ≡ utf16_of url.now) }
    ensures fault { IfErr result (λ f. f ≡ Memory) }
{
    units_of(alloc, url).map_err(|_| ParseFault::Memory)
}

/// The spans of the nodes that were made for a source.
pub fn spans_of(nodes: &Nodes, source: &[u16]) -> Result<Spans, ParseFault>
    ensures counted { IfOk result (λ spans. length spans ≡ length nodes.now) }
    ensures within { IfOk result (λ spans. All (IsWithin (length source.now)) spans) }
    ensures exact { IfOk result (λ spans. (places : List FlatPlace) → AreSpansIn source.now nodes.now places → All IsForward nodes.now → AreSpansIn source.now spans places) }
    ensures fault { IfErr result (λ f. f ≡ Memory) }
{
    match nodes.spans_within(source.len()) {
        Ok(spans) => Ok(spans),
        Err(_) => Err(ParseFault::Memory),
    }
}

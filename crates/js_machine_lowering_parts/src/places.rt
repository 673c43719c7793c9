//! Where a part of a tree stands.

ghost use Rattle.std.specs.Prelude.{◌≡◌};
ghost use Rattle.js_semantics.specs.Makers as makers;
ghost use Rattle.js_machine_lowering_parts.specs.Sources.{context_of};

use js_semantics::form::Source;

/// Where a part stands: its source, the node of its statement, and the name that it gives to a function without one.
#[derive(Clone, Copy)]
pub struct LoweringContext<'a> {
    pub source: Source,
    pub statement: u32,
    pub name: &'a [u16],
}

/// The place of a part that gives no name.
pub fn unnamed<'a>(place: LoweringContext<'a>) -> LoweringContext<'a>
    ensures { context_of result ≡ makers.unnamed (context_of place.entry) }
{
    LoweringContext {
        source: place.source,
        statement: place.statement,
        name: &[],
    }
}

/// The place of a part that gives this name.
pub fn naming<'a, 'b>(name: &'a [u16], place: LoweringContext<'b>) -> LoweringContext<'a>
    ensures { context_of result ≡ makers.naming name.now (context_of place.entry) }
{
    LoweringContext {
        source: place.source,
        statement: place.statement,
        name,
    }
}

/// The place of the parts of a statement.
pub fn within<'a>(node: u32, place: LoweringContext<'a>) -> LoweringContext<'a>
    ensures { context_of result ≡ makers.within node (context_of place.entry) }
{
    LoweringContext {
        source: place.source,
        statement: node,
        name: &[],
    }
}

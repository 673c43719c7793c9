//! The arguments of a function that is called (Chrome DevTools Protocol 1.3, `Runtime.CallArgument`).

ghost use Rattle.std.specs.Prelude.{◌≡◌, map};
ghost use Rattle.cdp_json.specs.ArgumentViews.{argument_view};

use crate::value::Json;
use cdp_text::units::Units;
use std::marker::Model;

/// What a function is called with.
#[derive(Drop)]
pub enum Argument {
    /// A value, whose numbers are integers from -(2^53-1) to 2^53-1. The members of its objects are in ascending order of
    /// the UTF-8 bytes of their names.
    Value(Json),
    /// The object of a handle.
    Object { object_id: Units },
    /// An argument that names neither.
    Undefined,
}

/// The arguments of a call, in order.
#[derive(Drop)]
pub struct Arguments {
    items: Vec<Argument>,
}

impl Model for Arguments {
    ghost use Rattle.std.specs.Prelude.{List, map};
    ghost use Rattle.std.specs.Coded.{codes};
    ghost use Rattle.cdp_json.specs.ArgumentViews.{argument_view};
    ghost use Rattle.cdp_json.specs.Arguments as arguments;
    ghost use Rattle.cdp_json.specs.JsonCodes.{json_coded};

    ghost Value = { List arguments.Argument };

    ghost coded = { Prim.hlevel (codes, json_coded) };

    ghost view = { λ a. map argument_view a.items.items };
}

impl Arguments {
    /// These arguments, in the memory of the vector.
    pub fn from_vec(items: Vec<Argument>) -> Arguments
        ensures { result ≡ map argument_view items.items }
    {
        Arguments { items }
    }

    /// The arguments, in the memory of the list.
    pub fn into_vec(self) -> Vec<Argument>
        ensures { map argument_view result.items ≡ self }
    {
        self.items
    }

    /// The arguments.
    pub fn as_slice(&self) -> &[Argument]
        ensures { map argument_view result.now ≡ self.now }
    {
        self.items.as_slice()
    }
}

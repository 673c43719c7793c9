//! Lists of names.

ghost use Rattle.std.specs.Prelude.{◌≡◌, length};

use cdp_text::units::Units;
use std::marker::Model;

/// The names of parameters, in order. Contracts see a list of the names' code units.
#[derive(Drop)]
pub struct ParameterNames {
    items: Vec<Units>,
}

impl Model for ParameterNames {
    ghost use Rattle.std.specs.Prelude.{List, ℕ};
    ghost use Rattle.std.specs.Coded.{coded_ℕ, coded_list};

    ghost Value = { List (List ℕ) };

    ghost coded = { coded_list (coded_list coded_ℕ) };

    ghost view = { λ names. names.items.items };
}

impl ParameterNames {
    /// The names in the memory of the vector.
    pub fn from_vec(items: Vec<Units>) -> ParameterNames
        ensures { result ≡ items.items }
    {
        ParameterNames { items }
    }

    /// The names.
    pub fn as_slice(&self) -> &[Units]
        ensures { result.now ≡ self.now }
    {
        self.items.as_slice()
    }

    /// How many names there are.
    pub fn len(&self) -> usize
        ensures { result ≡ length self.now }
    {
        self.items.len()
    }
}

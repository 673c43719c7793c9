//! Texts of UTF-16 code units, the form in which ECMA-262 sees sources and strings, and their way from and to UTF-8.
ghost use Rattle.std.specs.Prelude.{◌≡◌, ◌==◌, [], length, nat_eq, decimal, IfOk, IsTrue, ◌↔◌, string_bytes};
ghost use Rattle.std.specs.Cmp.Lexicographic.{pointwise};
ghost use Rattle.std.specs.Cmp.Rules.{comparing};
ghost use Rattle.std.proofs.Common.{rules};
ghost use Rattle.cdp_text.specs.Units.{utf16_of, utf8_of};

use std::alloc::{AllocError, Global};
use std::marker::Model;

/// A text of UTF-16 code units. It may hold surrogates that have no partner.
#[derive(Drop)]
pub struct Units {
    items: Vec<u16>,
}

impl Model for Units {
    ghost use Rattle.std.specs.Prelude.{List, ℕ};
    ghost use Rattle.std.specs.Coded.{coded_ℕ, coded_list};

    ghost Value = { List ℕ };

    ghost coded = { coded_list coded_ℕ };

    ghost view = { λ u. u.items.items };
}

impl Units {
    /// The text of these units, in the memory of the vector.
    pub fn from_vec(items: Vec<u16>) -> Units
        ensures { result ≡ items.items }
    {
        Units { items }
    }

    /// A copy of these units.
    pub fn from_slice(alloc: Global, items: &[u16]) -> Result<Units, AllocError>
        ensures { IfOk result (λ u. u ≡ items.now) }
    {
        let items = Vec::from_slice(alloc, items)?;
        Ok(Units { items })
    }

    /// The units, in the memory of the text.
    pub fn into_vec(self) -> Vec<u16>
        ensures { result.items ≡ self }
    {
        self.items
    }

    /// The units.
    pub fn as_slice(&self) -> &[u16]
        ensures { result.now ≡ self.now }
    {
        self.items.as_slice()
    }

    /// How many units there are.
    pub fn len(&self) -> usize
        ensures { result ≡ length self.now }
    {
        self.items.len()
    }

    /// Whether there is no unit.
    pub fn is_empty(&self) -> bool
        ensures { IsTrue result ↔ (self.now ≡ []) }
    {
        self.items.is_empty()
    }

    /// A copy of the text.
    pub fn clone(&self) -> Result<Units, AllocError>
        ensures { IfOk result (λ copy. copy ≡ self.now) }
    {
        let items = self.items.clone()?;
        Ok(Units { items })
    }
}

impl PartialEq for Units {
    ghost eq = { pointwise nat_eq };

    ghost laws = { Prim.search (comparing, rules) };

    fn eq(&self, other: &Units) -> bool {
        self.items == other.items
    }
}

impl Eq for Units {
    ghost laws = { Prim.search (comparing, rules) };
}

/// The text of these bytes, one unit for each.
pub fn ascii(alloc: Global, bytes: &[u8]) -> Result<Units, AllocError>
    ensures { IfOk result (λ units. units ≡ bytes.now) }
{
    let mut items = Vec::with_capacity(alloc, bytes.len())?;
    for byte in bytes {
        items.push(u16::from(*byte))?;
    }
    Ok(Units::from_vec(items))
}

/// The decimal digits of a number.
pub fn decimal_units(alloc: Global, number: usize) -> Result<Units, AllocError>
    ensures { IfOk result (λ units. units ≡ decimal number) }
{
    let digits = format!(in alloc; "{number}")?;
    ascii(alloc, digits.as_bytes())
}

/// The UTF-16 form of a text.
pub fn units_of(alloc: Global, s: &str) -> Result<Units, AllocError>
    ensures form { IfOk result (λ u. u ≡ utf16_of s.now) }
    ensures undone { IfOk result (λ u. utf8_of u ≡ s.now) }
{
    let mut items = Vec::with_capacity(alloc, s.len())?;
    for c in s.chars() {
        let mut pair = [0; 2];
        items.extend_from_slice(c.encode_utf16(&mut pair))?;
    }
    Ok(Units { items })
}

#[tactic(auto, unfolding(crate::specs::Units::utf8_of))]
/// The text that units spell. Each surrogate that has no partner becomes U+FFFD.
pub fn text_of(alloc: Global, u: &[u16]) -> Result<String, AllocError>
    ensures { IfOk result (λ text. string_bytes text ≡ utf8_of u.now) }
{
    String::from_utf16_lossy(alloc, u)
}

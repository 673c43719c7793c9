//! What cells count, and the units that are left.

ghost use Rattle.std.specs.Prelude.{◌≡◌, ◌+◌, ◌-◌, ◌*◌, ◌^◌, List, ℕ, length, min};
ghost use Rattle.js_heap.specs.Cells.{properties_weight, weight};
ghost use Rattle.js_heap_memory.specs.Cells.{cell_of};
ghost use Rattle.js_heap_memory.specs.Units.{Taken, GivenBack};

use crate::properties::PropertyMap;
use crate::stored::Stored;
use crate::world::Refused;
use js_heap::change::Counted;

/// What is left of the units once so many are taken.
pub fn taken(units_left: u32, units: u64) -> Result<u32, Refused>
    ensures { Taken units_left units result }
{
    if u64::from(units_left) < units {
        return Err(Refused::Full(Counted::Units));
    }
    Ok(units_left - units as u32)
}

/// What is left of the units once so many are given back, as far as 32 bits say it.
pub fn given_back(units_left: u32, units: u64) -> Result<u32, Refused>
    ensures { GivenBack units_left units result }
{
    let Some(left) = u64::from(units_left).checked_add(units) else {
        return Err(Refused::Memory);
    };
    match u32::try_from(left) {
        Ok(left) => Ok(left),
        Err(_) => Err(Refused::Memory),
    }
}

/// What a property of a key counts.
pub fn key_weight(key: &[u16]) -> u64
    ensures { result ≡ 8 + length key.now }
{
    8 + key.len() as u64
}

/// What so many elements or names count; at most what 64 bits say.
pub fn eight_each(count: usize) -> u64
    ensures { result ≡ min (8 * count) (2 ^ 64 - 1) }
{
    (count as u64).saturating_mul(8)
}

/// What properties count; at most what 64 bits say.
fn properties_weight(properties: &PropertyMap) -> u64
    ensures { result ≡ min (properties_weight properties.now) (2 ^ 64 - 1) }
{
    let mut total = 0u64;
    for i in 0..properties.len() {
        if let Some(property) = properties.get(i) {
            total = total.saturating_add(key_weight(property.key.as_slice()));
        }
    }
    total
}

/// What a cell counts when it is made; at most what 64 bits say.
#[tactic(auto, using(crate::proofs::ScopeLemmas::length_rules))]
pub fn weight(cell: &Stored) -> u64
    ensures { (names : List (List ℕ)) → result ≡ min (weight (cell_of names cell.now)) (2 ^ 64 - 1) }
{
    match cell {
        Stored::Object { properties } => properties_weight(properties),
        Stored::Error { properties, .. } => properties_weight(properties),
        Stored::Array { elements } => eight_each(elements.slice().len()),
        Stored::Text { units } => units.len() as u64,
        Stored::Function(_) => 0,
        Stored::Scope { slots, .. } => eight_each(slots.slice().len()),
    }
}

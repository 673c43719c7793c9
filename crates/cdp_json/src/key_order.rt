//! The order in which an object's members are written.

ghost use Rattle.std.specs.Prelude.{◌≡◌, ◌<◌, map, length, All, IfOk};
ghost use Rattle.std.specs.List.{range_with_len};
ghost use Rattle.cdp_json.specs.KeyOrder.{ascends, order_of};

use crate::value::Member;
use std::alloc::{AllocError, Global};
use std::collections::BTreeSet;

/// Whether each key is at most the one behind it.
fn ascends(members: &[Member]) -> bool
    ensures { result ≡ ascends (map (λ m. m.key) members.now) }
{
    let Some((first, others)) = members.split_first() else {
        return true;
    };
    let mut last = first;
    let mut rest = others;
    while let Some((member, others)) = rest.split_first() {
        if last.key.as_slice() > member.key.as_slice() {
            return false;
        }
        last = member;
        rest = others;
    }
    true
}

/// So many places, from the first on.
fn places_to(alloc: Global, count: usize) -> Result<Vec<usize>, AllocError>
    ensures { IfOk result (λ places. places.items ≡ range_with_len 0 count) }
{
    let mut places = Vec::with_capacity(alloc, count)?;
    for place in 0..count {
        places.push(place)?;
    }
    Ok(places)
}

/// The places of members, in ascending order of the units of their keys; of equal keys the earlier one comes first.
pub(crate) fn key_order(alloc: Global, members: &[Member]) -> Result<Vec<usize>, AllocError>
    ensures order { IfOk result (λ places. places.items ≡ order_of (map (λ m. m.key) members.now)) }
    ensures within { IfOk result (λ places. All (λ place. place < length members.now) places.items) }
{
    if ascends(members) {
        return places_to(alloc, members.len());
    }
    let mut ordered = BTreeSet::new(alloc);
    for (place, member) in members.iter().enumerate() {
        ordered.insert((member.key.as_slice(), place))?;
    }
    let mut places = Vec::with_capacity(alloc, members.len())?;
    for entry in ordered.iter() {
        places.push(entry.1)?;
    }
    Ok(places)
}

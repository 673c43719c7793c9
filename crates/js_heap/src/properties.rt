//! The own properties of an object, in their order.

ghost use Rattle.std.specs.Prelude.{◌≡◌, ◌≤◌, length};
ghost use Rattle.js_heap.specs.Places.{key_place, new_place};

use crate::cell::Property;
use crate::keys::{index_of_key, same_units, stands_before};

/// The place of a key's property; the length where there is none.
pub fn key_place(properties: &[Property], key: &[u16]) -> usize
    ensures { result ≡ key_place properties.now key.now }
{
    for i in 0..properties.len() {
        if same_units(properties[i].key.as_slice(), key) {
            return i;
        }
    }
    properties.len()
}

/// The place of a new property whose key is this array index, or none.
pub fn new_place(properties: &[Property], index: Option<u32>) -> usize
    ensures place { result ≡ new_place properties.now index }
    ensures within { result ≤ length properties.now }
{
    for i in 0..properties.len() {
        if stands_before(index, index_of_key(properties[i].key.as_slice())) {
            return i;
        }
    }
    properties.len()
}

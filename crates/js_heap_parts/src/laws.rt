//! The laws of parts. Each function does nothing: its contract is the law, for every cell.

ghost use Rattle.js_heap_parts.specs.Laws.{HaveOwnKeys, HaveProperties, HaveElements};

/// The keys of the parts are the own keys of the object, or the names of the scope that have a value, in their order.
pub fn parts_have_own_keys()
    ensures { HaveOwnKeys }
{}

/// The part of a key is the property of that key, with its value and its flags; without a property there is none.
pub fn parts_have_properties()
    ensures { HaveProperties }
{}

/// The part at an index is the element there, and behind the elements stands the length.
pub fn parts_have_elements()
    ensures { HaveElements }
{}

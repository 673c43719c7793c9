//! Properties in a plain list.

ghost use Rattle.std.specs.Prelude.{◌≡◌, ◌<◌, length};
ghost use Rattle.js_heap_memory.specs.PropertyOrder.{with_value_at};

use js_heap::cell::Property;
use js_heap::value::Value;

/// Gives the property at a place a value.
pub fn set_value(items: &mut Vec<Property>, place: usize, value: Value)
    requires { place < length items.old.items }
    ensures { items.new.items ≡ with_value_at items.old.items place value }
{
    items[place].value = value;
}

//! The laws of descriptors, previews and values by value. Each function does nothing: its contract is the law.

ghost use Rattle.remote_objects.specs.Laws.{DescribesEach, NamesAreKeys, ListsFirstKeys, SaysWhetherMore, IgnoresLevels};

/// Each property of a target is described once, in order.
pub fn each_property_is_described()
    ensures { DescribesEach }
{}

/// The properties of an object are named by its own keys, in order.
pub fn own_keys_are_the_names()
    ensures { NamesAreKeys }
{}

/// A preview lists the first of an object's enumerable keys, and says whether there are more.
pub fn previews_list_the_first_keys()
    ensures first { ListsFirstKeys }
    ensures more { SaysWhetherMore }
{}

/// A value by value is the same however many more levels are looked at.
pub fn levels_make_no_difference()
    ensures { IgnoresLevels }
{}

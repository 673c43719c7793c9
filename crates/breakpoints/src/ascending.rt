//! Vectors whose values ascend, so that each stands once.

ghost use Rattle.std.specs.Prelude.{◌≡◌, ◌+◌, ◌<◌, ◌≤◌, vec_len, vec_capacity};
ghost use Rattle.std.specs.List.{list_any};
ghost use Rattle.std.specs.List.Sorted.{IsStrictlySortedBy};
ghost use Rattle.std.specs.BTreeMap.{is_at};
ghost use Rattle.std.specs.BTreeSet.{insert_key};
ghost use Rattle.std.specs.Set.{remove_key};
ghost use Rattle.breakpoints.specs.Ascending.{IsSearched};

/// Where a value stands among ascending ones, or else where it would. By halving.
fn search<T: Ord>(values: &[T], value: &T) -> Result<usize, usize>
    requires { IsStrictlySortedBy T.cmp values.now }
    ensures { IsSearched T.cmp values.now value.now result }
{
    values.binary_search(value)
}

/// Whether a value is among ascending ones. By halving.
pub(crate) fn is_among<T: Ord>(values: &[T], value: &T) -> bool
    requires { IsStrictlySortedBy T.cmp values.now }
    ensures { result ≡ list_any (is_at (T.cmp value.now)) values.now }
{
    search(values, value).is_ok()
}

/// Puts a value among ascending ones, unless it is there. There is room for one more.
pub(crate) fn put<T: Ord + Copy>(values: &mut Vec<T>, value: T)
    requires ascending { IsStrictlySortedBy T.cmp values.old.items }
    requires room { vec_len values.old < vec_capacity values.old }
    ensures put { values.new.items ≡ insert_key T.cmp values.old.items value }
    ensures ascending { IsStrictlySortedBy T.cmp values.new.items }
    ensures len { vec_len values.new ≤ vec_len values.old + 1 }
    ensures capacity { vec_capacity values.old ≤ vec_capacity values.new }
{
    match search(values.as_slice(), &value) {
        Ok(_) => {}
        Err(place) => values.insert(place, value).unwrap(),
    }
}

/// Takes a value out of ascending ones, if it is there.
pub(crate) fn take_out<T: Ord + Drop>(values: &mut Vec<T>, value: &T)
    requires { IsStrictlySortedBy T.cmp values.old.items }
    ensures taken { values.new.items ≡ remove_key (is_at (T.cmp value.now)) values.old.items }
    ensures ascending { IsStrictlySortedBy T.cmp values.new.items }
{
    match search(values.as_slice(), value) {
        Ok(place) => {
            values.remove(place);
        }
        Err(_) => {}
    }
}

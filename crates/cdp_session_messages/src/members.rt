//! Members of objects, put behind others.

ghost use Rattle.std.specs.Prelude.{◌≡◌, ◌≤◌, ◌^◌, ◌++◌, ◌∷◌, [], map, pos, option_to_list, OnErr, OnOk};
ghost use Rattle.cdp_json.specs.Json as json;
ghost use Rattle.cdp_json.specs.Views.{member_view};

use cdp_json::parts::put_value;
use cdp_json::value::{Member, number};
use std::alloc::{AllocError, Global};

/// Puts a member whose value is a number up to 2^62 behind others; its key is ASCII. Errors: there is no memory for it, and
/// the others stay.
pub(crate) fn put_number(
    alloc: Global,
    members: &mut Vec<Member>,
    key: &[u8],
    value: u64,
) -> Result<(), AllocError>
    requires { value ≤ 2 ^ 62 }
    ensures ok { OnOk result (map member_view members.new.items ≡ map member_view members.old.items ++ (key.now, json.number (pos value)) ∷ []) }
    ensures kept { OnErr result (members.new.items ≡ members.old.items) }
{
    put_value(alloc, members, key, number(value as i64))
}

/// Puts a member behind others, if there is one. Errors: there is no memory for it, and the others stay.
pub(crate) fn put_given(members: &mut Vec<Member>, given: Option<Member>) -> Result<(), AllocError>
    ensures ok { OnOk result (map member_view members.new.items ≡ map member_view members.old.items ++ map member_view (option_to_list given)) }
    ensures kept { OnErr result (members.new.items ≡ members.old.items) }
{
    if let Some(member) = given {
        members.push(member)?;
    }
    Ok(())
}

//! Copies of JSON values.

ghost use Rattle.std.specs.Prelude.{◌≡◌, IfOk};
ghost use Rattle.cdp_json.specs.Views.{json_view, list_view, object_view, member_view, items_view, members_view};

use crate::value::{Json, JsonList, JsonObject, Member, boolean, list, null, number, object, text};
use std::alloc::{AllocError, Global};

/// A copy of a JSON value. Errors: there is no memory for it.
#[tactic(auto, using(crate::proofs::ViewLemmas::json_laws))]
#[cycle(copies)]
pub fn copied(alloc: Global, value: &Json) -> Result<Json, AllocError>
    ensures { IfOk result (λ j. json_view j ≡ json_view value.now) }
{
    match value {
        Json::Null => Ok(null()),
        Json::Bool(truth) => Ok(boolean(*truth)),
        Json::Number(integer) => Ok(number(*integer)),
        Json::Text(units) => Ok(text(units.clone()?)),
        Json::List(values) => Ok(list(copied_items(alloc, values)?)),
        Json::Object(pairs) => Ok(object(copied_members(alloc, pairs)?)),
    }
}

/// Copies of the values of a list, in order. Errors: there is no memory for them.
#[cycle(copies)]
fn copied_items(alloc: Global, values: &JsonList) -> Result<Vec<Json>, AllocError>
    ensures { IfOk result (λ copies. items_view copies.items ≡ list_view values.now) }
{
    let mut items = Vec::new(alloc);
    for item in values.items.iter() {
        items.push(copied(alloc, item)?)?;
    }
    Ok(items)
}

/// Copies of the members of an object, in order. Errors: there is no memory for them.
#[cycle(copies)]
fn copied_members(alloc: Global, pairs: &JsonObject) -> Result<Vec<Member>, AllocError>
    ensures { IfOk result (λ copies. members_view copies.items ≡ object_view pairs.now) }
{
    let mut members = Vec::new(alloc);
    for member in pairs.members.iter() {
        members.push(copied_member(alloc, member)?)?;
    }
    Ok(members)
}

/// A copy of a member. Errors: there is no memory for it.
#[tactic(auto, using(crate::proofs::ViewLemmas::member_parts))]
#[cycle(copies)]
fn copied_member(alloc: Global, member: &Member) -> Result<Member, AllocError>
    ensures { IfOk result (λ m. member_view m ≡ member_view member.now) }
{
    let key = member.key.clone()?;
    let value = copied(alloc, &member.value)?;
    Ok(Member::new(key, value))
}

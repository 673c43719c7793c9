//! Parts of messages: members, objects, and places in scripts (Chrome DevTools Protocol 1.3, `Debugger.Location`).

ghost use Rattle.std.specs.Prelude.{◌≡◌, ◌∷◌, ◌++◌, [], pos, map, decimal, IfOk, OnOk, OnErr};
ghost use Rattle.cdp_json.specs.Json as json;
ghost use Rattle.cdp_json.specs.Parts as parts;
ghost use Rattle.cdp_json.specs.Views.{json_view, member_view};

use crate::value::{Json, Member, number, object, text};
use cdp_text::position::Place;
use cdp_text::units::{Units, ascii};
use std::alloc::{AllocError, Global};

/// A text of ASCII.
pub fn ascii_text(alloc: Global, bytes: &[u8]) -> Result<Json, AllocError>
    ensures { IfOk result (λ j. json_view j ≡ json.text bytes.now) }
{
    Ok(text(ascii(alloc, bytes)?))
}

/// A copy of a text.
pub fn copied_text(alloc: Global, units: &[u16]) -> Result<Json, AllocError>
    ensures { IfOk result (λ j. json_view j ≡ json.text units.now) }
{
    Ok(text(Units::from_slice(alloc, units)?))
}

/// A member of this key, which is ASCII.
pub fn member(alloc: Global, key: &[u8], value: Json) -> Result<Member, AllocError>
    ensures { IfOk result (λ m. member_view m ≡ (key.now, json_view value)) }
{
    let key = ascii(alloc, key)?;
    Ok(Member::new(key, value))
}

/// A member whose value is a text; both it and the key are ASCII.
pub fn ascii_member(alloc: Global, key: &[u8], value: &[u8]) -> Result<Member, AllocError>
    ensures { IfOk result (λ m. member_view m ≡ (key.now, json.text value.now)) }
{
    let value = ascii_text(alloc, value)?;
    member(alloc, key, value)
}

/// Puts a member behind others; its key is ASCII. Errors: there is no memory for it, and the others stay.
pub fn put_value(
    alloc: Global,
    members: &mut Vec<Member>,
    key: &[u8],
    value: Json,
) -> Result<(), AllocError>
    ensures ok { OnOk result (map member_view members.new.items ≡ map member_view members.old.items ++ (key.now, json_view value) ∷ []) }
    ensures kept { OnErr result (members.new.items ≡ members.old.items) }
{
    members.push(member(alloc, key, value)?)?;
    Ok(())
}

/// Puts a member whose value is a text behind others; both it and the key are ASCII. Errors: there is no memory for it, and
/// the others stay.
pub fn put_ascii_text(
    alloc: Global,
    members: &mut Vec<Member>,
    key: &[u8],
    bytes: &[u8],
) -> Result<(), AllocError>
    ensures ok { OnOk result (map member_view members.new.items ≡ map member_view members.old.items ++ (key.now, json.text bytes.now) ∷ []) }
    ensures kept { OnErr result (members.new.items ≡ members.old.items) }
{
    let text = ascii_text(alloc, bytes)?;
    put_value(alloc, members, key, text)
}

/// Puts a member whose value is a copy of a text behind others; its key is ASCII. Errors: there is no memory for it, and the
/// others stay.
pub fn put_copied_text(
    alloc: Global,
    members: &mut Vec<Member>,
    key: &[u8],
    units: &[u16],
) -> Result<(), AllocError>
    ensures ok { OnOk result (map member_view members.new.items ≡ map member_view members.old.items ++ (key.now, json.text units.now) ∷ []) }
    ensures kept { OnErr result (members.new.items ≡ members.old.items) }
{
    let copy = copied_text(alloc, units)?;
    put_value(alloc, members, key, copy)
}

/// An object of one member.
pub fn object_of_one(alloc: Global, only: Member) -> Result<Json, AllocError>
    ensures { IfOk result (λ j. json_view j ≡ parts.object_of (member_view only ∷ [])) }
{
    Ok(object(vec![in alloc; only]?))
}

/// An object without members.
pub fn nothing(alloc: Global) -> Json
    ensures { json_view result ≡ parts.nothing }
{
    object(Vec::new(alloc))
}

/// A line or a column.
fn coordinate(value: u32) -> Json
    ensures { json_view result ≡ json.number (pos value) }
{
    number(i64::from(value))
}

/// The id of a script: its number as a decimal.
pub fn script_id(alloc: Global, script: u32) -> Result<Json, AllocError>
    ensures { IfOk result (λ j. json_view j ≡ json.text (decimal script)) }
{
    let digits = format!(in alloc; "{script}")?;
    ascii_text(alloc, digits.as_bytes())
}

/// The members of a place: its column, its line (both 0-based, columns in units) and the id of its script.
pub fn place_members(alloc: Global, place: Place) -> Result<Vec<Member>, AllocError>
    ensures { IfOk result (λ ms. map member_view ms.items ≡ parts.place_pairs place) }
{
    let mut members = Vec::new(alloc);
    put_value(
        alloc,
        &mut members,
        b"columnNumber",
        coordinate(place.pos.col),
    )?;
    put_value(
        alloc,
        &mut members,
        b"lineNumber",
        coordinate(place.pos.line),
    )?;
    let id = script_id(alloc, place.script)?;
    put_value(alloc, &mut members, b"scriptId", id)?;
    Ok(members)
}

/// A place.
pub fn location(alloc: Global, place: Place) -> Result<Json, AllocError>
    ensures { IfOk result (λ j. json_view j ≡ parts.location place) }
{
    Ok(object(place_members(alloc, place)?))
}

//! The compact text of a JSON value (RFC 8259): no blanks, keys in the order of their units.

ghost use Rattle.std.specs.Prelude.{◌≡◌, ◌++◌, ◌∷◌, [], OnErr, OnOk, string_bytes};
ghost use Rattle.std.specs.Fmt.{signed_decimal};
ghost use Rattle.json.specs.Print.{quoted};
ghost use Rattle.cdp_json.specs.Compact.{string_text, list_text, object_text, members_text, with_commas, item_texts, comma_before};
ghost use Rattle.cdp_json.specs.Compact as spec;
ghost use Rattle.cdp_json.specs.Views.{json_view, list_view, object_view};

use crate::key_order::key_order;
use crate::plain::{is_plain, put_plain};
use crate::value::{Json, JsonList, JsonObject};
use cdp_text::units::text_of;
use std::alloc::AllocError;
use std::fmt::Write;

/// Appends the text of a value.
#[tactic(auto, using(crate::proofs::ViewLemmas::json_laws))]
#[cycle(put)]
pub(crate) fn put_json(out: &mut String, value: &Json) -> Result<(), AllocError>
    ensures { OnOk result (string_bytes out.new ≡ string_bytes out.old ++ spec.compact_text (json_view value.now)) }
{
    match value {
        Json::Null => out.push_str("null"),
        Json::Bool(true) => out.push_str("true"),
        Json::Bool(false) => out.push_str("false"),
        Json::Number(number) => put_number(out, *number),
        Json::Text(text) => put_string(out, text.as_slice()),
        Json::List(list) => put_list(out, list),
        Json::Object(object) => put_object(out, object),
    }
}

/// Appends the text of a list.
#[cycle(put)]
fn put_list(out: &mut String, list: &JsonList) -> Result<(), AllocError>
    ensures { OnOk result (string_bytes out.new ≡ string_bytes out.old ++ list_text (list_view list.now)) }
{
    out.push_str("[")?;
    put_items(out, list)?;
    out.push_str("]")
}

/// Appends the texts of a list's values, with commas between them.
#[cycle(put)]
fn put_items(out: &mut String, list: &JsonList) -> Result<(), AllocError>
    ensures { OnOk result (string_bytes out.new ≡ string_bytes out.old ++ with_commas (item_texts (list_view list.now))) }
{
    for (turn, item) in list.items.iter().enumerate() {
        put_comma(out, turn)?;
        put_json(out, item)?;
    }
    Ok(())
}

/// Appends the text of an object.
#[cycle(put)]
fn put_object(out: &mut String, object: &JsonObject) -> Result<(), AllocError>
    ensures { OnOk result (string_bytes out.new ≡ string_bytes out.old ++ object_text (object_view object.now)) }
{
    out.push_str("{")?;
    put_members(out, object)?;
    out.push_str("}")
}

/// Appends the texts of an object's members in the order of their keys, with commas between them.
#[cycle(put)]
fn put_members(out: &mut String, object: &JsonObject) -> Result<(), AllocError>
    ensures { OnOk result (string_bytes out.new ≡ string_bytes out.old ++ members_text (object_view object.now)) }
{
    let order = key_order(*out.allocator(), &object.members)?;
    for (turn, place) in order.iter().enumerate() {
        put_comma(out, turn)?;
        let member = &object.members[*place];
        put_key(out, member.key.as_slice())?;
        put_json(out, &member.value)?;
    }
    Ok(())
}

/// Appends a comma, unless what follows is the first of its kind.
fn put_comma(out: &mut String, turn: usize) -> Result<(), AllocError>
    ensures { OnOk result (string_bytes out.new ≡ string_bytes out.old ++ comma_before turn) }
{
    if turn > 0 { out.push(',') } else { Ok(()) }
}

/// Appends a number.
pub(crate) fn put_number(out: &mut String, number: i64) -> Result<(), AllocError>
    ensures { OnOk result (string_bytes out.new ≡ string_bytes out.old ++ signed_decimal number) }
{
    write!(out, "{number}")
}

/// Appends a key with its colon.
fn put_key(out: &mut String, key: &[u16]) -> Result<(), AllocError>
    ensures { OnOk result (string_bytes out.new ≡ (string_bytes out.old ++ string_text key.now) ++ 58 ∷ []) }
{
    put_string(out, key)?;
    out.push(':')
}

/// Appends the text that units spell, in quotes and with its escapes. Errors: there is no memory for it, and nothing is
/// appended.
#[tactic(auto, using(crate::proofs::PlainLemmas::plain_text))]
pub(crate) fn put_string(out: &mut String, units: &[u16]) -> Result<(), AllocError>
    ensures put { OnOk result (string_bytes out.new ≡ string_bytes out.old ++ string_text units.now) }
    ensures kept { OnErr result (string_bytes out.new ≡ string_bytes out.old) }
{
    if is_plain(units) {
        return put_plain(out, units);
    }
    let text = text_of(*out.allocator(), units)?;
    put_quoted(out, text.as_str())
}

/// Appends a text in quotes and with its escapes. Errors: there is no memory for it, and nothing is appended.
pub(crate) fn put_quoted(out: &mut String, text: &str) -> Result<(), AllocError>
    ensures put { OnOk result (string_bytes out.new ≡ string_bytes out.old ++ quoted text.now) }
    ensures kept { OnErr result (string_bytes out.new ≡ string_bytes out.old) }
{
    match serde_json::to_string(*out.allocator(), &text) {
        Ok(piece) => out.push_str(piece.as_str()),
        Err(_) => Err(AllocError),
    }
}

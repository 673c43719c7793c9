//! Members of objects.

ghost use Rattle.std.specs.Prelude.{◌≡◌, [], map, codes, IfOk};
ghost use Rattle.cdp_json.specs.Views.{member_view};
ghost use Rattle.remote_objects.specs.Values as values;

use cdp_json::parts::{put_ascii_text, put_copied_text, put_value};
use cdp_json::value::{Member, boolean, null, number, text};
use cdp_text::units::{Units, ascii};
use js_heap_operators::operators::number_text;
use std::alloc::{AllocError, Global};

// ---- objects

/// The members of an object without a subtype: its class, what is shown of it, and its type.
pub(crate) fn untyped_members(
    alloc: Global,
    class: &[u8],
    shown: Units,
    kind: &[u8],
) -> Result<Vec<Member>, AllocError>
    ensures { IfOk result (λ ms. map member_view ms.items ≡ values.object_pairs class.now shown [] kind.now) }
{
    let mut members = Vec::new(alloc);
    put_ascii_text(alloc, &mut members, b"className", class)?;
    put_value(alloc, &mut members, b"description", text(shown))?;
    put_ascii_text(alloc, &mut members, b"type", kind)?;
    Ok(members)
}

/// The members of an object of a subtype: its class, what is shown of it, its subtype, and its type.
pub(crate) fn subtyped_members(
    alloc: Global,
    class: &[u8],
    shown: Units,
    subtype: &[u8],
) -> Result<Vec<Member>, AllocError>
    ensures { IfOk result (λ ms. map member_view ms.items ≡ values.object_pairs class.now shown (values.subtyped subtype.now) (codes "object")) }
{
    let mut members = Vec::new(alloc);
    put_ascii_text(alloc, &mut members, b"className", class)?;
    put_value(alloc, &mut members, b"description", text(shown))?;
    put_ascii_text(alloc, &mut members, b"subtype", subtype)?;
    put_ascii_text(alloc, &mut members, b"type", b"object")?;
    Ok(members)
}

/// Those of a plain object, a scope among them.
pub(crate) fn plain_members(alloc: Global) -> Result<Vec<Member>, AllocError>
    ensures { IfOk result (λ ms. map member_view ms.items ≡ values.plain_pairs) }
{
    let shown = ascii(alloc, b"Object")?;
    untyped_members(alloc, b"Object", shown, b"object")
}

/// What is shown of an array of this length.
fn array_text(alloc: Global, len: usize) -> Result<Units, AllocError>
    ensures { IfOk result (λ shown. shown ≡ values.array_text len) }
{
    let shown = format!(in alloc; "Array({len})")?;
    ascii(alloc, shown.as_bytes())
}

/// Those of an array of this length.
pub(crate) fn array_members(alloc: Global, len: usize) -> Result<Vec<Member>, AllocError>
    ensures { IfOk result (λ ms. map member_view ms.items ≡ values.object_pairs (codes "Array") (values.array_text len) (values.subtyped (codes "array")) (codes "object")) }
{
    let shown = array_text(alloc, len)?;
    subtyped_members(alloc, b"Array", shown, b"array")
}

// ---- primitive values

/// The member of `undefined`.
pub(crate) fn undefined_members(alloc: Global) -> Result<Vec<Member>, AllocError>
    ensures { IfOk result (λ ms. map member_view ms.items ≡ values.undefined_pairs) }
{
    let mut members = Vec::new(alloc);
    put_ascii_text(alloc, &mut members, b"type", b"undefined")?;
    Ok(members)
}

/// The members of `null`.
pub(crate) fn null_members(alloc: Global) -> Result<Vec<Member>, AllocError>
    ensures { IfOk result (λ ms. map member_view ms.items ≡ values.null_pairs) }
{
    let mut members = Vec::new(alloc);
    put_ascii_text(alloc, &mut members, b"subtype", b"null")?;
    put_ascii_text(alloc, &mut members, b"type", b"object")?;
    put_value(alloc, &mut members, b"value", null())?;
    Ok(members)
}

/// The members of a truth value.
pub(crate) fn truth_members(alloc: Global, truth: bool) -> Result<Vec<Member>, AllocError>
    ensures { IfOk result (λ ms. map member_view ms.items ≡ values.truth_pairs truth) }
{
    let mut members = Vec::new(alloc);
    put_ascii_text(alloc, &mut members, b"type", b"boolean")?;
    put_value(alloc, &mut members, b"value", boolean(truth))?;
    Ok(members)
}

/// The members of a number.
pub(crate) fn number_members(alloc: Global, z: i64) -> Result<Vec<Member>, AllocError>
    ensures { IfOk result (λ ms. map member_view ms.items ≡ values.number_pairs z) }
{
    let mut members = Vec::new(alloc);
    let shown = number_text(alloc, z)?;
    put_value(alloc, &mut members, b"description", text(shown))?;
    put_ascii_text(alloc, &mut members, b"type", b"number")?;
    put_value(alloc, &mut members, b"value", number(z))?;
    Ok(members)
}

/// The members of a text.
pub(crate) fn text_members(alloc: Global, units: &[u16]) -> Result<Vec<Member>, AllocError>
    ensures { IfOk result (λ ms. map member_view ms.items ≡ values.text_pairs units.now) }
{
    let mut members = Vec::new(alloc);
    put_ascii_text(alloc, &mut members, b"type", b"string")?;
    put_copied_text(alloc, &mut members, b"value", units)?;
    Ok(members)
}

//! Values as `console.log` shows them.

ghost use Rattle.std.specs.Prelude.{◌≡◌, ◌++◌, IfOk, option_copied, map, codes};
ghost use Rattle.js_heap.specs.Values.{shown, cell_text, error_text, with_message, message_units, between};
ghost use Rattle.js_heap_memory.specs.Cells.{cell_at, name_text};

use crate::seen::{NamedWorld, name_text, units_at};
use cdp_text::units::{Units, ascii};
use js_heap::built_in::ErrorClass;
use js_heap::cell::Property;
use js_heap::reading::Cells;
use js_heap::value::Value;
use js_heap_memory::names::NameTable;
use js_heap_memory::stored::{FunctionName, Stored};
use js_heap_memory::world::World;
use js_heap_operators::operators::{bool_text, number_text};
use js_heap_operators::text::joined;
use js_heap_operators::values::class_text;
use std::alloc::{AllocError, Global};

/// The name of a class, and after a colon the message where it isn't empty.
fn with_message(alloc: Global, class: &[u8], message: &[u16]) -> Result<Units, AllocError>
    ensures { IfOk result (λ units. units ≡ with_message class.now message.now) }
{
    if message.is_empty() {
        return ascii(alloc, class);
    }
    let named = ascii(alloc, class)?;
    let separator = ascii(alloc, b": ")?;
    let opened = joined(alloc, named.as_slice(), separator.as_slice())?;
    joined(alloc, opened.as_slice(), message)
}

/// The text of a message; empty where the value isn't a string.
fn message_units<C: Cells>(cells: &C, value: Value) -> &[u16]
    ensures { result.now ≡ message_units (C.world cells.now) value }
{
    match value {
        Value::Text(a) => cells.units_at(a),
        _ => &[],
    }
}

/// The text of an error of this class, whose message is this property.
fn error_text<C: Cells>(
    alloc: Global,
    cells: &C,
    class: ErrorClass,
    message: Option<&Property>,
) -> Result<Units, AllocError>
    ensures { IfOk result (λ units. units ≡ error_text (C.world cells.now) class (option_copied message.entry)) }
{
    match message {
        None => ascii(alloc, class_text(class)),
        Some(property) => with_message(
            alloc,
            class_text(class),
            message_units(cells, property.value),
        ),
    }
}

/// The text of a function with this name.
fn function_text(alloc: Global, names: &NameTable, name: &FunctionName) -> Result<Units, AllocError>
    ensures { IfOk result (λ units. units ≡ codes "function " ++ name_text names.now name.now) }
{
    let opened = ascii(alloc, b"function ")?;
    let name = name_text(names, name)?;
    joined(alloc, opened.as_slice(), name)
}

/// The text of what an object's address holds.
fn cell_text<W: World>(
    alloc: Global,
    world: &W,
    names: &NameTable,
    cell: Option<&Stored>,
) -> Result<Units, AllocError>
    ensures { IfOk result (λ units. units ≡ cell_text (W.world names.now world.now) (cell_at names.now (option_copied cell.entry))) }
{
    match cell {
        Some(Stored::Array { .. }) => ascii(alloc, b"[object Array]"),
        Some(Stored::Function(function)) => function_text(alloc, names, &function.name),
        Some(Stored::Error { class, properties }) => {
            let key = ascii(alloc, b"message")?;
            let message = properties.find(key.as_slice());
            error_text(alloc, &NamedWorld { names, world }, *class, message)
        }
        _ => ascii(alloc, b"[object Object]"),
    }
}

/// A value as `console.log` shows it.
pub fn shown<W: World>(
    alloc: Global,
    world: &W,
    names: &NameTable,
    value: Value,
) -> Result<Units, AllocError>
    ensures { IfOk result (λ units. units ≡ shown (W.world names.now world.now) value) }
{
    match value {
        Value::Undefined => ascii(alloc, b"undefined"),
        Value::Null => ascii(alloc, b"null"),
        Value::Bool(b) => ascii(alloc, bool_text(b)),
        Value::Number(z) => number_text(alloc, z),
        Value::Text(a) => Units::from_slice(alloc, units_at(world, names, a)),
        Value::Object(a) => cell_text(alloc, world, names, world.find(a)),
    }
}

/// Values as they are shown.
fn all_shown<W: World>(
    alloc: Global,
    world: &W,
    names: &NameTable,
    values: &[Value],
) -> Result<Vec<Units>, AllocError>
    ensures { IfOk result (λ texts. texts.items ≡ map (shown (W.world names.now world.now)) values.now) }
{
    let mut texts = Vec::new(alloc);
    for value in values {
        texts.push(shown(alloc, world, names, *value)?)?;
    }
    Ok(texts)
}

/// Texts with another between each two.
#[tactic(auto, using(crate::proofs::ShownLemmas::between_rules))]
pub fn between(alloc: Global, separator: &[u16], texts: &[Units]) -> Result<Units, AllocError>
    ensures { IfOk result (λ units. units ≡ between separator.now texts.now) }
{
    if texts.is_empty() {
        return Ok(Units::from_vec(Vec::new(alloc)));
    }
    let mut all = Vec::from_slice(alloc, texts[0].as_slice())?;
    for i in 1..texts.len() {
        all.extend_from_slice(separator)?;
        all.extend_from_slice(texts[i].as_slice())?;
    }
    Ok(Units::from_vec(all))
}

/// The text that `console.log` prints of values.
pub fn logged<W: World>(
    alloc: Global,
    world: &W,
    names: &NameTable,
    values: &[Value],
) -> Result<Units, AllocError>
    ensures { IfOk result (λ text. text ≡ between (codes " ") (map (shown (W.world names.now world.now)) values.now)) }
{
    let texts = all_shown(alloc, world, names, values)?;
    let space = ascii(alloc, b" ")?;
    between(alloc, space.as_slice(), texts.as_slice())
}

//! What the parts of a command line give.

ghost use Rattle.std.specs.Prelude.{◌≡◌, ◌++◌, IfOk, OnOk};
ghost use Rattle.std.specs.Option.{option_to_list};
ghost use Rattle.debug_host_options.specs.Given.{has_repeat, is_again, is_given, is_named, operand_in, operands_of, option_in, own_value, value_in, value_of};
ghost use Rattle.debug_host_options.specs.Held.{part_held, parts_held, text_held, texts_held};

use crate::command::OptionName;
use crate::part::Part;
use std::alloc::{AllocError, Global};

/// The option that a part is.
fn option_in(part: &Part<'_>) -> Option<OptionName>
    ensures { result ≡ option_in (part_held part.now) }
{
    match part {
        Part::Operand(_) => None,
        Part::Valued(option, _) | Part::Flag(option) => Some(*option),
    }
}

/// Whether a part is this option.
#[tactic(auto, using(crate::proofs::OptionLemmas::same_tests))]
fn is_named(part: &Part<'_>, option: OptionName) -> bool
    ensures { result ≡ is_named option (part_held part.now) }
{
    match option_in(part) {
        None => false,
        Some(other) => other == option,
    }
}

/// Whether an option is one of these parts.
pub(crate) fn is_given(parts: &[Part<'_>], option: OptionName) -> bool
    ensures { result ≡ is_given option (parts_held parts.now) }
{
    for part in parts {
        if is_named(part, option) {
            return true;
        }
    }
    false
}

/// Whether a part is an option that is one of these parts too.
fn is_again(part: &Part<'_>, parts: &[Part<'_>]) -> bool
    ensures { result ≡ is_again (part_held part.now) (parts_held parts.now) }
{
    match option_in(part) {
        None => false,
        Some(option) => is_given(parts, option),
    }
}

/// Whether an option is given twice.
pub(crate) fn has_repeat(parts: &[Part<'_>]) -> bool
    ensures { result ≡ has_repeat (parts_held parts.now) }
{
    let mut rest = parts;
    while let [part, after @ ..] = rest {
        if is_again(part, after) {
            return true;
        }
        rest = after;
    }
    false
}

/// The value that a part has.
fn own_value<'w>(part: &Part<'w>) -> Option<&'w str>
    ensures { text_held result ≡ own_value (part_held part.now) }
{
    match part {
        Part::Operand(_) | Part::Flag(_) => None,
        Part::Valued(_, value) => Some(*value),
    }
}

/// The value of this option, where a part is that.
fn value_in<'w>(part: &Part<'w>, option: OptionName) -> Option<&'w str>
    ensures { text_held result ≡ value_in option (part_held part.now) }
{
    if is_named(part, option) {
        own_value(part)
    } else {
        None
    }
}

/// The value of this option, where it is given.
pub(crate) fn value_of<'w>(parts: &[Part<'w>], option: OptionName) -> Option<&'w str>
    ensures { text_held result ≡ value_of option (parts_held parts.now) }
{
    for part in parts {
        if let Some(value) = value_in(part, option) {
            return Some(value);
        }
    }
    None
}

/// The operands, in order.
///
/// # Errors
///
/// There is no memory for their list.
pub(crate) fn operands_of<'w>(alloc: Global, parts: &[Part<'w>]) -> Result<Vec<&'w str>, AllocError>
    ensures { IfOk result (λ operands. texts_held operands.items ≡ operands_of (parts_held parts.now)) }
{
    let mut operands = Vec::new(alloc);
    for part in parts {
        add_operand(part, &mut operands)?;
    }
    Ok(operands)
}

/// Adds the word of a part that is an operand.
fn add_operand<'w>(part: &Part<'w>, operands: &mut Vec<&'w str>) -> Result<(), AllocError>
    ensures { OnOk result (texts_held operands.new.items ≡ texts_held operands.old.items ++ option_to_list (operand_in (part_held part.now))) }
{
    match part {
        Part::Operand(word) => {
            operands.push(*word)?;
            Ok(())
        }
        Part::Valued(_, _) | Part::Flag(_) => Ok(()),
    }
}

//! The flags of evaluations and calls.

ghost use Rattle.std.specs.Prelude.{◌≡◌};
ghost use Rattle.serde_json.specs.View.{view};
ghost use Rattle.cdp_json.specs.Flags.{flags_from, flags_of, given_flags, flag_or_false, flag_fits, flag_or_true};

use crate::members::optional_bool_at;
use serde_json::Value;

/// How a text is evaluated or a function called, and its result described. An absent `throwOnSideEffect` is true, the others
/// are false where they are absent.
#[derive(Clone, Copy)]
pub(crate) struct EvaluationFlags {
    pub return_by_value: bool,
    pub generate_preview: bool,
    pub throw_on_side_effect: bool,
}

/// Whether a flag is absent, or a truth value.
fn flag_fits(value: &Value, name: &str) -> bool
    ensures { result ≡ flag_fits name.now (view value.now) }
{
    optional_bool_at(value, name).is_some()
}

/// A flag, false where it is absent.
pub(crate) fn flag_or_false(flag: Option<bool>) -> bool
    ensures { result ≡ flag_or_false flag }
{
    match flag {
        Some(flag) => flag,
        None => false,
    }
}

/// A flag, true where it is absent.
fn flag_or_true(flag: Option<bool>) -> bool
    ensures { result ≡ flag_or_true flag }
{
    match flag {
        Some(flag) => flag,
        None => true,
    }
}

/// The flags, where all are of their kind.
fn flags_from(
    by_value: Option<Option<bool>>,
    preview: Option<Option<bool>>,
    throws: Option<Option<bool>>,
) -> Option<EvaluationFlags>
    ensures { result ≡ flags_from by_value preview throws }
{
    match by_value {
        Some(by_value) => match preview {
            Some(preview) => match throws {
                Some(throws) => Some(EvaluationFlags {
                    return_by_value: flag_or_false(by_value),
                    generate_preview: flag_or_false(preview),
                    throw_on_side_effect: flag_or_true(throws),
                }),
                None => None,
            },
            None => None,
        },
        None => None,
    }
}

/// `returnByValue?, generatePreview?, throwOnSideEffect?`
fn given_flags(value: &Value) -> Option<EvaluationFlags>
    ensures { result ≡ given_flags (view value.now) }
{
    let by_value = optional_bool_at(value, "returnByValue");
    let preview = optional_bool_at(value, "generatePreview");
    let throws = optional_bool_at(value, "throwOnSideEffect");
    flags_from(by_value, preview, throws)
}

/// `silent?, returnByValue?, generatePreview?, throwOnSideEffect?`
pub(crate) fn flags(value: &Value) -> Option<EvaluationFlags>
    ensures { result ≡ flags_of (view value.now) }
{
    if flag_fits(value, "silent") {
        given_flags(value)
    } else {
        None
    }
}

//! What a text that arrives is.

ghost use Rattle.std.specs.Prelude.{◌≡◌};
ghost use Rattle.std.specs.Option.{option_map};
ghost use Rattle.serde_json.specs.View.{view};
ghost use Rattle.cdp_client.specs.Arrivals.{has_id, unasked, value_arrival};
ghost use Rattle.cdp_client.specs.ArrivalRead.{arrival_held};
ghost use Rattle.cdp_client.specs.LineRead.{command_held};

use crate::line::Command;
use serde_json::Value;

/// What a text that arrives is.
#[derive(Clone, Copy)]
pub(crate) enum ArrivedText<'c, 'v> {
    /// The reply to this command.
    Reply(Command<'c>),
    /// An event, of this method where that is a text.
    Event(Option<&'v str>),
    /// Neither.
    Other,
}

/// Whether a value has this number as its `id`.
fn has_id(value: &Value, id: u64) -> bool
    ensures { result ≡ has_id id (view value.now) }
{
    match value.get("id").and_then(Value::as_u64) {
        Some(found) => found == id,
        None => false,
    }
}

/// What a value is that is no reply.
fn unasked<'c, 'v>(value: &'v Value) -> ArrivedText<'c, 'v>
    ensures { arrival_held result ≡ unasked (view value.now) }
{
    if value.get("id").is_some() {
        return ArrivedText::Other;
    }
    match value.get("method") {
        Some(method) => ArrivedText::Event(method.as_str()),
        None => ArrivedText::Other,
    }
}

/// What a value is where the reply to this command is awaited, if one is.
pub(crate) fn arrival_of<'c, 'v>(
    value: &'v Value,
    awaited: Option<Command<'c>>,
) -> ArrivedText<'c, 'v>
    ensures { arrival_held result ≡ value_arrival (option_map command_held awaited.entry) (view value.now) }
{
    match awaited {
        Some(command) => {
            if has_id(value, command.id) {
                ArrivedText::Reply(command)
            } else {
                unasked(value)
            }
        }
        None => unasked(value),
    }
}

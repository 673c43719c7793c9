//! Commands (JSON-RPC 2.0): a text is read as a command, or as the refusal that answers it.

ghost use Rattle.std.specs.Prelude.{◌≡◌, ◌≢◌, Some};
ghost use Rattle.serde_json.specs.Read.{read};
ghost use Rattle.serde_json.specs.View.{view};
ghost use Rattle.cdp_json.specs.Commands.{reading_of, value_reading, with_id, with_name, with_given, with_params, id_of, given_of};
ghost use Rattle.cdp_json.specs.Parameters.{params_of};
ghost use Rattle.cdp_json.specs.declared.command.Reading.TheVariants.{Refused, Memory};

use crate::members::str_at;
use crate::method::{Method, method_named};
use crate::parameters::params;
use crate::params::Params;
use crate::refusal::Refusal;
use crate::room::ReadingRoom;
use cdp_text::units::units_of;
use serde_json::Value;
use std::alloc::Global;

/// What a text is read as.
#[derive(Drop)]
pub enum Reading {
    /// A command with its parameters.
    Command {
        id: u64,
        method: Method,
        params: Params,
    },
    /// A text that is no command, and its id where that was read.
    Refused {
        id: Option<u64>,
        refusal: Refusal,
    },
    /// Want of memory.
    Memory,
}

/// Reads a command, in this room. It is refused where it isn't JSON, isn't an object, has no `id` from 0 to 2^53-1, has
/// no `method`, has one that no method is named, or has parameters that are missing or of another kind: by the first of
/// these that holds. Members without a meaning are passed over.
pub fn read_command(alloc: Global, room: &mut ReadingRoom, text: &str) -> Reading
    ensures { result ≢ Memory → result ≡ reading_of (read text.now) }
{
    match room.read(alloc, text) {
        Ok(Some(value)) => read_value(alloc, &value),
        Ok(None) => refused(None, Refusal::NotJson),
        Err(_) => Reading::Memory,
    }
}

/// A refusal.
fn refused(id: Option<u64>, refusal: Refusal) -> Reading
    ensures { result ≡ Refused id refusal }
{
    Reading::Refused { id, refusal }
}

/// Reads the command that a JSON value is.
fn read_value(alloc: Global, value: &Value) -> Reading
    ensures { result ≢ Memory → result ≡ value_reading (view value.now) }
{
    if value.is_object() {
        match id_in(value) {
            Some(id) => read_named(alloc, id, value),
            None => refused(None, Refusal::NoId),
        }
    } else {
        refused(None, Refusal::NotObject)
    }
}

/// The id of a command.
fn id_in(value: &Value) -> Option<u64>
    ensures { result ≡ id_of (view value.now) }
{
    match value.get("id").and_then(Value::as_u64) {
        Some(id) => {
            if id < 0x20_0000_0000_0000 {
                Some(id)
            } else {
                None
            }
        }
        None => None,
    }
}

/// Reads a command of this id.
fn read_named(alloc: Global, id: u64, value: &Value) -> Reading
    ensures { result ≢ Memory → result ≡ with_id (view value.now) (Some id) }
{
    match str_at(value, "method") {
        Some(name) => read_method(alloc, id, name, value),
        None => refused(Some(id), Refusal::NoMethod),
    }
}

/// Reads a command of this id whose method has this name.
fn read_method(alloc: Global, id: u64, name: &str, value: &Value) -> Reading
    ensures { result ≢ Memory → result ≡ with_name id (view value.now) (Some name.now) }
{
    match method_named(name) {
        Some(method) => read_given(alloc, id, method, value),
        None => match units_of(alloc, name) {
            Ok(name) => refused(Some(id), Refusal::UnknownMethod { name }),
            Err(_) => Reading::Memory,
        },
    }
}

/// Reads a command of this id and method.
fn read_given(alloc: Global, id: u64, method: Method, value: &Value) -> Reading
    ensures { result ≢ Memory → result ≡ with_given id method (given_of (view value.now)) }
{
    match value.get("params") {
        Some(given) => {
            if given.is_object() {
                read_params(alloc, id, method, given)
            } else {
                refused(Some(id), Refusal::InvalidParameters)
            }
        }
        None => read_params(alloc, id, method, &Value::Null),
    }
}

/// Reads a command of this id and method with these parameters.
fn read_params(alloc: Global, id: u64, method: Method, given: &Value) -> Reading
    ensures { result ≢ Memory → result ≡ with_params id method (params_of method (view given.now)) }
{
    match params(alloc, method, given) {
        Ok(Some(params)) => Reading::Command { id, method, params },
        Ok(None) => refused(Some(id), Refusal::InvalidParameters),
        Err(_) => Reading::Memory,
    }
}

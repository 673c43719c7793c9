//! What becomes of a client's text.

ghost use Rattle.std.specs.Prelude.{◌≡◌, ◌≤◌, IfOk, string_bytes};
ghost use Rattle.serde_json.specs.Data.{depth};
ghost use Rattle.serde_json.specs.Read.{max_depth};
ghost use Rattle.serde_json.specs.Read.{read};
ghost use Rattle.serde_json.specs.View.{view};
ghost use Rattle.ws_service_devtools.specs.Fates.{IsFate, IsFateOf};

use crate::flag::{clears_flag, without_flag};
use crate::methods::answered_id;
use cdp_edge_server::MOST_BYTES;
use serde_json::Value;
use std::alloc::{AllocError, Global};

/// What becomes of a text.
#[derive(Drop)]
pub(crate) enum Fate {
    /// It is handed in as it came.
    HandedIn,
    /// This text is handed in for it: the same command without the flag.
    Changed(String),
    /// It clears the flag, and the same command without it has more than `MOST_BYTES` bytes.
    TooBig,
    /// It is answered with an empty result.
    Answered {
        /// The id of the command.
        id: u64,
    },
}

/// What becomes of a command.
fn fate_of(alloc: Global, command: Value) -> Result<Fate, AllocError>
    requires { depth (view command) ≤ max_depth }
    ensures { IfOk result (λ fate. IsFateOf (view command) fate) }
{
    if let Some(id) = answered_id(&command) {
        return Ok(Fate::Answered { id });
    }
    if !clears_flag(&command) {
        return Ok(Fate::HandedIn);
    }
    let other = without_flag(alloc, command)?.to_string(alloc)?;
    if other.len() > MOST_BYTES {
        return Ok(Fate::TooBig);
    }
    Ok(Fate::Changed(other))
}

/// What becomes of a text.
///
/// # Errors
///
/// No memory is left.
pub(crate) fn read_fate(alloc: Global, text: &str) -> Result<Fate, AllocError>
    ensures { IfOk result (λ fate. IsFate text.now fate) }
{
    match Value::from_str(alloc, text) {
        Ok(command) => fate_of(alloc, command),
        Err(error) => {
            if error.is_memory() {
                Err(AllocError)
            } else {
                Ok(Fate::HandedIn)
            }
        }
    }
}

//! What comes of a command's method.

ghost use Rattle.std.specs.Prelude.{◌≡◌};
ghost use Rattle.cdp_session.specs.Made.{fault_by_value};
ghost use Rattle.cdp_session.specs.declared.done.Fault.TheVariants.{Memory};

use crate::asks::Asks;
use cdp_json::refusal::Refusal;
use cdp_json::value::Json;
use remote_objects::ByValueFault;
use std::alloc::AllocError;

/// The result of a method that is done.
#[derive(Drop)]
pub(crate) enum Answer {
    /// A value, which is still to be written.
    Tree(Json),
    /// A text that was written without a value.
    Text(String),
}

/// What a method that is done leaves beside its session.
#[derive(Drop)]
pub(crate) struct Done {
    /// The events before the reply, in order.
    pub(crate) before: Vec<String>,
    pub(crate) answer: Answer,
    /// The event behind the reply, if there is one.
    pub(crate) event: Option<String>,
    pub(crate) asks: Asks,
}

/// Why a method isn't done.
#[derive(Drop)]
pub(crate) enum Fault {
    Refused(Refusal),
    Memory,
}

impl From<AllocError> for Fault {
    ghost from_gives = { λ _ e. e ≡ Memory };

    fn from(_e: AllocError) -> Fault {
        Fault::Memory
    }
}

impl From<ByValueFault> for Fault {
    ghost from_gives = { λ fault e. e ≡ fault_by_value fault };

    fn from(fault: ByValueFault) -> Fault {
        match fault {
            ByValueFault::TooLong => Fault::Refused(Refusal::ReferenceChainTooLong),
            ByValueFault::Memory => Fault::Memory,
        }
    }
}

//! What an operation on values comes to.

use crate::built_in::ErrorClass;
use crate::change::Change;
use crate::value::{Addr, Value};
use cdp_text::units::Units;

/// The result of an operation: a value, a text whose cell isn't made yet, or an error that isn't made yet.
#[derive(Drop)]
pub enum Computed {
    Value(Value),
    Text(Units),
    Error(ErrorClass, Units),
}

/// What writing or deleting a property comes to: the change of one cell, or an error that isn't made yet.
#[derive(Drop)]
pub enum Written {
    Change(Addr, Change),
    Refused(ErrorClass, Units),
}

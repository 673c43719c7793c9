//! Why commands are refused.

ghost use Rattle.std.specs.Prelude.{◌≡◌, ◌++◌, IfOk, codes, decimal};
ghost use Rattle.cdp_json.specs.Refusals.{code_of, counted, message_of};

use cdp_text::units::{Units, ascii};
use std::alloc::{AllocError, Global};

/// What the scratch heap of evaluations is limited in.
#[derive(Clone, Copy)]
pub enum ScratchLimit {
    /// The cells that evaluations made.
    Cells,
    /// The UTF-16 code units that these cells and the sources that are kept hold.
    Units,
}

/// Why a command is refused, with what its message names.
#[derive(Drop)]
pub enum Refusal {
    /// The text isn't JSON, or is nested too deep.
    NotJson,
    /// The JSON value isn't an object.
    NotObject,
    /// There is no `id` that is an integer from 0 to 2^53-1.
    NoId,
    /// There is no `method` that is a string.
    NoMethod,
    /// No method has this name.
    UnknownMethod { name: Units },
    /// A parameter is missing or of another kind.
    InvalidParameters,
    /// The program isn't paused.
    NotPaused,
    /// The session holds no handle of this id.
    UnknownObject,
    /// The session has no such frame at the present stop.
    UnknownFrame,
    /// No script has this id.
    UnknownScript { script_id: Units },
    /// No break location is at the position or behind it.
    Unresolved,
    /// A breakpoint of this id is set.
    BreakpointExists,
    /// The domain isn't enabled.
    NotEnabled,
    /// As many breakpoints are set as may be.
    BreakpointsFull { count: u64 },
    /// The evaluation is asked for with `throwOnSideEffect` false.
    NeedsNoSideEffect,
    /// The evaluation came to no end within its steps.
    BudgetSpent,
    /// The evaluation would pass this limit of the scratch heap.
    ScratchFull { count: u64, what: ScratchLimit },
    /// A result that is asked for by value is nested too deep, or has too many values.
    ReferenceChainTooLong,
}

/// The code of a refusal (JSON-RPC 2.0, section 5.1).
pub(crate) fn code(refusal: &Refusal) -> i64
    ensures { result ≡ code_of refusal.now }
{
    match refusal {
        Refusal::NotJson => -32700,
        Refusal::NotObject | Refusal::NoId | Refusal::NoMethod => -32600,
        Refusal::UnknownMethod { .. } => -32601,
        Refusal::InvalidParameters => -32602,
        _ => -32000,
    }
}

/// The message of a refusal, in units.
pub(crate) fn message(alloc: Global, refusal: &Refusal) -> Result<Units, AllocError>
    ensures { IfOk result (λ units. units ≡ message_of refusal.now) }
{
    match refusal {
        Refusal::NotJson => ascii(alloc, b"Message must be a valid JSON"),
        Refusal::NotObject => ascii(alloc, b"Message must be an object"),
        Refusal::NoId => ascii(alloc, b"Message must have integer 'id' property"),
        Refusal::NoMethod => ascii(alloc, b"Message must have string 'method' property"),
        Refusal::UnknownMethod { name } => {
            between(alloc, b"'", name.as_slice(), b"' wasn't found")
        }
        Refusal::InvalidParameters => ascii(alloc, b"Invalid parameters"),
        Refusal::NotPaused => ascii(alloc, b"Can only perform operation while paused."),
        Refusal::UnknownObject => ascii(alloc, b"Could not find object with given id"),
        Refusal::UnknownFrame => ascii(alloc, b"Could not find call frame with given id"),
        Refusal::UnknownScript { script_id } => {
            behind(alloc, b"No script for id: ", script_id.as_slice())
        }
        Refusal::Unresolved => ascii(alloc, b"Could not resolve breakpoint"),
        Refusal::BreakpointExists => {
            ascii(alloc, b"Breakpoint at specified location already exists.")
        }
        Refusal::NotEnabled => ascii(alloc, b"Debugger agent is not enabled"),
        Refusal::BreakpointsFull { count } => full(alloc, *count),
        Refusal::NeedsNoSideEffect => ascii(alloc, b"Evaluation needs throwOnSideEffect"),
        Refusal::BudgetSpent => ascii(alloc, b"Evaluation spent its budget of 100000 steps"),
        Refusal::ScratchFull { count, what } => scratch_full(alloc, *count, *what),
        Refusal::ReferenceChainTooLong => ascii(alloc, b"Object reference chain is too long"),
    }
}

/// Units behind a text of ASCII.
fn behind(alloc: Global, before: &[u8], units: &[u16]) -> Result<Units, AllocError>
    ensures { IfOk result (λ all. all ≡ before.now ++ units.now) }
{
    let mut items = ascii(alloc, before)?.into_vec();
    items.extend_from_slice(units)?;
    Ok(Units::from_vec(items))
}

/// Units between two texts of ASCII.
fn between(alloc: Global, before: &[u8], units: &[u16], after: &[u8]) -> Result<Units, AllocError>
    ensures { IfOk result (λ all. all ≡ before.now ++ units.now ++ after.now) }
{
    let opened = behind(alloc, before, units)?;
    let closing = ascii(alloc, after)?;
    let mut items = opened.into_vec();
    items.extend_from_slice(closing.as_slice())?;
    Ok(Units::from_vec(items))
}

/// The message that so many breakpoints are set.
fn full(alloc: Global, count: u64) -> Result<Units, AllocError>
    ensures { IfOk result (λ units. units ≡ codes "Breakpoints are full: " ++ decimal count) }
{
    let text = format!(in alloc; "Breakpoints are full: {count}")?;
    ascii(alloc, text.as_bytes())
}

/// The message that the scratch heap holds so many cells or units.
fn scratch_full(alloc: Global, count: u64, what: ScratchLimit) -> Result<Units, AllocError>
    ensures { IfOk result (λ units. units ≡ codes "Scratch heap is full: " ++ decimal count ++ counted what) }
{
    match what {
        ScratchLimit::Cells => cells_full(alloc, count),
        ScratchLimit::Units => units_full(alloc, count),
    }
}

/// The message that the scratch heap holds so many cells.
fn cells_full(alloc: Global, count: u64) -> Result<Units, AllocError>
    ensures { IfOk result (λ units. units ≡ codes "Scratch heap is full: " ++ decimal count ++ codes " cells") }
{
    let text = format!(in alloc; "Scratch heap is full: {count} cells")?;
    ascii(alloc, text.as_bytes())
}

/// The message that the scratch heap holds so many units.
fn units_full(alloc: Global, count: u64) -> Result<Units, AllocError>
    ensures { IfOk result (λ units. units ≡ codes "Scratch heap is full: " ++ decimal count ++ codes " units") }
{
    let text = format!(in alloc; "Scratch heap is full: {count} units")?;
    ascii(alloc, text.as_bytes())
}

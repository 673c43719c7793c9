//! Code that is held behind all sources, for evaluations that come again.

ghost use Rattle.std.specs.Prelude.{◌≡◌, true, ℕ, List, length, IfOk, IfSome};
ghost use Rattle.js_machine_nodes.specs.declared.table.NodeTable.{NodeTable as AnyTable};
ghost use Rattle.pure_eval.specs.Holding.{StandsAt, IsCopy, IsEntryOf, IsHeldThere, IsChosen, sources_held, held_sources, source_for};
ghost use Rattle.pure_eval.specs.Returning.{IsMarked};
ghost use Rattle.pure_eval.specs.Whole.{IsWhole};
ghost use Rattle.pure_eval.specs.Working.{IsWorking, Holds, IsHolding, IsHeld, HoldsMore};

use crate::adding::add_code;
use crate::evaluator::{Evaluator, EvaluatorMark};
use crate::prepared::PreparedSource;
use cdp_text::units::Units;
use js_heap::value::Addr;
use js_machine_nodes::node::SourceEntry;
use std::alloc::{AllocError, Global};

/// So many codes are held at most.
pub const MOST_HELD: usize = 32;

/// Where the code of an evaluation comes from.
#[derive(Clone, Copy)]
pub enum CodeChoice {
    /// It is added.
    New,
    /// The code that is held of its text at its address is taken; it is added where there is none.
    Held,
}

/// The code of a source that would be kept at an address: its text, and its entry.
#[derive(Drop)]
pub struct HeldCode {
    /// The text.
    pub source: Units,
    /// The address.
    pub at: Addr,
    /// The entry, which the table doesn't have.
    pub entry: SourceEntry,
}

/// Codes that are held, and where an evaluator's code ended before the first of them.
#[derive(Drop)]
pub struct HeldCodes {
    /// Where the code ended.
    pub mark: EvaluatorMark,
    /// The codes, in the order in which they came.
    pub codes: Vec<HeldCode>,
}

/// Whether two addresses are the same.
fn is_same(a: Addr, b: Addr) -> bool
    ensures { result ≡ true → a ≡ b }
{
    match (a, b) {
        (Addr::Base(m), Addr::Base(n)) => m == n,
        (Addr::Scratch(m), Addr::Scratch(n)) => m == n,
        _ => false,
    }
}

/// Whether a code is that of a text at an address.
fn is_of(code: &HeldCode, at: Addr, source: &Units) -> bool
    ensures at { result ≡ true → code.now.at ≡ at }
    ensures source { result ≡ true → code.now.source ≡ source.now }
{
    if is_same(code.at, at) {
        code.source == *source
    } else {
        false
    }
}

/// Where the code of a text at an address stands.
fn place_of(codes: &[HeldCode], at: Addr, source: &Units) -> Option<usize>
    ensures { IfSome result (λ place. StandsAt codes.now at source.now place) }
{
    for (place, code) in codes.iter().enumerate() {
        if is_of(code, at, source) {
            return Some(place);
        }
    }
    None
}

/// The same entry.
fn copy_of(entry: &SourceEntry) -> Result<SourceEntry, AllocError>
    ensures { IfOk result (λ e. IsCopy entry.now e) }
{
    let functions = entry.functions.clone()?;
    Ok(SourceEntry {
        source: entry.source,
        root: entry.root,
        functions,
    })
}

/// The code that is held of a text at an address, if there is one.
fn entry_of(
    held: &Option<HeldCodes>,
    at: Addr,
    source: &Units,
) -> Result<Option<SourceEntry>, AllocError>
    ensures { IfOk result (λ entry. IsEntryOf held.now at source.now entry) }
{
    let Some(held) = held else {
        return Ok(None);
    };
    let Some(place) = place_of(held.codes.as_slice(), at, source) else {
        return Ok(None);
    };
    match held.codes.as_slice().get(place) {
        Some(code) => Ok(Some(copy_of(&code.entry)?)),
        None => Ok(None),
    }
}

/// The code that an evaluation takes of those that are held, if it takes one.
pub fn chosen_entry(
    choice: CodeChoice,
    held: &Option<HeldCodes>,
    at: Addr,
    source: &Units,
) -> Result<Option<SourceEntry>, AllocError>
    ensures { IfOk result (λ entry. IsChosen choice held.now at source.now entry) }
{
    match choice {
        CodeChoice::New => Ok(None),
        CodeChoice::Held => entry_of(held, at, source),
    }
}

/// Where the code of a text at an address stands, if any is held.
pub fn place_held(held: &Option<HeldCodes>, at: Addr, source: &Units) -> Option<usize>
    ensures { IfSome result (λ place. IsHeldThere held.now at source.now place) }
{
    match held {
        Some(held) => place_of(held.codes.as_slice(), at, source),
        None => None,
    }
}

/// How many codes are held.
pub fn count_held(held: &Option<HeldCodes>) -> usize
    ensures { (names : List (List ℕ)) (t : AnyTable) → result ≡ length (sources_held names t held.now) }
{
    match held {
        Some(held) => held.codes.len(),
        None => 0,
    }
}

/// The codes that are held, or none behind a mark.
fn codes_behind(alloc: Global, held: Option<HeldCodes>, mark: EvaluatorMark) -> HeldCodes
    ensures holds { (e : Evaluator) (n : ℕ) (start : EvaluatorMark) → IsHeld e n start held → IsMarked e mark
        → IsHolding e n start result }
    ensures sources { (names : List (List ℕ)) (t : AnyTable)
        → held_sources names t result.codes.items ≡ sources_held names t held }
{
    match held {
        Some(held) => held,
        None => HeldCodes {
            mark,
            codes: Vec::new(alloc),
        },
    }
}

/// Holds the code of a source, which was prepared for an address, behind all that an evaluator has.
///
/// # Errors
///
/// There is no memory for it, or something in it comes up in a run alone. The evaluator is then given up.
pub fn hold_code(
    alloc: Global,
    evaluator: &mut Evaluator,
    held: Option<HeldCodes>,
    at: Addr,
    prepared: &PreparedSource,
) -> Result<HeldCodes, AllocError>
    requires { IsWhole evaluator.old.table }
    ensures { (n : ℕ) (start : EvaluatorMark) → IsHeld evaluator.old n start held
        → IfOk result (λ codes. HoldsMore evaluator.old evaluator.new n start held codes (source_for at prepared.now)) }
{
    let mark = evaluator.mark();
    let mut codes = codes_behind(alloc, held, mark);
    let entry = add_code(
        alloc,
        &mut evaluator.names,
        &mut evaluator.table,
        at,
        &prepared.term,
    )?;
    let source = prepared.source.clone()?;
    codes.codes.push(HeldCode { source, at, entry })?;
    Ok(codes)
}

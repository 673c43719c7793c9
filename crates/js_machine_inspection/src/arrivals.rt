//! Arrivals: the next step enters a statement, returns at a closing brace, or reduces a call that isn't the start of its
//! statement.

ghost use Rattle.std.specs.Prelude.{◌≡◌, ℕ, List, slice_get};
ghost use Rattle.js_semantics.specs.Frames.{active, at, is_debugger, call_arrival};
ghost use Rattle.js_semantics.specs.State.{top_spot};
ghost use Rattle.js_machine_nodes.specs.Trees.{IsTable};
ghost use Rattle.js_machine_engine.specs.Points.{term_at, IsAt};
ghost use Rattle.js_machine_inspection.specs.Kinds.{for_kind, for_of_kind, call_kind, op_kind, arrival_by, enters_debugger};
ghost use Rattle.js_machine_inspection.specs.Sources.{spans_in};

use crate::reducing::{Reducing, next_reduced};
use crate::spans::offset_in;
use js_machine_actions::context::Context;
use js_machine_engine::stack::Stack;
use js_machine_engine::task::Point;
use js_machine_nodes::op::Op;
use js_machine_nodes::table::NodeTable;
use js_semantics::form::{Mark, Source};
use js_tree::script::Script;

/// The arrival at a `for` of this entry.
fn for_arrival(table: &NodeTable, entry: u32) -> Option<Mark>
    ensures { (spans : _) → result ≡ arrival_by spans (for_kind (slice_get table.now.fors.items entry)) }
{
    let entry = table.fors.get(entry as usize)?;
    Some(Mark::Start(entry.node))
}

/// The arrival at a `for .. of` of this entry.
fn for_of_arrival(table: &NodeTable, entry: u32) -> Option<Mark>
    ensures { (spans : _) → result ≡ arrival_by spans (for_of_kind (slice_get table.now.for_ofs.items entry)) }
{
    let entry = table.for_ofs.get(entry as usize)?;
    Some(Mark::Start(entry.node))
}

/// A call's place, where that isn't the start of the statement or body that it stands in.
fn call_arrival(scripts: &[Script], source: Source, place: Mark, statement: u32) -> Option<Mark>
    ensures { result ≡ call_arrival (spans_in scripts.now source) place statement }
{
    if offset_in(scripts, source, place) == offset_in(scripts, source, Mark::Start(statement)) {
        return None;
    }
    Some(place)
}

/// The arrival at a call of this entry, in the source of the top frame.
fn called_arrival(
    table: &NodeTable,
    scripts: &[Script],
    context: &Context,
    entry: u32,
) -> Option<Mark>
    ensures { result ≡ arrival_by (spans_in scripts.now (top_spot context.now.frames).source) (call_kind (slice_get table.now.calls.items entry)) }
{
    let call = table.calls.get(entry as usize)?;
    call_arrival(
        scripts,
        context.spot_of().source,
        call.place,
        call.statement,
    )
}

/// The arrival at what is about to be reduced.
#[inline]
fn arrival_at(
    table: &NodeTable,
    scripts: &[Script],
    context: &Context,
    op: Op,
    info: u32,
) -> Option<Mark>
    ensures { result ≡ arrival_by (spans_in scripts.now (top_spot context.now.frames).source) (op_kind table.now op info) }
{
    match op {
        Op::Enter => Some(Mark::Start(info)),
        Op::EnterDebugger => Some(Mark::Start(info)),
        Op::EnterFor => for_arrival(table, info),
        Op::EnterForOf => for_of_arrival(table, info),
        Op::Frame => Some(Mark::BeforeEnd(info, 1)),
        Op::Call => called_arrival(table, scripts, context, info),
        _ => None,
    }
}

/// The place at which the machine arrives, if its next step is an arrival; in the source of the top frame, of which `scripts`
/// has the spans where it is a script.
pub fn arrival(
    table: &NodeTable,
    scripts: &[Script],
    context: &Context,
    stack: &Stack,
    point: Point,
) -> Option<Mark>
    requires table { IsTable table.now }
    requires at { IsAt table.now stack.now point }
    ensures { (ts : List (List ℕ)) → result ≡ at (spans_in scripts.now (top_spot context.now.frames).source) (term_at ts table.now stack.now point) }
{
    let Reducing { op, info } = next_reduced(table, stack, point)?;
    arrival_at(table, scripts, context, op, info)
}

/// Whether it enters a `debugger` statement.
fn enters_debugger(op: Op) -> bool
    ensures { result ≡ enters_debugger op }
{
    match op {
        Op::EnterDebugger => true,
        _ => false,
    }
}

/// Whether the machine is about to enter a `debugger` statement.
pub fn is_at_debugger(table: &NodeTable, stack: &Stack, point: Point) -> bool
    requires table { IsTable table.now }
    requires at { IsAt table.now stack.now point }
    ensures { (ts : List (List ℕ)) → result ≡ is_debugger (active (term_at ts table.now stack.now point)) }
{
    match next_reduced(table, stack, point) {
        Some(next) => enters_debugger(next.op),
        None => false,
    }
}

//! Steps of a program that a session may stop.
//!
//! Where the program arrives, those sessions are asked that have a breakpoint at the place, by the index of places, and all of
//! them only where one may name a stop for another reason.
//!
//! The first step of a program that waited is a stretch of its own, since the start rule asks about it.

ghost use Rattle.std.specs.Prelude.{◌≡◌, ◌++◌, ◌<◌, ◌≤◌, ◌^◌, ◌||◌, ℕ, List, [], length, not, true, false, is_some, IfOk, IfSome, OnOk, None, Option, Some};
ghost use Rattle.std.specs.List.{list_any};
ghost use Rattle.std.specs.Option.{option_map};
ghost use Rattle.cdp_host_isolation.specs.Passes.{Behind, Over, any_set};
ghost use Rattle.cdp_host_isolation.specs.Runs.{AllFit, HasMade};
ghost use Rattle.cdp_host_isolation.specs.Seats.{seat_of, some, waits_for_report};
ghost use Rattle.js_heap.specs.declared.value.Value.{Value};
ghost use Rattle.js_machine_nodes.specs.Trees.{IsTable};
ghost use Rattle.js_machine.specs.Machines.{HasSameCode, IsKept, end_of_run, program_of};
ghost use Rattle.js_machine_engine.specs.Points.{term_at, IsAt};
ghost use Rattle.cdp_host.specs.Arrivals.{arrival_at};
ghost use Rattle.stepping.specs.Beside.{is_plain};
ghost use Rattle.stepping.specs.declared.arrival.Arrival.{Arrival as AnyArrival};
ghost use Rattle.js_machine_engine.specs.Prints.{PrintsAs};
ghost use Rattle.cdp_host.specs.Hosts.{beside, beside_behind, machine_arrival, machine_run, machine_step, AreLines};
ghost use Rattle.cdp_host.specs.Indexing.{IsIndexOf, has_request_in, is_wanted, wants_in};
ghost use Rattle.cdp_session.specs.Code.{code_of};
ghost use Rattle.cdp_host.specs.Programs.{is_over};
ghost use Rattle.cdp_host.specs.Protocols.{protocol};
ghost use Rattle.cdp_host.specs.Ran.{may_stop, may_stop_seat, IsStretch};

use crate::arrival::{arrival_at, arrival_of};
use crate::debuggee::Debuggee;
use crate::endings::ending_of;
use crate::indexing::forget_lost;
use crate::stops::next_number;
use crate::watching::{Step, let_watch};
use breakpoints::{PlaceIndex, ScriptSpots};
use cdp_host_isolation::Seat;
use cdp_host_seats::seat_index;
use cdp_session::{Session, Situation};
use cdp_text::line_table::LineTable;
use cdp_text::position::Place;
use cdp_text::units::Units;
use js_heap::value::Value;
use js_heap_memory::heap::BaseHeap;
use js_machine::end::End;
use js_machine::machine::Machine;
use js_machine_actions::context::Context;
use js_machine_engine::run::{StopTest, StoppedRun, Why};
use js_machine_engine::stack::Stack;
use js_machine_engine::task::Point;
use js_machine_inspection::arrivals::arrival;
use js_machine_inspection::throws::thrown;
use js_machine_nodes::table::NodeTable;
use js_tree::script::Script;
use std::alloc::AllocError;
use stepping::Arrival;

/// Asks for a stop where a session may name one: the conditions of its breakpoints are evaluated behind the stretch.
#[derive(Clone, Copy)]
struct Watch<'s, 'p> {
    scripts: &'s [Script],
    lines: &'s [LineTable],
    seats: &'s [Seat<Session<'p>>],
    index: &'s PlaceIndex,
    // whether some session may name a stop anywhere
    listens: bool,
    // whether some session asked for a pause, a step, or a place to run to
    requests: bool,
    ghost located: { AreLines scripts.now lines.now },
    ghost heard: { listens ≡ false → (a : AnyArrival) → may_stop a seats.now ≡ false },
    ghost asked: { requests ≡ some has_request_in seats.now },
    ghost indexed: { IsIndexOf seats.now index.now },
}

impl StopTest for Watch<'_, '_> {
    ghost stops = { λ watch term frames. may_stop (arrival_at watch.scripts.now term frames) watch.seats.now };

    fn asks(&self, table: &NodeTable, context: &Context, stack: &Stack, point: Point) -> bool {
        self.listens && self.may_be_named(table, context, stack, point)
    }
}

// ---- one session

/// Whether the session of a seat may name a stop anywhere.
fn listens(seat: &Seat<Session>) -> bool
    ensures { result ≡ false → (a : Arrival) → may_stop_seat a seat.now ≡ false }
{
    match seat {
        Seat::Attached(session) => !session.is_silent(),
        Seat::Lost { .. } | Seat::Left => false,
    }
}

/// Whether the session of a seat asked for a pause, a step, or a place to run to.
fn has_request(seat: &Seat<Session>) -> bool
    ensures { result ≡ has_request_in seat.now }
{
    match seat {
        Seat::Attached(session) => session.has_request(),
        Seat::Lost { .. } | Seat::Left => false,
    }
}

/// Whether a rule of the session of a seat other than that of breakpoints names a stop behind a step that leads to this
/// arrival.
fn wants(seat: &Seat<Session>, arrival: &Arrival) -> bool
    ensures { result ≡ wants_in arrival.now seat.now }
{
    match seat {
        Seat::Attached(session) => session.wants(arrival),
        Seat::Lost { .. } | Seat::Left => false,
    }
}

/// Whether the session of a seat names a stop behind a step that leads to this arrival, or would if the conditions of its
/// breakpoints held.
fn may_name(seat: &Seat<Session>, arrival: &Arrival) -> bool
    ensures { result ≡ may_stop_seat arrival.now seat.now }
{
    match seat {
        Seat::Attached(session) => session.may_name(arrival),
        Seat::Lost { .. } | Seat::Left => false,
    }
}

/// Whether the session of this number does.
fn may_name_at(seats: &[Seat<Session>], s: u64, arrival: &Arrival) -> bool
    ensures { result ≡ may_stop_seat arrival.now (seat_of s seats.now) }
{
    match seat_index(seats, s) {
        Some(index) => may_name(&seats[index], arrival),
        None => false,
    }
}

// ---- some of them

/// Whether some session may name a stop anywhere.
fn some_listen(seats: &[Seat<Session>]) -> bool
    ensures { result ≡ false → (a : Arrival) → may_stop a seats.now ≡ false }
{
    for seat in seats {
        if listens(seat) {
            return true;
        }
    }
    false
}

/// Whether some session asked for a pause, a step, or a place to run to.
fn some_have_requests(seats: &[Seat<Session>]) -> bool
    ensures { result ≡ some has_request_in seats.now }
{
    for seat in seats {
        if has_request(seat) {
            return true;
        }
    }
    false
}

/// Whether a rule of some session other than that of breakpoints names a stop behind a step that leads to this arrival.
fn some_want(seats: &[Seat<Session>], arrival: &Arrival) -> bool
    ensures { result ≡ is_wanted arrival.now seats.now }
{
    for seat in seats {
        if wants(seat, arrival) {
            return true;
        }
    }
    false
}

/// Whether one of the sessions of these numbers names a stop behind a step that leads to this arrival, or would if the
/// conditions of its breakpoints held.
fn some_may_name(seats: &[Seat<Session>], numbers: &[u64], arrival: &Arrival) -> bool
    ensures { result ≡ list_any (λ s. may_stop_seat arrival.now (seat_of s seats.now)) numbers.now }
{
    numbers.iter().any(|s| may_name_at(seats, *s, arrival))
}

impl Watch<'_, '_> {
    /// Whether a session may name a stop where a machine stands. Where it neither arrives nor raised, none does.
    fn may_be_named(
        &self,
        table: &NodeTable,
        context: &Context,
        stack: &Stack,
        point: Point,
    ) -> bool
        requires table { IsTable table.now }
        requires at { IsAt table.now stack.now point }
        ensures { (ts : List (List ℕ)) → result ≡ may_stop (arrival_at self.now.scripts.now (term_at ts table.now stack.now point) context.now.frames) self.now.seats.now }
    {
        let mark = arrival(table, self.scripts, context, stack, point);
        if mark.is_none() && thrown(stack, point).is_none() {
            return false;
        }
        let arrival = arrival_at(self.scripts, self.lines, table, context, stack, point);
        self.may_stop(&arrival)
    }

    /// Whether a session may name a stop behind a step that leads to this arrival.
    fn may_stop(&self, arrival: &Arrival) -> bool
        ensures { result ≡ may_stop arrival.now self.now.seats.now }
    {
        self.is_wanted(arrival) || self.is_held(arrival)
    }

    /// Whether a rule of some session other than that of breakpoints names a stop there.
    fn is_wanted(&self, arrival: &Arrival) -> bool
        ensures { result ≡ is_wanted arrival.now self.now.seats.now }
    {
        self.may_be_wanted(arrival) && some_want(self.seats, arrival)
    }

    /// Whether such a rule may name a stop there: one of a session that asked for something, or one for throws or for
    /// `debugger` statements.
    fn may_be_wanted(&self, arrival: &Arrival) -> bool
        ensures { result ≡ (some has_request_in self.now.seats.now || not (is_plain arrival.now)) }
    {
        self.requests || !arrival.is_plain()
    }

    /// Whether a session that has a breakpoint at the place may name a stop there. Where no other rule names one, no other
    /// session may.
    fn is_held(&self, arrival: &Arrival) -> bool
        ensures { is_wanted arrival.now self.now.seats.now ≡ false → result ≡ may_stop arrival.now self.now.seats.now }
    {
        match arrival.place {
            Some(place) => self.is_held_at(place, arrival),
            None => false,
        }
    }

    /// Whether a session that has a breakpoint at this place, at which the program arrived, may name a stop there.
    fn is_held_at(&self, place: Place, arrival: &Arrival) -> bool
        requires { arrival.now.place ≡ Some place }
        ensures { is_wanted arrival.now self.now.seats.now ≡ false → result ≡ may_stop arrival.now self.now.seats.now }
    {
        let holders = self.index.holders(place);
        some_may_name(self.seats, holders, arrival)
    }
}

/// How many steps were made, and how many calls were active where the last of them stopped the program, if it did.
#[derive(Clone, Copy)]
pub(crate) struct Advanced {
    pub(crate) steps: u64,
    pub(crate) stopped: Option<usize>,
}

/// The values that were printed, where that is why a run stops.
fn printed_values(why: Why) -> Option<Vec<Value>>
    ensures { (o : Option (List Value)) → IsKept (end_of_run why) → PrintsAs why o → option_map (λ vs. vs.items) result ≡ o }
{
    match why {
        Why::Printed(values) => Some(values),
        _ => None,
    }
}

/// Whether a machine was given up.
fn is_lost(machine: &Machine) -> bool
    ensures kept { result ≡ false → IsKept machine.now.ended }
{
    match machine.end() {
        None => false,
        Some(End::Finished(_)) => false,
        Some(End::Effect) => false,
        Some(End::Full(_)) => false,
        Some(End::Lost) => true,
    }
}

/// Lets all sessions watch the step that led a machine to where it is, and that printed these values; the stop that one of them
/// may name has this number. Answers how many calls are active where the program stops, if it does.
fn watch_machine(
    machine: &Machine,
    heap: &BaseHeap,
    scripts: &[Script],
    lines: &[LineTable],
    spots: &ScriptSpots,
    number: u64,
    moment: u64,
    first: bool,
    values: Option<Vec<Value>>,
    seats: &mut [Seat<Session>],
    named: &mut [bool],
) -> Option<usize>
    requires kept { IsKept machine.now.ended }
    requires lines { AreLines scripts.now lines.now }
    requires moment { moment < 2 ^ 53 }
    requires fit { AllFit (protocol scripts.now) seats.old }
    requires flags { length named.old ≡ length seats.old }
    ensures depth { IfSome result (λ depth. depth ≡ (machine_arrival scripts.now machine.now).depth) }
    ensures behind { Over (Behind (protocol scripts.now) (is_some result) number moment (machine_step scripts.now machine.now heap.now (option_map (λ vs. vs.items) values) first)) seats.old seats.new named.new }
    ensures any { is_some result ≡ any_set named.new }
{
    let step = Step {
        arrival: arrival_of(machine, scripts, lines),
        values,
        ending: ending_of(machine, scripts, lines),
        first,
    };
    let program = Debuggee {
        machine,
        heap,
        scripts,
        lines,
    };
    let situation = Situation {
        scripts,
        spots,
        paused: None,
        program: &program,
    };
    if let_watch(seats, named, &situation, number, &step, moment) {
        Some(step.arrival.depth)
    } else {
        None
    }
}

/// How many steps a stretch may have: the first step of a program that a client let begin is a stretch of its own.
fn most_of(first: bool, most: u64) -> u64
    requires { 0 < most }
    ensures some { 0 < result }
    ensures within { result ≤ most }
    ensures one { first ≡ true → result ≡ 1 }
{
    if first { 1 } else { most }
}

/// Makes steps of a program that isn't held, at least one, until it stops, raises, prints or ends, until a session is lost, or
/// until so many are made; what it prints comes behind the other texts. There were so many stops before; `first` says that the
/// next step is the first of a program that waited for a client.
///
/// # Errors
///
/// There is no memory for a step. The machine is given up.
pub(crate) fn make_stretch(
    machine: &mut Machine,
    heap: &mut BaseHeap,
    scripts: &[Script],
    lines: &[LineTable],
    spots: &ScriptSpots,
    first: bool,
    stops: u64,
    seats: &mut [Seat<Session>],
    index: &mut PlaceIndex,
    named: &mut [bool],
    most: u64,
    moment: u64,
    printed: &mut Vec<Units>,
) -> Result<Advanced, AllocError>
    requires going { machine.old.ended ≡ None }
    requires runs { (taken : List (List ℕ)) → is_over (machine_run machine.old heap.old taken) ≡ false }
    requires code { program_of machine.old ≡ code_of scripts.now }
    requires lines { AreLines scripts.now lines.now }
    requires some { 0 < most }
    requires moment { moment < 2 ^ 53 }
    requires fit { AllFit (protocol scripts.now) seats.old }
    requires all_told { some waits_for_report seats.old ≡ false }
    requires flags { length named.old ≡ length seats.old }
    requires indexed { IsIndexOf seats.old index.old }
    ensures made { IfOk result (λ a. (taken : List (List ℕ)) → HasMade (protocol scripts.now) moment
        (beside first stops seats.old (machine_run machine.old heap.old (taken ++ printed.old.items)))
        (beside_behind a.stopped stops seats.new (machine_run machine.new heap.new (taken ++ printed.new.items))) a.steps) }
    ensures counts { IfOk result (λ a. IsStretch most a.steps) }
    ensures kept { OnOk result (IsKept machine.new.ended) }
    ensures handed { OnOk result (machine.new.context.printed ≡ []) }
    ensures fit { OnOk result (AllFit (protocol scripts.now) seats.new) }
    ensures flags { length named.new ≡ length seats.new }
    ensures indexed { OnOk result (IsIndexOf seats.new index.new) }
    ensures code { HasSameCode machine.old machine.new }
{
    let most = most_of(first, most);
    let watch = Watch {
        scripts,
        lines,
        seats: &*seats,
        index: &*index,
        listens: some_listen(&*seats),
        requests: some_have_requests(&*seats),
    };
    let StoppedRun { steps, why } = machine.run_until(heap, most, &watch);
    let values = printed_values(why);
    if is_lost(machine) {
        return Err(AllocError);
    }
    printed.append(&mut machine.take_printed())?;
    let number = next_number(stops);
    let stopped = watch_machine(
        machine, heap, scripts, lines, spots, number, moment, first, values, seats, named,
    );
    forget_lost(index, &*seats);
    Ok(Advanced { steps, stopped })
}

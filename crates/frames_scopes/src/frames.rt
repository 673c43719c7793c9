//! The active frames.

ghost use Rattle.std.specs.Prelude.{◌≡◌, ◌^◌, ◌<◌, ℕ, List, length, map, option_map, slice_get, All};
ghost use Rattle.js_heap_memory.specs.Heaps.{heap_world};
ghost use Rattle.js_machine_actions.specs.Contexts.{state_of};
ghost use Rattle.js_semantics.specs.Frames.{at};
ghost use Rattle.js_semantics.specs.State.{top_spot};
ghost use Rattle.js_machine_inspection.specs.Sources.{spans_in};
ghost use Rattle.frames_scopes.specs.Cells.{function_seen};
ghost use Rattle.frames_scopes.specs.Frames.{function_name, function_of, function_place, here_at, shown_frame, walk};
ghost use Rattle.frames_scopes.specs.Places.{starts_of};
ghost use Rattle.js_machine_nodes.specs.Trees.{IsTable};
ghost use Rattle.js_machine_engine.specs.Points.{IsAt, term_at};
ghost use Rattle.frames_scopes.specs.FrameViews.{frame_shown};
ghost use Rattle.frames_scopes.specs.Standings.{CanWalk};

use crate::cells::{FunctionRef, function_at};
use crate::name::Name;
use crate::places::shown_place;
use crate::scopes::Scopes;
use crate::standing::StandingMachine;
use cdp_text::position::Place;
use js_heap::built_in::Code;
use js_heap::value::{Addr, Value};
use js_heap_memory::heap::BaseHeap;
use js_heap_memory::names::NameTable;
use js_machine_actions::frame::Frame;
use js_machine_inspection::arrivals::arrival;
use js_machine_inspection::frames::active_frame;
use js_machine_inspection::walks::{Walked, next_frame};
use js_semantics::form::{Mark, Source};
use std::marker::Model;

/// An active frame.
#[derive(Drop)]
pub struct FrameView<'m> {
    /// The name of its function; the script in the bottom frame has the empty one.
    pub name: Name<'m>,
    /// Where it stands: the top frame at the arrival, where the program has arrived; else at the statement last entered or
    /// the call last reduced in it.
    pub place: Place,
    /// The first token of its function; none for the script.
    pub function_place: Option<Place>,
    /// Its `this`.
    pub this: Value,
    /// Its scopes from the innermost one outward.
    pub scopes: Scopes<'m>,
}

/// The active frames that are still to come, from the top one outward. Contracts see their list.
#[derive(Drop)]
pub struct Frames<'m> {
    standing: StandingMachine<'m>,
    walked: Walked,
}

impl<'m> Model for Frames<'m> {
    ghost use Rattle.std.specs.Prelude.{List, drop, []};
    ghost use Rattle.js_heap_memory.specs.Heaps.{heap_world};
    ghost use Rattle.js_machine_actions.specs.Contexts.{state_of};
    ghost use Rattle.js_machine_engine.specs.Points.{term_at};
    ghost use Rattle.frames_scopes_types.specs.Frames.{ShownFrame};
    ghost use Rattle.frames_scopes.specs.Frames.{walk};
    ghost use Rattle.frames_scopes.specs.Standings.{IsWalkedOver};

    ghost Value = { List ShownFrame };

    ghost view = { λ f. let s = f.standing in drop f.walked.frames (walk s.scripts.now s.root
        (term_at s.names.now s.table.now s.stack.now s.point)
        (state_of (heap_world s.names.now s.heap.now) s.context.now [])) };

    ghost invariant = { λ f. let s = f.standing in IsWalkedOver s.table.now s.root s.stack.now s.point s.scripts.now
        s.lines.now f.walked };
}

/// The function of a frame, if it has one.
fn function_of<'m>(heap: &'m BaseHeap, function: Option<Addr>) -> Option<FunctionRef<'m>>
    ensures { (ts : List (List ℕ)) → function_seen ts result ≡ function_of (heap_world ts heap.now) function }
{
    function_at(heap, function?)
}

/// Where a function begins, if it is in one of the scripts.
fn function_place(standing: &StandingMachine, function: Option<FunctionRef>) -> Option<Place>
    requires lines { standing.now.lines.now ≡ map starts_of standing.now.scripts.now }
    requires short { All (λ s. length s.source < 2 ^ 32) standing.now.scripts.now }
    ensures { (ts : List (List ℕ)) → result ≡ function_place standing.now.scripts.now (function_seen ts function.entry) }
{
    let Code::Script { number, node } = function?.code else {
        return None;
    };
    let place = shown_place(
        standing.scripts,
        standing.lines,
        Source::Script(number),
        Mark::Start(node),
    );
    Some(place)
}

/// The name of a function; where there is none, the empty one.
fn function_name<'m>(names: &'m NameTable, function: Option<FunctionRef<'m>>) -> Name<'m>
    ensures { result ≡ function_name (function_seen names.now function.entry) }
{
    match function {
        Some(function) => Name::new(names, Some(function.name)),
        None => Name::new(names, None),
    }
}

/// A frame as it is shown.
fn view_of<'m>(standing: &StandingMachine<'m>, frame: &Frame, here: Mark) -> FrameView<'m>
    requires lines { standing.now.lines.now ≡ map starts_of standing.now.scripts.now }
    requires short { All (λ s. length s.source < 2 ^ 32) standing.now.scripts.now }
    ensures { frame_shown result ≡ shown_frame standing.now.scripts.now (heap_world standing.now.names.now standing.now.heap.now) (record frame.now { here = here }) }
{
    let function = function_of(standing.heap, frame.function());
    FrameView {
        name: function_name(standing.names, function),
        place: shown_place(standing.scripts, standing.lines, frame.source(), here),
        function_place: function_place(standing, function),
        this: frame.receiver(),
        scopes: Scopes::of(standing.names, standing.heap, frame.scope()),
    }
}

/// Where a frame stands that is shown behind so many: the top one at the arrival, if there is one.
fn here_of(standing: &StandingMachine, passed: usize, frame: &Frame) -> Mark
    requires table { IsTable standing.now.table.now }
    requires at { IsAt standing.now.table.now standing.now.stack.now standing.now.point }
    ensures { (ts : List (List ℕ)) → result ≡ here_at (at (spans_in standing.now.scripts.now (top_spot standing.now.context.now.frames).source) (term_at ts standing.now.table.now standing.now.stack.now standing.now.point)) passed frame.now }
{
    if passed > 0 {
        return frame.here();
    }
    let arrival = arrival(
        standing.table,
        standing.scripts,
        standing.context,
        standing.stack,
        standing.point,
    );
    match arrival {
        Some(mark) => mark,
        None => frame.here(),
    }
}

impl<'m> StandingMachine<'m> {
    /// The active frames from the top one outward: those of the configuration, whatever was taken of what it printed.
    pub fn frames(self) -> Frames<'m>
        requires { CanWalk self.table.now self.root self.stack.now self.point self.scripts.now self.lines.now }
        ensures { (taken : List (List ℕ)) → result ≡ walk self.entry.scripts.now self.entry.root (term_at self.entry.names.now self.entry.table.now self.entry.stack.now self.entry.point) (state_of (heap_world self.entry.names.now self.entry.heap.now) self.entry.context.now taken) }
    {
        Frames {
            standing: self,
            walked: Walked::start(),
        }
    }

    /// The active frame that is so many calls out from the top one, if there is one: no other is made.
    pub fn frame(self, depth: usize) -> Option<FrameView<'m>>
        requires { CanWalk self.table.now self.root self.stack.now self.point self.scripts.now self.lines.now }
        ensures { (taken : List (List ℕ)) → option_map frame_shown result ≡ slice_get (walk
            self.entry.scripts.now self.entry.root
            (term_at self.entry.names.now self.entry.table.now self.entry.stack.now self.entry.point)
            (state_of (heap_world self.entry.names.now self.entry.heap.now) self.entry.context.now taken)) depth }
    {
        let StandingMachine {
            table,
            root,
            context,
            stack,
            point,
            ..
        } = self;
        let frame = active_frame(table, root, context, stack, point, depth)?;
        let here = here_of(&self, depth, &frame);
        Some(view_of(&self, &frame, here))
    }
}

impl<'m> Iterator for Frames<'m> {
    ghost use Rattle.std.specs.Iterator.{YieldsFirstBy, item_count};
    ghost use Rattle.frames_scopes.specs.FrameViews.{frame_shown};

    type Item = FrameView<'m>;

    ghost next_gives = { YieldsFirstBy frame_shown (λ left. left) };

    ghost remaining = { item_count (λ left. left) };

    fn next(&mut self) -> Option<FrameView<'m>> {
        let StandingMachine {
            table,
            root,
            context,
            stack,
            point,
            ..
        } = self.standing;
        if self.walked.frames >= context.frame_count() {
            return None;
        }
        let frame = next_frame(table, root, context, stack, point, self.walked)?;
        let here = here_of(&self.standing, self.walked.frames, &frame);
        self.walked = self.walked.outward(stack);
        Some(view_of(&self.standing, &frame, here))
    }
}

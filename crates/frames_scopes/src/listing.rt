//! The active frames as a list, or one of them, in memory of their own. Names are lent all the same.

ghost use Rattle.std.specs.Prelude.{◌≡◌, ℕ, List, map, option_map, slice_get, IfOk};
ghost use Rattle.frames_scopes_types.specs.Views.{frame_of, scope_of};
ghost use Rattle.js_heap_memory.specs.Heaps.{heap_world};
ghost use Rattle.js_machine_actions.specs.Contexts.{state_of};
ghost use Rattle.js_machine_engine.specs.Points.{term_at};
ghost use Rattle.frames_scopes.specs.Frames.{walk};
ghost use Rattle.frames_scopes.specs.FrameViews.{frame_shown};
ghost use Rattle.frames_scopes.specs.ScopeViews.{scope_shown};
ghost use Rattle.frames_scopes.specs.Standings.{CanWalk};

use crate::frames::{FrameView, Frames};
use crate::scopes::{ScopeView, Scopes};
use crate::standing::StandingMachine;
use frames_scopes_types::{CallFrame, Scope};
use std::alloc::{AllocError, Global};

/// A scope with the text of its name.
fn lent_scope<'m>(view: &ScopeView<'m>) -> Result<Scope<'m>, AllocError>
    ensures { IfOk result (λ scope. scope_of scope ≡ scope_shown view.now) }
{
    Ok(Scope {
        kind: view.kind,
        name: view.name.text()?,
        bindings: view.bindings,
    })
}

/// The scopes of a frame.
fn lent_scopes<'m>(alloc: Global, scopes: Scopes<'m>) -> Result<Vec<Scope<'m>>, AllocError>
    ensures { IfOk result (λ list. map scope_of list.items ≡ scopes.entry) }
{
    let mut list = Vec::new(alloc);
    for view in scopes {
        list.push(lent_scope(&view)?)?;
    }
    Ok(list)
}

/// A frame with the texts of its names.
fn lent_frame<'m>(alloc: Global, view: FrameView<'m>) -> Result<CallFrame<'m>, AllocError>
    ensures { IfOk result (λ frame. frame_of frame ≡ frame_shown view.entry) }
{
    let FrameView {
        name,
        place,
        function_place,
        this,
        scopes,
    } = view;
    let name = name.text()?;
    let scopes = lent_scopes(alloc, scopes)?;
    Ok(CallFrame {
        name,
        place,
        function_place,
        this,
        scopes,
    })
}

/// The frames with the texts of their names.
fn lent_frames<'m>(alloc: Global, frames: Frames<'m>) -> Result<Vec<CallFrame<'m>>, AllocError>
    ensures { IfOk result (λ list. map frame_of list.items ≡ frames.entry) }
{
    let mut list = Vec::new(alloc);
    for view in frames {
        list.push(lent_frame(alloc, view)?)?;
    }
    Ok(list)
}

/// The frame, if there is one, with the texts of its names.
fn lent_option<'m>(
    alloc: Global,
    view: Option<FrameView<'m>>,
) -> Result<Option<CallFrame<'m>>, AllocError>
    ensures { IfOk result (λ frame. option_map frame_of frame ≡ option_map frame_shown view.entry) }
{
    match view {
        Some(view) => Ok(Some(lent_frame(alloc, view)?)),
        None => Ok(None),
    }
}

impl<'m> StandingMachine<'m> {
    /// The active frames from the top one outward, each with its scopes: their names are lent. They are those of the
    /// configuration, whatever was taken of what it printed.
    ///
    /// # Errors
    ///
    /// There is no memory for them, or the table doesn't have the text of a name, as no table has the texts of numbers that it
    /// didn't give.
    pub fn call_frames(self, alloc: Global) -> Result<Vec<CallFrame<'m>>, AllocError>
        requires { CanWalk self.table.now self.root self.stack.now self.point self.scripts.now self.lines.now }
        ensures { IfOk result (λ list. (taken : List (List ℕ)) → map frame_of list.items ≡ walk self.entry.scripts.now self.entry.root (term_at self.entry.names.now self.entry.table.now self.entry.stack.now self.entry.point) (state_of (heap_world self.entry.names.now self.entry.heap.now) self.entry.context.now taken)) }
    {
        lent_frames(alloc, self.frames())
    }
    /// The active frame that is so many calls out from the top one, if there is one, with its scopes: their names are
    /// lent. No other frame is made.
    ///
    /// # Errors
    ///
    /// There is no memory for it, or the table doesn't have the text of a name, as no table has the texts of numbers that
    /// it didn't give.
    pub fn call_frame(
        self,
        alloc: Global,
        depth: usize,
    ) -> Result<Option<CallFrame<'m>>, AllocError>
        requires { CanWalk self.table.now self.root self.stack.now self.point self.scripts.now self.lines.now }
        ensures { IfOk result (λ frame. (taken : List (List ℕ)) → option_map frame_of frame ≡ slice_get
            (walk self.entry.scripts.now self.entry.root
            (term_at self.entry.names.now self.entry.table.now self.entry.stack.now self.entry.point)
            (state_of (heap_world self.entry.names.now self.entry.heap.now) self.entry.context.now taken)) depth) }
    {
        lent_option(alloc, self.frame(depth))
    }
}

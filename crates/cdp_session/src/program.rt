//! The program that a session debugs, where it stands still.
//!
//! A session asks it through a trait: it stands beside the machine, not on it.

use crate::top::Top;
use frames_scopes_types::CallFrame;
use js_heap::value::{Addr, Value};
use js_heap_memory::heap::BaseHeap;
use js_heap_memory::names::NameTable;
use js_tree::script::{Expression, FunctionCode};
use pure_eval::PreparedSource;
use std::alloc::{AllocError, Global};

/// The cells of a program, with the table of its names.
#[derive(Clone, Copy)]
pub struct ProgramCells<'p> {
    /// The cells.
    pub heap: &'p BaseHeap,
    /// The names.
    pub names: &'p NameTable,
}

/// What a session asks of a program that stands still. Contracts see how it stands.
pub trait Program {
    ghost use Rattle.std.specs.Prelude.{◌≡◌, length, map, option_map, slice_get, IfOk};
    ghost use Rattle.frames_scopes_types.specs.Views.{frame_of};
    ghost use Rattle.cdp_session.specs.Conditions.{top_of};
    ghost use Rattle.cdp_session.specs.Situations.{Standing};
    ghost use Rattle.js_heap_memory.specs.Heaps.{heap_world};
    ghost use Rattle.pure_eval.specs.Preparing.{IsPrepared, IsPreparedFunction};

    ghost standing: { Self → Standing };

    /// Its cells. Takes no memory.
    fn cells(&self) -> ProgramCells<'_>
        ensures { heap_world result.names.now result.heap.now ≡ (standing self.now).world };

    /// Its active frames, from the top one outward.
    ///
    /// # Errors
    ///
    /// There is no memory for them.
    fn call_frames(&self, alloc: Global) -> Result<Vec<CallFrame<'_>>, AllocError>
        ensures { IfOk result (λ frames. map frame_of frames.items ≡ (standing self.now).frames) };

    /// How many frames are active. Takes no memory.
    fn frame_count(&self) -> usize
        ensures { result ≡ length (standing self.now).frames };

    /// The active frame that is so far from the top one, if there is one: no other is made.
    ///
    /// # Errors
    ///
    /// There is no memory for it.
    fn call_frame(&self, alloc: Global, depth: usize) -> Result<Option<CallFrame<'_>>, AllocError>
        ensures { IfOk result (λ frame. option_map frame_of frame ≡ slice_get (standing self.now).frames depth) };

    /// In what its top frame is evaluated. Takes no memory.
    fn top(&self) -> Top
        ensures { result ≡ top_of (standing self.now).frames };

    /// The value of a throw that stands, if one does. Takes no memory.
    fn thrown(&self) -> Option<Value>
        ensures { result ≡ (standing self.now).thrown };

    /// Whether its run has ended. Takes no memory.
    fn is_over(&self) -> bool
        ensures { result ≡ (standing self.now).over };

    /// An expression that is ready to be evaluated, its source to be kept at an address.
    ///
    /// # Errors
    ///
    /// There is no memory for it.
    fn prepared(
        &self,
        alloc: Global,
        at: Addr,
        expression: &Expression,
    ) -> Result<PreparedSource, AllocError>
        ensures { IfOk result (λ p. IsPrepared at expression.now p) };

    /// A function that is ready to be called, its source to be kept at an address.
    ///
    /// # Errors
    ///
    /// There is no memory for it.
    fn prepared_function(
        &self,
        alloc: Global,
        at: Addr,
        function: &FunctionCode,
    ) -> Result<PreparedSource, AllocError>
        ensures { IfOk result (λ p. IsPreparedFunction at function.now p) };
}

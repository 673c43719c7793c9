//! What a step threads beside a world.

ghost use Rattle.std.specs.Prelude.{◌≡◌, length, slice_get, Some, None, IfOk, IfSome, IfNone, OnOk, []};
ghost use Rattle.js_semantics.specs.State.{set_here as here_set, push_frame as frame_pushed, pop_frame as frame_popped, moved_frames, top_this, top_spot};
ghost use Rattle.js_machine_actions.specs.Contexts.{start_context, bare_context, Turns, Prints, Takes};

use crate::action_end::ActionEnd;
use crate::frame::Frame;
use cdp_text::units::Units;
use js_heap::value::{Addr, Value};
use js_heap_memory::names::NameTable;
use js_heap_memory::world::World;
use js_semantics::form::{Mark, Source, SourceMark};
use std::alloc::{AllocError, Global};
use std::collections::VecDeque;
use std::marker::Model;

/// The active calls from the top, the `this` outside all of them, the input lines left, and the texts printed that nobody
/// has taken yet. Contracts see the record of them.
#[derive(Drop)]
pub struct Context {
    frames: VecDeque<Frame>,
    outer_this: Value,
    input: VecDeque<Units>,
    printed: Vec<Units>,
}

impl Model for Context {
    ghost use Rattle.js_machine_actions.specs.Contexts.{Context as AnyContext};

    ghost Value = { AnyContext };

    ghost view = { λ c. record { frames = c.frames.items; outer_this = c.outer_this; input = c.input.items; printed = c.printed.items } };
}

impl Context {
    /// The context before the first step of a run, with the bottom frame at the beginning of the first script.
    pub fn start(alloc: Global, input: VecDeque<Units>) -> Result<Context, AllocError>
        ensures { IfOk result (λ context. context ≡ start_context input.items) }
    {
        let bottom = Frame::new(
            None,
            Source::Script(1),
            Value::Undefined,
            Addr::Base(1),
            Mark::Beginning,
        );
        let mut frames = VecDeque::new(alloc);
        frames.push_back(bottom)?;
        Ok(Context {
            frames,
            outer_this: Value::Undefined,
            input,
            printed: Vec::new(alloc),
        })
    }

    /// A context outside all calls, with this `this` and no input. It takes no memory.
    pub fn bare(alloc: Global, outer_this: Value) -> Context
        ensures { result ≡ bare_context outer_this }
    {
        Context {
            frames: VecDeque::new(alloc),
            outer_this,
            input: VecDeque::new(alloc),
            printed: Vec::new(alloc),
        }
    }

    /// The texts printed that nobody has taken yet.
    pub fn printed(&self) -> &[Units]
        ensures { result.now ≡ self.now.printed }
    {
        self.printed.as_slice()
    }

    /// Takes the texts printed.
    pub fn take_printed(&mut self) -> Vec<Units>
        ensures texts { result.items ≡ self.old.printed }
        ensures rest { self.new ≡ record self.old { printed = [] } }
    {
        let alloc = *self.printed.allocator();
        std::mem::replace(&mut self.printed, Vec::new(alloc))
    }

    /// How many frames there are.
    pub fn frame_count(&self) -> usize
        ensures { result ≡ length self.now.frames }
    {
        self.frames.len()
    }

    /// The frame so many calls out from the top one, if there are as many.
    pub fn frame_at(&self, d: usize) -> Option<&Frame>
        ensures some { IfSome result (λ f. slice_get self.now.frames d ≡ Some f.now) }
        ensures none { IfNone result (slice_get self.now.frames d ≡ None) }
    {
        self.frames.get(d)
    }

    /// The `this` of the top frame (ECMA-262, 13.2.1).
    pub fn this_of(&self) -> Value
        ensures { result ≡ top_this self.now.frames self.now.outer_this }
    {
        match self.frames.front() {
            Some(frame) => frame.receiver(),
            None => self.outer_this,
        }
    }

    /// The place of the top frame.
    pub fn spot_of(&self) -> SourceMark
        ensures { result ≡ top_spot self.now.frames }
    {
        match self.frames.front() {
            Some(frame) => SourceMark {
                source: frame.source(),
                mark: frame.here(),
            },
            None => SourceMark {
                source: Source::Script(0),
                mark: Mark::Beginning,
            },
        }
    }

    // ---- frames

    /// Another place of the top frame.
    pub fn set_here(&mut self, here: Mark)
        ensures { Turns (here_set here) self.old self.new }
    {
        move_top(&mut self.frames, here);
    }

    /// A new frame at the top.
    pub fn push_frame(&mut self, frame: Frame) -> Result<(), AllocError>
        ensures { OnOk result (Turns (frame_pushed frame) self.old self.new) }
    {
        self.frames.push_front(frame)?;
        Ok(())
    }

    /// The top frame is gone.
    pub fn pop_frame(&mut self)
        ensures { Turns frame_popped self.old self.new }
    {
        self.frames.pop_front();
    }

    // ---- outside

    /// Prints a text, which ends an evaluation.
    pub fn print<W: World>(
        &mut self,
        world: &W,
        names: &NameTable,
        text: Units,
    ) -> Result<(), ActionEnd>
        ensures { Prints text (W.world names.now world.now) self.old result self.new }
    {
        if world.is_evaluation() {
            return Err(ActionEnd::Effect);
        }
        self.printed.push(text)?;
        Ok(())
    }

    /// Takes the next line of the input, which ends an evaluation.
    pub fn take_line<W: World>(
        &mut self,
        world: &W,
        names: &NameTable,
    ) -> Result<Option<Units>, ActionEnd>
        ensures { Takes (W.world names.now world.now) self.old result self.new }
    {
        if world.is_evaluation() {
            return Err(ActionEnd::Effect);
        }
        Ok(self.input.pop_front())
    }
}

/// Another place of the top frame.
#[tactic(auto, using(crate::proofs::ContextLemmas::frame_rules))]
fn move_top(frames: &mut VecDeque<Frame>, here: Mark)
    ensures { frames.new.items ≡ moved_frames frames.old.items here }
{
    if frames.is_empty() {
        return;
    }
    frames[0].set_here(here);
}

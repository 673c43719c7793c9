//! Where a machine stands. Nothing here takes memory.

ghost use Rattle.std.specs.Prelude.{◌≡◌, ℕ, List};
ghost use Rattle.js_heap.specs.BuiltIns.{script_scope};
ghost use Rattle.js_heap.specs.World.{World};
ghost use Rattle.js_semantics.specs.Frames.{active, at, depth, frame_at, is_debugger, thrown};
ghost use Rattle.js_machine_inspection.specs.Catchers.{standing_throw};
ghost use Rattle.js_machine_inspection.specs.Sources.{spans_in};
ghost use Rattle.js_machine.specs.Machines.{state_of, term_of};
ghost use Rattle.js_machine.specs.Standing.{holds_until_end, source_of, until_end};

use crate::machine::Machine;
use js_heap::built_in::script_scope;
use js_machine_actions::frame::Frame;
use js_machine_inspection::arrivals::{arrival, is_at_debugger};
use js_machine_inspection::frames::{active_frame, depth};
use js_machine_inspection::standing::Thrown;
use js_machine_inspection::throws::thrown;
use js_semantics::form::{Mark, Source};
use js_tree::script::Script;

impl Machine {
    /// The place at which the next step arrives, if it does: it enters a statement, returns at a closing brace, or reduces a call
    /// that isn't the start of its statement. The place is in the source of the top frame, whose spans the scripts have.
    pub fn at(&self, scripts: &[Script]) -> Option<Mark>
        ensures { result ≡ until_end self.now.ended (at (spans_in scripts.now (source_of self.now)) (term_of self.now)) }
    {
        match self.end {
            Some(_) => None,
            None => arrival(&self.table, scripts, &self.context, &self.stack, self.point),
        }
    }

    /// The source of the top frame, in which the place of an arrival is.
    pub fn source(&self) -> Source
        ensures { result ≡ source_of self.now }
    {
        self.context.spot_of().source
    }

    /// Whether the next step enters a `debugger` statement.
    pub fn at_debugger(&self) -> bool
        ensures { result ≡ holds_until_end self.now.ended (is_debugger (active (term_of self.now))) }
    {
        match self.end {
            Some(_) => false,
            None => is_at_debugger(&self.table, &self.stack, self.point),
        }
    }

    /// The throw that stands, if one does, and whether no `catch` will take it.
    pub fn thrown(&self) -> Option<Thrown>
        ensures { standing_throw result ≡ until_end self.now.ended (thrown (term_of self.now)) }
    {
        match self.end {
            Some(_) => None,
            None => thrown(&self.stack, self.point),
        }
    }

    /// How many calls are active.
    pub fn depth(&self) -> usize
        ensures { (w : World) (taken : List (List ℕ)) → result ≡ depth (state_of self.now w taken) }
    {
        depth(&self.context)
    }

    /// The active frame so many calls out from the top one, if there are as many: its function, the source of its code, its `this`,
    /// the innermost scope of its active part, and the place of the statement last entered or call last reduced in it.
    pub fn frame(&self, d: usize) -> Option<Frame>
        ensures { (w : World) (taken : List (List ℕ)) → result ≡ until_end self.now.ended (frame_at d script_scope (term_of self.now) (state_of self.now w taken)) }
    {
        match self.end {
            Some(_) => None,
            None => active_frame(
                &self.table,
                script_scope(),
                &self.context,
                &self.stack,
                self.point,
                d,
            ),
        }
    }
}

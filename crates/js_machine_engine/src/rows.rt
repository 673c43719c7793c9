//! What a machine asks of a table of steps.

use crate::code::RunningCode;
use crate::reduced::Reduced;
use crate::task::{Extra, Redex};
use js_heap::value::Value;
use js_heap_memory::world::World;
use js_machine_actions::context::Context;

/// A table of steps: one row for each form, over any world.
pub trait Rows {
    ghost use Rattle.std.specs.Prelude.{List, ℕ, None};
    ghost use Rattle.js_heap.specs.declared.value.Addr.{Addr as AnyAddr};
    ghost use Rattle.js_heap.specs.declared.value.Value.{Value as AnyValue};
    ghost use Rattle.js_semantics.specs.declared.form.SourceMark.{SourceMark as AnySpot};
    ghost use Rattle.js_machine_nodes.specs.Codes.{HasFunctions};
    ghost use Rattle.js_machine_actions.specs.Contexts.{state_of};
    ghost use Rattle.js_machine_engine.specs.Rows.{RowOf, CatchOf, IsCatching, redex};

    /// The row of what is about to be reduced, with the values of its parts.
    fn reduce<W: World>(
        code: &RunningCode<'_, '_>,
        context: &mut Context,
        world: &mut W,
        form: Redex,
        values: &[Value],
        extra: Option<Extra>,
    ) -> Reduced
        requires { HasFunctions code.now.table.now }
        ensures { (outer : AnyAddr) (taken : List (List ℕ)) → RowOf code.now.names.now code.now.table.now (redex form values.now extra) outer (state_of (W.world code.now.names.now world.old) context.old taken) result (state_of (W.world code.now.names.now world.new) context.new taken) };

    /// What a `try` with a `catch` makes of a throw that reaches it.
    fn catch<W: World>(
        code: &RunningCode<'_, '_>,
        context: &Context,
        world: &mut W,
        form: Redex,
        thrown: Value,
    ) -> Reduced
        requires { IsCatching form.op }
        ensures { (outer : AnyAddr) (place : AnySpot) (values : List AnyValue) (taken : List (List ℕ)) → CatchOf code.now.names.now code.now.table.now (redex form values None) outer thrown place (state_of (W.world code.now.names.now world.old) context.now taken) result (state_of (W.world code.now.names.now world.new) context.now taken) };
}

//! Rows that touch no cell.

ghost use Rattle.std.specs.Prelude.{List, ℕ};
ghost use Rattle.js_heap.specs.World.{World as AnyWorld};
ghost use Rattle.js_heap.specs.declared.value.Value.TheVariants as value;
ghost use Rattle.js_semantics.specs.BuiltIns.{argument, last_of};
ghost use Rattle.js_semantics.specs.State.{give, raise, leave, set_here, pop_frame, this_of};
ghost use Rattle.js_semantics.specs.declared.form.Mark.TheVariants.{Start as at_start};
ghost use Rattle.js_semantics.specs.declared.form.Completion.TheVariants.{Returns as returning};
ghost use Rattle.js_machine_actions.specs.Contexts.{Context as AnyContext};
ghost use Rattle.js_machine_rows.specs.Calls.{ActsAnywhere};
ghost use Rattle.js_machine_rows.specs.Simple.{CommaOf};

use crate::parts::part_at;
use js_heap::value::Value;
use js_heap_memory::slots::argument;
use js_machine_actions::context::Context;
use js_machine_actions::lists::last_of;
use js_machine_engine::reduced::Reduced;
use js_machine_engine::task::Redex;
use js_machine_nodes::table::NodeTable;
use js_semantics::form::Mark;

/// `this` (ECMA-262, 13.2.1).
#[inline(always)]
pub fn this(context: &Context) -> Reduced
    ensures { (ts : List (List ℕ)) (w : AnyWorld) → ActsAnywhere ts (λ s. give (this_of s)) w context.now result w context.now }
{
    Reduced::Gives(context.this_of())
}

/// The last value, of a form that has no row of its own.
pub fn last(values: &[Value]) -> Reduced
    ensures { (ts : List (List ℕ)) (w : AnyWorld) (c : AnyContext) → ActsAnywhere ts (λ s. give (last_of values.now)) w c result w c }
{
    Reduced::Gives(last_of(values))
}

/// `return` (14.10).
#[inline(always)]
pub fn returned(values: &[Value]) -> Reduced
    ensures { (ts : List (List ℕ)) (w : AnyWorld) (c : AnyContext) → ActsAnywhere ts (λ s. leave (returning (argument values.now 0))) w c result w c }
{
    Reduced::Returns(argument(values, 0))
}

/// `throw` with its value: the place is again the statement's start (14.14).
pub fn throw(context: &mut Context, node: u32, values: &[Value]) -> Reduced
    ensures { (ts : List (List ℕ)) (w : AnyWorld) → ActsAnywhere ts (λ s. set_here (at_start node) (raise (argument values.now 0))) w context.old result w context.new }
{
    context.set_here(Mark::Start(node));
    Reduced::Raises(argument(values, 0))
}

/// A body with nothing left: the frame is gone (10.2.1.4).
#[inline(always)]
pub fn frame(context: &mut Context) -> Reduced
    ensures { (ts : List (List ℕ)) (w : AnyWorld) → ActsAnywhere ts (λ s. pop_frame (give value.Undefined)) w context.old result w context.new }
{
    context.pop_frame();
    Reduced::Gives(Value::Undefined)
}

/// A comma after a value (13.16.1).
pub fn comma(table: &NodeTable, form: Redex) -> Reduced
    ensures { CommaOf table.now form.mid form.end result }
{
    match part_at(table, form.mid, form.end, 0) {
        Some(part) => match part_at(table, form.mid, form.end, 1) {
            Some(_) => Reduced::Commas,
            None => Reduced::Goes(part),
        },
        None => Reduced::Gives(Value::Undefined),
    }
}

//! One step.

ghost use Rattle.std.specs.Prelude.{◌≡◌, ℕ, List, [], None, false, slice_get};
ghost use Rattle.js_semantics.specs.Next.{next, scope_in};
ghost use Rattle.js_semantics.specs.State.{Move};
ghost use Rattle.js_semantics.specs.Terms.{Term};
ghost use Rattle.js_machine_actions.specs.Contexts.{state_of};
ghost use Rattle.js_machine_nodes.specs.Codes.{HasFunctions};
ghost use Rattle.js_machine_nodes.specs.Trees.{program_of, IsTable};
ghost use Rattle.js_machine_engine.specs.Tasks.{kept_of, task_form, scope_of, InScopes};
ghost use Rattle.js_machine_engine.specs.Points.{term_at, IsAtRow, IsLeafAt};
ghost use Rattle.js_machine_engine.specs.Answers.{resumed};
ghost use Rattle.js_machine_engine.specs.Rows.{redex};
ghost use Rattle.js_machine_engine.specs.Stacks.{outer_of, has_extra};
ghost use Rattle.js_machine_engine.specs.Following.{innermost};
ghost use Rattle.js_machine_engine.specs.Stepping.{demand_of, Says, Tells, TellsWithin, Steps, told_by, IfGoesOn, StandsIn, IsGoing};
ghost use Rattle.js_machine_engine.specs.declared.task.Point.TheVariants as points;

use crate::answer::{Demand, demand_of, has_gone, went_of};
use crate::code::RunningCode;
use crate::concluding::{conclude, print, raise};
use crate::following::parts::follow_value;
use crate::leaf::follow_leaf;
use crate::position::Position;
use crate::reduced::Reduced;
use crate::rows::Rows;
use crate::settling::{give, uncover_part};
use crate::stack::Stack;
use crate::stepped::Stepped;
use crate::task::{Extra, Point, Redex};
use crate::travelling::travel;
use js_heap::value::Value;
use js_heap_memory::world::World;
use js_machine_actions::context::Context;
use js_semantics::form::Completion;

/// The completion that a `finally` kept, if there is one.
fn kept_of(extra: Option<Extra>) -> Option<Completion>
    ensures { result ≡ kept_of extra }
{
    match extra {
        Some(Extra::Kept(completion)) => Some(completion),
        _ => None,
    }
}

/// The completion travels on that the innermost task kept, which is left.
fn resume<T: Rows, W: World>(
    code: &RunningCode<'_, '_>,
    context: &mut Context,
    world: &mut W,
    stack: &mut Stack,
    point: &mut Position,
) -> Stepped
    requires table { IsTable code.now.table.now }
    requires scoped { InScopes code.now.table.now code.now.root stack.old }
    ensures told { (taken : List (List ℕ)) → TellsWithin code.now.names.now code.now.table.now code.now.root (outer_of stack.old) (resumed (kept_of (innermost stack.old).extra) (state_of (W.world code.now.names.now world.old) context.old taken)) result stack.new point.new (state_of (W.world code.now.names.now world.new) context.new taken) }
    ensures stands { IfGoesOn result (StandsIn code.now.table.now code.now.root stack.new point.new) }
{
    let kept = kept_of(stack.extra());
    stack.pop();
    match kept {
        Some(completion) => { travel::<T, W>(code, context, world, stack, point, completion) }
        None => went_of(give(code.table, stack, point, Value::Undefined)),
    }
}

/// What a step comes to whose row gave this answer for the innermost task.
fn leave_row<T: Rows, W: World>(
    code: &RunningCode<'_, '_>,
    context: &mut Context,
    world: &mut W,
    stack: &mut Stack,
    point: &mut Position,
    reduced: Reduced,
) -> Stepped
    requires table { IsTable code.now.table.now }
    requires scoped { InScopes code.now.table.now code.now.root stack.old }
    ensures told { (taken : List (List ℕ)) (m : Move Term) → Says code.now.names.now code.now.table.now (innermost stack.old) m reduced (demand_of reduced) (state_of (W.world code.now.names.now world.old) context.old taken) → TellsWithin code.now.names.now code.now.table.now code.now.root (outer_of stack.old) m result stack.new point.new (state_of (W.world code.now.names.now world.new) context.new taken) }
    ensures stands { IfGoesOn result (StandsIn code.now.table.now code.now.root stack.new point.new) }
{
    match demand_of(reduced) {
        Demand::Travels(completion) => {
            stack.pop();
            travel::<T, W>(code, context, world, stack, point, completion)
        }
        Demand::Resumes => { resume::<T, W>(code, context, world, stack, point) }
        answer => conclude(code, context, stack, point, reduced, answer),
    }
}

/// A step whose row gave this answer for the innermost task, apart from the run loop; `told` is what it tells.
#[inline(never)]
fn tell_row<T: Rows, W: World>(
    code: &RunningCode<'_, '_>,
    context: &mut Context,
    world: &mut W,
    stack: &mut Stack,
    point: &mut Position,
    reduced: Reduced,
    told: &mut Stepped,
)
    requires table { IsTable code.now.table.now }
    requires scoped { InScopes code.now.table.now code.now.root stack.old }
    ensures told { (taken : List (List ℕ)) (m : Move Term) → Says code.now.names.now code.now.table.now (innermost stack.old) m reduced (demand_of reduced) (state_of (W.world code.now.names.now world.old) context.old taken) → TellsWithin code.now.names.now code.now.table.now code.now.root (outer_of stack.old) m told.new stack.new point.new (state_of (W.world code.now.names.now world.new) context.new taken) }
    ensures stands { IfGoesOn told.new (StandsIn code.now.table.now code.now.root stack.new point.new) }
{
    *told = leave_row::<T, W>(code, context, world, stack, point, reduced);
}

/// The step of the innermost task, whose parts have their values. Answers whether it went; otherwise `told` is what it
/// tells.
#[inline(always)]
fn step_row<T: Rows, W: World>(
    code: &RunningCode<'_, '_>,
    context: &mut Context,
    world: &mut W,
    stack: &mut Stack,
    point: &mut Position,
    told: &mut Stepped,
) -> bool
    requires table { IsTable code.now.table.now }
    requires functions { HasFunctions code.now.table.now }
    requires scoped { InScopes code.now.table.now code.now.root stack.old }
    requires row { IsAtRow stack.old }
    ensures told { (taken : List (List ℕ)) → Steps code.now.names.now code.now.table.now code.now.root stack.old points.Row (state_of (W.world code.now.names.now world.old) context.old taken) (told_by result told.new) stack.new point.new (state_of (W.world code.now.names.now world.new) context.new taken) }
    ensures stands { IfGoesOn (told_by result told.new) (StandsIn code.now.table.now code.now.root stack.new point.new) }
{
    let Some(task) = stack.last() else {
        *told = Stepped::Memory;
        return false;
    };
    let form = Redex {
        op: task.op,
        info: task.info,
        mid: task.mid,
        end: task.end,
        inner: task.inner,
    };
    let extra = stack.extra();
    let reduced = T::reduce(code, context, world, form, stack.values(), extra);
    match reduced {
        Reduced::Gives(value) => has_gone(
            follow_value(code.table, code.root, stack, point, value),
            told,
        ),
        _ => {
            tell_row::<T, W>(code, context, world, stack, point, reduced, told);
            false
        }
    }
}

/// What a step comes to whose row gave this answer for a node without parts.
fn leave_leaf<T: Rows, W: World>(
    code: &RunningCode<'_, '_>,
    context: &mut Context,
    world: &mut W,
    stack: &mut Stack,
    point: &mut Position,
    form: Redex,
    reduced: Reduced,
) -> Stepped
    requires table { IsTable code.now.table.now }
    requires scoped { InScopes code.now.table.now code.now.root stack.old }
    requires owns { has_extra form.op form.info ≡ false }
    requires inner { (ts : List (List ℕ)) → scope_in (task_form ts code.now.table.now (redex form [] None)) (scope_of code.now.root stack.old) ≡ form.inner }
    ensures told { (taken : List (List ℕ)) (m : Move Term) → Says code.now.names.now code.now.table.now (redex form [] None) m reduced (demand_of reduced) (state_of (W.world code.now.names.now world.old) context.old taken) → TellsWithin code.now.names.now code.now.table.now code.now.root stack.old m result stack.new point.new (state_of (W.world code.now.names.now world.new) context.new taken) }
    ensures stands { IfGoesOn result (StandsIn code.now.table.now code.now.root stack.new point.new) }
{
    match demand_of(reduced) {
        Demand::Follows => went_of(follow_leaf(code.table, code.root, stack, point, form, reduced)),
        Demand::Raises(value) => raise(context, point, value),
        Demand::Travels(completion) => {
            travel::<T, W>(code, context, world, stack, point, completion)
        }
        Demand::Resumes => went_of(give(code.table, stack, point, Value::Undefined)),
        Demand::Prints => print(code.table, stack, point, Vec::new(code.alloc)),
        Demand::Effect => Stepped::Effect,
        Demand::Full(what) => Stepped::Full(what),
        Demand::Memory => Stepped::Memory,
    }
}

/// A step whose row gave this answer for a node without parts, apart from the run loop; `told` is what it tells.
#[inline(never)]
fn tell_leaf<T: Rows, W: World>(
    code: &RunningCode<'_, '_>,
    context: &mut Context,
    world: &mut W,
    stack: &mut Stack,
    point: &mut Position,
    form: Redex,
    reduced: Reduced,
    told: &mut Stepped,
)
    requires table { IsTable code.now.table.now }
    requires scoped { InScopes code.now.table.now code.now.root stack.old }
    requires owns { has_extra form.op form.info ≡ false }
    requires inner { (ts : List (List ℕ)) → scope_in (task_form ts code.now.table.now (redex form [] None)) (scope_of code.now.root stack.old) ≡ form.inner }
    ensures told { (taken : List (List ℕ)) (m : Move Term) → Says code.now.names.now code.now.table.now (redex form [] None) m reduced (demand_of reduced) (state_of (W.world code.now.names.now world.old) context.old taken) → TellsWithin code.now.names.now code.now.table.now code.now.root stack.old m told.new stack.new point.new (state_of (W.world code.now.names.now world.new) context.new taken) }
    ensures stands { IfGoesOn told.new (StandsIn code.now.table.now code.now.root stack.new point.new) }
{
    *told = leave_leaf::<T, W>(code, context, world, stack, point, form, reduced);
}

/// The step of a node without parts. Answers whether it went; otherwise `told` is what it tells.
#[inline(always)]
fn step_leaf<T: Rows, W: World>(
    code: &RunningCode<'_, '_>,
    context: &mut Context,
    world: &mut W,
    stack: &mut Stack,
    point: &mut Position,
    n: u32,
    told: &mut Stepped,
) -> bool
    requires table { IsTable code.now.table.now }
    requires functions { HasFunctions code.now.table.now }
    requires scoped { InScopes code.now.table.now code.now.root stack.old }
    requires leaf { IsLeafAt (slice_get code.now.table.now.nodes.items n) }
    ensures told { (taken : List (List ℕ)) → Steps code.now.names.now code.now.table.now code.now.root stack.old (points.Leaf n) (state_of (W.world code.now.names.now world.old) context.old taken) (told_by result told.new) stack.new point.new (state_of (W.world code.now.names.now world.new) context.new taken) }
    ensures stands { IfGoesOn (told_by result told.new) (StandsIn code.now.table.now code.now.root stack.new point.new) }
{
    let Some(node) = code.table.node(n) else {
        *told = Stepped::Memory;
        return false;
    };
    let form = Redex {
        op: node.op,
        info: node.info,
        mid: node.mid,
        end: node.end,
        inner: stack.scope(code.root),
    };
    let reduced = T::reduce(code, context, world, form, &[], None);
    match reduced {
        Reduced::Gives(value) => has_gone(give(code.table, stack, point, value), told),
        Reduced::Uncovers(node) => has_gone(
            uncover_part(code.table, code.root, stack, point, node),
            told,
        ),
        _ => {
            tell_leaf::<T, W>(code, context, world, stack, point, form, reduced, told);
            false
        }
    }
}

/// The step of a throw that stands, apart from the run loop; `told` is what it tells.
#[inline(never)]
fn tell_throw<T: Rows, W: World>(
    code: &RunningCode<'_, '_>,
    context: &mut Context,
    world: &mut W,
    stack: &mut Stack,
    point: &mut Position,
    told: &mut Stepped,
)
    requires table { IsTable code.now.table.now }
    requires scoped { InScopes code.now.table.now code.now.root stack.old }
    ensures told { (taken : List (List ℕ)) → Steps code.now.names.now code.now.table.now code.now.root stack.old point.old (state_of (W.world code.now.names.now world.old) context.old taken) told.new stack.new point.new (state_of (W.world code.now.names.now world.new) context.new taken) }
    ensures stands { IfGoesOn told.new (StandsIn code.now.table.now code.now.root stack.new point.new) }
{
    match point.get() {
        Point::Stands(value, place) => {
            let thrown = Completion::Throws(value, place);
            *told = travel::<T, W>(code, context, world, stack, point, thrown);
        }
        _ => *told = Stepped::Memory,
    }
}

/// One step of the residual term that the tasks and the point are, in a world and a context. The code's table has the
/// term's nodes, and `T` the rows of its forms. Answers whether it went; otherwise `told` is what it tells.
#[inline(always)]
pub(crate) fn advance<T: Rows, W: World>(
    code: &RunningCode<'_, '_>,
    context: &mut Context,
    world: &mut W,
    stack: &mut Stack,
    point: &mut Position,
    told: &mut Stepped,
) -> bool
    requires table { IsTable code.now.table.now }
    requires functions { HasFunctions code.now.table.now }
    requires stands { StandsIn code.now.table.now code.now.root stack.old point.old }
    requires going { IsGoing point.old }
    ensures told { (taken : List (List ℕ)) → Tells (next (program_of code.now.names.now code.now.table.now) code.now.root (term_at code.now.names.now code.now.table.now stack.old point.old) (state_of (W.world code.now.names.now world.old) context.old taken)) (told_by result told.new) (term_at code.now.names.now code.now.table.now stack.new point.new) (state_of (W.world code.now.names.now world.new) context.new taken) }
    ensures stands { IfGoesOn (told_by result told.new) (StandsIn code.now.table.now code.now.root stack.new point.new) }
{
    match point.get() {
        Point::Row => step_row::<T, W>(code, context, world, stack, point, told),
        Point::Leaf(n) => { step_leaf::<T, W>(code, context, world, stack, point, n, told) }
        _ => {
            tell_throw::<T, W>(code, context, world, stack, point, told);
            false
        }
    }
}

/// One step of the residual term that the tasks and the point are, in a world and a context. The code's table has the
/// term's nodes, and `T` the rows of its forms.
pub fn step<T: Rows, W: World>(
    code: &RunningCode<'_, '_>,
    context: &mut Context,
    world: &mut W,
    stack: &mut Stack,
    point: &mut Point,
) -> Stepped
    requires table { IsTable code.now.table.now }
    requires functions { HasFunctions code.now.table.now }
    requires stands { StandsIn code.now.table.now code.now.root stack.old point.old }
    requires going { IsGoing point.old }
    ensures told { (taken : List (List ℕ)) → Tells (next (program_of code.now.names.now code.now.table.now) code.now.root (term_at code.now.names.now code.now.table.now stack.old point.old) (state_of (W.world code.now.names.now world.old) context.old taken)) result (term_at code.now.names.now code.now.table.now stack.new point.new) (state_of (W.world code.now.names.now world.new) context.new taken) }
    ensures stands { IfGoesOn result (StandsIn code.now.table.now code.now.root stack.new point.new) }
{
    let mut position = Position::of(*point);
    let mut told = Stepped::Went;
    let went = advance::<T, W>(code, context, world, stack, &mut position, &mut told);
    *point = position.get();
    if went {
        return Stepped::Went;
    }
    told
}

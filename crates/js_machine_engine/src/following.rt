//! What becomes of the innermost task after its row, and what is reduced next.

pub mod calls;
pub mod iterations;
pub mod lists;
pub mod loops;
pub mod parts;

ghost use Rattle.std.specs.Prelude.{◌<◌, List, ℕ, OnOk};
ghost use Rattle.js_machine_nodes.specs.Trees.{IsTable};
ghost use Rattle.js_machine_engine.specs.Tasks.{InScopes};
ghost use Rattle.js_machine_engine.specs.Points.{IsAt};
ghost use Rattle.js_machine_engine.specs.Following.{Follows};

use crate::following::calls::{follow_call, follow_operand};
use crate::following::iterations::{follow_first_turn, follow_list, follow_turn};
use crate::following::lists::{follow_comma, follow_method};
use crate::following::loops::{follow_loop_body, follow_names, follow_test, follow_update};
use crate::following::parts::{
    follow_body, follow_part, follow_scope, follow_uncovered, follow_value,
};
use crate::position::Position;
use crate::reduced::Reduced;
use crate::stack::Stack;
use js_heap::value::Addr;
use js_machine_nodes::table::NodeTable;
use std::alloc::AllocError;

/// What seldom follows a row: a loop's stages, lists, comma lists, and methods with computed keys.
fn follow_seldom(
    table: &NodeTable,
    root: Addr,
    stack: &mut Stack,
    point: &mut Position,
    reduced: Reduced,
) -> Result<(), AllocError>
    requires { IsTable table.now }
    ensures term { OnOk result ((ts : List (List ℕ)) → Follows ts table.now stack.old reduced stack.new point.new) }
    ensures at { OnOk result (IsAt table.now stack.new point.new) }
    ensures scoped { OnOk result (InScopes table.now root stack.old → InScopes table.now root stack.new) }
{
    match reduced {
        Reduced::Tests(scope) => follow_test(table, root, stack, point, scope),
        Reduced::Updates(scope) => follow_update(table, root, stack, point, scope),
        Reduced::Initializes { constant, scope } => {
            follow_names(table, root, stack, point, constant, scope)
        }
        Reduced::Lists(scope) => follow_list(table, root, stack, point, scope),
        Reduced::Iterates(list) => follow_first_turn(table, root, stack, point, list),
        Reduced::Iterated(scope) => follow_turn(table, root, stack, point, scope),
        Reduced::Commas => follow_comma(table, root, stack, point),
        Reduced::Adds(method) => follow_method(table, root, stack, point, method),
        _ => Err(AllocError),
    }
}

/// What becomes of the innermost task after its row's answer, and what is reduced next; around all tasks is the scope `root`.
///
/// Of an answer that ends the step otherwise (a raise, a completion, what was printed, the end of an evaluation) it is no call.
///
/// # Errors
///
/// There is no memory for it.
#[inline(always)]
pub fn follow(
    table: &NodeTable,
    root: Addr,
    stack: &mut Stack,
    point: &mut Position,
    reduced: Reduced,
) -> Result<(), AllocError>
    requires { IsTable table.now }
    ensures term { OnOk result ((ts : List (List ℕ)) → Follows ts table.now stack.old reduced stack.new point.new) }
    ensures at { OnOk result (IsAt table.now stack.new point.new) }
    ensures scoped { OnOk result (InScopes table.now root stack.old → InScopes table.now root stack.new) }
{
    match reduced {
        Reduced::Gives(value) => follow_value(table, root, stack, point, value),
        Reduced::Goes(node) => follow_part(table, root, stack, point, node),
        Reduced::Uncovers(node) => follow_uncovered(table, root, stack, point, node),
        Reduced::Scopes(scope, node) => follow_scope(table, root, stack, point, scope, node),
        Reduced::Enters {
            function,
            scope,
            body,
        } => follow_body(table, root, stack, point, function, scope, body),
        Reduced::Calls(callee) => follow_call(table, root, stack, point, callee),
        Reduced::Assigns(old) => follow_operand(table, root, stack, point, old),
        Reduced::Turns => follow_loop_body(table, root, stack, point),
        _ => follow_seldom(table, root, stack, point, reduced),
    }
}

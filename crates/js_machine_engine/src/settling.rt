//! From what a row leaves to what is reduced next.

ghost use Rattle.std.specs.Prelude.{◌≡◌, ℕ, true, false, List, None, IfOk, OnOk, slice_get};
ghost use Rattle.js_semantics.specs.Terms.{done, settle};
ghost use Rattle.js_machine_nodes.specs.Trees.{tree, IsTable};
ghost use Rattle.js_machine_engine.specs.Gaps.{plugged, resettled};
ghost use Rattle.js_machine_engine.specs.Tasks.{gaps_of, scope_of, InScopes};
ghost use Rattle.js_machine_engine.specs.Points.{term_at, IsAt, IsAtRow, IsLeafAt};
ghost use Rattle.js_machine_engine.specs.Parts.{IsOpen};
ghost use Rattle.js_machine_engine.specs.Settling.{closing_of, is_waiting, settled_row, next_term, proceeding, CanCome, ComesIn, IsTask, Enters, GivesWay, Takes};

use crate::closing::{Closing, Next, closing_of};
use crate::finish::finish;
use crate::parts::{next_part, value_at};
use crate::position::Position;
use crate::stack::Stack;
use crate::task::{NewTask, Point};
use js_heap::value::{Addr, Value};
use js_machine_nodes::op::Op;
use js_machine_nodes::table::NodeTable;
use std::alloc::AllocError;

/// Whether a task waits for its row when all its parts have their values.
#[inline(always)]
fn is_waiting(op: Op) -> bool
    ensures { result ≡ is_waiting (closing_of op) }
{
    match closing_of(op) {
        Closing::Waits => true,
        _ => false,
    }
}

/// The scope in which the parts of the innermost task are.
#[inline(always)]
fn inner_scope(stack: &Stack) -> Addr
    requires { IsTask stack.now }
    ensures { (root : Addr) → scope_of root stack.now ≡ result }
{
    stack.scope(Addr::Base(0))
}

/// One level inward from a node that is no value: it becomes the innermost task, unless it has no parts to reduce. Answers
/// whether the way goes on from a part of it, which `n` then is; otherwise the point is what is reduced first.
#[inline(always)]
fn enter(
    table: &NodeTable,
    stack: &mut Stack,
    inner: Addr,
    point: &mut Position,
    n: &mut u32,
) -> Result<bool, AllocError>
    requires table { IsTable table.now }
    requires form { IsOpen (slice_get table.now.nodes.items n.old) }
    ensures { IfOk result (Enters table.now stack.old stack.new inner n.old n.new point.new) }
{
    let Some(node) = table.node(*n) else {
        point.set_leaf(*n);
        return Ok(false);
    };
    if node.first == node.mid {
        point.set_leaf(*n);
        return Ok(false);
    }
    stack.push(NewTask {
        op: node.op,
        info: node.info,
        at: node.first,
        mid: node.mid,
        end: node.end,
        inner,
    })?;
    if next_part(table, stack, n)? {
        return Ok(true);
    }
    point.set_row();
    Ok(false)
}

/// Whether a node that is no value has no parts to reduce.
#[inline(always)]
fn is_leaf(table: &NodeTable, n: u32) -> bool
    requires { IsOpen (slice_get table.now.nodes.items n) }
    ensures { result ≡ true → IsLeafAt (slice_get table.now.nodes.items n) }
{
    match table.node(n) {
        Some(node) => node.first == node.mid,
        None => false,
    }
}

/// Inward from a node that has parts, to what is reduced first; `inner` is the scope in the innermost gap.
///
/// # Errors
///
/// There is no memory for the tasks on the way.
#[inline(never)]
fn descend_into(
    table: &NodeTable,
    stack: &mut Stack,
    inner: Addr,
    point: &mut Position,
    node: u32,
) -> Result<(), AllocError>
    requires table { IsTable table.now }
    requires form { IsOpen (slice_get table.now.nodes.items node) }
    ensures term { OnOk result ((ts : List (List ℕ)) → plugged (gaps_of ts table.now stack.old) (tree ts table.now node) ≡ term_at ts table.now stack.new point.new) }
    ensures at { OnOk result (IsAt table.now stack.new point.new) }
    ensures scoped { OnOk result ((root : Addr) → scope_of root stack.old ≡ inner → InScopes table.now root stack.old → InScopes table.now root stack.new) }
{
    let mut n = node;
    loop {
        if !enter(table, stack, inner, point, &mut n)? {
            return Ok(());
        }
    }
}

/// Inward from a node that is no value, to what is reduced first; `inner` is the scope in the innermost gap.
///
/// # Errors
///
/// There is no memory for the tasks on the way.
#[inline(always)]
fn descend(
    table: &NodeTable,
    stack: &mut Stack,
    inner: Addr,
    point: &mut Position,
    node: u32,
) -> Result<(), AllocError>
    requires table { IsTable table.now }
    requires form { IsOpen (slice_get table.now.nodes.items node) }
    ensures term { OnOk result ((ts : List (List ℕ)) → plugged (gaps_of ts table.now stack.old) (tree ts table.now node) ≡ term_at ts table.now stack.new point.new) }
    ensures at { OnOk result (IsAt table.now stack.new point.new) }
    ensures scoped { OnOk result ((root : Addr) → scope_of root stack.old ≡ inner → InScopes table.now root stack.old → InScopes table.now root stack.new) }
{
    if is_leaf(table, node) {
        point.set_leaf(node);
        return Ok(());
    }
    descend_into(table, stack, inner, point, node)
}

/// What becomes of the innermost task, whose parts all have their values. Answers whether it gives way to a value, which
/// `given` then is; otherwise the point is what is reduced next.
#[inline(always)]
fn close(
    table: &NodeTable,
    stack: &mut Stack,
    point: &mut Position,
    given: &mut Value,
) -> Result<bool, AllocError>
    requires table { IsTable table.now }
    requires row { IsAtRow stack.old }
    ensures { IfOk result (GivesWay table.now stack.old stack.new (λ ts. settled_row ts table.now stack.old) given.new point.new) }
{
    let inner = inner_scope(stack);
    match finish(table, stack)? {
        Next::Row => {
            point.set_row();
            Ok(false)
        }
        Next::Value(value) => {
            *given = value;
            Ok(true)
        }
        Next::Part(part) => {
            descend(table, stack, inner, point, part)?;
            Ok(false)
        }
    }
}

/// A value comes into the gap of the innermost task. Answers whether all its parts have values and it doesn't wait for
/// its row; otherwise the point is what is reduced next.
#[inline(always)]
fn take(
    table: &NodeTable,
    stack: &mut Stack,
    point: &mut Position,
    value: Value,
) -> Result<bool, AllocError>
    requires table { IsTable table.now }
    requires task { IsTask stack.old }
    ensures { IfOk result (Takes table.now stack.old stack.new value point.new) }
{
    stack.push_value(value)?;
    let mut part = 0;
    if next_part(table, stack, &mut part)? {
        let inner = inner_scope(stack);
        descend(table, stack, inner, point, part)?;
        return Ok(false);
    }
    if is_waiting(stack.op()) {
        point.set_row();
        return Ok(false);
    }
    Ok(true)
}

/// The innermost task has values for all its parts: from there to what is reduced next. Forms that are finished so give
/// way.
///
/// # Errors
///
/// There is no memory for it.
#[inline(never)]
pub fn settle_row(
    table: &NodeTable,
    stack: &mut Stack,
    point: &mut Position,
) -> Result<(), AllocError>
    requires table { IsTable table.now }
    requires row { IsAtRow stack.old }
    ensures term { OnOk result ((ts : List (List ℕ)) → settled_row ts table.now stack.old ≡ term_at ts table.now stack.new point.new) }
    ensures at { OnOk result (IsAt table.now stack.new point.new) }
    ensures scoped { OnOk result ((root : Addr) → InScopes table.now root stack.old → InScopes table.now root stack.new) }
{
    let mut given = Value::Undefined;
    loop {
        if !close(table, stack, point, &mut given)? {
            return Ok(());
        }
        if stack.is_empty() {
            point.set_done(given);
            return Ok(());
        }
        if !take(table, stack, point, given)? {
            return Ok(());
        }
    }
}

/// A value comes into the innermost gap: from there to what is reduced next. Forms that are finished so give way.
///
/// # Errors
///
/// There is no memory for it.
pub fn give(
    table: &NodeTable,
    stack: &mut Stack,
    point: &mut Position,
    value: Value,
) -> Result<(), AllocError>
    requires { IsTable table.now }
    ensures term { OnOk result ((ts : List (List ℕ)) → resettled (gaps_of ts table.now stack.old) (done value) ≡ term_at ts table.now stack.new point.new) }
    ensures at { OnOk result (IsAt table.now stack.new point.new) }
    ensures scoped { OnOk result ((root : Addr) → InScopes table.now root stack.old → InScopes table.now root stack.new) }
{
    if stack.is_empty() {
        point.set_done(value);
        return Ok(());
    }
    if take(table, stack, point, value)? {
        return settle_row(table, stack, point);
    }
    Ok(())
}

/// From what comes next to what is reduced next; where a part comes, `inner` is the scope in the innermost gap.
///
/// # Errors
///
/// There is no memory for it.
#[inline(always)]
pub(crate) fn take_up(
    table: &NodeTable,
    stack: &mut Stack,
    inner: Addr,
    point: &mut Position,
    next: Next,
) -> Result<(), AllocError>
    requires table { IsTable table.now }
    requires comes { CanCome table.now stack.old next }
    ensures term { OnOk result ((ts : List (List ℕ)) → next_term ts table.now stack.old next ≡ term_at ts table.now stack.new point.new) }
    ensures at { OnOk result (IsAt table.now stack.new point.new) }
    ensures scoped { OnOk result ((root : Addr) → ComesIn root stack.old inner next → InScopes table.now root stack.old → InScopes table.now root stack.new) }
{
    match next {
        Next::Row => {
            point.set_row();
            Ok(())
        }
        Next::Value(value) => give(table, stack, point, value),
        Next::Part(part) => descend(table, stack, inner, point, part),
    }
}

/// The innermost task goes on with the parts that come, or waits for its row; nothing gives way.
///
/// # Errors
///
/// There is no memory for it.
#[inline(always)]
pub fn proceed(table: &NodeTable, stack: &mut Stack, point: &mut Position) -> Result<(), AllocError>
    requires { IsTable table.now }
    ensures term { OnOk result ((ts : List (List ℕ)) → proceeding ts table.now stack.old ≡ term_at ts table.now stack.new point.new) }
    ensures at { OnOk result (IsAt table.now stack.new point.new) }
    ensures scoped { OnOk result ((root : Addr) → InScopes table.now root stack.old → InScopes table.now root stack.new) }
{
    let Some(task) = stack.last() else {
        point.set_done(Value::Undefined);
        return Ok(());
    };
    let mut part = 0;
    if next_part(table, stack, &mut part)? {
        return descend(table, stack, task.inner, point, part);
    }
    point.set_row();
    Ok(())
}

/// A part as it stands in the table comes into the innermost gap; around all tasks is the scope `root`.
///
/// # Errors
///
/// There is no memory for it.
#[inline(always)]
pub fn go(
    table: &NodeTable,
    root: Addr,
    stack: &mut Stack,
    point: &mut Position,
    node: u32,
) -> Result<(), AllocError>
    requires { IsTable table.now }
    ensures term { OnOk result ((ts : List (List ℕ)) → resettled (gaps_of ts table.now stack.old) (tree ts table.now node) ≡ term_at ts table.now stack.new point.new) }
    ensures at { OnOk result (IsAt table.now stack.new point.new) }
    ensures scoped { OnOk result (InScopes table.now root stack.old → InScopes table.now root stack.new) }
{
    match value_at(table, node) {
        Some(value) => give(table, stack, point, value),
        None => {
            let inner = stack.scope(root);
            descend(table, stack, inner, point, node)
        }
    }
}

/// A node that is no value comes uncovered into the innermost gap, in which the scope is `inner`.
#[inline(always)]
fn uncover_form(
    table: &NodeTable,
    stack: &mut Stack,
    inner: Addr,
    point: &mut Position,
    n: u32,
) -> Result<(), AllocError>
    requires table { IsTable table.now }
    requires form { IsOpen (slice_get table.now.nodes.items n) }
    ensures term { OnOk result ((ts : List (List ℕ)) → resettled (gaps_of ts table.now stack.old) (settle (tree ts table.now n)) ≡ term_at ts table.now stack.new point.new) }
    ensures at { OnOk result (IsAt table.now stack.new point.new) }
    ensures scoped { OnOk result ((root : Addr) → scope_of root stack.old ≡ inner → InScopes table.now root stack.old → InScopes table.now root stack.new) }
{
    let Some(node) = table.node(n) else {
        return Ok(());
    };
    if node.first == node.mid {
        if is_waiting(node.op) {
            point.set_leaf(n);
            return Ok(());
        }
    }
    stack.push(NewTask {
        op: node.op,
        info: node.info,
        at: node.first,
        mid: node.mid,
        end: node.end,
        inner,
    })?;
    let mut part = 0;
    if next_part(table, stack, &mut part)? {
        return descend(table, stack, inner, point, part);
    }
    settle_row(table, stack, point)
}

/// A part comes uncovered into the innermost gap: where nothing is left to do in it, it gives way. Around all tasks is
/// the scope `root`.
///
/// # Errors
///
/// There is no memory for it.
pub(crate) fn uncover_part(
    table: &NodeTable,
    root: Addr,
    stack: &mut Stack,
    point: &mut Position,
    node: u32,
) -> Result<(), AllocError>
    requires { IsTable table.now }
    ensures term { OnOk result ((ts : List (List ℕ)) → resettled (gaps_of ts table.now stack.old) (settle (tree ts table.now node)) ≡ term_at ts table.now stack.new point.new) }
    ensures at { OnOk result (IsAt table.now stack.new point.new) }
    ensures scoped { OnOk result (InScopes table.now root stack.old → InScopes table.now root stack.new) }
{
    match value_at(table, node) {
        Some(value) => give(table, stack, point, value),
        None => {
            let inner = stack.scope(root);
            uncover_form(table, stack, inner, point, node)
        }
    }
}

/// A part comes uncovered into the innermost gap, for a caller that keeps the point as a value. Around all tasks is the
/// scope `root`.
///
/// # Errors
///
/// There is no memory for it.
pub fn uncover(
    table: &NodeTable,
    root: Addr,
    stack: &mut Stack,
    point: &mut Point,
    node: u32,
) -> Result<(), AllocError>
    requires { IsTable table.now }
    ensures term { OnOk result ((ts : List (List ℕ)) → resettled (gaps_of ts table.now stack.old) (settle (tree ts table.now node)) ≡ term_at ts table.now stack.new point.new) }
    ensures at { OnOk result (IsAt table.now stack.new point.new) }
    ensures scoped { OnOk result (InScopes table.now root stack.old → InScopes table.now root stack.new) }
{
    let mut position = Position::of(*point);
    uncover_part(table, root, stack, &mut position, node)?;
    *point = position.get();
    Ok(())
}

//! The stack of a machine: the forms that it is in, with the values of their parts.

ghost use Rattle.std.specs.Prelude.{◌≡◌, true, false, List, [], ◌∷◌, length, drop, slice_get, Some, None, reverse, OnOk, OnErr, IfOk, IfSome, IfNone};
ghost use Rattle.js_machine_engine.specs.Tasks.{scope_of};
ghost use Rattle.js_machine_engine.specs.Parts.{at_of, mid_of};
ghost use Rattle.js_machine_engine.specs.Stacks.{is_empty, op_of, has_extra, wide, begun, values_of, extra_of, outer_of, with_value, without_values, at_part, changed, within, turned, owning, OwnsAs, OwnsOnly, other_extras, next_turn, turned_extras};

use crate::task::{Extra, NewTask, Task};
use js_heap::value::{Addr, Value};
use js_machine_nodes::op::Op;
use std::alloc::{AllocError, Global};
use std::marker::Model;

/// Tasks, seen from the innermost one, each with its values and what it owns.
#[derive(Drop)]
pub struct Stack {
    /// From the outermost one.
    tasks: Vec<Task>,
    /// The values of all tasks: those of a task from its `base` on, up to the `base` of the next one.
    values: Vec<Value>,
    /// What the tasks own that own something, in their order.
    extras: Vec<Extra>,
}

impl Model for Stack {
    ghost use Rattle.std.specs.Prelude.{List};
    ghost use Rattle.js_machine_engine.specs.Tasks.{Wide};
    ghost use Rattle.js_machine_engine.specs.Stacks.{widened_back, AreKept};

    ghost Value = { List Wide };

    ghost view = { λ s. widened_back s.tasks.items s.values.items s.extras.items };

    ghost invariant = { λ s. AreKept s.tasks.items s.values.items s.extras.items };
}

/// Whether a task owns what a `finally` keeps, or a list with its index.
#[inline(always)]
pub(crate) fn has_extra(op: Op, info: u32) -> bool
    ensures { result ≡ has_extra op info }
{
    match op {
        Op::TurnOf => true,
        Op::BodyOf => true,
        Op::ObjectRest => true,
        Op::Ending => info != 0,
        _ => false,
    }
}

/// What the innermost task owns is taken away, where it owns something.
#[inline(always)]
fn drop_extra(extras: &mut Vec<Extra>, owns: bool)
    ensures { reverse extras.new.items ≡ other_extras owns (reverse extras.old.items) }
{
    if owns {
        extras.truncate(extras.len().saturating_sub(1));
    }
}

/// The last of what tasks own is this.
fn replace_extra(extras: &mut Vec<Extra>, extra: Extra) -> Result<(), AllocError>
    ensures ok { OnOk result (reverse extras.new.items ≡ extra ∷ other_extras true (reverse extras.old.items)) }
    ensures kept { OnErr result (extras.new.items ≡ extras.old.items) }
{
    let n = extras.len();
    if n > 0 {
        extras[n - 1] = extra;
        return Ok(());
    }
    extras.push(extra)?;
    Ok(())
}

/// What the innermost task owns is this, in place of what it owned.
fn own_extra(extras: &mut Vec<Extra>, owns: bool, extra: Extra) -> Result<(), AllocError>
    ensures ok { OnOk result (reverse extras.new.items ≡ extra ∷ other_extras owns (reverse extras.old.items)) }
    ensures kept { OnErr result (extras.new.items ≡ extras.old.items) }
{
    if owns {
        return replace_extra(extras, extra);
    }
    extras.push(extra)?;
    Ok(())
}

/// What owns the index of a turn, with one more.
fn next_turn(extra: Extra) -> Result<Extra, AllocError>
    ensures { IfOk result (λ e. e ≡ next_turn extra) }
{
    match extra {
        Extra::Kept(completion) => Ok(Extra::Kept(completion)),
        Extra::Rest(from) => Ok(Extra::Rest(from)),
        Extra::Turn(list, index) => match index.checked_add(1) {
            Some(next) => Ok(Extra::Turn(list, next)),
            None => Err(AllocError),
        },
    }
}

/// The index of the innermost task's next turn is one more, where it owns one.
fn count_turn_of(extras: &mut Vec<Extra>, owns: bool) -> Result<(), AllocError>
    ensures ok { OnOk result (reverse extras.new.items ≡ turned_extras owns (reverse extras.old.items)) }
    ensures len { length extras.new.items ≡ length extras.old.items }
{
    let n = extras.len();
    if owns && n > 0 {
        extras[n - 1] = next_turn(extras[n - 1])?;
    }
    Ok(())
}

impl Stack {
    /// No tasks. It takes no memory.
    pub fn new(alloc: Global) -> Stack
        ensures { result ≡ [] }
    {
        Stack {
            tasks: Vec::new(alloc),
            values: Vec::new(alloc),
            extras: Vec::new(alloc),
        }
    }

    /// The innermost task, if there is one.
    #[inline(always)]
    pub fn last(&self) -> Option<Task>
        ensures some { IfSome result (λ t. self.now ≡ wide t (values_of self.now) (extra_of self.now) ∷ outer_of self.now) }
        ensures none { IfNone result (self.now ≡ []) }
        ensures owned { OwnsOnly self.now }
    {
        self.tasks.last().copied()
    }

    /// Whether there is no task.
    #[inline(always)]
    pub fn is_empty(&self) -> bool
        ensures { result ≡ is_empty self.now }
    {
        self.tasks.last().is_none()
    }

    /// What the innermost task does; a literal where there is none.
    #[inline(always)]
    pub fn op(&self) -> Op
        ensures { result ≡ op_of self.now }
    {
        match self.tasks.last() {
            Some(task) => task.op,
            None => Op::Literal,
        }
    }

    /// The place of the innermost task's next part in the table's list of parts; 0 where there is no task.
    #[inline(always)]
    pub fn at(&self) -> u32
        ensures { result ≡ at_of self.now }
    {
        match self.tasks.last() {
            Some(task) => task.at,
            None => 0,
        }
    }

    /// Where the innermost task's parts end that are reduced from left to right; 0 where there is no task.
    #[inline(always)]
    pub fn mid(&self) -> u32
        ensures { result ≡ mid_of self.now }
    {
        match self.tasks.last() {
            Some(task) => task.mid,
            None => 0,
        }
    }

    /// How many tasks there are.
    pub fn len(&self) -> usize
        ensures { result ≡ length self.now }
    {
        self.tasks.len()
    }

    /// The task of a number, counted from 0 for the innermost one, if there is one.
    pub fn task_at(&self, i: usize) -> Option<Task>
        ensures some { IfSome result (λ t. slice_get self.now i ≡ Some (wide t (values_of (drop i self.now)) (extra_of (drop i self.now)))) }
        ensures none { IfNone result (slice_get self.now i ≡ None) }
    {
        let n = self.tasks.len();
        if i < n {
            return Some(self.tasks[n - 1 - i]);
        }
        None
    }

    /// The values of the innermost task.
    #[inline(always)]
    pub fn values(&self) -> &[Value]
        ensures { result.now ≡ values_of self.now }
    {
        let base = match self.tasks.last() {
            Some(task) => task.base as usize,
            None => self.values.len(),
        };
        &self.values[base..]
    }

    /// What the innermost task owns.
    #[inline(always)]
    pub fn extra(&self) -> Option<Extra>
        ensures { result ≡ extra_of self.now }
    {
        match self.tasks.last() {
            Some(task) => {
                if has_extra(task.op, task.info) {
                    self.extras.last().copied()
                } else {
                    None
                }
            }
            None => None,
        }
    }

    /// The scope in which the parts of the innermost task are; around all tasks is `root`.
    #[inline(always)]
    pub fn scope(&self, root: Addr) -> Addr
        ensures { result ≡ scope_of root self.now }
    {
        match self.tasks.last() {
            Some(task) => task.inner,
            None => root,
        }
    }

    /// One more task, before its first value, which owns nothing.
    ///
    /// # Errors
    ///
    /// There is no memory for it.
    #[inline(always)]
    pub fn push(&mut self, task: NewTask) -> Result<(), AllocError>
        requires { has_extra task.op task.info ≡ false }
        ensures { OnOk result (self.new ≡ begun task.op task.info task.at task.mid task.end task.inner None ∷ self.old) }
    {
        let Ok(base) = u32::try_from(self.values.len()) else {
            return Err(AllocError);
        };
        self.tasks.push(Task {
            op: task.op,
            info: task.info,
            at: task.at,
            mid: task.mid,
            end: task.end,
            base,
            inner: task.inner,
        })?;
        Ok(())
    }

    /// One more task, before its first value, with what it owns.
    ///
    /// # Errors
    ///
    /// There is no memory for it.
    pub fn push_with(&mut self, task: NewTask, extra: Extra) -> Result<(), AllocError>
        requires { has_extra task.op task.info ≡ true }
        ensures { OnOk result (self.new ≡ begun task.op task.info task.at task.mid task.end task.inner (Some extra) ∷ self.old) }
    {
        let Ok(base) = u32::try_from(self.values.len()) else {
            return Err(AllocError);
        };
        self.extras.push(extra)?;
        self.tasks.push(Task {
            op: task.op,
            info: task.info,
            at: task.at,
            mid: task.mid,
            end: task.end,
            base,
            inner: task.inner,
        })?;
        Ok(())
    }

    /// One more value of the innermost task.
    ///
    /// # Errors
    ///
    /// There is no memory for it.
    #[inline(always)]
    pub fn push_value(&mut self, value: Value) -> Result<(), AllocError>
        ensures { OnOk result (self.new ≡ with_value value self.old) }
    {
        self.values.push(value)?;
        Ok(())
    }

    /// The innermost task has no values.
    #[inline(always)]
    pub fn clear_values(&mut self)
        ensures { self.new ≡ without_values self.old }
    {
        if let Some(task) = self.tasks.last() {
            self.values.truncate(task.base as usize);
        }
    }

    /// The next part of the innermost task stands at this place.
    #[inline(always)]
    pub fn set_at(&mut self, at: u32)
        ensures { self.new ≡ at_part at self.old }
    {
        let n = self.tasks.len();
        if n > 0 {
            self.tasks[n - 1].at = at;
        }
    }

    /// The innermost task does something else, with other parts.
    #[inline(always)]
    pub fn change(&mut self, op: Op, info: u32, at: u32, mid: u32)
        requires { OwnsAs op info self.old }
        ensures { self.new ≡ changed op info at mid self.old }
    {
        let n = self.tasks.len();
        if n > 0 {
            let task = &mut self.tasks[n - 1];
            task.op = op;
            task.info = info;
            task.at = at;
            task.mid = mid;
        }
    }

    /// The innermost task does something else that owns this, with other parts.
    ///
    /// # Errors
    ///
    /// There is no memory for it.
    pub fn own(
        &mut self,
        op: Op,
        info: u32,
        at: u32,
        mid: u32,
        extra: Extra,
    ) -> Result<(), AllocError>
        requires { has_extra op info ≡ true }
        ensures { OnOk result (self.new ≡ owning op info at mid extra self.old) }
    {
        let n = self.tasks.len();
        if n == 0 {
            return Ok(());
        }
        let task = self.tasks[n - 1];
        own_extra(&mut self.extras, has_extra(task.op, task.info), extra)?;
        self.tasks[n - 1] = Task {
            op,
            info,
            at,
            mid,
            end: task.end,
            base: task.base,
            inner: task.inner,
        };
        Ok(())
    }

    /// The parts of the innermost task are in this scope.
    pub fn set_inner(&mut self, inner: Addr)
        ensures { self.new ≡ within inner self.old }
    {
        let n = self.tasks.len();
        if n > 0 {
            self.tasks[n - 1].inner = inner;
        }
    }

    /// The innermost task is taken away, with its values and what it owns.
    #[inline(always)]
    pub fn pop(&mut self) -> Option<Task>
        ensures outer { self.new ≡ outer_of self.old }
        ensures some { IfSome result (λ t. self.old ≡ wide t (values_of self.old) (extra_of self.old) ∷ self.new) }
        ensures none { IfNone result (self.old ≡ []) }
    {
        let task = self.tasks.pop()?;
        self.values.truncate(task.base as usize);
        drop_extra(&mut self.extras, has_extra(task.op, task.info));
        Some(task)
    }

    /// The index of the innermost task's next turn is one more.
    ///
    /// # Errors
    ///
    /// The index has no room for it.
    pub fn count_turn(&mut self) -> Result<(), AllocError>
        ensures { OnOk result (self.new ≡ turned self.old) }
    {
        if let Some(task) = self.tasks.last() {
            let owns = has_extra(task.op, task.info);
            count_turn_of(&mut self.extras, owns)?;
        }
        Ok(())
    }
}

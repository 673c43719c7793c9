//! What a node does for each form.

ghost use Rattle.std.specs.Prelude.{◌≡◌, OnOk, IfOk};
ghost use Rattle.js_semantics.specs.declared.form.Form.TheVariants as form_variants;
ghost use Rattle.js_heap_memory.specs.Names.{GoesOn};
ghost use Rattle.js_machine_nodes.specs.Ops.{operator_of, is_prefix};
ghost use Rattle.js_machine_compiler.specs.Grown.{Grows, HasForm, Enters};
ghost use Rattle.js_machine_compiler.specs.Operations.{stage_op, loop_entry, bare_entry, placed_entry, alone_entry};

use crate::entries::{
    bare, block_entry, call_entry, for_entry, for_of_entry, function_entry, index_call_entry,
    member_call_entry, method_entry, name_call_entry, named, object_entry, script_entry,
};
use crate::nodes::Instruction;
use cdp_text::units::Units;
use js_heap::value::Addr;
use js_heap_memory::names::NameTable;
use js_machine_nodes::op::{Op, UpdateKind};
use js_machine_nodes::table::NodeTable;
use js_semantics::form::{Form, Mark, Reference, Stage};
use js_tree_operators::operator::{BinaryOperator, UpdateOperator};
use std::alloc::{AllocError, Global};

/// The kind of an update.
fn update_kind(operator: UpdateOperator, prefix: bool) -> UpdateKind
    ensures operator { operator_of result ≡ operator }
    ensures prefix { is_prefix result ≡ prefix }
{
    match operator {
        UpdateOperator::Increment => {
            if prefix {
                UpdateKind::PrefixIncrement
            } else {
                UpdateKind::PostfixIncrement
            }
        }
        UpdateOperator::Decrement => {
            if prefix {
                UpdateKind::PrefixDecrement
            } else {
                UpdateKind::PostfixDecrement
            }
        }
    }
}

/// A name or a property that is read.
fn read_entry(names: &mut NameTable, reference: &Reference) -> Result<Instruction, AllocError>
    ensures goes_on { OnOk result (GoesOn names.old names.new) }
    ensures form { IfOk result (λ e. (t : _) → HasForm names.new t e.op e.info (form_variants.Read reference.now)) }
{
    match reference {
        Reference::Name(name) => named(names, Op::ReadName, name),
        Reference::Member(key) => named(names, Op::ReadMember, key),
        Reference::Index => Ok(bare(Op::ReadIndex)),
    }
}

/// `=`
fn assign_entry(names: &mut NameTable, reference: &Reference) -> Result<Instruction, AllocError>
    ensures goes_on { OnOk result (GoesOn names.old names.new) }
    ensures form { IfOk result (λ e. (t : _) → HasForm names.new t e.op e.info (form_variants.Assign reference.now)) }
{
    match reference {
        Reference::Name(name) => named(names, Op::AssignName, name),
        Reference::Member(key) => named(names, Op::AssignMember, key),
        Reference::Index => Ok(bare(Op::AssignIndex)),
    }
}

/// `+=` and its like.
fn compound_entry(
    names: &mut NameTable,
    operator: BinaryOperator,
    reference: &Reference,
) -> Result<Instruction, AllocError>
    ensures goes_on { OnOk result (GoesOn names.old names.new) }
    ensures form { IfOk result (λ e. (t : _) → HasForm names.new t e.op e.info (form_variants.Compound operator reference.now)) }
{
    match reference {
        Reference::Name(name) => named(names, Op::CompoundName(operator), name),
        Reference::Member(key) => named(names, Op::CompoundMember(operator), key),
        Reference::Index => Ok(bare(Op::CompoundIndex(operator))),
    }
}

/// `++` and `--`.
fn update_entry(
    names: &mut NameTable,
    kind: UpdateKind,
    reference: &Reference,
) -> Result<Instruction, AllocError>
    ensures goes_on { OnOk result (GoesOn names.old names.new) }
    ensures form { IfOk result (λ e. (t : _) → HasForm names.new t e.op e.info (form_variants.Update (operator_of kind) (is_prefix kind) reference.now)) }
{
    match reference {
        Reference::Name(name) => named(names, Op::UpdateName(kind), name),
        Reference::Member(key) => named(names, Op::UpdateMember(kind), key),
        Reference::Index => Ok(bare(Op::UpdateIndex(kind))),
    }
}

/// `delete`
fn delete_entry(names: &mut NameTable, reference: &Reference) -> Result<Instruction, AllocError>
    ensures goes_on { OnOk result (GoesOn names.old names.new) }
    ensures form { IfOk result (λ e. (t : _) → HasForm names.new t e.op e.info (form_variants.Delete reference.now)) }
{
    match reference {
        Reference::Name(name) => named(names, Op::DeleteName, name),
        Reference::Member(key) => named(names, Op::DeleteMember, key),
        Reference::Index => Ok(bare(Op::DeleteIndex)),
    }
}

/// A `catch` without a name or with one.
fn catch_entry(names: &mut NameTable, name: &Option<Units>) -> Result<Instruction, AllocError>
    ensures goes_on { OnOk result (GoesOn names.old names.new) }
    ensures form { IfOk result (λ e. (t : _) → HasForm names.new t e.op e.info (form_variants.Catching name.now)) }
{
    match name {
        Some(name) => named(names, Op::CatchingName, name),
        None => Ok(bare(Op::Catching)),
    }
}

/// A call of what a reference refers to.
fn call_of_entry(
    names: &mut NameTable,
    table: &mut NodeTable,
    reference: &Reference,
    place: Mark,
    statement: u32,
) -> Result<Instruction, AllocError>
    ensures grows { OnOk result (Grows names.old table.old names.new table.new) }
    ensures form { IfOk result (λ e. HasForm names.new table.new e.op e.info (form_variants.CallOf reference.now place statement)) }
{
    match reference {
        Reference::Name(name) => name_call_entry(names, table, name, place, statement),
        Reference::Member(key) => member_call_entry(names, table, key, place, statement),
        Reference::Index => index_call_entry(table, place, statement),
    }
}

/// A loop at a stage.
fn stage_op(stage: Stage) -> Op
    ensures { result ≡ stage_op stage }
{
    match stage {
        Stage::First => Op::LoopFirst,
        Stage::Doing => Op::LoopDoing,
        Stage::Testing => Op::LoopTesting,
        Stage::Body => Op::LoopBody,
        Stage::Updating => Op::LoopUpdating,
    }
}

/// A loop without a scope of its turn.
fn loop_entry(stage: Stage, scope: Option<Addr>) -> Option<Instruction>
    ensures { result ≡ loop_entry stage scope }
{
    match scope {
        None => Some(Instruction {
            op: stage_op(stage),
            info: 0,
        }),
        Some(_) => None,
    }
}

/// An entry that needs no number.
fn bare_entry(op: Op) -> Option<Instruction>
    ensures { result ≡ bare_entry op }
{
    Some(Instruction { op, info: 0 })
}

/// An entry whose number is that of a node of the source.
fn placed_entry(op: Op, node: u32) -> Option<Instruction>
    ensures { result ≡ placed_entry op node }
{
    Some(Instruction { op, info: node })
}

/// A form that needs neither names nor an entry.
fn alone_entry(form: &Form) -> Option<Instruction>
    ensures { result ≡ alone_entry form.now }
{
    match form {
        Form::Scripts => bare_entry(Op::Scripts),
        Form::Sequence => bare_entry(Op::Sequence),
        Form::Choose => bare_entry(Op::Choose),
        Form::Both => bare_entry(Op::Both),
        Form::Either => bare_entry(Op::Either),
        Form::Break => bare_entry(Op::Break),
        Form::Continue => bare_entry(Op::Continue),
        Form::Return => bare_entry(Op::Return),
        Form::Finishing => bare_entry(Op::Finishing),
        Form::This => bare_entry(Op::This),
        Form::Comma => bare_entry(Op::Comma),
        Form::Array => bare_entry(Op::Array),
        Form::Unary(operator) => bare_entry(Op::Unary(*operator)),
        Form::Binary(operator) => bare_entry(Op::Binary(*operator)),
        Form::Enter(node) => placed_entry(Op::Enter, *node),
        Form::EnterDebugger(node) => placed_entry(Op::EnterDebugger, *node),
        Form::Throw(node) => placed_entry(Op::Throw, *node),
        Form::Loop(stage, scope) => loop_entry(*stage, *scope),
        _ => None,
    }
}

/// What a node does for a form; none for what comes up in a run alone, and for a literal without its cell.
pub fn form_entry(
    alloc: Global,
    names: &mut NameTable,
    table: &mut NodeTable,
    form: &Form,
) -> Result<Option<Instruction>, AllocError>
    ensures grows { OnOk result (Grows names.old table.old names.new table.new) }
    ensures entry { IfOk result (λ o. Enters names.new table.new form.now o) }
{
    match form {
        Form::Script(number, declared) => Ok(Some(script_entry(
            alloc, names, table, *number, declared,
        )?)),
        Form::EnterFor(node, constant, declared) => Ok(Some(for_entry(
            alloc, names, table, *node, *constant, declared,
        )?)),
        Form::EnterForOf(node, binding) => Ok(Some(for_of_entry(names, table, *node, binding)?)),
        Form::Block(declared) => Ok(Some(block_entry(alloc, names, table, declared)?)),
        Form::Initialize(name) => Ok(Some(named(names, Op::Initialize, name)?)),
        Form::TypeofName(name) => Ok(Some(named(names, Op::TypeofName, name)?)),
        Form::Catching(name) => Ok(Some(catch_entry(names, name)?)),
        Form::Read(reference) => Ok(Some(read_entry(names, reference)?)),
        Form::Assign(reference) => Ok(Some(assign_entry(names, reference)?)),
        Form::Compound(operator, reference) => {
            Ok(Some(compound_entry(names, *operator, reference)?))
        }
        Form::Update(operator, prefix, reference) => {
            let kind = update_kind(*operator, *prefix);
            Ok(Some(update_entry(names, kind, reference)?))
        }
        Form::Delete(reference) => Ok(Some(delete_entry(names, reference)?)),
        Form::Function(function) => Ok(Some(function_entry(alloc, names, table, function)?)),
        Form::Method(function) => Ok(Some(method_entry(alloc, names, table, function)?)),
        Form::Object(members) => Ok(Some(object_entry(alloc, names, table, members)?)),
        Form::Call(place, statement) => Ok(Some(call_entry(table, *place, *statement)?)),
        Form::CallOf(reference, place, statement) => Ok(Some(call_of_entry(
            names, table, reference, *place, *statement,
        )?)),
        _ => Ok(alone_entry(form)),
    }
}

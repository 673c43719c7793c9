//! The entries of forms.

ghost use Rattle.std.specs.Prelude.{◌≡◌, ◌++◌, ◌∷◌, [], true, OnOk, IfOk, Some, slice_get};
ghost use Rattle.js_semantics.specs.declared.form.Form.TheVariants as forms;
ghost use Rattle.js_semantics.specs.declared.form.Reference.TheVariants as references;
ghost use Rattle.js_heap_memory.specs.Names.{GoesOn};
ghost use Rattle.js_machine_compiler.specs.Grown.{KeepsTable, Grows, HasForm, IsFunction};
ghost use Rattle.js_machine_compiler.specs.Operations.{is_bare, bare_form, is_named, named_form};

use crate::names::{members_of, number_of, parameters_of, slot_of, slots_of};
use crate::nodes::{Instruction, next_number};
use cdp_text::units::Units;
use js_heap::cell::{Binding, ScopeNames};
use js_heap_memory::names::{NameId, NameTable};
use js_machine_nodes::node::{CallEntry, ForEntry, ForOfEntry, FunctionEntry, ScriptEntry};
use js_machine_nodes::op::Op;
use js_machine_nodes::shared_list::SharedList;
use js_machine_nodes::table::NodeTable;
use js_semantics::form::{FunctionForm, Mark, Members};
use std::alloc::{AllocError, Global};

/// One more entry of a list, with its number.
pub fn put<T: Drop>(entries: &mut SharedList<T>, entry: T) -> Result<u32, AllocError>
    ensures more { OnOk result (entries.new.items ≡ entries.old.items ++ entry ∷ []) }
    ensures place { IfOk result (λ n. slice_get entries.new.items n ≡ Some entry) }
{
    let number = next_number(entries.len())?;
    entries.push(entry)?;
    Ok(number)
}

/// What needs no number.
pub fn bare(op: Op) -> Instruction
    requires { is_bare op ≡ true }
    ensures { (ts : _) (t : _) → HasForm ts t result.op result.info (bare_form op) }
{
    Instruction { op, info: 0 }
}

/// What has the number of a name.
pub fn named(names: &mut NameTable, op: Op, name: &Units) -> Result<Instruction, AllocError>
    requires { is_named op ≡ true }
    ensures goes_on { OnOk result (GoesOn names.old names.new) }
    ensures form { IfOk result (λ e. (t : _) → HasForm names.new t e.op e.info (named_form op name.now)) }
{
    let name = number_of(names, name)?;
    Ok(Instruction {
        op,
        info: name.number,
    })
}

/// A script, with its number and its names.
#[tactic(auto, using(crate::proofs::KeepLemmas::keeps_entries))]
pub fn script_entry(
    alloc: Global,
    names: &mut NameTable,
    table: &mut NodeTable,
    number: u32,
    declared: &ScopeNames,
) -> Result<Instruction, AllocError>
    ensures grows { OnOk result (Grows names.old table.old names.new table.new) }
    ensures form { IfOk result (λ e. HasForm names.new table.new e.op e.info (forms.Script number declared.now)) }
{
    let slots = slots_of(alloc, names, declared)?;
    let entry = ScriptEntry {
        number,
        names: slots,
    };
    let info = put(&mut table.scripts, entry)?;
    Ok(Instruction {
        op: Op::Script,
        info,
    })
}

/// A `for` with names.
#[tactic(auto, using(crate::proofs::KeepLemmas::keeps_entries))]
pub fn for_entry(
    alloc: Global,
    names: &mut NameTable,
    table: &mut NodeTable,
    node: u32,
    constant: bool,
    declared: &ScopeNames,
) -> Result<Instruction, AllocError>
    ensures grows { OnOk result (Grows names.old table.old names.new table.new) }
    ensures form { IfOk result (λ e. HasForm names.new table.new e.op e.info (forms.EnterFor node constant declared.now)) }
{
    let slots = slots_of(alloc, names, declared)?;
    let entry = ForEntry {
        node,
        constant,
        names: slots,
    };
    let info = put(&mut table.fors, entry)?;
    Ok(Instruction {
        op: Op::EnterFor,
        info,
    })
}

/// A `for .. of` with its name.
#[tactic(auto, using(crate::proofs::KeepLemmas::keeps_entries))]
pub fn for_of_entry(
    names: &mut NameTable,
    table: &mut NodeTable,
    node: u32,
    binding: &Binding,
) -> Result<Instruction, AllocError>
    ensures grows { OnOk result (Grows names.old table.old names.new table.new) }
    ensures form { IfOk result (λ e. HasForm names.new table.new e.op e.info (forms.EnterForOf node binding.now)) }
{
    let slot = slot_of(names, binding)?;
    let info = put(&mut table.for_ofs, ForOfEntry { node, slot })?;
    Ok(Instruction {
        op: Op::EnterForOf,
        info,
    })
}

/// A block with its names.
#[tactic(auto, using(crate::proofs::KeepLemmas::keeps_entries))]
pub fn block_entry(
    alloc: Global,
    names: &mut NameTable,
    table: &mut NodeTable,
    declared: &ScopeNames,
) -> Result<Instruction, AllocError>
    ensures grows { OnOk result (Grows names.old table.old names.new table.new) }
    ensures form { IfOk result (λ e. HasForm names.new table.new e.op e.info (forms.Block declared.now)) }
{
    let slots = slots_of(alloc, names, declared)?;
    let info = put(&mut table.blocks, slots)?;
    Ok(Instruction {
        op: Op::Block,
        info,
    })
}

// a function's code, which is to stand at a node
fn code_of(
    alloc: Global,
    names: &mut NameTable,
    at: u32,
    function: &FunctionForm,
) -> Result<FunctionEntry, AllocError>
    ensures goes_on { OnOk result (GoesOn names.old names.new) }
    ensures function { IfOk result (λ e. IsFunction names.new e function.now) }
    ensures place { IfOk result (λ e. e.at ≡ at) }
{
    let name = number_of(names, &function.name)?;
    let parameters = parameters_of(alloc, names, &function.parameters)?;
    let declared = slots_of(alloc, names, &function.names)?;
    Ok(FunctionEntry {
        code: function.code,
        node: function.node,
        name,
        parameters,
        names: declared,
        is_arrow: function.is_arrow,
        is_named: function.is_named,
        at,
    })
}

/// A function, whose node is the next of the table.
#[tactic(auto, using(crate::proofs::KeepLemmas::keeps_entries))]
pub fn function_entry(
    alloc: Global,
    names: &mut NameTable,
    table: &mut NodeTable,
    function: &FunctionForm,
) -> Result<Instruction, AllocError>
    ensures grows { OnOk result (Grows names.old table.old names.new table.new) }
    ensures form { IfOk result (λ e. HasForm names.new table.new e.op e.info (forms.Function function.now)) }
{
    let at = next_number(table.nodes.len())?;
    let code = code_of(alloc, names, at, function)?;
    let info = put(&mut table.functions, code)?;
    Ok(Instruction {
        op: Op::Function,
        info,
    })
}

/// A method with a computed key, whose node is the next of the table.
#[tactic(auto, using(crate::proofs::KeepLemmas::keeps_entries))]
pub fn method_entry(
    alloc: Global,
    names: &mut NameTable,
    table: &mut NodeTable,
    function: &FunctionForm,
) -> Result<Instruction, AllocError>
    ensures grows { OnOk result (Grows names.old table.old names.new table.new) }
    ensures form { IfOk result (λ e. HasForm names.new table.new e.op e.info (forms.Method function.now)) }
{
    let at = next_number(table.nodes.len())?;
    let code = code_of(alloc, names, at, function)?;
    let info = put(&mut table.functions, code)?;
    Ok(Instruction {
        op: Op::Method,
        info,
    })
}

/// An object literal with its members.
#[tactic(auto, using(crate::proofs::KeepLemmas::keeps_entries))]
pub fn object_entry(
    alloc: Global,
    names: &mut NameTable,
    table: &mut NodeTable,
    members: &Members,
) -> Result<Instruction, AllocError>
    ensures grows { OnOk result (Grows names.old table.old names.new table.new) }
    ensures form { IfOk result (λ e. HasForm names.new table.new e.op e.info (forms.Object members.now)) }
{
    let entries = members_of(alloc, names, members)?;
    let info = put(&mut table.objects, entries)?;
    Ok(Instruction {
        op: Op::Object,
        info,
    })
}

/// A call.
#[tactic(auto, using(crate::proofs::KeepLemmas::keeps_entries))]
pub fn call_entry(
    table: &mut NodeTable,
    place: Mark,
    statement: u32,
) -> Result<Instruction, AllocError>
    ensures keeps { OnOk result (KeepsTable table.old table.new) }
    ensures form { IfOk result (λ e. (ts : _) → HasForm ts table.new e.op e.info (forms.Call place statement)) }
{
    let entry = CallEntry {
        place,
        statement,
        name: NO_NAME,
    };
    let info = put(&mut table.calls, entry)?;
    Ok(Instruction { op: Op::Call, info })
}

/// What stands where a call has no name: no row reads it.
const NO_NAME: NameId = NameId { number: 0 };

/// A call of what a name refers to.
#[tactic(auto, using(crate::proofs::KeepLemmas::keeps_entries))]
pub fn name_call_entry(
    names: &mut NameTable,
    table: &mut NodeTable,
    name: &Units,
    place: Mark,
    statement: u32,
) -> Result<Instruction, AllocError>
    ensures grows { OnOk result (Grows names.old table.old names.new table.new) }
    ensures form { IfOk result (λ e. HasForm names.new table.new e.op e.info (forms.CallOf (references.Name name.now) place statement)) }
{
    let name = number_of(names, name)?;
    let entry = CallEntry {
        place,
        statement,
        name,
    };
    let info = put(&mut table.calls, entry)?;
    Ok(Instruction {
        op: Op::CallOfName,
        info,
    })
}

/// A call of what a property with a fixed key refers to.
#[tactic(auto, using(crate::proofs::KeepLemmas::keeps_entries))]
pub fn member_call_entry(
    names: &mut NameTable,
    table: &mut NodeTable,
    key: &Units,
    place: Mark,
    statement: u32,
) -> Result<Instruction, AllocError>
    ensures grows { OnOk result (Grows names.old table.old names.new table.new) }
    ensures form { IfOk result (λ e. HasForm names.new table.new e.op e.info (forms.CallOf (references.Member key.now) place statement)) }
{
    let name = number_of(names, key)?;
    let entry = CallEntry {
        place,
        statement,
        name,
    };
    let info = put(&mut table.calls, entry)?;
    Ok(Instruction {
        op: Op::CallOfMember,
        info,
    })
}

/// A call of what a property with a computed key refers to.
#[tactic(auto, using(crate::proofs::KeepLemmas::keeps_entries))]
pub fn index_call_entry(
    table: &mut NodeTable,
    place: Mark,
    statement: u32,
) -> Result<Instruction, AllocError>
    ensures keeps { OnOk result (KeepsTable table.old table.new) }
    ensures form { IfOk result (λ e. (ts : _) → HasForm ts table.new e.op e.info (forms.CallOf references.Index place statement)) }
{
    let entry = CallEntry {
        place,
        statement,
        name: NO_NAME,
    };
    let info = put(&mut table.calls, entry)?;
    Ok(Instruction {
        op: Op::CallOfIndex,
        info,
    })
}

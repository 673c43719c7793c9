//! Numbers for the names of forms.

ghost use Rattle.std.specs.Prelude.{OnOk, IfOk};
ghost use Rattle.js_heap_memory.specs.Names.{GoesOn};
ghost use Rattle.js_machine_compiler.specs.Grown.{Known, IsBinding, AreBindings, AreTexts, IsMember, AreMembers};

use cdp_text::units::Units;
use js_heap::cell::{Binding, ScopeNames};
use js_heap_memory::names::{NameId, NameTable};
use js_heap_memory::stored::{Slot, Slots};
use js_machine_nodes::node::MemberEntry;
use js_semantics::form::{Member, Members};
use js_tree::names::ParameterNames;
use std::alloc::{AllocError, Global};

/// The number of a name.
#[tactic(auto, using(crate::proofs::NameLemmas::known))]
pub fn number_of(names: &mut NameTable, text: &Units) -> Result<NameId, AllocError>
    ensures goes_on { OnOk result (GoesOn names.old names.new) }
    ensures known { IfOk result (λ name. Known names.new name.number text.now) }
{
    let name = names.add(text.as_slice())?;
    Ok(name)
}

/// The slot of a declared name.
#[tactic(auto, using(crate::proofs::NameLemmas::binding_known))]
pub fn slot_of(names: &mut NameTable, binding: &Binding) -> Result<Slot, AllocError>
    ensures goes_on { OnOk result (GoesOn names.old names.new) }
    ensures slot { IfOk result (λ s. IsBinding names.new s binding.now) }
{
    let name = number_of(names, &binding.name)?;
    Ok(Slot {
        name,
        constant: binding.constant,
        value: binding.value,
    })
}

/// The slots of the names of a scope.
pub fn slots_of(
    alloc: Global,
    names: &mut NameTable,
    declared: &ScopeNames,
) -> Result<Slots, AllocError>
    ensures goes_on { OnOk result (GoesOn names.old names.new) }
    ensures slots { IfOk result (λ ss. AreBindings names.new ss declared.now) }
{
    let mut slots = Vec::new(alloc);
    for binding in declared.slice() {
        slots.push(slot_of(names, binding)?)?;
    }
    Ok(Slots::from_vec(slots))
}

/// The numbers of parameters.
pub fn parameters_of(
    alloc: Global,
    names: &mut NameTable,
    texts: &ParameterNames,
) -> Result<Vec<NameId>, AllocError>
    ensures goes_on { OnOk result (GoesOn names.old names.new) }
    ensures parameters { IfOk result (λ ns. AreTexts names.new ns.items texts.now) }
{
    let mut parameters = Vec::new(alloc);
    for text in texts.as_slice() {
        parameters.push(number_of(names, text)?)?;
    }
    Ok(parameters)
}

/// The entry of a member of an object literal.
fn member_of(names: &mut NameTable, member: &Member) -> Result<MemberEntry, AllocError>
    ensures goes_on { OnOk result (GoesOn names.old names.new) }
    ensures member { IfOk result (λ m. IsMember names.new m member.now) }
{
    match member {
        Member::Keyed(key) => {
            let name = number_of(names, key)?;
            Ok(MemberEntry::Keyed(name))
        }
        Member::Computed => Ok(MemberEntry::Computed),
    }
}

/// The members of an object literal.
pub fn members_of(
    alloc: Global,
    names: &mut NameTable,
    members: &Members,
) -> Result<Vec<MemberEntry>, AllocError>
    ensures goes_on { OnOk result (GoesOn names.old names.new) }
    ensures members { IfOk result (λ ms. AreMembers names.new ms.items members.now) }
{
    let mut entries = Vec::new(alloc);
    for member in members.slice() {
        entries.push(member_of(names, member)?)?;
    }
    Ok(entries)
}

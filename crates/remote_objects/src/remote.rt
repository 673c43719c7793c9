//! Values as remote objects, with handles where they are objects.

ghost use Rattle.std.specs.Prelude.{◌≡◌, ◌++◌, map, option_copied, IfOk, OnOk};
ghost use Rattle.cdp_json.specs.Views.{json_view, member_view};
ghost use Rattle.remote_objects.specs.Making as making;
ghost use Rattle.remote_objects.specs.Remote as remotes;
ghost use Rattle.remote_objects.specs.Views.{sight_of};

use crate::describer::Describer;
use crate::function_sources::FunctionSources;
use crate::ids::object_id;
use cdp_json::parts::put_value;
use cdp_json::value::{Json, Member, object, text};
use js_heap::value::Value;
use js_heap_memory::world::World;
use object_groups::{HandleFault, Handles, Target};
use std::alloc::{AllocError, Global};

/// The number of a new handle on a target, in a group or in none; none where no handle can be made.
pub(crate) fn handle_on(
    target: Target,
    group: Option<&[u16]>,
    handles: &mut Handles,
) -> Result<Option<u64>, AllocError>
    ensures made { IfOk result (λ number. number ≡ (making.handle_on target (option_copied group.entry) handles.old).made) }
    ensures handles { OnOk result (handles.new ≡ (making.handle_on target (option_copied group.entry) handles.old).handles) }
{
    match handles.make(target, group) {
        Ok(number) => Ok(Some(number)),
        Err(HandleFault::Full { .. }) => Ok(None),
        Err(HandleFault::Memory) => Err(AllocError),
    }
}

/// Puts the id of an object behind other members, where it has a handle.
fn put_id(
    alloc: Global,
    session: u64,
    number: Option<u64>,
    members: &mut Vec<Member>,
) -> Result<(), AllocError>
    ensures { OnOk result (map member_view members.new.items ≡ map member_view members.old.items ++ making.id_pairs session number) }
{
    match number {
        None => Ok(()),
        Some(number) => {
            let id = object_id(alloc, session, number)?;
            put_value(alloc, members, b"objectId", text(id))
        }
    }
}

/// An object of these members and the id of a new handle on a target.
fn with_handle_on(
    alloc: Global,
    session: u64,
    group: Option<&[u16]>,
    target: Target,
    mut members: Vec<Member>,
    handles: &mut Handles,
) -> Result<Json, AllocError>
    ensures made { IfOk result (λ j. json_view j ≡ (remotes.with_handle_on session (option_copied group.entry) target (map member_view members.items) handles.old).made) }
    ensures handles { OnOk result (handles.new ≡ (remotes.with_handle_on session (option_copied group.entry) target (map member_view members.items) handles.old).handles) }
{
    let number = handle_on(target, group, handles)?;
    put_id(alloc, session, number, &mut members)?;
    Ok(object(members))
}

impl<'w, W: World, S: FunctionSources> Describer<'w, W, S> {
    /// A value as a remote object; its handle, if it is an object, is in this group or in none.
    pub fn remote(
        &self,
        value: Value,
        handles: &mut Handles,
        group: Option<&[u16]>,
    ) -> Result<Json, AllocError>
        ensures made { IfOk result (λ j. json_view j ≡ (remotes.remote (sight_of S.node_text (W.world self.now.names.now self.now.world.now) self.now.scripts.now self.now.session) (option_copied group.entry) value handles.old).made) }
        ensures handles { OnOk result (handles.new ≡ (remotes.remote (sight_of S.node_text (W.world self.now.names.now self.now.world.now) self.now.scripts.now self.now.session) (option_copied group.entry) value handles.old).handles) }
    {
        let members = self.value_members(value)?;
        match value {
            Value::Object(a) => {
                let target = Target::Object(a);
                with_handle_on(self.alloc, self.session, group, target, members, handles)
            }
            _ => Ok(object(members)),
        }
    }
}

//! The objects that a session holds.

ghost use Rattle.std.specs.Prelude.{◌≡◌, IfOk, option_copied};
ghost use Rattle.cdp_session.specs.Objects.{handle_of, numbered};

use crate::session::Session;
use cdp_text::units::Units;
use object_groups::{Handle, Handles};
use remote_objects::read_object_id;
use std::alloc::{AllocError, Global};

/// The name of the group of a handle, if it is in one.
pub(crate) fn group_of(handle: &Handle) -> Option<&[u16]>
    ensures { option_copied result ≡ handle.now.group }
{
    match &handle.group {
        Some(name) => Some(name.as_slice()),
        None => None,
    }
}

/// A copy of the name of a group, if there is one.
fn copied_name(alloc: Global, name: Option<&[u16]>) -> Result<Option<Units>, AllocError>
    ensures { IfOk result (λ copy. copy ≡ option_copied name.entry) }
{
    match name {
        Some(name) => Ok(Some(Units::from_slice(alloc, name)?)),
        None => Ok(None),
    }
}

/// A copy of a handle, which says what it stands for while the list that has it is changed.
fn copied(alloc: Global, handle: &Handle) -> Result<Handle, AllocError>
    ensures { IfOk result (λ copy. copy ≡ handle.now) }
{
    let group = copied_name(alloc, group_of(handle))?;
    Ok(Handle {
        number: handle.number,
        target: handle.target,
        group,
    })
}

/// A copy of the handle of a number, if it is held.
fn numbered(alloc: Global, handles: &Handles, number: u64) -> Result<Option<Handle>, AllocError>
    ensures { IfOk result (λ handle. handle ≡ numbered handles.now.held number) }
{
    match handles.get(number) {
        Some(handle) => Ok(Some(copied(alloc, handle)?)),
        None => Ok(None),
    }
}

impl Session<'_> {
    /// A copy of the handle whose id this is, if the session holds it.
    pub(crate) fn handle_of(&self, id: &Units) -> Result<Option<Handle>, AllocError>
        ensures { IfOk result (λ handle. handle ≡ handle_of self.now id.now) }
    {
        match read_object_id(self.number, id.as_slice()) {
            Some(number) => numbered(self.alloc, &self.handles, number),
            None => Ok(None),
        }
    }
}

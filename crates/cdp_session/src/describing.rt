//! Values of the program and of a session's evaluations, described to the session.

ghost use Rattle.std.specs.Prelude.{◌≡◌, option_copied, string_bytes, IfOk, OnOk};
ghost use Rattle.js_heap.specs.ScratchSpaces.{copied_world};
ghost use Rattle.js_parser.specs.NodeTexts.{node_text};
ghost use Rattle.cdp_json.specs.Views.{json_view};
ghost use Rattle.remote_objects.specs.ByValue.{remote_by_value, Gives};
ghost use Rattle.remote_objects.specs.Descriptors.{descriptors_with};
ghost use Rattle.remote_objects.specs.Remote.{remote_with};
ghost use Rattle.remote_objects.specs.Views.{sight_of};
ghost use Rattle.cdp_session.specs.Evaluations.{described_over};
ghost use Rattle.cdp_session.specs.Made.{spelt};
ghost use Rattle.cdp_session_messages.specs.Results.{properties};

use crate::objects::group_of;
use crate::sources::EvaluatedTexts;
use cdp_json::pen::Pen;
use cdp_json::value::Json;
use js_heap::value::Value;
use js_heap_memory::overlay::Overlay;
use js_tree::script::Script;
use object_groups::{Handle, Handles};
use pure_eval::OpenWorkspace;
use remote_objects::{ByValueFault, Describer, Detail};
use std::alloc::{AllocError, Global};

/// Room for the text of a value, in bytes.
const TEXT_ROOM: usize = 256;

/// What values are described to the session of this number by: the program's cells, and those of its evaluations.
fn describer_of<'o, 'b>(
    alloc: Global,
    opened: &'o OpenWorkspace<'b>,
    scripts: &'o [Script],
    session: u64,
    sources: &'o EvaluatedTexts,
) -> Describer<'o, Overlay<'b>, EvaluatedTexts>
    ensures { described_over result ≡ sight_of node_text
        (copied_world opened.now.workspace.world opened.now.workspace.behind.scratch) scripts.now session }
{
    let seen = opened.seen();
    Describer {
        alloc,
        world: seen.world,
        names: seen.names,
        scripts,
        session,
        sources,
    }
}

/// The text of the result that lists the properties of an object that the session of this number holds, with or without
/// previews of their values. New handles are in its group, if it is in one.
pub(crate) fn properties_text(
    alloc: Global,
    opened: &OpenWorkspace<'_>,
    scripts: &[Script],
    session: u64,
    object: &Handle,
    detail: Detail,
    handles: &mut Handles,
) -> Result<String, AllocError>
    ensures made { IfOk result (λ text. string_bytes text ≡ spelt (properties (descriptors_with (sight_of node_text (copied_world opened.now.workspace.world opened.now.workspace.behind.scratch) scripts.now session) detail object.now.group object.now.target handles.old).made)) }
    ensures handles { OnOk result (handles.new ≡ (descriptors_with (sight_of node_text (copied_world opened.now.workspace.world opened.now.workspace.behind.scratch) scripts.now session) detail object.now.group object.now.target handles.old).handles) }
{
    let sources = EvaluatedTexts;
    let describer = describer_of(alloc, opened, scripts, session, &sources);
    let mut pen = Pen::with_room(alloc, TEXT_ROOM)?;
    pen.put("{\"result\":")?;
    describer.write_descriptors(object.target, detail, group_of(object), handles, &mut pen)?;
    pen.put("}")?;
    Ok(pen.finish())
}

/// The text of a value to which an evaluation came, described to the session of this number with or without a preview.
/// Its handle is in this group or in none.
pub(crate) fn described_text(
    alloc: Global,
    opened: &OpenWorkspace<'_>,
    scripts: &[Script],
    session: u64,
    value: Value,
    detail: Detail,
    group: Option<&[u16]>,
    handles: &mut Handles,
) -> Result<String, AllocError>
    ensures made { IfOk result (λ text. string_bytes text ≡ spelt (remote_with (sight_of node_text
        (copied_world opened.now.workspace.world opened.now.workspace.behind.scratch) scripts.now session)
        detail (option_copied group.entry) value handles.old).made) }
    ensures handles { OnOk result (handles.new ≡ (remote_with (sight_of node_text
        (copied_world opened.now.workspace.world opened.now.workspace.behind.scratch) scripts.now session)
        detail (option_copied group.entry) value handles.old).handles) }
{
    let sources = EvaluatedTexts;
    let describer = describer_of(alloc, opened, scripts, session, &sources);
    let mut pen = Pen::with_room(alloc, TEXT_ROOM)?;
    describer.write_remote(value, detail, handles, group, &mut pen)?;
    Ok(pen.finish())
}

/// A value to which an evaluation came, by value and without a handle.
pub(crate) fn given_of(
    alloc: Global,
    opened: &OpenWorkspace<'_>,
    scripts: &[Script],
    session: u64,
    value: Value,
) -> Result<Json, ByValueFault>
    ensures { Gives json_view result (remote_by_value (sight_of node_text
        (copied_world opened.now.workspace.world opened.now.workspace.behind.scratch) scripts.now session) value) }
{
    let sources = EvaluatedTexts;
    let describer = describer_of(alloc, opened, scripts, session, &sources);
    describer.remote_by_value(value)
}

/// The text of what is given for a value.
pub(crate) fn given_text(alloc: Global, given: &Json) -> Result<String, AllocError>
    ensures { IfOk result (λ text. string_bytes text ≡ spelt (json_view given.now)) }
{
    let mut pen = Pen::with_room(alloc, TEXT_ROOM)?;
    pen.json(given)?;
    Ok(pen.finish())
}

//! How a session is told that the program is paused.

ghost use Rattle.std.specs.Prelude.{◌≡◌, map, codes, IfOk, OnOk, Some, option_to_list, string_bytes};
ghost use Rattle.cdp_json.specs.Compact.{compact_text, string_text, with_commas};
ghost use Rattle.cdp_json.specs.Messages.{event_text};
ghost use Rattle.cdp_json.specs.Pieces.{Wrote};
ghost use Rattle.frames_scopes_types.specs.Views.{frame_of};
ghost use Rattle.cdp_session.specs.Pauses.{data_made, described_by, enabling_told, pause_told, sight_for, value_told};
ghost use Rattle.cdp_session.specs.PauseTexts.{data_text, pause_params, reason_back};
ghost use Rattle.cdp_session.specs.Sessions.{with_handles};
ghost use Rattle.cdp_session.specs.Situations.{seen};

use crate::program::Program;
use crate::session::Session;
use crate::situation::{Pause, Situation};
use crate::sources::EvaluatedTexts;
use cdp_json::pen::Pen;
use cdp_json::{begin_event, end_message};
use cdp_text::units::Units;
use frames_scopes_types::CallFrame;
use js_heap::value::Value;
use js_heap_memory::heap::BaseHeap;
use object_groups::Handles;
use remote_objects::{Describer, Detail, backtrace};
use std::alloc::{AllocError, Global};
use stepping::Cause;

/// Room for the event of a pause in a few frames, in bytes.
const PAUSE_ROOM: usize = 2_048;

/// The end of the event of a pause, behind the breakpoints: why the program stopped.
fn reason_back(cause: Option<Cause>) -> &'static str
    ensures { result.now ≡ reason_back cause }
{
    match cause {
        Some(Cause::Exception) => "],\"reason\":\"exception\"}",
        _ => "],\"reason\":\"other\"}",
    }
}

/// The value of the throw that stands, for a session whose own rule on throws named the stop.
fn value_told(cause: Option<Cause>, thrown: Option<Value>) -> Option<Value>
    ensures { result ≡ value_told cause thrown }
{
    match cause {
        Some(Cause::Exception) => thrown,
        _ => None,
    }
}

/// Writes a value that was thrown, behind the frames.
fn write_thrown(
    describer: &Describer<'_, BaseHeap, EvaluatedTexts>,
    value: Value,
    handles: &mut Handles,
    pen: &mut Pen,
) -> Result<(), AllocError>
    ensures made { OnOk result (Wrote pen.old (data_text (data_made (described_by describer.now) (Some value) handles.old).made) pen.new) }
    ensures held { OnOk result (handles.new ≡ (data_made (described_by describer.now) (Some value) handles.old).handles) }
{
    pen.put(",\"data\":")?;
    describer.write_remote(value, Detail::Plain, handles, Some(backtrace()), pen)
}

/// Writes a value that was thrown, if there is one, behind the frames.
fn write_data(
    describer: &Describer<'_, BaseHeap, EvaluatedTexts>,
    value: Option<Value>,
    handles: &mut Handles,
    pen: &mut Pen,
) -> Result<(), AllocError>
    ensures made { OnOk result (Wrote pen.old (data_text (data_made (described_by describer.now) value handles.old).made) pen.new) }
    ensures held { OnOk result (handles.new ≡ (data_made (described_by describer.now) value handles.old).handles) }
{
    match value {
        None => Ok(()),
        Some(value) => write_thrown(describer, value, handles, pen),
    }
}

/// Writes the ids of breakpoints, with commas between them.
fn write_hits(hits: &[Units], pen: &mut Pen) -> Result<(), AllocError>
    ensures { OnOk result (Wrote pen.old (with_commas (map string_text hits.now)) pen.new) }
{
    for i in 0..hits.len() {
        pen.comma(i > 0)?;
        let hit = &hits[i];
        pen.quoted(hit.as_slice())?;
    }
    Ok(())
}

/// Writes what `Debugger.paused` says: the frames, the value that was thrown, where the session is told of one, the ids
/// of the breakpoints that were hit, and why the program stopped.
fn write_pause(
    describer: &Describer<'_, BaseHeap, EvaluatedTexts>,
    number: u64,
    frames: &[CallFrame<'_>],
    value: Option<Value>,
    hits: &[Units],
    cause: Option<Cause>,
    handles: &mut Handles,
    pen: &mut Pen,
) -> Result<(), AllocError>
    ensures made { OnOk result (Wrote pen.old (compact_text (pause_params (described_by describer.now) number (map frame_of frames.now) value hits.now cause handles.old).made) pen.new) }
    ensures held { OnOk result (handles.new ≡ (pause_params (described_by describer.now) number (map frame_of frames.now) value hits.now cause handles.old).handles) }
{
    pen.put("{\"callFrames\":[")?;
    describer.write_frames(number, frames, handles, pen)?;
    pen.put("]")?;
    write_data(describer, value, handles, pen)?;
    pen.put(",\"hitBreakpoints\":[")?;
    write_hits(hits, pen)?;
    pen.put(reason_back(cause))
}

/// What values of the program are described to the session of this number by.
pub(crate) fn describer<'d, P: Program>(
    alloc: Global,
    situation: &'d Situation<'_, P>,
    session: u64,
    sources: &'d EvaluatedTexts,
) -> Describer<'d, BaseHeap, EvaluatedTexts>
    ensures { described_by result ≡ sight_for (seen P.standing situation.now) session }
{
    let cells = situation.program.cells();
    Describer {
        alloc,
        world: cells.heap,
        names: cells.names,
        scripts: situation.scripts,
        session,
        sources,
    }
}

/// The event that tells the session of this number of the stop of this number, at breakpoints of these ids, for this
/// cause.
fn pause_text<P: Program>(
    alloc: Global,
    situation: &Situation<'_, P>,
    session: u64,
    number: u64,
    hits: &[Units],
    cause: Option<Cause>,
    handles: &mut Handles,
) -> Result<String, AllocError>
    ensures made { IfOk result (λ text. string_bytes text ≡ event_text (codes "Debugger.paused") (pause_params (sight_for (seen P.standing situation.now) session) number (seen P.standing situation.now).standing.frames (value_told cause (seen P.standing situation.now).standing.thrown) hits.now cause handles.old).made) }
    ensures held { OnOk result (handles.new ≡ (pause_params (sight_for (seen P.standing situation.now) session) number (seen P.standing situation.now).standing.frames (value_told cause (seen P.standing situation.now).standing.thrown) hits.now cause handles.old).handles) }
{
    let frames = situation.program.call_frames(alloc)?;
    let sources = EvaluatedTexts;
    let describer = describer(alloc, situation, session, &sources);
    let value = value_told(cause, situation.program.thrown());
    let mut pen = Pen::with_room(alloc, PAUSE_ROOM)?;
    begin_event("Debugger.paused", &mut pen)?;
    write_pause(
        &describer,
        number,
        frames.as_slice(),
        value,
        hits,
        cause,
        handles,
        &mut pen,
    )?;
    end_message(&mut pen)?;
    Ok(pen.finish())
}

impl Session<'_> {
    /// The event that tells of the stop of this number, at breakpoints of these ids, for this cause. The objects that
    /// it names are held from then on.
    pub(crate) fn pause_told<P: Program>(
        &mut self,
        situation: &Situation<'_, P>,
        number: u64,
        hits: Vec<Units>,
        cause: Option<Cause>,
    ) -> Result<String, AllocError>
        ensures made { IfOk result (λ text. string_bytes text ≡ (pause_told (seen P.standing situation.now) number hits.items cause self.old).made) }
        ensures held { OnOk result (self.new ≡ with_handles (pause_told (seen P.standing situation.now) number hits.items cause self.old).handles self.old) }
    {
        pause_text(
            self.alloc,
            situation,
            self.number,
            number,
            hits.as_slice(),
            cause,
            &mut self.handles,
        )
    }

    /// What enabling the debugger tells of a pause, if there is one: nothing where it was enabled.
    pub(crate) fn enabling_told<P: Program>(
        &mut self,
        situation: &Situation<'_, P>,
        paused: Option<Pause>,
        enabled: bool,
    ) -> Result<Option<String>, AllocError>
        ensures made { IfOk result (λ event. map string_bytes (option_to_list event) ≡ (enabling_told (seen P.standing situation.now) paused enabled self.old).made) }
        ensures held { OnOk result (self.new ≡ with_handles (enabling_told (seen P.standing situation.now) paused enabled self.old).handles self.old) }
    {
        match paused {
            None => Ok(None),
            Some(pause) => {
                if enabled {
                    return Ok(None);
                }
                let none = Vec::new(self.alloc);
                Ok(Some(self.pause_told(situation, pause.number, none, None)?))
            }
        }
    }
}

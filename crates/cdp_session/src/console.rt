//! How a session is told of what the program printed (Chrome DevTools Protocol 1.3, `Runtime.consoleAPICalled`).

ghost use Rattle.std.specs.Prelude.{◌≡◌, ◌<◌, ◌^◌, map, string_bytes, IfOk, OnOk};
ghost use Rattle.cdp_json.specs.Views.{json_view};
ghost use Rattle.cdp_session.specs.Consoles as consoles;
ghost use Rattle.cdp_session.specs.Pauses.{described_by};
ghost use Rattle.cdp_session.specs.Sessions.{with_handles};
ghost use Rattle.cdp_session.specs.Situations.{seen};
ghost use Rattle.cdp_session_messages.specs.Prints.{print_text};

use crate::pausing::describer;
use crate::program::Program;
use crate::session::Session;
use crate::situation::Situation;
use crate::sources::EvaluatedTexts;
use cdp_json::value::Json;
use cdp_session_messages::print_text;
use js_heap::value::Value;
use js_heap_memory::heap::BaseHeap;
use object_groups::Handles;
use remote_objects::Describer;
use std::alloc::AllocError;

/// `console`
static CONSOLE: [u16; 7] = [99, 111, 110, 115, 111, 108, 101];

/// The group of what is described of a print, or of a throw that ended the run.
fn console() -> &'static [u16]
    ensures { result.now ≡ consoles.console }
{
    &CONSOLE
}

// ---- values that were printed

/// A value in the group `console`, without a preview.
pub(crate) fn value_made(
    describer: &Describer<'_, BaseHeap, EvaluatedTexts>,
    value: Value,
    handles: &mut Handles,
) -> Result<Json, AllocError>
    ensures made { IfOk result (λ j. json_view j ≡ (consoles.value_made (described_by describer.now) value handles.old).made) }
    ensures held { OnOk result (handles.new ≡ (consoles.value_made (described_by describer.now) value handles.old).handles) }
{
    describer.remote(value, handles, Some(console()))
}

/// Values, in order.
fn values_made(
    describer: &Describer<'_, BaseHeap, EvaluatedTexts>,
    values: &[Value],
    handles: &mut Handles,
) -> Result<Vec<Json>, AllocError>
    ensures made { IfOk result (λ js. map json_view js.items ≡ (consoles.values_made (described_by describer.now) values.now handles.old).made) }
    ensures held { OnOk result (handles.new ≡ (consoles.values_made (described_by describer.now) values.now handles.old).handles) }
{
    let mut listed = Vec::with_capacity(describer.alloc, values.len())?;
    for i in 0..values.len() {
        listed.push(value_made(describer, values[i], handles)?)?;
    }
    Ok(listed)
}

impl Session<'_> {
    /// The values that were printed. The objects among them are held from then on.
    fn values_told<P: Program>(
        &mut self,
        situation: &Situation<'_, P>,
        values: &[Value],
    ) -> Result<Vec<Json>, AllocError>
        ensures made { IfOk result (λ js. map json_view js.items ≡ (consoles.values_told (seen P.standing situation.now) values.now self.old).made) }
        ensures held { OnOk result (self.new ≡ with_handles (consoles.values_told (seen P.standing situation.now) values.now self.old).handles self.old) }
    {
        let sources = EvaluatedTexts;
        let describer = describer(self.alloc, situation, self.number, &sources);
        values_made(&describer, values, &mut self.handles)
    }

    /// The event that tells of a print. The objects that it names are held from then on.
    pub(crate) fn print_told<P: Program>(
        &mut self,
        situation: &Situation<'_, P>,
        values: &[Value],
        moment: u64,
    ) -> Result<String, AllocError>
        requires { moment < 2 ^ 53 }
        ensures made { IfOk result (λ text. string_bytes text ≡ print_text (consoles.values_told (seen P.standing situation.now) values.now self.old).made moment) }
        ensures held { OnOk result (self.new ≡ with_handles (consoles.values_told (seen P.standing situation.now) values.now self.old).handles self.old) }
    {
        let made = self.values_told(situation, values)?;
        print_text(self.alloc, made, moment)
    }
}

//! How a session is told of the throw that ended the run (Chrome DevTools Protocol 1.3, `Runtime.exceptionThrown`).

ghost use Rattle.std.specs.Prelude.{◌≡◌, ◌<◌, ◌^◌, string_bytes, IfOk, OnOk};
ghost use Rattle.cdp_json.specs.Views.{json_view};
ghost use Rattle.cdp_session.specs.Endings as ends;
ghost use Rattle.cdp_session.specs.Sessions.{with_exception, with_handles};
ghost use Rattle.cdp_session.specs.Situations.{seen};

use crate::console::value_made;
use crate::pausing::describer;
use crate::program::Program;
use crate::session::Session;
use crate::situation::Situation;
use crate::sources::EvaluatedTexts;
use cdp_json::value::Json;
use cdp_session_messages::{throw_details, throw_text, url_at};
use cdp_text::position::Place;
use js_heap::value::Value;
use std::alloc::AllocError;

impl Session<'_> {
    /// The value that was thrown. If it is an object, it is held from then on.
    fn exception_told<P: Program>(
        &mut self,
        situation: &Situation<'_, P>,
        value: Value,
    ) -> Result<Json, AllocError>
        ensures made { IfOk result (λ j. json_view j ≡ (ends.exception_told (seen P.standing situation.now) value self.old).made) }
        ensures held { OnOk result (self.new ≡ with_handles (ends.exception_told (seen P.standing situation.now) value self.old).handles self.old) }
    {
        let sources = EvaluatedTexts;
        let describer = describer(self.alloc, situation, self.number, &sources);
        value_made(&describer, value, &mut self.handles)
    }

    /// What the session is told of a throw: it is one exception more.
    fn details_told<P: Program>(
        &mut self,
        situation: &Situation<'_, P>,
        value: Value,
        place: Place,
    ) -> Result<Json, AllocError>
        ensures made { IfOk result (λ j. json_view j ≡ ends.details_told (seen P.standing situation.now) value place self.old) }
        ensures held { OnOk result (self.new ≡ with_exception (with_handles (ends.exception_told (seen P.standing situation.now) value self.old).handles self.old)) }
    {
        let exception = self.exception_told(situation, value)?;
        let id = self.count_exception();
        let url = url_at(situation.scripts, place);
        throw_details(self.alloc, place, exception, id, url)
    }

    /// The event that tells of a throw that ended the run, of this value at this place. If it is an object, it is held
    /// from then on.
    pub(crate) fn throw_told<P: Program>(
        &mut self,
        situation: &Situation<'_, P>,
        value: Value,
        place: Place,
        moment: u64,
    ) -> Result<String, AllocError>
        requires { moment < 2 ^ 53 }
        ensures made { IfOk result (λ text. string_bytes text ≡ (ends.throw_told (seen P.standing situation.now) value place moment self.old).made) }
        ensures held { OnOk result (self.new ≡ with_exception (with_handles (ends.throw_told (seen P.standing situation.now) value place moment self.old).handles self.old)) }
    {
        let details = self.details_told(situation, value, place)?;
        throw_text(self.alloc, details, moment)
    }
}

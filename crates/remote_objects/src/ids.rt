//! Ids of objects and of frames, and numbers read from them.

ghost use Rattle.std.specs.Prelude.{◌≡◌, ◌≢◌, ◌++◌, IfOk, IfSome, IfNone, List, decimal, ℕ};
ghost use Rattle.remote_objects.specs.Ids as ids;
ghost use Rattle.remote_objects.specs.Ids.{IsFrameId, IsObjectId, object_id, point};

use cdp_text::decimal::read_decimal_units;
use cdp_text::parts::unit_halves;
use cdp_text::units::{Units, ascii};
use std::alloc::{AllocError, Global};

/// The unit between the parts of an id.
const POINT: u16 = 46;

/// The id of an object: the number of its session and that of its handle.
pub(crate) fn object_id(alloc: Global, session: u64, number: u64) -> Result<Units, AllocError>
    ensures { IfOk result (λ id. id ≡ object_id session number) }
{
    let text = format!(in alloc; "{session}.{number}")?;
    ascii(alloc, text.as_bytes())
}

/// What stands behind this number and a point in a text; none where the text doesn't begin with them.
fn behind_number(number: u64, text: &[u16]) -> Option<&[u16]>
    ensures some { IfSome result (λ back. text.now ≡ decimal number ++ (point ++ back.now)) }
    ensures none { IfNone result ((back : List ℕ) → text.now ≢ decimal number ++ (point ++ back)) }
{
    let (front, back) = unit_halves(text, POINT)?;
    if read_decimal_units(front)? != number {
        return None;
    }
    Some(back)
}

/// The number of the object whose id in a session a text is; none where it isn't the id of one.
fn number_in_id(session: u64, text: &[u16]) -> Option<u64>
    ensures some { IfSome result (λ number. IsObjectId session text.now number) }
    ensures none { IfNone result ((number : ℕ) → ¬ (IsObjectId session text.now number)) }
{
    read_decimal_units(behind_number(session, text)?)
}

/// The number of the handle whose id in a session a text is; none where it isn't the id of one. It takes no memory.
pub fn read_object_id(session: u64, text: &[u16]) -> Option<u64>
    ensures value { result ≡ ids.number_in_id session text.now }
    ensures some { IfSome result (λ number. IsObjectId session text.now number) }
    ensures none { IfNone result ((number : ℕ) → ¬ (IsObjectId session text.now number)) }
{
    number_in_id(session, text)
}

/// How far the frame is from the top one whose id in a session, at the stop of this number, a text is; none where it
/// isn't the id of one. It takes no memory.
pub fn read_frame_id(session: u64, stop: u64, text: &[u16]) -> Option<u64>
    ensures some { IfSome result (λ depth. IsFrameId session stop text.now depth) }
    ensures none { IfNone result ((depth : ℕ) → ¬ (IsFrameId session stop text.now depth)) }
{
    number_in_id(stop, behind_number(session, text)?)
}

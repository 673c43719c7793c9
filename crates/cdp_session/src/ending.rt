//! How a run ended.

use cdp_text::position::Place;
use js_heap::value::Value;

/// How a run ended.
#[derive(Clone, Copy)]
pub enum Ending {
    /// Behind its last script.
    Finished,
    /// By a throw that no `catch` took: of this value, raised at this place.
    Threw { value: Value, place: Place },
}

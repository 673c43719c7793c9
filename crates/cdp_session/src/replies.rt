//! The replies to commands that are done (JSON-RPC 2.0, section 5).

ghost use Rattle.std.specs.Prelude.{◌≡◌, ◌≤◌, length, string_bytes, IfOk, OnOk};
ghost use Rattle.cdp_json.specs.Pieces.{Wrote};
ghost use Rattle.cdp_session.specs.Made as made;
ghost use Rattle.cdp_session.specs.Made.{answer_text};

use crate::done::Answer;
use cdp_json::pen::Pen;
use cdp_json::{begin_result, end_message};
use std::alloc::{AllocError, Global};

/// Room for what stands around the result of a reply, in bytes.
const REPLY_ROOM: usize = 64;

/// Writes a result.
#[tactic(auto, unfolding(crate::specs::Made::spelt))]
fn write_answer(answer: &Answer, pen: &mut Pen) -> Result<(), AllocError>
    ensures { OnOk result (Wrote pen.old (answer_text answer.now) pen.new) }
{
    match answer {
        Answer::Tree(value) => pen.json(value),
        Answer::Text(text) => pen.put(text.as_str()),
    }
}

/// How many bytes an answer takes, where that is known before it is written.
fn length_known(answer: &Answer) -> usize
    ensures { result ≤ length (answer_text answer.now) }
{
    match answer {
        Answer::Tree(_) => 0,
        Answer::Text(text) => text.len(),
    }
}

/// The reply to the command of this id that has this result.
pub(crate) fn reply_text(alloc: Global, id: u64, answer: &Answer) -> Result<String, AllocError>
    ensures { IfOk result (λ text. string_bytes text ≡ made.reply_text id (answer_text answer.now)) }
{
    let mut pen = Pen::with_room(alloc, length_known(answer).saturating_add(REPLY_ROOM))?;
    begin_result(id, &mut pen)?;
    write_answer(answer, &mut pen)?;
    end_message(&mut pen)?;
    Ok(pen.finish())
}

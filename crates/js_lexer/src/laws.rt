//! What tokens there are.

ghost use Rattle.std.specs.Prelude.{◌++◌, ◌≡◌, take};
ghost use Rattle.js_lexer.specs.State.{items_of};
ghost use Rattle.js_lexer.specs.Written.{AreTokens, end_after, lent, tokens_then, written};

/// Tokens of any kinds, each on a new line or on the line of the one before it, are those of some
/// text: that which they are written as. And where any source is cut behind some first tokens, such
/// tokens may be written there: the first ones are found as before.
#[tactic(auto, using(crate::proofs::WrittenLaws::tokens_written, crate::proofs::FirstLaws::first_tokens))]
pub fn tokens_written()
    ensures alone { (ts : _) → AreTokens ts → items_of (written ts) ≡ lent 0 ts }
    ensures behind { (source : _) (before : _) (left : _) → items_of source ≡ tokens_then before left → (ts : _) → AreTokens ts → items_of (take (end_after 0 before) source ++ written ts) ≡ tokens_then before (lent (end_after 0 before) ts) }
{}

//! Lines of bytes: each is ended by LF, and the last may lack it.
ghost use Rattle.std.specs.Prelude.{◌≡◌, ◌<◌, ◌⊎◌, ◌↔◌, List, ℕ, [], ◌∷◌, ◌++◌, length, IsNone, IfSome, MatchOption};
ghost use Rattle.std.specs.Prelude.{◌==◌, position};
ghost use Rattle.cdp_text.specs.Lines.{lines_of, AreLines};

/// The first line of a text, without its LF, and what stands behind it.
/// None exactly where the text is empty, so `while let Some((line, after)) = cut_line(rest)`
/// with `rest = after` goes over all lines.
#[tactic(auto, using(crate::proofs::LinesLemmas::cuts))]
pub fn cut_line(text: &[u8]) -> Option<(&[u8], &[u8])>
    ensures lines { MatchOption result
        (lines_of text.now ≡ [])
        (λ cut. lines_of text.now ≡ cut.0.now ∷ lines_of cut.1.now) }
    ensures parts { IfSome result (λ cut.
        (text.now ≡ cut.0.now ++ 10 ∷ cut.1.now) ⊎ ((text.now ≡ cut.0.now) × (cut.1.now ≡ []))) }
    ensures shorter { IfSome result (λ cut. length cut.1.now < length text.now) }
    ensures empty { IsNone result ↔ (text.now ≡ []) }

    // What `lines_of` is, and that nothing else is.
    ensures are { AreLines text.now (lines_of text.now) }
    ensures only { (others : List (List ℕ)) → AreLines text.now others → others ≡ lines_of text.now }
{
    if text.is_empty() {
        return None;
    }
    match line_feed_at(text) {
        Some(end) => Some((&text[..end], &text[end + 1..])),
        None => Some((text, &[])),
    }
}

// Where the first LF stands.
fn line_feed_at(text: &[u8]) -> Option<usize>
    ensures { result ≡ position (λ byte. byte == 10) text.now }
{
    text.iter().position(|byte| *byte == b'\n')
}

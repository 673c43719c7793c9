//! The tokens of a source, within the limits.

ghost use Rattle.std.specs.Prelude.{◌≡◌, ◌≤◌, ◌<◌, length, IfOk, IfErr};
ghost use Rattle.js_parser_readers.specs.Views.{tokens_view};
ghost use Rattle.js_parser_readers.specs.declared.fault.ParseFault.TheVariants.{Memory, TooLong};
ghost use Rattle.js_lexer.specs.State.{tokens_left};
ghost use Rattle.js_parser.specs.Lexing as spec;
ghost use Rattle.js_parser.specs.Lexing.{lexed_of, lexed_view, stop_view};

use crate::limits::{MOST_TOKENS, MOST_UNITS};
use js_lexer::token::Token;
use js_lexer::tokens::Tokens;
use js_parser_readers::fault::ParseFault;
use std::alloc::{AllocError, Global};

/// Why a source has no further tokens. A place counts the code units before it.
#[derive(Clone, Copy)]
pub enum LexingEnd {
    /// No token begins here.
    Bad { at: usize },
    /// The token that begins here is one too many.
    Many { at: usize },
}

/// The tokens of a source, with the first that is too many, and why there are no further ones.
#[derive(Drop)]
pub struct Lexed<'s> {
    /// The tokens that were read.
    pub tokens: Vec<Token<'s>>,
    /// Why there are no further ones. `None` at the end of the source.
    pub stop: Option<LexingEnd>,
}

/// Reads tokens up to a bad one or one too many.
pub fn read_tokens<'s>(alloc: Global, items: Tokens<'s>) -> Result<Lexed<'s>, AllocError>
    ensures tokens { IfOk result (λ l. tokens_view l.tokens.items ≡ (spec.lexed MOST_TOKENS (tokens_left items.entry)).tokens) }
    ensures stop { IfOk result (λ l. stop_view l.stop ≡ (spec.lexed MOST_TOKENS (tokens_left items.entry)).stop) }
{
    let mut tokens = Vec::new(alloc);
    for item in items {
        match item {
            Ok(token) => {
                let is_last = tokens.len() == MOST_TOKENS;
                tokens.push(token)?;
                if is_last {
                    let stop = Some(LexingEnd::Many { at: token.start });
                    return Ok(Lexed { tokens, stop });
                }
            }
            Err(bad) => {
                let stop = Some(LexingEnd::Bad { at: bad.at });
                return Ok(Lexed { tokens, stop });
            }
        }
    }
    Ok(Lexed { tokens, stop: None })
}

/// The tokens of a source that isn't too long.
///
/// # Errors
///
/// `TooLong`, or no memory.
pub fn lex<'s>(alloc: Global, source: &'s [u16]) -> Result<Lexed<'s>, ParseFault>
    ensures long { MOST_UNITS < length source.now → result ≡ Err (TooLong (length source.now)) }
    ensures short { IfOk result (λ l. length source.now ≤ MOST_UNITS) }
    ensures tokens { IfOk result (λ l. lexed_view l ≡ lexed_of source.now) }
    ensures fault { length source.now ≤ MOST_UNITS → IfErr result (λ f. f ≡ Memory) }
{
    if source.len() > MOST_UNITS {
        return Err(ParseFault::TooLong {
            units: source.len(),
        });
    }
    read_tokens(alloc, Tokens::new(source)).map_err(|_| ParseFault::Memory)
}

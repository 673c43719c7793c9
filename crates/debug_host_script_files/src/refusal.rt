//! What is told of the parser's faults.

ghost use Rattle.std.specs.Prelude.{◌≡◌};
ghost use Rattle.debug_host_script_files.specs.Refusals.{refusal_of, StandsWithin};

use crate::fault::TextFault;
use cdp_text::position::pos_at;
use js_parser_readers::fault::ParseFault;

/// What is told of a fault that the parser finds in a source; None for want of memory.
pub(crate) fn refusal_of(source: &[u16], fault: ParseFault) -> Option<TextFault>
    requires { StandsWithin source.now fault }
    ensures { result ≡ refusal_of source.now fault }
{
    match fault {
        ParseFault::TooLong { units } => Some(TextFault::TooLong(units)),
        ParseFault::Token { at } => Some(TextFault::UnexpectedToken(pos_at(source, at))),
        ParseFault::Syntax { at } => Some(TextFault::UnexpectedToken(pos_at(source, at))),
        ParseFault::TooMany { .. } => Some(TextFault::TooManyTokens),
        ParseFault::TooDeep => Some(TextFault::TooDeep),
        ParseFault::Memory => None,
    }
}

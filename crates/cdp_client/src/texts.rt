//! The texts that are sent, and the lines that are written.

ghost use Rattle.std.specs.Prelude.{◌≡◌, ◌++◌, ◌∷◌, [], IfOk, OnOk, string_bytes};
ghost use Rattle.std.specs.Option.{option_map};
ghost use Rattle.json.specs.Print.{quoted};
ghost use Rattle.cdp_text.specs.Lines.{ended};
ghost use Rattle.cdp_journal.specs.Escapes.{escaped};
ghost use Rattle.cdp_client.specs.ArrivalRead.{arrival_held};
ghost use Rattle.cdp_client.specs.Arrivals.{front_of, line_written};
ghost use Rattle.cdp_client.specs.LineRead.{command_held};
ghost use Rattle.cdp_client.specs.Talks.{command_text, params_text};

use crate::arrival::ArrivedText;
use crate::line::Command;
use cdp_journal::push_escaped;
use std::alloc::{AllocError, Global};

/// Puts a text in quotes and with its escapes after others.
fn put_quoted(out: &mut String, text: &str) -> Result<(), AllocError>
    ensures { OnOk result (string_bytes out.new ≡ string_bytes out.old ++ quoted text.now) }
{
    match serde_json::to_string(*out.allocator(), &text) {
        Ok(piece) => out.push_str(piece.as_str()),
        Err(_) => Err(AllocError),
    }
}

/// Puts the member `params` after others, where there are parameters.
fn put_params(out: &mut String, params: Option<&str>) -> Result<(), AllocError>
    ensures { OnOk result
        (string_bytes out.new ≡ string_bytes out.old ++ params_text (option_map (λ text. text.now) params.entry)) }
{
    match params {
        Some(params) => write!(out, ",\"params\":{params}"),
        None => Ok(()),
    }
}

/// The text of a command: `{"id":..,"method":..}`, with its `params` where it has parameters.
pub(crate) fn command_text(alloc: Global, command: &Command<'_>) -> Result<String, AllocError>
    ensures { IfOk result (λ text. string_bytes text ≡ command_text (command_held command.now)) }
{
    let id = command.id;
    let mut text = format!(in alloc; "{{\"id\":{id},\"method\":")?;
    put_quoted(&mut text, command.method)?;
    put_params(&mut text, command.params)?;
    text.push('}')?;
    Ok(text)
}

/// What stands before a text that arrives on its line: `reply N METHOD `, `event ` or `other `.
fn front_of(alloc: Global, arrival: &ArrivedText<'_, '_>) -> Result<String, AllocError>
    ensures { IfOk result (λ front. string_bytes front ≡ front_of (arrival_held arrival.now)) }
{
    match arrival {
        ArrivedText::Reply(command) => {
            let id = command.id;
            let method = command.method;
            format!(in alloc; "reply {id} {method} ")
        }
        ArrivedText::Event(_) => String::from_str(alloc, "event "),
        ArrivedText::Other => String::from_str(alloc, "other "),
    }
}

/// Puts a text after others, with `%25`, `%0A` and `%0D` for `%`, LF and CR, and ends the line.
fn put_rest(line: &mut String, text: &str) -> Result<(), AllocError>
    ensures { OnOk result (string_bytes line.new ≡ string_bytes line.old ++ ended (escaped text.now ∷ [])) }
{
    push_escaped(line, text)?;
    line.push('\n')
}

/// The line that is written of a text that arrives, with its LF.
pub(crate) fn line_written(
    alloc: Global,
    arrival: &ArrivedText<'_, '_>,
    text: &str,
) -> Result<String, AllocError>
    ensures { IfOk result (λ line. string_bytes line ≡ ended (line_written (arrival_held arrival.now) text.now ∷ [])) }
{
    let mut line = front_of(alloc, arrival)?;
    put_rest(&mut line, text)?;
    Ok(line)
}

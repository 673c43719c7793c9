//! The words of a command line.

ghost use Rattle.std.specs.Prelude.{◌≡◌, ◌∷◌, List, ℕ, map, string_bytes, IfOk, IfSome, Some};
ghost use Rattle.std.specs.Option.{option_map};
ghost use Rattle.debug_host_options.specs.Requests.{Request as Meant, alone, asked, asks_help, command_words, form_by, is_help, request_of};
ghost use Rattle.debug_host_options.specs.Held.{parts_held, request_held};
ghost use Rattle.debug_host_options.specs.Written.{AsksFor};

use crate::command::{Subcommand, command_named};
use crate::given::{has_repeat, operands_of};
use crate::part::{Part, read_parts};
use crate::request::{Request, command_of};
use std::alloc::{AllocError, Global};

/// What the words after the program's name ask for: a command by its name, with its options and operands, `--help` or
/// `-h` alone or after a command's name, or `--version` alone. None for all other words.
///
/// An option is `--name value` or `--name=value`, stands anywhere after the command's name and before `--`, and is given
/// at most once; after `--` all words are operands. In the form `--name value` the value doesn't begin with `-`, unless
/// it is `-` alone. A number is in its shortest decimal form, from 1 to the greatest that the option has.
///
/// # Errors
///
/// There is no memory for the list of the words' parts, or for that of the operands.
pub fn read_words(alloc: Global, words: &[String]) -> Result<Option<Request<'_>>, AllocError>
    ensures value { IfOk result (λ request. option_map request_held request ≡ asked words.now) }
    ensures is { IfOk result (λ read. IfSome read (λ request. AsksFor (map string_bytes words.now) (request_held request))) }
    ensures one { IfOk result (λ read. (request : Meant) → AsksFor (map string_bytes words.now) request → option_map request_held read ≡ Some request) }
{
    read_form(alloc, words)
}

/// What words ask for.
fn read_form(alloc: Global, words: &[String]) -> Result<Option<Request<'_>>, AllocError>
    ensures { IfOk result (λ request. option_map request_held request ≡ asked words.now) }
{
    match words {
        [] => Ok(None),
        [word, rest @ ..] => read_after(alloc, word.as_str(), rest),
    }
}

/// What words ask for, by the first of them and those after it.
fn read_after<'w>(
    alloc: Global,
    word: &str,
    words: &'w [String],
) -> Result<Option<Request<'w>>, AllocError>
    ensures { IfOk result (λ request. option_map request_held request ≡ form_by word.now (map string_bytes words.now)) }
{
    if is_help(word) {
        Ok(alone(Request::Help(None), words))
    } else if word == "--version" {
        Ok(alone(Request::Version, words))
    } else {
        match command_named(word) {
            None => Ok(None),
            Some(command) => read_command(alloc, command, words),
        }
    }
}

/// What is asked for, where no word is left.
fn alone<'w>(request: Request<'w>, words: &[String]) -> Option<Request<'w>>
    ensures { option_map request_held result ≡ alone (request_held request.entry) (map string_bytes words.now) }
{
    match words {
        [] => Some(request),
        [_, ..] => None,
    }
}

/// What the words after a command's name ask for.
fn read_command<'w>(
    alloc: Global,
    command: Subcommand,
    words: &'w [String],
) -> Result<Option<Request<'w>>, AllocError>
    ensures { IfOk result (λ request. option_map request_held request ≡ command_words command (map string_bytes words.now)) }
{
    if asks_help(words) {
        return Ok(Some(Request::Help(Some(command))));
    }
    match read_parts(alloc, command, words)? {
        None => Ok(None),
        Some(parts) => read_request(alloc, command, &parts),
    }
}

/// What a command's parts ask for.
fn read_request<'w>(
    alloc: Global,
    command: Subcommand,
    parts: &[Part<'w>],
) -> Result<Option<Request<'w>>, AllocError>
    ensures { IfOk result (λ request. option_map request_held request ≡ request_of command (parts_held parts.now)) }
{
    if has_repeat(parts) {
        Ok(None)
    } else {
        Ok(command_of(command, parts, operands_of(alloc, parts)?))
    }
}

/// Whether the words after a command's name are one that asks for help.
fn asks_help(words: &[String]) -> bool
    ensures { result ≡ asks_help (map string_bytes words.now) }
{
    match words {
        [] => false,
        [word] => is_help(word.as_str()),
        [_, _, ..] => false,
    }
}

/// Whether a word asks for help.
fn is_help(word: &str) -> bool
    ensures { result ≡ is_help word.now }
{
    word == "--help" || word == "-h"
}

//! The script that bytes are.

ghost use Rattle.std.specs.Prelude.{◌≡◌, ◌+◌, IfOk, IfErr, IfSome};
ghost use Rattle.debug_host_script_files.specs.Scripts.{IsScriptOf, FailsAs};
ghost use Rattle.debug_host_script_files.specs.Refusals.{refusal_of, fault_told, StandsWithin};

use crate::fault::{FileFault, TextFault};
use crate::refusal::refusal_of;
use cdp_text::units::{Units, units_of};
use js_parser::parse::parse_script;
use js_parser_readers::fault::ParseFault;
use js_tree::script::Script;
use std::alloc::Global;

/// The script of these bytes, under this name, behind so many scripts that declare these names.
///
/// # Errors
///
/// `Refused` where they aren't UTF-8, or where the parser refuses what they spell, and `Memory`.
pub fn script_of(
    alloc: Global,
    bytes: &[u8],
    name: &str,
    before: usize,
    declared: &[Units],
) -> Result<Script, FileFault>
    ensures script { IfOk result (λ s. IsScriptOf declared.now before name.now bytes.now s) }
    ensures fault { IfErr result (λ fault. FailsAs fault declared.now bytes.now) }
{
    let Ok(text) = str::from_utf8(bytes) else {
        return Err(FileFault::Refused(TextFault::NotUtf8));
    };
    let Ok(source) = units_of(alloc, text) else {
        return Err(FileFault::Memory);
    };
    let Some(number) = number_behind(before) else {
        return Err(FileFault::Memory);
    };
    match parse_script(alloc, source.as_slice(), name, number, declared) {
        Ok(script) => Ok(script),
        Err(fault) => Err(fault_of(source.as_slice(), fault)),
    }
}

/// The number of a script behind so many.
fn number_behind(before: usize) -> Option<u32>
    ensures { IfSome result (λ number. number ≡ before + 1) }
{
    u32::try_from(before).ok()?.checked_add(1)
}

/// What is told of the fault of a source.
fn fault_of(source: &[u16], fault: ParseFault) -> FileFault
    requires { StandsWithin source.now fault }
    ensures { result ≡ fault_told (refusal_of source.now fault) }
{
    match refusal_of(source, fault) {
        Some(refusal) => FileFault::Refused(refusal),
        None => FileFault::Memory,
    }
}

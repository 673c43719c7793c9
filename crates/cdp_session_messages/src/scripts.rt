//! What a session is told of the scripts (Chrome DevTools Protocol 1.3, `Debugger.scriptParsed`).

ghost use Rattle.std.specs.Prelude.{◌≡◌, length, map, string_bytes, IfOk};
ghost use Rattle.cdp_text.specs.Position.{position};
ghost use Rattle.cdp_json.specs.Json as json;
ghost use Rattle.cdp_json.specs.Views.{json_view, member_view};
ghost use Rattle.cdp_session_messages.specs.Scripts as parsed;

use crate::members::put_number;
use cdp_json::event_text;
use cdp_json::parts::{ascii_text, put_copied_text, put_value, script_id};
use cdp_json::value::{Json, Member, object};
use cdp_text::position::{Pos, pos_at};
use cdp_text::units::text_of;
use js_tree::script::Script;
use sha2::{Digest, Sha256};
use std::alloc::{AllocError, Global};

/// The hash of a source: the SHA-256 of its UTF-8 (FIPS 180-4), in lower-case hexadecimal digits.
fn source_hash(alloc: Global, source: &[u16]) -> Result<Json, AllocError>
    ensures { IfOk result (λ j. json_view j ≡ json.text (parsed.source_hash source.now)) }
{
    let text = text_of(alloc, source)?;
    let digest = Sha256::digest(text.as_bytes());
    let digits = hex::encode(alloc, digest)?;
    ascii_text(alloc, digits.as_bytes())
}

/// Where a source ends. AllocError also where it is too long for positions of 32 bits; no parsed script is.
fn end_of(source: &[u16]) -> Result<Pos, AllocError>
    ensures { IfOk result (λ pos. pos ≡ position source.now (length source.now)) }
{
    if source.len() > u32::MAX as usize {
        return Err(AllocError);
    }
    Ok(pos_at(source, source.len()))
}

/// The members that say where a script ends, in which context it runs, its hash, its id, where it starts, and its URL.
fn script_members(alloc: Global, script: &Script) -> Result<Vec<Member>, AllocError>
    ensures { IfOk result (λ ms. map member_view ms.items ≡ parsed.script_pairs script.now) }
{
    let source = script.source.as_slice();
    let end = end_of(source)?;
    let mut members = Vec::new(alloc);
    put_number(alloc, &mut members, b"endColumn", u64::from(end.col))?;
    put_number(alloc, &mut members, b"endLine", u64::from(end.line))?;
    put_number(alloc, &mut members, b"executionContextId", 1)?;
    let hash = source_hash(alloc, source)?;
    put_value(alloc, &mut members, b"hash", hash)?;
    let id = script_id(alloc, script.number)?;
    put_value(alloc, &mut members, b"scriptId", id)?;
    put_number(alloc, &mut members, b"startColumn", 0)?;
    put_number(alloc, &mut members, b"startLine", 0)?;
    put_copied_text(alloc, &mut members, b"url", script.url.as_slice())?;
    Ok(members)
}

/// What `Debugger.scriptParsed` says of a script.
fn script_params(alloc: Global, script: &Script) -> Result<Json, AllocError>
    ensures { IfOk result (λ j. json_view j ≡ parsed.script_params script.now) }
{
    let members = script_members(alloc, script)?;
    Ok(object(members))
}

/// The event `Debugger.scriptParsed` of a script.
fn script_parsed_text(alloc: Global, script: &Script) -> Result<String, AllocError>
    ensures { IfOk result (λ t. string_bytes t ≡ parsed.script_parsed_text script.now) }
{
    let params = script_params(alloc, script)?;
    event_text(alloc, "Debugger.scriptParsed", &params)
}

/// The events of all scripts, in order.
fn script_texts(alloc: Global, scripts: &[Script]) -> Result<Vec<String>, AllocError>
    ensures { IfOk result (λ ts. map string_bytes ts.items ≡ map parsed.script_parsed_text scripts.now) }
{
    let mut texts = Vec::with_capacity(alloc, scripts.len())?;
    for script in scripts {
        texts.push(script_parsed_text(alloc, script)?)?;
    }
    Ok(texts)
}

/// What enabling the debugger tells of the scripts: nothing where it was enabled.
pub fn scripts_told(
    alloc: Global,
    scripts: &[Script],
    enabled: bool,
) -> Result<Vec<String>, AllocError>
    ensures { IfOk result (λ ts. map string_bytes ts.items ≡ parsed.scripts_told scripts.now enabled) }
{
    if enabled {
        Ok(Vec::new(alloc))
    } else {
        script_texts(alloc, scripts)
    }
}

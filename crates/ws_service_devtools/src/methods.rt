//! Which commands are answered with an empty result.

ghost use Rattle.std.specs.Prelude.{◌≡◌};
ghost use Rattle.std.specs.Option.{option_map};
ghost use Rattle.serde_json.specs.View.{items_view, view};
ghost use Rattle.cdp_json.specs.Commands.{id_of};
ghost use Rattle.ws_service_devtools.specs.Texts.{answered_by, answered_id, answers_method, is_answered, lists_nothing, sets_no_pattern};

use serde_json::Value;

/// Whether a method of this name is answered, whatever its parameters are.
fn is_answered(name: &str) -> bool
    ensures { result ≡ is_answered name.now }
{
    match name {
        "Profiler.enable" => true,
        "Profiler.disable" => true,
        "Profiler.setSamplingInterval" => true,
        "HeapProfiler.enable" => true,
        "Runtime.getIsolateId" => true,
        "Runtime.discardConsoleEntries" => true,
        "Runtime.compileScript" => true,
        "Network.enable" => true,
        "Network.configureDurableMessages" => true,
        "Network.setAttachDebugStack" => true,
        "Network.setBlockedURLs" => true,
        "Network.overrideNetworkState" => true,
        "Page.enable" => true,
        "Log.enable" => true,
        _ => false,
    }
}

/// Whether these patterns are a list without items.
#[tactic(auto, using(crate::proofs::ListLemmas::lists_nothing_items))]
fn lists_nothing(patterns: Option<&Vec<Value>>) -> bool
    ensures { result ≡ lists_nothing (option_map (λ items. items_view items.now.items) patterns.entry) }
{
    match patterns {
        Some(items) => items.len() == 0,
        None => false,
    }
}

/// Whether a command of this method sets an empty list of blackbox patterns.
fn sets_no_pattern(name: &str, command: &Value) -> bool
    ensures { result ≡ sets_no_pattern name.now (view command.now) }
{
    if name != "Debugger.setBlackboxPatterns" {
        return false;
    }
    let patterns = command
        .get("params")
        .and_then(|params| params.get("patterns"));
    lists_nothing(patterns.and_then(Value::as_array))
}

/// The id of a command: an integer from 0 to 2^53-1.
fn id_of(command: &Value) -> Option<u64>
    ensures { result ≡ id_of (view command.now) }
{
    let id = command.get("id").and_then(Value::as_u64)?;
    (id < 1 << 53).then_some(id)
}

/// The id of a command, where it is answered.
pub(crate) fn answered_id(command: &Value) -> Option<u64>
    ensures { result ≡ answered_id (view command.now) }
{
    let name = command.get("method").and_then(Value::as_str)?;
    if is_answered(name) || sets_no_pattern(name, command) {
        id_of(command)
    } else {
        None
    }
}

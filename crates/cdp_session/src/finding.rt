//! The script that a command names, found by its id.

ghost use Rattle.std.specs.Prelude.{◌≡◌, bytes_eq, decimal, slice_get, IfOk, Some, option_map};
ghost use Rattle.locations.specs.Locations.{break_locations};
ghost use Rattle.cdp_session.specs.Situations.{HasSpots, script_of};
ghost use Rattle.cdp_session.specs.Finding.{Finds, found_script};

use crate::done::Fault;
use crate::found::FoundScript;
use crate::program::Program;
use crate::situation::Situation;
use breakpoints::ScriptSpots;
use cdp_json::refusal::Refusal;
use cdp_text::units::{Units, decimal_units};
use js_tree::script::Script;
use std::alloc::{AllocError, Global};

/// Whether an id is that of the script of this number: the number as a decimal.
fn is_id(alloc: Global, number: u32, id: &[u16]) -> Result<bool, AllocError>
    ensures { IfOk result (λ is. is ≡ bytes_eq (decimal number) id.now) }
{
    let text = decimal_units(alloc, number as usize)?;
    Ok(text.as_slice() == id)
}

/// The script at this place of the list with its break locations.
fn with_spots<'p>(
    script: &'p Script,
    spots: &'p ScriptSpots,
    index: usize,
) -> Option<FoundScript<'p>>
    requires { slice_get spots.now index ≡ Some (break_locations script.now) }
    ensures { option_map found_script result ≡ Some script.now }
{
    let spots = spots.get(index)?;
    Some(FoundScript { script, spots })
}

/// The first script of an id, if there is one.
fn first_script<'p, P: Program>(
    alloc: Global,
    situation: &Situation<'p, P>,
    id: &[u16],
) -> Result<Option<FoundScript<'p>>, AllocError>
    requires { HasSpots situation.now }
    ensures { IfOk result (λ found. option_map found_script found ≡ script_of id.now situation.now.scripts.now) }
{
    let scripts = situation.scripts;
    for (index, script) in scripts.iter().enumerate() {
        if is_id(alloc, script.number, id)? {
            return Ok(with_spots(script, situation.spots, index));
        }
    }
    Ok(None)
}

/// The first script of an id. It is refused where there is none.
pub(crate) fn find_script<'p, P: Program>(
    alloc: Global,
    situation: &Situation<'p, P>,
    id: Units,
) -> Result<FoundScript<'p>, Fault>
    requires { HasSpots situation.now }
    ensures { Finds result id situation.now.scripts.now }
{
    match first_script(alloc, situation, id.as_slice())? {
        Some(found) => Ok(found),
        None => Err(Fault::Refused(Refusal::UnknownScript { script_id: id })),
    }
}

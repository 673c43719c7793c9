//! Where a step leaves a machine, in the words of the rules by which it is stopped. Nothing here takes memory.

ghost use Rattle.std.specs.Prelude.{◌≡◌, ◌-◌, ℕ, List, slice_get, option_and_then, option_map};
ghost use Rattle.js_machine_nodes.specs.Trees.{IsTable};
ghost use Rattle.js_machine_inspection.specs.Catchers.{standing_throw};
ghost use Rattle.js_machine_engine.specs.Points.{term_at, IsAt};
ghost use Rattle.frames_scopes.specs.Places.{starts_of};
ghost use Rattle.cdp_host.specs.Arrivals.{arrival_at, is_uncaught, place_at, place_in, place_of, script_in, IsShort};
ghost use Rattle.cdp_host.specs.Hosts.{machine_arrival, AreLines};

use cdp_text::line_table::LineTable;
use cdp_text::position::Place;
use js_machine::machine::Machine;
use js_machine_actions::context::Context;
use js_machine_engine::stack::Stack;
use js_machine_engine::task::Point;
use js_machine_inspection::arrivals::{arrival, is_at_debugger};
use js_machine_inspection::frames::depth;
use js_machine_inspection::standing::Thrown;
use js_machine_inspection::throws::thrown;
use js_machine_nodes::table::NodeTable;
use js_semantics::form::{Mark, Source};
use js_semantics::offsets::offset_of;
use js_tree::script::Script;
use stepping::Arrival;

/// The place of a mark in a script whose lines begin so.
fn place_in(script: &Script, lines: &LineTable, mark: Mark) -> Place
    requires starts { lines.now ≡ starts_of script.now }
    requires short { IsShort script.now }
    ensures { result ≡ place_in mark script.now }
{
    let offset = offset_of(script, mark);
    Place {
        script: script.number,
        pos: lines.pos_at(script.source.as_slice(), offset),
    }
}

/// The place of the script that a source is in the list of scripts, if it is one.
fn index_of(scripts: &[Script], source: Source) -> Option<usize>
    ensures { option_and_then (slice_get scripts.now) result ≡ script_in scripts.now source }
{
    match source {
        Source::Script(number) => (number as usize).checked_sub(1),
        Source::Kept(_) => None,
    }
}

/// The place of a mark in the script at this place of the list, if there is one.
fn place_at_index(
    scripts: &[Script],
    lines: &[LineTable],
    index: usize,
    mark: Mark,
) -> Option<Place>
    requires { AreLines scripts.now lines.now }
    ensures { result ≡ option_map (place_in mark) (slice_get scripts.now index) }
{
    let script = scripts.get(index)?;
    let lines = lines.get(index)?;
    Some(place_in(script, lines, mark))
}

/// The place of a mark in a source, where that is a script.
pub(crate) fn place_of(
    scripts: &[Script],
    lines: &[LineTable],
    source: Source,
    mark: Mark,
) -> Option<Place>
    requires { AreLines scripts.now lines.now }
    ensures { result ≡ place_of scripts.now source mark }
{
    place_at_index(scripts, lines, index_of(scripts, source)?, mark)
}

/// The place of a mark in a source, if there is a mark and the source is a script.
fn place_at(
    scripts: &[Script],
    lines: &[LineTable],
    source: Source,
    mark: Option<Mark>,
) -> Option<Place>
    requires { AreLines scripts.now lines.now }
    ensures { result ≡ place_at scripts.now source mark }
{
    place_of(scripts, lines, source, mark?)
}

/// Whether a throw that stands is uncaught, if one does.
fn raised(thrown: Option<Thrown>) -> Option<bool>
    ensures { result ≡ option_map is_uncaught (standing_throw thrown) }
{
    match thrown {
        Some(thrown) => Some(thrown.uncaught),
        None => None,
    }
}

/// Where the step that led there left the parts of a machine whose run isn't over.
pub(crate) fn arrival_at(
    scripts: &[Script],
    lines: &[LineTable],
    table: &NodeTable,
    context: &Context,
    stack: &Stack,
    point: Point,
) -> Arrival
    requires lines { AreLines scripts.now lines.now }
    requires table { IsTable table.now }
    requires at { IsAt table.now stack.now point }
    ensures { (names : List (List ℕ)) → result ≡ arrival_at scripts.now (term_at names table.now stack.now point) context.now.frames }
{
    let mark = arrival(table, scripts, context, stack, point);
    Arrival {
        place: place_at(scripts, lines, context.spot_of().source, mark),
        depth: depth(context),
        debugger: is_at_debugger(table, stack, point),
        raised: raised(thrown(stack, point)),
    }
}

/// Where the step that led there left a machine.
pub(crate) fn arrival_of(machine: &Machine, scripts: &[Script], lines: &[LineTable]) -> Arrival
    requires { AreLines scripts.now lines.now }
    ensures { result ≡ machine_arrival scripts.now machine.now }
{
    Arrival {
        place: place_at(scripts, lines, machine.source(), machine.at(scripts)),
        depth: machine.depth(),
        debugger: machine.at_debugger(),
        raised: raised(machine.thrown()),
    }
}

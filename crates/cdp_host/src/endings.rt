//! How the run of a machine ended. Nothing here takes memory.

ghost use Rattle.std.specs.Prelude.{◌≡◌, ℕ, List};
ghost use Rattle.js_machine.specs.Machines.{IsKept};
ghost use Rattle.js_machine_engine.specs.Stepping.{finish_of};
ghost use Rattle.js_heap_memory.specs.Heaps.{Heap};
ghost use Rattle.cdp_host.specs.Hosts.{machine_run, AreLines};
ghost use Rattle.cdp_host.specs.Standings.{ending_by, ending_of, place_or_nowhere};

use crate::arrival::place_of;
use cdp_session::Ending;
use cdp_text::line_table::LineTable;
use cdp_text::position::{Place, Pos};
use js_machine::machine::Machine;
use js_machine_engine::stepped::Finish;
use js_tree::script::Script;

/// This place, or nowhere: script 0.
fn place_or_nowhere(place: Option<Place>) -> Place
    ensures { result ≡ place_or_nowhere place }
{
    match place {
        Some(place) => place,
        None => Place {
            script: 0,
            pos: Pos { line: 0, col: 0 },
        },
    }
}

/// How a run ended.
fn ending_by(scripts: &[Script], lines: &[LineTable], finish: Finish) -> Ending
    requires { AreLines scripts.now lines.now }
    ensures { result ≡ ending_by scripts.now (finish_of finish) }
{
    match finish {
        Finish::Ended(_) => Ending::Finished,
        Finish::Threw(value, spot) => Ending::Threw {
            value,
            place: place_or_nowhere(place_of(scripts, lines, spot.source, spot.mark)),
        },
    }
}

/// How the run of a machine that wasn't given up has ended, if it has.
pub(crate) fn ending_of(
    machine: &Machine,
    scripts: &[Script],
    lines: &[LineTable],
) -> Option<Ending>
    requires lines { AreLines scripts.now lines.now }
    requires kept { IsKept machine.now.ended }
    ensures { (heap : Heap) (taken : List (List ℕ)) → result ≡ ending_of scripts.now (machine_run machine.now heap taken) }
{
    match machine.finished() {
        Some(finish) => Some(ending_by(scripts, lines, finish)),
        None => match machine.end() {
            Some(_) => Some(Ending::Finished),
            None => None,
        },
    }
}

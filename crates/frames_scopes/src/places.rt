//! Where marks are.

ghost use Rattle.std.specs.Prelude.{◌≡◌, ◌^◌, ◌<◌, length, map, option_map, All, IfSome, Some};
ghost use Rattle.std.specs.List.{Contains};
ghost use Rattle.cdp_text.specs.Position.{line_starts};
ghost use Rattle.frames_scopes.specs.Places.{pos_in, shown_place, starts_of};
ghost use Rattle.js_tree.specs.Scripts.{script_numbered};

use cdp_text::line_table::LineTable;
use cdp_text::position::{Place, Pos};
use js_semantics::form::{Mark, Source};
use js_semantics::offsets::offset_of;
use js_tree::script::Script;

/// The line and the column of a mark of a script.
fn pos_in(script: &Script, lines: &LineTable, mark: Mark) -> Pos
    requires lines { lines.now ≡ line_starts script.now.source }
    requires short { length script.now.source < 2 ^ 32 }
    ensures { result ≡ pos_in (Some script.now) mark }
{
    lines.pos_at(script.source.as_slice(), offset_of(script, mark))
}

/// The script of a number, with its lines.
fn numbered<'m>(
    scripts: &'m [Script],
    lines: &'m [LineTable],
    number: u32,
) -> Option<(&'m Script, &'m LineTable)>
    requires { lines.now ≡ map starts_of scripts.now }
    ensures script { option_map (λ found. found.0.now) result ≡ script_numbered scripts.now number }
    ensures lines { IfSome result (λ found. found.1.now ≡ line_starts found.0.now.source) }
    ensures among { IfSome result (λ found. Contains scripts.now found.0.now) }
{
    if number == 0 {
        return None;
    }
    let index = number as usize - 1;
    match (scripts.get(index), lines.get(index)) {
        (Some(script), Some(lines)) => Some((script, lines)),
        _ => None,
    }
}

/// The place that is shown of a mark in a source, by the lines of the scripts; what isn't in a script is shown at the
/// beginning of none.
pub(crate) fn shown_place(
    scripts: &[Script],
    lines: &[LineTable],
    source: Source,
    mark: Mark,
) -> Place
    requires lines { lines.now ≡ map starts_of scripts.now }
    requires short { All (λ s. length s.source < 2 ^ 32) scripts.now }
    ensures { result ≡ shown_place scripts.now source mark }
{
    let Source::Script(number) = source else {
        return Place {
            script: 0,
            pos: Pos { line: 0, col: 0 },
        };
    };
    let pos = match numbered(scripts, lines, number) {
        Some((script, lines)) => pos_in(script, lines, mark),
        None => Pos { line: 0, col: 0 },
    };
    Place {
        script: number,
        pos,
    }
}

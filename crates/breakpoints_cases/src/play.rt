//! Plays the changes of a file.

ghost use Rattle.std.specs.Prelude.{◌≡◌, map};
ghost use Rattle.locations.specs.Locations.{break_locations};

use crate::change::change_in;
use crate::table::Table;
use breakpoints::ScriptSpots;
use js_tree::script::Script;
use std::alloc::Global;
use std::slice;

/// Plays a change of a line, and tells what is wrong after it.
fn play_line<R: Print>(
    rt: &R,
    table: &mut Table,
    scripts: &[Script],
    spots: &ScriptSpots,
    line: &str,
    number: usize,
) -> anyhow::Result<()>
    requires { spots.now ≡ map break_locations scripts.now }
{
    let Some(change) = change_in(line) else {
        println!(rt; "line {number} is no change")?;
        return Ok(());
    };
    table.apply(scripts, spots, change)?;
    let wrong = table.wrong();
    if wrong > 0 {
        println!(rt; "after change {number} the index answers otherwise at {wrong} places")?;
    }
    Ok(())
}

/// Plays the changes of a text, one a line, to breakpoints of a script.
pub(crate) fn play<R: Print>(
    rt: &R,
    alloc: Global,
    script: &Script,
    changes: &str,
) -> anyhow::Result<()> {
    anyhow::ensure!(
        script.source.as_slice().len() < 1 << 32,
        "the script is too long"
    );
    let scripts = slice::from_ref(script);
    let spots = ScriptSpots::of(alloc, scripts)?;
    let mut table = Table::new(alloc)?;
    let mut count: usize = 0;
    for line in changes.lines() {
        count = count.saturating_add(1);
        play_line(rt, &mut table, scripts, &spots, line, count)?;
    }
    let pairs = table.pairs();
    println!(rt; "{count} changes, {pairs} places held at the end")?;
    Ok(())
}

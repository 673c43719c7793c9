//! The summary of a replay's output.

ghost use Rattle.std.specs.Prelude.{◌≡◌, ◌+◌, ◌++◌, ◌∷◌, [], IfOk, OnOk, option_to_list};
ghost use Rattle.std.specs.Option.{option_map};
ghost use Rattle.cdp_text.specs.Lines.{ended};
ghost use Rattle.cdp_journal.specs.RanRead.{ran_held};
ghost use Rattle.cdp_journal.specs.Summaries.{IsInRange, both, ran_of, ran_tally, summary, tally_of, tally_text};

use crate::parts::behind;
use cdp_text::decimal::read_decimal_units;
use cdp_text::lines::cut_line;
use cdp_text::parts::unit_halves;
use std::alloc::{AllocError, Global};
use std::marker::Model;

/// A run of which a line tells.
#[derive(Clone, Copy)]
struct RunLine<'o> {
    steps: u64,
    state: &'o [u8],
}

/// What lines of output come to.
#[derive(Drop)]
struct Tally {
    printed: Vec<u8>,
    steps: u128,
    stops: u64,
    first: u64,
    second: u64,
}

impl Model for Tally {
    ghost use Rattle.cdp_journal.specs.Summaries.{Tally as Meant};

    ghost Value = { Meant };

    ghost view = { λ t. record {
      printed = t.printed.items;
      steps = t.steps;
      stops = t.stops;
      first = t.first;
      second = t.second;
    } };
}

impl Tally {
    /// Of no lines. It takes no memory.
    fn new(alloc: Global) -> Tally
        ensures { result ≡ tally_of [] }
    {
        Tally {
            printed: Vec::new(alloc),
            steps: 0,
            stops: 0,
            first: 0,
            second: 0,
        }
    }

    /// Adds a line behind the others.
    fn add(&mut self, line: &[u8]) -> Result<(), AllocError>
        requires { IsInRange (both self.old (tally_of (line.now ∷ []))) }
        ensures { OnOk result (self.new ≡ both self.old (tally_of (line.now ∷ []))) }
    {
        if behind(line, b"out ").is_some() {
            return self.add_printed(line);
        }
        if let Some(told) = behind(line, b"ran ") {
            self.add_run(told);
        } else if behind(line, b"to 1 ").is_some() {
            self.first += 1;
        } else if behind(line, b"to 2 ").is_some() {
            self.second += 1;
        }
        Ok(())
    }

    /// Adds a line that was printed.
    fn add_printed(&mut self, line: &[u8]) -> Result<(), AllocError>
        ensures { OnOk result (self.new ≡ record self.old { printed = self.old.printed ++ ended (line.now ∷ []) }) }
    {
        self.printed.extend_from_slice(line)?;
        self.printed.push(b'\n')?;
        Ok(())
    }

    /// Adds the run of which a line tells so.
    fn add_run(&mut self, told: &[u8])
        requires { IsInRange (both self.old (ran_tally (option_to_list (ran_of told.now)))) }
        ensures { self.new ≡ both self.old (ran_tally (option_to_list (ran_of told.now))) }
    {
        if let Some(run) = read_run(told) {
            self.steps += u128::from(run.steps);
            self.stops += u64::from(run.state == b"paused".as_slice());
        }
    }

    /// The text.
    fn into_text(self, alloc: Global) -> Result<Vec<u8>, AllocError>
        ensures { IfOk result (λ text. text.items ≡ tally_text self) }
    {
        let Tally {
            printed,
            steps,
            stops,
            first,
            second,
        } = self;
        let counts = format!(in alloc;
            "steps {steps}\nstops {stops}\ntexts 1 {first}\ntexts 2 {second}\n"
        )?;
        let mut text = printed;
        text.extend_from_slice(counts.as_bytes())?;
        Ok(text)
    }
}

/// The run of which a line tells so: a number, a space and a state.
fn read_run(told: &[u8]) -> Option<RunLine<'_>>
    ensures { option_map ran_held result ≡ ran_of told.now }
{
    let (steps, state) = unit_halves(told, b' ')?;
    let steps = read_decimal_units(steps)?;
    Some(RunLine { steps, state })
}

/// The summary of a replay's output: its lines that begin with `out `, in order, and then in a line each how many steps
/// its runs made, how many of them ended paused, and how many texts the sessions 1 and 2 were sent, as `steps 194`,
/// `stops 5`, `texts 1 19` and `texts 2 4`. A line that begins with `ran ` and has no number, space and state behind
/// that counts nothing. Each line is ended by LF.
///
/// # Errors
///
/// There is no memory for the summary.
pub fn summary(alloc: Global, output: &[u8]) -> Result<Vec<u8>, AllocError>
    ensures { IfOk result (λ text. text.items ≡ summary output.now) }
{
    let mut tally = Tally::new(alloc);
    let mut rest = output;
    while let Some((line, after)) = cut_line(rest) {
        tally.add(line)?;
        rest = after;
    }
    tally.into_text(alloc)
}

//! A host and the record of its history.

ghost use Rattle.std.specs.Prelude.{◌≡◌, ◌∷◌, [], ◌||◌, not, ◌==◌, ℕ, List, false, true, IfSome};
ghost use Rattle.std.specs.List.{list_any};
ghost use Rattle.std.specs.Option.{option_map};
ghost use Rattle.cdp_journal.specs.Lines.{Attach, Tell, Take, Detach, Run, Shut};
ghost use Rattle.cdp_host_isolation.specs.Histories.{Entry as AnyEntry};
ghost use Rattle.cdp_host_isolation.specs.Makers.{entries_of};
ghost use Rattle.cdp_host_isolation.specs.Meanings.{begin};
ghost use Rattle.cdp_host_seats.specs.Losses.{is_for_memory};
ghost use Rattle.cdp_host_turns.specs.Entries.{lost_for_memory};
ghost use Rattle.cdp_host_record.specs.Records.{is_some_there, line_if, recorded};
ghost use Rattle.cdp_host_record.specs.Recordings.{AddsLines, AddsRun, IsCutShort, RecordsIf, ended_if, is_lost, told_lines};

use crate::record::Record;
use crate::recordable::Recordable;
use cdp_host_isolation::Loss;
use cdp_host_seats::SessionLost;
use cdp_host_turns::{Entry, Hosted, Ran, State, Told};
use history_lock::Standing;
use std::alloc::AllocError;

/// A host of which a record may be kept. Each call is the host's, and adds the line of its entry.
#[derive(Drop)]
pub struct Recorded<H> {
    host: H,
    journal: Option<Record>,
}

impl<H> Recorded<H> {
    /// This host, with this record of its history, or with none.
    pub fn new(host: H, journal: Option<Record>) -> Recorded<H>
        ensures host { result.host ≡ host }
        ensures journal { result.journal ≡ journal }
    {
        Recorded { host, journal }
    }

    /// The host.
    pub fn host(&self) -> &H
        ensures { result.now ≡ self.now.host }
    {
        &self.host
    }

    /// The host and its record.
    pub fn into_parts(self) -> (H, Option<Record>)
        ensures host { result.0 ≡ self.host }
        ensures journal { result.1 ≡ self.journal }
    {
        let Recorded { host, journal } = self;
        (host, journal)
    }
}

/// The record, if one is kept. Unless it is lost, it is that of the history for which the host stands; else it is cut
/// short at a line for which there was no memory.
pub fn journal_of<H: Recordable<B>, B>(host: &Recorded<H>) -> Option<&Record>
    ensures kept { option_map (λ kept. kept.now) result ≡ host.now.journal }
    ensures whole { IfSome result (λ kept. (h : List (ℕ × AnyEntry)) → RecordsIf H.debugs h host.now.journal
        → is_lost kept.now.state ≡ false
        → kept.now.bytes ≡ recorded H.debugs h) }
    ensures cut { IfSome result (λ kept. (h : List (ℕ × AnyEntry)) → RecordsIf H.debugs h host.now.journal
        → is_lost kept.now.state ≡ true
        → IsCutShort H.debugs.protocol (begin H.debugs.program H.debugs.wait) (entries_of h) kept.now.bytes) }
{
    host.journal.as_ref()
}

// ---- one entry

/// A session was attached.
fn add_attach(journal: &mut Option<Record>)
    ensures { AddsLines (Attach ∷ []) journal.old journal.new }
{
    if let Some(kept) = journal {
        kept.attach();
    }
}

/// This session was told a text, if it was attached, and answered so.
fn add_told(journal: &mut Option<Record>, told: Told, session: u64, text: &str, is_attached: bool)
    ensures { AddsLines (told_lines told is_attached session text.now) journal.old journal.new }
{
    match told {
        Told::Kept | Told::Overrun => add_tell(journal, session, text, is_attached),
        Told::Memory => add_detach(journal, session, is_attached),
    }
}

/// This session was told a text, if it was attached.
fn add_tell(journal: &mut Option<Record>, session: u64, text: &str, is_attached: bool)
    ensures { AddsLines (line_if is_attached (Tell session text.now)) journal.old journal.new }
{
    if is_attached {
        if let Some(kept) = journal {
            kept.tell(session, text);
        }
    }
}

/// Texts of this session were handed out, or none.
fn add_take(journal: &mut Option<Record>, session: u64, is_some: bool)
    ensures { AddsLines (line_if is_some (Take session)) journal.old journal.new }
{
    if is_some {
        if let Some(kept) = journal {
            kept.take(session);
        }
    }
}

/// This session was detached, if it was attached.
fn add_detach(journal: &mut Option<Record>, session: u64, is_attached: bool)
    ensures { AddsLines (line_if is_attached (Detach session)) journal.old journal.new }
{
    if is_attached {
        if let Some(kept) = journal {
            kept.detach(session);
        }
    }
}

/// Whether a run of so many steps has a line, where a report was owed before it, or wasn't.
fn is_told(steps: u64, is_owed: bool) -> bool
    ensures { result ≡ (not (steps == 0) || is_owed) }
{
    steps != 0 || is_owed
}

/// So many steps were made at a moment, and these sessions were lost; a report was owed before, or wasn't.
fn add_ran(
    journal: &mut Option<Record>,
    steps: u64,
    moment: u64,
    lost: &[SessionLost],
    is_owed: bool,
)
    ensures { AddsRun (is_some_there (lost_for_memory lost.now))
        (line_if (not (steps == 0) || is_owed) (Run steps moment)) journal.old journal.new }
{
    if some_for_memory(lost) {
        add_memory(journal);
    } else {
        add_run(journal, steps, moment, is_told(steps, is_owed));
    }
}

/// So many steps were made at a moment, if there is a line to tell that.
fn add_run(journal: &mut Option<Record>, steps: u64, moment: u64, is_told: bool)
    ensures { AddsLines (line_if is_told (Run steps moment)) journal.old journal.new }
{
    if is_told {
        if let Some(kept) = journal {
            kept.run(steps, moment);
        }
    }
}

/// A session was lost for want of memory, which no line tells.
fn add_memory(journal: &mut Option<Record>)
    ensures { journal.new ≡ ended_if journal.old }
{
    if let Some(kept) = journal {
        kept.end();
    }
}

/// The program was shut.
fn add_shut(journal: &mut Option<Record>)
    ensures { AddsLines (Shut ∷ []) journal.old journal.new }
{
    if let Some(kept) = journal {
        kept.shut();
    }
}

/// Whether a loss is for want of memory.
fn is_for_memory(loss: Loss) -> bool
    ensures { result ≡ is_for_memory loss }
{
    match loss {
        Loss::Overrun => false,
        Loss::Memory => true,
    }
}

/// Whether one of these sessions was lost for want of memory.
fn some_for_memory(lost: &[SessionLost]) -> bool
    ensures { result ≡ list_any (λ one. is_for_memory one.loss) lost.now }
{
    lost.iter().any(|one| is_for_memory(one.loss))
}

/// Whether there are texts.
fn is_some(texts: &[String]) -> bool
    ensures { result ≡ is_some_there texts.now }
{
    !texts.is_empty()
}

// ---- the calls

impl<H: Recordable<B>, B> Standing<Entry, B> for Recorded<H> {
    ghost use Rattle.cdp_host_record.specs.Recordings.{RecordsIf};

    ghost stands = { λ recorded history. H.stands recorded.host history × RecordsIf H.debugs history recorded.journal };
}

impl<H: Recordable<B>, B> Hosted<B> for Recorded<H> {
    ghost debugs = { H.debugs };

    ghost attached = { λ recorded session. H.attached recorded.host session };

    ghost tells = { λ recorded. H.tells recorded.host };

    fn state(&self) -> State {
        self.host.state()
    }

    fn is_attached(&self, session: u64) -> bool {
        self.host.is_attached(session)
    }

    fn attach(&mut self) -> Result<u64, AllocError> {
        let session = self.host.attach()?;
        add_attach(&mut self.journal);
        Ok(session)
    }

    fn tell(&mut self, session: u64, text: &str) -> Told {
        let is_attached = self.host.means_attached(session);
        let told = self.host.tell(session, text);
        add_told(&mut self.journal, told, session, text, is_attached);
        told
    }

    fn take(&mut self, session: u64) -> Vec<String> {
        let texts = self.host.take(session);
        add_take(&mut self.journal, session, is_some(texts.as_slice()));
        texts
    }

    fn detach(&mut self, session: u64) -> Option<SessionLost> {
        let is_attached = self.host.means_attached(session);
        let lost = self.host.detach(session);
        add_detach(&mut self.journal, session, is_attached);
        lost
    }

    fn run(&mut self, most: u64, moment: u64) -> Result<Ran, Vec<SessionLost>> {
        let is_owed = self.host.owes_report();
        match self.host.run(most, moment) {
            Ok(ran) => {
                add_ran(
                    &mut self.journal,
                    ran.steps,
                    moment,
                    ran.lost.as_slice(),
                    is_owed,
                );
                Ok(ran)
            }
            Err(lost) => {
                add_ran(&mut self.journal, 0, moment, lost.as_slice(), is_owed);
                Err(lost)
            }
        }
    }

    fn shut(&mut self) {
        self.host.shut();
        add_shut(&mut self.journal);
    }
}

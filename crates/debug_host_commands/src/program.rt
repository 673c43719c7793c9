//! The program's one top call.

ghost use Rattle.std.specs.Prelude.{◌≡◌, ◌≢◌, ◌⊎◌, ◌<◌, ℕ, List, [], None, Some};
ghost use Rattle.cdp_edge.specs.Blame.{Blames, Read, Store};
ghost use Rattle.cdp_edge.specs.Outside.{Rose, Given, HandsIn, GainsPrefix, gains};
ghost use Rattle.cdp_client.specs.Lines.{Line};
ghost use Rattle.cdp_client.specs.declared.conversed.Conversed.TheVariants as talks;
ghost use Rattle.js_tree.specs.declared.script.Script.{Script};
ghost use Rattle.debug_host_script_files.specs.declared.fault.TextFault.{TextFault};
ghost use Rattle.cdp_journal.specs.Drills.{drill_source};
ghost use Rattle.debug_host_script_files.specs.Refusals.{IsRefused};
ghost use Rattle.debug_host_commands.specs.DrillCauses.{DrillRefuses, DrillsInPart, DrillsShort, DrillsWhole, script_name};
ghost use Rattle.debug_host_commands.specs.Files.{HoldsReplay, HoldsSources, IsNamed, IsNamedBy, IsReachedBy, IsReachedIn, IsRefusedBehind, IsRefusedIn};
ghost use Rattle.debug_host_commands.specs.ReplayCauses.{ReplaysInPart, ReplaysShort, ReplaysWhole};
ghost use Rattle.debug_host_commands.specs.RunCauses.{RunsInPart, RunsShort, RunsToEnd, RunsToThrow};
ghost use Rattle.debug_host_commands.specs.SendCauses.{HoldsCommands, MaySend, RefusesLine, Sends};
ghost use Rattle.debug_host_commands.specs.Status.{Says, ForDrill, ForReplay, ForRun, ForSend, ForServe, ForText, GivenReplay, GivenRun, GivenSend, GivenServe, IsClient, Unfailed, closed_said, line_said, refusal_said, said, status_of, uncaught_said, unread_said, unstored_said};
ghost use Rattle.debug_host_commands.specs.ServeCauses.{Journals, MayServe, ServesToEnd, ServesWhole};
ghost use Rattle.debug_host_commands.specs.Stored.{ComesFirst, OrJournal, journal_asked};
ghost use Rattle.debug_host_options.specs.Explains.{explains};
ghost use Rattle.debug_host_options.specs.Requests.{asked};
ghost use Rattle.cdp_edge_server.specs.Contents.{called};
ghost use Rattle.debug_host_commands.specs.declared.outcome.CommandEnd.{CommandEnd};

use crate::drill::drill;
use crate::explaining::{Remains, Task};
use crate::outcome::CommandEnd;
use crate::replay::replay;
use crate::report::{end, end_explained};
use crate::run::run;
use crate::send::send;
use crate::serve::serve;
use crate::telling::tell;
use cdp_edge::{Shelf, Sink};
use cdp_edge_server::{Clock, Door, Harbor};
use debug_host_options::{Request, VERSION, help_text, names_explain, read_words};
use std::alloc::{AllocError, Global};
use std::sync::Wait;
use std::thread::Threads;

/// Does what the words after the program's name ask for, and answers the exit status.
///
/// | Status | Where | Line on `err` |
/// |---|---|---|
/// | 0 | `run`: only where the run ended by its last script; `replay`: only where every line was applied; `send`: only where every command was answered and every wait met; `drill`: only where the summary is written; help and the version: only where their text is | none |
/// | 1 | want of memory; `replay`: also where a session is lost for want of it | `debug_host: out of memory` |
/// | 2 | only where the words ask for nothing (`read_words` of `debug_host_options`), and there always, but for want of memory | `usage: debug_host run/replay/serve/send/drill` |
/// | 3 | only where the input or a script isn't UTF-8, or a script is refused by the parser | `debug_host: NAME: not UTF-8`, `debug_host: NAME:LINE:COL: unexpected token`, `debug_host: NAME: too long: N units`, `debug_host: NAME: too deep`, `debug_host: NAME: too many tokens` |
/// | 4 | only where the shelf tells a fault at a file that the words name: one that is read, or the one in which `serve` stores its journal | `debug_host: cannot read NAME`, `debug_host: cannot store NAME` |
/// | 5 | only where the count of `out` rose or stands at the greatest `u64`, with output left to write | `debug_host: cannot write` |
/// | 6 | only where a line of the journal isn't of its form, names a session that isn't attached, or follows the line `memory`, or a line of the file of commands isn't of its form | `debug_host: line N refused` |
/// | 7 | `serve`, `send`: only where the harbor's count rose: the port couldn't be opened or dialled, or one of its doors or the link to it failed | `debug_host: network fault` |
/// | 8 | `run`, `serve`: only where the run ended by an uncaught throw | `Uncaught TEXT` |
/// | 9 | `send`: only where the peer closed before every command was answered and every wait met | `debug_host: peer closed after N replies` |
/// | 10 | `serve`: only where no ticket is left for a turn | `debug_host: tickets spent` |
///
/// The first that comes decides: the words; of a replay the journal's read; then the input's read and its text, and each
/// script's read and its text, in order; and then the run, or the journal's lines one after another. Of a client the file's
/// read; then its lines; then the port that is dialled, and the conversation.
/// A run that never ends prints as it goes, and the call doesn't return.
/// `serve` opens so many doors on a port of the harbor, and serves the clients that arrive there while the program runs, until it
/// is over. With `--journal` it stores then, whatever the end is, the journal of the one history. Of its ends the first decides
/// in the order of the statuses 1, 5, 7, 10, 4, 8, 0, where a journal for which there was no memory has status 1. A session that
/// is lost for want of memory changes no status.
/// `send` sends the commands of a file to a host that serves, each after the reply to the one before it, and writes each text
/// that arrives as a line. Where the host neither answers nor closes, the call doesn't return.
/// `drill N` reads no file: it replays a journal and a script that are made from N, in memory, and writes a summary of that
/// replay's output. Its script or a line of its journal may be refused as those of a replay may.
/// `--help` and `--version` write a text on `out`, and touch nothing else.
/// With `--explain` further lines on `err` say the cause, each after two spaces; nothing else changes.
/// What `err` does changes no status.
#[tactic(auto, using(crate::proofs::ServeLemmas::or_quiet))]
pub fn debug_main<
    R: Threads + Wait + Sync,
    F: Shelf,
    O: Sink + Send,
    E: Sink,
    H: Harbor,
    C: Clock + Send,
>(
    rt: &R,
    alloc: Global,
    words: &[String],
    shelf: &mut F,
    out: &mut O,
    err: &mut E,
    harbor: &mut H,
    clock: &mut C,
) -> u8
where
    H::Bell: Sync,
    H::Door: Send,
    <H::Door as Door>::Link: Send,
    // the words
    ensures usage { result ≡ 2 → asked words.now ≡ None }
    ensures usages { asked words.now ≡ None → (result ≡ 2) ⊎ (result ≡ 1) }
    ensures usage_untouched { result ≡ 2 → (out.new ≡ out.old) × (shelf.new ≡ shelf.old) × (harbor.new ≡ harbor.old) }
    ensures unwritten { (result ≡ 3) ⊎ (result ≡ 4) → OrJournal (journal_asked (asked words.now)) (out.new ≡ out.old) (λ name. (result ≡ 4) × Blames (Store name) (F.faults shelf.old) (F.faults shelf.new)) }
    // the counts of faults, and what `err` took
    ensures reads { result ≢ 4 → OrJournal (journal_asked (asked words.now)) (F.faults shelf.new ≡ F.faults shelf.old) (λ name. ComesFirst result × Blames (Store name) (F.faults shelf.old) (F.faults shelf.new)) }
    ensures write { result ≡ 5 → Rose (O.faults out.old) (O.faults out.new) }
    ensures writes { result ≢ 5 → OrJournal (journal_asked (asked words.now)) (O.faults out.new ≡ O.faults out.old) (λ name. (result ≡ 1) × Rose (O.faults out.old) (O.faults out.new)) }
    ensures unstored { journal_asked (asked words.now) ≡ None → F.stored shelf.new ≡ F.stored shelf.old }
    ensures says { (end : CommandEnd) × (result ≡ status_of end) × Says (explains words.now) (E.content err.old) (E.content err.new) (said end) }
    // `run`: the cause of each status
    ensures run_done { result ≡ 0 → GivenRun (asked words.now) (HandsIn (F.files shelf.old) (F.handed shelf.old) (F.handed shelf.new)) (λ sources given. RunsToEnd given sources (O.content out.old) (O.content out.new)) }
    ensures run_threw { result ≡ 8 → GivenRun (asked words.now) (HandsIn (F.files shelf.old) (F.handed shelf.old) (F.handed shelf.new)) (λ sources given. (text : List ℕ)
        × RunsToThrow given sources text (O.content out.old) (O.content out.new) × Says (explains words.now) (E.content err.old) (E.content err.new) (uncaught_said text)) }
    ensures run_refused { result ≡ 3 → GivenRun (asked words.now) (HandsIn (F.files shelf.old) (F.handed shelf.old) (F.handed shelf.new)) (λ sources given. (name : List ℕ) × (refusal : TextFault)
        × IsRefusedIn given sources name refusal × Says (explains words.now) (E.content err.old) (E.content err.new) (refusal_said name refusal)) }
    ensures run_read { result ≡ 4 → ForRun (asked words.now) (λ sources. (name : List ℕ) × IsNamed sources name × Blames (Read name) (F.faults shelf.old) (F.faults shelf.new)
        × Given (HandsIn (F.files shelf.old) (F.handed shelf.old) (F.handed shelf.new)) (λ given. IsReachedIn given sources name) × Says (explains words.now) (E.content err.old) (E.content err.new) (unread_said name)) }
    ensures run_offered { result ≡ 5 → GivenRun (asked words.now) (HandsIn (F.files shelf.old) (F.handed shelf.old) (F.handed shelf.new)) (λ sources given. RunsShort given sources (O.content out.old) (O.content out.new)) }
    // no other status where the files hold scripts and input, or one of them is refused, unless memory was wanting or a count rose
    ensures run_decided { GivenRun (asked words.now) (HandsIn (F.files shelf.old) (F.handed shelf.old) (F.handed shelf.new)) (λ sources given. (scripts : List Script) (input : List (List ℕ)) → HoldsSources given sources scripts input
        → (result ≡ 0) ⊎ (result ≡ 8) ⊎ (result ≡ 1) ⊎ (result ≡ 4) ⊎ (result ≡ 5)) }
    ensures run_exact { GivenRun (asked words.now) (HandsIn (F.files shelf.old) (F.handed shelf.old) (F.handed shelf.new)) (λ sources given. (name : List ℕ) (refusal : TextFault) → IsRefusedIn given sources name refusal
        → (result ≡ 3) ⊎ (result ≡ 1) ⊎ (result ≡ 4)) }
    // what `out` took at every status, of a program that may never end
    ensures run_part { GivenRun (asked words.now) (HandsIn (F.files shelf.old) (F.handed shelf.old) (F.handed shelf.new)) (λ sources given. (O.content out.new ≡ O.content out.old) ⊎ RunsInPart given sources (O.content out.old) (O.content out.new)) }
    // `replay`: the cause of each status
    ensures replay_done { result ≡ 0 → GivenReplay (asked words.now) (HandsIn (F.files shelf.old) (F.handed shelf.old) (F.handed shelf.new)) (λ request given. ReplaysWhole given request None (O.content out.old) (O.content out.new)) }
    ensures replay_line { result ≡ 6 → GivenReplay (asked words.now) (HandsIn (F.files shelf.old) (F.handed shelf.old) (F.handed shelf.new)) (λ request given. (number : ℕ)
        × ReplaysWhole given request (Some number) (O.content out.old) (O.content out.new) × Says (explains words.now) (E.content err.old) (E.content err.new) (line_said number)) }
    ensures replay_refused { result ≡ 3 → GivenReplay (asked words.now) (HandsIn (F.files shelf.old) (F.handed shelf.old) (F.handed shelf.new)) (λ request given. (name : List ℕ) × (refusal : TextFault)
        × IsRefusedBehind given request name refusal × Says (explains words.now) (E.content err.old) (E.content err.new) (refusal_said name refusal)) }
    ensures replay_read { result ≡ 4 → ForReplay (asked words.now) (λ request. (name : List ℕ) × IsNamedBy request name × Blames (Read name) (F.faults shelf.old) (F.faults shelf.new)
        × Given (HandsIn (F.files shelf.old) (F.handed shelf.old) (F.handed shelf.new)) (λ given. IsReachedBy given request name) × Says (explains words.now) (E.content err.old) (E.content err.new) (unread_said name)) }
    ensures replay_offered { result ≡ 5 → GivenReplay (asked words.now) (HandsIn (F.files shelf.old) (F.handed shelf.old) (F.handed shelf.new)) (λ request given. ReplaysShort given request (O.content out.old) (O.content out.new)) }
    ensures replay_decided { GivenReplay (asked words.now) (HandsIn (F.files shelf.old) (F.handed shelf.old) (F.handed shelf.new)) (λ request given. (journal : List ℕ) (scripts : List Script) (input : List (List ℕ)) → HoldsReplay given request journal scripts input
        → (result ≡ 0) ⊎ (result ≡ 6) ⊎ (result ≡ 1) ⊎ (result ≡ 4) ⊎ (result ≡ 5)) }
    ensures replay_exact { GivenReplay (asked words.now) (HandsIn (F.files shelf.old) (F.handed shelf.old) (F.handed shelf.new)) (λ request given. (name : List ℕ) (refusal : TextFault) → IsRefusedBehind given request name refusal
        → (result ≡ 3) ⊎ (result ≡ 1) ⊎ (result ≡ 4)) }
    // the headline, at every status: what `out` took is a first part of an output of which it holds, and all of that at 0 and 6
    ensures headline { GivenReplay (asked words.now) (HandsIn (F.files shelf.old) (F.handed shelf.old) (F.handed shelf.new)) (λ request given. (O.content out.new ≡ O.content out.old) ⊎ ReplaysInPart given request (O.content out.old) (O.content out.new)) }
    // `serve`: the cause of each status
    ensures serve_done { result ≡ 0 → GivenServe (asked words.now) (HandsIn (F.files shelf.old) (F.handed shelf.old) (F.handed shelf.new)) (λ request given. ServesToEnd given request (O.content out.old) (O.content out.new)) }
    ensures serve_threw { result ≡ 8 → GivenServe (asked words.now) (HandsIn (F.files shelf.old) (F.handed shelf.old) (F.handed shelf.new)) (λ request given. (text : List ℕ)
        × RunsToThrow given request.sources text (O.content out.old) (O.content out.new) × Says (explains words.now) (E.content err.old) (E.content err.new) (uncaught_said text)) }
    ensures serve_refused { result ≡ 3 → GivenServe (asked words.now) (HandsIn (F.files shelf.old) (F.handed shelf.old) (F.handed shelf.new)) (λ request given. (name : List ℕ) × (refusal : TextFault)
        × IsRefusedIn given request.sources name refusal × Says (explains words.now) (E.content err.old) (E.content err.new) (refusal_said name refusal)) }
    ensures serve_read { result ≡ 4 → ForServe (asked words.now) (λ request. OrJournal request.journal ((name : List ℕ) × IsNamed request.sources name × Blames (Read name) (F.faults shelf.old) (F.faults shelf.new)
        × Given (HandsIn (F.files shelf.old) (F.handed shelf.old) (F.handed shelf.new)) (λ given. IsReachedIn given request.sources name) × Says (explains words.now) (E.content err.old) (E.content err.new) (unread_said name))
        (λ name. Blames (Store name) (F.faults shelf.old) (F.faults shelf.new) × (H.opens harbor.new ≡ called (request.port, request.sessions) (H.opens harbor.old))
        × Given (HandsIn (F.files shelf.old) (F.handed shelf.old) (F.handed shelf.new)) (λ given. ServesWhole given request (O.content out.old) (O.content out.new)) × Says (explains words.now) (E.content err.old) (E.content err.new) (unstored_said name))) }
    ensures serve_network { result ≡ 7 → Rose (H.faults harbor.old) (H.faults harbor.new) }
    // no other status where the files hold scripts and input, or one of them is refused, unless memory or tickets were
    // wanting or a count rose
    ensures serve_decided { GivenServe (asked words.now) (HandsIn (F.files shelf.old) (F.handed shelf.old) (F.handed shelf.new)) (λ request given. (scripts : List Script) (input : List (List ℕ)) → HoldsSources given request.sources scripts input
        → (result ≡ 0) ⊎ (result ≡ 8) ⊎ (result ≡ 1) ⊎ (result ≡ 4) ⊎ (result ≡ 5) ⊎ (result ≡ 7) ⊎ (result ≡ 10)) }
    ensures serve_exact { GivenServe (asked words.now) (HandsIn (F.files shelf.old) (F.handed shelf.old) (F.handed shelf.new)) (λ request given. (name : List ℕ) (refusal : TextFault) → IsRefusedIn given request.sources name refusal
        → (result ≡ 3) ⊎ (result ≡ 1) ⊎ (result ≡ 4)) }
    // at every status: what `out` took is a first part of what the program prints; the doors are those of one history, in
    // which the program stops exactly where it is named to, and each session is sent what it would be sent alone
    ensures serve_part { GivenServe (asked words.now) (HandsIn (F.files shelf.old) (F.handed shelf.old) (F.handed shelf.new)) (λ request given. (O.content out.new ≡ O.content out.old) ⊎ RunsInPart given request.sources (O.content out.old) (O.content out.new)) }
    ensures serves { GivenServe (asked words.now) (HandsIn (F.files shelf.old) (F.handed shelf.old) (F.handed shelf.new)) (λ request given. (end : CommandEnd) × (result ≡ status_of end) × MayServe given request (C.moment clock.old) (record { content = O.content out.old; faults = O.faults out.old }) (record { content = O.content out.new; faults = O.faults out.new }) (H.kept harbor.old) (H.kept harbor.new) (record { files = F.stored shelf.old; faults = F.faults shelf.old }) (record { files = F.stored shelf.new; faults = F.faults shelf.new }) end) }
    // where the program ended and nothing failed, the record of its history was stored under the name of the journal that is
    // asked for
    ensures serve_journal { (result ≡ 0) ⊎ (result ≡ 8) → GivenServe (asked words.now) (HandsIn (F.files shelf.old) (F.handed shelf.old) (F.handed shelf.new)) (λ request given. Journals result given request (C.moment clock.old) (record { content = O.content out.old; faults = O.faults out.old }) (record { content = O.content out.new; faults = O.faults out.new }) (H.kept harbor.old) (H.kept harbor.new) (record { files = F.stored shelf.old; faults = F.faults shelf.old }) (record { files = F.stored shelf.new; faults = F.faults shelf.new })) }
    ensures serve_opened { (result ≡ 0) ⊎ (result ≡ 5) ⊎ (result ≡ 8) ⊎ (result ≡ 10) → ForServe (asked words.now) (λ request. H.opens harbor.new ≡ called (request.port, request.sessions) (H.opens harbor.old)) }
    ensures serve_once { ForServe (asked words.now) (λ request. (H.opens harbor.new ≡ H.opens harbor.old) ⊎ (H.opens harbor.new ≡ called (request.port, request.sessions) (H.opens harbor.old))) }
    ensures serve_dials { ForServe (asked words.now) (λ request. H.dials harbor.new ≡ H.dials harbor.old) }
    ensures serve_statuses { ForServe (asked words.now) (λ request. result ≢ 6) }
    // `send`: the cause of each status
    ensures send_done { result ≡ 0 → GivenSend (asked words.now) (HandsIn (F.files shelf.old) (F.handed shelf.old) (F.handed shelf.new)) (λ request given. Sends given request talks.Done (record { content = O.content out.old; faults = O.faults out.old }) (record { content = O.content out.new; faults = O.faults out.new }) (record { faults = H.faults harbor.old; dials = H.dials harbor.old; hung_up = H.hung_up harbor.old }) (record { faults = H.faults harbor.new; dials = H.dials harbor.new; hung_up = H.hung_up harbor.new })) }
    ensures send_closed { result ≡ 9 → GivenSend (asked words.now) (HandsIn (F.files shelf.old) (F.handed shelf.old) (F.handed shelf.new)) (λ request given. (replies : ℕ)
        × Sends given request (talks.PeerClosed replies) (record { content = O.content out.old; faults = O.faults out.old }) (record { content = O.content out.new; faults = O.faults out.new }) (record { faults = H.faults harbor.old; dials = H.dials harbor.old; hung_up = H.hung_up harbor.old }) (record { faults = H.faults harbor.new; dials = H.dials harbor.new; hung_up = H.hung_up harbor.new }) × Says (explains words.now) (E.content err.old) (E.content err.new) (closed_said replies)) }
    ensures send_line { result ≡ 6 → GivenSend (asked words.now) (HandsIn (F.files shelf.old) (F.handed shelf.old) (F.handed shelf.new)) (λ request given. (line : ℕ)
        × RefusesLine given request.commands line × Says (explains words.now) (E.content err.old) (E.content err.new) (line_said line)) }
    ensures send_read { result ≡ 4 → ForSend (asked words.now) (λ request. Blames (Read request.commands) (F.faults shelf.old) (F.faults shelf.new)
        × Says (explains words.now) (E.content err.old) (E.content err.new) (unread_said request.commands)) }
    ensures send_offered { result ≡ 5 → GivenSend (asked words.now) (HandsIn (F.files shelf.old) (F.handed shelf.old) (F.handed shelf.new)) (λ request given. Sends given request talks.WriteFault (record { content = O.content out.old; faults = O.faults out.old }) (record { content = O.content out.new; faults = O.faults out.new }) (record { faults = H.faults harbor.old; dials = H.dials harbor.old; hung_up = H.hung_up harbor.old }) (record { faults = H.faults harbor.new; dials = H.dials harbor.new; hung_up = H.hung_up harbor.new })) }
    // no other status where the file is of its form, or a line of it is refused, unless memory was wanting or a count rose
    ensures send_decided { GivenSend (asked words.now) (HandsIn (F.files shelf.old) (F.handed shelf.old) (F.handed shelf.new)) (λ request given. (lines : List Line) → HoldsCommands given request.commands lines
        → (result ≡ 0) ⊎ (result ≡ 9) ⊎ (result ≡ 1) ⊎ (result ≡ 4) ⊎ (result ≡ 5) ⊎ (result ≡ 7)) }
    ensures send_exact { GivenSend (asked words.now) (HandsIn (F.files shelf.old) (F.handed shelf.old) (F.handed shelf.new)) (λ request given. (line : ℕ) → RefusesLine given request.commands line
        → (result ≡ 6) ⊎ (result ≡ 1) ⊎ (result ≡ 4)) }
    // at every status: what the link was sent and what `out` took are those of the talk over its answers, or a first part of them
    ensures sends { GivenSend (asked words.now) (HandsIn (F.files shelf.old) (F.handed shelf.old) (F.handed shelf.new)) (λ request given. (end : CommandEnd) × (result ≡ status_of end) × MaySend given request (record { content = O.content out.old; faults = O.faults out.old }) (record { content = O.content out.new; faults = O.faults out.new }) (record { faults = H.faults harbor.old; dials = H.dials harbor.old; hung_up = H.hung_up harbor.old }) (record { faults = H.faults harbor.new; dials = H.dials harbor.new; hung_up = H.hung_up harbor.new }) end) }
    // the port is dialled once, after the file was read and checked; no port is opened, and no other fault of the harbor is told
    ensures send_undialled { (result ≡ 4) ⊎ (result ≡ 6) → ForSend (asked words.now) (λ request. (out.new ≡ out.old) × (harbor.new ≡ harbor.old)) }
    ensures send_dialled { (result ≡ 0) ⊎ (result ≡ 5) ⊎ (result ≡ 7) ⊎ (result ≡ 9) → ForSend (asked words.now) (λ request. H.dials harbor.new ≡ called request.port (H.dials harbor.old)) }
    ensures send_once { ForSend (asked words.now) (λ request. (H.dials harbor.new ≡ H.dials harbor.old) ⊎ (H.dials harbor.new ≡ called request.port (H.dials harbor.old))) }
    ensures send_opens { ForSend (asked words.now) (λ request. H.opens harbor.new ≡ H.opens harbor.old) }
    ensures send_quiet { result ≢ 7 → ForSend (asked words.now) (λ request. H.faults harbor.new ≡ H.faults harbor.old) }
    ensures send_statuses { ForSend (asked words.now) (λ request. (result ≢ 3) × (result ≢ 8) × (result ≢ 10)) }
    // `drill`: the cause of each status
    ensures drill_done { result ≡ 0 → ForDrill (asked words.now) (λ n. DrillsWhole n (O.content out.old) (O.content out.new)) }
    ensures drill_refused { result ≡ 3 → ForDrill (asked words.now) (λ n. (refusal : TextFault) × IsRefused [] (drill_source n) refusal
        × Says (explains words.now) (E.content err.old) (E.content err.new) (refusal_said script_name refusal)) }
    ensures drill_offered { result ≡ 5 → ForDrill (asked words.now) (λ n. DrillsShort n (O.content out.old) (O.content out.new)) }
    ensures drill_line { result ≡ 6 → ForDrill (asked words.now) (λ n. (number : ℕ) × DrillRefuses n number
        × (O.content out.new ≡ O.content out.old) × Says (explains words.now) (E.content err.old) (E.content err.new) (line_said number)) }
    ensures drill_part { ForDrill (asked words.now) (λ n. (O.content out.new ≡ O.content out.old) ⊎ DrillsInPart n (O.content out.old) (O.content out.new)) }
    ensures drill_shelf { ForDrill (asked words.now) (λ n. shelf.new ≡ shelf.old) }
    // `--help` and `--version`: their text on `out`, and nothing else
    ensures text_done { result ≡ 0 → ForText (asked words.now) (λ text. O.content out.new ≡ gains (O.content out.old) text) }
    ensures text_part { ForText (asked words.now) (λ text. GainsPrefix (O.content out.old) (O.content out.new) text) }
    ensures text_untouched { ForText (asked words.now) (λ text. (shelf.new ≡ shelf.old) × (harbor.new ≡ harbor.old)) }
    ensures text_statuses { ForText (asked words.now) (λ text. (result ≡ 0) ⊎ (result ≡ 1) ⊎ (result ≡ 5)) }
    // what never comes of a command
    ensures closed_statuses { result ≡ 9 → IsClient (asked words.now) }
    ensures run_statuses { ForRun (asked words.now) (λ sources. result ≢ 6) }
    ensures replay_statuses { ForReplay (asked words.now) (λ request. result ≢ 8) }
    ensures drill_statuses { ForDrill (asked words.now) (λ n. (result ≢ 4) × (result ≢ 8)) }
    ensures run_harbor { ForRun (asked words.now) (λ sources. (harbor.new ≡ harbor.old) × (result ≢ 7) × (result ≢ 10)) }
    ensures replay_harbor { ForReplay (asked words.now) (λ request. (harbor.new ≡ harbor.old) × (result ≢ 7) × (result ≢ 10)) }
    ensures drill_harbor { ForDrill (asked words.now) (λ n. (harbor.new ≡ harbor.old) × (result ≢ 7) × (result ≢ 10)) }
    // where no count rose, the files or want of memory decided
    ensures complete { Unfailed (F.faults shelf.old) (F.faults shelf.new) (O.faults out.old) (O.faults out.new) → (result ≢ 4) × (result ≢ 5) }
{
    let mut remains = Remains::new(alloc);
    match read_words(alloc, words) {
        Err(AllocError) => end(alloc, CommandEnd::OutOfMemory, err),
        Ok(None) => {
            let explains = names_explain(words);
            end_explained(
                alloc,
                CommandEnd::Usage,
                explains,
                Task::Words(words),
                remains,
                err,
            )
        }
        Ok(Some(Request::Run(request))) => {
            let outcome = run(rt, alloc, &request, shelf, out, &mut remains);
            end_explained(alloc, outcome, request.explain, Task::Run, remains, err)
        }
        Ok(Some(Request::Replay(request))) => {
            let outcome = replay(alloc, &request, shelf, out, &mut remains);
            end_explained(alloc, outcome, request.explain, Task::Replay, remains, err)
        }
        Ok(Some(Request::Serve(request))) => {
            let outcome = serve(rt, alloc, &request, shelf, out, harbor, clock, &mut remains);
            let task = Task::Serve(request.port);
            end_explained(alloc, outcome, request.explain, task, remains, err)
        }
        Ok(Some(Request::Send(request))) => {
            let outcome = send(rt, alloc, request, shelf, out, harbor, &mut remains);
            let task = Task::Send(request.port);
            end_explained(alloc, outcome, request.explain, task, remains, err)
        }
        Ok(Some(Request::Drill(number))) => end(alloc, drill(alloc, number, out), err),
        Ok(Some(Request::Help(topic))) => end(alloc, tell(help_text(topic), out), err),
        Ok(Some(Request::Version)) => end(alloc, tell(VERSION, out), err),
    }
}

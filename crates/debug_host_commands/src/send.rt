//! The command `send`, from its file of commands to its end.

ghost use Rattle.std.specs.Prelude.{◌≡◌, ◌⊎◌, ◌≤◌, IfOk, IfErr};
ghost use Rattle.cdp_edge.specs.Outside.{IfTold, Given, HandsIn, one_file};
ghost use Rattle.cdp_client.specs.Lines.{IsInForm};
ghost use Rattle.cdp_edge_server.specs.Contents.{IsUnused, called};
ghost use Rattle.debug_host_options.specs.Held.{send_held};
ghost use Rattle.debug_host_commands.specs.SendCauses.{BecauseCommands, BecauseSend, IsUndialled, MaySend, Speaks, outcome_of_talk};

use crate::explaining::Remains;
use crate::outcome::CommandEnd;
use crate::whole_file::read_whole;
use cdp_client::{Conversed, check_file, converse};
use cdp_edge::{Shelf, Sink};
use cdp_edge_server::{Harbor, HarborFault};
use debug_host_options::SendWords;
use debug_host_script_files::{Evidence, FileEvidence};
use std::alloc::Global;
use std::sync::Wait;

/// The end that a conversation has.
fn outcome_of_talk(end: Conversed) -> CommandEnd<'static>
    ensures { result ≡ outcome_of_talk end }
{
    match end {
        Conversed::Done => CommandEnd::Done,
        Conversed::Refused { line } => CommandEnd::LineRefused(line),
        Conversed::PeerClosed { replies } => CommandEnd::PeerClosed(replies),
        Conversed::LinkFault => CommandEnd::NetworkFault,
        Conversed::WriteFault => CommandEnd::CannotWrite,
        Conversed::Memory => CommandEnd::OutOfMemory,
    }
}

/// The bytes of the file of commands of this name, each line of which is of its form.
#[tactic(auto, using(crate::proofs::ClientLemmas::reading))]
fn read_commands<'w, F: Shelf>(
    alloc: Global,
    name: &'w str,
    shelf: &mut F,
    evidence: &mut Evidence,
) -> Result<Vec<u8>, CommandEnd<'w>>
    ensures content { IfOk result (λ bytes. (HandsIn (F.files shelf.old) (F.handed shelf.old) (F.handed shelf.new) (one_file name.now bytes.items))) }
    ensures form { IfOk result (λ bytes. IsInForm bytes.items) }
    ensures quiet { IfOk result (λ bytes. F.faults shelf.new ≡ F.faults shelf.old) }
    ensures fault { IfErr result (λ end. BecauseCommands end name.now (HandsIn (F.files shelf.old) (F.handed shelf.old) (F.handed shelf.new)) (F.faults shelf.old) (F.faults shelf.new)) }
    ensures stored { F.stored shelf.new ≡ F.stored shelf.old }
{
    let bytes = match read_whole(alloc, name, shelf, evidence) {
        Ok(bytes) => bytes,
        Err(end) => return Err(end),
    };
    match check_file(alloc, &bytes) {
        Ok(()) => Ok(bytes),
        Err(end) => {
            evidence.file = FileEvidence::Content(bytes);
            Err(outcome_of_talk(end))
        }
    }
}

/// Holds a conversation by these commands over a link, and hangs it up.
fn speak<R: Wait, O: Sink, H: Harbor>(
    rt: &R,
    alloc: Global,
    mut link: H::Link,
    commands: &[u8],
    out: &mut O,
    harbor: &mut H,
) -> Conversed
    requires unused { IsUnused (record {
      faults = H.Link.faults link;
      answers = H.Link.answers link;
      sent = H.Link.sent link;
      closed = H.Link.closed link;
    }) }
    requires out { IfTold (H.links_out harbor.old) (λ out. 1 ≤ out) }
    ensures speaks { Speaks commands.now result (record { content = O.content out.old; faults = O.faults out.old }) (record { content = O.content out.new; faults = O.faults out.new }) (record { faults = H.faults harbor.old; dials = H.dials harbor.old; hung_up = H.hung_up harbor.old }) (record { faults = H.faults harbor.new; dials = H.dials harbor.new; hung_up = H.hung_up harbor.new }) }
    ensures dials { H.dials harbor.new ≡ H.dials harbor.old }
    ensures opens { H.opens harbor.new ≡ H.opens harbor.old }
{
    let end = converse(rt, alloc, &mut link, commands, out);
    harbor.hang_up(link);
    end
}

/// Sends the commands of the file of this name to the host at a port, and writes what comes back: the file is read and
/// checked first, then the port is dialled. Where the host neither answers nor closes, the call doesn't return.
#[tactic(auto, using(crate::proofs::ClientLemmas::unread, crate::proofs::ClientLemmas::unsent, crate::proofs::ClientLemmas::undialled))]
pub(crate) fn send<'w, R: Wait, F: Shelf, O: Sink, H: Harbor>(
    rt: &R,
    alloc: Global,
    request: SendWords<'w>,
    shelf: &mut F,
    out: &mut O,
    harbor: &mut H,
    remains: &mut Remains,
) -> CommandEnd<'w>
    ensures cause { BecauseSend result (send_held request.entry) (HandsIn (F.files shelf.old) (F.handed shelf.old) (F.handed shelf.new)) (F.faults shelf.old) (F.faults shelf.new) (record { content = O.content out.old; faults = O.faults out.old }) (record { content = O.content out.new; faults = O.faults out.new }) (record { faults = H.faults harbor.old; dials = H.dials harbor.old; hung_up = H.hung_up harbor.old }) (record { faults = H.faults harbor.new; dials = H.dials harbor.new; hung_up = H.hung_up harbor.new }) }
    ensures part { Given (HandsIn (F.files shelf.old) (F.handed shelf.old) (F.handed shelf.new)) (λ given. MaySend given (send_held request.entry) (record { content = O.content out.old; faults = O.faults out.old }) (record { content = O.content out.new; faults = O.faults out.new }) (record { faults = H.faults harbor.old; dials = H.dials harbor.old; hung_up = H.hung_up harbor.old }) (record { faults = H.faults harbor.new; dials = H.dials harbor.new; hung_up = H.hung_up harbor.new }) result) }
    ensures undialled { IsUndialled result → (out.new ≡ out.old) × (harbor.new ≡ harbor.old) }
    ensures once { (H.dials harbor.new ≡ H.dials harbor.old) ⊎ (H.dials harbor.new ≡ called request.entry.port (H.dials harbor.old)) }
    ensures opens { H.opens harbor.new ≡ H.opens harbor.old }
    ensures stored { F.stored shelf.new ≡ F.stored shelf.old }
{
    let commands = match read_commands(alloc, request.commands, shelf, &mut remains.evidence) {
        Ok(commands) => commands,
        Err(end) => return end,
    };
    match harbor.dial(request.port) {
        Ok(link) => outcome_of_talk(speak(rt, alloc, link, &commands, out, harbor)),
        Err(HarborFault::Failed) => CommandEnd::NetworkFault,
        Err(HarborFault::Memory) => CommandEnd::OutOfMemory,
    }
}

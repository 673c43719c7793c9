//! A link that lets DevTools in, over another link.

ghost use Rattle.std.specs.Prelude.{◌≡◌, ◌≢◌, ◌≤◌, ◌∷◌, [], None, Some, OnOk, OnErr, IsErrOf, length, string_bytes};
ghost use Rattle.cdp_edge.specs.Outside.{Rose};
ghost use Rattle.cdp_edge_server.specs.Contents.{adds, becomes};
ghost use Rattle.cdp_edge_server.specs.Coming.{GivesTold};
ghost use Rattle.cdp_edge_server.specs.Heard.{heard_of, IsWithin};
ghost use Rattle.ws_service_devtools.specs.Links.{Below, Comes, Gives, HandsIn, Sends, unread_of};
ghost use Rattle.ws_service_devtools.specs.Texts.{IsAnswered, empty_reply};

use crate::text::{Fate, read_fate};
use crate::unread::Unread;
use cdp_edge_server::{Link, LinkFault, Recv};
use cdp_json::parts::nothing;
use cdp_json::result_text;
use std::alloc::{AllocError, Global};

/// A link over another one, which answers what the host doesn't have. It tells nothing of what was said: the clauses of
/// its calls say what the link below answered and was sent.
#[derive(Drop)]
pub struct DevtoolsLink<L: Link> {
    link: L,
    alloc: Global,
    unread: Option<Unread>,
}

impl<L: Link> DevtoolsLink<L> {
    /// Over this link.
    pub fn new(alloc: Global, link: L) -> DevtoolsLink<L>
        ensures link { result.link ≡ link }
        ensures unread { unread_of result.unread ≡ [] }
    {
        DevtoolsLink {
            link,
            alloc,
            unread: None,
        }
    }

    /// The link below.
    pub fn into_link(self) -> L
        ensures { result ≡ self.link }
    {
        let DevtoolsLink {
            link,
            alloc: _,
            unread: _,
        } = self;
        link
    }

    /// What comes next: the text that was left, or what the link below answers.
    fn next(&mut self) -> Recv
        ensures comes { Comes (record { unread = self.old.unread; answers = L.answers self.old.link; sent = L.sent self.old.link }) (record { unread = self.new.unread; answers = L.answers self.new.link; sent = L.sent self.new.link }) result }
        ensures text { IsWithin result }
        ensures closed { L.closed self.new.link ≡ L.closed self.old.link }
        ensures count { L.faults self.old.link ≤ L.faults self.new.link }
        ensures quiet { result ≢ Recv.Failed → L.faults self.new.link ≡ L.faults self.old.link }
        ensures failed { result ≡ Recv.Failed → Rose (L.faults self.old.link) (L.faults self.new.link) }
    {
        match self.unread.take() {
            Some(Unread { text }) => Recv::Text(text),
            None => self.link.recv(),
        }
    }

    /// Sends the reply to a command that is answered.
    ///
    /// # Errors
    ///
    /// As [`Link::send`]; nothing was sent then.
    fn reply(&mut self, id: u64) -> Result<(), LinkFault>
        ensures replies { Sends (record { unread = self.old.unread; answers = L.answers self.old.link; sent = L.sent self.old.link }) (record { unread = self.new.unread; answers = L.answers self.new.link; sent = L.sent self.new.link }) (empty_reply id) result }
        ensures closed { L.closed self.new.link ≡ L.closed self.old.link }
        ensures count { L.faults self.old.link ≤ L.faults self.new.link }
        ensures quiet { OnOk result (L.faults self.new.link ≡ L.faults self.old.link) }
        ensures memory { IsErrOf result LinkFault.Memory → L.faults self.new.link ≡ L.faults self.old.link }
        ensures failed { IsErrOf result LinkFault.Failed → Rose (L.faults self.old.link) (L.faults self.new.link) }
    {
        match result_text(self.alloc, id, &nothing(self.alloc)) {
            Ok(text) => self.link.send(text.as_str()),
            Err(AllocError) => Err(LinkFault::Memory),
        }
    }

    /// Leaves a text for which memory is wanting.
    fn leave(&mut self, text: String) -> Recv
        requires none { unread_of self.old.unread ≡ [] }
        requires text { length (string_bytes text) ≤ 1_048_576 }
        ensures hands { HandsIn (record { unread = self.old.unread; answers = L.answers self.old.link; sent = L.sent self.old.link }) (record { unread = self.new.unread; answers = L.answers self.new.link; sent = L.sent self.new.link }) (string_bytes text) result }
        ensures within { IsWithin result }
        ensures closed { L.closed self.new.link ≡ L.closed self.old.link }
        ensures count { L.faults self.new.link ≡ L.faults self.old.link }
        ensures memory { result ≡ Recv.Memory }
    {
        self.unread = Some(Unread { text });
        Recv::Memory
    }

    /// Answers the command that a text is, of this id.
    fn answer(&mut self, text: String, id: u64) -> Recv
        requires none { unread_of self.old.unread ≡ [] }
        requires text { length (string_bytes text) ≤ 1_048_576 }
        requires answered { IsAnswered (string_bytes text) id }
        ensures hands { HandsIn (record { unread = self.old.unread; answers = L.answers self.old.link; sent = L.sent self.old.link }) (record { unread = self.new.unread; answers = L.answers self.new.link; sent = L.sent self.new.link }) (string_bytes text) result }
        ensures within { IsWithin result }
        ensures closed { L.closed self.new.link ≡ L.closed self.old.link }
        ensures count { L.faults self.old.link ≤ L.faults self.new.link }
        ensures quiet { result ≢ Recv.Failed → L.faults self.new.link ≡ L.faults self.old.link }
        ensures failed { result ≡ Recv.Failed → Rose (L.faults self.old.link) (L.faults self.new.link) }
    {
        match self.reply(id) {
            Ok(()) => Recv::Quiet,
            Err(LinkFault::Failed) => Recv::Failed,
            Err(LinkFault::Memory) => self.leave(text),
        }
    }

    /// Hands a text in, or answers it.
    fn hand_in(&mut self, text: String) -> Recv
        requires none { unread_of self.old.unread ≡ [] }
        requires text { length (string_bytes text) ≤ 1_048_576 }
        ensures hands { HandsIn (record { unread = self.old.unread; answers = L.answers self.old.link; sent = L.sent self.old.link }) (record { unread = self.new.unread; answers = L.answers self.new.link; sent = L.sent self.new.link }) (string_bytes text) result }
        ensures within { IsWithin result }
        ensures closed { L.closed self.new.link ≡ L.closed self.old.link }
        ensures count { L.faults self.old.link ≤ L.faults self.new.link }
        ensures quiet { result ≢ Recv.Failed → L.faults self.new.link ≡ L.faults self.old.link }
        ensures failed { result ≡ Recv.Failed → Rose (L.faults self.old.link) (L.faults self.new.link) }
    {
        match read_fate(self.alloc, text.as_str()) {
            Ok(Fate::HandedIn) => Recv::Text(text),
            Ok(Fate::Changed(other)) => Recv::Text(other),
            Ok(Fate::TooBig) => Recv::TooBig,
            Ok(Fate::Answered { id }) => self.answer(text, id),
            Err(AllocError) => self.leave(text),
        }
    }
}

impl<L: Link> Link for DevtoolsLink<L> {
    ghost faults = { λ link. L.faults link.link };

    ghost coming = { λ _. None };

    ghost answers = { λ _. None };

    ghost sent = { λ _. None };

    ghost closed = { λ link. L.closed link.link };

    fn recv(&mut self) -> Recv
        ensures gives { Gives (record { unread = self.old.unread; answers = L.answers self.old.link; sent = L.sent self.old.link }) (record { unread = self.new.unread; answers = L.answers self.new.link; sent = L.sent self.new.link }) result }
        ensures text { IsWithin result }
        ensures closed { L.closed self.new.link ≡ L.closed self.old.link }
        ensures count { L.faults self.old.link ≤ L.faults self.new.link }
        ensures quiet { result ≢ Recv.Failed → L.faults self.new.link ≡ L.faults self.old.link }
        ensures failed { result ≡ Recv.Failed → Rose (L.faults self.old.link) (L.faults self.new.link) }
    {
        match self.next() {
            Recv::Text(text) => self.hand_in(text),
            other => other,
        }
    }

    fn send(&mut self, text: &str) -> Result<(), LinkFault>
        ensures sends { Sends (record { unread = self.old.unread; answers = L.answers self.old.link; sent = L.sent self.old.link }) (record { unread = self.new.unread; answers = L.answers self.new.link; sent = L.sent self.new.link }) text.now result }
        ensures closed { L.closed self.new.link ≡ L.closed self.old.link }
        ensures count { L.faults self.old.link ≤ L.faults self.new.link }
        ensures quiet { OnOk result (L.faults self.new.link ≡ L.faults self.old.link) }
        ensures memory { IsErrOf result LinkFault.Memory → L.faults self.new.link ≡ L.faults self.old.link }
        ensures failed { IsErrOf result LinkFault.Failed → Rose (L.faults self.old.link) (L.faults self.new.link) }
    {
        self.link.send(text)
    }

    fn close(&mut self, code: u16) -> Result<(), LinkFault> {
        self.link.close(code)
    }
}

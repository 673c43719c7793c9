//! A session: what it keeps, by which rule it names a stop, and how it answers a text.

ghost use Rattle.std.specs.Prelude.{◌≡◌, ◌↔◌, ◌<◌, ◌≤◌, ◌^◌, ◌∷◌, [], ◌++◌, List, length, true, false, map, IfOk, IsTrue, OnOk, IsErrOf, option_to_list, string_bytes, is_some};
ghost use Rattle.cdp_session.specs.Situations.{HasSpots, seen};
ghost use Rattle.cdp_session.specs.Sessions.{emptied, fresh, holding, is_silent, sent, with_exception, with_handles};
ghost use Rattle.cdp_session_messages.specs.Outboxes.{fits};
ghost use Rattle.breakpoints.specs.Breakpoints.{id_of};
ghost use Rattle.breakpoints.specs.declared.breakpoint.Breakpoint.{Breakpoint};
ghost use Rattle.breakpoints.specs.Indexed.{ArePlacesOf};
ghost use Rattle.breakpoints.specs.PlaceOrder.{AreAscending};
ghost use Rattle.stepping.specs.Beside.{IsNamedBeside};
ghost use Rattle.stepping.specs.Causes.{first_cause};
ghost use Rattle.stepping.specs.Rules.{has_request};
ghost use Rattle.pure_eval.specs.Workspaces.{begun};
ghost use Rattle.cdp_session.specs.Code.{code_of};
ghost use Rattle.cdp_session.specs.Conditions.{is_some_hit};
ghost use Rattle.cdp_session_messages.specs.Results.{resumed_text};
ghost use Rattle.cdp_session.specs.Stops.{AreHits, cause_of, hit_ids, hits_of, may_be_hit, may_name, resumed, stop_told, stopped, wants};
ghost use Rattle.cdp_session.specs.Consoles.{printed};
ghost use Rattle.cdp_session.specs.Endings.{ended, ending_told};
ghost use Rattle.cdp_session.specs.Replies.{answer_by, answer_of, comes_to, outcome_by, refusal_of, IsRefused};
ghost use Rattle.cdp_session.specs.Made.{done_texts, KeepsIfRefused, Makes};

use crate::asks::Asks;
use crate::coded_scripts::CodedScripts;
use crate::conditions::{Condition, ids_hit};
use crate::done::{Done, Fault};
use crate::ending::Ending;
use crate::evaluations::Evaluations;
use crate::named::Named;
use crate::program::Program;
use crate::refusing::{wants_enabled, wants_pause};
use crate::replies::reply_text;
use crate::situation::Situation;
use breakpoints::Breakpoints;
use cdp_json::command::Reading;
use cdp_json::params::Params;
use cdp_json::refusal::Refusal;
use cdp_json::{ReadingRoom, read_command, refusal_text};
use cdp_session_messages::{
    Outbox, RESUMED_SIZE, SessionEnd, context_destroyed_text, resumed_text,
};
use cdp_text::position::Place;
use cdp_text::units::Units;
use js_heap::value::Value;
use object_groups::Handles;
use remote_objects::backtrace;
use std::alloc::{AllocError, Global};
use std::marker::Model;
use stepping::{Arrival, Cause, Rules, first_cause, wants};

/// One client: what it asks for, its breakpoints, the objects that it holds, and the texts that wait for it.
#[derive(Drop)]
pub struct Session<'p> {
    pub(crate) alloc: Global,
    pub(crate) number: u64,
    pub(crate) rules: Rules,
    // whether it has the domain Runtime enabled
    pub(crate) runtime: bool,
    pub(crate) breakpoints: Breakpoints,
    pub(crate) handles: Handles,
    // those of its breakpoints that were used, parsed
    pub(crate) conditions: Vec<Condition>,
    pub(crate) evaluations: Evaluations<'p>,
    exceptions: u64,
    outbox: Outbox,
}

impl<'p> Model for Session<'p> {
    ghost use Rattle.std.specs.Prelude.{◌≤◌, ◌^◌};
    ghost use Rattle.std.specs.Coded.{codes};
    ghost use Rattle.pure_eval.specs.TermCodes.{term_coded};
    ghost use Rattle.cdp_session.specs.Sessions.{Session as Kept};

    ghost Value = { Kept };

    ghost coded = { Prim.hlevel (codes, term_coded) };

    ghost view = { λ x. record { number = x.number; rules = x.rules; runtime = x.runtime; breakpoints = x.breakpoints; handles = x.handles; workspace = x.evaluations; exceptions = x.exceptions; outbox = x.outbox } };

    ghost invariant = { λ x. x.exceptions ≤ 2 ^ 62 };
}

/// The greatest number of an exception of a session.
const GREATEST_EXCEPTION: u64 = 1 << 62;

/// Whether an active breakpoint stands where the program arrived, if it did, whatever its condition.
fn may_be_hit(breakpoints: &Breakpoints, place: Option<Place>) -> bool
    ensures { result ≡ may_be_hit place breakpoints.now }
{
    match place {
        Some(place) => breakpoints.is_hit(place),
        None => false,
    }
}

impl<'p> Session<'p> {
    /// A session of this number, of a program of these scripts, that asks for nothing and has evaluated nothing. It
    /// takes no memory: its evaluations go on from the code that the scripts have.
    pub fn new(alloc: Global, number: u64, scripts: CodedScripts<'p>) -> Session<'p>
        ensures { result ≡ fresh number (begun (code_of scripts.entry)) }
    {
        Session {
            alloc,
            number,
            rules: Rules::new(),
            runtime: false,
            breakpoints: Breakpoints::new(alloc),
            handles: Handles::new(alloc),
            conditions: Vec::new(alloc),
            evaluations: Evaluations::new(scripts),
            exceptions: 0,
            outbox: Outbox::new(alloc),
        }
    }

    /// Whether the session has the Debugger domain enabled.
    pub fn enabled(&self) -> bool
        ensures { result ≡ self.now.rules.enabled }
    {
        self.rules.enabled
    }

    /// Whether the session names no stop, wherever a step leads: it isn't enabled, or it skips pauses.
    pub fn is_silent(&self) -> bool
        ensures { result ≡ is_silent self.now }
    {
        !self.rules.enabled || self.rules.skip
    }

    /// Whether the session names a stop behind a step that leads to this arrival, or would if the conditions of its
    /// breakpoints held. Takes no memory.
    pub fn may_name(&self, arrival: &Arrival) -> bool
        ensures { result ≡ may_name arrival.now self.now }
    {
        let may_be_hit = may_be_hit(&self.breakpoints, arrival.place);
        first_cause(&self.rules, arrival, may_be_hit).is_some()
    }

    /// Whether a rule of the session other than that of breakpoints names a stop behind a step that leads to this
    /// arrival. Takes no memory.
    pub fn wants(&self, arrival: &Arrival) -> bool
        ensures value { result ≡ wants arrival.now self.now }
        ensures named { IsTrue result ↔ IsNamedBeside self.now.rules arrival.now }
    {
        wants(&self.rules, arrival)
    }

    /// Whether the session asked for a pause, a step, or a place to run to. Without that no rule of it other than that
    /// of breakpoints names a step that raised nothing and led to no `debugger` statement.
    pub fn has_request(&self) -> bool
        ensures { result ≡ has_request self.now.rules }
    {
        self.rules.has_request()
    }

    /// The places to which its breakpoints resolved, each once, in the order of scripts, lines and columns. They are
    /// the same where the breakpoints aren't active.
    pub fn places(&self) -> &[Place]
        ensures exact { ArePlacesOf self.now.breakpoints.set result.now }
        ensures ascending { AreAscending result.now }
    {
        self.breakpoints.places()
    }

    /// How many breakpoints it has. A text that leaves as many leaves the same ones.
    pub fn breakpoint_count(&self) -> usize
        ensures { result ≡ length self.now.breakpoints.set }
    {
        self.breakpoints.count()
    }

    /// What the session finds of a step that leads to this arrival: the first rule by which it names a stop, if one
    /// does, and the breakpoints that are hit. Their conditions are evaluated where the program stands, once; nothing
    /// of them is kept. A silent session evaluates none.
    ///
    /// # Errors
    ///
    /// There is no memory for an evaluation or for the ids. The session is to be dropped.
    pub fn names<P: Program>(
        &mut self,
        situation: &Situation<'_, P>,
        arrival: &Arrival,
    ) -> Result<Named, AllocError>
        ensures cause { IfOk result (λ named. named.cause ≡ cause_of (seen P.standing situation.now).standing arrival.now self.old) }
        ensures hits { IfOk result (λ named. AreHits (seen P.standing situation.now).standing arrival.now self.old named.hits.items) }
        ensures kept { OnOk result (self.new ≡ self.old) }
    {
        if self.is_silent() {
            return Ok(Named {
                cause: None,
                hits: Vec::new(self.alloc),
            });
        }
        let hits = self.ids_hit(situation, arrival)?;
        let cause = self.cause_with(arrival, &hits);
        Ok(Named { cause, hits })
    }

    /// The first rule by which the session names a stop, where these breakpoints of it are hit.
    fn cause_with(&self, arrival: &Arrival, hits: &Vec<Units>) -> Option<Cause>
        ensures { (bs : List Breakpoint) → hits.now.items ≡ map id_of bs → result ≡ first_cause self.now.rules arrival.now (is_some_hit bs) }
    {
        first_cause(&self.rules, arrival, !hits.is_empty())
    }

    /// The ids of the breakpoints that are hit where the program arrived, in the order in which they were set.
    fn ids_hit<P: Program>(
        &mut self,
        situation: &Situation<'_, P>,
        arrival: &Arrival,
    ) -> Result<Vec<Units>, AllocError>
        ensures ids { IfOk result (λ ids. ids.items ≡ map id_of (hits_of (seen P.standing situation.now).standing arrival.now self.old)) }
        ensures kept { OnOk result (self.new ≡ self.old) }
    {
        ids_hit(
            self.alloc,
            &self.breakpoints,
            &mut self.conditions,
            &mut self.evaluations,
            situation,
            arrival.place,
        )
    }

    /// Hands out the texts that wait, in order; none of them waits any more. Takes no memory.
    pub fn take(&mut self) -> Vec<String>
        ensures texts { map string_bytes result.items ≡ self.old.outbox }
        ensures rest { self.new ≡ emptied self.old }
    {
        self.outbox.take(self.alloc)
    }

    /// Puts a text behind those that wait.
    fn send(&mut self, text: String) -> Result<(), SessionEnd>
        ensures sent { OnOk result (self.new ≡ sent (string_bytes text ∷ []) self.old) }
        ensures fits { OnOk result (fits (self.old.outbox ++ string_bytes text ∷ []) ≡ true) }
        ensures over { IsErrOf result SessionEnd.Overrun → fits (self.old.outbox ++ string_bytes text ∷ []) ≡ false }
    {
        self.outbox.push(text)
    }

    /// Puts texts behind those that wait, in order.
    fn send_all(&mut self, texts: Vec<String>) -> Result<(), SessionEnd>
        ensures sent { OnOk result (self.new ≡ sent (map string_bytes texts.items) self.old) }
        ensures over { IsErrOf result SessionEnd.Overrun → fits (self.old.outbox ++ map string_bytes texts.items) ≡ false }
    {
        for text in texts {
            self.send(text)?;
        }
        Ok(())
    }

    /// The event that tells of the stop of this number, at these breakpoints. The objects that it names are held from
    /// then on.
    fn stop_told<P: Program>(
        &mut self,
        situation: &Situation<'_, P>,
        number: u64,
        arrival: &Arrival,
        hits: Vec<Units>,
    ) -> Result<String, AllocError>
        requires { hits.items ≡ hit_ids (seen P.standing situation.now).standing arrival.now self.old }
        ensures made { IfOk result (λ text. string_bytes text ≡ (stop_told (seen P.standing situation.now) number arrival.now self.old).made) }
        ensures held { OnOk result (self.new ≡ with_handles (stop_told (seen P.standing situation.now) number arrival.now self.old).handles self.old) }
    {
        let cause = self.cause_with(arrival, &hits);
        self.pause_told(situation, number, hits, cause)
    }

    /// The program stopped after a step that led to this arrival, and the stop has this number. The hits are those that
    /// `names` found there. The session's requests end, and where it has the debugger enabled it is told.
    ///
    /// # Errors
    ///
    /// The text doesn't fit behind those that wait, or there is no memory for it. The session is to be dropped.
    pub fn stopped<P: Program>(
        &mut self,
        situation: &Situation<'_, P>,
        number: u64,
        arrival: &Arrival,
        hits: Vec<Units>,
    ) -> Result<(), SessionEnd>
        requires { AreHits (seen P.standing situation.now).standing arrival.now self.old hits.items }
        ensures session { OnOk result (self.new ≡ stopped (seen P.standing situation.now) number arrival.now self.old) }
        ensures fits { fits self.old.outbox ≡ true → OnOk result (fits (stopped (seen P.standing situation.now) number arrival.now self.old).outbox ≡ true) }
        ensures over { IsErrOf result SessionEnd.Overrun → fits (stopped (seen P.standing situation.now) number arrival.now self.old).outbox ≡ false }
    {
        if !self.rules.enabled {
            self.rules.clear_requests();
            return Ok(());
        }
        let text = self.stop_told(situation, number, arrival, hits)?;
        self.rules.clear_requests();
        self.send(text)
    }

    /// Another session stopped the program there. This one named no stop, so none of its breakpoints is hit, and no
    /// condition is evaluated again. Its requests end, and where it has the debugger enabled it is told.
    ///
    /// # Errors
    ///
    /// The text doesn't fit behind those that wait, or there is no memory for it. The session is to be dropped.
    pub fn stopped_by_another<P: Program>(
        &mut self,
        situation: &Situation<'_, P>,
        number: u64,
        arrival: &Arrival,
    ) -> Result<(), SessionEnd>
        requires { is_some (cause_of (seen P.standing situation.now).standing arrival.now self.old) ≡ false }
        ensures session { OnOk result (self.new ≡ stopped (seen P.standing situation.now) number arrival.now self.old) }
        ensures fits { fits self.old.outbox ≡ true → OnOk result (fits (stopped (seen P.standing situation.now) number arrival.now self.old).outbox ≡ true) }
        ensures over { IsErrOf result SessionEnd.Overrun → fits (stopped (seen P.standing situation.now) number arrival.now self.old).outbox ≡ false }
    {
        let none = Vec::new(self.alloc);
        self.stopped(situation, number, arrival, none)
    }

    /// Whether the event of a resume may wait behind the other texts.
    #[tactic(auto, using(cdp_session_messages::proofs::OutboxSizes::resumed_size))]
    fn has_room_to_resume(&self) -> bool
        ensures { result ≡ fits (self.now.outbox ++ resumed_text ∷ []) }
    {
        self.outbox.has_room(RESUMED_SIZE)
    }

    /// The program goes on: the objects of the stop end, and where the session has the debugger enabled it is told.
    ///
    /// # Errors
    ///
    /// The text doesn't fit behind those that wait, which is found out before memory is asked for, or there is no
    /// memory for it. The session is to be dropped.
    pub fn resumed(&mut self) -> Result<(), SessionEnd>
        ensures session { OnOk result (self.new ≡ resumed self.old) }
        ensures fits { fits self.old.outbox ≡ true → OnOk result (fits (resumed self.old).outbox ≡ true) }
        ensures over { IsErrOf result SessionEnd.Overrun → fits (resumed self.old).outbox ≡ false }
        ensures memory { IsErrOf result SessionEnd.Memory → fits (resumed self.old).outbox ≡ true }
    {
        self.handles.release_group(backtrace());
        self.give_up_unheld();
        if !self.rules.enabled {
            return Ok(());
        }
        if !self.has_room_to_resume() {
            return Err(SessionEnd::Overrun);
        }
        let text = resumed_text(self.alloc)?;
        self.send(text)
    }

    /// The program printed these values at this moment: where the session has the domain Runtime enabled it is told
    /// (`Runtime.consoleAPICalled`), and the objects among them are held in the group `console`.
    ///
    /// # Errors
    ///
    /// The text doesn't fit behind those that wait, or there is no memory for it. The session is to be dropped.
    pub fn printed<P: Program>(
        &mut self,
        situation: &Situation<'_, P>,
        values: &[Value],
        moment: u64,
    ) -> Result<(), SessionEnd>
        requires { moment < 2 ^ 53 }
        ensures session { OnOk result (self.new ≡ printed (seen P.standing situation.now) values.now moment self.old) }
        ensures fits { fits self.old.outbox ≡ true → OnOk result (fits (printed (seen P.standing situation.now) values.now moment self.old).outbox ≡ true) }
        ensures over { IsErrOf result SessionEnd.Overrun → fits (printed (seen P.standing situation.now) values.now moment self.old).outbox ≡ false }
    {
        if !self.runtime {
            return Ok(());
        }
        let text = self.print_told(situation, values, moment)?;
        self.send(text)
    }

    /// The run ended so at this moment: where the session has the domain Runtime enabled it is told of the throw, if
    /// one ended the run (`Runtime.exceptionThrown`), and then that the context is no more
    /// (`Runtime.executionContextDestroyed`).
    ///
    /// # Errors
    ///
    /// The texts don't fit behind those that wait, or there is no memory for them. The session is to be dropped.
    pub fn ended<P: Program>(
        &mut self,
        situation: &Situation<'_, P>,
        ending: Ending,
        moment: u64,
    ) -> Result<(), SessionEnd>
        requires { moment < 2 ^ 53 }
        ensures session { OnOk result (self.new ≡ ended (seen P.standing situation.now) ending moment self.old) }
        ensures fits { fits self.old.outbox ≡ true → OnOk result (fits (ended (seen P.standing situation.now) ending moment self.old).outbox ≡ true) }
        ensures over { IsErrOf result SessionEnd.Overrun → fits (ended (seen P.standing situation.now) ending moment self.old).outbox ≡ false }
    {
        if !self.runtime {
            return Ok(());
        }
        self.tell_ending(situation, ending, moment)?;
        let text = context_destroyed_text(self.alloc)?;
        self.send(text)
    }

    /// Tells of the throw that ended the run, if one did.
    fn tell_ending<P: Program>(
        &mut self,
        situation: &Situation<'_, P>,
        ending: Ending,
        moment: u64,
    ) -> Result<(), SessionEnd>
        requires { moment < 2 ^ 53 }
        ensures session { OnOk result (self.new ≡ ending_told (seen P.standing situation.now) ending moment self.old) }
        ensures over { IsErrOf result SessionEnd.Overrun → fits (ending_told (seen P.standing situation.now) ending moment self.old).outbox ≡ false }
    {
        match ending {
            Ending::Finished => Ok(()),
            Ending::Threw { value, place } => {
                let text = self.throw_told(situation, value, place, moment)?;
                self.send(text)
            }
        }
    }

    /// Gives up the cells of the session's evaluations, and their sources, where it holds no object in them.
    pub(crate) fn give_up_unheld(&mut self)
        ensures { self.new ≡ holding self.old.handles self.old }
    {
        if self.handles.holds_scratch() {
            return;
        }
        self.evaluations.empty();
    }

    /// Counts one more exception of which the session is told, and answers its number; the count stays at 2^62.
    pub(crate) fn count_exception(&mut self) -> u64
        ensures number { result ≡ (with_exception self.old).exceptions }
        ensures most { result ≤ 2 ^ 62 }
        ensures counted { self.new ≡ with_exception self.old }
    {
        if self.exceptions < GREATEST_EXCEPTION {
            self.exceptions += 1;
        }
        self.exceptions
    }

    // ---- commands

    /// Answers a text (JSON-RPC 2.0, section 5), which is read in this room: the reply or the refusal and the events of
    /// the command, some of which come before the reply, stand behind the texts that wait. Says what the command asks
    /// of the program. A refused command changes nothing else.
    ///
    /// # Errors
    ///
    /// The texts of the answer don't fit behind those that wait, or there is no memory for it. The session is to be
    /// dropped.
    pub fn tell<P: Program>(
        &mut self,
        situation: &Situation<'_, P>,
        room: &mut ReadingRoom,
        text: &str,
    ) -> Result<Asks, SessionEnd>
        requires { HasSpots situation.now }
        ensures session { OnOk result (self.new ≡ (answer_of (seen P.standing situation.now) self.old text.now).session) }
        ensures fits { OnOk result (fits (answer_of (seen P.standing situation.now) self.old text.now).session.outbox ≡ true) }
        ensures over { IsErrOf result SessionEnd.Overrun → fits (answer_of (seen P.standing situation.now) self.old text.now).session.outbox ≡ false }
        ensures asks { IfOk result (λ asks. asks ≡ (answer_of (seen P.standing situation.now) self.old text.now).asks) }
    {
        match read_command(self.alloc, room, text) {
            Reading::Command { id, params, .. } => self.answer(situation, id, params),
            Reading::Refused { id, refusal } => self.refuse(id, &refusal),
            Reading::Memory => Err(SessionEnd::Memory),
        }
    }

    /// Answers a text that is refused.
    fn refuse(&mut self, id: Option<u64>, refusal: &Refusal) -> Result<Asks, SessionEnd>
        ensures session { OnOk result (self.new ≡ (answer_by self.old (IsRefused id refusal.now)).session) }
        ensures fits { OnOk result (fits (answer_by self.old (IsRefused id refusal.now)).session.outbox ≡ true) }
        ensures over { IsErrOf result SessionEnd.Overrun → fits (answer_by self.old (IsRefused id refusal.now)).session.outbox ≡ false }
        ensures asks { IfOk result (λ asks. asks ≡ (answer_by self.old (IsRefused id refusal.now)).asks) }
    {
        let text = refusal_text(self.alloc, id, refusal)?;
        self.send(text)?;
        Ok(Asks::Nothing)
    }

    /// Answers a command.
    fn answer<P: Program>(
        &mut self,
        situation: &Situation<'_, P>,
        id: u64,
        params: Params,
    ) -> Result<Asks, SessionEnd>
        requires { HasSpots situation.now }
        ensures session { OnOk result (self.new ≡ (answer_by self.old (outcome_by id (comes_to (seen P.standing situation.now) self.old params))).session) }
        ensures fits { OnOk result (fits (answer_by self.old (outcome_by id (comes_to (seen P.standing situation.now) self.old params))).session.outbox ≡ true) }
        ensures over { IsErrOf result SessionEnd.Overrun → fits (answer_by self.old (outcome_by id (comes_to (seen P.standing situation.now) self.old params))).session.outbox ≡ false }
        ensures asks { IfOk result (λ asks. asks ≡ (answer_by self.old (outcome_by id (comes_to (seen P.standing situation.now) self.old params))).asks) }
    {
        match self.perform(situation, params) {
            Ok(done) => self.reply(id, done),
            Err(Fault::Refused(refusal)) => self.refuse(Some(id), &refusal),
            Err(Fault::Memory) => Err(SessionEnd::Memory),
        }
    }

    /// Sends the events before the reply to a command that was done, the reply, and the event behind it.
    fn reply(&mut self, id: u64, done: Done) -> Result<Asks, SessionEnd>
        ensures session { OnOk result (self.new ≡ sent (done_texts id done) self.old) }
        ensures asks { IfOk result (λ asks. asks ≡ done.asks) }
        ensures fits { OnOk result (fits (self.old.outbox ++ done_texts id done) ≡ true) }
        ensures over { IsErrOf result SessionEnd.Overrun → fits (self.old.outbox ++ done_texts id done) ≡ false }
    {
        let Done {
            before,
            answer,
            event,
            asks,
        } = done;
        let text = reply_text(self.alloc, id, &answer)?;
        self.send_all(before)?;
        self.send(text)?;
        self.send_event(event)?;
        Ok(asks)
    }

    /// Puts an event behind the texts that wait, if there is one.
    fn send_event(&mut self, event: Option<String>) -> Result<(), SessionEnd>
        ensures sent { OnOk result (self.new ≡ sent (map string_bytes (option_to_list event)) self.old) }
        ensures fits { fits self.old.outbox ≡ true → OnOk result (fits (self.old.outbox ++ map string_bytes (option_to_list event)) ≡ true) }
        ensures over { IsErrOf result SessionEnd.Overrun → fits (self.old.outbox ++ map string_bytes (option_to_list event)) ≡ false }
    {
        match event {
            Some(text) => self.send(text),
            None => Ok(()),
        }
    }

    /// Does what a command asks for, unless it is refused.
    fn perform<P: Program>(
        &mut self,
        situation: &Situation<'_, P>,
        params: Params,
    ) -> Result<Done, Fault>
        requires { HasSpots situation.now }
        ensures made { Makes result self.new (comes_to (seen P.standing situation.now) self.old params) }
        ensures kept { KeepsIfRefused result self.old self.new }
    {
        if let Some(refusal) = self.refusal(situation, &params) {
            return Err(Fault::Refused(refusal));
        }
        self.act(situation, params)
    }

    /// Why a command is refused before it acts, if it is.
    fn refusal<P: Program>(&self, situation: &Situation<'_, P>, params: &Params) -> Option<Refusal>
        ensures { result ≡ refusal_of (seen P.standing situation.now) self.now params.now }
    {
        if wants_enabled(params) && !self.rules.enabled {
            Some(Refusal::NotEnabled)
        } else if wants_pause(params) && situation.paused.is_none() {
            Some(Refusal::NotPaused)
        } else {
            None
        }
    }
}

//! The lock, its passes and turns.
//!
//! A thread whose ticket comes next looks a few times before it sleeps; any other sleeps at once on the berth of its
//! ticket, which it marks first. The end of a turn looks for the mark on the next berth, so it wakes only the pass whose
//! turn comes (with more than 64 waiting, also those that share the berth), and nobody where there is no mark. `split`
//! and `join` load the ticket word once more than the lock needs: by it a pass learns that its number is unused, or how
//! the two lists stand.
ghost use Rattle.std.specs.Prelude.{◌≡◌, ◌≢◌, ◌≤◌, ◌<◌, ◌+◌, ◌++◌, ℕ, List, [], ◌∷◌, true, false, length, IfOk, IfErr, OnOk, OnErr, OnSome, IfSome, IfNone, Some, None, vec_len};
ghost use Rattle.std.specs.Borrow.{Lends, sem};
ghost use Rattle.history_lock.specs.Histories.{limit, has, by, longer, Begins};
ghost use Rattle.history_lock.specs.Passes.{PassState, Follows, IsSamePass, IsNewNumber, HasInitialOnly, KeepsWhole, SeesSpent, initial_pass, initial_passes, refused_pass, split_once, split_pass, joined_pass};
ghost use Rattle.history_lock.specs.Views.{IsOpening, drawn, advanced, refused_view};
ghost use Rattle.history_lock.specs.Steps.{Looked, Comes, KnowsSpent, OnlyInitial};

use crate::kinds::{
    Advances, Draws, Joins, LastEntry, Looks, Marks, Opens, Recalls, Refuses, SplitsOff,
};
use crate::rule::OneHistory;
use crate::standing::Standing;
use crate::view::View;
use atomic_table::{Seat, Table};
use std::alloc::{AllocError, Global};
use std::hint::spin_loop;
use std::marker::{Brand, Model, PhantomData};
use std::sync::Wait;

// The words of the table: how many tickets are drawn, how many are served, and the berths, on which threads sleep.
const TICKET: usize = 0;

const SERVING: usize = 1;

const BERTHS: usize = 2;

// How many berths there are.
const BERTH_COUNT: usize = 64;

// The one slot.
const STATE: usize = 0;

// No ticket is drawn from here on.
const LIMIT: u64 = 1 << 62;

// How often a thread looks before it sleeps, if its ticket is one of the next few.
const LOOKS: u32 = 64;

const FEW: u64 = 3;

// The berth of the pass with this ticket: a word that is odd while somebody may sleep on it.
fn berth_of(ticket: u64) -> usize
    ensures { (2 ≤ result) × (result < 66) }
{
    BERTHS + (ticket % BERTH_COUNT as u64) as usize
}

/// A lock over a state that stands for the history of its turns. Contracts see which lock it is.
#[derive(Drop)]
pub struct HistoryLock<S: Standing<E, B>, E, B> {
    table: Table<Option<S>, View<E>, u64, OneHistory<S, E, B>, Global>,
}

impl<S: Standing<E, B>, E, B> Model for HistoryLock<S, E, B> {
    ghost use Rattle.std.specs.Prelude.{◌≡◌};
    ghost use Rattle.history_lock.specs.Passes.{LockId};

    ghost Value = { LockId };

    ghost view = { λ l. l.table.shared.table_id };

    ghost invariant = { λ l. (l.table.shared.table_id.words ≡ 66) × (l.table.shared.table_id.slots ≡ 1) };
}

/// Leave to take turns of one lock. Contracts see it as a `PassState`.
#[derive(Drop)]
pub struct Pass<S, E, B> {
    seat: Seat<Option<S>, View<E>>,
    beginning: PhantomData<B>,
}

impl<S, E, B> Model for Pass<S, E, B> {
    ghost use Rattle.history_lock.specs.Passes.{PassState};
    ghost use Rattle.history_lock.specs.Views.{IsSeated, shown};

    ghost Value = { PassState E };

    ghost view = { λ p. shown p.seat.table_id p.seat.me.0 };

    ghost invariant = { λ p. IsSeated p.seat.me };
}

/// The state, while a pass has the turn. It can't be dropped: a turn is always left.
pub struct Turn<S> {
    state: S,
}

impl<S> Turn<S> {
    ghost use Rattle.history_lock.specs.contracts.lock.Turn.{the_row};

    /// Lends the state.
    pub fn state(&mut self) -> &mut S
        ensures* lends { sem 𝓛 (Lends (the_row S.row) S.row self.entry result (λ s. record { state = s })) }
        ensures state { result.now ≡ self.old.state }
    {
        &mut self.state
    }
}

/// No ticket is left.
#[derive(Drop)]
pub struct Spent {
    /// The ticket word, which is 2^62.
    pub ticket: u64,
}

impl<S: Standing<E, B>, E, B> HistoryLock<S, E, B> {
    // Draws so many tickets, one after another, and answers the first, unless fewer are left.
    fn draw<R: Wait>(
        &self,
        rt: &R,
        seat: &mut Seat<Option<S>, View<E>>,
        tickets: u64,
    ) -> Option<u64>
        requires lock { seat.old.table_id ≡ self.now }
        requires tickets { (0 < tickets) × (tickets ≤ 2) }
        requires free { (seat.old.me.0.tickets ≡ 0) × (seat.old.me.0.in_turn ≡ false) × (has seat.old.me.0.number seat.old.me.0.numbers ≡ true) }
        ensures same { (seat.new.table_id ≡ seat.old.table_id) × (seat.new.id ≡ seat.old.id) × (seat.new.me.1 ≡ seat.old.me.1) }
        ensures some { IfSome result (λ ticket. seat.new.me.0 ≡ drawn seat.old.me.0 ticket tickets) }
        ensures none { IfNone result (seat.new.me.0 ≡ seat.old.me.0) }
    {
        let mut old = self.table.shared.peek(TICKET);
        for _ in rt.forever() {
            let new = if old <= LIMIT - tickets {
                old + tickets
            } else {
                old
            };
            let found = self
                .table
                .shared
                .compare_exchange::<Draws>(seat, TICKET, old, new);
            if found == old {
                return if found <= LIMIT - tickets {
                    Some(found)
                } else {
                    None
                };
            }
            old = found;
        }
        unreachable!()
    }

    // Finds that all tickets are drawn, as they are where `draw` has no single one.
    fn find_spent<R: Wait>(&self, rt: &R, seat: &mut Seat<Option<S>, View<E>>) -> u64
        requires lock { seat.old.table_id ≡ self.now }
        requires free { (seat.old.me.0.tickets ≡ 0) × (seat.old.me.0.in_turn ≡ false) × (has seat.old.me.0.number seat.old.me.0.numbers ≡ true) }
        ensures same { (seat.new.table_id ≡ seat.old.table_id) × (seat.new.id ≡ seat.old.id) × (seat.new.me.1 ≡ seat.old.me.1) }
        ensures spent { result ≡ limit }
        ensures refused { seat.new.me.0 ≡ refused_view seat.old.me.0 }
        ensures knows { KnowsSpent seat.new.me.0 }
    {
        for _ in rt.forever() {
            let ticket = self.table.shared.load::<Refuses>(seat, TICKET);
            if ticket == LIMIT {
                return ticket;
            }
        }
        unreachable!()
    }

    // Looks at the ticket that is served. Where it is the pass's own, the seat then holds the slot.
    fn look(&self, seat: &mut Seat<Option<S>, View<E>>) -> u64
        requires lock { seat.old.table_id ≡ self.now }
        requires waits { (0 < seat.old.me.0.tickets) × (seat.old.me.0.in_turn ≡ false) × (seat.old.me.1 ≡ []) }
        ensures same { (seat.new.table_id ≡ seat.old.table_id) × (seat.new.id ≡ seat.old.id) }
        ensures looked { Looked S.stands seat.old.me result seat.new.me }
    {
        self.table.shared.load::<Looks<S, E, B>>(seat, SERVING)
    }

    // Sleeps on the ticket's berth, unless the ticket is served, and looks.
    //
    // No wake is lost. The berth is marked before the look at SERVING, and `advance` looks for the mark after it raised
    // SERVING. So where the look finds an earlier ticket, the `wake` that comes with this thread's own finds the mark, or
    // another `wake` took it away before. Whoever takes it away changes the word and then wakes all who sleep on it: a
    // thread that sleeps by then is woken, and one that is about to sleep finds another word than the one it marked, and
    // doesn't. Either looks again, and marks the berth anew.
    fn sleep<R: Wait>(&self, rt: &R, seat: &mut Seat<Option<S>, View<E>>, ticket: u64) -> u64
        requires lock { seat.old.table_id ≡ self.now }
        requires waits { (0 < seat.old.me.0.tickets) × (seat.old.me.0.in_turn ≡ false) × (seat.old.me.0.ticket ≡ ticket) × (seat.old.me.1 ≡ []) }
        ensures same { (seat.new.table_id ≡ seat.old.table_id) × (seat.new.id ≡ seat.old.id) }
        ensures looked { Looked S.stands seat.old.me result seat.new.me }
    {
        let berth = berth_of(ticket);
        let marked = self.table.shared.fetch_or::<Marks>(seat, berth, 1) | 1;
        let served = self.look(seat);
        if served != ticket {
            self.table
                .shared
                .park(rt, berth, (marked % (1 << 32)) as u32);
            return self.look(seat);
        }
        served
    }

    // Wakes all who sleep on the ticket's berth, if it is marked.
    fn wake(&self, seat: &mut Seat<Option<S>, View<E>>, ticket: u64)
        requires lock { seat.old.table_id ≡ self.now }
        ensures same { (seat.new.table_id ≡ seat.old.table_id) × (seat.new.id ≡ seat.old.id) × (seat.new.me ≡ seat.old.me) }
    {
        let berth = berth_of(ticket);
        let marked = self.table.shared.peek(berth);
        if marked % 2 == 0 {
            return;
        }
        let unmarked = marked.wrapping_add(1);
        let found = self
            .table
            .shared
            .compare_exchange::<Marks>(seat, berth, marked, unmarked);
        if found == marked {
            self.table.shared.wake_all(berth);
        }
    }

    // Looks again: soon, or if the ticket isn't one of the next few, and after many looks, when it was woken.
    fn look_again<R: Wait>(
        &self,
        rt: &R,
        seat: &mut Seat<Option<S>, View<E>>,
        ticket: u64,
        served: u64,
        looks: u32,
    ) -> u64
        requires lock { seat.old.table_id ≡ self.now }
        requires waits { (0 < seat.old.me.0.tickets) × (seat.old.me.0.in_turn ≡ false) × (seat.old.me.0.ticket ≡ ticket) × (seat.old.me.1 ≡ []) }
        ensures same { (seat.new.table_id ≡ seat.old.table_id) × (seat.new.id ≡ seat.old.id) }
        ensures looked { Looked S.stands seat.old.me result seat.new.me }
    {
        if looks < LOOKS && ticket.abs_diff(served) <= FEW {
            spin_loop();
            return self.look(seat);
        }
        self.sleep(rt, seat, ticket)
    }

    // Waits until the ticket is served.
    fn wait<R: Wait>(&self, rt: &R, seat: &mut Seat<Option<S>, View<E>>, ticket: u64)
        requires lock { seat.old.table_id ≡ self.now }
        requires waits { (0 < seat.old.me.0.tickets) × (seat.old.me.0.in_turn ≡ false) × (seat.old.me.0.ticket ≡ ticket) × (seat.old.me.1 ≡ []) }
        ensures same { (seat.new.table_id ≡ seat.old.table_id) × (seat.new.id ≡ seat.old.id) }
        ensures turn { Comes S.stands seat.old.me seat.new.me }
    {
        let mut served = self.look(seat);
        let mut looks: u32 = 0;
        for _ in rt.forever() {
            if served == ticket {
                return;
            }
            served = self.look_again(rt, seat, ticket, served, looks);
            looks = looks.saturating_add(1);
        }
        unreachable!()
    }

    // Puts the state back into the slot.
    fn put_back(&self, seat: &mut Seat<Option<S>, View<E>>, turn: Turn<S>)
        requires lock { seat.old.table_id ≡ self.now }
        requires empty { seat.old.me.1 ≡ (0, None) ∷ [] }
        ensures same { (seat.new.table_id ≡ seat.old.table_id) × (seat.new.id ≡ seat.old.id) }
        ensures back { seat.new.me ≡ (seat.old.me.0, (0, Some turn.state) ∷ []) }
    {
        let Turn { state } = turn;
        self.table.shared.exchange(seat, STATE, Some(state));
    }

    // Ends the turn with the entry, and wakes the pass with the ticket after those of this one.
    fn advance<X: LastEntry<E>>(&self, seat: &mut Seat<Option<S>, View<E>>, tickets: u64, entry: &E)
        requires lock { seat.old.table_id ≡ self.now }
        requires turn { (seat.old.me.0.tickets ≡ tickets) × (0 < tickets) × (tickets ≤ 2) × (seat.old.me.0.in_turn ≡ true) }
        requires ending { X.entries ≡ entry.now ∷ [] }
        requires stands { (state : S) × (seat.old.me.1 ≡ (0, Some state) ∷ []) × S.stands state (seat.old.me.0.seen ++ (seat.old.me.0.number, entry.now) ∷ []) }
        ensures same { (seat.new.table_id ≡ seat.old.table_id) × (seat.new.id ≡ seat.old.id) }
        ensures after { seat.new.me ≡ (advanced seat.old.me.0 (entry.now ∷ []), []) }
        ensures only { OnlyInitial seat.new.me.0 }
    {
        let served = self
            .table
            .shared
            .fetch_add::<Advances<X>>(seat, SERVING, tickets);
        self.wake(seat, served + tickets);
    }

    // The same with the entries of two turns.
    fn advance_twice<X: LastEntry<E>>(
        &self,
        seat: &mut Seat<Option<S>, View<E>>,
        first: &E,
        second: &E,
    )
        requires lock { seat.old.table_id ≡ self.now }
        requires turn { (seat.old.me.0.tickets ≡ 2) × (seat.old.me.0.in_turn ≡ true) }
        requires ending { X.entries ≡ first.now ∷ second.now ∷ [] }
        requires stands { (state : S) × (seat.old.me.1 ≡ (0, Some state) ∷ []) × S.stands state (seat.old.me.0.seen ++ (seat.old.me.0.number, first.now) ∷ (seat.old.me.0.number, second.now) ∷ []) }
        ensures same { (seat.new.table_id ≡ seat.old.table_id) × (seat.new.id ≡ seat.old.id) }
        ensures after { seat.new.me ≡ (advanced seat.old.me.0 (first.now ∷ second.now ∷ []), []) }
        ensures only { OnlyInitial seat.new.me.0 }
    {
        let served = self.table.shared.fetch_add::<Advances<X>>(seat, SERVING, 2);
        self.wake(seat, served + 2);
    }
}

impl<S: Standing<E, B>, E, B> HistoryLock<S, E, B> {
    // The lock, and the seat of the pass that opens the others.
    fn build(
        alloc: Global,
        state: S,
        passes: usize,
    ) -> Result<(HistoryLock<S, E, B>, Seat<Option<S>, View<E>>), AllocError>
        requires passes { 0 < passes }
        requires stands { S.stands state [] }
        ensures { IfOk result (λ r. (r.1.table_id ≡ r.0) × IsOpening passes 0 r.0 r.1.me) }
    {
        let mut slots = Vec::new(alloc);
        slots.push(Some(state))?;
        let Ok((table, seat)) = Table::new(
            alloc,
            &[0; BERTHS + BERTH_COUNT],
            slots,
            &(passes as u64),
        ) else {
            return Err(AllocError);
        };
        Ok((HistoryLock { table }, seat))
    }

    // The next of the passes that the lock begins with.
    fn open(&self, seat: &mut Seat<Option<S>, View<E>>) -> Pass<S, E, B>
        requires lock { seat.old.table_id ≡ self.now }
        requires more { seat.old.me.0.unopened + 1 < seat.old.me.0.initial }
        requires opens { IsOpening seat.old.me.0.initial seat.old.me.0.unopened self.now seat.old.me }
        ensures lock { seat.new.table_id ≡ self.now }
        ensures opened { result ≡ initial_pass self.now seat.old.me.0.initial seat.old.me.0.unopened }
        ensures opens { IsOpening seat.old.me.0.initial (seat.old.me.0.unopened + 1) self.now seat.new.me }
    {
        Pass {
            seat: self.table.shared.split_seat::<Opens>(seat),
            beginning: PhantomData,
        }
    }

    // All passes that the lock begins with, in the order of their numbers.
    fn open_all(
        &self,
        alloc: Global,
        mut seat: Seat<Option<S>, View<E>>,
        passes: usize,
    ) -> Result<Vec<Pass<S, E, B>>, AllocError>
        requires lock { seat.table_id ≡ self.now }
        requires opens { (0 < passes) × IsOpening passes 0 self.now seat.me }
        ensures { IfOk result (λ all. all.items ≡ initial_passes self.now passes passes) }
    {
        let mut all = Vec::new(alloc);
        while all.len() + 1 < passes {
            all.push(self.open(&mut seat))?;
        }
        all.push(Pass {
            seat,
            beginning: PhantomData,
        })?;
        Ok(all)
    }
}

impl<S: Standing<E, B>, E, B> HistoryLock<S, E, B> {
    /// A lock over a state that stands for the empty history, with so many passes, numbered from 0 on.
    ///
    /// It fails where memory is wanting.
    pub fn new(
        alloc: Global,
        state: S,
        passes: usize,
    ) -> Result<(HistoryLock<S, E, B>, Vec<Pass<S, E, B>>), AllocError>
        requires passes { 0 < passes }
        requires stands { S.stands state [] }
        ensures passes { IfOk result (λ r. r.1.items ≡ initial_passes r.0 passes passes) }
    {
        let (lock, seat) = HistoryLock::build(alloc, state, passes)?;
        let all = lock.open_all(alloc, seat, passes)?;
        Ok((lock, all))
    }

    // Waits for a turn with so many tickets, unless fewer are left.
    fn enter_with<R: Wait>(&self, rt: &R, p: &mut Pass<S, E, B>, tickets: u64) -> Option<Turn<S>>
        requires lock { p.old.lock ≡ self.now }
        requires tickets { (0 < tickets) × (tickets ≤ 2) }
        requires free { p.old.in_turn ≡ false }
        ensures state { IfSome result (λ turn. S.stands turn.state p.new.seen) }
        ensures seen { OnSome result (Follows p.old p.new) }
        ensures bound { OnSome result (length p.new.seen < limit) }
        ensures turn { OnSome result (p.new.in_turn ≡ true) }
        ensures tickets { OnSome result (p.new.tickets ≡ tickets) }
        ensures only { OnSome result (HasInitialOnly p.new) }
        ensures none { IfNone result (p.new ≡ p.old) }
        ensures named { has p.new.number p.new.numbers ≡ true }
        ensures same { IsSamePass p.old p.new }
    {
        let Some(ticket) = self.draw(rt, &mut p.seat, tickets) else {
            return None;
        };
        self.wait(rt, &mut p.seat, ticket);
        let Some(state) = self.table.shared.exchange(&mut p.seat, STATE, None) else {
            unreachable!()
        };
        Some(Turn { state })
    }

    // The pass is refused a ticket.
    fn refuse<R: Wait>(&self, rt: &R, p: &mut Pass<S, E, B>) -> Spent
        requires lock { p.old.lock ≡ self.now }
        requires free { p.old.in_turn ≡ false }
        ensures spent { result.ticket ≡ limit }
        ensures refused { p.new ≡ refused_pass p.old }
        ensures sees { SeesSpent p.new }
        ensures named { has p.new.number p.new.numbers ≡ true }
        ensures same { IsSamePass p.old p.new }
    {
        Spent {
            ticket: self.find_spent(rt, &mut p.seat),
        }
    }

    /// Waits for a turn. The state stands for the history that the pass has then seen.
    ///
    /// # Errors
    ///
    /// `Spent` where the ticket word is 2^62: all tickets are drawn, and the pass is refused one. Once a pass that was
    /// refused one, or into which such a pass was joined, answers for all the numbers that the lock began with, it has
    /// seen at least 2^61 entries.
    pub fn enter<R: Wait>(&self, rt: &R, p: &mut Pass<S, E, B>) -> Result<Turn<S>, Spent>
        requires lock { p.old.lock ≡ self.now }
        requires free { p.old.in_turn ≡ false }
        ensures state { IfOk result (λ turn. S.stands turn.state p.new.seen) }
        ensures seen { OnOk result (Follows p.old p.new) }
        ensures bound { OnOk result (length p.new.seen < limit) }
        ensures turn { OnOk result (p.new.in_turn ≡ true) }
        ensures ticket { OnOk result (p.new.tickets ≡ 1) }
        ensures only { OnOk result (HasInitialOnly p.new) }
        ensures spent { IfErr result (λ e. e.ticket ≡ limit) }
        ensures none { OnErr result (p.new ≡ refused_pass p.old) }
        ensures sees { OnErr result (SeesSpent p.new) }
        ensures named { has p.new.number p.new.numbers ≡ true }
        ensures same { IsSamePass p.old p.new }
    {
        let Some(turn) = self.enter_with(rt, p, 1) else {
            return Err(self.refuse(rt, p));
        };
        Ok(turn)
    }

    /// Waits for two turns, one right after the other, which end together. It answers `None`, and nothing has changed,
    /// where fewer than two tickets are left.
    pub fn enter_twice<R: Wait>(&self, rt: &R, p: &mut Pass<S, E, B>) -> Option<Turn<S>>
        requires lock { p.old.lock ≡ self.now }
        requires free { p.old.in_turn ≡ false }
        ensures state { IfSome result (λ turn. S.stands turn.state p.new.seen) }
        ensures seen { OnSome result (Follows p.old p.new) }
        ensures bound { OnSome result (length p.new.seen < limit) }
        ensures turn { OnSome result (p.new.in_turn ≡ true) }
        ensures tickets { OnSome result (p.new.tickets ≡ 2) }
        ensures only { OnSome result (HasInitialOnly p.new) }
        ensures none { IfNone result (p.new ≡ p.old) }
        ensures named { has p.new.number p.new.numbers ≡ true }
        ensures same { IsSamePass p.old p.new }
    {
        self.enter_with(rt, p, 2)
    }

    // Ends a turn that has so many tickets with one entry.
    fn leave_with(&self, p: &mut Pass<S, E, B>, turn: Turn<S>, tickets: u64, entry: &E)
        requires lock { p.old.lock ≡ self.now }
        requires turn { p.old.in_turn ≡ true }
        requires tickets { (p.old.tickets ≡ tickets) × (tickets ≤ 2) }
        requires stands { S.stands turn.state (p.old.seen ++ (p.old.number, entry.now) ∷ []) }
        ensures seen { p.new.seen ≡ p.old.seen ++ (p.old.number, entry.now) ∷ [] }
        ensures free { p.new.in_turn ≡ false }
        ensures only { HasInitialOnly p.new }
        ensures same { IsSamePass p.old p.new }
    {
        self.put_back(&mut p.seat, turn);
        self.advance::<Brand>(&mut p.seat, tickets, entry);
    }

    /// Ends a turn with its entry. The state stands for the history with it, and the pass has seen both.
    pub fn leave(&self, p: &mut Pass<S, E, B>, turn: Turn<S>, entry: &E)
        requires lock { p.old.lock ≡ self.now }
        requires turn { p.old.in_turn ≡ true }
        requires ticket { p.old.tickets ≡ 1 }
        requires stands { S.stands turn.state (p.old.seen ++ (p.old.number, entry.now) ∷ []) }
        ensures seen { p.new.seen ≡ p.old.seen ++ (p.old.number, entry.now) ∷ [] }
        ensures free { p.new.in_turn ≡ false }
        ensures only { HasInitialOnly p.new }
        ensures same { IsSamePass p.old p.new }
    {
        self.leave_with(p, turn, 1, entry);
    }

    /// Ends two turns with the entry of the first, and the second leaves none. The state stands for the history with it.
    pub fn leave_once(&self, p: &mut Pass<S, E, B>, turn: Turn<S>, entry: &E)
        requires lock { p.old.lock ≡ self.now }
        requires turn { p.old.in_turn ≡ true }
        requires tickets { p.old.tickets ≡ 2 }
        requires stands { S.stands turn.state (p.old.seen ++ (p.old.number, entry.now) ∷ []) }
        ensures seen { p.new.seen ≡ p.old.seen ++ (p.old.number, entry.now) ∷ [] }
        ensures free { p.new.in_turn ≡ false }
        ensures only { HasInitialOnly p.new }
        ensures same { IsSamePass p.old p.new }
    {
        self.leave_with(p, turn, 2, entry);
    }

    /// Ends two turns with an entry of each. The state stands for the history with both, and the pass has seen them.
    pub fn leave_twice(&self, p: &mut Pass<S, E, B>, turn: Turn<S>, first: &E, second: &E)
        requires lock { p.old.lock ≡ self.now }
        requires turn { p.old.in_turn ≡ true }
        requires tickets { p.old.tickets ≡ 2 }
        requires stands { S.stands turn.state ((p.old.seen ++ (p.old.number, first.now) ∷ []) ++ (p.old.number, second.now) ∷ []) }
        ensures seen { p.new.seen ≡ (p.old.seen ++ (p.old.number, first.now) ∷ []) ++ (p.old.number, second.now) ∷ [] }
        ensures free { p.new.in_turn ≡ false }
        ensures only { HasInitialOnly p.new }
        ensures same { IsSamePass p.old p.new }
    {
        self.put_back(&mut p.seat, turn);
        self.advance_twice::<Brand>(&mut p.seat, first, second);
    }

    /// A further pass with a new number, which has seen what this one has.
    pub fn split(&self, p: &mut Pass<S, E, B>) -> Pass<S, E, B>
        requires lock { p.old.lock ≡ self.now }
        requires free { p.old.in_turn ≡ false }
        ensures new { result ≡ split_pass p.old result.number }
        ensures number { IsNewNumber p.old result.number }
        ensures split { p.new ≡ split_once p.old }
    {
        self.table.shared.load::<Recalls>(&mut p.seat, TICKET);
        Pass {
            seat: self.table.shared.split_seat::<SplitsOff>(&mut p.seat),
            beginning: PhantomData,
        }
    }

    /// Joins another pass into this one, which then answers for the numbers of both and keeps the longer list.
    pub fn join(&self, p: &mut Pass<S, E, B>, other: Pass<S, E, B>)
        requires lock { (p.old.lock ≡ self.now) × (other.lock ≡ self.now) }
        requires free { (p.old.in_turn ≡ false) × (other.in_turn ≡ false) }
        ensures joined { p.new ≡ joined_pass p.old other }
        ensures both { Begins p.old.seen p.new.seen × Begins other.seen p.new.seen }
        ensures own { KeepsWhole p.old p.new.seen }
        ensures others { KeepsWhole other p.new.seen }
        ensures apart { (x : ℕ) → has x p.old.numbers ≡ true → has x other.numbers ≡ false }
        ensures only { HasInitialOnly p.new }
        ensures sees { SeesSpent p.new }
    {
        let Pass { seat, beginning: _ } = other;
        self.table.shared.join_seat::<Joins>(&mut p.seat, seat);
        self.table.shared.load::<Recalls>(&mut p.seat, TICKET);
    }
}

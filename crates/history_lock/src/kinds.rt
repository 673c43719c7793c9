//! The kinds of steps, each with what it tells.
use crate::standing::Standing;
use crate::view::View;
use atomic_table::{Join, Play, Split};
use std::marker::{Brand, PhantomData};

/// Tickets are drawn.
pub struct Draws;

impl<S, E> Play<Option<S>, View<E>> for Draws {
    ghost use Rattle.history_lock.specs.Steps.{Drawn};

    ghost then = { Drawn };
}

/// A look at the ticket that is served.
pub struct Looks<S, E, B> {
    marker: PhantomData<(S, E, B)>,
}

impl<S: Standing<E, B>, E, B> Play<Option<S>, View<E>> for Looks<S, E, B> {
    ghost use Rattle.history_lock.specs.Steps.{Looked};

    ghost then = { λ _. Looked S.stands };
}

/// The entries that a turn ends with.
pub trait LastEntry<E> {
    ghost use Rattle.std.specs.Prelude.{List};

    ghost entries: { List E };
}

impl<E> LastEntry<E> for Brand {
    ghost use Rattle.std.specs.Prelude.{[]};

    ghost entries = { [] };
}

/// The ticket after those of the pass is served, and the history has the entries.
pub struct Advances<X> {
    marker: PhantomData<X>,
}

impl<S, E, X: LastEntry<E>> Play<Option<S>, View<E>> for Advances<X> {
    ghost use Rattle.history_lock.specs.Steps.{Advanced};

    ghost then = { Advanced X.entries };
}

/// A look at the ticket word, by which a pass is refused a ticket where all are drawn.
pub struct Refuses;

impl<S, E> Play<Option<S>, View<E>> for Refuses {
    ghost use Rattle.history_lock.specs.Steps.{Refused};

    ghost then = { Refused };
}

/// A berth is marked, as somebody goes to sleep there, or its mark is taken away.
pub struct Marks;

impl<S, E> Play<Option<S>, View<E>> for Marks {
    ghost use Rattle.history_lock.specs.Steps.{Marked};

    ghost then = { Marked };
}

/// One of the passes that a lock begins with is opened.
pub struct Opens;

impl<E> Split<View<E>> for Opens {
    ghost use Rattle.history_lock.specs.Views.{opened, newly_opened};

    ghost left = { opened };

    ghost right = { newly_opened };
}

/// A pass is split off another.
pub struct SplitsOff;

impl<E> Split<View<E>> for SplitsOff {
    ghost use Rattle.history_lock.specs.Views.{divided, split_off};

    ghost left = { divided };

    ghost right = { split_off };
}

/// Two passes become one.
pub struct Joins;

impl<E> Join<View<E>> for Joins {
    ghost use Rattle.history_lock.specs.Views.{joined, nobody};

    ghost both = { joined };

    ghost spent = { nobody };
}

/// A load of the ticket word, by which a pass learns what it may rely on when it is split or joined.
pub struct Recalls;

impl<S, E> Play<Option<S>, View<E>> for Recalls {
    ghost use Rattle.history_lock.specs.Steps.{Recalled};

    ghost then = { Recalled };
}

//! What a pass knows, for proofs alone.
use std::collections::LinkedList;

/// What a pass knows of the history and of itself. No value of it is made.
pub struct View<E> {
    /// Its own number, those that it answers for, and how many passes were split off any of them.
    pub number: u64,
    pub numbers: LinkedList<u64>,
    pub splits: u64,
    /// The history so far, each entry with its maker.
    pub seen: LinkedList<(u64, E)>,
    /// How many tickets it holds, one after another, the first of them, and whether it has the turn.
    pub tickets: u64,
    pub ticket: u64,
    pub in_turn: bool,
    /// Whether it was refused a ticket, since all were drawn.
    pub refused: bool,
    /// How many passes the lock begins with, and the first of them that this one is still to open.
    pub initial: u64,
    pub unopened: u64,
    /// The numbers that it may give to passes that it splits off: `base`, `base + stride`, and so on.
    pub base: u64,
    pub stride: u64,
    /// What the two passes answered for and had seen that were last joined into it.
    pub own_numbers: LinkedList<u64>,
    pub own_seen: LinkedList<(u64, E)>,
    pub other_numbers: LinkedList<u64>,
    pub other_seen: LinkedList<(u64, E)>,
}

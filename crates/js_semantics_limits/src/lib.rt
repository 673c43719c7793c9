//! What worlds count is what they hold, and no more calls are active than may be: laws alone.
//!
//! A world counts down the room that is left in it. These laws say that no step makes cells, or units of them, which the room
//! doesn't pay for, and none pays for what isn't made. A run keeps a frame for each call that is active in it, and at most
//! 1,000.
//!
//! Its words in contracts:
//!
//! - `all_cells`, `all_units`: what a world holds, and what it may still make, together
//! - *balances*: one world has as much of both as another
//! - `active_calls`: the execution contexts of a term's calls (ECMA-262, 9.4): the bodies that were entered and aren't at
//!   their end
//! - *at rest*: no call is active
#![tactic(auto)]

mod laws;

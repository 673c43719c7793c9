//! What a program means, step by step.
//!
//! A row is an action, and one definition performs every action, so what holds of every step is proved once.
//!
//! Words of its own, which stand in `specs/`:
//!
//! - `Term`: what is left of a program: a value (`done`), a throw that stands (`standing`), or a form with the parts that are reduced from
//!   left to right and those that are kept for later (`part`).
//! - `State`: what a step threads beside the term: the world, the active calls, the `this` outside them, the input lines left, and the
//!   texts printed.
//! - `Action`: the changes that one step makes, one after another, and what it ends in; `perform` makes them.
//! - `Move`: what a step makes of a term: another term, a completion that travels on outward, or the end of an evaluation.
//! - `row`: the table of steps: the action of a form whose parts have their values. `next` is one step, of the leftmost innermost part.
//! - `Run`: a term with its state, or how the run ended; `plain` is the run of scripts after so many steps.
//! - `MadeExpression` and `MadeStatement`: the makers' answers, from which the terms of expressions and statements come
//!   for the place where they stand.
//! - Sound (`SoundRun`): all that is named is live and of the right kind. Shaped (`ShapedRun`): each form has the parts that its row takes.
//!   Waiting (`RunWaits`): what takes no step is done at once. Listed (`RunListsFrames`): the frames of the state are those of the term.
#![tactic(auto)]

pub mod bounds;
pub mod form;
pub mod laws;
pub mod offsets;
pub mod words;

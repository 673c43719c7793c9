//! Tests of what no call of the program shows: tokens and trees, a full heap, where a machine stands. It holds nothing
//! else.
#![tactic(auto)]

#[cfg(test)]
mod answers;
#[cfg(test)]
mod full_heaps;
#[cfg(test)]
mod lexer;
#[cfg(test)]
mod parser;
#[cfg(test)]
mod standing;
#[cfg(test)]
mod state;
#[cfg(test)]
mod texts;

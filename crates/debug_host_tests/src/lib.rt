//! Tests of the program where it takes a sink of its own, of the journal that a server stored, and of the real files and
//! writers. All else is a case of `debug_host_cases`. It holds nothing else.
#![tactic(auto)]

#[cfg(test)]
mod edges;
#[cfg(test)]
mod piece_sink;
#[cfg(test)]
mod pieces;
#[cfg(test)]
mod serving;

//! The terms of trees: what each form of the grammar is before its first step.
#![tactic(auto)]

mod blocks;
mod declarators;
mod expressions;
mod functions;
pub mod kept;
mod loops;
mod objects;
pub mod script;
mod statements;

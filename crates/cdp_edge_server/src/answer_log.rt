//! The answers that a link in memory gave.

ghost use Rattle.std.specs.Prelude.{◌≡◌, ◌≢◌, ◌<◌, ◌≤◌, ◌++◌, ◌∷◌, [], replicate, vec_len, vec_capacity, IfSome, OnOk};
ghost use Rattle.cdp_edge_server.specs.AnswerLog.{answers_of, answers_in, HasRoom};
ghost use Rattle.cdp_edge_server.specs.Heard.{heard_of, Quiet};

use crate::Recv;
use std::alloc::{AllocError, Global};

/// An answer, or a run of quiet ones.
#[derive(Drop)]
pub enum LoggedAnswer {
    Text(String),
    Binary,
    TooBig,
    Quiet(u64),
    Closed,
    Failed,
}

/// The answers so far, a run of quiet ones as one number.
#[derive(Drop)]
pub struct AnswerLog {
    answers: Vec<LoggedAnswer>,
}

/// A copy of an answer that is not want of memory; None at want of memory.
pub fn copy_of(alloc: Global, answer: &Recv) -> Option<LoggedAnswer>
    ensures heard { IfSome result (λ copy. answers_of copy ≡ heard_of answer.now) }
    ensures given { IfSome result (λ _. answer.now ≢ Recv.Memory) }
{
    match answer {
        Recv::Text(text) => match String::from_str(alloc, text) {
            Ok(text) => Some(LoggedAnswer::Text(text)),
            Err(_) => None,
        },
        Recv::Binary => Some(LoggedAnswer::Binary),
        Recv::TooBig => Some(LoggedAnswer::TooBig),
        Recv::Quiet => Some(LoggedAnswer::Quiet(1)),
        Recv::Closed => Some(LoggedAnswer::Closed),
        Recv::Failed => Some(LoggedAnswer::Failed),
        Recv::Memory => None,
    }
}

impl AnswerLog {
    /// A log of no answer. It takes no memory.
    pub fn new(alloc: Global) -> AnswerLog
        ensures { answers_in result ≡ [] }
    {
        AnswerLog {
            answers: Vec::new(alloc),
        }
    }

    /// Takes the room for one more answer.
    pub fn prepare(&mut self) -> Result<(), AllocError>
        ensures room { OnOk result (HasRoom self.new) }
        ensures same { answers_in self.new ≡ answers_in self.old }
    {
        self.answers.reserve(1)
    }

    /// Keeps an answer, for which there is room.
    pub fn note(&mut self, answer: LoggedAnswer)
        requires { HasRoom self.old }
        ensures { answers_in self.new ≡ answers_in self.old ++ answers_of answer }
    {
        match answer {
            LoggedAnswer::Quiet(count) => self.note_quiet(count),
            other => self.answers.push(other).unwrap(),
        }
    }

    /// Keeps so many quiet answers, in the run that the log ends with if it can have them.
    #[tactic(auto, using(crate::proofs::AnswerLemmas::runs))]
    fn note_quiet(&mut self, count: u64)
        requires { HasRoom self.old }
        ensures { answers_in self.new ≡ answers_in self.old ++ replicate count Quiet }
    {
        let run = self.take_run(u64::MAX - count);
        self.answers.push(LoggedAnswer::Quiet(run + count)).unwrap();
    }

    /// Takes off the run of quiet answers that the log ends with, if it has at most so many.
    fn take_run(&mut self, most: u64) -> u64
        requires { HasRoom self.old }
        ensures within { result ≤ most }
        ensures room { HasRoom self.new }
        ensures answers { answers_in self.old ≡ answers_in self.new ++ replicate result Quiet }
    {
        match self.answers.pop() {
            Some(LoggedAnswer::Quiet(run)) => {
                if run <= most {
                    return run;
                }
                self.answers.push(LoggedAnswer::Quiet(run)).unwrap();
                0
            }
            Some(last) => {
                self.answers.push(last).unwrap();
                0
            }
            None => 0,
        }
    }
}

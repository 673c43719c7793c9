//! How far a conversation has come.

ghost use Rattle.std.specs.Prelude.{◌≡◌, ◌∷◌, [], Some, None, map, IfOk, OnOk, string_bytes};
ghost use Rattle.std.specs.Option.{option_map};
ghost use Rattle.serde_json.specs.View.{view};
ghost use Rattle.cdp_edge_server.specs.Heard.{Text};
ghost use Rattle.cdp_text.specs.Lines.{ended};
ghost use Rattle.cdp_client.specs.ArrivalRead.{arrival_held};
ghost use Rattle.cdp_client.specs.Arrivals.{line_written, value_arrival};
ghost use Rattle.cdp_client.specs.LineRead.{command_held, line_held};
ghost use Rattle.cdp_client.specs.Talks.{after, course_heard, is_over, is_wait_for, lines_heard, next_command, start, taken, without_wait};

use crate::arrival::{ArrivedText, arrival_of};
use crate::line::{Command, Line};
use crate::texts::line_written;
use crate::values::value_of;
use serde_json::Value;
use std::alloc::{AllocError, Global};
use std::collections::VecDeque;
use std::marker::Model;

/// How far a conversation has come.
#[derive(Drop)]
pub(crate) struct Course<'c> {
    /// The lines that are still to be done, but for the waits that are met already.
    lines: VecDeque<Line<'c>>,
    /// The command whose reply is awaited, if one is.
    awaited: Option<Command<'c>>,
    /// How many commands were answered.
    replies: u64,
}

impl<'c> Model for Course<'c> {
    ghost use Rattle.std.specs.Prelude.{map};
    ghost use Rattle.std.specs.Option.{option_map};
    ghost use Rattle.cdp_client.specs.LineRead.{command_held, line_held};
    ghost use Rattle.cdp_client.specs.Talks.{Course as Meant};

    ghost Value = { Meant };

    ghost view = { λ c. record {
      lines = map line_held c.lines.items;
      awaited = option_map command_held c.awaited;
      replies = c.replies;
    } };
}

/// Whether a line waits for this method.
fn is_wait_for(line: &Line<'_>, method: &str) -> bool
    ensures { result ≡ is_wait_for method.now (line_held line.now) }
{
    match line {
        Line::Send(_) => false,
        Line::Wait(other) => *other == method,
    }
}

/// Takes the first wait for this method out, if there is one.
fn take_wait(lines: &mut VecDeque<Line<'_>>, method: &str)
    ensures { map line_held lines.new.items ≡ without_wait method.now (map line_held lines.old.items) }
{
    for place in 0..lines.len() {
        if is_wait_for(&lines[place], method) {
            lines.remove(place);
            return;
        }
    }
}

impl<'c> Course<'c> {
    /// The beginning, with these lines to be done. It takes no memory.
    pub(crate) fn new(lines: VecDeque<Line<'c>>) -> Course<'c>
        ensures { result ≡ start (map line_held lines.entry.items) }
    {
        Course {
            lines,
            awaited: None,
            replies: 0,
        }
    }

    /// How many commands were answered.
    pub(crate) fn replies(&self) -> u64
        ensures { result ≡ self.now.replies }
    {
        self.replies
    }

    /// Whether nothing is left to be done.
    pub(crate) fn is_over(&self) -> bool
        ensures { result ≡ is_over self.now }
    {
        match self.awaited {
            Some(_) => false,
            None => self.lines.is_empty(),
        }
    }

    /// The command that is to be sent now, if one is: no reply is awaited, and the next line is a command. Its reply is
    /// awaited from here on.
    pub(crate) fn take_command(&mut self) -> Option<Command<'c>>
        ensures command { option_map command_held result ≡ next_command self.old }
        ensures course { self.new ≡ taken self.old (next_command self.old) }
    {
        if self.awaited.is_some() {
            return None;
        }
        let command = match self.lines.front() {
            Some(Line::Send(command)) => *command,
            Some(Line::Wait(_)) => return None,
            None => return None,
        };
        self.lines.pop_front();
        self.awaited = Some(command);
        Some(command)
    }

    /// Goes on after a text that is this.
    fn go_on(&mut self, arrival: &ArrivedText<'_, '_>)
        ensures { self.new ≡ after self.old (arrival_held arrival.now) }
    {
        match arrival {
            ArrivedText::Reply(command) => {
                self.awaited = None;
                self.replies = command.id;
            }
            ArrivedText::Event(Some(method)) => take_wait(&mut self.lines, *method),
            ArrivedText::Event(None) => {}
            ArrivedText::Other => {}
        }
    }

    /// Goes on after a text that has this value. The line that is written of it.
    fn hear_value(&mut self, alloc: Global, value: &Value, text: &str) -> Result<String, AllocError>
        ensures course { self.new ≡ after self.old (value_arrival self.old.awaited (view value.now)) }
        ensures line { IfOk result (λ line. string_bytes line
            ≡ ended (line_written (value_arrival self.old.awaited (view value.now)) text.now ∷ [])) }
    {
        let arrival = arrival_of(value, self.awaited);
        self.go_on(&arrival);
        line_written(alloc, &arrival, text)
    }

    /// Goes on after a text that arrives. The line that is written of it, with its LF.
    ///
    /// # Errors
    ///
    /// There is no memory for the line; the conversation can't go on.
    pub(crate) fn hear(&mut self, alloc: Global, text: &str) -> Result<String, AllocError>
        ensures course { OnOk result (self.new ≡ course_heard self.old (Text text.now)) }
        ensures line { IfOk result (λ line. string_bytes line ≡ ended (lines_heard self.old (Text text.now))) }
    {
        match value_of(alloc, text)? {
            Some(value) => self.hear_value(alloc, &value, text),
            None => line_written(alloc, &ArrivedText::Other, text),
        }
    }
}

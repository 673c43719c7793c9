//! The laws of commands, of what is written, and of messages. Each function does nothing: its contract is the law, for
//! every JSON value.

ghost use Rattle.cdp_json.specs.CommandForm.{CommandIsRead, ReadIsCommand};
ghost use Rattle.cdp_json.specs.MessageForm.{EventIsValue, RefusalIsValue, ResultIsValue};
ghost use Rattle.cdp_json.specs.ReadBack.{GivenIsReadBack, WholeKeysDiffer, WrittenIsReadBack};

/// What is read as a command is that command.
pub fn read_is_command()
    ensures { ReadIsCommand }
{}

/// What is a command is read as that command.
pub fn command_is_read()
    ensures { CommandIsRead }
{}

/// What is written is read back by `serde_json`, with the members of each object in the order in which they are written.
pub fn written_is_read_back()
    ensures { WrittenIsReadBack }
{}

/// What is written is read back by `serde_json` as it was given, where keys of one text are the same units.
pub fn given_is_read_back()
    ensures { GivenIsReadBack }
{}

/// Keys whose surrogates all have partners are the same units where they have one text.
pub fn whole_keys_differ()
    ensures { WholeKeysDiffer }
{}

/// The reply to a command that was done is the compact text of an object.
pub fn result_is_value()
    ensures { ResultIsValue }
{}

/// The reply to a command that is refused is the compact text of an object.
pub fn refusal_is_value()
    ensures { RefusalIsValue }
{}

/// An event is the compact text of an object.
pub fn event_is_value()
    ensures { EventIsValue }
{}

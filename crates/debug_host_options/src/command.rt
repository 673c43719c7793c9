//! The commands, and which options each has.

ghost use Rattle.std.specs.Prelude.{◌≡◌};
ghost use Rattle.debug_host_options.specs.Commands.{command_named, has_option, has_value, option_named};

/// A command of the program.
#[derive(Clone, Copy)]
pub enum Subcommand {
    /// Runs scripts.
    Run,
    /// Replays a journal over scripts.
    Replay,
    /// Replays the journal and the script of a number.
    Drill,
    /// Serves clients and runs scripts.
    Serve,
    /// Sends commands to a serving host.
    Send,
}

/// The name of an option.
#[derive(Clone, Copy, PartialEq)]
pub enum OptionName {
    /// The port, `--port P`.
    Port,
    /// The most clients at once, `--sessions N`.
    Sessions,
    /// The file of the lines of input, `--input FILE`.
    Input,
    /// The file that the journal is stored in, `--journal FILE`.
    Journal,
    /// Whether the program waits for a client, `--wait`.
    Wait,
    /// Whether DevTools is let in, `--devtools`.
    Devtools,
    /// Whether the causes of faults are explained, `--explain`.
    Explain,
}

/// The command of this name.
pub fn command_named(word: &str) -> Option<Subcommand>
    ensures { result ≡ command_named word.now }
{
    if word == "run" {
        Some(Subcommand::Run)
    } else if word == "replay" {
        Some(Subcommand::Replay)
    } else if word == "drill" {
        Some(Subcommand::Drill)
    } else if word == "serve" {
        Some(Subcommand::Serve)
    } else if word == "send" {
        Some(Subcommand::Send)
    } else {
        None
    }
}

/// The option of this name.
pub fn option_named(name: &str) -> Option<OptionName>
    ensures { result ≡ option_named name.now }
{
    if name == "port" {
        Some(OptionName::Port)
    } else if name == "sessions" {
        Some(OptionName::Sessions)
    } else if name == "input" {
        Some(OptionName::Input)
    } else if name == "journal" {
        Some(OptionName::Journal)
    } else if name == "wait" {
        Some(OptionName::Wait)
    } else if name == "devtools" {
        Some(OptionName::Devtools)
    } else if name == "explain" {
        Some(OptionName::Explain)
    } else {
        None
    }
}

/// Whether a command has an option.
pub fn has_option(command: Subcommand, option: OptionName) -> bool
    ensures { result ≡ has_option command option }
{
    match command {
        Subcommand::Run => matches!(option, OptionName::Input | OptionName::Explain),
        Subcommand::Replay => matches!(
            option,
            OptionName::Wait | OptionName::Input | OptionName::Explain
        ),
        Subcommand::Drill => false,
        Subcommand::Serve => true,
        Subcommand::Send => matches!(option, OptionName::Port | OptionName::Explain),
    }
}

/// Whether an option has a value.
pub fn has_value(option: OptionName) -> bool
    ensures { result ≡ has_value option }
{
    match option {
        OptionName::Port | OptionName::Sessions | OptionName::Input | OptionName::Journal => true,
        OptionName::Wait | OptionName::Devtools | OptionName::Explain => false,
    }
}

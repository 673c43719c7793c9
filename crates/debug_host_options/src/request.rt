//! What the words of a command line ask for, by their parts.

ghost use Rattle.std.specs.Prelude.{◌≡◌, ◌≤◌, IfSome};
ghost use Rattle.std.specs.Option.{option_map};
ghost use Rattle.debug_host_options.specs.Requests.{command_of, drill_of, number_of, number_or, port_of, replay_of, run_of, send_of, serve_of, sessions_of, sources_of};
ghost use Rattle.debug_host_options.specs.Held.{count_held, parts_held, request_held, sources_held, text_held, texts_held};

use crate::command::{OptionName, Subcommand};
use crate::given::{is_given, value_of};
use crate::part::Part;
use crate::session_count::{MOST_SESSIONS, SessionCount};
use cdp_text::decimal::read_decimal;

/// The port of a server, where none is given.
const DEFAULT_PORT: u64 = 9229;

/// The greatest port.
const MOST_PORT: u64 = 65_535;

/// How many clients a server takes at once, where no number is given.
const DEFAULT_SESSIONS: u64 = 4;

/// The greatest number of a drill.
const MOST_DRILLED: u64 = 10_000;

/// The files of a program, by their names: the input, if there is one, and the scripts, at least one.
#[derive(Drop)]
pub struct Sources<'w> {
    /// The file of the lines of input.
    pub input: Option<&'w str>,
    /// The files of the scripts, in the order in which they run.
    pub scripts: Vec<&'w str>,
}

/// What `run` is given.
#[derive(Drop)]
pub struct RunWords<'w> {
    /// Whether the causes of faults are explained.
    pub explain: bool,
    /// The program.
    pub sources: Sources<'w>,
}

/// What `replay` is given.
#[derive(Drop)]
pub struct ReplayWords<'w> {
    /// Whether the causes of faults are explained.
    pub explain: bool,
    /// Whether the program waits for a client that lets it begin.
    pub wait: bool,
    /// The file of the journal.
    pub journal: &'w str,
    /// The program.
    pub sources: Sources<'w>,
}

/// What `serve` is given.
#[derive(Drop)]
pub struct ServeWords<'w> {
    /// Whether the causes of faults are explained.
    pub explain: bool,
    /// The port, from 1 on.
    pub port: u16,
    /// The most clients at once.
    pub sessions: SessionCount,
    /// Whether the program waits for a client that lets it begin.
    pub wait: bool,
    /// Whether DevTools and `node inspect` are let in too.
    pub devtools: bool,
    /// The file in which the journal is stored of what happens, if there is one.
    pub journal: Option<&'w str>,
    /// The program.
    pub sources: Sources<'w>,
}

/// What `send` is given.
#[derive(Clone, Copy)]
pub struct SendWords<'w> {
    /// Whether the causes of faults are explained.
    pub explain: bool,
    /// The port of the serving host, from 1 on.
    pub port: u16,
    /// The file of the commands.
    pub commands: &'w str,
}

/// What words ask for.
#[derive(Drop)]
pub enum Request<'w> {
    /// Run a program.
    Run(RunWords<'w>),
    /// Replay a journal over a program.
    Replay(ReplayWords<'w>),
    /// The drill of this number, from 1 to 10,000.
    Drill(u64),
    /// Serve clients and run a program.
    Serve(ServeWords<'w>),
    /// Send commands to a serving host.
    Send(SendWords<'w>),
    /// Help with the program, or with one command.
    Help(Option<Subcommand>),
    /// The program's version.
    Version,
}

/// What a command's parts ask for, of which none is an option that is there twice, and these are the operands.
pub(crate) fn command_of<'w>(
    command: Subcommand,
    parts: &[Part<'w>],
    operands: Vec<&'w str>,
) -> Option<Request<'w>>
    ensures { option_map request_held result ≡ command_of command (parts_held parts.now) (texts_held operands.entry.items) }
{
    match command {
        Subcommand::Run => run_of(parts, operands),
        Subcommand::Replay => replay_of(parts, operands),
        Subcommand::Drill => drill_of(&operands),
        Subcommand::Serve => serve_of(parts, operands),
        Subcommand::Send => send_of(parts, &operands),
    }
}

/// `run [--input FILE] [--explain] SCRIPT...`, by its options and its scripts.
fn run_of<'w>(parts: &[Part<'w>], scripts: Vec<&'w str>) -> Option<Request<'w>>
    ensures { option_map request_held result ≡ run_of (parts_held parts.now) (texts_held scripts.entry.items) }
{
    Some(Request::Run(RunWords {
        explain: is_given(parts, OptionName::Explain),
        sources: sources_of(parts, scripts)?,
    }))
}

/// `replay [--wait] [--input FILE] [--explain] JOURNAL SCRIPT...`, by its options and its operands.
fn replay_of<'w>(parts: &[Part<'w>], operands: Vec<&'w str>) -> Option<Request<'w>>
    ensures { option_map request_held result ≡ replay_of (parts_held parts.now) (texts_held operands.entry.items) }
{
    let mut scripts = operands;
    if scripts.is_empty() {
        return None;
    }
    let journal = scripts.remove(0);
    Some(Request::Replay(ReplayWords {
        explain: is_given(parts, OptionName::Explain),
        wait: is_given(parts, OptionName::Wait),
        journal,
        sources: sources_of(parts, scripts)?,
    }))
}

/// `drill N`, by its operands.
fn drill_of(operands: &[&str]) -> Option<Request<'static>>
    ensures { option_map request_held result ≡ drill_of (texts_held operands.now) }
{
    match operands {
        [] => None,
        [number] => Some(Request::Drill(number_of(number, MOST_DRILLED)?)),
        [_, _, ..] => None,
    }
}

/// `serve [--port P] [--sessions N] [--wait] [--devtools] [--input FILE] [--journal FILE] [--explain] SCRIPT...`, by its
/// options and its scripts.
fn serve_of<'w>(parts: &[Part<'w>], scripts: Vec<&'w str>) -> Option<Request<'w>>
    ensures { option_map request_held result ≡ serve_of (parts_held parts.now) (texts_held scripts.entry.items) }
{
    let port = port_of(parts)?;
    let sessions = sessions_of(parts)?;
    let sources = sources_of(parts, scripts)?;
    Some(Request::Serve(ServeWords {
        explain: is_given(parts, OptionName::Explain),
        port,
        sessions,
        wait: is_given(parts, OptionName::Wait),
        devtools: is_given(parts, OptionName::Devtools),
        journal: value_of(parts, OptionName::Journal),
        sources,
    }))
}

/// `send [--port P] [--explain] COMMANDS`, by its options and its operands.
fn send_of<'w>(parts: &[Part<'w>], operands: &[&'w str]) -> Option<Request<'w>>
    ensures { option_map request_held result ≡ send_of (parts_held parts.now) (texts_held operands.now) }
{
    match operands {
        [] => None,
        [commands] => Some(Request::Send(SendWords {
            explain: is_given(parts, OptionName::Explain),
            port: port_of(parts)?,
            commands: *commands,
        })),
        [_, _, ..] => None,
    }
}

/// The program of these scripts, where there is one.
fn sources_of<'w>(parts: &[Part<'w>], scripts: Vec<&'w str>) -> Option<Sources<'w>>
    ensures { option_map sources_held result ≡ sources_of (parts_held parts.now) (texts_held scripts.entry.items) }
{
    if scripts.is_empty() {
        None
    } else {
        Some(Sources {
            input: value_of(parts, OptionName::Input),
            scripts,
        })
    }
}

/// The port that is given, or the default; None where what is given is none.
fn port_of(parts: &[Part<'_>]) -> Option<u16>
    ensures { result ≡ port_of (parts_held parts.now) }
{
    let port = number_or(value_of(parts, OptionName::Port), DEFAULT_PORT, MOST_PORT)?;
    Some(port as u16)
}

/// The number of clients at once that is given, or the default; None where what is given is none.
fn sessions_of(parts: &[Part<'_>]) -> Option<SessionCount>
    ensures { option_map count_held result ≡ sessions_of (parts_held parts.now) }
{
    let sessions = number_or(
        value_of(parts, OptionName::Sessions),
        DEFAULT_SESSIONS,
        MOST_SESSIONS,
    )?;
    Some(SessionCount {
        count: sessions as usize,
    })
}

/// The number from 1 to the greatest that an option's text says, or the default where the option isn't given.
fn number_or(text: Option<&str>, default: u64, most: u64) -> Option<u64>
    requires { (1 ≤ default) × (default ≤ most) }
    ensures value { result ≡ number_or default most (text_held text.entry) }
    ensures within { IfSome result (λ number. (1 ≤ number) × (number ≤ most)) }
{
    match text {
        None => Some(default),
        Some(text) => number_of(text, most),
    }
}

/// The number from 1 to the greatest whose shortest decimal form a text is.
fn number_of(text: &str, most: u64) -> Option<u64>
    ensures value { result ≡ number_of most text.now }
    ensures within { IfSome result (λ number. (1 ≤ number) × (number ≤ most)) }
{
    let number = read_decimal(text)?;
    if 1 <= number && number <= most {
        Some(number)
    } else {
        None
    }
}

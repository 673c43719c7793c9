//! What `--help` and `--version` print. Each text is lines of ASCII, each ended by LF.

ghost use Rattle.std.specs.Prelude.{◌≡◌};
ghost use Rattle.debug_host_options.specs.Helps.{help_text};

use crate::command::Subcommand;

/// The program's name and version.
pub const VERSION: &str = "debug_host 0.1.0
";

/// What `--help` alone prints, or after a command's name.
pub fn help_text(topic: Option<Subcommand>) -> &'static str
    ensures { result.now ≡ help_text topic }
{
    match topic {
        None => PROGRAM_HELP,
        Some(Subcommand::Run) => RUN_HELP,
        Some(Subcommand::Replay) => REPLAY_HELP,
        Some(Subcommand::Drill) => DRILL_HELP,
        Some(Subcommand::Serve) => SERVE_HELP,
        Some(Subcommand::Send) => SEND_HELP,
    }
}

/// The commands with their options, an example of each, and the statuses.
const PROGRAM_HELP: &str =
    "debug_host runs scripts of a JavaScript subset, and lets several clients debug the run at once.

Commands:
  run [--input FILE] [--explain] SCRIPT...
      runs scripts one after another, without a debugger
  replay [--wait] [--input FILE] [--explain] JOURNAL SCRIPT...
      replays a journal of debugging sessions over scripts
  drill N
      makes a script and a journal from N (1 to 10000), replays them and prints a summary
  serve [--port P] [--sessions N] [--wait] [--devtools] [--input FILE] [--journal FILE] [--explain] SCRIPT...
      runs scripts, and serves clients of the Chrome DevTools Protocol meanwhile
  send [--port P] [--explain] COMMANDS
      sends the commands of a file to a serving host, and prints what comes back

Options stand anywhere after the command's name, each at most once, as --NAME VALUE or --NAME=VALUE:
  --input FILE   the lines that readline() gives (default: none)
  --journal FILE where the journal is stored of what clients do, for replay (default: nowhere)
  --wait         no step is made before a client lets the program begin (default: it begins at once)
  --port P       the port on 127.0.0.1, 1 to 65535 (default: 9229)
  --sessions N   the most clients at once, 1 to 16 (default: 4)
  --devtools     lets in DevTools and node inspect, which send more commands than the host has (default: refused)
  --explain      further lines on the error stream say a fault's cause (default: one line)
  --             the words after it are no options, also where they begin with -

Help and version:
  debug_host --help, debug_host COMMAND --help (or -h)
  debug_host --version

Examples:
  ./debug_host run examples/counters.js
  ./debug_host replay examples/breakpoint.journal examples/counters.js
  ./debug_host drill 10
  ./debug_host serve --wait examples/sum.js
  echo Runtime.runIfWaitingForDebugger > start && ./debug_host send start

Exit status:
  0   done
  1   no memory was left
  2   the words are none of a command
  3   the input or a script is not UTF-8, or a script is refused
  4   a file can't be read, or the journal can't be stored
  5   the output can't be written
  6   a line of the journal or of the commands is refused
  7   the network fails
  8   the program ended by an uncaught throw
  9   the serving host closed before all was answered
  10  the server has counted as far as it can
";

/// Help with `run`.
const RUN_HELP: &str = "debug_host run [--input FILE] [--explain] SCRIPT...
Runs scripts one after another, without a debugger, and prints what they print.

Options:
  --input FILE   the lines that readline() gives (default: none)
  --explain      further lines on the error stream say a fault's cause (default: one line)

Example:
  ./debug_host run examples/counters.js

Exit status:
  0   the run ended by its last script
  1   no memory was left
  2   the words are none of a command
  3   the input or a script is not UTF-8, or a script is refused
  4   a file can't be read
  5   the output can't be written
  8   the program ended by an uncaught throw
";

/// Help with `replay`.
const REPLAY_HELP: &str = "debug_host replay [--wait] [--input FILE] [--explain] JOURNAL SCRIPT...
Replays a journal of debugging sessions over scripts, and prints the program's output and the sessions' messages.

Options:
  --input FILE   the lines that readline() gives (default: none)
  --wait         no step is made before a session lets the program begin (default: it begins at once)
  --explain      further lines on the error stream say a fault's cause (default: one line)

Example:
  ./debug_host replay examples/breakpoint.journal examples/counters.js

Exit status:
  0   every line was applied
  1   no memory was left
  2   the words are none of a command
  3   the input or a script is not UTF-8, or a script is refused
  4   a file can't be read
  5   the output can't be written
  6   a line of the journal is refused
";

/// Help with `drill`.
const DRILL_HELP: &str = "debug_host drill N
Makes a script and a journal from N (1 to 10000), replays them and prints a summary.

Example:
  ./debug_host drill 10

Exit status:
  0   the summary is written
  1   no memory was left
  2   the words are none of a command
  5   the output can't be written
";

/// Help with `serve`.
const SERVE_HELP: &str =
    "debug_host serve [--port P] [--sessions N] [--wait] [--devtools] [--input FILE] [--journal FILE] [--explain] SCRIPT...
Runs scripts, and serves clients of the Chrome DevTools Protocol meanwhile; prints what the scripts print.

Options:
  --port P       the port on 127.0.0.1, 1 to 65535 (default: 9229)
  --sessions N   the most clients at once, 1 to 16 (default: 4)
  --wait         no step is made before a client lets the program begin (default: it begins at once)
  --devtools     lets in DevTools and node inspect, which send more commands than the host has (default: refused)
  --input FILE   the lines that readline() gives (default: none)
  --journal FILE where the journal is stored of what clients do, for replay (default: nowhere)
  --explain      further lines on the error stream say a fault's cause (default: one line)

Example:
  ./debug_host serve --wait examples/sum.js

Exit status:
  0   the run ended by its last script
  1   no memory was left
  2   the words are none of a command
  3   the input or a script is not UTF-8, or a script is refused
  4   a file can't be read, or the journal can't be stored
  5   the output can't be written
  7   the network fails
  8   the program ended by an uncaught throw
  10  the server has counted as far as it can
";

/// Help with `send`.
const SEND_HELP: &str = "debug_host send [--port P] [--explain] COMMANDS
Sends the commands of a file to a serving host, each once the one before is answered, and prints what comes back.
A line of the file is METHOD, or METHOD and a JSON object of its parameters, or wait METHOD for an event.

Options:
  --port P       the port on 127.0.0.1, 1 to 65535 (default: 9229)
  --explain      further lines on the error stream say a fault's cause (default: one line)

Example, while a host serves:
  echo Runtime.runIfWaitingForDebugger > start && ./debug_host send start

Exit status:
  0   every command was answered
  1   no memory was left
  2   the words are none of a command
  4   a file can't be read
  5   the output can't be written
  6   a line of the commands is refused
  7   the network fails
  9   the serving host closed before all was answered
";

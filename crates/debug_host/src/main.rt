//! `debug_host` runs scripts and lets clients debug the run.
#![tactic(auto)]

use cdp_edge::{FileShelf, WriterSink, put};
use cdp_edge_sockets::{SocketHarbor, SystemClock};
use debug_host_commands::debug_main;
use debug_host_options::{Request, Sources, read_words};
use std::alloc::{AllocError, Global};
use std::io::ErrorKind;
use std::process::ExitCode;
use std::rt::Env;

fn main(rt: HostRuntime) -> ExitCode {
    let alloc = rt.alloc();
    let mut out = WriterSink::new(rt.stdout());
    let mut err = WriterSink::new(rt.stderr());
    let Ok(words) = arguments(&rt) else {
        let _ = put(&mut err, b"debug_host: out of memory\n");
        return ExitCode::from(1);
    };
    let Ok(url) = first_script(alloc, &words) else {
        let _ = put(&mut err, b"debug_host: out of memory\n");
        return ExitCode::from(1);
    };
    let mut shelf = FileShelf::new(alloc, rt);
    let mut harbor = SocketHarbor::new(alloc, rt, url);
    let mut clock = SystemClock::new(rt);
    ExitCode::from(debug_main(
        &rt,
        alloc,
        &words,
        &mut shelf,
        &mut out,
        &mut err,
        &mut harbor,
        &mut clock,
    ))
}

/// The words after the program's name. Where one isn't UTF-8 there are none, which is a faulty command line.
fn arguments(rt: &(impl Env + AllocGlobal)) -> Result<Vec<String>, AllocError> {
    match std::env::args(rt) {
        Ok(args) => args.skip(1).collect(rt.alloc()),
        Err(error) if error.kind() == ErrorKind::OutOfMemory => Err(AllocError),
        Err(_) => Ok(Vec::new(rt.alloc())),
    }
}

/// The name of the first script that these words name, which is its url; an empty text where they name none.
fn first_script(alloc: Global, words: &[String]) -> Result<String, AllocError> {
    let request = read_words(alloc, words)?;
    let name = match &request {
        Some(Request::Run(run)) => first_of(&run.sources),
        Some(Request::Replay(replay)) => first_of(&replay.sources),
        Some(Request::Serve(serve)) => first_of(&serve.sources),
        _ => "",
    };
    String::from_str(alloc, name)
}

/// The name of the first script of a program; an empty text where it has none.
fn first_of<'w>(sources: &Sources<'w>) -> &'w str {
    match sources.scripts.first() {
        Some(name) => *name,
        None => "",
    }
}

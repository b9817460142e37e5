//! `mquerier`: a program that shows the messages of hosts and routers about multicast groups.
//!
//! ```text
//! $ mquerier message igmp 1600f8faef010203
//! report v2 group 239.1.2.3
//! ```
//!
//! `run` performs the request of the command line on any streams. `main` calls it with the words and streams of the
//! program.
#![tactic(auto)]

mod breaking;
mod checking;
mod chosen;
mod console;
mod converted;
mod converting;
mod counts;
mod counts_object;
mod failure;
mod foreign;
mod inputs;
mod networks;
mod program;
mod replaying;
mod source;
mod taken_line;
mod taking;
mod unopened;
mod unread;
mod unseen;
mod work;

pub use checking::CheckOptions;
pub use chosen::{CheckedPackets, packets_of};
use clap::Error;
pub use console::Console;
pub use converted::{perform_converted, perform_twice};
use failure::FAULTY;
use foreign::tell_kind;
use inputs::{check_of, opened};
use mq_command::{Request, request_of};
use mq_count::Watched;
pub use networks::tell_networks;
pub use program::{perform, run};
pub use source::Source;
use std::alloc::Global;
use std::io::{ErrorKind, IsTerminal, Read, Write};
use std::process::ExitCode;
use std::{env, io};
pub use taking::{names_querier, perform_taking, taking_of};
pub use unopened::{refuse_file, tell_failed_read, tell_late_querier};
pub use unseen::{perform_seen, refusal_of, seek};

fn main(rt: HostRuntime) -> ExitCode {
    let status = run_on_host(&rt).unwrap_or_else(|error| {
        let (line, status) = match error.kind() {
            ErrorKind::InvalidData => ("mquerier: the command line isn't UTF-8\n", 2),
            _ => ("mquerier: out of memory\n", 1),
        };
        let _ = rt.stderr().write_all(line.as_bytes());
        status
    });
    ExitCode::from(status)
}

/// Runs on the words and streams of the program. Fails if a word isn't UTF-8 or memory runs out.
fn run_on_host(rt: &HostRuntime) -> io::Result<u8> {
    let alloc = rt.alloc();
    let mut words = Vec::new(alloc);
    // `collect` would continue after a first growth that fails.
    for word in env::args(rt)? {
        words.push(word)?;
    }
    let mut console = Console {
        output: Watched::new(rt.stdout()),
        errors: Watched::new(rt.stderr()),
        in_words: rt.stderr().is_terminal(),
    };
    let asked = request_of(alloc, &words);
    let mut name = None;
    if let Ok(request) = &asked {
        name = request.file();
        if let Some(check) = check_of(request) {
            return match name {
                Some(name) => check.on_file(rt, name, &mut console),
                None => check.on_stream(alloc, rt.stdin(), &mut console),
            };
        }
    }
    let Some(name) = name else {
        let source = Source::new(alloc, rt.stdin())?;
        return Ok(run_on(alloc, asked, &source, &mut console));
    };
    let Some(file) = opened(rt, name, &mut console.errors)? else {
        return Ok(FAULTY);
    };
    let source = Source::new(alloc, file)?;
    Ok(run_on(alloc, asked, &source, &mut console))
}

/// Runs on this input, of a request that isn't for a check. If a file is of another kind, it also says how to read it: to
/// a person, or for a conversion.
fn run_on<R: Read, W: Write, E: Write>(
    alloc: Global,
    asked: Result<Request<'_>, Error>,
    source: &Source<R>,
    console: &mut Console<W, E>,
) -> u8 {
    let converts = matches!(&asked, Ok(Request::Convert { .. }));
    let status = run(alloc, asked, source, &mut Watched::new(source), console);
    if converts || console.in_words {
        tell_kind(status, source.first(), converts, &mut console.errors);
    }
    status
}

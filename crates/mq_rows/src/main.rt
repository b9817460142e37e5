//! A program that gives a list of datagrams and ticks to a link by `run`, and prints what the link sent and what it holds.
//! Between them the link gets other configurations. `tools/links` compares that with the link for C.
//!
//! ```text
//! link sent igmp 2 125 10000 1000 0 1024 366 16384 256 10.0.0.9 0
//! tick 0
//! datagram 1000 10.0.0.1 1600f8faef010203
//! configure 2 20 10000 1000 0 1024 366 16384 256 10.0.0.9 0
//! ```
//!
//! The first line has whether the outlet sends the queries. Then it has the configuration in the order of C's settings, and
//! `allow ADDRESS LENGTH` or `deny ADDRESS LENGTH` for each range of groups. A configuration that is refused changes
//! nothing. The program prints the queries in the form of the library for C, then the groups, the counters and the rest of
//! the state.
#![tactic(auto)]

mod family;
mod given;
mod kept;
mod state;

use family::Written;
use given::{Given, config_of, events_of, given_of};
use kept::Kept;
use mq_count::Moment;
use mq_link::{Config, Datagrams, Igmp, Link, Mld, QueryOutlet, run};
use state::put_link;
use std::alloc::Global;
use std::io::{self, BufWriter, ErrorKind, Write};

/// The most bytes of all queries of a list.
const ROOM: usize = 1 << 20;

/// Returns the words of a line.
fn words_of(alloc: Global, line: &str) -> io::Result<Vec<&str>> {
    let mut words = Vec::new(alloc);
    for word in line.split_whitespace() {
        words.push(word)?;
    }
    Ok(words)
}

/// Returns the configuration of these words.
fn configured<F: Written>(words: &[&str]) -> io::Result<Config<F>> {
    match config_of::<F>(words) {
        Some(config) => Ok(config),
        None => Err(io::Error::from(ErrorKind::InvalidData)),
    }
}

/// Runs the events of a list on a link.
fn run_listed<F: Written, O: QueryOutlet<F::Address>>(
    alloc: Global,
    link: &mut Link<F>,
    given: &[Given<F>],
    outlet: &mut O,
) -> io::Result<()> {
    let events = events_of(alloc, given)?;
    let listed = events.as_slice();
    run(link, listed, outlet);
    Ok(())
}

/// Takes a line: an event that is given later, or another configuration. All events before that are given to the link
/// first. A configuration that the link refuses changes nothing.
fn take_line<F: Written, O: QueryOutlet<F::Address>>(
    alloc: Global,
    line: &str,
    link: &mut Link<F>,
    given: &mut Vec<Given<F>>,
    outlet: &mut O,
) -> io::Result<()> {
    let words = words_of(alloc, line)?;
    let ["configure", asked @ ..] = words.as_slice() else {
        given.push(given_of(alloc, line)?)?;
        return Ok(());
    };
    run_listed(alloc, link, given.as_slice(), outlet)?;
    given.clear();
    let _refused = link.configure(configured::<F>(asked)?);
    Ok(())
}

/// Runs the lines on a link with a configuration, and prints the state.
fn play<F: Written, W: Write>(
    alloc: Global,
    is_sent: bool,
    config: &[&str],
    lines: &[String],
    out: &mut W,
) -> io::Result<()> {
    let config = configured::<F>(config)?;
    let Some(start) = Moment::from_ms(0) else {
        return Err(io::Error::from(ErrorKind::InvalidData));
    };
    let mut bytes = vec![in alloc; 0; ROOM]?;
    let mut outlet = Datagrams {
        outlet: Kept::new(bytes.as_mut_slice(), is_sent),
    };
    let Ok(mut link) = Link::new(alloc, config, start) else {
        return Err(io::Error::from(ErrorKind::OutOfMemory));
    };
    let mut given: Vec<Given<F>> = Vec::new(alloc);
    for line in lines {
        take_line(alloc, line.as_str(), &mut link, &mut given, &mut outlet)?;
    }
    run_listed(alloc, &mut link, given.as_slice(), &mut outlet)?;
    put_link(&link, outlet.outlet.written(), out)
}

fn main(rt: HostRuntime) -> io::Result<()> {
    let alloc = rt.alloc();
    let mut lines = Vec::new(alloc);
    for line in rt.lines(alloc) {
        lines.push(line?)?;
    }
    let mut out = BufWriter::new(alloc, rt.stdout())?;
    let Some((first, rest)) = lines.as_slice().split_first() else {
        return Ok(());
    };
    let words = words_of(alloc, first.as_str())?;
    match words.as_slice() {
        ["link", sent, "igmp", config @ ..] => {
            play::<Igmp, _>(alloc, *sent == "sent", config, rest, &mut out)?
        }
        ["link", sent, "mld", config @ ..] => {
            play::<Mld, _>(alloc, *sent == "sent", config, rest, &mut out)?
        }
        _ => return Err(io::Error::from(ErrorKind::InvalidData)),
    }
    out.flush()
}

//! The configuration and the events of a list, from its lines.

ghost use Rattle.std.specs.Prelude.{◌≤◌, ◌^◌, IfOk, All};
ghost use Rattle.mq_link.specs.Events.{moment_at};

use crate::family::Written;
use mq_count::Moment;
use mq_link::{Config, Event, Family, GroupRange, Limits, Ranges};
use std::alloc::{AllocError, Global};
use std::io::{self, ErrorKind};

/// A tick, or a datagram with the facts of its packet and its bytes.
#[derive(Drop)]
pub struct Given<F: Family> {
    now: Moment,
    datagram: Option<(F::Envelope, Vec<u8>)>,
    ghost in_range: { now ≤ 2 ^ 53 },
}

impl<F: Family> Given<F> {
    /// Returns the event of the link.
    fn event(&self) -> Event<'_, F>
        ensures { moment_at result ≤ 2 ^ 53 }
    {
        match &self.datagram {
            None => Event::Tick(self.now),
            Some((envelope, body)) => Event::Datagram {
                envelope: *envelope,
                body: body.as_slice(),
                now: self.now,
            },
        }
    }
}

/// The number of words of a configuration before those of its ranges.
const FIXED: usize = 11;

/// Reads the words of ranges of groups: for each `allow` or `deny`, an address and a length.
fn ranges_of<F: Written>(words: &[&str]) -> Option<Ranges> {
    let mut ranges = Ranges::none();
    for range in words.chunks(3) {
        let [rule, address, length] = range else {
            return None;
        };
        let range = GroupRange {
            address: F::number(F::address(address)?),
            length: length.parse::<u8>().ok()?,
            allows: *rule == "allow",
        };
        if !ranges.push(range) {
            return None;
        }
    }
    Some(ranges)
}

/// Reads the words of a configuration, in the order of C's settings, and then those of its ranges.
pub fn config_of<F: Written>(words: &[&str]) -> Option<Config<F>> {
    if words.len() < FIXED {
        return None;
    }
    let (fixed, ranges) = words.split_at(FIXED);
    let [numbers @ .., own, source_specific] = fixed else {
        return None;
    };
    let mut read = [0; 9];
    if numbers.len() != read.len() {
        return None;
    }
    for (place, word) in numbers.iter().enumerate() {
        read[place] = word.parse::<u32>().ok()?;
    }
    let [
        robustness,
        query_seconds,
        response,
        last_member,
        last_member_query_count,
        groups,
        group_sources,
        sources,
        scheduled,
    ] = read;
    let limits = Limits {
        groups,
        group_sources,
        sources,
        scheduled,
    };
    let config = Config::new(
        robustness,
        query_seconds,
        response,
        last_member,
        limits,
        F::address(own)?,
        *source_specific != "0",
    );
    let counted = config
        .ok()?
        .with_last_member_query_count(last_member_query_count);
    Some(counted.ok()?.with_ranges(ranges_of::<F>(ranges)?))
}

/// Reads a line: an event.
pub fn given_of<F: Written>(alloc: Global, line: &str) -> io::Result<Given<F>> {
    let mut words = line.split_whitespace();
    let (Some(kind), Some(ms)) = (words.next(), words.next()) else {
        return Err(io::Error::from(ErrorKind::InvalidData));
    };
    let Some(now) = ms.parse::<u64>().ok().and_then(Moment::from_ms) else {
        return Err(io::Error::from(ErrorKind::InvalidData));
    };
    if kind == "tick" {
        return Ok(Given {
            now,
            datagram: None,
        });
    }
    let Some(envelope) = F::envelope(&mut words) else {
        return Err(io::Error::from(ErrorKind::InvalidData));
    };
    match hex::decode(alloc, words.next().unwrap_or("")) {
        Ok(body) => Ok(Given {
            now,
            datagram: Some((envelope, body)),
        }),
        Err(hex::FromHexError::OutOfMemory) => Err(io::Error::from(ErrorKind::OutOfMemory)),
        Err(_) => Err(io::Error::from(ErrorKind::InvalidData)),
    }
}

/// Returns the events of a list.
pub fn events_of<F: Family>(
    alloc: Global,
    given: &[Given<F>],
) -> Result<Vec<Event<'_, F>>, AllocError>
    ensures { IfOk result (λ events. All (λ event. moment_at event ≤ 2 ^ 53) events.items) }
{
    let mut events = Vec::new(alloc);
    for it in given {
        events.push(it.event())?;
    }
    Ok(events)
}

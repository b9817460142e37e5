//! The lines of what a link sent and of its state.

use mq_count::{Key, Moment};
use mq_link::{
    Counts, DropReason, Family, FilterMode, HeldGroup, Link, MessageKind, Refusal, SourceTimer,
};
use mq_wire::WireKey;
use std::io::{self, Write};

/// The most bytes of an address.
const WIDEST: usize = 16;

fn put_hex<W: Write>(bytes: &[u8], out: &mut W) -> io::Result<()> {
    for byte in bytes {
        write!(out, "{byte:02x}")?;
    }
    Ok(())
}

fn put_address<K: WireKey, W: Write>(address: K, out: &mut W) -> io::Result<()> {
    let mut octets = [0; WIDEST];
    address.write(&mut octets);
    put_hex(&octets[..K::WIDTH], out)
}

fn put_moment<W: Write>(moment: Moment, out: &mut W) -> io::Result<()> {
    let mut digits = [0; 20];
    let length = moment.digits(&mut digits);
    out.write_all(&digits[..length.min(20)])
}

/// Puts a line of a group: its mode, its sources and its older hosts.
fn put_group<K: WireKey, W: Write>(group: &HeldGroup<'_, K>, out: &mut W) -> io::Result<()> {
    write!(out, "group ")?;
    put_address(group.group(), out)?;
    match group.mode {
        FilterMode::Include => write!(out, " include")?,
        FilterMode::Exclude(deadline) => {
            write!(out, " exclude ")?;
            put_moment(deadline, out)?;
        }
    }
    for source in group.sources {
        write!(out, " ")?;
        put_address(source.address, out)?;
        if let SourceTimer::Running(deadline, _) = source.timer {
            write!(out, "=")?;
            put_moment(deadline, out)?;
        }
    }
    if let Some(until) = group.v1 {
        write!(out, " v1 ")?;
        put_moment(until, out)?;
    }
    if let Some(until) = group.v2 {
        write!(out, " v2 ")?;
        put_moment(until, out)?;
    }
    writeln!(out)
}

/// Puts the line of the counters, in the order of the library for C.
fn put_counts<W: Write>(counts: &Counts, out: &mut W) -> io::Result<()> {
    let numbers = [
        counts.received(),
        counts.dropped(),
        counts.dropped_by(DropReason::Truncated),
        counts.dropped_by(DropReason::Checksum),
        counts.dropped_by(DropReason::UnknownType),
        counts.dropped_by(DropReason::QueryLength),
        counts.dropped_by(DropReason::BadSource),
        counts.dropped_by(DropReason::HopLimit),
        counts.dropped_by(DropReason::NoAlert),
        counts.dropped_by(DropReason::OwnOrZero),
        counts.dropped_by(DropReason::OlderQuery),
        counts.dropped_by(DropReason::BadGroup),
        counts.spelled(MessageKind::Query),
        counts.spelled(MessageKind::OlderQuery),
        counts.spelled(MessageKind::OlderReport),
        counts.spelled(MessageKind::Leave),
        counts.spelled(MessageKind::Report),
        counts.applied(),
        counts.ignored(),
        counts.refused(),
        counts.refused_by(Refusal::Long),
        counts.refused_by(Refusal::Repeated),
        counts.refused_by(Refusal::Groups),
        counts.refused_by(Refusal::GroupSources),
        counts.refused_by(Refusal::Sources),
        counts.refused_by(Refusal::Scheduled),
        counts.refused_by(Refusal::Memory),
        counts.sent(),
        counts.unsent(),
        counts.denied(),
    ];
    write!(out, "counts")?;
    for number in numbers {
        write!(out, " {number}")?;
    }
    writeln!(out)
}

/// Puts the queries that a link sent, and its state.
pub fn put_link<F: Family, W: Write>(
    link: &Link<F>,
    queries: &[u8],
    out: &mut W,
) -> io::Result<()> {
    write!(out, "queries ")?;
    put_hex(queries, out)?;
    writeln!(out)?;
    for group in link.entries() {
        put_group(&group, out)?;
    }
    put_counts(link.counts(), out)?;
    writeln!(out, "spent {} moved {}", link.spent(), link.moved())?;
    write!(out, "next ")?;
    put_moment(link.next_deadline(), out)?;
    writeln!(out)?;
    match link.other_querier() {
        None => writeln!(out, "querier"),
        Some(other) => {
            write!(out, "other ")?;
            put_address(other.address, out)?;
            write!(out, " ")?;
            put_moment(other.deadline, out)?;
            writeln!(out)
        }
    }
}

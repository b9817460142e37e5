//! The counters of a link, as C has them.

ghost use Rattle.std.specs.Prelude.{◌≡◌, ◌<◌, ◌^◌};
ghost use Rattle.mq_c.specs.Counted.{IsCounted, counted};

use mq_link::{Counts, DropReason, MessageKind, Refusal};

/// The number of counters.
const COUNTERS: usize = 30;

/// Returns all counters, in the order of `mq_counts`.
fn all(counts: &Counts) -> [u64; COUNTERS]
    ensures { result ≡ counted counts.now }
{
    [
        counts.received(),
        counts.dropped(),
        counts.dropped_by(DropReason::Truncated),
        counts.dropped_by(DropReason::Checksum),
        counts.dropped_by(DropReason::UnknownType),
        counts.dropped_by(DropReason::QueryLength),
        counts.dropped_by(DropReason::BadSource),
        counts.dropped_by(DropReason::HopLimit),
        counts.dropped_by(DropReason::NoAlert),
        counts.dropped_by(DropReason::OwnOrZero),
        counts.dropped_by(DropReason::OlderQuery),
        counts.dropped_by(DropReason::BadGroup),
        counts.spelled(MessageKind::Query),
        counts.spelled(MessageKind::OlderQuery),
        counts.spelled(MessageKind::OlderReport),
        counts.spelled(MessageKind::Leave),
        counts.spelled(MessageKind::Report),
        counts.applied(),
        counts.ignored(),
        counts.refused(),
        counts.refused_by(Refusal::Long),
        counts.refused_by(Refusal::Repeated),
        counts.refused_by(Refusal::Groups),
        counts.refused_by(Refusal::GroupSources),
        counts.refused_by(Refusal::Sources),
        counts.refused_by(Refusal::Scheduled),
        counts.refused_by(Refusal::Memory),
        counts.sent(),
        counts.unsent(),
        counts.denied(),
    ]
}

/// Writes the counters to the front, as many as there is room for, and returns how many there are.
pub(crate) fn put_counters(counts: &Counts, out: &mut [u64]) -> usize
    ensures { IsCounted counts.now out.old out.new result }
{
    let room = out.len().min(COUNTERS);
    out[..room].copy_from_slice(&all(counts)[..room]);
    COUNTERS
}

/// Returns a number if 32 bits hold it, and otherwise the greatest.
pub(crate) fn few(number: usize) -> u32
    ensures { number < 2 ^ 32 → result ≡ number }
{
    if number <= 4294967295 {
        number as u32
    } else {
        u32::MAX
    }
}

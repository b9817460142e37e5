//! Moments of a walk: the gaps between them, and the last one.

ghost use Rattle.std.specs.Prelude.{◌≡◌, ◌≤◌, ◌^◌, IfSome};
ghost use Rattle.mq_walk.specs.Courses.{last_moment};
ghost use Rattle.mq_walk.specs.PlacedPackets.{is_gap};

use crate::stamp::Stamp;
use mq_count::{Meter, Moment, Span};

/// The greatest distance between two moments of a replay or a check, in milliseconds.
const A_DAY: u32 = 86_400_000;

/// Returns whether a moment is more than a day after the one before it.
pub(crate) fn is_gap(before: Moment, moment: Moment) -> bool
    requires { before ≤ 2 ^ 53 }
    ensures { result ≡ is_gap before moment }
{
    let latest = before.after(Span::from_ms(A_DAY));
    !Meter::new().reached(moment, latest)
}

/// Returns the moment of the end: that of the last packet, or the requested one if it is later.
pub(crate) fn last_moment(until: Option<u64>, last: Stamp) -> Stamp
    requires { IfSome until (λ ms. ms ≤ 2 ^ 53) }
    ensures { result ≡ last_moment until last }
{
    match until {
        Some(until) if last.ms() < until => Stamp::of(until),
        _ => last,
    }
}

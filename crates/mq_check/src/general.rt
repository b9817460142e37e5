//! Intervals of general queries.

ghost use Rattle.std.specs.Prelude.{◌≡◌};
ghost use Rattle.mq_table.specs.Timing as span;
ghost use Rattle.mq_check.specs.Entries as entries;
ghost use Rattle.mq_check.specs.General as spec;

use crate::phase::Phase;
use mq_table::Timing;

/// Returns the greatest Robustness Variable that a check allows for, if it is above 7.
pub(crate) fn greatest_variable() -> u32
    ensures { result ≡ spec.greatest_variable }
{
    255
}

/// Returns the query interval in milliseconds.
pub(crate) fn query_interval(timing: Timing) -> u64
    ensures { result ≡ span.query_interval timing }
{
    u64::from(timing.query_seconds()) * 1000
}

/// Returns whether two numbers differ by at most the tolerance.
fn is_within(within: u32, a: u64, b: u64) -> bool
    ensures { result ≡ entries.is_within within a b }
{
    let within = u64::from(within);
    a <= b.saturating_add(within) && b <= a.saturating_add(within)
}

/// Returns whether more than a query interval and the tolerance has passed.
fn is_late(within: u32, timing: Timing, passed: u64) -> bool
    ensures { result ≡ spec.is_late within timing passed }
{
    query_interval(timing) + u64::from(within) < passed
}

/// Returns whether an interval is a startup interval, if `startup` more may still come.
fn is_of_start(within: u32, timing: Timing, startup: u32, interval: u64) -> bool
    ensures { result ≡ spec.is_of_start within timing startup interval }
{
    0 < startup && is_within(within, interval, query_interval(timing) / 4)
}

/// Returns whether an interval between two general queries is a wanted one.
fn is_interval(within: u32, timing: Timing, startup: u32, interval: u64) -> bool
    ensures { result ≡ spec.is_interval within timing startup interval }
{
    is_of_start(within, timing, startup, interval)
        || is_within(within, interval, query_interval(timing))
}

/// Returns the number of startup intervals that may come after this interval.
fn startup_left(within: u32, timing: Timing, startup: u32, interval: u64) -> u32
    ensures { result ≡ spec.startup_left within timing startup interval }
{
    if is_of_start(within, timing, startup, interval) {
        startup - 1
    } else {
        0
    }
}

impl Phase {
    /// Returns the phase at the start of a capture. `above_7` is set if the Robustness Variable is above 7.
    pub(crate) fn at_start(timing: Timing, above_7: bool) -> Phase
        ensures { result ≡ spec.phase_for timing above_7 }
    {
        timing.is_in_range();
        let startup = if above_7 {
            greatest_variable() - 1
        } else {
            timing.startup_count() - 1
        };
        Phase::Starting(startup)
    }

    /// Returns the interval before a general query at this moment, if it is wrong.
    pub(crate) fn wrong_interval(self, within: u32, timing: Timing, moment: u64) -> Option<u64>
        ensures { result ≡ spec.wrong_interval within timing moment self }
    {
        match self {
            Phase::Starting(_) if is_late(within, timing, moment) => Some(moment),
            Phase::Heard(before, startup) => {
                let interval = moment.saturating_sub(before);
                if is_interval(within, timing, startup, interval) {
                    None
                } else {
                    Some(interval)
                }
            }
            _ => None,
        }
    }

    /// Returns the phase after a general query at this moment.
    pub(crate) fn behind(self, within: u32, timing: Timing, moment: u64) -> Phase
        ensures { result ≡ spec.phase_behind within timing moment self }
    {
        match self {
            Phase::Starting(startup) => Phase::Heard(moment, startup),
            Phase::Heard(before, startup) => Phase::Heard(
                moment,
                startup_left(within, timing, startup, moment.saturating_sub(before)),
            ),
            Phase::Returned => Phase::Heard(moment, 0),
            Phase::NotQuerier => Phase::NotQuerier,
        }
    }

    /// Returns the time without general queries up to this moment, if it is too long.
    pub(crate) fn silence(self, within: u32, timing: Timing, moment: u64) -> Option<u64>
        ensures { result ≡ spec.silence_up_to within timing moment self }
    {
        let passed = match self {
            Phase::Starting(_) => moment,
            Phase::Heard(before, _) => moment.saturating_sub(before),
            _ => return None,
        };
        if is_late(within, timing, passed) {
            Some(passed)
        } else {
            None
        }
    }
}

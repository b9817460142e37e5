//! Moments and spans of time, in milliseconds.

ghost use Rattle.std.specs.Prelude.{◌≡◌, ◌+◌, ◌^◌, ◌≤◌, ◌↔◌, IsTrue, take, drop, length};
ghost use Rattle.std.specs.Option.{SomeIff};
ghost use Rattle.std.specs.Fmt.{decimal};

use crate::decimal::write_decimal;
use std::marker::Model;

/// The latest moment in range, in milliseconds: 2^53, some 285000 years.
const LATEST_MS: u64 = 1 << 53;

/// A moment: milliseconds since the start of the caller's clock. A contract sees that number.
///
/// A moment from `from_ms` is in range, at most 2^53. A moment from `after` may be later. Only a `Meter` compares two
/// moments and no public call returns the number, so every comparison is counted.
#[derive(Clone, Copy)]
pub struct Moment {
    ms: u64,
}

impl Model for Moment {
    ghost use Rattle.std.specs.Prelude.{ℕ};

    ghost Value = { ℕ };

    ghost view = { λ t. t.ms };

    ghost inverse = { λ n. record { ms = n } };
}

/// A length of time in milliseconds. A contract sees that number.
#[derive(Clone, Copy)]
pub struct Span {
    ms: u32,
}

impl Model for Span {
    ghost use Rattle.std.specs.Prelude.{ℕ};

    ghost Value = { ℕ };

    ghost view = { λ s. s.ms };

    ghost inverse = { λ n. record { ms = n } };
}

impl Span {
    /// Returns the span of `ms` milliseconds.
    pub const fn from_ms(ms: u32) -> Span
        ensures { result ≡ ms }
    {
        Span { ms }
    }
}

impl Moment {
    /// Returns the moment at `ms` milliseconds, or None above 2^53.
    pub fn from_ms(ms: u64) -> Option<Moment>
        ensures { SomeIff result (ms ≤ 2 ^ 53) ms }
    {
        if ms <= LATEST_MS {
            Some(Moment { ms })
        } else {
            None
        }
    }

    /// Returns whether the moment is at most 2^53.
    pub fn in_range(self) -> bool
        ensures { IsTrue result ↔ (self ≤ 2 ^ 53) }
    {
        self.ms <= LATEST_MS
    }

    /// Returns the moment that is a span later. It may be above 2^53.
    pub fn after(self, span: Span) -> Moment
        requires in_range { self ≤ 2 ^ 53 }
        ensures later { result ≡ self + span }
    {
        Moment {
            ms: self.ms + u64::from(span.ms),
        }
    }

    /// Writes the milliseconds in decimal at the front of `out`, without leading zeros, and returns their length. The
    /// rest of `out` does not change.
    pub fn digits(self, out: &mut [u8; 20]) -> usize
        ensures text { take result out.new ≡ decimal self }
        ensures behind { drop result out.new ≡ drop result out.old }
        ensures fits { result ≤ 20 }
    {
        write_decimal(self.ms, out)
    }

    /// Returns the number, for the comparisons of this crate.
    pub(crate) fn ms(self) -> u64
        ensures { result ≡ self }
    {
        self.ms
    }
}

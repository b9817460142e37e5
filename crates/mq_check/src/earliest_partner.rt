//! The earliest moment of a partner.

ghost use Rattle.std.specs.Prelude.{◌≡◌, ◌+◌, ◌-◌, ◌≤◌, ◌^◌, nat_le};

use crate::stamp::Stamp;
use mq_count::{Meter, Moment, Span};
use std::marker::Model;

/// The earliest moment of a partner: any, or a tolerance before a moment.
#[derive(Drop)]
pub(crate) struct EarliestPartner {
    within: Span,
    at: Moment,
}

impl Model for EarliestPartner {
    ghost use Rattle.std.specs.Prelude.{ℕ, ◌-◌, ◌≤◌, ◌^◌};

    ghost Value = { ℕ };

    ghost view = { λ s. s.at - s.within };

    ghost invariant = { λ s. s.at ≤ 2 ^ 53 };
}

/// Returns whether at most the tolerance has passed since a moment.
pub(crate) fn is_near(within: Span, moment: Moment, now: Moment) -> bool
    requires in_range { now ≤ 2 ^ 53 }
    ensures { result ≡ nat_le now (moment + within) }
{
    !moment.in_range() || Meter::new().reached(now, moment.after(within))
}

impl EarliestPartner {
    /// Returns the earliest of all moments.
    pub(crate) fn start() -> EarliestPartner
        ensures { result ≡ 0 }
    {
        let Some(at) = Moment::from_ms(0) else {
            unreachable!()
        };
        EarliestPartner {
            within: Span::from_ms(0),
            at,
        }
    }

    /// Returns the moment that is the tolerance before another.
    pub(crate) fn near(within: Span, now: Moment) -> EarliestPartner
        requires in_range { now ≤ 2 ^ 53 }
        ensures { result ≡ now - within }
    {
        EarliestPartner { within, at: now }
    }

    /// Returns a copy.
    pub(crate) fn copied(&self) -> EarliestPartner
        ensures { result ≡ self.now }
    {
        EarliestPartner {
            within: self.within,
            at: self.at,
        }
    }

    /// Returns whether this moment isn't after another.
    pub(crate) fn is_by(&self, other: &EarliestPartner) -> bool
        ensures { result ≡ nat_le self.now other.now }
    {
        let start = Stamp::of(0).moment();
        let mut meter = Meter::new();
        meter.reached(self.at, start.after(self.within))
            || meter.reached(self.at.after(other.within), other.at.after(self.within))
    }

    /// Returns whether a moment isn't before this one.
    pub(crate) fn is_reached(&self, moment: Moment) -> bool
        ensures { result ≡ nat_le self.now moment }
    {
        is_near(self.within, moment, self.at)
    }
}

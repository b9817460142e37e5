//! Moments of packets.

ghost use Rattle.std.specs.Prelude.{◌≡◌, ◌≤◌, ◌^◌};

use mq_count::Moment;
use std::marker::Model;

/// A moment in range, together with its milliseconds. A contract sees it as that number.
#[derive(Clone, Copy)]
pub struct Stamp {
    moment: Moment,
    ms: u64,
}

impl Model for Stamp {
    ghost use Rattle.std.specs.Prelude.{◌≡◌, ◌≤◌, ◌^◌, ℕ};
    ghost use Rattle.std.proofs.Common.{sym};

    ghost Value = { ℕ };

    ghost view = { λ s. s.ms };

    ghost invariant = { λ s. (s.moment ≡ s.ms) × (s.ms ≤ 2 ^ 53) };

    ghost inverse = { λ n. record { moment = n; ms = n } };

    ghost inverse_ok = { λ a h i. record { moment = sym h.0 i; ms = a.ms } };
}

impl Stamp {
    /// Returns the moment at this number of milliseconds.
    pub fn of(ms: u64) -> Stamp
        requires in_range { ms ≤ 2 ^ 53 }
        ensures { result ≡ ms }
    {
        let Some(moment) = Moment::from_ms(ms) else {
            unreachable!()
        };
        Stamp { moment, ms }
    }

    /// Returns the moment.
    pub fn moment(self) -> Moment
        ensures same { result ≡ self }
        ensures in_range { self ≤ 2 ^ 53 }
    {
        self.moment
    }

    /// Returns the milliseconds.
    pub fn ms(self) -> u64
        ensures { result ≡ self }
    {
        self.ms
    }
}

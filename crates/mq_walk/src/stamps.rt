//! The moments of a capture's packets, from their stamps.

ghost use Rattle.std.specs.Prelude.{◌≡◌, unwrap_or, Some};
ghost use Rattle.mq_walk.specs.PlacedPackets.{goes_back, moment_of};

use mq_count::Moment;

/// The kept stamps of the packets so far, from which the moments of later packets are counted.
#[derive(Clone, Copy)]
pub struct Stamps {
    /// The stamp of the first packet, if there was one.
    first: Option<u64>,
    /// The moment of the last packet, 0 before the first.
    before: u64,
}

impl Stamps {
    /// Returns the state before the first packet.
    pub fn new() -> Stamps
        ensures { result ≡ record { first = None; before = 0 } }
    {
        Stamps {
            first: None,
            before: 0,
        }
    }

    /// Returns whether the stamp of the next packet goes back: its moment is then not that of its stamp.
    pub fn goes_back(&self, stamp: u64) -> bool
        ensures { result ≡ goes_back self.now.first self.now.before stamp }
    {
        let start = self.first.unwrap_or(stamp);
        u128::from(stamp) < u128::from(start) + u128::from(self.before)
    }

    /// Returns the moment of the next packet.
    pub fn moment_of_next(&mut self, stamp: u64) -> u64
        ensures moment { result ≡ moment_of self.old.first self.old.before stamp }
        ensures after { self.new ≡ record { first = Some (unwrap_or self.old.first stamp); before = result } }
    {
        let first = self.first.unwrap_or(stamp);
        let moment = stamp.saturating_sub(first).max(self.before);
        *self = Stamps {
            first: Some(first),
            before: moment,
        };
        moment
    }
}

/// Returns the moment of the first packet.
pub fn first_moment() -> Moment
    ensures { result ≡ 0 }
{
    match Moment::from_ms(0) {
        Some(moment) => moment,
        None => unreachable!(),
    }
}

//! Items with a moment, and counted comparisons of many moments.

ghost use Rattle.std.specs.Prelude.{◌≡◌, ◌+◌, ◌≤◌, ℕ, Option, length, min, true, false};
ghost use Rattle.std.specs.List.{AllWithin};
ghost use Rattle.mq_count.specs.Spending.{Spends};
ghost use Rattle.mq_count.specs.Timed.{compared_at, least, lies_ahead, moments_by};

use crate::metering::Meter;
use crate::moments::Moment;

/// An item with at most one moment, at which it ends or is due.
pub trait Timed {
    // That moment, if there is one.
    ghost moment_of: { Self → Option ℕ };

    /// Returns that moment, or None.
    fn moment(&self) -> Option<Moment>
        ensures { result ≡ moment_of self.now };
}

impl Meter {
    /// Returns the earliest of a moment and the moments of some items. One comparison for each item with a moment.
    pub fn earliest_with<T: Timed>(&mut self, first: Moment, items: &[T]) -> Moment
        ensures answer { result ≡ least first (moments_by T.moment_of items.now) }
        ensures spent { let count = length (moments_by T.moment_of items.now) in
            Spends count count self.old self.new }
    {
        let mut earliest = first;
        let mut without = 0;
        for x in items {
            match x.moment() {
                Some(moment) => {
                    if moment.ms() < earliest.ms() {
                        earliest = moment;
                    }
                }
                None => without += 1,
            }
        }
        self.count_comparisons(items.len() - without);
        earliest
    }

    /// Returns the number of items at the front whose moments are after `now`. One comparison for each of them, and one
    /// for the next item if it has a moment.
    pub fn count_ahead<T: Timed>(&mut self, items: &[T], now: Moment) -> usize
        ensures within { result ≤ length items.now }
        ensures ahead { AllWithin (λ x. lies_ahead now (T.moment_of x) ≡ true) items.now 0 result }
        ensures next { let end = min (result + 1) (length items.now) in
            AllWithin (λ x. lies_ahead now (T.moment_of x) ≡ false) items.now result end }
        ensures spent { let count = result + compared_at T.moment_of items.now result in
            Spends count count self.old self.new }
    {
        let mut ahead = 0;
        while ahead < items.len() {
            match items[ahead].moment() {
                Some(moment) if now.ms() < moment.ms() => ahead += 1,
                Some(_) => {
                    self.count_comparisons(ahead + 1);
                    return ahead;
                }
                None => {
                    self.count_comparisons(ahead);
                    return ahead;
                }
            }
        }
        self.count_comparisons(ahead);
        ahead
    }
}

//! Other sources of general queries.

ghost use Rattle.std.specs.Prelude.{◌≡◌, ⊤};
ghost use Rattle.mq_check.specs.Numbered.{number_if, numbered_four, numbered_others};
ghost use Rattle.mq_check.specs.Others as spec;

use mq_count::Meter;
use mq_wire::WireKey;
use std::alloc::AllocError;
use std::cmp::Ordering;

/// The sources of general queries beside a querier: the eight lowest ones in ascending order, each once, and whether there
/// are more.
pub struct Others<K: WireKey> {
    /// The four lowest ones.
    pub low: Four<K>,
    /// The next four.
    pub high: Four<K>,
    /// True if there are more.
    pub has_more: bool,
}

impl<K: WireKey> Clone for Others<K> {
    ghost is_clone = { λ x y. y ≡ x };

    ghost is_infallible = { λ _. ⊤ };

    fn clone(&self) -> Result<Self, AllocError> {
        Ok(*self)
    }
}

impl<K: WireKey> Copy for Others<K> {}

/// Up to four addresses in ascending order.
pub struct Four<K: WireKey> {
    /// The lowest one.
    pub first: Option<K>,
    /// The next one.
    pub second: Option<K>,
    /// The one after it.
    pub third: Option<K>,
    /// The highest one.
    pub fourth: Option<K>,
}

impl<K: WireKey> Clone for Four<K> {
    ghost is_clone = { λ x y. y ≡ x };

    ghost is_infallible = { λ _. ⊤ };

    fn clone(&self) -> Result<Self, AllocError> {
        Ok(*self)
    }
}

impl<K: WireKey> Copy for Four<K> {}

impl<K: WireKey> Others<K> {
    /// Returns no other source.
    pub(crate) fn none() -> Others<K>
        ensures { numbered_others K.number result ≡ spec.no_others }
    {
        Others {
            low: Four::none(),
            high: Four::none(),
            has_more: false,
        }
    }

    /// Returns these and one more source.
    pub(crate) fn with(self, source: K) -> Others<K>
        ensures { numbered_others K.number result ≡ spec.with_source (K.number source) (numbered_others K.number self) }
    {
        let next = self.low.passed(Some(source));
        let last = self.high.passed(next);
        Others {
            low: self.low.with(Some(source)),
            high: self.high.with(next),
            has_more: self.has_more || last.is_some(),
        }
    }
}

impl<K: WireKey> Four<K> {
    /// Returns no address.
    fn none() -> Four<K>
        ensures { numbered_four K.number result ≡ spec.no_four }
    {
        Four {
            first: None,
            second: None,
            third: None,
            fourth: None,
        }
    }

    /// Returns these and another address, without the highest one if there are five.
    fn with(self, other: Option<K>) -> Four<K>
        ensures { numbered_four K.number result ≡ spec.four_with (number_if K.number other) (numbered_four K.number self) }
    {
        let second = passed(self.first, other);
        let third = passed(self.second, second);
        let fourth = passed(self.third, third);
        Four {
            first: kept(self.first, other),
            second: kept(self.second, second),
            third: kept(self.third, third),
            fourth: kept(self.fourth, fourth),
        }
    }

    /// Returns the highest one of these and another address, if there are five.
    fn passed(self, other: Option<K>) -> Option<K>
        ensures { number_if K.number result ≡ spec.passed_by (number_if K.number other) (numbered_four K.number self) }
    {
        let second = passed(self.first, other);
        let third = passed(self.second, second);
        let fourth = passed(self.third, third);
        passed(self.fourth, fourth)
    }
}

/// Returns the lower one of an address and another.
fn kept<K: WireKey>(there: Option<K>, other: Option<K>) -> Option<K>
    ensures { number_if K.number result ≡ spec.kept (number_if K.number there) (number_if K.number other) }
{
    match (there, other) {
        (None, other) => other,
        (there, None) => there,
        (Some(there), Some(other)) => match other.order(there, &mut Meter::new()) {
            Ordering::Less => Some(other),
            _ => Some(there),
        },
    }
}

/// Returns the higher one of two different addresses.
fn passed<K: WireKey>(there: Option<K>, other: Option<K>) -> Option<K>
    ensures { number_if K.number result ≡ spec.passed (number_if K.number there) (number_if K.number other) }
{
    match (there, other) {
        (Some(there), Some(other)) => match other.order(there, &mut Meter::new()) {
            Ordering::Less => Some(there),
            Ordering::Equal => None,
            Ordering::Greater => Some(other),
        },
        _ => None,
    }
}

//! Comparison of addresses by a key.

ghost use Rattle.std.specs.Prelude.{◌≡◌, ℕ};
ghost use Rattle.std.specs.Ordering.{nat_cmp};
ghost use Rattle.mq_count.specs.Room.{IsSmall};
ghost use Rattle.mq_count.specs.Spending.{Spends};

use crate::metering::Meter;
use std::cmp::Ordering;

/// An address whose comparisons are counted. Its order is total, by a number, and equal numbers are equal values. Code
/// that is generic over a `Key` cannot compare two of them in another way.
pub trait Key: Copy + Default {
    // The number by which an address is compared.
    ghost number: { Self → ℕ };

    /// Compares two keys.
    fn order(self, other: Self, m: &mut Meter) -> Ordering
        ensures answer { result ≡ nat_cmp (number self) (number other) }
        ensures spent { Spends 1 1 m.old m.new };

    /// A lemma: an address takes at most 16 bytes. It has no effect at run time. Generic code may therefore keep some
    /// hundreds of addresses in an array.
    fn is_small()
        ensures { IsSmall Self.row };

    // Equal numbers are equal values.
    ghost one_value: { (a b : Self) → number a ≡ number b → a ≡ b };
}

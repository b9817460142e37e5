//! The search for a key in an ascending slice.

ghost use Rattle.std.specs.Prelude.{◌≡◌, ◌<◌, min, length, IfOk, IfErr, is_ok};
ghost use Rattle.std.specs.List.{HoldsAt};
ghost use Rattle.mq_count.specs.Spending.{Spends};
ghost use Rattle.mq_sets.specs.Ascending.{IsAscending, set_of};
ghost use Rattle.mq_sets.specs.Search.{bitlen, IsPlaceFor, BitlenIsLeast};

use crate::items::Keyed;
use mq_count::{Key, Meter};
use std::cmp::Ordering;

/// Returns the place of `key` in an ascending slice, or as an `Err` the place where it would go.
pub fn find<K: Key, T: Keyed<K>>(items: &[T], key: K, m: &mut Meter) -> Result<usize, usize>
    requires ascending { IsAscending T.key_number items.now }

    // It is Ok exactly if some item has the key, and the place is that item's.
    ensures member { set_of T.key_number items.now (K.number key) ≡ is_ok result }
    ensures found_in { IfOk result (λ i. i < length items.now) }
    ensures found { IfOk result (HoldsAt (λ x. T.key_number x ≡ K.number key) items.now) }
    // Otherwise it is the place that keeps the slice ascending.
    ensures absent { IfErr result (IsPlaceFor T.key_number items.now (K.number key)) }

    ensures spent { Spends (min 1 (length items.now)) (bitlen (length items.now)) m.old m.new }
{
    let mut low = 0;
    let mut high = items.len();
    while low < high {
        let middle = low + (high - low) / 2;
        match items[middle].key().order(key, m) {
            Ordering::Less => low = middle + 1,
            Ordering::Equal => return Ok(middle),
            Ordering::Greater => high = middle,
        }
    }
    Err(low)
}

/// A lemma: a number is below 2^k exactly if it has at most k binary digits.
pub fn binary_digits_bound_a_number()
    ensures { BitlenIsLeast }
{}

//! The search for a key among numbers, or among pages of numbers.

ghost use Rattle.std.specs.Prelude.{◌≡◌, ◌<◌, min, length, IfOk, IfErr};
ghost use Rattle.std.specs.List.{All, HoldsAt};
ghost use Rattle.mq_count.specs.Spending.{Spends};
ghost use Rattle.mq_sets.specs.Ascending.{IsAscending};
ghost use Rattle.mq_sets.specs.NumberedKeys.{key_at};
ghost use Rattle.mq_sets.specs.Search.{bitlen, IsPlaceFor};

use mq_count::{Key, Meter};
use std::alloc::Allocator;
use std::cmp::Ordering;

/// An item with a first number: a number, or a page that isn't empty.
pub(crate) trait First {
    ghost use Rattle.std.specs.Prelude.{ℕ};

    // The first number.
    ghost first_of: { Self → ℕ };

    // There is a first number.
    ghost has_first: { Self → Type 0 };

    /// Returns the first number.
    fn first(&self) -> u16
        requires { has_first self.now }
        ensures { result ≡ first_of self.now };
}

impl First for u16 {
    ghost first_of = { λ n. n };

    ghost has_first = { λ n. Unit {0} };

    fn first(&self) -> u16 {
        *self
    }
}

impl<A: Allocator> First for Vec<u16, A> {
    ghost use Rattle.std.specs.Prelude.{◌≤◌, length, slice_index};

    ghost first_of = { λ page. slice_index page.items 0 };

    ghost has_first = { λ page. 1 ≤ length page.items };

    fn first(&self) -> u16 {
        self[0]
    }
}

/// Returns the place of the item whose first number has `key`, or as an `Err` the place where it would go. The first
/// numbers of the items have ascending keys.
pub(crate) fn search<K: Key, T: First>(
    keys: &[K],
    items: &[T],
    key: K,
    m: &mut Meter,
) -> Result<usize, usize>
    requires ascending { IsAscending (λ x. key_at K.number keys.now (T.first_of x)) items.now }
    requires some { All T.has_first items.now }
    requires within { All (λ x. T.first_of x < length keys.now) items.now }
    ensures found_in { IfOk result (λ i. i < length items.now) }
    ensures found { IfOk result (HoldsAt (λ x. key_at K.number keys.now (T.first_of x) ≡ K.number key) items.now) }
    ensures absent { IfErr result (IsPlaceFor (λ x. key_at K.number keys.now (T.first_of x)) items.now (K.number key)) }
    ensures spent { Spends (min 1 (length items.now)) (bitlen (length items.now)) m.old m.new }
{
    let mut low = 0;
    let mut high = items.len();
    while low < high {
        let middle = low + (high - low) / 2;
        match keys[items[middle].first() as usize].order(key, m) {
            Ordering::Less => low = middle + 1,
            Ordering::Equal => return Ok(middle),
            Ordering::Greater => high = middle,
        }
    }
    Err(low)
}

/// Returns the place where a number with this key goes, among numbers with ascending keys. None of them has that key.
pub(crate) fn place_of<K: Key>(keys: &[K], numbers: &[u16], key: K, m: &mut Meter) -> usize
    requires ascending { IsAscending (key_at K.number keys.now) numbers.now }
    requires within { All (λ n. n < length keys.now) numbers.now }
    requires absent { All (λ n. key_at K.number keys.now n ≡ K.number key → ⊥) numbers.now }
    ensures place { IsPlaceFor (key_at K.number keys.now) numbers.now (K.number key) result }
    ensures spent { Spends (min 1 (length numbers.now)) (bitlen (length numbers.now)) m.old m.new }
{
    search(keys, numbers, key, m).err().unwrap()
}

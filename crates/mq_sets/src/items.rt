//! Items that carry a key.

ghost use Rattle.std.specs.Prelude.{◌≡◌, ℕ};
ghost use Rattle.mq_sets.specs.Ascending.{FoundWhereMember, FoundHasNumber, MapsEachNumber};

use mq_count::Key;

/// An item of an ascending slice, which carries a key. A key carries itself.
pub trait Keyed<K: Key> {
    // The number of the key that the item carries.
    ghost key_number: { Self → ℕ };

    /// Returns the key that the item carries.
    fn key(&self) -> K
        ensures { K.number result ≡ key_number self.now };
}

impl<K: Key> Keyed<K> for K {
    ghost key_number = { λ k. K.number k };

    fn key(&self) -> K {
        *self
    }
}

/// A lemma: a number finds an item in a list exactly if it is in the list's set, and the item has the number. The
/// finite map from the items' numbers to a value of each finds that item's value.
pub fn numbers_find_items<K: Key, T: Keyed<K>, V>()
    ensures member { FoundWhereMember T.key_number }
    ensures number { FoundHasNumber T.key_number }
    ensures mapped { MapsEachNumber V T.key_number }
{}

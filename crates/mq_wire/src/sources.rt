//! The sources of a query or of a record.

ghost use Rattle.std.specs.Prelude.{◌≡◌, ⊤, ◌*◌, ◌≤◌, nat_eq, length, map};
ghost use Rattle.std.specs.Iterator.{YieldsFirstBy, item_count};
ghost use Rattle.mq_wire.specs.Fields.{addresses};

use crate::wire_key::WireKey;
use std::alloc::AllocError;
use std::marker::Model;

/// A list of addresses in order: bytes of a message, parsed in place, or a borrowed slice. A contract sees the list of
/// their numbers. Iteration allocates nothing, and a copy for another walk costs nothing (`iter`).
#[derive(Drop)]
pub struct Sources<'a, K: WireKey> {
    held: Held<'a, K>,
}

/// The place of the addresses.
enum Held<'a, K: WireKey> {
    /// Consecutive addresses in the bytes, which may have more: their number, and the bytes.
    InPlace(u16, &'a [u8]),
    Lent(&'a [K]),
}

impl<K: WireKey> Clone for Held<'_, K> {
    ghost is_clone = { λ x y. y ≡ x };

    ghost is_infallible = { λ _. ⊤ };

    fn clone(&self) -> Result<Self, AllocError> {
        Ok(*self)
    }
}

impl<K: WireKey> Copy for Held<'_, K> {}

impl<'a, K: WireKey> Model for Sources<'a, K> {
    ghost use Rattle.std.specs.Prelude.{ℕ, List};

    ghost Value = { List ℕ };

    ghost use Rattle.mq_wire.specs.Sources.{listed_in, IsWholeIn};

    ghost view = { λ s. listed_in K.WIDTH K.number s.held };

    ghost invariant = { λ s. IsWholeIn K.WIDTH s.held };
}

impl<'a, K: WireKey> Sources<'a, K> {
    /// Returns `count` consecutive addresses in the bytes.
    pub(crate) fn in_place(count: u16, bytes: &'a [u8]) -> Sources<'a, K>
        requires { count * K.WIDTH ≤ length bytes.now }
        ensures { result ≡ addresses K.WIDTH count bytes.entry.now }
    {
        Sources {
            held: Held::InPlace(count, bytes),
        }
    }

    /// Returns a borrowed list.
    pub fn lent(sources: &'a [K]) -> Sources<'a, K>
        ensures { result ≡ map K.number sources.entry.now }
    {
        Sources {
            held: Held::Lent(sources),
        }
    }

    /// Returns the number of remaining addresses.
    #[tactic(auto, using(crate::proofs::Addresses::length_addresses))]
    pub fn len(&self) -> usize
        ensures { result ≡ length self.now }
    {
        match self.held {
            Held::InPlace(count, _) => usize::from(count),
            Held::Lent(sources) => sources.len(),
        }
    }

    /// Returns whether no address is left.
    pub fn is_empty(&self) -> bool
        ensures { result ≡ nat_eq (length self.now) 0 }
    {
        self.len() == 0
    }

    /// Returns the same list for another walk.
    pub fn iter(&self) -> Sources<'a, K>
        ensures { result ≡ self.now }
    {
        Sources { held: self.held }
    }
}

impl<'a, K: WireKey> Iterator for Sources<'a, K> {
    type Item = K;

    ghost next_gives = { YieldsFirstBy K.number (λ s. s) };

    ghost remaining = { item_count (λ s. s) };

    fn next(&mut self) -> Option<K> {
        match self.held {
            Held::InPlace(count, bytes) => {
                if count == 0 {
                    return None;
                }
                let (source, others) = bytes.split_at(K::WIDTH);
                self.held = Held::InPlace(count - 1, others);
                Some(K::read(source))
            }
            Held::Lent(sources) => {
                let (source, others) = sources.split_first()?;
                self.held = Held::Lent(others);
                Some(*source)
            }
        }
    }
}

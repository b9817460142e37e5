//! The querier of a link.

ghost use Rattle.std.specs.Prelude.{◌≡◌, ⊤};

use mq_count::{Key, Moment};
use std::alloc::AllocError;

/// Another router that is querier of the link.
pub struct OtherQuerier<K: Key> {
    /// The source address of the last query that set the deadline.
    pub address: K,
    /// The moment until which it is assumed to be there (RFC 3376 section 8.5, RFC 3810 section 9.5).
    pub deadline: Moment,
}

impl<K: Key> Clone for OtherQuerier<K> {
    ghost is_clone = { λ x y. y ≡ x };

    ghost is_infallible = { λ _. ⊤ };

    fn clone(&self) -> Result<Self, AllocError> {
        Ok(*self)
    }
}

impl<K: Key> Copy for OtherQuerier<K> {}

/// The role of a router on its link, as an `Election` keeps it.
#[derive(Drop)]
pub enum StoredRole<K: Key> {
    /// The querier itself: the moment of its general query, and the number of startup queries to go.
    Querier(Moment, u32),
    /// A router while another one is querier.
    NonQuerier(OtherQuerier<K>),
}

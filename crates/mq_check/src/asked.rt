//! Subjects of queries.

ghost use Rattle.std.specs.Prelude.{◌≡◌, ⊤};
ghost use Rattle.mq_check.specs.Numbered.{numbered_asked};
ghost use Rattle.mq_check.specs.Queries as spec;

use mq_link::Family;
use mq_wire::WireKey;
use std::alloc::AllocError;

/// The subject of a query (RFC 3376 section 4.1.11, RFC 3810 section 5.1.13).
pub enum Asked<K: WireKey> {
    /// All groups.
    AllGroups,
    /// A group.
    Group(K),
    /// A source of a group: the group, then the source.
    Source(K, K),
}

impl<K: WireKey> Clone for Asked<K> {
    ghost is_clone = { λ x y. y ≡ x };

    ghost is_infallible = { λ _. ⊤ };

    fn clone(&self) -> Result<Self, AllocError> {
        Ok(*self)
    }
}

impl<K: WireKey> Copy for Asked<K> {}

/// Returns whether two subjects are equal.
pub(crate) fn is_same<F: Family>(a: Asked<F::Address>, b: Asked<F::Address>) -> bool
    ensures { result ≡ spec.is_same (numbered_asked F.Address.number a) (numbered_asked F.Address.number b) }
{
    match (a, b) {
        (Asked::AllGroups, Asked::AllGroups) => true,
        (Asked::Group(group), Asked::Group(other)) => F::is_same(group, other),
        (Asked::Source(group, source), Asked::Source(other_group, other_source)) => {
            F::is_same(group, other_group) && F::is_same(source, other_source)
        }
        _ => false,
    }
}

//! A source of a group, with its timer.

ghost use Rattle.std.specs.Prelude.{◌≡◌, ◌≤◌, ⊤, Some, length, drop, min};
ghost use Rattle.std.specs.FinMap as map;
ghost use Rattle.mq_count.specs.Spending.{Spends};
ghost use Rattle.mq_sets.specs.Ascending.{IsAscending};
ghost use Rattle.mq_sets.specs.Search.{bitlen};
ghost use Rattle.mq_table.specs.Group.{deadline_of};
ghost use Rattle.mq_table.specs.Stored.{number_in, timers_in};

use crate::timers::SourceTimer;
use mq_count::{Key, Meter, Moment, Timed};
use mq_sets::{Keyed, find};
use std::alloc::AllocError;

/// A source that a group holds. Slices of sources ascend by their addresses.
pub struct Source<K: Key> {
    /// The source's address.
    pub address: K,
    /// Its timer in the group.
    pub timer: SourceTimer,
}

impl<K: Key> Clone for Source<K> {
    ghost is_clone = { λ x y. y ≡ x };

    ghost is_infallible = { λ _. ⊤ };

    fn clone(&self) -> Result<Self, AllocError> {
        Ok(*self)
    }
}

impl<K: Key> Copy for Source<K> {}

impl<K: Key> Keyed<K> for Source<K> {
    ghost key_number = { λ x. K.number x.address };

    fn key(&self) -> K {
        self.address
    }
}

impl<K: Key> Timed for Source<K> {
    ghost moment_of = { λ x. deadline_of (Some x.timer) };

    fn moment(&self) -> Option<Moment> {
        self.timer.deadline()
    }
}

/// Returns the sources of a list after the first `count`.
pub(crate) fn rest_of<K: Key>(row: &[Source<K>], count: usize) -> &[Source<K>]
    requires { count ≤ length row.now }
    ensures { result.now ≡ drop count row.now }
{
    &row[count..]
}

/// Returns the timer of a source among ascending sources, or None if it isn't there.
pub fn timer_among<K: Key>(sources: &[Source<K>], source: K, m: &mut Meter) -> Option<SourceTimer>
    requires ascending { IsAscending (number_in K.number) sources.now }
    ensures timer { result ≡ map.get (timers_in K.number sources.now) (K.number source) }
    ensures spent { let size = length sources.now in Spends (min 1 size) (bitlen size) m.old m.new }
{
    match find(sources, source, m) {
        Ok(place) => Some(sources[place].timer),
        Err(_) => None,
    }
}

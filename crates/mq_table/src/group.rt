//! The stored state of one group.

ghost use Rattle.std.specs.Prelude.{◌≡◌, ◌≤◌, min, length, IfOk, is_ok};
ghost use Rattle.mq_arena.specs.Vectors.{Takes, bytes_for, item_bytes};
ghost use Rattle.mq_count.specs.Spending.{Spends};
ghost use Rattle.mq_sets.specs.Ascending.{IsAscending};
ghost use Rattle.mq_sets.specs.Search.{bitlen};
ghost use Rattle.mq_table.specs.contracts.sources.Source as source;
ghost use Rattle.mq_table.specs.Group.{vacant, is_vacant, timer_at, forwards_in};
ghost use Rattle.mq_table.specs.Stored.{timers_in, number_in, state_of, size_of};

use crate::heads::Head;
use crate::sources::{Source, timer_among};
use crate::timers::{FilterMode, SourceTimer};
use mq_arena::{OfAllocator, VectorSource};
use mq_count::{Key, Meter, Moment};
use mq_sets::Memory;
use std::alloc::{Allocator, Global};
use std::marker::Model;

/// The state of one multicast group. A contract sees its state, as the definitions have it, and the number of sources
/// for which it has room without more memory.
#[derive(Drop)]
pub struct Group<K: Key, A: Allocator = Global> {
    pub(crate) mode: FilterMode,
    pub(crate) sources: Vec<Source<K>, A>,
    pub(crate) v1: Option<Moment>,
    pub(crate) v2: Option<Moment>,
}

impl<K: Key, A: Allocator> Model for Group<K, A> {
    ghost use Rattle.std.specs.Prelude.{vec_capacity};
    ghost use Rattle.mq_sets.specs.Ascending.{IsAscending};
    ghost use Rattle.mq_table.specs.Stored.{StoredGroup, stored_code, timers_in};
    ghost use Rattle.mq_table.specs.contracts.timers.FilterMode as filter_mode;
    ghost use Rattle.mq_table.specs.contracts.timers.SourceTimer as source_timer;

    ghost Value = { StoredGroup };

    ghost coded = { stored_code filter_mode.the_row.coded source_timer.the_row.coded };

    ghost view = { λ g. record { state = record { mode = g.mode; sources = timers_in K.number g.sources.items; v1 = g.v1; v2 = g.v2 }; room = vec_capacity g.sources } };

    ghost invariant = { λ g. IsAscending (λ x. K.number x.address) g.sources.items };
}

impl<K: Key, A: Allocator + Copy> Group<K, A> {
    /// Returns the vacant group with room for `sources` sources. Fails with `Memory` if memory is refused.
    pub fn with_room(alloc: A, sources: usize) -> Result<Group<K, A>, Memory>
        ensures { IfOk result (λ g. g ≡ record { state = vacant; room = sources }) }
    {
        Group::with_room_in(&mut OfAllocator(alloc), sources)
    }
}

impl<K: Key, A: Allocator> Group<K, A> {
    /// Returns INCLUDE without sources, the state of every group that isn't held. It has no room, and allocates only
    /// when it grows, from `alloc`.
    pub fn vacant(alloc: A) -> Group<K, A>
        ensures { result ≡ record { state = vacant; room = 0 } }
    {
        Group {
            mode: FilterMode::Include,
            sources: Vec::new(alloc),
            v1: None,
            v2: None,
        }
    }

    /// Returns the vacant group with room for `sources` sources, allocated from `memory`. Fails with `Memory` if memory
    /// is refused.
    pub fn with_room_in<M: VectorSource<A>>(
        memory: &mut M,
        sources: usize,
    ) -> Result<Group<K, A>, Memory>
        ensures group { IfOk result (λ g. g ≡ record { state = vacant; room = sources }) }
        ensures memory { Takes (bytes_for (item_bytes (source.the_row K.row)) sources) (M.less_than memory.old) (M.less_than memory.new) (is_ok result) }
    {
        Ok(Group {
            mode: FilterMode::Include,
            sources: memory.with_capacity(sources)?,
            v1: None,
            v2: None,
        })
    }

    /// Replaces the group by a head and its row of sources, for which it has room.
    pub fn load(&mut self, head: Head, row: &[Source<K>])
        requires ascending { IsAscending (number_in K.number) row.now }
        requires room { length row.now ≤ self.old.room }
        ensures state { self.new.state ≡ state_of head (timers_in K.number row.now) }
        ensures room { self.old.room ≤ self.new.room }
    {
        self.mode = head.mode;
        self.v1 = head.v1;
        self.v2 = head.v2;
        self.sources.clear();
        self.sources.extend_from_slice(row).unwrap();
    }

    /// Returns the group without its sources.
    pub fn head(&self) -> Head
        ensures { self.now.state ≡ state_of result self.now.state.sources }
    {
        Head {
            mode: self.mode,
            v1: self.v1,
            v2: self.v2,
        }
    }

    /// Returns whether the group is INCLUDE without sources, and so not held.
    pub fn is_vacant(&self) -> bool
        ensures { result ≡ is_vacant self.now.state }
    {
        match self.mode {
            FilterMode::Include => self.sources.is_empty(),
            FilterMode::Exclude(_) => false,
        }
    }

    /// Returns the filter mode, in EXCLUDE with the deadline of the group timer.
    pub fn mode(&self) -> FilterMode
        ensures { result ≡ self.now.state.mode }
    {
        self.mode
    }

    /// Returns the group's sources in ascending order, each with its timer. A timer has a deadline and a number of
    /// retransmissions still to go, or is stopped. They are the row that `load` takes.
    pub fn sources(&self) -> &[Source<K>]
        ensures timers { timers_in K.number result.now ≡ self.now.state.sources }
        ensures ascending { IsAscending (number_in K.number) result.now }
        ensures len { length result.now ≡ size_of self.now.state }
    {
        self.sources.as_slice()
    }

    /// Returns the moment until which a host of version 1 is assumed to be there.
    pub fn v1(&self) -> Option<Moment>
        ensures { result ≡ self.now.state.v1 }
    {
        self.v1
    }

    /// Returns the moment until which a host of version 2 is assumed to be there. MLD has none.
    pub fn v2(&self) -> Option<Moment>
        ensures { result ≡ self.now.state.v2 }
    {
        self.v2
    }

    /// Returns the timer of a source, or None if the group doesn't have it.
    pub fn timer_of(&self, source: K, m: &mut Meter) -> Option<SourceTimer>
        ensures timer { result ≡ timer_at self.now.state (K.number source) }
        ensures spent { let size = size_of self.now.state in
            Spends (min 1 size) (bitlen size) m.old m.new }
    {
        timer_among(self.sources.as_slice(), source, m)
    }

    /// Returns whether the group forwards what this source sends. It is true of the last moment that was given to the
    /// group (RFC 3376 section 6.3, RFC 3810 section 7.3).
    pub fn forwards(&self, source: K, m: &mut Meter) -> bool
        ensures answer { result ≡ forwards_in self.now.state (K.number source) }
        ensures spent { let size = size_of self.now.state in
            Spends (min 1 size) (bitlen size) m.old m.new }
    {
        self.mode.wants(self.timer_of(source, m))
    }
}

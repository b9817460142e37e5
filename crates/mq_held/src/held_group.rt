//! A view of one held group.

ghost use Rattle.std.specs.Prelude.{◌≡◌, length};
ghost use Rattle.mq_count.specs.Spending.{Spends};
ghost use Rattle.mq_sets.specs.Ascending.{IsAscending};
ghost use Rattle.mq_sets.specs.Search.{bitlen};
ghost use Rattle.mq_table.specs.Group.{GroupState, forwards_in};
ghost use Rattle.mq_table.specs.Stored.{number_in, timers_in};

use mq_count::{Key, Meter, Moment};
use mq_sched::Schedule;
use mq_table::{FilterMode, Source, timer_among};

/// A held group, as it is stored.
#[derive(Drop)]
pub struct HeldGroup<'a, K: Key> {
    /// The group's address.
    pub address: K,
    /// The filter mode, in EXCLUDE with the deadline of the group timer.
    pub mode: FilterMode,
    /// The sources with their timers, in ascending order.
    pub sources: &'a [Source<K>],
    /// The moment until which a host of version 1 is assumed to be there.
    pub v1: Option<Moment>,
    /// The moment until which a host of version 2 is assumed to be there. MLD has none.
    pub v2: Option<Moment>,
    /// The queries that are to go for the group.
    pub schedule: Schedule,
}

impl<'a, K: Key> HeldGroup<'a, K> {
    /// Returns the group's address.
    pub fn group(&self) -> K
        ensures { result ≡ self.now.address }
    {
        self.address
    }

    /// Returns the filter mode, in EXCLUDE with the deadline of the group timer.
    pub fn mode(&self) -> FilterMode
        ensures { result ≡ self.now.mode }
    {
        self.mode
    }

    /// Returns the sources with their timers, in ascending order.
    pub fn sources(&self) -> &'a [Source<K>]
        ensures { result.now ≡ self.now.sources.now }
    {
        self.sources
    }

    /// Returns the moment until which a host of version 1 is assumed to be there.
    pub fn v1(&self) -> Option<Moment>
        ensures { result ≡ self.now.v1 }
    {
        self.v1
    }

    /// Returns the moment until which a host of version 2 is assumed to be there. MLD has none.
    pub fn v2(&self) -> Option<Moment>
        ensures { result ≡ self.now.v2 }
    {
        self.v2
    }

    /// Returns whether the group forwards what this source sends. It is true of the last moment that was given to the
    /// group (RFC 3376 section 6.3, RFC 3810 section 7.3).
    pub fn forwards(&self, source: K, m: &mut Meter) -> bool
        requires ascending { IsAscending (number_in K.number) self.now.sources.now }
        ensures answer { let timers = timers_in K.number self.now.sources.now in
            let g : GroupState = record { mode = self.now.mode; sources = timers; v1 = self.now.v1; v2 = self.now.v2 } in
            result ≡ forwards_in g (K.number source) }
        ensures spent { Spends 0 (bitlen (length self.now.sources.now)) m.old m.new }
    {
        self.mode.wants(timer_among(self.sources, source, m))
    }
}

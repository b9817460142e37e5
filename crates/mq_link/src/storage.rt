//! The storage of the groups, and the memory for the work on them.

ghost use Rattle.std.specs.Prelude.{◌≡◌, ℕ, ◌+◌, ◌-◌, ◌*◌, ◌^◌, ◌<◌, ◌≤◌, true, false, length, min, IfOk, is_ok, MatchOption, []};
ghost use Rattle.std.specs.FinMap as map;
ghost use Rattle.std.specs.contracts.vec.Vec as page;
ghost use denote.Builtin.{u16};
ghost use Rattle.mq_arena.specs.Vectors.{IsSize, Takes, item_bytes};
ghost use Rattle.mq_count.specs.Spending.{Spends};
ghost use Rattle.mq_sets.specs.Ascending.{IsAscending};
ghost use Rattle.mq_sets.specs.Search.{bitlen};
ghost use Rattle.mq_table.specs.contracts.sources.Source as source;
ghost use Rattle.mq_table.specs.Group.{is_vacant, IsWellFormed as IsHeld};
ghost use Rattle.mq_table.specs.Stored.{number_in, size_of};
ghost use Rattle.mq_sched.specs.Schedule.{ScheduledGroup};
ghost use Rattle.mq_sets.specs.NumberedKeys.{IsSpotFor};
ghost use Rattle.mq_held.specs.Groups.{group_at, kept_as, sources_of, sources_in, with_group};
ghost use Rattle.mq_held.specs.Held.{HasNumber, IsNumber, empty_state};
ghost use Rattle.mq_link.specs.Moved.{MovesWithin, moved_by_edit};
ghost use Rattle.mq_link.specs.Seen.{AreNone, KeepsNumbers};
ghost use Rattle.mq_link.specs.Sizes.{bytes_of_link, bytes_of_lists, bytes_of_scratch};
ghost use Rattle.mq_link.specs.Storage.{HasRoom, HasSpace, group_stored, IsLookup, KeepsRooms};

use crate::configuration::Limits;
use crate::record_counts::RecordCounts;
use mq_arena::{VectorSource, both_sizes, filled, vector_size};
use mq_count::{Key, Meter, Moves};
use mq_held::{HeldGroup, HeldGroups};
use mq_sched::Schedule;
use mq_sets::{Memory, SourceSet, Spot};
use mq_table::{FilterMode, Group, Source};
use std::alloc::Allocator;

/// The memory for the work on the records of a datagram. It has the group of a record, the sources that the record
/// names, and those to ask for. It also has the number of records that have met each group, and have changed it.
#[derive(Drop)]
pub(crate) struct Scratch<K: Key, A: Allocator> {
    pub(crate) group: Group<K, A>,
    pub(crate) named: SourceSet<K, A>,
    pub(crate) asked: Vec<K, A>,
    pub(crate) met: RecordCounts<A>,
    pub(crate) changed: RecordCounts<A>,
}

impl<K: Key, A: Allocator> Scratch<K, A> {
    /// Returns the bytes that `with_room` allocates, or None if no memory has as many.
    pub(crate) fn size(groups: usize, sources: usize) -> Option<usize>
        requires counted { sources < 2 ^ 32 }
        ensures { IsSize (bytes_of_scratch (item_bytes K.row) (item_bytes (source.the_row K.row)) groups sources) result }
    {
        let of_sources = both_sizes(
            both_sizes(
                vector_size::<Source<K>>(2 * sources),
                vector_size::<K>(sources),
            ),
            vector_size::<K>(2 * sources),
        );
        let marks = RecordCounts::<A>::size(groups);
        both_sizes(both_sizes(of_sources, marks), marks)
    }

    /// Returns memory for `groups` groups of at most `sources` sources, and for a record that names no more. Fails with
    /// `Memory` if memory is refused.
    #[tactic(auto, unfolding(crate::specs::Sizes::bytes_of_scratch))]
    pub(crate) fn with_room<M: VectorSource<A>>(
        memory: &mut M,
        groups: usize,
        sources: usize,
    ) -> Result<Scratch<K, A>, Memory>
        requires counted { sources < 2 ^ 32 }
        ensures room { IfOk result (HasRoom groups sources) }
        ensures none_met { IfOk result (λ w. AreNone w.met) }
        ensures none_changed { IfOk result (λ w. AreNone w.changed) }
        ensures marks { IfOk result (λ w. length w.changed ≡ groups) }
        ensures memory { Takes (bytes_of_scratch (item_bytes K.row) (item_bytes (source.the_row K.row)) groups sources) (M.less_than memory.old) (M.less_than memory.new) (is_ok result) }
    {
        Ok(Scratch {
            group: Group::with_room_in(memory, 2 * sources)?,
            named: SourceSet::with_room_in(memory, sources)?,
            asked: memory.with_capacity(2 * sources)?,
            met: RecordCounts::with_room(memory, groups)?,
            changed: RecordCounts::with_room(memory, groups)?,
        })
    }
}

/// Lists of groups, with room for all. They are the numbers of groups that are due or that records changed, and the
/// addresses of groups that a call changed. The others serve to put these in order and together.
#[derive(Drop)]
pub(crate) struct Lists<K: Key, A: Allocator> {
    pub(crate) due: Vec<u16, A>,
    pub(crate) spare: Vec<u16, A>,
    pub(crate) changed: Vec<K, A>,
    pub(crate) by_tick: Vec<K, A>,
    pub(crate) by_records: Vec<K, A>,
}

impl<K: Key, A: Allocator> Lists<K, A> {
    /// Returns the bytes that `with_room` allocates, or None if no memory has as many.
    pub(crate) fn size(groups: usize) -> Option<usize>
        requires counted { groups < 2 ^ 32 }
        ensures { IsSize (bytes_of_lists (item_bytes K.row) groups) result }
    {
        let numbers = vector_size::<u16>(groups);
        let both = vector_size::<K>(2 * groups);
        both_sizes(
            both_sizes(both_sizes(both_sizes(numbers, numbers), both), both),
            vector_size::<K>(groups),
        )
    }

    /// Returns lists for `groups` groups. Fails with `Memory` if memory is refused. A call may change twice as many
    /// groups: those that a tick ends, and those that come in their place.
    #[tactic(auto, unfolding(crate::specs::Sizes::bytes_of_lists))]
    pub(crate) fn with_room<M: VectorSource<A>>(
        memory: &mut M,
        groups: usize,
    ) -> Result<Lists<K, A>, Memory>
        requires counted { groups < 2 ^ 32 }
        ensures room { IfOk result (HasSpace groups) }
        ensures none { IfOk result (λ lists. lists.changed.items ≡ []) }
        ensures memory { Takes (bytes_of_lists (item_bytes K.row) groups) (M.less_than memory.old) (M.less_than memory.new) (is_ok result) }
    {
        Ok(Lists {
            due: memory.with_capacity(groups)?,
            spare: filled(memory, 0, groups)?,
            changed: memory.with_capacity(2 * groups)?,
            by_tick: memory.with_capacity(2 * groups)?,
            by_records: memory.with_capacity(groups)?,
        })
    }
}

/// The groups that a router holds, with the number of comparisons and moves of the work on them. All storage is
/// allocated when it is made.
#[derive(Drop)]
pub(crate) struct Storage<K: Key, A: Allocator> {
    pub(crate) held: HeldGroups<K, A>,
    pub(crate) meter: Meter,
    pub(crate) moves: Moves,
}

/// A group that was searched for: its address, and its number, or as an `Err` the spot where it would go.
#[derive_where(Clone, Copy)]
pub(crate) struct GroupLookup<K: Key> {
    pub(crate) address: K,
    pub(crate) found: Result<u16, Spot>,
}

/// Searches for a group by its address.
pub(crate) fn find<K: Key, A: Allocator>(
    held: &HeldGroups<K, A>,
    address: K,
    m: &mut Meter,
) -> GroupLookup<K>
    ensures address { result.address ≡ address }
    ensures held { is_ok result.found ≡ map.contains_key held.now.groups (K.number address) }
    ensures lookup { IsLookup K.number held.now result }
    ensures spent { let count = map.len held.now.groups in
        Spends (min 1 count) (bitlen count + 2) m.old m.new }
{
    GroupLookup {
        address,
        found: held.find(address, m),
    }
}

/// Returns a group that was searched for, as it is stored. A group that isn't held is INCLUDE without sources, with
/// nothing due. No comparison.
pub(crate) fn look<K: Key, A: Allocator>(
    held: &HeldGroups<K, A>,
    lookup: GroupLookup<K>,
) -> HeldGroup<'_, K>
    requires lookup { IsLookup K.number held.now lookup }
    ensures group { let e : ScheduledGroup = record { group = group_stored K.number result; schedule = result.schedule } in
        e ≡ group_at held.now.groups (K.number lookup.address) }
    ensures ascending { IsAscending (number_in K.number) result.sources.now }
    ensures len { length result.sources.now ≡ sources_of (group_at held.now.groups (K.number lookup.address)) }
{
    held.lemma_is_numbered();
    match lookup.found {
        Ok(number) => held.entry_of(number),
        Err(_) => HeldGroup {
            address: lookup.address,
            mode: FilterMode::Include,
            sources: &[],
            v1: None,
            v2: None,
            schedule: Schedule::none(),
        },
    }
}

impl<K: Key, A: Allocator> Storage<K, A> {
    /// Returns a storage without groups, with room for as many as the limits allow. Fails with `Memory` if memory is
    /// refused.
    pub(crate) fn with_room<M: VectorSource<A>>(
        memory: &mut M,
        limits: &Limits,
    ) -> Result<Storage<K, A>, Memory>
        requires groups { limits.now.groups ≤ 65535 }
        requires sources { limits.now.sources ≤ 65535 }
        ensures held { IfOk result (λ s. s.held ≡ empty_state limits.now.groups limits.now.sources) }
        ensures unspent { IfOk result (λ s. s.meter ≡ 0) }
        ensures unmoved { IfOk result (λ s. s.moves ≡ 0) }
        ensures memory { Takes (bytes_of_link (page.the_row u16 A.row ⟦<A as Allocator>⟧) K.row limits.now) (M.less_than memory.old) (M.less_than memory.new) (is_ok result) }
    {
        Ok(Storage {
            held: HeldGroups::with_room(memory, limits.groups as usize, limits.sources as usize)?,
            meter: Meter::new(),
            moves: Moves::none(),
        })
    }
}

impl<K: Key, A: Allocator> Storage<K, A> {
    /// A lemma: the groups have no more sources than there may be. It has no effect at run time.
    pub(crate) fn lemma_sources_fit(&self)
        ensures { sources_in self.now.held.groups ≤ self.now.held.source_room }
    {
        let _free = self.held.free_sources();
    }

    /// Puts a group that was worked on back under its number. INCLUDE without sources, which is no longer held, stays
    /// until it is removed.
    pub(crate) fn put<B: Allocator>(&mut self, number: u16, group: &Group<K, B>, schedule: Schedule)
        requires number { IsNumber self.old.held number }
        requires held { is_vacant group.now.state ≡ false → IsHeld group.now.state }
        requires fits { (address : ℕ) → HasNumber self.old.held address number →
            sources_in self.old.held.groups + size_of group.now.state ≤ self.old.held.source_room + sources_of (group_at self.old.held.groups address) }
        ensures groups { let e : ScheduledGroup = record { group = group.now.state; schedule = schedule } in
            (address : ℕ) → HasNumber self.old.held address number → self.new.held.groups ≡ map.insert self.old.held.groups address (kept_as e) }
        ensures order { self.new.held.order ≡ self.old.held.order }
        ensures rooms { KeepsRooms self.old self.new }
        ensures spent { Spends 0 (size_of group.now.state + 4 + bitlen (map.len self.old.held.groups)) self.old.meter self.new.meter }
        ensures moved { MovesWithin (5 * size_of group.now.state + 5 + bitlen (map.len self.old.held.groups)) self.old self.new }
    {
        self.held.lemma_is_numbered();
        self.held
            .put(number, group, schedule, &mut self.meter, &mut self.moves);
    }

    /// Keeps a group that was searched for and worked on, and returns its number if it is held. It is put back or
    /// inserted. If it isn't held before or after, it is left alone. A group that is held stays held.
    pub(crate) fn keep<B: Allocator>(
        &mut self,
        lookup: GroupLookup<K>,
        group: &Group<K, B>,
        schedule: Schedule,
    ) -> Option<u16>
        requires few { self.old.held.order.room ≤ 65535 }
        requires lookup { IsLookup K.number self.old.held lookup }
        requires held { is_vacant group.now.state ≡ false → IsHeld group.now.state }
        requires stays { is_ok lookup.found ≡ true → is_vacant group.now.state ≡ false }
        requires room { let e : ScheduledGroup = record { group = group.now.state; schedule = schedule } in
            map.len (with_group self.old.held.groups (K.number lookup.address) e) ≤ self.old.held.order.room }
        requires fits { sources_in self.old.held.groups + size_of group.now.state ≤ self.old.held.source_room + sources_of (group_at self.old.held.groups (K.number lookup.address)) }
        ensures groups { let e : ScheduledGroup = record { group = group.now.state; schedule = schedule } in
            self.new.held.groups ≡ with_group self.old.held.groups (K.number lookup.address) e }
        ensures number { MatchOption result (map.contains_key self.new.held.groups (K.number lookup.address) ≡ false)
            (HasNumber self.new.held (K.number lookup.address)) }
        ensures numbers { KeepsNumbers self.old.held self.new.held }
        ensures rooms { KeepsRooms self.old self.new }
        ensures spent { Spends 0 (size_of group.now.state + 4 + bitlen (map.len self.old.held.groups)) self.old.meter self.new.meter }
        ensures moved { MovesWithin (5 * size_of group.now.state + moved_by_edit) self.old self.new }
    {
        self.held.lemma_is_numbered();
        match lookup.found {
            Ok(number) => {
                self.put(number, group, schedule);
                Some(number)
            }
            Err(spot) => {
                if group.is_vacant() {
                    return None;
                }
                Some(self.insert(spot, lookup.address, group, schedule))
            }
        }
    }

    /// Inserts a group that was worked on at its spot, and returns its number.
    fn insert<B: Allocator>(
        &mut self,
        spot: Spot,
        address: K,
        group: &Group<K, B>,
        schedule: Schedule,
    ) -> u16
        requires few { self.old.held.order.room ≤ 65535 }
        requires spot { IsSpotFor self.old.held.order.items self.old.held.order.pages (K.number address) spot }
        requires held { IsHeld group.now.state }
        requires room { map.len self.old.held.groups < self.old.held.order.room }
        requires fits { sources_in self.old.held.groups + size_of group.now.state ≤ self.old.held.source_room }
        ensures groups { let e : ScheduledGroup = record { group = group.now.state; schedule = schedule } in
            self.new.held.groups ≡ map.insert self.old.held.groups (K.number address) e }
        ensures number { HasNumber self.new.held (K.number address) result }
        ensures numbers { KeepsNumbers self.old.held self.new.held }
        ensures rooms { KeepsRooms self.old self.new }
        ensures spent { Spends 0 (size_of group.now.state + 4 + bitlen (map.len self.old.held.groups)) self.old.meter self.new.meter }
        ensures moved { MovesWithin (5 * size_of group.now.state + moved_by_edit) self.old self.new }
    {
        self.held.lemma_is_numbered();
        self.held.insert(
            spot,
            address,
            group,
            schedule,
            &mut self.meter,
            &mut self.moves,
        )
    }
}

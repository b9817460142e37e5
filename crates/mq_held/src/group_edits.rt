//! Changes of a held group, its insertion, and its removal.

ghost use Rattle.std.specs.Prelude.{◌≡◌, ℕ, if◌then◌else◌, ◌+◌, ◌-◌, ◌*◌, ◌/◌, ◌<◌, ◌≤◌, true, false, length, min, not};
ghost use Rattle.std.specs.FinMap as map;
ghost use Rattle.mq_count.specs.Spending.{Spends};
ghost use Rattle.mq_sets.specs.Search.{bitlen};
ghost use Rattle.mq_sets.specs.NumberedKeys.{IsSpotFor, moved_by_insert};
ghost use Rattle.mq_table.specs.Group.{is_vacant, IsWellFormed as IsHeld};
ghost use Rattle.mq_table.specs.Stored.{size_of};
ghost use Rattle.mq_sched.specs.Schedule.{ScheduledGroup};
ghost use Rattle.mq_held.specs.Groups.{group_at, kept_as, one_if, running_in, sources_in, sources_of, unheld};
ghost use Rattle.mq_held.specs.Held.{HasNumber, IsNumber, IsRowWritten};
ghost use Rattle.mq_held.specs.Moments.{least, moments_of};

use crate::earliest::{count_schedules, earliest_moment};
use crate::held_groups::{HeldGroups, vacant_head};
use crate::scheduled_head::ScheduledHead;
use mq_count::{Key, Meter, Moment, Moves};
use mq_sched::{Deadlines, Schedule};
use mq_sets::Spot;
use mq_table::{FilterMode, Group};
use std::alloc::Allocator;

/// Sets the moment of a number, which has none yet if it is new.
fn set_moment<A: Allocator>(
    moments: &mut Deadlines<A>,
    number: u16,
    is_new: bool,
    due: Moment,
    m: &mut Meter,
    moves: &mut Moves,
)
    requires number { number < moments.old.room }
    requires new { map.contains_key moments.old.moments number ≡ not is_new }
    requires room { map.len moments.old.moments < moments.old.room + one_if (not is_new) }
    ensures moments { moments.new ≡ record moments.old { moments = map.insert moments.old.moments number due } }
    ensures spent { let others = map.len moments.old.moments - one_if (not is_new) in
        Spends (min 1 others) (bitlen others) m.old m.new }
    ensures moved { let others = map.len moments.old.moments - one_if (not is_new) in
        Spends (1 + 3 * one_if is_new) (4 + bitlen others) moves.old moves.new }
{
    if is_new {
        moments.insert(number, due, m, moves);
    } else {
        moments.change(number, due, m, moves);
    }
}

/// Removes the moment of a number, if there is one.
fn remove_moment<A: Allocator>(
    moments: &mut Deadlines<A>,
    number: u16,
    is_there: bool,
    m: &mut Meter,
    moves: &mut Moves,
)
    requires there { map.contains_key moments.old.moments number ≡ is_there }
    ensures moments { moments.new ≡ record moments.old { moments = map.remove moments.old.moments number } }
    ensures spent { let others = map.len moments.old.moments - one_if is_there in
        Spends (if is_there then min 1 (others / 2) else 0) (bitlen others) m.old m.new }
    ensures moved { let others = map.len moments.old.moments - one_if is_there in
        Spends (4 * one_if is_there) (4 + bitlen others) moves.old moves.new }
{
    if is_there {
        moments.remove(number, m, moves);
    }
}

impl<K: Key, A: Allocator> HeldGroups<K, A> {
    /// Replaces the group of a number. INCLUDE without sources has no moments and no schedule afterwards, and stays
    /// until it is removed.
    pub fn put<B: Allocator>(
        &mut self,
        number: u16,
        group: &Group<K, B>,
        schedule: Schedule,
        m: &mut Meter,
        moves: &mut Moves,
    )
        requires number { IsNumber self.old number }
        requires held { is_vacant group.now.state ≡ false → IsHeld group.now.state }
        requires fits { (address : ℕ) → HasNumber self.old address number →
            let old_size = sources_of (group_at self.old.groups address) in
            sources_in self.old.groups + size_of group.now.state ≤ self.old.source_room + old_size }
        ensures groups { let e : ScheduledGroup = record { group = group.now.state; schedule = schedule } in
            (address : ℕ) → HasNumber self.old address number →
            self.new.groups ≡ map.insert self.old.groups address (kept_as e) }
        ensures order { self.new.order ≡ self.old.order }
        ensures source_room { self.new.source_room ≡ self.old.source_room }
        ensures spent { (address : ℕ) → HasNumber self.old address number →
            let before = group_at self.old.groups address in
            let others = running_in self.old.groups - one_if (not (is_vacant before.group)) in
            let gone = if not (is_vacant before.group) then min 1 (others / 2) else 0 in
            let e : ScheduledGroup = record { group = group.now.state; schedule = schedule } in
            let least = if is_vacant group.now.state then gone else length (moments_of e) - 1 + min 1 others in
            Spends least (size_of group.now.state + 4 + bitlen others) m.old m.new }
        ensures moved { (address : ℕ) → HasNumber self.old address number →
            let before = group_at self.old.groups address in
            let others = running_in self.old.groups - one_if (not (is_vacant before.group)) in
            let has = size_of group.now.state in
            let named = running_in self.old.groups + one_if (is_vacant before.group) in
            (rows : ℕ) × IsRowWritten self.old (sources_of before) has has named self.new.ahead rows × Spends rows (rows + 4 + bitlen others) moves.old moves.new }
    {
        let was_vacant = self.is_vacant(number);
        if group.is_vacant() {
            self.make_vacant(number, was_vacant, m, moves);
        } else {
            self.write(number, was_vacant, group, schedule, m, moves);
        }
    }

    /// Returns whether the group of a number is INCLUDE without sources.
    pub(crate) fn is_vacant(&self, number: u16) -> bool
        requires number { IsNumber self.now number }
        ensures { (address : ℕ) → HasNumber self.now address number → result ≡ is_vacant (group_at self.now.groups address).group }
    {
        let mode = self.heads[number as usize].head.mode;
        matches!(mode, FilterMode::Include) && self.sources.row(number).is_empty()
    }

    /// Makes the group of a number INCLUDE without sources.
    fn make_vacant(&mut self, number: u16, was_vacant: bool, m: &mut Meter, moves: &mut Moves)
        requires number { IsNumber self.old number }
        requires was { (address : ℕ) → HasNumber self.old address number → was_vacant ≡ is_vacant (group_at self.old.groups address).group }
        ensures groups { (address : ℕ) → HasNumber self.old address number →
            self.new ≡ record self.old { groups = map.insert self.old.groups address unheld } }
        ensures spent { let others = running_in self.old.groups - one_if (not was_vacant) in
            Spends (if not was_vacant then min 1 (others / 2) else 0) (bitlen others) m.old m.new }
        ensures moved { let others = running_in self.old.groups - one_if (not was_vacant) in
            let least = 4 * one_if (not was_vacant) in
            Spends least (4 + bitlen others) moves.old moves.new }
    {
        let before = self.heads[number as usize];
        remove_moment(&mut self.moments, number, !was_vacant, m, moves);
        self.sources.remove_row(number);
        self.heads[number as usize] = vacant_head();
        self.scheduled -= count_schedules(before.schedule);
    }

    /// Replaces the group of a number by a group that has a moment.
    fn write<B: Allocator>(
        &mut self,
        number: u16,
        was_vacant: bool,
        group: &Group<K, B>,
        schedule: Schedule,
        m: &mut Meter,
        moves: &mut Moves,
    )
        requires number { IsNumber self.old number }
        requires was { (address : ℕ) → HasNumber self.old address number → was_vacant ≡ is_vacant (group_at self.old.groups address).group }
        requires held { IsHeld group.now.state }
        requires fits { (address : ℕ) → HasNumber self.old address number →
            let old_size = sources_of (group_at self.old.groups address) in
            sources_in self.old.groups + size_of group.now.state ≤ self.old.source_room + old_size }
        ensures groups { let e : ScheduledGroup = record { group = group.now.state; schedule = schedule } in
            (address : ℕ) → HasNumber self.old address number →
            self.new ≡ record self.old { groups = map.insert self.old.groups address e; ahead = self.new.ahead } }
        ensures spent { let e : ScheduledGroup = record { group = group.now.state; schedule = schedule } in
            let others = running_in self.old.groups - one_if (not was_vacant) in
            Spends (length (moments_of e) - 1 + min 1 others) (size_of group.now.state + 4 + bitlen others) m.old m.new }
        ensures moved { (address : ℕ) → HasNumber self.old address number →
            let others = running_in self.old.groups - one_if (not was_vacant) in
            let has = size_of group.now.state in
            let named = running_in self.old.groups + one_if was_vacant in
            (rows : ℕ) × IsRowWritten self.old (sources_of (group_at self.old.groups address)) has has named self.new.ahead rows
            × Spends (rows + (1 + 3 * one_if was_vacant)) (rows + 4 + bitlen others) moves.old moves.new }
    {
        let before = self.heads[number as usize];
        let due = earliest_moment(group, schedule, m);
        set_moment(&mut self.moments, number, was_vacant, due, m, moves);
        self.sources
            .replace(number, group.sources(), self.moments.numbers(), moves);
        self.heads[number as usize] = ScheduledHead {
            head: group.head(),
            schedule,
        };
        self.scheduled = self.scheduled - count_schedules(before.schedule)
            + count_schedules(schedule);
    }

    /// Inserts a group that was not held at its spot, and returns its number.
    pub fn insert<B: Allocator>(
        &mut self,
        spot: Spot,
        address: K,
        group: &Group<K, B>,
        schedule: Schedule,
        m: &mut Meter,
        moves: &mut Moves,
    ) -> u16
        requires spot { IsSpotFor self.old.order.items self.old.order.pages (K.number address) spot }
        requires held { IsHeld group.now.state }
        requires room { map.len self.old.groups < self.old.order.room }
        requires fits { sources_in self.old.groups + size_of group.now.state ≤ self.old.source_room }
        ensures groups { let e : ScheduledGroup = record { group = group.now.state; schedule = schedule } in
            self.new.groups ≡ map.insert self.old.groups (K.number address) e }
        ensures number { HasNumber self.new (K.number address) result }
        ensures numbers { (other number : ℕ) → HasNumber self.old other number → HasNumber self.new other number }
        ensures room { self.new.order.room ≡ self.old.order.room }
        ensures source_room { self.new.source_room ≡ self.old.source_room }
        ensures spent { let e : ScheduledGroup = record { group = group.now.state; schedule = schedule } in
            let others = running_in self.old.groups in
            Spends (length (moments_of e) - 1 + min 1 others) (size_of group.now.state + 4 + bitlen others) m.old m.new }
        ensures moved { let has = size_of group.now.state in
            let pages = moved_by_insert self.old.order.pages spot in
            (rows : ℕ) × IsRowWritten self.old 0 has has (running_in self.old.groups + 1) self.new.ahead rows
            × Spends (pages + rows + 4) (pages + rows + 4 + bitlen (running_in self.old.groups)) moves.old moves.new }
    {
        let number = self.order.insert(spot, address, moves);
        self.order.lemma_is_ordered();
        self.write(number, true, group, schedule, m, moves);
        number
    }
}

//! The timer of one source, set where its group's row is stored. A source that the group lacks is added.

ghost use Rattle.std.specs.Prelude.{◌≡◌, ℕ, ◌+◌, ◌-◌, ◌<◌, ◌≤◌, [], ◌∷◌, false, true, min, length, is_some, if◌then◌else◌, IfSome, IsTrue, MatchOption, Some, ◌↔◌};
ghost use Rattle.std.specs.FinMap as map;
ghost use Rattle.std.specs.Option.{unwrap_or};
ghost use Rattle.mq_count.specs.Spending.{Spends};
ghost use Rattle.mq_sets.specs.Ascending.{IsAscending};
ghost use Rattle.mq_sets.specs.Search.{bitlen};
ghost use Rattle.mq_table.specs.Group as group;
ghost use Rattle.mq_table.specs.Group.{deadline_of, is_vacant, retransmissions_of, IsWellFormed};
ghost use Rattle.mq_table.specs.Stored.{number_in};
ghost use Rattle.mq_held.specs.Groups.{group_at, running_in, sources_in, sources_of};
ghost use Rattle.mq_held.specs.Held.{HasNumber, IsNumber};
ghost use Rattle.mq_held.specs.Moments.{moments_of};
ghost use Rattle.mq_held.specs.Restarted as group_then;
ghost use Rattle.mq_held.specs.Restarted.{RestartsEach, has_room};
ghost use Rattle.mq_held.specs.Stored.{earliest_of, group_of};

use crate::earliest::{earliest_of_head, earliest_with_row};
use crate::held_groups::HeldGroups;
use crate::scheduled_head::ScheduledHead;
use mq_count::{Key, Meter, Moment, Moves};
use mq_sched::Deadlines;
use mq_sets::find;
use mq_table::{Source, SourceTimer};
use std::alloc::Allocator;

/// Returns whether a timer is stopped.
pub(crate) fn is_stopped(timer: SourceTimer) -> bool
    ensures { result ≡ group.is_stopped (Some timer) }
{
    matches!(timer, SourceTimer::Stopped)
}

/// Returns a source with its timer set to a new deadline; its remaining retransmissions stay.
pub(crate) fn restarted<K: Key>(before: Source<K>, deadline: Moment) -> Source<K>
    ensures { result ≡ record { address = before.address; timer = SourceTimer.Running deadline (retransmissions_of (Some before.timer)) } }
{
    let retransmissions = match before.timer {
        SourceTimer::Stopped => 0,
        SourceTimer::Running(_, retransmissions) => retransmissions,
    };
    Source {
        address: before.address,
        timer: SourceTimer::Running(deadline, retransmissions),
    }
}

/// Returns whether a timer expires after a moment, or doesn't run.
pub(crate) fn is_later(timer: SourceTimer, moment: Moment, m: &mut Meter) -> bool
    ensures later { IsTrue result ↔ IfSome (deadline_of (Some timer)) (λ deadline. moment < deadline) }
    ensures spent { Spends (if result then 0 else 1) 1 m.old m.new }
{
    match timer.deadline() {
        None => true,
        Some(deadline) => !m.reached(deadline, moment),
    }
}

/// Returns the earliest of all moments of a held group and its schedule, as they are stored.
pub(crate) fn earliest_stored<K: Key>(
    item: &ScheduledHead,
    row: &[Source<K>],
    m: &mut Meter,
) -> Moment
    requires ascending { IsAscending (number_in K.number) row.now }
    requires held { IsWellFormed (group_of K.number item.now row.now).group }
    ensures earliest { earliest_of (moments_of (group_of K.number item.now row.now)) ≡ Some result }
    ensures spent { Spends 0 (length row.now + 4) m.old m.new }
    ensures compared { let count = length (moments_of (group_of K.number item.now row.now)) - 1 in
        Spends count count m.old m.new }
{
    let head = item.head;
    let first = earliest_of_head(head.mode, head.v1, head.v2, item.schedule, m);
    let earliest = earliest_with_row(first, row, m);
    earliest.unwrap()
}

/// Returns the earliest moment of a group after timers of its sources were set to a deadline, or None if it stays. It
/// was `earliest` before. If each of these timers expired later than that, it is the earlier of the two.
#[inline(always)]
pub(crate) fn earliest_then<K: Key>(
    item: &ScheduledHead,
    row: &[Source<K>],
    was_later: bool,
    earliest: Moment,
    deadline: Moment,
    m: &mut Meter,
) -> Option<Moment>
    requires ascending { IsAscending (number_in K.number) row.now }
    requires held { IsWellFormed (group_of K.number item.now row.now).group }
    requires later { was_later ≡ true → earliest_of (moments_of (group_of K.number item.now row.now)) ≡ Some (min earliest deadline) }
    ensures earliest { earliest_of (moments_of (group_of K.number item.now row.now)) ≡ Some (unwrap_or result earliest) }
    ensures spent { Spends (if was_later then 1 else 0) (length row.now + 4) m.old m.new }
    ensures spent_later { was_later ≡ true → Spends 1 1 m.old m.new }
{
    if was_later {
        earlier_than(earliest, deadline, m)
    } else {
        Some(earliest_stored(item, row, m))
    }
}

/// Returns the earlier of a group's earliest moment and a new deadline, or None if the first stays.
fn earlier_than(earliest: Moment, deadline: Moment, m: &mut Meter) -> Option<Moment>
    ensures earlier { unwrap_or result earliest ≡ min earliest deadline }
    ensures spent { Spends 1 1 m.old m.new }
{
    if m.reached(earliest, deadline) {
        None
    } else {
        Some(deadline)
    }
}

/// Changes the moment of a number, if a new one is given.
pub(crate) fn change_moment<A: Allocator>(
    moments: &mut Deadlines<A>,
    number: u16,
    due: Option<Moment>,
    m: &mut Meter,
    moves: &mut Moves,
)
    requires there { map.contains_key moments.old.moments number ≡ true }
    ensures moments { (earliest : ℕ) → map.get moments.old.moments number ≡ Some earliest →
        moments.new ≡ record moments.old { moments = map.insert moments.old.moments number (unwrap_or due earliest) } }
    ensures spent { let others = map.len moments.old.moments - 1 in
        Spends (if is_some due then min 1 others else 0) (bitlen others) m.old m.new }
    ensures moved { let others = map.len moments.old.moments - 1 in
        Spends (if is_some due then 1 else 0) (1 + bitlen others) moves.old moves.new }
{
    match due {
        Some(due) => moments.change(number, due, m, moves),
        None => {}
    }
}

/// The most sources that a group may have, and all groups together.
#[derive(Clone, Copy)]
pub struct SourceRoom {
    /// The most sources of a group.
    pub group_sources: usize,
    /// The most sources of all groups together.
    pub sources: usize,
}

impl<K: Key, A: Allocator> HeldGroups<K, A> {
    /// Returns whether one more source of the group of a number is within these limits.
    fn has_room(&self, number: u16, room: SourceRoom) -> bool
        requires number { IsNumber self.now number }
        ensures { (address : ℕ) → HasNumber self.now address number → result ≡ has_room room self.now.groups address }
    {
        self.entry_of(number).sources.len() < room.group_sources && self.sources() < room.sources
    }

    /// Sets the timer of a source of the group of a number to a new deadline; its remaining retransmissions stay.
    ///
    /// If the group doesn't have the source, it is added if the limits allow one more. Returns whether the group's filter
    /// changes: the source was stopped, or it is added in INCLUDE. If it may not be added, returns None and changes nothing.
    /// The source is found by binary search, and no row is copied. A row is walked over only if the timer had the earliest moment of
    /// its group.
    pub(crate) fn restart(
        &mut self,
        number: u16,
        source: K,
        deadline: Moment,
        room: SourceRoom,
        m: &mut Meter,
        moves: &mut Moves,
    ) -> Option<bool>
        requires number { IsNumber self.old number }
        requires held { (address : ℕ) → HasNumber self.old address number → is_vacant (group_at self.old.groups address).group ≡ false }
        requires fits { room.sources ≤ self.old.source_room }
        ensures effect { (address : ℕ) → HasNumber self.old address number →
            RestartsEach K.number address deadline (source ∷ []) (has_room room self.old.groups address) result self.old self.new moves.old moves.new }
        ensures spent { (address : ℕ) → HasNumber self.old address number →
            let size = sources_of (group_at self.old.groups address) in
            let others = running_in self.old.groups - 1 in
            MatchOption result (Spends (min 1 size) (bitlen size) m.old m.new) (λ _. Spends (1 + min 1 size) (bitlen size + size + 5 + bitlen others) m.old m.new) }
        ensures moment_moved { (address : ℕ) → HasNumber self.old address number →
            let before = group_at self.old.groups address in
            let after = group_then.restarted deadline (K.number source) before in
            let others = running_in self.old.groups - 1 in
            map.contains_key before.group.sources (K.number source) ≡ true → (earliest_of (moments_of after) ≡ earliest_of (moments_of before) → ⊥) →
            Spends 2 (2 + bitlen others) moves.old moves.new }
    {
        let item = self.heads[number as usize];
        let row = self.sources.row(number);
        let place = match find(row, source, m) {
            Ok(place) => place,
            Err(place) => {
                if !self.has_room(number, room) {
                    return None;
                }
                let added = Source {
                    address: source,
                    timer: SourceTimer::Running(deadline, 0),
                };
                let earlier = earlier_than(self.moments.moment(number), deadline, m);
                change_moment(&mut self.moments, number, earlier, m, moves);
                self.sources
                    .insert(number, place, added, self.moments.numbers(), moves);
                return Some(item.head.mode.is_include());
            }
        };
        let before = row[place];
        let earliest = self.moments.moment(number);
        let was_later = is_later(before.timer, earliest, m);
        let after = restarted(before, deadline);
        self.sources.set(number, place, after, moves);
        let row = self.sources.row(number);
        let due = earliest_then(&item, row, was_later, earliest, deadline, m);
        change_moment(&mut self.moments, number, due, m, moves);
        Some(is_stopped(before.timer))
    }
}

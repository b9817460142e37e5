//! The timers of several sources, set where their group's row is stored.

ghost use Rattle.std.specs.Prelude.{◌≡◌, ℕ, ◌+◌, ◌-◌, ◌*◌, ◌<◌, ◌≤◌, [], Bool, false, true, length, map as list_map, min, nat_lt, slice_index_or, slice_set, if◌then◌else◌, MatchOption, Some};
ghost use Rattle.std.specs.FinMap as map;
ghost use Rattle.std.specs.List.{HoldsAt, list_all, list_any};
ghost use Rattle.mq_count.specs.Spending.{Spends};
ghost use Rattle.mq_sets.specs.Ascending.{IsAscending, set_of};
ghost use Rattle.mq_sets.specs.Search.{bitlen};
ghost use Rattle.mq_table.specs.Group as group;
ghost use Rattle.mq_table.specs.Group.{is_vacant};
ghost use Rattle.mq_table.specs.Stored.{number_in, timers_in};
ghost use Rattle.mq_held.specs.Groups.{group_at, running_in, sources_in, sources_of};
ghost use Rattle.mq_held.specs.Held.{HasNumber, IsNumber};
ghost use Rattle.mq_held.specs.Moments.{moments_of};
ghost use Rattle.mq_held.specs.Restarted as group_then;
ghost use Rattle.mq_held.specs.Restarted.{RestartsEach, StandsFrom, has_room, most_looked, most_set};
ghost use Rattle.mq_held.specs.Stored.{earliest_of, group_of};

use crate::held_groups::HeldGroups;
use crate::scheduled_head::ScheduledHead;
use crate::timers_in_place::{
    SourceRoom, change_moment, earliest_then, is_later, is_stopped, restarted,
};
use mq_count::{Key, Meter, Moment, Moves};
use mq_sets::{Pool, find};
use mq_table::Source;
use std::alloc::Allocator;
use std::cmp::Ordering;

/// Returns whether each of some ascending names is that of one of some ascending sources. The first is found by binary
/// search, and the others by one walk from there.
fn has_each<K: Key>(row: &[Source<K>], named: &[K], m: &mut Meter) -> bool
    requires ascending { IsAscending (number_in K.number) row.now }
    requires named { IsAscending K.number named.now }
    requires some { 0 < length named.now }
    ensures all { result ≡ list_all (set_of (number_in K.number) row.now) (list_map K.number named.now) }
    ensures spent { Spends (if result then length named.now else 0) (length row.now + bitlen (length row.now)) m.old m.new }
{
    let Ok(first) = find(row, named[0], m) else {
        return false;
    };
    let mut place = first + 1;
    let mut next = 1;
    while next < named.len() {
        if place == row.len() {
            return false;
        }
        match row[place].address.order(named[next], m) {
            Ordering::Less => {}
            Ordering::Equal => next += 1,
            Ordering::Greater => return false,
        }
        place += 1;
    }
    true
}

/// Returns the place of a name that a source at `from` or after it has, by a walk from there.
fn place_from<K: Key>(row: &[Source<K>], from: usize, name: K, m: &mut Meter) -> usize
    requires there { StandsFrom (number_in K.number) row.now (K.number name) from }
    ensures within { (from ≤ result) × (result < length row.now) }
    ensures found { HoldsAt (λ x. number_in K.number x ≡ K.number name) row.now result }
    ensures spent { let count = result + 1 - from in Spends count count m.old m.new }
{
    let mut place = from;
    loop {
        match row[place].address.order(name, m) {
            Ordering::Equal => return place,
            Ordering::Less | Ordering::Greater => place += 1,
        }
    }
}

/// The state of timers before they were set anew.
#[derive(Clone, Copy)]
struct Before {
    // True if one of them was stopped.
    is_stopped: bool,
    // True if each of them expired after a moment, or didn't run.
    is_later: bool,
}

/// Sets the timers of some of a row's sources to a deadline; their remaining retransmissions stay. The names ascend,
/// and each is that of a source of the row. Returns the state of these timers before, against the moment `earliest`.
fn restart_row<K: Key, A: Allocator>(
    rows: &mut Pool<Source<K>, A>,
    number: u16,
    named: &[K],
    earliest: Moment,
    deadline: Moment,
    m: &mut Meter,
    moves: &mut Moves,
) -> Before
    requires number { number < length rows.old.rows }
    requires ascending { IsAscending (number_in K.number) (slice_index_or rows.old.rows number []) }
    requires named { IsAscending K.number named.now }
    requires there { let before = slice_index_or rows.old.rows number [] in
        list_all (set_of (number_in K.number) before) (list_map K.number named.now) ≡ true }
    ensures rows { let after = slice_index_or rows.new.rows number [] in
        rows.new ≡ record rows.old { rows = slice_set rows.old.rows number after } }
    ensures ascending { IsAscending (number_in K.number) (slice_index_or rows.new.rows number []) }
    ensures len { length (slice_index_or rows.new.rows number []) ≡ length (slice_index_or rows.old.rows number []) }
    ensures group { let before = slice_index_or rows.old.rows number [] in
        let after = slice_index_or rows.new.rows number [] in
        (head : ScheduledHead) → group_of K.number head after ≡ group_then.restarted_each deadline (list_map K.number named.now) (group_of K.number head before) }
    ensures stopped { let timers = timers_in K.number (slice_index_or rows.old.rows number []) in
        result.is_stopped ≡ list_any (λ s. group.is_stopped (map.get timers s)) (list_map K.number named.now) }
    ensures later { let before = slice_index_or rows.old.rows number [] in
        let after = slice_index_or rows.new.rows number [] in
        let moment = if nat_lt 0 (length named.now) then min earliest deadline else earliest in
        result.is_later ≡ true → (head : ScheduledHead) →
        earliest_of (moments_of (group_of K.number head before)) ≡ Some earliest →
        earliest_of (moments_of (group_of K.number head after)) ≡ Some moment }
    ensures spent { let most = length (slice_index_or rows.old.rows number []) + length named.now in
        Spends (length named.now) most m.old m.new }
    ensures moved { Spends (length named.now) (length named.now) moves.old moves.new }
{
    let mut were = Before {
        is_stopped: false,
        is_later: true,
    };
    let mut from = 0;
    for name in named {
        let place = place_from(rows.row(number), from, *name, m);
        let before = rows.row(number)[place];
        were.is_stopped |= is_stopped(before.timer);
        were.is_later &= is_later(before.timer, earliest, m);
        rows.set(number, place, restarted(before, deadline), moves);
        from = place + 1;
    }
    were
}

impl<K: Key, A: Allocator> HeldGroups<K, A> {
    /// Sets the timers of named sources of a group to a new deadline, if the group has each of them.
    ///
    /// The names ascend. The remaining retransmissions of each source stay. If the group lacks the only named source, it
    /// is added if the limits allow one more. Returns whether the group's filter changes: a source was stopped, or one is added in
    /// INCLUDE. In any other case, returns None and changes nothing. No row is copied. One named source is found by
    /// binary search.
    pub fn restart_each(
        &mut self,
        number: u16,
        named: &[K],
        deadline: Moment,
        room: SourceRoom,
        m: &mut Meter,
        moves: &mut Moves,
    ) -> Option<bool>
        requires number { IsNumber self.old number }
        requires named { IsAscending K.number named.now }
        requires held { (address : ℕ) → HasNumber self.old address number → is_vacant (group_at self.old.groups address).group ≡ false }
        requires fits { room.sources ≤ self.old.source_room }
        ensures effect { (address : ℕ) → HasNumber self.old address number →
            RestartsEach K.number address deadline named.now (has_room room self.old.groups address) result self.old self.new moves.old moves.new }
        ensures spent { (address : ℕ) → HasNumber self.old address number →
            let size = sources_of (group_at self.old.groups address) in
            let others = running_in self.old.groups - 1 in
            let count = length named.now in
            MatchOption result (Spends 0 (most_looked size count) m.old m.new)
            (λ _. Spends count (most_set size count (bitlen others)) m.old m.new) }
    {
        if named.is_empty() {
            self.lemma_is_numbered();
            return Some(false);
        }
        if named.len() != 1 {
            return self.restart_several(number, named, deadline, m, moves);
        }
        self.restart(number, named[0], deadline, room, m, moves)
    }

    /// Acts like `restart_each` for several sources, by walks over the group's row.
    fn restart_several(
        &mut self,
        number: u16,
        named: &[K],
        deadline: Moment,
        m: &mut Meter,
        moves: &mut Moves,
    ) -> Option<bool>
        requires number { IsNumber self.old number }
        requires named { IsAscending K.number named.now }
        requires several { 1 < length named.now }
        ensures effect { (address : ℕ) → HasNumber self.old address number →
            (may_add : Bool) → RestartsEach K.number address deadline named.now may_add result self.old self.new moves.old moves.new }
        ensures spent { (address : ℕ) → HasNumber self.old address number →
            let size = sources_of (group_at self.old.groups address) in
            let others = running_in self.old.groups - 1 in
            let count = length named.now in
            MatchOption result (Spends 0 (size + bitlen size) m.old m.new)
            (λ _. Spends count (3 * size + bitlen size + count + 4 + bitlen others) m.old m.new) }
    {
        let row = self.sources.row(number);
        if !has_each(row, named, m) {
            return None;
        }
        let item = self.heads[number as usize];
        let earliest = self.moments.moment(number);
        let were = restart_row(
            &mut self.sources,
            number,
            named,
            earliest,
            deadline,
            m,
            moves,
        );
        let row = self.sources.row(number);
        let due = earliest_then(&item, row, were.is_later, earliest, deadline, m);
        change_moment(&mut self.moments, number, due, m, moves);
        Some(were.is_stopped)
    }
}

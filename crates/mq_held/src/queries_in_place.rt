//! The queries for a source of a group, started and sent where the group's row is stored.

ghost use Rattle.std.specs.Prelude.{◌≡◌, ℕ, ◌+◌, ◌-◌, ◌*◌, ◌^◌, ◌<◌, ◌≤◌, [], ◌∷◌, true, false, min, length, map as list_map, is_some, if◌then◌else◌, slice_index_or, slice_set};
ghost use Rattle.std.specs.FinMap as map;
ghost use Rattle.std.specs.List.{HoldsAt, count_by, list_any};
ghost use Rattle.mq_count.specs.Spending.{Spends};
ghost use Rattle.mq_sets.specs.Ascending.{IsAscending, set_of};
ghost use Rattle.mq_sets.specs.Search.{bitlen};
ghost use Rattle.mq_table.specs.AskedSources.{source_if_asked};
ghost use Rattle.mq_table.specs.Group.{deadline_of, is_ahead, timer_at};
ghost use Rattle.mq_table.specs.MadeSources.{item_counted};
ghost use Rattle.mq_table.specs.RetransmissionPlaces.{PassesBetween, item_has_retransmissions};
ghost use Rattle.mq_table.specs.Retransmissions.{above};
ghost use Rattle.mq_table.specs.Stored.{number_in};
ghost use Rattle.mq_table.specs.Timing.{last_member_count};
ghost use Rattle.mq_sched.specs.Rounds.{IsQuietAt};
ghost use Rattle.mq_sched.specs.Sending.{after_round, messages_due};
ghost use Rattle.mq_sched.specs.Sink.{Sends};
ghost use Rattle.mq_held.specs.Asked.{one_asked};
ghost use Rattle.mq_held.specs.Groups.{group_at, running_in, sources_of};
ghost use Rattle.mq_held.specs.Held.{HasNumber, IsNumber};

use crate::earliest::count_schedules;
use crate::held_groups::HeldGroups;
use crate::timers_in_place::earliest_then;
use mq_count::{Key, Meter, Moment, Moves};
use mq_sched::{Sink, send_waiting};
use mq_sets::{Pool, find};
use mq_table::{RetransmissionPlaces, Source, SourceTimer, Timing, runs_on};
use std::alloc::Allocator;

/// Lowers the timer of the source at a place of a row to a limit, after which it runs on. Then `count` retransmissions
/// are to go for it.
fn ask_in_row<K: Key, A: Allocator>(
    rows: &mut Pool<Source<K>, A>,
    number: u16,
    place: usize,
    limit: Moment,
    count: u32,
    moves: &mut Moves,
)
    requires number { number < length rows.old.rows }
    requires ascending { IsAscending (number_in K.number) (slice_index_or rows.old.rows number []) }
    requires place { place < length (slice_index_or rows.old.rows number []) }
    requires above { HoldsAt (λ x. is_ahead limit (deadline_of (Some x.timer)) ≡ true) (slice_index_or rows.old.rows number []) place }
    ensures rows { let row = slice_index_or rows.old.rows number [] in
        (source : K) → HoldsAt (λ x. K.number x.address ≡ K.number source) row place →
        rows.new ≡ record rows.old { rows = slice_set rows.old.rows number (list_map (source_if_asked K.number limit count (set_of K.number (source ∷ []))) row) } }
    ensures moved { Spends 1 1 moves.old moves.new }
{
    let held = rows.row(number)[place];
    let asked = Source {
        address: held.address,
        timer: SourceTimer::Running(limit, count),
    };
    rows.set(number, place, asked, moves);
}

/// Leaves each source of a row one retransmission fewer, if it has one. Outside of the places none has one. Returns
/// whether a source has one left. No comparison.
fn count_in_row<K: Key, A: Allocator>(
    rows: &mut Pool<Source<K>, A>,
    number: u16,
    places: RetransmissionPlaces,
    moves: &mut Moves,
) -> bool
    requires number { number < length rows.old.rows }
    requires between { PassesBetween item_has_retransmissions places.first places.end (slice_index_or rows.old.rows number []) }
    ensures rows { let row = slice_index_or rows.old.rows number [] in
        rows.new ≡ record rows.old { rows = slice_set rows.old.rows number (list_map item_counted row) } }
    ensures left { result ≡ list_any item_has_retransmissions (list_map item_counted (slice_index_or rows.old.rows number [])) }
    ensures moved { let count = count_by item_has_retransmissions (slice_index_or rows.old.rows number []) in
        Spends count count moves.old moves.new }
{
    let mut left = false;
    for place in places.first..places.end {
        let held = rows.row(number)[place];
        if held.timer.has_retransmissions() {
            let timer = held.timer.counted();
            left |= timer.has_retransmissions();
            let counted = Source {
                address: held.address,
                timer,
            };
            rows.set(number, place, counted, moves);
        }
    }
    left
}

impl<K: Key, A: Allocator> HeldGroups<K, A> {
    /// Asks for a source of the group of a number, for which nothing is due.
    ///
    /// If the source's timer is above the last member query time, it is lowered to it, and the last member query count
    /// of retransmissions are to go for it. Then the queries for all sources with retransmissions to go are sent at
    /// once, at most `per_query` in each, and counted. RFC 3376 section 6.6.3.2, RFC 3810 section 7.6.3.2. If the timer
    /// isn't above it, or the group doesn't have the source, nothing changes. Only the querier asks. Returns whether
    /// the group has the source. No row is copied. The earliest moment of the group is compared with each timer only if
    /// retransmissions for its sources were due before.
    pub fn ask<S: Sink<K>>(
        &mut self,
        number: u16,
        source: K,
        now: Moment,
        timing: &Timing,
        per_query: usize,
        m: &mut Meter,
        moves: &mut Moves,
        sink: &mut S,
    ) -> bool
        requires number { IsNumber self.old number }
        requires in_range { now ≤ 2 ^ 53 }
        requires holds_one { 0 < per_query }
        requires most { per_query ≤ 366 }
        requires quiet { (address : ℕ) → HasNumber self.old address number → IsQuietAt now (group_at self.old.groups address).schedule }
        ensures there { (address : ℕ) → HasNumber self.old address number →
            result ≡ is_some (timer_at (group_at self.old.groups address).group (K.number source)) }
        ensures groups { (address : ℕ) → HasNumber self.old address number →
            let asked = one_asked timing.now now (K.number source) (group_at self.old.groups address) in
            self.new ≡ record self.old { groups = map.insert self.old.groups address (after_round timing.now now asked) } }
        ensures sent { (address : ℕ) → HasNumber self.old address number →
            let asked = one_asked timing.now now (K.number source) (group_at self.old.groups address) in
            Sends S.takes sink.old (messages_due per_query timing.now now address asked) sink.new }
        ensures absent { result ≡ false → self.new ≡ self.old }
        ensures unsent { result ≡ false → sink.new ≡ sink.old }
        ensures spent { (address : ℕ) → HasNumber self.old address number →
            let size = sources_of (group_at self.old.groups address) in
            let others = running_in self.old.groups - 1 in
            Spends (min 1 size) (bitlen size + (if result then 3 * size + 5 + bitlen others else 0)) m.old m.new }
        ensures spent_alone { (address : ℕ) → HasNumber self.old address number →
            let e = group_at self.old.groups address in
            let others = running_in self.old.groups - 1 in
            is_some e.schedule.sources_due ≡ false → Spends 0 (bitlen (sources_of e) + 2 * sources_of e + 2 + bitlen others) m.old m.new }
        ensures moved { (address : ℕ) → HasNumber self.old address number →
            let e = group_at self.old.groups address in
            let others = running_in self.old.groups - 1 in
            Spends (if above timing.now now e.group (K.number source) then 2 + min 1 (last_member_count timing.now) else 0) (if result then sources_of e + 2 + bitlen others else 0) moves.old moves.new }
    {
        let row = self.sources.row(number);
        let Ok(place) = find(row, source, m) else {
            return false;
        };
        let limit = now.after(timing.last_member_time());
        if !runs_on(row[place].timer.deadline(), limit, m) {
            return true;
        }
        let count = timing.last_member_count();
        ask_in_row(&mut self.sources, number, place, limit, count, moves);
        let address = self.order.key(number);
        let row = self.sources.row(number);
        let places = send_waiting(address, row, now, timing, per_query, m, sink);
        let left = count_in_row(&mut self.sources, number, places, moves);
        let mut item = self.heads[number as usize];
        let before = count_schedules(item.schedule);
        let none_waited = item.schedule.sources_due().is_none();
        item.schedule.count_sources(left, now, timing);
        self.heads[number as usize] = item;
        self.scheduled = self.scheduled - before + count_schedules(item.schedule);
        let earliest = self.moments.moment(number);
        // The next queries for sources are due at the limit or before it.
        timing.is_in_range();
        let first = item.schedule.sources_due().unwrap_or(limit);
        let row = self.sources.row(number);
        let due = earliest_then(&item, row, none_waited, earliest, first, m);
        let due = due.unwrap_or(earliest);
        self.moments.change(number, due, m, moves);
        true
    }
}

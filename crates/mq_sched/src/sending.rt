//! The queries that are sent for a group at one moment.

ghost use Rattle.std.specs.Prelude.{◌≡◌, ◌+◌, ◌-◌, ◌*◌, ◌^◌, ◌<◌, ◌≤◌, if◌then◌else◌, nat_lt, length};
ghost use Rattle.mq_count.specs.Spending.{Spends};
ghost use Rattle.mq_sets.specs.Ascending.{IsAscending};
ghost use Rattle.mq_table.specs.Group.{GroupState};
ghost use Rattle.mq_table.specs.RetransmissionPlaces.{PassesBetween, item_has_retransmissions};
ghost use Rattle.mq_table.specs.Retransmissions.{retransmissions_counted};
ghost use Rattle.mq_table.specs.Stored.{number_in, size_of, timers_in};
ghost use Rattle.mq_sched.specs.Schedule.{ScheduledGroup};
ghost use Rattle.mq_sched.specs.Sending.{is_due, group_messages, source_messages, messages_due, group_counted, sources_due_next, after_round, waiting_messages};
ghost use Rattle.mq_sched.specs.Sink.{Sends};

use crate::portions::send_sources;
use crate::queries::QuerySchedule;
use crate::schedules::Schedule;
use crate::sinks::{QueryParts, Sink};
use mq_count::{Key, Meter, Moment};
use mq_table::{Group, RetransmissionPlaces, Source, Timing, places_of_retransmissions, runs_on};
use std::alloc::Allocator;

/// Returns a query that was sent at `now` with one sending fewer, if one is still to go.
fn counted(query: &QuerySchedule, now: Moment, timing: &Timing) -> Option<QuerySchedule>
    requires { now ≤ 2 ^ 53 }
    ensures { result ≡ (if nat_lt 1 query.now.sendings
        then Some (record { sendings = query.now.sendings - 1; due = now + timing.now.last_member_interval })
        else None) }
{
    if 1 < query.sendings {
        Some(QuerySchedule {
            sendings: query.sendings - 1,
            due: now.after(timing.last_member_interval()),
        })
    } else {
        None
    }
}

/// Sends the queries for the sources of a group that have retransmissions to go; `row` has its sources. Those whose
/// timers are above the last member query time go with S set, and then the others with S clear. Returns their places.
/// RFC 3376 section 6.6.3.2, RFC 3810 section 7.6.3.2.
pub fn send_waiting<K: Key, S: Sink<K>>(
    address: K,
    row: &[Source<K>],
    now: Moment,
    timing: &Timing,
    per_query: usize,
    m: &mut Meter,
    sink: &mut S,
) -> RetransmissionPlaces
    requires in_range { now ≤ 2 ^ 53 }
    requires holds_one { 0 < per_query }
    requires most { per_query ≤ 366 }
    requires ascending { IsAscending (number_in K.number) row.now }
    ensures sent { (g : GroupState) → timers_in K.number row.now ≡ g.sources →
        Sends S.takes sink.old (waiting_messages per_query timing.now now (K.number address) g) sink.new }
    ensures places { PassesBetween item_has_retransmissions result.first result.end row.now }
    ensures spent { Spends 0 (2 * length row.now) m.old m.new }
{
    let limit = now.after(timing.last_member_time());
    let places = places_of_retransmissions(row);
    let part = &row[places.first..places.end];
    send_sources(address, true, part, limit, per_query, m, sink);
    send_sources(address, false, part, limit, per_query, m, sink);
    places
}

impl Schedule {
    /// Sends the group query, if it is due, and counts it.
    fn send_group_query<'a, K: Key, A: Allocator, S: Sink<K>>(
        &mut self,
        address: K,
        group: &'a Group<K, A>,
        now: Moment,
        timing: &Timing,
        m: &mut Meter,
        sink: &mut S,
    )
        requires in_range { now ≤ 2 ^ 53 }
        ensures sent { let e : ScheduledGroup = record { group = group.now.state; schedule = self.old } in
            Sends S.takes sink.old (group_messages timing.now now (K.number address) e) sink.new }
        ensures counted { self.new ≡ record self.old { group_query = group_counted timing.now now self.old.group_query } }
        ensures spent { Spends 0 2 m.old m.new }
    {
        if let Some(query) = &self.group_query {
            if m.reached(query.due, now) {
                let limit = now.after(timing.last_member_time());
                let suppress = runs_on(group.mode().deadline(), limit, m);
                let left = counted(query, now, timing);
                let query: QueryParts<'a, K> = QueryParts::Group {
                    group: address,
                    suppress,
                };
                sink.send(query);
                self.group_query = left;
            }
        }
    }

    /// Sends the queries for the sources that have retransmissions to go, if they are due, and counts them.
    fn send_source_queries<K: Key, A: Allocator, S: Sink<K>>(
        &mut self,
        address: K,
        group: &mut Group<K, A>,
        now: Moment,
        timing: &Timing,
        per_query: usize,
        m: &mut Meter,
        sink: &mut S,
    )
        requires in_range { now ≤ 2 ^ 53 }
        requires holds_one { 0 < per_query }
        requires most { per_query ≤ 366 }
        ensures sent { let e : ScheduledGroup = record { group = group.old.state; schedule = self.old } in
            Sends S.takes sink.old (source_messages per_query timing.now now (K.number address) e) sink.new }
        ensures group { let due = is_due now self.old.sources_due in
            group.new.state ≡ (if due then retransmissions_counted group.old.state else group.old.state) }
        ensures next { let due = is_due now self.old.sources_due in
            let next = if due then sources_due_next timing.now now group.new.state else self.old.sources_due in
            self.new ≡ record self.old { sources_due = next } }
        ensures room { group.new.room ≡ group.old.room }
        ensures spent { Spends 0 (2 * size_of group.old.state + 1) m.old m.new }
    {
        if let Some(due) = self.sources_due {
            if m.reached(due, now) {
                let row = group.sources();
                let places = send_waiting(address, row, now, timing, per_query, m, sink);
                let left = group.count_retransmissions_between(places);
                self.count_sources(left, now, timing);
            }
        }
    }

    /// Counts the sources that have retransmissions to go, which were sent at `now`. If one has a retransmission left,
    /// the next are due a last member query interval later. No comparison.
    pub fn count_sources(&mut self, some_left: bool, now: Moment, timing: &Timing)
        requires in_range { now ≤ 2 ^ 53 }
        ensures { let next = if some_left then Some (now + timing.now.last_member_interval) else None in
            self.new ≡ record self.old { sources_due = next } }
    {
        self.sources_due = if some_left {
            Some(now.after(timing.last_member_interval()))
        } else {
            None
        };
    }

    /// Sends what is due at or before `now` for the group of this address, once however late.
    ///
    /// The group query goes first. Then go the sources that have retransmissions to go: those whose timers are above
    /// the last member query time with S set, and then the others with S clear. They go in ascending order, in as few
    /// messages as hold them. Each query that was sent has one sending fewer, and its next is due a last member query
    /// interval after `now`. A message holds `per_query` sources. RFC 3376 sections 6.6.3.1 and 6.6.3.2, RFC 3810
    /// sections 7.6.3.1 and 7.6.3.2.
    pub fn round<K: Key, A: Allocator, S: Sink<K>>(
        &mut self,
        address: K,
        group: &mut Group<K, A>,
        now: Moment,
        timing: &Timing,
        per_query: usize,
        m: &mut Meter,
        sink: &mut S,
    )
        requires in_range { now ≤ 2 ^ 53 }
        requires holds_one { 0 < per_query }
        requires most { per_query ≤ 366 }
        ensures sent { let e : ScheduledGroup = record { group = group.old.state; schedule = self.old } in
            Sends S.takes sink.old (messages_due per_query timing.now now (K.number address) e) sink.new }
        ensures after { let e : ScheduledGroup = record { group = group.old.state; schedule = self.old } in
            record { group = group.new.state; schedule = self.new } ≡ after_round timing.now now e }
        ensures room { group.new.room ≡ group.old.room }
        ensures spent { Spends 0 (2 * size_of group.old.state + 3) m.old m.new }
    {
        self.send_group_query(address, group, now, timing, m, sink);
        self.send_source_queries(address, group, now, timing, per_query, m, sink);
    }
}

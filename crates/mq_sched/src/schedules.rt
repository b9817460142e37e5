//! The specific queries that are still to go for one group.

ghost use Rattle.std.specs.Prelude.{◌≡◌, ℕ, ◌+◌, ◌*◌, ◌^◌, ◌≤◌, true, Some, IsSome, length, min};
ghost use Rattle.mq_count.specs.Spending.{Spends};
ghost use Rattle.mq_sets.specs.Ascending.{IsAscending, set_of};
ghost use Rattle.mq_table.specs.Group.{timer_at};
ghost use Rattle.mq_table.specs.Stored.{size_of};
ghost use Rattle.mq_table.specs.Retransmissions.{some_source, has_retransmissions};
ghost use Rattle.mq_sched.specs.Rounds.{compared_for, is_due_at};
ghost use Rattle.mq_sched.specs.Schedule.{ScheduledGroup, no_schedule, settled, cleared};
ghost use Rattle.mq_sched.specs.Sending.{group_asked, sources_asked};

use crate::queries::QuerySchedule;
use mq_count::{Key, Meter, Moment};
use mq_table::{FilterMode, Group, Timing, any_has_retransmissions};
use std::alloc::Allocator;
use std::marker::Model;

/// The specific queries that are still to go for one group.
///
/// They are its group-specific query, and the moment of the next queries for its sources. The retransmissions to go for
/// a source are kept with the source's timer in its group. A contract sees the state of the definitions.
///
/// - Started by a record: `start_group` and `start_sources`.
/// - Sent in time: `round`.
/// - Dropped: `settle` after each change of the group, and `clear` if the router is no longer querier.
/// - Read: `group_query`, `sources_due`, `is_due`.
///
/// All take the group of the schedule. For a record the order is `settle`, `start_group`, `start_sources`, `round`.
/// Moments don't go back.
#[derive(Clone, Copy)]
pub struct Schedule {
    pub(crate) group_query: Option<QuerySchedule>,
    pub(crate) sources_due: Option<Moment>,
}

impl Model for Schedule {
    ghost use Rattle.mq_sched.specs.Schedule.{ScheduleState};

    ghost Value = { ScheduleState };

    ghost view = { λ s. record { group_query = s.group_query; sources_due = s.sources_due } };

    ghost inverse = { λ v. record { group_query = v.group_query; sources_due = v.sources_due } };
}

impl Schedule {
    /// Returns a schedule with nothing to go.
    pub fn none() -> Schedule
        ensures { result ≡ no_schedule }
    {
        Schedule {
            group_query: None,
            sources_due: None,
        }
    }

    /// Returns the group query that is to go, if there is one.
    pub fn group_query(&self) -> Option<QuerySchedule>
        ensures { result ≡ self.now.group_query }
    {
        self.group_query
    }

    /// Returns the moment when the sources that have retransmissions to go are due, if one has.
    pub fn sources_due(&self) -> Option<Moment>
        ensures { result ≡ self.now.sources_due }
    {
        self.sources_due
    }

    /// Returns whether something is due at or before a moment. The sources are compared only if the group query isn't
    /// due.
    pub fn is_due(&self, now: Moment, m: &mut Meter) -> bool
        ensures due { result ≡ is_due_at now self.now }
        ensures spent { Spends 0 2 m.old m.new }
        ensures compared { let count = compared_for now self.now in Spends count count m.old m.new }
    {
        if let Some(query) = &self.group_query {
            if m.reached(query.due, now) {
                return true;
            }
        }
        match self.sources_due {
            Some(due) => m.reached(due, now),
            None => false,
        }
    }

    /// Starts the group-specific query of a group. Its timer is lowered to the last member query time. The last member
    /// query count of sendings are to go, the first at once (RFC 3376 section 6.6.3.1, RFC 3810 section 7.6.3.1).
    pub fn start_group<K: Key, A: Allocator>(
        &mut self,
        group: &mut Group<K, A>,
        now: Moment,
        timing: &Timing,
        m: &mut Meter,
    )
        requires in_range { now ≤ 2 ^ 53 }
        ensures asked { let e : ScheduledGroup = record { group = group.old.state; schedule = self.old } in
            record { group = group.new.state; schedule = self.new } ≡ group_asked timing.now now e }
        ensures room { group.new.room ≡ group.old.room }
        ensures spent { Spends 0 1 m.old m.new }
    {
        group.lower_group(now, timing, m);
        if let FilterMode::Exclude(_) = group.mode() {
            self.group_query = Some(QuerySchedule {
                sendings: timing.last_member_count(),
                due: now,
            });
        }
    }

    /// Drops what has lost its cause after a record or expired timers. This is the group query of a group in INCLUDE,
    /// and the moment for sources if none has a retransmission to go. No comparison.
    pub fn settle<K: Key, A: Allocator>(&mut self, group: &Group<K, A>)
        ensures { self.new ≡ settled group.now.state self.old }
    {
        if let FilterMode::Include = group.mode() {
            self.group_query = None;
        }
        if self.sources_due.is_some() && !has_retransmissions(group) {
            self.sources_due = None;
        }
    }

    /// Starts the group-and-source-specific query for sources that the group holds. Their timers above the last member
    /// query time are lowered to it. The number of retransmissions of each is set to the last member query count, and
    /// the first goes at once. If there is none, nothing changes (RFC 3376 section 6.6.3.2, RFC 3810 section 7.6.3.2).
    pub fn start_sources<K: Key, A: Allocator>(
        &mut self,
        group: &mut Group<K, A>,
        asked: &[K],
        now: Moment,
        timing: &Timing,
        m: &mut Meter,
    )
        requires in_range { now ≤ 2 ^ 53 }
        requires ascending { IsAscending K.number asked.now }
        requires held { (s : ℕ) → set_of K.number asked.now s ≡ true → IsSome (timer_at group.old.state s) }
        ensures asked { let e : ScheduledGroup = record { group = group.old.state; schedule = self.old } in
            record { group = group.new.state; schedule = self.new } ≡ sources_asked timing.now now (set_of K.number asked.now) e }
        ensures room { group.new.room ≡ group.old.room }
        ensures spent { Spends (min 1 (length asked.now)) (2 * size_of group.old.state) m.old m.new }
    {
        if group.start_retransmissions(asked, now, timing, m) {
            self.sources_due = Some(now);
        }
    }

    /// Drops all that was to go, if the router is no longer querier. No timer changes. No comparison. RFC 3376 section
    /// 6.6.2, RFC 3810 section 7.6.2.
    pub fn clear<K: Key, A: Allocator>(&mut self, group: &mut Group<K, A>)
        ensures cleared { let e : ScheduledGroup = record { group = group.old.state; schedule = self.old } in
            record { group = group.new.state; schedule = self.new } ≡ cleared e }
        ensures room { group.new.room ≡ group.old.room }
    {
        group.clear_retransmissions();
        *self = Schedule::none();
    }
}

/// Returns whether some source of the group has a retransmission to go.
fn has_retransmissions<K: Key, A: Allocator>(group: &Group<K, A>) -> bool
    ensures { result ≡ some_source (has_retransmissions group.now.state) group.now.state }
{
    any_has_retransmissions(group.sources())
}

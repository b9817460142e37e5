//! The limits that a statement could exceed.

ghost use Rattle.std.specs.Prelude.{◌≡◌, ℕ, ◌+◌, ◌≤◌, is_some};
ghost use Rattle.std.specs.FinMap as map;
ghost use Rattle.std.specs.List.{list_any};
ghost use Rattle.mq_count.specs.Spending.{Spends};
ghost use Rattle.mq_table.specs.declared.timing.Timing.{Timing};
ghost use Rattle.mq_table.specs.Stored.{size_of};
ghost use Rattle.mq_sched.specs.Schedule.{ScheduledGroup};
ghost use Rattle.mq_sched.specs.Sending.{after_round, group_counted};
ghost use Rattle.mq_held.specs.Groups.{group_at, sources_in, sources_of, schedules_in, with_group};
ghost use Rattle.mq_link.specs.Judging.{item_has_more};
ghost use Rattle.mq_link.specs.Limits.{IsChangeAt};
ghost use Rattle.mq_link.specs.Record as record_spec;
ghost use Rattle.mq_link.specs.Record.{limit_passed_by};
ghost use Rattle.mq_link.specs.State.{schedules_of};
ghost use Rattle.mq_link.specs.Storage.{has_counted};

use crate::answers::Refusal;
use crate::configuration::Limits;
use crate::storage::Storage;
use mq_count::{Key, Meter, Moment};
use mq_held::count_schedules;
use mq_sched::Schedule;
use mq_table::{Group, Source, SourceTimer};
use std::alloc::Allocator;

/// The facts of a group's change that is not kept yet, beside the new group itself. They are whether the group is held
/// before it, with how many sources and with which schedule, and the schedule after it.
#[derive(Clone, Copy)]
pub(crate) struct Change {
    pub(crate) is_held: bool,
    pub(crate) sources: usize,
    pub(crate) before: Schedule,
    pub(crate) schedule: Schedule,
}

/// Returns the first limit that these numbers exceed: of groups, sources of one group, sources in all, and schedules.
fn limit_passed(
    limits: &Limits,
    groups: usize,
    group_sources: usize,
    sources: usize,
    scheduled: usize,
) -> Option<Refusal>
    ensures { result ≡ limit_passed_by limits.now groups group_sources sources scheduled }
{
    if (limits.groups as usize) < groups {
        Some(Refusal::Groups)
    } else if (limits.group_sources as usize) < group_sources {
        Some(Refusal::GroupSources)
    } else if (limits.sources as usize) < sources {
        Some(Refusal::Sources)
    } else if (limits.scheduled as usize) < scheduled {
        Some(Refusal::Scheduled)
    } else {
        None
    }
}

/// Returns whether some source of the list has a retransmission to go beside the next.
fn any_has_more<K: Key>(row: &[Source<K>]) -> bool
    ensures { result ≡ list_any item_has_more row.now }
{
    row.iter().any(|x| match x.timer {
        SourceTimer::Running(_, retransmissions) => 1 < retransmissions,
        SourceTimer::Stopped => false,
    })
}

/// Returns whether the sources of a group have retransmissions to go after a round at `now`.
fn sources_stay_due<K: Key, A: Allocator>(
    schedule: &Schedule,
    group: &Group<K, A>,
    now: Moment,
    m: &mut Meter,
) -> bool
    ensures stay { (timing : Timing) →
        let e : ScheduledGroup = record { group = group.now.state; schedule = schedule.now } in
        result ≡ is_some (after_round timing now e).schedule.sources_due }
    ensures spent { Spends 0 1 m.old m.new }
{
    match schedule.sources_due() {
        None => false,
        Some(due) => !m.reached(due, now) || any_has_more(group.sources()),
    }
}

/// Returns whether a group's query has a sending to go after a round at `now`.
fn group_stays_due(schedule: &Schedule, now: Moment, m: &mut Meter) -> bool
    ensures stays { (timing : Timing) → result ≡ is_some (group_counted timing now schedule.now.group_query) }
    ensures spent { Spends 0 1 m.old m.new }
{
    match schedule.group_query() {
        None => false,
        Some(query) => !m.reached(query.due, now) || 1 < query.sendings,
    }
}

/// Returns the number of schedules that a group has after a round at `now`. The round is not done.
fn schedules_after_round<K: Key, A: Allocator>(
    schedule: &Schedule,
    group: &Group<K, A>,
    now: Moment,
    m: &mut Meter,
) -> usize
    ensures left { (timing : Timing) →
        let e : ScheduledGroup = record { group = group.now.state; schedule = schedule.now } in
        result ≡ schedules_of (after_round timing now e) }
    ensures most { result ≤ 2 }
    ensures spent { Spends 0 2 m.old m.new }
{
    let group_stays = group_stays_due(schedule, now, m);
    let sources_stay = sources_stay_due(schedule, group, now, m);
    usize::from(group_stays) + usize::from(sources_stay)
}

impl<K: Key, A: Allocator> Storage<K, A> {
    /// Returns the first limit that the groups would exceed after a change of one of them, if any. The group was worked
    /// on, and would then send what is due at `now`. No group is changed by this.
    pub(crate) fn refusal<B: Allocator>(
        &mut self,
        after: &Group<K, B>,
        change: &Change,
        limits: &Limits,
        now: Moment,
    ) -> Option<Refusal>
        requires groups { map.len self.old.held.groups ≤ 65535 }
        requires sources { sources_in self.old.held.groups ≤ 65535 }
        requires scheduled { schedules_in self.old.held.groups ≤ 131070 }
        requires few { size_of after.now.state ≤ 65535 }
        requires change { (address : ℕ) × IsChangeAt self.old.held.groups address change.now }
        ensures name { (timing : Timing) (address : ℕ) → IsChangeAt self.old.held.groups address change.now
            → let e = after_round timing now (record { group = after.now.state; schedule = change.now.schedule }) in
            result ≡ record_spec.limit_passed limits.now (with_group self.old.held.groups address e) e }
        ensures left { self.new ≡ has_counted self.old self.new.meter }
        ensures spent { Spends 0 2 self.old.meter self.new.meter }
    {
        let is_vacant = after.is_vacant();
        let left = if is_vacant {
            0
        } else {
            schedules_after_round(&change.schedule, after, now, &mut self.meter)
        };
        let groups = self.held.len() + usize::from(!is_vacant) - usize::from(change.is_held);
        let sources = self.held.sources() + after.sources().len() - change.sources;
        let scheduled = self.held.schedules() + left - count_schedules(change.before);
        limit_passed(limits, groups, after.sources().len(), sources, scheduled)
    }
}

//! The earliest moment of a group.

ghost use Rattle.std.specs.Prelude.{◌≡◌, ℕ, ◌+◌, ◌-◌, [], ◌∷◌, ◌++◌, length, Some, is_some};
ghost use Rattle.std.specs.List.{flat_map};
ghost use Rattle.std.specs.Option.{option_to_list};
ghost use Rattle.mq_count.specs.Spending.{Spends};
ghost use Rattle.mq_table.specs.Group as group_of;
ghost use Rattle.mq_table.specs.Stored.{size_of};
ghost use Rattle.mq_sched.specs.Schedule.{ScheduledGroup};
ghost use Rattle.mq_sched.specs.Sending as sending;
ghost use Rattle.mq_held.specs.Groups as groups;
ghost use Rattle.mq_held.specs.Moments.{those_of, moments_of};
ghost use Rattle.mq_held.specs.Stored.{earliest_of, timer_moments};

use mq_count::{Key, Meter, Moment, Timed};
use mq_sched::{QuerySchedule, Schedule};
use mq_table::{FilterMode, Group, Source};
use std::alloc::Allocator;

/// Returns the earlier of two moments, of those that exist.
fn earlier(first: Option<Moment>, second: Option<Moment>, m: &mut Meter) -> Option<Moment>
    ensures earliest { result ≡ earliest_of (option_to_list first ++ option_to_list second) }
    ensures spent { Spends 0 1 m.old m.new }
    ensures compared { let count = length (option_to_list first ++ option_to_list second) - 1 in
        Spends count count m.old m.new }
{
    match (first, second) {
        (Some(a), Some(b)) => Some(m.earlier(a, b)),
        (None, other) => other,
        (other, None) => other,
    }
}

/// Returns the moment when the next sending of a group query is due, if there is one.
fn group_due(query: Option<QuerySchedule>) -> Option<Moment>
    ensures { result ≡ sending.group_due query }
{
    match query {
        None => None,
        Some(query) => Some(query.due),
    }
}

/// Returns the earliest of the moments of a group without its sources, and of its schedule.
pub(crate) fn earliest_of_head(
    mode: FilterMode,
    v1: Option<Moment>,
    v2: Option<Moment>,
    schedule: Schedule,
    m: &mut Meter,
) -> Option<Moment>
    ensures earliest { let queries = sending.group_due schedule.group_query ∷ schedule.sources_due ∷ [] in
        result ≡ earliest_of (those_of (group_of.group_deadline mode ∷ v1 ∷ v2 ∷ queries)) }
    ensures spent { Spends 0 4 m.old m.new }
    ensures compared { let queries = sending.group_due schedule.group_query ∷ schedule.sources_due ∷ [] in
        let count = length (those_of (group_of.group_deadline mode ∷ v1 ∷ v2 ∷ queries)) - 1 in
        Spends count count m.old m.new }
{
    let hosts = earlier(v1, v2, m);
    let timers = earlier(mode.deadline(), hosts, m);
    let queries = earlier(group_due(schedule.group_query()), schedule.sources_due(), m);
    earlier(timers, queries, m)
}

/// Returns the earliest of a moment, if there is one, and of the deadlines of some sources.
pub(crate) fn earliest_with_row<K: Key>(
    first: Option<Moment>,
    row: &[Source<K>],
    m: &mut Meter,
) -> Option<Moment>
    ensures earliest { result ≡ earliest_of (option_to_list first ++ flat_map timer_moments row.now) }
    ensures spent { Spends 0 (length row.now) m.old m.new }
    ensures compared { let count = length (option_to_list first ++ flat_map timer_moments row.now) - 1 in
        Spends count count m.old m.new }
{
    let mut start = first;
    let mut place = 0;
    while start.is_none() && place < row.len() {
        start = row[place].moment();
        place += 1;
    }
    match start {
        Some(start) => Some(m.earliest_with(start, &row[place..])),
        None => None,
    }
}

/// Returns the earliest of all moments of a group and its schedule. A group that is held has one.
pub(crate) fn earliest_moment<K: Key, A: Allocator>(
    group: &Group<K, A>,
    schedule: Schedule,
    m: &mut Meter,
) -> Moment
    requires held { group_of.IsWellFormed group.now.state }
    ensures earliest { let e : ScheduledGroup = record { group = group.now.state; schedule = schedule } in
        earliest_of (moments_of e) ≡ Some result }
    ensures spent { Spends 0 (size_of group.now.state + 4) m.old m.new }
    ensures compared { let e : ScheduledGroup = record { group = group.now.state; schedule = schedule } in
        let count = length (moments_of e) - 1 in
        Spends count count m.old m.new }
{
    let first = earliest_of_head(group.mode(), group.v1(), group.v2(), schedule, m);
    let earliest = earliest_with_row(first, group.sources(), m);
    earliest.unwrap()
}

/// Returns the number of schedules: the group's query is one, and the sources' is one.
pub fn count_schedules(schedule: Schedule) -> usize
    ensures { result ≡ groups.one_if (is_some schedule.group_query) + groups.one_if (is_some schedule.sources_due) }
{
    usize::from(schedule.group_query().is_some()) + usize::from(schedule.sources_due().is_some())
}

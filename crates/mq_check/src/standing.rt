//! The standing of subjects in the link.

ghost use Rattle.std.specs.Prelude.{◌≡◌, ◌≤◌, ◌^◌};
ghost use Rattle.mq_table.specs.Group.{deadline_of, group_deadline, timer_at};
ghost use Rattle.mq_table.specs.OlderHosts.{hosts_of};
ghost use Rattle.mq_link.specs.State.{group_at};
ghost use Rattle.mq_check.specs.Numbered.{numbered_asked};
ghost use Rattle.mq_check.specs.Standing as spec;

use crate::asked::Asked;
use crate::stamp::Stamp;
use mq_count::{Meter, Moment};
use mq_link::{Family, Link, SourceTimer};
use mq_table::{Hosts, Timing, runs_on, timer_among};
use std::alloc::Allocator;

/// The standing of a subject in the link when a query on it is seen.
#[derive(Clone, Copy)]
pub struct Standing {
    /// True if an older host of its group mutes the change that asks for the query.
    pub is_muted: bool,
    /// True if its timer exceeds the Last Member Query Time.
    pub is_above: bool,
    /// The moment up to which its timer runs at least, if a Report sets it at most a millisecond before or later.
    pub set_from: Moment,
}

/// Returns the older versions that have hosts in a group, as far as the link knows.
fn hosts_in<F: Family, A: Allocator>(link: &Link<F, A>, now: Moment, group: F::Address) -> Hosts
    ensures { result ≡ hosts_of (group_at link.now.state.groups (F.Address.number group)).group now }
{
    match link.find(group) {
        Some(held) => Hosts {
            v1: runs_on(held.v1, now, &mut Meter::new()),
            v2: runs_on(held.v2, now, &mut Meter::new()),
        },
        None => Hosts {
            v1: false,
            v2: false,
        },
    }
}

/// Returns whether an older host mutes the change that asks for a query on a subject.
fn is_muted<F: Family, A: Allocator>(
    link: &Link<F, A>,
    now: Moment,
    asked: Asked<F::Address>,
) -> bool
    ensures { let a = numbered_asked F.Address.number asked in
        result ≡ spec.muted_by F.FAMILY (spec.hosts_in link.now.state.groups now a) a }
{
    match asked {
        Asked::AllGroups => false,
        Asked::Group(group) => F::V1_MUTES_LEAVE && hosts_in(link, now, group).v1,
        Asked::Source(group, _) => {
            let hosts = hosts_in(link, now, group);
            hosts.v1 || hosts.v2
        }
    }
}

/// Returns the deadline of a timer, if it runs.
fn running_until(timer: Option<SourceTimer>) -> Option<Moment>
    ensures { result ≡ deadline_of timer }
{
    match timer {
        Some(timer) => timer.deadline(),
        None => None,
    }
}

/// Returns the deadline of the group timer of a group, if it runs in the link.
fn group_timer<F: Family, A: Allocator>(link: &Link<F, A>, group: F::Address) -> Option<Moment>
    ensures { result ≡ group_deadline (group_at link.now.state.groups (F.Address.number group)).group.mode }
{
    match link.find(group) {
        Some(held) => held.mode.deadline(),
        None => None,
    }
}

/// Returns the deadline of the timer of a source, if it runs in the link.
fn source_timer<F: Family, A: Allocator>(
    link: &Link<F, A>,
    group: F::Address,
    source: F::Address,
) -> Option<Moment>
    ensures { result ≡ deadline_of (timer_at (group_at link.now.state.groups (F.Address.number group)).group (F.Address.number source)) }
{
    match link.find(group) {
        Some(held) => running_until(timer_among(held.sources, source, &mut Meter::new())),
        None => None,
    }
}

/// Returns whether the timer of a subject exceeds the Last Member Query Time.
fn is_above<F: Family, A: Allocator>(
    link: &Link<F, A>,
    in_force: Timing,
    now: Moment,
    asked: Asked<F::Address>,
) -> bool
    requires in_range { now ≤ 2 ^ 53 }
    ensures { result ≡ spec.is_above link.now.state.groups in_force now (numbered_asked F.Address.number asked) }
{
    let limit = now.after(in_force.last_member_time());
    match asked {
        Asked::AllGroups => false,
        Asked::Group(group) => runs_on(group_timer(link, group), limit, &mut Meter::new()),
        Asked::Source(group, source) => {
            runs_on(source_timer(link, group, source), limit, &mut Meter::new())
        }
    }
}

/// Returns the moment at which a timer ends that a Report set a millisecond before a moment.
pub(crate) fn set_from(in_force: Timing, now: Stamp) -> Moment
    ensures { result ≡ spec.set_from in_force now }
{
    let before = Stamp::of(now.ms().saturating_sub(1));
    before.moment().after(in_force.membership_interval())
}

/// Returns whether a timer runs to a moment or longer.
fn is_from(limit: Moment, deadline: Option<Moment>) -> bool
    ensures { result ≡ spec.is_from limit deadline }
{
    match deadline {
        Some(deadline) => Meter::new().reached(limit, deadline),
        None => false,
    }
}

/// Returns whether the timer of a subject runs to a moment or longer.
pub(crate) fn is_set<F: Family, A: Allocator>(
    link: &Link<F, A>,
    limit: Moment,
    asked: Asked<F::Address>,
) -> bool
    ensures { result ≡ spec.is_set link.now.state.groups limit (numbered_asked F.Address.number asked) }
{
    match asked {
        Asked::AllGroups => false,
        Asked::Group(group) => is_from(limit, group_timer(link, group)),
        Asked::Source(group, source) => is_from(limit, source_timer(link, group, source)),
    }
}

/// Returns the standing of a subject.
pub(crate) fn standing_in<F: Family, A: Allocator>(
    link: &Link<F, A>,
    now: Stamp,
    asked: Asked<F::Address>,
) -> Standing
    ensures { result
        ≡ spec.standing_in F.FAMILY link.now.state.groups link.now.state.election.timing now (numbered_asked F.Address.number asked) }
{
    let in_force = link.timing();
    Standing {
        is_muted: is_muted(link, now.moment(), asked),
        is_above: is_above(link, in_force, now.moment(), asked),
        set_from: set_from(in_force, now),
    }
}

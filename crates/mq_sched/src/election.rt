//! The election of the querier, and its general queries. RFC 3376 sections 6.6.2 and 8, RFC 3810 sections 7.6.2 and 9.

ghost use Rattle.std.specs.Prelude.{◌≡◌, ◌^◌, ◌≤◌, ◌<◌, Bool, nat_lt, [], ◌∷◌, if◌then◌else◌};
ghost use Rattle.mq_count.specs.Spending.{Spends};
ghost use Rattle.mq_sched.specs.Sending.{GeneralQuery};
ghost use Rattle.mq_sched.specs.Election.{is_querier, election_at, heard_or, adopted, loses_role, heard, ticked, general_messages, next_moment, outranks, reconfigured, reconfigured_value, role_reconfigured, timing_reconfigured};
ghost use Rattle.mq_sched.specs.StoredElection.{role_in};
ghost use Rattle.mq_sched.specs.StoredElection.{IsOtherOf};

use crate::announced::Announced;
use crate::roles::{OtherQuerier, StoredRole};
use mq_count::{Key, Meter, Moment};
use mq_table::Timing;
use std::cmp::Ordering;
use std::marker::Model;

/// A router's part in the election of its link's querier. While it is querier, it has the moment of its next general
/// query. A contract sees the router's own address, its configured timing, and the state of the definitions.
#[derive(Drop)]
pub struct Election<K: Key> {
    own: K,
    configured: Timing,
    in_force: Timing,
    role: StoredRole<K>,
}

impl<K: Key> Model for Election<K> {
    ghost use Rattle.mq_sched.specs.StoredElection.{RouterElection, role_in};

    ghost Value = { RouterElection };

    ghost view = { λ e. record { own = K.number e.own; configured = e.configured; state = record { role = role_in K.number e.role; timing = e.in_force } } };
}

/// Returns whether an address is lower than the router's own.
fn is_lower<K: Key>(source: K, own: K, m: &mut Meter) -> bool
    ensures answer { result ≡ nat_lt (K.number source) (K.number own) }
    ensures spent { Spends 1 1 m.old m.new }
{
    matches!(source.order(own, m), Ordering::Less)
}

/// Returns a value that a query carried; zero stands for none, and restores the configured value.
fn heard_or(configured: u32, value: u32) -> u32
    ensures { result ≡ heard_or configured value }
{
    if value == 0 { configured } else { value }
}

/// Returns the timing in force after a query: the robustness variable that it announces is adopted. If the router isn't
/// querier, so is the query interval.
fn adopted(
    configured: Timing,
    is_other: bool,
    announced: Option<Announced>,
    in_force: Timing,
) -> Timing
    ensures { result ≡ adopted configured is_other announced in_force }
{
    match announced {
        None => in_force,
        Some(said) => {
            said.is_carried();
            configured.is_in_range();
            in_force.is_in_range();
            let robustness = heard_or(configured.robustness(), said.robustness());
            let query_seconds = if is_other {
                heard_or(configured.query_seconds(), said.query_seconds())
            } else {
                in_force.query_seconds()
            };
            in_force.adopting(robustness, query_seconds).unwrap()
        }
    }
}

/// Returns a variable in force after another configuration: the configured value if that has changed.
fn reconfigured_value(before: u32, configured: u32, in_force: u32) -> u32
    ensures { result ≡ reconfigured_value before configured in_force }
{
    if configured == before {
        in_force
    } else {
        configured
    }
}

/// Returns the timing in force after another configuration. Each variable that changes is in force at once.
fn timing_reconfigured(before: Timing, configured: Timing, in_force: Timing) -> Timing
    ensures { result ≡ timing_reconfigured before configured in_force }
{
    configured.is_in_range();
    in_force.is_in_range();
    let robustness = reconfigured_value(
        before.robustness(),
        configured.robustness(),
        in_force.robustness(),
    );
    let query_seconds = reconfigured_value(
        before.query_seconds(),
        configured.query_seconds(),
        in_force.query_seconds(),
    );
    configured.adopting(robustness, query_seconds).unwrap()
}

/// Returns the role under another timing: the general query is due at most one query interval from now.
fn role_reconfigured<K: Key>(
    timing: Timing,
    now: Moment,
    role: &StoredRole<K>,
    m: &mut Meter,
) -> StoredRole<K>
    requires in_range { now ≤ 2 ^ 53 }
    ensures { role_in K.number result ≡ role_reconfigured timing now (role_in K.number role.now) }
{
    match role {
        StoredRole::Querier(due, startup_queries) => {
            let latest = now.after(timing.query_interval());
            StoredRole::Querier(m.earlier(*due, latest), *startup_queries)
        }
        StoredRole::NonQuerier(other) => StoredRole::NonQuerier(*other),
    }
}

impl<K: Key> Election<K> {
    /// Returns the election of a router at its start. It is querier, its general query is due at once, and all startup
    /// queries are to go.
    pub fn new(own: K, configured: Timing, start: Moment) -> Election<K>
        ensures own { result.own ≡ K.number own }
        ensures configured { result.configured ≡ configured }
        ensures state { result.state ≡ election_at configured start }
    {
        Election {
            own,
            configured,
            in_force: configured,
            role: StoredRole::Querier(start, configured.startup_count()),
        }
    }

    /// Handles a query that was received at `now` from this source, and what it announces. A query of an older version
    /// announces nothing. Returns whether the router was querier and is no longer: then its caller drops what it still
    /// had to send.
    pub fn hear(
        &mut self,
        source: K,
        announced: Option<Announced>,
        now: Moment,
        m: &mut Meter,
    ) -> bool
        requires in_range { now ≤ 2 ^ 53 }
        ensures state { self.new ≡ record self.old { state = heard self.old.configured self.old.own now (K.number source) announced self.old.state } }
        ensures lost { result ≡ loses_role self.old.own (K.number source) self.old.state.role }
        ensures spent { Spends 1 1 m.old m.new }
    {
        let was_querier = self.is_querier();
        let lower = is_lower(source, self.own, m);
        let timing = adopted(
            self.configured,
            lower || !was_querier,
            announced,
            self.in_force,
        );
        if lower {
            self.role = StoredRole::NonQuerier(OtherQuerier {
                address: source,
                deadline: now.after(timing.other_querier_present()),
            });
        }
        self.in_force = timing;
        was_querier && lower
    }

    /// Handles what is due at or before `now`: the end of the other querier's deadline, and the general query. After
    /// the deadline the router is querier again, with its configured timing. Returns whether a general query is sent,
    /// one however late the call comes.
    pub fn tick(&mut self, now: Moment, m: &mut Meter) -> bool
        requires in_range { now ≤ 2 ^ 53 }
        ensures state { self.new ≡ record self.old { state = ticked self.old.configured now self.old.state } }
        ensures sent { general_messages self.old.configured now self.old.state ≡ (if result then GeneralQuery ∷ [] else []) }
        ensures spent { Spends 1 1 m.old m.new }
    {
        if !m.reached(self.next_moment(), now) {
            return false;
        }
        let startup_queries = match self.role {
            StoredRole::Querier(_, startup_queries) => startup_queries,
            StoredRole::NonQuerier(_) => {
                self.in_force = self.configured;
                0
            }
        };
        let interval = if 1 < startup_queries {
            self.in_force.startup_interval()
        } else {
            self.in_force.query_interval()
        };
        self.role = StoredRole::Querier(now.after(interval), startup_queries.saturating_sub(1));
        true
    }

    /// Sets another own address and other configured variables at `now`. A variable that changes is in force at once,
    /// and the next general query is due at most one query interval later. If the other querier's address is not lower
    /// than the new one, this router is querier at once. It compares on a meter of its own.
    pub fn configure(&mut self, own: K, configured: Timing, now: Moment)
        requires in_range { now ≤ 2 ^ 53 }
        ensures { self.new ≡ record { own = K.number own; configured = configured; state = reconfigured self.old.configured configured (K.number own) now self.old.state } }
    {
        let mut m = Meter::new();
        if self.is_outranked(own, &mut m) {
            self.in_force = configured;
            self.role = StoredRole::Querier(now, 0);
        } else {
            self.in_force = timing_reconfigured(self.configured, configured, self.in_force);
            self.role = role_reconfigured(self.in_force, now, &self.role, &mut m);
        }
        self.own = own;
        self.configured = configured;
    }

    /// Returns whether there is another querier, whose address is not lower than this one.
    fn is_outranked(&self, own: K, m: &mut Meter) -> bool
        ensures { result ≡ outranks (K.number own) self.now.state.role }
    {
        match self.role {
            StoredRole::Querier(_, _) => false,
            StoredRole::NonQuerier(other) => !is_lower(other.address, own, m),
        }
    }

    /// Returns whether the router is querier.
    pub fn is_querier(&self) -> bool
        ensures { result ≡ is_querier self.now.state.role }
    {
        match self.role {
            StoredRole::Querier(_, _) => true,
            StoredRole::NonQuerier(_) => false,
        }
    }

    /// Returns the other router that is querier, or None if this one is.
    pub fn other_querier(&self) -> Option<OtherQuerier<K>>
        ensures { IsOtherOf K.number self.now.state.role result }
    {
        match self.role {
            StoredRole::Querier(_, _) => None,
            StoredRole::NonQuerier(other) => Some(other),
        }
    }

    /// Returns the timing in force: the configured one, except for what was adopted from queries.
    pub fn timing(&self) -> Timing
        ensures { result ≡ self.now.state.timing }
    {
        self.in_force
    }

    /// Returns the next moment: that of the querier's general query, or the end of the other querier's deadline.
    pub fn next_moment(&self) -> Moment
        ensures { result ≡ next_moment self.now.state.role }
    {
        match self.role {
            StoredRole::Querier(due, _) => due,
            StoredRole::NonQuerier(other) => other.deadline,
        }
    }
}

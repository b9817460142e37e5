//! The effect of a tick: what is due for the router, and then for the groups that have a moment at or before it. No
//! other group is touched.

ghost use Rattle.std.specs.Prelude.{◌≡◌, ℕ, ◌+◌, ◌-◌, ◌*◌, ◌^◌, ◌<◌, ◌≤◌, true, false, [], ◌∷◌, if◌then◌else◌, length, max, None, Some, map as list_map};
ghost use Rattle.std.specs.Option.{option_map};
ghost use Rattle.std.specs.FinMap as map;
ghost use Rattle.mq_count.specs.Spending.{Spends};
ghost use Rattle.mq_sets.specs.Search.{bitlen};
ghost use Rattle.mq_table.specs.Filter.{changes_filter};
ghost use Rattle.mq_table.specs.Stored.{size_of};
ghost use Rattle.mq_sched.specs.Schedule.{ScheduledGroup};
ghost use Rattle.mq_sched.specs.Sending.{GeneralQuery, messages_due, after_round};
ghost use Rattle.mq_sched.specs.Sink.{Sends};
ghost use Rattle.mq_held.specs.Groups.{group_at, kept_as, sources_of, sources_in};
ghost use Rattle.mq_held.specs.Held.{HasNumber, IsNumber};
ghost use Rattle.mq_held.specs.Places.{has_due};
ghost use Rattle.mq_wire.specs.Family.{Family};
ghost use Rattle.mq_link.specs.CallCosts.{TickCosts};
ghost use Rattle.mq_link.specs.Family as definitions;
ghost use Rattle.mq_link.specs.Forwarding.{AreThose, changed_by_tick, changes};
ghost use Rattle.mq_link.specs.LeastCost.{least_ticked};
ghost use Rattle.mq_link.specs.Moved.{HasMoved, MovesWithin, most_moved_by_tick};
ghost use Rattle.mq_link.specs.Router.{HasStep, link_of, state_of};
ghost use Rattle.mq_link.specs.Sender.{TakesQuery, begun};
ghost use Rattle.mq_link.specs.Storage.{HasSpace, IsReady, KeepsRooms, KeepsSpace};
ghost use Rattle.mq_link.specs.Workspace.{suffices, with_changed};
ghost use Rattle.mq_link.specs.Tick.{group_expired, groups_expired, queries_due, groups_after_round, tick_of};

use crate::family::Family;
use crate::outlet::QueryOutlet;
use crate::router::Router;
use crate::sender::Sender;
use crate::status::QuerierContext;
use crate::storage::{Lists, Storage};
use crate::workspace::Workspace;
use mq_count::{Meter, Moment};
use mq_sched::{Schedule, Sink};
use mq_table::Group;
use mq_wire::WireKey;
use std::alloc::Allocator;

impl QuerierContext {
    /// Ends the timers of a group that have expired, and sends what is due for it then. Returns whether its filter
    /// changed.
    fn serve<K: WireKey, A: Allocator, S: Sink<K>>(
        &self,
        address: K,
        group: &mut Group<K, A>,
        schedule: &mut Schedule,
        m: &mut Meter,
        sink: &mut S,
    ) -> bool
        requires in_range { self.now.moment ≤ 2 ^ 53 }
        ensures changes { result ≡ changes_filter group.old.state group.new.state }
        ensures sent { let ended = group_expired self.now.moment (record { group = group.old.state; schedule = schedule.old }) in
            Sends S.takes sink.old (messages_due K.PER_QUERY self.now.timing self.now.moment (K.number address) ended) sink.new }
        ensures left { let ended = group_expired self.now.moment (record { group = group.old.state; schedule = schedule.old }) in
            let e : ScheduledGroup = record { group = group.new.state; schedule = schedule.new } in
            e ≡ after_round self.now.timing self.now.moment ended }
        ensures room { group.old.room ≤ group.new.room }
        ensures spent { Spends 0 (3 * size_of group.old.state + 6) m.old m.new }
    {
        let changes = group.expire(self.moment, m);
        schedule.settle(group);
        schedule.round(
            address,
            group,
            self.moment,
            &self.timing,
            K::PER_QUERY,
            m,
            sink,
        );
        changes
    }
}

impl<K: WireKey, A: Allocator> Storage<K, A> {
    /// Serves the group of a number, and puts it back. INCLUDE without sources then stays until it is removed.
    /// Returns the group's address if its filter changed.
    fn tick_group<B: Allocator, S: Sink<K>>(
        &mut self,
        number: u16,
        group: &mut Group<K, B>,
        at: &QuerierContext,
        sink: &mut S,
    ) -> Option<K>
        requires in_range { at.now.moment ≤ 2 ^ 53 }
        requires number { IsNumber self.old.held number }
        requires room { (address : ℕ) → HasNumber self.old.held address number →
            sources_of (group_at self.old.held.groups address) ≤ group.old.room }
        ensures groups { (address : ℕ) → HasNumber self.old.held address number →
            let ended = group_expired at.now.moment (group_at self.old.held.groups address) in
            self.new.held.groups ≡ map.insert self.old.held.groups address (kept_as (after_round at.now.timing at.now.moment ended)) }
        ensures changed { (address : ℕ) → HasNumber self.old.held address number →
            option_map K.number result ≡ (if changes self.old.held.groups self.new.held.groups address then Some address else None) }
        ensures order { self.new.held.order ≡ self.old.held.order }
        ensures sent { (address : ℕ) → HasNumber self.old.held address number →
            let ended = group_expired at.now.moment (group_at self.old.held.groups address) in
            Sends S.takes sink.old (messages_due K.PER_QUERY at.now.timing at.now.moment address ended) sink.new }
        ensures rooms { KeepsRooms self.old self.new }
        ensures room { group.old.room ≤ group.new.room }
        ensures spent { (address : ℕ) → HasNumber self.old.held address number →
            let own = 4 * sources_of (group_at self.old.held.groups address) in
            Spends 0 (own + 10 + bitlen (map.len self.old.held.groups)) self.old.meter self.new.meter }
        ensures moved { (address : ℕ) → HasNumber self.old.held address number →
            let own = sources_of (group_at self.old.held.groups address) in
            MovesWithin (5 * own + 5 + bitlen (map.len self.old.held.groups)) self.old self.new }
    {
        self.held.lemma_is_numbered();
        let address = self.held.address(number);
        let mut schedule = self.held.load(number, group);
        let changes = at.serve(address, group, &mut schedule, &mut self.meter, sink);
        self.lemma_sources_fit();
        self.put(number, group, schedule);
        changes.then_some(address)
    }

    /// Ends the expired timers of the groups, and sends what is due for them, by ascending group. Groups that have no
    /// moment at or before this one are left alone. Lists the addresses of the groups whose filter changed.
    fn tick_groups<B: Allocator, S: Sink<K>>(
        &mut self,
        lists: &mut Lists<K, B>,
        group: &mut Group<K, B>,
        at: &QuerierContext,
        sink: &mut S,
    )
        requires in_range { at.now.moment ≤ 2 ^ 53 }
        requires empty { lists.old.changed.items ≡ [] }
        requires space { HasSpace (map.len self.old.held.groups) lists.old }
        requires ready { IsReady group.old.room self.old }
        ensures groups { self.new.held.groups ≡ groups_after_round at.now.timing at.now.moment (groups_expired at.now.moment self.old.held.groups) }
        ensures sent { (family : Family) → K.PER_QUERY ≡ definitions.per_query family →
            Sends S.takes sink.old (queries_due family at.now.timing at.now.moment (groups_expired at.now.moment self.old.held.groups)) sink.new }
        ensures changed { AreThose (changes self.old.held.groups self.new.held.groups) (list_map K.number lists.new.changed.items) }
        ensures few { length lists.new.changed.items ≤ map.len self.old.held.groups }
        ensures rooms { KeepsRooms self.old self.new }
        ensures room { group.old.room ≤ group.new.room }
        ensures space { KeepsSpace lists.old lists.new }
        ensures spent { let groups = self.old.held.groups in
            let least = least_ticked at.now.moment groups in
            Spends least (4 * sources_in groups + 44 * map.len groups + 1) self.old.meter self.new.meter }
        ensures quiet { let none_is_due =
            (address : ℕ) (e : ScheduledGroup) → map.get self.old.held.groups address ≡ Some e → has_due at.now.moment e ≡ false in
            none_is_due → Spends 0 1 self.old.meter self.new.meter }
        ensures moved { let groups = self.old.held.groups in
            MovesWithin (most_moved_by_tick groups) self.old self.new }
        ensures still { let none_is_due =
            (address : ℕ) (e : ScheduledGroup) → map.get self.old.held.groups address ≡ Some e → has_due at.now.moment e ≡ false in
            none_is_due → self.new.moves ≡ self.old.moves }
    {
        self.held.lemma_is_numbered();
        self.held.due(
            at.moment,
            &mut lists.due,
            &mut lists.spare,
            &mut self.meter,
            &mut self.moves,
        );
        for number in lists.due.as_slice() {
            if let Some(address) = self.tick_group(*number, group, at, sink) {
                lists.changed.push(address).unwrap();
            }
        }
        self.held.take_out_vacant(
            &mut lists.due,
            &mut lists.spare,
            &mut self.meter,
            &mut self.moves,
        );
    }
}

/// Returns the later of two moments.
fn later(a: Moment, b: Moment, m: &mut Meter) -> Moment
    ensures later { result ≡ max a b }
    ensures spent { Spends 1 1 m.old m.new }
{
    if m.reached(a, b) { b } else { a }
}

/// Sends a general query, if it is due.
fn send_general<F: Family, O: QueryOutlet<F::Address>>(is_due: bool, sender: &mut Sender<F, O>)
    ensures { Sends (TakesQuery O.takes F.FAMILY) sender.old (if is_due then GeneralQuery ∷ [] else []) sender.new }
{
    if is_due {
        sender.send_general();
    }
}

impl<F: Family, A: Allocator> Router<F, A> {
    /// Handles what is due at or before `now`; a moment before the last one counts as the last one. In this order it
    /// handles the end of the other querier's deadline, the general query, the end of timers, and what is due for the
    /// groups. The sender begins anew, on the terms that are in force then. The workspace lists the groups that it
    /// changes, and no others.
    pub(crate) fn come_to<B: Allocator, O: QueryOutlet<F::Address>>(
        &mut self,
        work: &mut Workspace<F, B>,
        now: Moment,
        sender: &mut Sender<F, O>,
    )
        requires in_range { now ≤ 2 ^ 53 }
        requires enough { suffices self.old.at.config.room work.old ≡ true }
        ensures step { let step = tick_of self.old.at.config now (state_of self.old) in
            HasStep (TakesQuery O.takes F.FAMILY) step self.old self.new (begun self.old.at.config step.timing sender.old) sender.new }
        ensures workspace { work.new ≡ with_changed work.old work.new.changed }
        ensures changed { AreThose (changed_by_tick self.old.at.config now (state_of self.old)) work.new.changed }
        ensures few { length work.new.changed ≤ map.len self.old.groups }
        ensures costs { TickCosts true now (link_of self.old) (link_of self.new) }
        ensures paid { HasMoved (most_moved_by_tick self.old.groups) self.old self.new }
    {
        self.status.lemma_is_sound();
        let now = later(self.status.moment(), now, &mut self.storage.meter);
        work.lists.changed.clear();
        let is_due = self.status.tick(now, &mut self.storage.meter);
        self.status.lemma_is_sound();
        let at = self.status.in_force();
        sender.begin(self.status.config(), at.timing);
        send_general(is_due, sender);
        self.storage
            .tick_groups(&mut work.lists, &mut work.scratch.group, &at, sender);
    }
}

//! The effect of a received query on the election and on the groups.

ghost use Rattle.std.specs.Prelude.{◌≡◌, ℕ, ◌+◌, ◌-◌, ◌*◌, ◌^◌, ◌<◌, ◌≤◌, ◌==◌, true, IfSome, length, vec_capacity};
ghost use Rattle.std.specs.FinMap as map;
ghost use Rattle.std.specs.List.{list_any};
ghost use Rattle.mq_count.specs.Spending.{Spends};
ghost use Rattle.mq_sets.specs.Search.{bitlen};
ghost use Rattle.mq_table.specs.Lowering.{lowered_by_query, sources_lowered};
ghost use Rattle.mq_table.specs.Stored.{size_of};
ghost use Rattle.mq_sched.specs.Announcement.{IsCarried};
ghost use Rattle.mq_sched.specs.Schedule.{cleared};
ghost use Rattle.mq_held.specs.Groups.{group_at, sources_of, sources_in};
ghost use Rattle.mq_held.specs.Held.{HasNumber, IsNumber};
ghost use Rattle.mq_wire.specs.Canon.{source_count};
ghost use Rattle.mq_wire.specs.Numbered.{numbered_query, numbered_version};
ghost use Rattle.mq_link.specs.Heard.{announced_by, asked_by, election_after, groups_cleared, groups_heard, groups_lowered, query_heard, suppresses};
ghost use Rattle.mq_link.specs.Moved.{HasMoved, MovesWithin};
ghost use Rattle.mq_link.specs.Router.{Leaves, state_of};
ghost use Rattle.mq_link.specs.Serving.{IsServed};
ghost use Rattle.mq_link.specs.Storage.{IsReady, KeepsRooms};
ghost use Rattle.mq_link.specs.Workspace.{suffices};

use crate::family::Family;
use crate::router::Router;
use crate::status::{QuerierContext, Status};
use crate::storage::Storage;
use crate::workspace::Workspace;
use mq_count::{Meter, Moment};
use mq_sched::Announced;
use mq_table::{Group, Timing};
use mq_wire::{Query, QueryVersion, Sources, WireKey};
use std::alloc::Allocator;

/// Lowers the timers of the sources that a query asks for, one after the other, however often it names one.
fn lower_sources<K: WireKey, A: Allocator>(
    group: &mut Group<K, A>,
    sources: &Sources<'_, K>,
    now: Moment,
    timing: &Timing,
    m: &mut Meter,
)
    requires in_range { now ≤ 2 ^ 53 }
    ensures state { group.new.state ≡ sources_lowered timing.now now (λ s. list_any (λ n. n == s) sources.now) group.old.state }
    ensures room { group.new.room ≡ group.old.room }
    ensures spent { Spends 0 (length sources.now * (bitlen (size_of group.old.state) + 1)) m.old m.new }
{
    for source in sources.iter() {
        group.lower_source(source, now, timing, m);
    }
}

/// Lowers the timers that a query asks for in its group. With the S flag set it lowers none. Otherwise it lowers the
/// group timer, or the timers of its sources (RFC 3376 section 6.6.1, RFC 3810 section 7.6.1).
fn lower<K: WireKey, A: Allocator>(
    group: &mut Group<K, A>,
    version: &QueryVersion<'_, K>,
    now: Moment,
    timing: &Timing,
    m: &mut Meter,
)
    requires in_range { now ≤ 2 ^ 53 }
    ensures state { group.new.state ≡ lowered_by_query timing.now now (suppresses (numbered_version version.now)) (asked_by (numbered_version version.now)) group.old.state }
    ensures room { group.new.room ≡ group.old.room }
    ensures spent { Spends 0 (source_count version.now * (bitlen (size_of group.old.state) + 1) + 1) m.old m.new }
{
    match version {
        QueryVersion::Older(_) => group.lower_group(now, timing, m),
        QueryVersion::Current(fields) => {
            if fields.suppress {
                return;
            }
            if fields.sources.is_empty() {
                group.lower_group(now, timing, m);
            } else {
                lower_sources(group, &fields.sources, now, timing, m);
            }
        }
    }
}

impl<K: WireKey, A: Allocator> Storage<K, A> {
    /// Drops what is to go for the group of a number, if anything is.
    fn clear_group<B: Allocator>(&mut self, number: u16, group: &mut Group<K, B>)
        requires number { IsNumber self.old.held number }
        requires served { (address : ℕ) → HasNumber self.old.held address number →
            IsServed group.old.room (group_at self.old.held.groups address) }
        ensures groups { (address : ℕ) → HasNumber self.old.held address number →
            self.new.held.groups ≡ map.insert self.old.held.groups address (cleared (group_at self.old.held.groups address)) }
        ensures order { self.new.held.order ≡ self.old.held.order }
        ensures rooms { KeepsRooms self.old self.new }
        ensures room { group.old.room ≤ group.new.room }
        ensures spent { (address : ℕ) → HasNumber self.old.held address number →
            let own = sources_of (group_at self.old.held.groups address) in
            Spends 0 (own + 4 + bitlen (map.len self.old.held.groups)) self.old.meter self.new.meter }
        ensures moved { (address : ℕ) → HasNumber self.old.held address number →
            let own = sources_of (group_at self.old.held.groups address) in
            MovesWithin (5 * own + 5 + bitlen (map.len self.old.held.groups)) self.old self.new }
    {
        self.held.lemma_is_numbered();
        let mut schedule = self.held.load(number, group);
        if schedule.group_query().is_some() || schedule.sources_due().is_some() {
            schedule.clear(group);
            self.lemma_sources_fit();
            self.put(number, group, schedule);
        }
    }

    /// Drops what is to go for each group, after the router has lost its role. Groups for which nothing is to go are
    /// left alone. RFC 3376 section 6.6.2, RFC 3810 section 7.6.2.
    fn clear_groups<B: Allocator>(&mut self, numbers: &mut Vec<u16, B>, group: &mut Group<K, B>)
        requires space { map.len self.old.held.groups ≤ vec_capacity numbers.old }
        requires ready { IsReady group.old.room self.old }
        ensures groups { self.new.held.groups ≡ groups_cleared self.old.held.groups }
        ensures rooms { KeepsRooms self.old self.new }
        ensures room { group.old.room ≤ group.new.room }
        ensures capacity { vec_capacity numbers.old ≤ vec_capacity numbers.new }
        ensures spent { let groups = self.old.held.groups in
            Spends 0 (sources_in groups + 20 * map.len groups) self.old.meter self.new.meter }
        ensures moved { let groups = self.old.held.groups in
            MovesWithin (5 * sources_in groups + 22 * map.len groups) self.old self.new }
    {
        self.held.lemma_is_numbered();
        self.held.all(numbers, &mut self.moves);
        for number in numbers.as_slice() {
            self.clear_group(*number, group);
        }
    }

    /// Lowers the timers that a query asks for in its group, if that is held.
    fn lower_held<B: Allocator>(
        &mut self,
        query: &Query<'_, K>,
        group: &mut Group<K, B>,
        at: &QuerierContext,
    )
        requires in_range { at.now.moment ≤ 2 ^ 53 }
        requires ready { IsReady group.old.room self.old }
        requires small { (address : ℕ) → sources_of (group_at self.old.held.groups address) ≤ 1024 }
        ensures groups { let asked = numbered_query K.number query.now in
            self.new.held.groups ≡ groups_lowered at.now.timing at.now.moment asked self.old.held.groups }
        ensures rooms { KeepsRooms self.old self.new }
        ensures room { group.old.room ≤ group.new.room }
        ensures spent { let own = sources_of (group_at self.old.held.groups (K.number query.now.group)) in
            Spends 0 (own + 12 * source_count query.now.version + 39) self.old.meter self.new.meter }
        ensures moved { let own = sources_of (group_at self.old.held.groups (K.number query.now.group)) in
            MovesWithin (5 * own + 21) self.old self.new }
    {
        self.held.lemma_is_numbered();
        if let Ok(number) = self.held.find(query.group, &mut self.meter) {
            let schedule = self.held.load(number, group);
            lower(
                group,
                &query.version,
                at.moment,
                &at.timing,
                &mut self.meter,
            );
            self.lemma_sources_fit();
            self.put(number, group, schedule);
        }
    }
}

/// Returns the announcement of the querier in a query; a query of an older version has none.
fn announcement<K: WireKey>(version: &QueryVersion<'_, K>) -> Option<Announced>
    requires carried { IfSome (announced_by (numbered_version version.now)) IsCarried }
    ensures { result ≡ announced_by (numbered_version version.now) }
{
    match version {
        QueryVersion::Older(_) => None,
        QueryVersion::Current(fields) => {
            Announced::new(u32::from(fields.robustness.get()), fields.interval)
        }
    }
}

impl<F: Family> Status<F> {
    /// Handles a query from another router. First the election handles it. A router that loses the role by it drops
    /// what is to go for each group. Then the timers that the query asks for are lowered, by the timing that is in
    /// force then. RFC 3376 sections 6.6.1 and 6.6.2, RFC 3810 sections 7.6.1 and 7.6.2.
    fn hear_query<A: Allocator, B: Allocator>(
        &mut self,
        storage: &mut Storage<F::Address, A>,
        numbers: &mut Vec<u16, B>,
        group: &mut Group<F::Address, B>,
        source: F::Address,
        query: &Query<'_, F::Address>,
    )
        requires carried { IfSome (announced_by (numbered_version query.now.version)) IsCarried }
        requires space { map.len storage.old.held.groups ≤ vec_capacity numbers.old }
        requires ready { IsReady group.old.room storage.old }
        requires small { (address : ℕ) → sources_of (group_at storage.old.held.groups address) ≤ 1024 }
        ensures election { let version = numbered_version query.now.version in
            self.new ≡ record self.old { election = election_after self.old.config self.old.now (F.Address.number source) version self.old.election } }
        ensures groups { let asked = numbered_query F.Address.number query.now in
            storage.new.held.groups ≡ groups_heard self.old.config self.old.now (F.Address.number source) asked self.old.election storage.old.held.groups }
        ensures rooms { KeepsRooms storage.old storage.new }
        ensures room { group.old.room ≤ group.new.room }
        ensures capacity { vec_capacity numbers.old ≤ vec_capacity numbers.new }
        ensures spent { let groups = storage.old.held.groups in
            let most = 2 * sources_in groups + 20 * map.len groups + 12 * source_count query.now.version + 40 in
            Spends 1 most storage.old.meter storage.new.meter }
        ensures moved { let groups = storage.old.held.groups in
            MovesWithin (10 * sources_in groups + 22 * map.len groups + 21) storage.old storage.new }
    {
        let announced = announcement(&query.version);
        if self.hear(source, announced, &mut storage.meter) {
            storage.clear_groups(numbers, group);
        }
        let at = self.in_force();
        storage.lower_held(query, group, &at);
    }
}

impl<F: Family, A: Allocator> Router<F, A> {
    /// Handles a query from another router.
    pub(crate) fn hear<B: Allocator>(
        &mut self,
        work: &mut Workspace<F, B>,
        source: F::Address,
        query: &Query<'_, F::Address>,
    )
        requires enough { suffices self.old.at.config.room work.old ≡ true }
        requires carried { IfSome (announced_by (numbered_version query.now.version)) IsCarried }
        ensures leaves { let asked = numbered_query F.Address.number query.now in
            Leaves (query_heard self.old.at.config self.old.at.now (F.Address.number source) asked (state_of self.old)) self.old self.new }
        ensures workspace { work.new ≡ work.old }
        ensures spent { let groups = self.old.groups in
            let most = 2 * sources_in groups + 20 * map.len groups + 12 * source_count query.now.version + 40 in
            Spends 1 most self.old.spent self.new.spent }
        ensures moved { let groups = self.old.groups in
            HasMoved (10 * sources_in groups + 22 * map.len groups + 21) self.old self.new }
    {
        self.status.lemma_is_sound();
        self.status.hear_query(
            &mut self.storage,
            &mut work.lists.due,
            &mut work.scratch.group,
            source,
            query,
        );
    }
}

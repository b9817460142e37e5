//! The effect of a statement for a group: it is ignored, refused, or applied.

ghost use Rattle.std.specs.Prelude.{◌≡◌, ℕ, ◌+◌, ◌*◌, ◌^◌, ◌<◌, ◌≤◌, if◌then◌else◌, [], false, true, length, map as list_map};
ghost use Rattle.std.specs.Prelude.{IfSome, IsSome, None, OnSome, Some};
ghost use Rattle.std.specs.FinMap as map;
ghost use Rattle.std.specs.List.{list_any};
ghost use Rattle.std.specs.Option.{option_map, option_map_or};
ghost use Rattle.mq_count.specs.Spending.{Spends};
ghost use Rattle.mq_sets.specs.Ascending.{IsAscending, set_of};
ghost use Rattle.mq_sets.specs.Search.{bitlen};
ghost use Rattle.mq_table.specs.Filter.{changes_filter};
ghost use Rattle.mq_table.specs.Group.{is_include, timer_at};
ghost use Rattle.mq_table.specs.MergedRecord.{item_is_stopped};
ghost use Rattle.mq_table.specs.OlderHosts.{hosts_of, translated, with_sources};
ghost use Rattle.mq_table.specs.Stored.{named_in, number_in, size_of, state_of};
ghost use Rattle.mq_table.specs.Table.{GroupChange, NamedSources};
ghost use Rattle.mq_sched.specs.Schedule.{ScheduledGroup};
ghost use Rattle.mq_sched.specs.Sending.{after_change};
ghost use Rattle.mq_held.specs.Groups.{group_at, one_if, sources_of};
ghost use Rattle.mq_held.specs.Restarted.{most_set};
ghost use Rattle.mq_link.specs.Applying.{CanApply, HasEffect};
ghost use Rattle.mq_link.specs.Changing.{statement_of, acts_as, change_written, effect_of};
ghost use Rattle.mq_link.specs.Family.{is_admitted};
ghost use Rattle.mq_link.specs.LeastCost.{least_merge, least_work};
ghost use Rattle.mq_link.specs.Record as record_spec;
ghost use Rattle.mq_link.specs.Record.{change_stated};
ghost use Rattle.mq_link.specs.Refreshed.{IsHeardAgain, is_restart, most_changed, most_copied, most_hosts, most_started, restarts};
ghost use Rattle.mq_link.specs.Seen.{counted_again};
ghost use Rattle.mq_link.specs.Storage.{HasRoomFor, group_stored, KeepsRoom};

use crate::answers::Refusal;
use crate::family::Family;
use crate::limits::Change;
use crate::record_counts::RecordCounts;
use crate::status::{QuerierContext, Status};
use crate::storage::{GroupLookup, Scratch, Storage, look};
use mq_count::{Key, Meter, Moment};
use mq_held::HeldGroup;
use mq_sched::{Schedule, Sink};
use mq_table::{Head, Hosts, Kind, Loaded, NamedEffect, OlderVersion, translate};
use mq_wire::WireKey;
use std::alloc::Allocator;

/// The statement of one message on one group, whose sources are named apart from it.
#[derive(Clone, Copy)]
pub(crate) enum StatementKind {
    /// A record of a Report of IGMPv3 or MLDv2, of a kind that is listed.
    Record(Kind),
    /// A Report of an older version.
    OlderJoin(OlderVersion),
    /// A Leave or Done of an older version.
    OlderLeave,
}

impl StatementKind {
    /// Returns the effect of a record on the sources that it names, if it leaves the other sources of its group alone.
    /// Returns None for any other statement.
    pub(crate) fn named_effect(self) -> Option<NamedEffect>
        ensures { result ≡ effect_of self }
    {
        match self {
            StatementKind::Record(kind) => kind.named_effect(),
            StatementKind::OlderJoin(_) | StatementKind::OlderLeave => None,
        }
    }
}

/// The verdict on a statement.
#[derive(Clone, Copy)]
pub(crate) enum Verdict {
    Applied,
    Ignored,
    /// Ignored, since hosts may not ask for the group.
    Denied,
    Refused(Refusal),
}

/// The muting rules of a group, whatever its hosts.
#[derive(Clone, Copy)]
pub(crate) struct MutingRules {
    /// True if hosts of version 1 mute Leave and TO_IN, as in IGMP (RFC 3376 section 7.3.2).
    pub(crate) v1_mutes_leave: bool,
    /// True if the group is in the range kept for source-specific multicast, and the statement doesn't count there. RFC
    /// 4604 sections 3.1, 3.5 and 3.7.
    pub(crate) is_muted: bool,
}

/// Returns the record as which a Leave or Done acts: TO_IN of no source.
fn leave_as(hosts: Hosts, muting: MutingRules) -> Option<(Kind, bool)>
    ensures { (named : NamedSources) →
        acts_as muting.v1_mutes_leave muting.is_muted hosts (statement_of StatementKind.OlderLeave named) ≡ with_sources named result }
{
    match translate(Kind::ToIn, hosts, muting.v1_mutes_leave, muting.is_muted) {
        Some((kind, _)) => Some((kind, true)),
        None => None,
    }
}

/// Returns a record with the sources that it names, unless it is muted.
fn unless_muted(kind: Kind, is_muted: bool) -> Option<(Kind, bool)>
    ensures { result ≡ (if is_muted then None else Some (kind, false)) }
{
    if is_muted { None } else { Some((kind, false)) }
}

/// Returns whether a record of this kind only sets timers anew.
fn restarts(kind: Kind) -> bool
    ensures { result ≡ restarts kind }
{
    matches!(kind.named_effect(), Some(NamedEffect::Restart))
}

/// Returns the record as which a record acts in its group. No older host mutes a record that only sets timers anew, so
/// it takes no comparison.
fn record_as(
    head: &Head,
    kind: Kind,
    muting: MutingRules,
    now: Moment,
    m: &mut Meter,
) -> Option<(Kind, bool)>
    ensures acts { (named : NamedSources) →
        translated muting.v1_mutes_leave muting.is_muted (hosts_of (state_of head.now map.empty) now) kind named ≡ with_sources named result }
    ensures restarts { restarts kind ≡ true → IfSome result (λ acts. acts ≡ (kind, false)) }
    ensures spent { Spends 0 (if restarts kind then 0 else 2) m.old m.new }
{
    if restarts(kind) {
        return unless_muted(kind, muting.is_muted);
    }
    let hosts = head.compat(now, m);
    translate(kind, hosts, muting.v1_mutes_leave, muting.is_muted)
}

/// Returns the record as which a statement acts in its group, and whether without its named sources. Returns None if
/// the statement is ignored.
fn acted_as(
    head: &Head,
    said: StatementKind,
    muting: MutingRules,
    now: Moment,
    m: &mut Meter,
) -> Option<(Kind, bool)>
    ensures acts { (named : NamedSources) →
        acts_as muting.v1_mutes_leave muting.is_muted (hosts_of (state_of head.now map.empty) now) (statement_of said named)
        ≡ with_sources named result }
    ensures restarts { (kind : Kind) → said ≡ StatementKind.Record kind → restarts kind ≡ true → IfSome result (λ acts. acts ≡ (kind, false)) }
    ensures spent { Spends 0 (most_hosts said) m.old m.new }
{
    match said {
        StatementKind::Record(kind) => record_as(head, kind, muting, now, m),
        StatementKind::OlderJoin(_) => {
            if muting.is_muted {
                None
            } else {
                Some((Kind::IsEx, true))
            }
        }
        StatementKind::OlderLeave => leave_as(head.compat(now, m), muting),
    }
}

impl<K: Key, A: Allocator> Scratch<K, A> {
    /// Writes the change of a group by a statement into this memory; the group is read where it is stored. The change
    /// is the new group and the sources to ask for, which ascend and which the new group has. There is room for the
    /// sources of the group and of the statement together. Returns whether the group is to be asked for, and whether
    /// its filter changes. Returns None if the statement is ignored. The named set loses its sources if they don't
    /// count.
    fn change(
        &mut self,
        stored: &HeldGroup<'_, K>,
        said: StatementKind,
        muting: MutingRules,
        at: &QuerierContext,
        m: &mut Meter,
    ) -> Option<Loaded>
        requires in_range { at.now.moment ≤ 2 ^ 53 }
        requires ascending { IsAscending (number_in K.number) stored.now.sources.now }
        requires room { HasRoomFor (length stored.now.sources.now + length self.old.named.members) self.old }
        requires running { is_include stored.now.mode ≡ true → list_any item_is_stopped stored.now.sources.now ≡ false }

        ensures changes { let before = group_stored K.number stored.now in
            change_stated muting.v1_mutes_leave muting.is_muted at.now.timing at.now.moment
            (statement_of said (named_in K.number self.old.named.members)) before
            ≡ change_written K.number self.new.group.state self.new.asked.items (option_map (λ loaded. loaded.asks_group) result) }
        ensures changes_filter { IfSome result (λ loaded. loaded.changes_filter ≡ changes_filter (group_stored K.number stored.now) self.new.group.state) }
        ensures ascending { OnSome result (IsAscending K.number self.new.asked.items) }
        ensures held { OnSome result ((s : ℕ) → set_of K.number self.new.asked.items s ≡ true → IsSome (timer_at self.new.group.state s)) }
        ensures named { length self.new.named.members ≤ length self.old.named.members }
        ensures kept { KeepsRoom self.old self.new }
        ensures met { self.new.met ≡ self.old.met }
        ensures changed { self.new.changed ≡ self.old.changed }

        // At most two comparisons, and one for each source of the group and of the statement. If it is a record of
        // IS_IN, ALLOW or BLOCK that names one source, the sources take one for each binary digit of the group's number
        // of sources. At least one for each source of the shorter list: the sources of the group or those that count.
        ensures spent { let before = group_stored K.number stored.now in
            let acts = acts_as muting.v1_mutes_leave muting.is_muted (hosts_of before at.now.moment)
            (statement_of said (named_in K.number self.old.named.members)) in
            Spends (least_merge (size_of before) acts) (most_changed said (size_of before) (length self.old.named.members)) m.old m.new }
        // A record of IS_IN or ALLOW asks for nothing.
        ensures asks { IfSome result (λ loaded. is_restart said ≡ true → (loaded.asks_group ≡ false) × (self.new.asked.items ≡ [])) }
    {
        let head = Head {
            mode: stored.mode,
            v1: stored.v1,
            v2: stored.v2,
        };
        let (kind, is_emptied) = acted_as(&head, said, muting, at.moment, m)?;
        if is_emptied {
            self.named.clear();
        }
        let loaded = self.group.load_changed(
            &head,
            stored.sources,
            kind,
            &self.named,
            at.moment,
            &at.timing,
            &mut self.asked,
            m,
        );
        if let StatementKind::OlderJoin(version) = said {
            self.group.older(version, at.moment, &at.timing);
        }
        Some(loaded)
    }

    /// Applies the queries of a change to the changed group and its schedule. Queries that have lost their cause are
    /// dropped. The querier starts the queries for the group and for the sources to ask for, which the group has.
    fn ask(&mut self, schedule: &mut Schedule, asks_group: bool, at: &QuerierContext, m: &mut Meter)
        requires in_range { at.now.moment ≤ 2 ^ 53 }
        requires ascending { IsAscending K.number self.old.asked.items }
        requires held { (s : ℕ) → set_of K.number self.old.asked.items s ≡ true → IsSome (timer_at self.old.group.state s) }
        ensures asked { let change : GroupChange =
            record { group = self.old.group.state; query = set_of K.number self.old.asked.items; query_group = asks_group } in
            let e : ScheduledGroup = record { group = self.new.group.state; schedule = schedule.new } in
            e ≡ after_change at.now.is_querier at.now.timing at.now.moment change schedule.old }
        ensures named { self.new.named ≡ self.old.named }
        ensures kept { KeepsRoom self.old self.new }
        ensures met { self.new.met ≡ self.old.met }
        ensures changed { self.new.changed ≡ self.old.changed }
        ensures spent { Spends 0 (most_started (length self.old.asked.items) (size_of self.old.group.state) + one_if asks_group) m.old m.new }
    {
        schedule.settle(&self.group);
        if !at.is_querier {
            return;
        }
        if asks_group {
            schedule.start_group(&mut self.group, at.moment, &at.timing, m);
        }
        if !self.asked.is_empty() {
            schedule.start_sources(
                &mut self.group,
                self.asked.as_slice(),
                at.moment,
                &at.timing,
                m,
            );
        }
    }
}

/// Counts that a record has changed the group of a number, if it has one and its filter changed.
fn count_changed<A: Allocator>(changed: &mut RecordCounts<A>, number: Option<u16>, changes: bool)
    requires number { IfSome number (λ number. number < length changed.old) }
    ensures { changed.new ≡ (if changes then option_map_or (counted_again changed.old) number changed.old else changed.old) }
{
    if let (Some(number), true) = (number, changes) {
        changed.meets_again(number);
    }
}

impl<F: Family> Status<F> {
    /// Returns whether a statement doesn't count for its group. These are statements of mode EXCLUDE or of an older
    /// version in the source-specific range, if that is kept (RFC 4604 sections 3.1, 3.5 and 3.7).
    fn is_muted(&self, group: F::Address, said: StatementKind) -> bool
        ensures { (named : NamedSources) → result ≡ record_spec.is_muted self.now.config (F.Address.number group) (statement_of said named) }
    {
        self.lemma_is_sound();
        let is_kept = self.config().source_specific() && F::in_source_specific_range(group);
        match said {
            StatementKind::Record(kind) => is_kept && matches!(kind, Kind::IsEx | Kind::ToEx),
            StatementKind::OlderJoin(_) | StatementKind::OlderLeave => is_kept,
        }
    }

    /// Applies a statement to an admitted group that was searched for. It is ignored if older hosts or the
    /// source-specific range mute it. It is refused if it would exceed a limit, and then nothing is changed or sent.
    /// Otherwise it is applied, and what it asks for is sent at once. The sources that it names stand in `work`, which
    /// counts the group if its filter changed.
    pub(crate) fn apply<A: Allocator, B: Allocator, S: Sink<F::Address>>(
        &self,
        storage: &mut Storage<F::Address, A>,
        work: &mut Scratch<F::Address, B>,
        lookup: GroupLookup<F::Address>,
        said: StatementKind,
        sink: &mut S,
    ) -> Verdict
        requires admitted { is_admitted self.now.config.family (F.Address.number lookup.address) ≡ true }
        requires ready { CanApply F.Address.number self.now storage.old work.old lookup }
        ensures effect { HasEffect F.Address.number S.takes self.now lookup said result storage.old storage.new work.old work.new sink.old sink.new }
        ensures spent { let said_so = statement_of said (named_in F.Address.number work.old.named.members) in
            let sizes = sources_of (group_at storage.old.held.groups (F.Address.number lookup.address)) + length work.old.named.members in
            let least = least_work self.now (F.Address.number lookup.address) said_so storage.old.held.groups in
            Spends least (6 * sizes + 17 + bitlen (map.len storage.old.held.groups)) storage.old.meter storage.new.meter }
        // A record that only sets timers anew is applied where the group is stored: no source but the named ones is
        // moved.
        ensures in_place { let size = sources_of (group_at storage.old.held.groups (F.Address.number lookup.address)) in
            let count = length work.old.named.members in
            let digits = bitlen (map.len storage.old.held.groups) in
            IsHeardAgain self.now.now said (list_map F.Address.number work.old.named.members) storage.old.held.groups (F.Address.number lookup.address) →
            Spends 0 (2 + most_set size count digits) storage.old.meter storage.new.meter × Spends 0 (count + 2 + digits) storage.old.moves storage.new.moves }
    {
        self.lemma_is_sound();
        storage.held.lemma_is_numbered();
        match self.apply_in_place(storage, work.named.as_slice(), lookup, said, sink) {
            Some(changes) => {
                storage.held.lemma_is_numbered();
                count_changed(&mut work.changed, lookup.found.ok(), changes);
                Verdict::Applied
            }
            None => self.apply_to_copy(storage, work, lookup, said, sink),
        }
    }

    /// Applies a statement to a copy of the group's row. The copy is changed, looked over for the earliest of its
    /// moments, and put back.
    fn apply_to_copy<A: Allocator, B: Allocator, S: Sink<F::Address>>(
        &self,
        storage: &mut Storage<F::Address, A>,
        work: &mut Scratch<F::Address, B>,
        lookup: GroupLookup<F::Address>,
        said: StatementKind,
        sink: &mut S,
    ) -> Verdict
        requires admitted { is_admitted self.now.config.family (F.Address.number lookup.address) ≡ true }
        requires ready { CanApply F.Address.number self.now storage.old work.old lookup }
        ensures effect { HasEffect F.Address.number S.takes self.now lookup said result storage.old storage.new work.old work.new sink.old sink.new }
        ensures spent { let said_so = statement_of said (named_in F.Address.number work.old.named.members) in
            let size = sources_of (group_at storage.old.held.groups (F.Address.number lookup.address)) in
            let least = least_work self.now (F.Address.number lookup.address) said_so storage.old.held.groups in
            let most = most_copied said size (length work.old.named.members) (map.len storage.old.held.groups) in
            Spends least most storage.old.meter storage.new.meter }
    {
        self.lemma_is_sound();
        storage.held.lemma_is_numbered();
        let at = self.in_force();
        let limits = self.config().limits();
        let muting = MutingRules {
            v1_mutes_leave: F::V1_MUTES_LEAVE,
            is_muted: self.is_muted(lookup.address, said),
        };
        let stored = look(&storage.held, lookup);
        let Some(loaded) = work.change(&stored, said, muting, &at, &mut storage.meter) else {
            return Verdict::Ignored;
        };
        let mut schedule = stored.schedule;
        work.ask(&mut schedule, loaded.asks_group, &at, &mut storage.meter);
        let change = Change {
            is_held: lookup.found.is_ok(),
            sources: stored.sources.len(),
            before: stored.schedule,
            schedule,
        };
        if let Some(name) = storage.refusal(&work.group, &change, &limits, at.moment) {
            return Verdict::Refused(name);
        }
        schedule.round(
            lookup.address,
            &mut work.group,
            at.moment,
            &at.timing,
            F::Address::PER_QUERY,
            &mut storage.meter,
            sink,
        );
        let kept = storage.keep(lookup, &work.group, schedule);
        storage.held.lemma_is_numbered();
        count_changed(&mut work.changed, kept, loaded.changes_filter);
        Verdict::Applied
    }
}

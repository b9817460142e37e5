//! A BLOCK that is applied where its group's row is stored, without a copy. It names at most one source. In EXCLUDE the
//! group has that source, and no limit can be exceeded.

ghost use Rattle.std.specs.Prelude.{◌≡◌, ℕ, ◌+◌, ◌*◌, ◌≤◌, [], ◌∷◌, ◌||◌, false, true, is_ok, is_some, length, min, if◌then◌else◌, IfSome, OnSome};
ghost use Rattle.std.specs.FinMap as map;
ghost use Rattle.std.specs.FinMap.{FinMap};
ghost use Rattle.std.specs.Ordering.{nat_cmp};
ghost use Rattle.mq_count.specs.Spending.{Spends};
ghost use Rattle.mq_sets.specs.Ascending.{set_of};
ghost use Rattle.mq_sets.specs.Search.{bitlen};
ghost use Rattle.mq_table.specs.declared.timers.SourceTimer.{SourceTimer};
ghost use Rattle.mq_table.specs.Group.{is_include, timer_at};
ghost use Rattle.mq_table.specs.OlderHosts.{hosts_of};
ghost use Rattle.mq_table.specs.Stored.{named_in, state_of};
ghost use Rattle.mq_sched.specs.Election.{is_querier};
ghost use Rattle.mq_sched.specs.Rounds.{IsQuietAt};
ghost use Rattle.mq_sched.specs.Schedule.{ScheduledGroup};
ghost use Rattle.mq_sched.specs.Sending.{acted, after_round, messages_due};
ghost use Rattle.mq_sched.specs.Sink.{Sends};
ghost use Rattle.mq_held.specs.Groups.{group_at, sources_of, with_group};
ghost use Rattle.mq_held.specs.Held.{HasNumber, IsNumber};
ghost use Rattle.mq_link.specs.Blocked as blocked;
ghost use Rattle.mq_link.specs.Blocked.{CanBlock};
ghost use Rattle.mq_link.specs.Changing.{statement_of};
ghost use Rattle.mq_link.specs.Counters as counters;
ghost use Rattle.mq_link.specs.Family.{per_query};
ghost use Rattle.mq_link.specs.Forwarding.{changes};
ghost use Rattle.mq_link.specs.Moved.{MovesWithin, moved_by_edit};
ghost use Rattle.mq_link.specs.Record.{stated};
ghost use Rattle.mq_link.specs.Refreshed.{most_blocked};
ghost use Rattle.mq_link.specs.Router.{HasOutcome};
ghost use Rattle.mq_link.specs.Sound.{AreSound};
ghost use Rattle.mq_link.specs.Storage.{IsLookup, has_counted};

use crate::family::Family;
use crate::statement::StatementKind;
use crate::status::Status;
use crate::storage::{GroupLookup, Storage};
use mq_count::{Key, Meter, Moment};
use mq_sched::Sink;
use mq_table::{Head, timer_among};
use mq_wire::WireKey;
use std::alloc::Allocator;

/// Returns whether hosts of an older version are in a group.
fn has_older_hosts(head: &Head, now: Moment, m: &mut Meter) -> bool
    ensures hosts { (timers : FinMap nat_cmp SourceTimer) → let hosts = hosts_of (state_of head.now timers) now in result ≡ (hosts.v1 || hosts.v2) }
    ensures spent { Spends 0 2 m.old m.new }
{
    let hosts = head.compat(now, m);
    hosts.v1 || hosts.v2
}

impl<F: Family> Status<F> {
    /// Returns the number of the group of a BLOCK that can be applied where the group's row is stored. Returns None if a
    /// condition of `CanBlock` fails.
    fn number_blocked<A: Allocator>(
        &self,
        storage: &mut Storage<F::Address, A>,
        named: &[F::Address],
        lookup: GroupLookup<F::Address>,
    ) -> Option<u16>
        requires lookup { IsLookup F.Address.number storage.old.held lookup }
        ensures found { IfSome result (HasNumber storage.old.held (F.Address.number lookup.address)) }
        ensures held { OnSome result (is_ok lookup.found ≡ true) }
        ensures can { OnSome result (CanBlock self.now (F.Address.number lookup.address) (length named.now) storage.old.held.groups) }
        ensures done { is_ok lookup.found ≡ true → CanBlock self.now (F.Address.number lookup.address) (length named.now) storage.old.held.groups → is_some result ≡ true }
        ensures left { storage.new ≡ has_counted storage.old storage.new.meter }
        ensures spent { Spends 0 4 storage.old.meter storage.new.meter }
    {
        if named.len() > 1 {
            return None;
        }
        let Ok(number) = lookup.found else {
            return None;
        };
        storage.held.lemma_is_numbered();
        let at = self.in_force();
        let stored = storage.held.entry_of(number);
        let schedule = stored.schedule;
        let head = Head {
            mode: stored.mode,
            v1: stored.v1,
            v2: stored.v2,
        };
        if schedule.is_due(at.moment, &mut storage.meter)
            || has_older_hosts(&head, at.moment, &mut storage.meter)
        {
            return None;
        }
        let limits = self.config().limits();
        if schedule.sources_due().is_some()
            || storage.held.schedules() < limits.scheduled as usize
        {
            Some(number)
        } else {
            None
        }
    }

    /// Asks for a source of the group of a number, if the router is querier. Returns whether the group has the source.
    fn ask<A: Allocator, S: Sink<F::Address>>(
        &self,
        storage: &mut Storage<F::Address, A>,
        number: u16,
        source: F::Address,
        sink: &mut S,
    ) -> bool
        requires number { IsNumber storage.old.held number }
        requires quiet { (address : ℕ) → HasNumber storage.old.held address number → IsQuietAt self.now.now (group_at storage.old.held.groups address).schedule }
        ensures there { (address : ℕ) → HasNumber storage.old.held address number →
            result ≡ is_some (timer_at (group_at storage.old.held.groups address).group (F.Address.number source)) }
        ensures groups { (address : ℕ) → HasNumber storage.old.held address number →
            let timing = self.now.election.timing in
            let asked = acted (is_querier self.now.election.role) timing self.now.now false (set_of (λ s. s) (F.Address.number source ∷ [])) (group_at storage.old.held.groups address) in
            storage.new.held ≡ record storage.old.held { groups = map.insert storage.old.held.groups address (after_round timing self.now.now asked) } }
        ensures sent { (address : ℕ) → HasNumber storage.old.held address number →
            let timing = self.now.election.timing in
            let asked = acted (is_querier self.now.election.role) timing self.now.now false (set_of (λ s. s) (F.Address.number source ∷ [])) (group_at storage.old.held.groups address) in
            Sends S.takes sink.old (messages_due (per_query self.now.config.family) timing self.now.now address asked) sink.new }
        ensures absent { result ≡ false → storage.new ≡ has_counted storage.old storage.new.meter }
        ensures unsent { result ≡ false → sink.new ≡ sink.old }
        ensures spent { (address : ℕ) → HasNumber storage.old.held address number →
            let size = sources_of (group_at storage.old.held.groups address) in
            Spends (min 1 size) (bitlen size + (if result then 3 * size + 5 + bitlen (map.len storage.old.held.groups) else 0)) storage.old.meter storage.new.meter }
        ensures moved { (address : ℕ) → HasNumber storage.old.held address number →
            let size = sources_of (group_at storage.old.held.groups address) in
            Spends 0 (size + 2 + bitlen (map.len storage.old.held.groups)) storage.old.moves storage.new.moves }
    {
        self.lemma_is_sound();
        storage.held.lemma_is_numbered();
        let at = self.in_force();
        if at.is_querier {
            storage.held.ask(
                number,
                source,
                at.moment,
                &at.timing,
                F::Address::PER_QUERY,
                &mut storage.meter,
                &mut storage.moves,
                sink,
            )
        } else {
            let stored = storage.held.entry_of(number);
            timer_among(stored.sources, source, &mut storage.meter).is_some()
        }
    }

    /// Applies a BLOCK to a held group where the group's row is stored, if it can be applied there. It names no source,
    /// or a source that the group has or, in INCLUDE, lacks. The timer is lowered, and what is to go then is sent.
    /// Returns whether it was applied; if not, nothing changes. The group's filter stays.
    pub(crate) fn block<A: Allocator, S: Sink<F::Address>>(
        &self,
        storage: &mut Storage<F::Address, A>,
        named: &[F::Address],
        lookup: GroupLookup<F::Address>,
        said: StatementKind,
        sink: &mut S,
    ) -> bool
        requires sound { AreSound self.now storage.old.held.groups }
        requires lookup { IsLookup F.Address.number storage.old.held lookup }
        requires block { blocked.is_block said ≡ true }
        ensures outcome { let said_so = statement_of said (named_in F.Address.number named.now) in
            let outcome = stated self.now (F.Address.number lookup.address) said_so storage.old.held.groups in
            result ≡ true → HasOutcome S.takes outcome counters.Applied storage.new.held.groups sink.old sink.new }
        ensures held { result ≡ true → is_ok lookup.found ≡ true }
        ensures left { result ≡ true → (e : ScheduledGroup) × (storage.new.held.groups ≡ with_group storage.old.held.groups (F.Address.number lookup.address) e) }
        ensures changes { result ≡ true → changes storage.old.held.groups storage.new.held.groups (F.Address.number lookup.address) ≡ false }
        ensures kept { storage.new.held ≡ record storage.old.held { groups = storage.new.held.groups } }
        ensures none { result ≡ false → storage.new ≡ has_counted storage.old storage.new.meter }
        ensures unsent { result ≡ false → sink.new ≡ sink.old }
        ensures done { let e = group_at storage.old.held.groups (F.Address.number lookup.address) in
            is_ok lookup.found ≡ true → CanBlock self.now (F.Address.number lookup.address) (length named.now) storage.old.held.groups
            → ((source : F.Address) → named.now ≡ source ∷ [] → (is_include e.group.mode || is_some (timer_at e.group (F.Address.number source))) ≡ true) → result ≡ true }
        ensures spent { let size = sources_of (group_at storage.old.held.groups (F.Address.number lookup.address)) in
            let most = most_blocked said size (length named.now) in
            Spends (if result then min size (length named.now) else 0) (if result then most + 3 * size + 5 + bitlen (map.len storage.old.held.groups) else most) storage.old.meter storage.new.meter }
        ensures moved { let size = sources_of (group_at storage.old.held.groups (F.Address.number lookup.address)) in
            MovesWithin (size + moved_by_edit) storage.old storage.new }
    {
        let Some(number) = self.number_blocked(storage, named, lookup) else {
            return false;
        };
        storage.held.lemma_is_numbered();
        self.lemma_is_sound();
        if named.is_empty() {
            return true;
        }
        let is_include = storage.held.entry_of(number).mode.is_include();
        let there = self.ask(storage, number, named[0], sink);
        if there { true } else { is_include }
    }
}

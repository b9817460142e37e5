//! A record that is applied where its group's row is stored, without a copy. It only sets the timers of the sources that
//! it names, may add one of them, and asks for nothing.

ghost use Rattle.std.specs.Prelude.{◌≡◌, ℕ, ◌+◌, ◌*◌, ◌≤◌, ◌||◌, [], ◌∷◌, false, true, is_ok, is_some, length, map as list_map, min, IfSome, MatchOption, OnSome, None, Some};
ghost use Rattle.std.specs.FinMap as map;
ghost use Rattle.mq_count.specs.Spending.{Spends};
ghost use Rattle.mq_sets.specs.Ascending.{IsAscending};
ghost use Rattle.mq_sets.specs.Search.{bitlen};
ghost use Rattle.mq_sched.specs.Schedule.{ScheduledGroup};
ghost use Rattle.mq_table.specs.Group.{is_include, timer_at};
ghost use Rattle.mq_table.specs.Stored.{named_in};
ghost use Rattle.mq_held.specs.Groups.{group_at, sources_of, with_group};
ghost use Rattle.mq_held.specs.Restarted.{most_set};
ghost use Rattle.mq_link.specs.Blocked as blocked;
ghost use Rattle.mq_link.specs.Blocked.{CanBlock};
ghost use Rattle.mq_link.specs.Changing.{statement_of};
ghost use Rattle.mq_link.specs.Counters as counters;
ghost use Rattle.mq_link.specs.Forwarding.{changes};
ghost use Rattle.mq_link.specs.Moved.{MovesWithin, moved_by_edit};
ghost use Rattle.mq_link.specs.Record.{stated};
ghost use Rattle.mq_link.specs.Refreshed.{IsHeardAgain, is_restart, most_blocked, most_tried};
ghost use Rattle.mq_link.specs.Router.{HasOutcome};
ghost use Rattle.mq_link.specs.Sound.{AreSound};
ghost use Rattle.mq_link.specs.Storage.{IsLookup, has_counted};

use crate::family::Family;
use crate::statement::StatementKind;
use crate::status::Status;
use crate::storage::{GroupLookup, Storage};
use mq_count::Key;
use mq_held::SourceRoom;
use mq_sched::Sink;
use mq_table::NamedEffect;
use std::alloc::Allocator;

impl<F: Family> Status<F> {
    /// Returns the most sources that the limits allow.
    fn source_room(&self) -> SourceRoom
        ensures { let limits = self.now.config.limits in result ≡ record { group_sources = limits.group_sources; sources = limits.sources } }
    {
        let limits = self.config().limits();
        SourceRoom {
            group_sources: limits.group_sources as usize,
            sources: limits.sources as usize,
        }
    }

    /// Applies a record of IS_IN or ALLOW to a held group where the group's row is stored.
    ///
    /// Nothing is due for the group. It has each source that the record names, or it lacks the only named source and the
    /// limits allow another. Their timers are set anew, and their retransmissions stay. Returns whether the group's
    /// filter changed. For any other group, it returns None and changes nothing.
    pub(crate) fn refresh<A: Allocator>(
        &self,
        storage: &mut Storage<F::Address, A>,
        named: &[F::Address],
        lookup: GroupLookup<F::Address>,
        said: StatementKind,
    ) -> Option<bool>
        requires sound { AreSound self.now storage.old.held.groups }
        requires lookup { IsLookup F.Address.number storage.old.held lookup }
        requires source_room { storage.old.held.source_room ≡ self.now.config.room.sources }
        requires named { IsAscending F.Address.number named.now }
        requires restart { is_restart said ≡ true }
        ensures outcome { let said_so = statement_of said (named_in F.Address.number named.now) in
            OnSome result (stated self.now (F.Address.number lookup.address) said_so storage.old.held.groups ≡ record { verdict = counters.Applied; groups = storage.new.held.groups; queries = [] }) }
        ensures held { OnSome result (is_ok lookup.found ≡ true) }
        ensures left { OnSome result ((e : ScheduledGroup) × (storage.new.held.groups ≡ with_group storage.old.held.groups (F.Address.number lookup.address) e)) }
        ensures changes { IfSome result (λ changes_it. changes_it ≡ changes storage.old.held.groups storage.new.held.groups (F.Address.number lookup.address)) }
        ensures order { storage.new.held.order ≡ storage.old.held.order }
        ensures sources { storage.new.held.source_room ≡ storage.old.held.source_room }
        ensures none { result ≡ None → storage.new ≡ has_counted storage.old storage.new.meter }
        ensures done { IsHeardAgain self.now.now said (list_map F.Address.number named.now) storage.old.held.groups (F.Address.number lookup.address) → is_some result ≡ true }
        ensures spent { let size = sources_of (group_at storage.old.held.groups (F.Address.number lookup.address)) in
            let count = length named.now in
            let most = 2 + most_set size count (bitlen (map.len storage.old.held.groups)) in
            MatchOption result (Spends 0 (most_tried said size count) storage.old.meter storage.new.meter)
            (λ _. Spends (min size count) most storage.old.meter storage.new.meter) }
        ensures moved { let size = sources_of (group_at storage.old.held.groups (F.Address.number lookup.address)) in
            MovesWithin (5 * (size + length named.now) + moved_by_edit) storage.old storage.new }
        // A record that only sets timers anew moves no source but the named ones.
        ensures moves { IsHeardAgain self.now.now said (list_map F.Address.number named.now) storage.old.held.groups (F.Address.number lookup.address) →
            Spends 0 (length named.now + 2 + bitlen (map.len storage.old.held.groups)) storage.old.moves storage.new.moves }
    {
        self.lemma_is_sound();
        storage.held.lemma_is_numbered();
        let Ok(number) = lookup.found else {
            return None;
        };
        let at = self.in_force();
        let schedule = storage.held.entry_of(number).schedule;
        if schedule.is_due(at.moment, &mut storage.meter) {
            return None;
        }
        let deadline = at.moment.after(at.timing.membership_interval());
        storage.held.restart_each(
            number,
            named,
            deadline,
            self.source_room(),
            &mut storage.meter,
            &mut storage.moves,
        )
    }

    /// Applies a statement where its group's row is stored, if it can be applied there.
    ///
    /// The effect on the sources that it names decides whether `refresh` or `block` applies it. Returns whether the group's
    /// filter changed. If it can't be applied there, it returns None and changes nothing.
    pub(crate) fn apply_in_place<A: Allocator, S: Sink<F::Address>>(
        &self,
        storage: &mut Storage<F::Address, A>,
        named: &[F::Address],
        lookup: GroupLookup<F::Address>,
        said: StatementKind,
        sink: &mut S,
    ) -> Option<bool>
        requires sound { AreSound self.now storage.old.held.groups }
        requires lookup { IsLookup F.Address.number storage.old.held lookup }
        requires source_room { storage.old.held.source_room ≡ self.now.config.room.sources }
        requires named { IsAscending F.Address.number named.now }
        ensures outcome { let said_so = statement_of said (named_in F.Address.number named.now) in
            let outcome = stated self.now (F.Address.number lookup.address) said_so storage.old.held.groups in
            OnSome result (HasOutcome S.takes outcome counters.Applied storage.new.held.groups sink.old sink.new) }
        ensures held { OnSome result (is_ok lookup.found ≡ true) }
        ensures left { OnSome result ((e : ScheduledGroup) × (storage.new.held.groups ≡ with_group storage.old.held.groups (F.Address.number lookup.address) e)) }
        ensures changes { IfSome result (λ changes_it. changes_it ≡ changes storage.old.held.groups storage.new.held.groups (F.Address.number lookup.address)) }
        ensures order { storage.new.held.order ≡ storage.old.held.order }
        ensures sources { storage.new.held.source_room ≡ storage.old.held.source_room }
        ensures none { result ≡ None → storage.new ≡ has_counted storage.old storage.new.meter }
        ensures unsent { result ≡ None → sink.new ≡ sink.old }
        ensures again { IsHeardAgain self.now.now said (list_map F.Address.number named.now) storage.old.held.groups (F.Address.number lookup.address) → is_some result ≡ true }
        ensures blocked { let e = group_at storage.old.held.groups (F.Address.number lookup.address) in
            blocked.is_block said ≡ true → is_ok lookup.found ≡ true → CanBlock self.now (F.Address.number lookup.address) (length named.now) storage.old.held.groups
            → ((source : F.Address) → named.now ≡ source ∷ [] → (is_include e.group.mode || is_some (timer_at e.group (F.Address.number source))) ≡ true) → is_some result ≡ true }
        ensures spent { let size = sources_of (group_at storage.old.held.groups (F.Address.number lookup.address)) in
            let count = length named.now in
            MatchOption result (Spends 0 (most_tried said size count + most_blocked said size count) storage.old.meter storage.new.meter)
            (λ _. Spends (min size count) (6 * (size + count) + 17 + bitlen (map.len storage.old.held.groups)) storage.old.meter storage.new.meter) }
        ensures moved { let size = sources_of (group_at storage.old.held.groups (F.Address.number lookup.address)) in
            MovesWithin (5 * (size + length named.now) + moved_by_edit) storage.old storage.new }
        // A record that only sets timers anew moves no source but the named ones.
        ensures moves { let size = sources_of (group_at storage.old.held.groups (F.Address.number lookup.address)) in
            let count = length named.now in
            let digits = bitlen (map.len storage.old.held.groups) in
            IsHeardAgain self.now.now said (list_map F.Address.number named.now) storage.old.held.groups (F.Address.number lookup.address) →
            Spends 0 (2 + most_set size count digits) storage.old.meter storage.new.meter × Spends 0 (count + 2 + digits) storage.old.moves storage.new.moves }
    {
        match said.named_effect() {
            Some(NamedEffect::Restart) => self.refresh(storage, named, lookup, said),
            Some(NamedEffect::Ask) => {
                if self.block(storage, named, lookup, said, sink) {
                    Some(false)
                } else {
                    None
                }
            }
            None => None,
        }
    }
}

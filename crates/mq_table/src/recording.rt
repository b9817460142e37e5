//! Records, applied to a group.

ghost use Rattle.std.specs.Prelude.{◌≡◌, ℕ, ◌+◌, ◌^◌, ◌≤◌, ◌<◌, true, min, length, vec_capacity, IsSome, IfOk, OnOk, OnErr};
ghost use Rattle.mq_count.specs.Spending.{Spends};
ghost use Rattle.mq_sets.specs.Ascending.{IsAscending, set_of};
ghost use Rattle.mq_table.specs.Filter.{changes_filter};
ghost use Rattle.mq_table.specs.Group.{timer_at};
ghost use Rattle.mq_table.specs.MergedRecord.{LooksByHalves};
ghost use Rattle.mq_table.specs.Table.{change_of};
ghost use Rattle.mq_table.specs.Stored.{named_in, number_in, size_of, state_of, timers_in};

use crate::changes::{Change, Loaded};
use crate::group::Group;
use crate::heads::Head;
use crate::kind::Kind;
use crate::merged_records::push_changes;
use crate::merged_runs::push_within;
use crate::rules::Rule;
use crate::sources::Source;
use crate::timing::Timing;
use mq_count::{Key, Meter, Moment};
use mq_sets::{Memory, SourceSet};
use std::alloc::Allocator;

impl<K: Key, A: Allocator> Group<K, A> {
    /// Loads a group as a record changes it, with a head and row of sources that are read where they are stored. It
    /// does not allocate: the group and `asked` have room for the sources of the row and of the record together. It
    /// writes the sources for which the record sends a query into `asked`, ascending, and the group has each of them.
    /// Returns whether the record sends a query to the group, and whether it changes the filter.
    pub fn load_changed<B: Allocator, C: Allocator>(
        &mut self,
        head: &Head,
        row: &[Source<K>],
        kind: Kind,
        named: &SourceSet<K, B>,
        now: Moment,
        timing: &Timing,
        asked: &mut Vec<K, C>,
        m: &mut Meter,
    ) -> Loaded
        requires in_range { now ≤ 2 ^ 53 }
        requires row_ascending { IsAscending (number_in K.number) row.now }
        requires room { length row.now + length named.now.members ≤ self.old.room }
        requires asked_room { length row.now + length named.now.members ≤ vec_capacity asked.old }

        ensures group { let before = state_of head.now (timers_in K.number row.now) in
            let change = change_of timing.now now before kind (named_in K.number named.now.members) in
            self.new.state ≡ change.group }
        ensures query { let before = state_of head.now (timers_in K.number row.now) in
            let change = change_of timing.now now before kind (named_in K.number named.now.members) in
            (s : ℕ) → set_of K.number asked.new.items s ≡ change.query s }
        ensures query_group { let before = state_of head.now (timers_in K.number row.now) in
            let change = change_of timing.now now before kind (named_in K.number named.now.members) in
            result.asks_group ≡ change.query_group }
        ensures changes_filter { let before = state_of head.now (timers_in K.number row.now) in
            result.changes_filter ≡ changes_filter before self.new.state }
        ensures ascending { IsAscending K.number asked.new.items }
        ensures held { (s : ℕ) → set_of K.number asked.new.items s ≡ true → IsSome (timer_at self.new.state s) }
        ensures room { self.old.room ≤ self.new.room }
        ensures asked_room { vec_capacity asked.old ≤ vec_capacity asked.new }

        // At least one comparison for each source of the shorter side, at most one for each of both. If one source is
        // named and the others stay as they are, at most one for each binary digit of the group's number of sources.
        ensures spent { Spends (min (length row.now) (length named.now.members)) (length row.now + length named.now.members) m.old m.new }
        ensures by_halves { LooksByHalves kind head.now.mode row.now (length named.now.members) m.old m.new }
    {
        let rule = Rule {
            kind,
            mode: head.mode,
            interval_end: now.after(timing.membership_interval()),
        };
        self.sources.clear();
        asked.clear();
        let turned = push_within(&rule, row, named.as_slice(), &mut self.sources, asked, m);
        self.mode = rule.mode_after();
        self.v1 = head.v1;
        self.v2 = head.v2;
        Loaded {
            asks_group: rule.asks_group(),
            changes_filter: turned | rule.mode.is_unlike(&self.mode),
        }
    }

    /// Returns the change of the group by a record, allocated from `alloc`. The group stays as it is. Fails with
    /// `Memory` only if a growth is refused; then the new group would have a source.
    pub fn apply<B: Allocator, C: Allocator + Copy>(
        &self,
        alloc: C,
        kind: Kind,
        named: &SourceSet<K, B>,
        now: Moment,
        timing: &Timing,
        m: &mut Meter,
    ) -> Result<Change<K, C>, Memory>
        requires in_range { now ≤ 2 ^ 53 }

        ensures group { let change = change_of timing.now now self.now.state kind (named_in K.number named.now.members) in
            IfOk result (λ c. c.group.state ≡ change.group) }
        ensures query { let change = change_of timing.now now self.now.state kind (named_in K.number named.now.members) in
            IfOk result (λ c. (s : ℕ) → set_of K.number c.query.items s ≡ change.query s) }
        ensures query_group { let change = change_of timing.now now self.now.state kind (named_in K.number named.now.members) in
            IfOk result (λ c. c.query_group ≡ change.query_group) }
        ensures ascending { IfOk result (λ c. IsAscending K.number c.query.items) }
        ensures held { IfOk result (λ c. (s : ℕ) → set_of K.number c.query.items s ≡ true → IsSome (timer_at c.group.state s)) }
        ensures memory { let change = change_of timing.now now self.now.state kind (named_in K.number named.now.members) in
            OnErr result (0 < size_of change.group) }

        // At most one comparison for each source of both, and with a change at least one for each
        // of the shorter side.
        ensures compares { OnOk result (Spends (min (size_of self.now.state) (length named.now.members)) (size_of self.now.state + length named.now.members) m.old m.new) }
        ensures compares_at_most { Spends 0 (size_of self.now.state + length named.now.members) m.old m.new }
    {
        let rule = Rule {
            kind,
            mode: self.mode,
            interval_end: now.after(timing.membership_interval()),
        };
        let mut sources = Vec::new(alloc);
        let mut query = Vec::new(alloc);
        let held = self.sources.as_slice();
        push_changes(&rule, held, named.as_slice(), &mut sources, &mut query, m)?;
        Ok(Change {
            group: Group {
                mode: rule.mode_after(),
                sources,
                v1: self.v1,
                v2: self.v2,
            },
            query,
            query_group: rule.asks_group(),
        })
    }
}

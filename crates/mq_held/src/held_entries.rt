//! Iteration over the held groups.

ghost use Rattle.std.specs.Prelude.{◌≡◌};
ghost use Rattle.std.specs.Iterator.{YieldsFirstBy, item_count};
ghost use Rattle.mq_held.specs.Listed.{entry_in, entries_from};

use crate::held_group::HeldGroup;
use crate::held_groups::HeldGroups;
use mq_count::Key;
use std::alloc::{Allocator, Global};
use std::marker::Model;

/// The held groups from one of them on, by ascending address, each as it is stored. A contract sees the list of those
/// that are still to come, each with its address. It never allocates, and compares nothing.
#[derive(Drop)]
pub struct HeldEntries<'a, K: Key, A: Allocator = Global> {
    held: &'a HeldGroups<K, A>,
    /// The page of the order that has the next group, and its place there.
    page: usize,
    place: usize,
}

impl<'a, K: Key, A: Allocator> Model for HeldEntries<'a, K, A> {
    ghost use Rattle.std.specs.Prelude.{ℕ, ◌<◌, ◌≤◌, List, length, slice_index};
    ghost use Rattle.std.specs.Coded.{coded×, coded_ℕ, coded_list};
    ghost use Rattle.mq_table.specs.contracts.timers.FilterMode as filter_mode;
    ghost use Rattle.mq_table.specs.contracts.timers.SourceTimer as source_timer;
    ghost use Rattle.mq_sched.specs.contracts.queries.QuerySchedule as query_schedule;
    ghost use Rattle.mq_sched.specs.Schedule.{ScheduledGroup};
    ghost use Rattle.mq_held.specs.Held.{scheduled_code};
    ghost use Rattle.mq_held.specs.Listed.{entries_from, rank_at};

    ghost Value = { List (ℕ × ScheduledGroup) };

    ghost coded = { coded_list (coded× coded_ℕ (scheduled_code filter_mode.the_row.coded source_timer.the_row.coded query_schedule.the_row.coded)) };

    ghost view = { λ e. entries_from (rank_at e.held.now.order.pages e.page e.place) e.held.now.groups };

    ghost invariant = { λ e. (e.page < length e.held.now.order.pages) × (e.place ≤ slice_index e.held.now.order.pages e.page) };
}

impl<'a, K: Key, A: Allocator> HeldEntries<'a, K, A> {
    /// Returns all held groups.
    pub(crate) fn of(held: &'a HeldGroups<K, A>) -> HeldEntries<'a, K, A>
        ensures { result ≡ entries_from 0 held.entry.now.groups }
    {
        held.lemma_is_numbered();
        HeldEntries {
            held,
            page: 0,
            place: 0,
        }
    }
}

impl<'a, K: Key, A: Allocator> Iterator for HeldEntries<'a, K, A> {
    type Item = HeldGroup<'a, K>;

    ghost next_gives = { YieldsFirstBy (entry_in K.number) (λ r. r) };

    ghost remaining = { item_count (λ r. r) };

    fn next(&mut self) -> Option<HeldGroup<'a, K>> {
        let held = self.held;
        held.order.lemma_is_ordered();
        if self.place == held.order.page(self.page).len() {
            if self.page + 1 == held.order.pages() {
                return None;
            }
            self.page += 1;
            self.place = 0;
        }
        let number = held.order.page(self.page)[self.place];
        self.place += 1;
        Some(held.entry_of(number))
    }
}

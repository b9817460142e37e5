//! The groups that are due.

ghost use Rattle.std.specs.Prelude.{◌≡◌, ℕ, ◌+◌, ◌-◌, ◌*◌, ◌<◌, ◌≤◌, min, filter, not, length, map as list_map, None, is_some, nat_lt, vec_capacity};
ghost use Rattle.std.specs.FinMap as map;
ghost use Rattle.std.specs.List.{All, count_by};
ghost use Rattle.mq_count.specs.Spending.{Spends};
ghost use Rattle.mq_sets.specs.Search.{bitlen};
ghost use Rattle.mq_sets.specs.NumberedKeys.{key_in};
ghost use Rattle.mq_held.specs.Groups.{group_at, running_in};
ghost use Rattle.mq_held.specs.Held.{IsNumber, is_vacant_at};
ghost use Rattle.mq_held.specs.Moments.{least, moments_in};
ghost use Rattle.mq_held.specs.Places.{addresses_due, due_in, has_due, min_or};

use crate::held_groups::HeldGroups;
use mq_count::{Key, Meter, Moment, Moves};
use std::alloc::Allocator;

/// The number of due groups from which the order is walked for them.
const WALKED_FROM: usize = 64;

impl<K: Key, A: Allocator> HeldGroups<K, A> {
    /// Writes the numbers of the groups that have a moment at or before `now` into `numbers`, by ascending address.
    /// `spare` and `numbers` have room for the number of each group.
    pub fn due<B: Allocator>(
        &self,
        now: Moment,
        numbers: &mut Vec<u16, B>,
        spare: &mut [u16],
        m: &mut Meter,
        moves: &mut Moves,
    )
        requires space { map.len self.now.groups ≤ vec_capacity numbers.old }
        requires spare { map.len self.now.groups ≤ length spare.old }
        ensures due { list_map (key_in self.now.order.items) numbers.new.items ≡ addresses_due now self.now.groups }
        ensures numbers { All (IsNumber self.now) numbers.new.items }
        ensures count { length numbers.new.items ≡ due_in now self.now.groups }
        ensures capacity { vec_capacity numbers.old ≤ vec_capacity numbers.new }
        ensures len { length spare.new ≡ length spare.old }
        ensures spent { let count = running_in self.now.groups in
            let due = due_in now self.now.groups in
            let in_order = min 1 due * (7 * map.len self.now.groups) in
            Spends (min (due + 1) count) (min count (1 + due * bitlen (count - 1)) + in_order) m.old m.new }
        ensures moved { let due = due_in now self.now.groups in
            Spends due (min 1 due * (64 * map.len self.now.groups)) moves.old moves.new }
    {
        numbers.clear();
        let count = self.moments.due(now, spare, m);
        if count < WALKED_FROM {
            self.order.put_in_order(&spare[..count], numbers, m, moves);
        } else {
            self.order.all(numbers, moves);
            self.leave_due(now, numbers, m);
        }
    }

    /// Keeps only the numbers of groups that have a moment at or before `now`.
    fn leave_due<B: Allocator>(&self, now: Moment, numbers: &mut Vec<u16, B>, m: &mut Meter)
        requires there { All (IsNumber self.now) numbers.old.items }
        ensures numbers { numbers.new.items ≡ filter (λ number. has_due now (group_at self.now.groups (key_in self.now.order.items number))) numbers.old.items }
        ensures capacity { vec_capacity numbers.old ≤ vec_capacity numbers.new }
        ensures spent { let count = count_by (λ number. not (is_vacant_at self.now number)) numbers.old.items in
            Spends count count m.old m.new }
    {
        let mut due = 0;
        for place in 0..numbers.len() {
            let number = numbers[place];
            if self.moments.is_due(number, now, m) {
                numbers[due] = number;
                due += 1;
            }
        }
        numbers.truncate(due);
    }

    /// Returns the earliest of the deadlines and due moments of all groups, or None if there is no group. No
    /// comparison.
    pub fn earliest(&self) -> Option<Moment>
        ensures some { is_some result ≡ nat_lt 0 (running_in self.now.groups) }
        ensures earliest { (n : ℕ) → least n (moments_in self.now.groups) ≡ min_or n result }
    {
        self.moments.earliest()
    }
}

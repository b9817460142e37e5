//! The removal of vacant groups, many at a time.

ghost use Rattle.std.specs.Prelude.{◌≡◌, ℕ, ◌+◌, ◌*◌, ◌/◌, ◌≤◌, true, min, not, take, filter, length, vec_capacity};
ghost use Rattle.std.specs.FinMap as map;
ghost use Rattle.std.specs.List.{All};
ghost use Rattle.mq_count.specs.Spending.{Spends};
ghost use Rattle.mq_sets.specs.Search.{bitlen};
ghost use Rattle.mq_sets.specs.Slots.{times};
ghost use Rattle.mq_sets.specs.Ascending.{set_of};
ghost use Rattle.mq_held.specs.Groups.{vacant_in, without_vacant};
ghost use Rattle.mq_held.specs.Held.{HasNumber, IsNumber, is_vacant_at, numbers_of};
ghost use Rattle.mq_held.specs.Moments.{least};

use crate::held_groups::HeldGroups;
use mq_count::{Key, Meter, Moves};
use mq_sets::NumberedKeys;
use std::alloc::Allocator;

/// The share of groups that are removed by a walk of the order: more than one of this many.
const WALK_WORTH: usize = 32;

/// Removes the items of some numbers from an order, one after the other.
fn remove_each<K: Key, A: Allocator>(
    order: &mut NumberedKeys<K, A>,
    numbers: &[u16],
    m: &mut Meter,
    moves: &mut Moves,
)
    requires there { All (λ n. set_of (λ x. x.number) order.old.items n ≡ true) numbers.now }
    requires once { (number : ℕ) → times number numbers.now ≤ 1 }
    ensures items { order.new.items ≡ filter (λ x. not (set_of (λ n. n) numbers.now x.number)) order.old.items }
    ensures room { order.new.room ≡ order.old.room }
    ensures spent { Spends 0 (length numbers.now * (bitlen (length order.old.items) + 2)) m.old m.new }
    ensures moved { let count = length numbers.now in
        Spends count (count * (1023 + length order.old.items / 128)) moves.old moves.new }
{
    for number in numbers {
        order.lemma_is_ordered();
        order.remove(*number, m, moves);
    }
}

impl<K: Key, A: Allocator> HeldGroups<K, A> {
    /// Removes the groups that are INCLUDE without sources. Their numbers are among `numbers`, which has no meaning
    /// afterwards. It has room for the number of each group, and so has `spare`. Few groups are removed one by one, and
    /// many by one walk of the order.
    pub fn take_out_vacant<B: Allocator>(
        &mut self,
        numbers: &mut Vec<u16, B>,
        spare: &mut [u16],
        m: &mut Meter,
        moves: &mut Moves,
    )
        requires there { All (IsNumber self.old) numbers.old.items }
        requires each { (number : ℕ) → times number numbers.old.items ≤ 1 }
        requires vacant { (number : ℕ) → IsNumber self.old number → is_vacant_at self.old number ≡ true → 1 ≤ times number numbers.old.items }
        requires space { map.len self.old.groups ≤ vec_capacity numbers.old }
        requires spare { map.len self.old.groups ≤ length spare.old }
        ensures groups { self.new.groups ≡ without_vacant self.old.groups }
        ensures numbers { (address number : ℕ) → HasNumber self.new address number → HasNumber self.old address number }
        ensures capacity { vec_capacity numbers.old ≤ vec_capacity numbers.new }
        ensures len { length spare.new ≡ length spare.old }
        ensures room { self.new.order.room ≡ self.old.order.room }
        ensures source_room { self.new.source_room ≡ self.old.source_room }
        ensures ahead { self.new.ahead ≡ self.old.ahead }
        ensures spent { let some = min 1 (length numbers.old.items) in
            Spends 0 (some * map.len self.old.groups) m.old m.new }
        ensures moved { let some = min 1 (length numbers.old.items) in
            let least = length numbers.old.items + vacant_in self.old.groups in
            Spends least (some * (50 * map.len self.old.groups)) moves.old moves.new }
    {
        self.order.lemma_is_ordered();
        self.leave_vacant(numbers, moves);
        if numbers.len() <= self.order.len() / WALK_WORTH {
            remove_each(&mut self.order, numbers.as_slice(), m, moves);
        } else {
            let kept = self.part(numbers, spare, moves);
            self.order.keep(&spare[..kept], numbers.as_slice(), moves);
        }
    }

    /// Keeps only the numbers whose groups are INCLUDE without sources.
    fn leave_vacant<B: Allocator>(&self, numbers: &mut Vec<u16, B>, moves: &mut Moves)
        requires there { All (IsNumber self.now) numbers.old.items }
        ensures numbers { numbers.new.items ≡ filter (is_vacant_at self.now) numbers.old.items }
        ensures capacity { vec_capacity numbers.old ≤ vec_capacity numbers.new }
        ensures moved { let count = length numbers.old.items in Spends count count moves.old moves.new }
    {
        moves.count(numbers.len());
        let mut gone = 0;
        for place in 0..numbers.len() {
            let number = numbers[place];
            if self.is_vacant(number) {
                numbers[gone] = number;
                gone += 1;
            }
        }
        numbers.truncate(gone);
    }

    /// Splits the numbers of all groups, each part by ascending address. Those of groups that are INCLUDE without
    /// sources go to `gone`, and all others to the front of `kept`. Returns how many those are.
    fn part<B: Allocator>(
        &self,
        gone: &mut Vec<u16, B>,
        kept: &mut [u16],
        moves: &mut Moves,
    ) -> usize
        requires space { map.len self.now.groups ≤ vec_capacity gone.old }
        requires kept_space { map.len self.now.groups ≤ length kept.old }
        ensures gone { gone.new.items ≡ filter (is_vacant_at self.now) (numbers_of self.now) }
        ensures kept { take result kept.new ≡ filter (λ number. not (is_vacant_at self.now number)) (numbers_of self.now) }
        ensures within { result ≤ length kept.new }
        ensures capacity { vec_capacity gone.old ≤ vec_capacity gone.new }
        ensures len { length kept.new ≡ length kept.old }
        ensures moved { let count = map.len self.now.groups in Spends (2 * count) (2 * count) moves.old moves.new }
    {
        self.order.all(gone, moves);
        let mut count = 0;
        for place in 0..gone.len() {
            let number = gone[place];
            if !self.is_vacant(number) {
                kept[count] = number;
                count += 1;
            }
        }
        self.leave_vacant(gone, moves);
        count
    }
}

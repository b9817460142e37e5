//! An index of the groups' earliest deadlines, by the numbers of the groups.

ghost use Rattle.std.specs.Prelude.{◌≡◌, ℕ, ◌+◌, ◌-◌, ◌*◌, ◌/◌, ◌^◌, ◌<◌, ◌≤◌, min, length, take, drop, true, false, if◌then◌else◌, IfOk, MatchOption, Some, is_ok};
ghost use Rattle.std.specs.FinMap as map;
ghost use Rattle.std.specs.List.{All};
ghost use Rattle.mq_arena.specs.Vectors.{IsSize, Takes};
ghost use Rattle.mq_count.specs.Spending.{Spends};
ghost use Rattle.mq_sets.specs.Search.{bitlen};
ghost use Rattle.mq_sets.specs.Slots.{times};
ghost use Rattle.mq_sched.specs.Deadlines.{DeadlinesState, IsEarliestMoment, is_number_due};
ghost use Rattle.mq_sched.specs.Sizes.{bytes_of_moments};

use crate::deadline_tree::DeadlineTree;
use crate::leaf_numbers::{give_up_number, number_or, write_numbers};
use mq_arena::{VectorSource, both_sizes, filled, vector_size};
use mq_count::{Meter, Moment, Moves};
use mq_sets::Memory;
use std::alloc::{Allocator, Global};
use std::marker::Model;

/// The earliest deadline or due moment of each held group, by the number that the group has while it is held.
///
/// A contract sees the finite map from these numbers to their moments, and the room: all numbers are below it. `with_room`
/// reserves all memory, and no other call allocates.
///
/// The moments stand at the leaves of a tree, which has the earliest at its top. Beside it stand the leaf of each number and the
/// number of each leaf. No edit changes another number: at most two numbers get another leaf.
#[derive(Drop)]
pub struct Deadlines<A: Allocator = Global> {
    tree: DeadlineTree<A>,
    // The leaf of each number; the entry of a number without a moment has no meaning.
    leaves: Vec<u32, A>,
    // The number of each leaf; an entry before the first leaf has no meaning.
    numbers: Vec<u16, A>,
    room: usize,
}

impl<A: Allocator> Model for Deadlines<A> {
    ghost use Rattle.std.specs.Prelude.{◌≡◌, ◌*◌, ◌^◌, ◌≤◌, length, vec_capacity};
    ghost use Rattle.std.specs.FinMap as map;
    ghost use Rattle.mq_sched.specs.Deadlines.{DeadlinesState, AreNumbered, moments_at, deadlines_code};

    ghost Value = { DeadlinesState };

    ghost coded = { deadlines_code };

    ghost view = { λ n. record { moments = moments_at n.tree.nodes n.leaves.items n.numbers.items n.tree.count; room = n.room } };

    ghost invariant = { λ n. AreNumbered n.leaves.items n.numbers.items n.tree.count
        × (map.len (moments_at n.tree.nodes n.leaves.items n.numbers.items n.tree.count) ≡ n.tree.count)
        × (n.tree.room ≡ n.room)
        × (n.tree.count ≤ n.room)
        × (length n.leaves.items ≡ n.room)
        × (n.room ≤ 2 ^ 16)
        × (2 * n.room ≤ vec_capacity n.numbers) };
}

impl<A: Allocator> Deadlines<A> {
    /// Returns the bytes that `with_room` allocates, or None if no memory has as many.
    pub fn size(room: usize) -> Option<usize>
        requires numbered { room ≤ 2 ^ 16 }
        ensures { IsSize (bytes_of_moments room) result }
    {
        both_sizes(
            both_sizes(DeadlineTree::<A>::size(room), vector_size::<u32>(room)),
            vector_size::<u16>(2 * room),
        )
    }

    /// Returns an index without moments, with room for the numbers below `room`. Fails with `Memory` if memory is
    /// refused.
    #[tactic(auto, unfolding(crate::specs::Sizes::bytes_of_moments))]
    pub fn with_room<M: VectorSource<A>>(
        memory: &mut M,
        room: usize,
    ) -> Result<Deadlines<A>, Memory>
        requires numbered { room ≤ 2 ^ 16 }
        ensures moments { IfOk result (λ n. n ≡ record { moments = map.empty; room = room }) }
        ensures memory { Takes (bytes_of_moments room) (M.less_than memory.old) (M.less_than memory.new) (is_ok result) }
    {
        Ok(Deadlines {
            tree: DeadlineTree::with_room(memory, room)?,
            leaves: filled(memory, 0, room)?,
            numbers: memory.with_capacity(2 * room)?,
            room,
        })
    }
}

impl<A: Allocator> Deadlines<A> {
    /// Returns the number of numbers that have a moment.
    pub fn len(&self) -> usize
        ensures len { result ≡ map.len self.now.moments }
        ensures within { result ≤ self.now.room }
    {
        self.numbers.len() / 2
    }

    /// Returns the numbers that have a moment, each once, in any order.
    pub fn numbers(&self) -> &[u16]
        ensures each { (number : ℕ) → times number result.now ≡ (if map.contains_key self.now.moments number then 1 else 0) }
        ensures within { All (λ number. number < self.now.room) result.now }
    {
        let first = self.numbers.len() / 2;
        &self.numbers[first..]
    }

    /// Returns the earliest moment, or None if there is none. No comparison.
    pub fn earliest(&self) -> Option<Moment>
        ensures { MatchOption result (self.now.moments ≡ map.empty) (IsEarliestMoment self.now.moments) }
    {
        self.tree.earliest()
    }

    /// Adds a number with its moment.
    pub fn insert(&mut self, number: u16, due: Moment, m: &mut Meter, moves: &mut Moves)
        requires number { number < self.old.room }
        requires absent { map.contains_key self.old.moments number ≡ false }
        requires room { map.len self.old.moments < self.old.room }
        ensures moments { self.new ≡ record self.old { moments = map.insert self.old.moments number due } }
        ensures spent { let had = map.len self.old.moments in
            Spends (min 1 had) (bitlen had) m.old m.new }
        ensures moves { let had = map.len self.old.moments in
            Spends 4 (4 + bitlen had) moves.old moves.new }
    {
        let count = self.numbers.len() / 2;
        self.tree.grow(due, m, moves);
        let first = number_or(&self.numbers, count, number);
        self.leaves[first as usize] = 2 * count as u32;
        self.leaves[number as usize] = 2 * count as u32 + 1;
        self.numbers.push(first).unwrap();
        self.numbers.push(number).unwrap();
        moves.count(2);
    }

    /// Removes a number with its moment.
    pub fn remove(&mut self, number: u16, m: &mut Meter, moves: &mut Moves)
        requires there { map.contains_key self.old.moments number ≡ true }
        ensures moments { self.new ≡ record self.old { moments = map.remove self.old.moments number } }
        ensures spent { let others = map.len self.old.moments - 1 in
            Spends (min 1 (others / 2)) (bitlen others) m.old m.new }
        ensures moves { let others = map.len self.old.moments - 1 in
            Spends 4 (4 + bitlen others) moves.old moves.new }
    {
        let last = self.numbers.len() / 2 - 1;
        let leaf = self.leaves[number as usize] as usize;
        let later = self.tree.shrink(leaf, m, moves);
        give_up_number(&mut self.leaves, &mut self.numbers, last, leaf, later);
        self.numbers.truncate(2 * last);
        moves.count(2);
    }

    /// Replaces the moment of a number.
    pub fn change(&mut self, number: u16, due: Moment, m: &mut Meter, moves: &mut Moves)
        requires there { map.contains_key self.old.moments number ≡ true }
        ensures moments { self.new ≡ record self.old { moments = map.insert self.old.moments number due } }
        ensures spent { let others = map.len self.old.moments - 1 in
            Spends (min 1 others) (bitlen others) m.old m.new }
        ensures moves { let others = map.len self.old.moments - 1 in
            Spends 1 (1 + bitlen others) moves.old moves.new }
    {
        let leaf = self.leaves[number as usize] as usize;
        self.tree.change(leaf, due, m, moves);
    }

    /// Returns the moment of a number. No comparison.
    pub fn moment(&self, number: u16) -> Moment
        requires there { map.contains_key self.now.moments number ≡ true }
        ensures { map.get self.now.moments number ≡ Some result }
    {
        let leaf = self.leaves[number as usize] as usize;
        self.tree.moment(leaf)
    }

    /// Returns whether a number has a moment at or before `now`.
    pub fn is_due(&self, number: u16, now: Moment, m: &mut Meter) -> bool
        requires number { number < self.now.room }
        ensures due { result ≡ is_number_due self.now.moments now number }
        ensures spent { let count = if map.contains_key self.now.moments number then 1 else 0 in
            Spends count count m.old m.new }
    {
        let leaf = self.leaves[number as usize] as usize;
        let first = self.numbers.len() / 2;
        if leaf < first || leaf >= self.numbers.len() || self.numbers[leaf] != number {
            return false;
        }
        m.reached(self.tree.moment(leaf), now)
    }

    /// Writes the numbers whose moments are at or before `now` at the front of `numbers`, each once, in any order.
    /// Returns how many there are.
    pub fn due(&self, now: Moment, numbers: &mut [u16], m: &mut Meter) -> usize
        requires space { map.len self.now.moments ≤ length numbers.old }
        ensures within { result ≤ map.len self.now.moments }
        ensures due { (number : ℕ) → times number (take result numbers.new) ≡ (if is_number_due self.now.moments now number then 1 else 0) }
        ensures behind { drop result numbers.new ≡ drop result numbers.old }
        ensures spent { let count = map.len self.now.moments in
            Spends (min (result + 1) count) (min count (1 + result * bitlen (count - 1))) m.old m.new }
    {
        let count = self.tree.due(now, numbers, m);
        let first = self.numbers.len() / 2;
        write_numbers(&self.numbers[first..], &mut numbers[..count]);
        count
    }
}

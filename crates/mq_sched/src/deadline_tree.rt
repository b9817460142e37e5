//! A tree of deadlines, with the earliest of them at its top.

ghost use Rattle.std.specs.Prelude.{◌≡◌, ℕ, ◌+◌, ◌-◌, ◌*◌, ◌/◌, ◌<◌, ◌≤◌, ◌==◌, [], min, length, take, drop, slice_index, if◌then◌else◌, IfOk, MatchOption, is_ok};
ghost use Rattle.std.specs.List.{count_by};
ghost use Rattle.mq_arena.specs.Vectors.{IsSize, Takes};
ghost use Rattle.mq_count.specs.Spending.{Spends};
ghost use Rattle.mq_sets.specs.Search.{bitlen};
ghost use Rattle.mq_sched.specs.DeadlineTree.{TreeState, IsTreeBut, IsEarliestLeaf, is_leaf_due, leaf_before};
ghost use Rattle.mq_sched.specs.Sizes.{bytes_of_tree};

use crate::due_leaves::collect;
use crate::node_pairs::nodes_below;
use crate::repair::repair_above;
use mq_arena::{VectorSource, both_sizes, vector_size};
use mq_count::{Meter, Moment, Moves};
use mq_sets::Memory;
use std::alloc::{Allocator, Global};
use std::marker::Model;

/// Deadlines at the leaves of a binary tree.
///
/// With n deadlines the leaves have the numbers from n to 2n - 1, and the nodes above them those from 1 to n - 1. Below
/// node i stand the nodes 2i and 2i + 1, and it has the earlier of their deadlines. So the earliest of all is at node
/// 1, and a deadline that changes is compared once on each level above it. A contract sees the deadlines of the nodes
/// by their numbers; node 0 is no node. `with_room` allocates, and no other call does. Each node that is written counts
/// as a move.
#[derive(Drop)]
pub(crate) struct DeadlineTree<A: Allocator = Global> {
    nodes: Vec<Moment, A>,
    // True for a node that has the deadline of its left child.
    lefts: Vec<bool, A>,
    room: usize,
}

impl<A: Allocator> Model for DeadlineTree<A> {
    ghost use Rattle.std.specs.Prelude.{◌≤◌, ◌*◌, ◌^◌, length, vec_capacity};
    ghost use Rattle.mq_sched.specs.DeadlineTree.{TreeState, IsTreeBut};

    ghost Value = { TreeState };

    ghost view = { λ t. record { nodes = t.nodes.items; count = length t.lefts.items; room = t.room } };

    ghost invariant = { λ t. IsTreeBut t.nodes.items t.lefts.items 0
        × (length t.lefts.items ≤ t.room)
        × (t.room ≤ 2 ^ 16)
        × (2 * t.room ≤ vec_capacity t.nodes)
        × (t.room ≤ vec_capacity t.lefts) };
}

impl<A: Allocator> DeadlineTree<A> {
    /// Returns the bytes that `with_room` allocates, or None if no memory has as many.
    pub(crate) fn size(room: usize) -> Option<usize>
        requires { room ≤ 65536 }
        ensures { IsSize (bytes_of_tree room) result }
    {
        both_sizes(vector_size::<Moment>(2 * room), vector_size::<bool>(room))
    }

    /// Returns a tree without deadlines, with room for `room`. Fails with `Memory` if memory is refused.
    #[tactic(auto, unfolding(crate::specs::Sizes::bytes_of_tree))]
    pub(crate) fn with_room<M: VectorSource<A>>(
        memory: &mut M,
        room: usize,
    ) -> Result<DeadlineTree<A>, Memory>
        requires { room ≤ 65536 }
        ensures tree { IfOk result (λ t. t ≡ record { nodes = []; count = 0; room = room }) }
        ensures memory { Takes (bytes_of_tree room) (M.less_than memory.old) (M.less_than memory.new) (is_ok result) }
    {
        Ok(DeadlineTree {
            nodes: memory.with_capacity(2 * room)?,
            lefts: memory.with_capacity(room)?,
            room,
        })
    }
}

impl<A: Allocator> DeadlineTree<A> {
    /// Returns the earliest deadline, or None if there is none. No comparison.
    pub(crate) fn earliest(&self) -> Option<Moment>
        ensures { MatchOption result (self.now.count ≡ 0) (IsEarliestLeaf self.now.nodes self.now.count) }
    {
        if self.lefts.len() == 0 {
            return None;
        }
        Some(self.nodes[1])
    }

    /// Returns the deadline of a leaf.
    pub(crate) fn moment(&self, leaf: usize) -> Moment
        requires leaf { leaf < 2 * self.now.count }
        ensures { result ≡ slice_index self.now.nodes leaf }
    {
        self.nodes[leaf]
    }

    /// Adds a deadline at the last leaf. The node of the first leaf gets two leaves below it, and its deadline goes to
    /// the leaf before the last.
    pub(crate) fn grow(&mut self, due: Moment, m: &mut Meter, moves: &mut Moves)
        requires room { self.old.count < self.old.room }
        ensures count { self.new.count ≡ self.old.count + 1 }
        ensures room { self.new.room ≡ self.old.room }
        ensures last { slice_index self.new.nodes (2 * self.old.count + 1) ≡ due }
        ensures moved { 0 < self.old.count → slice_index self.new.nodes (2 * self.old.count) ≡ slice_index self.old.nodes self.old.count }
        ensures others { (leaf : ℕ) → self.old.count < leaf → leaf < 2 * self.old.count →
            slice_index self.new.nodes leaf ≡ slice_index self.old.nodes leaf }
        ensures spent { Spends (min 1 self.old.count) (bitlen self.old.count) m.old m.new }
        ensures moves { Spends 2 (2 + bitlen self.old.count) moves.old moves.new }
    {
        let count = self.lefts.len();
        let first = if count == 0 { due } else { self.nodes[count] };
        self.nodes.push(first).unwrap();
        self.nodes.push(due).unwrap();
        self.lefts.push(true).unwrap();
        moves.count(2);
        repair_above(&mut self.nodes, &mut self.lefts, 2 * count + 1, m, moves);
    }

    /// Changes the deadline of a leaf.
    pub(crate) fn change(&mut self, leaf: usize, due: Moment, m: &mut Meter, moves: &mut Moves)
        requires leaf { self.old.count ≤ leaf }
        requires within { leaf < 2 * self.old.count }
        ensures count { self.new.count ≡ self.old.count }
        ensures room { self.new.room ≡ self.old.room }
        ensures changed { slice_index self.new.nodes leaf ≡ due }
        ensures others { (other : ℕ) → self.old.count ≤ other → other < 2 * self.old.count → (other ≡ leaf → ⊥) →
            slice_index self.new.nodes other ≡ slice_index self.old.nodes other }
        ensures spent { let others = self.old.count - 1 in
            Spends (min 1 others) (bitlen others) m.old m.new }
        ensures moves { Spends 1 (1 + bitlen (self.old.count - 1)) moves.old moves.new }
    {
        self.nodes[leaf] = due;
        moves.count(1);
        repair_above(&mut self.nodes, &mut self.lefts, leaf, m, moves);
    }

    /// Removes a leaf's deadline, and with it the last two leaves. The later deadline of these two, whose leaf is
    /// returned, goes to the leaf given up. The other goes to the node above them, which is a leaf afterwards.
    pub(crate) fn shrink(&mut self, leaf: usize, m: &mut Meter, moves: &mut Moves) -> usize
        requires leaf { self.old.count ≤ leaf }
        requires within { leaf < 2 * self.old.count }
        ensures count { self.new.count ≡ self.old.count - 1 }
        ensures room { self.new.room ≡ self.old.room }
        ensures last { 2 * self.old.count ≤ result + 2 }
        ensures below { result < 2 * self.old.count }
        ensures leaves { let last = self.old.count - 1 in
            (other : ℕ) → last ≤ other → other < 2 * last →
            slice_index self.new.nodes other ≡ slice_index self.old.nodes (leaf_before last leaf result other) }
        ensures spent { let others = self.old.count - 1 in
            Spends (min 1 (others / 2)) (bitlen others) m.old m.new }
        ensures moves { Spends 2 (2 + bitlen (self.old.count - 1)) moves.old moves.new }
    {
        let last = self.lefts.len() - 1;
        let (earlier, later) = nodes_below(&self.lefts, last);
        self.nodes[leaf] = self.nodes[later];
        self.nodes[last] = self.nodes[earlier];
        self.nodes.truncate(2 * last);
        self.lefts.truncate(last);
        let changed = if leaf < 2 * last { leaf } else { last };
        repair_above(&mut self.nodes, &mut self.lefts, changed, m, moves);
        moves.count(2);
        later
    }

    /// Writes the leaves whose deadlines are at or before `now` at the front of `leaves`, and returns their number.
    /// Each is written as the number of leaves before it.
    pub(crate) fn due(&self, now: Moment, leaves: &mut [u16], m: &mut Meter) -> usize
        requires space { self.now.count ≤ length leaves.old }
        ensures within { result ≤ self.now.count }
        ensures due { (leaf : ℕ) → count_by (λ other. self.now.count + other == leaf) (take result leaves.new)
            ≡ (if is_leaf_due self.now.nodes self.now.count now leaf then 1 else 0) }
        ensures behind { drop result leaves.new ≡ drop result leaves.old }
        ensures spent { let count = self.now.count in
            Spends (min (result + 1) count) (min count (1 + result * bitlen (count - 1))) m.old m.new }
    {
        if self.lefts.len() == 0 || !m.reached(self.nodes[1], now) {
            return 0;
        }
        collect(&self.nodes, &self.lefts, 1, now, leaves, 0, m)
    }
}

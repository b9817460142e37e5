//! The repair of a tree of deadlines after the deadline of one node has changed.

ghost use Rattle.std.specs.Prelude.{◌≡◌, ℕ, ◌+◌, ◌*◌, ◌/◌, ◌<◌, ◌≤◌, min, length, slice_index};
ghost use Rattle.mq_count.specs.Spending.{Spends};
ghost use Rattle.mq_sets.specs.Search.{bitlen};
ghost use Rattle.mq_sched.specs.DeadlineTree.{IsTreeBut, KeepsOther, written_above};

use mq_count::{Meter, Moment, Moves};

/// Repairs the nodes above a node; the one next above it may be out of order. It ends at a node that had the deadline
/// of its other child and has it still. The leaves don't change.
pub(crate) fn repair_above(
    nodes: &mut [Moment],
    lefts: &mut [bool],
    from: usize,
    m: &mut Meter,
    moves: &mut Moves,
)
    requires tree { IsTreeBut nodes.old lefts.old (from / 2) }
    requires within { 0 < from → from < length nodes.old }
    requires kept { KeepsOther nodes.old lefts.old from }
    ensures tree { IsTreeBut nodes.new lefts.new 0 }
    ensures size { length nodes.new ≡ length nodes.old }
    ensures count { length lefts.new ≡ length lefts.old }
    ensures leaves { (leaf : ℕ) → length lefts.old ≤ leaf → slice_index nodes.new leaf ≡ slice_index nodes.old leaf }
    ensures spent { Spends (min 1 (from / 2)) (bitlen (from / 2)) m.old m.new }
    ensures moves { let written = written_above lefts.old lefts.new from from in
        Spends written written moves.old moves.new }
{
    let mut node = from;
    while node > 1 {
        let is_right = node % 2 == 1;
        node /= 2;
        let left = nodes[2 * node];
        let right = nodes[2 * node + 1];
        let is_left = m.reached(left, right);
        if is_left == is_right && is_left == lefts[node] {
            return;
        }
        lefts[node] = is_left;
        nodes[node] = if is_left { left } else { right };
        moves.count(1);
    }
}

//! The leaves of a tree of deadlines that are due.

ghost use Rattle.std.specs.Prelude.{◌≡◌, ℕ, ◌+◌, ◌-◌, ◌*◌, ◌<◌, ◌≤◌, ◌==◌, min, length, take, drop, slice_index};
ghost use Rattle.std.specs.List.{count_by};
ghost use Rattle.mq_count.specs.Spending.{Spends};
ghost use Rattle.mq_sets.specs.Search.{bitlen};
ghost use Rattle.mq_sched.specs.DeadlineTree.{IsTreeBut, sum_below, one_if_due};

use crate::node_pairs::nodes_below;
use mq_count::{Meter, Moment};

/// Writes the leaves at or below a node that are due at `now` into `leaves`, from `from` on. The node itself is due.
/// Each leaf is written as the number of leaves before it. Returns the place after the last.
pub(crate) fn collect(
    nodes: &[Moment],
    lefts: &[bool],
    node: usize,
    now: Moment,
    leaves: &mut [u16],
    from: usize,
    m: &mut Meter,
) -> usize
    requires tree { IsTreeBut nodes.now lefts.now 0 }
    requires node { 0 < node }
    requires within { node < length nodes.now }
    requires due { slice_index nodes.now node ≤ now }
    requires few { length lefts.now ≤ 65536 }
    requires counted { from + sum_below (λ _. 1) (length lefts.now) node ≤ 65536 }
    requires space { from + sum_below (λ _. 1) (length lefts.now) node ≤ length leaves.old }
    ensures some { from < result }
    ensures within { result ≤ from + sum_below (λ _. 1) (length lefts.now) node }
    ensures due { (leaf : ℕ) → count_by (λ other. length lefts.now + other == leaf) (take result leaves.new)
        ≡ count_by (λ other. length lefts.now + other == leaf) (take from leaves.old) + sum_below (one_if_due nodes.now now leaf) (length lefts.now) node }
    ensures behind { drop result leaves.new ≡ drop result leaves.old }
    ensures spent { let all = sum_below (λ _. 1) (length lefts.now) node in
        let height = bitlen (length lefts.now - 1) + 1 - bitlen node in
        Spends (min (result - from) (all - 1)) (min (all - 1) ((result - from) * height)) m.old m.new }
{
    if node >= lefts.len() {
        leaves[from] = (node - lefts.len()) as u16;
        return from + 1;
    }
    let (first, second) = nodes_below(lefts, node);
    let end = collect(nodes, lefts, first, now, leaves, from, m);
    if m.reached(nodes[second], now) {
        collect(nodes, lefts, second, now, leaves, end, m)
    } else {
        end
    }
}

//! The two nodes below a node of a tree of deadlines.

ghost use Rattle.std.specs.Prelude.{◌≡◌, ◌*◌, ◌^◌, ◌<◌, length};
ghost use Rattle.mq_sched.specs.DeadlineTree.{first_below, second_below};

/// Returns the two nodes below a node: first the node that has its deadline, then the other.
pub(crate) fn nodes_below(lefts: &[bool], node: usize) -> (usize, usize)
    requires node { node < length lefts.now }
    requires numbered { 2 * length lefts.now < 2 ^ 64 }
    ensures first { result.0 ≡ first_below lefts.now node }
    ensures second { result.1 ≡ second_below lefts.now node }
{
    if lefts[node] {
        (2 * node, 2 * node + 1)
    } else {
        (2 * node + 1, 2 * node)
    }
}

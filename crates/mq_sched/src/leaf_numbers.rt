//! The numbers of leaves, and the leaves of numbers.

ghost use Rattle.std.specs.Prelude.{◌≡◌, ℕ, ◌+◌, ◌*◌, ◌^◌, ◌<◌, ◌≤◌, length, map, slice_index, slice_index_or, slice_set};
ghost use Rattle.std.specs.List.{All};
ghost use Rattle.mq_sched.specs.Deadlines.{AreNumbered};
ghost use Rattle.mq_sched.specs.DeadlineTree.{leaf_after};

/// Returns the number of a leaf, or `other` if there is no leaf there.
pub(crate) fn number_or(numbers: &[u16], leaf: usize, other: u16) -> u16
    ensures { result ≡ slice_index_or numbers.now leaf other }
{
    if leaf < numbers.len() {
        numbers[leaf]
    } else {
        other
    }
}

/// Gives the number of a leaf another leaf.
fn hand_over(leaves: &mut [u32], numbers: &mut [u16], leaf: usize, other: usize)
    requires leaf { leaf < length numbers.old }
    requires other { other < length numbers.old }
    requires number { slice_index numbers.old leaf < length leaves.old }
    requires fits { other < 2 ^ 32 }
    ensures leaves { leaves.new ≡ slice_set leaves.old (slice_index numbers.old leaf) other }
    ensures numbers { numbers.new ≡ slice_set numbers.old other (slice_index numbers.old leaf) }
{
    let number = numbers[leaf];
    numbers[other] = number;
    leaves[number as usize] = other as u32;
}

/// Gives up a leaf, and with it the last two of `last + 1` leaves. The number of `later`, which is one of them, gets
/// the leaf given up. The number of the other one gets the node above them.
pub(crate) fn give_up_number(
    leaves: &mut [u32],
    numbers: &mut [u16],
    last: usize,
    given_up: usize,
    later: usize,
)
    requires numbered { AreNumbered leaves.old numbers.old (last + 1) }
    requires few { last < 65536 }
    requires given_up { last < given_up }
    requires leaf { given_up < 2 * last + 2 }
    requires tail { 2 * last ≤ later }
    requires below { later < 2 * last + 2 }
    ensures size { length numbers.new ≡ length numbers.old }
    ensures room { length leaves.new ≡ length leaves.old }
    ensures numbers { (leaf : ℕ) → last < leaf → leaf < 2 * last + 2 → (leaf ≡ given_up → ⊥) →
        slice_index numbers.new (leaf_after last given_up later leaf) ≡ slice_index numbers.old leaf }
    ensures leaves { (leaf : ℕ) → last < leaf → leaf < 2 * last + 2 → (leaf ≡ given_up → ⊥) →
        slice_index leaves.new (slice_index numbers.old leaf) ≡ leaf_after last given_up later leaf }
{
    if last == 0 {
        return;
    }
    hand_over(leaves, numbers, later, given_up);
    hand_over(leaves, numbers, 4 * last + 1 - later, last);
}

/// Replaces each leaf by its number. A leaf is given by its distance from the first one.
pub(crate) fn write_numbers(numbers: &[u16], leaves: &mut [u16])
    requires { All (λ leaf. leaf < length numbers.now) leaves.old }
    ensures { leaves.new ≡ map (slice_index numbers.now) leaves.old }
{
    for leaf in leaves.iter_mut() {
        *leaf = numbers[*leaf as usize];
    }
}

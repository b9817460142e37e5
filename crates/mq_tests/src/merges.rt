//! A caller's proof about a merge, and the results of a merge of two sets.

ghost use Rattle.std.specs.Prelude.{◌≡◌, ◌+◌, IfOk, OnOk, length, min};
ghost use Rattle.mq_count.specs.Spending.{Spends};
ghost use Rattle.mq_sets.specs.Ascending.{IsAscending};
ghost use Rattle.mq_sets.specs.Merging.{merged_lists};

use crate::facts::{expect_none_wrong_at, expect_that};
use mq_count::{Addr4, Key, Meter};
use mq_sets::{Merged, SourceSet, merge};
use std::alloc::{AllocError, Global};

/// Returns the pairs of a merge by a loop, as a caller writes it. Its contract follows from those of `merge` and `next`
/// alone.
fn pairs_of<K: Key>(
    alloc: Global,
    left: &[K],
    right: &[K],
    m: &mut Meter,
) -> Result<Vec<(Option<K>, Option<K>)>, AllocError>
    requires left_ascending { IsAscending K.number left.now }
    requires right_ascending { IsAscending K.number right.now }
    ensures all { IfOk result (λ v. v.items ≡ merged_lists K.number K.number left.now right.now) }
    ensures spent { OnOk result (Spends (min (length left.now) (length right.now)) (length left.now + length right.now) m.old m.new) }
{
    let mut pairs = Vec::new(alloc);
    let mut merge = merge(left, right);
    while let Some(item) = merge.next(m) {
        pairs.push(match item {
            Merged::Left(x) => (Some(*x), None),
            Merged::Both(x, y) => (Some(*x), Some(*y)),
            Merged::Right(y) => (None, Some(*y)),
        })?;
    }
    Ok(pairs)
}

/// Adds the addresses that end with these octets.
fn add_all(set: &mut SourceSet<Addr4>, octets: &[u8]) {
    for octet in octets {
        let _ = set.insert(
            Addr4::from_octets([10, 0, 0, *octet]),
            366,
            &mut Meter::new(),
        );
    }
}

/// Returns the last octet of an address, or 0 without one.
fn octet_of(key: Option<Addr4>) -> u8 {
    match key {
        Some(key) => {
            let [_, _, _, octet] = key.octets();
            octet
        }
        None => 0,
    }
}

/// Returns what is wrong with a pair: it ends with other octets than these.
fn wrong_pair(pair: (Option<Addr4>, Option<Addr4>), want: (u8, u8)) -> Option<&'static str> {
    if octet_of(pair.0) != want.0 {
        return Some("the left side");
    }
    if octet_of(pair.1) != want.1 {
        return Some("the right side");
    }
    None
}

/// The pairs of {1, 3, 5} and {2, 3, 6}.
static PAIRS: [(u8, u8); 5] = [(1, 0), (0, 2), (3, 3), (5, 0), (0, 6)];

#[test]
fn a_merge_of_two_sets_takes_four_comparisons(rt: HostRuntime) {
    let (mut left, mut right) = (SourceSet::empty(rt.alloc()), SourceSet::empty(rt.alloc()));
    add_all(&mut left, &[5, 1, 3]);
    add_all(&mut right, &[6, 3, 2]);
    let mut m = Meter::new();
    let pairs = pairs_of(rt.alloc(), left.as_slice(), right.as_slice(), &mut m).expect(
        &rt,
        "memory for pairs",
    );
    expect_that(&rt, m.spent() == 4, "four comparisons");
    expect_that(&rt, pairs.len() == PAIRS.len(), "five pairs");
    for place in 0..PAIRS.len() {
        if place < pairs.len() {
            expect_none_wrong_at(&rt, wrong_pair(pairs[place], PAIRS[place]), place);
        }
    }
}

//! Ranges of groups that hosts may ask for.

ghost use Rattle.std.specs.Prelude.{◌≡◌, ◌/◌, ◌^◌, ◌==◌, ◌≤◌, ◌++◌, ◌∷◌, [], if◌then◌else◌, length, nat_lt};
ghost use Rattle.mq_link.specs.Ranges as spec;
ghost use Rattle.mq_link.specs.Ranges.{is_allowed_by};

use crate::family::Family;
use std::marker::Model;

/// The most ranges of a link.
pub const MOST_RANGES: usize = 16;

/// A range of groups: those that share the first `length` bits of its address. A length of 0 is all groups, and one
/// greater than that of an address is one group.
#[derive(Clone, Copy)]
pub struct GroupRange {
    /// The number of an address in the range, most significant octet first.
    pub address: u128,
    /// The number of bits, at most 32 for IGMP and 128 for MLD.
    pub length: u8,
    /// True if hosts may ask for its groups.
    pub allows: bool,
}

/// Ranges of groups, in the order in which they decide. A contract sees their list.
///
/// The first range that has a group decides whether hosts may ask for it. A group that no range has may be asked for,
/// unless some range allows its groups: then only these may be.
#[derive(Drop)]
pub struct Ranges {
    ranges: [GroupRange; MOST_RANGES],
    count: usize,
}

impl Model for Ranges {
    ghost use Rattle.std.specs.Prelude.{List, ◌≤◌, take};
    ghost use Rattle.std.specs.Coded.{coded_list};
    ghost use Rattle.mq_link.specs.declared.ranges.GroupRange.{GroupRange as RangeOf};
    ghost use Rattle.mq_link.specs.Ranges.{range_code};

    ghost Value = { List RangeOf };

    ghost coded = { coded_list range_code };

    ghost view = { λ r. take r.count r.ranges };

    ghost invariant = { λ r. r.count ≤ 16 };
}

/// A place for a range.
const UNUSED: GroupRange = GroupRange {
    address: 0,
    length: 0,
    allows: false,
};

impl Ranges {
    /// Returns no ranges, so that hosts may ask for every group.
    pub fn none() -> Ranges
        ensures { result ≡ [] }
    {
        Ranges {
            ranges: [UNUSED; MOST_RANGES],
            count: 0,
        }
    }

    /// Adds a range after the others, if there is room for it. Returns whether there is.
    pub fn push(&mut self, range: GroupRange) -> bool
        ensures room { result ≡ nat_lt (length self.old) 16 }
        ensures added { self.new ≡ (if result then self.old ++ range ∷ [] else self.old) }
    {
        if self.count >= MOST_RANGES {
            return false;
        }
        self.ranges[self.count] = range;
        self.count += 1;
        true
    }

    /// Returns the ranges.
    fn as_slice(&self) -> &[GroupRange]
        ensures { result.now ≡ self.now }
    {
        &self.ranges[..self.count]
    }
}

/// Returns whether two numbers are the same without this many last bits.
fn are_alike(others: u32, one: u128, other: u128) -> bool
    requires { others ≤ 128 }
    ensures { result ≡ (one / 2 ^ others == other / 2 ^ others) }
{
    others == 128 || one >> others == other >> others
}

/// Returns whether a range has the group of a number, if an address has so many bits.
fn is_in_range(bits: u32, range: &GroupRange, group: u128) -> bool
    requires { bits ≤ 128 }
    ensures { result ≡ spec.is_in_range bits range.now group }
{
    let others = bits.saturating_sub(u32::from(range.length));
    are_alike(others, group, range.address)
}

/// Returns the rule of the first range that has a group: whether it allows its groups.
fn rule_of(bits: u32, ranges: &[GroupRange], group: u128) -> Option<bool>
    requires { bits ≤ 128 }
    ensures { result ≡ spec.rule_of bits ranges.now group }
{
    for range in ranges {
        if is_in_range(bits, range, group) {
            return Some(range.allows);
        }
    }
    None
}

/// Returns whether some range allows its groups.
fn any_allows(ranges: &[GroupRange]) -> bool
    ensures { result ≡ spec.any_allows ranges.now }
{
    for range in ranges {
        if range.allows {
            return true;
        }
    }
    false
}

/// Returns whether hosts may ask for a group.
pub(crate) fn is_allowed_by<F: Family>(ranges: &Ranges, group: F::Address) -> bool
    ensures { result ≡ is_allowed_by F.FAMILY ranges.now (F.Address.number group) }
{
    let list = ranges.as_slice();
    match rule_of(F::ADDRESS_BITS, list, F::number(group)) {
        Some(allows) => allows,
        None => !any_allows(list),
    }
}

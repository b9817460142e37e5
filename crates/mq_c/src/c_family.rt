//! The differences of the families in the forms of C.

ghost use Rattle.mq_c.specs.Igmp as igmp;
ghost use Rattle.mq_c.specs.Mld as mld;

use crate::forms::{IgmpGroup, IgmpRange, IgmpSource, MldGroup, MldRange, MldSource};
use mq_count::{Addr4, Addr6};
use mq_link::{Family, GroupRange, Igmp, Mld};

/// The rule of an unused place for a range.
const UNUSED: u8 = 0;

/// The rule of a range that allows its groups.
const ALLOW: u8 = 1;

/// A family whose addresses, ranges, groups and sources cross to C.
pub(crate) trait CFamily: Family {
    ghost use Rattle.std.specs.Prelude.{◌≡◌, ℕ, List};
    ghost use Rattle.std.specs.Option.{option_to_list};
    ghost use Rattle.mq_link.specs.declared.ranges.GroupRange.{GroupRange};

    /// An address.
    type Octets: Copy;

    /// A group that is held.
    type Group: Copy;

    /// A source of it.
    type Source: Copy;

    ghost octets_with: { (address : ℕ) → Self.Octets };

    ghost group_with: { (address sources deadline v1 v2 : ℕ) → Self.Group };

    ghost source_with: { (address deadline : ℕ) → Self.Source };

    /// A range of groups.
    type Range: Copy;

    ghost range_in: { Self.Range → List GroupRange };

    /// Returns a range, unless its place is unused.
    fn range_from_c(range: Self::Range) -> Option<GroupRange>
        ensures { option_to_list result ≡ range_in range };

    /// Returns an address, most significant octet first.
    fn octets_in_c(address: Self::Address) -> Self::Octets
        ensures { result ≡ octets_with (Self.Address.number address) };

    /// Returns a group with this number of sources and these deadlines.
    fn group_in_c(
        address: Self::Address,
        sources: u32,
        deadline: u64,
        v1: u64,
        v2: u64,
    ) -> Self::Group
        ensures { result ≡ group_with (Self.Address.number address) sources deadline v1 v2 };

    /// Returns a source with this deadline.
    fn source_in_c(address: Self::Address, deadline: u64) -> Self::Source
        ensures { result ≡ source_with (Self.Address.number address) deadline };
}

impl CFamily for Igmp {
    type Octets = [u8; 4];

    type Group = IgmpGroup;

    type Source = IgmpSource;

    type Range = IgmpRange;

    ghost range_in = { igmp.range_in };

    ghost octets_with = { igmp.octets_with };

    ghost group_with = { igmp.group_with };

    ghost source_with = { igmp.source_with };

    fn range_from_c(range: IgmpRange) -> Option<GroupRange> {
        if range.rule == UNUSED {
            return None;
        }
        Some(GroupRange {
            address: u128::from(u32::from_be_bytes(range.address)),
            length: range.length,
            allows: range.rule == ALLOW,
        })
    }

    fn octets_in_c(address: Addr4) -> [u8; 4] {
        address.octets()
    }

    fn group_in_c(address: Addr4, sources: u32, deadline: u64, v1: u64, v2: u64) -> IgmpGroup {
        IgmpGroup {
            address: address.octets(),
            sources,
            deadline,
            v1,
            v2,
        }
    }

    fn source_in_c(address: Addr4, deadline: u64) -> IgmpSource {
        IgmpSource {
            address: address.octets(),
            deadline,
        }
    }
}

impl CFamily for Mld {
    type Octets = [u8; 16];

    type Group = MldGroup;

    type Source = MldSource;

    type Range = MldRange;

    ghost range_in = { mld.range_in };

    ghost octets_with = { mld.octets_with };

    ghost group_with = { mld.group_with };

    ghost source_with = { mld.source_with };

    fn range_from_c(range: MldRange) -> Option<GroupRange> {
        if range.rule == UNUSED {
            return None;
        }
        Some(GroupRange {
            address: u128::from_be_bytes(range.address),
            length: range.length,
            allows: range.rule == ALLOW,
        })
    }

    fn octets_in_c(address: Addr6) -> [u8; 16] {
        address.octets()
    }

    fn group_in_c(address: Addr6, sources: u32, deadline: u64, v1: u64, _v2: u64) -> MldGroup {
        MldGroup {
            address: address.octets(),
            sources,
            deadline,
            v1,
        }
    }

    fn source_in_c(address: Addr6, deadline: u64) -> MldSource {
        MldSource {
            address: address.octets(),
            deadline,
        }
    }
}

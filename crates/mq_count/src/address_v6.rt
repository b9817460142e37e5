//! IPv6 addresses.

ghost use Rattle.std.specs.Prelude.{◌≡◌, nat_eq};
ghost use Rattle.std.specs.Int.{w128, to_be_bytes, from_be_bytes};

use crate::keys::Key;
use crate::metering::Meter;
use std::cmp::Ordering;
use std::marker::Model;

/// An IPv6 address of a host or a group. A contract sees its number, most significant octet first: ::1 is 1.
///
/// The type has no order and no equality, so that every comparison of two addresses is counted.
#[derive(Clone, Copy)]
pub struct Addr6 {
    number: u128,
}

impl Model for Addr6 {
    ghost use Rattle.std.specs.Prelude.{ℕ};

    ghost Value = { ℕ };

    ghost view = { λ a. a.number };

    ghost inverse = { λ n. record { number = n } };
}

impl Addr6 {
    /// Returns the address of sixteen octets as a header has them.
    pub const fn from_octets(octets: [u8; 16]) -> Addr6
        ensures { result ≡ from_be_bytes w128 octets }
    {
        Addr6 {
            number: u128::from_be_bytes(octets),
        }
    }

    /// Returns the sixteen octets as a header has them.
    pub const fn octets(self) -> [u8; 16]
        ensures { result ≡ to_be_bytes w128 self }
    {
        self.number.to_be_bytes()
    }

    /// Returns whether this is the unspecified address, ::. This test of octets is not counted as a comparison.
    pub const fn is_unspecified(self) -> bool
        ensures { result ≡ nat_eq self 0 }
    {
        self.number == 0
    }
}

impl Default for Addr6 {
    ghost is_default = { λ a. a ≡ 0 };

    fn default() -> Addr6 {
        Addr6 { number: 0 }
    }
}

impl Key for Addr6 {
    ghost number = { λ a. a };

    ghost one_value = { λ a b same. same };

    fn order(self, other: Addr6, m: &mut Meter) -> Ordering {
        // Each branch counts by itself, so that a compiler keeps the three apart.
        if self.number < other.number {
            m.count_comparison();
            Ordering::Less
        } else if self.number == other.number {
            m.count_comparison();
            Ordering::Equal
        } else {
            m.count_comparison();
            Ordering::Greater
        }
    }

    fn is_small() {}
}

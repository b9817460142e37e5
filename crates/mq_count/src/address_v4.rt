//! IPv4 addresses.

ghost use Rattle.std.specs.Prelude.{◌≡◌, nat_eq};
ghost use Rattle.std.specs.Int.{w32, to_be_bytes, from_be_bytes};

use crate::keys::Key;
use crate::metering::Meter;
use std::cmp::Ordering;
use std::marker::Model;

/// An IPv4 address of a host or a group. A contract sees its number, most significant octet first: 10.0.0.1 is
/// 167772161.
///
/// The type has no order and no equality, so that every comparison of two addresses is counted.
#[derive(Clone, Copy)]
pub struct Addr4 {
    number: u32,
}

impl Model for Addr4 {
    ghost use Rattle.std.specs.Prelude.{ℕ};

    ghost Value = { ℕ };

    ghost view = { λ a. a.number };

    ghost inverse = { λ n. record { number = n } };
}

impl Addr4 {
    /// Returns the address of four octets as a header has them: 10, 0, 0, 1 for 10.0.0.1.
    pub const fn from_octets(octets: [u8; 4]) -> Addr4
        ensures { result ≡ from_be_bytes w32 octets }
    {
        Addr4 {
            number: u32::from_be_bytes(octets),
        }
    }

    /// Returns the four octets as a header has them.
    pub const fn octets(self) -> [u8; 4]
        ensures { result ≡ to_be_bytes w32 self }
    {
        self.number.to_be_bytes()
    }

    /// Returns whether this is the unspecified address, 0.0.0.0. This test of octets is not counted as a comparison.
    pub const fn is_unspecified(self) -> bool
        ensures { result ≡ nat_eq self 0 }
    {
        self.number == 0
    }
}

impl Default for Addr4 {
    ghost is_default = { λ a. a ≡ 0 };

    fn default() -> Addr4 {
        Addr4 { number: 0 }
    }
}

impl Key for Addr4 {
    ghost number = { λ a. a };

    ghost one_value = { λ a b same. same };

    fn order(self, other: Addr4, m: &mut Meter) -> Ordering {
        // Each branch counts by itself, so that a compiler keeps the three apart.
        if self.number < other.number {
            m.count_comparison();
            Ordering::Less
        } else if self.number == other.number {
            m.count_comparison();
            Ordering::Equal
        } else {
            m.count_comparison();
            Ordering::Greater
        }
    }

    fn is_small() {}
}

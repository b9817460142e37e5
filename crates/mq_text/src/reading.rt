//! Addresses parsed from text.

ghost use Rattle.mq_text.specs.Reading.{ReadsAs, SpellsV4, SpellsV6};
ghost use Rattle.mq_text.specs.Reading as spec;
ghost use Rattle.std.specs.Prelude.{◌≡◌};

use mq_count::{Addr4, Addr6};
use std::net::{Ipv4Addr, Ipv6Addr};

/// Parses an IPv4 address: four decimal numbers up to 255 without leading zeros, with dots between them.
pub fn read_v4(text: &str) -> Option<Addr4>
    ensures { ReadsAs SpellsV4 text.now result }
{
    match text.parse::<Ipv4Addr>() {
        Ok(address) => Some(Addr4::from_octets(address.octets())),
        Err(_) => None,
    }
}

/// Parses an IPv6 address: groups of one to four hexadecimal digits with colons between them. There are eight groups,
/// or at most seven and one `::` for the missing ones. Digits may have either case. No other form is accepted, so no
/// decimal numbers with dots.
pub fn read_v6(text: &str) -> Option<Addr6>
    ensures { ReadsAs SpellsV6 text.now result }
{
    if has_dot(text.as_bytes()) {
        return None;
    }
    match text.parse::<Ipv6Addr>() {
        Ok(address) => Some(Addr6::from_octets(address.octets())),
        Err(_) => None,
    }
}

/// Returns whether a text has a dot.
fn has_dot(text: &[u8]) -> bool
    ensures { result ≡ spec.has_dot text.now }
{
    text.iter().any(|byte| *byte == b'.')
}

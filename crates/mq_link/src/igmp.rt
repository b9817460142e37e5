//! IGMP, in packets of IPv4 (RFC 3376).

ghost use Rattle.std.specs.Prelude.{◌≡◌, false, true, refl};
ghost use Rattle.mq_wire.specs.Family as wire;

use crate::answers::DropReason;
use crate::configuration::Defaults;
use crate::family::Family;
use mq_count::{Addr4, OlderVersion};
use mq_wire::{Message, Query, QueryVersion, Small, WireFault, read_igmp, write_igmp};

/// The family of IPv4.
#[derive(Clone, Copy)]
pub struct Igmp;

/// The facts of an IGMP datagram beside its bytes.
#[derive(Clone, Copy)]
pub struct IgmpEnvelope {
    /// The source of its packet.
    pub source: Addr4,
}

/// The number of addresses with the same first octet.
const FIRST_OCTET: u32 = 1 << 24;

/// All systems, 224.0.0.1.
const ALL_SYSTEMS: [u8; 4] = [224, 0, 0, 1];

/// Returns the number of an address, most significant octet first.
fn number_of(address: Addr4) -> u32
    ensures { result ≡ address }
{
    u32::from_be_bytes(address.octets())
}

impl Family for Igmp {
    type Address = Addr4;

    type Envelope = IgmpEnvelope;

    ghost FAMILY = { wire.Igmp };

    ghost envelope_of = { λ e. record { source = e.source; destination = 0; hop_limit = 0; alert = false } };

    ghost RESPONSE_UNIT = { 100 };

    const RESPONSE_UNIT: u32 = 100;

    ghost GREATEST_RESPONSE = { 3174400 };

    const GREATEST_RESPONSE: u32 = 3174400;

    ghost ADDRESS_BITS = { 32 };

    const ADDRESS_BITS: u32 = 32;

    ghost V1_MUTES_LEAVE = { true };

    const V1_MUTES_LEAVE: bool = true;

    ghost response_unit = { refl };

    ghost greatest_response = { refl };

    ghost address_bits = { refl };

    ghost v1_mutes_leave = { refl };

    ghost per_query = { refl };

    ghost address_width = { refl };

    fn source(envelope: &IgmpEnvelope) -> Addr4 {
        envelope.source
    }

    fn read<'a>(_envelope: &IgmpEnvelope, body: &'a [u8]) -> Result<Message<'a, Addr4>, WireFault> {
        read_igmp(body)
    }

    fn write(_own: Addr4, query: &Query<'_, Addr4>, out: &mut [u8]) -> Result<usize, Small> {
        write_igmp(query, out)
    }

    fn is_admitted(group: Addr4) -> bool {
        let first = number_of(group) / FIRST_OCTET;
        224 <= first && first < 240 && number_of(group) != u32::from_be_bytes(ALL_SYSTEMS)
    }

    fn in_source_specific_range(group: Addr4) -> bool {
        number_of(group) / FIRST_OCTET == 232
    }

    fn number(address: Addr4) -> u128 {
        u128::from(number_of(address))
    }

    fn is_router_address(address: Addr4) -> bool {
        let number = number_of(address);
        0 < number && number / FIRST_OCTET < 224
    }

    fn is_zero(address: Addr4) -> bool {
        number_of(address) == 0
    }

    fn is_same(a: Addr4, b: Addr4) -> bool {
        number_of(a) == number_of(b)
    }

    fn unspecified() -> Addr4 {
        Addr4::default()
    }

    fn general_destination() -> Addr4 {
        Addr4::from_octets(ALL_SYSTEMS)
    }

    fn envelope_fault(_envelope: &IgmpEnvelope) -> Option<DropReason> {
        None
    }

    fn is_zero_of_igmp(source: Addr4) -> bool {
        Igmp::is_zero(source)
    }

    fn is_of_igmpv1(version: &QueryVersion<'_, Addr4>) -> bool {
        matches!(version, QueryVersion::Older(OlderVersion::V1))
    }

    fn defaults() -> Defaults {
        Defaults::with_group_sources(366)
    }
}

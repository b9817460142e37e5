//! MLD, in packets of IPv6 (RFC 3810).

ghost use Rattle.std.specs.Prelude.{◌≡◌, false, true, refl};
ghost use Rattle.mq_wire.specs.Family as wire;
ghost use Rattle.mq_link.specs.Family.{is_link_local};

use crate::answers::DropReason;
use crate::configuration::Defaults;
use crate::family::Family;
use mq_count::Addr6;
use mq_wire::{Message, Query, QueryVersion, Small, WireFault, read_mld, write_mld};

/// The family of IPv6.
#[derive(Clone, Copy)]
pub struct Mld;

/// The facts of an MLD datagram beside its bytes.
#[derive(Clone, Copy)]
pub struct MldEnvelope {
    /// The source of its packet.
    pub source: Addr6,
    /// The destination of its packet.
    pub destination: Addr6,
    /// The hop limit of its packet.
    pub hop_limit: u8,
    /// True if its packet has a Router Alert option.
    pub alert: bool,
}

/// All nodes, ff02::1.
const ALL_NODES: [u8; 16] = [0xff, 2, 0, 0, 0, 0, 0, 0, 0, 0, 0, 0, 0, 0, 0, 1];

/// Returns the number of an address, most significant octet first.
fn number_of(address: Addr6) -> u128
    ensures { result ≡ address }
{
    u128::from_be_bytes(address.octets())
}

/// Returns whether an address is in fe80::/10.
fn is_link_local(address: Addr6) -> bool
    ensures { result ≡ is_link_local address }
{
    number_of(address) / (1 << 118) == 0x3fa
}

impl Family for Mld {
    type Address = Addr6;

    type Envelope = MldEnvelope;

    ghost FAMILY = { wire.Mld };

    ghost envelope_of = { λ e. record {
      source = e.source;
      destination = e.destination;
      hop_limit = e.hop_limit;
      alert = e.alert;
    } };

    ghost RESPONSE_UNIT = { 1 };

    const RESPONSE_UNIT: u32 = 1;

    ghost GREATEST_RESPONSE = { 8387584 };

    const GREATEST_RESPONSE: u32 = 8387584;

    ghost ADDRESS_BITS = { 128 };

    const ADDRESS_BITS: u32 = 128;

    ghost V1_MUTES_LEAVE = { false };

    const V1_MUTES_LEAVE: bool = false;

    ghost response_unit = { refl };

    ghost greatest_response = { refl };

    ghost address_bits = { refl };

    ghost v1_mutes_leave = { refl };

    ghost per_query = { refl };

    ghost address_width = { refl };

    fn source(envelope: &MldEnvelope) -> Addr6 {
        envelope.source
    }

    fn read<'a>(envelope: &MldEnvelope, body: &'a [u8]) -> Result<Message<'a, Addr6>, WireFault> {
        read_mld(envelope.source, envelope.destination, body)
    }

    fn write(own: Addr6, query: &Query<'_, Addr6>, out: &mut [u8]) -> Result<usize, Small> {
        write_mld(own, query, out)
    }

    fn is_admitted(group: Addr6) -> bool {
        let number = number_of(group);
        let scope = number / (1 << 112) % 16;
        number / (1 << 120) == 255 && 2 <= scope && number != u128::from_be_bytes(ALL_NODES)
    }

    fn in_source_specific_range(group: Addr6) -> bool {
        let number = number_of(group);
        let flags = number / (1 << 116) % 16;
        number / (1 << 120) == 255 && flags == 3 && number / (1 << 96) % (1 << 16) == 0
    }

    fn number(address: Addr6) -> u128 {
        number_of(address)
    }

    fn is_router_address(address: Addr6) -> bool {
        is_link_local(address)
    }

    fn is_zero(address: Addr6) -> bool {
        number_of(address) == 0
    }

    fn is_same(a: Addr6, b: Addr6) -> bool {
        number_of(a) == number_of(b)
    }

    fn unspecified() -> Addr6 {
        Addr6::default()
    }

    fn general_destination() -> Addr6 {
        Addr6::from_octets(ALL_NODES)
    }

    fn envelope_fault(envelope: &MldEnvelope) -> Option<DropReason> {
        if !is_link_local(envelope.source) {
            Some(DropReason::BadSource)
        } else if envelope.hop_limit != 1 {
            Some(DropReason::HopLimit)
        } else if !envelope.alert {
            Some(DropReason::NoAlert)
        } else {
            None
        }
    }

    fn is_zero_of_igmp(_source: Addr6) -> bool {
        false
    }

    fn is_of_igmpv1(_version: &QueryVersion<'_, Addr6>) -> bool {
        false
    }

    fn defaults() -> Defaults {
        Defaults::with_group_sources(89)
    }
}

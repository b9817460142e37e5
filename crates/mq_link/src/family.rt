//! The facts of a family of messages that a link needs.

ghost use Rattle.std.specs.Prelude.{◌≡◌, ◌*◌, ◌≤◌, ◌==◌, ℕ, Bool};
ghost use Rattle.mq_wire.specs.Canon.{canon, IsCurrent, source_count, Writes};
ghost use Rattle.mq_wire.specs.Family as wire;
ghost use Rattle.mq_wire.specs.Numbered.{numbered_query, numbered_version};
ghost use Rattle.mq_link.specs.Defaults.{defaults_of};
ghost use Rattle.mq_link.specs.Family as family;
ghost use Rattle.mq_link.specs.Reading.{numbered_read};
ghost use Rattle.mq_link.specs.Receive as receive;
ghost use Rattle.mq_link.specs.Tests.{first_named};

use crate::answers::DropReason;
use crate::configuration::Defaults;
use mq_wire::{Message, Query, QueryVersion, Small, WireFault, WireKey};

/// IGMP or MLD. Its tests look at the octets of an address, which isn't counted as a comparison.
pub trait Family {
    /// The addresses of its packets.
    type Address: WireKey;

    /// The facts of a datagram beside its bytes.
    type Envelope: Copy;

    ghost FAMILY: { wire.Family };

    ghost envelope_of: { Self.Envelope → receive.Envelope };

    ghost RESPONSE_UNIT: { ℕ };

    /// The unit of the maximum response code in milliseconds, which is its least value. RFC 3376 section 4.1.1, RFC
    /// 3810 section 5.1.3.
    const RESPONSE_UNIT: u32;

    ghost GREATEST_RESPONSE: { ℕ };

    /// The greatest value of the maximum response code in milliseconds.
    const GREATEST_RESPONSE: u32;

    ghost ADDRESS_BITS: { ℕ };

    /// The number of bits of an address.
    const ADDRESS_BITS: u32;

    ghost V1_MUTES_LEAVE: { Bool };

    /// True if hosts of version 1 mute Leave (RFC 3376 section 7.3.2).
    const V1_MUTES_LEAVE: bool;

    /// Returns the source of a datagram.
    fn source(envelope: &Self::Envelope) -> Self::Address
        ensures { Self.Address.number result ≡ (envelope_of envelope.now).source };

    /// Returns the message of a datagram's bytes, without the IP header, or the first fault.
    fn read<'a>(
        envelope: &Self::Envelope,
        body: &'a [u8],
    ) -> Result<Message<'a, Self::Address>, WireFault>
        ensures { numbered_read Self.Address.number result
            ≡ receive.read_of FAMILY (receive.pseudo_of FAMILY (envelope_of envelope.now) body.entry.now) body.entry.now };

    /// Writes a query at the front of `out` as the router at `own` sends it, and returns its number of bytes. The bytes
    /// after it stay. The query is of IGMPv3 or MLDv2, with at most 65535 sources.
    fn write(
        own: Self::Address,
        query: &Query<'_, Self::Address>,
        out: &mut [u8],
    ) -> Result<usize, Small>
        requires version { IsCurrent query.now.version }
        requires counted { source_count query.now.version ≤ 65535 }
        ensures { Writes (canon FAMILY (Self.Address.number own) (numbered_query Self.Address.number query.now))
            out.old out.new result };

    /// Returns whether hosts report a group and a link keeps it (RFC 3376 section 5, RFC 3810 section 6).
    fn is_admitted(group: Self::Address) -> bool
        ensures { result ≡ family.is_admitted FAMILY (Self.Address.number group) };

    /// Returns whether a group is in the range that may be kept for source-specific multicast (RFC 4604 section 2).
    fn in_source_specific_range(group: Self::Address) -> bool
        ensures { result ≡ family.in_source_specific_range FAMILY (Self.Address.number group) };

    /// Returns the number of an address, most significant octet first.
    fn number(address: Self::Address) -> u128
        ensures { result ≡ Self.Address.number address };

    /// Returns whether a router may have this address and send queries from it (RFC 3810 section 5.1.14).
    fn is_router_address(address: Self::Address) -> bool
        ensures { result ≡ family.is_router_address FAMILY (Self.Address.number address) };

    /// Returns whether an address is the unspecified one, with all octets 0.
    fn is_zero(address: Self::Address) -> bool
        ensures { result ≡ (Self.Address.number address == 0) };

    /// Returns whether two addresses have the same octets.
    fn is_same(a: Self::Address, b: Self::Address) -> bool
        ensures { result ≡ (Self.Address.number a == Self.Address.number b) };

    /// Returns the unspecified address, with all octets 0.
    fn unspecified() -> Self::Address
        ensures { Self.Address.number result ≡ 0 };

    /// Returns the destination of general queries: 224.0.0.1 or ff02::1. RFC 3376 section 4.1.12, RFC 3810 section
    /// 5.1.15.
    fn general_destination() -> Self::Address
        ensures { Self.Address.number result ≡ family.general_destination FAMILY };

    /// Returns the first reason of the numbers 5 to 7 that holds for an envelope, if there is one. MLD alone has these
    /// reasons.
    fn envelope_fault(envelope: &Self::Envelope) -> Option<DropReason>
        ensures { result ≡ first_named (receive.envelope_tests FAMILY (envelope_of envelope.now)) };

    /// Returns whether the source is 0.0.0.0, from which a query of IGMP is dropped.
    fn is_zero_of_igmp(source: Self::Address) -> bool
        ensures { result ≡ receive.is_zero_of_igmp FAMILY (Self.Address.number source) };

    /// Returns whether a query is of IGMPv1.
    fn is_of_igmpv1(version: &QueryVersion<'_, Self::Address>) -> bool
        ensures { result ≡ receive.is_of_igmpv1 FAMILY (numbered_version version.now) };

    /// Returns the default configuration of a link.
    fn defaults() -> Defaults
        ensures { result ≡ defaults_of FAMILY };

    // The constants are those of the definitions, and a query holds as many sources as its addresses say.
    ghost response_unit: { RESPONSE_UNIT ≡ family.response_unit FAMILY };

    ghost greatest_response: { GREATEST_RESPONSE ≡ family.greatest_response FAMILY };

    ghost address_bits: { ADDRESS_BITS ≡ 8 * wire.address_width FAMILY };

    ghost v1_mutes_leave: { V1_MUTES_LEAVE ≡ family.v1_mutes_leave FAMILY };

    ghost per_query: { Self.Address.PER_QUERY ≡ family.per_query FAMILY };

    ghost address_width: { Self.Address.WIDTH ≡ wire.address_width FAMILY };
}

//! Families of messages whose queriers are checked.

ghost use Rattle.std.specs.Prelude.{◌≡◌};
ghost use Rattle.mq_wire.specs.RoundTrip.{response_lowered};
ghost use Rattle.mq_check.specs.Check.{packet_in, destination_in, headers_in};
ghost use Rattle.mq_check.specs.Basis.{named};
ghost use Rattle.mq_check.specs.Headers.{has_query_type};

use crate::headers::{Headers, byte_at, has_more, headers4};
use crate::querier_address::QuerierAddress;
use mq_count::{Addr4, Addr6};
use mq_lines::LineKey;
use mq_link::{Igmp, IgmpEnvelope, Mld, MldEnvelope};
use mq_pcap::{Endian, LinkType};
use mq_walk::{CapturedDatagram, CapturedFamily};
use mq_wire::{WireKey, code8, code16, resp8, resp16};

/// A family whose queriers are checked.
pub trait CheckedFamily: CapturedFamily
where
    Self::Address: LineKey,
{
    /// Returns the destination of the packet that a frame carries.
    fn destination(link: LinkType, frame: &[u8], envelope: &Self::Envelope) -> Self::Address
        ensures { Self.Address.number result ≡ destination_in Self.FAMILY link frame.now (Self.envelope_of envelope.now) };

    /// Returns the fields of a packet, and of the query in it, that have the same right values in every query.
    fn headers(
        link: LinkType,
        frame: &[u8],
        datagram: &CapturedDatagram<'_, Self::Envelope>,
    ) -> Headers
        ensures { result ≡ headers_in Self.FAMILY link frame.now
            (record { envelope = Self.envelope_of datagram.now.envelope; body = datagram.now.body.now }) };

    /// Returns whether a message's bytes have the type of a query.
    fn has_query_type(body: &[u8]) -> bool
        ensures { result ≡ has_query_type Self.FAMILY body.now };

    /// Returns the address of a querier of this family.
    fn named(address: Self::Address) -> QuerierAddress
        ensures { result ≡ named Self.FAMILY (Self.Address.number address) };

    /// Returns the response in milliseconds after it is rounded by its code.
    fn response_said(response: u32) -> u32
        ensures { result ≡ response_lowered Self.FAMILY response };
}

/// Returns the IP packet of a frame, after an Ethernet header and at most one tag. It is empty if the frame is too
/// short.
fn packet_in(link: LinkType, frame: &[u8]) -> &[u8]
    ensures { result.now ≡ packet_in link frame.now }
{
    match link {
        LinkType::RawIp => frame,
        LinkType::Ethernet => {
            if frame.len() < 14 {
                return &frame[frame.len()..];
            }
            if Endian::Big.word(frame, 12) != 0x8100 {
                return &frame[14..];
            }
            if frame.len() < 18 {
                return &frame[frame.len()..];
            }
            &frame[18..]
        }
    }
}

impl CheckedFamily for Igmp {
    fn destination(link: LinkType, frame: &[u8], _envelope: &IgmpEnvelope) -> Addr4 {
        let packet = packet_in(link, frame);
        if packet.len() < 20 {
            return Addr4::default();
        }
        Addr4::read(&packet[16..])
    }

    fn headers(
        link: LinkType,
        frame: &[u8],
        datagram: &CapturedDatagram<'_, IgmpEnvelope>,
    ) -> Headers {
        headers4(packet_in(link, frame), datagram.body)
    }

    fn has_query_type(body: &[u8]) -> bool {
        byte_at(body, 0) == 0x11
    }

    fn named(address: Addr4) -> QuerierAddress {
        QuerierAddress::V4(address)
    }

    fn response_said(response: u32) -> u32 {
        resp8(code8(response / 100)) * 100
    }
}

impl CheckedFamily for Mld {
    fn destination(_link: LinkType, _frame: &[u8], envelope: &MldEnvelope) -> Addr6 {
        envelope.destination
    }

    fn headers(
        _link: LinkType,
        _frame: &[u8],
        datagram: &CapturedDatagram<'_, MldEnvelope>,
    ) -> Headers {
        let body = datagram.body;
        Headers {
            ttl: datagram.envelope.hop_limit,
            alert: datagram.envelope.alert,
            precedence: 6,
            is_sound: true,
            has_reserved_bits: byte_at(body, 1) > 0 || byte_at(body, 6) > 0 || byte_at(body, 7) > 0,
            has_additional_data: has_more(28, 16, body),
        }
    }

    fn has_query_type(body: &[u8]) -> bool {
        byte_at(body, 0) == 130
    }

    fn named(address: Addr6) -> QuerierAddress {
        QuerierAddress::V6(address)
    }

    fn response_said(response: u32) -> u32 {
        resp16(code16(response))
    }
}

//! The headers of a query's packet.

ghost use Rattle.std.specs.Prelude.{◌≡◌, ◌≤◌};
ghost use Rattle.mq_check.specs.Headers as spec;

use mq_pcap::{Endian, has_router_alert_v4};
use mq_wire::checksum_ok;

/// The fields of a query's packet, and of the query itself, that have the same right values in every query.
#[derive(Clone, Copy)]
pub struct Headers {
    /// The time to live of IPv4, or the hop limit of IPv6.
    pub ttl: u8,
    /// The presence of a Router Alert option.
    pub alert: bool,
    /// The precedence of IPv4, from 0 to 7. IPv6 has none, and it is 6.
    pub precedence: u8,
    /// True if the checksum of the IPv4 header is right, or 0 as before the hardware writes it. True for IPv6, which has none.
    pub is_sound: bool,
    /// True if a bit of a reserved field is set.
    pub has_reserved_bits: bool,
    /// True if bytes follow the fields of the query.
    pub has_additional_data: bool,
}

/// A fault in the headers of a query's packet or message (RFC 3376 section 4, RFC 3810 section 5).
#[derive(Clone, Copy)]
pub enum HeaderFault {
    /// The time to live, or the hop limit, which is not 1.
    TimeToLive(u8),
    /// No Router Alert option.
    NoRouterAlert,
    /// The precedence of IPv4, which is not 6, that of Internetwork Control.
    Precedence(u8),
    /// A wrong checksum of the IPv4 header.
    HeaderChecksum,
    /// A wrong checksum of the message.
    WrongChecksum,
    /// A reserved field of the message that is not zero.
    ReservedBits,
    /// Bytes after the fields of the message.
    AdditionalData,
}

/// Returns the fields of an IPv4 packet and of the query in it.
pub(crate) fn headers4(packet: &[u8], body: &[u8]) -> Headers
    ensures { result ≡ spec.headers4_in packet.now body.now }
{
    let end = usize::from(byte_at(packet, 0) % 16) * 4;
    let header = &packet[..end.min(packet.len())];
    Headers {
        ttl: byte_at(header, 8),
        alert: has_router_alert_v4(&header[header.len().min(20)..]),
        precedence: byte_at(header, 1) / 32,
        is_sound: is_sound4(header),
        has_reserved_bits: byte_at(body, 8) > 15,
        has_additional_data: has_more(12, 4, body),
    }
}

/// Returns whether the checksum of an IPv4 header is right, or 0 as before the hardware writes it.
fn is_sound4(header: &[u8]) -> bool
    ensures { result ≡ spec.is_sound4 header.now }
{
    byte_at(header, 10) == 0 && byte_at(header, 11) == 0 || checksum_ok(header)
}

/// Returns whether bytes follow the sources of a query. Before the sources stand `fields` bytes, and a source has `size`.
pub(crate) fn has_more(fields: usize, size: usize, body: &[u8]) -> bool
    requires fields { 2 ≤ fields }
    requires few { fields ≤ 28 }
    requires small { size ≤ 16 }
    ensures { result ≡ spec.has_more fields size body.now }
{
    if body.len() < fields {
        return false;
    }
    let sources = usize::from(Endian::Big.word(body, fields - 2));
    fields + sources * size < body.len()
}

/// Returns a byte, or 0 after the end.
pub(crate) fn byte_at(bytes: &[u8], place: usize) -> u8
    ensures { result ≡ spec.byte_at bytes.now place }
{
    if place < bytes.len() { bytes[place] } else { 0 }
}

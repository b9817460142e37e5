//! The message of a frame.

ghost use Rattle.std.specs.Prelude.{◌≡◌, ◌+◌, ◌≤◌, ◌<◌, length, slice_range};
ghost use Rattle.std.specs.Int.{w32, w128, from_be_bytes};
ghost use Rattle.mq_pcap.specs.Frame.{carried_of, carried_in, in_type, in_ethernet, in_raw_ip, in_ipv4, in_ipv6, behind_options, mld_in};

use crate::form::Endian;
use crate::ip_options::has_router_alert_v4;
use crate::link_type::LinkType;
use crate::options::has_router_alert;
use mq_count::{Addr4, Addr6};

/// The content of a frame.
#[derive(Clone, Copy)]
pub enum Inner<'a> {
    /// An IGMP message.
    Igmp {
        /// The source of its IPv4 packet.
        source: Addr4,
        /// The packet's destination.
        destination: Addr4,
        /// The packet's time to live; IGMP messages have 1.
        ttl: u8,
        /// The presence of Router Alert in the header (type 148).
        alert: bool,
        /// The message, without the IP header and without padding.
        body: &'a [u8],
    },
    /// A message of ICMPv6, as MLD's are.
    Mld {
        /// The source of its IPv6 packet.
        source: Addr6,
        /// The packet's destination.
        destination: Addr6,
        /// The packet's hop limit; MLD messages have 1.
        hop_limit: u8,
        /// The presence of the Router Alert of MLD in a hop-by-hop header (type 5, two bytes, value 0).
        alert: bool,
        /// The message, without the headers and without padding.
        body: &'a [u8],
    },
    /// Something else, or an IP packet whose lengths contradict each other.
    Other,
    /// A frame that ends before its packet does.
    Cut,
    /// A fragment of a packet.
    Fragment,
}

/// The Ethernet types of a tag, of IPv4 and of IPv6.
const TAGGED: u16 = 0x8100;

const IPV4: u16 = 0x0800;

const IPV6: u16 = 0x86dd;

/// The protocol of IGMP in an IPv4 header, and the next headers of an IPv6 packet that are checked.
const IGMP: u8 = 2;

const HOP_BY_HOP: u8 = 0;

const FRAGMENT: u8 = 44;

const ICMPV6: u8 = 58;

/// Returns the content of a frame, in place.
#[inline(always)]
pub fn unwrap_frame(link: LinkType, frame: &[u8]) -> Inner<'_>
    ensures { carried_of result ≡ carried_in link frame.now }
{
    match link {
        LinkType::Ethernet => ethernet(frame),
        LinkType::RawIp => raw_ip(frame),
    }
}

#[inline(always)]
#[tactic(auto, unfolding(crate::specs::Frame::in_ethernet))]
fn ethernet(frame: &[u8]) -> Inner<'_>
    ensures { carried_of result ≡ in_ethernet frame.now }
{
    if frame.len() < 14 {
        return Inner::Cut;
    }
    let kind = Endian::Big.word(frame, 12);
    if kind != TAGGED {
        return by_type(kind, &frame[14..]);
    }
    if frame.len() < 18 {
        return Inner::Cut;
    }
    by_type(Endian::Big.word(frame, 16), &frame[18..])
}

/// Returns the content after an Ethernet header, by the type that it names.
#[inline(always)]
#[tactic(auto, unfolding(crate::specs::Frame::in_type))]
fn by_type(kind: u16, packet: &[u8]) -> Inner<'_>
    ensures { carried_of result ≡ in_type kind packet.now }
{
    match kind {
        IPV4 => ipv4(packet),
        IPV6 => ipv6(packet),
        _ => Inner::Other,
    }
}

#[tactic(auto, unfolding(crate::specs::Frame::in_raw_ip))]
fn raw_ip(packet: &[u8]) -> Inner<'_>
    ensures { carried_of result ≡ in_raw_ip packet.now }
{
    if packet.is_empty() {
        return Inner::Cut;
    }
    match packet[0] / 16 {
        4 => ipv4(packet),
        6 => ipv6(packet),
        _ => Inner::Other,
    }
}

#[inline(always)]
#[tactic(auto, unfolding(crate::specs::Frame::in_ipv4))]
fn ipv4(packet: &[u8]) -> Inner<'_>
    ensures { carried_of result ≡ in_ipv4 packet.now }
{
    if packet.len() < 20 {
        return Inner::Cut;
    }
    if packet[0] / 16 != 4 || packet[9] != IGMP {
        return Inner::Other;
    }
    let header = usize::from(packet[0] % 16) * 4;
    let total = usize::from(Endian::Big.word(packet, 2));
    if header < 20 || total < header {
        return Inner::Other;
    }
    let fragment = Endian::Big.word(packet, 6);
    if fragment / 0x2000 % 2 == 1 || fragment % 0x2000 != 0 {
        return Inner::Fragment;
    }
    if packet.len() < total {
        return Inner::Cut;
    }
    Inner::Igmp {
        source: address4(packet, 12),
        destination: address4(packet, 16),
        ttl: packet[8],
        alert: has_router_alert_v4(&packet[20..header]),
        body: &packet[header..total],
    }
}

#[inline(always)]
#[tactic(auto, unfolding(crate::specs::Frame::in_ipv6))]
fn ipv6(packet: &[u8]) -> Inner<'_>
    ensures { carried_of result ≡ in_ipv6 packet.now }
{
    if packet.len() < 40 {
        return Inner::Cut;
    }
    if packet[0] / 16 != 6 {
        return Inner::Other;
    }
    let next = packet[6];
    if next == FRAGMENT {
        return Inner::Fragment;
    }
    if next != HOP_BY_HOP && next != ICMPV6 {
        return Inner::Other;
    }
    let end = 40 + usize::from(Endian::Big.word(packet, 4));
    if packet.len() < end {
        return Inner::Cut;
    }
    let payload = &packet[40..end];
    if next == ICMPV6 {
        return mld(packet, false, payload);
    }
    hop_by_hop(packet, payload)
}

/// Returns the content after a hop-by-hop header.
#[inline(always)]
#[tactic(auto, unfolding(crate::specs::Frame::behind_options))]
fn hop_by_hop<'a>(packet: &'a [u8], payload: &'a [u8]) -> Inner<'a>
    requires { 40 ≤ length packet.now }
    ensures { carried_of result ≡ behind_options packet.now payload.now }
{
    if payload.len() < 8 {
        return Inner::Other;
    }
    let end = usize::from(payload[1]) * 8 + 8;
    if payload.len() < end {
        return Inner::Other;
    }
    match payload[0] {
        FRAGMENT => Inner::Fragment,
        ICMPV6 => mld(packet, has_router_alert(&payload[2..end]), &payload[end..]),
        _ => Inner::Other,
    }
}

/// Returns a message of ICMPv6 with fields of its packet's header.
#[inline(always)]
fn mld<'a>(packet: &'a [u8], alert: bool, body: &'a [u8]) -> Inner<'a>
    requires { 40 ≤ length packet.now }
    ensures { carried_of result ≡ mld_in packet.now alert body.now }
{
    Inner::Mld {
        source: address6(packet, 8),
        destination: address6(packet, 24),
        hop_limit: packet[7],
        alert,
        body,
    }
}

fn address4(bytes: &[u8], place: usize) -> Addr4
    requires { place + 4 ≤ length bytes.now }
    ensures { result ≡ from_be_bytes w32 (slice_range bytes.now place (place + 4)) }
{
    let mut octets = [0; 4];
    octets.copy_from_slice(&bytes[place..place + 4]);
    Addr4::from_octets(octets)
}

fn address6(bytes: &[u8], place: usize) -> Addr6
    requires { place + 16 ≤ length bytes.now }
    ensures { result ≡ from_be_bytes w128 (slice_range bytes.now place (place + 16)) }
{
    let mut octets = [0; 16];
    octets.copy_from_slice(&bytes[place..place + 16]);
    Addr6::from_octets(octets)
}

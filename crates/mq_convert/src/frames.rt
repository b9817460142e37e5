//! Ethernet frames, built from the bytes that an interface captures.

ghost use Rattle.std.specs.Prelude.{◌≡◌, ◌≤◌, length};
ghost use Rattle.mq_convert.specs.Frames as spec;
ghost use Rattle.mq_convert.specs.Frames.{framed};

use mq_pcap::Endian;

/// An Ethernet frame.
#[derive(Clone, Copy)]
pub(crate) enum Frame<'a> {
    /// A frame whose type is known.
    Whole {
        /// The addresses of its destination and of its source.
        addresses: [u8; 12],
        /// Its type.
        kind: u16,
        /// Its payload.
        payload: &'a [u8],
    },
    /// The bytes of a frame that ends before its type is known.
    Cut(&'a [u8]),
}

const IPV4: u16 = 0x0800;

const IPV6: u16 = 0x86dd;

/// A type that no one reads.
const UNREAD: u16 = 0xffff;

/// Returns the frame of the bytes that an interface of this link type captured.
#[inline(always)]
#[tactic(auto, unfolding(crate::specs::Frames::frame_of))]
pub(crate) fn frame_of(link: u16, bytes: &[u8]) -> Frame<'_>
    ensures { framed result ≡ spec.frame_of link bytes.now }
{
    match link {
        1 => of_ethernet(bytes),
        101 | 12 | 14 => of_raw_ip(bytes),
        228 => without_addresses(IPV4, bytes),
        229 => without_addresses(IPV6, bytes),
        113 => of_cooked(bytes),
        276 => of_cooked_2(bytes),
        0 | 108 => of_loopback(bytes),
        _ => without_addresses(UNREAD, bytes),
    }
}

/// Returns whether packets of this link type are read.
pub(crate) fn is_read_link(link: u16) -> bool
    ensures { result ≡ spec.is_read_link link }
{
    matches!(link, 1 | 101 | 12 | 14 | 228 | 229 | 113 | 276 | 0 | 108)
}

fn without_addresses(kind: u16, payload: &[u8]) -> Frame<'_>
    ensures { framed result ≡ spec.Whole spec.no_addresses kind payload.now }
{
    Frame::Whole {
        addresses: [0; 12],
        kind,
        payload,
    }
}

#[inline(always)]
#[tactic(auto, unfolding(crate::specs::Frames::of_ethernet))]
fn of_ethernet(bytes: &[u8]) -> Frame<'_>
    ensures { framed result ≡ spec.of_ethernet bytes.now }
{
    if bytes.len() < 14 {
        return Frame::Cut(bytes);
    }
    let mut addresses = [0; 12];
    addresses.copy_from_slice(&bytes[0..12]);
    Frame::Whole {
        addresses,
        kind: Endian::Big.word(bytes, 12),
        payload: &bytes[14..],
    }
}

/// Returns the type of an IP packet, by its version.
#[tactic(auto, unfolding(crate::specs::Frames::ip_type))]
fn ip_type(packet: &[u8]) -> u16
    requires { 1 ≤ length packet.now }
    ensures { result ≡ spec.ip_type packet.now }
{
    match packet[0] / 16 {
        4 => IPV4,
        6 => IPV6,
        _ => UNREAD,
    }
}

#[tactic(auto, unfolding(crate::specs::Frames::of_raw_ip))]
fn of_raw_ip(packet: &[u8]) -> Frame<'_>
    ensures { framed result ≡ spec.of_raw_ip packet.now }
{
    if packet.is_empty() {
        return Frame::Cut(packet);
    }
    without_addresses(ip_type(packet), packet)
}

/// Returns the addresses of a packet: an unknown one, and the sender's if it has 6 bytes.
fn sent_by(size: u16, address: &[u8]) -> [u8; 12]
    requires { length address.now ≡ 6 }
    ensures { result ≡ spec.sent_by size address.now }
{
    let mut addresses = [0; 12];
    if size == 6 {
        addresses[6..12].copy_from_slice(address);
    }
    addresses
}

#[tactic(auto, unfolding(crate::specs::Frames::of_cooked))]
fn of_cooked(bytes: &[u8]) -> Frame<'_>
    ensures { framed result ≡ spec.of_cooked bytes.now }
{
    if bytes.len() < 16 {
        return Frame::Cut(bytes);
    }
    Frame::Whole {
        addresses: sent_by(Endian::Big.word(bytes, 4), &bytes[6..12]),
        kind: Endian::Big.word(bytes, 14),
        payload: &bytes[16..],
    }
}

#[tactic(auto, unfolding(crate::specs::Frames::of_cooked_2))]
fn of_cooked_2(bytes: &[u8]) -> Frame<'_>
    ensures { framed result ≡ spec.of_cooked_2 bytes.now }
{
    if bytes.len() < 20 {
        return Frame::Cut(bytes);
    }
    Frame::Whole {
        addresses: sent_by(u16::from(bytes[11]), &bytes[12..18]),
        kind: Endian::Big.word(bytes, 0),
        payload: &bytes[20..],
    }
}

/// Returns the type of a packet, by its family.
#[tactic(auto, unfolding(crate::specs::Frames::family_type))]
fn family_type(family: u32) -> u16
    ensures { result ≡ spec.family_type family }
{
    match family {
        2 => IPV4,
        10 | 24 | 28 | 30 => IPV6,
        _ => UNREAD,
    }
}

#[tactic(auto, unfolding(crate::specs::Frames::of_loopback))]
fn of_loopback(bytes: &[u8]) -> Frame<'_>
    ensures { framed result ≡ spec.of_loopback bytes.now }
{
    if bytes.len() < 4 {
        return Frame::Cut(bytes);
    }
    let (big, little) = (
        Endian::Big.double_word(bytes, 0),
        Endian::Little.double_word(bytes, 0),
    );
    without_addresses(family_type(big.min(little)), &bytes[4..])
}

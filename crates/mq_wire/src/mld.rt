//! The messages of MLD.

ghost use Rattle.std.specs.Prelude.{◌≡◌, ◌≤◌, ◌↔◌, ℕ, length, refl};
ghost use Rattle.mq_wire.specs.Canon.{canon as canon_of, mld_destination, IsCurrent, source_count, Writes};
ghost use Rattle.mq_wire.specs.Canon as canon;
ghost use Rattle.mq_wire.specs.Family.{Mld};
ghost use Rattle.mq_wire.specs.PseudoHeader as spec;
ghost use Rattle.mq_wire.specs.Spelling.{Spells, fault_of};
ghost use Rattle.mq_wire.specs.declared.message.Message.{Message as MessageOf};
ghost use Rattle.mq_wire.specs.declared.message.WireFault.{WireFault as Fault};

use crate::codes::{code16, resp16};
use crate::family::FamilyKey;
use crate::fields::{fields_end, number_at};
use crate::message::{Message, MessageType, WireFault};
use crate::query::{Query, QueryVersion};
use crate::reading::read;
use crate::writing::{Small, query_length, write_query};
use mq_count::{Addr6, OlderVersion};

/// The type of a query (RFC 2710 section 3.1).
const QUERY: u8 = 130;

/// The type of a version 1 Report (RFC 2710 section 3.1).
const V1_REPORT: u8 = 131;

/// The type of a version 1 Done (RFC 2710 section 3.1).
const DONE: u8 = 132;

/// The type of a version 2 Report (RFC 3810 section 5.2).
const V2_REPORT: u8 = 143;

/// The place of the response in a query.
const RESPONSE: usize = 4;

/// The next header of ICMPv6, which includes the messages of MLD (RFC 3810 section 5).
const ICMP_V6: u8 = 58;

/// All nodes of a link, ff02::1.
const ALL_NODES: [u8; 16] = [0xff, 2, 0, 0, 0, 0, 0, 0, 0, 0, 0, 0, 0, 0, 0, 1];

/// Parses an MLD datagram without its IPv6 header. Returns the message or the first fault. The checksum covers a
/// pseudo-header with the datagram's source and destination. Bytes after the last field are ignored, but the checksum
/// covers them.
pub fn read_mld(
    source: Addr6,
    destination: Addr6,
    bytes: &[u8],
) -> Result<Message<'_, Addr6>, WireFault>
    ensures message { (message : MessageOf ℕ) → (result ≡ Ok message) ↔
        Spells Mld (spec.pseudo_header source destination (length bytes.entry.now)) bytes.entry.now message }
    ensures fault { (fault : Fault) → (result ≡ Err fault) ↔
        (fault_of Mld (spec.pseudo_header source destination (length bytes.entry.now)) bytes.entry.now ≡ Some fault) }
{
    read(&pseudo_header(source, destination, bytes.len()), bytes)
}

/// Returns the pseudo-header that the checksum covers (RFC 3810 section 5.2.2).
fn pseudo_header(source: Addr6, destination: Addr6, length: usize) -> [u8; 40]
    ensures { result ≡ spec.pseudo_header source destination length }
{
    let mut header = [0; 40];
    header[..16].copy_from_slice(&source.octets());
    header[16..32].copy_from_slice(&destination.octets());
    let low = (length % (1 << 32)) as u32;
    header[32..36].copy_from_slice(&low.to_be_bytes());
    header[36..].copy_from_slice(&[0, 0, 0, ICMP_V6]);
    header
}

/// Writes a query of MLDv2 from the router at `source` at the front of `out`, and returns its length. The response is
/// lowered to a value of a code in milliseconds, and the interval to one in seconds. The checksum covers a
/// pseudo-header with that source and with the group as destination, or ff02::1 if the group is zero. The rest of `out`
/// does not change. The query has version 2 and at most 65535 sources.
pub fn write_mld(source: Addr6, query: &Query<'_, Addr6>, out: &mut [u8]) -> Result<usize, Small>
    requires version { IsCurrent query.now.version }
    requires counted { source_count query.now.version ≤ 65535 }
    ensures { Writes (canon_of Mld source query.now) out.old out.new result }
{
    let QueryVersion::Current(fields) = &query.version else {
        return Ok(0);
    };
    let first = first_bytes(query.response);
    let length = query_length(&first, fields);
    let pseudo = pseudo_header(source, destination(query.group), length);
    write_query(&first, query.group, fields, &pseudo, out)
}

/// Returns the bytes before the group of a query.
fn first_bytes(response: u32) -> [u8; 8]
    ensures { result ≡ canon.first_bytes Mld response }
{
    let [high, low] = code16(response).to_be_bytes();
    [QUERY, 0, 0, 0, high, low, 0, 0]
}

/// Returns the destination of a query for the group (RFC 3810 section 5.1.15).
fn destination(group: Addr6) -> Addr6
    ensures { result ≡ mld_destination group }
{
    if group.is_unspecified() {
        Addr6::from_octets(ALL_NODES)
    } else {
        group
    }
}

impl FamilyKey for Addr6 {
    ghost FAMILY = { Mld };

    ghost GROUP = { 8 };

    const GROUP: usize = 8;

    ghost GROUP_END = { 24 };

    const GROUP_END: usize = 24;

    fn type_of(code: u8) -> Option<MessageType> {
        match code {
            QUERY => Some(MessageType::Query),
            V1_REPORT => Some(MessageType::OlderReport(OlderVersion::V1)),
            DONE => Some(MessageType::Leave),
            V2_REPORT => Some(MessageType::Report),
            _ => None,
        }
    }

    fn older_end(bytes: &[u8]) -> Result<usize, WireFault> {
        fields_end(bytes, 0, &[1, 1, 2, 2, 2, 16])
    }

    fn older_version(_bytes: &[u8]) -> OlderVersion {
        OlderVersion::V1
    }

    fn older_response(bytes: &[u8]) -> u32 {
        u32::from(number_at(bytes, RESPONSE))
    }

    fn current_response(bytes: &[u8]) -> u32 {
        resp16(number_at(bytes, RESPONSE))
    }

    ghost widths = { refl };

    ghost begins = { refl };

    ghost ends = { refl };
}

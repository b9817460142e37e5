//! The messages of IGMP.

ghost use Rattle.std.specs.Prelude.{◌≡◌, ◌≤◌, ◌↔◌, ℕ, [], length, refl};
ghost use Rattle.mq_wire.specs.Canon.{canon, IsCurrent, source_count, Writes};
ghost use Rattle.mq_wire.specs.Family.{Igmp};
ghost use Rattle.mq_wire.specs.Spelling.{Spells, fault_of};
ghost use Rattle.mq_wire.specs.declared.message.Message.{Message as MessageOf};
ghost use Rattle.mq_wire.specs.declared.message.WireFault.{WireFault as Fault};

use crate::codes::{code8, resp8};
use crate::family::FamilyKey;
use crate::fields::fields_end;
use crate::message::{Message, MessageType, WireFault};
use crate::query::{Query, QueryVersion};
use crate::reading::read;
use crate::writing::{Small, write_query};
use mq_count::{Addr4, OlderVersion};

/// The type of a query (RFC 2236 section 2.1).
const QUERY: u8 = 0x11;

/// The type of a version 1 Report (RFC 1112 appendix I).
const V1_REPORT: u8 = 0x12;

/// The type of a version 2 Report (RFC 2236 section 2.1).
const V2_REPORT: u8 = 0x16;

/// The type of a version 2 Leave (RFC 2236 section 2.1).
const LEAVE: u8 = 0x17;

/// The type of a version 3 Report (RFC 3376 section 4).
const V3_REPORT: u8 = 0x22;

/// The milliseconds of a unit of the response code (RFC 3376 section 4.1.1).
const TENTH: u32 = 100;

/// Parses an IGMP datagram without its IP header. Returns the message or the first fault. Bytes after the last field
/// are ignored, but the checksum covers them.
pub fn read_igmp(bytes: &[u8]) -> Result<Message<'_, Addr4>, WireFault>
    ensures message { (message : MessageOf ℕ) → (result ≡ Ok message) ↔ Spells Igmp [] bytes.entry.now message }
    ensures fault { (fault : Fault) → (result ≡ Err fault) ↔ (fault_of Igmp [] bytes.entry.now ≡ Some fault) }
{
    read(&[], bytes)
}

/// Writes a query of IGMPv3 at the front of `out` and returns its length. The response is lowered to a whole tenth of a
/// second that a code has, and the interval to a value of a code in seconds. The rest of `out` does not change. The
/// query has version 3 and at most 65535 sources.
pub fn write_igmp(query: &Query<'_, Addr4>, out: &mut [u8]) -> Result<usize, Small>
    requires version { IsCurrent query.now.version }
    requires counted { source_count query.now.version ≤ 65535 }
    ensures { Writes (canon Igmp 0 query.now) out.old out.new result }
{
    let QueryVersion::Current(fields) = &query.version else {
        return Ok(0);
    };
    let head = [QUERY, code8(query.response / TENTH), 0, 0];
    write_query(&head, query.group, fields, &[], out)
}

impl FamilyKey for Addr4 {
    ghost FAMILY = { Igmp };

    ghost GROUP = { 4 };

    const GROUP: usize = 4;

    ghost GROUP_END = { 8 };

    const GROUP_END: usize = 8;

    fn type_of(code: u8) -> Option<MessageType> {
        match code {
            QUERY => Some(MessageType::Query),
            V1_REPORT => Some(MessageType::OlderReport(OlderVersion::V1)),
            V2_REPORT => Some(MessageType::OlderReport(OlderVersion::V2)),
            LEAVE => Some(MessageType::Leave),
            V3_REPORT => Some(MessageType::Report),
            _ => None,
        }
    }

    fn older_end(bytes: &[u8]) -> Result<usize, WireFault> {
        fields_end(bytes, 0, &[1, 1, 2, 4])
    }

    /// Returns the version: version 1 has a code of 0 (RFC 3376 section 7.1).
    fn older_version(bytes: &[u8]) -> OlderVersion {
        if bytes[1] == 0 {
            OlderVersion::V1
        } else {
            OlderVersion::V2
        }
    }

    fn older_response(bytes: &[u8]) -> u32 {
        u32::from(bytes[1]) * TENTH
    }

    fn current_response(bytes: &[u8]) -> u32 {
        resp8(bytes[1]) * TENTH
    }

    ghost widths = { refl };

    ghost begins = { refl };

    ghost ends = { refl };
}

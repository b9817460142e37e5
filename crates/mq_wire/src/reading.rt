//! Parsing of messages of either family.

ghost use Rattle.std.specs.Prelude.{◌≡◌, ◌%◌, length};
ghost use Rattle.mq_wire.specs.Spelling.{ReadsAs, ReadsWithin, ReadsQuery, ReadsGroup, ReadsReport, LengthSays};

use crate::checksum::is_right_behind;
use crate::family::FamilyKey;
use crate::fields::{fields_end, number_at};
use crate::message::{Message, MessageType, WireFault};
use crate::query::{FLAGS_TO_COUNT, Query, QueryVersion, fields_at};
use crate::records::Records;

/// The place of the number of records in a Report.
const RECORD_COUNT: usize = 6;

/// Parses a message by tests in order. Returns the message or the first fault. The checksum covers `pseudo` before the
/// bytes.
pub(crate) fn read<'a, K: FamilyKey>(
    pseudo: &[u8],
    bytes: &'a [u8],
) -> Result<Message<'a, K>, WireFault>
    requires { length pseudo.now % 2 ≡ 0 }
    ensures { ReadsAs K.number K.FAMILY pseudo.now bytes.entry.now result }
{
    fields_end(bytes, 0, &[1, 1, 2])?;
    if !is_right_behind(pseudo, bytes) {
        return Err(WireFault::Checksum);
    }
    match K::type_of(bytes[0]) {
        Some(kind) => read_within(kind, bytes),
        None => Err(WireFault::UnknownType),
    }
}

/// Parses bytes of a listed type with a right checksum.
fn read_within<K: FamilyKey>(kind: MessageType, bytes: &[u8]) -> Result<Message<'_, K>, WireFault>
    ensures { ReadsWithin K.number K.FAMILY kind bytes.entry.now result }
{
    match kind {
        MessageType::Query => Ok(Message::Query(query(bytes)?)),
        MessageType::OlderReport(version) => Ok(Message::OldReport(version, group(bytes)?)),
        MessageType::Leave => Ok(Message::Leave(group(bytes)?)),
        MessageType::Report => Ok(Message::Report(report(bytes)?)),
    }
}

/// Returns the group of an older Report, a Leave or a Done.
fn group<K: FamilyKey>(bytes: &[u8]) -> Result<K, WireFault>
    ensures { ReadsGroup K.number K.FAMILY bytes.now result }
{
    K::older_end(bytes)?;
    Ok(K::read(&bytes[K::GROUP..]))
}

/// Parses a query of any version.
fn query<K: FamilyKey>(bytes: &[u8]) -> Result<Query<'_, K>, WireFault>
    ensures { ReadsQuery K.number K.FAMILY bytes.entry.now result }
{
    let is_older = is_older::<K>(bytes.len())?;
    let group = K::read(&bytes[K::GROUP..]);
    if is_older {
        return Ok(Query {
            group,
            response: K::older_response(bytes),
            version: QueryVersion::Older(K::older_version(bytes)),
        });
    }
    let fields = fields_at(bytes, K::GROUP_END)?;
    Ok(Query {
        group,
        response: K::current_response(bytes),
        version: QueryVersion::Current(fields),
    })
}

/// Returns whether a query of this length has an older version. Fails if no version has the length.
fn is_older<K: FamilyKey>(length: usize) -> Result<bool, WireFault>
    ensures { LengthSays K.FAMILY length result }
{
    if length == K::GROUP_END {
        return Ok(true);
    }
    if length < K::GROUP_END + FLAGS_TO_COUNT {
        return Err(WireFault::QueryLength);
    }
    Ok(false)
}

/// Returns the records of a Report of IGMPv3 or MLDv2.
fn report<K: FamilyKey>(bytes: &[u8]) -> Result<Records<'_, K>, WireFault>
    ensures { ReadsReport K.FAMILY bytes.entry.now result }
{
    let first = fields_end(bytes, 0, &[1, 1, 2, 2, 2])?;
    Records::read_at(number_at(bytes, RECORD_COUNT), first, bytes)
}

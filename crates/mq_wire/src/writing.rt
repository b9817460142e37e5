//! Writing of queries of IGMPv3 and MLDv2 in canonical form (RFC 3376 section 4.1, RFC 3810 section 5.1).

ghost use Rattle.std.specs.Prelude.{◌≡◌, ◌≤◌, ◌+◌, ◌*◌, ◌%◌, ◌++◌, length, drop};
ghost use Rattle.std.specs.List.{flat_map};
ghost use Rattle.byteorder.specs.Endian.{big_bytes};
ghost use Rattle.mq_wire.specs.Canon.{flags_byte, fields_bytes, with_checksum, Writes};

use crate::checksum::checksum_behind;
use crate::codes::code8;
use crate::query::{FLAGS_TO_COUNT, QuerierFields};
use crate::sources::Sources;
use crate::wire_key::WireKey;
use byteorder::{BigEndian, ByteOrder};

/// The place of the checksum in a message.
const CHECKSUM: usize = 2;

/// The error of too few bytes for a query.
#[derive(Clone, Copy, PartialEq, Eq)]
pub struct Small {
    /// The length of the query.
    pub needed: usize,
}

/// Writes a query after these first bytes, with the checksum that also covers `pseudo`.
pub(crate) fn write_query<K: WireKey>(
    head: &[u8],
    group: K,
    fields: &QuerierFields<'_, K>,
    pseudo: &[u8],
    out: &mut [u8],
) -> Result<usize, Small>
    requires header { 4 ≤ length head.now }
    requires short { length head.now ≤ 8 }
    requires even { length pseudo.now % 2 ≡ 0 }
    requires counted { length fields.now.sources ≤ 65535 }
    ensures { Writes (with_checksum pseudo.now (head.now ++ big_bytes K.WIDTH (K.number group) ++ fields_bytes K.WIDTH fields.now)) out.old out.new result }
{
    let needed = query_length(head, fields);
    if out.len() < needed {
        return Err(Small { needed });
    }
    let message = &mut out[..needed];
    write_without_checksum(head, group, fields, message);
    write_checksum(pseudo, message);
    Ok(needed)
}

/// Returns the length of a query with these first bytes.
pub(crate) fn query_length<K: WireKey>(head: &[u8], fields: &QuerierFields<'_, K>) -> usize
    requires short { length head.now ≤ 8 }
    requires counted { length fields.now.sources ≤ 65535 }
    ensures { result ≡ length head.now + K.WIDTH + 4 + length fields.now.sources * K.WIDTH }
{
    head.len() + K::WIDTH + FLAGS_TO_COUNT + fields.sources.len() * K::WIDTH
}

/// Writes a query with a checksum of 0 after these first bytes.
fn write_without_checksum<K: WireKey>(
    head: &[u8],
    group: K,
    fields: &QuerierFields<'_, K>,
    out: &mut [u8],
)
    requires counted { length fields.now.sources ≤ 65535 }
    requires room { length head.now + K.WIDTH + 4 + length fields.now.sources * K.WIDTH ≡ length out.old }
    ensures { out.new ≡ head.now ++ big_bytes K.WIDTH (K.number group) ++ fields_bytes K.WIDTH fields.now }
{
    let group_end = write_group(head, group, out);
    write_fields(fields, &mut out[group_end..]);
}

/// Writes the group after these first bytes, and returns the length of both.
fn write_group<K: WireKey>(head: &[u8], group: K, out: &mut [u8]) -> usize
    requires { length head.now + K.WIDTH ≤ length out.old }
    ensures end { result ≡ length head.now + K.WIDTH }
    ensures text { out.new ≡ head.now ++ big_bytes K.WIDTH (K.number group) ++ drop result out.old }
{
    out[..head.len()].copy_from_slice(head);
    group.write(&mut out[head.len()..]);
    head.len() + K::WIDTH
}

/// Writes each source at the front.
fn write_sources<K: WireKey>(sources: Sources<'_, K>, out: &mut [u8])
    requires { length sources * K.WIDTH ≤ length out.old }
    ensures { out.new ≡ flat_map (big_bytes K.WIDTH) sources.entry ++ drop (length sources.entry * K.WIDTH) out.old }
{
    let mut place = 0;
    for source in sources {
        source.write(&mut out[place..]);
        place += K::WIDTH;
    }
}

/// Returns the byte of the S flag and the robustness variable.
fn flags<K: WireKey>(fields: &QuerierFields<'_, K>) -> u8
    ensures { result ≡ flags_byte fields.now.suppress fields.now.robustness }
{
    let robustness = fields.robustness.get();
    if fields.suppress {
        8 + robustness
    } else {
        robustness
    }
}

/// Writes the rest of a query after its group, at the front.
fn write_fields<K: WireKey>(fields: &QuerierFields<'_, K>, out: &mut [u8])
    requires room { 4 + length fields.now.sources * K.WIDTH ≤ length out.old }
    requires counted { length fields.now.sources ≤ 65535 }
    ensures { out.new ≡ fields_bytes K.WIDTH fields.now ++ drop (4 + length fields.now.sources * K.WIDTH) out.old }
{
    out[0] = flags(fields);
    out[1] = code8(fields.interval);
    BigEndian::write_u16(&mut out[2..], fields.sources.len() as u16);
    write_sources(fields.sources.iter(), &mut out[FLAGS_TO_COUNT..]);
}

/// Writes the checksum that also covers `pseudo` into the message's field.
fn write_checksum(pseudo: &[u8], message: &mut [u8])
    requires header { 4 ≤ length message.old }
    requires even { length pseudo.now % 2 ≡ 0 }
    ensures { message.new ≡ with_checksum pseudo.now message.old }
{
    let checksum = checksum_behind(pseudo, message);
    BigEndian::write_u16(&mut message[CHECKSUM..], checksum);
}

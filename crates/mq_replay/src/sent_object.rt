//! The object of a query that a link sends.

ghost use Rattle.std.specs.Prelude.{◌≡◌, ◌≤◌, ◌+◌, ◌++◌, ◌||◌, is_err};
ghost use Rattle.arrayvec.specs.ArrayVec.{array_vec_len};
ghost use Rattle.mq_count.specs.Streams.{inner_of, has_failed};
ghost use Rattle.mq_wire.specs.Numbered.{numbered_query, numbered_version};
ghost use Rattle.mq_wire.specs.RoundTrip.{interval_lowered, response_lowered};
ghost use Rattle.mq_text.specs.Printing.{Puts};
ghost use Rattle.mq_replay.specs.ReplayObjects as spec;

use crate::hexadecimal::put_hexadecimal;
use crate::replay_objects::put_event;
use mq_count::{Moment, Watched};
use mq_lines::{LineKey, put_address_object, put_end, put_message};
use mq_text::{LineFault, Text, make_room, put};
use mq_wire::{Message, QuerierFields, Query, QueryVersion, code8, code16, resp8, resp16};
use std::io::Write;

/// Puts the object of a query: its destination, its bytes, and what they say.
pub(crate) fn put_send_object<K: LineKey, W: Write>(
    moment: Moment,
    to: K,
    query: &Query<'_, K>,
    bytes: &[u8],
    buffer: &mut Text,
    writer: &mut Watched<W>,
) -> Result<(), LineFault>
    ensures text { Puts
        (W.contents (inner_of writer.old)) (W.contents (inner_of writer.new))
        buffer.old.items buffer.new.items (spec.send_object K.family moment (record { to = K.number to; query = numbered_query K.number query.now; bytes = bytes.now })) result }
    ensures failed { has_failed writer.new ≡ has_failed writer.old || is_err result }
{
    make_room(buffer, writer)?;
    put_send_start(buffer, moment, to);
    put_hexadecimal(bytes, buffer, writer)?;
    put_said(query, buffer, writer)?;
    put_end(b"}\n", buffer, writer)
}

/// Puts the object of a query up to its bytes at the end.
#[tactic(auto, unfolding(crate::specs::ReplayObjects::send_start))]
fn put_send_start<K: LineKey>(buffer: &mut Text, moment: Moment, to: K)
    requires { array_vec_len buffer.old + 120 ≤ 4096 }
    ensures { buffer.new.items ≡ buffer.old.items ++ spec.send_start K.family moment (K.number to) }
{
    put_event(buffer, moment, b"send");
    put(buffer, b",\"destination\":");
    put_address_object(buffer, to);
    put(buffer, b",\"hex\":\"");
}

/// Puts what the bytes of a query say.
fn put_said<K: LineKey, W: Write>(
    query: &Query<'_, K>,
    buffer: &mut Text,
    writer: &mut Watched<W>,
) -> Result<(), LineFault>
    ensures text { Puts
        (W.contents (inner_of writer.old)) (W.contents (inner_of writer.new))
        buffer.old.items buffer.new.items (spec.said_field K.family (numbered_query K.number query.now)) result }
    ensures failed { has_failed writer.new ≡ has_failed writer.old || is_err result }
{
    make_room(buffer, writer)?;
    put(buffer, b"\",\"message\":");
    put_message(true, Message::Query(query_said(query)), buffer, writer)
}

/// Returns a query with the times that its codes say.
fn query_said<'a, K: LineKey>(query: &Query<'a, K>) -> Query<'a, K>
    ensures { numbered_query K.number result ≡ spec.query_said K.family (numbered_query K.number query.now) }
{
    Query {
        group: query.group,
        response: response_said::<K>(query.response),
        version: version_said(&query.version),
    }
}

/// Returns a response in milliseconds as its code says it.
fn response_said<K: LineKey>(response: u32) -> u32
    ensures { result ≡ response_lowered K.family response }
{
    if K::current_version() == 3 {
        return resp8(code8(response / 100)) * 100;
    }
    resp16(code16(response))
}

/// Returns the fields of a version with the interval that its code says.
fn version_said<'a, K: LineKey>(version: &QueryVersion<'a, K>) -> QueryVersion<'a, K>
    ensures { numbered_version result ≡ spec.version_said (numbered_version version.now) }
{
    match version {
        QueryVersion::Older(version) => QueryVersion::Older(*version),
        QueryVersion::Current(fields) => QueryVersion::Current(QuerierFields {
            suppress: fields.suppress,
            robustness: fields.robustness,
            interval: resp8(code8(fields.interval)),
            sources: fields.sources.iter(),
        }),
    }
}

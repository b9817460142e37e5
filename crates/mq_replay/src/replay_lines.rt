//! The events of a replay, as lines or as objects of JSON.

ghost use Rattle.std.specs.Prelude.{◌≡◌, ◌||◌, is_err};
ghost use Rattle.mq_count.specs.Streams.{inner_of, has_failed};
ghost use Rattle.mq_pcap.specs.Frame.{carried_of};
ghost use Rattle.mq_text.specs.Printing.{Puts};
ghost use Rattle.mq_wire.specs.Numbered.{numbered_query};
ghost use Rattle.mq_replay.specs.Events.{Receives, Sends, event_in, in_form};
ghost use Rattle.mq_replay.specs.ReplayLines.{counts_line, end_line, query_line, skip_line};
ghost use Rattle.mq_replay.specs.ReplayObjects.{counts_object, end_object, skip_object};

use crate::hexadecimal::put_hexadecimal;
use crate::replay_objects::{
    put_counts_object, put_receipt_object, put_role_object, put_skip_object,
};
use crate::replay_pieces::{
    put_counts_line, put_query_start, put_receipt_line, put_role_line, put_skip_line,
};
use crate::sent_object::put_send_object;
use mq_count::{Moment, Watched};
use mq_lines::{LineKey, put_end};
use mq_link::{Counts, Received};
use mq_pcap::Inner;
use mq_text::{LineFault, Text, make_room};
use mq_wire::Query;
use std::io::Write;

/// Puts a query that is sent at a moment: its destination, its bytes, and in an object what they say.
pub(crate) fn put_query<K: LineKey, W: Write>(
    json: bool,
    moment: Moment,
    to: K,
    query: &Query<'_, K>,
    bytes: &[u8],
    buffer: &mut Text,
    writer: &mut Watched<W>,
) -> Result<(), LineFault>
    ensures text { Puts
        (W.contents (inner_of writer.old)) (W.contents (inner_of writer.new))
        buffer.old.items buffer.new.items (event_in json K.family moment (Sends (record { to = K.number to; query = numbered_query K.number query.now; bytes = bytes.now }))) result }
    ensures failed { has_failed writer.new ≡ has_failed writer.old || is_err result }
{
    if json {
        return put_send_object(moment, to, query, bytes, buffer, writer);
    }
    put_query_line(moment, to, bytes, buffer, writer)
}

/// Puts the line of a query.
fn put_query_line<K: LineKey, W: Write>(
    moment: Moment,
    to: K,
    bytes: &[u8],
    buffer: &mut Text,
    writer: &mut Watched<W>,
) -> Result<(), LineFault>
    ensures text { Puts
        (W.contents (inner_of writer.old)) (W.contents (inner_of writer.new))
        buffer.old.items buffer.new.items (query_line K.family moment (K.number to) bytes.now) result }
    ensures failed { has_failed writer.new ≡ has_failed writer.old || is_err result }
{
    make_room(buffer, writer)?;
    put_query_start(buffer, moment, to);
    put_hexadecimal(bytes, buffer, writer)?;
    put_end(b"\n", buffer, writer)
}

/// Puts a datagram that the link received at a moment: its number, its source, and the link's answer.
pub(crate) fn put_receipt<K: LineKey, W: Write>(
    json: bool,
    moment: Moment,
    number: u64,
    source: K,
    answer: Received,
    buffer: &mut Text,
    writer: &mut Watched<W>,
) -> Result<(), LineFault>
    ensures text { Puts
        (W.contents (inner_of writer.old)) (W.contents (inner_of writer.new))
        buffer.old.items buffer.new.items (event_in json K.family moment (Receives number (K.number source) answer)) result }
    ensures failed { has_failed writer.new ≡ has_failed writer.old || is_err result }
{
    make_room(buffer, writer)?;
    if json {
        put_receipt_object(buffer, moment, number, source, answer);
        return Ok(());
    }
    put_receipt_line(buffer, moment, number, source, answer);
    Ok(())
}

/// Puts a packet that isn't for the link. A packet with a message is of the other family.
pub(crate) fn put_skip<W: Write>(
    json: bool,
    moment: Moment,
    number: u64,
    inner: &Inner<'_>,
    buffer: &mut Text,
    writer: &mut Watched<W>,
) -> Result<(), LineFault>
    ensures text { Puts
        (W.contents (inner_of writer.old)) (W.contents (inner_of writer.new))
        buffer.old.items buffer.new.items (in_form json (skip_line moment number (carried_of inner.now)) (skip_object moment number (carried_of inner.now))) result }
    ensures failed { has_failed writer.new ≡ has_failed writer.old || is_err result }
{
    make_room(buffer, writer)?;
    if json {
        put_skip_object(buffer, moment, number, inner);
        return Ok(());
    }
    put_skip_line(buffer, moment, number, inner);
    Ok(())
}

/// Puts the moment of the end of a replay, and whether the router is querier then.
pub(crate) fn put_role<W: Write>(
    json: bool,
    moment: Moment,
    is_querier: bool,
    buffer: &mut Text,
    writer: &mut Watched<W>,
) -> Result<(), LineFault>
    ensures text { Puts
        (W.contents (inner_of writer.old)) (W.contents (inner_of writer.new))
        buffer.old.items buffer.new.items (in_form json (end_line moment is_querier) (end_object moment is_querier)) result }
    ensures failed { has_failed writer.new ≡ has_failed writer.old || is_err result }
{
    make_room(buffer, writer)?;
    if json {
        put_role_object(buffer, moment, is_querier);
        return Ok(());
    }
    put_role_line(buffer, moment, is_querier);
    Ok(())
}

/// Puts the counters.
pub(crate) fn put_counts<W: Write>(
    json: bool,
    counts: &Counts,
    buffer: &mut Text,
    writer: &mut Watched<W>,
) -> Result<(), LineFault>
    ensures text { Puts
        (W.contents (inner_of writer.old)) (W.contents (inner_of writer.new))
        buffer.old.items buffer.new.items (in_form json (counts_line counts.now) (counts_object counts.now)) result }
    ensures failed { has_failed writer.new ≡ has_failed writer.old || is_err result }
{
    make_room(buffer, writer)?;
    if json {
        put_counts_object(buffer, counts);
        return Ok(());
    }
    put_counts_line(buffer, counts);
    Ok(())
}

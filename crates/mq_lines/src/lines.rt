//! Lines of messages, as text or as objects of JSON.

ghost use Rattle.std.specs.Prelude.{◌≡◌, ◌≤◌, ◌||◌, [], IfOk, codes, is_err, is_ok, length};
ghost use Rattle.mq_wire.specs.Family.{Igmp, Mld};
ghost use Rattle.mq_wire.specs.Numbered.{numbered_message, numbered_record, numbered_version};
ghost use Rattle.mq_wire.specs.PseudoHeader.{pseudo_header};
ghost use Rattle.mq_text.specs.Printing.{Puts};
ghost use Rattle.mq_lines.specs.Line.{AnswersBy, PrintsLineIn, PutsText};
ghost use Rattle.mq_lines.specs.Messages.{answer_in, message_in, record_item, record_items, source_items};
ghost use Rattle.mq_lines.specs.Numbered.{numbered_answer};
ghost use Rattle.mq_lines.specs.Text.{query_sources};

use crate::line_key::LineKey;
use crate::object_pieces::either;
use crate::pieces::{
    put_fault, put_leave, put_older_report, put_query_start, put_record_start, put_report_start,
    put_source, query_end,
};
use mq_count::Addr6;
use mq_text::{LineFault, Output, Text, flush, make_room, put};
use mq_wire::{
    Message, QueryVersion, RecordView, Records, Sources, WireFault, read_igmp, read_mld,
};

/// Writes the line of an IGMP datagram without its IP header, as text or as an object of JSON. Returns true for the line
/// of a message, and false for the line of its fault. If a write fails, a prefix of the line has been written. The line
/// is written in pieces, without allocation.
pub fn igmp_line<O: Output>(json: bool, body: &[u8], writer: &mut O) -> Result<bool, LineFault>
    ensures line { PrintsLineIn json
        (O.held writer.old) (O.held writer.new)
        Igmp [] body.now result }
    ensures failed { O.failed writer.new ≡ O.failed writer.old || is_err result }
    ensures same_loan { O.loan writer.new ≡ O.loan writer.old }
{
    let mut buffer = Text::new();
    let is_message = put_igmp(json, body, &mut buffer, writer)?;
    end_line(&mut buffer, writer)?;
    Ok(is_message)
}

/// Writes the line of an MLD datagram without its IPv6 header, as `igmp_line` does. The checksum covers the source and
/// the destination of the datagram.
pub fn mld_line<O: Output>(
    json: bool,
    source: Addr6,
    destination: Addr6,
    body: &[u8],
    writer: &mut O,
) -> Result<bool, LineFault>
    ensures line { PrintsLineIn json
        (O.held writer.old) (O.held writer.new)
        Mld (pseudo_header source destination (length body.now)) body.now result }
    ensures failed { O.failed writer.new ≡ O.failed writer.old || is_err result }
    ensures same_loan { O.loan writer.new ≡ O.loan writer.old }
{
    let mut buffer = Text::new();
    let is_message = put_mld(json, source, destination, body, &mut buffer, writer)?;
    end_line(&mut buffer, writer)?;
    Ok(is_message)
}

/// Puts the end of a line, and writes all that the buffer holds.
fn end_line<O: Output>(buffer: &mut Text, writer: &mut O) -> Result<(), LineFault>
    ensures text { Puts
        (O.held writer.old) (O.held writer.new)
        buffer.old.items buffer.new.items (codes "\n") result }
    ensures empty { IfOk result (λ done. buffer.new.items ≡ []) }
    ensures failed { O.failed writer.new ≡ O.failed writer.old || is_err result }
    ensures same_loan { O.loan writer.new ≡ O.loan writer.old }
{
    put_end(b"\n", buffer, writer)?;
    flush(buffer, writer)
}

/// Puts the text of an IGMP datagram, in words or as an object, without a line feed. Returns true for the text of a
/// message, and false for that of its fault.
pub fn put_igmp<O: Output>(
    json: bool,
    body: &[u8],
    buffer: &mut Text,
    writer: &mut O,
) -> Result<bool, LineFault>
    ensures text { PutsText json
        (O.held writer.old) (O.held writer.new)
        buffer.old.items buffer.new.items Igmp [] body.now result }
    ensures failed { O.failed writer.new ≡ O.failed writer.old || is_err result }
    ensures same_loan { O.loan writer.new ≡ O.loan writer.old }
{
    put_answer(json, read_igmp(body), buffer, writer)
}

/// Puts the text of an MLD datagram, as `put_igmp` does.
pub fn put_mld<O: Output>(
    json: bool,
    source: Addr6,
    destination: Addr6,
    body: &[u8],
    buffer: &mut Text,
    writer: &mut O,
) -> Result<bool, LineFault>
    ensures text { PutsText json
        (O.held writer.old) (O.held writer.new)
        buffer.old.items buffer.new.items Mld (pseudo_header source destination (length body.now)) body.now result }
    ensures failed { O.failed writer.new ≡ O.failed writer.old || is_err result }
    ensures same_loan { O.loan writer.new ≡ O.loan writer.old }
{
    put_answer(json, read_mld(source, destination, body), buffer, writer)
}

/// Puts the text of a parsed message or its fault, and returns whether it is a message.
fn put_answer<K: LineKey, O: Output>(
    json: bool,
    answer: Result<Message<'_, K>, WireFault>,
    buffer: &mut Text,
    writer: &mut O,
) -> Result<bool, LineFault>
    ensures text { AnswersBy
        (O.held writer.old) (O.held writer.new)
        buffer.old.items buffer.new.items (is_ok answer.entry) (answer_in json K.family (numbered_answer K.number answer.entry)) result }
    ensures failed { O.failed writer.new ≡ O.failed writer.old || is_err result }
    ensures same_loan { O.loan writer.new ≡ O.loan writer.old }
{
    match answer {
        Ok(message) => {
            put_message(json, message, buffer, writer)?;
            Ok(true)
        }
        Err(fault) => {
            make_room(buffer, writer)?;
            put_fault(json, buffer, fault);
            Ok(false)
        }
    }
}

/// Puts the text of a message.
pub fn put_message<K: LineKey, O: Output>(
    json: bool,
    message: Message<'_, K>,
    buffer: &mut Text,
    writer: &mut O,
) -> Result<(), LineFault>
    ensures text { Puts
        (O.held writer.old) (O.held writer.new)
        buffer.old.items buffer.new.items (message_in json K.family (numbered_message K.number message.entry)) result }
    ensures failed { O.failed writer.new ≡ O.failed writer.old || is_err result }
    ensures same_loan { O.loan writer.new ≡ O.loan writer.old }
{
    make_room(buffer, writer)?;
    match message {
        Message::Query(query) => {
            put_query_start(json, buffer, &query);
            let end = query_end(json, &query.version);
            put_query_sources(json, query.version, buffer, writer)?;
            put_end(end, buffer, writer)
        }
        Message::OldReport(version, group) => {
            put_older_report(json, buffer, version, group);
            Ok(())
        }
        Message::Leave(group) => {
            put_leave(json, buffer, group);
            Ok(())
        }
        Message::Report(records) => {
            put_report_start::<K>(json, buffer, records.len());
            put_records(json, records, buffer, writer)?;
            put_end(either(json, b"]}", b""), buffer, writer)
        }
    }
}

/// Puts the end of a text, of at most two bytes.
pub fn put_end<O: Output>(end: &[u8], buffer: &mut Text, writer: &mut O) -> Result<(), LineFault>
    requires { length end.now ≤ 2 }
    ensures text { Puts
        (O.held writer.old) (O.held writer.new)
        buffer.old.items buffer.new.items end.now result }
    ensures failed { O.failed writer.new ≡ O.failed writer.old || is_err result }
    ensures same_loan { O.loan writer.new ≡ O.loan writer.old }
{
    make_room(buffer, writer)?;
    put(buffer, end);
    Ok(())
}

/// Puts the sources of a query, if its version has any.
fn put_query_sources<K: LineKey, O: Output>(
    json: bool,
    version: QueryVersion<'_, K>,
    buffer: &mut Text,
    writer: &mut O,
) -> Result<(), LineFault>
    ensures text { Puts
        (O.held writer.old) (O.held writer.new)
        buffer.old.items buffer.new.items (source_items json K.family (query_sources (numbered_version version.entry))) result }
    ensures failed { O.failed writer.new ≡ O.failed writer.old || is_err result }
    ensures same_loan { O.loan writer.new ≡ O.loan writer.old }
{
    match version {
        QueryVersion::Older(_) => Ok(()),
        QueryVersion::Current(fields) => put_sources(json, fields.sources, buffer, writer),
    }
}

/// Puts the records of a Report.
fn put_records<K: LineKey, O: Output>(
    json: bool,
    records: Records<'_, K>,
    buffer: &mut Text,
    writer: &mut O,
) -> Result<(), LineFault>
    ensures text { Puts
        (O.held writer.old) (O.held writer.new)
        buffer.old.items buffer.new.items (record_items json K.family records.entry) result }
    ensures failed { O.failed writer.new ≡ O.failed writer.old || is_err result }
    ensures same_loan { O.loan writer.new ≡ O.loan writer.old }
{
    let mut is_first = true;
    for view in records {
        put_record(json, is_first, view, buffer, writer)?;
        is_first = false;
    }
    Ok(())
}

/// Puts a record of a Report.
fn put_record<K: LineKey, O: Output>(
    json: bool,
    is_first: bool,
    view: RecordView<'_, K>,
    buffer: &mut Text,
    writer: &mut O,
) -> Result<(), LineFault>
    ensures text { Puts
        (O.held writer.old) (O.held writer.new)
        buffer.old.items buffer.new.items (record_item json K.family is_first (numbered_record K.number view.entry)) result }
    ensures failed { O.failed writer.new ≡ O.failed writer.old || is_err result }
    ensures same_loan { O.loan writer.new ≡ O.loan writer.old }
{
    make_room(buffer, writer)?;
    put_record_start(json, buffer, is_first, view.kind, view.group);
    put_sources(json, view.sources, buffer, writer)?;
    put_end(either(json, b"]}", b"]"), buffer, writer)
}

/// Puts the sources of a query or a record.
fn put_sources<K: LineKey, O: Output>(
    json: bool,
    sources: Sources<'_, K>,
    buffer: &mut Text,
    writer: &mut O,
) -> Result<(), LineFault>
    ensures text { Puts
        (O.held writer.old) (O.held writer.new)
        buffer.old.items buffer.new.items (source_items json K.family sources.entry) result }
    ensures failed { O.failed writer.new ≡ O.failed writer.old || is_err result }
    ensures same_loan { O.loan writer.new ≡ O.loan writer.old }
{
    let mut is_first = true;
    for source in sources {
        make_room(buffer, writer)?;
        put_source(json, buffer, is_first, source);
        is_first = false;
    }
    Ok(())
}

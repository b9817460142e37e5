//! The text of a packet in a listing.

ghost use Rattle.std.specs.Prelude.{◌≡◌, ◌≤◌, ◌+◌, ◌++◌, ◌||◌, is_err};
ghost use Rattle.arrayvec.specs.ArrayVec.{array_vec_len};
ghost use Rattle.mq_count.specs.Streams.{inner_of, has_failed};
ghost use Rattle.mq_pcap.specs.Frame.{carried_of};
ghost use Rattle.mq_replay.specs.Listing as spec;
ghost use Rattle.mq_replay.specs.Putting.{PutsSaid};

use mq_count::Watched;
use mq_lines::{
    LineKey, either, put_address, put_address_object, put_either, put_end, put_igmp, put_mld,
    put_truth,
};
use mq_pcap::Inner;
use mq_text::{LineFault, Text, put, put_decimal};
use std::io::Write;

/// Puts the number and the moment of a packet.
pub(crate) fn put_place(json: bool, buffer: &mut Text, number: u64, moment: u64)
    requires { array_vec_len buffer.old + 60 ≤ 4096 }
    ensures text { buffer.new.items ≡ buffer.old.items ++ spec.place_in json number moment }
    ensures room { array_vec_len buffer.new ≤ array_vec_len buffer.old + 60 }
{
    put_either(json, buffer, b"{\"packet\":", b"");
    put_decimal(buffer, number);
    put_either(json, buffer, b",\"time\":", b" ");
    put_decimal(buffer, moment);
    put_either(json, buffer, b"", b" ");
}

/// Puts the text of a packet, to the end of its line.
pub(crate) fn put_said<W: Write>(
    json: bool,
    inner: Inner<'_>,
    buffer: &mut Text,
    writer: &mut Watched<W>,
) -> Result<(), LineFault>
    requires { array_vec_len buffer.old + 196 ≤ 4096 }
    ensures line { PutsSaid json
        (W.contents (inner_of writer.old)) (W.contents (inner_of writer.new))
        buffer.old.items buffer.new.items (carried_of inner.entry) result }
    ensures failed { has_failed writer.new ≡ has_failed writer.old || is_err result }
{
    let end = either(json, b"}\n", b"\n");
    match inner {
        Inner::Igmp {
            source,
            destination,
            ttl,
            alert,
            body,
        } => {
            put_headers(json, buffer, source, destination, ttl, alert);
            put_igmp(json, body, buffer, writer)?;
            put_end(end, buffer, writer)
        }
        Inner::Mld {
            source,
            destination,
            hop_limit,
            alert,
            body,
        } => {
            put_headers(json, buffer, source, destination, hop_limit, alert);
            put_mld(json, source, destination, body, buffer, writer)?;
            put_end(end, buffer, writer)
        }
        Inner::Other => {
            put_either(json, buffer, b",\"skipped\":\"other\"}\n", b"other\n");
            Ok(())
        }
        Inner::Cut => {
            put_either(json, buffer, b",\"skipped\":\"cut\"}\n", b"cut\n");
            Ok(())
        }
        Inner::Fragment => {
            put_either(json, buffer, b",\"skipped\":\"fragment\"}\n", b"fragment\n");
            Ok(())
        }
    }
}

/// Puts the headers of a packet with a message, up to the message.
fn put_headers<K: LineKey>(
    json: bool,
    buffer: &mut Text,
    source: K,
    destination: K,
    ttl: u8,
    alert: bool,
)
    requires { array_vec_len buffer.old + 196 ≤ 4096 }
    ensures { buffer.new.items ≡ buffer.old.items
        ++ spec.headers_in json K.family (K.number source) (K.number destination) ttl alert }
{
    if !json {
        put_address(buffer, source);
        put(buffer, b" ");
        put(buffer, K::protocol());
        return put(buffer, b" ");
    }
    put_addresses(buffer, source, destination);
    put(buffer, b",\"ttl\":");
    put_decimal(buffer, u64::from(ttl));
    put(buffer, b",\"alert\":");
    put_truth(buffer, alert);
    put(buffer, b",\"message\":");
}

/// Puts the protocol, the source and the destination of a packet with a message.
fn put_addresses<K: LineKey>(buffer: &mut Text, source: K, destination: K)
    requires { array_vec_len buffer.old + 130 ≤ 4096 }
    ensures text { buffer.new.items ≡ buffer.old.items ++ spec.address_fields K.family (K.number source) (K.number destination) }
    ensures room { array_vec_len buffer.new ≤ array_vec_len buffer.old + 130 }
{
    put(buffer, b",\"family\":\"");
    put(buffer, K::protocol());
    put(buffer, b"\",\"source\":");
    put_address_object(buffer, source);
    put(buffer, b",\"destination\":");
    put_address_object(buffer, destination);
}

//! The pieces of the objects of a replay.

ghost use Rattle.std.specs.Prelude.{◌≡◌, ◌≤◌, ◌+◌, ◌++◌, length};
ghost use Rattle.arrayvec.specs.ArrayVec.{array_vec_len};
ghost use Rattle.mq_pcap.specs.Frame.{carried_of};
ghost use Rattle.mq_replay.specs.ReplayObjects as spec;

use crate::replay_pieces::{put_count, put_moment, put_skipped};
use mq_count::Moment;
use mq_lines::{LineKey, put_address_object, put_truth};
use mq_link::{Counts, DropReason, Received};
use mq_pcap::Inner;
use mq_text::{Text, put};

/// Puts the start of an object at the end, with the moment and the name of its event.
#[tactic(auto, unfolding(crate::specs::ReplayObjects::event_start))]
pub(crate) fn put_event(buffer: &mut Text, moment: Moment, name: &[u8])
    requires { array_vec_len buffer.old + 40 + length name.now ≤ 4096 }
    ensures text { buffer.new.items ≡ buffer.old.items ++ spec.event_start moment name.now }
    ensures room { array_vec_len buffer.new ≤ array_vec_len buffer.old + 40 + length name.now }
{
    put(buffer, b"{\"time\":");
    put_moment(buffer, moment);
    put(buffer, b",\"event\":\"");
    put(buffer, name);
    put(buffer, b"\"");
}

/// Puts the start of the object of a packet at the end.
#[tactic(auto, unfolding(crate::specs::ReplayObjects::packet_start))]
fn put_packet(buffer: &mut Text, moment: Moment, name: &[u8], number: u64)
    requires { array_vec_len buffer.old + 70 + length name.now ≤ 4096 }
    ensures text { buffer.new.items ≡ buffer.old.items ++ spec.packet_start moment name.now number }
    ensures room { array_vec_len buffer.new ≤ array_vec_len buffer.old + 70 + length name.now }
{
    put_event(buffer, moment, name);
    put_number(buffer, b",\"packet\":", number);
}

/// Puts the start of the object of a datagram at the end, with its source.
#[tactic(auto, unfolding(crate::specs::ReplayObjects::sender_start))]
fn put_sender<K: LineKey>(buffer: &mut Text, moment: Moment, name: &[u8], number: u64, source: K)
    requires { array_vec_len buffer.old + 122 + length name.now ≤ 4096 }
    ensures text { buffer.new.items ≡ buffer.old.items ++ spec.sender_start K.family moment name.now number (K.number source) }
    ensures room { array_vec_len buffer.new ≤ array_vec_len buffer.old + 122 + length name.now }
{
    put_packet(buffer, moment, name, number);
    put(buffer, b",\"source\":");
    put_address_object(buffer, source);
}

/// Puts a number at the end after the name of its field.
#[tactic(auto, unfolding(crate::specs::ReplayObjects::number_field))]
fn put_number(buffer: &mut Text, name: &[u8], number: u64)
    requires { array_vec_len buffer.old + 20 + length name.now ≤ 4096 }
    ensures text { buffer.new.items ≡ buffer.old.items ++ spec.number_field name.now number }
    ensures room { array_vec_len buffer.new ≤ array_vec_len buffer.old + 20 + length name.now }
{
    put_count(buffer, name, number);
}

/// Puts the object of a datagram that the link received at the end.
pub(crate) fn put_receipt_object<K: LineKey>(
    buffer: &mut Text,
    moment: Moment,
    number: u64,
    source: K,
    answer: Received,
)
    requires { array_vec_len buffer.old + 256 ≤ 4096 }
    ensures { buffer.new.items ≡ buffer.old.items ++ spec.receipt_object K.family moment number (K.number source) answer }
{
    match answer {
        Received::Taken {
            applied,
            ignored,
            refused,
        } => {
            put_sender(buffer, moment, b"receive", number, source);
            put_number(buffer, b",\"applied\":", u64::from(applied));
            put_number(buffer, b",\"ignored\":", u64::from(ignored));
            put_number(buffer, b",\"refused\":", u64::from(refused));
            put(buffer, b"}\n");
        }
        Received::Dropped(reason) => {
            put_sender(buffer, moment, b"drop", number, source);
            put_number(buffer, b",\"number\":", u64::from(reason.number()));
            put(buffer, b",\"reason\":\"");
            put(buffer, reason_text(reason));
            put(buffer, b"\"}\n");
        }
    }
}

/// Returns the reason to drop a datagram.
fn reason_text(reason: DropReason) -> &'static [u8]
    ensures text { result.now ≡ spec.reason_text reason }
    ensures short { length result.now ≤ 18 }
{
    match reason {
        DropReason::Truncated => b"truncated",
        DropReason::Checksum => b"checksum",
        DropReason::UnknownType => b"unknown type",
        DropReason::QueryLength => b"query length",
        DropReason::BadSource => b"source",
        DropReason::HopLimit => b"hop limit",
        DropReason::NoAlert => b"router alert",
        DropReason::OwnOrZero => b"own query",
        DropReason::OlderQuery => b"query of version 1",
        DropReason::BadGroup => b"group",
    }
}

/// Puts the object of a packet that is skipped at the end.
pub(crate) fn put_skip_object(buffer: &mut Text, moment: Moment, number: u64, inner: &Inner<'_>)
    requires { array_vec_len buffer.old + 120 ≤ 4096 }
    ensures { buffer.new.items ≡ buffer.old.items ++ spec.skip_object moment number (carried_of inner.now) }
{
    put_packet(buffer, moment, b"skip", number);
    put(buffer, b",\"skipped\":\"");
    put_skipped(buffer, inner);
    put(buffer, b"\"}\n");
}

/// Puts the object of the end of a replay at the end.
pub(crate) fn put_role_object(buffer: &mut Text, moment: Moment, is_querier: bool)
    requires { array_vec_len buffer.old + 80 ≤ 4096 }
    ensures { buffer.new.items ≡ buffer.old.items ++ spec.end_object moment is_querier }
{
    put_event(buffer, moment, b"end");
    put(buffer, b",\"querier\":");
    put_truth(buffer, is_querier);
    put(buffer, b"}\n");
}

/// Puts the object of the counters at the end.
pub(crate) fn put_counts_object(buffer: &mut Text, counts: &Counts)
    requires { array_vec_len buffer.old + 256 ≤ 4096 }
    ensures { buffer.new.items ≡ buffer.old.items ++ spec.counts_object counts.now }
{
    put_number(
        buffer,
        b"{\"event\":\"counts\",\"received\":",
        counts.received(),
    );
    put_number(buffer, b",\"dropped\":", counts.dropped());
    put_number(buffer, b",\"applied\":", counts.applied());
    put_number(buffer, b",\"ignored\":", counts.ignored());
    put_number(buffer, b",\"refused\":", counts.refused());
    put_number(buffer, b",\"sent\":", counts.sent());
    put_number(buffer, b",\"unsent\":", counts.unsent());
    put(buffer, b"}\n");
}

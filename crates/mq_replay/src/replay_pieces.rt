//! The pieces of the lines of a replay.

ghost use Rattle.std.specs.Prelude.{◌≡◌, ◌≤◌, ◌+◌, ◌++◌, length};
ghost use Rattle.std.specs.Fmt.{decimal};
ghost use Rattle.arrayvec.specs.ArrayVec.{array_vec_len};
ghost use Rattle.mq_pcap.specs.Frame.{carried_of};
ghost use Rattle.mq_lines.specs.Text.{line_of};
ghost use Rattle.mq_replay.specs.ReplayLines as spec;

use mq_count::Moment;
use mq_lines::{LineKey, put_address};
use mq_link::{Counts, DropReason, Received};
use mq_pcap::Inner;
use mq_table::{FilterMode, Source, SourceTimer};
use mq_text::{Text, put, put_decimal};

/// Puts a moment at the end.
pub(crate) fn put_moment(buffer: &mut Text, moment: Moment)
    requires { array_vec_len buffer.old + 20 ≤ 4096 }
    ensures text { buffer.new.items ≡ buffer.old.items ++ decimal moment }
    ensures room { array_vec_len buffer.new ≤ array_vec_len buffer.old + 20 }
{
    let mut digits = [0; 20];
    let count = moment.digits(&mut digits);
    put(buffer, &digits[..count]);
}

/// Puts the start of a query's line at the end, up to its bytes.
pub(crate) fn put_query_start<K: LineKey>(buffer: &mut Text, moment: Moment, to: K)
    requires { array_vec_len buffer.old + 67 ≤ 4096 }
    ensures { buffer.new.items ≡ buffer.old.items ++ spec.query_start K.family moment (K.number to) }
{
    put_moment(buffer, moment);
    put(buffer, b" send ");
    put_address(buffer, to);
    put(buffer, b" ");
}

/// Puts the moment of a packet, its treatment, and its number at the end.
fn put_packet(buffer: &mut Text, moment: Moment, what: &[u8], number: u64)
    requires { array_vec_len buffer.old + 40 + length what.now ≤ 4096 }
    ensures text { buffer.new.items ≡ buffer.old.items ++ spec.packet_text moment what.now number }
    ensures room { array_vec_len buffer.new ≤ array_vec_len buffer.old + 40 + length what.now }
{
    put_moment(buffer, moment);
    put(buffer, what);
    put_decimal(buffer, number);
}

/// Puts the line of a datagram that the link received at the end.
pub(crate) fn put_receipt_line<K: LineKey>(
    buffer: &mut Text,
    moment: Moment,
    number: u64,
    source: K,
    answer: Received,
)
    requires { array_vec_len buffer.old + 200 ≤ 4096 }
    ensures { buffer.new.items ≡ buffer.old.items ++ spec.receipt_line K.family moment number (K.number source) answer }
{
    put_packet(buffer, moment, b" receive ", number);
    put(buffer, b" ");
    put_address(buffer, source);
    put(buffer, b" ");
    put_answer(buffer, answer);
    put(buffer, b"\n");
}

/// Puts the answer to a datagram at the end.
fn put_answer(buffer: &mut Text, answer: Received)
    requires { array_vec_len buffer.old + 70 ≤ 4096 }
    ensures text { buffer.new.items ≡ buffer.old.items ++ spec.received_text answer }
    ensures room { array_vec_len buffer.new ≤ array_vec_len buffer.old + 70 }
{
    match answer {
        Received::Taken {
            applied,
            ignored,
            refused,
        } => {
            put(buffer, b"taken ");
            put_decimal(buffer, u64::from(applied));
            put(buffer, b" ");
            put_decimal(buffer, u64::from(ignored));
            put(buffer, b" ");
            put_decimal(buffer, u64::from(refused));
        }
        Received::Dropped(reason) => {
            put(buffer, b"dropped ");
            put_decimal(buffer, u64::from(reason.number()));
        }
    }
}

/// Puts the line of a packet that is skipped at the end.
pub(crate) fn put_skip_line(buffer: &mut Text, moment: Moment, number: u64, inner: &Inner<'_>)
    requires { array_vec_len buffer.old + 100 ≤ 4096 }
    ensures { buffer.new.items ≡ buffer.old.items ++ spec.skip_line moment number (carried_of inner.now) }
{
    put_packet(buffer, moment, b" skip ", number);
    put(buffer, b" ");
    put_skipped(buffer, inner);
    put(buffer, b"\n");
}

/// Puts the reason to skip a packet at the end.
pub(crate) fn put_skipped(buffer: &mut Text, inner: &Inner<'_>)
    requires { array_vec_len buffer.old + 8 ≤ 4096 }
    ensures text { buffer.new.items ≡ buffer.old.items ++ spec.skipped_text (carried_of inner.now) }
    ensures room { array_vec_len buffer.new ≤ array_vec_len buffer.old + 8 }
{
    match inner {
        Inner::Igmp { .. } | Inner::Mld { .. } | Inner::Other => put(buffer, b"other"),
        Inner::Cut => put(buffer, b"cut"),
        Inner::Fragment => put(buffer, b"fragment"),
    }
}

/// Puts the line of the moment of the end of a replay, and of the role then, at the end.
pub(crate) fn put_role_line(buffer: &mut Text, moment: Moment, is_querier: bool)
    requires { array_vec_len buffer.old + 40 ≤ 4096 }
    ensures { buffer.new.items ≡ buffer.old.items ++ spec.end_line moment is_querier }
{
    put(buffer, b"end ");
    put_moment(buffer, moment);
    put(
        buffer,
        if is_querier {
            b" querier\n"
        } else {
            b" other\n"
        },
    );
}

/// Puts the start of a group's line at the end, up to its sources.
pub(crate) fn put_group_start<K: LineKey>(buffer: &mut Text, address: K, mode: FilterMode)
    requires { array_vec_len buffer.old + 80 ≤ 4096 }
    ensures { buffer.new.items ≡ buffer.old.items ++ spec.group_start K.family (K.number address) mode }
{
    put(buffer, b"group ");
    put_address(buffer, address);
    put(buffer, b" ");
    put_mode(buffer, mode);
}

/// Puts the filter mode of a group at the end.
fn put_mode(buffer: &mut Text, mode: FilterMode)
    requires { array_vec_len buffer.old + 28 ≤ 4096 }
    ensures { buffer.new.items ≡ buffer.old.items ++ spec.mode_text mode }
{
    match mode {
        FilterMode::Include => put(buffer, b"include"),
        FilterMode::Exclude(deadline) => {
            put(buffer, b"exclude ");
            put_moment(buffer, deadline);
        }
    }
}

/// Puts a source of a group at the end, with its timer.
pub(crate) fn put_timer<K: LineKey>(buffer: &mut Text, source: &Source<K>)
    requires { array_vec_len buffer.old + 62 ≤ 4096 }
    ensures { buffer.new.items ≡ buffer.old.items ++ spec.timer_text K.family (K.number source.now.address) source.now.timer }
{
    match source.timer {
        SourceTimer::Stopped => {
            put(buffer, b" !");
            put_address(buffer, source.address);
        }
        SourceTimer::Running(deadline, _) => {
            put(buffer, b" ");
            put_address(buffer, source.address);
            put(buffer, b"=");
            put_moment(buffer, deadline);
        }
    }
}

/// Puts the timers of older hosts that run at the end, and the end of the line.
pub(crate) fn put_older_hosts(buffer: &mut Text, v1: Option<Moment>, v2: Option<Moment>)
    requires { array_vec_len buffer.old + 49 ≤ 4096 }
    ensures { buffer.new.items ≡ buffer.old.items ++ line_of (spec.older_hosts_text v1 v2) }
{
    put_deadline(buffer, b" v1 ", v1);
    put_deadline(buffer, b" v2 ", v2);
    put(buffer, b"\n");
}

/// Puts a timer at the end after its name, if it runs.
fn put_deadline(buffer: &mut Text, name: &[u8], deadline: Option<Moment>)
    requires { array_vec_len buffer.old + 20 + length name.now ≤ 4096 }
    ensures text { buffer.new.items ≡ buffer.old.items ++ spec.deadline_text name.now deadline }
    ensures room { array_vec_len buffer.new ≤ array_vec_len buffer.old + 20 + length name.now }
{
    if let Some(deadline) = deadline {
        put(buffer, name);
        put_moment(buffer, deadline);
    }
}

/// Puts the line of the counters at the end.
pub(crate) fn put_counts_line(buffer: &mut Text, counts: &Counts)
    requires { array_vec_len buffer.old + 256 ≤ 4096 }
    ensures { buffer.new.items ≡ buffer.old.items ++ spec.counts_line counts.now }
{
    put(buffer, b"counts ");
    put_datagram_counts(buffer, counts);
    put_record_counts(buffer, counts);
    put_query_counts(buffer, counts);
    put(buffer, b"\n");
}

/// Puts the numbers of received and dropped datagrams at the end.
fn put_datagram_counts(buffer: &mut Text, counts: &Counts)
    requires { array_vec_len buffer.old + 60 ≤ 4096 }
    ensures text { buffer.new.items ≡ buffer.old.items ++ spec.datagram_counts_text counts.now }
    ensures room { array_vec_len buffer.new ≤ array_vec_len buffer.old + 60 }
{
    put_count(buffer, b"received ", counts.received());
    put_count(buffer, b" dropped ", counts.dropped());
}

/// Puts the numbers of applied, ignored and refused records at the end.
fn put_record_counts(buffer: &mut Text, counts: &Counts)
    requires { array_vec_len buffer.old + 90 ≤ 4096 }
    ensures text { buffer.new.items ≡ buffer.old.items ++ spec.record_counts_text counts.now }
    ensures room { array_vec_len buffer.new ≤ array_vec_len buffer.old + 90 }
{
    put_count(buffer, b" applied ", counts.applied());
    put_count(buffer, b" ignored ", counts.ignored());
    put_count(buffer, b" refused ", counts.refused());
}

/// Puts the numbers of sent and unsent queries at the end.
fn put_query_counts(buffer: &mut Text, counts: &Counts)
    requires { array_vec_len buffer.old + 60 ≤ 4096 }
    ensures text { buffer.new.items ≡ buffer.old.items ++ spec.query_counts_text counts.now }
    ensures room { array_vec_len buffer.new ≤ array_vec_len buffer.old + 60 }
{
    put_count(buffer, b" sent ", counts.sent());
    put_count(buffer, b" unsent ", counts.unsent());
}

/// Puts a number at the end after its name.
pub(crate) fn put_count(buffer: &mut Text, name: &[u8], count: u64)
    requires { array_vec_len buffer.old + 20 + length name.now ≤ 4096 }
    ensures text { buffer.new.items ≡ buffer.old.items ++ (name.now ++ decimal count) }
    ensures room { array_vec_len buffer.new ≤ array_vec_len buffer.old + 20 + length name.now }
{
    put(buffer, name);
    put_decimal(buffer, count);
}

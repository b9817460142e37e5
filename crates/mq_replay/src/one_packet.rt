//! One packet of a replay.

ghost use Rattle.std.specs.Prelude.{◌≡◌, ◌≤◌, ◌^◌, ◌||◌, is_err};
ghost use Rattle.mq_count.specs.Streams.{inner_of, has_failed};
ghost use Rattle.mq_pcap.specs.Frame.{carried_of};
ghost use Rattle.mq_replay.specs.Report.{received_at, with_packet};
ghost use Rattle.mq_replay.specs.Steps.{PutsReplayed, begun_with};

use crate::asked::Asked;
use crate::change_lines::put_changes;
use crate::replay_lines::{put_receipt, put_skip};
use crate::running_replay::Replay;
use crate::sent_queries::receive;
use mq_count::{Moment, Watched};
use mq_lines::LineKey;
use mq_link::Link;
use mq_pcap::Inner;
use mq_text::{LineFault, Text};
use mq_walk::{CapturedDatagram, CapturedFamily};
use std::alloc::Allocator;
use std::io::Write;

/// Ticks before a packet, then gives its datagram to the link or skips it, and puts the events of all this.
pub(crate) fn replay_packet<F: CapturedFamily, A: Allocator, W: Write>(
    replay: &mut Replay<F, A>,
    moment: Moment,
    number: u64,
    inner: &Inner<'_>,
    writer: &mut Watched<W>,
) -> Result<(), LineFault>
where
    F::Address: LineKey,
    requires { moment ≤ 2 ^ 53 }
    ensures asked { replay.new.asked ≡ replay.old.asked }
    ensures puts { PutsReplayed replay.old.link replay.new.link
        (with_packet replay.old.link.config moment number (carried_of inner.now) (begun_with replay.old.asked replay.old.link.state))
        (W.contents (inner_of writer.old)) (W.contents (inner_of writer.new))
        replay.old.buffer.items replay.new.buffer.items result }
    ensures failed { has_failed writer.new ≡ has_failed writer.old || is_err result }
{
    replay.link.config().is_faultless();
    let asked = replay.asked;
    let json = asked.json;
    replay.put_ticks(moment, writer)?;
    match F::datagram(inner) {
        Some(datagram) => hand_over(
            &mut replay.link,
            moment,
            number,
            asked,
            datagram,
            &mut replay.buffer,
            writer,
        ),
        None => put_skip(json, moment, number, inner, &mut replay.buffer, writer),
    }
}

/// Gives a datagram to a link, and puts the queries that it sends and its answer. Then it puts the groups that it
/// changes, if they are requested.
fn hand_over<F: CapturedFamily, A: Allocator, W: Write>(
    link: &mut Link<F, A>,
    moment: Moment,
    number: u64,
    asked: Asked,
    datagram: CapturedDatagram<'_, F::Envelope>,
    buffer: &mut Text,
    writer: &mut Watched<W>,
) -> Result<(), LineFault>
where
    F::Address: LineKey,
    requires { moment ≤ 2 ^ 53 }
    ensures puts { PutsReplayed link.old link.new
        (received_at link.old.config moment number (record { envelope = F.envelope_of datagram.entry.envelope; body = datagram.entry.body.now }) (begun_with asked link.old.state))
        (W.contents (inner_of writer.old)) (W.contents (inner_of writer.new))
        buffer.old.items buffer.new.items result }
    ensures failed { has_failed writer.new ≡ has_failed writer.old || is_err result }
{
    link.config().is_faultless();
    let answer = receive(
        link,
        &datagram.envelope,
        datagram.body,
        moment,
        asked.json,
        buffer,
        writer,
    )?;
    put_receipt(
        asked.json,
        moment,
        number,
        F::source(&datagram.envelope),
        answer,
        buffer,
        writer,
    )?;
    put_changes(link, moment, asked, buffer, writer)
}

//! The calls of a link, with the lines of the queries that it sends.

ghost use Rattle.std.specs.Prelude.{◌≡◌, ◌≤◌, ◌^◌, ◌||◌, is_err};
ghost use Rattle.mq_count.specs.Streams.{inner_of, has_failed};
ghost use Rattle.mq_link.specs.Forwarding.{AreThose, changed_by_datagram, changed_by_tick};
ghost use Rattle.mq_replay.specs.QueryLines.{ReceivesPrinting, TicksPrinting};

use crate::query_outlet::QueryLines;
use mq_count::{Moment, Watched};
use mq_lines::LineKey;
use mq_link::{Family, Link, Received};
use mq_text::{LineFault, Text};
use std::alloc::Allocator;
use std::io::Write;

/// Ticks a link at a moment, and puts each query that it sends.
pub(crate) fn tick<F: Family, A: Allocator, W: Write>(
    link: &mut Link<F, A>,
    now: Moment,
    json: bool,
    buffer: &mut Text,
    writer: &mut Watched<W>,
) -> Result<(), LineFault>
where
    F::Address: LineKey,
    requires in_range { now ≤ 2 ^ 53 }
    ensures config { link.new.config ≡ link.old.config }
    ensures changed { AreThose (changed_by_tick link.old.config now link.old.state) link.new.changed }
    ensures ticks { TicksPrinting json F.Address.family now link.old link.new
        (W.contents (inner_of writer.old)) (W.contents (inner_of writer.new))
        buffer.old.items buffer.new.items result }
    ensures failed { has_failed writer.new ≡ has_failed writer.old || is_err result }
{
    let mut queries = QueryLines::new(buffer, writer, now, json);
    link.tick(now, &mut queries);
    queries.answer()
}

/// Gives the link a datagram that came at a moment, and puts each query that it sends then. Returns the
/// result of the datagram.
pub(crate) fn receive<F: Family, A: Allocator, W: Write>(
    link: &mut Link<F, A>,
    envelope: &F::Envelope,
    body: &[u8],
    now: Moment,
    json: bool,
    buffer: &mut Text,
    writer: &mut Watched<W>,
) -> Result<Received, LineFault>
where
    F::Address: LineKey,
    requires in_range { now ≤ 2 ^ 53 }
    ensures config { link.new.config ≡ link.old.config }
    ensures changed { AreThose (changed_by_datagram link.old.config (F.envelope_of envelope.now) body.now now link.old.state) link.new.changed }
    ensures receives { ReceivesPrinting json F.Address.family (F.envelope_of envelope.now) body.now now link.old link.new
        (W.contents (inner_of writer.old)) (W.contents (inner_of writer.new))
        buffer.old.items buffer.new.items result }
    ensures failed { has_failed writer.new ≡ has_failed writer.old || is_err result }
{
    let mut queries = QueryLines::new(buffer, writer, now, json);
    let received = link.receive(envelope, body, now, &mut queries);
    queries.answer()?;
    Ok(received)
}

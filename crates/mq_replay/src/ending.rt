//! The end of a replay.

ghost use Rattle.std.specs.Prelude.{◌≡◌, ◌≤◌, ◌^◌, ◌||◌, Ok, IfOk, is_err};
ghost use Rattle.mq_count.specs.Streams.{inner_of, has_failed};
ghost use Rattle.mq_text.specs.Printing.{Puts};
ghost use Rattle.mq_replay.specs.Events.{group_events};
ghost use Rattle.mq_replay.specs.Report.{ended_at};
ghost use Rattle.mq_replay.specs.Steps.{begun_with};

use crate::group_line::put_group;
use crate::replay_lines::{put_counts, put_role};
use crate::running_replay::Replay;
use mq_count::{Moment, Span, Watched};
use mq_lines::LineKey;
use mq_link::Link;
use mq_text::{LineFault, Text};
use mq_walk::CapturedFamily;
use std::alloc::Allocator;
use std::io::Write;

/// Ticks up to and including the end of a replay, and puts the state of the link then.
pub(crate) fn put_ending<F: CapturedFamily, A: Allocator, W: Write>(
    replay: &mut Replay<F, A>,
    end: Moment,
    writer: &mut Watched<W>,
) -> Result<(), LineFault>
where
    F::Address: LineKey,
    requires { end ≤ 2 ^ 53 }
    ensures text { Puts
        (W.contents (inner_of writer.old)) (W.contents (inner_of writer.new))
        replay.old.buffer.items replay.new.buffer.items
        (ended_at replay.old.link.config end (begun_with replay.old.asked replay.old.link.state)).text result }
    ensures answer { IfOk result (λ _.
        (ended_at replay.old.link.config end (begun_with replay.old.asked replay.old.link.state)).answer
        ≡ Ok replay.new.link.state.counters) }
    ensures failed { has_failed writer.new ≡ has_failed writer.old || is_err result }
{
    replay.link.config().is_faultless();
    let json = replay.asked.json;
    replay.put_ticks(end.after(Span::from_ms(1)), writer)?;
    let is_querier = replay.link.is_querier();
    put_role(json, end, is_querier, &mut replay.buffer, writer)?;
    put_groups(json, end, &replay.link, &mut replay.buffer, writer)?;
    put_counts(json, replay.link.counts(), &mut replay.buffer, writer)
}

/// Puts the groups that a link holds.
fn put_groups<F: CapturedFamily, A: Allocator, W: Write>(
    json: bool,
    moment: Moment,
    link: &Link<F, A>,
    buffer: &mut Text,
    writer: &mut Watched<W>,
) -> Result<(), LineFault>
where
    F::Address: LineKey,
    ensures text { Puts
        (W.contents (inner_of writer.old)) (W.contents (inner_of writer.new))
        buffer.old.items buffer.new.items (group_events json F.FAMILY moment link.now.state.groups) result }
    ensures failed { has_failed writer.new ≡ has_failed writer.old || is_err result }
{
    for place in 0..link.len() {
        put_group(json, moment, link.entry(place), buffer, writer)?;
    }
    Ok(())
}

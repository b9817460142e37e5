//! A replay in progress, as one object.

ghost use Rattle.std.specs.Prelude.{◌≡◌, ◌≤◌, ◌+◌, ◌^◌, ◌||◌, [], is_err};
ghost use Rattle.mq_count.specs.Streams.{inner_of, has_failed};
ghost use Rattle.mq_replay.specs.Report.{ticked_before};
ghost use Rattle.mq_replay.specs.Steps.{PutsReplayed, begun_with};

use crate::asked::Asked;
use crate::change_lines::put_changes;
use crate::one_packet::replay_packet;
use crate::sent_queries::tick;
use mq_count::{Moment, Watched};
use mq_lines::LineKey;
use mq_link::Link;
use mq_pcap::unwrap_frame;
use mq_text::{LineFault, Text};
use mq_walk::{
    CaptureFault, CapturedFamily, GaplessStep, NumberedPacket, TickStep, tick_before,
    write_before_wait,
};
use std::alloc::Allocator;
use std::io::Write;

/// A replay in progress: the link, the request, and the text that isn't written yet.
#[derive(Drop)]
pub(crate) struct Replay<F: CapturedFamily, A: Allocator>
where
    F::Address: LineKey,
{
    pub(crate) link: Link<F, A>,
    pub(crate) asked: Asked,
    pub(crate) buffer: Text,
}

impl<F: CapturedFamily, A: Allocator> Replay<F, A>
where
    F::Address: LineKey,
{
    /// Returns a replay on this link.
    pub(crate) fn new(link: Link<F, A>, asked: Asked) -> Replay<F, A>
        ensures link { result.link ≡ link }
        ensures asked { result.asked ≡ asked }
        ensures empty { result.buffer.items ≡ [] }
    {
        Replay {
            link,
            asked,
            buffer: Text::new(),
        }
    }

    /// Ticks the link at its next moments, while these are before `limit`, and puts their events.
    pub(crate) fn put_ticks<W: Write>(
        &mut self,
        limit: Moment,
        writer: &mut Watched<W>,
    ) -> Result<(), LineFault>
        requires { limit ≤ 2 ^ 53 + 1 }
        ensures asked { self.new.asked ≡ self.old.asked }
        ensures puts { PutsReplayed self.old.link self.new.link
            (ticked_before self.old.link.config limit (begun_with self.old.asked self.old.link.state))
            (W.contents (inner_of writer.old)) (W.contents (inner_of writer.new))
            self.old.buffer.items self.new.buffer.items result }
        ensures failed { has_failed writer.new ≡ has_failed writer.old || is_err result }
    {
        tick_before(self, limit, writer)
    }
}

impl<F: CapturedFamily, A: Allocator, W: Write> TickStep<Watched<W>> for Replay<F, A>
where
    F::Address: LineKey,
{
    ghost use Rattle.mq_link.specs.Tick.{next_of};
    ghost use Rattle.mq_text.specs.Printing.{output_of};
    ghost use Rattle.mq_replay.specs.Steps.{ReplaysTick};

    ghost next = { λ self. next_of self.link.state };

    ghost ticks = { λ moment old new r. ReplaysTick moment
        (record { link = old.0.link; asked = old.0.asked; held = old.0.buffer.items; output = output_of W.contents old.1 })
        (record { link = new.0.link; asked = new.0.asked; held = new.0.buffer.items; output = output_of W.contents new.1 }) r };

    fn next_moment(&self) -> Moment {
        self.link.next_deadline()
    }

    fn tick_at(&mut self, moment: Moment, output: &mut Watched<W>) -> Result<(), LineFault> {
        self.link.config().is_faultless();
        self.link.is_well_formed();
        let asked = self.asked;
        tick(&mut self.link, moment, asked.json, &mut self.buffer, output)?;
        put_changes(&self.link, moment, asked, &mut self.buffer, output)
    }
}

impl<F: CapturedFamily, A: Allocator, W: Write> GaplessStep<Watched<W>> for Replay<F, A>
where
    F::Address: LineKey,
{
    ghost use Rattle.std.specs.Prelude.{◌≡◌, []};
    ghost use Rattle.mq_text.specs.Printing.{output_of};
    ghost use Rattle.mq_replay.specs.Steps.{TakesReplayed};

    ghost takes = { λ packet old new r. TakesReplayed packet
        (record { link = old.0.link; asked = old.0.asked; held = old.0.buffer.items; output = output_of W.contents old.1 })
        (record { link = new.0.link; asked = new.0.asked; held = new.0.buffer.items; output = output_of W.contents new.1 }) r };

    ghost is_written = { λ state. state.0.buffer.items ≡ [] };

    fn packet(
        &mut self,
        packet: &NumberedPacket<'_>,
        output: &mut Watched<W>,
    ) -> Result<(), CaptureFault> {
        let inner = unwrap_frame(packet.link, packet.frame);
        replay_packet(self, packet.moment.moment(), packet.number, &inner, output)?;
        write_before_wait(packet.may_wait, &mut self.buffer, output)?;
        Ok(())
    }
}

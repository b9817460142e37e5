//! The replay of a capture.

ghost use Rattle.std.specs.Prelude.{◌≡◌, ◌≤◌, ◌+◌, ◌^◌, ◌||◌, length, IfSome};
ghost use Rattle.std.specs.contracts.vec.Vec as page;
ghost use denote.Builtin.{u16};
ghost use Rattle.mq_arena.specs.Vectors.{Takes, bytes_for};
ghost use Rattle.mq_count.specs.Streams.{inner_of, has_failed};
ghost use Rattle.mq_link.specs.Sizes.{bytes_of_link, bytes_of_workspace};
ghost use Rattle.mq_link.specs.State.{link_at};
ghost use Rattle.mq_pcap.specs.Capture.{most_bytes};
ghost use Rattle.mq_pcap.specs.Filling.{input_of};
ghost use Rattle.mq_walk.specs.Faults as spec;
ghost use Rattle.mq_walk.specs.PuttingReports.{IsRestPut, PutsReport, counted, end_of, rest_at};
ghost use Rattle.mq_replay.specs.Replaying.{Replays};
ghost use Rattle.mq_replay.specs.Report.{ended_at, replay_of};
ghost use Rattle.mq_replay.specs.Steps.{begun_with};

use crate::asked::Asked;
use crate::ending::put_ending;
use crate::running_replay::Replay;
use mq_arena::{VectorSource, filled};
use mq_count::Watched;
use mq_lines::LineKey;
use mq_link::{Config, Counts, Link};
use mq_pcap::{GREATEST_PACKET, Supply};
use mq_walk::{CaptureFault, CapturedFamily, UpToGap, Walked, finish, first_moment, walk};
use std::alloc::{AllocError, Allocator};
use std::io::{Read, Write};

/// Replays a capture on a link with this configuration, and returns its counters.
///
/// The link starts at 0, and receives the datagrams of the capture at their moments, with a tick at each of its next
/// moments between. The replay writes a line, or an object of JSON, for each query that is sent and for each packet. If
/// they are requested, it writes the groups that each event changes. At the end it writes the state of the link. The end is
/// the moment of the last packet, or the requested one if it is later.
///
/// The memory for one packet and then that of the link are allocated from `memory` before anything is read or written. It fails with `Memory` only
/// if one of them is refused. If the capture has a fault or a gap, the lines of all that comes before it are written first. Before a read that may
/// wait by the stream's `supply`, the lines so far are written.
pub fn replay<F: CapturedFamily, A: Allocator, M: VectorSource<A>, S: Supply, R: Read, W: Write>(
    memory: &mut M,
    config: Config<F>,
    asked: Asked,
    supply: &S,
    reader: &mut Watched<R>,
    writer: &mut Watched<W>,
) -> Result<Counts, CaptureFault>
where
    F::Address: LineKey,
    requires { IfSome asked.until (λ moment. moment ≤ 2 ^ 53) }
    ensures replays { Replays config asked
        (input_of R.remaining reader.old) (input_of R.remaining reader.new)
        (W.contents (inner_of writer.old)) (W.contents (inner_of writer.new))
        result }
    ensures failed { has_failed writer.new ≡ has_failed writer.old || spec.is_failed_write result }
    ensures memory { result ≡ Err CaptureFault.Memory → (reader.new ≡ reader.old) × (writer.new ≡ writer.old) }
    ensures takes { Takes
        (bytes_for 1 most_bytes + (bytes_of_workspace F.Address.row config.room + bytes_of_link (page.the_row u16 A.row ⟦<A as Allocator>⟧) F.Address.row config.room))
        (M.less_than memory.old) (M.less_than memory.new) (spec.is_granted result) }
{
    let packet: Result<Vec<u8, A>, AllocError> = filled(memory, 0, GREATEST_PACKET);
    let Ok(mut packet) = packet else {
        return Err(CaptureFault::Memory);
    };
    let Ok(link) = Link::new_in(memory, config, first_moment()) else {
        return Err(CaptureFault::Memory);
    };
    let mut replay = UpToGap {
        steps: Replay::new(link, asked),
    };
    let put = put_replay(&mut replay, packet.as_mut_slice(), supply, reader, writer);
    let answer = finish(put, &mut replay.steps.buffer, writer);
    counters_of(replay.steps.link, answer)
}

/// Returns the counters of a link after a replay with this result, or its fault.
fn counters_of<F: CapturedFamily, A: Allocator>(
    link: Link<F, A>,
    answer: Result<(), CaptureFault>,
) -> Result<Counts, CaptureFault>
where
    F::Address: LineKey,
    ensures { result ≡ counted link.state.counters answer }
{
    answer?;
    Ok(link.into_counts())
}

/// Puts the lines of a capture.
fn put_replay<F: CapturedFamily, A: Allocator, S: Supply, R: Read, W: Write>(
    replay: &mut UpToGap<Replay<F, A>>,
    packet: &mut [u8],
    supply: &S,
    reader: &mut Watched<R>,
    writer: &mut Watched<W>,
) -> Result<(), CaptureFault>
where
    F::Address: LineKey,
    requires room { most_bytes ≤ length packet.old }
    requires in_range { IfSome replay.old.steps.asked.until (λ moment. moment ≤ 2 ^ 53) }
    requires starts { replay.old.steps.link.state ≡ link_at replay.old.steps.link.config 0 }
    ensures puts { PutsReport (replay_of replay.old.steps.link.config replay.old.steps.asked)
        (input_of R.remaining reader.old) (input_of R.remaining reader.new)
        (W.contents (inner_of writer.old)) (W.contents (inner_of writer.new))
        replay.old.steps.buffer.items replay.new.steps.buffer.items (counted replay.new.steps.link.state.counters result) }
    ensures failed { has_failed writer.new ≡ has_failed writer.old || spec.is_failed_write result }
    ensures no_memory { result ≡ Err CaptureFault.Memory → ⊥ }
{
    let walked = walk(replay, packet, supply, reader, writer)?;
    put_rest(&mut replay.steps, walked, writer)
}

/// Puts the text after the packets of a capture that has ended. It is the state of the link at the end of the replay,
/// unless there is a gap before that.
fn put_rest<F: CapturedFamily, A: Allocator, W: Write>(
    replay: &mut Replay<F, A>,
    walked: Walked,
    writer: &mut Watched<W>,
) -> Result<(), CaptureFault>
where
    F::Address: LineKey,
    requires { IfSome replay.old.asked.until (λ moment. moment ≤ 2 ^ 53) }
    ensures rest { IsRestPut
        (rest_at (λ end. ended_at replay.old.link.config end (begun_with replay.old.asked replay.old.link.state))
        (end_of replay.old.asked.until walked.last (walked.packets + 1)))
        (W.contents (inner_of writer.old)) (W.contents (inner_of writer.new))
        replay.old.buffer.items replay.new.buffer.items (counted replay.new.link.state.counters result) }
    ensures failed { has_failed writer.new ≡ has_failed writer.old || spec.is_failed_write result }
    ensures no_memory { result ≡ Err CaptureFault.Memory → ⊥ }
{
    let end = walked.end(replay.asked.until)?;
    put_ending(replay, end.moment(), writer)?;
    Ok(())
}

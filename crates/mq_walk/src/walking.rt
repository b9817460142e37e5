//! Walks over captures.

ghost use Rattle.std.specs.Prelude.{◌≡◌, ◌≤◌, length};
ghost use Rattle.mq_pcap.specs.declared.reader_state.Progress.TheVariants.{Reading};
ghost use Rattle.mq_pcap.specs.Capture.{most_bytes};
ghost use Rattle.mq_pcap.specs.Filling.{input_of};
ghost use Rattle.mq_pcap.specs.Reading.{form_of, number_of, progress_of};
ghost use Rattle.mq_walk.specs.Walking.{Walks, WalksBehind};

use crate::capture_fault::CaptureFault;
use crate::numbered_packet::NumberedPacket;
use crate::stamp::Stamp;
use crate::stamps::Stamps;
use crate::walked::Walked;
use mq_count::Watched;
use mq_pcap::{PcapFault, PcapReader, Supply};
use std::io::Read;

/// A receiver of the packets of a capture, in order, with an output.
pub trait Step<O> {
    ghost use Rattle.std.specs.Prelude.{◌≡◌, Result, IfOk, true};
    ghost use Rattle.mq_walk.specs.PlacedPackets.{PlacedPacket};

    /// The reason why a walk ends early.
    type Fault: From<PcapFault>;

    // The effect of one packet: the states before, the states afterwards, and the result.
    ghost takes: { PlacedPacket → Self × O → Self × O → Result Unit Self.Fault → Type 0 };

    // The states in which no known text is held back.
    ghost is_written: { Self × O → Type 0 };

    /// Takes a packet. The walk ends if this fails. If a read of the next packet may wait, all known text is then written.
    fn packet(&mut self, packet: &NumberedPacket<'_>, output: &mut O) -> Result<(), Self::Fault>
        ensures taken { takes (record {
          number = packet.now.number;
          before = packet.now.before;
          moment = packet.now.moment;
          goes_back = packet.now.goes_back;
          link = packet.now.link;
          frame = packet.now.frame.now;
        }) (self.old, output.old) (self.new, output.new) result }
        ensures written { packet.now.may_wait ≡ true → IfOk result (λ _. is_written (self.new, output.new)) };
}

/// A receiver of the packets of a capture up to its first gap, with an output.
pub trait GaplessStep<O> {
    ghost use Rattle.std.specs.Prelude.{◌≡◌, Result, IfOk, true};
    ghost use Rattle.mq_walk.specs.declared.capture_fault.CaptureFault.{CaptureFault};
    ghost use Rattle.mq_walk.specs.PlacedPackets.{PlacedPacket};

    // The effect of one packet, as for a `Step`.
    ghost takes: { PlacedPacket → Self × O → Self × O → Result Unit CaptureFault → Type 0 };

    // The states in which no known text is held back, as for a `Step`.
    ghost is_written: { Self × O → Type 0 };

    /// Takes a packet without a gap before it. The walk ends if this fails. All known text is then written, as for a `Step`.
    fn packet(&mut self, packet: &NumberedPacket<'_>, output: &mut O) -> Result<(), CaptureFault>
        ensures taken { takes (record {
          number = packet.now.number;
          before = packet.now.before;
          moment = packet.now.moment;
          goes_back = packet.now.goes_back;
          link = packet.now.link;
          frame = packet.now.frame.now;
        }) (self.old, output.old) (self.new, output.new) result }
        ensures written { packet.now.may_wait ≡ true → IfOk result (λ _. is_written (self.new, output.new)) };
}

/// A step that a gap ends, before the packet after the gap.
#[derive(Drop)]
pub struct UpToGap<T> {
    /// The receiver of the packets before the gap.
    pub steps: T,
}

impl<O, T: GaplessStep<O>> Step<O> for UpToGap<T> {
    ghost use Rattle.mq_walk.specs.Walking.{TakesUpToGap};

    type Fault = CaptureFault;

    ghost takes = { λ packet old new r. TakesUpToGap T.takes packet (old.0.steps, old.1) (new.0.steps, new.1) r };

    ghost is_written = { λ state. T.is_written (state.0.steps, state.1) };

    fn packet(&mut self, packet: &NumberedPacket<'_>, output: &mut O) -> Result<(), CaptureFault> {
        if packet.follows_gap() {
            return Err(CaptureFault::Gap {
                number: packet.number,
            });
        }
        self.steps.packet(packet, output)
    }
}

/// Hands each packet of a capture to a step, in order, with caller-provided memory for a packet. `supply` says whether a
/// read may wait.
pub fn walk<O, T: Step<O>, S: Supply, R: Read>(
    steps: &mut T,
    packet: &mut [u8],
    supply: &S,
    reader: &mut Watched<R>,
    output: &mut O,
) -> Result<Walked, T::Fault>
    requires { most_bytes ≤ length packet.old }
    ensures { Walks T.takes T.Fault.from_gives
        (input_of R.remaining reader.old) (input_of R.remaining reader.new)
        (steps.old, output.old) (steps.new, output.new) result }
{
    let mut capture = PcapReader::open(reader)?;
    walk_packets(&mut capture, steps, packet, supply, reader, output)
}

/// Hands each packet of a capture whose header has been read to a step.
fn walk_packets<O, T: Step<O>, S: Supply, R: Read>(
    capture: &mut PcapReader,
    steps: &mut T,
    packet: &mut [u8],
    supply: &S,
    reader: &mut Watched<R>,
    output: &mut O,
) -> Result<Walked, T::Fault>
    requires room { most_bytes ≤ length packet.old }
    requires first { number_of capture.old ≡ 1 }
    requires reading { progress_of capture.old ≡ Reading }
    ensures { WalksBehind T.takes T.Fault.from_gives (form_of capture.old)
        (input_of R.remaining reader.old) (input_of R.remaining reader.new)
        (steps.old, output.old) (steps.new, output.new) result }
{
    let mut packets = 0;
    let mut stamps = Stamps::new();
    let mut last = Stamp::of(0);
    while let Some(read) = capture.next(reader, packet)? {
        packets += 1;
        let goes_back = stamps.goes_back(read.stamp_ms);
        let moment = Stamp::of(stamps.moment_of_next(read.stamp_ms));
        let next_read = capture.next_read(supply);
        let next = NumberedPacket {
            number: packets,
            before: last,
            moment,
            goes_back,
            link: capture.link(),
            frame: &packet[..read.length],
            may_wait: next_read.may_wait,
            waits_for: next_read.number,
        };
        last = moment;
        steps.packet(&next, output)?;
    }
    Ok(Walked { packets, last })
}

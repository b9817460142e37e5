//! The listing of a capture.

ghost use Rattle.std.specs.Prelude.{◌≡◌, ◌≤◌, ◌||◌, is_err, length};
ghost use Rattle.mq_arena.specs.Vectors.{Takes, bytes_for};
ghost use Rattle.mq_count.specs.Streams.{inner_of, has_failed};
ghost use Rattle.mq_pcap.specs.Capture.{most_bytes};
ghost use Rattle.mq_pcap.specs.Filling.{input_of};
ghost use Rattle.mq_pcap.specs.Frame.{carried_in};
ghost use Rattle.mq_walk.specs.Faults as spec;
ghost use Rattle.mq_replay.specs.Listing.{Shows};
ghost use Rattle.mq_replay.specs.Putting.{PutsListing, PutsPacket};

use crate::packet_text::{put_place, put_said};
use mq_arena::{VectorSource, filled};
use mq_count::Watched;
use mq_pcap::{GREATEST_PACKET, Supply, unwrap_frame};
use mq_text::{LineFault, Text, make_room};
use mq_walk::{CaptureFault, NumberedPacket, Step, finish, walk, write_before_wait};
use std::alloc::{AllocError, Allocator};
use std::io::{Read, Write};

/// Writes a line for each packet of a capture, as text or as an object of JSON. Returns how many there are. Memory for one packet is allocated
/// from `memory` before anything is read or written. It fails with `Memory` only if that is refused. If the capture has a fault, the lines of all
/// packets before it are written first. Before a read that may wait by the stream's `supply`, the lines of all packets so far are written.
pub fn show<A: Allocator, M: VectorSource<A>, S: Supply, R: Read, W: Write>(
    memory: &mut M,
    json: bool,
    supply: &S,
    reader: &mut Watched<R>,
    writer: &mut Watched<W>,
) -> Result<u64, CaptureFault>
    ensures shows { Shows json
        (input_of R.remaining reader.old) (input_of R.remaining reader.new)
        (W.contents (inner_of writer.old)) (W.contents (inner_of writer.new))
        result }
    ensures failed { has_failed writer.new ≡ has_failed writer.old || spec.is_failed_write result }
    ensures memory { result ≡ Err CaptureFault.Memory → (reader.new ≡ reader.old) × (writer.new ≡ writer.old) }
    ensures takes { Takes (bytes_for 1 most_bytes) (M.less_than memory.old) (M.less_than memory.new) (spec.is_granted result) }
{
    let packet: Result<Vec<u8, A>, AllocError> = filled(memory, 0, GREATEST_PACKET);
    let Ok(mut packet) = packet else {
        return Err(CaptureFault::Memory);
    };
    let mut listing = Listing {
        json,
        buffer: Text::new(),
    };
    let answer = put_listing(&mut listing, packet.as_mut_slice(), supply, reader, writer);
    finish(answer, &mut listing.buffer, writer)
}

/// A listing in progress: whether its lines are objects, and the text that isn't written yet.
#[derive(Drop)]
struct Listing {
    json: bool,
    buffer: Text,
}

impl<W: Write> Step<Watched<W>> for Listing {
    ghost use Rattle.std.specs.Prelude.{◌≡◌, []};
    ghost use Rattle.mq_text.specs.Printing.{output_of};
    ghost use Rattle.mq_replay.specs.Putting.{TakesListed};

    type Fault = CaptureFault;

    ghost takes = { λ packet old new r. TakesListed packet
        (record { json = old.0.json; held = old.0.buffer.items; output = output_of W.contents old.1 })
        (record { json = new.0.json; held = new.0.buffer.items; output = output_of W.contents new.1 }) r };

    ghost is_written = { λ state. state.0.buffer.items ≡ [] };

    fn packet(
        &mut self,
        packet: &NumberedPacket<'_>,
        output: &mut Watched<W>,
    ) -> Result<(), CaptureFault> {
        put_packet(self.json, packet, &mut self.buffer, output)?;
        write_before_wait(packet.may_wait, &mut self.buffer, output)?;
        Ok(())
    }
}

/// Puts the lines of a capture.
fn put_listing<S: Supply, R: Read, W: Write>(
    listing: &mut Listing,
    packet: &mut [u8],
    supply: &S,
    reader: &mut Watched<R>,
    writer: &mut Watched<W>,
) -> Result<u64, CaptureFault>
    requires { most_bytes ≤ length packet.old }
    ensures puts { PutsListing listing.old.json
        (input_of R.remaining reader.old) (input_of R.remaining reader.new)
        (W.contents (inner_of writer.old)) (W.contents (inner_of writer.new))
        listing.old.buffer.items listing.new.buffer.items result }
    ensures failed { has_failed writer.new ≡ has_failed writer.old || spec.is_failed_write result }
    ensures no_memory { result ≡ Err CaptureFault.Memory → ⊥ }
{
    let walked = walk(listing, packet, supply, reader, writer)?;
    Ok(walked.packets)
}

/// Puts the line of a packet.
fn put_packet<W: Write>(
    json: bool,
    packet: &NumberedPacket<'_>,
    buffer: &mut Text,
    writer: &mut Watched<W>,
) -> Result<(), LineFault>
    ensures line { PutsPacket json
        (W.contents (inner_of writer.old)) (W.contents (inner_of writer.new))
        buffer.old.items buffer.new.items packet.now.number packet.now.moment (carried_in packet.now.link packet.now.frame.now) result }
    ensures failed { has_failed writer.new ≡ has_failed writer.old || is_err result }
{
    make_room(buffer, writer)?;
    let inner = unwrap_frame(packet.link, packet.frame);
    put_place(json, buffer, packet.number, packet.moment.ms());
    put_said(json, inner, buffer, writer)
}

//! The conversion of a file.

ghost use Rattle.std.specs.Prelude.{◌≡◌, ◌≤◌, ◌+◌, ◌||◌, ◌++◌, List, [], is_err, length, option_to_list, IfOk};
ghost use Rattle.mq_arena.specs.Vectors.{Takes, bytes_for};
ghost use Rattle.mq_count.specs.Streams.{inner_of, has_failed};
ghost use Rattle.mq_pcap.specs.Filling.{input_of};
ghost use Rattle.mq_text.specs.Printing.{Puts};
ghost use Rattle.mq_convert.specs.declared.choice.Choice.{Choice};
ghost use Rattle.mq_convert.specs.Blocks.{Captured, IsHeldWithin};
ghost use Rattle.mq_convert.specs.Contexts.{context_of};
ghost use Rattle.mq_convert.specs.Converting.{Converts};
ghost use Rattle.mq_convert.specs.Faults as spec;
ghost use Rattle.mq_convert.specs.Putting.{PutsCapture, ReadsBlock, block_text, held_of, records_of};
ghost use Rattle.mq_convert.specs.Records.{file_header};
ghost use Rattle.mq_convert.specs.Sieving.{HasSieved};
ghost use Rattle.mq_convert.specs.Sizes.{bytes_of_gone, least_size, most_seen};

use crate::choice::Choice;
use crate::context::{Context, MOST_SEEN};
use crate::counts::ConvertCounts;
use crate::fault::ConvertFault;
use crate::next_block::{faulty, next_block};
use crate::packet::Packet;
use crate::records::{FILE_HEADER, put_record};
use crate::sieve::Sieve;
use crate::waiting::write_before_wait;
use mq_arena::{OfAllocator, VectorSource, filled};
use mq_count::Watched;
use mq_pcap::Supply;
use mq_text::{LineFault, Text, flush, make_room, put};
use std::alloc::{AllocError, Allocator};
use std::io::{Read, Write};

/// Writes the chosen packets of a file as one classic capture of Ethernet, with moments in nanoseconds. Returns the
/// numbers of packets whose link type isn't read, of repeated packets that were left out, and of packets that the file
/// records as dropped. It allocates only before it reads or writes anything. It writes nothing until the first block is known to begin a capture. If the file has a
/// fault, the packets before it are written first. Before a read that may wait, by the stream's `supply`, all packets
/// so far are written.
pub fn convert<A: Allocator + Copy, S: Supply, R: Read, W: Write>(
    alloc: A,
    choice: Choice,
    supply: &S,
    reader: &mut Watched<R>,
    writer: &mut Watched<W>,
) -> Result<ConvertCounts, ConvertFault>
    ensures converts { Converts choice
        (input_of R.remaining reader.old) (input_of R.remaining reader.new)
        (W.contents (inner_of writer.old)) (W.contents (inner_of writer.new))
        result }
    ensures failed { has_failed writer.new ≡ has_failed writer.old || spec.is_failed_write result }
    ensures memory { result ≡ Err ConvertFault.Memory → (reader.new ≡ reader.old) × (writer.new ≡ writer.old) }
{
    convert_in(&mut OfAllocator(alloc), choice, supply, reader, writer)
}

/// Acts like `convert`, with the memory for a block and then that for the packets to compare from `memory`. Fails with
/// `Memory` only if one of them is refused.
pub fn convert_in<A: Allocator, M: VectorSource<A>, S: Supply, R: Read, W: Write>(
    memory: &mut M,
    choice: Choice,
    supply: &S,
    reader: &mut Watched<R>,
    writer: &mut Watched<W>,
) -> Result<ConvertCounts, ConvertFault>
    ensures converts { Converts choice
        (input_of R.remaining reader.old) (input_of R.remaining reader.new)
        (W.contents (inner_of writer.old)) (W.contents (inner_of writer.new))
        result }
    ensures failed { has_failed writer.new ≡ has_failed writer.old || spec.is_failed_write result }
    ensures memory { result ≡ Err ConvertFault.Memory → (reader.new ≡ reader.old) × (writer.new ≡ writer.old) }
    ensures takes { Takes (bytes_for 1 most_seen + bytes_of_gone choice.once)
        (M.less_than memory.old) (M.less_than memory.new) (spec.is_granted result) }
{
    let block: Result<Vec<u8, A>, AllocError> = filled(memory, 0, MOST_SEEN);
    let Ok(mut block) = block else {
        return Err(ConvertFault::Memory);
    };
    let Ok(sieve) = Sieve::new(memory, choice) else {
        return Err(ConvertFault::Memory);
    };
    convert_by(block.as_mut_slice(), sieve, supply, reader, writer)
}

/// Acts like `convert`, with caller-provided room for a block and a sieve that has no packets yet.
fn convert_by<A: Allocator, S: Supply, R: Read, W: Write>(
    block: &mut [u8],
    sieve: Sieve<A>,
    supply: &S,
    reader: &mut Watched<R>,
    writer: &mut Watched<W>,
) -> Result<ConvertCounts, ConvertFault>
    requires room { most_seen ≤ length block.old }
    requires start { HasSieved sieve.choice [] sieve }
    ensures converts { Converts sieve.choice
        (input_of R.remaining reader.old) (input_of R.remaining reader.new)
        (W.contents (inner_of writer.old)) (W.contents (inner_of writer.new))
        result }
    ensures failed { has_failed writer.new ≡ has_failed writer.old || spec.is_failed_write result }
    ensures no_memory { result ≡ Err ConvertFault.Memory → ⊥ }
{
    let mut buffer = Text::new();
    let answer = put_capture(block, sieve, supply, &mut buffer, reader, writer);
    if is_failed_write(&answer) {
        return answer;
    }
    flush(&mut buffer, writer)?;
    answer
}

/// Returns whether a conversion ended because a write failed.
fn is_failed_write(answer: &Result<ConvertCounts, ConvertFault>) -> bool
    ensures { result ≡ spec.is_failed_write answer.now }
{
    matches!(answer, Err(ConvertFault::Write))
}

/// Puts the capture of the packets of a file.
fn put_capture<A: Allocator, S: Supply, R: Read, W: Write>(
    block: &mut [u8],
    sieve: Sieve<A>,
    supply: &S,
    buffer: &mut Text,
    reader: &mut Watched<R>,
    writer: &mut Watched<W>,
) -> Result<ConvertCounts, ConvertFault>
    requires room { most_seen ≤ length block.old }
    requires start { HasSieved sieve.choice [] sieve }
    ensures puts { PutsCapture sieve.choice
        (input_of R.remaining reader.old) (input_of R.remaining reader.new)
        (W.contents (inner_of writer.old)) (W.contents (inner_of writer.new))
        buffer.old.items buffer.new.items result }
    ensures failed { has_failed writer.new ≡ has_failed writer.old || spec.is_failed_write result }
    ensures no_memory { result ≡ Err ConvertFault.Memory → ⊥ }
{
    let mut context = Context::new();
    let mut sieve = sieve;
    let mut number = 0;
    while let Some(size) = next_block(context.kind, number, reader, block)? {
        let seen = &block[..size.min(MOST_SEEN)];
        let held = read_block(&mut context, number, size, seen)?;
        put_held(&mut sieve, number, held, seen, buffer, writer)?;
        write_before_wait(context.kind, supply, buffer, writer)?;
        number += 1;
    }
    Ok(sieve.into_counts(context.dropped))
}

/// Reads a block with this number and this size by its seen part.
#[inline(always)]
pub(crate) fn read_block(
    context: &mut Context,
    number: u64,
    size: usize,
    seen: &[u8],
) -> Result<Option<Packet>, ConvertFault>
    requires { least_size (context_of context.old).kind ≤ length seen.now }
    ensures { ReadsBlock number (context_of context.old) (context_of context.new) size seen.now result }
{
    match context.read(size, seen) {
        Ok(held) => Ok(held),
        Err(fault) => Err(faulty(number, fault)),
    }
}

/// Puts the record of a block's packet and counts the packet, unless it is left out. The header of the capture comes
/// before the content of block 0.
#[inline(always)]
fn put_held<A: Allocator, W: Write>(
    sieve: &mut Sieve<A>,
    number: u64,
    held: Option<Packet>,
    block: &[u8],
    buffer: &mut Text,
    writer: &mut Watched<W>,
) -> Result<(), LineFault>
    requires { IsHeldWithin block.now (Ok held) }
    ensures text { Puts
        (W.contents (inner_of writer.old)) (W.contents (inner_of writer.new))
        buffer.old.items buffer.new.items (block_text sieve.old.choice sieve.old.gone number (held_of block.now held)) result }
    ensures sieved { IfOk result (λ _. (asked : Choice) (packets : List Captured) → HasSieved asked packets sieve.old
        → HasSieved asked (packets ++ option_to_list (held_of block.now held)) sieve.new) }
    ensures failed { has_failed writer.new ≡ has_failed writer.old || is_err result }
{
    if number == 0 {
        put_file_header(buffer, writer)?;
        return put_packet(sieve, held, block, buffer, writer);
    }
    put_packet(sieve, held, block, buffer, writer)
}

/// Puts the header of the capture that is written.
fn put_file_header<W: Write>(buffer: &mut Text, writer: &mut Watched<W>) -> Result<(), LineFault>
    ensures text { Puts
        (W.contents (inner_of writer.old)) (W.contents (inner_of writer.new))
        buffer.old.items buffer.new.items file_header result }
    ensures failed { has_failed writer.new ≡ has_failed writer.old || is_err result }
{
    make_room(buffer, writer)?;
    put(buffer, &FILE_HEADER);
    Ok(())
}

/// Puts the record of a block's packet and counts the packet, unless it is left out.
#[inline(always)]
fn put_packet<A: Allocator, W: Write>(
    sieve: &mut Sieve<A>,
    held: Option<Packet>,
    block: &[u8],
    buffer: &mut Text,
    writer: &mut Watched<W>,
) -> Result<(), LineFault>
    requires { IsHeldWithin block.now (Ok held) }
    ensures text { Puts
        (W.contents (inner_of writer.old)) (W.contents (inner_of writer.new))
        buffer.old.items buffer.new.items (records_of sieve.old.choice sieve.old.gone (held_of block.now held)) result }
    ensures sieved { IfOk result (λ _. (asked : Choice) (packets : List Captured) → HasSieved asked packets sieve.old
        → HasSieved asked (packets ++ option_to_list (held_of block.now held)) sieve.new) }
    ensures failed { has_failed writer.new ≡ has_failed writer.old || is_err result }
{
    let Some(packet) = held else {
        return Ok(());
    };
    if sieve.leaves_out(packet, block) {
        return Ok(());
    }
    put_record(sieve.choice(), packet, block, buffer, writer)?;
    sieve.add(packet);
    Ok(())
}

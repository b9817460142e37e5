//! Writing the packets so far before a read that may wait.

ghost use Rattle.std.specs.Prelude.{◌≡◌, ◌||◌, [], is_err};
ghost use Rattle.mq_count.specs.Streams.{inner_of, has_failed};
ghost use Rattle.mq_text.specs.Printing.{Puts};

use crate::context::Kind;
use crate::sizes::{head_size, size_in};
use mq_count::Watched;
use mq_pcap::Supply;
use mq_text::{LineFault, Text, flush};
use std::io::Write;

/// Writes the bytes that the buffer holds if reading the next block may wait.
pub(crate) fn write_before_wait<S: Supply, W: Write>(
    kind: Kind,
    supply: &S,
    buffer: &mut Text,
    writer: &mut Watched<W>,
) -> Result<(), LineFault>
    ensures text { Puts
        (W.contents (inner_of writer.old)) (W.contents (inner_of writer.new))
        buffer.old.items buffer.new.items [] result }
    ensures failed { has_failed writer.new ≡ has_failed writer.old || is_err result }
{
    if may_wait(kind, supply) {
        return flush(buffer, writer);
    }
    Ok(())
}

/// Returns whether reading the next block may wait, since not all its bytes are at hand.
fn may_wait<S: Supply>(kind: Kind, supply: &S) -> bool {
    let mut front = [0; 16];
    let there = supply.at_hand(&mut front);
    let head = head_size(kind);
    if there < head {
        return true;
    }
    // A block of an impossible size ends the conversion as soon as its head is read.
    match size_in(kind, &front[..head]) {
        Ok(size) => there < size,
        Err(_) => false,
    }
}

//! The seen part of a block: all of it, or its first bytes and its last 4.

ghost use Rattle.std.specs.Prelude.{◌≡◌, ◌<◌, ◌≤◌, length, IfErr};
ghost use Rattle.mq_pcap.specs.Filling.{input_of};
ghost use Rattle.mq_convert.specs.Filling.{FillsSeen};
ghost use Rattle.mq_convert.specs.Sizes.{most_seen};

use crate::context::MOST_SEEN;
use crate::fault::ConvertFault;
use crate::filling::fill;
use crate::passing::pass;
use mq_count::Watched;
use std::io::Read;

/// The number of first bytes that are seen of a longer block. Its last 4, which are its length, follow them.
const FIRST_SEEN: usize = MOST_SEEN - 4;

/// Reads the bytes of a block of this size from `from` on, until all are read or the stream ends. Returns the number of
/// the block's bytes that were read by then. If these are all, the seen part of the block is the front of the buffer.
#[inline(always)]
pub(crate) fn fill_seen<R: Read>(
    reader: &mut Watched<R>,
    buffer: &mut [u8],
    from: usize,
    size: usize,
) -> Result<usize, ConvertFault>
    requires order { from ≤ size }
    requires head { from ≤ 24 }
    requires room { most_seen ≤ length buffer.old }
    ensures fills { FillsSeen
        (input_of R.remaining reader.old) (input_of R.remaining reader.new)
        buffer.old buffer.new from size result }
    ensures fault { IfErr result (λ f. f ≡ ConvertFault.Read) }
{
    if size <= MOST_SEEN {
        return fill(reader, buffer, from, size);
    }
    fill_long(reader, buffer, from, size)
}

/// Acts like `fill_seen`, for a block that isn't seen as a whole.
fn fill_long<R: Read>(
    reader: &mut Watched<R>,
    buffer: &mut [u8],
    from: usize,
    size: usize,
) -> Result<usize, ConvertFault>
    requires head { from ≤ 24 }
    requires long { most_seen < size }
    requires room { most_seen ≤ length buffer.old }
    ensures fills { FillsSeen
        (input_of R.remaining reader.old) (input_of R.remaining reader.new)
        buffer.old buffer.new from size result }
    ensures fault { IfErr result (λ f. f ≡ ConvertFault.Read) }
{
    let first = fill(reader, buffer, from, FIRST_SEEN)?;
    if first < FIRST_SEEN {
        return Ok(first);
    }
    let passed = pass(reader, FIRST_SEEN, size - 4)?;
    if passed < size - 4 {
        return Ok(passed);
    }
    let last = fill(reader, buffer, FIRST_SEEN, MOST_SEEN)?;
    Ok(size - MOST_SEEN + last)
}

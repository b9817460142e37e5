//! Bytes on their way to a writer.

ghost use Rattle.std.specs.Prelude.{◌≡◌, ◌||◌, is_err};
ghost use Rattle.mq_count.specs.Streams.{inner_of, has_failed};
ghost use Rattle.mq_text.specs.Printing.{Puts};

use mq_count::Watched;
use mq_text::{LineFault, Text, flush, print, put};
use std::io::Write;

/// The number of bytes that a buffer has room for.
const ROOM: usize = 4096;

/// Puts bytes into a buffer. If they don't fit, the buffer's content is written first. Bytes that exceed the buffer's
/// room are written directly.
pub(crate) fn put_bytes<W: Write>(
    bytes: &[u8],
    buffer: &mut Text,
    writer: &mut Watched<W>,
) -> Result<(), LineFault>
    ensures text { Puts
        (W.contents (inner_of writer.old)) (W.contents (inner_of writer.new))
        buffer.old.items buffer.new.items bytes.now result }
    ensures failed { has_failed writer.new ≡ has_failed writer.old || is_err result }
{
    if bytes.len() <= buffer.remaining_capacity() {
        put(buffer, bytes);
        return Ok(());
    }
    flush(buffer, writer)?;
    if bytes.len() <= ROOM {
        put(buffer, bytes);
        return Ok(());
    }
    print(bytes, writer)
}

//! The end of work that writes through a buffer.

ghost use Rattle.mq_text.specs.Printing.{output_of};
ghost use Rattle.mq_walk.specs.Finishing.{Finishes};

use crate::capture_fault::{CaptureFault, is_failed_write};
use mq_count::Watched;
use mq_text::{Text, flush};
use std::io::Write;

/// Writes the text that the buffer holds, unless a write failed. Returns the result of the work, or `Write` if this write
/// fails.
pub fn finish<T: Copy, W: Write>(
    answer: Result<T, CaptureFault>,
    buffer: &mut Text,
    writer: &mut Watched<W>,
) -> Result<T, CaptureFault>
    ensures { Finishes answer
        (output_of W.contents writer.old) (output_of W.contents writer.new)
        buffer.old.items buffer.new.items result }
{
    if is_failed_write(&answer) {
        return answer;
    }
    flush(buffer, writer)?;
    answer
}

//! The writing of known text before a read that may wait.

ghost use Rattle.std.specs.Prelude.{◌≡◌, ◌||◌, [], IfOk, is_err, true};
ghost use Rattle.mq_count.specs.Streams.{inner_of, has_failed};
ghost use Rattle.mq_text.specs.Printing.{Puts};

use mq_count::Watched;
use mq_text::{LineFault, Text, flush};
use std::io::Write;

/// Writes the buffered text if reading the next record may wait.
pub fn write_before_wait<W: Write>(
    may_wait: bool,
    buffer: &mut Text,
    writer: &mut Watched<W>,
) -> Result<(), LineFault>
    ensures text { Puts
        (W.contents (inner_of writer.old)) (W.contents (inner_of writer.new))
        buffer.old.items buffer.new.items [] result }
    ensures written { may_wait ≡ true → IfOk result (λ _. buffer.new.items ≡ []) }
    ensures failed { has_failed writer.new ≡ has_failed writer.old || is_err result }
{
    if may_wait {
        return flush(buffer, writer);
    }
    Ok(())
}

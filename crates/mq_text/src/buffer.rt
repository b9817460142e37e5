//! Text on its way to a writer.

ghost use Rattle.std.specs.Prelude.{◌≡◌, ◌≤◌, ◌+◌, ◌++◌, ◌||◌, [], IfOk, is_err, length};
ghost use Rattle.arrayvec.specs.ArrayVec.{array_vec_len};
ghost use Rattle.mq_text.specs.Printing.{Puts};

use crate::output::Output;
use crate::printing::LineFault;
use crate::text::Text;

/// The most bytes that a buffer receives between two calls of `make_room`. The longest piece is a record's line up to
/// the first source of its message, with at most 250 bytes.
const PIECE: usize = 256;

/// Writes the buffer if it has no room for a piece.
pub fn make_room<O: Output>(buffer: &mut Text, writer: &mut O) -> Result<(), LineFault>
    ensures text { Puts
        (O.held writer.old) (O.held writer.new)
        buffer.old.items buffer.new.items [] result }
    ensures room { IfOk result (λ _. array_vec_len buffer.new + 256 ≤ 4096) }
    ensures failed { O.failed writer.new ≡ O.failed writer.old || is_err result }
    ensures same_loan { O.loan writer.new ≡ O.loan writer.old }
{
    if buffer.remaining_capacity() < PIECE {
        return flush(buffer, writer);
    }
    Ok(())
}

/// Writes the buffer.
pub fn flush<O: Output>(buffer: &mut Text, writer: &mut O) -> Result<(), LineFault>
    ensures text { Puts
        (O.held writer.old) (O.held writer.new)
        buffer.old.items buffer.new.items [] result }
    ensures empty { IfOk result (λ _. buffer.new.items ≡ []) }
    ensures failed { O.failed writer.new ≡ O.failed writer.old || is_err result }
    ensures same_loan { O.loan writer.new ≡ O.loan writer.old }
{
    writer.print(buffer.as_slice())?;
    buffer.clear();
    Ok(())
}

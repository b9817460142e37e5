//! Printing on a watched writer.

ghost use Rattle.std.specs.Prelude.{◌≡◌, ◌||◌, is_err};
ghost use Rattle.mq_count.specs.Streams.{inner_of, has_failed};
ghost use Rattle.mq_text.specs.Printing.{Prints};

use mq_count::Watched;
use std::io::Write;
use thiserror::Error;

/// The reason why a text was not written whole.
#[derive(Clone, Copy, Debug, PartialEq, Eq, Error)]
pub enum LineFault {
    /// A failed write, or a write of some bytes that wrote none.
    #[error("write failed")]
    Write,
}

/// Writes a text, in as many writes as it needs. Fails only if a write fails or writes nothing, and makes no write
/// afterwards. It allocates nothing.
pub fn print<W: Write>(text: &[u8], writer: &mut Watched<W>) -> Result<(), LineFault>
    ensures text { Prints
        (W.contents (inner_of writer.old)) (W.contents (inner_of writer.new))
        text.now result }
    ensures failed { has_failed writer.new ≡ has_failed writer.old || is_err result }
{
    let mut rest = text;
    while !rest.is_empty() {
        match writer.write(rest) {
            Ok(0) | Err(_) => return Err(LineFault::Write),
            Ok(count) => rest = &rest[count..],
        }
    }
    Ok(())
}

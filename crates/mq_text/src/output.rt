//! Outputs for lines.

ghost use Rattle.std.specs.Prelude.{◌≡◌, ◌||◌, is_err};
ghost use Rattle.mq_text.specs.Printing.{Prints};

use crate::printing::{LineFault, print};
use mq_count::Watched;
use std::io::Write;

/// A receiver of texts that takes a text whole, or a prefix and then nothing: a watched writer, or the caller's memory.
pub trait Output {
    ghost use Rattle.std.specs.Prelude.{ℕ, Bool, List, Option};

    /// The bytes that it holds, if they are known.
    ghost held: { Self → Option (List ℕ) };

    /// The failure flag: some text was not taken whole.
    ghost failed: { Self → Bool };

    /// The loan of the memory that it writes into, by the loan's ghost name; 0 without such memory.
    ghost loan: { Self → ℕ };

    /// Writes a text, or a prefix of it before a fault.
    fn print(&mut self, text: &[u8]) -> Result<(), LineFault>
        ensures text { Prints (held self.old) (held self.new) text.now result }
        ensures failed { failed self.new ≡ failed self.old || is_err result }
        ensures same_loan { loan self.new ≡ loan self.old };
}

impl<W: Write> Output for Watched<W> {
    ghost use Rattle.mq_count.specs.Streams.{inner_of, has_failed};

    ghost held = { λ writer. W.contents (inner_of writer) };

    ghost failed = { has_failed };

    ghost loan = { λ writer. 0 };

    fn print(&mut self, text: &[u8]) -> Result<(), LineFault> {
        print(text, self)
    }
}

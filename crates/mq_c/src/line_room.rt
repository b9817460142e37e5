//! Memory of the caller, for one line.

ghost use Rattle.std.specs.Prelude.{◌≡◌, ◌≤◌, ◌+◌, ◌++◌, IsTrue, length, take, drop, false};

use mq_text::{LineFault, Output};
use std::marker::{Brand, PhantomData};

/// The content of the memory when it was given. Only proofs know it; a call that passes `Brand` names it.
pub(crate) trait Lent {
    ghost use Rattle.std.specs.Prelude.{ℕ, List};

    ghost before: { List ℕ };
}

impl Lent for Brand {
    ghost use Rattle.std.specs.Prelude.{[]};

    ghost before = { [] };
}

/// The memory, the number of bytes written, and whether there was more to write than there was room for. After the
/// written bytes the memory is unchanged.
#[derive(Drop)]
pub(crate) struct LineRoom<'a, L: Lent> {
    out: &'a mut [u8],
    written: usize,
    full: bool,
    of: PhantomData<L>,
    ghost within: { written ≤ length out.now },
    ghost behind: { drop written out.now ≡ drop written L.before },
    ghost same_length: { length out.now ≡ length L.before },
    ghost no_room: { IsTrue full → written ≡ length out.now },
}

impl<'a, L: Lent> LineRoom<'a, L> {
    /// Returns the memory with nothing written.
    pub(crate) fn new(out: &'a mut [u8]) -> LineRoom<'a, L>
        requires lent { out.old ≡ L.before }
        ensures same_out { result.out.ghost_name ≡ out.entry.ghost_name }
        ensures written { result.written ≡ 0 }
        ensures full { result.full ≡ false }
    {
        LineRoom {
            out,
            written: 0,
            full: false,
            of: PhantomData,
        }
    }

    /// Returns the number of bytes written.
    pub(crate) fn written(&self) -> usize
        ensures { result ≡ self.now.written }
    {
        self.written
    }
}

/// Overwrites the bytes from a place on.
fn overwrite(out: &mut [u8], at: usize, bytes: &[u8])
    requires room { at + length bytes.now ≤ length out.old }
    ensures { out.new ≡ take at out.old ++ bytes.now ++ drop (at + length bytes.now) out.old }
{
    out[at..at + bytes.len()].copy_from_slice(bytes);
}

impl<'a, L: Lent> Output for LineRoom<'a, L> {
    ghost use Rattle.mq_c.specs.LineRoom.{written_to};

    ghost held = { written_to };

    ghost failed = { λ room. room.full };

    ghost loan = { λ room. room.out.ghost_name };

    fn print(&mut self, text: &[u8]) -> Result<(), LineFault> {
        let at = self.written;
        let count = text.len().min(self.out.len() - at);
        self.written = at + count;
        overwrite(self.out, at, &text[..count]);
        if count < text.len() {
            self.full = true;
            return Err(LineFault::Write);
        }
        Ok(())
    }
}

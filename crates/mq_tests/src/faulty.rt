//! A slow and failing reader.

ghost use Rattle.std.specs.Prelude.{◌≤◌, IfOk};

use std::io;
use std::io::{ErrorKind, Read};

/// A reader. A call reads at most `piece` bytes of the inner one, but at least one. From call `fails_at` on, counted
/// from 1, every call fails.
#[derive(Drop)]
pub(crate) struct Faulty<R> {
    inner: R,
    piece: usize,
    fails_at: u64,
    calls: u64,
}

impl<R> Faulty<R> {
    pub(crate) fn new(inner: R, piece: usize, fails_at: u64) -> Faulty<R> {
        Faulty {
            inner,
            piece,
            fails_at,
            calls: 0,
        }
    }

    /// Returns how many of `len` bytes this call may read, or an error if it fails.
    fn step(&mut self, len: usize) -> io::Result<usize>
        ensures { IfOk result (λ n. n ≤ len) }
    {
        self.calls = self.calls.saturating_add(1);
        if self.calls >= self.fails_at {
            return Err(io::Error::from(ErrorKind::BrokenPipe));
        }
        Ok(len.min(self.piece.max(1)))
    }
}

impl<R: Read> Read for Faulty<R> {
    fn read(&mut self, buf: &mut [u8]) -> io::Result<usize> {
        let piece = self.step(buf.len())?;
        self.inner.read(&mut buf[..piece])
    }
}

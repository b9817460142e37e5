//! Streams that know whether a call failed and how many bytes were read.

ghost use Rattle.std.specs.Prelude.{◌≡◌, ◌≤◌, ◌||◌, false, is_err, IfOk};
ghost use Rattle.std.specs.Io.{ReadsAtMost, WritesAtMost};
ghost use Rattle.std.specs.Io.KnownBytes.{Keeps, ReadConsumes, WriteAppends};

use std::io;
use std::io::{Read, Write};

/// A reader or a writer with the outcome of its calls. It makes each call on the inner stream and returns the result.
#[derive(Drop)]
pub struct Watched<T> {
    inner: T,
    failed: bool,
    taken: u64,
}

impl<T> Watched<T> {
    ghost use Rattle.mq_count.specs.Streams.{inner_of, has_failed, taken_from};

    /// Wraps a reader or writer. No call has failed yet.
    pub fn new(inner: T) -> Watched<T>
        ensures inner { inner_of result ≡ inner }
        ensures failed { has_failed result ≡ false }
        ensures taken { taken_from result ≡ 0 }
    {
        Watched {
            inner,
            failed: false,
            taken: 0,
        }
    }

    /// Returns the inner reader or writer.
    pub fn into_inner(self) -> T
        ensures { result ≡ inner_of self }
    {
        self.inner
    }

    /// Returns whether a call failed, or a write of some bytes wrote none.
    pub fn failed(&self) -> bool
        ensures { result ≡ has_failed self.now }
    {
        self.failed
    }

    /// Returns the number of bytes read. It stays at the greatest u64.
    pub fn taken(&self) -> u64
        ensures { result ≡ taken_from self.now }
    {
        self.taken
    }
}

impl<R: Read> Read for Watched<R> {
    ghost use Rattle.mq_count.specs.Streams.{inner_of, has_failed, taken_from, count_of, counted_on};

    ghost remaining = { λ w. R.remaining (inner_of w) };

    #[inline(always)]
    fn read(&mut self, buf: &mut [u8]) -> io::Result<usize>
        ensures bound { ReadsAtMost result buf.new }
        ensures bytes { ReadConsumes (R.remaining (inner_of self.old)) (R.remaining (inner_of self.new)) result buf.new }
        ensures failed { has_failed self.new ≡ has_failed self.old || is_err result }
        ensures taken { taken_from self.new ≡ counted_on (taken_from self.old) (count_of result) }
    {
        let answer = self.inner.read(buf);
        let count = match &answer {
            Ok(count) => *count,
            Err(_) => {
                self.failed = true;
                0
            }
        };
        self.taken = self.taken.saturating_add(count as u64);
        answer
    }
}

impl<W: Write> Write for Watched<W> {
    ghost use Rattle.mq_count.specs.Streams.{inner_of, has_failed, taken_from, is_failed_write};

    ghost contents = { λ w. W.contents (inner_of w) };

    fn write(&mut self, buf: &[u8]) -> io::Result<usize>
        ensures bound { WritesAtMost result buf.now }
        ensures bytes { WriteAppends (W.contents (inner_of self.old)) (W.contents (inner_of self.new)) result buf.now }
        ensures failed { has_failed self.new ≡ has_failed self.old || is_failed_write result buf.now }
        ensures taken { taken_from self.new ≡ taken_from self.old }
    {
        let answer = self.inner.write(buf);
        let refused_all = matches!(&answer, Ok(0)) && !buf.is_empty();
        if answer.is_err() || refused_all {
            self.failed = true;
        }
        answer
    }

    fn flush(&mut self) -> io::Result<()>
        ensures bytes { Keeps (W.contents (inner_of self.old)) (W.contents (inner_of self.new)) }
        ensures failed { has_failed self.new ≡ has_failed self.old || is_err result }
        ensures taken { taken_from self.new ≡ taken_from self.old }
    {
        let answer = self.inner.flush();
        if answer.is_err() {
            self.failed = true;
        }
        answer
    }
}

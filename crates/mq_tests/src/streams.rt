//! Watched streams.

ghost use Rattle.std.specs.Prelude.{◌≤◌, IfOk};

use crate::facts::{expect_none_wrong, expect_that};
use mq_count::Watched;
use std::io;
use std::io::{ErrorKind, Read, Write};

/// A stream that takes and returns one byte a call, counts its flushes, and fails from the third call on.
#[derive(Drop)]
struct Fake {
    calls: u8,
    flushes: u8,
}

impl Fake {
    fn step(&mut self, len: usize) -> io::Result<usize>
        ensures { IfOk result (λ n. n ≤ len) }
    {
        self.calls = self.calls.saturating_add(1);
        if self.calls > 2 {
            return Err(io::Error::from(ErrorKind::BrokenPipe));
        }
        Ok(len.min(1))
    }
}

impl Read for Fake {
    fn read(&mut self, buf: &mut [u8]) -> io::Result<usize> {
        self.step(buf.len())
    }
}

impl Write for Fake {
    fn write(&mut self, buf: &[u8]) -> io::Result<usize> {
        self.step(buf.len())
    }

    fn flush(&mut self) -> io::Result<()> {
        self.flushes = self.flushes.saturating_add(1);
        self.step(0)?;
        Ok(())
    }
}

fn new_fake() -> Fake {
    Fake {
        calls: 0,
        flushes: 0,
    }
}

/// Returns whether a read succeeds or fails as expected, with this many bytes taken afterwards.
fn is_read(watched: &mut Watched<Fake>, taken: u64, fails: bool) -> bool {
    let mut buf = [0; 4];
    let has_failed = watched.read(&mut buf).is_err();
    has_failed == fails && watched.taken() == taken && watched.failed() == fails
}

#[test]
fn reads_are_counted(rt: HostRuntime) {
    let mut watched = Watched::new(new_fake());
    expect_that(&rt, is_read(&mut watched, 1, false), "one byte");
    expect_that(&rt, is_read(&mut watched, 2, false), "two bytes");
    expect_that(&rt, is_read(&mut watched, 2, true), "a read that fails");
}

/// Returns whether a write of a text to memory without room has failed, or None if it returns an error.
fn has_failed(text: &str) -> Option<bool> {
    let mut nowhere: &mut [u8] = &mut [];
    let mut watched = Watched::new(&mut nowhere);
    let is_written = watched.write(text.as_bytes()).is_ok();
    is_written.then_some(watched.failed())
}

#[test]
fn a_write_that_takes_nothing_has_failed(rt: HostRuntime) {
    expect_that(&rt, has_failed("") == Some(false), "nothing is written");
    expect_that(&rt, has_failed("a") == Some(true), "a byte is not taken");
}

/// Returns what is wrong, unless a flush and a write succeed, and the next flush fails.
fn wrong_flushes(watched: &mut Watched<&mut Fake>) -> Option<&'static str> {
    if watched.flush().is_err() {
        return Some("the first flush");
    }
    if watched.write(b"ab").is_err() || watched.failed() {
        return Some("the write");
    }
    if watched.flush().is_ok() || !watched.failed() || watched.taken() != 0 {
        return Some("the flush that fails");
    }
    None
}

#[test]
fn flushes_are_passed_on(rt: HostRuntime) {
    let mut inner = new_fake();
    let wrong = wrong_flushes(&mut Watched::new(&mut inner));
    expect_none_wrong(&rt, wrong, "flushes");
    expect_that(&rt, inner.flushes == 2, "two flushes");
}

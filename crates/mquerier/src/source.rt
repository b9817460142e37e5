//! The input of the program, read in large pieces.

use mq_convert::FIRST_BYTES;
use mq_pcap::Supply;
use std::alloc::Global;
use std::cell::RefCell;
use std::io;
use std::io::{BufReader, ErrorKind, Read};

/// The number of first bytes that are kept: those that decide whether a capture is converted before a check.
pub const FIRST: usize = FIRST_BYTES;

/// The number of bytes that are read at once.
const INPUT: usize = 65_536;

/// A stream that is read in large pieces. One reference reads it. Another returns the bytes at hand, and the first
/// bytes.
#[derive(Drop)]
pub struct Source<R>(RefCell<BufReader<Beginning<R>>>);

impl<R: Read> Source<R> {
    /// Returns the source that reads from `inner`, and keeps at most `most` of its first bytes.
    pub fn keeping(alloc: Global, inner: R, most: usize) -> io::Result<Source<R>>
    where
        R: Drop,
    {
        let kept = Vec::with_capacity(alloc, most)?;
        let reader = BufReader::with_capacity(alloc, INPUT, Beginning { inner, kept })?;
        Ok(Source(RefCell::new(reader)))
    }

    /// Returns the source that reads from `inner`, and keeps the bytes that decide how it is read.
    pub fn new(alloc: Global, inner: R) -> io::Result<Source<R>>
    where
        R: Drop,
    {
        Source::keeping(alloc, inner, FIRST)
    }

    /// Returns the first bytes of the stream. Bytes that were not read are 0.
    pub fn first(&self) -> [u8; FIRST] {
        let mut first = [0; FIRST];
        if let Ok(reader) = self.0.try_borrow() {
            for (to, from) in first.iter_mut().zip(reader.get_ref().kept.as_slice()) {
                *to = *from;
            }
        }
        first
    }
}

impl<R: Read + Drop> Source<R> {
    /// Returns the first bytes that were read, as many as are kept.
    pub fn into_kept(self) -> Vec<u8> {
        self.0.into_inner().into_inner().kept
    }
}

impl<R: Read> Read for &Source<R> {
    #[inline(always)]
    fn read(&mut self, buf: &mut [u8]) -> io::Result<usize> {
        match self.0.try_borrow_mut() {
            Ok(mut reader) => reader.read(buf),
            // No call keeps the reader, so it is never busy.
            Err(_) => Err(io::Error::from(ErrorKind::ResourceBusy)),
        }
    }
}

impl<R: Read> Supply for Source<R> {
    #[inline(always)]
    fn at_hand(&self, front: &mut [u8; 16]) -> usize {
        let Ok(reader) = self.0.try_borrow() else {
            return 0;
        };
        let there = reader.buffer();
        if there.len() >= 16 {
            front.copy_from_slice(&there[..16]);
        } else {
            front[..there.len()].copy_from_slice(there);
        }
        there.len()
    }
}

/// A stream whose first bytes are kept, as many as `kept` has room for.
#[derive(Drop)]
struct Beginning<R> {
    inner: R,
    kept: Vec<u8>,
}

impl<R: Read> Read for Beginning<R> {
    fn read(&mut self, buf: &mut [u8]) -> io::Result<usize> {
        let count = self.inner.read(buf)?;
        let room = self.kept.capacity() - self.kept.len();
        let read = &buf[..count];
        // Within its capacity a vector grows without an allocation, so this never fails.
        let _ = self.kept.extend_from_slice(&read[..count.min(room)]);
        Ok(count)
    }
}

//! Memory for a part of a text, which takes as much of it as there is room for.

ghost use Rattle.std.specs.Prelude.{◌≡◌, ◌+◌, ◌<◌, ◌≤◌, ◌∷◌, ◌++◌, [], Some, drop, length, take};
ghost use Rattle.mq_page.specs.TextRooms.{passed_in};

use http_server::Log;
use mq_arena::Lodged;
use mq_text::{Text, put};
use std::io;
use std::io::Write;

/// Memory for the part of a text after its first `skip` bytes, and as much of the part as was written. The bytes before
/// the part are counted; only proofs read them in the log, and `skip`.
#[derive(Drop)]
pub(crate) struct TextRoom {
    bytes: Vec<u8, Lodged>,
    skip: usize,
    left: usize,
    passed: Log<Text, usize>,
    ghost counted: { length (passed_in passed.items) + left ≡ skip },
    ghost nothing: { 0 < left → bytes.items ≡ [] },
}

impl TextRoom {
    /// Returns the memory of an empty vector, for the part of a text after its first `skip` bytes.
    pub(crate) fn of(bytes: Vec<u8, Lodged>, skip: usize) -> TextRoom
        requires { bytes.items ≡ [] }
        ensures bytes { result.bytes ≡ bytes }
        ensures skip { result.skip ≡ skip }
        ensures nothing { result.passed.items ≡ [] }
    {
        TextRoom {
            bytes,
            skip,
            left: skip,
            passed: Log::new(),
        }
    }

    /// Returns the written part of the text.
    pub(crate) fn part(&self) -> &[u8]
        ensures { result.now ≡ drop self.now.skip (passed_in self.now.passed.items ++ self.now.bytes.items) }
    {
        self.bytes.as_slice()
    }

    /// Passes over bytes before the part, and returns how many.
    fn pass(&mut self, more: &[u8]) -> usize
        requires { 0 < self.old.left }
        ensures passed { passed_in self.new.passed.items ≡ passed_in self.old.passed.items ++ take result more.now }
        ensures bytes { self.new.bytes ≡ self.old.bytes }
        ensures skip { self.new.skip ≡ self.old.skip }
        ensures within { result ≤ length more.now }
    {
        let count = self.left.min(more.len()).min(4096);
        let mut before = Text::new();
        put(&mut before, &more[..count]);
        self.passed = self.passed.and(&before, &count);
        self.left -= count;
        count
    }
}

/// Writing passes over the bytes before the part, then takes as many bytes as there is room for, and none without room.
/// For a proof `skip` stands before the text, so that the room is still for the same part after calls that write on any
/// writer.
impl Write for TextRoom {
    ghost contents = { λ room. Some (room.skip ∷ passed_in room.passed.items ++ room.bytes.items) };

    fn write(&mut self, more: &[u8]) -> io::Result<usize> {
        if self.left > 0 {
            return Ok(self.pass(more));
        }
        let room = self.bytes.capacity().saturating_sub(self.bytes.len());
        let count = more.len().min(room);
        self.bytes.extend_from_slice(&more[..count])?;
        Ok(count)
    }

    fn flush(&mut self) -> io::Result<()> {
        Ok(())
    }
}

//! The queries of a call, in memory of the caller.

ghost use Rattle.std.specs.Prelude.{◌≡◌, ◌≤◌, ◌<◌, ◌+◌, ◌++◌, ◌^◌, length, drop};
ghost use Rattle.mq_c.specs.Queries.{framed, outbox_at, outbox_of};

use byteorder::{BigEndian, ByteOrder};
use mq_link::QueryOutlet;
use mq_wire::{Query, WireKey};

/// The most bytes of a message, whose length has two bytes.
const LONGEST: usize = 65535;

/// The memory of the caller, and the queries written to it in order. Each comes after its destination and its length. A
/// query that doesn't fit is left out, and answered by false.
#[derive(Drop)]
pub(crate) struct Queries<'a> {
    out: &'a mut [u8],
    written: usize,
    sent: u32,
    unsent: u32,
}

impl<'a> Queries<'a> {
    /// Returns the memory without queries.
    pub(crate) fn new(out: &'a mut [u8]) -> Queries<'a>
        ensures same_out { result.out.ghost_name ≡ out.entry.ghost_name }
        ensures empty { outbox_of result ≡ outbox_at out.old }
    {
        Queries {
            out,
            written: 0,
            sent: 0,
            unsent: 0,
        }
    }

    /// Returns the number of bytes written.
    pub(crate) fn written(&self) -> usize
        ensures { result ≡ self.now.written }
    {
        self.written
    }

    /// Returns the number of queries written.
    pub(crate) fn sent(&self) -> u32
        ensures { result ≡ self.now.sent }
    {
        self.sent
    }

    /// Returns the number of queries that didn't fit.
    pub(crate) fn unsent(&self) -> u32
        ensures { result ≡ self.now.unsent }
    {
        self.unsent
    }
}

/// Writes a query with its destination and its length to the front.
fn frame<K: WireKey>(to: K, bytes: &[u8], out: &mut [u8])
    requires few { length bytes.now < 2 ^ 16 }
    requires room { K.WIDTH + (2 + length bytes.now) ≤ length out.old }
    ensures { out.new ≡ framed K.WIDTH (K.number to) bytes.now
        ++ drop (K.WIDTH + (2 + length bytes.now)) out.old }
{
    let (head, rest) = out.split_at_mut(K::WIDTH);
    let (length, rest) = rest.split_at_mut(2);
    let (message, _) = rest.split_at_mut(bytes.len());
    to.write(head);
    BigEndian::write_u16(length, bytes.len() as u16);
    message.copy_from_slice(bytes);
}

impl<'a, K: WireKey> QueryOutlet<K> for Queries<'a> {
    ghost use Rattle.mq_c.specs.Queries.{TakesFramed};

    ghost takes = { TakesFramed K.WIDTH };

    fn query(&mut self, to: K, _query: &Query<'_, K>, bytes: &[u8]) -> bool {
        let room = self.out.len();
        if bytes.len() > LONGEST
            || room < self.written
            || room - self.written < K::WIDTH + 2 + bytes.len()
        {
            self.unsent = self.unsent.saturating_add(1);
            return false;
        }
        frame(to, bytes, &mut self.out[self.written..]);
        self.written += K::WIDTH + 2 + bytes.len();
        self.sent = self.sent.saturating_add(1);
        true
    }
}

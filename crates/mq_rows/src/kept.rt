//! An outlet that keeps the queries in an array.

use byteorder::{BigEndian, ByteOrder};
use mq_link::Outlet;
use mq_wire::WireKey;

/// The most bytes of a message, whose length has two bytes.
const LONGEST: usize = 65_535;

/// An outlet that writes each query to an array: its destination, its length in two bytes and its bytes. Unless it
/// `is_sent`, no query is written and each counts as unsent.
#[derive(Drop)]
pub struct Kept<'a> {
    bytes: &'a mut [u8],
    length: usize,
    is_sent: bool,
}

impl<'a> Kept<'a> {
    /// Returns the outlet over this array.
    pub fn new(bytes: &'a mut [u8], is_sent: bool) -> Kept<'a> {
        Kept {
            bytes,
            length: 0,
            is_sent,
        }
    }

    /// Returns the queries so far.
    pub fn written(&self) -> &[u8] {
        &self.bytes[..self.length.min(self.bytes.len())]
    }
}

impl<'a, K: WireKey> Outlet<K> for Kept<'a> {
    ghost takes = { λ _ _ _ _ _. Unit {0} };

    fn datagram(&mut self, to: K, bytes: &[u8]) -> bool {
        let start = self.length.min(self.bytes.len());
        let rest = &mut self.bytes[start..];
        if !self.is_sent || bytes.len() > LONGEST || rest.len() < K::WIDTH + 2 + bytes.len() {
            return false;
        }
        let (head, rest) = rest.split_at_mut(K::WIDTH);
        let (length, rest) = rest.split_at_mut(2);
        let (message, _) = rest.split_at_mut(bytes.len());
        to.write(head);
        BigEndian::write_u16(length, bytes.len() as u16);
        message.copy_from_slice(bytes);
        self.length = start + K::WIDTH + 2 + bytes.len();
        true
    }
}

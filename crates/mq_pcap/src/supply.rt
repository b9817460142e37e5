//! The bytes that a stream has at hand, so that a caller can write its text before a read that may wait.

/// The supply of a stream: the bytes that it returns next without waiting for more.
///
/// No clause states them, since they may stand in a cell. No text depends on them, only the moment at which it is
/// written.
pub trait Supply {
    /// Copies the first bytes at hand to the front of `front`, and returns the number of all bytes at hand.
    fn at_hand(&self, front: &mut [u8; 16]) -> usize;
}

/// The supply of a stream that never waits.
#[derive(Clone, Copy)]
pub struct Ready;

impl Supply for Ready {
    fn at_hand(&self, _front: &mut [u8; 16]) -> usize {
        usize::MAX
    }
}

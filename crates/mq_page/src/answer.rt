//! The answer of a call.

/// The answer of a call.
#[repr(C)]
#[derive(Clone, Copy, PartialEq, Eq)]
pub struct Answer {
    /// The status: 0 if all was done, or the number of its fault.
    pub status: u64,
    /// The number of bytes of the text at the front of the memory.
    pub written: u64,
    /// The count if all was done: the packets of a listing, the converted packets with unread link types, or the
    /// findings of a check. Otherwise it is the record or the block that has the fault, or 0.
    pub number: u64,
}

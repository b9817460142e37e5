//! Counts of a conversion.

use crate::unread::Unread;

/// The counts of a conversion.
#[derive(Drop)]
pub struct ConvertCounts {
    /// The written packets whose link type isn't read.
    pub unread: Unread,
    /// The number of repeated packets that were left out.
    pub repeated: u64,
    /// The number of packets that the file records as dropped.
    pub dropped: u64,
}

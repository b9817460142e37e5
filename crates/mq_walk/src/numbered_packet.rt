//! Packets of a capture with their places in it.

ghost use Rattle.std.specs.Prelude.{◌≡◌, ◌+◌};
ghost use Rattle.mq_walk.specs.PlacedPackets as spec;

use crate::moments::is_gap;
use crate::stamp::Stamp;
use mq_pcap::LinkType;

/// A packet of a capture, with its number and its moment.
#[derive(Clone, Copy)]
pub struct NumberedPacket<'a> {
    /// The number of the packet, from 1.
    pub number: u64,
    /// The moment of the packet before it, or 0.
    pub before: Stamp,
    /// The moment of the packet.
    pub moment: Stamp,
    /// True if its stamp goes back: it is less than the stamp that the moment of the packet before comes from.
    pub goes_back: bool,
    /// The link type of the capture.
    pub link: LinkType,
    /// The captured bytes.
    pub frame: &'a [u8],
    /// True if a read of the next packet may wait.
    pub may_wait: bool,
    /// The number of the packet whose read may wait.
    pub waits_for: u64,
    ghost waits_for_next: { waits_for ≡ number + 1 },
}

impl NumberedPacket<'_> {
    /// Returns whether more than a day lies between this packet and the one before it.
    pub(crate) fn follows_gap(&self) -> bool
        ensures { result ≡ spec.is_gap self.now.before self.now.moment }
    {
        let before = self.before.moment();
        is_gap(before, self.moment.moment())
    }
}

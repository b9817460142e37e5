//! The state of a reader of captures between calls.

ghost use Rattle.std.specs.Prelude.{◌≤◌, ◌^◌};
ghost use Rattle.mq_pcap.specs.Capture.{most_bytes};

use crate::fault::PcapFault;
use crate::form::Form;

/// A packet of a capture. Its bytes are the first ones of the caller's buffer.
#[derive(Clone, Copy, PartialEq, Eq)]
pub struct Packet {
    /// The packet's time in milliseconds: its seconds, and the whole milliseconds of its fraction.
    pub stamp_ms: u64,
    /// The number of captured bytes, at most `GREATEST_PACKET`.
    pub length: usize,
    ghost within: { length ≤ most_bytes },
    ghost in_range: { stamp_ms ≤ 2 ^ 53 },
}

/// A read that comes next, and whether it may wait.
#[derive(Clone, Copy)]
pub struct NextRead {
    /// The number of its record.
    pub number: u64,
    /// True if not all bytes of the record are at hand.
    pub may_wait: bool,
}

/// The progress of a reader.
#[derive(Clone, Copy)]
pub enum Progress {
    /// Reading: a record may follow.
    Reading,
    /// The end of the stream, after a record.
    Ended,
    /// A fault.
    Stopped(PcapFault),
}

/// A reader of a capture from a stream, record by record. It keeps no packet and no stream: each call borrows both the
/// stream, always the same, and a buffer for a packet.
#[derive(Drop)]
pub struct PcapReader {
    pub(crate) form: Form,
    pub(crate) number: u64,
    pub(crate) progress: Progress,
    ghost few: { number ≤ 4294967296 },
}

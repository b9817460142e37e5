//! Faults of captures.

use thiserror::Error;

/// The reason why a capture cannot be read. In the file's header it is the first of `CutHeader`, `Magic`, `Version` and
/// `LinkType` that holds, in a record the first of `Endless`, `CutHeader`, `TooLong` and `CutData`.
#[derive(Clone, Copy, Debug, PartialEq, Eq, Error)]
pub enum PcapFault {
    /// A failed read of the stream.
    #[error("a read of the capture failed")]
    Read,
    /// An unknown magic number, in either byte order.
    #[error("it is no classic capture file")]
    Magic,
    /// A version other than 2.4.
    #[error("the version of the file is not 2.4")]
    Version,
    /// A link type other than Ethernet (1) and raw IP (101).
    #[error("the link type is neither Ethernet nor raw IP")]
    LinkType,
    /// An end of the stream within the header of a record; for record 0 within the file's header.
    #[error("record {number}: the file ends within a header")]
    CutHeader {
        /// The record's number, counted from 1.
        number: u64,
    },
    /// An end of the stream within a record's data.
    #[error("record {number}: the file ends within a packet")]
    CutData {
        /// The record's number, counted from 1.
        number: u64,
    },
    /// A record with a length above 262144 bytes.
    #[error("record {number}: the packet has more than 262144 bytes")]
    TooLong {
        /// The record's number, counted from 1.
        number: u64,
    },
    /// A byte after 4294967295 records.
    #[error("the file has more than 4294967295 packets")]
    Endless,
}

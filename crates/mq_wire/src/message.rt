//! Messages, and the faults of bytes that encode none.

use crate::query::Query;
use crate::records::Records;
use crate::wire_key::WireKey;
use mq_count::OlderVersion;

/// A message of a router or a host. It borrows its sources from the parsed bytes.
#[derive(Drop)]
pub enum Message<'a, K: WireKey> {
    /// A query of a router (RFC 3376 section 4.1, RFC 3810 section 5.1).
    Query(Query<'a, K>),
    /// A Report of an older version: a host wants the group from every source. RFC 2236 section 2.1, RFC 3376 section
    /// 7.3.2.
    OldReport(OlderVersion, K),
    /// A Leave (RFC 2236 section 3) or a Done (RFC 2710 section 3.1): an older host no longer wants the group.
    Leave(K),
    /// A Report of IGMPv3 or MLDv2, with a record for each group (RFC 3376 section 4.2, RFC 3810 section 5.2).
    Report(Records<'a, K>),
}

/// The meaning of a message's type.
#[derive(Clone, Copy, Drop)]
pub(crate) enum MessageType {
    Query,
    OlderReport(OlderVersion),
    Leave,
    Report,
}

/// The reason why bytes encode no message: the first that holds, in this order. Exception: a field after the checksum
/// is checked only once the type and the length of a query are known.
#[derive(Clone, Copy, PartialEq, Eq)]
pub enum WireFault {
    /// A truncated field.
    Truncated {
        /// The place where the field begins, in bytes from 0.
        at: usize,
    },
    /// A wrong checksum.
    Checksum,
    /// An unknown type.
    UnknownType,
    /// A query of a length that no version has.
    QueryLength,
}

//! Results of datagrams and their records.

ghost use Rattle.std.specs.Prelude.{◌≡◌, ◌<◌, ◌≤◌};
ghost use Rattle.mq_link.specs.Counters.{reason_number};

/// The result of a datagram.
#[derive(Clone, Copy, PartialEq, Eq)]
pub enum Received {
    /// The counts of a taken datagram's applied, ignored and refused records. An older Report, a Leave or a Done counts
    /// as one record, a query has none.
    Taken {
        /// The number of applied records, with those that changed nothing.
        applied: u32,
        /// The number of records that say nothing for this link.
        ignored: u32,
        /// The number of refused records, each for a limit that it met.
        refused: u32,
    },
    /// The reason to drop the datagram: the reason of the lowest number that holds.
    Dropped(DropReason),
}

/// The reasons to drop a datagram, in the order of their numbers, 1 to 10.
#[derive(Clone, Copy, PartialEq, Eq)]
pub enum DropReason {
    /// A truncated field.
    Truncated,
    /// A wrong checksum.
    Checksum,
    /// An unknown type.
    UnknownType,
    /// A query with a length that no version has.
    QueryLength,
    /// MLD: a source that isn't a link-local address (RFC 3810 sections 5.1.14 and 5.2.13).
    BadSource,
    /// MLD: a hop limit other than 1 (RFC 3810 section 7.4).
    HopLimit,
    /// MLD: a packet without a Router Alert option (RFC 3810 section 7.4).
    NoAlert,
    /// A query from the router's own address, or in IGMP from 0.0.0.0.
    OwnOrZero,
    /// A query of IGMPv1: 8 octets with a Max Resp Code of 0 (RFC 3376 section 7.1). Routers of IGMPv1 elect no querier.
    /// Queries of IGMPv2 and MLDv1 aren't dropped.
    OlderQuery,
    /// An older Report, a Leave or a Done for a group that isn't admitted.
    BadGroup,
}

impl DropReason {
    /// Returns the number, from 1 to 10.
    pub fn number(&self) -> u8
        ensures number { result ≡ reason_number self.now }
        ensures first { 0 < result }
        ensures last { result ≤ 10 }
    {
        match self {
            DropReason::Truncated => 1,
            DropReason::Checksum => 2,
            DropReason::UnknownType => 3,
            DropReason::QueryLength => 4,
            DropReason::BadSource => 5,
            DropReason::HopLimit => 6,
            DropReason::NoAlert => 7,
            DropReason::OwnOrZero => 8,
            DropReason::OlderQuery => 9,
            DropReason::BadGroup => 10,
        }
    }
}

/// The reasons to refuse a record, in the order of their numbers, 1 to 7.
#[derive(Clone, Copy)]
pub enum Refusal {
    /// A record that names more sources than a group may have.
    Long,
    /// The fifth record of its datagram for a group that is held, or a later one.
    Repeated,
    /// More groups than the limit.
    Groups,
    /// More sources of its group than the limit.
    GroupSources,
    /// More sources in all than the limit.
    Sources,
    /// More schedules of specific queries than the limit.
    Scheduled,
    /// An allocation failure. All storage is reserved at the start, so it is never returned.
    Memory,
}

/// The kinds of parsed messages, as they are counted, with the dropped ones.
#[derive(Clone, Copy)]
pub enum MessageKind {
    /// A query of IGMPv3 or MLDv2.
    Query,
    /// A query of IGMPv1, IGMPv2 or MLDv1.
    OlderQuery,
    /// A Report of an older version.
    OlderReport,
    /// A Leave or a Done.
    Leave,
    /// A Report of IGMPv3 or MLDv2.
    Report,
}

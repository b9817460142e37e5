//! A query that is sent several times.

use mq_count::Moment;

/// The number of sendings of a group's query that are still to go, and the moment of the next. The first counts too. The
/// retransmissions of RFC 3376 section 6.6.3.1 and RFC 3810 section 7.6.3.1 are only those after it.
#[derive(Clone, Copy)]
pub struct QuerySchedule {
    /// The number of sendings to go.
    pub sendings: u32,
    /// The moment when the next is due.
    pub due: Moment,
}

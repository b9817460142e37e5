//! Reasons why a check judges nothing.

/// The reason why a check judged nothing.
#[derive(Clone, Copy, Debug, PartialEq, Eq)]
pub enum Unjudged {
    /// A capture with at least half of its packets truncated or unread.
    NotUnderstood,
    /// A capture with at least half of its packets at stamps that go back.
    OutOfOrder,
    /// A capture without a message of the family.
    NoMessage,
    /// A capture without a query of the checked router, and without a finding or without anything from this address.
    NoQuery,
    /// A check without findings whose own link refused records about so many groups that it judged no group from then on.
    LimitsExceeded,
}

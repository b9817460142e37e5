//! Terms of a check.

/// The form of the lines of findings, and their omission.
#[derive(Clone, Copy)]
pub struct Additions {
    /// True if a line has the number of the packet.
    pub packets: bool,
    /// True if it cites a section of the standard, after that number.
    pub cite: bool,
    /// True if a difference in the response, QRV or QQIC has no line if it repeats the last one of its kind of query.
    pub once: bool,
    /// True if possible findings have lines.
    pub possible: bool,
    /// True if each line is an object of JSON, which has the number and the section.
    pub json: bool,
}

/// The flags of a check that decide what it finds.
#[derive(Clone, Copy)]
pub struct CheckFlags {
    /// True if the capture begins before the querier, so the querier held nothing and had heard no host. Then each finding is
    /// certain.
    pub began: bool,
    /// True if only this project's own readings of the standard are accepted.
    pub strict: bool,
    /// True if the Robustness Variable of the querier is above 7, as QRV 0 says. The configuration has 7 then, and the number of
    /// queries that follow a first one isn't known (RFC 3376 section 4.1.6, RFC 3810 section 5.1.8).
    pub above_7: bool,
}

/// The terms of a check.
#[derive(Clone, Copy)]
pub struct CheckTerms {
    /// The tolerance in milliseconds.
    pub within: u32,
    /// The end of the capture if it is later than the last packet, in milliseconds from the first packet; at most 2^53.
    pub until: Option<u64>,
    /// The form of the lines of findings, and their omission.
    pub additions: Additions,
    /// The flags that decide what it finds.
    pub flags: CheckFlags,
}

//! The request for a replay.

/// The requested values of a replay, beside the querier and the capture.
#[derive(Clone, Copy)]
pub struct Asked {
    /// The moment until which it runs at least, in milliseconds, if one is given.
    pub until: Option<u64>,
    /// True if it tells the groups that each event changes.
    pub changes: bool,
    /// True if it writes objects of JSON in place of lines.
    pub json: bool,
}

//! The kinds of records (RFC 3376 section 4.2.12, RFC 3810 section 5.2.12).

/// The type of a group record: the host's filter for one group (RFC 3376 section 4.2.12, RFC 3810 section 5.2.12).
#[derive(Clone, Copy)]
pub enum Kind {
    /// MODE_IS_INCLUDE: the host currently wants these sources alone.
    IsIn,
    /// MODE_IS_EXCLUDE: the host currently wants all sources but these.
    IsEx,
    /// CHANGE_TO_INCLUDE_MODE: from now on the host wants these sources alone.
    ToIn,
    /// CHANGE_TO_EXCLUDE_MODE: from now on the host wants all sources but these.
    ToEx,
    /// ALLOW_NEW_SOURCES: the host wants these sources too.
    Allow,
    /// BLOCK_OLD_SOURCES: the host no longer wants these sources.
    Block,
}

/// The effect of a record on the sources that it names, if it leaves the other sources of its group alone.
#[derive(Clone, Copy)]
pub enum NamedEffect {
    /// Sets their timers to the group membership interval, and asks for none.
    Restart,
    /// Asks for them.
    Ask,
}

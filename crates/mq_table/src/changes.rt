//! The change of a group by a record.

use crate::group::Group;
use mq_count::Key;
use std::alloc::{Allocator, Global};

/// The new group after a record, and its queries (RFC 3376 section 6.4, RFC 3810 section 7.4).
#[derive(Drop)]
pub struct Change<K: Key, A: Allocator = Global> {
    /// The new group.
    pub group: Group<K, A>,
    /// The sources, ascending, for which the group is to be queried; there may be none.
    pub query: Vec<K, A>,
    /// True if the group itself is to be queried.
    pub query_group: bool,
}

/// The effects of a record that a loaded group has taken.
#[derive(Clone, Copy)]
pub struct Loaded {
    /// True if the group itself is to be queried.
    pub asks_group: bool,
    /// True if the record changed the group's filter (RFC 3376 section 6.3, RFC 3810 section 7.3).
    pub changes_filter: bool,
}

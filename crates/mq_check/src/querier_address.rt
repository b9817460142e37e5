//! Addresses of queriers of both families.

use mq_count::{Addr4, Addr6};

/// The address of a querier of either family.
#[derive(Clone, Copy)]
pub enum QuerierAddress {
    /// An IGMP querier.
    V4(Addr4),
    /// An MLD querier.
    V6(Addr6),
}

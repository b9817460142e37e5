//! Defaults and addresses of each family, as texts.

use crate::links::given::Given;
use mq_count::{Addr4, Addr6};
use mq_link::{Family, Igmp, Limits, Mld};
use mq_text::{read_v4, read_v6};

/// A family whose configurations are written in texts.
pub trait Written: Family {
    /// Returns the defaults (RFC 3376 section 8, RFC 3810 section 9).
    fn given() -> Given<'static>;

    /// Reads an address.
    fn address(text: &str) -> Option<Self::Address>;
}

impl Written for Igmp {
    fn given() -> Given<'static> {
        Given {
            variables: (2, 125, 10000, 1000),
            limits: Limits {
                groups: 1024,
                group_sources: 366,
                sources: 16384,
                scheduled: 256,
            },
            own: "10.0.0.9",
            source_specific: false,
        }
    }

    fn address(text: &str) -> Option<Addr4> {
        read_v4(text)
    }
}

impl Written for Mld {
    fn given() -> Given<'static> {
        Given {
            variables: (2, 125, 10000, 1000),
            limits: Limits {
                groups: 1024,
                group_sources: 89,
                sources: 16384,
                scheduled: 256,
            },
            own: "fe80::9",
            source_specific: false,
        }
    }

    fn address(text: &str) -> Option<Addr6> {
        read_v6(text)
    }
}

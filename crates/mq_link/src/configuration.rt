//! The limits, the defaults and the faults of a link's configuration.

ghost use Rattle.std.specs.Prelude.{◌≡◌};

use thiserror::Error;

/// The limits of what a link may hold.
#[derive(Clone, Copy, PartialEq, Eq)]
pub struct Limits {
    /// The most groups, from 1 to 65535.
    pub groups: u32,
    /// The most sources of a group, from 1 to 1024.
    pub group_sources: u32,
    /// The most sources of all groups together, from 1 to 65535.
    pub sources: u32,
    /// The most schedules of specific queries, from 1 to 65535. A group has two at most: one for itself, and one for
    /// its sources.
    pub scheduled: u32,
}

/// The default configuration of a link: the variables of RFC 3376 section 8 and RFC 3810 section 9, and the limits.
#[derive(Clone, Copy, PartialEq, Eq)]
pub struct Defaults {
    /// The Robustness Variable.
    pub robustness: u32,
    /// The Query Interval in seconds.
    pub query_seconds: u32,
    /// The Query Response Interval in milliseconds.
    pub response_interval: u32,
    /// The Last Member (Last Listener) Query Interval in milliseconds.
    pub last_member_interval: u32,
    /// The limits of what the link may hold.
    pub limits: Limits,
}

impl Defaults {
    /// Returns the defaults for groups of at most `group_sources` sources.
    pub(crate) const fn with_group_sources(group_sources: u32) -> Defaults
        ensures { result ≡ record {
          robustness = 2;
          query_seconds = 125;
          response_interval = 10000;
          last_member_interval = 1000;
          limits = record { groups = 1024; group_sources = group_sources; sources = 16384; scheduled = 256 };
        } }
    {
        Defaults {
            robustness: 2,
            query_seconds: 125,
            response_interval: 10000,
            last_member_interval: 1000,
            limits: Limits {
                groups: 1024,
                group_sources,
                sources: 16384,
                scheduled: 256,
            },
        }
    }
}

/// The name of a limit. As text it is the fault that the limit is out of its range.
#[derive(Clone, Copy, Debug, PartialEq, Eq, Error)]
pub enum LimitName {
    /// `groups`.
    #[error("the limit of groups is not within 1 to 65535")]
    Groups,
    /// `group_sources`.
    #[error("the limit of sources of a group is not within 1 to 1024")]
    GroupSources,
    /// `sources`.
    #[error("the limit of sources is not within 1 to 65535")]
    Sources,
    /// `scheduled`.
    #[error("the limit of schedules is not within 1 to 65535")]
    Scheduled,
}

/// A fault of a configuration: the first of these that holds.
#[derive(Clone, Copy, Debug, PartialEq, Eq, Error)]
pub enum ConfigFault {
    /// A robustness variable outside of 1 to 7.
    #[error("the robustness variable is not within 1 to 7")]
    Robustness,
    /// A query interval outside of 1 to 31744 seconds.
    #[error("the query interval is not within 1 to 31744 seconds")]
    QueryInterval,
    /// A query response interval out of range. It is below one unit of its code, not below the query interval, or above
    /// the greatest value of the code.
    #[error("the response interval is out of range or not below the query interval")]
    ResponseInterval,
    /// A last member query interval below one unit of its code or above the greatest value of the code.
    #[error("the last member query interval is out of range")]
    LastMember,
    /// A limit out of its range.
    #[error("{which}")]
    Limit {
        /// The first limit that is out of its range.
        which: LimitName,
    },
    /// An own address from which no router may send queries.
    #[error("no router may send queries from the own address")]
    OwnAddress,
    /// A last member query count above 7.
    #[error("the last member query count is not within 0 to 7")]
    LastMemberCount,
}

/// The reason for which a running link refuses a configuration: the first of these that holds.
#[derive(Clone, Copy, Debug, PartialEq, Eq, Error)]
pub enum ConfigureFault {
    /// A limit above that with which the link was made, for which its memory was allocated.
    #[error("a limit exceeds that with which the link was made")]
    Room,
    /// Groups that the configuration does not allow. They exceed a limit, or one in the source-specific range that is to
    /// be kept is in EXCLUDE mode or has older hosts.
    #[error("the link holds more than the configuration allows")]
    Held,
}

//! Statuses as numbers.

ghost use Rattle.std.specs.Prelude.{◌≡◌, ◌<◌};
ghost use Rattle.mq_c.specs.Statuses as spec;

use mq_link::{ConfigFault, LimitName};

/// The status for success.
pub(crate) const DONE: u32 = 0;

/// The status for refused memory.
pub(crate) const MEMORY: u32 = 10;

/// The status for a moment above 2^53; nothing was done.
pub(crate) const MOMENT: u32 = 11;

/// The status for a workspace that is too small for the link; nothing was done.
pub(crate) const WORKSPACE: u32 = 12;

/// The status for a link that holds more than a new configuration allows; nothing was done.
pub(crate) const HELD: u32 = 13;

/// Returns the status of a fault of a configuration.
pub(crate) fn status_of(fault: ConfigFault) -> u32
    ensures number { result ≡ spec.status_of fault }
    ensures some { 0 < result }
{
    match fault {
        ConfigFault::Robustness => 1,
        ConfigFault::QueryInterval => 2,
        ConfigFault::ResponseInterval => 3,
        ConfigFault::LastMember => 4,
        ConfigFault::Limit { which } => match which {
            LimitName::Groups => 5,
            LimitName::GroupSources => 6,
            LimitName::Sources => 7,
            LimitName::Scheduled => 8,
        },
        ConfigFault::OwnAddress => 9,
        ConfigFault::LastMemberCount => 14,
    }
}

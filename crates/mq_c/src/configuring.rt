//! Another configuration for a running link, for both families.

ghost use Rattle.mq_link.specs.State.{IsWellFormed};
ghost use Rattle.mq_c.specs.Configuring.{IsReconfigured};
ghost use Rattle.mq_c.specs.Making.{asked_of};

use crate::forms::Settings;
use crate::making::config_of;
use crate::statuses::{DONE, HELD, MEMORY};
use mq_arena::Lodged;
use mq_link::{BareLink, ConfigureFault, Family, Ranges};

/// Sets another configuration, or returns the status that says why not, and changes nothing.
pub(crate) fn configure<F: Family>(
    link: &mut BareLink<F, Lodged>,
    settings: Settings,
    own: F::Address,
    source_specific: u8,
    ranges: Ranges,
) -> u32
    ensures configured { IsReconfigured (asked_of F.FAMILY settings (F.Address.number own) source_specific ranges) link.old link.new result }
    ensures formed { IsWellFormed link.new.config link.new.state }
{
    link.is_well_formed();
    let config = match config_of::<F>(settings, own, source_specific, ranges) {
        Ok(config) => config,
        Err(status) => return status,
    };
    match link.configure(config) {
        Ok(()) => DONE,
        Err(ConfigureFault::Room) => MEMORY,
        Err(ConfigureFault::Held) => HELD,
    }
}

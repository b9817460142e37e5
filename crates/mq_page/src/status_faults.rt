//! The faults of statuses.

ghost use Rattle.std.specs.Prelude.{◌≡◌, Some};
ghost use Rattle.mq_check.specs.declared.unjudged.Unjudged.{Unjudged as TheUnjudged};
ghost use Rattle.mq_convert.specs.declared.fault.BlockFault.{BlockFault as TheBlockFault};
ghost use Rattle.mq_link.specs.declared.configuration.ConfigFault.{ConfigFault as TheConfigFault};
ghost use Rattle.mq_page.specs.declared.page_fault.PageFault.{PageFault as ThePageFault};
ghost use Rattle.mq_page.specs.Statuses.{block_status, capture_status, configuration_status, number_of, record_of, status_of, unjudged_status};
ghost use Rattle.mq_pcap.specs.declared.fault.PcapFault.{PcapFault as ThePcapFault};

use crate::page_fault::PageFault;
use mq_check::Unjudged;
use mq_convert::BlockFault;
use mq_link::{ConfigFault, LimitName};
use mq_pcap::PcapFault;

/// Returns the fault with this status and this number, if there is one.
pub(crate) fn fault_of(status: u64, number: u64) -> Option<PageFault>
    ensures { (fault : ThePageFault) → status_of fault ≡ status → number_of fault ≡ number → result ≡ Some fault }
{
    match status {
        1 => Some(PageFault::Full),
        2 => Some(PageFault::Memory),
        11..=18 => Some(PageFault::Capture(capture_fault(status, number)?)),
        20 => Some(PageFault::Gap { number }),
        21 => Some(PageFault::Waiting { number }),
        22 => Some(PageFault::UntilTooLarge),
        31 => Some(PageFault::ConversionRead),
        32..=40 => Some(PageFault::Conversion {
            number,
            fault: block_fault(status)?,
        }),
        71..=75 => Some(PageFault::NothingJudged(unjudged(status)?)),
        _ => Some(PageFault::Configuration(configuration_fault(status)?)),
    }
}

fn capture_fault(status: u64, number: u64) -> Option<PcapFault>
    ensures { (fault : ThePcapFault) → capture_status fault ≡ status → record_of fault ≡ number → result ≡ Some fault }
{
    match status {
        11 => Some(PcapFault::Read),
        12 => Some(PcapFault::Magic),
        13 => Some(PcapFault::Version),
        14 => Some(PcapFault::LinkType),
        15 => Some(PcapFault::CutHeader { number }),
        16 => Some(PcapFault::CutData { number }),
        17 => Some(PcapFault::TooLong { number }),
        18 => Some(PcapFault::Endless),
        _ => None,
    }
}

fn block_fault(status: u64) -> Option<BlockFault>
    ensures { (fault : TheBlockFault) → block_status fault ≡ status → result ≡ Some fault }
{
    match status {
        32 => Some(BlockFault::NoCapture),
        33 => Some(BlockFault::Version),
        34 => Some(BlockFault::Order),
        35 => Some(BlockFault::Length),
        36 => Some(BlockFault::Interface),
        37 => Some(BlockFault::Interfaces),
        38 => Some(BlockFault::Moment),
        39 => Some(BlockFault::Cut),
        40 => Some(BlockFault::Endless),
        _ => None,
    }
}

fn configuration_fault(status: u64) -> Option<ConfigFault>
    ensures { (fault : TheConfigFault) → configuration_status fault ≡ status → result ≡ Some fault }
{
    match status {
        51 => Some(ConfigFault::Robustness),
        52 => Some(ConfigFault::QueryInterval),
        53 => Some(ConfigFault::ResponseInterval),
        54 => Some(ConfigFault::LastMember),
        56 => Some(ConfigFault::OwnAddress),
        57 => Some(ConfigFault::LastMemberCount),
        61 => Some(limit(LimitName::Groups)),
        62 => Some(limit(LimitName::GroupSources)),
        63 => Some(limit(LimitName::Sources)),
        64 => Some(limit(LimitName::Scheduled)),
        _ => None,
    }
}

fn unjudged(status: u64) -> Option<Unjudged>
    ensures { (why : TheUnjudged) → unjudged_status why ≡ status → result ≡ Some why }
{
    match status {
        71 => Some(Unjudged::NotUnderstood),
        72 => Some(Unjudged::OutOfOrder),
        73 => Some(Unjudged::NoMessage),
        74 => Some(Unjudged::NoQuery),
        75 => Some(Unjudged::LimitsExceeded),
        _ => None,
    }
}

fn limit(which: LimitName) -> ConfigFault
    ensures { result ≡ ConfigFault.Limit which }
{
    ConfigFault::Limit { which }
}

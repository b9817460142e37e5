//! Faults as numbers.

ghost use Rattle.std.specs.Prelude.{◌≡◌};
ghost use Rattle.mq_page.specs.Statuses as spec;

use crate::page_fault::PageFault;
use mq_check::Unjudged;
use mq_convert::BlockFault;
use mq_link::{ConfigFault, LimitName};
use mq_pcap::PcapFault;

/// The status for success.
pub(crate) const DONE: u64 = 0;

/// Returns the status of a fault.
pub(crate) fn status_of(fault: PageFault) -> u64
    ensures { result ≡ spec.status_of fault }
{
    match fault {
        PageFault::Full => 1,
        PageFault::Memory => 2,
        PageFault::Capture(fault) => capture_status(fault),
        PageFault::Gap { .. } => 20,
        PageFault::Waiting { .. } => 21,
        PageFault::UntilTooLarge => 22,
        PageFault::ConversionRead => 31,
        PageFault::Conversion { fault, .. } => block_status(fault),
        PageFault::Configuration(fault) => configuration_status(fault),
        PageFault::NothingJudged(why) => unjudged_status(why),
    }
}

fn capture_status(fault: PcapFault) -> u64
    ensures { result ≡ spec.capture_status fault }
{
    match fault {
        PcapFault::Read => 11,
        PcapFault::Magic => 12,
        PcapFault::Version => 13,
        PcapFault::LinkType => 14,
        PcapFault::CutHeader { .. } => 15,
        PcapFault::CutData { .. } => 16,
        PcapFault::TooLong { .. } => 17,
        PcapFault::Endless => 18,
    }
}

fn block_status(fault: BlockFault) -> u64
    ensures { result ≡ spec.block_status fault }
{
    match fault {
        BlockFault::NoCapture => 32,
        BlockFault::Version => 33,
        BlockFault::Order => 34,
        BlockFault::Length => 35,
        BlockFault::Interface => 36,
        BlockFault::Interfaces => 37,
        BlockFault::Moment => 38,
        BlockFault::Cut => 39,
        BlockFault::Endless => 40,
    }
}

fn configuration_status(fault: ConfigFault) -> u64
    ensures { result ≡ spec.configuration_status fault }
{
    match fault {
        ConfigFault::Robustness => 51,
        ConfigFault::QueryInterval => 52,
        ConfigFault::ResponseInterval => 53,
        ConfigFault::LastMember => 54,
        ConfigFault::Limit { which } => limit_status(which),
        ConfigFault::OwnAddress => 56,
        ConfigFault::LastMemberCount => 57,
    }
}

fn limit_status(which: LimitName) -> u64
    ensures { result ≡ spec.limit_status which }
{
    match which {
        LimitName::Groups => 61,
        LimitName::GroupSources => 62,
        LimitName::Sources => 63,
        LimitName::Scheduled => 64,
    }
}

fn unjudged_status(why: Unjudged) -> u64
    ensures { result ≡ spec.unjudged_status why }
{
    match why {
        Unjudged::NotUnderstood => 71,
        Unjudged::OutOfOrder => 72,
        Unjudged::NoMessage => 73,
        Unjudged::NoQuery => 74,
        Unjudged::LimitsExceeded => 75,
    }
}

/// Returns the number of the record or the block that has a fault, or 0.
pub(crate) fn number_of(fault: PageFault) -> u64
    ensures { result ≡ spec.number_of fault }
{
    match fault {
        PageFault::Capture(fault) => record_of(fault),
        PageFault::Gap { number }
        | PageFault::Waiting { number }
        | PageFault::Conversion { number, .. } => number,
        _ => 0,
    }
}

fn record_of(fault: PcapFault) -> u64
    ensures { result ≡ spec.record_of fault }
{
    match fault {
        PcapFault::CutHeader { number }
        | PcapFault::CutData { number }
        | PcapFault::TooLong { number } => number,
        _ => 0,
    }
}

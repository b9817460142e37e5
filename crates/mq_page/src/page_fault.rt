//! The reasons why a call did not do all of its request.

ghost use Rattle.std.specs.Prelude.{◌≡◌};
ghost use Rattle.mq_page.specs.Faults as spec;

use mq_check::{Totals, Unjudged};
use mq_convert::{BlockFault, ConvertFault};
use mq_link::ConfigFault;
use mq_pcap::PcapFault;
use mq_walk::CaptureFault;

/// The reason why a call did not do all of its request.
#[derive(Clone, Copy, PartialEq, Eq)]
pub enum PageFault {
    /// A text longer than the memory for it.
    Full,
    /// Memory for the work that doesn't suffice.
    Memory,
    /// A fault of the capture.
    Capture(PcapFault),
    /// A moment more than a day after the one before it.
    Gap {
        /// The number of the packet after the gap, or of the packet that would follow the last.
        number: u64,
    },
    /// More pending queries in a check than there is room for; they wait for their partners.
    Waiting {
        /// The number of the packet at which there was no room, or of the packet that would follow the last.
        number: u64,
    },
    /// A failed read of a capture that is converted.
    ConversionRead,
    /// A fault in a block of a capture that is converted.
    Conversion {
        /// The block's number.
        number: u64,
        /// The fault of the block.
        fault: BlockFault,
    },
    /// A moment above 2^53 until which a replay or a check is to run.
    UntilTooLarge,
    /// A configuration that no querier can have.
    Configuration(ConfigFault),
    /// A check that came to its end and judged nothing.
    NothingJudged(Unjudged),
}

/// Returns the fault of a listing, a replay or a check. A failed write found no room.
pub(crate) fn of_capture(fault: CaptureFault) -> PageFault
    ensures { result ≡ spec.of_capture fault }
{
    match fault {
        CaptureFault::Pcap(fault) => PageFault::Capture(fault),
        CaptureFault::Write => PageFault::Full,
        CaptureFault::Gap { number } => PageFault::Gap { number },
        CaptureFault::Waiting { number } => PageFault::Waiting { number },
        CaptureFault::Memory => PageFault::Memory,
    }
}

/// Returns the fault of a conversion.
pub(crate) fn of_conversion(fault: ConvertFault) -> PageFault
    ensures { result ≡ spec.of_conversion fault }
{
    match fault {
        ConvertFault::Read => PageFault::ConversionRead,
        ConvertFault::Write => PageFault::Full,
        ConvertFault::Memory => PageFault::Memory,
        ConvertFault::Block { number, fault } => PageFault::Conversion { number, fault },
    }
}

/// Returns the outcome of a check that came to its end: the number of its findings, or why it judged nothing.
pub(crate) fn concluded(totals: &Totals) -> Result<u64, PageFault>
    ensures { result ≡ spec.concluded totals.now }
{
    if totals.basis.is_unseen() {
        return Err(PageFault::NothingJudged(Unjudged::NoQuery));
    }
    match totals.unjudged() {
        Some(why) => Err(PageFault::NothingJudged(why)),
        None => Ok(totals.findings),
    }
}

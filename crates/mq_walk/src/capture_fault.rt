//! The reasons why work on a capture ends early.

ghost use Rattle.std.specs.Prelude.{◌≡◌};
ghost use Rattle.mq_walk.specs.declared.capture_fault.CaptureFault.TheVariants.{Pcap, Write};
ghost use Rattle.mq_walk.specs.Faults as spec;

use mq_pcap::PcapFault;
use mq_text::LineFault;
use thiserror::Error;

/// The reason why work on a capture ended before the end of the capture.
#[derive(Clone, Copy, Debug, PartialEq, Eq, Error)]
pub enum CaptureFault {
    /// A fault of the capture, or a failed read of it.
    #[error("{0}")]
    Pcap(PcapFault),
    /// A failed write, or a write that took none of its bytes.
    #[error("write failed")]
    Write,
    /// A moment more than a day after the one before it. A listing never fails with it.
    #[error("record {number}: more than a day lies between the packet before and this one, or the end")]
    Gap {
        /// The number of the packet after the gap. If the gap is before the requested end, it is the packet count plus 1.
        number: u64,
    },
    /// More than 65536 pending entries. Only a check fails with it.
    #[error("record {number}: more than 65536 queries wait for those that they go with")]
    Waiting {
        /// The number of the packet at which the limit was exceeded. At the end of a check, it is the packet count plus 1.
        number: u64,
    },
    /// An allocation failure.
    #[error("out of memory")]
    Memory,
}

impl From<PcapFault> for CaptureFault {
    ghost from_gives = { λ fault it. it ≡ Pcap fault };

    fn from(fault: PcapFault) -> CaptureFault {
        CaptureFault::Pcap(fault)
    }
}

impl From<LineFault> for CaptureFault {
    ghost from_gives = { λ _ it. it ≡ Write };

    fn from(_fault: LineFault) -> CaptureFault {
        CaptureFault::Write
    }
}

/// Returns whether work on a capture ended because a write failed.
pub(crate) fn is_failed_write<T>(answer: &Result<T, CaptureFault>) -> bool
    ensures { result ≡ spec.is_failed_write answer.now }
{
    matches!(answer, Err(CaptureFault::Write))
}

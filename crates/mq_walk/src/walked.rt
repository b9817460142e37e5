//! Ends of walks over captures.

ghost use Rattle.std.specs.Prelude.{◌≡◌, ◌<◌, ◌≤◌, ◌+◌, ◌^◌, IfSome};
ghost use Rattle.mq_pcap.specs.Capture.{endless};

use crate::capture_fault::CaptureFault;
use crate::moments::{is_gap, last_moment};
use crate::stamp::Stamp;

/// The end of a walk over a capture.
#[derive(Clone, Copy)]
pub struct Walked {
    /// The number of packets.
    pub packets: u64,
    /// The moment of the last packet, or 0.
    pub last: Stamp,
    pub ghost few: { packets < endless },
}

impl Walked {
    ghost use Rattle.mq_walk.specs.PuttingReports.{end_of};

    /// Returns the moment of the end of the work: that of the last packet, or the requested one if it is later. Fails if
    /// a gap is before it.
    pub fn end(&self, until: Option<u64>) -> Result<Stamp, CaptureFault>
        requires { IfSome until (λ ms. ms ≤ 2 ^ 53) }
        ensures { result ≡ end_of until self.now.last (self.now.packets + 1) }
    {
        let end = last_moment(until, self.last);
        let last = self.last.moment();
        if is_gap(last, end.moment()) {
            return Err(CaptureFault::Gap {
                number: self.packets + 1,
            });
        }
        Ok(end)
    }
}

//! Comparison of packets with those that went out.

ghost use Rattle.std.specs.Prelude.{◌≡◌, ◌≤◌, IsTrue, true};
ghost use Rattle.mq_convert.specs.Frames.{framed};
ghost use Rattle.mq_convert.specs.Repeats as spec;
ghost use Rattle.mq_convert.specs.Sieving.{gone_of};

use crate::frames::Frame;
use crate::kept::{Kept, MOST_CARRIED};

/// The longest time between a packet that goes out and its repetition, in nanoseconds.
const SOON: u64 = 5_000_000;

/// Returns whether a frame is compared: it has a type, and isn't long.
pub(crate) fn is_short(frame: &Frame<'_>) -> bool
    ensures { result ≡ spec.is_short (framed frame.now) }
{
    match frame {
        Frame::Whole { payload, .. } => payload.len() <= MOST_CARRIED,
        Frame::Cut(_) => false,
    }
}

impl Kept {
    /// Returns what is kept of a packet that goes out at this moment.
    pub(crate) fn of(moment: u64, frame: &Frame<'_>) -> Kept
        requires { spec.is_short (framed frame.now) ≡ true }
        ensures { gone_of result ≡ record { moment = moment; frame = framed frame.now } }
    {
        let mut payload = [0; MOST_CARRIED];
        match frame {
            Frame::Whole {
                addresses,
                kind,
                payload: carried,
            } => {
                let length = carried.len();
                payload[..length].copy_from_slice(carried);
                Kept {
                    moment,
                    addresses: *addresses,
                    kind: *kind,
                    length,
                    payload,
                }
            }
            Frame::Cut(_) => unreachable!(),
        }
    }

    /// Returns whether a frame at this moment repeats the packet.
    pub(crate) fn is_again(&self, moment: u64, frame: &Frame<'_>) -> bool
        ensures { result ≡ spec.is_again moment (framed frame.now) (gone_of self.now) }
    {
        moment.abs_diff(self.moment) <= SOON && self.has(frame)
    }

    /// Returns whether the packet has this frame.
    fn has(&self, frame: &Frame<'_>) -> bool
        ensures { result ≡ spec.is_same_frame (framed frame.now) (gone_of self.now).frame }
    {
        match frame {
            Frame::Whole {
                addresses,
                kind,
                payload,
            } => {
                *addresses == self.addresses
                    && *kind == self.kind
                    && *payload == &self.payload[..self.length]
            }
            Frame::Cut(_) => false,
        }
    }
}

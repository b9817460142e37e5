//! The packets of a check.

ghost use Rattle.std.specs.Prelude.{◌≡◌};
ghost use Rattle.mquerier.specs.Choosing as spec;

use crate::program::choice_of;
use mq_command::{Packets, Protocol, Request};
use mq_convert::{Choice, Messages};

/// The packets of a capture that are checked.
#[derive(Clone, Copy)]
pub struct CheckedPackets {
    /// The choice of packets.
    pub choice: Choice,
    /// The protocol whose messages have to be of one network. None if all networks count as one.
    pub messages: Option<Messages>,
}

/// Returns the packets of a request, if it is one for a check.
pub fn packets_of(request: &Request<'_>) -> Option<CheckedPackets>
    ensures { result ≡ spec.packets_in request.now }
{
    match request {
        Request::Check {
            protocol,
            packets,
            ..
        } => Some(checked_packets(*protocol, *packets)),
        _ => None,
    }
}

/// Returns the packets of a check of this protocol.
fn checked_packets(protocol: Protocol, packets: Packets<'_>) -> CheckedPackets
    ensures { result ≡ spec.checked_packets protocol packets.entry }
{
    CheckedPackets {
        choice: choice_of(packets.interface, packets.vlan, packets.once),
        messages: messages_of(protocol, packets.once),
    }
}

fn messages_of(protocol: Protocol, once: bool) -> Option<Messages>
    ensures { result ≡ spec.messages_of protocol once }
{
    if once {
        return None;
    }
    match protocol {
        Protocol::Igmp => Some(Messages::Igmp),
        Protocol::Mld => Some(Messages::Mld),
    }
}

//! The network of a message.

ghost use Rattle.std.specs.Prelude.{◌≡◌, ◌≤◌, ◌+◌, length};
ghost use Rattle.mq_pcap.specs.Frame.{carried_of};
ghost use Rattle.mq_convert.specs.Blocks.{captured_of};
ghost use Rattle.mq_convert.specs.Frames.{framed};
ghost use Rattle.mq_convert.specs.Networks as spec;

use crate::choice::Choice;
use crate::frames::{Frame, frame_of};
use crate::packet::Packet;
use crate::records::number_of;
use crate::tags::{tag_of, untagged};
use mq_pcap::{Inner, LinkType, unwrap_frame};

/// A protocol whose messages have to be of one network.
#[derive(Clone, Copy)]
pub enum Messages {
    /// IGMP.
    Igmp,
    /// MLD.
    Mld,
}

/// The network of a packet.
#[derive(Clone, Copy, Default)]
pub struct Network {
    /// The number of its interface, as `Which::Number` counts it.
    pub interface: u64,
    /// The network that its outermost tag names.
    pub vlan: Option<u64>,
}

impl Network {
    /// Returns whether these are the same network.
    pub(crate) fn is_same(self, other: Network) -> bool
        ensures { result ≡ spec.is_same self other }
    {
        self.interface == other.interface && is_same_number(self.vlan, other.vlan)
    }
}

fn is_same_number(first: Option<u64>, other: Option<u64>) -> bool
    ensures { result ≡ spec.is_same_number first other }
{
    match (first, other) {
        (None, None) => true,
        (Some(first), Some(other)) => first == other,
        _ => false,
    }
}

/// Returns the network of a packet of a block, if the packet is chosen and carries a message of this protocol.
#[tactic(auto, unfolding(crate::specs::Networks::network_of))]
pub(crate) fn network_of(
    protocol: Messages,
    choice: Choice,
    packet: Packet,
    block: &[u8],
) -> Option<Network>
    requires { packet.place + packet.length ≤ length block.now }
    ensures { result ≡ spec.network_of protocol choice (captured_of block.now packet) }
{
    let bytes = &block[packet.place..packet.place + packet.length];
    let frame = frame_of(packet.link, bytes);
    let vlan = tag_of(&frame);
    let interface = number_of(packet, block);
    if !choice.takes(interface, packet.name, vlan) || !carries(protocol, &untagged(frame)) {
        return None;
    }
    Some(Network { interface, vlan })
}

/// Returns whether a frame without tags carries a message of this protocol.
fn carries(protocol: Messages, frame: &Frame<'_>) -> bool
    ensures { result ≡ spec.carries protocol (framed frame.now) }
{
    match frame {
        Frame::Whole { kind, payload, .. } => {
            *kind == type_of(protocol)
                && is_message(protocol, &unwrap_frame(LinkType::RawIp, payload))
        }
        Frame::Cut(_) => false,
    }
}

/// Returns the type of the frames that carry messages of this protocol.
fn type_of(protocol: Messages) -> u16
    ensures { result ≡ spec.type_of protocol }
{
    match protocol {
        Messages::Igmp => 0x0800,
        Messages::Mld => 0x86dd,
    }
}

/// Returns whether the content of a packet is a message of this protocol. Messages of ICMPv6 are of many types.
fn is_message(protocol: Messages, inner: &Inner<'_>) -> bool
    ensures { result ≡ spec.is_message protocol (carried_of inner.now) }
{
    match (protocol, inner) {
        (Messages::Igmp, Inner::Igmp { .. }) => true,
        (Messages::Mld, Inner::Mld { body, .. }) => {
            !body.is_empty() && matches!(body[0], 130 | 131 | 132 | 143)
        }
        _ => false,
    }
}

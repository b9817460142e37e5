//! The families of messages whose datagrams are found in captures.

ghost use Rattle.std.specs.Prelude.{◌≡◌, refl};
ghost use Rattle.mq_pcap.specs.Frame.{carried_of};
ghost use Rattle.mq_walk.specs.Datagrams.{IsDatagramOf};

use mq_lines::LineKey;
use mq_link::{Family, Igmp, IgmpEnvelope, Mld, MldEnvelope};
use mq_pcap::Inner;

/// A datagram that a packet carries.
#[derive(Drop)]
pub struct CapturedDatagram<'a, E> {
    /// The facts of its packet.
    pub envelope: E,
    /// Its bytes, without the IP header.
    pub body: &'a [u8],
}

/// A family whose datagrams are found in captures.
pub trait CapturedFamily: Family
where
    Self::Address: LineKey,
{
    /// Returns the datagram that a packet carries, if it carries one of this family.
    fn datagram<'a>(inner: &Inner<'a>) -> Option<CapturedDatagram<'a, Self::Envelope>>
        ensures { IsDatagramOf Self.FAMILY Self.envelope_of (carried_of inner.now) result };

    // The lines name the addresses of this family.
    ghost same_family: { Self.Address.family ≡ Self.FAMILY };
}

impl CapturedFamily for Igmp {
    ghost same_family = { refl };

    fn datagram<'a>(inner: &Inner<'a>) -> Option<CapturedDatagram<'a, IgmpEnvelope>> {
        match inner {
            Inner::Igmp { source, body, .. } => Some(CapturedDatagram {
                envelope: IgmpEnvelope { source: *source },
                body,
            }),
            _ => None,
        }
    }
}

impl CapturedFamily for Mld {
    ghost same_family = { refl };

    fn datagram<'a>(inner: &Inner<'a>) -> Option<CapturedDatagram<'a, MldEnvelope>> {
        match inner {
            Inner::Mld {
                source,
                destination,
                hop_limit,
                alert,
                body,
            } => Some(CapturedDatagram {
                envelope: MldEnvelope {
                    source: *source,
                    destination: *destination,
                    hop_limit: *hop_limit,
                    alert: *alert,
                },
                body,
            }),
            _ => None,
        }
    }
}

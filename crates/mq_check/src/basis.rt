//! The basis of a verdict.

ghost use Rattle.std.specs.Prelude.{◌≡◌, ◌+◌, ◌==◌, not};
ghost use Rattle.mq_pcap.specs.Frame.{carried_of};
ghost use Rattle.mq_check.specs.Basis as spec;

use crate::announced::query_in;
use crate::querier_address::QuerierAddress;
use mq_count::{Key, Meter, Moment};
use mq_lines::LineKey;
use mq_link::Config;
use mq_pcap::{Endian, Inner, LinkType};
use mq_walk::{CapturedDatagram, CapturedFamily};
use mq_wire::WireFault;
use std::cmp::Ordering;

/// The variables with which a router is checked.
#[derive(Clone, Copy)]
pub struct CheckedVariables {
    /// The Robustness Variable.
    pub rv: u64,
    /// The Query Interval in seconds.
    pub qi: u64,
    /// The Query Response Interval in milliseconds.
    pub qri: u64,
    /// The Last Member (Last Listener) Query Interval in milliseconds.
    pub lmqi: u64,
}

impl CheckedVariables {
    /// Returns the variables of a configuration.
    pub(crate) fn of<F: CapturedFamily>(config: &Config<F>) -> CheckedVariables
    where
        F::Address: LineKey,
        ensures { result ≡ spec.variables_in config.now }
    {
        let timing = config.timing();
        CheckedVariables {
            rv: u64::from(timing.robustness()),
            qi: u64::from(timing.query_seconds()),
            qri: u64::from(config.response_interval()),
            lmqi: u64::from(config.last_member_interval()),
        }
    }
}

/// The basis of a verdict: the variables, the packets of a capture, and who was querier. A count stays at the greatest
/// u64.
#[derive(Clone, Copy)]
pub struct Basis {
    /// The variables with which the router is checked.
    pub variables: CheckedVariables,
    /// The number of packets.
    pub packets: u64,
    /// The number of packets that are messages of the family.
    pub messages: u64,
    /// The number of malformed messages: truncated, a wrong checksum, or a query with a length that no version has.
    pub malformed: u64,
    /// The number of frames that end before their packets do.
    pub cut: u64,
    /// The number of unread packets: fragments, and frames of a type that may carry IP in a form that isn't parsed.
    pub unread: u64,
    /// The number of packets whose stamps go back.
    pub back: u64,
    /// The number of records that the check's own link refused for its limits. It is set at the end.
    pub refused: u64,
    /// True if more groups were refused than a check keeps apart, so that no group is judged. It is set at the end.
    pub is_crowded: bool,
    /// The checked router.
    pub own: QuerierAddress,
    /// True if a datagram of the family came from the checked router.
    pub is_heard: bool,
    /// True if a query came from a router with a higher address.
    pub has_higher: bool,
    /// True if the checked router is querier.
    pub is_querier: bool,
    /// The number of times that it lost the role.
    pub lost: u64,
    /// The last moment at which it lost the role.
    pub lost_at: Moment,
    /// The last other querier, if the role was lost.
    pub other: QuerierAddress,
    /// The last moment at which it became querier again.
    pub again_at: Moment,
}

/// Returns the type of a frame, after at most one tag. Returns 0 if the frame is too short, or has no link header.
fn type_in(link: LinkType, frame: &[u8]) -> u16
    ensures { result ≡ spec.type_in link frame.now }
{
    match link {
        LinkType::RawIp => 0,
        LinkType::Ethernet => {
            if frame.len() < 14 {
                return 0;
            }
            let kind = Endian::Big.word(frame, 12);
            if kind != 0x8100 {
                return kind;
            }
            if frame.len() < 18 {
                return 0;
            }
            Endian::Big.word(frame, 16)
        }
    }
}

/// Returns whether a frame of this type may carry an IP packet that isn't parsed.
fn is_wrapped(kind: u16) -> bool
    ensures { result ≡ spec.is_wrapped kind }
{
    matches!(
        kind,
        0x8100 | 0x88a8 | 0x9100 | 0x8847 | 0x8848 | 0x8864 | 0x88e5 | 0xffff
    )
}

/// Returns whether a datagram is a query on which hosts act, from a router with a higher address than the checked one.
pub(crate) fn is_of_higher<F: CapturedFamily>(
    own: F::Address,
    datagram: &CapturedDatagram<'_, F::Envelope>,
) -> bool
where
    F::Address: LineKey,
    ensures { result
        ≡ spec.is_of_higher F.FAMILY (F.Address.number own) (record { envelope = F.envelope_of datagram.now.envelope; body = datagram.now.body.now }) }
{
    let source = F::source(&datagram.envelope);
    own.order(source, &mut Meter::new()) == Ordering::Less
        && query_in::<F>(&datagram.envelope, datagram.body).is_some()
}

impl Basis {
    /// Returns the basis before the first packet. No other querier is known yet, so `other` is the router itself.
    pub(crate) fn at_start(
        variables: CheckedVariables,
        own: QuerierAddress,
        other: QuerierAddress,
        start: Moment,
    ) -> Basis
        requires same { other ≡ own }
        requires at_0 { start ≡ 0 }
        ensures { result ≡ spec.basis_at_start variables own }
    {
        Basis {
            variables,
            packets: 0,
            messages: 0,
            malformed: 0,
            cut: 0,
            unread: 0,
            back: 0,
            refused: 0,
            is_crowded: false,
            own,
            is_heard: false,
            has_higher: false,
            is_querier: true,
            lost: 0,
            lost_at: start,
            other,
            again_at: start,
        }
    }

    /// Returns the basis at the end, with the number of records that the link refused, and whether no group is judged.
    pub(crate) fn with_refused(&self, refused: u64, is_crowded: bool) -> Basis
        ensures { result ≡ record self.now { refused = refused; is_crowded = is_crowded } }
    {
        Basis {
            refused,
            is_crowded,
            ..*self
        }
    }

    /// Counts a packet, whose stamp goes back or doesn't.
    pub(crate) fn note_packet(&mut self, goes_back: bool)
        ensures { self.new ≡ spec.with_packet goes_back self.old }
    {
        self.packets = self.packets.saturating_add(1);
        if goes_back {
            self.back = self.back.saturating_add(1);
        }
    }

    /// Counts a datagram of the family, and notes its sender.
    pub(crate) fn note_datagram<F: CapturedFamily>(
        &mut self,
        config: &Config<F>,
        datagram: &CapturedDatagram<'_, F::Envelope>,
    )
    where
        F::Address: LineKey,
        ensures { self.new ≡ spec.with_datagram config.now
            (record { envelope = F.envelope_of datagram.now.envelope; body = datagram.now.body.now }) self.old }
    {
        config.is_faultless();
        match F::read(&datagram.envelope, datagram.body) {
            Ok(_) => self.messages = self.messages.saturating_add(1),
            Err(WireFault::UnknownType) => {}
            Err(_) => self.malformed = self.malformed.saturating_add(1),
        }
        self.note_sender::<F>(config, datagram);
    }

    /// Notes whether a datagram comes from the checked router, or is a query of a router with a higher address.
    fn note_sender<F: CapturedFamily>(
        &mut self,
        config: &Config<F>,
        datagram: &CapturedDatagram<'_, F::Envelope>,
    )
    where
        F::Address: LineKey,
        ensures { self.new ≡ spec.with_sender config.now
            (record { envelope = F.envelope_of datagram.now.envelope; body = datagram.now.body.now }) self.old }
    {
        config.is_faultless();
        let source = F::source(&datagram.envelope);
        self.is_heard = self.is_heard || F::is_same(source, config.own());
        self.has_higher = self.has_higher || is_of_higher::<F>(config.own(), datagram);
    }

    /// Counts a frame without a datagram of the family.
    pub(crate) fn note_other(&mut self, link: LinkType, frame: &[u8], inner: &Inner<'_>)
        ensures { self.new ≡ spec.with_other link frame.now (carried_of inner.now) self.old }
    {
        match inner {
            Inner::Cut => self.cut = self.cut.saturating_add(1),
            Inner::Fragment => self.unread = self.unread.saturating_add(1),
            Inner::Other if is_wrapped(type_in(link, frame)) => {
                self.unread = self.unread.saturating_add(1)
            }
            _ => {}
        }
    }

    /// Records that the router lost the role.
    pub(crate) fn lose_role(&mut self, moment: Moment)
        ensures { self.new ≡ spec.role_lost moment self.old }
    {
        self.is_querier = false;
        self.lost = self.lost.saturating_add(1);
        self.lost_at = moment;
    }

    /// Records that the router is querier again.
    pub(crate) fn return_role(&mut self, moment: Moment)
        ensures { self.new ≡ spec.role_returned moment self.old }
    {
        self.is_querier = true;
        self.again_at = moment;
    }

    /// Sets the other querier.
    pub(crate) fn name_other(&mut self, other: QuerierAddress)
        ensures { self.new ≡ record self.old { other = other } }
    {
        self.other = other;
    }

    /// Returns whether at least half of the packets are truncated or unread.
    pub(crate) fn is_hardly_understood(&self) -> bool
        ensures { result ≡ spec.is_hardly_understood self.now }
    {
        let missed = u128::from(self.cut) + u128::from(self.unread);
        0 < missed && u128::from(self.packets) <= 2 * missed
    }

    /// Returns whether at least half of the packets have stamps that go back.
    pub(crate) fn is_out_of_order(&self) -> bool
        ensures { result ≡ spec.is_out_of_order self.now }
    {
        0 < self.back && u128::from(self.packets) <= 2 * u128::from(self.back)
    }

    /// Returns whether nothing came from the checked router, though a router with a higher address sends queries.
    pub fn is_unseen(&self) -> bool
        ensures { result ≡ spec.is_unseen self.now }
    {
        !self.is_heard && self.has_higher
    }

    /// Returns whether the capture has a message of the family, well-formed or malformed.
    pub(crate) fn has_message(&self) -> bool
        ensures { result ≡ not (self.now.messages + self.now.malformed == 0) }
    {
        0 < self.messages || 0 < self.malformed
    }
}

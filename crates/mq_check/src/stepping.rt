//! Steps of a check: ticks of the link, and its datagrams.

ghost use Rattle.std.specs.Prelude.{◌≡◌, ◌+◌, ◌<◌, ◌≤◌, ◌^◌, Some, min};
ghost use Rattle.mq_link.specs.Receive.{receipt_of};
ghost use Rattle.mq_link.specs.Tick.{next_of};
ghost use Rattle.mq_text.specs.Printing.{output_of};
ghost use Rattle.mq_check.specs.Basis as basis;
ghost use Rattle.mq_check.specs.Check as spec;
ghost use Rattle.mq_check.specs.Checking.{faults_seen, role_changed};
ghost use Rattle.mq_check.specs.Coming.{Comes, checked_in};

use crate::checked_family::CheckedFamily;
use crate::headers::HeaderFault;
use crate::running_check::Check;
use crate::seen_queries::{is_broken_query, is_own_query, query_seen};
use crate::stamp::Stamp;
use crate::wanted_queries::WantedQueries;
use mq_count::{Moment, Span, Watched};
use mq_lines::LineKey;
use mq_link::{Config, Received};
use mq_pcap::unwrap_frame;
use mq_table::Timing;
use mq_text::LineFault;
use mq_walk::{CapturedDatagram, NumberedPacket, tick_before};
use std::alloc::Allocator;
use std::io::Write;

/// Returns the last moment at which the partner of a query may be wanted that is seen up to the end of a capture.
fn latest_partner(end: Stamp, within: u32) -> Stamp
    ensures { result ≡ min (end + within) (2 ^ 53) }
{
    Stamp::of((end.ms() + u64::from(within)).min(1 << 53))
}

impl<F: CheckedFamily, A: Allocator> Check<F, A>
where
    F::Address: LineKey,
{
    /// Ticks the link at a moment. The queries that it sends are wanted, and the router may become querier again.
    pub(crate) fn tick(&mut self, now: Moment)
        requires in_range { now ≤ 2 ^ 53 }
        ensures config { self.new.link.config ≡ self.old.link.config }
        ensures terms { self.new.terms ≡ self.old.terms }
        ensures told { self.new.told ≡ self.old.told }
        ensures later { now < next_of self.new.link.state }
        ensures ticks { checked_in self.new.link self.new.queries
            ≡ spec.ticked self.old.link.config self.old.terms.within now (checked_in self.old.link self.old.queries) }
    {
        self.link.config().is_faultless();
        let was_querier = self.link.is_querier();
        self.queries.begin(now, true, !was_querier);
        self.link.tick(now, &mut self.queries);
        if was_querier {
            return;
        }
        if !self.link.is_querier() {
            return;
        }
        self.queries.return_role(self.terms.within, now);
    }

    /// Gives the link a datagram. If it refuses one of its records, the groups of the datagram aren't judged.
    fn take(&mut self, stamp: Stamp, datagram: &CapturedDatagram<'_, F::Envelope>)
        ensures config { self.new.link.config ≡ self.old.link.config }
        ensures terms { self.new.terms ≡ self.old.terms }
        ensures told { self.new.told ≡ self.old.told }
        ensures takes { checked_in self.new.link self.new.queries ≡ spec.taken self.old.link.config self.old.terms.within stamp
            (record { envelope = F.envelope_of datagram.now.envelope; body = datagram.now.body.now }) (checked_in self.old.link self.old.queries) }
    {
        self.link.config().is_faultless();
        let received = self.receive(stamp, datagram);
        self.queries.refuse(received, datagram);
    }

    /// Gives the link a datagram, and returns its answer. The queries that it sends are wanted, and the role may change.
    fn receive(&mut self, stamp: Stamp, datagram: &CapturedDatagram<'_, F::Envelope>) -> Received
        ensures config { self.new.link.config ≡ self.old.link.config }
        ensures terms { self.new.terms ≡ self.old.terms }
        ensures told { self.new.told ≡ self.old.told }
        ensures receives { checked_in self.new.link self.new.queries ≡ spec.received self.old.link.config self.old.terms.within stamp
            (record { envelope = F.envelope_of datagram.now.envelope; body = datagram.now.body.now }) (checked_in self.old.link self.old.queries) }
        ensures answer { result ≡ (receipt_of self.old.link.config (F.envelope_of datagram.now.envelope) datagram.now.body.now stamp self.old.link.state).answer }
    {
        self.link.config().is_faultless();
        let configured = self.link.config().timing();
        let was_querier = self.link.is_querier();
        let now = stamp.moment();
        let in_force = self.link.timing();
        self.queries
            .change_all(now, self.link.config(), in_force, datagram);
        self.queries.begin(now, false, !was_querier);
        let received = self
            .link
            .receive(&datagram.envelope, datagram.body, now, &mut self.queries);
        let stays_querier = self.link.is_querier();
        change_role(
            &mut self.queries,
            self.terms.within,
            configured,
            stamp,
            was_querier,
            stays_querier,
        );
        self.queries.name_other(self.link.other_querier());
        received
    }

    /// Ticks the link at its next moments up to and including this one. The entries that have expired are purged before
    /// each tick.
    pub(crate) fn tick_through<W: Write>(
        &mut self,
        moment: Moment,
        writer: &mut Watched<W>,
    ) -> Result<(), LineFault>
        requires in_range { moment ≤ 2 ^ 53 }
        ensures terms { self.new.terms ≡ self.old.terms }
        ensures comes { Comes F.Address.family (spec.ticked_through self.old.link.config self.old.terms.within moment (checked_in self.old.link self.old.queries))
            self.old.link self.new.link self.new.queries self.old.told self.new.told
            (output_of W.contents writer.old) (output_of W.contents writer.new) result }
    {
        tick_before(self, moment.after(Span::from_ms(1)), writer)
    }

    /// Ticks the link up to and including a moment, and purges the entries that have expired then.
    pub(crate) fn purge_through<W: Write>(
        &mut self,
        end: Stamp,
        writer: &mut Watched<W>,
    ) -> Result<(), LineFault>
        ensures terms { self.new.terms ≡ self.old.terms }
        ensures comes { Comes F.Address.family (spec.purged_through self.old.link.config self.old.terms.within end (checked_in self.old.link self.old.queries))
            self.old.link self.new.link self.new.queries self.old.told self.new.told
            (output_of W.contents writer.old) (output_of W.contents writer.new) result }
    {
        let now = end.moment();
        self.tick_through(now, writer)?;
        self.queries.judge(&self.link, self.terms.within, &None);
        self.queries
            .purge(self.terms.within, now, &mut self.told, writer)
    }

    /// Ticks the link after the end of a capture, as long as a query that it sends may be the partner of a seen one.
    pub(crate) fn look_ahead<W: Write>(
        &mut self,
        end: Stamp,
        writer: &mut Watched<W>,
    ) -> Result<(), LineFault>
        ensures terms { self.new.terms ≡ self.old.terms }
        ensures comes { Comes F.Address.family (spec.looked_ahead self.old.link.config self.old.terms.within end (checked_in self.old.link self.old.queries))
            self.old.link self.new.link self.new.queries self.old.told self.new.told
            (output_of W.contents writer.old) (output_of W.contents writer.new) result }
    {
        let latest = latest_partner(end, self.terms.within);
        self.queries.excuse_all(self.terms.within, end.moment());
        self.tick_through(latest.moment(), writer)
    }

    /// Checks a packet, after the ticks up to its moment.
    pub(crate) fn check_packet<W: Write>(
        &mut self,
        packet: &NumberedPacket<'_>,
        writer: &mut Watched<W>,
    ) -> Result<(), LineFault>
        ensures terms { self.new.terms ≡ self.old.terms }
        ensures comes { Comes F.Address.family (spec.with_packet self.old.link.config packet.now.link self.old.terms.within packet.now.moment packet.now.number packet.now.goes_back packet.now.frame.now (checked_in self.old.link self.old.queries))
            self.old.link self.new.link self.new.queries self.old.told self.new.told
            (output_of W.contents writer.old) (output_of W.contents writer.new) result }
    {
        self.link.config().is_faultless();
        self.tick_through(packet.moment.moment(), writer)?;
        self.queries.note_packet(packet.goes_back);
        let inner = unwrap_frame(packet.link, packet.frame);
        match F::datagram(&inner) {
            Some(datagram) => {
                self.queries.note_datagram(self.link.config(), &datagram);
                self.check_datagram(packet, datagram, writer)
            }
            None => {
                self.queries.note_other(packet.link, packet.frame, &inner);
                Ok(())
            }
        }
    }

    /// Checks the datagram of a packet, after the entries that have expired at its moment are purged.
    fn check_datagram<W: Write>(
        &mut self,
        packet: &NumberedPacket<'_>,
        datagram: CapturedDatagram<'_, F::Envelope>,
        writer: &mut Watched<W>,
    ) -> Result<(), LineFault>
        ensures terms { self.new.terms ≡ self.old.terms }
        ensures comes { Comes F.Address.family (spec.with_datagram self.old.link.config packet.now.link self.old.terms.within packet.now.moment packet.now.number packet.now.frame.now
            (Some (record { envelope = F.envelope_of datagram.entry.envelope; body = datagram.entry.body.now })) (checked_in self.old.link self.old.queries))
            self.old.link self.new.link self.new.queries self.old.told self.new.told
            (output_of W.contents writer.old) (output_of W.contents writer.new) result }
    {
        self.link.config().is_faultless();
        let now = packet.moment.moment();
        self.queries
            .judge(&self.link, self.terms.within, &Some(now));
        self.queries
            .purge(self.terms.within, now, &mut self.told, writer)?;
        see_headers(
            &mut self.queries,
            self.link.config(),
            packet,
            now,
            &datagram,
        );
        let Some(query) = query_seen(self.link.config(), &datagram) else {
            self.take(packet.moment, &datagram);
            return Ok(());
        };
        let to = F::destination(packet.link, packet.frame, &datagram.envelope);
        self.queries
            .see(self.terms.within, &self.link, packet.moment, to, &query);
        Ok(())
    }
}

/// Records a loss or a return of the role, if it changed.
fn change_role<F: CheckedFamily, A: Allocator>(
    queries: &mut WantedQueries<F, A>,
    within: u32,
    configured: Timing,
    stamp: Stamp,
    was_querier: bool,
    is_querier: bool,
)
where
    F::Address: LineKey,
    ensures { queries.new ≡ record queries.old {
      checking =
          role_changed within configured stamp was_querier is_querier queries.old.checking;
      basis = basis.role_changed stamp was_querier is_querier queries.old.basis;
    } }
{
    match (was_querier, is_querier) {
        (true, false) => queries.lose_role(within, configured, stamp),
        (false, true) => queries.return_role(within, stamp.moment()),
        _ => {}
    }
}

/// Handles the headers of a packet and of its message if it has a query of the checked router.
fn see_headers<F: CheckedFamily, A: Allocator>(
    queries: &mut WantedQueries<F, A>,
    config: &Config<F>,
    packet: &NumberedPacket<'_>,
    now: Moment,
    datagram: &CapturedDatagram<'_, F::Envelope>,
)
where
    F::Address: LineKey,
    ensures { queries.new ≡ record queries.old {
      checking =
          faults_seen now packet.now.number
          (spec.faults_in config.now packet.now.link packet.now.frame.now
          (record { envelope = F.envelope_of datagram.now.envelope; body = datagram.now.body.now })) queries.old.checking;
    } }
{
    config.is_faultless();
    if is_own_query(config, datagram) {
        let headers = F::headers(packet.link, packet.frame, datagram);
        queries.see_headers(now, packet.number, headers);
        return;
    }
    if is_broken_query(config, datagram) {
        queries.see_fault(now, packet.number, HeaderFault::WrongChecksum);
    }
}

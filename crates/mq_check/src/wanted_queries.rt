//! The outlet through which a link's queries become wanted.

ghost use Rattle.std.specs.Prelude.{◌≡◌, ◌≤◌, ◌^◌, IfOk, IfSome, flat_map, false};
ghost use Rattle.mq_pcap.specs.Frame.{carried_of};
ghost use Rattle.mq_wire.specs.Numbered.{numbered_query};
ghost use Rattle.mq_text.specs.Printing.{output_of};
ghost use Rattle.mq_check.specs.Basis as basis;
ghost use Rattle.mq_check.specs.Causes.{causes_in};
ghost use Rattle.mq_check.specs.Checking as spec;
ghost use Rattle.mq_check.specs.Headers.{faults_of};
ghost use Rattle.mq_check.specs.Queries.{specific_terms};
ghost use Rattle.mq_check.specs.Standing.{is_set};
ghost use Rattle.mq_check.specs.Refused.{refused_by};
ghost use Rattle.mq_check.specs.Telling.{Tells};

use crate::basis::{Basis, CheckedVariables};
use crate::causes::Changed;
use crate::checked_family::CheckedFamily;
use crate::checking::Checking;
use crate::finding_writer::FindingWriter;
use crate::headers::{HeaderFault, Headers};
use crate::seeing::SeenPacket;
use crate::stamp::Stamp;
use mq_count::{Moment, Watched};
use mq_lines::LineKey;
use mq_link::{Config, Link, QueryOutlet, Received};
use mq_pcap::{Inner, LinkType};
use mq_sched::OtherQuerier;
use mq_table::Timing;
use mq_text::LineFault;
use mq_walk::CapturedDatagram;
use mq_wire::Query;
use std::alloc::Allocator;
use std::io::Write;
use std::marker::Model;

/// A check in progress and the basis of its verdict. A link sends its messages of one moment to it.
#[derive(Drop)]
pub(crate) struct WantedQueries<F: CheckedFamily, A: Allocator>
where
    F::Address: LineKey,
{
    checking: Checking<F, A>,
    basis: Basis,
    moment: Moment,
    by_tick: bool,
    is_returning: bool,
}

impl<F: CheckedFamily, A: Allocator> Model for WantedQueries<F, A>
where
    F::Address: LineKey,
{
    ghost use Rattle.std.specs.Prelude.{◌≤◌, ◌^◌};
    ghost use Rattle.mq_check.specs.Wanting.{WantingValue};

    ghost Value = { WantingValue };

    ghost view = { λ w. record { checking = w.checking; basis = w.basis; moment = w.moment; by_tick = w.by_tick; is_returning = w.is_returning } };

    ghost invariant = { λ w. w.moment ≤ 2 ^ 53 };
}

impl<F: CheckedFamily, A: Allocator> WantedQueries<F, A>
where
    F::Address: LineKey,
{
    /// Returns an outlet for the router at `own`. Its queries are wanted at the moment that `begin` sets.
    pub(crate) fn new(
        checking: Checking<F, A>,
        variables: CheckedVariables,
        own: F::Address,
        moment: Moment,
    ) -> WantedQueries<F, A>
        requires { moment ≡ 0 }
        ensures { result ≡ record { checking = checking; basis = basis.basis_at_start variables (basis.named F.FAMILY (F.Address.number own)); moment = moment; by_tick = false; is_returning = false } }
    {
        WantedQueries {
            checking,
            basis: Basis::at_start(variables, F::named(own), F::named(own), moment),
            moment,
            by_tick: false,
            is_returning: false,
        }
    }

    /// Sets the moment of the next queries, and whether a tick makes the link send them. General queries are wanted if the
    /// router may become querier again.
    pub(crate) fn begin(&mut self, moment: Moment, by_tick: bool, is_returning: bool)
        requires in_range { moment ≤ 2 ^ 53 }
        ensures { self.new ≡ record self.old { moment = moment; by_tick = by_tick; is_returning = is_returning } }
    {
        self.moment = moment;
        self.by_tick = by_tick;
        self.is_returning = is_returning;
    }

    /// Returns the check so far.
    pub(crate) fn checking(&self) -> &Checking<F, A>
        ensures { result.now ≡ self.now.checking }
    {
        &self.checking
    }

    /// Returns the basis of the verdict so far.
    pub(crate) fn basis(&self) -> &Basis
        ensures { result.now ≡ self.now.basis }
    {
        &self.basis
    }

    /// Counts a packet, whose stamp goes back or doesn't.
    pub(crate) fn note_packet(&mut self, goes_back: bool)
        ensures { self.new ≡ record self.old { basis = basis.with_packet goes_back self.old.basis } }
    {
        self.basis.note_packet(goes_back);
    }

    /// Counts a datagram of the family, and notes its sender.
    pub(crate) fn note_datagram(
        &mut self,
        config: &Config<F>,
        datagram: &CapturedDatagram<'_, F::Envelope>,
    )
        ensures { self.new ≡ record self.old {
          basis =
              basis.with_datagram config.now
              (record { envelope = F.envelope_of datagram.now.envelope; body = datagram.now.body.now }) self.old.basis;
        } }
    {
        self.basis.note_datagram::<F>(config, datagram);
    }

    /// Counts a frame without a datagram of the family.
    pub(crate) fn note_other(&mut self, link: LinkType, frame: &[u8], inner: &Inner<'_>)
        ensures { self.new ≡ record self.old {
          basis = basis.with_other link frame.now (carried_of inner.now) self.old.basis;
        } }
    {
        self.basis.note_other(link, frame, inner);
    }

    /// Sets the other querier, if there is one.
    pub(crate) fn name_other(&mut self, other: Option<OtherQuerier<F::Address>>)
        ensures { self.new ≡ record self.old { basis = basis.with_other_named F.FAMILY F.Address.number other self.old.basis } }
    {
        if let Some(other) = other {
            self.basis.name_other(F::named(other.address));
        }
    }

    /// Judges S of the seen queries that no Report of this moment can change. Without a moment, all are judged.
    pub(crate) fn judge(&mut self, link: &Link<F, A>, within: u32, now: &Option<Moment>)
        requires in_range { IfSome now.now (λ moment. moment ≤ 2 ^ 53) }
        ensures { self.new ≡ record self.old {
          checking =
              spec.with_s_judged within now.now (is_set link.now.state.groups)
              self.old.checking;
        } }
    {
        self.checking.judge(link, within, now);
    }

    /// Removes the entries that have expired at a moment, and reports their findings.
    pub(crate) fn purge<W: Write>(
        &mut self,
        within: u32,
        now: Moment,
        told: &mut FindingWriter,
        writer: &mut Watched<W>,
    ) -> Result<(), LineFault>
        requires in_range { now ≤ 2 ^ 53 }
        ensures basis { self.new.basis ≡ self.old.basis }
        ensures purged { IfOk result (λ _. self.new.checking ≡ spec.purged now self.old.checking) }
        ensures tells { Tells F.Address.family (spec.told within now self.old.checking) told.old told.new
            (output_of W.contents writer.old) (output_of W.contents writer.new) result }
    {
        self.checking.purge(within, now, told, writer)
    }

    /// Handles the end of the capture, after which the partners of wanted queries may come.
    pub(crate) fn excuse_all(&mut self, within: u32, end: Moment)
        requires in_range { end ≤ 2 ^ 53 }
        ensures { self.new ≡ record self.old { checking = spec.with_all_excused within end self.old.checking } }
    {
        self.checking.excuse_all(within, end);
    }

    /// Handles the changes in a datagram of a host that may make a querier send a query.
    pub(crate) fn change_all(
        &mut self,
        moment: Moment,
        config: &Config<F>,
        in_force: Timing,
        datagram: &CapturedDatagram<'_, F::Envelope>,
    )
        ensures { self.new ≡ record self.old {
          checking =
              spec.all_changed moment (specific_terms config.now in_force self.old.basis.packets)
              (causes_in F.FAMILY (record { envelope = F.envelope_of datagram.now.envelope; body = datagram.now.body.now }))
              self.old.checking;
        } }
    {
        let at = Changed {
            config,
            in_force,
            moment,
            packet: self.basis.packets,
        };
        self.checking
            .change_all(&at, &datagram.envelope, datagram.body);
    }

    /// Handles the answer of the link to a datagram. If it refused a record, no group of the datagram is judged.
    pub(crate) fn refuse(
        &mut self,
        received: Received,
        datagram: &CapturedDatagram<'_, F::Envelope>,
    )
        ensures { self.new ≡ record self.old {
          checking =
              spec.groups_refused
              (refused_by F.FAMILY received (record { envelope = F.envelope_of datagram.now.envelope; body = datagram.now.body.now }))
              self.old.checking;
        } }
    {
        self.checking
            .refuse(received, &datagram.envelope, datagram.body);
    }

    /// Removes all pending entries at the end of a capture, and reports their findings.
    pub(crate) fn tell_rest<W: Write>(
        &mut self,
        within: u32,
        end: Moment,
        told: &mut FindingWriter,
        writer: &mut Watched<W>,
    ) -> Result<(), LineFault>
        requires in_range { end ≤ 2 ^ 53 }
        ensures tells { Tells F.Address.family (flat_map (spec.found_of_last within end self.old.checking.changed self.old.checking.refused) self.old.checking.waiting.entries) told.old told.new
            (output_of W.contents writer.old) (output_of W.contents writer.new) result }
    {
        self.checking.tell_rest(within, end, told, writer)
    }

    /// Handles the return of the role, by a tick or a datagram.
    pub(crate) fn return_role(&mut self, within: u32, moment: Moment)
        requires in_range { moment ≤ 2 ^ 53 }
        ensures { self.new ≡ record self.old {
          checking = spec.role_returned within moment self.old.checking;
          basis = basis.role_returned moment self.old.basis;
        } }
    {
        self.checking.return_role(within, moment);
        self.basis.return_role(moment);
    }

    /// Handles the loss of the role.
    pub(crate) fn lose_role(&mut self, within: u32, configured: Timing, stamp: Stamp)
        ensures { self.new ≡ record self.old {
          checking = spec.role_lost within configured stamp self.old.checking;
          basis = basis.role_lost stamp self.old.basis;
        } }
    {
        self.checking.lose_role(within, configured, stamp);
        self.basis.lose_role(stamp.moment());
    }

    /// Handles the headers of a packet with a query of the checked router.
    pub(crate) fn see_headers(&mut self, moment: Moment, number: u64, headers: Headers)
        ensures { self.new ≡ record self.old {
          checking = spec.faults_seen moment number (faults_of headers) self.old.checking;
        } }
    {
        self.checking.see_headers(moment, number, headers);
    }

    /// Handles a fault of a packet with a query of the checked router.
    pub(crate) fn see_fault(&mut self, moment: Moment, number: u64, fault: HeaderFault)
        ensures { self.new ≡ record self.old { checking = spec.with_fault moment number self.old.checking fault } }
    {
        self.checking.see_fault(moment, number, fault);
    }

    /// Handles a query of the checked router that is seen.
    pub(crate) fn see(
        &mut self,
        within: u32,
        link: &Link<F, A>,
        stamp: Stamp,
        to: F::Address,
        query: &Query<'_, F::Address>,
    )
        ensures { self.new ≡ record self.old {
          checking =
              spec.query_came within link.now.config link.now.state stamp self.old.basis.packets (F.Address.number to) (numbered_query F.Address.number query.now) self.old.checking;
        } }
    {
        let packet = SeenPacket {
            stamp,
            number: self.basis.packets,
            to,
        };
        self.checking.query_seen(within, link, packet, query);
    }
}

impl<F: CheckedFamily, A: Allocator> QueryOutlet<F::Address> for WantedQueries<F, A>
where
    F::Address: LineKey,
{
    ghost use Rattle.mq_check.specs.Wanting.{TakesMessage};

    ghost takes = { TakesMessage F.FAMILY };

    fn query(&mut self, to: F::Address, query: &Query<'_, F::Address>, _bytes: &[u8]) -> bool {
        let packet = self.basis.packets;
        self.checking.query_wanted(
            self.moment,
            packet,
            self.by_tick,
            self.is_returning,
            to,
            query,
        );
        true
    }
}

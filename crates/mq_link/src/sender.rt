//! The sender of queries, between their schedules and the outlet.

ghost use Rattle.std.specs.Prelude.{◌≡◌, ◌≤◌, ◌==◌, ◌<◌, ◌↔◌, IsTrue, ℕ, false, [], not, if◌then◌else◌, length, take, map};
ghost use Rattle.mq_count.specs.Streams.{counted_on};
ghost use Rattle.mq_wire.specs.Numbered.{numbered_query};
ghost use Rattle.mq_sched.specs.Sending.{GeneralQuery};
ghost use Rattle.mq_sched.specs.Sink.{query_of};
ghost use Rattle.mq_link.specs.Family as family;
ghost use Rattle.mq_link.specs.Handing.{outgoing_on, FitsOne, KeepsIntervals};
ghost use Rattle.mq_link.specs.Sender.{TakesQuery};
ghost use Rattle.mq_link.specs.Sent as spec;
ghost use Rattle.mq_link.specs.State.{one_if};

use crate::config::Config;
use crate::family::Family;
use crate::outlet::QueryOutlet;
use arrayvec::ArrayVec;
use mq_sched::{QueryParts, Sink};
use mq_table::Timing;
use mq_wire::{Qrv, QuerierFields, Query, QueryVersion, Sources, WireKey};
use std::marker::Model;

/// The bytes of the longest query, which is of IGMP with 366 sources. The longest of MLD, with 89, has 1452.
const LONGEST: usize = 1476;

/// The own address and the timing in force, which all queries of a router carry.
#[derive(Drop)]
pub(crate) struct QueryTerms<F: Family> {
    own: F::Address,
    timing: Timing,
    response: u32,
    last_member: u32,
}

impl<F: Family> Model for QueryTerms<F> {
    ghost use Rattle.std.specs.Prelude.{◌≡◌};
    ghost use Rattle.mq_link.specs.Handing.{Terms};

    ghost Value = { Terms };

    ghost view = { λ t. record { own = F.Address.number t.own; timing = t.timing } };

    ghost invariant = { λ t.
        (t.response ≡ t.timing.response_interval) × (t.last_member ≡ t.timing.last_member_interval) };
}

impl<F: Family> QueryTerms<F> {
    /// Returns the terms of a router with this configuration.
    pub(crate) fn of(config: &Config<F>) -> QueryTerms<F>
        ensures { result ≡ record { own = config.now.own; timing = config.now.timing } }
    {
        QueryTerms::new(config, config.timing())
    }

    /// Returns the terms of a router with this configuration and this timing in force. Its response interval and its
    /// last member interval are always the configured ones.
    fn new(config: &Config<F>, timing: Timing) -> QueryTerms<F>
        requires { KeepsIntervals config.now.timing timing }
        ensures { result ≡ record { own = config.now.own; timing = timing } }
    {
        QueryTerms {
            own: config.own(),
            timing,
            response: config.response_interval(),
            last_member: config.last_member_interval(),
        }
    }

    /// Returns a query with the variables that are in force.
    fn query_with<'q>(
        &self,
        group: F::Address,
        response: u32,
        suppress: bool,
        sources: &'q [F::Address],
    ) -> Query<'q, F::Address>
        ensures { numbered_query F.Address.number result ≡ spec.query_with self.now.timing (F.Address.number group) response
            suppress (map F.Address.number sources.entry.now) }
    {
        self.timing.is_in_range();
        Query {
            group,
            response,
            version: QueryVersion::Current(QuerierFields {
                suppress,
                robustness: Qrv::new(self.timing.robustness() as u8),
                interval: self.timing.query_seconds(),
                sources: Sources::lent(sources),
            }),
        }
    }

    /// Returns the fields of a query. A general query asks for group zero with the response interval, any other for its
    /// group with the last member interval.
    fn fields<'q>(&self, query: QueryParts<'q, F::Address>) -> Query<'q, F::Address>
        ensures { numbered_query F.Address.number result
            ≡ spec.fields_sent self.now.timing (query_of F.Address.number query.entry) }
    {
        match query {
            QueryParts::General => self.query_with(F::unspecified(), self.response, false, &[]),
            QueryParts::Group { group, suppress } => self.query_with(
                group,
                self.last_member,
                suppress,
                &[],
            ),
            QueryParts::Sources {
                group,
                suppress,
                sources,
            } => self.query_with(group, self.last_member, suppress, sources),
        }
    }

    /// Writes a query that one message holds to the front, and returns its fields and its number of bytes.
    fn write<'q>(
        &self,
        query: QueryParts<'q, F::Address>,
        out: &mut [u8],
    ) -> (Query<'q, F::Address>, usize)
        requires fits { FitsOne F.FAMILY (query_of F.Address.number query) }
        requires length { length out.old ≡ 1476 }
        ensures fields { numbered_query F.Address.number result.0
            ≡ (outgoing_on F.FAMILY self.now (query_of F.Address.number query.entry)).query }
        ensures within { result.1 ≤ 1476 }
        ensures len { length out.new ≡ length out.old }
        ensures bytes { take result.1 out.new
            ≡ (outgoing_on F.FAMILY self.now (query_of F.Address.number query.entry)).bytes }
    {
        let fields = self.fields(query);
        match F::write(self.own, &fields, out) {
            Ok(length) => (fields, length),
            Err(_) => unreachable!(),
        }
    }
}

/// Returns the destination of a query for a group. A general query, for group zero, goes to all hosts.
fn destination<F: Family>(group: F::Address) -> F::Address
    ensures { F.Address.number result
        ≡ (if F.Address.number group == 0 then family.general_destination F.FAMILY else F.Address.number group) }
{
    if F::is_zero(group) {
        F::general_destination()
    } else {
        group
    }
}

/// Returns whether one message holds a query.
fn fits_one<F: Family>(query: &QueryParts<'_, F::Address>) -> bool
    ensures { IsTrue result ↔ FitsOne F.FAMILY (query_of F.Address.number query.now) }
{
    match query {
        QueryParts::Sources { sources, .. } => sources.len() <= F::Address::PER_QUERY,
        _ => true,
    }
}

/// An outlet with the terms of a router, and counts of its answers. They are the numbers of messages that it answered
/// by true and by false since the terms were set. It receives each query that one message holds. Terms and outlet are
/// borrowed, so that it is known what they are once the sender ends.
#[derive(Drop)]
pub(crate) struct Sender<'a, F: Family, O> {
    terms: &'a mut QueryTerms<F>,
    outlet: &'a mut O,
    sent: u64,
    unsent: u64,
}

impl<'a, F: Family, O: QueryOutlet<F::Address>> Sender<'a, F, O> {
    /// Returns a sender to this outlet on these terms. Each call of a link sets them anew.
    pub(crate) fn new(terms: &'a mut QueryTerms<F>, outlet: &'a mut O) -> Sender<'a, F, O>
        ensures same_terms { result.terms.ghost_name ≡ terms.entry.ghost_name }
        ensures terms { result.terms.now ≡ terms.old }
        ensures same_outlet { result.outlet.ghost_name ≡ outlet.entry.ghost_name }
        ensures outlet { result.outlet.now ≡ outlet.old }
        ensures sent { result.sent ≡ 0 }
        ensures unsent { result.unsent ≡ 0 }
    {
        Sender {
            terms,
            outlet,
            sent: 0,
            unsent: 0,
        }
    }

    /// Sets the terms to those of this configuration and timing, and the counts to 0.
    pub(crate) fn begin(&mut self, config: &Config<F>, timing: Timing)
        requires { KeepsIntervals config.now.timing timing }
        ensures { self.new ≡ record self.old {
          terms = record self.old.terms { now = record { own = config.now.own; timing = timing } };
          sent = 0;
          unsent = 0;
        } }
    {
        *self.terms = QueryTerms::new(config, timing);
        self.sent = 0;
        self.unsent = 0;
    }

    /// Returns the number of queries that were sent so far.
    pub(crate) fn sent(&self) -> u64
        ensures { result ≡ self.now.sent }
    {
        self.sent
    }

    /// Returns the number of queries that were not sent so far.
    pub(crate) fn unsent(&self) -> u64
        ensures { result ≡ self.now.unsent }
    {
        self.unsent
    }

    /// Sends a general query.
    pub(crate) fn send_general<'q>(&'q mut self)
        ensures { TakesQuery O.takes F.FAMILY self.old GeneralQuery self.new }
    {
        let query: QueryParts<'q, F::Address> = QueryParts::General;
        self.send(query);
    }

    /// Gives one datagram to the outlet, and counts the answer.
    fn hand_over(&mut self, query: &Query<'_, F::Address>, bytes: &[u8]) -> bool
        ensures terms { self.new.terms ≡ self.old.terms }
        ensures same_outlet { self.new.outlet.ghost_name ≡ self.old.outlet.ghost_name }
        ensures takes { let q = numbered_query F.Address.number query.now in
            let to = if q.group == 0 then family.general_destination F.FAMILY else q.group in
            O.takes self.old.outlet.now (record { to = to; query = q; bytes = bytes.now }) result self.new.outlet.now }
        ensures sent { self.new.sent ≡ counted_on self.old.sent (one_if result) }
        ensures unsent { self.new.unsent ≡ counted_on self.old.unsent (one_if (not result)) }
    {
        let to = destination::<F>(query.group);
        let answer = self.outlet.query(to, query, bytes);
        if answer {
            self.sent = self.sent.saturating_add(1);
        } else {
            self.unsent = self.unsent.saturating_add(1);
        }
        answer
    }
}

impl<'a, F: Family, O: QueryOutlet<F::Address>> Sink<F::Address> for Sender<'a, F, O> {
    ghost takes = { TakesQuery O.takes F.FAMILY };

    fn send(&mut self, query: QueryParts<'_, F::Address>) -> bool
        ensures takes { TakesQuery O.takes F.FAMILY self.old (query_of F.Address.number query.entry) self.new }
        ensures sent { self.new.sent ≡ counted_on self.old.sent (one_if result) }
    {
        if !fits_one::<F>(&query) {
            return false;
        }
        let mut out = ArrayVec::from([0; LONGEST]);
        let (fields, length) = self.terms.write(query, out.as_mut_slice());
        self.hand_over(&fields, &out.as_slice()[..length])
    }
}

//! Queries of the checked router that are seen.

ghost use Rattle.std.specs.Prelude.{◌≡◌, ◌≤◌, ◌^◌, fold, map as list_map, ⊤};
ghost use Rattle.mq_wire.specs.Numbered.{numbered_query};
ghost use Rattle.mq_check.specs.declared.asked.Asked.TheVariants.{Source};
ghost use Rattle.mq_check.specs.declared.entry.Entry.TheVariants.{Seen};
ghost use Rattle.mq_check.specs.Checking as spec;
ghost use Rattle.mq_check.specs.Headers.{fault_if, faults_of};
ghost use Rattle.mq_check.specs.Numbered.{numbered_asked, numbered_terms, numbered_terms_if, numbered_unpaired};
ghost use Rattle.mq_check.specs.Queries as queries;
ghost use Rattle.mq_check.specs.Standing.{standing_in};
ghost use Rattle.mq_check.specs.Waiting as waits;

use crate::asked::Asked;
use crate::checked_family::CheckedFamily;
use crate::checking::Checking;
use crate::earliest_partner::EarliestPartner;
use crate::entry::{Entry, Need, SVerdict, SeenVerdict, Unpaired};
use crate::finding::ExtraReason;
use crate::general::query_interval;
use crate::headers::{HeaderFault, Headers};
use crate::schedules::{as_seen, first_of};
use crate::stamp::Stamp;
use crate::standing::{Standing, standing_in};
use crate::terms::{Terms, general_terms, is_suppressed, terms_of};
use crate::waiting::{Side, Waiting};
use crate::wanting::{asked_without_sources, is_general, sources_of};
use mq_count::Moment;
use mq_lines::LineKey;
use mq_link::{Family, Link};
use mq_table::Timing;
use mq_wire::{Query, Sources, WireKey};
use std::alloc::{AllocError, Allocator};

/// A packet with a query: its stamp, its number, and its destination.
pub(crate) struct SeenPacket<K: WireKey> {
    pub(crate) stamp: Stamp,
    pub(crate) number: u64,
    pub(crate) to: K,
}

impl<K: WireKey> Clone for SeenPacket<K> {
    ghost is_clone = { λ x y. y ≡ x };

    ghost is_infallible = { λ _. ⊤ };

    fn clone(&self) -> Result<Self, AllocError> {
        Ok(*self)
    }
}

impl<K: WireKey> Copy for SeenPacket<K> {}

/// A seen query: its stamp and its terms.
struct SeenQuery<K: WireKey> {
    stamp: Stamp,
    terms: Terms<K>,
}

impl<K: WireKey> Clone for SeenQuery<K> {
    ghost is_clone = { λ x y. y ≡ x };

    ghost is_infallible = { λ _. ⊤ };

    fn clone(&self) -> Result<Self, AllocError> {
        Ok(*self)
    }
}

impl<K: WireKey> Copy for SeenQuery<K> {}

/// Returns the reason why a query is extra that is seen while the router is querier.
fn reason_of(is_muted: bool) -> ExtraReason
    ensures { result ≡ spec.reason_of is_muted }
{
    if is_muted {
        ExtraReason::OlderHost
    } else {
        ExtraReason::NoChange
    }
}

/// Returns the verdict on S of a seen query by the timer of its subject.
fn s_by<K: WireKey>(is_above: bool, set_from: Moment, terms: &Terms<K>) -> SVerdict
    ensures { result ≡ spec.s_by is_above set_from (numbered_terms K.number terms.now) }
{
    if is_suppressed(terms.querier) == is_above {
        SVerdict::Right
    } else {
        SVerdict::Open(set_from)
    }
}

/// Returns the verdict on S. If the Robustness Variable is above 7, it isn't judged.
fn s_for<K: WireKey>(above_7: bool, is_above: bool, set_from: Moment, terms: &Terms<K>) -> SVerdict
    ensures { result ≡ spec.s_for above_7 is_above set_from (numbered_terms K.number terms.now) }
{
    if above_7 {
        SVerdict::Right
    } else {
        s_by(is_above, set_from, terms)
    }
}

/// Appends a seen query with its partner's terms, if it has one, and its verdicts: on S, and without a partner.
fn put_seen<F: Family, A: Allocator>(
    waiting: &mut Waiting<F, A>,
    moment: Moment,
    asked: Asked<F::Address>,
    terms: Terms<F::Address>,
    partner: Option<Terms<F::Address>>,
    s: SVerdict,
    alone: Unpaired<F::Address>,
)
    ensures { waiting.new ≡ waits.with_entry (Seen moment (numbered_asked F.Address.number asked) (numbered_terms F.Address.number terms) (numbered_terms_if F.Address.number partner) (record { s = s; alone = numbered_unpaired F.Address.number alone })) waiting.old }
{
    let verdict = SeenVerdict { s, alone };
    waiting.put(Entry::Seen(moment, asked, terms, partner, verdict));
}

/// Returns the verdict on a seen query without a partner. `possible` has the terms of a query that another reading, or a state
/// from before the capture, may explain.
fn alone_if<K: WireKey>(is_querier: bool, is_muted: bool, possible: Option<Terms<K>>) -> Unpaired<K>
    ensures { numbered_unpaired K.number result
        ≡ spec.alone_if is_querier is_muted (numbered_terms_if K.number possible) }
{
    match (is_querier, possible) {
        (false, _) => Unpaired::Extra(ExtraReason::NotQuerier),
        (true, Some(wanted)) => Unpaired::Possible(wanted),
        (true, None) => Unpaired::Extra(reason_of(is_muted)),
    }
}

/// Queues a finding if the interval is wrong.
fn put_interval<F: Family, A: Allocator>(
    waiting: &mut Waiting<F, A>,
    configured: Timing,
    stamp: Stamp,
    packet: u64,
    passed: Option<u64>,
)
    ensures { waiting.new ≡ spec.with_interval configured stamp packet passed waiting.old }
{
    if let Some(passed) = passed {
        let wanted = query_interval(configured);
        waiting.put(Entry::Interval(stamp.moment(), packet, passed, wanted));
    }
}

impl<F: Family, A: Allocator> Checking<F, A> {
    /// Adds a seen query, and pairs it.
    ///
    /// Its partner is a wanted query on the subject, or the next query of a schedule from before the capture.
    fn see(
        &mut self,
        moment: Moment,
        terms: Terms<F::Address>,
        standing: Standing,
        asked: Asked<F::Address>,
    )
        requires in_range { moment ≤ 2 ^ 53 }
        ensures { self.new ≡ spec.with_seen moment (numbered_terms F.Address.number terms) standing self.old (numbered_asked F.Address.number asked) }
    {
        let from = self.near(moment);
        let above_7 = self.schedules.is_above_7();
        self.forget(moment);
        let alone = self.alone(moment, terms, standing.is_muted, asked);
        let next = self.schedules.followed(moment, standing.is_above, asked);
        let caused = self.schedules.caused(moment, asked);
        self.note_unmuted(moment, terms, asked);
        let partner = self.pair(moment, &from, terms, asked);
        let has_partner = partner.is_some();
        let follows = next.is_some();
        let is_possible = alone.is_possible();
        self.schedules.place(
            moment,
            terms,
            asked,
            has_partner,
            follows,
            is_possible,
            caused,
        );
        let either = first_of(partner, next);
        let s = s_for(above_7, standing.is_above, standing.set_from, &terms);
        put_seen(&mut self.waiting, moment, asked, terms, either, s, alone);
    }

    /// Returns whether a query for a source shows that no older host mutes the changes of its group, and that isn't known. No
    /// other change may explain it.
    fn shows_unmuted(&self, moment: Moment, group: F::Address, source: F::Address) -> bool
        ensures { result ≡ spec.shows_unmuted moment (F.Address.number group) (F.Address.number source) self.now }
    {
        self.phase.is_querier()
            && self
                .schedules
                .has_cause(moment, Asked::Source(group, source))
            && self
                .schedules
                .unclear(Asked::Source(group, source))
                .is_none()
            && !self.unmuted.has_any(Side::OfWanted, Asked::Group(group))
    }

    /// Notes the group of a source whose query comes after a change that older hosts mute.
    fn note_unmuted(&mut self, moment: Moment, terms: Terms<F::Address>, asked: Asked<F::Address>)
        ensures { self.new ≡ record self.old { unmuted = spec.with_unmuted moment (numbered_terms F.Address.number terms) (numbered_asked F.Address.number asked) self.old } }
    {
        if let Asked::Source(group, source) = asked {
            if self.shows_unmuted(moment, group, source) {
                let asked = Asked::Group(group);
                self.unmuted
                    .put(Entry::Wanted(moment, asked, terms, Need::Optional, false));
            }
        }
    }

    /// Returns whether the partner of a seen query may be before `from`: no wanted query from then on may be it, and the seen
    /// query goes on with a schedule.
    fn is_late(&self, moment: Moment, from: &EarliestPartner, asked: Asked<F::Address>) -> bool
        ensures { result ≡ spec.is_late_in from.now moment (numbered_asked F.Address.number asked) self.now.waiting self.now.schedules }
    {
        !self.waiting.has_free(Side::OfWanted, asked, from) && self.schedules.goes_on(moment, asked)
    }

    /// Pairs a seen query with the first wanted query on the subject that has no partner, and returns its terms. The wanted
    /// query may be before `from` only if the seen one goes on with a schedule.
    fn pair(
        &mut self,
        moment: Moment,
        from: &EarliestPartner,
        terms: Terms<F::Address>,
        asked: Asked<F::Address>,
    ) -> Option<Terms<F::Address>>
        ensures partner { numbered_terms_if F.Address.number result
            ≡ spec.partner_if (spec.is_late_in from.now moment (numbered_asked F.Address.number asked) self.old.waiting self.old.schedules)
            from.now (numbered_terms F.Address.number terms) (numbered_asked F.Address.number asked) self.old.waiting }
        ensures paired { self.new ≡ record self.old {
          waiting =
              spec.paired_if (spec.is_late_in from.now moment (numbered_asked F.Address.number asked) self.old.waiting self.old.schedules)
              from.now (numbered_terms F.Address.number terms) (numbered_asked F.Address.number asked) self.old.waiting;
        } }
    {
        self.waiting.approach(Side::OfWanted, asked, from);
        if !self.is_late(moment, from, asked) {
            return self.waiting.join(Side::OfWanted, asked, from, terms);
        }
        let earlier = self.waiting.join_any(Side::OfWanted, asked, terms);
        as_seen(terms, earlier)
    }

    /// Returns the verdict on a seen query if it finds no partner.
    fn alone(
        &self,
        moment: Moment,
        terms: Terms<F::Address>,
        is_muted: bool,
        asked: Asked<F::Address>,
    ) -> Unpaired<F::Address>
        ensures { numbered_unpaired F.Address.number result
            ≡ spec.alone_after moment (numbered_terms F.Address.number terms) is_muted (numbered_asked F.Address.number asked) self.now }
    {
        let is_querier = self.phase.is_querier();
        let unclear = self.schedules.unclear(asked);
        let caused = self.schedules.caused(moment, asked);
        let unforeseen = self.schedules.unforeseen(moment, terms, asked);
        let possible = first_of(as_seen(terms, first_of(unclear, caused)), unforeseen);
        alone_if(is_querier, is_muted, possible)
    }

    /// Adds a seen query for each subject of a query.
    fn see_all(
        &mut self,
        seen: SeenQuery<F::Address>,
        link: &Link<F, A>,
        query: &Query<'_, F::Address>,
    )
        ensures { self.new ≡ fold (spec.one_seen seen.stamp (numbered_terms F.Address.number seen.terms) (standing_in F.FAMILY link.now.state.groups link.now.state.election.timing seen.stamp))
            self.old (queries.asked_in (numbered_query F.Address.number query.now)) }
    {
        let sources = sources_of(&query.version);
        if sources.is_empty() {
            let asked = asked_without_sources::<F>(query.group);
            let standing = standing_in(link, seen.stamp, asked);
            self.see(seen.stamp.moment(), seen.terms, standing, asked);
            return;
        }
        self.see_sources(seen, link, query.group, sources);
    }

    /// Adds a seen query for each of some sources of a group.
    fn see_sources(
        &mut self,
        seen: SeenQuery<F::Address>,
        link: &Link<F, A>,
        group: F::Address,
        sources: Sources<'_, F::Address>,
    )
        ensures { self.new ≡ fold (spec.one_seen seen.stamp (numbered_terms F.Address.number seen.terms) (standing_in F.FAMILY link.now.state.groups link.now.state.election.timing seen.stamp))
            self.old (list_map (Source (F.Address.number group)) sources.entry) }
    {
        for source in sources {
            let asked = Asked::Source(group, source);
            let standing = standing_in(link, seen.stamp, asked);
            self.see(seen.stamp.moment(), seen.terms, standing, asked);
        }
    }

    /// Judges the interval and the fields of a general query that is seen while the router is querier.
    fn judge_general(
        &mut self,
        within: u32,
        configured: Timing,
        stamp: Stamp,
        terms: Terms<F::Address>,
        wanted: Terms<F::Address>,
    )
        ensures { self.new ≡ spec.with_general within configured stamp (numbered_terms F.Address.number terms) (numbered_terms F.Address.number wanted) self.old }
    {
        let passed = self.phase.wrong_interval(within, configured, stamp.ms());
        put_interval(&mut self.waiting, configured, stamp, terms.packet, passed);
        self.phase = self.phase.behind(within, configured, stamp.ms());
        let from = self.near(stamp.moment());
        self.waiting
            .join(Side::OfWanted, Asked::AllGroups, &from, terms);
        self.waiting.put(Entry::Seen(
            stamp.moment(),
            Asked::AllGroups,
            terms,
            Some(wanted),
            SeenVerdict::as_wanted(Unpaired::Extra(ExtraReason::NoChange)),
        ));
    }

    /// Judges a general query if the router is querier, and adds it as a seen query otherwise.
    fn compare_general(
        &mut self,
        within: u32,
        configured: Timing,
        stamp: Stamp,
        terms: Terms<F::Address>,
        wanted: Terms<F::Address>,
    )
        ensures { self.new ≡ spec.general_compared within configured stamp (numbered_terms F.Address.number terms) (numbered_terms F.Address.number wanted) self.old }
    {
        if self.phase.is_querier() {
            let wanted = self.schedules.said(false, wanted);
            self.judge_general(within, configured, stamp, terms, wanted);
            return;
        }
        let standing = Standing {
            is_muted: false,
            is_above: false,
            set_from: Stamp::of(0).moment(),
        };
        self.see(stamp.moment(), terms, standing, Asked::AllGroups);
    }

    /// Handles the headers of a packet with a query of the checked router.
    pub(crate) fn see_headers(&mut self, moment: Moment, number: u64, headers: Headers)
        ensures { self.new ≡ spec.faults_seen moment number (faults_of headers) self.old }
    {
        let ttl = HeaderFault::TimeToLive(headers.ttl);
        let precedence = HeaderFault::Precedence(headers.precedence);
        self.see_fault_if(moment, number, headers.ttl != 1, ttl);
        self.see_fault_if(moment, number, !headers.alert, HeaderFault::NoRouterAlert);
        self.see_fault_if(moment, number, headers.precedence != 6, precedence);
        self.see_fault_if(
            moment,
            number,
            !headers.is_sound,
            HeaderFault::HeaderChecksum,
        );
        let reserved = HeaderFault::ReservedBits;
        self.see_fault_if(moment, number, headers.has_reserved_bits, reserved);
        let additional = HeaderFault::AdditionalData;
        self.see_fault_if(moment, number, headers.has_additional_data, additional);
    }

    /// Handles a fault of a packet with a query of the checked router, if it is there.
    fn see_fault_if(&mut self, moment: Moment, number: u64, is_there: bool, fault: HeaderFault)
        ensures { self.new ≡ spec.faults_seen moment number (fault_if is_there fault) self.old }
    {
        if is_there {
            self.see_fault(moment, number, fault);
        }
    }

    /// Handles a fault of a packet with a query of the checked router.
    pub(crate) fn see_fault(&mut self, moment: Moment, number: u64, fault: HeaderFault)
        ensures { self.new ≡ spec.with_fault moment number self.old fault }
    {
        self.waiting.put(Entry::Packet(moment, number, fault));
    }
}

impl<F: CheckedFamily, A: Allocator> Checking<F, A>
where
    F::Address: LineKey,
{
    /// Handles a query of the checked router that is seen in a packet, and counts it.
    pub(crate) fn query_seen(
        &mut self,
        within: u32,
        link: &Link<F, A>,
        packet: SeenPacket<F::Address>,
        query: &Query<'_, F::Address>,
    )
        ensures { self.new ≡ spec.query_came within link.now.config link.now.state packet.stamp packet.number (F.Address.number packet.to) (numbered_query F.Address.number query.now) self.old }
    {
        let config = link.config();
        config.is_faultless();
        let terms = terms_of::<F>(packet.number, packet.to, query);
        let configured = config.timing();
        let in_force = link.timing();
        if is_general::<F>(query) {
            let wanted = general_terms(config, in_force);
            self.compare_general(within, configured, packet.stamp, terms, wanted);
            self.last_general = Some(packet.stamp);
            self.general = self.general.saturating_add(1);
            return;
        }
        let seen = SeenQuery {
            stamp: packet.stamp,
            terms,
        };
        self.see_all(seen, link, query);
        self.specific = self.specific.saturating_add(1);
    }
}

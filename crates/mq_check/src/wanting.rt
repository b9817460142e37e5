//! Queries that the link sends, in a check.

ghost use Rattle.std.specs.Prelude.{◌≡◌, ◌≤◌, ◌^◌, [], fold, map as list_map};
ghost use Rattle.mq_wire.specs.Numbered.{numbered_query, numbered_version};
ghost use Rattle.mq_lines.specs.Text.{query_sources};
ghost use Rattle.mq_check.specs.declared.asked.Asked.TheVariants.{Source};
ghost use Rattle.mq_check.specs.Checking as spec;
ghost use Rattle.mq_check.specs.Entries.{may_be_left_out};
ghost use Rattle.mq_check.specs.Numbered.{numbered_asked, numbered_terms};
ghost use Rattle.mq_check.specs.Queries as queries;

use crate::asked::Asked;
use crate::checked_family::CheckedFamily;
use crate::checking::Checking;
use crate::entry::{Entry, Need};
use crate::terms::{Terms, terms_of};
use crate::waiting::Side;
use mq_count::Moment;
use mq_lines::LineKey;
use mq_link::Family;
use mq_wire::{Query, QueryVersion, Sources, WireKey};
use std::alloc::Allocator;

/// Returns the sources of a query. A query of an older version has none.
pub(crate) fn sources_of<'a, K: WireKey>(version: &QueryVersion<'a, K>) -> Sources<'a, K>
    ensures { result ≡ query_sources (numbered_version version.now) }
{
    match version {
        QueryVersion::Older(_) => Sources::lent(&[]),
        QueryVersion::Current(fields) => fields.sources.iter(),
    }
}

/// Returns whether a query is a General Query.
pub(crate) fn is_general<F: Family>(query: &Query<'_, F::Address>) -> bool
    ensures { result ≡ queries.is_general (numbered_query F.Address.number query.now) }
{
    F::is_zero(query.group) && sources_of(&query.version).is_empty()
}

/// Returns the subject of a query without sources.
pub(crate) fn asked_without_sources<F: Family>(group: F::Address) -> Asked<F::Address>
    ensures { numbered_asked F.Address.number result ≡ queries.asked_for_group (F.Address.number group) }
{
    if F::is_zero(group) {
        Asked::AllGroups
    } else {
        Asked::Group(group)
    }
}

impl<F: Family, A: Allocator> Checking<F, A> {
    /// Adds a wanted query, and pairs it with the first seen query on the subject within the tolerance that has no partner.
    /// It starts a schedule or goes on with one, and replaces a schedule from before the capture.
    fn want(
        &mut self,
        moment: Moment,
        is_again: bool,
        terms: Terms<F::Address>,
        asked: Asked<F::Address>,
    )
        requires in_range { moment ≤ 2 ^ 53 }
        ensures { self.new ≡ spec.with_wanted moment is_again (numbered_terms F.Address.number terms) self.old (numbered_asked F.Address.number asked) }
    {
        let from = self.near(moment);
        self.forget(moment);
        let need = self.need(moment, is_again, asked, &terms);
        self.schedules.want(moment, terms, asked);
        self.schedules.drop_next(asked);
        let is_found = self
            .waiting
            .join(Side::OfSeen, asked, &from, terms)
            .is_some();
        self.waiting
            .put(Entry::Wanted(moment, asked, terms, need, is_found));
    }

    /// Returns the need of a wanted query.
    fn need(
        &self,
        moment: Moment,
        is_again: bool,
        asked: Asked<F::Address>,
        terms: &Terms<F::Address>,
    ) -> Need
        ensures { result ≡ spec.need_by
            (may_be_left_out moment (numbered_asked F.Address.number asked) (numbered_terms F.Address.number terms.now) self.now.waiting.entries)
            (spec.may_be_missing moment is_again (numbered_asked F.Address.number asked) self.now) }
    {
        match (
            self.may_be_left_out(moment, asked, terms),
            self.may_be_missing(moment, is_again, asked),
        ) {
            (true, _) => Need::Optional,
            (false, true) => Need::Possible,
            (false, false) => Need::Required,
        }
    }

    /// Returns whether another reading, or an older host from before the capture, may explain that a query doesn't come.
    fn may_be_missing(&self, moment: Moment, is_again: bool, asked: Asked<F::Address>) -> bool
        ensures { result ≡ spec.may_be_missing moment is_again (numbered_asked F.Address.number asked) self.now }
    {
        self.schedules.unclear(asked).is_some() || self.may_be_muted(moment, is_again, asked)
    }

    /// Returns whether an older host from before the capture may mute the change that asks for a subject.
    fn may_be_muted(&self, moment: Moment, is_again: bool, asked: Asked<F::Address>) -> bool
        ensures { result ≡ spec.may_be_muted moment is_again (numbered_asked F.Address.number asked) self.now }
    {
        match asked {
            Asked::Source(group, _) => {
                self.schedules.may_be_held(moment)
                    && (is_again || !self.unmuted.has_any(Side::OfWanted, Asked::Group(group)))
            }
            _ => false,
        }
    }

    /// Returns whether a wanted query may be left out.
    fn may_be_left_out(
        &self,
        moment: Moment,
        asked: Asked<F::Address>,
        terms: &Terms<F::Address>,
    ) -> bool
        ensures { result ≡ may_be_left_out moment (numbered_asked F.Address.number asked) (numbered_terms F.Address.number terms.now) self.now.waiting.entries }
    {
        match (asked, terms.querier) {
            (Asked::Source(group, _), Some(querier)) => {
                querier.suppress && self.waiting.has_group_wanted(moment, group)
            }
            _ => false,
        }
    }

    /// Adds a wanted query for a subject of a query. `is_again` is set if a tick sends the query again.
    fn want_subject(
        &mut self,
        moment: Moment,
        is_again: bool,
        terms: Terms<F::Address>,
        asked: Asked<F::Address>,
    )
        requires in_range { moment ≤ 2 ^ 53 }
        ensures { self.new ≡ spec.subject_wanted moment is_again (numbered_terms F.Address.number terms) self.old (numbered_asked F.Address.number asked) }
    {
        let wanted = self.schedules.terms_wanted(is_again, terms, asked);
        self.want(moment, is_again, wanted, asked);
    }

    /// Adds a wanted query for each subject of a query. `is_again` is set if a tick sends the query again.
    fn want_all(
        &mut self,
        moment: Moment,
        is_again: bool,
        terms: Terms<F::Address>,
        query: &Query<'_, F::Address>,
    )
        requires in_range { moment ≤ 2 ^ 53 }
        ensures { self.new ≡ fold (spec.subject_wanted moment is_again (numbered_terms F.Address.number terms)) self.old (queries.asked_in (numbered_query F.Address.number query.now)) }
    {
        let sources = sources_of(&query.version);
        if sources.is_empty() {
            let asked = asked_without_sources::<F>(query.group);
            self.want_subject(moment, is_again, terms, asked);
            return;
        }
        self.want_sources(moment, is_again, terms, query.group, sources);
    }

    /// Adds a wanted query for each of some sources of a group. `is_again` is set if a tick sends the query again.
    fn want_sources(
        &mut self,
        moment: Moment,
        is_again: bool,
        terms: Terms<F::Address>,
        group: F::Address,
        sources: Sources<'_, F::Address>,
    )
        requires in_range { moment ≤ 2 ^ 53 }
        ensures { self.new ≡ fold (spec.subject_wanted moment is_again (numbered_terms F.Address.number terms)) self.old (list_map (Source (F.Address.number group)) sources.entry) }
    {
        for source in sources {
            self.want_subject(moment, is_again, terms, Asked::Source(group, source));
        }
    }
}

impl<F: CheckedFamily, A: Allocator> Checking<F, A>
where
    F::Address: LineKey,
{
    /// Handles a query that the link sends after a packet. A general query is wanted only if the router becomes querier
    /// again. A tick sends each other query again.
    pub(crate) fn query_wanted(
        &mut self,
        moment: Moment,
        packet: u64,
        by_tick: bool,
        is_returning: bool,
        to: F::Address,
        query: &Query<'_, F::Address>,
    )
        requires in_range { moment ≤ 2 ^ 53 }
        ensures { self.new ≡ spec.one_wanted F.FAMILY moment packet by_tick is_returning (F.Address.number to) (numbered_query F.Address.number query.now) self.old }
    {
        let is_general = is_general::<F>(query);
        if is_general && !is_returning {
            return;
        }
        let terms = terms_of::<F>(packet, to, query);
        self.want_all(moment, by_tick && !is_general, terms, query);
    }
}

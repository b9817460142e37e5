//! Schedules of subjects that a querier may hold since before the capture.

ghost use Rattle.std.specs.Prelude.{◌≡◌, ◌≤◌, ◌^◌, IfOk, IfSome, Some, is_some, nat_lt};
ghost use Rattle.mq_text.specs.Printing.{output_of};
ghost use Rattle.mq_check.specs.Checking.{without_all_next};
ghost use Rattle.mq_check.specs.Numbered.{numbered_asked, numbered_entry, numbered_entry_if, numbered_terms, numbered_terms_if};
ghost use Rattle.mq_check.specs.Schedules as spec;
ghost use Rattle.mq_check.specs.Telling.{Tells};
ghost use Rattle.mq_check.specs.Waiting as waits;

use crate::asked::Asked;
use crate::check_terms::CheckFlags;
use crate::entry::{Entry, Need, SeenVerdict, Unpaired};
use crate::finding::ExtraReason;
use crate::finding_writer::FindingWriter;
use crate::purging::{Excuses, Expiry, purge};
use crate::schedules::{
    Repeats, Schedules, due_after, first_of, is_long_before, is_next, most_queries, terms_of,
};
use crate::stamp::Stamp;
use crate::terms::{Terms, with_suppress};
use crate::waiting::{Side, is_before};
use mq_count::{Moment, Span, Watched};
use mq_lines::LineKey;
use mq_link::Family;
use mq_table::Timing;
use mq_text::LineFault;
use mq_wire::WireKey;
use std::alloc::Allocator;
use std::io::Write;

/// Returns the moment from which nothing lasts that the querier held before the capture.
fn held_until(within: u32, configured: Timing, began: bool) -> Moment
    ensures { result ≡ spec.held_until within configured began }
{
    let start = Stamp::of(0).moment();
    if began {
        return start;
    }
    start
        .after(configured.membership_interval())
        .after(Span::from_ms(within))
        .after(Span::from_ms(1))
}

/// Returns that moment, or one after all others if it isn't known, since the Robustness Variable is above 7.
pub(crate) fn held_for(within: u32, configured: Timing, flags: CheckFlags) -> Moment
    ensures { result ≡ spec.held_for within configured flags }
{
    if flags.above_7 && !flags.began {
        return Stamp::of(1 << 53).moment().after(Span::from_ms(1));
    }
    held_until(within, configured, flags.began)
}

/// Returns the moment from which no query belongs to a schedule that a change before the capture started. `last_member` is the
/// Last Member Query Interval in milliseconds.
pub(crate) fn first_until(
    within: u32,
    configured: Timing,
    last_member: u32,
    flags: CheckFlags,
) -> Moment
    requires interval { last_member ≡ configured.last_member_interval }
    ensures { result ≡ spec.first_until within configured flags.above_7 flags.began }
{
    configured.is_in_range();
    let start = Stamp::of(0).moment();
    let count = most_queries(configured, flags.above_7) - 1;
    let last = start
        .after(Span::from_ms(count * last_member))
        .after(Span::from_ms(within))
        .after(Span::from_ms(1));
    if flags.began { start } else { last }
}

/// Returns whether there are terms.
fn has_terms<K: WireKey>(terms: &Option<Terms<K>>) -> bool
    ensures { result ≡ is_some (numbered_terms_if K.number terms.now) }
{
    match terms {
        Some(_) => true,
        None => false,
    }
}

/// Returns whether a query is seen at most the tolerance after a change.
fn is_near_cause<K: WireKey>(repeats: &Repeats, moment: Moment, cause: &Option<Entry<K>>) -> bool
    ensures { result ≡ spec.is_near_cause repeats.now moment (numbered_entry_if K.number cause.now) }
{
    match cause {
        Some(cause) => !is_long_before(repeats, cause.moment(), moment),
        None => false,
    }
}

/// Returns whether no query on the subject was wanted, or began a schedule from before the capture, since a change.
fn is_unused<K: WireKey>(repeats: &Repeats, last: &Option<Entry<K>>, cause: &Entry<K>) -> bool
    ensures { result ≡ spec.is_unused repeats.now (numbered_entry_if K.number last.now) (numbered_entry K.number cause.now) }
{
    match last {
        Some(last) => is_before(last.moment(), due_after(repeats, cause.moment())),
        None => true,
    }
}

/// Returns the terms of a query that a change makes a querier send if it held the subject before the capture.
fn caused_by<K: WireKey>(
    repeats: &Repeats,
    moment: Moment,
    last: &Option<Entry<K>>,
    cause: &Option<Entry<K>>,
) -> Option<Terms<K>>
    ensures { numbered_terms_if K.number result
        ≡ spec.caused_by repeats.now moment (numbered_entry_if K.number last.now) (numbered_entry_if K.number cause.now) }
{
    let is_near = is_near_cause(repeats, moment, cause);
    match cause {
        Some(cause) => {
            if (repeats.above_7 || is_before(cause.moment(), repeats.held_until))
                && is_near
                && is_unused(repeats, last, cause)
            {
                cause.terms()
            } else {
                None
            }
        }
        None => None,
    }
}

/// Returns terms with the S flag that the timer of the subject asks for.
fn with_s<K: WireKey>(is_above: bool, wanted: Option<Terms<K>>) -> Option<Terms<K>>
    ensures { numbered_terms_if K.number result ≡ spec.with_s is_above (numbered_terms_if K.number wanted) }
{
    match wanted {
        Some(wanted) => Some(Terms {
            version: wanted.version,
            response: wanted.response,
            querier: with_suppress(is_above, wanted.querier),
            to: wanted.to,
            packet: wanted.packet,
        }),
        None => None,
    }
}

/// Returns how many queries are still to come, with this one.
fn left_in_next<K: WireKey>(next: &Option<Entry<K>>) -> u32
    ensures { result ≡ spec.left_in_next (numbered_entry_if K.number next.now) }
{
    match next {
        Some(next) => next.left(),
        None => 0,
    }
}

/// Returns the second terms, or the first ones if there are no second ones.
fn terms_or<K: WireKey>(terms: Terms<K>, other: Option<Terms<K>>) -> Terms<K>
    ensures { numbered_terms K.number result
        ≡ spec.terms_or (numbered_terms K.number terms) (numbered_terms_if K.number other) }
{
    match other {
        Some(other) => other,
        None => terms,
    }
}

/// Returns the group, or all sources of the group, to which a subject belongs. The unspecified source stands for all sources.
fn whole_of<F: Family>(asked: Asked<F::Address>) -> Asked<F::Address>
    ensures { numbered_asked F.Address.number result ≡ spec.whole_of (numbered_asked F.Address.number asked) }
{
    match asked {
        Asked::Source(group, _) => Asked::Source(group, F::unspecified()),
        other => other,
    }
}

impl<F: Family, A: Allocator> Schedules<F, A> {
    /// Notes a change that may make a querier ask for a subject, with these terms.
    fn note_cause(&mut self, moment: Moment, terms: Terms<F::Address>, asked: Asked<F::Address>)
        ensures { self.new ≡ spec.with_cause moment (numbered_terms F.Address.number terms) (numbered_asked F.Address.number asked) self.old }
    {
        self.causes.join_any(Side::OfWanted, asked, terms);
        self.causes
            .put(Entry::Wanted(moment, asked, terms, Need::Optional, false));
    }

    /// Handles a change of a host that may make a querier ask for a subject, with these terms.
    pub(crate) fn change(
        &mut self,
        moment: Moment,
        terms: Terms<F::Address>,
        asked: Asked<F::Address>,
    )
        ensures { self.new ≡ spec.schedules_changed moment (numbered_terms F.Address.number terms) (numbered_asked F.Address.number asked) self.old }
    {
        let is_close = self.is_close(moment, asked);
        let wanted = self.said(true, terms);
        self.note_close(is_close, moment, wanted, asked);
        self.note_cause(moment, wanted, asked);
    }

    /// Returns whether a change comes while the last one on the subject counts, or one of a change from before the capture.
    fn is_close(&self, moment: Moment, asked: Asked<F::Address>) -> bool
        ensures { result ≡ spec.is_close moment (numbered_asked F.Address.number asked) self.now }
    {
        let latest = Stamp::of(0).moment().after(self.repeats.span);
        let is_early = is_before(moment, self.repeats.held_until) && !is_before(latest, moment);
        is_early || self.causes.has_any(Side::OfWanted, asked)
    }

    /// Notes a change that is close to an earlier one.
    fn note_close(
        &mut self,
        is_close: bool,
        moment: Moment,
        terms: Terms<F::Address>,
        asked: Asked<F::Address>,
    )
        ensures { self.new ≡ spec.with_close is_close moment (numbered_terms F.Address.number terms) (numbered_asked F.Address.number asked) self.old }
    {
        if is_close {
            let verdict = SeenVerdict::as_wanted(Unpaired::Extra(ExtraReason::NoChange));
            self.causes
                .put(Entry::Seen(moment, asked, terms, None, verdict));
        }
    }

    /// Returns whether a change that counts asked for a subject, or for its group.
    fn has_changed(&self, asked: Asked<F::Address>) -> bool
        ensures { result ≡ spec.has_changed (numbered_asked F.Address.number asked) self.now }
    {
        let is_asked = self.causes.has_any(Side::OfWanted, asked);
        match asked {
            Asked::AllGroups => false,
            Asked::Group(_) => is_asked,
            Asked::Source(group, source) => {
                let of_group = self.causes.has_any(Side::OfWanted, Asked::Group(group));
                !F::is_zero(source) && (is_asked || of_group)
            }
        }
    }

    /// Returns the terms of a query on a subject that some reading may want, if changes came close together. A strict check
    /// accepts no other reading.
    pub(crate) fn unclear(&self, asked: Asked<F::Address>) -> Option<Terms<F::Address>>
        ensures { numbered_terms_if F.Address.number result
            ≡ spec.unclear (numbered_asked F.Address.number asked) self.now }
    {
        if self.repeats.more == 0 {
            return None;
        }
        if !self.has_changed(asked) {
            return None;
        }
        let close = self.causes.first(Side::OfSeen, whole_of::<F>(asked));
        terms_of(&close)
    }

    /// Returns whether a change that may make a querier ask for a subject came at most the tolerance before a moment.
    pub(crate) fn has_cause(&self, moment: Moment, asked: Asked<F::Address>) -> bool
        ensures { result ≡ spec.is_near_cause self.now.repeats moment (spec.cause_in (numbered_asked F.Address.number asked) self.now) }
    {
        let cause = self.causes.first(Side::OfWanted, asked);
        is_near_cause(&self.repeats, moment, &cause)
    }

    /// Returns the terms of a query that a change makes a querier send if it held the subject before the capture. A change of
    /// a group may make it ask for any source of it.
    pub(crate) fn caused(
        &self,
        moment: Moment,
        asked: Asked<F::Address>,
    ) -> Option<Terms<F::Address>>
        ensures { numbered_terms_if F.Address.number result
            ≡ spec.caused moment (numbered_asked F.Address.number asked) self.now }
    {
        let last = self.sent.first(Side::OfWanted, asked);
        let cause = self.causes.first(Side::OfWanted, asked);
        match asked {
            Asked::AllGroups => None,
            Asked::Group(_) => caused_by(&self.repeats, moment, &last, &cause),
            Asked::Source(group, _) => {
                let of_group = self.causes.first(Side::OfWanted, Asked::Group(group));
                first_of(
                    caused_by(&self.repeats, moment, &last, &cause),
                    caused_by(&self.repeats, moment, &last, &of_group),
                )
            }
        }
    }

    /// Returns the terms of a query at the start of a capture, which a change from before may ask for. A query that goes on with
    /// a schedule has terms too if the number of its queries isn't known.
    pub(crate) fn unforeseen(
        &self,
        moment: Moment,
        seen: Terms<F::Address>,
        asked: Asked<F::Address>,
    ) -> Option<Terms<F::Address>>
        ensures { numbered_terms_if F.Address.number result
            ≡ spec.unforeseen moment (numbered_terms F.Address.number seen) (numbered_asked F.Address.number asked) self.now }
    {
        let before = self.sent.first(Side::OfSeen, asked);
        let goes_on = is_next(&self.repeats, moment, &before);
        if is_before(moment, self.repeats.first_until) || self.repeats.above_7 && goes_on {
            Some(seen)
        } else {
            None
        }
    }

    /// Returns the wanted terms of a query that is the next one of a schedule from before the capture. `is_above` is set if the
    /// timer of the subject exceeds the Last Member Query Time.
    pub(crate) fn followed(
        &self,
        moment: Moment,
        is_above: bool,
        asked: Asked<F::Address>,
    ) -> Option<Terms<F::Address>>
        ensures { numbered_terms_if F.Address.number result
            ≡ spec.followed moment is_above (numbered_asked F.Address.number asked) self.now }
    {
        let next = self.next.first(Side::OfSeen, asked);
        let caused = self.caused(moment, asked);
        if is_next(&self.repeats, moment, &next) && !has_terms(&caused) {
            with_s(is_above, terms_of(&next))
        } else {
            None
        }
    }

    /// Drops the query on a subject that is still to come in a schedule from before the capture.
    pub(crate) fn drop_next(&mut self, asked: Asked<F::Address>)
        ensures { self.new ≡ spec.without_next (numbered_asked F.Address.number asked) self.old }
    {
        let next = self.next.first(Side::OfSeen, asked);
        self.drop_query(asked, terms_of(&next));
    }

    /// Drops the query on a subject that is still to come, if there is one with these terms.
    fn drop_query(&mut self, asked: Asked<F::Address>, next: Option<Terms<F::Address>>)
        ensures { self.new ≡ record self.old { next = spec.dropped (numbered_terms_if F.Address.number next) (numbered_asked F.Address.number asked) self.old.next } }
    {
        if let Some(terms) = next {
            self.next.join_any(Side::OfSeen, asked, terms);
        }
    }

    /// Adds a query that is still to come in a schedule from before the capture, with how many it and those after it are.
    fn put_next(
        &mut self,
        left: u32,
        due: Moment,
        terms: Terms<F::Address>,
        asked: Asked<F::Address>,
    )
        ensures { self.new ≡ spec.with_next left due (numbered_terms F.Address.number terms) (numbered_asked F.Address.number asked) self.old }
    {
        if 0 < left {
            let verdict = SeenVerdict::as_wanted(Unpaired::Next(left));
            self.next.put(Entry::Seen(due, asked, terms, None, verdict));
        }
    }

    /// Handles the next query of a schedule from before the capture.
    fn go_on(&mut self, moment: Moment, seen: Terms<F::Address>, asked: Asked<F::Address>)
        ensures { self.new ≡ spec.gone_on moment (numbered_terms F.Address.number seen) (numbered_asked F.Address.number asked) self.old }
    {
        let next = self.next.first(Side::OfSeen, asked);
        let left = left_in_next(&next);
        let due = due_after(&self.repeats, moment);
        let terms = terms_or(seen, terms_of(&next));
        self.drop_next(asked);
        self.put_next(left.saturating_sub(1), due, terms, asked);
    }

    /// Handles the first query of a schedule for a subject from before the capture.
    fn begin(&mut self, moment: Moment, wanted: Terms<F::Address>, asked: Asked<F::Address>)
        ensures { self.new ≡ spec.begun moment (numbered_terms F.Address.number wanted) (numbered_asked F.Address.number asked) self.old }
    {
        let count = self.repeats.count;
        let due = due_after(&self.repeats, moment);
        self.want(moment, wanted, asked);
        self.drop_next(asked);
        self.put_next(count, due, wanted, asked);
    }

    /// Handles a query that is seen without a partner and is no next one. If a change in the capture caused it, it begins a schedule.
    fn place_alone(
        &mut self,
        moment: Moment,
        terms: Terms<F::Address>,
        asked: Asked<F::Address>,
        is_possible: bool,
        caused: Option<Terms<F::Address>>,
    )
        ensures { self.new ≡ spec.placed_alone moment (numbered_terms F.Address.number terms) (numbered_asked F.Address.number asked) is_possible (numbered_terms_if F.Address.number caused) self.old }
    {
        match (is_possible, caused) {
            (true, Some(wanted)) => {
                self.see(moment, terms, asked, true);
                self.begin(moment, wanted, asked);
            }
            (true, None) => self.see(moment, terms, asked, self.repeats.above_7),
            (false, _) => self.see(moment, terms, asked, false),
        }
    }

    /// Handles a query that is seen. It has a partner, or `follows` as the next one of a schedule from before the capture, or may
    /// be possible. `caused` has the terms of a query that a change in the capture asks for.
    pub(crate) fn place(
        &mut self,
        moment: Moment,
        terms: Terms<F::Address>,
        asked: Asked<F::Address>,
        has_partner: bool,
        follows: bool,
        is_possible: bool,
        caused: Option<Terms<F::Address>>,
    )
        ensures { self.new ≡ spec.placed moment (numbered_terms F.Address.number terms) (numbered_asked F.Address.number asked) has_partner follows is_possible (numbered_terms_if F.Address.number caused) self.old }
    {
        if has_partner {
            self.see(moment, terms, asked, true);
            return;
        }
        if follows {
            self.see(moment, terms, asked, true);
            self.go_on(moment, terms, asked);
            return;
        }
        self.place_alone(moment, terms, asked, is_possible, caused);
    }

    /// Returns whether what the querier held before the capture may last at a moment.
    pub(crate) fn may_be_held(&self, moment: Moment) -> bool
        ensures { result ≡ nat_lt moment self.now.repeats.held_until }
    {
        is_before(moment, self.repeats.held_until)
    }

    /// Drops all queries that are still to come in schedules from before the capture.
    pub(crate) fn drop_all_next(&mut self)
        ensures { self.new ≡ without_all_next self.old }
    {
        self.next.clear();
    }
}

impl<F: Family, A: Allocator> Schedules<F, A>
where
    F::Address: LineKey,
{
    /// Removes expired queries that were still to come, and reports those that are missing.
    pub(crate) fn purge_next<W: Write>(
        &mut self,
        now: Moment,
        excuses: &Excuses<'_, F, A>,
        told: &mut FindingWriter,
        writer: &mut Watched<W>,
    ) -> Result<(), LineFault>
        requires in_range { now ≤ 2 ^ 53 }
        requires changed_in_range { IfSome excuses.now.changed (λ moment. moment ≤ 2 ^ 53) }
        ensures purged { IfOk result (λ _. self.new ≡ record self.old { next = waits.purged self.old.repeats.within now self.old.next }) }
        ensures tells { Tells F.Address.family (waits.told self.old.repeats.within excuses.now.within now excuses.now.changed excuses.now.refused.now self.old.next) told.old told.new
            (output_of W.contents writer.old) (output_of W.contents writer.new) result }
    {
        let expiry = Expiry {
            keep: self.repeats.within,
            moment: now,
        };
        purge::<F, A, W>(&mut self.next, &expiry, excuses, told, writer)
    }
}

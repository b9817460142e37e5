//! Schedules that a querier may keep beside those of the link.

ghost use Rattle.std.specs.Prelude.{◌≡◌, ◌||◌, IfOk, is_ok};
ghost use Rattle.mq_arena.specs.Vectors.{Takes};
ghost use Rattle.mq_check.specs.Numbered.{numbered_asked, numbered_entry_if, numbered_terms, numbered_terms_if};
ghost use Rattle.mq_check.specs.Checking as checks;
ghost use Rattle.mq_check.specs.Schedules as spec;
ghost use Rattle.mq_check.specs.Sizes.{bytes_of_schedules};
ghost use Rattle.mq_check.specs.Waiting as waits;

use crate::asked::Asked;
use crate::check_terms::CheckFlags;
use crate::entry::{Entry, Need, SeenVerdict, Unpaired};
use crate::general::greatest_variable;
use crate::past::{first_until, held_for};
use crate::terms::{QuerierTerms, Terms, with_s_of};
use crate::waiting::{Side, Waiting, is_before};
use mq_arena::VectorSource;
use mq_count::{Moment, Span};
use mq_link::Family;
use mq_table::Timing;
use mq_wire::WireKey;
use std::alloc::{AllocError, Allocator};
use std::marker::Model;

/// The retransmission of queries.
#[derive(Clone, Copy)]
pub struct Repeats {
    // The tolerance.
    pub(crate) within: Span,
    // The Last Member Query Interval.
    pub(crate) interval: Span,
    // The number of queries that may follow the first one of a schedule. A strict check accepts no other reading, so it has none, if
    // the number is known.
    pub(crate) more: u32,
    // The number of queries after the first one of a schedule.
    pub(crate) count: u32,
    // The time for which a change counts.
    pub(crate) span: Span,
    // The time after which an entry expires.
    pub(crate) keep: Span,
    // The moment from which nothing lasts that the querier held before the capture.
    pub(crate) held_until: Moment,
    // The moment from which no query belongs to a schedule that a change before the capture started.
    pub(crate) first_until: Moment,
    // True if the Robustness Variable is above 7.
    pub(crate) above_7: bool,
}

/// The queries of schedules. `new` allocates all memory.
#[derive(Drop)]
pub(crate) struct Schedules<F: Family, A: Allocator> {
    pub(crate) repeats: Repeats,
    // The seen queries after which one more may come, and for each subject the last wanted one. Each entry has the moment at
    // which the next query is due.
    pub(crate) sent: Waiting<F, A>,
    // For each subject the last change of a host that may make a querier ask for it. A seen entry is a change that came close to
    // an earlier one.
    pub(crate) causes: Waiting<F, A>,
    // The queries that are still to come in schedules from before the capture, at the moments when they are due.
    pub(crate) next: Waiting<F, A>,
}

impl<F: Family, A: Allocator> Model for Schedules<F, A> {
    ghost use Rattle.mq_check.specs.Schedules.{SchedulesValue};

    ghost Value = { SchedulesValue };

    ghost view = { λ s. record { repeats = s.repeats; sent = s.sent; causes = s.causes; next = s.next } };
}

/// Returns how many queries of a schedule follow the first one. A strict check accepts no other reading, so it has none.
fn more_in(timing: Timing, strict: bool) -> u32
    ensures { result ≡ spec.more_in timing strict }
{
    timing.is_in_range();
    if strict {
        0
    } else {
        timing.last_member_count() - 1
    }
}

/// Returns how many queries of a schedule may follow the first one.
fn more_for(timing: Timing, flags: CheckFlags) -> u32
    ensures { result ≡ spec.more_for timing flags }
{
    if flags.above_7 {
        greatest_variable() - 1
    } else {
        more_in(timing, flags.strict)
    }
}

/// Returns the time after which an entry expires.
fn keep_in(within: u32, timing: Timing, last_member: u32, strict: bool) -> Span
    requires interval { last_member ≡ timing.last_member_interval }
    ensures { result ≡ spec.keep_in within timing strict }
{
    let keep = if strict {
        within
    } else {
        within.saturating_add(last_member)
    };
    Span::from_ms(keep)
}

/// Returns the most queries of a schedule.
pub(crate) fn most_queries(timing: Timing, above_7: bool) -> u32
    ensures { result ≡ spec.most_queries timing above_7 }
{
    if above_7 {
        greatest_variable()
    } else {
        timing.last_member_count()
    }
}

/// Returns the retransmission under this timing.
fn repeats_in(within: u32, timing: Timing, last_member: u32, flags: CheckFlags) -> Repeats
    requires interval { last_member ≡ timing.last_member_interval }
    ensures { result ≡ spec.repeats_in within timing flags }
{
    timing.is_in_range();
    let last_member_time = most_queries(timing, flags.above_7) * last_member;
    Repeats {
        within: Span::from_ms(within),
        interval: timing.last_member_interval(),
        more: more_for(timing, flags),
        count: timing.last_member_count() - 1,
        span: Span::from_ms(within.saturating_add(last_member_time)),
        keep: keep_in(within, timing, last_member, flags.strict),
        held_until: held_for(within, timing, flags),
        first_until: first_until(within, timing, last_member, flags),
        above_7: flags.above_7,
    }
}

/// Returns the moment an interval after another.
pub(crate) fn due_after(repeats: &Repeats, moment: Moment) -> Moment
    ensures { result ≡ spec.due_after repeats.now moment }
{
    if moment.in_range() {
        moment.after(repeats.interval)
    } else {
        moment
    }
}

/// Returns whether a moment is more than the tolerance before another.
pub(crate) fn is_long_before(repeats: &Repeats, a: Moment, b: Moment) -> bool
    ensures { result ≡ spec.is_long_before repeats.now a b }
{
    a.in_range() && is_before(a.after(repeats.within), b)
}

/// Returns whether a query is seen when the next one of a schedule is due.
fn is_due(repeats: &Repeats, due: Moment, moment: Moment) -> bool
    ensures { result ≡ spec.is_due repeats.now due moment }
{
    !is_long_before(repeats, due, moment) && !is_long_before(repeats, moment, due)
}

/// Returns whether the next query is seen after this one.
pub(crate) fn is_next<K: WireKey>(
    repeats: &Repeats,
    moment: Moment,
    before: &Option<Entry<K>>,
) -> bool
    ensures { result ≡ spec.is_next repeats.now moment (numbered_entry_if K.number before.now) }
{
    match before {
        Some(before) => is_due(repeats, before.moment(), moment),
        None => false,
    }
}

/// Returns how many queries may come after a seen one.
fn left_after<K: WireKey>(repeats: &Repeats, moment: Moment, before: &Option<Entry<K>>) -> u32
    ensures { result ≡ spec.left_after repeats.now moment (numbered_entry_if K.number before.now) }
{
    match before {
        Some(before) => {
            if is_due(repeats, before.moment(), moment) {
                let left = before.left();
                left.saturating_sub(1)
            } else {
                repeats.more
            }
        }
        None => repeats.more,
    }
}

/// Returns whether a query belongs to a schedule: it follows another one, or has a partner.
fn is_any_of(follows: bool, has_partner: bool) -> bool
    ensures { result ≡ follows || has_partner }
{
    follows || has_partner
}

/// Returns the terms of a wanted query, with the S flag of a seen one.
pub(crate) fn as_seen<K: WireKey>(seen: Terms<K>, wanted: Option<Terms<K>>) -> Option<Terms<K>>
    ensures { numbered_terms_if K.number result
        ≡ spec.as_seen (numbered_terms K.number seen) (numbered_terms_if K.number wanted) }
{
    match wanted {
        Some(wanted) => Some(with_s_of(&seen, &wanted)),
        None => None,
    }
}

/// Returns the terms of a query, if there is one.
pub(crate) fn terms_of<K: WireKey>(query: &Option<Entry<K>>) -> Option<Terms<K>>
    ensures { numbered_terms_if K.number result ≡ spec.terms_of (numbered_entry_if K.number query.now) }
{
    match query {
        Some(query) => query.terms(),
        None => None,
    }
}

/// Returns terms with the packet of other ones, if there are any.
fn with_packet_of<K: WireKey>(last: Option<Terms<K>>, terms: Terms<K>) -> Terms<K>
    ensures { numbered_terms K.number result
        ≡ spec.with_packet_of (numbered_terms_if K.number last) (numbered_terms K.number terms) }
{
    match last {
        Some(last) => Terms {
            version: terms.version,
            response: terms.response,
            querier: terms.querier,
            to: terms.to,
            packet: last.packet,
        },
        None => terms,
    }
}

/// Returns the fields of a query with QRV 0 if the Robustness Variable is above 7. Then S depends on what isn't known.
fn qrv_said(above_7: bool, may_have_s: bool, fields: Option<QuerierTerms>) -> Option<QuerierTerms>
    ensures { result ≡ spec.qrv_said above_7 may_have_s fields }
{
    match (above_7, fields) {
        (true, Some(fields)) => Some(QuerierTerms {
            suppress: may_have_s,
            robustness: 0,
            interval: fields.interval,
        }),
        (_, fields) => fields,
    }
}

/// Returns the first of two terms.
pub(crate) fn first_of<K: WireKey>(a: Option<Terms<K>>, b: Option<Terms<K>>) -> Option<Terms<K>>
    ensures { numbered_terms_if K.number result ≡ spec.first_of (numbered_terms_if K.number a) (numbered_terms_if K.number b) }
{
    match a {
        Some(terms) => Some(terms),
        None => b,
    }
}

impl<F: Family, A: Allocator> Schedules<F, A> {
    /// Returns the schedules at the start of a capture, with all memory allocated from `memory`. `last_member` is the Last
    /// Member Query Interval in milliseconds.
    pub(crate) fn new<M: VectorSource<A>>(
        memory: &mut M,
        within: u32,
        timing: Timing,
        last_member: u32,
        flags: CheckFlags,
    ) -> Result<Schedules<F, A>, AllocError>
        requires interval { last_member ≡ timing.last_member_interval }
        ensures starts { IfOk result (λ s. s ≡ spec.schedules_at_start within timing flags) }
        ensures memory { Takes (bytes_of_schedules F.Address.row) (M.less_than memory.old) (M.less_than memory.new) (is_ok result) }
    {
        let sent = Waiting::new(memory)?;
        let causes = Waiting::new(memory)?;
        let next = Waiting::new(memory)?;
        Ok(Schedules {
            repeats: repeats_in(within, timing, last_member, flags),
            sent,
            causes,
            next,
        })
    }

    /// Returns the time after which an entry of a check expires.
    pub(crate) fn keep(&self) -> Span
        ensures { result ≡ self.now.repeats.keep }
    {
        self.repeats.keep
    }

    /// Returns whether the Robustness Variable is above 7.
    pub(crate) fn is_above_7(&self) -> bool
        ensures { result ≡ self.now.repeats.above_7 }
    {
        self.repeats.above_7
    }

    /// Removes the queries after which none may come any more, and changes that no longer count.
    pub(crate) fn forget(&mut self, moment: Moment)
        ensures { self.new ≡ spec.recent moment self.old }
    {
        if !moment.in_range() {
            return;
        }
        self.sent.forget(self.repeats.within, moment);
        self.causes.forget(self.repeats.span, moment);
    }

    /// Returns whether a query is seen when the next query of a schedule is due.
    pub(crate) fn goes_on(&self, moment: Moment, asked: Asked<F::Address>) -> bool
        ensures { result ≡ checks.goes_on moment (numbered_asked F.Address.number asked) self.now }
    {
        let before = self.sent.first(Side::OfSeen, asked);
        is_next(&self.repeats, moment, &before)
    }

    /// Handles a query that is seen. It goes on with a schedule, or starts one if it has a partner.
    pub(crate) fn see(
        &mut self,
        moment: Moment,
        terms: Terms<F::Address>,
        asked: Asked<F::Address>,
        has_partner: bool,
    )
        ensures { self.new ≡ spec.schedules_seen moment (numbered_terms F.Address.number terms) (numbered_asked F.Address.number asked) has_partner self.old }
    {
        let before = self.sent.first(Side::OfSeen, asked);
        let follows = is_next(&self.repeats, moment, &before);
        let left = left_after(&self.repeats, moment, &before);
        let due = due_after(&self.repeats, moment);
        let is_scheduled = is_any_of(follows, has_partner);
        self.take_before(follows, terms, asked);
        self.put_scheduled(left, due, is_scheduled, terms, asked);
    }

    /// Marks the first query on a subject that waits for its next one, if that one is seen.
    fn take_before(&mut self, follows: bool, terms: Terms<F::Address>, asked: Asked<F::Address>)
        ensures { self.new ≡ record self.old { sent = spec.without_before follows (numbered_terms F.Address.number terms) (numbered_asked F.Address.number asked) self.old.sent } }
    {
        if follows {
            self.sent.join_any(Side::OfSeen, asked, terms);
        }
    }

    /// Adds a seen query of a schedule, if more may come after it.
    fn put_scheduled(
        &mut self,
        left: u32,
        due: Moment,
        is_scheduled: bool,
        terms: Terms<F::Address>,
        asked: Asked<F::Address>,
    )
        ensures { self.new ≡ record self.old { sent = spec.with_scheduled left due is_scheduled (numbered_terms F.Address.number terms) (numbered_asked F.Address.number asked) self.old.sent } }
    {
        if is_scheduled && 0 < left {
            let verdict = SeenVerdict::as_wanted(Unpaired::Scheduled(left));
            self.sent.put(Entry::Seen(due, asked, terms, None, verdict));
        }
    }

    /// Returns the terms of a wanted query. If a tick sends it again, it has the packet that started its schedule.
    pub(crate) fn terms_wanted(
        &self,
        is_again: bool,
        terms: Terms<F::Address>,
        asked: Asked<F::Address>,
    ) -> Terms<F::Address>
        ensures { numbered_terms F.Address.number result
            ≡ spec.terms_wanted is_again (numbered_terms F.Address.number terms) (numbered_asked F.Address.number asked) self.now }
    {
        let wanted = self.said(true, terms);
        if !is_again {
            return wanted;
        }
        let last = self.sent.first(Side::OfWanted, asked);
        with_packet_of(terms_of(&last), wanted)
    }

    /// Returns the terms of a wanted query, in which QRV is 0 if the Robustness Variable is above 7. Then S is `may_have_s`.
    pub(crate) fn said(&self, may_have_s: bool, terms: Terms<F::Address>) -> Terms<F::Address>
        ensures { numbered_terms F.Address.number result ≡ spec.said may_have_s self.now.repeats (numbered_terms F.Address.number terms) }
    {
        Terms {
            version: terms.version,
            response: terms.response,
            querier: qrv_said(self.repeats.above_7, may_have_s, terms.querier),
            to: terms.to,
            packet: terms.packet,
        }
    }

    /// Handles a query that becomes wanted.
    pub(crate) fn want(
        &mut self,
        moment: Moment,
        terms: Terms<F::Address>,
        asked: Asked<F::Address>,
    )
        ensures { self.new ≡ spec.schedules_wanted moment (numbered_terms F.Address.number terms) (numbered_asked F.Address.number asked) self.old }
    {
        let due = due_after(&self.repeats, moment);
        self.sent.join_any(Side::OfWanted, asked, terms);
        self.sent
            .put(Entry::Wanted(due, asked, terms, Need::Optional, false));
    }
}

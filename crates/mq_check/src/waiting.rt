//! Pending entries in ascending order of their moments.

ghost use Rattle.std.specs.Prelude.{◌≡◌, ◌<◌, ◌≤◌, ◌+◌, ◌^◌, ◌==◌, [], ◌∷◌, IfOk, IfNone, IfSome, is_ok, is_some, map as list_map, nat_lt};
ghost use Rattle.std.specs.VecDeque.{deque_capacity};
ghost use Rattle.std.specs.List.{list_any};
ghost use Rattle.mq_arena.specs.Vectors.{Takes};
ghost use Rattle.mq_check.specs.Entries as spec;
ghost use Rattle.mq_check.specs.Numbered.{numbered_asked, numbered_entry, numbered_entry_if, numbered_terms, numbered_terms_if};
ghost use Rattle.mq_check.specs.Places.{IsFirstFree, IsFirstOver, IsNoneFree, IsNoneOver};
ghost use Rattle.mq_check.specs.Sizes.{bytes_of_waiting};
ghost use Rattle.mq_check.specs.Slots.{AreNoneOf, IsJudgedTo};
ghost use Rattle.mq_check.specs.Standing.{is_set as is_timer_set};
ghost use Rattle.mq_check.specs.Waiting as waits;

use crate::asked::{Asked, is_same};
use crate::earliest_partner::{EarliestPartner, is_near};
use crate::entry::{Entry, SVerdict, SeenVerdict, s_if};
use crate::slots::{SLOTS, last_group_by, slot_in, slot_of, wanted_moment, wanted_slot};
use crate::stamp::Stamp;
use crate::standing::is_set;
use crate::terms::Terms;
use crate::trails::Trails;
use mq_arena::{VectorSource, filled};
use mq_count::{Meter, Moment, Span};
use mq_link::{Family, Link};
use std::alloc::{AllocError, Allocator};
use std::collections::VecDeque;
use std::marker::Model;

/// The most pending entries.
pub(crate) const ROOM: usize = 65536;

/// The side of an entry that is searched: wanted queries, or seen ones.
#[derive(Clone, Copy)]
pub enum Side {
    OfWanted,
    OfSeen,
}

/// The pending entries, the earliest first, and whether an entry had no room. `new` allocates all memory. Entries are
/// found by their slots, so a search compares few entries with another subject.
#[derive(Drop)]
pub(crate) struct Waiting<F: Family, A: Allocator> {
    entries: VecDeque<Entry<F::Address>, A>,
    trails: Trails<A>,
    // The latest moment from which an entry was searched.
    horizon: EarliestPartner,
    // For each slot, an upper bound of the moments of its wanted queries.
    latest: Vec<Moment, A>,
    // The number of the last wanted query for a group.
    last_group: u64,
    // S of each seen query before this place is judged.
    judged: usize,
    is_full: bool,
}

impl<F: Family, A: Allocator> Model for Waiting<F, A> {
    ghost use Rattle.std.specs.Prelude.{◌≡◌, ◌≤◌, length, map as list_map};
    ghost use Rattle.std.specs.VecDeque.{deque_capacity};
    ghost use Rattle.mq_check.specs.Numbered.{numbered_entry};
    ghost use Rattle.mq_check.specs.Slots.{AreBounded, AreMarked, IsJudgedTo};
    ghost use Rattle.mq_check.specs.Waiting.{WaitingValue, room};

    ghost Value = { WaitingValue };

    ghost view = { λ w. record { entries = list_map (numbered_entry F.Address.number) w.entries.items; is_full = w.is_full } };

    ghost invariant = { λ w. (deque_capacity w.entries ≡ room)
        × AreMarked F.Address.WIDTH w.horizon (list_map (numbered_entry F.Address.number) w.entries.items) w.trails
        × AreBounded F.Address.WIDTH (list_map (numbered_entry F.Address.number) w.entries.items) w.latest.items
        × (length w.latest.items ≡ 65522)
        × IsJudgedTo w.judged (list_map (numbered_entry F.Address.number) w.entries.items) };
}

/// Returns whether two moments are equal.
fn is_at(a: Moment, b: Moment) -> bool
    ensures { result ≡ (a == b) }
{
    let mut meter = Meter::new();
    meter.reached(a, b) && meter.reached(b, a)
}

/// Returns whether a moment is before another.
pub(crate) fn is_before(a: Moment, b: Moment) -> bool
    ensures { result ≡ nat_lt a b }
{
    !Meter::new().reached(b, a)
}

/// Returns the later of two moments.
fn later_of(a: Moment, b: Moment) -> Moment
    ensures first { a ≤ result }
    ensures second { b ≤ result }
{
    if is_before(a, b) { b } else { a }
}

/// Returns whether more than the tolerance has passed since a moment.
fn is_over(within: Span, moment: Moment, now: Moment) -> bool
    requires in_range { now ≤ 2 ^ 53 }
    ensures { result ≡ nat_lt (moment + within) now }
{
    moment.in_range() && !Meter::new().reached(now, moment.after(within))
}

/// Returns whether an entry is of this side, has this subject, has no partner, and isn't before a moment.
fn is_free<F: Family>(
    side: Side,
    asked: Asked<F::Address>,
    from: &EarliestPartner,
    entry: &Entry<F::Address>,
) -> bool
    ensures { result ≡ waits.is_free side (numbered_asked F.Address.number asked) from.now (numbered_entry F.Address.number entry.now) }
{
    is_open::<F>(side, asked, entry) && from.is_reached(entry.moment())
}

/// Returns whether an entry is of this side, has this subject, and has no partner.
fn is_open<F: Family>(side: Side, asked: Asked<F::Address>, entry: &Entry<F::Address>) -> bool
    ensures { result ≡ waits.is_open side (numbered_asked F.Address.number asked) (numbered_entry F.Address.number entry.now) }
{
    match (side, entry) {
        (Side::OfWanted, Entry::Wanted(_, other, _, _, is_found)) => {
            is_same::<F>(asked, *other) && !*is_found
        }
        (Side::OfSeen, Entry::Seen(_, other, _, partner, _)) => {
            is_same::<F>(asked, *other) && partner.is_none()
        }
        _ => false,
    }
}

/// Returns whether an entry is a query for this group that is wanted at this moment.
fn is_group_wanted<F: Family>(moment: Moment, group: F::Address, entry: &Entry<F::Address>) -> bool
    ensures { result ≡ spec.is_group_wanted moment (F.Address.number group) (numbered_entry F.Address.number entry.now) }
{
    match entry {
        Entry::Wanted(other, asked, ..) => {
            is_same::<F>(Asked::Group(group), *asked) && is_at(moment, *other)
        }
        _ => false,
    }
}

/// Marks each wanted query that may be left out, since its partner may come after the end. `sent` has the queries of
/// schedules.
fn excuse_each<F: Family, A: Allocator>(
    entries: &mut VecDeque<Entry<F::Address>, A>,
    within: Span,
    end: Moment,
    sent: &Waiting<F, A>,
)
    requires in_range { end ≤ 2 ^ 53 }
    ensures entries { list_map (numbered_entry F.Address.number) entries.new.items
        ≡ list_map (waits.excused_at within end sent.now) (list_map (numbered_entry F.Address.number) entries.old.items) }
    ensures capacity { deque_capacity entries.new ≡ deque_capacity entries.old }
{
    for place in 0..entries.len() {
        let entry = entries[place];
        let may_come = sent.may_still_come(within, end, &entry);
        entries[place] = entry.excused_if(may_come);
    }
}

/// Returns whether a Report may still come that changes S of a query at a moment. At the end of a capture none comes.
fn is_recent(beside: Span, now: &Option<Moment>, moment: Moment) -> bool
    requires in_range { IfSome now.now (λ now. now ≤ 2 ^ 53) }
    ensures { result ≡ waits.is_recent beside now.now moment }
{
    match now {
        Some(now) => is_near(beside, moment, *now),
        None => false,
    }
}

/// Returns whether an entry is a seen query whose S a Report may still change.
fn may_change_s<F: Family>(beside: Span, now: &Option<Moment>, entry: &Entry<F::Address>) -> bool
    requires in_range { IfSome now.now (λ now. now ≤ 2 ^ 53) }
    ensures { result ≡ waits.may_change_s beside now.now (numbered_entry F.Address.number entry.now) }
{
    entry.is_s_open() && is_recent(beside, now, entry.moment())
}

/// Returns the verdict on S after it is judged by the timer of its subject.
fn s_judged<F: Family, A: Allocator>(
    link: &Link<F, A>,
    asked: Asked<F::Address>,
    s: SVerdict,
) -> SVerdict
    ensures { result ≡ spec.s_judged (is_timer_set link.now.state.groups) (numbered_asked F.Address.number asked) s }
{
    match s {
        SVerdict::Open(limit) => s_if(is_set(link, limit, asked)),
        other => other,
    }
}

/// Returns an entry after S is judged by the timer of its subject.
fn judged_by<F: Family, A: Allocator>(
    link: &Link<F, A>,
    entry: Entry<F::Address>,
) -> Entry<F::Address>
    ensures { numbered_entry F.Address.number result
        ≡ spec.entry_judged (is_timer_set link.now.state.groups) (numbered_entry F.Address.number entry) }
{
    match entry {
        Entry::Seen(moment, asked, terms, partner, verdict) => {
            let s = s_judged(link, asked, verdict.s);
            let alone = verdict.alone;
            Entry::Seen(moment, asked, terms, partner, SeenVerdict { s, alone })
        }
        other => other,
    }
}

/// Judges S of the entries from a place on, and returns the place of the first entry that a Report may still change.
fn judge_from<F: Family, A: Allocator>(
    entries: &mut VecDeque<Entry<F::Address>, A>,
    judged: usize,
    link: &Link<F, A>,
    beside: Span,
    now: &Option<Moment>,
) -> usize
    requires in_range { IfSome now.now (λ moment. moment ≤ 2 ^ 53) }
    requires judged { IsJudgedTo judged (list_map (numbered_entry F.Address.number) entries.old.items) }
    ensures entries { list_map (numbered_entry F.Address.number) entries.new.items
        ≡ waits.all_judged beside now.now (is_timer_set link.now.state.groups) (list_map (numbered_entry F.Address.number) entries.old.items) }
    ensures judged { IsJudgedTo result (list_map (numbered_entry F.Address.number) entries.new.items) }
    ensures capacity { deque_capacity entries.new ≡ deque_capacity entries.old }
{
    let mut place = judged;
    while place < entries.len() {
        let entry = entries[place];
        if may_change_s::<F>(beside, now, &entry) {
            return place;
        }
        entries[place] = judged_by(link, entry);
        place += 1;
    }
    place
}

impl<F: Family, A: Allocator> Waiting<F, A> {
    /// Returns an empty list, with all memory allocated from `memory`.
    #[tactic(auto, unfolding(crate::specs::Sizes::bytes_of_entries))]
    pub(crate) fn new<M: VectorSource<A>>(memory: &mut M) -> Result<Waiting<F, A>, AllocError>
        ensures nothing { IfOk result (λ w. w ≡ waits.nothing) }
        ensures memory { Takes (bytes_of_waiting F.Address.row) (M.less_than memory.old) (M.less_than memory.new) (is_ok result) }
    {
        Ok(Waiting {
            entries: VecDeque::from_vec(memory.with_capacity(ROOM)?),
            trails: Trails::new(memory)?,
            horizon: EarliestPartner::start(),
            latest: filled(memory, Stamp::of(0).moment(), SLOTS)?,
            last_group: 0,
            judged: 0,
            is_full: false,
        })
    }

    /// Returns whether an entry had no room.
    pub(crate) fn is_full(&self) -> bool
        ensures { result ≡ self.now.is_full }
    {
        self.is_full
    }

    /// Appends an entry if there is room.
    pub(crate) fn put(&mut self, entry: Entry<F::Address>)
        ensures { self.new ≡ waits.with_entry (numbered_entry F.Address.number entry) self.old }
    {
        if self.entries.len() < ROOM {
            let slot = wanted_slot(&entry);
            let at = wanted_moment(&entry);
            let before = self.latest[slot];
            self.latest[slot] = later_of(before, at);
            let number = self.trails.number(self.entries.len());
            let last = self.last_group;
            self.last_group = last_group_by(&entry, number, last);
            self.trails.push(slot_in(&entry));
            self.entries.push_back_reserved(entry);
        } else {
            self.is_full = true;
        }
    }

    /// Pairs the first entry of a side with this subject that has no partner and isn't before `from`, and returns its terms.
    pub(crate) fn join(
        &mut self,
        side: Side,
        asked: Asked<F::Address>,
        from: &EarliestPartner,
        other: Terms<F::Address>,
    ) -> Option<Terms<F::Address>>
        ensures terms { numbered_terms_if F.Address.number result
            ≡ spec.first_terms (waits.is_free side (numbered_asked F.Address.number asked) from.now) self.old.entries }
        ensures joined { self.new
            ≡ waits.with_partner side (numbered_asked F.Address.number asked) from.now (numbered_terms F.Address.number other) self.old }
    {
        self.approach(side, asked, from);
        let place = self.place_of(side, asked, from)?;
        let entry = self.entries[place];
        self.trails.pass(place);
        self.entries[place] = entry.joined(other);
        entry.terms()
    }

    /// Pairs the first entry of a side with this subject that has no partner, and returns its terms.
    pub(crate) fn join_any(
        &mut self,
        side: Side,
        asked: Asked<F::Address>,
        other: Terms<F::Address>,
    ) -> Option<Terms<F::Address>>
        ensures terms { numbered_terms_if F.Address.number result
            ≡ spec.first_terms (waits.is_free side (numbered_asked F.Address.number asked) 0) self.old.entries }
        ensures joined { self.new
            ≡ waits.with_partner side (numbered_asked F.Address.number asked) 0 (numbered_terms F.Address.number other) self.old }
    {
        self.join(side, asked, &EarliestPartner::start(), other)
    }

    /// Returns whether an entry of a side with this subject has no partner.
    pub(crate) fn has_any(&self, side: Side, asked: Asked<F::Address>) -> bool
        ensures { result ≡ waits.has_free side (numbered_asked F.Address.number asked) 0 self.now }
    {
        self.has_free(side, asked, &EarliestPartner::start())
    }

    /// Returns whether an entry of a side with this subject has no partner and isn't before `from`.
    pub(crate) fn has_free(
        &self,
        side: Side,
        asked: Asked<F::Address>,
        from: &EarliestPartner,
    ) -> bool
        ensures { result ≡ waits.has_free side (numbered_asked F.Address.number asked) from.now self.now }
    {
        match self.place_of(side, asked, from) {
            Some(place) => self.entries[place].terms().is_some(),
            None => false,
        }
    }

    /// Returns the first entry of a side with this subject that has no partner.
    pub(crate) fn first(&self, side: Side, asked: Asked<F::Address>) -> Option<Entry<F::Address>>
        ensures { numbered_entry_if F.Address.number result
            ≡ spec.first_entry (waits.is_free side (numbered_asked F.Address.number asked) 0) self.now.entries }
    {
        match self.place_of(side, asked, &EarliestPartner::start()) {
            Some(place) => Some(self.entries[place]),
            None => None,
        }
    }

    /// Notes that the next searches for this subject are from a moment on. So none passes the same earlier entries again.
    pub(crate) fn approach(&mut self, side: Side, asked: Asked<F::Address>, from: &EarliestPartner)
        ensures { self.new ≡ self.old }
    {
        if self.horizon.is_by(from) {
            let slot = slot_of(side, asked);
            let place = self.near_place(slot, from);
            self.trails.come_near(slot, place);
            self.horizon = from.copied();
        }
    }

    /// Returns the place of the first entry of a slot that isn't before `from`, or that of another entry before it.
    fn near_place(&self, slot: usize, from: &EarliestPartner) -> usize
        requires slot { slot < 65522 }
        ensures { AreNoneOf F.Address.WIDTH slot from.now self.now.entries result }
    {
        let mut place = self.start(slot, from);
        while place < self.entries.len() && !from.is_reached(self.entries[place].moment()) {
            place = self.trails.next(place, slot);
        }
        place
    }

    /// Returns a place before which no entry of a slot is free from a moment on.
    fn start(&self, slot: usize, from: &EarliestPartner) -> usize
        requires slot { slot < 65522 }
        ensures { AreNoneOf F.Address.WIDTH slot from.now self.now.entries result }
    {
        if self.horizon.is_by(from) {
            self.trails.near_start(slot)
        } else {
            self.trails.start(slot)
        }
    }

    /// Returns the place of the first entry of a side with this subject that has no partner and isn't before `from`.
    fn place_of(
        &self,
        side: Side,
        asked: Asked<F::Address>,
        from: &EarliestPartner,
    ) -> Option<usize>
        ensures none { IfNone result (IsNoneFree side (numbered_asked F.Address.number asked) from.now self.now.entries) }
        ensures some { IfSome result (IsFirstFree side (numbered_asked F.Address.number asked) from.now self.now.entries) }
    {
        let slot = slot_of(side, asked);
        let mut place = self.start(slot, from);
        while place < self.entries.len() {
            if is_free::<F>(side, asked, from, &self.entries[place]) {
                return Some(place);
            }
            place = self.trails.next(place, slot);
        }
        None
    }

    /// Removes the first entry if it has expired at a moment, unless an entry had no room. An entry expires after the time
    /// `keep`.
    pub(crate) fn pop_over(&mut self, keep: Span, now: Moment) -> Option<Entry<F::Address>>
        requires in_range { now ≤ 2 ^ 53 }
        ensures none { IfNone result (self.new ≡ self.old) }
        ensures none_over { IfNone result (IsNoneOver keep now self.old) }
        ensures some { IfSome result (λ entry. IsFirstOver keep now self.old self.new (numbered_entry F.Address.number entry)) }
    {
        if self.is_full {
            return None;
        }
        if self.entries.is_empty() {
            return None;
        }
        if !is_over(keep, self.entries[0].moment(), now) {
            return None;
        }
        self.trails.pop();
        self.judged = self.judged.saturating_sub(1);
        self.entries.pop_front()
    }

    /// Removes the entries that have expired at a moment, unless an entry had no room.
    pub(crate) fn forget(&mut self, within: Span, now: Moment)
        requires in_range { now ≤ 2 ^ 53 }
        ensures { self.new ≡ waits.purged within now self.old }
    {
        while let Some(_entry) = self.pop_over(within, now) {}
    }

    /// Returns whether the partner of a wanted query may come after the end of a capture. This list has the queries of
    /// schedules.
    fn may_still_come(&self, within: Span, end: Moment, entry: &Entry<F::Address>) -> bool
        requires in_range { end ≤ 2 ^ 53 }
        ensures { result ≡ waits.may_still_come within end self.now (numbered_entry F.Address.number entry.now) }
    {
        match entry {
            Entry::Wanted(moment, asked, ..) => {
                is_near(within, *moment, end) || self.has_any(Side::OfSeen, *asked)
            }
            _ => false,
        }
    }

    /// Marks at the end of a capture each wanted query whose partner may come after the end. `sent` has the queries of
    /// schedules.
    pub(crate) fn excuse(&mut self, within: Span, end: Moment, sent: &Waiting<F, A>)
        requires in_range { end ≤ 2 ^ 53 }
        ensures { self.new ≡ waits.all_excused within end sent.now self.old }
    {
        excuse_each::<F, A>(&mut self.entries, within, end, sent);
    }

    /// Judges S of seen queries in order, up to the first query that a Report may still change.
    ///
    /// The search begins where it ended before, so it passes each entry once.
    pub(crate) fn judge(&mut self, link: &Link<F, A>, beside: Span, now: &Option<Moment>)
        requires in_range { IfSome now.now (λ moment. moment ≤ 2 ^ 53) }
        ensures { self.new ≡ waits.all_s_judged beside now.now (is_timer_set link.now.state.groups) self.old }
    {
        self.judged = judge_from(&mut self.entries, self.judged, link, beside, now);
    }

    /// Removes the first entry.
    pub(crate) fn pop(&mut self) -> Option<Entry<F::Address>>
        ensures none { IfNone result (self.old.entries ≡ []) }
        ensures some { IfSome result (λ entry. self.old.entries ≡ numbered_entry F.Address.number entry ∷ self.new.entries) }
        ensures full { self.new.is_full ≡ self.old.is_full }
        ensures same { IfNone result (self.new ≡ self.old) }
    {
        if self.entries.is_empty() {
            return None;
        }
        self.trails.pop();
        self.judged = self.judged.saturating_sub(1);
        self.entries.pop_front()
    }

    /// Removes all entries.
    pub(crate) fn clear(&mut self)
        ensures { self.new ≡ waits.emptied self.old }
    {
        while let Some(_entry) = self.pop() {}
    }

    /// Returns whether a query for this group is wanted at this moment.
    pub(crate) fn has_group_wanted(&self, moment: Moment, group: F::Address) -> bool
        ensures { result ≡ list_any (spec.is_group_wanted moment (F.Address.number group)) self.now.entries }
    {
        let slot = slot_of(Side::OfWanted, Asked::Group(group));
        if is_before(self.latest[slot], moment) {
            return false;
        }
        let last = self.trails.place(self.last_group);
        if last < self.entries.len() && is_group_wanted::<F>(moment, group, &self.entries[last]) {
            return true;
        }
        self.is_any_wanted(moment, group)
    }

    /// Returns whether a query for this group is wanted at this moment, after a look at each entry.
    fn is_any_wanted(&self, moment: Moment, group: F::Address) -> bool
        ensures { result ≡ list_any (spec.is_group_wanted moment (F.Address.number group)) self.now.entries }
    {
        for place in 0..self.entries.len() {
            if is_group_wanted::<F>(moment, group, &self.entries[place]) {
                return true;
            }
        }
        false
    }
}

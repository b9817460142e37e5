//! Retransmissions of group-and-source-specific queries, kept with the timers of the sources.

ghost use Rattle.std.specs.Prelude.{◌≡◌, ℕ, ◌+◌, ◌-◌, [], ◌∷◌, ◌*◌, ◌^◌, ◌<◌, ◌≤◌, true, false, Some, IsSome, length, map, min, vec_capacity, drop};
ghost use Rattle.std.specs.List.{list_any};
ghost use Rattle.mq_count.specs.Spending.{Spends};
ghost use Rattle.mq_sets.specs.Ascending.{IsAscending, set_of};
ghost use Rattle.mq_sets.specs.Search.{bitlen};
ghost use Rattle.mq_table.specs.Sets.{◌∩◌};
ghost use Rattle.mq_table.specs.Group.{timer_at};
ghost use Rattle.mq_table.specs.Retransmissions.{some_source, has_retransmissions, above, source_counted, source_cleared, retransmissions_started, retransmissions_counted, retransmissions_cleared};
ghost use Rattle.mq_table.specs.AskedSources.{is_first, source_if_asked, is_asked_above};
ghost use Rattle.mq_table.specs.RetransmissionPlaces.{item_has_retransmissions, PassesBetween, SendsBetween};
ghost use Rattle.mq_table.specs.MadeSources.{timer_recounted, source_recounted};
ghost use Rattle.mq_table.specs.Stored.{number_in, size_of};

use crate::group::Group;
use crate::retransmission_places::RetransmissionPlaces;
use crate::sources::Source;
use crate::timers::{SourceTimer, runs_on};
use crate::timing::Timing;
use mq_count::{Key, Meter, Moment};
use mq_sets::find;
use std::alloc::Allocator;
use std::cmp::Ordering;

/// Returns whether the next of the addresses asked for is this one.
fn is_next<K: Key>(asked: &[K], next: usize, address: K, m: &mut Meter) -> bool
    ensures answer { result ≡ is_first K.number (drop next asked.now) (K.number address) }
    ensures within { result ≡ true → next < length asked.now }
    ensures spent { Spends (min 1 (length asked.now - next)) 1 m.old m.new }
{
    if next < asked.len() {
        matches!(asked[next].order(address, m), Ordering::Equal)
    } else {
        false
    }
}

/// Asks for the sources of a list. Timers above the limit are lowered to it, each with `count` retransmissions. Returns
/// whether there is one. It takes one pass over both lists, which ascend, up to the last source that is asked for.
fn ask_each<K: Key, A: Allocator>(
    sources: &mut Vec<Source<K>, A>,
    asked: &[K],
    limit: Moment,
    count: u32,
    m: &mut Meter,
) -> bool
    requires sources_ascend { IsAscending (number_in K.number) sources.old.items }
    requires asked_ascend { IsAscending K.number asked.now }
    requires held { (s : ℕ) → set_of K.number asked.now s ≡ true
        → set_of (number_in K.number) sources.old.items s ≡ true }
    ensures items { let made = source_if_asked K.number limit count (set_of K.number asked.now) in
        sources.new.items ≡ map made sources.old.items }
    ensures some { let test = is_asked_above K.number limit (set_of K.number asked.now) in
        result ≡ list_any test sources.old.items }
    ensures capacity { vec_capacity sources.new ≡ vec_capacity sources.old }
    ensures spent { Spends (min 1 (length asked.now)) (2 * length sources.old.items) m.old m.new }
{
    let mut next = 0;
    let mut some = false;
    for place in 0..sources.len() {
        if next == asked.len() {
            return some;
        }
        let held = sources[place];
        if is_next(asked, next, held.address, m) {
            next += 1;
            if runs_on(held.timer.deadline(), limit, m) {
                some = true;
                sources[place] = Source {
                    address: held.address,
                    timer: SourceTimer::Running(limit, count),
                };
            }
        }
    }
    some
}

/// Acts like `ask_each` for one source, which it finds by binary search.
fn ask_one<K: Key, A: Allocator>(
    sources: &mut Vec<Source<K>, A>,
    asked: &K,
    limit: Moment,
    count: u32,
    m: &mut Meter,
) -> bool
    requires { IsAscending (number_in K.number) sources.old.items }
    ensures items { let made = source_if_asked K.number limit count (set_of K.number (asked.now ∷ [])) in
        sources.new.items ≡ map made sources.old.items }
    ensures some { let test = is_asked_above K.number limit (set_of K.number (asked.now ∷ [])) in
        result ≡ list_any test sources.old.items }
    ensures capacity { vec_capacity sources.new ≡ vec_capacity sources.old }
    ensures spent { let size = length sources.old.items in Spends (min 1 size) (bitlen size + 1) m.old m.new }
{
    match find(sources.as_slice(), *asked, m) {
        Ok(place) => {
            let held = sources[place];
            let is_above = runs_on(held.timer.deadline(), limit, m);
            if is_above {
                sources[place].timer = SourceTimer::Running(limit, count);
            }
            is_above
        }
        Err(_) => false,
    }
}

/// Acts like `ask_each`. It finds the source by binary search if one is asked for.
fn ask_among<K: Key, A: Allocator>(
    sources: &mut Vec<Source<K>, A>,
    asked: &[K],
    limit: Moment,
    count: u32,
    m: &mut Meter,
) -> bool
    requires sources_ascend { IsAscending (number_in K.number) sources.old.items }
    requires asked_ascend { IsAscending K.number asked.now }
    requires held { (s : ℕ) → set_of K.number asked.now s ≡ true
        → set_of (number_in K.number) sources.old.items s ≡ true }
    ensures items { let made = source_if_asked K.number limit count (set_of K.number asked.now) in
        sources.new.items ≡ map made sources.old.items }
    ensures some { let test = is_asked_above K.number limit (set_of K.number asked.now) in
        result ≡ list_any test sources.old.items }
    ensures capacity { vec_capacity sources.new ≡ vec_capacity sources.old }
    ensures spent { Spends (min 1 (length asked.now)) (2 * length sources.old.items) m.old m.new }
{
    if asked.len() == 1 {
        ask_one(sources, &asked[0], limit, count, m)
    } else {
        ask_each(sources, asked, limit, count, m)
    }
}

/// The change of the retransmissions of each source.
#[derive(Clone, Copy)]
enum Recount {
    OneFewer,
    NoneLeft,
}

/// Returns a source's timer with its retransmissions counted anew.
fn recounted(timer: SourceTimer, recount: Recount) -> SourceTimer
    ensures { result ≡ timer_recounted recount timer }
{
    match recount {
        Recount::OneFewer => timer.counted(),
        Recount::NoneLeft => match timer {
            SourceTimer::Stopped => SourceTimer::Stopped,
            SourceTimer::Running(deadline, _) => SourceTimer::Running(deadline, 0),
        },
    }
}

/// Counts the retransmissions of each source of a list anew. Outside of the places no source has any. Returns whether a
/// source has a retransmission left.
fn recount_each<K: Key, A: Allocator>(
    sources: &mut Vec<Source<K>, A>,
    places: RetransmissionPlaces,
    recount: Recount,
) -> bool
    requires { PassesBetween item_has_retransmissions places.first places.end sources.old.items }
    ensures items { sources.new.items ≡ map (source_recounted recount) sources.old.items }
    ensures left { result ≡ list_any item_has_retransmissions sources.new.items }
    ensures capacity { vec_capacity sources.new ≡ vec_capacity sources.old }
{
    let mut left = false;
    for place in places.first..places.end {
        let held = sources[place];
        if held.timer.has_retransmissions() {
            let timer = recounted(held.timer, recount);
            left |= timer.has_retransmissions();
            sources[place] = Source {
                address: held.address,
                timer,
            };
        }
    }
    left
}

impl<K: Key, A: Allocator> Group<K, A> {
    /// Starts the group-and-source-specific query for sources that the group holds. Their timers above the last member
    /// query time are lowered to it, and the number of retransmissions of each is set to the last member query count.
    /// Returns whether there is one. RFC 3376 section 6.6.3.2, RFC 3810 section 7.6.3.2.
    pub fn start_retransmissions(
        &mut self,
        asked: &[K],
        now: Moment,
        timing: &Timing,
        m: &mut Meter,
    ) -> bool
        requires in_range { now ≤ 2 ^ 53 }
        requires ascending { IsAscending K.number asked.now }
        requires held { (s : ℕ) → set_of K.number asked.now s ≡ true → IsSome (timer_at self.old.state s) }
        ensures state { self.new.state ≡ retransmissions_started timing.now now (set_of K.number asked.now) self.old.state }
        ensures some { let lowered = set_of K.number asked.now ∩ above timing.now now self.old.state in
            result ≡ some_source lowered self.old.state }
        ensures room { self.new.room ≡ self.old.room }
        ensures spent { Spends (min 1 (length asked.now)) (2 * size_of self.old.state) m.old m.new }
    {
        let limit = now.after(timing.last_member_time());
        ask_among(
            &mut self.sources,
            asked,
            limit,
            timing.last_member_count(),
            m,
        )
    }

    /// Leaves each source one retransmission fewer, if it has one. Outside of the places none has one. Returns whether
    /// a source has one left. No comparison.
    pub fn count_retransmissions_between(&mut self, places: RetransmissionPlaces) -> bool
        requires { SendsBetween places.first places.end self.old.state }
        ensures state { self.new.state ≡ retransmissions_counted self.old.state }
        ensures left { result ≡ some_source (has_retransmissions self.new.state) self.new.state }
        ensures room { self.new.room ≡ self.old.room }
    {
        recount_each(&mut self.sources, places, Recount::OneFewer)
    }

    /// Leaves no source a retransmission. No comparison.
    pub fn clear_retransmissions(&mut self)
        ensures state { self.new.state ≡ retransmissions_cleared self.old.state }
        ensures room { self.new.room ≡ self.old.room }
    {
        let end = self.sources.len();
        let places = RetransmissionPlaces { first: 0, end };
        recount_each(&mut self.sources, places, Recount::NoneLeft);
    }
}

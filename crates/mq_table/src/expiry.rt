//! Expiry of timers.

ghost use Rattle.std.specs.Prelude.{◌≡◌, ◌+◌, ◌≤◌, ◌++◌, length, take, drop, vec_capacity};
ghost use Rattle.std.specs.List.{filter_map, list_any};
ghost use Rattle.std.specs.Option.{option_and_then};
ghost use Rattle.mq_count.specs.Spending.{Spends};
ghost use Rattle.mq_table.specs.Expiry.{ahead, at_zero, mode_expired, held_or_vacant, expired};
ghost use Rattle.mq_table.specs.Filter.{changes_filter};
ghost use Rattle.mq_table.specs.MadeSources.{running_among, runs_out, source_left};
ghost use Rattle.mq_table.specs.Stored.{size_of};

use crate::group::Group;
use crate::sources::{Source, rest_of};
use crate::timers::{FilterMode, SourceTimer, runs_on};
use mq_count::{Key, Meter, Moment};
use std::alloc::Allocator;

/// Returns a deadline if it is still ahead.
fn still_ahead(deadline: &Option<Moment>, now: Moment, m: &mut Meter) -> Option<Moment>
    ensures ahead { result ≡ option_and_then (ahead now) deadline.now }
    ensures spent { Spends 0 1 m.old m.new }
{
    if runs_on(*deadline, now, m) {
        *deadline
    } else {
        None
    }
}

/// Returns the mode at `now`, after the end of the group timer if it has ended.
fn mode_left(mode: &FilterMode, now: Moment, m: &mut Meter) -> FilterMode
    ensures mode { result ≡ mode_expired now mode.now }
    ensures spent { Spends 0 1 m.old m.new }
{
    if runs_on(mode.deadline(), now, m) {
        *mode
    } else {
        FilterMode::Include
    }
}

/// Returns a source's timer after its end, in a group of this mode, or None if the source is removed.
fn timer_at_zero(mode: &FilterMode) -> Option<SourceTimer>
    ensures { result ≡ at_zero mode.now }
{
    match mode {
        FilterMode::Include => None,
        FilterMode::Exclude(_) => Some(SourceTimer::Stopped),
    }
}

/// Moves `run` sources at `place` towards the front, to `left`.
fn move_run<K: Key, A: Allocator>(
    sources: &mut Vec<Source<K>, A>,
    place: usize,
    left: usize,
    run: usize,
)
    requires within { place + run ≤ length sources.old.items }
    requires behind { left ≤ place }
    ensures moved { take (left + run) sources.new.items ≡ take left sources.old.items ++ take run (drop place sources.old.items) }
    ensures rest { drop (place + run) sources.new.items ≡ drop (place + run) sources.old.items }
    ensures len { length sources.new.items ≡ length sources.old.items }
    ensures capacity { vec_capacity sources.new ≡ vec_capacity sources.old }
{
    if left < place {
        sources.as_mut_slice().copy_within(place..place + run, left);
    }
}

/// Keeps the sources of a list that stay after the expiry of timers, in a group of this mode. Returns whether a timer
/// expired. It takes one pass over the list, run by run of the sources whose timers run on.
fn leave_sources<K: Key, A: Allocator>(
    sources: &mut Vec<Source<K>, A>,
    mode: &FilterMode,
    now: Moment,
    m: &mut Meter,
) -> bool
    ensures items { sources.new.items ≡ filter_map (source_left mode.now now) sources.old.items }
    ensures ran_out { result ≡ list_any (runs_out now) sources.old.items }
    ensures capacity { vec_capacity sources.new ≡ vec_capacity sources.old }
    ensures spent { let count = running_among sources.old.items in Spends count count m.old m.new }
{
    let mut ran_out = false;
    let mut left = 0;
    let mut place = 0;
    while place < sources.len() {
        let run = m.count_ahead(rest_of(sources.as_slice(), place), now);
        move_run(sources, place, left, run);
        left += run;
        place += run;
        if place < sources.len() {
            let Source { address, timer } = sources[place];
            ran_out |= timer.deadline().is_some();
            if let Some(timer) = timer_at_zero(mode) {
                sources[left] = Source { address, timer };
                left += 1;
            }
            place += 1;
        }
    }
    sources.truncate(left);
    ran_out
}

impl<K: Key, A: Allocator> Group<K, A> {
    /// Makes INCLUDE without sources vacant: it isn't held, and its host-present timers go with it.
    fn let_go_if_vacant(&mut self)
        ensures state { self.new.state ≡ held_or_vacant self.old.state }
        ensures room { self.new.room ≡ self.old.room }
    {
        if self.is_vacant() {
            self.v1 = None;
            self.v2 = None;
        }
    }

    /// Ends the timers that have expired at `now`: sources first, then the group. RFC 3376 sections 6.2.2, 6.3 and 6.5;
    /// RFC 3810 sections 7.2.2, 7.2.3 and 7.5. In INCLUDE a source at zero is removed; in EXCLUDE it stays, stopped.
    /// The end of the group timer makes the group INCLUDE of the sources that still run. Without any the group is
    /// vacant. Returns whether the filter changed.
    pub fn expire(&mut self, now: Moment, m: &mut Meter) -> bool
        ensures changes_filter { result ≡ changes_filter self.old.state self.new.state }
        ensures state { self.new.state ≡ expired now self.old.state }
        ensures room { self.new.room ≡ self.old.room }
        ensures spent { Spends 0 (size_of self.old.state + 3) m.old m.new }
    {
        let mode = mode_left(&self.mode, now, m);
        let ran_out = leave_sources(&mut self.sources, &mode, now, m);
        let ends = self.mode.is_unlike(&mode);
        self.mode = mode;
        self.v1 = still_ahead(&self.v1, now, m);
        self.v2 = still_ahead(&self.v2, now, m);
        self.let_go_if_vacant();
        ran_out | ends
    }
}

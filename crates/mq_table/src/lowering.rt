//! Lowering of timers to the last member query time.

ghost use Rattle.std.specs.Prelude.{◌≡◌, ℕ, ◌+◌, ◌^◌, ◌≤◌, ◌==◌, min};
ghost use Rattle.mq_count.specs.Spending.{Spends};
ghost use Rattle.mq_sets.specs.Search.{bitlen};
ghost use Rattle.mq_table.specs.Lowering.{lowered_to, mode_lowered, source_lowered, group_lowered, sources_lowered};
ghost use Rattle.mq_table.specs.Stored.{size_of};

use crate::group::Group;
use crate::sources::Source;
use crate::timers::{FilterMode, SourceTimer};
use crate::timing::Timing;
use mq_count::{Key, Meter, Moment};
use mq_sets::find;
use std::alloc::Allocator;

/// Returns a source's timer, lowered to `limit` if it runs longer.
fn lower(timer: &SourceTimer, limit: Moment, m: &mut Meter) -> SourceTimer
    ensures lowered { result ≡ source_lowered limit timer.now }
    ensures spent { Spends 0 1 m.old m.new }
{
    match timer {
        SourceTimer::Stopped => SourceTimer::Stopped,
        SourceTimer::Running(deadline, retransmissions) => {
            SourceTimer::Running(m.earlier(*deadline, limit), *retransmissions)
        }
    }
}

impl<K: Key, A: Allocator> Group<K, A> {
    /// Lowers the group timer to the last member query time; only EXCLUDE has one. RFC 3376 sections 6.6.1 and 6.6.3.1,
    /// RFC 3810 sections 7.6.1 and 7.6.3.1.
    pub fn lower_group(&mut self, now: Moment, timing: &Timing, m: &mut Meter)
        requires in_range { now ≤ 2 ^ 53 }
        ensures state { self.new.state ≡ group_lowered timing.now now self.old.state }
        ensures room { self.new.room ≡ self.old.room }
        ensures spent { Spends 0 1 m.old m.new }
    {
        let limit = now.after(timing.last_member_time());
        let mode = self.mode;
        self.mode = match &mode {
            FilterMode::Include => FilterMode::Include,
            FilterMode::Exclude(deadline) => FilterMode::Exclude(m.earlier(*deadline, limit)),
        };
    }

    /// Lowers the timer of one source of a query to the last member query time, if it runs. If the group doesn't have
    /// the source, nothing changes. A query's sources are lowered one by one, in any order, however often. RFC 3376
    /// sections 6.6.1 and 6.6.3.2, RFC 3810 sections 7.6.1 and 7.6.3.2.
    pub fn lower_source(&mut self, source: K, now: Moment, timing: &Timing, m: &mut Meter)
        requires in_range { now ≤ 2 ^ 53 }
        ensures state { self.new.state ≡ sources_lowered timing.now now (λ s. s == K.number source) self.old.state }
        ensures room { self.new.room ≡ self.old.room }
        ensures spent { let size = size_of self.old.state in
            Spends (min 1 size) (bitlen size + 1) m.old m.new }
    {
        let limit = now.after(timing.last_member_time());
        if let Ok(place) = find(self.sources.as_slice(), source, m) {
            let held = self.sources[place];
            self.sources[place] = Source {
                address: held.address,
                timer: lower(&held.timer, limit, m),
            };
        }
    }
}

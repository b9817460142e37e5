//! Laws of the definitions of schedules. The functions have no effect at run time: each contract is a law, for every
//! group with its schedule, every moment and every timing.

ghost use Rattle.std.specs.Prelude.{◌≡◌, ℕ, ◌+◌, ◌<◌, true, false, ◌&&◌, [], length};
ghost use Rattle.mq_table.specs.Group.{GroupState, timer_at, deadline_of, retransmissions_of, group_deadline, IsWellFormed};
ghost use Rattle.mq_table.specs.Expiry.{expired};
ghost use Rattle.mq_laws.specs.Groups.{Arrival, group_after, IsNoLater};
ghost use Rattle.std.specs.List.{concat};
ghost use Rattle.mq_table.specs.Retransmissions.{has_retransmissions};
ghost use Rattle.mq_sched.specs.Portions.{AllButLast};
ghost use Rattle.mq_sched.specs.Schedule.{query_sendings, ScheduleState, ScheduledGroup, IsScheduleOf, settled, cleared};
ghost use Rattle.mq_sched.specs.Sending.{is_due, group_due, messages_due};
ghost use Rattle.mq_sched.specs.Election.{ElectionState, ticked, next_moment};
ghost use Rattle.mq_laws.specs.Schedules.{Round, queries_of, state_after, Asking, after_asking, IsFitting, AscendIn, set_portions, clear_portions, set_sources, clear_sources};
ghost use Rattle.mq_sched.specs.Rounds.{AllFit};
ghost use Rattle.mq_sched.specs.Rounds.{asked_in, asks_group, IsQuietAt};

use mq_table::Timing;

/// A lemma: a round asks for the sources that have a retransmission to go, if they are due. Afterwards each of them has
/// exactly one fewer, every other timer is unchanged, and no deadline moves.
pub fn a_round_counts_its_sources_down()
    ensures asked { (r : Round) (s : ℕ)
        → 0 < r.per_query
        → asked_in (queries_of r) s ≡ (is_due r.now r.before.schedule.sources_due && has_retransmissions r.before.group s) }
    ensures fewer { (r : Round) (s : ℕ)
        → 0 < r.per_query → asked_in (queries_of r) s ≡ true
        → retransmissions_of (timer_at (state_after r).group s) + 1 ≡ retransmissions_of (timer_at r.before.group s) }
    ensures others { (r : Round) (s : ℕ)
        → 0 < r.per_query → asked_in (queries_of r) s ≡ false
        → timer_at (state_after r).group s ≡ timer_at r.before.group s }
    ensures deadlines { (r : Round) (s : ℕ)
        → deadline_of (timer_at (state_after r).group s) ≡ deadline_of (timer_at r.before.group s) }
{}

/// A lemma: a round has the group query exactly if it is due. Afterwards the query has exactly one sending fewer.
pub fn a_round_counts_its_group_query_down()
    ensures asked { (r : Round)
        → asks_group (queries_of r) ≡ is_due r.now (group_due r.before.schedule.group_query) }
    ensures fewer { (r : Round)
        → IsFitting r.before → asks_group (queries_of r) ≡ true
        → query_sendings (state_after r).schedule.group_query + 1 ≡ query_sendings r.before.schedule.group_query }
    ensures other { (r : Round)
        → asks_group (queries_of r) ≡ false
        → (state_after r).schedule.group_query ≡ r.before.schedule.group_query }
{}

/// A lemma: a round leaves nothing due at or before its moment, so another one then sends nothing.
pub fn a_round_leaves_nothing_due(timing: Timing)
    ensures later { (r : Round) → r.timing ≡ timing → IsQuietAt r.now (state_after r).schedule }
    ensures silent { (r : Round)
        → r.timing ≡ timing → messages_due r.per_query r.timing r.now r.address (state_after r) ≡ [] }
{
    timing.is_in_range();
}

/// A lemma: a round is in order. No query for sources is empty, and the sources of each ascend.
pub fn a_round_is_in_order()
    ensures { (r : Round) → 0 < r.per_query → AscendIn (queries_of r) }
{}

/// A lemma: a round asks for its sources in portions. Those with S set, put together, are the ascending sources that it
/// has to ask for with S set. Each but the last has exactly what one message holds. The same holds for those with S
/// clear.
pub fn a_round_is_in_portions()
    ensures set { (r : Round) → 0 < r.per_query → concat (set_portions (queries_of r)) ≡ set_sources r }
    ensures clear { (r : Round) → 0 < r.per_query → concat (clear_portions (queries_of r)) ≡ clear_sources r }
    ensures set_full { (r : Round) → AllButLast (λ portion. length portion ≡ r.per_query) (set_portions (queries_of r)) }
    ensures clear_full { (r : Round) → AllButLast (λ portion. length portion ≡ r.per_query) (clear_portions (queries_of r)) }
    ensures fit { (r : Round) → AllFit r.per_query (queries_of r) }
{}

/// A lemma: asking for a group and its sources starts and ends no timer, and none runs longer than before.
pub fn asking_never_lengthens()
    ensures group { (r : Asking)
        → IsNoLater (group_deadline r.before.group.mode) (group_deadline (after_asking r).group.mode) }
    ensures sources { (r : Asking) (s : ℕ)
        → IsNoLater (deadline_of (timer_at r.before.group s)) (deadline_of (timer_at (after_asking r).group s)) }
{}

/// A lemma: a schedule goes on fitting its group. It fits after a record, after the end of timers, after what a record
/// asks, after a round, and after all is dropped.
pub fn schedules_keep_form(timing: Timing)
    ensures record_came { (r : Arrival) (schedule : ScheduleState)
        → IsScheduleOf r.group schedule
        → IsScheduleOf (group_after r) (settled (group_after r) schedule) }
    ensures timers_ended { (now : ℕ) (g : GroupState) (schedule : ScheduleState)
        → IsScheduleOf g schedule → IsScheduleOf (expired now g) (settled (expired now g) schedule) }
    ensures asked { (r : Asking)
        → r.timing ≡ timing → IsFitting r.before → IsFitting (after_asking r) }
    ensures round_sent { (r : Round) → IsFitting r.before → IsFitting (state_after r) }
    ensures all_dropped { (e : ScheduledGroup) → IsFitting (cleared e) }
{
    timing.is_in_range();
}

/// A lemma: a group that is held stays held, whatever is asked, sent or dropped.
pub fn groups_stay_held()
    ensures asked { (r : Asking) → IsWellFormed r.before.group → IsWellFormed (after_asking r).group }
    ensures round_sent { (r : Round) → IsWellFormed r.before.group → IsWellFormed (state_after r).group }
    ensures all_dropped { (e : ScheduledGroup) → IsWellFormed e.group → IsWellFormed (cleared e).group }
{}

/// A lemma: a tick leaves nothing for the election to do at or before its moment.
pub fn a_tick_leaves_nothing_due(configured: Timing, in_force: Timing)
    ensures { (now : ℕ) (e : ElectionState)
        → e.timing ≡ in_force → now < next_moment (ticked configured now e).role }
{
    configured.is_in_range();
    in_force.is_in_range();
}

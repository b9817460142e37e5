//! Laws of the definitions of groups. The functions have no effect at run time: each contract is a law, for every
//! group, moment, timing and record.

ghost use Rattle.std.specs.Prelude.{◌≡◌, Bool, ℕ, ◌+◌, ◌≤◌, true, false, not, ◌||◌, ◌⊎◌, Some, None, IsSome, IsTrue};
ghost use Rattle.std.specs.FinSet as set;
ghost use Rattle.mq_table.specs.declared.kind.Kind.{Kind};
ghost use Rattle.mq_table.specs.declared.older_hosts.Hosts.{Hosts};
ghost use Rattle.mq_table.specs.declared.timing.Timing.{Timing};
ghost use Rattle.mq_count.specs.declared.versions.OlderVersion.{OlderVersion};
ghost use Rattle.mq_table.specs.Sets.{Set, ◌∪◌};
ghost use Rattle.mq_table.specs.Group.{GroupState, running, timer_at, deadline_of, retransmissions_of, group_deadline, forwards_in, vacant, IsWellFormed, IsAnyGroup};
ghost use Rattle.mq_table.specs.Timing.{membership_interval};
ghost use Rattle.mq_table.specs.Table.{NamedSources};
ghost use Rattle.mq_table.specs.OlderHosts.{translated, older_report};
ghost use Rattle.mq_table.specs.Expiry.{expired};
ghost use Rattle.mq_table.specs.Lowering.{group_lowered, sources_lowered};
ghost use Rattle.mq_laws.specs.Groups.{Arrival, table_row_for, group_after, ForwardsAfter, IsNoLater};
ghost use Rattle.mq_table.specs.Expiry.{AllAhead};

use mq_table::Kind;

/// A lemma: the filter of a group, and every timer of it, don't depend on the number of ticks. If timers end at one
/// moment and then at a later one, the group is as after the later one alone.
pub fn expiry_composes()
    ensures { (g : GroupState) (a b : ℕ) → a ≤ b → expired b (expired a g) ≡ expired b g }
{}

/// A lemma: the end of timers leaves a group that is held, or none. INCLUDE({}) is never held, and no source of INCLUDE
/// is stopped. A timer that still runs then runs beyond that moment.
pub fn expiry_keeps_form()
    ensures form { (now : ℕ) (g : GroupState) → IsAnyGroup (expired now g) }
    ensures ahead { (now : ℕ) (g : GroupState) → AllAhead now (expired now g) }
{}

/// A lemma: each row of the tables leaves a group that is held, or none. It never ends a group that is held.
pub fn records_keep_form()
    ensures any { (r : Arrival) → IsAnyGroup r.group → IsAnyGroup (group_after r) }
    ensures held { (r : Arrival) → IsWellFormed r.group → IsWellFormed (group_after r) }
{}

/// A lemma: an older Report leaves a group that is held, and lowering leaves a held group held.
pub fn reports_and_queries_keep_form()
    ensures older_reported { (version : OlderVersion) (timing : Timing) (now : ℕ) (g : GroupState)
        → IsWellFormed (older_report version timing now g) }
    ensures group { (timing : Timing) (now : ℕ) (g : GroupState)
        → IsWellFormed g → IsWellFormed (group_lowered timing now g) }
    ensures sources { (timing : Timing) (now : ℕ) (asked : Set) (g : GroupState)
        → IsWellFormed g → IsWellFormed (sources_lowered timing now asked g) }
{}

/// A lemma: a record brings no source that it doesn't name, and changes only deadlines that its row sets.
pub fn records_change_what_they_name()
    // Each source of the new state was there before, or is in the record.
    ensures known { (r : Arrival) (s : ℕ)
        → IsSome (timer_at (group_after r) s)
        → IsSome (timer_at r.group s) ⊎ IsTrue (set.contains r.named s) }

    // A deadline that the row doesn't set stays.
    ensures kept { (r : Arrival) (s : ℕ)
        → (table_row_for r).restart s ≡ false → (table_row_for r).copy s ≡ false
        → (deadline : ℕ) → deadline_of (timer_at (group_after r) s) ≡ Some deadline
        → deadline_of (timer_at r.group s) ≡ Some deadline }

    // The deadlines that it sets: to the group membership interval, or to the group timer before.
    ensures restarted { (r : Arrival) (s : ℕ)
        → (table_row_for r).restart s ≡ true
        → deadline_of (timer_at (group_after r) s) ≡ Some (r.now + membership_interval r.timing) }
    ensures copied { (r : Arrival) (s : ℕ)
        → (table_row_for r).copy s ≡ true
        → deadline_of (timer_at (group_after r) s) ≡ group_deadline r.group.mode }

    // A source that runs has as many retransmissions to go as before, and none if it didn't run.
    ensures retransmissions { (r : Arrival) (s : ℕ)
        → running (group_after r) s ≡ true
        → retransmissions_of (timer_at (group_after r) s) ≡ retransmissions_of (timer_at r.group s) }

    // A source that the record doesn't name is unchanged, or gone.
    ensures unnamed { (r : Arrival) (s : ℕ)
        → set.contains r.named s ≡ false
        → (timer_at (group_after r) s ≡ timer_at r.group s) ⊎ (timer_at (group_after r) s ≡ None) }
{}

/// A lemma: the sources that a group forwards after a record of each kind. They depend on whether the record names
/// them, and whether the group forwarded them before. A group that isn't held forwards nothing.
pub fn forwards_after_each_kind()
    // The sources that the record names, and those that were forwarded before.
    ensures is_in { ForwardsAfter Kind.IsIn (λ named before. named || before) }
    ensures to_in { ForwardsAfter Kind.ToIn (λ named before. named || before) }
    ensures allow { ForwardsAfter Kind.Allow (λ named before. named || before) }

    // All sources, except those that the record names and that weren't forwarded before.
    ensures is_ex { ForwardsAfter Kind.IsEx (λ named before. not named || before) }
    ensures to_ex { ForwardsAfter Kind.ToEx (λ named before. not named || before) }

    // The sources that were forwarded before.
    ensures block { ForwardsAfter Kind.Block (λ named before. before) }

    ensures not_held { (s : ℕ) → forwards_in vacant s ≡ false }
{}

/// A lemma: the translation of a record of each kind while older hosts are there. It is for IGMP, where version 1 mutes
/// Leave, and for MLD.
pub fn older_hosts_translate_each_kind()
    // A muted record is ignored under any hosts.
    ensures muted { (mutes : Bool) (hosts : Hosts) (kind : Kind) (named : NamedSources)
        → translated mutes true hosts kind named ≡ None }

    // Without older hosts, each other record stays as it is.
    ensures none { (mutes : Bool) (kind : Kind) (named : NamedSources)
        → translated mutes false (record { v1 = false; v2 = false }) kind named ≡ Some (kind, named) }

    // Hosts of either version can't leave single sources out.
    ensures block { (mutes : Bool) (hosts : Hosts) (named : NamedSources)
        → (hosts.v1 || hosts.v2) ≡ true → translated mutes false hosts Kind.Block named ≡ None }
    ensures to_ex { (mutes : Bool) (hosts : Hosts) (named : NamedSources)
        → (hosts.v1 || hosts.v2) ≡ true
        → translated mutes false hosts Kind.ToEx named ≡ Some (Kind.ToEx, set.empty) }

    // TO_IN is ignored under hosts of version 1 in IGMP, and nowhere else.
    ensures to_in_under_v1 { (hosts : Hosts) (named : NamedSources)
        → hosts.v1 ≡ true → translated true false hosts Kind.ToIn named ≡ None }
    ensures to_in_under_v2 { (mutes : Bool) (hosts : Hosts) (named : NamedSources)
        → hosts.v1 ≡ false → translated mutes false hosts Kind.ToIn named ≡ Some (Kind.ToIn, named) }
    ensures to_in_of_mld { (hosts : Hosts) (named : NamedSources)
        → translated false false hosts Kind.ToIn named ≡ Some (Kind.ToIn, named) }

    // The others stay as they are under any hosts.
    ensures is_in { (mutes : Bool) (hosts : Hosts) (named : NamedSources)
        → translated mutes false hosts Kind.IsIn named ≡ Some (Kind.IsIn, named) }
    ensures is_ex { (mutes : Bool) (hosts : Hosts) (named : NamedSources)
        → translated mutes false hosts Kind.IsEx named ≡ Some (Kind.IsEx, named) }
    ensures allow { (mutes : Bool) (hosts : Hosts) (named : NamedSources)
        → translated mutes false hosts Kind.Allow named ≡ Some (Kind.Allow, named) }
{}

/// A lemma: lowering starts and ends no timer, and none runs longer than before.
pub fn lowering_never_lengthens()
    ensures group { (timing : Timing) (now : ℕ) (g : GroupState)
        → IsNoLater (group_deadline g.mode) (group_deadline (group_lowered timing now g).mode) }
    ensures sources { (timing : Timing) (now : ℕ) (asked : Set) (g : GroupState) (s : ℕ)
        → IsNoLater (deadline_of (timer_at g s)) (deadline_of (timer_at (sources_lowered timing now asked g) s)) }
{}

/// A lemma: lowering some sources and then others, at one moment, lowers all of them. So the sources of a query may be
/// lowered one by one, in any order, however often.
pub fn lowering_adds_up()
    ensures { (timing : Timing) (now : ℕ) (some others : Set) (g : GroupState)
        → sources_lowered timing now others (sources_lowered timing now some g)
        ≡ sources_lowered timing now (some ∪ others) g }
{}

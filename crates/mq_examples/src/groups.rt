//! Worked examples of the definitions of groups, each computed by the check. The functions have no effect at run time:
//! each contract is an example.
//!
//! The moments and the sets are worked out by hand from the tables of the standards, with the default timing (a group
//! membership interval of 260000 ms). Records come at 1000.

ghost use Rattle.std.specs.Prelude.{◌≡◌, [], ◌∷◌, true, false, Some, None, IfSome};
ghost use Rattle.std.specs.FinSet as set;
ghost use Rattle.mq_table.specs.declared.timers.FilterMode.TheVariants.{Include, Exclude};
ghost use Rattle.mq_table.specs.declared.timers.SourceTimer.TheVariants.{Stopped};
ghost use Rattle.mq_table.specs.Group.{forwards_in, vacant};
ghost use Rattle.mq_table.specs.Timing.{membership_interval, older_host_present, other_querier_present, startup_interval, startup_count, last_member_count, last_member_time};
ghost use Rattle.mq_table.specs.Table.{change_of};
ghost use Rattle.mq_table.specs.OlderHosts.{translated_change, older_report, older_leave};
ghost use Rattle.mq_table.specs.Expiry.{expired};
ghost use Rattle.mq_table.specs.Lowering.{lowered_by_query};
ghost use Rattle.mq_table.specs.Examples.{default_timing, until};
ghost use Rattle.mq_examples.specs.Groups.{group_in, group_with, naming, included, excluded, heard_v1, heard_v2, outlived, at_1000, Leaves};

use mq_table::{Kind, OlderVersion, Timing};

/// The records that make the two groups of the next examples: ALLOW {1, 2} at 0; and TO_EX {1, 2} at 0 with ALLOW {1,
/// 4} at 500.
pub fn first_records()
    ensures allowed { Leaves (change_of default_timing 0 vacant Kind.Allow (naming (1 ∷ 2 ∷ []))) included false [] }
    ensures excluded { Leaves (change_of default_timing 0 vacant Kind.ToEx (naming (1 ∷ 2 ∷ [])))
        (group_in (Exclude 260000) ((1, Stopped) ∷ (2, Stopped) ∷ [])) false [] }
    ensures allowed_then { Leaves
        (change_of default_timing 500 (group_in (Exclude 260000) ((1, Stopped) ∷ (2, Stopped) ∷ [])) Kind.Allow (naming (1 ∷ 4 ∷ [])))
        excluded false [] }
    // BLOCK and TO_IN of nothing, and BLOCK of a source, start no group.
    ensures nothing_blocked { Leaves (change_of default_timing 0 vacant Kind.Block (naming (1 ∷ []))) vacant false [] }
    ensures nothing_included { Leaves (change_of default_timing 0 vacant Kind.ToIn (naming [])) vacant false [] }
    // It doesn't matter how often and in which order a record names its sources.
    ensures repeated { naming (2 ∷ 1 ∷ 2 ∷ []) ≡ naming (1 ∷ 2 ∷ []) }
{}

/// A group INCLUDE({1, 2}), both until 260000, at each kind of record with the sources {2, 3}.
pub fn rows_of_include()
    ensures is_in { Leaves (at_1000 included Kind.IsIn (2 ∷ 3 ∷ []))
        (group_in Include ((1, until 260000) ∷ (2, until 261000) ∷ (3, until 261000) ∷ []))
        false [] }
    ensures is_ex { Leaves (at_1000 included Kind.IsEx (2 ∷ 3 ∷ []))
        (group_in (Exclude 261000) ((2, until 260000) ∷ (3, Stopped) ∷ [])) false [] }
    ensures allow { Leaves (at_1000 included Kind.Allow (2 ∷ 3 ∷ []))
        (group_in Include ((1, until 260000) ∷ (2, until 261000) ∷ (3, until 261000) ∷ []))
        false [] }
    ensures block { Leaves (at_1000 included Kind.Block (2 ∷ 3 ∷ []))
        (group_in Include ((1, until 260000) ∷ (2, until 260000) ∷ [])) false (2 ∷ []) }
    ensures to_ex { Leaves (at_1000 included Kind.ToEx (2 ∷ 3 ∷ []))
        (group_in (Exclude 261000) ((2, until 260000) ∷ (3, Stopped) ∷ [])) false (2 ∷ []) }
    ensures to_in { Leaves (at_1000 included Kind.ToIn (2 ∷ 3 ∷ []))
        (group_in Include ((1, until 260000) ∷ (2, until 261000) ∷ (3, until 261000) ∷ []))
        false (1 ∷ []) }
{}

/// A group at each kind of record with the sources {2, 3, 4}. It is EXCLUDE({1, 4}, {2}) until 260000, with 1 and 4
/// until 260500.
pub fn rows_of_exclude()
    ensures is_in { Leaves (at_1000 excluded Kind.IsIn (2 ∷ 3 ∷ 4 ∷ []))
        (group_in (Exclude 260000) ((1, until 260500) ∷ (2, until 261000) ∷ (3, until 261000)
        ∷ (4, until 261000) ∷ []))
        false [] }
    ensures is_ex { Leaves (at_1000 excluded Kind.IsEx (2 ∷ 3 ∷ 4 ∷ []))
        (group_in (Exclude 261000) ((2, Stopped) ∷ (3, until 261000) ∷ (4, until 260500) ∷ []))
        false [] }
    ensures allow { Leaves (at_1000 excluded Kind.Allow (2 ∷ 3 ∷ 4 ∷ []))
        (group_in (Exclude 260000) ((1, until 260500) ∷ (2, until 261000) ∷ (3, until 261000)
        ∷ (4, until 261000) ∷ []))
        false [] }
    ensures block { Leaves (at_1000 excluded Kind.Block (2 ∷ 3 ∷ 4 ∷ []))
        (group_in (Exclude 260000) ((1, until 260500) ∷ (2, Stopped) ∷ (3, until 260000)
        ∷ (4, until 260500) ∷ []))
        false (3 ∷ 4 ∷ []) }
    ensures to_ex { Leaves (at_1000 excluded Kind.ToEx (2 ∷ 3 ∷ 4 ∷ []))
        (group_in (Exclude 261000) ((2, Stopped) ∷ (3, until 260000) ∷ (4, until 260500) ∷ []))
        false (3 ∷ 4 ∷ []) }
    ensures to_in { Leaves (at_1000 excluded Kind.ToIn (2 ∷ 3 ∷ 4 ∷ []))
        (group_in (Exclude 260000) ((1, until 260500) ∷ (2, until 261000) ∷ (3, until 261000)
        ∷ (4, until 261000) ∷ []))
        true (1 ∷ []) }
{}

/// The forwarded sources. In INCLUDE they are the sources held, in EXCLUDE all but the stopped ones, and none of a
/// group that isn't held.
pub fn forwarding()
    ensures held_by_include { forwards_in included 1 ≡ true }
    ensures not_held_by_include { forwards_in included 3 ≡ false }
    ensures running_in_exclude { forwards_in excluded 1 ≡ true }
    ensures stopped_in_exclude { forwards_in excluded 2 ≡ false }
    ensures not_held_by_exclude { forwards_in excluded 3 ≡ true }
    ensures of_no_group { forwards_in vacant 1 ≡ false }
{}

/// The values computed from the defaults, and from other values of the variables.
pub fn intervals()
    ensures membership { membership_interval default_timing ≡ 260000 }
    ensures older_host { older_host_present default_timing ≡ 260000 }
    ensures other_querier { other_querier_present default_timing ≡ 255000 }
    ensures startup { startup_interval default_timing ≡ 31250 }
    ensures startups { startup_count default_timing ≡ 2 }
    ensures last_members { last_member_count default_timing ≡ 2 }
    ensures last_member { last_member_time default_timing ≡ 2000 }
    // A count of its own, whatever the robustness variable.
    ensures own_count { last_member_count (record default_timing { robustness = 3; last_member_query_count = 1 }) ≡ 1 }
    ensures own_time { last_member_time (record default_timing { robustness = 3; last_member_query_count = 1 }) ≡ 1000 }
    // Robustness 3 and a query interval of 60 s.
    ensures adopted { other_querier_present (record default_timing { robustness = 3; query_seconds = 60 })
        ≡ 185000 }
    // The half of 10001 ms is rounded down.
    ensures odd { other_querier_present (record default_timing { response_interval = 10001 })
        ≡ 255000 }
{}

/// Hosts of older versions: a Report at 1000, and further messages at 2000.
pub fn older_hosts()
    ensures report_v2 { older_report OlderVersion.V2 default_timing 1000 vacant ≡ heard_v2 }
    ensures report_v1 { older_report OlderVersion.V1 default_timing 1000 vacant ≡ heard_v1 }

    // In version 2 a Leave asks the group; in IGMPv1 it is ignored, while a Done of MLDv1 counts.
    ensures leave_after_v2 { IfSome (older_leave true false default_timing 2000 heard_v2)
        (λ change. Leaves change heard_v2 true []) }
    ensures leave_after_v1 { older_leave true false default_timing 2000 heard_v1 ≡ None }
    ensures done_after_v1 { IfSome (older_leave false false default_timing 2000 heard_v1)
        (λ change. Leaves change heard_v1 true []) }

    // BLOCK is ignored, and TO_EX comes without its sources.
    ensures block_under_v2 { translated_change true false default_timing 2000 heard_v2 Kind.Block (naming (1 ∷ []))
        ≡ None }
    ensures block_under_v1 { translated_change false false default_timing 2000 heard_v1 Kind.Block (naming (1 ∷ []))
        ≡ None }
    ensures to_ex_under_v2 { IfSome (translated_change true false default_timing 2000 heard_v2 Kind.ToEx (naming (1 ∷ [])))
        (λ change. Leaves change (group_with (Exclude 262000) [] None (Some 261000)) false []) }
    ensures allow_under_v1 { IfSome (translated_change true false default_timing 2000 heard_v1 Kind.Allow (naming (1 ∷ [])))
        (λ change. Leaves change
        (group_with (Exclude 261000) ((1, until 262000) ∷ []) (Some 261000) None) false []) }

    // Once the timer has expired, BLOCK counts again.
    ensures block_later { IfSome
        (translated_change true false default_timing 3000 (group_with (Exclude 261000) [] None (Some 3000))
        Kind.Block (naming (1 ∷ [])))
        (λ change. Leaves change
        (group_with (Exclude 261000) ((1, until 261000) ∷ []) None (Some 3000)) false (1 ∷ [])) }
{}

/// The end of timers: of EXCLUDE({1}, {2}) until 261000 with source 1 until 300000, and of others.
pub fn ends_of_timers()
    ensures nothing_before { expired 260999 outlived ≡ outlived }
    // The group timer's end leaves the source that still runs.
    ensures group_at_its_end { expired 261000 outlived ≡ group_in Include ((1, until 300000) ∷ []) }
    ensures both_one_after_the_other { expired 300000 (group_in Include ((1, until 300000) ∷ []))
        ≡ vacant }
    ensures both_at_once { expired 300000 outlived ≡ vacant }
    // A source of EXCLUDE that expires stays, stopped; a source of INCLUDE is removed.
    ensures source_of_exclude { expired 5000 (group_in (Exclude 9000) ((1, until 5000) ∷ []))
        ≡ group_in (Exclude 9000) ((1, Stopped) ∷ []) }
    ensures source_of_include { expired 5000 (group_in Include ((1, until 5000) ∷ (2, until 5001) ∷ []))
        ≡ group_in Include ((2, until 5001) ∷ []) }
    // A host-present timer stops, and goes with its group.
    ensures hosts_gone { expired 5000 (group_with (Exclude 9000) [] (Some 5000) (Some 5001))
        ≡ group_with (Exclude 9000) [] None (Some 5001) }
    ensures gone_with_the_group { expired 5000 (group_with (Exclude 5000) [] None (Some 9000))
        ≡ vacant }
{}

/// Timers lowered by a specific query of another router at 5000: to 7000, and none with the S flag set.
pub fn queries_received()
    ensures source { lowered_by_query default_timing 5000 false (Some (set.contains (naming (1 ∷ 3 ∷ []))))
        (group_in Include ((1, until 261000) ∷ (2, until 261000) ∷ []))
        ≡ group_in Include ((1, until 7000) ∷ (2, until 261000) ∷ []) }
    ensures source_sooner { lowered_by_query default_timing 5000 false (Some (set.contains (naming (1 ∷ []))))
        (group_in Include ((1, until 6000) ∷ []))
        ≡ group_in Include ((1, until 6000) ∷ []) }
    ensures group { lowered_by_query default_timing 5000 false None outlived
        ≡ group_in (Exclude 7000) ((1, until 300000) ∷ (2, Stopped) ∷ []) }
    ensures group_in_include { lowered_by_query default_timing 5000 false None included ≡ included }
    ensures suppressed { lowered_by_query default_timing 5000 true (Some (set.contains (naming (1 ∷ [])))) included
        ≡ included }
{}

//! Worked examples of the definitions of schedules and the election, each computed by the check. The functions have no
//! effect at run time: each contract is an example.
//!
//! The moments and the queries are worked out by hand from the standards, with the default timing. It has a group
//! membership interval of 260000 ms, and two queries 1000 ms apart for a last member.

ghost use Rattle.std.specs.Prelude.{◌≡◌, [], ◌∷◌, true, false, Some, None, IfSome, map, length, replicate};
ghost use Rattle.mq_table.specs.declared.timers.FilterMode.TheVariants.{Include, Exclude};
ghost use Rattle.mq_table.specs.declared.timers.SourceTimer.TheVariants.{Stopped, Running};
ghost use Rattle.mq_table.specs.Group.{vacant};
ghost use Rattle.mq_table.specs.Table.{change_of};
ghost use Rattle.mq_table.specs.OlderHosts.{older_report, older_leave};
ghost use Rattle.mq_table.specs.Expiry.{expired};
ghost use Rattle.mq_table.specs.Examples.{default_timing, until};
ghost use Rattle.mq_examples.specs.Groups.{group_in, group_with, naming, included, excluded, heard_v2};
ghost use Rattle.mq_sched.specs.Portions.{portions_of};
ghost use Rattle.mq_sched.specs.Schedule.{no_schedule, settled, cleared};
ghost use Rattle.mq_sched.specs.Sending.{GeneralQuery, GroupQuery, SourcesQuery, messages_due, after_change};
ghost use Rattle.mq_sched.specs.Election.{Querier, Other, election_at, heard, loses_role, ticked, general_messages};
ghost use Rattle.mq_sched.specs.Examples.{the_group, scheduled, robust, announced_timing};
ghost use Rattle.mq_examples.specs.Schedules.{scheduled_group, with_schedule, recorded, recorded_at, Sends, blocked, refreshed, after_leave, reported_v2, querier, other_until, announced, counted};
ghost use Rattle.mq_table.specs.Timing.{last_member_count};

use mq_table::{Kind, OlderVersion, Timing};

/// The queries and the state of a querier with INCLUDE({1, 2}), both until 260000. A record with the sources {2, 3}
/// comes at 1000.
pub fn rows_of_include()
    ensures is_in { Sends 1000 (recorded included Kind.IsIn (2 ∷ 3 ∷ []))
        []
        (with_schedule Include ((1, until 260000) ∷ (2, until 261000)
        ∷ (3, until 261000) ∷ []) None None) }
    ensures is_ex { Sends 1000 (recorded included Kind.IsEx (2 ∷ 3 ∷ []))
        [] (with_schedule (Exclude 261000) ((2, until 260000) ∷ (3, Stopped) ∷ []) None None) }
    ensures allow { Sends 1000 (recorded included Kind.Allow (2 ∷ 3 ∷ []))
        []
        (with_schedule Include ((1, until 260000) ∷ (2, until 261000)
        ∷ (3, until 261000) ∷ []) None None) }
    ensures block { Sends 1000 (recorded included Kind.Block (2 ∷ 3 ∷ []))
        (SourcesQuery the_group false (2 ∷ []) ∷ [])
        (with_schedule Include ((1, until 260000) ∷ (2, Running 3000 1) ∷ []) None (Some 2000)) }
    ensures to_ex { Sends 1000 (recorded included Kind.ToEx (2 ∷ 3 ∷ []))
        (SourcesQuery the_group false (2 ∷ []) ∷ [])
        (with_schedule (Exclude 261000) ((2, Running 3000 1)
        ∷ (3, Stopped) ∷ []) None (Some 2000)) }
    ensures to_in { Sends 1000 (recorded included Kind.ToIn (2 ∷ 3 ∷ []))
        (SourcesQuery the_group false (1 ∷ []) ∷ [])
        (with_schedule Include ((1, Running 3000 1) ∷ (2, until 261000)
        ∷ (3, until 261000) ∷ []) None (Some 2000)) }
{}

/// The queries and the state of a querier with EXCLUDE({1, 4}, {2}) until 260000, 1 and 4 until 260500. A record with
/// the sources {2, 3, 4} comes at 1000.
pub fn rows_of_exclude()
    ensures is_in { Sends 1000 (recorded excluded Kind.IsIn (2 ∷ 3 ∷ 4 ∷ []))
        []
        (with_schedule (Exclude 260000) ((1, until 260500) ∷ (2, until 261000) ∷ (3, until 261000)
        ∷ (4, until 261000) ∷ []) None None) }
    ensures is_ex { Sends 1000 (recorded excluded Kind.IsEx (2 ∷ 3 ∷ 4 ∷ []))
        []
        (with_schedule (Exclude 261000) ((2, Stopped) ∷ (3, until 261000)
        ∷ (4, until 260500) ∷ []) None None) }
    ensures allow { Sends 1000 (recorded excluded Kind.Allow (2 ∷ 3 ∷ 4 ∷ []))
        []
        (with_schedule (Exclude 260000) ((1, until 260500) ∷ (2, until 261000) ∷ (3, until 261000)
        ∷ (4, until 261000) ∷ []) None None) }
    ensures block { Sends 1000 (recorded excluded Kind.Block (2 ∷ 3 ∷ 4 ∷ []))
        (SourcesQuery the_group false (3 ∷ 4 ∷ []) ∷ [])
        (with_schedule (Exclude 260000) ((1, until 260500) ∷ (2, Stopped) ∷ (3, Running 3000 1)
        ∷ (4, Running 3000 1) ∷ []) None (Some 2000)) }
    ensures to_ex { Sends 1000 (recorded excluded Kind.ToEx (2 ∷ 3 ∷ 4 ∷ []))
        (SourcesQuery the_group false (3 ∷ 4 ∷ []) ∷ [])
        (with_schedule (Exclude 261000) ((2, Stopped) ∷ (3, Running 3000 1)
        ∷ (4, Running 3000 1) ∷ []) None (Some 2000)) }
    ensures to_in { Sends 1000 (recorded excluded Kind.ToIn (2 ∷ 3 ∷ 4 ∷ []))
        (GroupQuery the_group false ∷ SourcesQuery the_group false (1 ∷ []) ∷ [])
        (with_schedule (Exclude 3000) ((1, Running 3000 1) ∷ (2, until 261000) ∷ (3, until 261000)
        ∷ (4, until 261000) ∷ []) (scheduled 1 2000) (Some 2000)) }
{}

/// INCLUDE({1, 2}), both until 261000: both are blocked at 2000, and 1 is allowed again at 2500. So at 3000 the second
/// sending has 1 with the S flag set and 2 with it clear, and 2 is gone at 4000.
pub fn a_source_refreshed()
    ensures first_sending { Sends 2000 (recorded_at 2000 (with_schedule Include ((1, until 261000)
        ∷ (2, until 261000) ∷ []) None None) Kind.Block (1 ∷ 2 ∷ []))
        (SourcesQuery the_group false (1 ∷ 2 ∷ []) ∷ []) blocked }
    ensures refresh { recorded_at 2500 blocked Kind.Allow (1 ∷ []) ≡ refreshed }
    ensures second_sending { Sends 3000 refreshed
        (SourcesQuery the_group true (1 ∷ []) ∷ SourcesQuery the_group false (2 ∷ []) ∷ [])
        (with_schedule Include ((1, until 262500) ∷ (2, until 4000) ∷ []) None None) }
    ensures end { expired 4000 (group_in Include ((1, until 262500) ∷ (2, until 4000) ∷ []))
        ≡ group_in Include ((1, until 262500) ∷ []) }
    // A second BLOCK of lowered sources asks nothing anew, and leaves what is due.
    ensures blocked_again { recorded_at 2500 blocked Kind.Block (1 ∷ 2 ∷ []) ≡ blocked }
{}

/// Five sources in messages of two: all are blocked and asked for at 2000, and 1 and 4 are allowed again at 2500. Then
/// there are 1024 sources in messages of 366, and 90 in messages of 89.
pub fn a_sending_in_several_messages()
    ensures first { messages_due 2 default_timing 2000 the_group
        (with_schedule Include ((1, Running 4000 2) ∷ (2, Running 4000 2) ∷ (3, Running 4000 2)
        ∷ (4, Running 4000 2) ∷ (5, Running 4000 2) ∷ []) None (Some 2000))
        ≡ SourcesQuery the_group false (1 ∷ 2 ∷ []) ∷ SourcesQuery the_group false (3 ∷ 4 ∷ [])
        ∷ SourcesQuery the_group false (5 ∷ []) ∷ [] }
    ensures second { messages_due 2 default_timing 3000 the_group
        (with_schedule Include ((1, Running 262500 1) ∷ (2, Running 4000 1) ∷ (3, Running 4000 1)
        ∷ (4, Running 262500 1) ∷ (5, Running 4000 1) ∷ []) None (Some 3000))
        ≡ SourcesQuery the_group true (1 ∷ 4 ∷ []) ∷ SourcesQuery the_group false (2 ∷ 3 ∷ [])
        ∷ SourcesQuery the_group false (5 ∷ []) ∷ [] }
    ensures many { map length (portions_of 366 (replicate 1024 1)) ≡ 366 ∷ 366 ∷ 292 ∷ [] }
    ensures one_too_many { map length (portions_of 366 (replicate 367 1)) ≡ 366 ∷ 1 ∷ [] }
    ensures one_too_many_of_mld { map length (portions_of 89 (replicate 90 1)) ≡ 89 ∷ 1 ∷ [] }
    ensures just_one { portions_of 3 (1 ∷ 2 ∷ 3 ∷ []) ≡ (1 ∷ 2 ∷ 3 ∷ []) ∷ [] }
{}

/// A round at 3000, which is sent then, and not before. A late round is sent once, not once for each moment that was
/// missed.
pub fn a_round_in_time_and_late()
    ensures before { Sends 2999 refreshed [] refreshed }
    ensures late { Sends 3900 refreshed
        (SourcesQuery the_group true (1 ∷ []) ∷ SourcesQuery the_group false (2 ∷ []) ∷ [])
        (with_schedule Include ((1, until 262500) ∷ (2, until 4000) ∷ []) None None) }
    // With two sendings to go, a late one moves the next on from its own moment.
    ensures late_with_more_to_go { Sends 5500
        (with_schedule Include ((1, Running 262500 2) ∷ []) None (Some 3000))
        (SourcesQuery the_group true (1 ∷ []) ∷ [])
        (with_schedule Include ((1, Running 262500 1) ∷ []) None (Some 6500)) }
    ensures late_group { Sends 5500 (scheduled_group (group_in (Exclude 262500) []) (scheduled 2 3000) None)
        (GroupQuery the_group true ∷ [])
        (scheduled_group (group_in (Exclude 262500) []) (scheduled 1 6500) None) }
{}

/// A group of IGMPv2 hosts: a Report at 1000 and a Leave at 2000. If it is reported again at 2500, it is asked at 3000
/// with the S flag set. Otherwise it is asked with S clear, and it is gone at 4000.
pub fn a_leave()
    ensures first_sending { IfSome (older_leave true false default_timing 2000 heard_v2) (λ change.
        Sends 2000 (after_change true default_timing 2000 change no_schedule)
        (GroupQuery the_group false ∷ []) after_leave) }
    ensures second_sending { Sends 3000 after_leave
        (GroupQuery the_group false ∷ [])
        (scheduled_group (group_with (Exclude 4000) [] None (Some 261000)) None None) }
    ensures gone { expired 4000 (group_with (Exclude 4000) [] None (Some 261000)) ≡ vacant }
    ensures reported_again { older_report OlderVersion.V2 default_timing 2500 after_leave.group
        ≡ reported_v2.group }
    ensures schedule_stays { settled reported_v2.group after_leave.schedule ≡ reported_v2.schedule }
    ensures suppressed { Sends 3000 reported_v2
        (GroupQuery the_group true ∷ [])
        (scheduled_group (group_with (Exclude 262500) [] None (Some 262500)) None None) }
{}

/// EXCLUDE({}, {}) until 261000, and a source that is blocked at 260000. It takes the group timer, which is not above
/// the last member query time, so nothing is asked. At 261000 the group is gone.
pub fn a_source_blocked_at_the_end()
    ensures nothing_asked { Sends 260000
        (recorded_at 260000 (with_schedule (Exclude 261000) [] None None) Kind.Block (1 ∷ []))
        [] (with_schedule (Exclude 261000) ((1, until 261000) ∷ []) None None) }
    ensures gone { expired 261000 (group_in (Exclude 261000) ((1, until 261000) ∷ [])) ≡ vacant }
{}

/// Dropped queries: of a router that isn't querier, or is it no longer, and of sources and groups that a record or
/// expired timers remove.
pub fn what_is_dropped()
    ensures not_querier { after_change false default_timing 1000
        (change_of default_timing 1000 included Kind.Block (naming (2 ∷ 3 ∷ []))) no_schedule
        ≡ with_schedule Include ((1, until 260000) ∷ (2, until 260000) ∷ []) None None }
    ensures role_lost { cleared
        (with_schedule (Exclude 9000) ((1, Running 4000 1) ∷ (2, Stopped) ∷ []) (scheduled 1 3000) (Some 3000))
        ≡ with_schedule (Exclude 9000) ((1, until 4000) ∷ (2, Stopped) ∷ []) None None }
    // IS_EX removes both sources.
    ensures sources_gone { recorded_at 2500 blocked Kind.IsEx (3 ∷ [])
        ≡ with_schedule (Exclude 262500) ((3, Stopped) ∷ []) None None }
    // The group timer's end leaves the source that is still asked for, and no group query.
    ensures group_included { settled (group_in Include ((1, Running 9000 1) ∷ []))
        (record { group_query = scheduled 1 5000; sources_due = Some 4500 })
        ≡ record { group_query = None; sources_due = Some 4500 } }
{}

/// General queries at startup. With robustness 3 they are at 0, 31250, 62500 and 187500, and with robustness 1 at 0 and
/// 125000.
pub fn startup()
    ensures first { general_messages (robust 3) 0 (election_at (robust 3) 0) ≡ GeneralQuery ∷ [] }
    ensures after_first { ticked (robust 3) 0 (election_at (robust 3) 0)
        ≡ querier (robust 3) 31250 2 }
    ensures not_yet { general_messages (robust 3) 31249 (querier (robust 3) 31250 2) ≡ [] }
    ensures after_second { ticked (robust 3) 31250 (querier (robust 3) 31250 2)
        ≡ querier (robust 3) 62500 1 }
    ensures after_third { ticked (robust 3) 62500 (querier (robust 3) 62500 1)
        ≡ querier (robust 3) 187500 0 }
    ensures after_fourth { ticked (robust 3) 187500 (querier (robust 3) 187500 0)
        ≡ querier (robust 3) 312500 0 }
    ensures robustness_1 { ticked (robust 1) 0 (election_at (robust 1) 0)
        ≡ querier (robust 1) 125000 0 }
    // A late tick sends one query, and the next is due from its own moment.
    ensures late { ticked default_timing 400000 (querier default_timing 31250 1)
        ≡ querier default_timing 525000 0 }
{}

/// A query that a router with the address 9 receives at 5000, between its queries at 0 and 31250. To the address 2 it
/// gives way until 190000 if the query announces robustness 3 and a query interval of 60 s. If the query announces
/// nothing, it gives way until 260000. To the address 200 it does not give way.
pub fn a_query_heard()
    ensures gives_way { heard default_timing 9 5000 2 (announced 3 60) (querier default_timing 31250 1)
        ≡ other_until announced_timing 190000 }
    ensures gives_way_to_an_older_one { heard default_timing 9 5000 2 None (querier default_timing 31250 1)
        ≡ other_until default_timing 260000 }
    ensures loses { loses_role 9 2 (Querier 31250 1) ≡ true }
    ensures stays { heard default_timing 9 5000 200 (announced 3 60) (querier default_timing 31250 1)
        ≡ querier (robust 3) 31250 1 }
    ensures keeps { loses_role 9 200 (Querier 31250 1) ≡ false }
    // Specific queries are as many as the adopted robustness, unless their count is configured.
    ensures adopted_count { last_member_count (heard default_timing 9 5000 200 (announced 3 60) (querier default_timing 31250 1)).timing
        ≡ 3 }
    ensures own_count { last_member_count (heard (counted 1) 9 5000 200 (announced 3 60) (querier (counted 1) 31250 1)).timing ≡ 1 }
    // Zero restores the configured value.
    ensures zero { heard default_timing 9 6000 2 (announced 0 0) (other_until announced_timing 190000)
        ≡ other_until default_timing 261000 }
    // A higher address than the querier's own moves no deadline of another querier.
    ensures higher { heard default_timing 9 6000 200 (announced 2 60) (other_until announced_timing 190000)
        ≡ other_until (record announced_timing { robustness = 2 }) 190000 }
    // It sends nothing, until the other querier's deadline: then at once, and again a query interval later.
    ensures silent { general_messages default_timing 31250 (other_until announced_timing 190000) ≡ [] }
    ensures waits { ticked default_timing 189999 (other_until announced_timing 190000)
        ≡ other_until announced_timing 190000 }
    ensures at_the_end { general_messages default_timing 190000 (other_until announced_timing 190000)
        ≡ GeneralQuery ∷ [] }
    ensures returns_to_its_own { ticked default_timing 190000 (other_until announced_timing 190000)
        ≡ querier default_timing 315000 0 }
{}

//! The verdicts on single records: each row of the tables at a router that isn't querier, each refusal, and records
//! that meet one group.

ghost use Rattle.std.specs.Prelude.{◌≡◌, [], ◌∷◌, ◌++◌, true, false, Some, None};
ghost use Rattle.mq_table.specs.declared.timers.FilterMode.TheVariants.{Include, Exclude};
ghost use Rattle.mq_table.specs.declared.timers.SourceTimer.TheVariants.{Stopped, Running};
ghost use Rattle.mq_table.specs.Examples.{until};
ghost use Rattle.mq_sched.specs.Examples.{the_group, scheduled};
ghost use Rattle.mq_sched.specs.Sending.{GroupQuery, SourcesQuery};
ghost use Rattle.mq_link.specs.Counters.{Applied, Ignored, Refused};
ghost use Rattle.mq_examples.specs.Links.{igmp, limited, host, ipv4, from, octets, listed, listed_due, listed_v2, early, asking, asking_once, listening, saying, Becomes, BecomeAll, Comes};

use mq_link::{Received, Refusal};

/// INCLUDE({1, 2}), both until 260000, at a router that isn't querier, and a record with the sources {2, 3} at 1000. No
/// query is sent, and no timer is lowered.
pub fn lines_of_include_unasked()
    ensures is_in { Becomes (listening 1000) (saying the_group 1 (2 ∷ 3 ∷ []))
        ((the_group, listed Include ((1, until 260000) ∷ (2, until 260000) ∷ [])) ∷ []) Applied []
        ((the_group, listed Include ((1, until 260000) ∷ (2, until 261000) ∷ (3, until 261000) ∷ [])) ∷ []) }
    ensures is_ex { Becomes (listening 1000) (saying the_group 2 (2 ∷ 3 ∷ []))
        ((the_group, listed Include ((1, until 260000) ∷ (2, until 260000) ∷ [])) ∷ []) Applied []
        ((the_group, listed (Exclude 261000) ((2, until 260000) ∷ (3, Stopped) ∷ [])) ∷ []) }
    ensures to_in { Becomes (listening 1000) (saying the_group 3 (2 ∷ 3 ∷ []))
        ((the_group, listed Include ((1, until 260000) ∷ (2, until 260000) ∷ [])) ∷ []) Applied []
        ((the_group, listed Include ((1, until 260000) ∷ (2, until 261000) ∷ (3, until 261000) ∷ [])) ∷ []) }
    ensures to_ex { Becomes (listening 1000) (saying the_group 4 (2 ∷ 3 ∷ []))
        ((the_group, listed Include ((1, until 260000) ∷ (2, until 260000) ∷ [])) ∷ []) Applied []
        ((the_group, listed (Exclude 261000) ((2, until 260000) ∷ (3, Stopped) ∷ [])) ∷ []) }
    ensures allow { Becomes (listening 1000) (saying the_group 5 (2 ∷ 3 ∷ []))
        ((the_group, listed Include ((1, until 260000) ∷ (2, until 260000) ∷ [])) ∷ []) Applied []
        ((the_group, listed Include ((1, until 260000) ∷ (2, until 261000) ∷ (3, until 261000) ∷ [])) ∷ []) }
    ensures block { Becomes (listening 1000) (saying the_group 6 (2 ∷ 3 ∷ []))
        ((the_group, listed Include ((1, until 260000) ∷ (2, until 260000) ∷ [])) ∷ []) Applied []
        ((the_group, listed Include ((1, until 260000) ∷ (2, until 260000) ∷ [])) ∷ []) }
{}

/// EXCLUDE({1, 4}, {2}) until 260000, 1 and 4 until 260500, at the same router, and a record with {2, 3, 4} at 1000.
/// BLOCK and TO_EX give the new source the group timer from before the record.
pub fn lines_of_exclude_unasked()
    ensures is_in { Becomes (listening 1000) (saying the_group 1 (2 ∷ 3 ∷ 4 ∷ []))
        ((the_group, listed (Exclude 260000) ((1, until 260500) ∷ (2, Stopped) ∷ (4, until 260500) ∷ [])) ∷ []) Applied []
        ((
          the_group,
          listed (Exclude 260000) ((1, until 260500) ∷ (2, until 261000) ∷ (3, until 261000)
              ∷ (4, until 261000) ∷ []),
        ) ∷ []) }
    ensures is_ex { Becomes (listening 1000) (saying the_group 2 (2 ∷ 3 ∷ 4 ∷ []))
        ((the_group, listed (Exclude 260000) ((1, until 260500) ∷ (2, Stopped) ∷ (4, until 260500) ∷ [])) ∷ []) Applied []
        ((the_group, listed (Exclude 261000) ((2, Stopped) ∷ (3, until 261000) ∷ (4, until 260500) ∷ [])) ∷ []) }
    ensures to_in { Becomes (listening 1000) (saying the_group 3 (2 ∷ 3 ∷ 4 ∷ []))
        ((the_group, listed (Exclude 260000) ((1, until 260500) ∷ (2, Stopped) ∷ (4, until 260500) ∷ [])) ∷ []) Applied []
        ((
          the_group,
          listed (Exclude 260000) ((1, until 260500) ∷ (2, until 261000) ∷ (3, until 261000)
              ∷ (4, until 261000) ∷ []),
        ) ∷ []) }
    ensures to_ex { Becomes (listening 1000) (saying the_group 4 (2 ∷ 3 ∷ 4 ∷ []))
        ((the_group, listed (Exclude 260000) ((1, until 260500) ∷ (2, Stopped) ∷ (4, until 260500) ∷ [])) ∷ []) Applied []
        ((the_group, listed (Exclude 261000) ((2, Stopped) ∷ (3, until 260000) ∷ (4, until 260500) ∷ [])) ∷ []) }
    ensures allow { Becomes (listening 1000) (saying the_group 5 (2 ∷ 3 ∷ 4 ∷ []))
        ((the_group, listed (Exclude 260000) ((1, until 260500) ∷ (2, Stopped) ∷ (4, until 260500) ∷ [])) ∷ []) Applied []
        ((
          the_group,
          listed (Exclude 260000) ((1, until 260500) ∷ (2, until 261000) ∷ (3, until 261000)
              ∷ (4, until 261000) ∷ []),
        ) ∷ []) }
    ensures block { Becomes (listening 1000) (saying the_group 6 (2 ∷ 3 ∷ 4 ∷ []))
        ((the_group, listed (Exclude 260000) ((1, until 260500) ∷ (2, Stopped) ∷ (4, until 260500) ∷ [])) ∷ []) Applied []
        ((
          the_group,
          listed (Exclude 260000) ((1, until 260500) ∷ (2, Stopped) ∷ (3, until 260000)
              ∷ (4, until 260500) ∷ []),
        ) ∷ []) }
{}

/// Ignored records: unknown types, groups that aren't admitted, and BLOCK while hosts of version 2 are there. TO_EX
/// then counts without its sources.
pub fn records_ignored()
    ensures unknown { Becomes (asking igmp 1000) (saying the_group 9 (1 ∷ [])) [] Ignored [] [] }
    ensures all_systems { Becomes (asking igmp 1000) (saying (ipv4 224 0 0 1) 5 (1 ∷ [])) [] Ignored [] [] }
    ensures unicast { Becomes (asking igmp 1000) (saying (host 1) 5 (1 ∷ [])) [] Ignored [] [] }
    // An unknown type goes before a long list of sources.
    ensures unknown_and_long { Becomes (asking (limited 1024 2 16384 256) 1000) (saying the_group 0 (1 ∷ 2 ∷ 3 ∷ []))
        [] Ignored [] [] }
    // A record without sources for a group that isn't held is applied, and makes no group.
    ensures nothing { Becomes (asking igmp 1000) (saying the_group 6 (1 ∷ [])) [] Applied [] [] }
{}

/// A record that names more sources than a group may have, with repeats counted, and a record that names as many.
pub fn records_too_long()
    ensures long { Becomes (asking (limited 1024 2 16384 256) 1000) (saying the_group 5 (1 ∷ 2 ∷ 3 ∷ []))
        [] (Refused Refusal.Long) [] [] }
    ensures repeats { Becomes (asking (limited 1024 2 16384 256) 1000) (saying the_group 5 (1 ∷ 1 ∷ 1 ∷ []))
        [] (Refused Refusal.Long) [] [] }
    ensures at_the_limit { Becomes (asking (limited 1024 2 16384 256) 1000) (saying the_group 5 (2 ∷ 2 ∷ []))
        [] Applied [] ((the_group, listed Include ((2, until 261000) ∷ [])) ∷ []) }
{}

/// Each limit exceeded alone, and the same record one below.
pub fn records_at_each_limit()
    ensures groups { Becomes (asking (limited 1 366 16384 256) 1000) (saying (ipv4 232 1 1 2) 5 (1 ∷ []))
        ((the_group, listed Include ((1, until 9000) ∷ [])) ∷ []) (Refused Refusal.Groups) []
        ((the_group, listed Include ((1, until 9000) ∷ [])) ∷ []) }
    ensures groups_below { Becomes (asking (limited 2 366 16384 256) 1000) (saying (ipv4 232 1 1 2) 5 (1 ∷ []))
        ((the_group, listed Include ((1, until 9000) ∷ [])) ∷ []) Applied []
        ((the_group, listed Include ((1, until 9000) ∷ []))
        ∷ (ipv4 232 1 1 2, listed Include ((1, until 261000) ∷ [])) ∷ []) }
    ensures group_sources { Becomes (asking (limited 1024 2 16384 256) 1000) (saying the_group 1 (3 ∷ []))
        ((the_group, listed Include ((1, until 9000) ∷ (2, until 9000) ∷ [])) ∷ []) (Refused Refusal.GroupSources) []
        ((the_group, listed Include ((1, until 9000) ∷ (2, until 9000) ∷ [])) ∷ []) }
    ensures group_sources_below { Becomes (asking (limited 1024 3 16384 256) 1000) (saying the_group 1 (3 ∷ []))
        ((the_group, listed Include ((1, until 9000) ∷ (2, until 9000) ∷ [])) ∷ []) Applied []
        ((the_group, listed Include ((1, until 9000) ∷ (2, until 9000) ∷ (3, until 261000) ∷ [])) ∷ []) }
    // A record at the limit isn't kept in part: none of its two sources is.
    ensures sources { Becomes (asking (limited 1024 366 3 256) 1000) (saying (ipv4 232 1 1 2) 5 (2 ∷ 3 ∷ []))
        ((the_group, listed Include ((1, until 9000) ∷ []))
        ∷ (ipv4 232 1 1 2, listed Include ((1, until 9000) ∷ [])) ∷ []) (Refused Refusal.Sources) []
        ((the_group, listed Include ((1, until 9000) ∷ []))
        ∷ (ipv4 232 1 1 2, listed Include ((1, until 9000) ∷ [])) ∷ []) }
    ensures sources_below { Becomes (asking (limited 1024 366 4 256) 1000) (saying (ipv4 232 1 1 2) 5 (2 ∷ 3 ∷ []))
        ((the_group, listed Include ((1, until 9000) ∷ []))
        ∷ (ipv4 232 1 1 2, listed Include ((1, until 9000) ∷ [])) ∷ []) Applied []
        ((the_group, listed Include ((1, until 9000) ∷ []))
        ∷ (ipv4 232 1 1 2, listed Include ((1, until 9000) ∷ (2, until 261000) ∷ (3, until 261000) ∷ [])) ∷ []) }
    // TO_IN in EXCLUDE asks for the group and for its sources: two schedules.
    ensures scheduled { Becomes (asking (limited 1024 366 16384 1) 1000) (saying the_group 3 [])
        ((the_group, listed (Exclude 9000) ((1, until 9000) ∷ [])) ∷ []) (Refused Refusal.Scheduled) []
        ((the_group, listed (Exclude 9000) ((1, until 9000) ∷ [])) ∷ []) }
    ensures scheduled_below { Becomes (asking (limited 1024 366 16384 2) 1000) (saying the_group 3 [])
        ((the_group, listed (Exclude 9000) ((1, until 9000) ∷ [])) ∷ []) Applied
        (GroupQuery the_group false ∷ SourcesQuery the_group false (1 ∷ []) ∷ [])
        ((the_group, listed_due (Exclude 3000) ((1, Running 3000 1) ∷ []) (scheduled 1 2000) (Some 2000)) ∷ []) }
    // With robustness 1 nothing is to go after the one sending, so no schedule is added.
    ensures asked_once { Becomes (asking_once (limited 1024 366 16384 1) 1000) (saying the_group 3 [])
        ((the_group, listed (Exclude 9000) ((1, until 9000) ∷ [])) ∷ []) Applied
        (GroupQuery the_group false ∷ SourcesQuery the_group false (1 ∷ []) ∷ [])
        ((the_group, listed (Exclude 2000) ((1, until 2000) ∷ [])) ∷ []) }
{}

/// Two limits exceeded by one record: the first in the order is named.
pub fn two_limits_passed()
    ensures groups_and_sources { Becomes (asking (limited 1 366 1 256) 1000) (saying (ipv4 232 1 1 2) 5 (1 ∷ []))
        ((the_group, listed Include ((1, until 9000) ∷ [])) ∷ []) (Refused Refusal.Groups) []
        ((the_group, listed Include ((1, until 9000) ∷ [])) ∷ []) }
    ensures group_sources_and_sources { Becomes (asking (limited 1024 2 2 256) 1000) (saying the_group 1 (3 ∷ []))
        ((the_group, listed Include ((1, until 9000) ∷ (2, until 9000) ∷ [])) ∷ []) (Refused Refusal.GroupSources) []
        ((the_group, listed Include ((1, until 9000) ∷ (2, until 9000) ∷ [])) ∷ []) }
    ensures group_sources_and_scheduled { Becomes (asking (limited 1024 1 16384 1) 1000) (saying the_group 3 (2 ∷ []))
        ((the_group, listed (Exclude 9000) ((1, until 9000) ∷ [])) ∷ []) (Refused Refusal.GroupSources) []
        ((the_group, listed (Exclude 9000) ((1, until 9000) ∷ [])) ∷ []) }
    ensures sources_and_scheduled { Becomes (asking (limited 1024 366 2 1) 1000) (saying the_group 3 (2 ∷ []))
        ((the_group, listed Include ((1, until 9000) ∷ []))
        ∷ (ipv4 232 1 1 2, listed_due Include ((1, Running 3000 1) ∷ []) None (Some 2000)) ∷ []) (Refused Refusal.Sources) []
        ((the_group, listed Include ((1, until 9000) ∷ []))
        ∷ (ipv4 232 1 1 2, listed_due Include ((1, Running 3000 1) ∷ []) None (Some 2000)) ∷ []) }
    // An older Report that is refused sets no host-present timer.
    ensures older_report { Comes (limited 1 366 16384 256) (from 1) (octets 8 0x1600f8faef010203) 1000
        (early 0 ((the_group, listed Include ((1, until 9000) ∷ [])) ∷ []))
        (Received.Taken 0 0 1) []
        (early 1000 ((the_group, listed Include ((1, until 9000) ∷ [])) ∷ [])) }
{}

/// A record that is too long is refused for that, before any other refusal. A repeated record is refused for that,
/// unless it is too long.
pub fn two_refusals()
    ensures long_and_groups { Becomes (asking (limited 1 2 16384 256) 1000) (saying (ipv4 232 1 1 2) 5 (1 ∷ 2 ∷ 3 ∷ []))
        ((the_group, listed Include ((1, until 9000) ∷ [])) ∷ []) (Refused Refusal.Long) []
        ((the_group, listed Include ((1, until 9000) ∷ [])) ∷ []) }
    ensures long_and_repeated { BecomeAll (asking (limited 1024 2 16384 256) 1000)
        (saying the_group 6 [] ∷ saying the_group 6 [] ∷ saying the_group 6 [] ∷ saying the_group 6 []
        ∷ saying the_group 5 (1 ∷ 2 ∷ 3 ∷ []) ∷ [])
        ((the_group, listed Include ((1, until 9000) ∷ [])) ∷ [])
        (Applied ∷ Applied ∷ Applied ∷ Applied ∷ Refused Refusal.Long ∷ []) []
        ((the_group, listed Include ((1, until 9000) ∷ [])) ∷ []) }
    ensures repeated_and_group_sources { BecomeAll (asking (limited 1024 2 16384 256) 1000)
        (saying the_group 6 [] ∷ saying the_group 6 [] ∷ saying the_group 6 [] ∷ saying the_group 6 []
        ∷ saying the_group 5 (3 ∷ []) ∷ [])
        ((the_group, listed Include ((1, until 9000) ∷ (2, until 9000) ∷ [])) ∷ [])
        (Applied ∷ Applied ∷ Applied ∷ Applied ∷ Refused Refusal.Repeated ∷ []) []
        ((the_group, listed Include ((1, until 9000) ∷ (2, until 9000) ∷ [])) ∷ []) }
{}

/// Five records of one datagram that meet a group, with one for another group between them: the fifth is refused. A
/// record of an unknown type, or that is too long, doesn't count. A record that finds the group not held doesn't count
/// either.
pub fn a_group_met_five_times()
    ensures with_another_between { BecomeAll (asking igmp 1000)
        (saying the_group 6 [] ∷ saying the_group 6 [] ∷ saying (ipv4 232 1 1 2) 5 (1 ∷ []) ∷ saying the_group 6 []
        ∷ saying the_group 6 [] ∷ saying the_group 6 [] ∷ [])
        ((the_group, listed Include ((1, until 9000) ∷ [])) ∷ [])
        (Applied ∷ Applied ∷ Applied ∷ Applied ∷ Applied ∷ Refused Refusal.Repeated ∷ []) []
        ((the_group, listed Include ((1, until 9000) ∷ []))
        ∷ (ipv4 232 1 1 2, listed Include ((1, until 261000) ∷ [])) ∷ []) }
    ensures with_others_that_stop { BecomeAll (asking (limited 1024 2 16384 256) 1000)
        (saying the_group 9 [] ∷ saying the_group 5 (1 ∷ 2 ∷ 3 ∷ []) ∷ saying the_group 6 [] ∷ saying the_group 6 []
        ∷ saying the_group 6 [] ∷ saying the_group 6 [] ∷ [])
        ((the_group, listed Include ((1, until 9000) ∷ [])) ∷ [])
        (Ignored ∷ Refused Refusal.Long ∷ Applied ∷ Applied ∷ Applied ∷ Applied ∷ []) []
        ((the_group, listed Include ((1, until 9000) ∷ [])) ∷ []) }
    // A record that an older host mutes counts, and so does a record that exceeds a limit.
    ensures with_others_ignored { BecomeAll (asking igmp 1000)
        (saying the_group 6 (1 ∷ []) ∷ saying the_group 6 (1 ∷ []) ∷ saying the_group 6 (1 ∷ []) ∷ saying the_group 6 (1 ∷ [])
        ∷ saying the_group 6 (1 ∷ []) ∷ [])
        ((the_group, listed_v2 9000 9000 None) ∷ [])
        (Ignored ∷ Ignored ∷ Ignored ∷ Ignored ∷ Refused Refusal.Repeated ∷ []) []
        ((the_group, listed_v2 9000 9000 None) ∷ []) }
    ensures with_others_refused { BecomeAll (asking (limited 1024 2 16384 256) 1000)
        (saying the_group 1 (3 ∷ []) ∷ saying the_group 1 (3 ∷ []) ∷ saying the_group 1 (3 ∷ []) ∷ saying the_group 1 (3 ∷ [])
        ∷ saying the_group 1 (3 ∷ []) ∷ [])
        ((the_group, listed Include ((1, until 9000) ∷ (2, until 9000) ∷ [])) ∷ [])
        (Refused Refusal.GroupSources ∷ Refused Refusal.GroupSources ∷ Refused Refusal.GroupSources
        ∷ Refused Refusal.GroupSources ∷ Refused Refusal.Repeated ∷ []) []
        ((the_group, listed Include ((1, until 9000) ∷ (2, until 9000) ∷ [])) ∷ []) }
    ensures made_by_the_first { BecomeAll (asking igmp 1000)
        (saying the_group 5 (1 ∷ []) ∷ saying the_group 6 [] ∷ saying the_group 6 [] ∷ saying the_group 6 []
        ∷ saying the_group 6 [] ∷ saying the_group 6 [] ∷ [])
        []
        (Applied ∷ Applied ∷ Applied ∷ Applied ∷ Applied ∷ Refused Refusal.Repeated ∷ []) []
        ((the_group, listed Include ((1, until 261000) ∷ [])) ∷ []) }
{}

/// A sending, which also names the sources that still wait from an earlier record.
pub fn a_sending_names_those_that_wait()
    ensures { Becomes (asking igmp 2500) (saying the_group 6 (2 ∷ []))
        ((the_group, listed_due Include ((1, Running 4000 1) ∷ (2, until 261000) ∷ []) None (Some 3000)) ∷ []) Applied
        (SourcesQuery the_group false (1 ∷ 2 ∷ []) ∷ [])
        ((the_group, listed_due Include ((1, until 4000) ∷ (2, Running 4500 1) ∷ []) None (Some 3500)) ∷ []) }
{}

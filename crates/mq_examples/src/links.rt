//! Worked examples of the definitions, each computed by the check. The functions have no effect at run time: each
//! contract is an example.
//!
//! Moments, queries and states are worked out by hand from the standards, with the default timing. It has a group
//! membership interval of 260000 ms, and two queries 1000 ms apart for a last member. The link belongs to the router
//! 10.0.0.9. `early` is a link that has sent its first general query at 0.
//!
//! - The verdicts on single records: `records`.
//! - Sendings in several messages: `sendings`.
//! - The differences of the families, and bytes: `families`.
ghost use Rattle.std.specs.Prelude.{◌≡◌, ◌+◌, [], ◌∷◌, true, false, Some, None};
ghost use Rattle.mq_table.specs.declared.timers.FilterMode.TheVariants.{Include, Exclude};
ghost use Rattle.mq_table.specs.declared.timers.SourceTimer.TheVariants.{Stopped, Running};
ghost use Rattle.mq_table.specs.Examples.{default_timing, until};
ghost use Rattle.mq_sched.specs.Examples.{the_group, scheduled, announced_timing, robust};
ghost use Rattle.mq_sched.specs.Sending.{GeneralQuery, GroupQuery, SourcesQuery};
ghost use Rattle.mq_link.specs.Counters.{no_counts, count_answers};
ghost use Rattle.mq_link.specs.State.{link_at};
ghost use Rattle.mq_examples.specs.Links.{igmp, limited, source_specific_igmp, host, ipv4, from, octets, listed, listed_due, listed_v2, listed_v1, early, late, after, as_link, querier, other, with_full_counters, TicksTo, Comes, CountsTo, NextIs, Forwards};
ghost use Rattle.mq_link.specs.Run.{Datagram, Tick};
ghost use Rattle.mq_examples.specs.Named.{Names};

use mq_link::{DropReason, MessageKind, Received, Refusal};

pub mod families;
pub mod records;
pub mod sendings;

/// General queries at the start, a startup interval later, and then a query interval apart; a late tick sends one.
pub fn general_queries()
    ensures begins { link_at igmp 0 ≡ as_link (after 0 (querier 0 2) []) }
    ensures at_the_start { TicksTo igmp 0 (after 0 (querier 0 2) []) (GeneralQuery ∷ []) (early 0 []) }
    ensures between { TicksTo igmp 31249 (early 0 []) [] (early 31249 []) }
    ensures second { TicksTo igmp 31250 (early 0 []) (GeneralQuery ∷ []) (late 31250 156250 []) }
    ensures third { TicksTo igmp 156250 (late 31250 156250 []) (GeneralQuery ∷ []) (late 156250 281250 []) }
    ensures missed { TicksTo igmp 500000 (late 31250 156250 []) (GeneralQuery ∷ []) (late 500000 625000 []) }
    // A moment before the last one counts as the last one.
    ensures back { TicksTo igmp 400 (early 1000 []) [] (early 1000 []) }
{}

/// A source of 232.1.1.1, which a host allows at 1000 and blocks at 2000. It is asked for at 2000 and 3000, and the
/// group is gone at 4000.
pub fn a_source_allowed_and_blocked()
    ensures allowed { Comes igmp (from 1) (octets 20 0x2200e5f90000000105000001e80101010a000001) 1000 (early 0 [])
        (Received.Taken 1 0 0) []
        (early 1000 ((the_group, listed Include ((host 1, until 261000) ∷ [])) ∷ [])) }
    ensures blocked { Comes igmp (from 1) (octets 20 0x2200e4f90000000106000001e80101010a000001) 2000
        (early 1000 ((the_group, listed Include ((host 1, until 261000) ∷ [])) ∷ []))
        (Received.Taken 1 0 0) (SourcesQuery the_group false (host 1 ∷ []) ∷ [])
        (early 2000 ((the_group, listed_due Include ((host 1, Running 4000 1) ∷ []) None (Some 3000)) ∷ [])) }
    ensures asked_again { TicksTo igmp 3000
        (early 2000 ((the_group, listed_due Include ((host 1, Running 4000 1) ∷ []) None (Some 3000)) ∷ []))
        (SourcesQuery the_group false (host 1 ∷ []) ∷ [])
        (early 3000 ((the_group, listed Include ((host 1, until 4000) ∷ [])) ∷ [])) }
    ensures gone { TicksTo igmp 4000
        (early 3000 ((the_group, listed Include ((host 1, until 4000) ∷ [])) ∷ [])) [] (early 4000 []) }
    // A late tick finds the group gone, and sends nothing for it.
    ensures gone_late { TicksTo igmp 5000
        (early 2000 ((the_group, listed_due Include ((host 1, Running 4000 1) ∷ []) None (Some 3000)) ∷ []))
        [] (early 5000 []) }
{}

/// A group 239.1.2.3, which a host of version 2 reports at 1000 and leaves at 2000. The group is asked for at 2000 and
/// 3000, and it is gone at 4000. If it is reported again at 2500, it is asked for at 3000 with S set, and runs until
/// 262500. If a host of version 1 reported it, the Leave is ignored.
pub fn older_hosts()
    ensures reported { Comes igmp (from 1) (octets 8 0x1600f8faef010203) 1000 (early 0 [])
        (Received.Taken 1 0 0) []
        (early 1000 ((ipv4 239 1 2 3, listed_v2 261000 261000 None) ∷ [])) }
    ensures left { Comes igmp (from 1) (octets 8 0x1700f7faef010203) 2000
        (early 1000 ((ipv4 239 1 2 3, listed_v2 261000 261000 None) ∷ []))
        (Received.Taken 1 0 0) (GroupQuery (ipv4 239 1 2 3) false ∷ [])
        (early 2000 ((ipv4 239 1 2 3, listed_v2 4000 261000 (scheduled 1 3000)) ∷ [])) }
    ensures asked_again { TicksTo igmp 3000
        (early 2000 ((ipv4 239 1 2 3, listed_v2 4000 261000 (scheduled 1 3000)) ∷ []))
        (GroupQuery (ipv4 239 1 2 3) false ∷ [])
        (early 3000 ((ipv4 239 1 2 3, listed_v2 4000 261000 None) ∷ [])) }
    ensures gone { TicksTo igmp 4000
        (early 3000 ((ipv4 239 1 2 3, listed_v2 4000 261000 None) ∷ [])) [] (early 4000 []) }
    ensures reported_again { Comes igmp (from 1) (octets 8 0x1600f8faef010203) 2500
        (early 2000 ((ipv4 239 1 2 3, listed_v2 4000 261000 (scheduled 1 3000)) ∷ []))
        (Received.Taken 1 0 0) []
        (early 2500 ((ipv4 239 1 2 3, listed_v2 262500 262500 (scheduled 1 3000)) ∷ [])) }
    ensures suppressed { TicksTo igmp 3000
        (early 2500 ((ipv4 239 1 2 3, listed_v2 262500 262500 (scheduled 1 3000)) ∷ []))
        (GroupQuery (ipv4 239 1 2 3) true ∷ [])
        (early 3000 ((ipv4 239 1 2 3, listed_v2 262500 262500 None) ∷ [])) }
    ensures reported_v1 { Comes igmp (from 1) (octets 8 0x1200fcfaef010203) 1000 (early 0 [])
        (Received.Taken 1 0 0) []
        (early 1000 ((ipv4 239 1 2 3, listed_v1 261000 261000) ∷ [])) }
    ensures muted { Comes igmp (from 1) (octets 8 0x1700f7faef010203) 2000
        (early 1000 ((ipv4 239 1 2 3, listed_v1 261000 261000) ∷ []))
        (Received.Taken 0 1 0) []
        (early 2000 ((ipv4 239 1 2 3, listed_v1 261000 261000) ∷ [])) }
{}

/// A second group, refused with one group at most. Nothing but the counters changes.
pub fn a_second_group()
    ensures { Comes (limited 1 366 16384 256) (from 1) (octets 20 0x2200e5f80000000105000001e80101020a000001) 2000
        (early 1000 ((the_group, listed Include ((host 1, until 261000) ∷ [])) ∷ []))
        (Received.Taken 0 0 1) []
        (early 2000 ((the_group, listed Include ((host 1, until 261000) ∷ [])) ∷ [])) }
{}

/// Two sources a group at most: three are too long, two are taken, and a third one is too many.
pub fn two_sources_a_group()
    ensures long { Comes (limited 1024 2 16384 256) (from 1)
        (octets 28 0x2200d1f20000000105000003e80101010a0000010a0000020a000003) 1000 (early 0 [])
        (Received.Taken 0 0 1) [] (early 1000 []) }
    ensures two { Comes (limited 1024 2 16384 256) (from 1)
        (octets 24 0x2200dbf60000000105000002e80101010a0000010a000002) 2000 (early 1000 [])
        (Received.Taken 1 0 0) []
        (early 2000 ((the_group, listed Include ((host 1, until 262000) ∷ (host 2, until 262000) ∷ [])) ∷ [])) }
    ensures third { Comes (limited 1024 2 16384 256) (from 1) (octets 20 0x2200e9f70000000101000001e80101010a000003) 3000
        (early 2000 ((the_group, listed Include ((host 1, until 262000) ∷ (host 2, until 262000) ∷ [])) ∷ []))
        (Received.Taken 0 0 1) []
        (early 3000 ((the_group, listed Include ((host 1, until 262000) ∷ (host 2, until 262000) ∷ [])) ∷ [])) }
{}

/// Six records for one group that is held, which block nothing: four are applied, and two refused.
pub fn a_group_met_six_times()
    ensures { Comes igmp (from 1)
        (octets 56 0x220043e80000000606000000e801010106000000e801010106000000e801010106000000e801010106000000e801010106000000e8010101)
        2000
        (early 1000 ((the_group, listed Include ((host 1, until 261000) ∷ [])) ∷ []))
        (Received.Taken 4 0 2) []
        (early 2000 ((the_group, listed Include ((host 1, until 261000) ∷ [])) ∷ [])) }
{}

/// A query from 10.0.0.2 at 5000, which announces robustness 3 and a query interval of 60 s. The router isn't querier
/// until 190000, sends nothing at 31250, and sends general queries again at 190000 and 315000.
pub fn another_querier()
    ensures heard { Comes igmp (from 2) (octets 12 0x1164eb5f00000000033c0000) 5000 (early 0 [])
        (Received.Taken 0 0 0) [] (after 5000 (other (host 2) 190000 announced_timing) []) }
    ensures silent { TicksTo igmp 31250 (after 5000 (other (host 2) 190000 announced_timing) [])
        [] (after 31250 (other (host 2) 190000 announced_timing) []) }
    ensures returns { TicksTo igmp 190000 (after 31250 (other (host 2) 190000 announced_timing) [])
        (GeneralQuery ∷ []) (late 190000 315000 []) }
    ensures goes_on { TicksTo igmp 315000 (late 190000 315000 []) (GeneralQuery ∷ []) (late 315000 440000 []) }
    // All that was to go is dropped with the role, and no timer.
    ensures dropped { Comes igmp (from 2) (octets 12 0x1164eb5f00000000033c0000) 2500
        (early 2000 ((the_group, listed_due Include ((host 1, Running 4000 1) ∷ []) None (Some 3000)) ∷ []))
        (Received.Taken 0 0 0) []
        (after 2500 (other (host 2) 187500 announced_timing) ((the_group, listed Include ((host 1, until 4000) ∷ [])) ∷ [])) }
{}

/// A source of EXCLUDE({}, {}) that is blocked at 260000. It takes the group timer, which is not above the last member
/// query time. So nothing is asked, and the group is gone at 261000.
pub fn a_source_blocked_at_the_end()
    ensures excluded { Comes igmp (from 1) (octets 16 0x2200f0fb0000000104000000e8010101) 1000 (early 0 [])
        (Received.Taken 1 0 0) [] (early 1000 ((the_group, listed (Exclude 261000) []) ∷ [])) }
    ensures blocked { Comes igmp (from 1) (octets 20 0x2200e4f90000000106000001e80101010a000001) 260000
        (late 156250 281250 ((the_group, listed (Exclude 261000) []) ∷ []))
        (Received.Taken 1 0 0) []
        (late 260000 281250 ((the_group, listed (Exclude 261000) ((host 1, until 261000) ∷ [])) ∷ [])) }
    ensures gone { TicksTo igmp 261000
        (late 260000 281250 ((the_group, listed (Exclude 261000) ((host 1, until 261000) ∷ [])) ∷ []))
        [] (late 261000 281250 []) }
{}

/// A source that outlives the group timer, and stays in INCLUDE. The number of ticks makes no difference to it.
pub fn a_source_outlives_its_group()
    ensures excluded { Comes igmp (from 1) (octets 24 0x2200dcf60000000104000002e80101010a0000010a000002) 1000 (early 0 [])
        (Received.Taken 1 0 0) []
        (early 1000 ((the_group, listed (Exclude 261000) ((host 1, Stopped) ∷ (host 2, Stopped) ∷ [])) ∷ [])) }
    ensures allowed { Comes igmp (from 1) (octets 20 0x2200e5f90000000105000001e80101010a000001) 40000
        (late 31250 156250 ((the_group, listed (Exclude 261000) ((host 1, Stopped) ∷ (host 2, Stopped) ∷ [])) ∷ []))
        (Received.Taken 1 0 0) []
        (late 40000 156250 ((the_group, listed (Exclude 261000) ((host 1, until 300000) ∷ (host 2, Stopped) ∷ [])) ∷ [])) }
    ensures included { TicksTo igmp 261000
        (late 156250 281250 ((the_group, listed (Exclude 261000) ((host 1, until 300000) ∷ (host 2, Stopped) ∷ [])) ∷ []))
        [] (late 261000 281250 ((the_group, listed Include ((host 1, until 300000) ∷ [])) ∷ [])) }
    ensures gone { TicksTo igmp 300000
        (late 281250 406250 ((the_group, listed Include ((host 1, until 300000) ∷ [])) ∷ [])) [] (late 300000 406250 []) }
    ensures gone_at_once { TicksTo igmp 300000
        (late 281250 406250 ((the_group, listed (Exclude 261000) ((host 1, until 300000) ∷ (host 2, Stopped) ∷ [])) ∷ []))
        [] (late 300000 406250 []) }
{}

/// A BLOCK for each of two groups in one datagram, with one schedule at most. The first is applied and asked for. The
/// second is refused and does not change its group.
pub fn one_schedule()
    ensures both_blocked { Comes (limited 1024 366 16384 1) (from 1)
        (octets 32 0x2200ebf20000000206000001e80101010a00000106000001e80101020a000001) 2000
        (early 1000 ((the_group, listed Include ((host 1, until 261000) ∷ []))
        ∷ (ipv4 232 1 1 2, listed Include ((host 1, until 261000) ∷ [])) ∷ []))
        (Received.Taken 1 0 1) (SourcesQuery the_group false (host 1 ∷ []) ∷ [])
        (early 2000 ((the_group, listed_due Include ((host 1, Running 4000 1) ∷ []) None (Some 3000))
        ∷ (ipv4 232 1 1 2, listed Include ((host 1, until 261000) ∷ [])) ∷ [])) }
    ensures asked_again { TicksTo (limited 1024 366 16384 1) 3000
        (early 2000 ((the_group, listed_due Include ((host 1, Running 4000 1) ∷ []) None (Some 3000))
        ∷ (ipv4 232 1 1 2, listed Include ((host 1, until 261000) ∷ [])) ∷ []))
        (SourcesQuery the_group false (host 1 ∷ []) ∷ [])
        (early 3000 ((the_group, listed Include ((host 1, until 4000) ∷ []))
        ∷ (ipv4 232 1 1 2, listed Include ((host 1, until 261000) ∷ [])) ∷ [])) }
{}

/// Two sources that are blocked at 2000, and one allowed again at 2500. At 3000 that one is asked for with S set, then
/// the other with S clear. At 4000 the other is gone.
pub fn a_source_refreshed()
    ensures blocked { Comes igmp (from 1) (octets 24 0x2200daf60000000106000002e80101010a0000010a000002) 2000
        (early 1000 ((the_group, listed Include ((host 1, until 261000) ∷ (host 2, until 261000) ∷ [])) ∷ []))
        (Received.Taken 1 0 0) (SourcesQuery the_group false (host 1 ∷ host 2 ∷ []) ∷ [])
        (early 2000 ((the_group, listed_due Include ((host 1, Running 4000 1) ∷ (host 2, Running 4000 1) ∷ []) None (Some 3000)) ∷ [])) }
    ensures refreshed { Comes igmp (from 1) (octets 20 0x2200e5f90000000105000001e80101010a000001) 2500
        (early 2000 ((the_group, listed_due Include ((host 1, Running 4000 1) ∷ (host 2, Running 4000 1) ∷ []) None (Some 3000)) ∷ []))
        (Received.Taken 1 0 0) []
        (early 2500 ((the_group, listed_due Include ((host 1, Running 262500 1) ∷ (host 2, Running 4000 1) ∷ []) None (Some 3000)) ∷ [])) }
    ensures asked_again { TicksTo igmp 3000
        (early 2500 ((the_group, listed_due Include ((host 1, Running 262500 1) ∷ (host 2, Running 4000 1) ∷ []) None (Some 3000)) ∷ []))
        (SourcesQuery the_group true (host 1 ∷ []) ∷ SourcesQuery the_group false (host 2 ∷ []) ∷ [])
        (early 3000 ((the_group, listed Include ((host 1, until 262500) ∷ (host 2, until 4000) ∷ [])) ∷ [])) }
    ensures one_left { TicksTo igmp 4000
        (early 3000 ((the_group, listed Include ((host 1, until 262500) ∷ (host 2, until 4000) ∷ [])) ∷ []))
        [] (early 4000 ((the_group, listed Include ((host 1, until 262500) ∷ [])) ∷ [])) }
{}

/// A query of 10.0.0.2 for the source, which takes the role until 260000 and lowers the source to 7000. If it announces
/// robustness 3, it takes the role until 385000, and lowers the source to 8000: by three queries. A query of 10.0.0.200
/// with S set takes nothing and lowers nothing.
pub fn a_specific_query_heard()
    ensures lower { Comes igmp (from 2) (octets 16 0x110af973e8010101027d00010a000001) 5000
        (early 1000 ((the_group, listed Include ((host 1, until 261000) ∷ [])) ∷ []))
        (Received.Taken 0 0 0) []
        (after 5000 (other (host 2) 260000 default_timing) ((the_group, listed Include ((host 1, until 7000) ∷ [])) ∷ [])) }
    ensures gone { TicksTo igmp 7000
        (after 5000 (other (host 2) 260000 default_timing) ((the_group, listed Include ((host 1, until 7000) ∷ [])) ∷ []))
        [] (after 7000 (other (host 2) 260000 default_timing) []) }
    ensures announcing { Comes igmp (from 2) (octets 16 0x110af873e8010101037d00010a000001) 5000
        (early 1000 ((the_group, listed Include ((host 1, until 261000) ∷ [])) ∷ []))
        (Received.Taken 0 0 0) []
        (after 5000 (other (host 2) 385000 (robust 3)) ((the_group, listed Include ((host 1, until 8000) ∷ [])) ∷ [])) }
    ensures higher { Comes igmp (from 200) (octets 16 0x110af173e80101010a7d00010a000001) 5000
        (early 1000 ((the_group, listed Include ((host 1, until 261000) ∷ [])) ∷ []))
        (Received.Taken 0 0 0) []
        (early 5000 ((the_group, listed Include ((host 1, until 261000) ∷ [])) ∷ [])) }
{}

/// The source-specific range 232.0.0.0/8, if it is kept: older messages and TO_EX for its groups are ignored. For any
/// other group nothing is different.
pub fn the_source_specific_range()
    ensures reported { Comes source_specific_igmp (from 1) (octets 8 0x160000fde8010101) 1000 (early 0 [])
        (Received.Taken 0 1 0) [] (early 1000 []) }
    ensures to_ex { Comes source_specific_igmp (from 1) (octets 16 0x2200f0fb0000000104000000e8010101) 1000 (early 0 [])
        (Received.Taken 0 1 0) [] (early 1000 []) }
    ensures left { Comes source_specific_igmp (from 1) (octets 8 0x1700fffce8010101) 2000
        (early 1000 ((the_group, listed Include ((host 1, until 261000) ∷ [])) ∷ []))
        (Received.Taken 0 1 0) []
        (early 2000 ((the_group, listed Include ((host 1, until 261000) ∷ [])) ∷ [])) }
    ensures left_without_the_flag { Comes igmp (from 1) (octets 8 0x1700fffce8010101) 2000
        (early 1000 ((the_group, listed Include ((host 1, until 261000) ∷ [])) ∷ []))
        (Received.Taken 1 0 0) (SourcesQuery the_group false (host 1 ∷ []) ∷ [])
        (early 2000 ((the_group, listed_due Include ((host 1, Running 4000 1) ∷ []) None (Some 3000)) ∷ [])) }
    ensures another_group { Comes source_specific_igmp (from 1) (octets 8 0x1600f8faef010203) 1000 (early 0 [])
        (Received.Taken 1 0 0) []
        (early 1000 ((ipv4 239 1 2 3, listed_v2 261000 261000 None) ∷ [])) }
    ensures another_group_left { Comes source_specific_igmp (from 1) (octets 8 0x1700f7faef010203) 2000
        (early 1000 ((ipv4 239 1 2 3, listed_v2 261000 261000 None) ∷ []))
        (Received.Taken 1 0 0) (GroupQuery (ipv4 239 1 2 3) false ∷ [])
        (early 2000 ((ipv4 239 1 2 3, listed_v2 4000 261000 (scheduled 1 3000)) ∷ [])) }
{}

/// A datagram that is dropped is a tick: here it ends a timer.
pub fn a_datagram_dropped()
    ensures cut { Comes igmp (from 1) (octets 16 0x2200effa0000000105000001e8010101) 4000
        (early 3000 ((the_group, listed Include ((host 1, until 4000) ∷ [])) ∷ []))
        (Received.Dropped DropReason.Truncated) [] (early 4000 []) }
    // A query of a length that no version has.
    ensures length { Comes igmp (from 2) (octets 10 0x1164ee9b000000000000) 1000 (early 0 [])
        (Received.Dropped DropReason.QueryLength) [] (early 1000 []) }
{}

/// The counts of datagrams, messages and records. They are of datagrams received, dropped in all and dropped for a
/// reason, of messages of a kind, and of records applied, ignored, refused, and refused by a name. A counter at the
/// greatest u64 stays.
pub fn what_is_counted()
    ensures repeated { CountsTo igmp (from 1)
        (octets 56 0x220043e80000000606000000e801010106000000e801010106000000e801010106000000e801010106000000e801010106000000e8010101)
        2000
        (early 1000 ((the_group, listed Include ((host 1, until 261000) ∷ [])) ∷ []))
        DropReason.Truncated MessageKind.Report Refusal.Repeated
        (1 ∷ 0 ∷ 0 ∷ 1 ∷ 4 ∷ 0 ∷ 2 ∷ 2 ∷ []) }
    ensures cut { CountsTo igmp (from 1) (octets 16 0x2200effa0000000105000001e8010101) 1000 (early 0 [])
        DropReason.Truncated MessageKind.Report Refusal.Repeated
        (1 ∷ 1 ∷ 1 ∷ 0 ∷ 0 ∷ 0 ∷ 0 ∷ 0 ∷ []) }
    // A query that is dropped is still counted by kind.
    ensures own { CountsTo igmp (from 9) (octets 12 0x1164eb5f00000000033c0000) 5000 (early 0 [])
        DropReason.OwnOrZero MessageKind.Query Refusal.Long
        (1 ∷ 1 ∷ 1 ∷ 1 ∷ 0 ∷ 0 ∷ 0 ∷ 0 ∷ []) }
    ensures older { CountsTo igmp (from 2) (octets 8 0x1100eeff00000000) 5000 (early 0 [])
        DropReason.OlderQuery MessageKind.OlderQuery Refusal.Long
        (1 ∷ 1 ∷ 1 ∷ 1 ∷ 0 ∷ 0 ∷ 0 ∷ 0 ∷ []) }
    ensures reported { CountsTo igmp (from 1) (octets 8 0x1600f8faef010203) 1000 (early 0 [])
        DropReason.BadGroup MessageKind.OlderReport Refusal.Groups
        (1 ∷ 0 ∷ 0 ∷ 1 ∷ 1 ∷ 0 ∷ 0 ∷ 0 ∷ []) }
    ensures left { CountsTo source_specific_igmp (from 1) (octets 8 0x1700fffce8010101) 2000 (early 1000 [])
        DropReason.BadGroup MessageKind.Leave Refusal.Groups
        (1 ∷ 0 ∷ 0 ∷ 1 ∷ 0 ∷ 1 ∷ 0 ∷ 0 ∷ []) }
    ensures full { CountsTo igmp (from 1) (octets 16 0x2200effa0000000105000001e8010101) 1000 (with_full_counters (early 0 []))
        DropReason.Truncated MessageKind.Report Refusal.Repeated
        (18446744073709551615 ∷ 18446744073709551615 ∷ 1 ∷ 0 ∷ 0 ∷ 0 ∷ 0 ∷ 0 ∷ []) }
{}

/// An outlet that took the first of two queries: one is sent, and one isn't.
pub fn what_the_outlet_answered()
    ensures { count_answers (true ∷ false ∷ []) no_counts ≡ record no_counts { sent = 1; unsent = 1 } }
{}

/// The next moment at which a tick has something to do: the earliest of all deadlines and due moments, of any kind. A
/// stopped source has none.
pub fn the_next_moment()
    ensures general { NextIs (early 0 []) 31250 }
    ensures other_querier { NextIs (after 0 (other (host 2) 260000 default_timing) []) 260000 }
    ensures group { NextIs (early 0 ((the_group, listed (Exclude 20000) []) ∷ [])) 20000 }
    ensures source { NextIs (early 0 ((the_group, listed Include ((1, until 30000) ∷ (2, until 20000) ∷ [])) ∷ [])) 20000 }
    ensures version_one { NextIs (early 0 ((the_group, listed_v1 261000 20000) ∷ [])) 20000 }
    ensures version_two { NextIs (early 0 ((the_group, listed_v2 261000 20000 None) ∷ [])) 20000 }
    ensures group_query { NextIs (early 0 ((the_group, listed_v2 24000 261000 (Some record { sendings = 1; due = 20000 })) ∷ [])) 20000 }
    ensures sources_query { NextIs (early 0 ((the_group, listed_due Include ((1, Running 24000 1) ∷ []) None (Some 20000)) ∷ [])) 20000 }
    ensures stopped { NextIs (early 0 ((the_group, listed (Exclude 40000) ((1, Stopped) ∷ [])) ∷ [])) 31250 }
    ensures of_two { NextIs (early 0 ((the_group, listed (Exclude 30000) []) ∷ (the_group + 1, listed (Exclude 20000) []) ∷ [])) 20000 }
{}

/// The forwarded sources. In INCLUDE they are the sources that are held, in EXCLUDE all but the stopped ones, and none
/// in a group that isn't held.
pub fn what_is_forwarded()
    ensures held { Forwards (early 0 ((the_group, listed Include ((1, until 20000) ∷ [])) ∷ [])) the_group 1 true }
    ensures unnamed { Forwards (early 0 ((the_group, listed Include ((1, until 20000) ∷ [])) ∷ [])) the_group 2 false }
    ensures running { Forwards (early 0 ((the_group, listed (Exclude 40000) ((1, until 20000) ∷ (2, Stopped) ∷ [])) ∷ [])) the_group 1 true }
    ensures stopped { Forwards (early 0 ((the_group, listed (Exclude 40000) ((1, until 20000) ∷ (2, Stopped) ∷ [])) ∷ [])) the_group 2 false }
    ensures unexcluded { Forwards (early 0 ((the_group, listed (Exclude 40000) ((1, until 20000) ∷ (2, Stopped) ∷ [])) ∷ [])) the_group 3 true }
    ensures unheld { Forwards (early 0 ((the_group, listed (Exclude 40000) []) ∷ [])) (the_group + 1) 1 false }
{}

/// The groups that are named: a group that a host joins, and not a group whose timers are set anew. A source of INCLUDE
/// that is blocked is asked for, and its group is named at the tick that ends it. So is that of a source of EXCLUDE.
pub fn what_is_named()
    ensures joined { Names igmp (Datagram (from 1) (octets 20 0x2200e5f90000000105000001e80101010a000001) 1000)
        (early 0 []) the_group true }
    ensures joined_again { Names igmp (Datagram (from 1) (octets 20 0x2200e5f90000000105000001e80101010a000001) 1500)
        (early 1000 ((the_group, listed Include ((host 1, until 261000) ∷ [])) ∷ [])) the_group false }
    ensures blocked { Names igmp (Datagram (from 1) (octets 20 0x2200e4f90000000106000001e80101010a000001) 2000)
        (early 1000 ((the_group, listed Include ((host 1, until 261000) ∷ [])) ∷ [])) the_group false }
    ensures gone { Names igmp (Tick 4000)
        (early 3000 ((the_group, listed Include ((host 1, until 4000) ∷ [])) ∷ [])) the_group true }
    ensures excluded { Names igmp (Tick 4000)
        (early 3000 ((the_group, listed (Exclude 261000) ((host 1, until 4000) ∷ [])) ∷ [])) the_group true }
{}

//! Sendings of sources that one message doesn't hold, step by step. A message of IGMP holds 366 sources in a packet of
//! 1500 octets, one of MLD 89 (RFC 3376 section 4.1.8, RFC 3810 section 5.1.10). After each step come the queries, the
//! octets of their messages, the number of sent queries, and what is left. The number is for an outlet that takes them
//! all.

ghost use Rattle.std.specs.Prelude.{◌+◌, [], ◌∷◌, true, false, Some, None};
ghost use Rattle.mq_table.specs.declared.timers.FilterMode.TheVariants.{Include};
ghost use Rattle.mq_table.specs.declared.timers.SourceTimer.TheVariants.{Running};
ghost use Rattle.mq_table.specs.Examples.{until};
ghost use Rattle.mq_sched.specs.Examples.{the_group};
ghost use Rattle.mq_sched.specs.Sending.{GeneralQuery, SourcesQuery};
ghost use Rattle.mq_examples.specs.Links.{limited, mld_limited, host, from, mld_from, link_local, a_group, a_source, listed, listed_due, early, after, querier, saying};
ghost use Rattle.mq_examples.specs.ManySources.{sources_from, each_as, having_sent, TicksSending, Reports};

use mq_link::Received;

/// A sending of 367 sources, with 400 sources a group at most. They are allowed at 1000 and blocked at 2000. At 2000
/// and 3000 the lower 366 go in one message and the greatest in another, and the group is gone at 4000. Five queries
/// were sent.
pub fn a_sending_in_two_messages()
    ensures begins { TicksSending (limited 1024 400 16384 256) 0 (after 0 (querier 0 2) [])
        (GeneralQuery ∷ []) (12 ∷ []) 1 (early 0 []) }
    ensures allowed { Reports (limited 1024 400 16384 256) (from 1) (saying the_group 5 (sources_from (host 1) 367) ∷ []) 1000
        (having_sent 1 (early 0 [])) (Received.Taken 1 0 0) [] [] 1
        (early 1000 ((the_group, listed Include (each_as (until 261000) (sources_from (host 1) 367))) ∷ [])) }
    ensures blocked { Reports (limited 1024 400 16384 256) (from 1) (saying the_group 6 (sources_from (host 1) 367) ∷ []) 2000
        (having_sent 1 (early 1000 ((the_group, listed Include (each_as (until 261000) (sources_from (host 1) 367))) ∷ [])))
        (Received.Taken 1 0 0)
        (SourcesQuery the_group false (sources_from (host 1) 366) ∷ SourcesQuery the_group false (host 367 ∷ []) ∷ [])
        (1476 ∷ 16 ∷ []) 3
        (early 2000 ((the_group, listed_due Include (each_as (Running 4000 1) (sources_from (host 1) 367)) None (Some 3000)) ∷ [])) }
    ensures asked_again { TicksSending (limited 1024 400 16384 256) 3000
        (having_sent 3 (early 2000
        ((the_group, listed_due Include (each_as (Running 4000 1) (sources_from (host 1) 367)) None (Some 3000)) ∷ [])))
        (SourcesQuery the_group false (sources_from (host 1) 366) ∷ SourcesQuery the_group false (host 367 ∷ []) ∷ [])
        (1476 ∷ 16 ∷ []) 5
        (early 3000 ((the_group, listed Include (each_as (until 4000) (sources_from (host 1) 367))) ∷ [])) }
    ensures gone { TicksSending (limited 1024 400 16384 256) 4000
        (having_sent 5 (early 3000 ((the_group, listed Include (each_as (until 4000) (sources_from (host 1) 367))) ∷ [])))
        [] [] 5 (early 4000 []) }
{}

/// A sending of 90 sources in MLD, in messages of 89 and of one.
pub fn a_sending_in_two_messages_of_mld()
    ensures begins { TicksSending (mld_limited 90) 0 (after 0 (querier 0 2) []) (GeneralQuery ∷ []) (28 ∷ []) 1 (early 0 []) }
    ensures allowed { Reports (mld_limited 90) (mld_from (link_local 2) 1 true)
        (saying a_group 5 (sources_from a_source 90) ∷ []) 1000
        (having_sent 1 (early 0 [])) (Received.Taken 1 0 0) [] [] 1
        (early 1000 ((a_group, listed Include (each_as (until 261000) (sources_from a_source 90))) ∷ [])) }
    ensures blocked { Reports (mld_limited 90) (mld_from (link_local 2) 1 true)
        (saying a_group 6 (sources_from a_source 90) ∷ []) 2000
        (having_sent 1 (early 1000 ((a_group, listed Include (each_as (until 261000) (sources_from a_source 90))) ∷ [])))
        (Received.Taken 1 0 0)
        (SourcesQuery a_group false (sources_from a_source 89) ∷ SourcesQuery a_group false ((a_source + 89) ∷ []) ∷ [])
        (1452 ∷ 44 ∷ []) 3
        (early 2000 ((a_group, listed_due Include (each_as (Running 4000 1) (sources_from a_source 90)) None (Some 3000)) ∷ [])) }
    ensures asked_again { TicksSending (mld_limited 90) 3000
        (having_sent 3 (early 2000
        ((a_group, listed_due Include (each_as (Running 4000 1) (sources_from a_source 90)) None (Some 3000)) ∷ [])))
        (SourcesQuery a_group false (sources_from a_source 89) ∷ SourcesQuery a_group false ((a_source + 89) ∷ []) ∷ [])
        (1452 ∷ 44 ∷ []) 5
        (early 3000 ((a_group, listed Include (each_as (until 4000) (sources_from a_source 90))) ∷ [])) }
    ensures gone { TicksSending (mld_limited 90) 4000
        (having_sent 5 (early 3000 ((a_group, listed Include (each_as (until 4000) (sources_from a_source 90))) ∷ [])))
        [] [] 5 (early 4000 []) }
{}

/// A sending of the most sources that a group may have, 1024, blocked in IGMP: they go in messages of 366, 366 and 292.
pub fn a_sending_in_three_messages()
    ensures allowed { Reports (limited 1024 1024 16384 256) (from 1) (saying the_group 5 (sources_from (host 1) 1024) ∷ []) 1000
        (having_sent 1 (early 0 [])) (Received.Taken 1 0 0) [] [] 1
        (early 1000 ((the_group, listed Include (each_as (until 261000) (sources_from (host 1) 1024))) ∷ [])) }
    ensures blocked { Reports (limited 1024 1024 16384 256) (from 1) (saying the_group 6 (sources_from (host 1) 1024) ∷ []) 2000
        (having_sent 1 (early 1000 ((the_group, listed Include (each_as (until 261000) (sources_from (host 1) 1024))) ∷ [])))
        (Received.Taken 1 0 0)
        (SourcesQuery the_group false (sources_from (host 1) 366) ∷ SourcesQuery the_group false (sources_from (host 367) 366)
        ∷ SourcesQuery the_group false (sources_from (host 733) 292) ∷ [])
        (1476 ∷ 1476 ∷ 1180 ∷ []) 4
        (early 2000 ((the_group, listed_due Include (each_as (Running 4000 1) (sources_from (host 1) 1024)) None (Some 3000)) ∷ [])) }
    ensures asked_again { TicksSending (limited 1024 1024 16384 256) 3000
        (having_sent 4 (early 2000
        ((the_group, listed_due Include (each_as (Running 4000 1) (sources_from (host 1) 1024)) None (Some 3000)) ∷ [])))
        (SourcesQuery the_group false (sources_from (host 1) 366) ∷ SourcesQuery the_group false (sources_from (host 367) 366)
        ∷ SourcesQuery the_group false (sources_from (host 733) 292) ∷ [])
        (1476 ∷ 1476 ∷ 1180 ∷ []) 7
        (early 3000 ((the_group, listed Include (each_as (until 4000) (sources_from (host 1) 1024))) ∷ [])) }
    ensures gone { TicksSending (limited 1024 1024 16384 256) 4000
        (having_sent 7 (early 3000 ((the_group, listed Include (each_as (until 4000) (sources_from (host 1) 1024))) ∷ [])))
        [] [] 7 (early 4000 []) }
{}

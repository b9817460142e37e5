//! Worked examples of the text of a replay, each computed by the check of the definitions. The functions have no effect
//! at run time: each contract is an example.
//!
//! The captures and their texts are worked out by hand from the standards, for the router 10.0.0.9 with the defaults.
ghost use Rattle.std.specs.Prelude.{[], ◌∷◌, ◌++◌, None, Some, Ok, Err, codes, take};
ghost use Rattle.mq_pcap.specs.declared.fault.PcapFault.TheVariants.{CutHeader};
ghost use Rattle.mq_walk.specs.declared.capture_fault.CaptureFault.TheVariants.{Pcap, Gap};
ghost use Rattle.mq_examples.specs.Links.{igmp};
ghost use Rattle.mq_examples.specs.Replays.{one_report, two_packets, Reports, Totals};

/// A capture of one packet, in which the host 10.0.0.1 of version 2 reports 239.1.2.3.
pub fn a_report()
    ensures { Reports igmp None one_report
        (codes "0 send 224.0.0.1 1164ec1e00000000027d0000\n"
        ++ codes "0 receive 1 10.0.0.1 taken 1 0 0\n"
        ++ codes "end 0 querier\n"
        ++ codes "group 239.1.2.3 exclude 260000 v2 260000\n"
        ++ codes "counts received 1 dropped 0 applied 1 ignored 0 refused 0 sent 1 unsent 0\n")
        (Ok (record { received = 1; dropped = 0; applied = 1; ignored = 0; refused = 0; sent = 1; unsent = 0 })) }
{}

/// A capture without packets: the link's first query is sent at 0. Until 156250 there are three. Nothing is written for
/// a truncated header of a record.
pub fn no_packets()
    ensures header { Reports igmp None (take 24 one_report)
        (codes "0 send 224.0.0.1 1164ec1e00000000027d0000\n"
        ++ codes "end 0 querier\n"
        ++ codes "counts received 0 dropped 0 applied 0 ignored 0 refused 0 sent 1 unsent 0\n")
        (Ok (record { received = 0; dropped = 0; applied = 0; ignored = 0; refused = 0; sent = 1; unsent = 0 })) }
    ensures until { Reports igmp (Some 156250) (take 24 one_report)
        (codes "0 send 224.0.0.1 1164ec1e00000000027d0000\n"
        ++ codes "31250 send 224.0.0.1 1164ec1e00000000027d0000\n"
        ++ codes "156250 send 224.0.0.1 1164ec1e00000000027d0000\n"
        ++ codes "end 156250 querier\n"
        ++ codes "counts received 0 dropped 0 applied 0 ignored 0 refused 0 sent 3 unsent 0\n")
        (Ok (record { received = 0; dropped = 0; applied = 0; ignored = 0; refused = 0; sent = 3; unsent = 0 })) }
    ensures cut { Reports igmp None (take 30 one_report) [] (Err (Pcap (CutHeader 1))) }
    ensures nothing { Reports igmp None [] [] (Err (Pcap (CutHeader 0))) }
{}

/// Gaps that end the replay: a moment that is more than 86400000 ms after the one before it. It is that of a packet, or
/// that of the requested end.
pub fn gaps()
    ensures packet { Reports igmp None two_packets (codes "0 skip 1 cut\n") (Err (Gap 2)) }
    ensures until { Reports igmp (Some 86400001) (take 24 one_report) [] (Err (Gap 1)) }
{}

//! Worked examples of checks. The tolerance is 100 ms.

ghost use Rattle.std.specs.Prelude.{◌≡◌, List, [], ◌∷◌, ◌++◌, true, false, Err, Option};
ghost use Rattle.mq_pcap.specs.declared.fault.PcapFault.{PcapFault};
ghost use Rattle.mq_pcap.specs.Capture.{Captured};
ghost use Rattle.mq_link.specs.Configuration.{Configuration};
ghost use Rattle.mq_walk.specs.declared.capture_fault.CaptureFault.TheVariants.{Pcap};
ghost use Rattle.mq_walk.specs.Courses.{report_of};
ghost use Rattle.mq_check.specs.declared.asked.Asked.TheVariants.{AllGroups, Group};
ghost use Rattle.mq_check.specs.declared.check_terms.CheckTerms.{CheckTerms};
ghost use Rattle.mq_check.specs.declared.finding.ExtraReason.TheVariants.{NoChange, NotQuerier, OlderHost};
ghost use Rattle.mq_check.specs.declared.finding.Finding.TheVariants.{Missing, Extra, PossiblyMissing, PossiblyExtra, Interval};
ghost use Rattle.mq_check.specs.Check.{check_of};
ghost use Rattle.mq_check.specs.Checking.{told};
ghost use Rattle.mq_check.specs.Repeated.{no_differences, reported};
ghost use Rattle.mq_examples.specs.Checks.{at_start, from_any_time, from_the_beginning, left_and_asked, left_twice, robustness_found, seen_as_host, seen_first, seen_muted, strict_from_the_beginning, then_seen, two_general, wanted_first};

/// Shows queries that are late or early by the tolerance, and by a millisecond more. A late query is extra. If a query is
/// early, it expires before its partner is wanted, so the wanted one is missing.
pub fn partners_within_the_tolerance()
    ensures late { told 100 5000 (wanted_first 1000 1100) ≡ [] }
    ensures too_late { told 100 5000 (wanted_first 1000 1101) ≡ Extra 1101 7 (Group 5) NoChange ∷ [] }
    ensures early { told 100 5000 (seen_first 1000 1100) ≡ [] }
    ensures too_early { told 100 5000 (seen_first 1000 1101) ≡ Missing 1101 7 (Group 5) ∷ [] }
{}

/// Shows general queries a minute apart, and a query interval and the tolerance apart. The query interval is 125 seconds.
pub fn intervals_of_general_queries()
    ensures minute { told 100 200000 (two_general 90000 150000) ≡ Interval 150000 7 60000 125000 ∷ [] }
    ensures interval { told 100 400000 (two_general 90000 215100) ≡ [] }
{}

/// Shows a query for a group that the link doesn't hold, after a host has left it. The querier may hold the group since before
/// the capture: up to a Group Membership Interval (260 seconds) and the tolerance. Then it sends a second query a second later.
/// A check from the querier's beginning finds the query extra, and so does each check if no host has left the group.
pub fn groups_from_before_the_capture()
    ensures once { told 100 300000 (left_and_asked from_any_time 2200 2250) ≡ PossiblyExtra 2250 7 (Group 5) ∷ PossiblyMissing 3250 7 (Group 5) ∷ [] }
    ensures twice { told 100 300000 (then_seen 3260 (left_and_asked from_any_time 2200 2250)) ≡ PossiblyExtra 2250 7 (Group 5) ∷ [] }
    ensures thrice { told 100 300000 (then_seen 4260 (then_seen 3260 (left_and_asked from_any_time 2200 2250))) ≡ Extra 4260 7 (Group 5) NoChange ∷ [] }
    ensures at_last { told 100 262000 (then_seen 261100 (left_and_asked from_any_time 260100 260100)) ≡ PossiblyExtra 260100 7 (Group 5) ∷ [] }
    ensures too_late { told 100 300000 (left_and_asked from_any_time 260101 260101) ≡ Extra 260101 7 (Group 5) NoChange ∷ [] }
    ensures long_behind { told 100 300000 (left_and_asked from_any_time 2200 2301) ≡ Extra 2301 7 (Group 5) NoChange ∷ [] }
    ensures unasked { told 100 300000 (then_seen 2000 (at_start from_any_time)) ≡ Extra 2000 7 (Group 5) NoChange ∷ [] }
    ensures at_first { told 100 300000 (then_seen 1100 (at_start from_any_time)) ≡ PossiblyExtra 1100 7 (Group 5) ∷ [] }
    ensures began { told 100 300000 (left_and_asked strict_from_the_beginning 2000 2050) ≡ Extra 2050 7 (Group 5) NoChange ∷ [] }
{}

/// Shows the reason of an extra query: an older host of the group, unless another router was querier.
pub fn reasons_of_an_extra_query()
    ensures muted { told 100 5000 seen_muted ≡ Extra 1000 7 (Group 5) OlderHost ∷ [] }
    ensures as_host { told 100 5000 seen_as_host ≡ Extra 1000 7 (Group 5) NotQuerier ∷ [] }
{}

/// Shows a group that a host leaves twice. If the second leave comes at most the Last Member Query Time (2 seconds) and the
/// tolerance after the first, readings of the standards part. For as long after it a query is possibly missing or extra. In a strict
/// check it is so certainly.
pub fn changes_that_come_close()
    ensures missing { told 100 5000 (left_twice from_the_beginning 3100) ≡ PossiblyMissing 3100 7 (Group 5) ∷ [] }
    ensures apart { told 100 5000 (left_twice from_the_beginning 3101) ≡ Missing 3101 7 (Group 5) ∷ [] }
    ensures strict { told 100 5000 (left_twice strict_from_the_beginning 1400) ≡ Missing 1400 7 (Group 5) ∷ [] }
    ensures extra { told 100 5000 (then_seen 1700 (then_seen 1400 (left_twice from_the_beginning 1400))) ≡ PossiblyExtra 1700 7 (Group 5) ∷ [] }
    ensures at_last { told 100 5000 (then_seen 3500 (then_seen 1400 (left_twice from_the_beginning 1400))) ≡ PossiblyExtra 3500 7 (Group 5) ∷ [] }
    ensures over { told 100 5000 (then_seen 3501 (then_seen 1400 (left_twice from_the_beginning 1400))) ≡ Extra 3501 7 (Group 5) NoChange ∷ [] }
{}

/// Shows queries with QRV 3, 3, 4, 3 and 3 if 2 is wanted. Each change is reported once, and again in queries of the other
/// kind. Without `once` each query has its finding.
pub fn each_change_once()
    ensures once { reported true no_differences (robustness_found AllGroups (3 ∷ 3 ∷ 4 ∷ 3 ∷ 3 ∷ []))
        ≡ robustness_found AllGroups (3 ∷ 4 ∷ 3 ∷ []) }
    ensures each_kind { reported true no_differences (robustness_found AllGroups (3 ∷ []) ++ robustness_found (Group 5) (3 ∷ 3 ∷ []))
        ≡ robustness_found AllGroups (3 ∷ []) ++ robustness_found (Group 5) (3 ∷ []) }
    ensures each_query { reported false no_differences (robustness_found AllGroups (3 ∷ 3 ∷ []))
        ≡ robustness_found AllGroups (3 ∷ 3 ∷ []) }
{}

/// Shows that a file whose header has a fault has no text.
pub fn a_faulty_header()
    ensures { (config : Configuration) (terms : CheckTerms) (fault : PcapFault) (packets : List Captured) (end : Option PcapFault)
        → report_of (check_of config terms) (Err fault) packets end ≡ record { text = []; answer = Err (Pcap fault) } }
{}

//! Laws of the check of a capture: its definition (`mq_check`) means what it is for. The functions have no effect at
//! run time: each contract is a law, for every configuration and tolerance. Those on findings are about checks from the
//! querier's beginning (`began`) whose link refuses no record. Nothing is found of a right querier, strict or not. A strict
//! check finds the queries missing that it leaves out; another one finds them possibly missing if changes come close together.
//!
//! - The text of a check follows from its events: `checks_tell_what_happened`.
//! - If the queries of a capture are those of the link at their moments: `nothing_is_found`.
//! - If some of them are taken out, exactly these are missing: `what_is_taken_out_is_missing`.
//! - If they are moved within the tolerance: `nothing_is_found_of_moved_queries`.
//! - All three follow from `what_was_left_out_is_missing`.
//! - The time for which a check keeps a query without a partner: `queries_are_kept_for_these_times`.
//! - The text in these cases: `clean_captures_are_told_so`, `what_was_left_out_is_told`.
//! - The times of general queries: `general_queries_are_on_time_at_these_intervals`.
//! - The existence of such checks: `a_check_of_two_queries`.
//! - The findings that are left out if a changed variable is reported once: `only_repeated_differences_are_left_out`.
//! - Certain and possible findings: `possible_findings_stand_apart`.
ghost use Rattle.std.specs.Prelude.{◌≡◌, ◌↔◌, ℕ, Bool, ◌+◌, ◌-◌, ◌≤◌, List, [], ◌∷◌, ◌++◌, None, false, length, true};
ghost use Rattle.mq_table.specs.declared.timing.Timing.{Timing};
ghost use Rattle.mq_table.specs.Timing.{query_interval};
ghost use Rattle.mq_check.specs.declared.phase.Phase.TheVariants.{Starting, Heard, Returned};
ghost use Rattle.mq_check.specs.declared.asked.Asked.{Asked};
ghost use Rattle.mq_check.specs.declared.check_terms.Additions.{Additions};
ghost use Rattle.mq_check.specs.declared.check_terms.CheckFlags.{CheckFlags};
ghost use Rattle.mq_check.specs.declared.finding.Difference.{Difference};
ghost use Rattle.mq_check.specs.declared.finding.Finding.{Finding};
ghost use Rattle.mq_check.specs.declared.finding.Finding.TheVariants.{Differs};
ghost use Rattle.mq_check.specs.declared.repeated.LastDifferences.{LastDifferences};
ghost use Rattle.mq_check.specs.FindingLines.{certain_in, finding_lines, possible_in};
ghost use Rattle.mq_check.specs.General.{silence_up_to, wrong_interval};
ghost use Rattle.mq_check.specs.Repeated.{all_reported, repeats, reported, with_finding};
ghost use Rattle.mq_link.specs.Configuration.{IsFaultless};
ghost use Rattle.mq_wire.specs.Family.{Family};
ghost use Rattle.mq_laws.specs.OnTime.{AreAhead, AreInOrder, IsOnTime, IsWantedInterval};
ghost use Rattle.mq_laws.specs.AsWanted.{AreSeen, AreSeenWithin, IsAsWanted, IsFromTheBeginning, TakesOut, all_missing};
ghost use Rattle.mq_laws.specs.Events.{CheckEvent, HasRoom, found_by};
ghost use Rattle.mq_laws.specs.WantedAndSeen.{all_wanted_in};
ghost use Rattle.mq_laws.specs.CheckExamples.{IsExample, all_answered, began, example_expected, example_timing, first_ask, last_ask, one_left_out, second_ask};
ghost use Rattle.mq_laws.specs.Pairing.{Ask, Expected, kept_for, missing_of};
ghost use Rattle.mq_laws.specs.Reports.{is_of_variable, others_in};
ghost use Rattle.mq_laws.specs.Verdicts.{CameToItsEnd, CheckedCapture, IsClean, Tells, TellsWhatHappened, ahead_in, end_in, events_in};

use crate::links::{
    datagrams_leave_nothing_due, links_keep_form_and_limits, ticks_are_quiet_until_the_next_moment,
};

/// A lemma: the text of a check that comes to its end follows from its events, and from nothing else of the capture.
/// The events are the queries that the link with the querier's address sends, those that were seen from there, faults in
/// the headers of these, and the moments between. The link also says which queries are due just after the end.
pub fn checks_tell_what_happened()
    ensures { (c : CheckedCapture) → CameToItsEnd c → TellsWhatHappened c }
{}

/// A lemma: the events of a capture's check come in the order of moments, up to the end. The link's next moment is
/// never before the last event. After the end there are only ticks, up to the tolerance.
pub fn what_happens_comes_in_order()
    ensures order { (c : CheckedCapture) → IsFaultless c.config → AreInOrder 0 (events_in c) (end_in c) }
    ensures ahead { (c : CheckedCapture) → IsFaultless c.config → AreAhead c.within (end_in c) (ahead_in c) }
{
    links_keep_form_and_limits();
    ticks_are_quiet_until_the_next_moment();
    datagrams_leave_nothing_due();
}

/// A lemma: a check keeps a query without a partner for `kept_for`. In a strict check that is the tolerance, so the laws
/// of strict checks name no other time. In other checks it is at most a Last Member Query Interval longer.
pub fn queries_are_kept_for_these_times()
    ensures strict { (within : ℕ) (timing : Timing) (flags : CheckFlags) → flags.strict ≡ true → kept_for within timing flags ≡ within }
    ensures least { (within : ℕ) (timing : Timing) (flags : CheckFlags) → within ≤ kept_for within timing flags }
    ensures most { (within : ℕ) (timing : Timing) (flags : CheckFlags)
        → kept_for within timing flags ≤ within + timing.last_member_interval }
{}

/// A lemma: if queries about each thing pair up in order, the findings are those that were left out. Each of the others is
/// within the tolerance of its partner, with the same fields. After a query that was left out, the next one and the end
/// come after the time for which it is kept. Each finding is there once, in the order in which the queries are expected.
pub fn what_was_left_out_is_missing()
    ensures { (within : ℕ) (timing : Timing) (flags : CheckFlags) (end : ℕ) (expected : List Expected) (events ahead : List CheckEvent)
        → IsFromTheBeginning flags → AreInOrder 0 events end → AreAhead within end ahead → IsAsWanted within timing flags end expected events
        → HasRoom within timing flags end events ahead
        → found_by within timing flags end events ahead ≡ missing_of expected }
{}

/// A lemma: nothing is found if the seen queries are the expected ones, at their moments.
pub fn nothing_is_found()
    ensures { (within : ℕ) (timing : Timing) (flags : CheckFlags) (end : ℕ) (events ahead : List CheckEvent)
        → IsFromTheBeginning flags → AreInOrder 0 events end → AreAhead within end ahead → IsOnTime within timing end events
        → HasRoom within timing flags end events ahead
        → AreSeen within (all_wanted_in within timing flags events) events → found_by within timing flags end events ahead ≡ [] }
{}

/// A lemma: if some of the expected queries are taken out, exactly these are missing. The next query about the same thing
/// and the end come after the time for which they are kept.
pub fn what_is_taken_out_is_missing()
    ensures { (within : ℕ) (timing : Timing) (flags : CheckFlags) (end : ℕ) (events ahead : List CheckEvent) (before taken behind : List Ask)
        → IsFromTheBeginning flags → AreInOrder 0 events end → AreAhead within end ahead → IsOnTime within timing end events
        → HasRoom within timing flags end events ahead
        → all_wanted_in within timing flags events ≡ before ++ taken ++ behind → TakesOut flags.strict (kept_for within timing flags) end taken behind
        → AreSeen within (before ++ behind) events → found_by within timing flags end events ahead ≡ all_missing taken }
{}

/// A lemma: nothing is found if any of the expected queries are moved within the tolerance. Queries about one thing
/// keep their order.
pub fn nothing_is_found_of_moved_queries()
    ensures { (within : ℕ) (timing : Timing) (flags : CheckFlags) (end : ℕ) (events ahead : List CheckEvent)
        → IsFromTheBeginning flags → AreInOrder 0 events end → AreAhead within end ahead → IsOnTime within timing end events
        → HasRoom within timing flags end events ahead
        → AreSeenWithin within (all_wanted_in within timing flags events) events → found_by within timing flags end events ahead ≡ [] }
{}

/// A lemma: the check of a capture with these queries says that nothing is found, and no more.
pub fn clean_captures_are_told_so()
    ensures { (c : CheckedCapture)
        → IsFromTheBeginning c.flags → IsFaultless c.config → CameToItsEnd c → IsOnTime c.within c.config.timing (end_in c) (events_in c)
        → AreSeenWithin c.within (all_wanted_in c.within c.config.timing c.flags (events_in c)) (events_in c) → IsClean c }
{
    what_happens_comes_in_order();
}

/// A lemma: the check says what was left out, and no more.
pub fn what_was_left_out_is_told()
    ensures { (c : CheckedCapture) (expected : List Expected)
        → IsFromTheBeginning c.flags → IsFaultless c.config → CameToItsEnd c → IsAsWanted c.within c.config.timing c.flags (end_in c) expected (events_in c)
        → Tells c (missing_of expected) }
{
    what_happens_comes_in_order();
}

/// A lemma: without `once` each finding is reported. With it, only differences in the response, QRV and QQIC are left out,
/// and nothing is reported only if nothing is found. A difference that follows the same one is left out.
pub fn only_repeated_differences_are_left_out()
    ensures all { (last : LastDifferences) (found : List (Finding ℕ)) → reported false last found ≡ found }
    ensures others { (once : Bool) (last : LastDifferences) (found : List (Finding ℕ))
        → others_in (reported once last found) ≡ others_in found }
    ensures none { (additions : Additions) (found : List (Finding ℕ)) → (all_reported additions found ≡ []) ↔ (found ≡ []) }
    ensures repeated { (moment packet moment' packet' : ℕ) (asked : Asked ℕ) (difference : Difference ℕ) (last : LastDifferences)
        → is_of_variable difference ≡ true
        → repeats (Differs moment' packet' asked difference) (with_finding (Differs moment packet asked difference) last) ≡ true }
{}

/// A lemma: each finding is either certain or possible. Without `possible`, the text has the lines of the certain ones
/// alone, whatever is possible.
pub fn possible_findings_stand_apart()
    ensures parted { (found : List (Finding ℕ)) → length found ≡ length (certain_in found) + length (possible_in found) }
    ensures unasked { (family : Family) (additions : Additions) (found : List (Finding ℕ))
        → additions.possible ≡ false → finding_lines family additions found ≡ finding_lines family additions (certain_in found) }
{}

/// A lemma: the times of general queries, each within the tolerance. The first comes at most a query interval after the
/// start of the capture. Each other one comes at an expected interval after the one before it. The first after a return
/// comes whenever its partner does. Until the end, or until the role is lost, no interval is longer than a query
/// interval.
pub fn general_queries_are_on_time_at_these_intervals()
    ensures first { (within : ℕ) (timing : Timing) (moment startup : ℕ)
        → (wrong_interval within timing moment (Starting startup) ≡ None) ↔ (moment ≤ query_interval timing + within) }
    ensures next { (within : ℕ) (timing : Timing) (before moment startup : ℕ)
        → (wrong_interval within timing moment (Heard before startup) ≡ None)
        ↔ IsWantedInterval within timing startup (moment - before) }
    ensures again { (within : ℕ) (timing : Timing) (moment : ℕ) → wrong_interval within timing moment Returned ≡ None }
    ensures silence { (within : ℕ) (timing : Timing) (before moment startup : ℕ)
        → (silence_up_to within timing moment (Heard before startup) ≡ None) ↔ (moment - before ≤ query_interval timing + within) }
{}

/// A lemma: there are such checks, whose seen queries have other packets than the expected ones. There are two queries for
/// a group: one was seen as late as the tolerance allows, and one was left out. Then the role was lost, and the router was
/// querier again. The other queries may also be seen at their moments, and the second one too.
pub fn a_check_of_two_queries()
    ensures as_wanted { IsAsWanted 100 example_timing began 262000 example_expected (one_left_out 100) }
    ensures late { IsExample (one_left_out 100) }
    ensures taken_out { TakesOut began.strict (kept_for 100 example_timing began) 262000 (second_ask ∷ []) (last_ask ∷ []) }
    ensures others_seen { AreSeen 100 (first_ask ∷ last_ask ∷ []) (one_left_out 0) }
    ensures others_on_time { IsExample (one_left_out 0) }
    ensures all_seen { AreSeen 100 (first_ask ∷ second_ask ∷ last_ask ∷ []) (all_answered 0) }
    ensures all_on_time { IsExample (all_answered 0) }
    ensures all_moved { AreSeenWithin 100 (first_ask ∷ second_ask ∷ last_ask ∷ []) (all_answered 100) }
    ensures all_late { IsExample (all_answered 100) }
{}

//! The whole merge of two slices, and its law for rules.

ghost use Rattle.std.specs.Prelude.{◌≡◌, ℕ, ◌+◌, ◌≤◌, min, length};
ghost use Rattle.mq_sets.specs.Ascending.{IsAscending, item_with};
ghost use Rattle.mq_sets.specs.Merging.{merged, number_of, paired, comparisons_along};
ghost use Rattle.mq_sets.specs.Rules.{RulesKeepOrder, RulesActAtEachNumber};

use crate::items::Keyed;
use crate::merge_state::Merge;
use mq_count::Key;

/// Returns the merge of two ascending slices. Its items ascend, and at each key they are those of the two slices.
pub fn merge<'a, K: Key, L: Keyed<K>, R: Keyed<K>>(
    left: &'a [L],
    right: &'a [R],
) -> Merge<'a, K, L, R>
    requires left_ascending { IsAscending L.key_number left.now }
    requires right_ascending { IsAscending R.key_number right.now }

    ensures sides { result ≡ record { left = left.now; right = right.now } }

    // All its items ascend, and at each number they are those of the two slices.
    ensures ascending { let ahead = merged L.key_number R.key_number in
        IsAscending (number_of L.key_number R.key_number) (ahead result) }
    ensures at_each_number { let ahead = merged L.key_number R.key_number in
        (n : ℕ) → item_with (number_of L.key_number R.key_number) (ahead result) n
        ≡ paired (item_with L.key_number left.now n) (item_with R.key_number right.now n) }

    // The comparisons in all: at least the items of the shorter side, at most those of both.
    ensures compares_at_least { let ahead = merged L.key_number R.key_number in
        min (length left.now) (length right.now) ≤ comparisons_along (ahead result) }
    ensures compares_at_most { let ahead = merged L.key_number R.key_number in
        comparisons_along (ahead result) ≤ length left.now + length right.now }
{
    Merge::of(left, right)
}

/// A lemma: a rule that acts on each pair of a merge acts on the two slices at each key. So a loop over a merge that
/// pushes the rule's result for each pair gives an ascending list, known at each key.
pub fn rules_act_at_each_key<K: Key, L: Keyed<K>, R: Keyed<K>, T: Keyed<K>>()
    ensures ascending { RulesKeepOrder L.key_number R.key_number T.key_number }
    ensures at_each_number { RulesActAtEachNumber L.key_number R.key_number T.key_number }
{}

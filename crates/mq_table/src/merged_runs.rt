//! A record merged with its group, if it leaves the sources alone that it doesn't name. These are copied run by run, up
//! to each source that it names.

ghost use Rattle.std.specs.Prelude.{◌≡◌, ◌+◌, ◌≤◌, ◌<◌, ◌++◌, [], ◌∷◌, min, length, take, vec_capacity, IfOk, IfErr, MatchResult, true};
ghost use Rattle.std.specs.List.{HoldsAt, filter_map, list_any};
ghost use Rattle.std.specs.Option.{option_to_list};
ghost use Rattle.mq_count.specs.Spending.{Spends};
ghost use Rattle.mq_sets.specs.Ascending.{IsAscending};
ghost use Rattle.mq_sets.specs.Merging.{merged_lists, pair_of};
ghost use Rattle.mq_sets.specs.Search.{IsPlaceFor, bitlen};
ghost use Rattle.mq_table.specs.Stored.{number_in};
ghost use Rattle.mq_table.specs.MergedRecord.{source_made, source_asked, source_turned, item_is_stopped, keeps_unnamed, LeavesAlone, LooksByHalves};

use crate::merged_records::{push_changes, push_if_some, source_asked, source_made, source_turned};
use crate::rules::Rule;
use crate::sources::{Source, rest_of};
use crate::timers::{FilterMode, SourceTimer};
use mq_count::{Key, Meter};
use mq_sets::{Merged, find};
use std::alloc::Allocator;
use std::cmp::Ordering;

/// Returns the place of a name among ascending sources, or as an `Err` the place where it would go. It walks from the
/// front.
fn find_ahead<K: Key>(sources: &[Source<K>], name: K, m: &mut Meter) -> Result<usize, usize>
    requires ascending { IsAscending (number_in K.number) sources.now }
    ensures found_in { IfOk result (λ i. i < length sources.now) }
    ensures found { IfOk result (HoldsAt (λ x. number_in K.number x ≡ K.number name) sources.now) }
    ensures absent { IfErr result (IsPlaceFor (number_in K.number) sources.now (K.number name)) }
    ensures spent { MatchResult result (λ i. Spends (i + 1) (i + 1) m.old m.new) (λ i. let n = min (i + 1) (length sources.now) in Spends n n m.old m.new) }
{
    for place in 0..sources.len() {
        match sources[place].address.order(name, m) {
            Ordering::Less => {}
            Ordering::Equal => return Ok(place),
            Ordering::Greater => return Err(place),
        }
    }
    Err(sources.len())
}

/// Returns the first `count` sources of a list.
fn front_of<K: Key>(row: &[Source<K>], count: usize) -> &[Source<K>]
    requires { count ≤ length row.now }
    ensures { result.now ≡ take count row.now }
{
    &row[..count]
}

/// Returns whether some source of a list is stopped. It looks at all of them, since mostly there is none, and ending at
/// the first takes more instructions for each.
fn any_is_stopped<K: Key>(row: &[Source<K>]) -> bool
    ensures { result ≡ list_any item_is_stopped row.now }
{
    let mut some = false;
    for source in row {
        some |= matches!(source.timer, SourceTimer::Stopped);
    }
    some
}

/// Returns whether a record leaves some sources alone if it doesn't name them. Then it changes none of them, asks for
/// none and turns none.
fn leaves_alone<K: Key>(rule: &Rule, held: &[Source<K>]) -> bool
    ensures told { result ≡ keeps_unnamed rule.now.kind rule.now.mode held.now }
    ensures alone { result ≡ true → LeavesAlone rule.now held.now }
{
    if rule.kind.named_effect().is_none() {
        return false;
    }
    match rule.mode {
        FilterMode::Exclude(_) => true,
        // No source of INCLUDE is stopped.
        FilterMode::Include => !any_is_stopped(held),
    }
}

/// Pushes the sources of a run, for which there is room.
fn push_run<K: Key, A: Allocator>(list: &mut Vec<Source<K>, A>, run: &[Source<K>])
    requires room { length list.old.items + length run.now ≤ vec_capacity list.old }
    ensures items { list.new.items ≡ list.old.items ++ run.now }
    ensures capacity { vec_capacity list.old ≤ vec_capacity list.new }
{
    if !run.is_empty() {
        list.extend_from_slice(run).unwrap();
    }
}

/// Pushes a named source as the record leaves it, and into `asked` if the record asks for it. There is room for both.
/// Returns whether the record turns the source.
fn push_named<K: Key, A: Allocator, B: Allocator>(
    rule: &Rule,
    item: &Merged<'_, Source<K>, K>,
    sources: &mut Vec<Source<K>, A>,
    asked: &mut Vec<K, B>,
) -> bool
    requires room { length sources.old.items < vec_capacity sources.old }
    requires asked_room { length asked.old.items < vec_capacity asked.old }
    ensures sources { sources.new.items ≡ sources.old.items ++ option_to_list (source_made rule.now (pair_of item.now)) }
    ensures asked { asked.new.items ≡ asked.old.items ++ option_to_list (source_asked rule.now (pair_of item.now)) }
    ensures turned { result ≡ source_turned rule.now (pair_of item.now) }
    ensures sources_capacity { vec_capacity sources.old ≤ vec_capacity sources.new }
    ensures asked_capacity { vec_capacity asked.old ≤ vec_capacity asked.new }
{
    push_if_some(sources, source_made(rule, item)).unwrap();
    push_if_some(asked, source_asked(rule, item)).unwrap();
    source_turned(rule, item)
}

/// Acts like `push_changes`, for a record that leaves the sources alone that it doesn't name.
fn push_runs<K: Key, A: Allocator, B: Allocator>(
    rule: &Rule,
    held: &[Source<K>],
    named: &[K],
    sources: &mut Vec<Source<K>, A>,
    asked: &mut Vec<K, B>,
    m: &mut Meter,
) -> bool
    requires held_ascending { IsAscending (number_in K.number) held.now }
    requires named_ascending { IsAscending K.number named.now }
    requires alone { LeavesAlone rule.now held.now }
    requires no_sources { sources.old.items ≡ [] }
    requires none_asked { asked.old.items ≡ [] }
    requires room { length held.now + length named.now ≤ vec_capacity sources.old }
    requires asked_room { length held.now + length named.now ≤ vec_capacity asked.old }
    ensures sources { sources.new.items ≡ filter_map (source_made rule.now) (merged_lists (number_in K.number) K.number held.now named.now) }
    ensures asked { asked.new.items ≡ filter_map (source_asked rule.now) (merged_lists (number_in K.number) K.number held.now named.now) }
    ensures turned { result ≡ list_any (source_turned rule.now) (merged_lists (number_in K.number) K.number held.now named.now) }
    ensures compares { Spends (min (length held.now) (length named.now)) (length held.now + length named.now) m.old m.new }
    ensures sources_room { vec_capacity sources.old ≤ vec_capacity sources.new }
    ensures asked_room { vec_capacity asked.old ≤ vec_capacity asked.new }
{
    let mut turned = false;
    let mut left = held;
    for name in named {
        match find_ahead(left, *name, m) {
            Ok(place) => {
                push_run(sources, front_of(left, place));
                turned |= push_named(rule, &Merged::Both(&left[place], name), sources, asked);
                left = rest_of(left, place + 1);
            }
            Err(place) => {
                push_run(sources, front_of(left, place));
                turned |= push_named(rule, &Merged::Right(name), sources, asked);
                left = rest_of(left, place);
            }
        }
    }
    push_run(sources, left);
    turned
}

/// Acts like `push_changes`, for a record of one source that leaves the others alone. It finds the source by
/// binary search.
fn push_around<K: Key, A: Allocator, B: Allocator>(
    rule: &Rule,
    held: &[Source<K>],
    name: &K,
    sources: &mut Vec<Source<K>, A>,
    asked: &mut Vec<K, B>,
    m: &mut Meter,
) -> bool
    requires held_ascending { IsAscending (number_in K.number) held.now }
    requires alone { LeavesAlone rule.now held.now }
    requires no_sources { sources.old.items ≡ [] }
    requires none_asked { asked.old.items ≡ [] }
    requires room { length held.now + 1 ≤ vec_capacity sources.old }
    requires asked_room { 0 < vec_capacity asked.old }
    ensures sources { sources.new.items ≡ filter_map (source_made rule.now) (merged_lists (number_in K.number) K.number held.now (name.now ∷ [])) }
    ensures asked { asked.new.items ≡ filter_map (source_asked rule.now) (merged_lists (number_in K.number) K.number held.now (name.now ∷ [])) }
    ensures turned { result ≡ list_any (source_turned rule.now) (merged_lists (number_in K.number) K.number held.now (name.now ∷ [])) }
    ensures compares { Spends (min 1 (length held.now)) (bitlen (length held.now)) m.old m.new }
    ensures sources_room { vec_capacity sources.old ≤ vec_capacity sources.new }
    ensures asked_room { vec_capacity asked.old ≤ vec_capacity asked.new }
{
    match find(held, *name, m) {
        Ok(place) => {
            push_run(sources, front_of(held, place));
            let turned = push_named(rule, &Merged::Both(&held[place], name), sources, asked);
            push_run(sources, rest_of(held, place + 1));
            turned
        }
        Err(place) => {
            push_run(sources, front_of(held, place));
            let turned = push_named(rule, &Merged::Right(name), sources, asked);
            push_run(sources, rest_of(held, place));
            turned
        }
    }
}

/// Acts like `push_changes`, with lists that have room for both sides. If the record names one source and leaves
/// the others alone, it finds the source by binary search.
pub(crate) fn push_within<K: Key, A: Allocator, B: Allocator>(
    rule: &Rule,
    held: &[Source<K>],
    named: &[K],
    sources: &mut Vec<Source<K>, A>,
    asked: &mut Vec<K, B>,
    m: &mut Meter,
) -> bool
    requires held_ascending { IsAscending (number_in K.number) held.now }
    requires named_ascending { IsAscending K.number named.now }
    requires no_sources { sources.old.items ≡ [] }
    requires none_asked { asked.old.items ≡ [] }
    requires room { length held.now + length named.now ≤ vec_capacity sources.old }
    requires asked_room { length held.now + length named.now ≤ vec_capacity asked.old }
    ensures sources { sources.new.items ≡ filter_map (source_made rule.now) (merged_lists (number_in K.number) K.number held.now named.now) }
    ensures asked { asked.new.items ≡ filter_map (source_asked rule.now) (merged_lists (number_in K.number) K.number held.now named.now) }
    ensures turned { result ≡ list_any (source_turned rule.now) (merged_lists (number_in K.number) K.number held.now named.now) }
    ensures compares { Spends (min (length held.now) (length named.now)) (length held.now + length named.now) m.old m.new }
    ensures by_halves { LooksByHalves rule.now.kind rule.now.mode held.now (length named.now) m.old m.new }
    ensures sources_room { vec_capacity sources.old ≤ vec_capacity sources.new }
    ensures asked_room { vec_capacity asked.old ≤ vec_capacity asked.new }
{
    if !leaves_alone(rule, held) {
        push_changes(rule, held, named, sources, asked, m).unwrap()
    } else if named.len() == 1 {
        push_around(rule, held, &named[0], sources, asked, m)
    } else {
        push_runs(rule, held, named, sources, asked, m)
    }
}

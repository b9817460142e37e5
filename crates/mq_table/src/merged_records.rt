//! A record merged with its group: one pass over both, for every form of record.

ghost use Rattle.std.specs.Prelude.{◌≡◌, ◌+◌, ◌≤◌, ◌<◌, ◌++◌, [], min, length, vec_capacity, IsOk, OnOk, OnErr, IfOk, IsSome};
ghost use Rattle.std.specs.List.{filter_map, list_any};
ghost use Rattle.std.specs.Option.{option_to_list};
ghost use Rattle.mq_count.specs.Spending.{Spends};
ghost use Rattle.mq_sets.specs.Ascending.{IsAscending};
ghost use Rattle.mq_sets.specs.Merging.{merged_lists, pair_of};
ghost use Rattle.mq_table.specs.Stored.{number_in};
ghost use Rattle.mq_table.specs.MergedRecord.{source_with, source_made, source_asked, source_turned};

use crate::rules::Rule;
use crate::sources::Source;
use crate::timers::SourceTimer;
use mq_count::{Key, Meter};
use mq_sets::{Merged, merge};
use std::alloc::{AllocError, Allocator};

/// Returns a source with a timer, if there is one.
fn source_with<K: Key>(address: K, timer: Option<SourceTimer>) -> Option<Source<K>>
    ensures { result ≡ source_with address timer }
{
    timer.map(|timer| Source { address, timer })
}

/// Returns the source of a pair after the record.
pub(crate) fn source_made<K: Key>(rule: &Rule, item: &Merged<'_, Source<K>, K>) -> Option<Source<K>>
    ensures { result ≡ source_made rule.now (pair_of item.now) }
{
    match item {
        Merged::Left(x) => source_with(x.address, rule.timer_after(Some(x.timer), false)),
        Merged::Both(x, _) => source_with(x.address, rule.timer_after(Some(x.timer), true)),
        Merged::Right(y) => source_with(**y, rule.timer_after(None, true)),
    }
}

/// Returns the source of a pair if the record's query asks for it.
pub(crate) fn source_asked<K: Key>(rule: &Rule, item: &Merged<'_, Source<K>, K>) -> Option<K>
    ensures { result ≡ source_asked rule.now (pair_of item.now) }
{
    let (address, is_asked) = match item {
        Merged::Left(x) => (x.address, rule.asks_for(Some(x.timer), false)),
        Merged::Both(x, _) => (x.address, rule.asks_for(Some(x.timer), true)),
        Merged::Right(y) => (**y, rule.asks_for(None, true)),
    };
    if is_asked { Some(address) } else { None }
}

/// Returns whether the record turns the source of a pair. It does if the filter of a mode that stays names the source
/// before the record or after it, and not both times.
pub(crate) fn source_turned<K: Key>(rule: &Rule, item: &Merged<'_, Source<K>, K>) -> bool
    ensures { result ≡ source_turned rule.now (pair_of item.now) }
{
    match item {
        Merged::Left(x) => rule.turns(Some(x.timer), false),
        Merged::Both(x, _) => rule.turns(Some(x.timer), true),
        Merged::Right(_) => rule.turns(None, true),
    }
}

/// Pushes an item, if there is one. A list with room for one more does not allocate.
pub(crate) fn push_if_some<T: Copy, A: Allocator>(
    list: &mut Vec<T, A>,
    item: Option<T>,
) -> Result<(), AllocError>
    ensures items { OnOk result (list.new.items ≡ list.old.items ++ option_to_list item) }
    ensures capacity { vec_capacity list.old ≤ vec_capacity list.new }
    ensures full { OnErr result (vec_capacity list.old ≤ length list.old.items) }
    ensures some { OnErr result (IsSome item) }
{
    match item {
        Some(item) => list.push(item)?,
        None => {}
    }
    Ok(())
}

/// Pushes the sources of the group and of the record that the record leaves, and those that its query asks for.
/// Afterwards each list is ascending, and has at most as many as both sides. Returns whether the record turns a source.
pub(crate) fn push_changes<'a, K: Key, A: Allocator, B: Allocator>(
    rule: &Rule,
    held: &'a [Source<K>],
    named: &'a [K],
    sources: &mut Vec<Source<K>, A>,
    asked: &mut Vec<K, B>,
    m: &mut Meter,
) -> Result<bool, AllocError>
    requires held_ascending { IsAscending (number_in K.number) held.now }
    requires named_ascending { IsAscending K.number named.now }
    requires no_sources { sources.old.items ≡ [] }
    requires none_asked { asked.old.items ≡ [] }

    ensures sources { OnOk result (sources.new.items ≡ filter_map (source_made rule.now) (merged_lists (number_in K.number) K.number held.now named.now)) }
    ensures asked { OnOk result (asked.new.items ≡ filter_map (source_asked rule.now) (merged_lists (number_in K.number) K.number held.now named.now)) }
    ensures turned { IfOk result (λ b. b ≡ list_any (source_turned rule.now) (merged_lists (number_in K.number) K.number held.now named.now)) }
    ensures compares { OnOk result (Spends (min (length held.now) (length named.now)) (length held.now + length named.now) m.old m.new) }
    ensures compares_at_most { Spends 0 (length held.now + length named.now) m.old m.new }

    // It allocates only if the record leaves a source, and never with room for both sides.
    ensures memory { OnErr result (0 < length (filter_map (source_made rule.now) (merged_lists (number_in K.number) K.number held.now named.now))) }
    ensures room { length held.now + length named.now ≤ vec_capacity sources.old → length held.now + length named.now ≤ vec_capacity asked.old → IsOk result }
    ensures sources_room { vec_capacity sources.old ≤ vec_capacity sources.new }
    ensures asked_room { vec_capacity asked.old ≤ vec_capacity asked.new }
{
    let mut turned = false;
    let mut merge = merge(held, named);
    while let Some(item) = merge.next(m) {
        turned |= source_turned(rule, &item);
        push_if_some(sources, source_made(rule, &item))?;
        push_if_some(asked, source_asked(rule, &item))?;
    }
    Ok(turned)
}

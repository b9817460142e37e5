//! The number of records of one datagram that have met or changed each group, by the numbers of the groups.

ghost use Rattle.std.specs.Prelude.{◌≡◌, ℕ, ◌<◌, ◌≤◌, nat_le, nat_lt, length, slice_index, IfOk, is_ok};
ghost use Rattle.std.specs.List.{All};
ghost use Rattle.mq_arena.specs.Vectors.{IsSize, Takes};
ghost use Rattle.mq_sets.specs.Slots.{times};
ghost use Rattle.mq_link.specs.Seen.{AreListed, AreNone, counted_again};
ghost use Rattle.mq_link.specs.Sizes.{bytes_of_marks};

use mq_arena::{VectorSource, both_sizes, filled, vector_size};
use mq_sets::Memory;
use std::alloc::Allocator;
use std::marker::Model;

/// The number of records of a datagram that may meet a held group. Those after them are refused.
const MEETINGS: u8 = 4;

/// The number of records of a datagram that have met the group of each number while it was held. Counts above four are
/// not distinguished: the fifth record is one too many. A contract sees the list of these counts, by the number.
/// Nothing is searched for, compared or moved. It has three bytes for each group that may be held.
#[derive(Drop)]
pub(crate) struct RecordCounts<A: Allocator> {
    // The count of each number.
    counts: Vec<u8, A>,
    // The numbers whose count isn't zero, each once, in the order in which they were met.
    numbers: Vec<u16, A>,
}

impl<A: Allocator> Model for RecordCounts<A> {
    ghost use Rattle.std.specs.Prelude.{ℕ, List, ◌≤◌, length, vec_capacity};
    ghost use Rattle.std.specs.Coded.{coded_ℕ, coded_list};
    ghost use Rattle.mq_link.specs.Seen.{AreListed};

    ghost Value = { List ℕ };

    ghost coded = { coded_list coded_ℕ };

    ghost view = { λ s. s.counts.items };

    ghost invariant = { λ s. AreListed s.counts.items s.numbers.items × (length s.counts.items ≤ vec_capacity s.numbers) };
}

/// Sets the counts of some numbers to zero, which are all that have another.
fn set_to_zero<A: Allocator>(counts: &mut Vec<u8, A>, numbers: &[u16])
    requires within { All (λ number. number < length counts.old.items) numbers.now }
    requires each { (number : ℕ) → 1 ≤ slice_index counts.old.items number → 1 ≤ times number numbers.now }
    ensures none { AreNone counts.new.items }
    ensures len { length counts.new.items ≡ length counts.old.items }
{
    for number in numbers {
        counts[*number as usize] = 0;
    }
}

impl<A: Allocator> RecordCounts<A> {
    /// Returns the bytes that `with_room` allocates, or None if no memory has as many.
    pub(crate) fn size(groups: usize) -> Option<usize>
        ensures { IsSize (bytes_of_marks groups) result }
    {
        both_sizes(vector_size::<u8>(groups), vector_size::<u16>(groups))
    }

    /// Returns counts of zero, with memory for `groups` groups. Fails with `Memory` if memory is refused.
    #[tactic(auto, unfolding(crate::specs::Sizes::bytes_of_marks))]
    pub(crate) fn with_room<M: VectorSource<A>>(
        memory: &mut M,
        groups: usize,
    ) -> Result<RecordCounts<A>, Memory>
        ensures room { IfOk result (λ s. length s ≡ groups) }
        ensures none { IfOk result AreNone }
        ensures memory { Takes (bytes_of_marks groups) (M.less_than memory.old) (M.less_than memory.new) (is_ok result) }
    {
        Ok(RecordCounts {
            counts: filled(memory, 0, groups)?,
            numbers: memory.with_capacity(groups)?,
        })
    }
}

impl<A: Allocator> RecordCounts<A> {
    /// Returns the numbers of the groups that were met, each once, in the order in which they were met.
    pub(crate) fn numbers(&self) -> &[u16]
        ensures { AreListed self.now result.now }
    {
        &self.numbers
    }

    /// Returns whether the group of a number was met.
    pub(crate) fn is_met(&self, number: u16) -> bool
        requires number { number < length self.now }
        ensures { result ≡ nat_lt 0 (slice_index self.now number) }
    {
        self.counts[number as usize] > 0
    }

    /// Forgets all groups. It looks only at those that were met.
    pub(crate) fn clear(&mut self)
        ensures none { AreNone self.new }
        ensures room { length self.new ≡ length self.old }
    {
        set_to_zero(&mut self.counts, &self.numbers);
        self.numbers.clear();
    }

    /// Counts a record that meets the group of a number. Returns whether as many as may have met it before.
    pub(crate) fn meets_again(&mut self, number: u16) -> bool
        requires number { number < length self.old }
        ensures again { result ≡ nat_le 4 (slice_index self.old number) }
        ensures counts { self.new ≡ counted_again self.old number }
    {
        let before = self.counts[number as usize];
        if before >= MEETINGS {
            return true;
        }
        self.counts[number as usize] = before + 1;
        if before == 0 {
            self.numbers.push(number).unwrap();
        }
        false
    }
}

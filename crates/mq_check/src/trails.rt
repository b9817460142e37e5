//! Links between the pending entries of a slot.

ghost use Rattle.std.specs.Prelude.{◌≡◌, ℕ, ◌+◌, ◌-◌, ◌<◌, ◌≤◌, ◌^◌, [], ◌∷◌, ◌++◌, IfOk, is_ok, length, min, slice_index, drop};
ghost use Rattle.std.specs.VecDeque.{deque_capacity};
ghost use Rattle.mq_arena.specs.Vectors.{Takes};
ghost use Rattle.mq_check.specs.Sizes.{bytes_of_trails};
ghost use Rattle.mq_check.specs.Trails.{IsClosed, IsNear, Reaches, TrailsValue};

use crate::slots::SLOTS;
use crate::waiting::ROOM;
use mq_arena::{VectorSource, filled};
use std::alloc::{AllocError, Allocator};
use std::collections::VecDeque;
use std::marker::Model;

/// A number that no pending entry has.
const OPEN: u64 = u64::MAX;

/// The slot of each pending entry in order, and two starts of each slot. No entry of a slot before its start can find a
/// partner, and none before its near start is near. Links lead from each entry to the next one of its slot that can find a
/// partner. Entries are numbered in the order in which they came. `new` allocates all memory.
#[derive(Drop)]
pub(crate) struct Trails<A: Allocator> {
    slots: VecDeque<u32, A>,
    // For each entry, the number of the next one of its slot that can find a partner, or a lower number.
    nexts: VecDeque<u64, A>,
    // For each entry, the number of the entry that leads to it. If none does, any other number.
    befores: VecDeque<u64, A>,
    starts: Vec<u64, A>,
    nears: Vec<u64, A>,
    // For each slot, the number of its last entry, or that of no entry before the first.
    lasts: Vec<u64, A>,
    // The number of the first pending entry.
    base: u64,
}

impl<A: Allocator> Model for Trails<A> {
    ghost use Rattle.std.specs.Prelude.{◌≡◌, ◌≤◌, length};
    ghost use Rattle.std.specs.VecDeque.{deque_capacity};
    ghost use Rattle.mq_check.specs.Trails.{AreLinked, AreNumbers, TrailsValue};

    ghost Value = { TrailsValue };

    ghost view = { λ t. record { slots = t.slots.items; nexts = t.nexts.items; starts = t.starts.items; nears = t.nears.items; base = t.base } };

    ghost invariant = { λ t. AreLinked t.slots.items t.nexts.items t.lasts.items t.base
        × AreNumbers t.nexts.items
        × AreNumbers t.starts.items
        × AreNumbers t.nears.items
        × (length t.nexts.items ≡ length t.slots.items)
        × (length t.befores.items ≡ length t.slots.items)
        × (length t.starts.items ≡ 65522)
        × (length t.nears.items ≡ 65522)
        × (length t.lasts.items ≡ 65522)
        × (deque_capacity t.slots ≡ 65536)
        × (deque_capacity t.nexts ≡ 65536)
        × (deque_capacity t.befores ≡ 65536) };
}

/// Returns the place of the entry with a number. If that entry is gone, returns a place beyond all entries.
fn pending_place(number: u64, base: u64) -> usize
    ensures pending { base ≤ number → result ≡ number - base }
    ensures gone { number < base → result ≡ 2 ^ 64 - 1 }
{
    if number < base {
        usize::MAX
    } else {
        (number - base) as usize
    }
}

/// Limits the link of the last entry of a slot to the number of the next one, if the last one is pending.
fn close<A: Allocator>(nexts: &mut VecDeque<u64, A>, last: usize, number: u64)
    ensures closed { IsClosed nexts.old.items nexts.new.items last number }
    ensures capacity { deque_capacity nexts.new ≡ deque_capacity nexts.old }
{
    if last < nexts.len() {
        let next = nexts[last];
        nexts[last] = next.min(number);
    }
}

/// Writes the number of the entry that leads to another one, if that one is pending.
fn set_before<A: Allocator>(befores: &mut VecDeque<u64, A>, place: usize, before: u64)
    ensures long { length befores.new.items ≡ length befores.old.items }
    ensures capacity { deque_capacity befores.new ≡ deque_capacity befores.old }
{
    if place < befores.len() {
        befores[place] = before;
    }
}

/// Returns another number in place of this one if it is `old`.
fn replaced(number: u64, old: u64, new: u64) -> u64
    ensures old { number ≡ old → result ≡ new }
    ensures other { (number ≡ old → ⊥) → result ≡ number }
{
    if number == old { new } else { number }
}

impl<A: Allocator> Trails<A> {
    /// Returns the links of an empty list, allocated from `memory`.
    #[tactic(auto, unfolding(crate::specs::Sizes::bytes_of_trails))]
    pub(crate) fn new<M: VectorSource<A>>(memory: &mut M) -> Result<Trails<A>, AllocError>
        ensures empty { IfOk result (λ t. t.slots ≡ []) }
        ensures memory { Takes bytes_of_trails (M.less_than memory.old) (M.less_than memory.new) (is_ok result) }
    {
        Ok(Trails {
            slots: VecDeque::from_vec(memory.with_capacity(ROOM)?),
            nexts: VecDeque::from_vec(memory.with_capacity(ROOM)?),
            befores: VecDeque::from_vec(memory.with_capacity(ROOM)?),
            starts: filled(memory, OPEN, SLOTS)?,
            nears: filled(memory, OPEN, SLOTS)?,
            lasts: filled(memory, OPEN, SLOTS)?,
            base: 0,
        })
    }

    /// Returns the number of the entry at a place.
    pub(crate) fn number(&self, place: usize) -> u64
        ensures { result ≡ min (self.now.base + place) (2 ^ 64 - 1) }
    {
        self.base.saturating_add(place as u64)
    }

    /// Returns the place of the entry with a number. If that entry is gone, returns the first place.
    pub(crate) fn place(&self, number: u64) -> usize {
        number.saturating_sub(self.base) as usize
    }

    /// Returns the first place at which an entry of a slot may stand that can find a partner.
    pub(crate) fn start(&self, slot: usize) -> usize
        requires slot { slot < 65522 }
        ensures { result ≡ slice_index self.now.starts slot - self.now.base }
    {
        self.starts[slot].saturating_sub(self.base) as usize
    }

    /// Returns the first place at which a near entry of a slot may stand.
    pub(crate) fn near_start(&self, slot: usize) -> usize
        requires slot { slot < 65522 }
        ensures { result ≡ slice_index self.now.nears slot - self.now.base }
    {
        self.nears[slot].saturating_sub(self.base) as usize
    }

    /// Returns the next place after this one at which an entry of a slot may stand that can find a partner.
    pub(crate) fn next(&self, place: usize, slot: usize) -> usize
        requires place { place < length self.now.slots }
        ensures later { place < result }
        ensures passed { (k : ℕ) → place < k → k < result → k < length self.now.slots → slice_index self.now.slots k ≡ slot → Reaches self.now k → ⊥ }
    {
        if self.slots[place] as usize != slot {
            return place + 1;
        }
        let next = self.nexts[place].saturating_sub(self.base) as usize;
        if next <= place { place + 1 } else { next }
    }

    /// Appends an entry of a slot.
    pub(crate) fn push(&mut self, slot: usize)
        requires slot { slot < 65522 }
        requires room { length self.old.slots < 65536 }
        ensures slots { self.new.slots ≡ self.old.slots ++ slot ∷ [] }
        ensures here { Reaches self.new (length self.old.slots) }
        ensures near { IsNear self.new (length self.old.slots) }
        ensures others { (k : ℕ) → k < length self.old.slots → Reaches self.old k → Reaches self.new k }
        ensures nears { (k : ℕ) → k < length self.old.slots → IsNear self.old k → IsNear self.new k }
    {
        let number = self.number(self.slots.len());
        let before = self.lasts[slot];
        let last = pending_place(before, self.base);
        close(&mut self.nexts, last, number);
        let start = self.starts[slot];
        self.starts[slot] = start.min(number);
        let near = self.nears[slot];
        self.nears[slot] = near.min(number);
        self.lasts[slot] = number;
        self.slots.push_back_reserved(slot as u32);
        self.nexts.push_back_reserved(OPEN);
        self.befores.push_back_reserved(before);
    }

    /// Marks that the entry at a place can no longer find a partner.
    pub(crate) fn pass(&mut self, place: usize)
        requires place { place < length self.old.slots }
        ensures slots { self.new.slots ≡ self.old.slots }
        ensures others { (k : ℕ) → k < length self.old.slots → (k ≡ place → ⊥) → Reaches self.old k → Reaches self.new k }
        ensures nears { (k : ℕ) → k < length self.old.slots → (k ≡ place → ⊥) → Reaches self.old k → IsNear self.old k → IsNear self.new k }
    {
        let slot = self.slots[place] as usize;
        let number = self.number(place);
        let next = self.nexts[place];
        let start = self.starts[slot];
        self.starts[slot] = replaced(start, number, next);
        let near = self.nears[slot];
        self.nears[slot] = replaced(near, number, next);
        self.unlink(place);
    }

    /// Removes the link to the entry at a place.
    fn unlink(&mut self, place: usize)
        requires place { place < length self.old.slots }
        ensures slots { self.new.slots ≡ self.old.slots }
        ensures starts { self.new.starts ≡ self.old.starts }
        ensures nears { self.new.nears ≡ self.old.nears }
        ensures base { self.new.base ≡ self.old.base }
        ensures others { (k : ℕ) → k < length self.old.slots → (k ≡ place → ⊥) → Reaches self.old k → Reaches self.new k }
    {
        let number = self.number(place);
        let from = pending_place(self.befores[place], self.base);
        if from < place && self.slots[from] == self.slots[place] && self.nexts[from] == number {
            self.lead(from, place);
        }
    }

    /// Moves the link of an entry to where a later one leads, which then leads nowhere.
    fn lead(&mut self, from: usize, place: usize)
        requires place { place < length self.old.slots }
        requires from { from < place }
        requires slot { slice_index self.old.slots from ≡ slice_index self.old.slots place }
        requires leads { slice_index self.old.nexts from ≡ min (self.old.base + place) (2 ^ 64 - 1) }
        ensures slots { self.new.slots ≡ self.old.slots }
        ensures starts { self.new.starts ≡ self.old.starts }
        ensures nears { self.new.nears ≡ self.old.nears }
        ensures base { self.new.base ≡ self.old.base }
        ensures others { (k : ℕ) → k < length self.old.slots → (k ≡ place → ⊥) → Reaches self.old k → Reaches self.new k }
    {
        let number = self.number(place);
        let before = self.number(from);
        let next = self.nexts[place];
        set_before(&mut self.befores, pending_place(next, self.base), before);
        let slot = self.slots[place] as usize;
        let last = self.lasts[slot];
        self.lasts[slot] = replaced(last, number, before);
        self.nexts[place] = 0;
        self.nexts[from] = next;
    }

    /// Moves the near start of a slot to a place. No entry of the slot before it is near.
    pub(crate) fn come_near(&mut self, slot: usize, place: usize)
        requires slot { slot < 65522 }
        ensures slots { self.new.slots ≡ self.old.slots }
        ensures others { (k : ℕ) → Reaches self.old k → Reaches self.new k }
        ensures nears { (k : ℕ) → (slice_index self.old.slots k ≡ slot → place ≤ k) → IsNear self.old k → IsNear self.new k }
    {
        self.nears[slot] = self.number(place);
    }

    /// Removes the first entry.
    pub(crate) fn pop(&mut self)
        requires some { 0 < length self.old.slots }
        ensures slots { self.new.slots ≡ drop 1 self.old.slots }
        ensures others { (k : ℕ) → k + 1 < length self.old.slots → Reaches self.old (k + 1) → Reaches self.new k }
        ensures nears { (k : ℕ) → k + 1 < length self.old.slots → Reaches self.old (k + 1) → IsNear self.old (k + 1) → IsNear self.new k }
    {
        self.pass(0);
        self.slots.pop_front();
        self.nexts.pop_front();
        self.befores.pop_front();
        self.base = self.base.saturating_add(1);
    }
}

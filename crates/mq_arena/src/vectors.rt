//! Vectors of fixed capacity, from memory whose sufficient size may be known.

ghost use Rattle.std.specs.Prelude.{ℕ, ◌≡◌, ◌+◌, ◌*◌, ◌≤◌, [], IfOk, IsOk, is_ok, replicate, vec_capacity};
ghost use Rattle.mq_arena.specs.Vectors.{bytes_for, IsSize, item_bytes, Takes};

use crate::lent_vectors::size_of_item;
use crate::unused_memory::{UNIT, Unused};
use std::alloc::{AllocError, Allocator};
use std_alloc::vec::Lodged;

/// The most bytes that memory has.
const GREATEST_SIZE: usize = isize::MAX as usize;

/// A source of vectors that keep their capacity. For some sources the granted size is known.
pub trait VectorSource<A: Allocator> {
    /// The limit of grants: a vector is granted if its block has fewer bytes.
    ghost less_than: { Self → ℕ };

    /// Returns an empty vector with this capacity, or an error if the source refuses it.
    fn with_capacity<T>(&mut self, capacity: usize) -> Result<Vec<T, A>, AllocError>
        ensures room { IfOk result (λ v. (v.items ≡ []) × (vec_capacity v ≡ capacity)) }
        ensures memory { Takes (bytes_for (item_bytes T.row) capacity) (less_than self.old) (less_than self.new) (is_ok result) };
}

/// The memory of an allocator, which may refuse any request.
#[derive(Clone, Copy)]
pub struct OfAllocator<A: Allocator>(pub A);

impl<A: Allocator + Copy> VectorSource<A> for OfAllocator<A> {
    ghost less_than = { λ _. 0 };

    fn with_capacity<T>(&mut self, capacity: usize) -> Result<Vec<T, A>, AllocError> {
        Vec::with_capacity(self.0, capacity)
    }
}

impl VectorSource<Lodged> for Unused {
    ghost less_than = { λ left. left + 1 };

    #[tactic(auto, unfolding(crate::specs::Vectors::bytes_for))]
    fn with_capacity<T>(&mut self, capacity: usize) -> Result<Vec<T, Lodged>, AllocError> {
        self.vec_with_capacity(capacity)
    }
}

/// Returns a vector of `count` copies of an item, or an error if the source refuses it.
pub fn filled<T: Copy, A: Allocator, M: VectorSource<A>>(
    memory: &mut M,
    item: T,
    count: usize,
) -> Result<Vec<T, A>, AllocError>
    ensures items { IfOk result (λ v. v.items ≡ replicate count item) }
    ensures memory { Takes (bytes_for (item_bytes T.row) count) (M.less_than memory.old) (M.less_than memory.new) (is_ok result) }
{
    let mut items = memory.with_capacity(count)?;
    items.resize(count, item)?;
    Ok(items)
}

/// Returns the bytes of the block of `count` items, or None if no memory is that large.
#[tactic(auto, unfolding(crate::specs::Vectors::bytes_for))]
pub fn vector_size<T>(count: usize) -> Option<usize>
    ensures { IsSize (bytes_for (item_bytes T.row) count) result }
{
    let bytes = count.checked_mul(size_of_item::<T>().max(1))?;
    if bytes > GREATEST_SIZE - (UNIT - 1) {
        return None;
    }
    Some(bytes.div_ceil(UNIT) * UNIT)
}

/// Adds two sizes. Returns None if no memory is that large.
pub fn both_sizes(first: Option<usize>, second: Option<usize>) -> Option<usize>
    ensures { (a b : ℕ) → IsSize a first → IsSize b second → IsSize (a + b) result }
{
    let (first, second) = (first?, second?);
    let bytes = first.checked_add(second)?;
    if bytes > GREATEST_SIZE {
        return None;
    }
    Some(bytes)
}

/// Multiplies a size. Returns None if no memory is that large.
pub fn times_size(count: usize, size: Option<usize>) -> Option<usize>
    ensures { (a : ℕ) → IsSize a size → IsSize (count * a) result }
{
    if count == 0 {
        return Some(0);
    }
    let bytes = count.checked_mul(size?)?;
    if bytes > GREATEST_SIZE {
        return None;
    }
    Some(bytes)
}

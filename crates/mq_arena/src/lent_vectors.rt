//! Vectors in caller-provided memory, with a fixed capacity.

ghost use Rattle.std.specs.Prelude.{◌≡◌, ◌+◌, ◌*◌, ◌^◌, ◌<◌, ◌≤◌, [], length, IsOk, IfOk, IfErr, ◌↔◌, SomeIff, vec_capacity};
ghost use Rattle.core.specs.Mem.{type_size};
ghost use Rattle.mq_arena.specs.Blocks.{size_of_block};
ghost use prog.Memory.{capped};

use crate::unused_memory::Unused;
use std::alloc::AllocError;
use std::mem::size_of;
use std_alloc::vec::{Lodged, lodge};

// Returns `size_of` of a type parameter, as a number.
pub(crate) fn size_of_item<T>() -> usize
    ensures { result ≡ capped (type_size T.row) }
{
    size_of::<T>()
}

// Returns the bytes of `count` items, if they are at most `most` and the items fewer than 2^63.
fn size_of_items<T>(count: usize, most: usize) -> Option<usize>
    requires { most < 2 ^ 63 }
    ensures { SomeIff result ((count * type_size T.row ≤ most) × (count < 2 ^ 63)) (count * type_size T.row) }
{
    let size = count.checked_mul(size_of_item::<T>())?;
    if size > most || count > isize::MAX as usize {
        return None;
    }
    Some(size)
}

// Returns an empty vector in a block, which is its capacity.
fn vec_in<T>(block: &'static mut [u128], capacity: usize) -> Vec<T, Lodged>
    requires fits { capacity * type_size T.row ≤ 16 * length block.now }
    requires small { capacity < 2 ^ 63 }
    ensures { (result.items ≡ []) × (vec_capacity result ≡ capacity) }
{
    unsafe { lodge(block.as_mut_ptr() as *mut T, 0, capacity) }
}

impl Unused {
    /// Takes an empty vector of this capacity from the front. Fails and takes nothing exactly if its block is larger
    /// than the rest, or the capacity is 2^63 or more. The second concerns only types without bytes.
    pub fn vec_with_capacity<T>(&mut self, capacity: usize) -> Result<Vec<T, Lodged>, AllocError>
        ensures granted { IsOk result ↔ ((capacity * type_size T.row ≤ self.old) × (capacity < 2 ^ 63)) }
        ensures small { self.old < 2 ^ 63 }
        ensures room { IfOk result (λ v. (v.items ≡ []) × (vec_capacity v ≡ capacity)) }
        ensures taken { IfOk result (λ _. self.new + size_of_block (capacity * type_size T.row) ≡ self.old) }
        ensures refused { IfErr result (λ _. self.new ≡ self.old) }
    {
        let size = size_of_items::<T>(capacity, self.size()).ok_or(AllocError)?;
        let block = self.take(size, 1)?;
        Ok(vec_in(block, capacity))
    }

    /// Puts a value into its own block, for good. Fails exactly if the block is larger than the rest. Then nothing is
    /// taken, and the value is dropped.
    pub fn place<'a, T>(&mut self, value: T) -> Result<&'a mut T, AllocError>
    where
        T: Drop + 'a,
        ensures granted { IsOk result ↔ (type_size T.row ≤ self.old) }
        ensures value { IfOk result (λ item. item.now ≡ value) }
        ensures taken { IfOk result (λ _. self.new + size_of_block (type_size T.row) ≡ self.old) }
        ensures refused { IfErr result (λ _. self.new ≡ self.old) }
    {
        let mut vec = self.vec_with_capacity(1)?;
        vec.push(value)?;
        Ok(&mut vec.leak()[0])
    }
}

//! An allocator that grants memory from the front and frees none.

ghost use Rattle.std.specs.Prelude.{◌≡◌, ◌+◌, ◌*◌, ◌<◌, length, IfOk, IsOk, ◌↔◌};
ghost use base.Fml.{ftrue};
ghost use Rattle.mq_arena.specs.Arenas.{memory_of};
ghost use Rattle.mq_arena.specs.Blocks.{size_of_block};

use crate::slot::Slot;
use crate::unused_memory::Unused;
use std::alloc::{AllocError, Allocator};

/// An allocator over memory that it keeps for good. It grants blocks of whole units of 16 bytes from the front, and
/// rejects a request if `Unused::take` does. `deallocate` does nothing. The arena is for one thread.
#[derive(Drop)]
pub struct Arena {
    slot: Slot,
}

impl Arena {
    /// Returns an allocator over all of the memory.
    pub fn new(memory: &'static mut [u128]) -> Arena
        ensures { memory_of result ≡ 16 * length memory.old }
    {
        Arena {
            slot: Slot::new(Unused::of(memory)),
        }
    }

    /// Puts an allocator into the first unit of its own memory, so that values without a lifetime can name it. Fails
    /// exactly if the memory has no unit.
    pub fn in_its_memory(memory: &'static mut [u128]) -> Result<&'static Arena, AllocError>
        ensures granted { IsOk result ↔ (0 < length memory.old) }
        ensures rest { IfOk result (λ arena. memory_of arena.now + 16 ≡ 16 * length memory.old) }
    {
        let units = memory.len().min(1);
        let (own, rest) = memory.split_at_mut(units);
        let arena = Unused::of(own).place(Arena::new(rest))?;
        Ok(arena)
    }

    // The slot is empty only while `take` of `Unused` runs, and that call does not come back here.
    fn take(&self, size: usize, align: usize) -> Result<&'static mut [u128], AllocError>
        ensures { IfOk result (λ block. 16 * length block.now ≡ size_of_block size) }
    {
        let mut unused = self.slot.replace(Unused::of(&mut []));
        let block = unused.take(size, align);
        self.slot.replace(unused);
        block
    }
}

unsafe impl Allocator for Arena {
    ghost dealloc_token = { λ _ _ _. ftrue };

    fn allocate(&self, size: usize, align: usize) -> Result<*mut u8, AllocError> {
        match self.take(size, align) {
            Ok(block) => Ok(block.as_mut_ptr() as *mut u8),
            Err(error) => Err(error),
        }
    }

    unsafe fn deallocate(&self, _ptr: *mut u8, _size: usize, _align: usize) {}
}

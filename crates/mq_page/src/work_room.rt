//! The memory of the page for the work of a call.

ghost use Rattle.std.specs.Prelude.{◌≡◌, ◌+◌, ◌*◌, ◌≤◌, ◌↔◌, [], IfSome, IsSome, length, vec_capacity};
ghost use Rattle.mq_arena.specs.Blocks.{size_of_block};

use crate::text_room::TextRoom;
use mq_arena::Unused;

/// The memory of a call: room for as much text as the page has room for, and the rest for the work.
#[derive(Drop)]
pub(crate) struct WorkRoom {
    pub(crate) text: TextRoom,
    pub(crate) rest: Unused,
}

impl WorkRoom {
    /// Returns the memory of a call for the part of a text after its first `skip` bytes, if the part goes to `size` bytes.
    /// Returns None if there isn't room for as much text.
    pub(crate) fn of(memory: &'static mut [u128], skip: usize, size: usize) -> Option<WorkRoom>
        ensures granted { IsSome result ↔ (size ≤ 16 * length memory.old) }
        ensures text { IfSome result (λ room. (room.text.bytes.items ≡ []) × (room.text.passed.items ≡ []) × (vec_capacity room.text.bytes ≡ size)) }
        ensures skip { IfSome result (λ room. room.text.skip ≡ skip) }
        ensures rest { IfSome result (λ room. room.rest + size_of_block size ≡ 16 * length memory.old) }
    {
        let mut rest = Unused::of(memory);
        let Ok(bytes) = rest.vec_with_capacity(size) else {
            return None;
        };
        Some(WorkRoom {
            text: TextRoom::of(bytes, skip),
            rest,
        })
    }
}

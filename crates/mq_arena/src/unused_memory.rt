//! The rest of caller-provided memory, and blocks from its front.

ghost use Rattle.std.specs.Prelude.{◌≡◌, ◌+◌, ◌*◌, ◌^◌, ◌<◌, ◌≤◌, length, IsOk, IfOk, IfErr, ◌↔◌};
ghost use Rattle.mq_arena.specs.Blocks.{size_of_block, Fits, GrantsInTurn};

use std::alloc::AllocError;
use std::marker::Model;
use std::mem;

/// The bytes of a unit, and the greatest alignment of a block.
pub(crate) const UNIT: usize = 16;

/// The memory without its granted blocks. A contract sees its bytes.
#[derive(Drop)]
pub struct Unused {
    units: &'static mut [u128],
}

impl Model for Unused {
    ghost use Rattle.std.specs.Prelude.{ℕ, ◌*◌, length};

    ghost Value = { ℕ };

    ghost view = { λ u. 16 * length u.units.now };
}

impl Unused {
    /// Returns all of the memory.
    pub fn of(units: &'static mut [u128]) -> Unused
        ensures { result ≡ 16 * length units.old }
    {
        Unused { units }
    }

    /// Returns the number of bytes that are left.
    pub fn size(&self) -> usize
        ensures size { result ≡ self.now }
        ensures small { result < 2 ^ 63 }
    {
        UNIT * self.units.len()
    }

    /// Takes a block of `size` bytes from the front. Fails and takes nothing exactly if the block is larger than the
    /// rest, or its alignment is above 16.
    pub fn take(&mut self, size: usize, align: usize) -> Result<&'static mut [u128], AllocError>
        ensures granted { IsOk result ↔ Fits self.old (size, align) }
        ensures block { IfOk result (λ block. 16 * length block.now ≡ size_of_block size) }
        ensures taken { IfOk result (λ block. self.new + size_of_block size ≡ self.old) }
        ensures refused { IfErr result (λ _. self.new ≡ self.old) }
    {
        if align > UNIT || size > self.size() {
            return Err(AllocError);
        }
        let units = mem::take(&mut self.units);
        let (block, rest) = units.split_at_mut(size.div_ceil(UNIT));
        self.units = rest;
        Ok(block)
    }
}

/// Returns the bytes that a request takes: whole units of 16.
pub fn block_size(size: usize) -> usize
    requires { size < 2 ^ 63 }
    ensures { result ≡ size_of_block size }
{
    size.div_ceil(UNIT) * UNIT
}

/// The law `GrantsInTurn`: memory of at least the size of all blocks grants a list of requests in turn. With less
/// memory, or an alignment above 16, a request fails.
pub fn granted_in_turn()
    ensures { GrantsInTurn }
{}

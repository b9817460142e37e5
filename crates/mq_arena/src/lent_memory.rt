//! Memory from C.

ghost use Rattle.std.specs.Prelude.{◌≡◌, ◌*◌, ◌^◌, ◌<◌, length};

use std::marker::Model;
use std::slice;

/// Memory that C gives an exported function for good. It is a pointer to the first unit, not null and aligned to 16
/// bytes, and the number of units of 16 bytes, together less than 2^63 bytes. The units may have any content.
#[repr(C)]
pub struct LentMemory {
    first: *mut u8,
    units: usize,
    ghost small: { 16 * units < 2 ^ 63 },
}

impl Model for LentMemory {
    ghost use Rattle.mq_arena.specs.Units.{units_at};

    ghost also_owns = { λ m. units_at m.first m.units };
}

impl LentMemory {
    /// Returns all of the units.
    pub fn into_units(self) -> &'static mut [u128]
        ensures { length result.now ≡ self.units }
    {
        let LentMemory { first, units } = self;
        unsafe { slice::from_raw_parts_mut(first as *mut u128, units) }
    }
}

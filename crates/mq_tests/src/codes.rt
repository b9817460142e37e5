//! Codes of times, with their values.

use crate::facts::expect_none_wrong_at;
use mq_wire::{code8, code16, resp8, resp16};

/// A code of 8 bits, and its value.
static OF_8_BITS: [(u8, u32); 3] = [(0x7f, 127), (0x80, 128), (0xff, 31744)];

/// A code of 16 bits, and its value.
static OF_16_BITS: [(u16, u32); 3] = [(0x7fff, 32767), (0x8000, 32768), (0xffff, 8387584)];

/// A value, and the code of 8 bits that is written for it.
static WRITTEN_IN_8_BITS: [(u32, u8); 6] = [
    (127, 0x7f),
    (128, 0x80),
    (129, 0x80),
    (136, 0x81),
    (31744, 0xff),
    (40000, 0xff),
];

/// A value, and the code of 16 bits that is written for it.
static WRITTEN_IN_16_BITS: [(u32, u16); 4] = [
    (32767, 0x7fff),
    (32775, 0x8000),
    (8387584, 0xffff),
    (8387585, 0xffff),
];

fn unless(holds: bool, fact: &'static str) -> Option<&'static str> {
    if holds {
        return None;
    }
    Some(fact)
}

#[test]
fn codes_are_read(rt: HostRuntime) {
    for (row, (code, value)) in OF_8_BITS.iter().enumerate() {
        expect_none_wrong_at(&rt, unless(resp8(*code) == *value, "8 bits"), row);
    }
    for (row, (code, value)) in OF_16_BITS.iter().enumerate() {
        expect_none_wrong_at(&rt, unless(resp16(*code) == *value, "16 bits"), row);
    }
}

#[test]
fn values_are_written(rt: HostRuntime) {
    for (row, (value, code)) in WRITTEN_IN_8_BITS.iter().enumerate() {
        expect_none_wrong_at(&rt, unless(code8(*value) == *code, "8 bits"), row);
    }
    for (row, (value, code)) in WRITTEN_IN_16_BITS.iter().enumerate() {
        expect_none_wrong_at(&rt, unless(code16(*value) == *code, "16 bits"), row);
    }
}

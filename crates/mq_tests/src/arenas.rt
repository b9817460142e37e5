//! Vectors in memory of an arena: their content, refusals, and the sufficient memory.

use crate::facts::expect_that;
use mq_arena::{Arena, Unused, block_size};
use std::alloc::{AllocError, Allocator, Global};

/// Returns an arena over this many bytes, which are a multiple of 16.
pub(crate) fn arena_of(alloc: Global, bytes: usize) -> Result<Arena, AllocError> {
    Ok(Arena::new(Vec::from_elem(alloc, u128::MAX, bytes / 16)?.leak()))
}

/// Puts `count` numbers into a list, counted from the first.
fn put_counted<A: Allocator>(
    all: &mut Vec<u32, A>,
    first: u32,
    count: u32,
) -> Result<(), AllocError> {
    for i in 0..count {
        all.push(first.wrapping_add(i))?;
    }
    Ok(())
}

/// Returns `count` numbers, counted from the first.
fn numbers<'a>(
    arena: &'a Arena,
    first: u32,
    count: u32,
) -> Result<Vec<u32, &'a Arena>, AllocError> {
    let mut all = Vec::with_capacity(arena, count as usize)?;
    put_counted(&mut all, first, count)?;
    Ok(all)
}

/// Returns whether these are `count` numbers, counted from the first.
fn are_counted(numbers: &[u32], first: u32, count: u32) -> bool {
    let mut next = first;
    for number in numbers {
        if *number != next {
            return false;
        }
        next = next.wrapping_add(1);
    }
    next == first.wrapping_add(count)
}

#[test]
fn two_vectors_keep_their_numbers(rt: HostRuntime) {
    let arena = arena_of(rt.alloc(), 64).expect(&rt, "memory to lend");
    let low = numbers(&arena, 10, 5).expect(&rt, "20 bytes");
    let mut high = numbers(&arena, 500, 7).expect(&rt, "28 bytes");
    expect_that(&rt, are_counted(&low, 10, 5), "the first vector's numbers");
    expect_that(
        &rt,
        are_counted(&high, 500, 7),
        "the second vector's numbers",
    );
    high.as_mut_slice().fill(u32::MAX);
    expect_that(
        &rt,
        are_counted(&low, 10, 5),
        "the first vector's numbers once the second is written",
    );
}

#[test]
fn what_does_not_fit_is_refused_and_takes_nothing(rt: HostRuntime) {
    let arena = arena_of(rt.alloc(), 64).expect(&rt, "memory to lend");
    expect_that(&rt, numbers(&arena, 0, 17).is_err(), "68 bytes of 64");
    let first = numbers(&arena, 0, 9).expect(&rt, "36 bytes, as 48");
    expect_that(&rt, numbers(&arena, 0, 5).is_err(), "20 bytes of 16");
    let second = numbers(&arena, 40, 4).expect(&rt, "the last 16 bytes");
    expect_that(&rt, numbers(&arena, 0, 1).is_err(), "4 bytes of none");
    expect_that(&rt, are_counted(&first, 0, 9), "the first vector's numbers");
    expect_that(
        &rt,
        are_counted(&second, 40, 4),
        "the second vector's numbers",
    );
}

#[test]
fn a_vector_grows_where_there_is_room(rt: HostRuntime) {
    let arena = arena_of(rt.alloc(), 16 + 32).expect(&rt, "memory to lend");
    let mut all = numbers(&arena, 0, 4).expect(&rt, "16 bytes");
    all.push(4).expect(&rt, "a second block");
    expect_that(
        &rt,
        are_counted(&all, 0, 5),
        "the numbers in the second block",
    );
    expect_that(&rt, all.reserve(4).is_err(), "a third block is refused");
    expect_that(&rt, are_counted(&all, 0, 5), "the numbers, as they were");
}

#[test]
fn what_is_dropped_does_not_come_back(rt: HostRuntime) {
    let arena = arena_of(rt.alloc(), 32).expect(&rt, "memory to lend");
    drop(numbers(&arena, 0, 5));
    expect_that(
        &rt,
        numbers(&arena, 0, 1).is_err(),
        "memory of a vector that is gone",
    );
}

#[test]
fn numbers_of_each_width_stand_beside_one_another(rt: HostRuntime) {
    let arena = arena_of(rt.alloc(), 48).expect(&rt, "memory to lend");
    let bytes = Vec::from_elem(&arena, 7u8, 3).expect(&rt, "3 bytes");
    let long = Vec::from_elem(&arena, u128::MAX, 1).expect(&rt, "16 bytes, aligned to 16");
    let words = Vec::from_elem(&arena, 9u64, 2).expect(&rt, "16 bytes, aligned to 8");
    expect_that(&rt, bytes.as_slice() == [7, 7, 7].as_slice(), "the bytes");
    expect_that(
        &rt,
        long.as_slice() == [u128::MAX].as_slice(),
        "the long number",
    );
    expect_that(&rt, words.as_slice() == [9, 9].as_slice(), "the words");
}

#[test]
fn a_vector_holds_its_arena(rt: HostRuntime) {
    let arena = arena_of(rt.alloc(), 16).expect(&rt, "memory to lend");
    let mut words = Vec::from_elem(arena, 9u64, 2).expect(&rt, "16 bytes");
    expect_that(&rt, words.push(10).is_err(), "no memory for a third word");
    expect_that(&rt, words.as_slice() == [9, 9].as_slice(), "two words");
}

/// Returns an arena that lies in its memory of this many units.
fn arena_in(alloc: Global, units: usize) -> Result<&'static Arena, AllocError> {
    Arena::in_its_memory(Vec::from_elem(alloc, 0, units)?.leak())
}

#[test]
fn an_arena_takes_the_first_unit_of_its_memory(rt: HostRuntime) {
    expect_that(&rt, arena_in(rt.alloc(), 0).is_err(), "no unit to lie in");
    let arena = arena_in(rt.alloc(), 3).expect(&rt, "memory to lend");
    let first = numbers(arena, 1, 4).expect(&rt, "the second unit");
    let second = numbers(arena, 9, 4).expect(&rt, "the third unit");
    expect_that(&rt, numbers(arena, 0, 1).is_err(), "no more");
    expect_that(&rt, are_counted(&first, 1, 4), "the first vector's numbers");
    expect_that(
        &rt,
        are_counted(&second, 9, 4),
        "the second vector's numbers",
    );
}

/// Returns memory of this many units, from which no block was taken.
fn unused_units(alloc: Global, units: usize) -> Result<Unused, AllocError> {
    Ok(Unused::of(Vec::from_elem(alloc, u128::MAX, units)?.leak()))
}

#[test]
fn as_many_bytes_as_the_blocks_suffice(rt: HostRuntime) {
    let total = block_size(0) + block_size(1) + block_size(16) + block_size(17);
    expect_that(&rt, total == 64, "whole units");
    let mut unused = unused_units(rt.alloc(), 4).expect(&rt, "memory to lend");
    expect_that(&rt, unused.take(0, 1).is_ok(), "no byte");
    expect_that(&rt, unused.take(1, 2).is_ok(), "one byte");
    expect_that(&rt, unused.take(16, 16).is_ok(), "16 bytes");
    expect_that(&rt, unused.take(33, 8).is_err(), "33 bytes of 32");
    expect_that(&rt, unused.take(17, 4).is_ok(), "17 bytes");
    expect_that(&rt, unused.size() == 0, "no byte is left");
    expect_that(&rt, unused.take(0, 16).is_ok(), "no byte of none");
    expect_that(&rt, unused.take(0, 32).is_err(), "an alignment of 32");
    expect_that(&rt, unused.take(1, 1).is_err(), "one byte of none");
}

#[test]
fn a_vector_has_its_room_from_the_start(rt: HostRuntime) {
    let mut unused = unused_units(rt.alloc(), 4).expect(&rt, "memory to lend");
    let too_large = unused.vec_with_capacity::<u32>(17);
    expect_that(&rt, too_large.is_err(), "68 bytes of 64");
    let mut low = unused.vec_with_capacity(5).expect(&rt, "20 bytes");
    let mut high = unused.vec_with_capacity(7).expect(&rt, "28 bytes");
    expect_that(&rt, unused.size() == 0, "no byte is left");
    put_counted(&mut low, 10, 5).expect(&rt, "room for five numbers");
    put_counted(&mut high, 500, 7).expect(&rt, "room for seven numbers");
    expect_that(&rt, low.push(15).is_err(), "no room for a sixth");
    expect_that(&rt, high.reserve(1).is_err(), "no room for an eighth");
    expect_that(&rt, are_counted(&low, 10, 5), "the first vector's numbers");
    expect_that(
        &rt,
        are_counted(&high, 500, 7),
        "the second vector's numbers",
    );
    drop(low);
    let another = unused.vec_with_capacity::<u8>(1);
    expect_that(&rt, another.is_err(), "memory of a vector that is gone");
}

#[test]
fn what_has_no_bytes_takes_none(rt: HostRuntime) {
    let mut unused = unused_units(rt.alloc(), 1).expect(&rt, "memory to lend");
    let mut none = unused.vec_with_capacity::<u64>(0).expect(&rt, "no number");
    expect_that(&rt, none.push(1).is_err(), "no room for a number");
    let mut empty = unused
        .vec_with_capacity(usize::MAX / 2)
        .expect(&rt, "2^63 - 1 of no bytes");
    expect_that(&rt, empty.push(()).is_ok(), "one of no bytes");
    let too_many = unused.vec_with_capacity::<()>(usize::MAX / 2 + 1);
    expect_that(&rt, too_many.is_err(), "2^63 of no bytes");
    let overflow = unused.vec_with_capacity::<u64>(usize::MAX / 8 + 2);
    expect_that(&rt, overflow.is_err(), "2^64 + 8 bytes");
    expect_that(&rt, unused.size() == 16, "all bytes are left");
}

#[test]
fn a_value_has_a_block_of_its_own(rt: HostRuntime) {
    let mut unused = unused_units(rt.alloc(), 3).expect(&rt, "memory to lend");
    let too_large = unused.place([0u64; 7]);
    expect_that(&rt, too_large.is_err(), "56 bytes of 48");
    let small: &'static mut u8 = unused.place(7).expect(&rt, "one byte");
    let large: &'static mut [u64; 4] = unused.place([1, 2, 3, 4]).expect(&rt, "32 bytes");
    *small = 9;
    expect_that(&rt, *large == [1, 2, 3, 4], "the words");
    expect_that(&rt, *small == 9, "the byte");
    expect_that(&rt, unused.place(1u8).is_err(), "no byte is left");
}

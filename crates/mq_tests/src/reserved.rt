//! Storage that reserves its memory when it is made, if one request for memory is refused.

use crate::facts::{expect_none_wrong, expect_that};
use mq_arena::OfAllocator;
use mq_count::{Addr4, Meter};
use mq_sched::Deadlines;
use mq_sets::{Memory, Pool, SourceSet};
use mq_table::Group;
use std::alloc::Global;

/// Returns a set with room for two members. Like the functions below, it asks again after a refusal.
fn set_of_two(alloc: Global) -> Result<SourceSet<Addr4>, Memory> {
    match SourceSet::with_room(alloc, 2) {
        Err(Memory) => SourceSet::with_room(alloc, 2),
        made => made,
    }
}

fn pool_of_two(alloc: Global) -> Result<Pool<u8>, Memory> {
    match Pool::new(&mut OfAllocator(alloc), 2, 4) {
        Err(Memory) => Pool::new(&mut OfAllocator(alloc), 2, 4),
        made => made,
    }
}

fn deadlines_of_two(alloc: Global) -> Result<Deadlines, Memory> {
    match Deadlines::with_room(&mut OfAllocator(alloc), 2) {
        Err(Memory) => Deadlines::with_room(&mut OfAllocator(alloc), 2),
        made => made,
    }
}

fn group_of_two(alloc: Global) -> Result<Group<Addr4>, Memory> {
    match Group::with_room(alloc, 2) {
        Err(Memory) => Group::with_room(alloc, 2),
        made => made,
    }
}

/// Returns what is wrong with an empty set that has room for two members.
fn wrong_set(set: &mut SourceSet<Addr4>) -> Option<&'static str> {
    if !set.is_empty() || set.room() != 2 {
        return Some("no member, and room for two");
    }
    for number in 1..3 {
        let member = Addr4::from_octets([10, 0, 0, number]);
        if set.insert(member, 2, &mut Meter::new()).is_err() {
            return Some("a member within the room");
        }
    }
    None
}

/// Returns what is wrong with a pool of two rows without cells, which may have four.
fn wrong_pool(pool: &mut Pool<u8>) -> Option<&'static str> {
    if pool.rows() != 2 || pool.room() != 4 {
        return Some("two rows, and room for four cells");
    }
    pool.remove_row(1);
    if !pool.row(0).is_empty() || !pool.row(1).is_empty() {
        return Some("rows without cells");
    }
    None
}

#[test]
fn a_refused_set_or_group_is_made_at_the_next_try(rt: HostRuntime) {
    let mut set = set_of_two(rt.alloc()).expect(&rt, "memory for a set");
    expect_none_wrong(&rt, wrong_set(&mut set), "a set");
    let group = group_of_two(rt.alloc()).expect(&rt, "memory for a group");
    expect_that(&rt, group.is_vacant(), "a vacant group");
}

#[test]
fn a_refused_pool_or_index_is_made_at_the_next_try(rt: HostRuntime) {
    let mut pool = pool_of_two(rt.alloc()).expect(&rt, "memory for a pool");
    expect_none_wrong(&rt, wrong_pool(&mut pool), "a pool");
    let deadlines = deadlines_of_two(rt.alloc()).expect(&rt, "memory for an index");
    expect_that(&rt, deadlines.len() == 0, "no moment");
    expect_that(&rt, deadlines.earliest().is_none(), "no earliest");
}

//! Storage in memory of an arena: sets, addresses by number, and the groups that a link holds.

ghost use Rattle.std.specs.Prelude.{◌≡◌};

use crate::arenas::arena_of;
use crate::facts::{expect_none_wrong, expect_that};
use mq_arena::{Arena, OfAllocator};
use mq_count::{Addr4, Meter, Moves};
use mq_held::HeldGroups;
use mq_sched::Deadlines;
use mq_sets::{InsertFault, NumberedKeys, Pool, SourceSet};

fn address(number: u8) -> Addr4 {
    Addr4::from_octets([10, 0, 0, number])
}

/// Requires that a set grows to four members and to eight, in 16 bytes and in 32.
#[test]
fn a_set_grows_until_lent_memory_is_refused(rt: HostRuntime) {
    let arena = arena_of(rt.alloc(), 48).expect(&rt, "memory to lend");
    let mut set = SourceSet::empty(&arena);
    let mut m = Meter::new();
    for number in 1..9 {
        expect_that(
            &rt,
            set.insert(address(number), 366, &mut m).is_ok(),
            "a member",
        );
    }
    expect_that(
        &rt,
        set.insert(address(9), 366, &mut m) == Err(InsertFault::Memory),
        "no memory for a ninth member",
    );
    expect_that(&rt, set.len() == 8, "eight members");
}

/// Numbers an address that isn't there.
fn numbered(keys: &mut NumberedKeys<Addr4, &Arena>, key: Addr4) -> Option<u16>
    requires { keys.old.room ≡ 2 }
    ensures { keys.new.room ≡ 2 }
{
    if keys.len() == 2 {
        return None;
    }
    match keys.find(key, &mut Meter::new()) {
        Ok(_) => None,
        Err(spot) => Some(keys.insert(spot, key, &mut Moves::none())),
    }
}

/// Removes an address that is there.
fn taken_out(keys: &mut NumberedKeys<Addr4, &Arena>, key: Addr4) -> Option<u16>
    ensures { keys.new.room ≡ keys.old.room }
{
    let mut m = Meter::new();
    let number = keys.find(key, &mut m).ok()?;
    keys.remove(number, &mut m, &mut Moves::none());
    Some(number)
}

/// Returns what is wrong with a set of two addresses, one of them removed again, in memory of an arena.
fn wrong_keys(arena: &Arena) -> Option<&'static str> {
    let Ok(mut keys) = NumberedKeys::with_room(&mut OfAllocator(arena), 2) else {
        return Some("memory for two addresses");
    };
    let (first, second) = (
        numbered(&mut keys, address(7)),
        numbered(&mut keys, address(3)),
    );
    if keys.len() != 2 || first == second {
        return Some("two addresses with their numbers");
    }
    if second != Some(keys.number(0)) || first != Some(keys.number(1)) {
        return Some("the order");
    }
    if numbered(&mut keys, address(5)).is_some() {
        return Some("no room for a third");
    }
    if taken_out(&mut keys, address(3)) != second || taken_out(&mut keys, address(3)).is_some() {
        return Some("the second is taken out");
    }
    if keys.len() != 1 || first != Some(keys.number(0)) {
        return Some("the first alone");
    }
    None
}

#[test]
fn addresses_are_numbered_in_lent_memory(rt: HostRuntime) {
    let arena = arena_of(rt.alloc(), 4096).expect(&rt, "memory to lend");
    expect_none_wrong(&rt, wrong_keys(&arena), "two addresses");
}

/// Returns what is wrong with storage that was made in memory of an arena for three groups, and holds none yet.
fn wrong_storage(held: &HeldGroups<Addr4, &Arena>) -> Option<&'static str> {
    if held.len() != 0 || held.free_sources() != 8 {
        return Some("the room");
    }
    if held.find(address(1), &mut Meter::new()).is_ok() || held.earliest().is_some() {
        return Some("a group");
    }
    if held.entries().next().is_some() {
        return Some("an entry");
    }
    None
}

#[test]
fn groups_have_room_in_lent_memory(rt: HostRuntime) {
    let arena = arena_of(rt.alloc(), 8192).expect(&rt, "memory to lend");
    let held = HeldGroups::with_room(&mut OfAllocator(&arena), 3, 8).expect(
        &rt,
        "memory for three groups",
    );
    expect_none_wrong(&rt, wrong_storage(&held), "no groups");
}

#[test]
fn storage_is_refused_where_lent_memory_ends(rt: HostRuntime) {
    let arena = arena_of(rt.alloc(), 16).expect(&rt, "memory to lend");
    let keys: Result<NumberedKeys<Addr4, &Arena>, _> = NumberedKeys::with_room(
        &mut OfAllocator(&arena),
        2,
    );
    expect_that(&rt, keys.is_err(), "addresses");
    let rows: Result<Pool<u8, &Arena>, _> = Pool::new(&mut OfAllocator(&arena), 2, 40);
    expect_that(&rt, rows.is_err(), "rows");
    let moments = Deadlines::with_room(&mut OfAllocator(&arena), 2);
    expect_that(&rt, moments.is_err(), "moments");
    let held: Result<HeldGroups<Addr4, &Arena>, _> = HeldGroups::with_room(
        &mut OfAllocator(&arena),
        1,
        1,
    );
    expect_that(&rt, held.is_err(), "groups");
}

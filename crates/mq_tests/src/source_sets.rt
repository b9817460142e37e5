//! Sets after a refused growth and at their limit, the comparisons of a search, and the texts of rejected members.

use crate::facts::{expect_none_wrong_at, expect_that};
use mq_count::{Addr4, Meter};
use mq_sets::{InsertFault, Memory, SourceSet};
use std::alloc::AllocError;
use std::process::Abort;

fn address(number: u16) -> Addr4 {
    let [high, low] = number.to_be_bytes();
    Addr4::from_octets([10, 0, high, low])
}

static TEN: [u16; 10] = [40, 10, 30, 20, 50, 60, 15, 35, 25, 5];

/// Returns what is wrong after an insert of a number that is no member yet. If memory was refused, it is after a second
/// try.
fn wrong_insert(set: &mut SourceSet<Addr4>, number: u16) -> Option<&'static str> {
    let mut m = Meter::new();
    let len = set.len();
    let outcome = set.insert(address(number), 366, &mut m);
    let is_member = set.position(address(number), &mut m).is_some();
    if outcome == Err(InsertFault::Memory) {
        if set.len() != len || is_member {
            return Some("as it was");
        }
        if set.insert(address(number), 366, &mut m).is_err() {
            return Some("the next try");
        }
    } else if outcome.is_err() || !is_member {
        return Some("it is inserted");
    }
    if set.len() <= len {
        return Some("one more member");
    }
    None
}

/// Passes whichever request for memory is refused: `rt try --test --fail-alloc N` refuses the Nth.
#[test]
fn a_refused_growth_leaves_the_set_as_it_was(rt: HostRuntime) {
    let mut set = SourceSet::empty(rt.alloc());
    for place in 0..TEN.len() {
        expect_none_wrong_at(&rt, wrong_insert(&mut set, TEN[place]), place);
    }
    expect_that(&rt, set.len() == 10, "ten members");
}

/// Inserts with a limit of two members: the number, and the fault.
static INSERTS: [(u16, Option<InsertFault>); 5] = [
    (3, None),
    (1, None),
    (2, Some(InsertFault::TooMany)),
    (1, None),
    (3, None),
];

/// Returns what is wrong after an insert with a limit of two members.
fn wrong_at_the_limit(
    set: &mut SourceSet<Addr4>,
    number: u16,
    fault: Option<InsertFault>,
) -> Option<&'static str> {
    let mut m = Meter::new();
    let len = set.len();
    if set.insert(address(number), 2, &mut m).err() != fault {
        return Some("the fault");
    }
    if len == 0 && m.spent() != 0 {
        return Some("the first insert compares nothing");
    }
    if len == 2 && set.len() != 2 {
        return Some("two members");
    }
    None
}

/// Returns whether the member at a place has this number.
fn has_at(set: &SourceSet<Addr4>, place: usize, number: u16) -> bool {
    match set.get(place) {
        Some(key) => key.octets() == address(number).octets(),
        None => false,
    }
}

#[test]
fn a_set_at_its_limit_takes_no_new_member(rt: HostRuntime) {
    let mut set = SourceSet::empty(rt.alloc());
    for place in 0..INSERTS.len() {
        let (number, fault) = INSERTS[place];
        expect_none_wrong_at(&rt, wrong_at_the_limit(&mut set, number, fault), place);
    }
    expect_that(&rt, has_at(&set, 0, 1), "the lower member");
    expect_that(&rt, has_at(&set, 1, 3), "the higher member");
}

/// Returns what is wrong with a search for a number in the set of the even numbers below 732.
fn wrong_search(set: &SourceSet<Addr4>, number: u16) -> Option<&'static str> {
    let mut m = Meter::new();
    let is_member = set.position(address(number), &mut m).is_some();
    if is_member != (number % 2 == 0 && number < 732) {
        return Some("whether it is a member");
    }
    if m.spent() < 1 || m.spent() > 9 {
        return Some("one to nine comparisons");
    }
    None
}

#[test]
fn a_search_among_366_takes_one_to_nine_comparisons(rt: HostRuntime) {
    let mut set = SourceSet::with_room(rt.alloc(), 366).expect(&rt, "memory for a set");
    for number in 0..366 {
        let _ = set.insert(address(2 * number), 366, &mut Meter::new());
    }
    expect_that(&rt, set.len() == 366, "366 members");
    for number in 0..800 {
        expect_none_wrong_at(&rt, wrong_search(&set, number), number as usize);
    }
}

/// Ends the test unless the text is this one.
fn expect_said(rt: &impl Abort, said: Result<String, AllocError>, want: &str) {
    let text = said.expect(rt, "memory for a text");
    expect_that(rt, text.as_str() == want, want);
}

#[test]
fn faults_name_what_happened(rt: HostRuntime) {
    let many = InsertFault::TooMany.to_string(rt.alloc());
    expect_said(&rt, many, "the set has as many members as its limit allows");
    let memory = InsertFault::Memory.to_string(rt.alloc());
    expect_said(&rt, memory, "no memory for one more member of the set");
    expect_said(&rt, Memory.to_string(rt.alloc()), "out of memory");
}

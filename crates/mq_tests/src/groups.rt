//! A group after a refused growth, and a group that is loaded from its head and its sources.

ghost use Rattle.std.specs.Prelude.{◌≤◌};

use crate::facts::expect_none_wrong;
use mq_count::{Addr4, Meter, Moment};
use mq_sets::SourceSet;
use mq_table::{Group, Kind, Source, Timing};
use std::alloc::Global;

/// Returns the group after a record, for which memory may be refused once, or what failed.
fn grown(
    alloc: Global,
    group: &Group<Addr4>,
    kind: Kind,
    set: &SourceSet<Addr4>,
) -> Result<Group<Addr4>, &'static str> {
    let (timing, mut m) = (Timing::new(2, 125, 10000, 1000).unwrap(), Meter::new());
    let start = Moment::from_ms(0).unwrap();
    let size = group.sources().len();
    if let Ok(change) = group.apply(alloc, kind, set, start, &timing, &mut m) {
        return Ok(change.group);
    }
    if group.sources().len() != size {
        return Err("as it was");
    }
    match group.apply(alloc, kind, set, start, &timing, &mut m) {
        Ok(change) => Ok(change.group),
        Err(_) => Err("memory for a group"),
    }
}

/// Passes whichever request for memory is refused: `rt try --test --fail-alloc N` refuses the Nth.
#[test]
fn a_refused_growth_leaves_the_group_as_it_was(rt: HostRuntime) {
    let mut set = SourceSet::empty(rt.alloc());
    // Each is inserted twice, so it is a member even if the first time is refused.
    for letter in b"aabbccdd" {
        let _ = set.insert(
            Addr4::from_octets([10, 0, 0, *letter]),
            4,
            &mut Meter::new(),
        );
    }
    let mut group = Group::vacant(rt.alloc());
    for kind in [Kind::Allow, Kind::ToIn, Kind::Block, Kind::ToEx] {
        group = grown(rt.alloc(), &group, kind, &set).expect(&rt, "grown");
        assert!(rt; group.sources().len() == 4);
    }
}

/// Returns whether two moments are equal, or both absent.
pub fn are_equal(first: Option<Moment>, second: Option<Moment>) -> bool {
    let mut m = Meter::new();
    match (first, second) {
        (Some(a), Some(b)) => m.reached(a, b) && m.reached(b, a),
        (None, None) => true,
        _ => false,
    }
}

/// Loads a group of at most four sources, and returns what is wrong with the copy.
fn wrong_copy(copy: &mut Group<Addr4>, group: &Group<Addr4>) -> Option<&'static str>
    requires { 4 ≤ copy.old.room }
{
    if group.sources().len() > 4 {
        return Some("at most four sources");
    }
    copy.load(group.head(), group.sources());
    if !are_equal(copy.mode().deadline(), group.mode().deadline())
        || !are_equal(copy.v2(), group.v2())
    {
        return Some("the head");
    }
    wrong_row(copy.sources(), group.sources())
}

/// Returns what is wrong with a row of sources: it has other addresses or deadlines than these.
fn wrong_row(row: &[Source<Addr4>], want: &[Source<Addr4>]) -> Option<&'static str> {
    if row.len() != want.len() {
        return Some("the count of sources");
    }
    for place in 0..row.len() {
        let (is, wanted) = (row[place], want[place]);
        if is.address.octets() != wanted.address.octets() {
            return Some("an address");
        }
        if !are_equal(is.timer.deadline(), wanted.timer.deadline()) {
            return Some("a deadline");
        }
    }
    None
}

#[test]
fn a_group_is_loaded_from_its_head_and_its_sources(rt: HostRuntime) {
    let mut set = SourceSet::empty(rt.alloc());
    for letter in b"dbca" {
        let _ = set.insert(
            Addr4::from_octets([10, 0, 0, *letter]),
            4,
            &mut Meter::new(),
        );
    }
    let vacant = Group::vacant(rt.alloc());
    let allowed = grown(rt.alloc(), &vacant, Kind::Allow, &set).expect(&rt, "grown");
    let group = grown(rt.alloc(), &allowed, Kind::ToEx, &set).expect(&rt, "grown");
    let mut copy = Group::with_room(rt.alloc(), 4).expect(&rt, "memory for a group");
    expect_none_wrong(&rt, wrong_copy(&mut copy, &group), "a copy");
}

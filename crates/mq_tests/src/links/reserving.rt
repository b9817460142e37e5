//! Links whose memory is refused once, and links in exactly the memory that they need.

use crate::links::facts::at;
use crate::links::given::{Given, configured, given_of};
use crate::links::written::Written;
use mq_arena::{Lodged, OfAllocator, Unused, VectorSource};
use mq_link::{Config, Igmp, Link, Mld};
use std::alloc::{Allocator, Global};
use std::process::Abort;

/// A kind of memory for a link.
trait Reserves<A: Allocator> {
    /// Makes a link that starts at 0, or says what is wrong.
    fn link<F: Written>(alloc: Global, given: &Given<'_>) -> Result<Link<F, A>, &'static str>;
}

/// Makes a configuration without a fault.
fn faultless<F: Written>(given: &Given<'_>) -> Result<Config<F>, &'static str> {
    match configured::<F>(given) {
        Some(Ok(config)) => Ok(config),
        _ => Err("another configuration"),
    }
}

/// Makes a link in some memory.
fn link_in<F: Written, A: Allocator, M: VectorSource<A>>(
    memory: &mut M,
    given: &Given<'_>,
) -> Result<Link<F, A>, &'static str> {
    match Link::new_in(memory, faultless(given)?, at(0)) {
        Ok(link) => Ok(link),
        Err(_) => Err("memory for a link"),
    }
}

/// Takes units of memory that nothing else uses again.
fn lent(alloc: Global, units: usize) -> Result<Unused, &'static str> {
    match Vec::from_elem(alloc, u128::MAX, units) {
        Ok(units) => Ok(Unused::of(units.leak())),
        Err(_) => Err("memory to lend"),
    }
}

/// The heap.
struct OnHeap;

impl Reserves<Global> for OnHeap {
    fn link<F: Written>(alloc: Global, given: &Given<'_>) -> Result<Link<F>, &'static str> {
        link_in(&mut OfAllocator(alloc), given)
    }
}

/// Exactly the memory that a link says it needs. One unit fewer is refused.
struct InLentMemory;

impl Reserves<Lodged> for InLentMemory {
    fn link<F: Written>(alloc: Global, given: &Given<'_>) -> Result<Link<F, Lodged>, &'static str> {
        let Some(size) = Link::<F, Lodged>::size(&faultless(given)?) else {
            return Err("a size");
        };
        let units = size / 16;
        let mut too_little = lent(alloc, units.saturating_sub(1))?;
        if link_in::<F, Lodged, Unused>(&mut too_little, given).is_ok() {
            return Err("a link in too little memory");
        }
        let mut memory = lent(alloc, units)?;
        let link = link_in(&mut memory, given)?;
        if memory.size() > 0 {
            return Err("memory that is left");
        }
        Ok(link)
    }
}

/// Makes a link, also after one refused request for memory.
fn made<F: Written, A: Allocator, R: Reserves<A>>(
    alloc: Global,
    line: &str,
) -> Result<Link<F, A>, &'static str> {
    let Some(given) = given_of(F::given(), line) else {
        return Err("no configuration");
    };
    match R::link(alloc, &given) {
        Ok(link) => Ok(link),
        Err(_) => R::link(alloc, &given),
    }
}

/// Makes a link, and returns the fault unless it begins as querier without a group.
fn wrong_with<F: Written, A: Allocator, R: Reserves<A>>(
    alloc: Global,
    line: &str,
) -> Option<&'static str> {
    match made::<F, A, R>(alloc, line) {
        Ok(link) if link.is_querier() && link.len() == 0 => None,
        Ok(_) => Some("another link"),
        Err(what) => Some(what),
    }
}

static LINES: [&str; 3] = [
    "link",
    "link groups=1 group_sources=1 sources=1 scheduled=1",
    "link group_sources=1024",
];

fn expect_links<F: Written>(rt: &impl Abort, alloc: Global) {
    for line in LINES {
        for wrong in [
            wrong_with::<F, Global, OnHeap>(alloc, line),
            wrong_with::<F, Lodged, InLentMemory>(alloc, line),
        ] {
            if let Some(what) = wrong {
                panic!(rt; "{line}: {what}");
            }
        }
    }
}

#[test]
fn a_refused_link_of_igmp_is_made_at_the_next_try(rt: HostRuntime) {
    expect_links::<Igmp>(&rt, rt.alloc());
}

#[test]
fn a_refused_link_of_mld_is_made_at_the_next_try(rt: HostRuntime) {
    expect_links::<Mld>(&rt, rt.alloc());
}

//! Links and workspaces of the greatest limits, and of limits just above half of them, on the heap.

use crate::links::facts::at;
use mq_count::{Addr4, Addr6};
use mq_link::{BareLink, Config, Family, Igmp, Limits, Link, Mld, Workspace};
use std::alloc::Global;
use std::process::Abort;

const MOST: [Limits; 2] = [
    Limits {
        groups: 65535,
        group_sources: 1024,
        sources: 65535,
        scheduled: 65535,
    },
    Limits {
        groups: 32768,
        group_sources: 513,
        sources: 32768,
        scheduled: 32768,
    },
];

/// Returns the family's defaults with other limits, or None if these have a fault.
fn configured<F: Family>(limits: Limits, own: F::Address) -> Option<Config<F>> {
    let defaults = F::defaults();
    let made = Config::new(
        defaults.robustness,
        defaults.query_seconds,
        defaults.response_interval,
        defaults.last_member_interval,
        limits,
        own,
        false,
    );
    made.ok()
}

fn has_workspace<F: Family>(alloc: Global, limits: &Limits) -> bool {
    Workspace::<F, Global>::with_room(alloc, limits).is_ok()
}

fn has_bare_link<F: Family>(alloc: Global, config: Config<F>) -> bool {
    BareLink::new(alloc, config, at(0)).is_ok()
}

fn has_link<F: Family>(alloc: Global, config: Config<F>) -> bool {
    Link::new(alloc, config, at(0)).is_ok()
}

/// Returns whether the heap has memory for a workspace of these limits, a link without one, and a link. Returns None if
/// the limits have a fault.
fn has_memory<F: Family>(alloc: Global, limits: Limits, own: F::Address) -> Option<bool> {
    let bare = has_bare_link(alloc, configured::<F>(limits, own)?);
    let link = has_link(alloc, configured::<F>(limits, own)?);
    Some(bare & link & has_workspace::<F>(alloc, &limits))
}

fn expect_memory<F: Family>(rt: &impl Abort, alloc: Global, own: F::Address) {
    for limits in MOST {
        assert!(rt;
            has_memory::<F>(alloc, limits, own) == Some(true),
            "memory for limits of {}",
            limits.groups
        );
    }
}

#[test]
fn the_heap_has_memory_for_igmp(rt: HostRuntime) {
    expect_memory::<Igmp>(&rt, rt.alloc(), Addr4::from_octets([10, 0, 0, 9]));
}

#[test]
fn the_heap_has_memory_for_mld(rt: HostRuntime) {
    let mut own = [0; 16];
    own[0] = 0xfe;
    own[1] = 0x80;
    own[15] = 9;
    expect_memory::<Mld>(&rt, rt.alloc(), Addr6::from_octets(own));
}

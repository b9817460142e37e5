//! Hosts of older versions in a group.

ghost use Rattle.std.specs.Prelude.{◌≡◌, ◌+◌, ◌^◌, ◌≤◌, true, false};
ghost use Rattle.mq_count.specs.Spending.{Spends};
ghost use Rattle.std.specs.FinMap.{FinMap};
ghost use Rattle.std.specs.Ordering.{nat_cmp};
ghost use Rattle.mq_table.specs.Group.{SourceTimer};
ghost use Rattle.mq_table.specs.Stored.{state_of};
ghost use Rattle.mq_table.specs.Table.{NamedSources};
ghost use Rattle.mq_table.specs.OlderHosts.{hosts_of, translated, with_sources, older_host};

use crate::group::Group;
use crate::heads::Head;
use crate::kind::Kind;
use crate::timers::runs_on;
use crate::timing::Timing;
use mq_count::{Key, Meter, Moment, OlderVersion};
use std::alloc::Allocator;

/// The older versions that have hosts in a group, as far as the router knows. MLD has version 1 alone. RFC 3376 section
/// 7.3.2, RFC 3810 section 8.3.2.
#[derive(Clone, Copy)]
pub struct Hosts {
    pub v1: bool,
    pub v2: bool,
}

/// Returns the kind that a record has while older hosts are in its group, and whether it counts without its sources.
/// Returns None if the record is ignored. IGMP ignores a Leave, and TO_IN as which it acts, while a host of version 1
/// is there (`v1_mutes_leave`); MLD doesn't. `muted` means that records of this kind and messages of older versions
/// don't count in the group's range.
pub fn translate(
    kind: Kind,
    hosts: Hosts,
    v1_mutes_leave: bool,
    muted: bool,
) -> Option<(Kind, bool)>
    ensures { (named : NamedSources) → translated v1_mutes_leave muted hosts kind named ≡ with_sources named result }
{
    if muted {
        return None;
    }
    let has_older = hosts.v1 || hosts.v2;
    match kind {
        Kind::Block if has_older => None,
        Kind::ToEx => Some((kind, has_older)),
        Kind::ToIn if v1_mutes_leave && hosts.v1 => None,
        _ => Some((kind, false)),
    }
}

impl Head {
    /// Returns the older versions that have hosts in the group, whatever its sources are. RFC 3376 section 7.3.2, RFC
    /// 3810 section 8.3.2.
    pub fn compat(&self, now: Moment, m: &mut Meter) -> Hosts
        ensures hosts { (timers : FinMap nat_cmp SourceTimer) → result ≡ hosts_of (state_of self.now timers) now }
        ensures spent { Spends 0 2 m.old m.new }
    {
        Hosts {
            v1: runs_on(self.v1, now, m),
            v2: runs_on(self.v2, now, m),
        }
    }
}

impl<K: Key, A: Allocator> Group<K, A> {
    /// Sets the host-present timer of a version whose Report was received to the older host present interval. The
    /// Report also acts as IS_EX of no source.
    pub fn older(&mut self, version: OlderVersion, now: Moment, timing: &Timing)
        requires in_range { now ≤ 2 ^ 53 }
        ensures state { self.new.state ≡ older_host version timing.now now self.old.state }
        ensures room { self.new.room ≡ self.old.room }
    {
        let deadline = now.after(timing.older_host_present());
        match version {
            OlderVersion::V1 => self.v1 = Some(deadline),
            OlderVersion::V2 => self.v2 = Some(deadline),
        }
    }
}

//! The data that cross beside the objects. Their layouts are those of `include/mquerier.h`, which says what each field
//! is.

ghost use Rattle.std.specs.Prelude.{◌≡◌, ◌<◌, ◌^◌};

use mq_link::MOST_RANGES;

/// The settings of a link, for both families.
#[repr(C)]
#[derive(Clone, Copy)]
pub struct Settings {
    pub robustness: u32,
    pub query_interval: u32,
    pub response_interval: u32,
    pub last_member_interval: u32,
    pub last_member_query_count: u32,
    pub groups: u32,
    pub group_sources: u32,
    pub sources: u32,
    pub scheduled: u32,
}

/// A range of groups of IGMP. A `rule` of 0 is an unused place, 1 allows its groups, and others deny them.
#[repr(C)]
#[derive(Clone, Copy)]
pub struct IgmpRange {
    pub address: [u8; 4],
    pub length: u8,
    pub rule: u8,
}

/// A range of groups of MLD.
#[repr(C)]
#[derive(Clone, Copy)]
pub struct MldRange {
    pub address: [u8; 16],
    pub length: u8,
    pub rule: u8,
}

/// The configuration of an IGMP link.
#[repr(C)]
#[derive(Clone, Copy)]
pub struct IgmpConfig {
    pub settings: Settings,
    pub own: [u8; 4],
    pub source_specific: u8,
    pub ranges: [IgmpRange; MOST_RANGES],
}

/// The configuration of an MLD link.
#[repr(C)]
#[derive(Clone, Copy)]
pub struct MldConfig {
    pub settings: Settings,
    pub own: [u8; 16],
    pub source_specific: u8,
    pub ranges: [MldRange; MOST_RANGES],
}

/// The result of a call.
#[repr(C)]
#[derive(Clone, Copy)]
pub struct Answer {
    pub status: u32,
    pub dropped: u32,
    pub applied: u32,
    pub ignored: u32,
    pub refused: u32,
    pub sent: u32,
    pub unsent: u32,
    pub written: u64,
}

/// A group that an IGMP link holds.
#[repr(C)]
#[derive(Clone, Copy)]
pub struct IgmpGroup {
    pub address: [u8; 4],
    pub sources: u32,
    pub deadline: u64,
    pub v1: u64,
    pub v2: u64,
}

/// A source of a group that an IGMP link holds.
#[repr(C)]
#[derive(Clone, Copy)]
pub struct IgmpSource {
    pub address: [u8; 4],
    pub deadline: u64,
}

/// A group that an MLD link holds.
#[repr(C)]
#[derive(Clone, Copy)]
pub struct MldGroup {
    pub address: [u8; 16],
    pub sources: u32,
    pub deadline: u64,
    pub v1: u64,
}

/// A source of a group that an MLD link holds.
#[repr(C)]
#[derive(Clone, Copy)]
pub struct MldSource {
    pub address: [u8; 16],
    pub deadline: u64,
}

/// The number of groups and sources of a page that were written.
#[repr(C)]
#[derive(Clone, Copy)]
pub struct Page {
    pub groups: u32,
    pub sources: u32,
}

/// Returns a page of this many groups and sources.
pub(crate) fn page_of(groups: usize, sources: usize) -> Page
    requires groups { groups < 2 ^ 32 }
    requires sources { sources < 2 ^ 32 }
    ensures { result ≡ record { groups = groups; sources = sources } }
{
    Page {
        groups: groups as u32,
        sources: sources as u32,
    }
}

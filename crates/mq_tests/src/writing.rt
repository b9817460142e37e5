//! Queries as they are written, and too few bytes.

ghost use Rattle.std.specs.Prelude.{◌≡◌, ◌≤◌, length};
ghost use Rattle.mq_wire.specs.Canon.{IsCurrent, source_count};

use crate::facts::{expect_none_wrong, expect_that};
use mq_count::{Addr4, Addr6};
use mq_wire::{
    Qrv, QuerierFields, Query, QueryVersion, Small, Sources, WireKey, write_igmp, write_mld,
};

/// Returns a query with a robustness variable of 2 and an interval of 125 seconds.
fn query<'a, K: WireKey>(group: K, response: u32, suppress: bool, sources: &'a [K]) -> Query<'a, K>
    ensures version { IsCurrent result.version }
    ensures counted { source_count result.version ≡ length sources.entry.now }
{
    Query {
        group,
        response,
        version: QueryVersion::Current(QuerierFields {
            suppress,
            robustness: Qrv::new(2),
            interval: 125,
            sources: Sources::lent(sources),
        }),
    }
}

/// A query, its number of the two sources, and its text in 20 bytes.
type Row = (
    &'static str,
    [u8; 4],
    u32,
    bool,
    usize,
    usize,
    &'static [u8; 20],
);

static ROWS: [Row; 3] = [
    (
        "a General Query",
        [0, 0, 0, 0],
        10000,
        false,
        0,
        12,
        b"\x11\x64\xec\x1e\0\0\0\0\x02\x7d\0\0\xee\xee\xee\xee\xee\xee\xee\xee",
    ),
    (
        "a Group-Specific Query",
        [239, 1, 2, 3],
        1000,
        true,
        0,
        12,
        b"\x11\x0a\xf3\x73\xef\x01\x02\x03\x0a\x7d\0\0\xee\xee\xee\xee\xee\xee\xee\xee",
    ),
    (
        "a response that is lowered to a whole tenth of a second",
        [232, 1, 1, 1],
        1099,
        false,
        2,
        20,
        b"\x11\x0a\xef\x70\xe8\x01\x01\x01\x02\x7d\0\x02\x0a\0\0\x01\x0a\0\0\x02",
    ),
];

/// Returns what is wrong with the text of a query.
fn wrong_igmp(row: &Row) -> Option<&'static str> {
    let (_, group, response, suppress, count, length, want) = *row;
    let sources = [
        Addr4::from_octets([10, 0, 0, 1]),
        Addr4::from_octets([10, 0, 0, 2]),
    ];
    let group = Addr4::from_octets(group);
    let query = query(group, response, suppress, &sources[..count.min(2)]);
    let mut out = [0xee; 20];
    if write_igmp(&query, &mut out) != Ok(length) {
        return Some("the length");
    }
    if out != *want {
        return Some("the bytes");
    }
    None
}

#[test]
fn writes_igmp(rt: HostRuntime) {
    for row in &ROWS {
        expect_none_wrong(&rt, wrong_igmp(row), row.0);
    }
}

static OWN: [u8; 16] = *b"\xfe\x80\0\0\0\0\0\0\0\0\0\0\0\0\0\x01";

static GENERAL: [u8; 30] =
    *b"\x82\0\x56\x96\x27\x10\0\0\0\0\0\0\0\0\0\0\0\0\0\0\0\0\0\0\x02\x7d\0\0\xee\xee";

#[test]
fn writes_mld(rt: HostRuntime) {
    let mut out = [0xee; 30];
    let general = query(Addr6::default(), 10000, false, &[]);
    let written = write_mld(Addr6::from_octets(OWN), &general, &mut out);
    expect_that(&rt, written == Ok(28), "the length");
    expect_that(&rt, out == GENERAL, "the bytes");
}

#[test]
fn leaves_bytes_that_are_too_few(rt: HostRuntime) {
    let general = query(Addr4::default(), 10000, false, &[]);
    let mut out = [0xee; 11];
    let written = write_igmp(&general, &mut out);
    expect_that(&rt, written == Err(Small { needed: 12 }), "what is needed");
    expect_that(&rt, out == [0xee; 11], "the bytes are left");
}

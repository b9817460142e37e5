//! The effect of a record on a group in each row of the tables: its sources with their retransmissions to go, and its
//! queries. RFC 3376 section 6.4, RFC 3810 section 7.4.

ghost use Rattle.std.specs.Prelude.{◌≡◌, ◌≤◌, ◌^◌};

use crate::facts::expect_none_wrong_at;
use crate::groups::are_equal;
use mq_count::{Addr4, Meter, Moment};
use mq_sets::SourceSet;
use mq_table::{Change, Group, Kind, SourceTimer, Timing};
use std::alloc::Global;

/// A source: its letter, with the deadline of its timer and its retransmissions to go, or None if the timer is stopped.
type Listed = (u8, Option<(u64, u32)>);

/// A group: the deadline of EXCLUDE, and its sources in ascending order.
type State = (Option<u64>, &'static [Listed]);

/// A record of sources, a letter for each, and its moment.
type Record = (u64, Kind, &'static [u8]);

/// A row: the group before the record, the record at 1000 ms, the group after it, the sources to query, and whether the
/// group is to query.
type Row = (State, Record, State, &'static [u8], bool);

/// INCLUDE of a and b.
const INCLUDE: State = (
    None,
    &[(b'a', Some((260000, 2))), (b'b', Some((260000, 2)))],
);

/// EXCLUDE in which the timers of a and d run, and that of b is stopped.
const EXCLUDE: State = (
    Some(260000),
    &[
        (b'a', Some((260500, 2))),
        (b'b', None),
        (b'd', Some((260500, 2))),
    ],
);

/// INCLUDE with the sources of a record added.
const INCLUDE_AND_ADDED: State = (
    None,
    &[
        (b'a', Some((260000, 2))),
        (b'b', Some((261000, 2))),
        (b'c', Some((261000, 0))),
    ],
);

/// EXCLUDE with the sources of a record added.
const EXCLUDE_AND_ADDED: State = (
    Some(260000),
    &[
        (b'a', Some((260500, 2))),
        (b'b', Some((261000, 0))),
        (b'c', Some((261000, 0))),
        (b'd', Some((261000, 2))),
    ],
);

/// INCLUDE after an EXCLUDE record of b and c.
const EXCLUDE_OF_INCLUDE: State = (Some(261000), &[(b'b', Some((260000, 2))), (b'c', None)]);

static ROWS: [Row; 12] = [
    (
        INCLUDE,
        (1000, Kind::IsIn, b"bc"),
        INCLUDE_AND_ADDED,
        b"",
        false,
    ),
    (
        INCLUDE,
        (1000, Kind::IsEx, b"bc"),
        EXCLUDE_OF_INCLUDE,
        b"",
        false,
    ),
    (
        INCLUDE,
        (1000, Kind::Allow, b"bc"),
        INCLUDE_AND_ADDED,
        b"",
        false,
    ),
    (INCLUDE, (1000, Kind::Block, b"bc"), INCLUDE, b"b", false),
    (
        INCLUDE,
        (1000, Kind::ToEx, b"bc"),
        EXCLUDE_OF_INCLUDE,
        b"b",
        false,
    ),
    (
        INCLUDE,
        (1000, Kind::ToIn, b"bc"),
        INCLUDE_AND_ADDED,
        b"a",
        false,
    ),
    (
        EXCLUDE,
        (1000, Kind::IsIn, b"bcd"),
        EXCLUDE_AND_ADDED,
        b"",
        false,
    ),
    (
        EXCLUDE,
        (1000, Kind::IsEx, b"bcd"),
        (
            Some(261000),
            &[
                (b'b', None),
                (b'c', Some((261000, 0))),
                (b'd', Some((260500, 2))),
            ],
        ),
        b"",
        false,
    ),
    (
        EXCLUDE,
        (1000, Kind::Allow, b"bcd"),
        EXCLUDE_AND_ADDED,
        b"",
        false,
    ),
    (
        EXCLUDE,
        (1000, Kind::Block, b"bcd"),
        (
            Some(260000),
            &[
                (b'a', Some((260500, 2))),
                (b'b', None),
                (b'c', Some((260000, 0))),
                (b'd', Some((260500, 2))),
            ],
        ),
        b"cd",
        false,
    ),
    (
        EXCLUDE,
        (1000, Kind::ToEx, b"bcd"),
        (
            Some(261000),
            &[
                (b'b', None),
                (b'c', Some((260000, 0))),
                (b'd', Some((260500, 2))),
            ],
        ),
        b"cd",
        false,
    ),
    (
        EXCLUDE,
        (1000, Kind::ToIn, b"bcd"),
        EXCLUDE_AND_ADDED,
        b"a",
        true,
    ),
];

/// The records that make the groups before, and the moment when two queries are asked of their running sources: then
/// their timers are lowered to the deadlines of the row.
type Before = (&'static [Record], u64);

/// For INCLUDE.
static BEFORE_INCLUDE: Before = (&[(1000, Kind::Allow, b"ab")], 258000);

/// For EXCLUDE.
static BEFORE_EXCLUDE: Before = (
    &[(0, Kind::ToEx, b"ab"), (1000, Kind::Allow, b"ad")],
    258500,
);

fn source_of(letter: u8) -> Addr4 {
    Addr4::from_octets([10, 0, 0, letter])
}

/// Returns the change of a group by a record.
fn recorded(
    alloc: Global,
    group: &Group<Addr4>,
    record: &Record,
) -> Result<Change<Addr4>, &'static str> {
    let mut m = Meter::new();
    let mut named = SourceSet::empty(alloc);
    for letter in record.2 {
        if named.insert(source_of(*letter), 8, &mut m).is_err() {
            return Err("memory for a set");
        }
    }
    let timing = Timing::new(2, 125, 10000, 1000).unwrap();
    let Some(now) = Moment::from_ms(record.0) else {
        return Err("the moment");
    };
    group
        .apply(alloc, record.1, &named, now, &timing, &mut m)
        .map_err(|_| "memory for a group")
}

/// Returns the group with two queries asked of each running source at a moment.
fn asked(alloc: Global, group: &Group<Addr4>, at: u64) -> Result<Group<Addr4>, &'static str> {
    let timing = Timing::new(2, 125, 10000, 1000).unwrap();
    let Some(now) = Moment::from_ms(at) else {
        return Err("the moment");
    };
    // A record of no source, after which each running source is to query.
    let (none, mut m) = (SourceSet::empty(alloc), Meter::new());
    let Ok(change) = group.apply(alloc, Kind::ToIn, &none, now, &timing, &mut m) else {
        return Err("memory for a group");
    };
    let Change {
        group: mut asked,
        query,
        ..
    } = change;
    asked.start_retransmissions(query.as_slice(), now, &timing, &mut m);
    Ok(asked)
}

/// Returns the group before the record of a row.
fn before(alloc: Global, row: &Row) -> Result<Group<Addr4>, &'static str> {
    let (records, at) = match row.0.0 {
        None => BEFORE_INCLUDE,
        Some(_) => BEFORE_EXCLUDE,
    };
    let mut group = Group::vacant(alloc);
    for record in records {
        group = recorded(alloc, &group, record)?.group;
    }
    asked(alloc, &group, at)
}

/// Returns whether a timer is that of a listed source, with its retransmissions to go.
fn is_timer(timer: SourceTimer, listed: Option<(u64, u32)>) -> bool {
    let Some((deadline, left)) = listed else {
        return timer.deadline().is_none();
    };
    let retransmissions = match timer {
        SourceTimer::Stopped => 0,
        SourceTimer::Running(_, retransmissions) => retransmissions,
    };
    are_equal(timer.deadline(), Moment::from_ms(deadline)) && retransmissions == left
}

/// Returns what of a group differs from the state of a row.
fn wrong_group(group: &Group<Addr4>, state: &State) -> Option<&'static str> {
    let (deadline, sources) = *state;
    if !are_equal(group.mode().deadline(), deadline.and_then(Moment::from_ms)) {
        return Some("the mode");
    }
    if !are_equal(group.v1(), None) || !are_equal(group.v2(), None) {
        return Some("an older host");
    }
    if group.sources().len() != sources.len() {
        return Some("the count of sources");
    }
    for (source, listed) in group.sources().iter().zip(sources) {
        if source.address.octets() != source_of(listed.0).octets() {
            return Some("a source");
        }
        if !is_timer(source.timer, listed.1) {
            return Some("a timer or its retransmissions");
        }
    }
    None
}

/// Returns what of the queries of a change differs from its row.
fn wrong_queries(change: &Change<Addr4>, row: &Row) -> Option<&'static str> {
    if change.query.len() != row.3.len() || change.query_group != row.4 {
        return Some("what is asked for");
    }
    for (key, letter) in change.query.iter().zip(row.3) {
        if key.octets() != source_of(*letter).octets() {
            return Some("a source that is asked for");
        }
    }
    None
}

/// Returns what is wrong with the change of a group by the record of a row.
fn wrong_row(alloc: Global, row: &Row) -> Option<&'static str> {
    let group = match before(alloc, row) {
        Ok(group) => group,
        Err(fault) => return Some(fault),
    };
    if wrong_group(&group, &row.0).is_some() {
        return Some("the group before");
    }
    match recorded(alloc, &group, &row.1) {
        Ok(change) => wrong_group(&change.group, &row.2).or(wrong_queries(&change, row)),
        Err(fault) => Some(fault),
    }
}

#[test]
fn each_row_of_the_tables_makes_its_group(rt: HostRuntime) {
    for (number, row) in ROWS.iter().enumerate() {
        expect_none_wrong_at(&rt, wrong_row(rt.alloc(), row), number);
    }
}

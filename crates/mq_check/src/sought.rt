//! The search for the querier of a capture and its variables.

ghost use Rattle.std.specs.Prelude.{◌≡◌, nat_lt, ⊤};
ghost use Rattle.mq_wire.specs.Numbered.{numbered_query};
ghost use Rattle.mq_check.specs.Announced as spec;
ghost use Rattle.mq_check.specs.Numbered.{numbered_announced_if, numbered_asked_last, numbered_asked_last_if, numbered_others, numbered_sought, numbered_sought_if};

use crate::announced::Announced;
use crate::checked_family::CheckedFamily;
use crate::others::Others;
use crate::stamp::Stamp;
use crate::terms::interval_said;
use crate::wanting::{is_general, sources_of};
use mq_count::{Key, Meter};
use mq_lines::LineKey;
use mq_wire::{Query, QueryVersion, WireKey};
use std::alloc::AllocError;
use std::cmp::Ordering;

/// The querier by the packets so far.
pub struct Sought<K: WireKey> {
    /// Its address.
    pub querier: K,
    /// The variables that it announces, as in `Announced`.
    pub robustness: Option<u32>,
    /// The Query Interval in seconds.
    pub query_seconds: Option<u32>,
    /// The Query Response Interval in milliseconds.
    pub response_interval: Option<u32>,
    /// The Last Member Query Interval in milliseconds.
    pub last_member_interval: Option<u32>,
    /// The other sources of general queries.
    pub others: Others<K>,
    /// The milliseconds of its last general query.
    pub general: u64,
    /// Its last query for a group or for sources.
    pub asked: Option<AskedLast<K>>,
}

impl<K: WireKey> Clone for Sought<K> {
    ghost is_clone = { λ x y. y ≡ x };

    ghost is_infallible = { λ _. ⊤ };

    fn clone(&self) -> Result<Self, AllocError> {
        Ok(*self)
    }
}

impl<K: WireKey> Copy for Sought<K> {}

/// A query for a group or for sources.
pub struct AskedLast<K: WireKey> {
    /// The group.
    pub group: K,
    /// The number of sources.
    pub sources: u64,
    /// The milliseconds of the query.
    pub at: u64,
}

impl<K: WireKey> Clone for AskedLast<K> {
    ghost is_clone = { λ x y. y ≡ x };

    ghost is_infallible = { λ _. ⊤ };

    fn clone(&self) -> Result<Self, AllocError> {
        Ok(*self)
    }
}

impl<K: WireKey> Copy for AskedLast<K> {}

/// Returns the querier and its variables, if a querier is known.
pub(crate) fn found_in<K: WireKey>(sought: Option<Sought<K>>) -> Option<Announced<K>>
    ensures { numbered_announced_if K.number result ≡ spec.found_in (numbered_sought_if K.number sought) }
{
    match sought {
        Some(sought) => Some(Announced {
            querier: sought.querier,
            robustness: sought.robustness,
            query_seconds: sought.query_seconds,
            response_interval: sought.response_interval,
            last_member_interval: sought.last_member_interval,
            beside: sought.others,
        }),
        None => None,
    }
}

/// Returns what is known up to and including a query.
pub(crate) fn with_query<F: CheckedFamily>(
    stamp: Stamp,
    source: F::Address,
    query: &Query<'_, F::Address>,
    sought: Option<Sought<F::Address>>,
) -> Option<Sought<F::Address>>
where
    F::Address: LineKey,
    ensures { numbered_sought_if F.Address.number result
        ≡ spec.with_one F.FAMILY stamp (F.Address.number source) (numbered_query F.Address.number query.now) (numbered_sought_if F.Address.number sought) }
{
    let is_of_all = is_general::<F>(query);
    match sought {
        None if is_of_all => Some(sought_by(stamp, source, query, Others::none())),
        None => None,
        Some(sought) if is_of_all => Some(with_general(stamp, source, query, sought)),
        Some(sought) => Some(with_specific::<F>(stamp, source, query, sought)),
    }
}

/// Returns what is known by the first general query of the lowest source. `others` are the other ones so far.
fn sought_by<K: WireKey>(
    stamp: Stamp,
    source: K,
    query: &Query<'_, K>,
    others: Others<K>,
) -> Sought<K>
    ensures { numbered_sought K.number result ≡ spec.sought_by stamp (K.number source) (numbered_query K.number query.now) (numbered_others K.number others) }
{
    let (robustness, query_seconds) = match &query.version {
        QueryVersion::Older(_) => (None, None),
        QueryVersion::Current(fields) => (
            Some(u32::from(fields.robustness.get())),
            if_any(fields.interval),
        ),
    };
    Sought {
        querier: source,
        robustness,
        query_seconds,
        response_interval: if_any(query.response),
        last_member_interval: None,
        others,
        general: stamp.ms(),
        asked: None,
    }
}

/// Returns what is known up to and including a general query after the first one.
fn with_general<K: WireKey>(
    stamp: Stamp,
    source: K,
    query: &Query<'_, K>,
    sought: Sought<K>,
) -> Sought<K>
    ensures { numbered_sought K.number result
        ≡ spec.with_general stamp (K.number source) (numbered_query K.number query.now) (numbered_sought K.number sought) }
{
    match source.order(sought.querier, &mut Meter::new()) {
        Ordering::Less => sought_by(stamp, source, query, sought.others.with(sought.querier)),
        Ordering::Equal => with_general_again(stamp, sought),
        Ordering::Greater => with_other(source, sought),
    }
}

/// Returns what is known after a further general query of the querier, which shows its interval.
fn with_general_again<K: WireKey>(stamp: Stamp, sought: Sought<K>) -> Sought<K>
    ensures { numbered_sought K.number result ≡ spec.with_general_again stamp (numbered_sought K.number sought) }
{
    let passed = stamp.ms().saturating_sub(sought.general);
    let query_seconds = match sought.query_seconds {
        Some(announced) => Some(shown_seconds(passed, announced)),
        None => None,
    };
    Sought {
        query_seconds,
        general: stamp.ms(),
        ..sought
    }
}

/// Returns what is known after a general query from a higher address.
fn with_other<K: WireKey>(source: K, sought: Sought<K>) -> Sought<K>
    ensures { numbered_sought K.number result ≡ spec.with_other (K.number source) (numbered_sought K.number sought) }
{
    Sought {
        others: sought.others.with(source),
        ..sought
    }
}

/// Returns what is known after a query for a group or for sources. Two on one group show the interval of
/// retransmissions.
fn with_specific<F: CheckedFamily>(
    stamp: Stamp,
    source: F::Address,
    query: &Query<'_, F::Address>,
    sought: Sought<F::Address>,
) -> Sought<F::Address>
where
    F::Address: LineKey,
    ensures { numbered_sought F.Address.number result
        ≡ spec.with_specific F.FAMILY stamp (F.Address.number source) (numbered_query F.Address.number query.now) (numbered_sought F.Address.number sought) }
{
    if !F::is_same(source, sought.querier) {
        return sought;
    }
    let asked = AskedLast {
        group: query.group,
        sources: sources_of(&query.version).len() as u64,
        at: stamp.ms(),
    };
    let announced = sought.last_member_interval.or(if_any(query.response));
    Sought {
        last_member_interval: shown_interval::<F>(asked, sought.asked, announced),
        asked: Some(asked),
        ..sought
    }
}

/// Returns the interval of retransmissions that two queries show, or else the announced one.
fn shown_interval<F: CheckedFamily>(
    asked: AskedLast<F::Address>,
    last: Option<AskedLast<F::Address>>,
    announced: Option<u32>,
) -> Option<u32>
where
    F::Address: LineKey,
    ensures { result ≡ spec.shown_interval F.FAMILY (numbered_asked_last F.Address.number asked) (numbered_asked_last_if F.Address.number last) announced }
{
    let announced = announced?;
    match last {
        Some(last) if F::is_same(last.group, asked.group) && last.sources == asked.sources => Some(
            shown_response::<F>(asked.at.saturating_sub(last.at), announced),
        ),
        _ => Some(announced),
    }
}

/// Returns the Query Interval in seconds that a time between two general queries shows.
///
/// It is this time, if it has the code of the announced interval. Otherwise it is the announced interval.
fn shown_seconds(passed: u64, announced: u32) -> u32
    ensures { result ≡ spec.shown_seconds passed announced }
{
    if passed >= 31_744_500 {
        return announced;
    }
    let seconds = ((passed + 500) / 1000) as u32;
    if interval_said(seconds) == announced {
        seconds
    } else {
        announced
    }
}

/// Returns the interval of retransmissions in milliseconds that a time between two queries shows.
///
/// It is this time in tenths of a second, if it has the code of the announced response. Otherwise it is the response.
fn shown_response<F: CheckedFamily>(passed: u64, announced: u32) -> u32
where
    F::Address: LineKey,
    ensures { result ≡ spec.shown_response F.FAMILY passed announced }
{
    if passed >= 3_174_450 {
        return announced;
    }
    let response = ((passed + 50) / 100 * 100) as u32;
    if F::response_said(response) == announced {
        response
    } else {
        announced
    }
}

/// Returns a value, unless it is 0.
fn if_any(value: u32) -> Option<u32>
    ensures { result ≡ spec.if_any value }
{
    if value == 0 { None } else { Some(value) }
}

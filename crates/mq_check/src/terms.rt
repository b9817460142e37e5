//! Fields of queries other than their subject.

ghost use Rattle.std.specs.Prelude.{◌≡◌, ⊤};
ghost use Rattle.mq_wire.specs.Numbered.{numbered_query};
ghost use Rattle.mq_wire.specs.RoundTrip.{interval_lowered};
ghost use Rattle.mq_lines.specs.Text.{older_version};
ghost use Rattle.mq_check.specs.Entries as entries;
ghost use Rattle.mq_check.specs.Numbered.{numbered_terms};
ghost use Rattle.mq_check.specs.Queries as spec;

use crate::checked_family::CheckedFamily;
use mq_lines::LineKey;
use mq_link::Config;
use mq_table::Timing;
use mq_wire::{OlderVersion, Query, QueryVersion, WireKey};
use std::alloc::AllocError;

/// The version, the fields and the destination of a query, and its packet.
pub struct Terms<K: WireKey> {
    /// The version: 1 to 3 for IGMP, 1 or 2 for MLD.
    pub version: u8,
    /// The response in milliseconds, decoded from its code. A query of IGMPv1 has none.
    pub response: Option<u32>,
    /// The fields that only queries of IGMPv3 and MLDv2 have.
    pub querier: Option<QuerierTerms>,
    /// The destination of its packet.
    pub to: K,
    /// The number of its packet, which no comparison reads. A wanted query has that of the packet which makes the link send
    /// it, or which started its schedule.
    pub packet: u64,
}

impl<K: WireKey> Clone for Terms<K> {
    ghost is_clone = { λ x y. y ≡ x };

    ghost is_infallible = { λ _. ⊤ };

    fn clone(&self) -> Result<Self, AllocError> {
        Ok(*self)
    }
}

impl<K: WireKey> Copy for Terms<K> {}

/// The further fields of an IGMPv3 or MLDv2 query (RFC 3376 sections 4.1.5 to 4.1.7, RFC 3810 sections 5.1.7 to 5.1.9).
#[derive(Clone, Copy)]
pub struct QuerierTerms {
    /// The S flag.
    pub suppress: bool,
    /// QRV, from 0 to 7.
    pub robustness: u8,
    /// The interval in seconds, decoded from QQIC.
    pub interval: u32,
}

/// Returns the number of an older version.
fn number_of(version: OlderVersion) -> u8
    ensures { result ≡ older_version version }
{
    match version {
        OlderVersion::V1 => 1,
        OlderVersion::V2 => 2,
    }
}

/// Returns the terms of a query to an address, with the number of a packet.
pub(crate) fn terms_of<F: CheckedFamily>(
    packet: u64,
    to: F::Address,
    query: &Query<'_, F::Address>,
) -> Terms<F::Address>
where
    F::Address: LineKey,
    ensures { numbered_terms F.Address.number result ≡ spec.terms_of F.FAMILY packet (F.Address.number to) (numbered_query F.Address.number query.now) }
{
    match &query.version {
        QueryVersion::Older(version) => Terms {
            version: number_of(*version),
            response: if F::Address::has_response(*version) {
                Some(query.response)
            } else {
                None
            },
            querier: None,
            to,
            packet,
        },
        QueryVersion::Current(fields) => Terms {
            version: F::Address::current_version(),
            response: Some(F::response_said(query.response)),
            querier: Some(QuerierTerms {
                suppress: fields.suppress,
                robustness: fields.robustness.get(),
                interval: interval_said(fields.interval),
            }),
            to,
            packet,
        },
    }
}

/// Returns the further fields of a query under this timing in force, with S clear.
fn in_force_terms(in_force: Timing) -> QuerierTerms
    ensures { result ≡ spec.in_force_terms in_force }
{
    in_force.is_in_range();
    QuerierTerms {
        suppress: false,
        robustness: in_force.robustness() as u8,
        interval: interval_said(in_force.query_seconds()),
    }
}

/// Returns the terms of a general query under this timing in force.
pub(crate) fn general_terms<F: CheckedFamily>(
    config: &Config<F>,
    in_force: Timing,
) -> Terms<F::Address>
where
    F::Address: LineKey,
    ensures { numbered_terms F.Address.number result ≡ spec.general_terms config.now in_force }
{
    config.is_faultless();
    Terms {
        version: F::Address::current_version(),
        response: Some(F::response_said(config.response_interval())),
        querier: Some(in_force_terms(in_force)),
        to: F::general_destination(),
        packet: 0,
    }
}

/// Returns the terms of the first query for a group or for its sources, which a change in a packet asks for.
pub(crate) fn specific_terms<F: CheckedFamily>(
    config: &Config<F>,
    in_force: Timing,
    packet: u64,
    group: F::Address,
) -> Terms<F::Address>
where
    F::Address: LineKey,
    ensures { numbered_terms F.Address.number result
        ≡ spec.specific_terms config.now in_force packet (F.Address.number group) }
{
    config.is_faultless();
    Terms {
        version: F::Address::current_version(),
        response: Some(F::response_said(config.last_member_interval())),
        querier: Some(in_force_terms(in_force)),
        to: group,
        packet,
    }
}

/// Returns an interval in seconds after it is rounded by QQIC.
pub(crate) fn interval_said(seconds: u32) -> u32
    ensures { result ≡ interval_lowered seconds }
{
    mq_wire::resp8(mq_wire::code8(seconds))
}

/// Returns whether the S flag is set.
pub(crate) fn is_suppressed(querier: Option<QuerierTerms>) -> bool
    ensures { result ≡ entries.is_suppressed querier }
{
    match querier {
        Some(querier) => querier.suppress,
        None => false,
    }
}

/// Returns the fields with this S flag.
pub(crate) fn with_suppress(suppress: bool, wanted: Option<QuerierTerms>) -> Option<QuerierTerms>
    ensures { result ≡ entries.with_suppress suppress wanted }
{
    match wanted {
        Some(wanted) => Some(QuerierTerms {
            suppress,
            robustness: wanted.robustness,
            interval: wanted.interval,
        }),
        None => None,
    }
}

/// Returns the terms of a wanted query, with the S flag of a seen one.
pub(crate) fn with_s_of<K: WireKey>(seen: &Terms<K>, wanted: &Terms<K>) -> Terms<K>
    ensures { numbered_terms K.number result
        ≡ entries.with_s_of (numbered_terms K.number seen.now) (numbered_terms K.number wanted.now) }
{
    Terms {
        version: wanted.version,
        response: wanted.response,
        querier: with_suppress(is_suppressed(seen.querier), wanted.querier),
        to: wanted.to,
        packet: wanted.packet,
    }
}

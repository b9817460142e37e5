//! Queries of the checked router in a capture.

ghost use Rattle.std.specs.Prelude.{◌≡◌};
ghost use Rattle.mq_check.specs.Queries as spec;
ghost use Rattle.mq_check.specs.Headers.{has_wrong_checksum, is_broken_query, is_own_query};
ghost use Rattle.mq_check.specs.Numbered.{numbered_query_if};

use crate::checked_family::CheckedFamily;
use mq_lines::LineKey;
use mq_link::{Config, Family};
use mq_walk::{CapturedDatagram, CapturedFamily};
use mq_wire::{Message, Query, WireFault};

/// Returns the query in a datagram, if it comes from the checked router and hosts act on it.
pub(crate) fn query_seen<'a, F: CapturedFamily>(
    config: &Config<F>,
    datagram: &CapturedDatagram<'a, F::Envelope>,
) -> Option<Query<'a, F::Address>>
where
    F::Address: LineKey,
    ensures { numbered_query_if F.Address.number result
        ≡ spec.query_seen config.now (record { envelope = F.envelope_of datagram.now.envelope; body = datagram.now.body.now }) }
{
    config.is_faultless();
    if !F::is_same(F::source(&datagram.envelope), config.own()) {
        return None;
    }
    if F::envelope_fault(&datagram.envelope).is_some() {
        return None;
    }
    query_spelled::<F>(&datagram.envelope, datagram.body)
}

/// Returns whether a datagram is a query of the checked router, even if hosts drop it.
pub(crate) fn is_own_query<F: CapturedFamily>(
    config: &Config<F>,
    datagram: &CapturedDatagram<'_, F::Envelope>,
) -> bool
where
    F::Address: LineKey,
    ensures { result
        ≡ is_own_query config.now (record { envelope = F.envelope_of datagram.now.envelope; body = datagram.now.body.now }) }
{
    config.is_faultless();
    let source = F::source(&datagram.envelope);
    F::is_same(source, config.own())
        && query_spelled::<F>(&datagram.envelope, datagram.body).is_some()
}

/// Returns whether a datagram comes from the checked router, with the type of a query and a wrong checksum.
pub(crate) fn is_broken_query<F: CheckedFamily>(
    config: &Config<F>,
    datagram: &CapturedDatagram<'_, F::Envelope>,
) -> bool
where
    F::Address: LineKey,
    ensures { result
        ≡ is_broken_query config.now (record { envelope = F.envelope_of datagram.now.envelope; body = datagram.now.body.now }) }
{
    config.is_faultless();
    let sender = F::source(&datagram.envelope);
    F::is_same(sender, config.own())
        && F::has_query_type(datagram.body)
        && has_wrong_checksum::<F>(&datagram.envelope, datagram.body)
}

/// Returns whether the checksum is the first fault of a datagram's bytes.
#[tactic(auto, unfolding(crate::specs::Headers::has_wrong_checksum))]
fn has_wrong_checksum<F: Family>(envelope: &F::Envelope, body: &[u8]) -> bool
    ensures { result ≡ has_wrong_checksum F.FAMILY (F.envelope_of envelope.now) body.now }
{
    match F::read(envelope, body) {
        Err(WireFault::Checksum) => true,
        _ => false,
    }
}

/// Parses the bytes of a datagram. Returns None if they aren't a query.
#[tactic(auto, unfolding(crate::specs::Queries::query_spelled))]
pub(crate) fn query_spelled<'a, F: Family>(
    envelope: &F::Envelope,
    body: &'a [u8],
) -> Option<Query<'a, F::Address>>
    ensures { numbered_query_if F.Address.number result ≡ spec.query_spelled F.FAMILY (F.envelope_of envelope.now) body.entry.now }
{
    match F::read(envelope, body) {
        Ok(Message::Query(query)) => Some(query),
        _ => None,
    }
}

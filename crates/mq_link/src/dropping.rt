//! The reasons to drop datagrams.

ghost use Rattle.std.specs.Prelude.{◌≡◌};
ghost use Rattle.mq_wire.specs.Numbered.{numbered_message, numbered_query};
ghost use Rattle.mq_link.specs.Reading.{numbered_read};
ghost use Rattle.mq_link.specs.Receive as receive;
ghost use Rattle.mq_link.specs.Tests.{first_named};

use crate::answers::DropReason;
use crate::config::Config;
use crate::family::Family;
use mq_wire::{Message, Query, WireFault};

/// Returns the reason of a fault of the bytes, with a number from 1 to 4.
pub fn reason_of_fault(fault: WireFault) -> DropReason
    ensures { result ≡ receive.reason_of_fault fault }
{
    match fault {
        WireFault::Truncated { .. } => DropReason::Truncated,
        WireFault::Checksum => DropReason::Checksum,
        WireFault::UnknownType => DropReason::UnknownType,
        WireFault::QueryLength => DropReason::QueryLength,
    }
}

/// Returns the reason to drop a datagram, if there is one: the reason of the lowest number that holds. RFC 3376
/// sections 4, 6.6.2 and 7.3.2, RFC 3810 sections 5, 7.4 and 7.6.2.
pub fn drop_reason<F: Family>(
    config: &Config<F>,
    envelope: &F::Envelope,
    read: &Result<Message<'_, F::Address>, WireFault>,
) -> Option<DropReason>
    ensures { result ≡ receive.drop_reason config.now (F.envelope_of envelope.now) (numbered_read F.Address.number read.now) }
{
    config.is_faultless();
    match read {
        Err(fault) => Some(reason_of_fault(*fault)),
        Ok(message) => {
            let of_envelope = F::envelope_fault(envelope);
            if of_envelope.is_some() {
                return of_envelope;
            }
            message_fault(config, F::source(envelope), message)
        }
    }
}

/// Returns the first reason of the numbers 8 to 10 that holds.
fn message_fault<F: Family>(
    config: &Config<F>,
    source: F::Address,
    message: &Message<'_, F::Address>,
) -> Option<DropReason>
    ensures { result ≡ first_named (receive.message_tests config.now (F.Address.number source)
        (numbered_message F.Address.number message.now)) }
{
    match message {
        Message::Query(query) => query_fault(config, source, query),
        Message::OldReport(_, group) => group_fault::<F>(config, *group),
        Message::Leave(group) => group_fault::<F>(config, *group),
        Message::Report(_) => None,
    }
}

/// Returns the reason to drop a query: it is the router's own, or in IGMP from 0.0.0.0 or of version 1.
fn query_fault<F: Family>(
    config: &Config<F>,
    source: F::Address,
    query: &Query<'_, F::Address>,
) -> Option<DropReason>
    ensures { result ≡ first_named (receive.message_tests config.now (F.Address.number source)
        (Message.Query (numbered_query F.Address.number query.now))) }
{
    config.is_faultless();
    if F::is_same(source, config.own()) || F::is_zero_of_igmp(source) {
        Some(DropReason::OwnOrZero)
    } else if F::is_of_igmpv1(&query.version) {
        Some(DropReason::OlderQuery)
    } else {
        None
    }
}

/// Returns the reason to drop an older Report, a Leave or a Done: its group isn't admitted.
fn group_fault<F: Family>(config: &Config<F>, group: F::Address) -> Option<DropReason>
    ensures { result ≡ first_named (receive.message_tests config.now 0 (Message.Leave (F.Address.number group))) }
{
    config.is_faultless();
    if F::is_admitted(group) {
        None
    } else {
        Some(DropReason::BadGroup)
    }
}

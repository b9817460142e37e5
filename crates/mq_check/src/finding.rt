//! Findings of a check.

ghost use Rattle.std.specs.Prelude.{◌≡◌, ⊤};
ghost use Rattle.mq_check.specs.FindingLines.{is_possible, packet_in};
ghost use Rattle.mq_check.specs.Numbered.{numbered_finding};

use crate::asked::Asked;
use crate::headers::HeaderFault;
use mq_count::Moment;
use mq_wire::WireKey;
use std::alloc::AllocError;

/// A finding of a check. Each but `Silence` has the moment of its query and the number of a packet. It is certain: the
/// querier is wrong whatever it held, and whatever hosts it had heard, before the capture. The two `Possibly` are not.
pub enum Finding<K: WireKey> {
    /// A missing query: it is wanted at this moment, after this packet, and none was seen.
    Missing(Moment, u64, Asked<K>),
    /// An extra query: it was seen, and none is wanted, for this reason.
    Extra(Moment, u64, Asked<K>, ExtraReason),
    /// A query that is missing unless a host from before the capture mutes the change that asks for it.
    PossiblyMissing(Moment, u64, Asked<K>),
    /// A query that is extra unless the querier held its subject before the capture.
    PossiblyExtra(Moment, u64, Asked<K>),
    /// A seen query that differs from the wanted one.
    Differs(Moment, u64, Asked<K>, Difference<K>),
    /// A general query this many milliseconds after the one before it, or after the start of the capture. The last
    /// number is the wanted query interval in milliseconds.
    Interval(Moment, u64, u64, u64),
    /// A silence of this many milliseconds without a general query, up to this moment. The role was lost then, or the
    /// capture ended. The last number is the wanted query interval in milliseconds.
    Silence(Moment, u64, u64),
    /// A fault in the headers of a query's packet: the number of the packet, and the fault.
    Packet(Moment, u64, HeaderFault),
}

impl<K: WireKey> Clone for Finding<K> {
    ghost is_clone = { λ x y. y ≡ x };

    ghost is_infallible = { λ _. ⊤ };

    fn clone(&self) -> Result<Self, AllocError> {
        Ok(*self)
    }
}

impl<K: WireKey> Copy for Finding<K> {}

impl<K: WireKey> Finding<K> {
    /// Returns the number of its packet if its text doesn't have it, and 0 otherwise.
    pub(crate) fn packet(&self) -> u64
        ensures { result ≡ packet_in (numbered_finding K.number self.now) }
    {
        match self {
            Finding::Missing(_, packet, ..)
            | Finding::Extra(_, packet, ..)
            | Finding::PossiblyMissing(_, packet, ..)
            | Finding::PossiblyExtra(_, packet, ..)
            | Finding::Differs(_, packet, ..)
            | Finding::Interval(_, packet, ..) => *packet,
            Finding::Silence(..) | Finding::Packet(..) => 0,
        }
    }

    /// Returns whether it depends on what was there before the capture.
    pub(crate) fn is_possible(&self) -> bool
        ensures { result ≡ is_possible (numbered_finding K.number self.now) }
    {
        matches!(
            self,
            Finding::PossiblyMissing(..) | Finding::PossiblyExtra(..)
        )
    }
}

/// The reason why a query is extra.
#[derive(Clone, Copy)]
pub enum ExtraReason {
    /// The lack of a change that asks for it.
    NoChange,
    /// An older host of the group, which mutes the change (RFC 3376 section 7.3.2, RFC 3810 section 8.3.2).
    OlderHost,
    /// Another querier.
    NotQuerier,
}

/// A field of a query that differs: the seen value, then the wanted one.
pub enum Difference<K: WireKey> {
    /// The version of the query.
    Version(u8, u8),
    /// The response in milliseconds.
    Response(u32, u32),
    /// The S flag.
    Suppress(bool, bool),
    /// QRV.
    Robustness(u8, u8),
    /// The seconds of QQIC.
    QueryInterval(u32, u32),
    /// The destination.
    Destination(K, K),
}

impl<K: WireKey> Clone for Difference<K> {
    ghost is_clone = { λ x y. y ≡ x };

    ghost is_infallible = { λ _. ⊤ };

    fn clone(&self) -> Result<Self, AllocError> {
        Ok(*self)
    }
}

impl<K: WireKey> Copy for Difference<K> {}

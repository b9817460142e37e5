//! Queries.

ghost use Rattle.std.specs.Prelude.{◌≡◌, ◌≤◌, ◌+◌, nat_lt, if◌then◌else◌, length};
ghost use Rattle.mq_wire.specs.Queries.{FieldsAt};

use crate::codes::resp8;
use crate::fields::{addresses_end, number_at};
use crate::message::WireFault;
use crate::sources::Sources;
use crate::wire_key::WireKey;
use mq_count::OlderVersion;
use std::marker::Model;

/// A query: general, for a group, or for sources of a group (RFC 3376 section 4.1.11).
#[derive(Drop)]
pub struct Query<'a, K: WireKey> {
    /// The queried group; zero in a general query.
    pub group: K,
    /// The maximum response time in milliseconds; 0 in IGMPv1, which has none.
    pub response: u32,
    /// The fields of the query's version.
    pub version: QueryVersion<'a, K>,
}

/// The version of a query, with the fields that only this version has.
#[derive(Drop)]
pub enum QueryVersion<'a, K: WireKey> {
    /// IGMPv1, IGMPv2 or MLDv1.
    Older(OlderVersion),
    /// IGMPv3 or MLDv2.
    Current(QuerierFields<'a, K>),
}

/// The fields that only queries of IGMPv3 or MLDv2 have (RFC 3376 section 4.1, RFC 3810 section 5.1).
#[derive(Drop)]
pub struct QuerierFields<'a, K: WireKey> {
    /// The S flag: routers that hear the query lower no timers.
    pub suppress: bool,
    /// The querier's robustness variable; 0 if it is above 7.
    pub robustness: Qrv,
    /// The querier's query interval in seconds.
    pub interval: u32,
    /// The queried sources; none in a general or a group-specific query.
    pub sources: Sources<'a, K>,
}

/// A robustness variable in a query, from 0 to 7. A contract sees the number.
#[derive(Clone, Copy)]
pub struct Qrv {
    number: u8,
}

impl Model for Qrv {
    ghost use Rattle.std.specs.Prelude.{ℕ, ◌≤◌};

    ghost Value = { ℕ };

    ghost view = { λ q. q.number };

    ghost invariant = { λ q. q.number ≤ 7 };

    ghost inverse = { λ n. record { number = n } };
}

impl Qrv {
    /// Returns the number if it is at most 7, otherwise 0 (RFC 3376 section 4.1.6).
    pub const fn new(number: u8) -> Qrv
        ensures { result ≡ (if nat_lt 7 number then 0 else number) }
    {
        Qrv {
            number: if number > 7 { 0 } else { number },
        }
    }

    /// Returns the number.
    pub const fn get(self) -> u8
        ensures number { result ≡ self }
        ensures small { result ≤ 7 }
    {
        self.number
    }
}

/// The bytes of the flags, the interval code and the number of sources.
pub(crate) const FLAGS_TO_COUNT: usize = 4;

/// Returns the fields of a query of IGMPv3 or MLDv2 after its group, which ends at `place`.
pub(crate) fn fields_at<K: WireKey>(
    bytes: &[u8],
    place: usize,
) -> Result<QuerierFields<'_, K>, WireFault>
    requires { place + 4 ≤ length bytes.now }
    ensures { FieldsAt place K.WIDTH bytes.entry.now result }
{
    let flags = bytes[place];
    let count = number_at(bytes, place + 2);
    addresses_end::<K>(bytes, place + FLAGS_TO_COUNT, count)?;
    Ok(QuerierFields {
        suppress: flags / 8 % 2 == 1,
        robustness: Qrv::new(flags % 8),
        interval: resp8(bytes[place + 1]),
        sources: Sources::in_place(count, &bytes[place + FLAGS_TO_COUNT..]),
    })
}

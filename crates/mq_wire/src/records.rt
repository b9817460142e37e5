//! The records of a Report of IGMPv3 or MLDv2.

ghost use Rattle.std.specs.Prelude.{◌≡◌, ◌≤◌, None, nat_eq, length};
ghost use Rattle.std.specs.Iterator.{YieldsFirstBy, item_count};
ghost use Rattle.mq_wire.specs.Fields.{EndsAt, first_cut};
ghost use Rattle.mq_wire.specs.Numbered.{numbered_record};
ghost use Rattle.mq_wire.specs.Records.{ReadsRecords, record_spans};
ghost use Rattle.mq_wire.specs.Records as spec;

use crate::fields::{addresses_end, fields_end, number_at};
use crate::message::WireFault;
use crate::sources::Sources;
use crate::wire_key::WireKey;
use std::marker::{Model, PhantomData};

/// A record: the wishes of a host for a group (RFC 3376 section 4.2.4, RFC 3810 section 5.2.4). Its auxiliary data is
/// skipped.
#[derive(Drop)]
pub struct RecordView<'a, K: WireKey> {
    /// The byte of the type; 1 to 6 are those of RFC 3376 section 4.2.12 and RFC 3810 section 5.2.12.
    pub kind: u8,
    /// The record's group.
    pub group: K,
    /// Its sources, in the order of the message.
    pub sources: Sources<'a, K>,
}

/// The records of a Report, parsed in place, in the order of the message. A contract sees the list of the remaining
/// records. Iteration allocates nothing, and a copy for another walk costs nothing (`iter`).
#[derive(Drop)]
pub struct Records<'a, K: WireKey> {
    /// The number of remaining records.
    left: u16,
    /// The place of the next record.
    place: usize,
    /// The whole message.
    bytes: &'a [u8],
    address: PhantomData<&'a K>,
}

impl<'a, K: WireKey> Model for Records<'a, K> {
    ghost use Rattle.std.specs.Prelude.{ℕ, ◌≡◌, List, None, length};
    ghost use Rattle.mq_wire.specs.declared.records.RecordView.{RecordView as RecordOf};
    ghost use Rattle.mq_wire.specs.Fields.{first_cut};
    ghost use Rattle.mq_wire.specs.Records.{records_at, spans_of_records};

    ghost Value = { List (RecordOf ℕ) };

    ghost view = { λ r. records_at K.WIDTH r.left r.place r.bytes.now };

    ghost invariant = { λ r.
        first_cut (length r.bytes.now) r.place (spans_of_records K.WIDTH r.left r.place r.bytes.now) ≡ None };
}

/// The place of the group in a record, after its type, the length of its auxiliary data and the number of sources.
const GROUP: usize = 4;

/// The bytes of a unit of the length of auxiliary data (RFC 3376 section 4.2.6).
const WORD: usize = 4;

impl<'a, K: WireKey> Records<'a, K> {
    /// Returns `count` records from `place` on, or the place of the first truncated field.
    pub(crate) fn read_at(
        count: u16,
        place: usize,
        bytes: &'a [u8],
    ) -> Result<Records<'a, K>, WireFault>
        requires { place ≤ length bytes.now }
        ensures { ReadsRecords K.WIDTH count place bytes.entry.now result }
    {
        let mut end = place;
        for _ in 0..count {
            end = record_end::<K>(bytes, end)?;
        }
        Ok(Records {
            left: count,
            place,
            bytes,
            address: PhantomData,
        })
    }

    /// Returns the number of remaining records.
    #[tactic(auto, using(crate::proofs::RecordLists::length_records))]
    pub fn len(&self) -> usize
        ensures { result ≡ length self.now }
    {
        usize::from(self.left)
    }

    /// Returns whether no record is left.
    pub fn is_empty(&self) -> bool
        ensures { result ≡ nat_eq (length self.now) 0 }
    {
        self.len() == 0
    }

    /// Returns the same records for another walk.
    pub fn iter(&self) -> Records<'a, K>
        ensures { result ≡ self.now }
    {
        Records {
            left: self.left,
            place: self.place,
            bytes: self.bytes,
            address: PhantomData,
        }
    }
}

impl<'a, K: WireKey> Iterator for Records<'a, K> {
    type Item = RecordView<'a, K>;

    ghost next_gives = { YieldsFirstBy (numbered_record K.number) (λ r. r) };

    ghost remaining = { item_count (λ r. r) };

    fn next(&mut self) -> Option<RecordView<'a, K>> {
        if self.left == 0 {
            return None;
        }
        let (record, end) = record_at(self.bytes, self.place);
        self.left -= 1;
        self.place = end;
        Some(record)
    }
}

/// Returns the end of the record at `place`, or the place of its first truncated field.
fn record_end<K: WireKey>(bytes: &[u8], place: usize) -> Result<usize, WireFault>
    requires { place ≤ length bytes.now }
    ensures { EndsAt (length bytes.now) place (record_spans K.WIDTH place bytes.now) result }
{
    let sources = fields_end(bytes, place, &[1, 1, 2, K::WIDTH])?;
    let auxiliary = addresses_end::<K>(bytes, sources, number_at(bytes, place + 2))?;
    fields_end(bytes, auxiliary, &[WORD * usize::from(bytes[place + 1])])
}

/// Returns the record at `place`, which is whole, and its end.
fn record_at<K: WireKey>(bytes: &[u8], place: usize) -> (RecordView<'_, K>, usize)
    requires { first_cut (length bytes.now) place (record_spans K.WIDTH place bytes.now) ≡ None }
    ensures record { numbered_record K.number result.0 ≡ spec.record_at K.WIDTH place bytes.entry.now }
    ensures end { result.1 ≡ spec.record_end K.WIDTH place bytes.entry.now }
{
    let count = number_at(bytes, place + 2);
    let sources = place + GROUP + K::WIDTH;
    let auxiliary = sources + usize::from(count) * K::WIDTH;
    let record = RecordView {
        kind: bytes[place],
        group: K::read(&bytes[place + GROUP..]),
        sources: Sources::in_place(count, &bytes[sources..]),
    };
    (record, auxiliary + WORD * usize::from(bytes[place + 1]))
}

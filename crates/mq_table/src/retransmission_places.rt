//! The places of the sources of a group that have retransmissions to go.

ghost use Rattle.std.specs.Prelude.{◌≡◌, ◌≤◌, ◌<◌, true, false, length, take, drop};
ghost use Rattle.std.specs.List.{list_any};
ghost use Rattle.mq_table.specs.RetransmissionPlaces.{item_has_retransmissions, PassesBetween};

use crate::sources::Source;
use mq_count::Key;

/// Places among the sources of a group, which ascend: from `first` on, up to before `end`.
#[derive(Clone, Copy)]
pub struct RetransmissionPlaces {
    pub first: usize,
    pub end: usize,
}

/// The number of sources that are looked at together, without a branch for each.
const BLOCK: usize = 16;

/// Returns whether some source of a list has a retransmission to go. It looks at all of them, since ending at the first
/// takes more instructions for each.
fn any_in_block<K: Key>(row: &[Source<K>]) -> bool
    ensures { result ≡ list_any item_has_retransmissions row.now }
{
    let mut some = false;
    for source in row {
        let timer = source.timer;
        some |= timer.has_retransmissions();
    }
    some
}

/// Returns the number of sources at the front that have no retransmission to go.
fn without_in_front<K: Key>(row: &[Source<K>]) -> usize
    ensures within { result ≤ length row.now }
    ensures none { list_any item_has_retransmissions (take result row.now) ≡ false }
    ensures next { result < length row.now → list_any item_has_retransmissions row.now ≡ true }
{
    let mut place = 0;
    'by_block: while place + BLOCK <= row.len() && !any_in_block(&row[place..place + BLOCK]) {
        place += BLOCK;
    }
    'by_source: while place < row.len() && !row[place].timer.has_retransmissions() {
        place += 1;
    }
    place
}

/// Returns the place, not before `first`, from which on no source has a retransmission to go.
fn end_of_retransmissions<K: Key>(row: &[Source<K>], first: usize) -> usize
    requires { first ≤ length row.now }
    ensures ordered { first ≤ result }
    ensures within { result ≤ length row.now }
    ensures none { list_any item_has_retransmissions (drop result row.now) ≡ false }
{
    let mut end = row.len();
    'by_block: while first + BLOCK <= end && !any_in_block(&row[end - BLOCK..end]) {
        end -= BLOCK;
    }
    'by_source: while first < end && !row[end - 1].timer.has_retransmissions() {
        end -= 1;
    }
    end
}

/// Returns whether some source of a list has a retransmission to go.
pub fn any_has_retransmissions<K: Key>(row: &[Source<K>]) -> bool
    ensures { result ≡ list_any item_has_retransmissions row.now }
{
    without_in_front(row) < row.len()
}

/// Returns the places from the first source of a list that has a retransmission to go up to the last. No comparison.
pub fn places_of_retransmissions<K: Key>(row: &[Source<K>]) -> RetransmissionPlaces
    ensures { PassesBetween item_has_retransmissions result.first result.end row.now }
{
    let first = without_in_front(row);
    let end = end_of_retransmissions(row, first);
    RetransmissionPlaces { first, end }
}

//! Slots by which pending entries are searched.

ghost use Rattle.std.specs.Prelude.{◌≡◌, ◌<◌};
ghost use Rattle.byteorder.specs.Endian.{big_bytes};
ghost use Rattle.mq_check.specs.Numbered.{numbered_asked, numbered_entry};
ghost use Rattle.mq_check.specs.Slots as spec;

use crate::asked::Asked;
use crate::entry::Entry;
use crate::stamp::Stamp;
use crate::waiting::Side;
use mq_count::Moment;
use mq_wire::WireKey;

/// The number of slots.
pub(crate) const SLOTS: usize = 65522;

/// The slot of the entries that can't find a partner. No search uses it.
const UNUSED: usize = 65521;

/// Returns a number with the bytes of an address mixed into it.
fn mixed<K: WireKey>(number: u32, address: K) -> u32
    requires { number < 65521 }
    ensures mixed { result ≡ spec.mixed number (big_bytes K.WIDTH (K.number address)) }
    ensures within { result < 65521 }
{
    let mut bytes = [0; 16];
    address.write(&mut bytes);
    let mut slot = number;
    for byte in &bytes[..K::WIDTH] {
        slot = (slot * 257 + u32::from(*byte)) % 65521;
    }
    slot
}

/// Returns the number of a side.
fn number_of(side: Side) -> u32
    ensures number { result ≡ spec.number_of_side side }
    ensures within { result < 65521 }
{
    match side {
        Side::OfWanted => 1,
        Side::OfSeen => 2,
    }
}

/// Returns the slot of the entries of a side with this subject.
#[tactic(auto, unfolding(crate::specs::Slots::slot_of))]
pub(crate) fn slot_of<K: WireKey>(side: Side, asked: Asked<K>) -> usize
    ensures slot { result ≡ spec.slot_of K.WIDTH side (numbered_asked K.number asked) }
    ensures within { result < 65521 }
{
    let number = number_of(side);
    let slot = match asked {
        Asked::AllGroups => number,
        Asked::Group(group) => mixed(number, group),
        Asked::Source(group, source) => mixed(mixed(number, group), source),
    };
    slot as usize
}

/// Returns the slot of an entry.
pub(crate) fn slot_in<K: WireKey>(entry: &Entry<K>) -> usize
    ensures slot { result ≡ spec.slot_in K.WIDTH (numbered_entry K.number entry.now) }
    ensures within { result < 65522 }
{
    match entry {
        Entry::Wanted(_, asked, _, _, false) => slot_of(Side::OfWanted, *asked),
        Entry::Seen(_, asked, _, None, _) => slot_of(Side::OfSeen, *asked),
        _ => UNUSED,
    }
}

/// Returns the slot of a wanted query, with or without a partner.
pub(crate) fn wanted_slot<K: WireKey>(entry: &Entry<K>) -> usize
    ensures slot { result ≡ spec.wanted_slot K.WIDTH (numbered_entry K.number entry.now) }
    ensures within { result < 65522 }
{
    match entry {
        Entry::Wanted(_, asked, ..) => slot_of(Side::OfWanted, *asked),
        _ => UNUSED,
    }
}

/// Returns the moment of a wanted query, and 0 for any other entry.
pub(crate) fn wanted_moment<K: WireKey>(entry: &Entry<K>) -> Moment
    ensures { result ≡ spec.wanted_moment (numbered_entry K.number entry.now) }
{
    match entry {
        Entry::Wanted(moment, ..) => *moment,
        _ => Stamp::of(0).moment(),
    }
}

/// Returns `number` if the entry is a wanted query for a group, and `last` otherwise.
pub(crate) fn last_group_by<K: WireKey>(entry: &Entry<K>, number: u64, last: u64) -> u64 {
    match entry {
        Entry::Wanted(_, Asked::Group(_), ..) => number,
        _ => last,
    }
}

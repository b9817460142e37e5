//! Pending entries.

ghost use Rattle.std.specs.Prelude.{◌≡◌, ⊤};
ghost use Rattle.mq_check.specs.Entries as spec;
ghost use Rattle.mq_check.specs.Numbered.{numbered_entry, numbered_terms, numbered_terms_if, numbered_unpaired, numbered_verdict};

use crate::asked::Asked;
use crate::finding::ExtraReason;
use crate::headers::HeaderFault;
use crate::terms::Terms;
use mq_count::Moment;
use mq_wire::WireKey;
use std::alloc::AllocError;

/// A pending entry. It expires when more than the tolerance has passed since its moment.
pub enum Entry<K: WireKey> {
    /// A wanted query: its moment, subject, terms and need, and whether it has a partner.
    Wanted(Moment, Asked<K>, Terms<K>, Need, bool),
    /// A seen query: its moment, subject and terms, its partner's terms if it has one, and its verdict.
    Seen(Moment, Asked<K>, Terms<K>, Option<Terms<K>>, SeenVerdict<K>),
    /// A general query at a wrong interval: its moment, the number of its packet, the interval, and the wanted one.
    Interval(Moment, u64, u64, u64),
    /// A time without general queries: its end, its length, and the wanted interval.
    Silence(Moment, u64, u64),
    /// A fault in the headers of a query's packet: its moment, the number of the packet, and the fault.
    Packet(Moment, u64, HeaderFault),
}

impl<K: WireKey> Clone for Entry<K> {
    ghost is_clone = { λ x y. y ≡ x };

    ghost is_infallible = { λ _. ⊤ };

    fn clone(&self) -> Result<Self, AllocError> {
        Ok(*self)
    }
}

impl<K: WireKey> Copy for Entry<K> {}

/// The need of a wanted query.
#[derive(Clone, Copy)]
pub enum Need {
    /// A query that is missing if it finds no partner.
    Required,
    /// A query that is missing only if no other reading and no state from before the capture explains that.
    Possible,
    /// A query that may be left out.
    Optional,
}

/// The verdict on a seen query that finds no partner.
pub enum Unpaired<K: WireKey> {
    /// An extra query, and the reason.
    Extra(ExtraReason),
    /// A query with these terms that is extra only if no other reading and no state from before the capture explains it.
    Possible(Terms<K>),
    /// A query of a schedule, after which so many more may come.
    Scheduled(u32),
    /// A query that is still to come in a schedule from before the capture: the number of queries from it on.
    Next(u32),
}

impl<K: WireKey> Clone for Unpaired<K> {
    ghost is_clone = { λ x y. y ≡ x };

    ghost is_infallible = { λ _. ⊤ };

    fn clone(&self) -> Result<Self, AllocError> {
        Ok(*self)
    }
}

impl<K: WireKey> Copy for Unpaired<K> {}

/// The verdict on S of a seen query.
#[derive(Clone, Copy)]
pub enum SVerdict {
    /// An S that a Report may still explain, by a timer that runs up to this moment or longer.
    Open(Moment),
    /// An S that is right, also if the partner has another.
    Right,
    /// An S that has to be that of the partner.
    AsWanted,
}

/// The verdict on a seen query: on its S, and on the query if it finds no partner.
pub struct SeenVerdict<K: WireKey> {
    pub s: SVerdict,
    pub alone: Unpaired<K>,
}

impl<K: WireKey> Clone for SeenVerdict<K> {
    ghost is_clone = { λ x y. y ≡ x };

    ghost is_infallible = { λ _. ⊤ };

    fn clone(&self) -> Result<Self, AllocError> {
        Ok(*self)
    }
}

impl<K: WireKey> Copy for SeenVerdict<K> {}

impl<K: WireKey> SeenVerdict<K> {
    /// Returns the verdict on a query whose S has to be that of its partner.
    pub(crate) fn as_wanted(alone: Unpaired<K>) -> SeenVerdict<K>
        ensures { numbered_verdict K.number result ≡ spec.as_wanted (numbered_unpaired K.number alone) }
    {
        SeenVerdict {
            s: SVerdict::AsWanted,
            alone,
        }
    }
}

/// Returns the verdict on an S that isn't judged yet.
pub(crate) fn s_if(is_set: bool) -> SVerdict
    ensures { result ≡ spec.s_if is_set }
{
    if is_set {
        SVerdict::Right
    } else {
        SVerdict::AsWanted
    }
}

/// Returns whether S isn't judged yet.
fn is_open(s: SVerdict) -> bool
    ensures { result ≡ spec.is_open_s s }
{
    match s {
        SVerdict::Open(_) => true,
        _ => false,
    }
}

impl<K: WireKey> Unpaired<K> {
    /// Returns how many queries may come after the query in its schedule.
    fn left(&self) -> u32
        ensures { result ≡ spec.left_of (numbered_unpaired K.number self.now) }
    {
        match self {
            Unpaired::Scheduled(left) | Unpaired::Next(left) => *left,
            _ => 0,
        }
    }

    /// Returns whether another reading, or a state from before the capture, may explain the query.
    pub(crate) fn is_possible(&self) -> bool
        ensures { result ≡ spec.is_possible (numbered_unpaired K.number self.now) }
    {
        match self {
            Unpaired::Possible(_) => true,
            _ => false,
        }
    }
}

impl<K: WireKey> Entry<K> {
    /// Returns its moment.
    pub(crate) fn moment(&self) -> Moment
        ensures { result ≡ spec.moment_of (numbered_entry K.number self.now) }
    {
        match self {
            Entry::Wanted(moment, ..)
            | Entry::Seen(moment, ..)
            | Entry::Interval(moment, ..)
            | Entry::Silence(moment, ..)
            | Entry::Packet(moment, ..) => *moment,
        }
    }

    /// Returns its terms, if it is a query.
    pub(crate) fn terms(&self) -> Option<Terms<K>>
        ensures { numbered_terms_if K.number result ≡ spec.terms_in (numbered_entry K.number self.now) }
    {
        match self {
            Entry::Wanted(_, _, terms, ..) | Entry::Seen(_, _, terms, ..) => Some(*terms),
            _ => None,
        }
    }

    /// Returns how many queries may come after it in its schedule, if it is a seen query.
    pub(crate) fn left(&self) -> u32
        ensures { result ≡ spec.left_in (numbered_entry K.number self.now) }
    {
        match self {
            Entry::Seen(_, _, _, _, verdict) => verdict.alone.left(),
            _ => 0,
        }
    }

    /// Returns whether it is a seen query whose S isn't judged yet.
    pub(crate) fn is_s_open(&self) -> bool
        ensures { result ≡ spec.is_s_open (numbered_entry K.number self.now) }
    {
        match self {
            Entry::Seen(_, _, _, _, verdict) => is_open(verdict.s),
            _ => false,
        }
    }

    /// Returns the entry at the end of a capture, after which the partner of a wanted query may come.
    pub(crate) fn excused(self) -> Entry<K>
        ensures { numbered_entry K.number result ≡ spec.excused (numbered_entry K.number self) }
    {
        match self {
            Entry::Wanted(moment, asked, terms, _, is_found) => {
                Entry::Wanted(moment, asked, terms, Need::Optional, is_found)
            }
            other => other,
        }
    }

    /// Returns the entry at the end of a capture, if its partner may come after the end.
    pub(crate) fn excused_if(self, may_come: bool) -> Entry<K>
        ensures { numbered_entry K.number result ≡ spec.excused_if may_come (numbered_entry K.number self) }
    {
        if may_come { self.excused() } else { self }
    }

    /// Returns the entry with a partner that has these terms.
    pub(crate) fn joined(self, other: Terms<K>) -> Entry<K>
        ensures { numbered_entry K.number result
            ≡ spec.joined (numbered_terms K.number other) (numbered_entry K.number self) }
    {
        match self {
            Entry::Wanted(moment, asked, terms, need, _) => {
                Entry::Wanted(moment, asked, terms, need, true)
            }
            Entry::Seen(moment, asked, terms, _, verdict) => {
                Entry::Seen(moment, asked, terms, Some(other), verdict)
            }
            other => other,
        }
    }
}

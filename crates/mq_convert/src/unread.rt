//! Packets whose link type isn't read.

ghost use Rattle.std.specs.Prelude.{◌≡◌, ◌≤◌, [], ◌∷◌, ◌++◌, ℕ, List, length, map};
ghost use Rattle.std.specs.List.{list_any};
ghost use Rattle.mq_convert.specs.Blocks.{captured_of};
ghost use Rattle.mq_convert.specs.Records.{unread_link};
ghost use Rattle.mq_convert.specs.Tallies as spec;
ghost use Rattle.mq_convert.specs.Tallies.{Tallies};

use crate::choice::Choice;
use crate::frames::is_read_link;
use crate::packet::Packet;
use arrayvec::ArrayVec;

/// The most link types that are counted one by one.
pub const MOST_LINKS: usize = 16;

/// The number of packets with a link type.
#[derive(Clone, Copy, Default, PartialEq, Eq)]
pub struct LinkCount {
    /// The link type.
    pub link: u16,
    /// The number of its packets that were written.
    pub count: u64,
}

/// The written packets whose link type isn't read.
#[derive(Drop)]
pub struct Unread {
    /// The number of these packets.
    pub count: u64,
    /// Their number for each of the first `MOST_LINKS` link types, in the order in which these first come.
    pub links: ArrayVec<LinkCount, MOST_LINKS>,
}

impl LinkCount {
    /// Returns the row after a packet of this link type.
    fn raised(self, link: u16) -> LinkCount
        ensures { result ≡ spec.raised link self }
    {
        if self.link == link {
            return LinkCount {
                link: self.link,
                count: self.count.saturating_add(1),
            };
        }
        self
    }
}

impl Unread {
    /// Returns the counts of no packets.
    pub(crate) fn none() -> Unread
        ensures { Tallies [] result }
    {
        Unread {
            count: 0,
            links: ArrayVec::new(),
        }
    }

    /// Counts a packet, if it is written and its link type isn't read.
    #[inline(always)]
    #[tactic(auto, unfolding(crate::specs::Records::unread_link))]
    pub(crate) fn add(&mut self, choice: Choice, packet: Packet)
        ensures { (block links : List ℕ) → Tallies links self.old
            → Tallies (links ++ unread_link choice (captured_of block packet)) self.new }
    {
        if is_read_link(packet.link) || !choice.takes(packet.interface, packet.name, None) {
            return;
        }
        self.count_link(packet.link);
    }

    /// Counts a packet of a link type that isn't read.
    fn count_link(&mut self, link: u16)
        ensures { (links : List ℕ) → Tallies links self.old → Tallies (links ++ link ∷ []) self.new }
    {
        let known = self.is_known(link);
        let mut links = raised(self.links.as_slice(), link);
        if !known {
            links.push(LinkCount { link, count: 1 });
        }
        *self = Unread {
            count: self.count.saturating_add(1),
            links,
        };
    }

    /// Returns whether a packet of a link type gets no new row: it has one, or there is no room.
    fn is_known(&self, link: u16) -> bool
        ensures { result ≡ spec.is_known link self.now.links.items }
    {
        has(self.links.as_slice(), link) || self.links.is_full()
    }
}

/// Returns whether one of the rows has this link type.
fn has(rows: &[LinkCount], link: u16) -> bool
    ensures { result ≡ list_any (spec.is_of link) rows.now }
{
    let mut found = false;
    for row in rows {
        found = found || row.link == link;
    }
    found
}

/// Returns the rows after a packet of this link type.
fn raised(rows: &[LinkCount], link: u16) -> ArrayVec<LinkCount, MOST_LINKS>
    requires { length rows.now ≤ 16 }
    ensures { result.items ≡ map (spec.raised link) rows.now }
{
    let mut links = ArrayVec::new();
    for row in rows {
        links.push(row.raised(link));
    }
    links
}

//! The packets that go out, and their counts.

ghost use Rattle.std.specs.Prelude.{◌≡◌, ◌≤◌, ◌+◌, ◌++◌, ◌∷◌, [], ℕ, List, true, IfOk, is_ok, length};
ghost use Rattle.std.specs.List.{list_any};
ghost use Rattle.mq_arena.specs.Vectors.{Takes};
ghost use Rattle.mq_convert.specs.Blocks.{captured_of};
ghost use Rattle.mq_convert.specs.Frames.{framed};
ghost use Rattle.mq_convert.specs.Records.{unread_link};
ghost use Rattle.mq_convert.specs.Repeats as spec;
ghost use Rattle.mq_convert.specs.Sieving.{HasSieved, Sifts, SiftsFrame, gone_of};
ghost use Rattle.mq_convert.specs.Sizes.{bytes_of_gone};
ghost use Rattle.mq_convert.specs.Tallies.{Tallies};

use crate::choice::Choice;
use crate::comparing::is_short;
use crate::counts::ConvertCounts;
use crate::frames::{Frame, frame_of};
use crate::kept::Kept;
use crate::packet::Packet;
use crate::records::number_of;
use crate::tags::{tag_of, untagged};
use crate::unread::Unread;
use mq_arena::VectorSource;
use std::alloc::{AllocError, Allocator};
use std::collections::VecDeque;
use std::marker::Model;

/// The number of packets that a later one is compared with.
const MOST_GONE: usize = 256;

/// The choice of packets, the packets that went out last, and the counts. `new` allocates all memory.
#[derive(Drop)]
pub(crate) struct Sieve<A: Allocator> {
    choice: Choice,
    // None if packets may go out again.
    gone: VecDeque<Kept, A>,
    counts: ConvertCounts,
}

impl<A: Allocator> Model for Sieve<A> {
    ghost use Rattle.std.specs.Prelude.{◌≡◌, ◌≤◌, length, map, true};
    ghost use Rattle.std.specs.VecDeque.{deque_capacity};
    ghost use Rattle.mq_convert.specs.Sieving.{SieveState, gone_of};

    ghost Value = { SieveState };

    ghost view = { λ s. record { choice = s.choice; gone = map gone_of s.gone.items; counts = s.counts } };

    ghost invariant = { λ s. (length s.gone.items ≤ 256) × (s.choice.once ≡ true → 256 ≤ deque_capacity s.gone) };
}

impl<A: Allocator> Sieve<A> {
    /// Returns the sieve before the first packet, allocated from `memory`.
    #[tactic(auto, unfolding(crate::specs::Sizes::bytes_of_gone))]
    pub(crate) fn new<M: VectorSource<A>>(
        memory: &mut M,
        choice: Choice,
    ) -> Result<Sieve<A>, AllocError>
        ensures sieve { IfOk result (λ sieve. HasSieved choice [] sieve) }
        ensures memory { Takes (bytes_of_gone choice.once) (M.less_than memory.old) (M.less_than memory.new) (is_ok result) }
    {
        let room = if choice.once { MOST_GONE } else { 0 };
        Ok(Sieve {
            choice,
            gone: VecDeque::from_vec(memory.with_capacity(room)?),
            counts: ConvertCounts {
                unread: Unread::none(),
                repeated: 0,
                dropped: 0,
            },
        })
    }

    /// Returns the choice of packets.
    pub(crate) fn choice(&self) -> Choice
        ensures { result ≡ self.now.choice }
    {
        self.choice
    }

    /// Returns the counts, for a file that records so many dropped packets.
    pub(crate) fn into_counts(self, dropped: u64) -> ConvertCounts
        ensures { result ≡ record self.counts { dropped = dropped } }
    {
        ConvertCounts {
            unread: self.counts.unread,
            repeated: self.counts.repeated,
            dropped,
        }
    }

    /// Returns whether a packet of a block repeats another and is left out. Otherwise, if it is compared, it is kept for comparison
    /// with later ones.
    #[inline(always)]
    pub(crate) fn leaves_out(&mut self, packet: Packet, block: &[u8]) -> bool
        requires { packet.place + packet.length ≤ length block.now }
        ensures { Sifts self.old self.new (captured_of block.now packet) result }
    {
        if !self.choice.once {
            return false;
        }
        self.sift(packet, block)
    }

    /// Acts like `leaves_out`, if each packet is to go out once.
    fn sift(&mut self, packet: Packet, block: &[u8]) -> bool
        requires once { self.old.choice.once ≡ true }
        requires within { packet.place + packet.length ≤ length block.now }
        ensures { Sifts self.old self.new (captured_of block.now packet) result }
    {
        let bytes = &block[packet.place..packet.place + packet.length];
        let frame = frame_of(packet.link, bytes);
        let number = number_of(packet, block);
        if packet.original as usize != bytes.len() {
            return false;
        }
        let chosen = self.choice.takes(number, packet.name, tag_of(&frame));
        if !chosen {
            return false;
        }
        self.sift_frame(packet.moment, untagged(frame))
    }

    /// Acts like `leaves_out`, for the frame without tags of a whole packet that is chosen.
    fn sift_frame(&mut self, moment: u64, frame: Frame<'_>) -> bool
        requires once { self.old.choice.once ≡ true }
        ensures { SiftsFrame self.old self.new (spec.is_short (framed frame.entry)) moment (framed frame.entry) result }
    {
        if !is_short(&frame) {
            return false;
        }
        if self.has_gone(moment, &frame) {
            self.counts.repeated = self.counts.repeated.saturating_add(1);
            return true;
        }
        self.keep(Kept::of(moment, &frame));
        false
    }

    /// Returns whether a frame at this moment repeats one of the packets that went out last.
    fn has_gone(&self, moment: u64, frame: &Frame<'_>) -> bool
        ensures { result ≡ list_any (spec.is_again moment (framed frame.now)) self.now.gone }
    {
        for place in 0..self.gone.len() {
            if self.gone[place].is_again(moment, frame) {
                return true;
            }
        }
        false
    }

    /// Adds a packet that went out. The oldest one makes room for it.
    fn keep(&mut self, kept: Kept)
        requires once { self.old.choice.once ≡ true }
        ensures { self.new ≡ record self.old { gone = spec.latest (self.old.gone ++ (gone_of kept ∷ [])) } }
    {
        if self.gone.len() >= MOST_GONE {
            self.gone.pop_front();
        }
        self.gone.push_back_reserved(kept);
    }

    /// Counts a packet that is written, if its link type isn't read.
    #[inline(always)]
    pub(crate) fn add(&mut self, packet: Packet)
        ensures choice { self.new.choice ≡ self.old.choice }
        ensures gone { self.new.gone ≡ self.old.gone }
        ensures repeated { self.new.counts.repeated ≡ self.old.counts.repeated }
        ensures unread { (block links : List ℕ) → Tallies links self.old.counts.unread
            → Tallies (links ++ unread_link self.old.choice (captured_of block packet)) self.new.counts.unread }
    {
        self.counts.unread.add(self.choice, packet);
    }
}

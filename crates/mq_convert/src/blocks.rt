//! The content of a block, and its effect on later blocks, by its size and the bytes that are seen.

ghost use Rattle.std.specs.Prelude.{◌≡◌, ◌≤◌, false, length, IfErr};
ghost use Rattle.mq_convert.specs.Blocks as spec;
ghost use Rattle.mq_convert.specs.Blocks.{IsFoundWithin, IsHeldWithin, answer_of, found_of};
ghost use Rattle.mq_convert.specs.Sizes.{least_size};
ghost use Rattle.mq_convert.specs.Contexts.{context_of};
ghost use Rattle.mq_convert.specs.Faults.{is_cut};

use crate::context::{Context, Interface, Kind, MOST_SEEN};
use crate::fault::BlockFault;
use crate::interfaces::interface_in;
use crate::packet::Packet;
use crate::sizes::{SECTION, form_in, order_in};
use arrayvec::ArrayVec;
use mq_pcap::{Endian, Fraction};

/// The types of the blocks that are read, besides section headers.
const INTERFACE: u32 = 1;

pub(crate) const OBSOLETE_PACKET: u32 = 2;

const SIMPLE_PACKET: u32 = 3;

const STATISTICS: u32 = 5;

pub(crate) const ENHANCED_PACKET: u32 = 6;

/// Returns whether the size of a block also stands in its last 4 bytes.
fn is_closed(order: Endian, size: usize, block: &[u8]) -> bool
    requires { 4 ≤ length block.now }
    ensures { result ≡ spec.is_closed order size block.now }
{
    order.double_word(block, block.len() - 4) as usize == size
}

impl Context {
    /// Reads a block of this size by its seen part. Returns its packet, if it has one.
    #[inline(always)]
    #[tactic(auto, unfolding(crate::specs::Blocks::seen_in))]
    pub(crate) fn read(&mut self, size: usize, block: &[u8]) -> Result<Option<Packet>, BlockFault>
        requires { least_size (context_of self.old).kind ≤ length block.now }
        ensures held { answer_of (context_of self.new) block.now result ≡ spec.seen_in (context_of self.old) size block.now }
        ensures within { IsHeldWithin block.now result }
        ensures uncut { IfErr result (λ f. is_cut f ≡ false) }
    {
        match self.kind {
            Kind::Start => self.read_first(size, block),
            Kind::Classic { order, fraction } => Ok(Some(self.record(order, fraction, block)?)),
            Kind::Section { order } => self.read_next(order, size, block),
        }
    }

    /// Reads the first block of a file.
    #[tactic(auto, unfolding(crate::specs::Blocks::first_in))]
    fn read_first(&mut self, size: usize, block: &[u8]) -> Result<Option<Packet>, BlockFault>
        requires { 24 ≤ length block.now }
        ensures held { answer_of (context_of self.new) block.now result ≡ spec.first_in (context_of self.old) size block.now }
        ensures within { IsHeldWithin block.now result }
        ensures uncut { IfErr result (λ f. is_cut f ≡ false) }
    {
        if Endian::Big.double_word(block, 0) == SECTION {
            return self.read_section(size, block);
        }
        match form_in(block) {
            Some((order, fraction)) => self.read_classic(order, fraction, block),
            None => Err(BlockFault::NoCapture),
        }
    }

    /// Reads the header of a classic capture.
    #[tactic(auto, unfolding(crate::specs::Blocks::classic_in))]
    fn read_classic(
        &mut self,
        order: Endian,
        fraction: Fraction,
        block: &[u8],
    ) -> Result<Option<Packet>, BlockFault>
        requires { 24 ≤ length block.now }
        ensures held { answer_of (context_of self.new) block.now result ≡ spec.classic_in order fraction block.now }
        ensures within { IsHeldWithin block.now result }
        ensures uncut { IfErr result (λ f. is_cut f ≡ false) }
    {
        if order.word(block, 4) != 2 || order.word(block, 6) != 4 {
            return Err(BlockFault::Version);
        }
        let mut interfaces = ArrayVec::new();
        interfaces.push(Interface {
            link: (order.double_word(block, 20) % 65_536) as u16,
            limit: 0,
            resolution: 0,
            offset: 0,
            name: 0,
            dropped: 0,
        });
        *self = Context {
            kind: Kind::Classic { order, fraction },
            interfaces,
            earlier: 0,
            dropped: 0,
        };
        Ok(None)
    }

    /// Reads a section header.
    #[tactic(auto, unfolding(crate::specs::Blocks::section_in))]
    fn read_section(&mut self, size: usize, block: &[u8]) -> Result<Option<Packet>, BlockFault>
        requires { 12 ≤ length block.now }
        ensures held { answer_of (context_of self.new) block.now result ≡ spec.section_in (context_of self.old) size block.now }
        ensures within { IsHeldWithin block.now result }
        ensures uncut { IfErr result (λ f. is_cut f ≡ false) }
    {
        if block.len() < 28 {
            return Err(BlockFault::Length);
        }
        match order_in(block) {
            Some(order) => self.open_section(order, size, block),
            None => Err(BlockFault::Order),
        }
    }

    /// Reads a section header of this byte order.
    #[tactic(auto, unfolding(crate::specs::Blocks::opened_in))]
    fn open_section(
        &mut self,
        order: Endian,
        size: usize,
        block: &[u8],
    ) -> Result<Option<Packet>, BlockFault>
        requires { 28 ≤ length block.now }
        ensures held { answer_of (context_of self.new) block.now result ≡ spec.opened_in order (context_of self.old) size block.now }
        ensures within { IsHeldWithin block.now result }
        ensures uncut { IfErr result (λ f. is_cut f ≡ false) }
    {
        if !is_closed(order, size, block) {
            return Err(BlockFault::Length);
        }
        if order.word(block, 12) != 1 {
            return Err(BlockFault::Version);
        }
        self.kind = Kind::Section { order };
        self.earlier = self.earlier.saturating_add(self.interfaces.len() as u64);
        self.interfaces.clear();
        Ok(None)
    }

    /// Reads a block after a section header.
    #[inline(always)]
    #[tactic(auto, unfolding(crate::specs::Blocks::next_in))]
    fn read_next(
        &mut self,
        order: Endian,
        size: usize,
        block: &[u8],
    ) -> Result<Option<Packet>, BlockFault>
        requires { 12 ≤ length block.now }
        ensures held { answer_of (context_of self.new) block.now result ≡ spec.next_in order (context_of self.old) size block.now }
        ensures within { IsHeldWithin block.now result }
        ensures uncut { IfErr result (λ f. is_cut f ≡ false) }
    {
        let kind = order.double_word(block, 0);
        if kind == SECTION {
            return self.read_section(size, block);
        }
        if !is_closed(order, size, block) {
            return Err(BlockFault::Length);
        }
        match kind {
            INTERFACE => self.read_interface(order, size, block),
            ENHANCED_PACKET | OBSOLETE_PACKET | SIMPLE_PACKET => {
                let packet = self.packet_in(order, kind, block)?;
                self.count_dropped(order, kind, block);
                Ok(Some(packet))
            }
            STATISTICS => {
                self.read_statistics(order, block);
                Ok(None)
            }
            _ => Ok(None),
        }
    }

    /// Returns the packet in a packet block of a section.
    #[inline(always)]
    #[tactic(auto, unfolding(crate::specs::Blocks::packet_in))]
    fn packet_in(&self, order: Endian, kind: u32, block: &[u8]) -> Result<Packet, BlockFault>
        requires { 12 ≤ length block.now }
        ensures found { found_of block.now result ≡ spec.packet_in (context_of self.now) order kind block.now }
        ensures within { IsFoundWithin block.now result }
        ensures uncut { IfErr result (λ f. is_cut f ≡ false) }
    {
        if block.len() < 16 || (kind != SIMPLE_PACKET && block.len() < 32) {
            return Err(BlockFault::Length);
        }
        match kind {
            ENHANCED_PACKET => self.timed(order, order.double_word(block, 8) as usize, block),
            OBSOLETE_PACKET => self.timed(order, usize::from(order.word(block, 8)), block),
            _ => self.simple(order, block),
        }
    }

    /// Reads the description of an interface.
    #[tactic(auto, unfolding(crate::specs::Blocks::described_in))]
    fn read_interface(
        &mut self,
        order: Endian,
        size: usize,
        block: &[u8],
    ) -> Result<Option<Packet>, BlockFault>
        requires { 12 ≤ length block.now }
        ensures held { answer_of (context_of self.new) block.now result ≡ spec.described_in (context_of self.old) order size block.now }
        ensures within { IsHeldWithin block.now result }
        ensures uncut { IfErr result (λ f. is_cut f ≡ false) }
    {
        if block.len() < 20 || size > MOST_SEEN {
            return Err(BlockFault::Length);
        }
        if self.interfaces.is_full() {
            return Err(BlockFault::Interfaces);
        }
        self.interfaces
            .push(interface_in(order, &block[8..block.len() - 4]));
        Ok(None)
    }
}

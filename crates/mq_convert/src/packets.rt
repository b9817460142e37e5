//! The packets in blocks.

ghost use Rattle.std.specs.Prelude.{◌≡◌, ◌≤◌, ◌<◌, ◌*◌, ◌^◌, false, length, IfErr, IfSome};
ghost use Rattle.mq_convert.specs.Blocks as spec;
ghost use Rattle.mq_convert.specs.Blocks.{found_of, IsFoundWithin};
ghost use Rattle.mq_convert.specs.Contexts.{context_of};
ghost use Rattle.mq_convert.specs.Faults.{is_cut};

use crate::context::{Context, Interface};
use crate::fault::BlockFault;
use crate::moments::{classic_moment, moment_of};
use crate::packet::{Packet, Said};
use mq_pcap::{Endian, Fraction};

impl Context {
    /// Returns the packet in an enhanced or an obsolete packet block. They differ in the size of the interface's number
    /// `id`.
    #[inline(always)]
    #[tactic(auto, unfolding(crate::specs::Blocks::timed_in))]
    pub(crate) fn timed(&self, order: Endian, id: usize, block: &[u8]) -> Result<Packet, BlockFault>
        requires { 32 ≤ length block.now }
        ensures found { found_of block.now result ≡ spec.timed_in (context_of self.now) order id block.now }
        ensures within { IsFoundWithin block.now result }
        ensures uncut { IfErr result (λ f. is_cut f ≡ false) }
    {
        let Some(interface) = self.interfaces.as_slice().get(id) else {
            return Err(BlockFault::Interface);
        };
        let high = u64::from(order.double_word(block, 12));
        let count = high * (1 << 32) + u64::from(order.double_word(block, 16));
        let said = Said {
            place: 28,
            captured: order.double_word(block, 20),
            original: order.double_word(block, 24),
        };
        self.packet(id, *interface, moment_of(*interface, count), said, block)
    }

    /// Returns the packet in a simple packet block.
    #[tactic(auto, unfolding(crate::specs::Blocks::simple_in))]
    pub(crate) fn simple(&self, order: Endian, block: &[u8]) -> Result<Packet, BlockFault>
        requires { 16 ≤ length block.now }
        ensures found { found_of block.now result ≡ spec.simple_in (context_of self.now) order block.now }
        ensures within { IsFoundWithin block.now result }
        ensures uncut { IfErr result (λ f. is_cut f ≡ false) }
    {
        let Some(interface) = self.interfaces.as_slice().get(0) else {
            return Err(BlockFault::Interface);
        };
        let original = order.double_word(block, 8);
        let captured = if interface.limit == 0 {
            original
        } else {
            interface.limit.min(original)
        };
        let said = Said {
            place: 12,
            captured,
            original,
        };
        self.packet(0, *interface, Some(0), said, block)
    }

    /// Returns a packet of an interface, if its block has room for it.
    #[inline(always)]
    #[tactic(auto, unfolding(crate::specs::Blocks::packet_of))]
    fn packet(
        &self,
        id: usize,
        interface: Interface,
        moment: Option<u64>,
        said: Said,
        block: &[u8],
    ) -> Result<Packet, BlockFault>
        requires place { said.place ≤ 28 }
        requires in_range { IfSome moment (λ m. m < 2 ^ 32 * 1000000000) }
        ensures found { found_of block.now result ≡ spec.packet_of (context_of self.now) id interface moment said block.now }
        ensures within { IsFoundWithin block.now result }
        ensures uncut { IfErr result (λ f. is_cut f ≡ false) }
    {
        let length = said.captured as usize;
        if block.len() < said.place + length + 4 {
            return Err(BlockFault::Length);
        }
        let Some(moment) = moment else {
            return Err(BlockFault::Moment);
        };
        Ok(Packet {
            interface: self.earlier.saturating_add(id as u64),
            name: interface.name,
            link: interface.link,
            moment,
            original: said.original,
            place: said.place,
            length,
        })
    }

    /// Returns the packet in a record of a classic capture.
    #[inline(always)]
    #[tactic(auto, unfolding(crate::specs::Blocks::record_in))]
    pub(crate) fn record(
        &self,
        order: Endian,
        fraction: Fraction,
        block: &[u8],
    ) -> Result<Packet, BlockFault>
        requires { 16 ≤ length block.now }
        ensures found { found_of block.now result ≡ spec.record_in order fraction (context_of self.now) block.now }
        ensures within { IsFoundWithin block.now result }
        ensures uncut { IfErr result (λ f. is_cut f ≡ false) }
    {
        let seconds = order.double_word(block, 0);
        let Some(moment) = classic_moment(fraction, seconds, order.double_word(block, 4)) else {
            return Err(BlockFault::Moment);
        };
        let Some(interface) = self.interfaces.as_slice().get(0) else {
            return Err(BlockFault::Interface);
        };
        Ok(Packet {
            interface: 0,
            name: interface.name,
            link: interface.link,
            moment,
            original: order.double_word(block, 12),
            place: 16,
            length: block.len() - 16,
        })
    }
}

//! The packets that a file records as dropped.

ghost use Rattle.std.specs.Prelude.{◌≡◌, ◌+◌, ◌≤◌, length, slice_get, slice_set};
ghost use Rattle.mq_count.specs.Streams.{counted_on};
ghost use Rattle.mq_convert.specs.Contexts.{context_of};
ghost use Rattle.mq_convert.specs.Dropped as spec;

use crate::blocks::{ENHANCED_PACKET, OBSOLETE_PACKET};
use crate::context::{Context, Interface};
use crate::interfaces::{first_option, quad_word};
use mq_pcap::Endian;

/// The options of interface statistics that are read: packets dropped by the interface, and by the system.
const BY_INTERFACE: u16 = 5;

const BY_SYSTEM: u16 = 7;

/// The option of an enhanced packet block that is read: packets dropped before its packet.
const DROP_COUNT: u16 = 4;

/// The drop count of an obsolete packet block that doesn't know it.
const UNKNOWN: u16 = 65_535;

/// Returns the number in the last option with this code and 8 bytes, or 0 if there is none.
fn number_option(order: Endian, code: u16, options: &[u8]) -> u64
    ensures { result ≡ spec.number_option order code options.now }
{
    let mut number = 0;
    let mut rest = options;
    while let Some((found, value, behind)) = first_option(order, rest) {
        number = number_with(order, code, number, found, value);
        rest = behind;
    }
    number
}

/// Returns the number of an option, if it has this code and 8 bytes. Otherwise returns the number so far.
#[tactic(auto, unfolding(crate::specs::Dropped::number_with))]
fn number_with(order: Endian, code: u16, number: u64, found: u16, value: &[u8]) -> u64
    ensures { result ≡ spec.number_with order code number (found, value.now) }
{
    if found == code && value.len() == 8 {
        return quad_word(order, value);
    }
    number
}

/// Returns the drop count of an enhanced packet block.
#[tactic(auto, unfolding(crate::specs::Dropped::enhanced_count))]
fn enhanced_count(order: Endian, block: &[u8]) -> u64
    requires { 32 ≤ length block.now }
    ensures { result ≡ spec.enhanced_count order block.now }
{
    let end = block.len() - 4;
    let behind = (28 + order.double_word(block, 20) as usize + 3) / 4 * 4;
    number_option(order, DROP_COUNT, &block[end.min(behind)..end])
}

/// Returns the drop count of an obsolete packet block, or 0 if it doesn't know it.
#[tactic(auto, unfolding(crate::specs::Dropped::obsolete_count))]
fn obsolete_count(order: Endian, block: &[u8]) -> u64
    requires { 32 ≤ length block.now }
    ensures { result ≡ spec.obsolete_count order block.now }
{
    let count = order.word(block, 10);
    if count == UNKNOWN {
        return 0;
    }
    u64::from(count)
}

/// Counts more packets that an interface dropped.
fn raised(interface: Interface, more: u64) -> Interface
    ensures { result ≡ record interface { dropped = counted_on interface.dropped more } }
{
    let mut interface = interface;
    interface.dropped = interface.dropped.saturating_add(more);
    interface
}

impl Context {
    /// Counts the dropped packets that a packet block records.
    #[inline(always)]
    #[tactic(auto, unfolding(crate::specs::Dropped::after_packet))]
    pub(crate) fn count_dropped(&mut self, order: Endian, kind: u32, block: &[u8])
        ensures { context_of self.new ≡ spec.after_packet order kind block.now (context_of self.old) }
    {
        if block.len() < 32 {
            return;
        }
        if kind == ENHANCED_PACKET {
            let count = enhanced_count(order, block);
            self.add_dropped(order.double_word(block, 8) as usize, count);
        } else if kind == OBSOLETE_PACKET {
            let count = obsolete_count(order, block);
            self.add_dropped(usize::from(order.word(block, 8)), count);
        }
    }

    /// Counts the dropped packets that the statistics of an interface record.
    #[tactic(auto, unfolding(crate::specs::Dropped::after_statistics))]
    pub(crate) fn read_statistics(&mut self, order: Endian, block: &[u8])
        ensures { context_of self.new ≡ spec.after_statistics order block.now (context_of self.old) }
    {
        if block.len() < 24 {
            return;
        }
        let options = &block[20..block.len() - 4];
        let by_interface = number_option(order, BY_INTERFACE, options);
        let by_system = number_option(order, BY_SYSTEM, options);
        let least = by_interface.saturating_add(by_system);
        self.raise_dropped(order.double_word(block, 8) as usize, least);
    }

    /// Raises the packets that an interface of the section dropped to at least this number.
    #[tactic(auto, unfolding(crate::specs::Dropped::with_least))]
    fn raise_dropped(&mut self, id: usize, least: u64)
        ensures { context_of self.new ≡ spec.with_least id least (context_of self.old) }
    {
        let Some(interface) = self.interfaces.as_slice().get(id) else {
            return;
        };
        let more = least.saturating_sub(interface.dropped);
        self.add_dropped(id, more);
    }

    /// Counts more packets that an interface of the section dropped.
    #[inline(always)]
    #[tactic(auto, unfolding(crate::specs::Dropped::with_dropped))]
    fn add_dropped(&mut self, id: usize, more: u64)
        ensures { context_of self.new ≡ spec.with_dropped id more (context_of self.old) }
    {
        let Some(interface) = self.interfaces.as_slice().get(id) else {
            return;
        };
        let interface = raised(*interface, more);
        self.interfaces.as_mut_slice()[id] = interface;
        self.dropped = self.dropped.saturating_add(more);
    }
}

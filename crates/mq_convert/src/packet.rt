//! Packets, and where their bytes are in their blocks.

ghost use Rattle.std.specs.Prelude.{◌<◌, ◌*◌, ◌^◌};

/// A packet in a block.
#[derive(Clone, Copy)]
pub(crate) struct Packet {
    /// The number of its interface among all that the file describes, from 0.
    pub(crate) interface: u64,
    /// The interface's name as a number, as its description has it.
    pub(crate) name: u128,
    /// The link type of this interface.
    pub(crate) link: u16,
    /// Its moment, in nanoseconds from 1970 on.
    pub(crate) moment: u64,
    /// The number of bytes that it had.
    pub(crate) original: u32,
    /// The place of the captured bytes in the block.
    pub(crate) place: usize,
    /// The number of captured bytes.
    pub(crate) length: usize,
    ghost in_range: { moment < 2 ^ 32 * 1000000000 },
}

/// The place and the lengths of a packet, as its block states them.
#[derive(Clone, Copy)]
pub(crate) struct Said {
    /// The place of the captured bytes in the block.
    pub(crate) place: usize,
    /// The number of captured bytes.
    pub(crate) captured: u32,
    /// The number of bytes that the packet had.
    pub(crate) original: u32,
}

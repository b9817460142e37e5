//! The context of a block, from what was read before it.

use arrayvec::ArrayVec;
use mq_pcap::{Endian, Fraction};

/// The most interfaces of a section.
pub const MOST_INTERFACES: usize = 1024;

/// The most bytes of a block that are seen: of a longer block, its first bytes and its last 4. A record of a classic
/// capture, with its header, is never longer.
pub const MOST_SEEN: usize = 294_912;

/// The kind of the next block.
#[derive(Clone, Copy)]
pub enum Kind {
    /// The first block of a file: the header of a classic capture or of a section.
    Start,
    /// A record of a classic capture.
    Classic { order: Endian, fraction: Fraction },
    /// A block of a section.
    Section { order: Endian },
}

/// An interface, as the file describes it.
#[derive(Clone, Copy, Default)]
pub struct Interface {
    /// The link type of its frames.
    pub link: u16,
    /// The most bytes that are captured of a packet. 0 is no limit.
    pub limit: u32,
    /// The unit of its moments: below 128 it is this power of a tenth of a second. From 128 on, the excess over 128 is
    /// the power of a half.
    pub resolution: u8,
    /// The seconds that are added to its moments, in two's complement.
    pub offset: u64,
    /// Its name, as `name_of` returns it, or 0 if it has no name.
    pub name: u128,
    /// The packets that it dropped, as the file so far records.
    pub dropped: u64,
}

/// The context of a block: what earlier blocks of the file determine.
#[derive(Drop)]
pub struct Context {
    pub(crate) kind: Kind,
    /// The interfaces that the section has described so far, or the only one of a classic capture.
    pub(crate) interfaces: ArrayVec<Interface, MOST_INTERFACES>,
    /// The number of interfaces that earlier sections described.
    pub(crate) earlier: u64,
    /// The dropped packets that the file so far records, of all sections.
    pub(crate) dropped: u64,
}

impl Context {
    ghost use Rattle.std.specs.Prelude.{◌≡◌};
    ghost use Rattle.mq_convert.specs.Contexts.{context_of, at_start};

    /// Returns the context of the first block of a file.
    pub fn new() -> Context
        ensures { context_of result ≡ at_start }
    {
        Context {
            kind: Kind::Start,
            interfaces: ArrayVec::new(),
            earlier: 0,
            dropped: 0,
        }
    }
}

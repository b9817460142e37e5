//! The size of a block, by its first bytes.

ghost use Rattle.std.specs.Prelude.{◌≡◌, ◌≤◌, false, length, IfErr, IfOk};
ghost use Rattle.mq_convert.specs.Faults.{is_cut};
ghost use Rattle.mq_convert.specs.Sizes as spec;

use crate::context::{Kind, MOST_SEEN};
use crate::fault::BlockFault;
use mq_pcap::{Endian, Fraction};

/// The type of a section header, which reads the same in both byte orders.
pub(crate) const SECTION: u32 = 0x0a0d_0d0a;

/// The number that shows the byte order of a section.
const BYTE_ORDER: u32 = 0x1a2b_3c4d;

const MICROSECONDS: u32 = 0xa1b2_c3d4;

const NANOSECONDS: u32 = 0xa1b2_3c4d;

/// The size of a classic capture's header.
const CLASSIC_HEADER: usize = 24;

/// Returns the number of bytes that determine the size of a block.
pub(crate) fn head_size(kind: Kind) -> usize
    ensures size { result ≡ spec.head_size kind }
    ensures least { 12 ≤ result }
    ensures most { result ≤ 16 }
{
    match kind {
        Kind::Start | Kind::Section { .. } => 12,
        Kind::Classic { .. } => 16,
    }
}

/// Returns the byte order and the unit of a classic capture, by its magic number.
#[tactic(auto, unfolding(crate::specs::Sizes::form_in))]
pub(crate) fn form_in(bytes: &[u8]) -> Option<(Endian, Fraction)>
    requires { 4 ≤ length bytes.now }
    ensures { result ≡ spec.form_in bytes.now }
{
    let big = Endian::Big.double_word(bytes, 0);
    let little = Endian::Little.double_word(bytes, 0);
    if big == MICROSECONDS {
        return Some((Endian::Big, Fraction::Microseconds));
    }
    if big == NANOSECONDS {
        return Some((Endian::Big, Fraction::Nanoseconds));
    }
    if little == MICROSECONDS {
        return Some((Endian::Little, Fraction::Microseconds));
    }
    if little == NANOSECONDS {
        return Some((Endian::Little, Fraction::Nanoseconds));
    }
    None
}

/// Returns the byte order of a section, by its header's first bytes.
#[tactic(auto, unfolding(crate::specs::Sizes::order_in))]
pub(crate) fn order_in(bytes: &[u8]) -> Option<Endian>
    requires { 12 ≤ length bytes.now }
    ensures { result ≡ spec.order_in bytes.now }
{
    if Endian::Big.double_word(bytes, 8) == BYTE_ORDER {
        return Some(Endian::Big);
    }
    if Endian::Little.double_word(bytes, 8) == BYTE_ORDER {
        return Some(Endian::Little);
    }
    None
}

/// Returns the size of a section's block, which has at least `least` bytes.
#[tactic(auto, unfolding(crate::specs::Sizes::block_size))]
fn block_size(order: Endian, least: usize, bytes: &[u8]) -> Result<usize, BlockFault>
    requires { 12 ≤ length bytes.now }
    ensures size { result ≡ spec.block_size order least bytes.now }
    ensures within { IfOk result (λ n. least ≤ n) }
    ensures uncut { IfErr result (λ f. is_cut f ≡ false) }
{
    let size = order.double_word(bytes, 4) as usize;
    if size < least || size % 4 != 0 {
        return Err(BlockFault::Length);
    }
    Ok(size)
}

/// Returns the size of a section header.
#[tactic(auto, unfolding(crate::specs::Sizes::section_size))]
fn section_size(bytes: &[u8]) -> Result<usize, BlockFault>
    requires { 12 ≤ length bytes.now }
    ensures size { result ≡ spec.section_size bytes.now }
    ensures within { IfOk result (λ n. 28 ≤ n) }
    ensures uncut { IfErr result (λ f. is_cut f ≡ false) }
{
    match order_in(bytes) {
        Some(order) => block_size(order, 28, bytes),
        None => Err(BlockFault::Order),
    }
}

/// Returns the size of the first block of a file.
#[tactic(auto, unfolding(crate::specs::Sizes::first_size))]
fn first_size(bytes: &[u8]) -> Result<usize, BlockFault>
    requires { 12 ≤ length bytes.now }
    ensures size { result ≡ spec.first_size bytes.now }
    ensures within { IfOk result (λ n. 24 ≤ n) }
    ensures uncut { IfErr result (λ f. is_cut f ≡ false) }
{
    if Endian::Big.double_word(bytes, 0) == SECTION {
        return section_size(bytes);
    }
    match form_in(bytes) {
        Some(_) => Ok(CLASSIC_HEADER),
        None => Err(BlockFault::NoCapture),
    }
}

/// Returns the size of a record of a classic capture.
#[tactic(auto, unfolding(crate::specs::Sizes::record_size))]
fn record_size(order: Endian, bytes: &[u8]) -> Result<usize, BlockFault>
    requires { 16 ≤ length bytes.now }
    ensures size { result ≡ spec.record_size order bytes.now }
    ensures within { IfOk result (λ n. 16 ≤ n) }
    ensures uncut { IfErr result (λ f. is_cut f ≡ false) }
{
    let size = 16 + order.double_word(bytes, 8) as usize;
    if size > MOST_SEEN {
        return Err(BlockFault::Length);
    }
    Ok(size)
}

/// Returns the size of a block after a section header.
#[tactic(auto, unfolding(crate::specs::Sizes::next_size))]
fn next_size(order: Endian, bytes: &[u8]) -> Result<usize, BlockFault>
    requires { 12 ≤ length bytes.now }
    ensures size { result ≡ spec.next_size order bytes.now }
    ensures within { IfOk result (λ n. 12 ≤ n) }
    ensures uncut { IfErr result (λ f. is_cut f ≡ false) }
{
    if order.double_word(bytes, 0) == SECTION {
        return section_size(bytes);
    }
    block_size(order, 12, bytes)
}

/// Returns the size of a block, by its first bytes.
pub(crate) fn size_in(kind: Kind, bytes: &[u8]) -> Result<usize, BlockFault>
    requires { spec.head_size kind ≤ length bytes.now }
    ensures size { result ≡ spec.size_in kind bytes.now }
    ensures within { IfOk result (λ n. spec.least_size kind ≤ n) }
    ensures uncut { IfErr result (λ f. is_cut f ≡ false) }
{
    match kind {
        Kind::Start => first_size(bytes),
        Kind::Classic { order, .. } => record_size(order, bytes),
        Kind::Section { order } => next_size(order, bytes),
    }
}

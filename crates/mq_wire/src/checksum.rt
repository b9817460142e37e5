//! The checksum of a message. RFC 1112 appendix I, RFC 2236 section 2.3; RFC 3376 sections 4.1.2 and 4.2.2.

ghost use Rattle.std.specs.Prelude.{◌≡◌, ◌↔◌, ◌+◌, ◌*◌, ◌≤◌, ◌<◌, ◌^◌, ◌%◌, ◌++◌, IsTrue, length};
ghost use Rattle.mq_wire.specs.Checksum.{IsRight, ones_complement, sum_of_words, with_field};
ghost use Rattle.mq_wire.specs.Checksum as spec;

use byteorder::{BigEndian, ByteOrder};

/// The place of the checksum in a message, and of the field after it.
const FIELD: usize = 2;

const AFTER: usize = 4;

/// Returns the checksum that a message has to have, whatever its checksum field holds (bytes 2 and 3). It is the one's
/// complement of the one's complement sum of the 16-bit words. An odd last byte is the high byte of a word.
pub fn checksum_of(message: &[u8]) -> u16
    ensures { result ≡ spec.checksum_of message.now }
{
    u16::MAX - sum_without_field(message)
}

/// Returns the checksum of a message that also covers `before`, a pseudo-header.
pub(crate) fn checksum_behind(before: &[u8], message: &[u8]) -> u16
    requires { length before.now % 2 ≡ 0 }
    ensures { result ≡ spec.checksum_behind before.now message.now }
{
    u16::MAX - add(sum_of(before), sum_without_field(message))
}

/// Returns the one's complement sum of a message's words, with 0 in its checksum field.
fn sum_without_field(message: &[u8]) -> u16
    ensures { result ≡ ones_complement (sum_of_words (with_field 0 0 message.now)) }
{
    let before = &message[..message.len().min(FIELD)];
    let after = &message[message.len().min(AFTER)..];
    add(sum_of(before), sum_of(after))
}

/// Returns whether a message's checksum is right.
pub fn checksum_ok(message: &[u8]) -> bool
    ensures { IsTrue result ↔ IsRight message.now }
{
    is_right_behind(&[], message)
}

/// Returns whether a checksum that also covers `before`, a pseudo-header, is right.
pub(crate) fn is_right_behind(before: &[u8], message: &[u8]) -> bool
    requires { length before.now % 2 ≡ 0 }
    ensures { IsTrue result ↔ IsRight (before.now ++ message.now) }
{
    sum_behind(before, message) == u16::MAX
}

/// Returns the one's complement sum of the 16-bit words of `before` and of a message.
fn sum_behind(before: &[u8], message: &[u8]) -> u16
    requires { length before.now % 2 ≡ 0 }
    ensures { result ≡ ones_complement (sum_of_words (before.now ++ message.now)) }
{
    add(sum_of(before), sum_of(message))
}

/// Returns the one's complement sum of the 16-bit words.
fn sum_of(bytes: &[u8]) -> u16
    ensures { result ≡ ones_complement (sum_of_words bytes.now) }
{
    let sum = wide_sum(bytes);
    if sum == 0 {
        0
    } else {
        ((sum - 1) % 65535 + 1) as u16
    }
}

/// Returns a number with the same one's complement sum as the 16-bit words. It adds words of 64 bits, because each has
/// the one's complement sum of its four 16-bit words (RFC 1071 section 2).
fn wide_sum(bytes: &[u8]) -> u128
    ensures same { ones_complement result ≡ ones_complement (sum_of_words bytes.now) }
    ensures small { result ≤ length bytes.now * 2 ^ 61 }
{
    let mut sum = 0;
    let mut rest = bytes;
    while rest.len() >= 8 {
        sum += u128::from(BigEndian::read_u64(rest));
        rest = &rest[8..];
    }
    sum + last_sum(rest)
}

/// Returns the sum of the 16-bit words of fewer than 8 bytes.
fn last_sum(bytes: &[u8]) -> u128
    requires { length bytes.now < 8 }
    ensures sum { result ≡ sum_of_words bytes.now }
    ensures small { result ≤ length bytes.now * 2 ^ 61 }
{
    let mut sum = 0;
    let mut rest = bytes;
    while rest.len() >= 2 {
        sum += u128::from(BigEndian::read_u16(rest));
        rest = &rest[2..];
    }
    match rest {
        [high, ..] => sum + u128::from(*high) * 256,
        [] => sum,
    }
}

/// Adds in one's complement: a carry out of the high bit is added to the low bit (RFC 1071 section 1).
fn add(a: u16, b: u16) -> u16
    ensures { result ≡ ones_complement (a + b) }
{
    let sum = u32::from(a) + u32::from(b);
    let folded = if sum > 65535 { sum - 65535 } else { sum };
    folded as u16
}

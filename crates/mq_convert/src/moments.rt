//! The moments of packets.

ghost use Rattle.std.specs.Prelude.{◌≡◌, ◌≤◌, ◌<◌, ◌*◌, ◌^◌, IfSome};
ghost use Rattle.mq_convert.specs.Moments as spec;

use crate::context::Interface;
use mq_pcap::Fraction;

/// The number of nanoseconds of a second.
pub(crate) const SECOND: u64 = 1_000_000_000;

/// The first moment that a classic capture can't have, in nanoseconds from 1970 on. Its seconds have 32 bits.
const END: u64 = 4_294_967_296_000_000_000;

/// Returns the moment of a packet, in nanoseconds from 1970 on, if a classic capture can have it.
#[inline(always)]
#[tactic(auto, unfolding(crate::specs::Moments::placed))]
fn placed(nanoseconds: u128) -> Option<u64>
    ensures moment { result ≡ spec.placed nanoseconds }
    ensures in_range { IfSome result (λ m. m < 2 ^ 32 * 1000000000) }
{
    if nanoseconds < u128::from(END) {
        return Some(nanoseconds as u64);
    }
    None
}

/// Returns the moment of a record of a classic capture.
#[inline(always)]
#[tactic(auto, unfolding(crate::specs::Moments::classic_moment))]
pub(crate) fn classic_moment(fraction: Fraction, seconds: u32, part: u32) -> Option<u64>
    ensures moment { result ≡ spec.classic_moment fraction seconds part }
    ensures in_range { IfSome result (λ m. m < 2 ^ 32 * 1000000000) }
{
    let unit = match fraction {
        Fraction::Microseconds => 1000,
        Fraction::Nanoseconds => 1,
    };
    placed(u128::from(u64::from(seconds) * SECOND + u64::from(part) * unit))
}

/// Returns the moment of a count of an interface's units.
#[inline(always)]
#[tactic(auto, unfolding(crate::specs::Moments::moment_of))]
pub(crate) fn moment_of(interface: Interface, count: u64) -> Option<u64>
    ensures moment { result ≡ spec.moment_of interface count }
    ensures in_range { IfSome result (λ m. m < 2 ^ 32 * 1000000000) }
{
    placed(moved(interface.offset, nanoseconds(interface.resolution, count))?)
}

/// Returns the whole nanoseconds of a count of units.
#[tactic(auto, unfolding(crate::specs::Moments::nanoseconds))]
fn nanoseconds(resolution: u8, count: u64) -> u128
    ensures value { result ≡ spec.nanoseconds resolution count }
    ensures fits { result < 2 ^ 94 }
{
    if resolution >= 128 {
        return u128::from(count) * u128::from(SECOND) / halved(resolution - 128);
    }
    if resolution <= 9 {
        return u128::from(count) * u128::from(10u64.pow(u32::from(9 - resolution)));
    }
    if resolution <= 28 {
        return u128::from(count / 10u64.pow(u32::from(resolution - 9)));
    }
    0
}

/// Returns the power of two.
fn halved(power: u8) -> u128
    requires { power < 128 }
    ensures value { result ≡ 2 ^ power }
    ensures some { 1 ≤ result }
{
    2u128.pow(u32::from(power))
}

/// Returns a moment moved by `offset` seconds, in two's complement. Returns None before 1970.
#[tactic(auto, unfolding(crate::specs::Moments::moved))]
fn moved(offset: u64, nanoseconds: u128) -> Option<u128>
    requires { nanoseconds < 2 ^ 94 }
    ensures { result ≡ spec.moved offset nanoseconds }
{
    if offset < 1 << 63 {
        return Some(nanoseconds + u128::from(offset) * u128::from(SECOND));
    }
    let earlier = u128::from(u64::MAX - offset) * u128::from(SECOND) + u128::from(SECOND);
    if nanoseconds < earlier {
        return None;
    }
    Some(nanoseconds - earlier)
}

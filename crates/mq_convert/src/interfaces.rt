//! The description of an interface.

ghost use Rattle.std.specs.Prelude.{◌≡◌, ◌∷◌, ◌<◌, ◌≤◌, [], length, IfSome, MatchOption};
ghost use Rattle.mq_convert.specs.Interfaces as spec;

use crate::choice::name_of;
use crate::context::Interface;
use byteorder::{BigEndian, ByteOrder, LittleEndian};
use mq_pcap::Endian;

/// The options that are read: the name, the unit of moments (1 byte), and the offset of moments (8 bytes).
const NAME: u16 = 2;

const RESOLUTION: u16 = 9;

const OFFSET: u16 = 14;

/// The option that ends a list of options.
const END: u16 = 0;

/// Returns the interface that a block describes. `body` is the part between the two lengths of the block.
pub(crate) fn interface_in(order: Endian, body: &[u8]) -> Interface
    requires { 8 ≤ length body.now }
    ensures { result ≡ spec.interface_in order body.now }
{
    let mut interface = Interface {
        link: order.word(body, 0),
        limit: order.double_word(body, 4),
        resolution: 6,
        offset: 0,
        name: 0,
        dropped: 0,
    };
    let mut rest = &body[8..];
    while let Some((code, value, behind)) = first_option(order, rest) {
        interface = with_option(order, interface, code, value);
        rest = behind;
    }
    interface
}

/// Returns the interface with the value of an option.
#[tactic(auto, unfolding(crate::specs::Interfaces::with_option))]
fn with_option(order: Endian, interface: Interface, code: u16, value: &[u8]) -> Interface
    ensures { result ≡ spec.with_option order interface (code, value.now) }
{
    let mut interface = interface;
    if code == RESOLUTION && value.len() == 1 {
        interface.resolution = value[0];
    }
    if code == OFFSET && value.len() == 8 {
        interface.offset = quad_word(order, value);
    }
    if code == NAME {
        interface.name = name_of(value);
    }
    interface
}

/// Returns the 64-bit number of a value.
pub(crate) fn quad_word(order: Endian, value: &[u8]) -> u64
    requires { length value.now ≡ 8 }
    ensures { result ≡ spec.quad_word order value.now }
{
    match order {
        Endian::Big => BigEndian::read_u64(value),
        Endian::Little => LittleEndian::read_u64(value),
    }
}

/// Returns the code and the bytes of the first option, and the bytes after it. Returns None if no option fits, and at
/// the end of the list.
pub(crate) fn first_option(order: Endian, bytes: &[u8]) -> Option<(u16, &[u8], &[u8])>
    ensures option { MatchOption result
        (spec.options_of order bytes.now ≡ [])
        (λ o. spec.options_of order bytes.now ≡ (o.0, o.1.now) ∷ spec.options_of order o.2.now) }
    ensures shorter { IfSome result (λ o. length o.2.now < length bytes.now) }
{
    if bytes.len() < 4 {
        return None;
    }
    let code = order.word(bytes, 0);
    let end = 4 + usize::from(order.word(bytes, 2));
    if code == END || bytes.len() < end {
        return None;
    }
    Some((
        code,
        &bytes[4..end],
        &bytes[bytes.len().min((end + 3) / 4 * 4)..],
    ))
}

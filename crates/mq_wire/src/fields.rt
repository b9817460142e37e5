//! Fields of a message.

ghost use Rattle.std.specs.Prelude.{◌≡◌, ◌≤◌, ◌+◌, length, replicate};
ghost use Rattle.mq_wire.specs.Fields.{EndsAt};
ghost use Rattle.mq_wire.specs.Fields as spec;

use crate::message::WireFault;
use crate::wire_key::WireKey;
use byteorder::{BigEndian, ByteOrder};

/// Returns the number in the two bytes at a place.
pub(crate) fn number_at(bytes: &[u8], place: usize) -> u16
    requires { place + 2 ≤ length bytes.now }
    ensures { result ≡ spec.number_at place 2 bytes.now }
{
    BigEndian::read_u16(&bytes[place..])
}

/// Returns the end of fields of these widths from `place` on, or the place of the first truncated field.
pub(crate) fn fields_end(bytes: &[u8], place: usize, widths: &[usize]) -> Result<usize, WireFault>
    requires { place ≤ length bytes.now }
    ensures { EndsAt (length bytes.now) place widths.now result }
{
    let mut end = place;
    for width in widths {
        if bytes.len() - end < *width {
            return Err(WireFault::Truncated { at: end });
        }
        end += *width;
    }
    Ok(end)
}

/// Returns the end of `count` addresses from `place` on, or the place of the first truncated address.
pub(crate) fn addresses_end<K: WireKey>(
    bytes: &[u8],
    place: usize,
    count: u16,
) -> Result<usize, WireFault>
    requires { place ≤ length bytes.now }
    ensures { EndsAt (length bytes.now) place (replicate count K.WIDTH) result }
{
    let whole = (bytes.len() - place) / K::WIDTH;
    let count = usize::from(count);
    if whole < count {
        return Err(WireFault::Truncated {
            at: place + whole * K::WIDTH,
        });
    }
    Ok(place + count * K::WIDTH)
}

//! Bytes in hexadecimal.

ghost use Rattle.std.specs.Prelude.{◌≡◌, ◌≤◌, ◌+◌, ◌*◌, ◌++◌, ◌||◌, is_err, length};
ghost use Rattle.arrayvec.specs.ArrayVec.{array_vec_len};
ghost use Rattle.hex.specs.Hex.{encode_lower};
ghost use Rattle.mq_count.specs.Streams.{inner_of, has_failed};
ghost use Rattle.mq_text.specs.Printing.{Puts};

use hex::encode_to_slice;
use mq_count::Watched;
use mq_text::{LineFault, Text, make_room, put};
use std::io::Write;

/// The number of bytes that are put at once.
const AT_ONCE: usize = 64;

/// Puts bytes in lower-case hexadecimal.
pub(crate) fn put_hexadecimal<W: Write>(
    bytes: &[u8],
    buffer: &mut Text,
    writer: &mut Watched<W>,
) -> Result<(), LineFault>
    ensures text { Puts
        (W.contents (inner_of writer.old)) (W.contents (inner_of writer.new))
        buffer.old.items buffer.new.items (encode_lower bytes.now) result }
    ensures failed { has_failed writer.new ≡ has_failed writer.old || is_err result }
{
    let mut done = 0;
    while done < bytes.len() {
        make_room(buffer, writer)?;
        let end = done + (bytes.len() - done).min(AT_ONCE);
        put_few(buffer, &bytes[done..end]);
        done = end;
    }
    Ok(())
}

/// Puts some bytes at the end, each in two digits.
fn put_few(buffer: &mut Text, bytes: &[u8])
    requires few { length bytes.now ≤ 64 }
    requires room { array_vec_len buffer.old + 2 * length bytes.now ≤ 4096 }
    ensures { buffer.new.items ≡ buffer.old.items ++ encode_lower bytes.now }
{
    let mut digits = [0; 2 * AT_ONCE];
    let digits = &mut digits[..2 * bytes.len()];
    match encode_to_slice(bytes, digits) {
        Ok(()) => put(buffer, digits),
        Err(_) => unreachable!(),
    }
}

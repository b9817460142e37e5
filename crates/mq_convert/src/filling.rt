//! Filling of a part of a buffer, from a stream that returns pieces of any size.

ghost use Rattle.std.specs.Prelude.{◌≡◌, ◌≤◌, length, IfErr};
ghost use Rattle.mq_pcap.specs.Filling.{input_of};
ghost use Rattle.mq_convert.specs.Filling.{FillsFrom};

use crate::fault::ConvertFault;
use mq_count::Watched;
use std::io::Read;

/// Reads into a buffer from place `from` on, until it has `to` bytes or the stream ends. Returns the number of bytes
/// that it has then. A read of no bytes is the end of the stream. The only fault is `Read`.
#[inline(always)]
pub(crate) fn fill<R: Read>(
    reader: &mut Watched<R>,
    buffer: &mut [u8],
    from: usize,
    to: usize,
) -> Result<usize, ConvertFault>
    requires order { from ≤ to }
    requires room { to ≤ length buffer.old }
    ensures fills { FillsFrom
        (input_of R.remaining reader.old) (input_of R.remaining reader.new)
        buffer.old buffer.new from to result }
    ensures fault { IfErr result (λ f. f ≡ ConvertFault.Read) }
{
    let mut count = from;
    while count < to {
        match reader.read(&mut buffer[count..to]) {
            Ok(0) => break,
            Ok(more) => count += more,
            Err(_) => return Err(ConvertFault::Read),
        }
    }
    Ok(count)
}

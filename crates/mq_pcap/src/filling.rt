//! Filling of a buffer from a stream that returns pieces of any size.

ghost use Rattle.std.specs.Prelude.{◌≡◌, IfErr};
ghost use Rattle.mq_pcap.specs.Filling.{Fills, input_of};

use crate::fault::PcapFault;
use mq_count::Watched;
use std::io::Read;

/// Reads until the buffer is full or the stream ends, and returns the number of bytes read. A read of no byte is the
/// end of the stream. The fault is `Read`.
#[inline(always)]
pub(crate) fn fill<R: Read>(reader: &mut Watched<R>, buffer: &mut [u8]) -> Result<usize, PcapFault>
    ensures fills { Fills
        (input_of R.remaining reader.old) (input_of R.remaining reader.new)
        buffer.new result }
    ensures fault { IfErr result (λ f. f ≡ PcapFault.Read) }
{
    let mut count = 0;
    while count < buffer.len() {
        match reader.read(&mut buffer[count..]) {
            Ok(0) => break,
            Ok(more) => count += more,
            Err(_) => return Err(PcapFault::Read),
        }
    }
    Ok(count)
}

//! Skipping of bytes, in a stream that returns pieces of any size.

ghost use Rattle.std.specs.Prelude.{◌≡◌, ◌≤◌, IfErr};
ghost use Rattle.mq_pcap.specs.Filling.{input_of};
ghost use Rattle.mq_convert.specs.Filling.{PassesOver};

use crate::fault::ConvertFault;
use mq_count::Watched;
use std::io::Read;

/// The most bytes of one read.
const PIECE: usize = 4096;

/// Skips the bytes of a block from `from` on, until `to` bytes were read or the stream ends. Returns the number of
/// bytes that were read by then. A read of no bytes is the end of the stream. The only fault is `Read`.
pub(crate) fn pass<R: Read>(
    reader: &mut Watched<R>,
    from: usize,
    to: usize,
) -> Result<usize, ConvertFault>
    requires { from ≤ to }
    ensures passes { PassesOver
        (input_of R.remaining reader.old) (input_of R.remaining reader.new) from to result }
    ensures fault { IfErr result (λ f. f ≡ ConvertFault.Read) }
{
    let mut piece = [0; PIECE];
    let mut count = from;
    while count < to {
        let most = (to - count).min(PIECE);
        match reader.read(&mut piece[..most]) {
            Ok(0) => break,
            Ok(more) => count += more,
            Err(_) => return Err(ConvertFault::Read),
        }
    }
    Ok(count)
}

//! The end of work on a capture.

ghost use Rattle.std.specs.Prelude.{◌≡◌, IsErrAnd};
ghost use Rattle.std.specs.Io.KnownBytes.{Keeps};
ghost use Rattle.mq_count.specs.Streams.{inner_of, has_failed};
ghost use Rattle.mquerier.specs.Breaking.{IsBrokenBy, IsEndedBy, IsUnflushed};

use crate::failure::Failure;
use crate::work::flush;
use mq_count::Watched;
use mq_walk::CaptureFault;
use std::io::Write;

/// Returns the result for work with this result. Flushes the output, unless a write or an allocation has failed.
pub(crate) fn ended<T: Drop, W: Write>(
    answer: Result<T, CaptureFault>,
    output: &mut Watched<W>,
) -> Result<T, Failure>
    ensures bytes { Keeps (W.contents (inner_of output.old)) (W.contents (inner_of output.new)) }
    ensures ended { IsEndedBy answer (has_failed output.old) (has_failed output.new) result }
    ensures unflushed { IsErrAnd answer IsUnflushed → output.new ≡ output.old }
{
    match answer {
        Ok(value) => {
            flush(output)?;
            Ok(value)
        }
        Err(fault) => Err(broken_off(fault, output)),
    }
}

/// Returns the failure for work that ended with this fault. Flushes the output, unless a write or an allocation has
/// failed.
fn broken_off<W: Write>(fault: CaptureFault, output: &mut Watched<W>) -> Failure
    ensures bytes { Keeps (W.contents (inner_of output.old)) (W.contents (inner_of output.new)) }
    ensures failure { IsBrokenBy fault (has_failed output.old) (has_failed output.new) result }
    ensures unflushed { IsUnflushed fault → output.new ≡ output.old }
{
    let failure = match fault {
        CaptureFault::Pcap(fault) => Failure::Capture(fault),
        CaptureFault::Gap { number } => Failure::Gap { number },
        CaptureFault::Waiting { number } => Failure::Waiting { number },
        CaptureFault::Write => return Failure::Write,
        CaptureFault::Memory => return Failure::Memory,
    };
    match flush(output) {
        Ok(()) => failure,
        Err(failure) => failure,
    }
}

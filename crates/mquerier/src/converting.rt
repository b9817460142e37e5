//! The conversion of a request.

ghost use Rattle.std.specs.Prelude.{◌≡◌};
ghost use Rattle.mquerier.specs.Changes.{input_by, output_by};
ghost use Rattle.mquerier.specs.Working.{IsRefusal, WorksOnConversion};

use crate::failure::Failure;
use crate::work::flush;
use mq_convert::{Choice, ConvertCounts, ConvertFault, convert};
use mq_count::Watched;
use mq_pcap::Supply;
use std::alloc::Global;
use std::io::{Read, Write};

/// Converts the input capture to a classic capture.
pub(crate) fn convert_capture<S: Supply, R: Read, W: Write>(
    alloc: Global,
    choice: Choice,
    supply: &S,
    input: &mut Watched<R>,
    output: &mut Watched<W>,
) -> Result<ConvertCounts, Failure>
    ensures works { WorksOnConversion choice
        (input_by R.remaining input.old input.new)
        (output_by W.contents output.old output.new)
        result }
    ensures accepted { IsRefusal result → ⊥ }
{
    match convert(alloc, choice, supply, input, output) {
        Ok(counts) => {
            flush(output)?;
            Ok(counts)
        }
        Err(ConvertFault::Read) => {
            flush(output)?;
            Err(Failure::ConversionRead)
        }
        Err(ConvertFault::Block { number, fault }) => {
            flush(output)?;
            Err(Failure::Conversion { number, fault })
        }
        Err(ConvertFault::Write) => Err(Failure::Write),
        Err(ConvertFault::Memory) => Err(Failure::Memory),
    }
}

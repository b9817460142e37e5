//! Checks of captures that are converted first, in memory.

ghost use Rattle.std.specs.Prelude.{◌≡◌, MatchResult};
ghost use Rattle.mquerier.specs.Changes.{input_by, output_by};
ghost use Rattle.mquerier.specs.Converted.{IsConverted, IsUnconverted, PerformsConverted, PerformsTwice};

use crate::console::Console;
use crate::failure::Failure;
use crate::program::told;
use crate::taking::{perform_taking, taking_of};
use crate::unseen::perform_seen;
use mq_command::Request;
use mq_convert::{Choice, ConvertFault, convert};
use mq_count::Watched;
use mq_pcap::{Ready, Supply};
use std::alloc::Global;
use std::io::{Read, Write};

/// Performs a request on a capture that is read twice, and returns its status, as `perform` does.
pub fn perform_twice<S: Supply, Q: Read, R: Read, W: Write, E: Write>(
    alloc: Global,
    request: &Request<'_>,
    first: &mut Watched<Q>,
    supply: &S,
    input: &mut Watched<R>,
    console: &mut Console<W, E>,
) -> u8
    ensures performs { PerformsTwice request.now console.old.in_words
        (input_by Q.remaining first.old first.new)
        (input_by R.remaining input.old input.new)
        (output_by W.contents console.old.output console.new.output)
        (output_by E.contents console.old.errors console.new.errors)
        result }
    ensures in_words { console.new.in_words ≡ console.old.in_words }
{
    match taking_of(request) {
        Some(options) => perform_taking(alloc, &options, first, supply, input, console),
        None => perform_seen(alloc, request, first, supply, input, console),
    }
}

/// Performs a request on the converted input, and returns its status, as `perform_twice` does.
///
/// The converted capture is in memory. At a fault of the conversion, only that is reported.
pub fn perform_converted<R: Read, W: Write, E: Write>(
    alloc: Global,
    choice: Choice,
    request: &Request<'_>,
    input: &mut Watched<R>,
    console: &mut Console<W, E>,
) -> u8
    ensures performs { PerformsConverted choice request.now console.old.in_words
        (input_by R.remaining input.old input.new)
        (output_by W.contents console.old.output console.new.output)
        (output_by E.contents console.old.errors console.new.errors)
        result }
    ensures in_words { console.new.in_words ≡ console.old.in_words }
{
    match converted_text(alloc, choice, input) {
        Ok(text) => {
            let mut first = Watched::new(text.as_slice());
            let mut capture = Watched::new(text.as_slice());
            perform_twice(alloc, request, &mut first, &Ready, &mut capture, console)
        }
        Err(failure) => told(failure, true, &mut console.errors),
    }
}

/// Returns the classic capture of the chosen packets of the input.
fn converted_text<R: Read>(
    alloc: Global,
    choice: Choice,
    input: &mut Watched<R>,
) -> Result<Vec<u8>, Failure>
    ensures { MatchResult result
        (λ text. IsConverted choice (input_by R.remaining input.old input.new) text.items)
        (IsUnconverted choice (input_by R.remaining input.old input.new)) }
{
    let mut text = Watched::new(Vec::new(alloc));
    match convert(alloc, choice, &Ready, input, &mut text) {
        Ok(_) => Ok(text.into_inner()),
        Err(ConvertFault::Read) => Err(Failure::ConversionRead),
        Err(ConvertFault::Block { number, fault }) => Err(Failure::Conversion { number, fault }),
        // A write to memory fails only without memory.
        Err(ConvertFault::Write | ConvertFault::Memory) => Err(Failure::Memory),
    }
}

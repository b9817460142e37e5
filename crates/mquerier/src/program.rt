//! Runs of the program on its words and streams.

ghost use Rattle.std.specs.Prelude.{◌≡◌, ◌≤◌, ◌||◌, ◌++◌, MatchResult, codes, false, is_err, true};
ghost use Rattle.mq_count.specs.Streams.{inner_of, has_failed};
ghost use Rattle.mq_text.specs.Printing.{Prints};
ghost use Rattle.mquerier.specs.Changes.{BreaksOff, Writes, input_by, output_by};
ghost use Rattle.mquerier.specs.CheckRuns.{asked_terms};
ghost use Rattle.mquerier.specs.Choosing.{choice_of as asked_choice};
ghost use Rattle.mquerier.specs.Failures.{status_of, unjudged_line, version_line};
ghost use Rattle.mquerier.specs.Status.{Concludes, IsCheck, IsConversion, IsOfMessage, IsTold, IsWordless, PrintsVersion, TellsLines, TellsCounts, Told, Performs, PerformsCheck, PerformsConversion, Runs};

use crate::checking::{CheckOptions, check_capture, checked_settings};
use crate::console::Console;
use crate::converting::convert_capture;
use crate::counts::counts_lines_of;
use crate::counts_object::counts_object_of;
use crate::failure::{DONE, FAULTY, FOUND, Failure, REFUSED, UNJUDGED, line_of, status_of_failure};
use crate::unopened::told_of_check;
use crate::work::{flush, work};
use clap::Error;
use clap::error::ErrorKind;
use mq_check::{Additions, CheckTerms, Totals, Unjudged};
use mq_command::{CheckFlags, Interface, Request, VERSION};
use mq_convert::{Choice, ConvertCounts, Which, name_of};
use mq_count::Watched;
use mq_pcap::Supply;
use mq_text::{LineFault, Text, print, put};
use std::alloc::Global;
use std::io::{Read, Write};

/// Performs the request that `request_of` read from the words.
///
/// Without a request the input stays unread. The text of `clap` then goes to standard error, as one line or several,
/// with status 2. If the version is requested, its line goes to the output.
pub fn run<S: Supply, R: Read, W: Write, E: Write>(
    alloc: Global,
    asked: Result<Request<'_>, Error>,
    supply: &S,
    input: &mut Watched<R>,
    console: &mut Console<W, E>,
) -> u8
    ensures runs { Runs asked.entry VERSION.now console.old.in_words
        (input_by R.remaining input.old input.new)
        (output_by W.contents console.old.output console.new.output)
        (output_by E.contents console.old.errors console.new.errors)
        result }
    // With status 2 nothing is read or written to the output, and standard error has the reason.
    ensures refused { result ≡ 2 → console.new.output ≡ console.old.output }
    ensures unread { result ≡ 2 → input.new ≡ input.old }
    ensures told { result ≡ 2 → TellsLines (output_by E.contents console.old.errors console.new.errors) }
    ensures in_words { console.new.in_words ≡ console.old.in_words }
{
    match asked {
        Ok(request) => perform(alloc, &request, supply, input, console),
        Err(error) => match error.kind() {
            ErrorKind::OutOfMemory => told(Failure::Memory, console.in_words, &mut console.errors),
            ErrorKind::DisplayVersion => print_version(console),
            _ => refused(alloc, &error, console.in_words, &mut console.errors),
        },
    }
}

/// Prints the text of `clap` on standard error, and returns the status.
fn refused<E: Write>(alloc: Global, error: &Error, in_words: bool, errors: &mut Watched<E>) -> u8
    ensures { IsWordless in_words (output_by E.contents errors.old errors.new) result }
{
    let Ok(text) = error.to_string(alloc) else {
        return told(Failure::Memory, in_words, errors);
    };
    let _ = print_line(text.trim_end(), errors);
    REFUSED
}

/// Prints the line of the version, and returns the status.
fn print_version<W: Write, E: Write>(console: &mut Console<W, E>) -> u8
    ensures at_most_one { result ≤ 1 }
    ensures prints { PrintsVersion VERSION.now console.old.in_words
        (output_by W.contents console.old.output console.new.output)
        (output_by E.contents console.old.errors console.new.errors)
        result }
    ensures in_words { console.new.in_words ≡ console.old.in_words }
{
    match print_whole(version_line_of().as_slice(), &mut console.output) {
        Ok(()) => DONE,
        Err(failure) => told(failure, console.in_words, &mut console.errors),
    }
}

/// Returns the line of the version.
fn version_line_of() -> Text
    ensures { result.items ≡ version_line VERSION.now }
{
    let mut line = Text::new();
    put(&mut line, b"mquerier ");
    put(&mut line, VERSION.as_bytes());
    put(&mut line, b"\n");
    line
}

/// Prints a text, and flushes the output.
pub(crate) fn print_whole<W: Write>(text: &[u8], output: &mut Watched<W>) -> Result<(), Failure>
    ensures { MatchResult result
        (λ _. Writes (output_by W.contents output.old output.new) text.now)
        (λ failure. (failure ≡ Failure.Write)
        × BreaksOff (output_by W.contents output.old output.new) text.now) }
{
    let Ok(()) = print(text, output) else {
        return Err(Failure::Write);
    };
    flush(output)
}

/// Prints a text as a line.
fn print_line<W: Write>(text: &str, writer: &mut Watched<W>) -> Result<(), LineFault>
    ensures text { Prints
        (W.contents (inner_of writer.old)) (W.contents (inner_of writer.new))
        (text.now ++ codes "\n") result }
    ensures failed { has_failed writer.new ≡ has_failed writer.old || is_err result }
{
    print(text.as_bytes(), writer)?;
    print(b"\n", writer)
}

/// Performs a request, and returns its status.
///
/// - 0: it is done.
/// - 1: the input is faulty, the output fails, or memory runs out.
/// - 2: the request is faulty.
/// - 3: a check has findings.
/// - 4: a check had nothing to judge.
///
/// A message doesn't read the input. A write to standard error that fails changes no status.
pub fn perform<S: Supply, R: Read, W: Write, E: Write>(
    alloc: Global,
    request: &Request<'_>,
    supply: &S,
    input: &mut Watched<R>,
    console: &mut Console<W, E>,
) -> u8
    ensures performs { Performs request.now console.old.in_words
        (input_by R.remaining input.old input.new)
        (output_by W.contents console.old.output console.new.output)
        (output_by E.contents console.old.errors console.new.errors)
        result }
    // With status 2 the input and the output stay unchanged, and a message never reads the input.
    ensures refused { result ≡ 2 → console.new.output ≡ console.old.output }
    ensures unasked { result ≡ 2 → input.new ≡ input.old }
    ensures unread { IsOfMessage request.now → input.new ≡ input.old }
    ensures in_words { console.new.in_words ≡ console.old.in_words }
{
    match request {
        Request::Convert {
            interface,
            vlan,
            once,
            json,
            ..
        } => {
            let choice = choice_of(*interface, *vlan, *once);
            perform_conversion(alloc, choice, *json, supply, input, console)
        }
        Request::Check {
            protocol,
            querier,
            settings,
            within,
            flags,
            until,
            ..
        } => {
            let options = CheckOptions {
                protocol: *protocol,
                settings: checked_settings(settings),
                terms: terms_of(*within, *until, *flags, false),
            };
            perform_check(alloc, &options, querier, supply, input, console)
        }
        _ => perform_work(alloc, request, supply, input, console),
    }
}

/// Performs a request that is neither a conversion nor a check.
fn perform_work<S: Supply, R: Read, W: Write, E: Write>(
    alloc: Global,
    request: &Request<'_>,
    supply: &S,
    input: &mut Watched<R>,
    console: &mut Console<W, E>,
) -> u8
    requires converts_nothing { IsConversion request.now → ⊥ }
    requires checks_nothing { IsCheck request.now → ⊥ }
    ensures performs { Performs request.now console.old.in_words
        (input_by R.remaining input.old input.new)
        (output_by W.contents console.old.output console.new.output)
        (output_by E.contents console.old.errors console.new.errors)
        result }
    ensures refused { result ≡ 2 → console.new.output ≡ console.old.output }
    ensures unasked { result ≡ 2 → input.new ≡ input.old }
    ensures unread { IsOfMessage request.now → input.new ≡ input.old }
    ensures in_words { console.new.in_words ≡ console.old.in_words }
{
    match work(alloc, request, supply, input, &mut console.output) {
        Ok(true) => DONE,
        Ok(false) => FAULTY,
        Err(failure) => told(failure, console.in_words, &mut console.errors),
    }
}

/// Returns the packets that a conversion selects.
pub(crate) fn choice_of(interface: Option<Interface<'_>>, vlan: Option<u64>, once: bool) -> Choice
    ensures { result ≡ asked_choice interface.entry vlan once }
{
    let interface = match interface {
        None => None,
        Some(Interface::Number(number)) => Some(Which::Number(number)),
        Some(Interface::Name(text)) => Some(Which::Name(name_of(text.as_bytes()))),
    };
    Choice {
        interface,
        vlan,
        once,
    }
}

/// Performs a conversion.
fn perform_conversion<S: Supply, R: Read, W: Write, E: Write>(
    alloc: Global,
    choice: Choice,
    json: bool,
    supply: &S,
    input: &mut Watched<R>,
    console: &mut Console<W, E>,
) -> u8
    ensures performs { PerformsConversion choice json
        (input_by R.remaining input.old input.new)
        (output_by W.contents console.old.output console.new.output)
        (output_by E.contents console.old.errors console.new.errors)
        result }
    ensures in_words { console.new.in_words ≡ console.old.in_words }
{
    match convert_capture(alloc, choice, supply, input, &mut console.output) {
        Ok(counts) => {
            tell_counts(json, &counts, &mut console.errors);
            DONE
        }
        Err(failure) => told(failure, true, &mut console.errors),
    }
}

/// The default tolerance of a check in milliseconds.
const WITHIN: u32 = 100;

/// Returns the terms of a check with the default tolerance if none is given.
pub(crate) fn terms_of(
    within: Option<u32>,
    until: Option<u64>,
    flags: CheckFlags,
    once: bool,
) -> CheckTerms
    ensures { result ≡ asked_terms within until flags once }
{
    CheckTerms {
        within: within.unwrap_or(WITHIN),
        until,
        additions: Additions {
            packets: flags.packets,
            cite: flags.cite,
            once,
            possible: flags.possible,
            json: flags.json,
        },
        flags: mq_check::CheckFlags {
            began: flags.began,
            strict: flags.strict,
            above_7: false,
        },
    }
}

/// Performs a check.
fn perform_check<S: Supply, R: Read, W: Write, E: Write>(
    alloc: Global,
    options: &CheckOptions,
    querier: &str,
    supply: &S,
    input: &mut Watched<R>,
    console: &mut Console<W, E>,
) -> u8
    ensures performs { PerformsCheck options.now querier.now
        (input_by R.remaining input.old input.new)
        (output_by W.contents console.old.output console.new.output)
        (output_by E.contents console.old.errors console.new.errors)
        result }
    ensures refused { result ≡ 2 → console.new.output ≡ console.old.output }
    ensures unasked { result ≡ 2 → input.new ≡ input.old }
    ensures in_words { console.new.in_words ≡ console.old.in_words }
{
    match check_capture(alloc, options, querier, supply, input, &mut console.output) {
        Ok(totals) => status_of_totals(&totals, &mut console.errors),
        Err(failure) => told_of_check(failure, querier, &mut console.errors),
    }
}

/// Reports on standard error the counts of a conversion: as an object, or as lines if one isn't 0.
fn tell_counts<E: Write>(json: bool, counts: &ConvertCounts, errors: &mut Watched<E>)
    ensures { TellsCounts json (output_by E.contents errors.old errors.new) counts.now }
{
    if json {
        return tell_object(counts, errors);
    }
    tell_lines(counts, errors)
}

/// Reports the counts as an object.
fn tell_object<E: Write>(counts: &ConvertCounts, errors: &mut Watched<E>)
    ensures { TellsCounts true (output_by E.contents errors.old errors.new) counts.now }
{
    let _ = print(counts_object_of(counts).as_slice(), errors);
}

/// Reports the counts that are not 0 as lines.
fn tell_lines<E: Write>(counts: &ConvertCounts, errors: &mut Watched<E>)
    ensures { TellsCounts false (output_by E.contents errors.old errors.new) counts.now }
{
    if counts.repeated > 0 || counts.dropped > 0 || counts.unread.count > 0 {
        let _ = print(counts_lines_of(counts).as_slice(), errors);
    }
}

/// Returns the status of a check that reached its end. If nothing was judged, it reports the reason on standard error.
pub(crate) fn status_of_totals<E: Write>(totals: &Totals, errors: &mut Watched<E>) -> u8
    ensures { Concludes totals.now (output_by E.contents errors.old errors.new) result }
{
    match totals.unjudged() {
        Some(why) => {
            tell_unjudged(why, errors);
            UNJUDGED
        }
        None if totals.findings > 0 => FOUND,
        None => DONE,
    }
}

/// Reports on standard error why a check had nothing to judge.
pub(crate) fn tell_unjudged<E: Write>(why: Unjudged, errors: &mut Watched<E>)
    ensures { IsTold (output_by E.contents errors.old errors.new) (unjudged_line why) }
{
    let _ = print(unjudged_line_of(why), errors);
}

/// Returns the line that says why a check had nothing to judge.
fn unjudged_line_of(why: Unjudged) -> &'static [u8]
    ensures { result.now ≡ unjudged_line why }
{
    match why {
        Unjudged::NotUnderstood => {
            b"mquerier: nothing judged: every second packet or more is cut or isn't read\n"
        }
        Unjudged::OutOfOrder => {
            b"mquerier: nothing judged: every second packet or more has a stamp that goes back\n"
        }
        Unjudged::NoMessage => b"mquerier: nothing judged: there is no message of this family\n",
        Unjudged::NoQuery => b"mquerier: nothing judged: no query from this address was seen\n",
        Unjudged::LimitsExceeded => {
            b"mquerier: nothing judged: the limits refuse records about too many groups\n"
        }
    }
}

/// Reports a failure on standard error, and returns its status.
pub(crate) fn told<E: Write>(failure: Failure, in_words: bool, errors: &mut Watched<E>) -> u8
    ensures status { result ≡ status_of failure }
    ensures line { Told in_words (output_by E.contents errors.old errors.new) failure }
{
    let _ = print(line_of(failure, in_words).as_slice(), errors);
    status_of_failure(failure)
}

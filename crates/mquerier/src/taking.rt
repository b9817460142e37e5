//! Checks whose querier and variables come from the capture itself.

ghost use Rattle.std.specs.Prelude.{◌≡◌};
ghost use Rattle.mq_check.specs.Numbered.{numbered_announced};
ghost use Rattle.mquerier.specs.Changes.{input_by, output_by};
ghost use Rattle.mquerier.specs.Replays.{family_of};
ghost use Rattle.mquerier.specs.Taking as spec;

use crate::checking::{CheckOptions, check_at, checked_settings};
use crate::console::Console;
use crate::failure::{Failure, UNJUDGED};
use crate::program::{print_whole, status_of_totals, terms_of, told};
use crate::taken_line::{is_above_7, taken_line_of};
use crate::unopened::tell_no_querier;
use mq_check::{Announced, CheckFlags, CheckTerms, CheckedFamily, Totals, announced_variables};
use mq_command::{Protocol, Request, Settings};
use mq_count::Watched;
use mq_lines::LineKey;
use mq_link::{Igmp, Mld};
use mq_pcap::Supply;
use mq_walk::CaptureFault;
use mq_wire::WireKey;
use std::alloc::Global;
use std::io::{Read, Write};

/// Returns the options of a check whose querier is `auto`, if the request is one.
pub fn taking_of(request: &Request<'_>) -> Option<CheckOptions>
    ensures { result ≡ spec.taking_of request.now }
{
    match request {
        Request::Check {
            protocol,
            querier,
            settings,
            within,
            flags,
            until,
            ..
        } if *querier == "auto" => Some(CheckOptions {
            protocol: *protocol,
            settings: checked_settings(settings),
            terms: terms_of(*within, *until, *flags, true),
        }),
        _ => None,
    }
}

/// Returns whether these first bytes of a capture name a querier, or memory to look for it ran out.
pub fn names_querier(alloc: Global, protocol: Protocol, bytes: &[u8]) -> bool {
    let mut first = Watched::new(bytes);
    match protocol {
        Protocol::Igmp => is_named(announced_variables::<Igmp, Global, &[u8]>(alloc, &mut first)),
        Protocol::Mld => is_named(announced_variables::<Mld, Global, &[u8]>(alloc, &mut first)),
    }
}

/// Returns whether a querier was found, or memory ran out.
fn is_named<K: WireKey>(answer: Result<Option<Announced<K>>, CaptureFault>) -> bool {
    matches!(answer, Ok(Some(_)) | Err(CaptureFault::Memory))
}

/// Performs a check of the querier that the capture names, and returns its status, as `perform` does.
///
/// The variables are those that its queries announce, and given settings decide over them. `first` and `input` are the
/// same capture, which is read twice. After the totals a line names the querier and the variables that come from the
/// capture. Without a general query of the family nothing is judged.
pub fn perform_taking<S: Supply, Q: Read, R: Read, W: Write, E: Write>(
    alloc: Global,
    options: &CheckOptions,
    first: &mut Watched<Q>,
    supply: &S,
    input: &mut Watched<R>,
    console: &mut Console<W, E>,
) -> u8
    ensures performs { spec.PerformsTaking options.now
        (input_by Q.remaining first.old first.new)
        (input_by R.remaining input.old input.new)
        (output_by W.contents console.old.output console.new.output)
        (output_by E.contents console.old.errors console.new.errors)
        result }
    ensures in_words { console.new.in_words ≡ console.old.in_words }
{
    match check_named(alloc, options, first, supply, input, &mut console.output) {
        Ok(Some(totals)) => status_of_totals(&totals, &mut console.errors),
        Ok(None) => {
            tell_no_querier(&mut console.errors);
            UNJUDGED
        }
        Err(failure) => told(failure, true, &mut console.errors),
    }
}

/// Checks the querier that the capture names. Returns None if there is no general query.
fn check_named<S: Supply, Q: Read, R: Read, W: Write>(
    alloc: Global,
    options: &CheckOptions,
    first: &mut Watched<Q>,
    supply: &S,
    input: &mut Watched<R>,
    output: &mut Watched<W>,
) -> Result<Option<Totals>, Failure>
    ensures { spec.ChecksTaking (family_of options.now.protocol) options.now
        (input_by Q.remaining first.old first.new)
        (input_by R.remaining input.old input.new)
        (output_by W.contents output.old output.new)
        result }
{
    match options.protocol {
        Protocol::Igmp => {
            check_taking::<Igmp, S, Q, R, W>(alloc, options, first, supply, input, output)
        }
        Protocol::Mld => {
            check_taking::<Mld, S, Q, R, W>(alloc, options, first, supply, input, output)
        }
    }
}

/// Checks the querier of the family `F` that the capture names. Returns None if there is no general query.
fn check_taking<F: CheckedFamily, S: Supply, Q: Read, R: Read, W: Write>(
    alloc: Global,
    options: &CheckOptions,
    first: &mut Watched<Q>,
    supply: &S,
    input: &mut Watched<R>,
    output: &mut Watched<W>,
) -> Result<Option<Totals>, Failure>
where
    F::Address: LineKey,
    ensures { spec.ChecksTaking F.FAMILY options.now
        (input_by Q.remaining first.old first.new)
        (input_by R.remaining input.old input.new)
        (output_by W.contents output.old output.new)
        result }
{
    match announced_variables::<F, Global, Q>(alloc, first) {
        Ok(Some(found)) => {
            let totals = check_found::<F, S, R, W>(alloc, options, &found, supply, input, output)?;
            Ok(Some(totals))
        }
        Ok(None) => Ok(None),
        Err(fault) => Err(first_failure(fault)),
    }
}

/// Returns the failure of the first reading: a fault of the capture, or else refused memory.
pub(crate) fn first_failure(fault: CaptureFault) -> Failure
    ensures { result ≡ spec.first_failure fault }
{
    match fault {
        CaptureFault::Pcap(fault) => Failure::Capture(fault),
        _ => Failure::Memory,
    }
}

/// Checks the querier that announces these variables, and prints the line of what comes from the capture.
fn check_found<F: CheckedFamily, S: Supply, R: Read, W: Write>(
    alloc: Global,
    given: &CheckOptions,
    found: &Announced<F::Address>,
    supply: &S,
    input: &mut Watched<R>,
    output: &mut Watched<W>,
) -> Result<Totals, Failure>
where
    F::Address: LineKey,
    ensures { spec.ChecksFound F.FAMILY given.now (numbered_announced F.Address.number found.now)
        (input_by R.remaining input.old input.new)
        (output_by W.contents output.old output.new)
        result }
{
    let options = CheckOptions {
        settings: with_variables(&given.settings, found),
        terms: terms_found(given, found),
        ..*given
    };
    let totals = check_at::<F, S, R, W>(alloc, &options, found.querier, supply, input, output)?;
    let line = taken_line_of(given.terms.additions.json, &given.settings, found);
    print_whole(line.as_slice(), output)?;
    Ok(totals)
}

/// Returns the Robustness Variable that a QRV stands for. It is 7 if QRV 0 says that it is above 7.
fn robustness_by(qrv: Option<u32>) -> Option<u32>
    ensures { result ≡ spec.robustness_by qrv }
{
    match qrv {
        Some(0) => Some(7),
        other => other,
    }
}

/// Returns the terms of the check of the querier that announces these variables.
fn terms_found<K: WireKey>(given: &CheckOptions, found: &Announced<K>) -> CheckTerms
    ensures { result ≡ spec.terms_found given.now (numbered_announced K.number found.now) }
{
    CheckTerms {
        flags: CheckFlags {
            above_7: is_above_7(given.settings.robustness, found.robustness),
            ..given.terms.flags
        },
        ..given.terms
    }
}

/// Returns the settings with the announced variables for those that aren't given.
fn with_variables<K: WireKey>(settings: &Settings, found: &Announced<K>) -> Settings
    ensures { result ≡ spec.with_variables settings.now (numbered_announced K.number found.now) }
{
    Settings {
        robustness: settings.robustness.or(robustness_by(found.robustness)),
        query_seconds: settings.query_seconds.or(found.query_seconds),
        response_interval: settings.response_interval.or(found.response_interval),
        last_member_interval: settings.last_member_interval.or(found.last_member_interval),
        ..*settings
    }
}

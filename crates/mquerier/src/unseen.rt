//! Checks of a querier that sent nothing.

ghost use Rattle.std.specs.Prelude.{◌≡◌};
ghost use Rattle.mquerier.specs.Changes.{input_by, output_by};
ghost use Rattle.mquerier.specs.Unseen as spec;

use crate::checking::checked_settings;
use crate::console::Console;
use crate::failure::{Failure, REFUSED, UNJUDGED, status_of_failure};
use crate::program::{perform, tell_unjudged, told};
use crate::replaying::{configured, moment_asked};
use crate::taking::first_failure;
use mq_arena::OfAllocator;
use mq_check::{CheckedFamily, Unjudged, is_unseen_in};
use mq_command::{Protocol, Request, Settings};
use mq_count::Watched;
use mq_lines::LineKey;
use mq_link::{Igmp, Mld};
use mq_pcap::Supply;
use mq_text::{read_v4, read_v6};
use std::alloc::Global;
use std::io::{Read, Write};

/// Performs a request, and returns its status, as `perform` does.
///
/// If it is a check of a querier that is unseen in the capture, only that is reported, with status 4, unless the capture
/// begins before the querier. `first` and `input` are the same capture, which is read twice.
pub fn perform_seen<S: Supply, Q: Read, R: Read, W: Write, E: Write>(
    alloc: Global,
    request: &Request<'_>,
    first: &mut Watched<Q>,
    supply: &S,
    input: &mut Watched<R>,
    console: &mut Console<W, E>,
) -> u8
    ensures performs { spec.PerformsSeen request.now console.old.in_words
        (input_by Q.remaining first.old first.new)
        (input_by R.remaining input.old input.new)
        (output_by W.contents console.old.output console.new.output)
        (output_by E.contents console.old.errors console.new.errors)
        result }
    ensures in_words { console.new.in_words ≡ console.old.in_words }
{
    let found = seek(alloc, request, first);
    match refusal_of(found, &mut console.errors) {
        Some(status) => status,
        None => perform(alloc, request, supply, input, console),
    }
}

/// Reports that the querier is unseen, or why the search failed, and returns the status. Returns None if the request is to
/// be performed.
pub fn refusal_of<E: Write>(found: Result<bool, Failure>, errors: &mut Watched<E>) -> Option<u8>
    ensures { spec.EndsWith found (output_by E.contents errors.old errors.new) result }
{
    match found {
        Ok(true) => {
            tell_unjudged(Unjudged::NoQuery, errors);
            Some(UNJUDGED)
        }
        Ok(false) => None,
        // The request reports it.
        Err(failure) if status_of_failure(failure) == REFUSED => None,
        Err(failure) => Some(told(failure, true, errors)),
    }
}

/// Returns whether the request is a check of a querier that is unseen in a capture. A check whose capture begins before the
/// querier doesn't read it.
pub fn seek<R: Read>(
    alloc: Global,
    request: &Request<'_>,
    first: &mut Watched<R>,
) -> Result<bool, Failure>
    ensures { spec.SeeksAsked request.now (input_by R.remaining first.old first.new) result }
{
    match request {
        Request::Check {
            protocol,
            querier,
            settings,
            flags,
            until,
            ..
        } if !flags.began => {
            let settings = checked_settings(settings);
            seek_named(alloc, *protocol, querier, &settings, *until, first)
        }
        _ => Ok(false),
    }
}

/// Returns whether the querier with this address is unseen.
fn seek_named<R: Read>(
    alloc: Global,
    protocol: Protocol,
    querier: &str,
    settings: &Settings,
    until: Option<u64>,
    first: &mut Watched<R>,
) -> Result<bool, Failure>
    ensures { spec.SeeksNamed protocol querier.now settings.now until (input_by R.remaining first.old first.new) result }
{
    match protocol {
        Protocol::Igmp => match read_v4(querier) {
            Some(own) => seek_at::<Igmp, R>(alloc, own, settings, until, first),
            None => Err(Failure::NotAnAddress),
        },
        Protocol::Mld => match read_v6(querier) {
            Some(own) => seek_at::<Mld, R>(alloc, own, settings, until, first),
            None => Err(Failure::NotAnAddress),
        },
    }
}

/// Returns whether the querier of the family `F` with the address `own` is unseen. Nothing is read until the request is
/// accepted.
fn seek_at<F: CheckedFamily, R: Read>(
    alloc: Global,
    own: F::Address,
    settings: &Settings,
    until: Option<u64>,
    first: &mut Watched<R>,
) -> Result<bool, Failure>
where
    F::Address: LineKey,
    ensures { spec.SeeksAt F.FAMILY (F.Address.number own) settings.now until (input_by R.remaining first.old first.new) result }
{
    let _end = moment_asked(until)?;
    let _config = configured::<F>(own, settings)?;
    match is_unseen_in::<F, Global, OfAllocator<Global>, R>(&mut OfAllocator(alloc), own, first) {
        Ok(is_unseen) => Ok(is_unseen),
        Err(fault) => Err(first_failure(fault)),
    }
}

//! The check of a request.

ghost use Rattle.std.specs.Prelude.{◌≡◌};
ghost use Rattle.mquerier.specs.Changes.{input_by, output_by};
ghost use Rattle.mquerier.specs.CheckRuns as spec;
ghost use Rattle.mquerier.specs.Working.{ChecksAt, IsUnwritten, WorksOnCheck};

use crate::breaking::ended;
use crate::failure::Failure;
use crate::replaying::{configured, moment_asked};
use mq_check::{CheckTerms, CheckedFamily, Totals, check};
use mq_command::{Protocol, Settings};
use mq_count::Watched;
use mq_lines::LineKey;
use mq_link::{Igmp, Mld};
use mq_pcap::Supply;
use mq_text::{read_v4, read_v6};
use std::alloc::Global;
use std::io::{Read, Write};

/// The options of a check, without its querier.
#[derive(Clone, Copy)]
pub struct CheckOptions {
    /// The querier's protocol.
    pub protocol: Protocol,
    /// The given variables and limits.
    pub settings: Settings,
    /// The terms of the check.
    pub terms: CheckTerms,
}

/// The greatest limits of a link.
const GREATEST: u32 = 65535;

const GREATEST_OF_A_GROUP: u32 = 1024;

/// Returns the settings of a check. A limit that isn't given is the greatest: the link stands for a querier whose limits
/// are not known.
pub(crate) fn checked_settings(settings: &Settings) -> Settings
    ensures { result ≡ spec.checked_settings settings.now }
{
    Settings {
        groups: settings.groups.or(Some(GREATEST)),
        group_sources: settings.group_sources.or(Some(GREATEST_OF_A_GROUP)),
        sources: settings.sources.or(Some(GREATEST)),
        scheduled: settings.scheduled.or(Some(GREATEST)),
        ..*settings
    }
}

/// Checks the querier with this address in the input capture. Nothing is read or written until the request is accepted
/// and all memory is allocated.
pub(crate) fn check_capture<S: Supply, R: Read, W: Write>(
    alloc: Global,
    options: &CheckOptions,
    querier: &str,
    supply: &S,
    input: &mut Watched<R>,
    output: &mut Watched<W>,
) -> Result<Totals, Failure>
    ensures works { WorksOnCheck options.now.protocol querier.now options.now.settings options.now.terms
        (input_by R.remaining input.old input.new)
        (output_by W.contents output.old output.new)
        result }
    ensures unread { IsUnwritten result → input.new ≡ input.old }
    ensures unwritten { IsUnwritten result → output.new ≡ output.old }
{
    match options.protocol {
        Protocol::Igmp => match read_v4(querier) {
            Some(address) => {
                check_at::<Igmp, S, R, W>(alloc, options, address, supply, input, output)
            }
            None => Err(Failure::NotAnAddress),
        },
        Protocol::Mld => match read_v6(querier) {
            Some(address) => {
                check_at::<Mld, S, R, W>(alloc, options, address, supply, input, output)
            }
            None => Err(Failure::NotAnAddress),
        },
    }
}

/// Checks the querier of the family `F` with the address `querier`.
pub(crate) fn check_at<F: CheckedFamily, S: Supply, R: Read, W: Write>(
    alloc: Global,
    options: &CheckOptions,
    querier: F::Address,
    supply: &S,
    input: &mut Watched<R>,
    output: &mut Watched<W>,
) -> Result<Totals, Failure>
where
    F::Address: LineKey,
    ensures works { ChecksAt F.FAMILY (F.Address.number querier) options.now.settings options.now.terms
        (input_by R.remaining input.old input.new)
        (output_by W.contents output.old output.new)
        result }
    ensures unread { IsUnwritten result → input.new ≡ input.old }
    ensures unwritten { IsUnwritten result → output.new ≡ output.old }
{
    let _end = moment_asked(options.terms.until)?;
    let config = configured::<F>(querier, &options.settings)?;
    let answer = check(alloc, config, options.terms, supply, input, output);
    ended(answer, output)
}

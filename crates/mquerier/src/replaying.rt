//! The replay of a request.

ghost use Rattle.std.specs.Prelude.{◌≡◌, true, false, MatchResult};
ghost use Rattle.mquerier.specs.Changes.{input_by, output_by};
ghost use Rattle.mquerier.specs.Replays.{asked_configuration, asked_limits, is_too_large};
ghost use Rattle.mquerier.specs.Working.{IsConfigured, IsUnwritten, WorksAt, WorksOnReplay};

use crate::breaking::ended;
use crate::failure::Failure;
use mq_arena::OfAllocator;
use mq_command::{Protocol, Settings};
use mq_count::{Moment, Watched};
use mq_lines::LineKey;
use mq_link::{Config, Igmp, Limits, Mld};
use mq_pcap::Supply;
use mq_replay::{Asked, replay};
use mq_text::{read_v4, read_v6};
use mq_walk::CapturedFamily;
use std::alloc::Global;
use std::io::{Read, Write};

/// The options of a replay, without the querier's own address.
#[derive(Clone, Copy)]
pub(crate) struct ReplayOptions {
    /// The querier's protocol.
    pub(crate) protocol: Protocol,
    /// The given variables and limits.
    pub(crate) settings: Settings,
    /// The request for the replay.
    pub(crate) asked: Asked,
}

/// Replays the input capture to a querier with this address. Nothing is read or written until the request is accepted
/// and all memory is allocated.
pub(crate) fn replay_capture<S: Supply, R: Read, W: Write>(
    alloc: Global,
    options: &ReplayOptions,
    own: &str,
    supply: &S,
    input: &mut Watched<R>,
    output: &mut Watched<W>,
) -> Result<bool, Failure>
    ensures works { WorksOnReplay options.now.protocol own.now options.now.settings options.now.asked
        (input_by R.remaining input.old input.new)
        (output_by W.contents output.old output.new)
        result }
    ensures unread { IsUnwritten result → input.new ≡ input.old }
    ensures unwritten { IsUnwritten result → output.new ≡ output.old }
{
    match options.protocol {
        Protocol::Igmp => match read_v4(own) {
            Some(address) => {
                replay_at::<Igmp, S, R, W>(alloc, options, address, supply, input, output)
            }
            None => Err(Failure::NotAnAddress),
        },
        Protocol::Mld => match read_v6(own) {
            Some(address) => {
                replay_at::<Mld, S, R, W>(alloc, options, address, supply, input, output)
            }
            None => Err(Failure::NotAnAddress),
        },
    }
}

/// Replays the capture to a querier of the family `F` with the address `own`.
fn replay_at<F: CapturedFamily, S: Supply, R: Read, W: Write>(
    alloc: Global,
    options: &ReplayOptions,
    own: F::Address,
    supply: &S,
    input: &mut Watched<R>,
    output: &mut Watched<W>,
) -> Result<bool, Failure>
where
    F::Address: LineKey,
    ensures works { WorksAt F.FAMILY (F.Address.number own) options.now.settings options.now.asked
        (input_by R.remaining input.old input.new)
        (output_by W.contents output.old output.new)
        result }
    ensures unread { IsUnwritten result → input.new ≡ input.old }
    ensures unwritten { IsUnwritten result → output.new ≡ output.old }
{
    let _end = moment_asked(options.asked.until)?;
    let config = configured::<F>(own, &options.settings)?;
    let answer = replay(
        &mut OfAllocator(alloc),
        config,
        options.asked,
        supply,
        input,
        output,
    );
    ended(answer, output)?;
    Ok(true)
}

/// Returns the moment at this number of milliseconds, if it is given.
pub(crate) fn moment_asked(until: Option<u64>) -> Result<Option<Moment>, Failure>
    ensures { MatchResult result
        (λ moment. (moment ≡ until) × (is_too_large until ≡ false))
        (λ failure. (failure ≡ Failure.UntilTooLarge) × (is_too_large until ≡ true)) }
{
    let Some(ms) = until else {
        return Ok(None);
    };
    match Moment::from_ms(ms) {
        Some(moment) => Ok(Some(moment)),
        None => Err(Failure::UntilTooLarge),
    }
}

/// Returns the configuration of these settings, with the family's defaults for the others.
pub(crate) fn configured<F: CapturedFamily>(
    own: F::Address,
    settings: &Settings,
) -> Result<Config<F>, Failure>
where
    F::Address: LineKey,
    ensures { IsConfigured (asked_configuration F.FAMILY (F.Address.number own) settings.now) result }
{
    let defaults = F::defaults();
    let query_seconds = settings.query_seconds.unwrap_or(defaults.query_seconds);
    let response_interval = settings
        .response_interval
        .unwrap_or(defaults.response_interval);
    let made = Config::new(
        settings.robustness.unwrap_or(defaults.robustness),
        query_seconds,
        response_interval,
        settings
            .last_member_interval
            .unwrap_or(defaults.last_member_interval),
        limits_asked(settings, &defaults.limits),
        own,
        settings.source_specific,
    );
    match made {
        Ok(config) => Ok(config),
        Err(fault) => Err(Failure::Configuration {
            fault,
            query_seconds,
            response_interval,
        }),
    }
}

/// Returns the limits of these settings, with these defaults.
fn limits_asked(settings: &Settings, defaults: &Limits) -> Limits
    ensures { result ≡ asked_limits defaults.now settings.now }
{
    Limits {
        groups: settings.groups.unwrap_or(defaults.groups),
        group_sources: settings.group_sources.unwrap_or(defaults.group_sources),
        sources: settings.sources.unwrap_or(defaults.sources),
        scheduled: settings.scheduled.unwrap_or(defaults.scheduled),
    }
}

//! The request of the page for a querier.

ghost use Rattle.std.specs.Prelude.{◌≡◌, false, true, MatchResult};
ghost use Rattle.mq_page.specs.Asked.{IsAccepted, IsConfigured, IsRefused, configuration_asked, is_too_large, until_asked};

use crate::page_fault::PageFault;
use mq_count::Moment;
use mq_link::{Config, Family, Limits};

/// The request of the page for a querier, beside its family and its address.
#[repr(C)]
#[derive(Clone, Copy)]
pub struct Settings {
    /// The Robustness Variable.
    pub robustness: u32,
    /// The Query Interval in seconds.
    pub query_interval: u32,
    /// The Query Response Interval in milliseconds.
    pub response_interval: u32,
    /// The Last Member (Last Listener) Query Interval in milliseconds.
    pub last_member_interval: u32,
    /// The most groups that it holds.
    pub groups: u32,
    /// The most sources of a group.
    pub group_sources: u32,
    /// The most sources of all groups.
    pub sources: u32,
    /// The most schedules of queries.
    pub scheduled: u32,
    /// The flag to keep the source-specific range for source-specific multicast; 0 says no.
    pub source_specific: u32,
    /// The flag of a replay for the groups that each event changes; 0 says no.
    pub changes: u32,
    /// The tolerance of a check in milliseconds.
    pub within: u32,
    /// The flag for the section of the standard after each finding of a check; 0 says no.
    pub cite: u32,
    /// The flag for objects of JSON in place of lines; 0 says no.
    pub json: u32,
    /// The moment until which a replay or a check runs at least, in milliseconds; 2^64 - 1 stands for none.
    pub until: u64,
}

impl Settings {
    /// Returns the moment until which a replay or a check runs at least, if one is requested.
    pub(crate) fn end(&self) -> Option<u64>
        ensures { result ≡ until_asked self.now }
    {
        if self.until == u64::MAX {
            return None;
        }
        Some(self.until)
    }
}

/// Returns the moment of these milliseconds, if they are given.
fn moment_of(until: Option<u64>) -> Result<Option<Moment>, PageFault>
    ensures { MatchResult result
        (λ moment. (moment ≡ until) × (is_too_large until ≡ false))
        (λ fault. (fault ≡ PageFault.UntilTooLarge) × (is_too_large until ≡ true)) }
{
    let Some(ms) = until else {
        return Ok(None);
    };
    match Moment::from_ms(ms) {
        Some(moment) => Ok(Some(moment)),
        None => Err(PageFault::UntilTooLarge),
    }
}

/// Returns the configuration of a querier with this address, or its first fault.
fn config_of<F: Family>(own: F::Address, settings: &Settings) -> Result<Config<F>, PageFault>
    ensures { IsConfigured (configuration_asked F.FAMILY (F.Address.number own) settings.now) result }
{
    let limits = Limits {
        groups: settings.groups,
        group_sources: settings.group_sources,
        sources: settings.sources,
        scheduled: settings.scheduled,
    };
    match Config::new(
        settings.robustness,
        settings.query_interval,
        settings.response_interval,
        settings.last_member_interval,
        limits,
        own,
        settings.source_specific != 0,
    ) {
        Ok(config) => Ok(config),
        Err(fault) => Err(PageFault::Configuration(fault)),
    }
}

/// A querier with an accepted request.
#[derive(Drop)]
pub(crate) struct Querier<F: Family> {
    /// Its configuration.
    pub(crate) config: Config<F>,
    /// The moment until which a replay of it runs at least, in milliseconds, if one is requested.
    pub(crate) until: Option<u64>,
}

/// Returns the querier with this address, or the reason to refuse it.
pub(crate) fn querier_of<F: Family>(
    own: F::Address,
    settings: &Settings,
) -> Result<Querier<F>, PageFault>
    ensures { let asked = configuration_asked F.FAMILY (F.Address.number own) settings.now in
        let until = until_asked settings.now in
        MatchResult result
        (λ a. IsAccepted asked until × (a.config ≡ asked) × (a.until ≡ until))
        (λ fault. IsRefused asked until fault) }
{
    let until = settings.end();
    match moment_of(until) {
        Ok(_) => {}
        Err(fault) => return Err(fault),
    }
    match config_of::<F>(own, settings) {
        Ok(config) => Ok(Querier { config, until }),
        Err(fault) => Err(fault),
    }
}

//! Configurations.

ghost use Rattle.std.specs.Prelude.{◌≡◌, ℕ, Bool, true, false, not, [], ◌∷◌};
ghost use Rattle.mq_wire.specs.Family.{Family};
ghost use Rattle.mq_link.specs.Configuration as spec;
ghost use Rattle.mq_link.specs.Configuration.{is_allowed, is_outside, as_fault, else_fault, IsFaultless, IsWithinRoom};
ghost use Rattle.mq_link.specs.Configured.{variables, configured, IsGivenOrFaulty};
ghost use Rattle.mq_link.specs.Defaults.{configured_by_default};
ghost use Rattle.mq_link.specs.Family.{is_router_address};
ghost use Rattle.mq_link.specs.Tests.{first_named};

use crate::configuration::{ConfigFault, LimitName, Limits};
use crate::family::Family;
use crate::ranges::{Ranges, is_allowed_by};
use mq_table::Timing;
use std::marker::Model;

/// The configuration of a link of the family `F`. It has no fault. A contract sees the `Configuration` of the
/// definitions.
#[derive(Drop)]
pub struct Config<F: Family> {
    timing: Timing,
    response_interval: u32,
    last_member_interval: u32,
    limits: Limits,
    own: F::Address,
    source_specific: bool,
    room: Limits,
    ranges: Ranges,
}

impl<F: Family> Model for Config<F> {
    ghost use Rattle.std.specs.Prelude.{◌≡◌};
    ghost use Rattle.mq_link.specs.Configuration.{Configuration, IsFaultless, IsWithinRoom};
    ghost use Rattle.mq_link.specs.Configured.{configured};

    ghost Value = { Configuration };

    ghost view = { λ c.
        record (configured F.FAMILY c.timing c.limits (F.Address.number c.own) c.source_specific) { room = c.room; ranges = c.ranges } };

    ghost invariant = { λ c.
        IsFaultless (configured F.FAMILY c.timing c.limits (F.Address.number c.own) c.source_specific)
        × IsWithinRoom (record (configured F.FAMILY c.timing c.limits (F.Address.number c.own) c.source_specific) { room = c.room; ranges = c.ranges })
        × (c.response_interval ≡ c.timing.response_interval) × (c.last_member_interval ≡ c.timing.last_member_interval) };
}

impl<F: Family> Config<F> {
    /// Returns the configuration of these variables, limits and own address, or its first fault.
    ///
    /// The Robustness Variable is 1 to 7, and the Query Interval 1 to 31744 seconds. The Query Response Interval and
    /// the Last Member (Last Listener) Query Interval are in milliseconds, and the response code of the family has to
    /// carry them. The Query Response Interval is below the Query Interval (RFC 3376 section 8, RFC 3810 section 9).
    /// With `source_specific` the source-specific range is kept for source-specific multicast (RFC 4604). Hosts may ask for
    /// every group.
    pub fn new(
        robustness: u32,
        query_seconds: u32,
        response_interval: u32,
        last_member_interval: u32,
        limits: Limits,
        own: F::Address,
        source_specific: bool,
    ) -> Result<Config<F>, ConfigFault>
        ensures { let timing = variables robustness query_seconds response_interval last_member_interval in
            IsGivenOrFaulty (configured F.FAMILY timing limits (F.Address.number own) source_specific) result }
    {
        if let Some(fault) = timing_fault::<F>(
            robustness,
            query_seconds,
            response_interval,
            last_member_interval,
        ) {
            return Err(fault);
        }
        if let Some(fault) = limits_or_own_fault::<F>(&limits, own) {
            return Err(fault);
        }
        let Some(timing) = Timing::new(
            robustness,
            query_seconds,
            response_interval,
            last_member_interval,
        ) else {
            unreachable!()
        };
        Ok(Config {
            timing,
            response_interval,
            last_member_interval,
            limits,
            own,
            source_specific,
            room: limits,
            ranges: Ranges::none(),
        })
    }

    /// Returns this configuration with another Last Member (Last Listener) Query Count.
    ///
    /// It is 0 to 7. 0, the count after `new`, stands for the Robustness Variable in force. Another one stays if a query
    /// announces another Robustness Variable. RFC 3376 sections 8.9 and 8.10, RFC 3810 sections 9.9 and 9.10.
    pub fn with_last_member_query_count(self, count: u32) -> Result<Config<F>, ConfigFault>
        ensures { IsGivenOrFaulty (record self { timing = record self.timing { last_member_query_count = count } }) result }
    {
        let Some(timing) = self.timing.with_last_member_query_count(count) else {
            return Err(ConfigFault::LastMemberCount);
        };
        Ok(Config { timing, ..self })
    }

    /// A lemma: each configuration has no fault, and is of its family. It has no effect at run time.
    pub fn is_faultless(&self)
        ensures faultless { IsFaultless self.now }
        ensures within { IsWithinRoom self.now }
        ensures family { self.now.family ≡ F.FAMILY }
    {
        let _held = self.source_specific;
    }

    /// Returns the variables (RFC 3376 section 8, RFC 3810 section 9).
    pub fn timing(&self) -> Timing
        ensures { result ≡ self.now.timing }
    {
        self.timing
    }

    /// Returns the Query Response Interval in milliseconds (RFC 3376 section 8.3, RFC 3810 section 9.3).
    pub fn response_interval(&self) -> u32
        ensures { result ≡ self.now.timing.response_interval }
    {
        self.response_interval
    }

    /// Returns the Last Member (Last Listener) Query Interval in milliseconds. RFC 3376 section 8.8, RFC 3810 section
    /// 9.8.
    pub fn last_member_interval(&self) -> u32
        ensures { result ≡ self.now.timing.last_member_interval }
    {
        self.last_member_interval
    }

    /// Returns how much the link may hold.
    pub fn limits(&self) -> Limits
        ensures { result ≡ self.now.limits }
    {
        self.limits
    }

    /// Returns the limits for which the memory of its link is allocated: those with which it was made.
    pub fn room(&self) -> Limits
        ensures { result ≡ self.now.room }
    {
        self.room
    }

    /// Returns this configuration for a link whose memory was allocated for other limits.
    pub(crate) fn with_room(self, room: Limits) -> Config<F>
        requires within { IsWithinRoom (record self { room = room }) }
        ensures { result ≡ record self { room = room } }
    {
        Config { room, ..self }
    }

    /// Returns this configuration with other ranges of groups that hosts may ask for.
    pub fn with_ranges(self, ranges: Ranges) -> Config<F>
        ensures { result ≡ record self { ranges = ranges } }
    {
        Config { ranges, ..self }
    }

    /// Returns whether hosts may ask for a group.
    pub fn allows(&self, group: F::Address) -> bool
        ensures { result ≡ is_allowed self.now (F.Address.number group) }
    {
        is_allowed_by::<F>(&self.ranges, group)
    }

    /// Returns the router's own address.
    pub fn own(&self) -> F::Address
        ensures { F.Address.number result ≡ self.now.own }
    {
        self.own
    }

    /// Returns whether the source-specific range is kept for source-specific multicast (RFC 4604).
    pub fn source_specific(&self) -> bool
        ensures { result ≡ self.now.source_specific }
    {
        self.source_specific
    }
}

/// A lemma: the defaults of a family have no fault if a router may have the own address. It has no effect at run time.
pub fn defaults_have_no_fault()
    ensures { (family : Family) (own : ℕ) (source_specific : Bool)
        → is_router_address family own ≡ true
        → IsFaultless (configured_by_default family own source_specific) }
{}

/// Returns whether a number is outside of a range.
fn is_outside(low: u32, high: u32, number: u32) -> bool
    ensures { result ≡ is_outside low high number }
{
    number < low || high < number
}

/// Returns the first variable that is out of its range.
fn timing_fault<F: Family>(
    robustness: u32,
    query_seconds: u32,
    response_interval: u32,
    last_member_interval: u32,
) -> Option<ConfigFault>
    ensures { result ≡ spec.timing_fault F.FAMILY
        (variables robustness query_seconds response_interval last_member_interval) }
{
    if is_outside(1, 7, robustness) {
        return Some(ConfigFault::Robustness);
    }
    if is_outside(1, 31744, query_seconds) {
        return Some(ConfigFault::QueryInterval);
    }
    if is_outside(F::RESPONSE_UNIT, F::GREATEST_RESPONSE, response_interval)
        || query_seconds * 1000 <= response_interval
    {
        return Some(ConfigFault::ResponseInterval);
    }
    if is_outside(F::RESPONSE_UNIT, F::GREATEST_RESPONSE, last_member_interval) {
        return Some(ConfigFault::LastMember);
    }
    None
}

/// Returns the first limit that is out of its range.
fn limit_fault(limits: &Limits) -> Option<LimitName>
    ensures { result ≡ spec.limit_fault limits.now }
{
    if is_outside(1, 65535, limits.groups) {
        return Some(LimitName::Groups);
    }
    if is_outside(1, 1024, limits.group_sources) {
        return Some(LimitName::GroupSources);
    }
    if is_outside(1, 65535, limits.sources) {
        return Some(LimitName::Sources);
    }
    if is_outside(1, 65535, limits.scheduled) {
        return Some(LimitName::Scheduled);
    }
    None
}

/// Returns the first fault beside those of the variables: of the limits, then of the router's own address.
fn limits_or_own_fault<F: Family>(limits: &Limits, own: F::Address) -> Option<ConfigFault>
    ensures { let own_is_none = not (is_router_address F.FAMILY (F.Address.number own)) in
        result ≡ else_fault (as_fault (spec.limit_fault limits.now)) (first_named ((ConfigFault.OwnAddress, own_is_none) ∷ [])) }
{
    if let Some(which) = limit_fault(limits) {
        return Some(ConfigFault::Limit { which });
    }
    if F::is_router_address(own) {
        None
    } else {
        Some(ConfigFault::OwnAddress)
    }
}

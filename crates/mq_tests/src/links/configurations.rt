//! Configurations: the bounds of each of their ranges, and the first fault.

use crate::links::facts::unless;
use crate::links::given::{Given, configured, given_of};
use crate::links::written::Written;
use mq_link::{Config, ConfigFault, Defaults, Igmp, LimitName, Mld};
use std::process::Abort;

/// Lines with a fault, or `none`, and each value that differs from the default. They hold for both families. If there
/// are several faults, the first is named.
static OF_BOTH: &str = "
    none
    none source_specific=1
    Robustness robustness=0
    none robustness=1
    none robustness=7
    Robustness robustness=8
    Robustness robustness=4294967295
    QueryInterval query_seconds=0
    none query_seconds=1 response_interval=999
    ResponseInterval query_seconds=1 response_interval=1000
    none query_seconds=31744
    QueryInterval query_seconds=31745
    QueryInterval query_seconds=4294967295
    ResponseInterval response_interval=0
    none response_interval=124999
    ResponseInterval response_interval=125000
    ResponseInterval response_interval=4294967295
    LastMember last_member_interval=0
    LastMember last_member_interval=4294967295
    Groups groups=0
    none groups=1
    none groups=65535
    Groups groups=65536
    GroupSources group_sources=0
    none group_sources=1
    none group_sources=1024
    GroupSources group_sources=1025
    Sources sources=0
    none sources=1
    none sources=65535
    Sources sources=65536
    Scheduled scheduled=0
    none scheduled=1
    none scheduled=65535
    Scheduled scheduled=65536
    Robustness robustness=8 query_seconds=0
    QueryInterval query_seconds=0 response_interval=0
    ResponseInterval response_interval=0 last_member_interval=0
    LastMember last_member_interval=0 groups=0
    Groups groups=0 group_sources=0
    Groups groups=0 sources=0
    GroupSources group_sources=0 sources=0
    Sources sources=0 scheduled=0
";

static OF_IGMP: &str = "
    ResponseInterval response_interval=99
    none response_interval=100
    none query_seconds=31744 response_interval=3174400
    ResponseInterval query_seconds=31744 response_interval=3174401
    LastMember last_member_interval=50
    LastMember last_member_interval=99
    none last_member_interval=100
    none last_member_interval=3174400
    LastMember last_member_interval=3174401
    OwnAddress own=0.0.0.0
    none own=0.0.0.1
    none own=223.255.255.255
    OwnAddress own=224.0.0.0
    OwnAddress own=224.0.0.1
    Scheduled scheduled=0 own=0.0.0.0
";

static OF_MLD: &str = "
    none response_interval=1
    none query_seconds=31744 response_interval=8387584
    ResponseInterval query_seconds=31744 response_interval=8387585
    none last_member_interval=1
    none last_member_interval=8387584
    LastMember last_member_interval=8387585
    OwnAddress own=::
    OwnAddress own=fe7f:ffff:ffff:ffff:ffff:ffff:ffff:ffff
    none own=fe80::
    none own=febf:ffff:ffff:ffff:ffff:ffff:ffff:ffff
    OwnAddress own=fec0::
    OwnAddress own=ff02::1
    OwnAddress own=2001:db8::1
    Scheduled scheduled=0 own=::
";

fn limit(which: LimitName) -> Option<Option<ConfigFault>> {
    Some(Some(ConfigFault::Limit { which }))
}

/// Returns the fault that a line names, if it names one.
fn fault_of(line: &str) -> Option<Option<ConfigFault>> {
    match line.split_whitespace().next()? {
        "none" => Some(None),
        "Robustness" => Some(Some(ConfigFault::Robustness)),
        "QueryInterval" => Some(Some(ConfigFault::QueryInterval)),
        "ResponseInterval" => Some(Some(ConfigFault::ResponseInterval)),
        "LastMember" => Some(Some(ConfigFault::LastMember)),
        "Groups" => limit(LimitName::Groups),
        "GroupSources" => limit(LimitName::GroupSources),
        "Sources" => limit(LimitName::Sources),
        "Scheduled" => limit(LimitName::Scheduled),
        "OwnAddress" => Some(Some(ConfigFault::OwnAddress)),
        _ => None,
    }
}

/// Returns what differs in a configuration from the given one.
fn differs<F: Written>(config: &Config<F>, given: &Given<'_>) -> Option<&'static str> {
    let timing = config.timing();
    let variables = (
        timing.robustness(),
        timing.query_seconds(),
        config.response_interval(),
        config.last_member_interval(),
    );
    let is_own = match F::address(given.own) {
        Some(own) => F::is_same(config.own(), own),
        None => false,
    };
    unless(variables == given.variables, "other variables")
        .or(unless(config.limits() == given.limits, "other limits"))
        .or(unless(is_own, "another own address"))
        .or(unless(
            config.source_specific() == given.source_specific,
            "the range",
        ))
}

fn line_fails<F: Written>(line: &str) -> Option<&'static str> {
    let (Some(fault), Some(given)) = (fault_of(line), given_of(F::given(), line)) else {
        return Some("no configuration");
    };
    match configured::<F>(&given) {
        None => Some("its own address is none"),
        Some(Ok(config)) => unless(fault.is_none(), "no fault").or(differs(&config, &given)),
        Some(Err(found)) => unless(fault == Some(found), "another fault"),
    }
}

/// Returns what differs between the defaults of a family and those of its rows.
fn defaults_fail<F: Written>() -> Option<&'static str> {
    let given = F::given();
    let (robustness, query_seconds, response_interval, last_member_interval) = given.variables;
    let wanted = Defaults {
        robustness,
        query_seconds,
        response_interval,
        last_member_interval,
        limits: given.limits,
    };
    unless(F::defaults() == wanted, "other defaults")
}

fn expect_lines<F: Written>(rt: &impl Abort, lines: &str) {
    if let Some(what) = defaults_fail::<F>() {
        panic!(rt; "{what}");
    }
    for line in lines.trim().lines() {
        if let Some(what) = line_fails::<F>(line) {
            panic!(rt; "{line}: {what}");
        }
    }
}

#[test]
fn of_igmp(rt: HostRuntime) {
    expect_lines::<Igmp>(&rt, OF_BOTH);
    expect_lines::<Igmp>(&rt, OF_IGMP);
}

#[test]
fn of_mld(rt: HostRuntime) {
    expect_lines::<Mld>(&rt, OF_BOTH);
    expect_lines::<Mld>(&rt, OF_MLD);
}

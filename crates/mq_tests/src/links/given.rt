//! Configurations as lines: a word, and what is another than by default, as `link groups=1 own=10.0.0.9`.

use crate::links::written::Written;
use mq_link::{Config, ConfigFault, Limits};

/// The variables of a configuration: the robustness variable, the query interval in seconds, the query response interval
/// and the last member query interval in milliseconds.
pub type Variables = (u32, u32, u32, u32);

/// A configuration.
#[derive(Clone, Copy)]
pub struct Given<'a> {
    pub variables: Variables,
    pub limits: Limits,
    pub own: &'a str,
    pub source_specific: bool,
}

/// Changes what a word names. Returns whether it names something.
fn is_changed<'a>(given: &mut Given<'a>, name: &str, value: &'a str) -> bool {
    if name == "own" {
        given.own = value;
        return true;
    }
    let Ok(number) = value.parse::<u32>() else {
        return false;
    };
    match name {
        "robustness" => given.variables.0 = number,
        "query_seconds" => given.variables.1 = number,
        "response_interval" => given.variables.2 = number,
        "last_member_interval" => given.variables.3 = number,
        "groups" => given.limits.groups = number,
        "group_sources" => given.limits.group_sources = number,
        "sources" => given.limits.sources = number,
        "scheduled" => given.limits.scheduled = number,
        "source_specific" => given.source_specific = number == 1,
        _ => return false,
    }
    true
}

/// Reads the configuration of a line: what is given, but for what the line names.
pub fn given_of<'a>(given: Given<'a>, line: &'a str) -> Option<Given<'a>> {
    let mut given = given;
    let mut words = line.split_whitespace();
    let _first = words.next()?;
    for word in words {
        let (name, value) = word.split_once('=')?;
        if !is_changed(&mut given, name, value) {
            return None;
        }
    }
    Some(given)
}

/// Makes a configuration, or returns its fault, or None where its own address is none.
pub fn configured<F: Written>(given: &Given<'_>) -> Option<Result<Config<F>, ConfigFault>> {
    let (robustness, query_seconds, response_interval, last_member_interval) = given.variables;
    Some(Config::new(
        robustness,
        query_seconds,
        response_interval,
        last_member_interval,
        given.limits,
        F::address(given.own)?,
        given.source_specific,
    ))
}

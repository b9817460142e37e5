//! Worked examples of the definitions, each computed by the check: of groups and schedules, of a link, of the text of a replay,
//! and of checks. The functions have no effect at run time: each contract is an example.
#![tactic(auto)]

pub mod checks;
pub mod groups;
pub mod links;
pub mod replays;
pub mod schedules;

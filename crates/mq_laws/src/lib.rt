//! Laws of the definitions, layer by layer. The functions have no effect at run time: each contract is a law.
#![tactic(auto)]

pub mod captures;
pub mod checks;
pub mod conversions;
pub mod groups;
pub mod links;
pub mod messages;
pub mod replays;
pub mod schedules;
pub mod texts;

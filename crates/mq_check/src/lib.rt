//! A check of another querier against the standards: its queries in a capture are compared with those of a link that
//! has its address.
//!
//! ```text
//! let mut input = Watched::new(reader);
//! let mut output = Watched::new(writer);
//! check(alloc, config, terms, &supply, &mut input, &mut output)     // Ok(totals); or why it ended early
//! ```
//!
//! - The check: `check`, or `check_in` with memory from a source, with `CheckTerms`. It returns `Totals` with the `Basis` of the verdict, or a `CaptureFault` if
//!   it ends early.
//! - Findings: `Finding`, on a subject `Asked`. `specs/Check` defines them.
#![tactic(auto)]

mod announced;
mod asked;
mod basis;
mod causes;
mod check_terms;
mod checked_capture;
mod checked_family;
mod checking;
mod earliest_partner;
mod ending;
mod entry;
mod finding;
mod finding_lines;
mod finding_objects;
mod finding_writer;
mod general;
mod headers;
mod judging;
mod others;
mod past;
mod phase;
mod purging;
mod querier_address;
mod refused;
mod repeated;
mod running_check;
mod schedules;
mod seeing;
mod seen_queries;
mod slots;
mod sought;
mod stamp;
mod standing;
mod stepping;
mod terms;
mod totals;
mod trails;
mod unjudged;
mod unseen;
mod waiting;
mod wanted_queries;
mod wanting;

pub use announced::{Announced, announced_variables, announced_variables_in};
pub use asked::Asked;
pub use basis::Basis;
pub use check_terms::{Additions, CheckFlags, CheckTerms};
pub use checked_capture::{check, check_in};
pub use checked_family::CheckedFamily;
pub use entry::{Entry, Need, SVerdict, SeenVerdict, Unpaired};
pub use finding::{Difference, ExtraReason, Finding};
pub use headers::{HeaderFault, Headers};
pub use others::{Four, Others};
pub use phase::Phase;
pub use querier_address::QuerierAddress;
pub use repeated::{LastDifferences, LastOfKind, Values};
pub use schedules::Repeats;
pub use standing::Standing;
pub use terms::{QuerierTerms, Terms};
pub use totals::{FindingCounts, KindCounts, Totals};
pub use unjudged::Unjudged;
pub use unseen::is_unseen_in;
pub use waiting::Side;

//! One link: the multicast router side of one attached network, for IGMP (RFC 3376) or MLD (RFC 3810).
//!
//! The definitions, and the names of results:
//! - The result of a datagram: `Received`, with a `DropReason` or the counts of its records. Each record was applied,
//!   ignored, or refused by a `Refusal`.
//! - A configuration: its `Limits`, its `ConfigFault`, and the `ConfigureFault` of a running link.
//! - The counted messages: `MessageKind`.
//!
//! The code:
//! - The family: `Family`, which `Igmp` and `Mld` implement, each with its envelope.
//! - A configuration without a fault: `Config`, with the `Ranges` of groups that hosts may ask for.
//! - The reasons to drop a datagram: `dropping`.
//! - The receiver of the queries that a link sends: `QueryOutlet`. `Datagrams` is one, with an `Outlet` of their bytes.
//! - The counters: `Counts`.
//! - The whole link: `Link`, or `BareLink` with a `Workspace` that many links may use.
//! - The held groups of a link: `HeldEntries`, `HeldGroup`, with the types of their parts.
//! - A run of a link over any events: `run`.
#![tactic(auto)]

pub mod answers;
pub mod bare_link;
mod block_in_place;
mod changed;
pub mod config;
pub mod configuration;
mod configuring;
pub mod counts;
mod datagram;
pub mod dropping;
pub mod events;
pub mod family;
pub mod igmp;
mod in_place;
mod limits;
pub mod link;
pub mod mld;
pub mod outlet;
mod query_heard;
pub mod ranges;
mod record_counts;
mod report;
mod router;
mod sender;
mod statement;
mod status;
mod storage;
mod tick;
pub mod workspace;

pub use answers::{DropReason, MessageKind, Received, Refusal};
pub use bare_link::{BareLink, TooSmall};
pub use config::Config;
pub use configuration::{ConfigFault, ConfigureFault, Defaults, LimitName, Limits};
pub use counts::Counts;
pub use events::{Event, run};
pub use family::Family;
pub use igmp::{Igmp, IgmpEnvelope};
pub use link::Link;
pub use mld::{Mld, MldEnvelope};
pub use mq_held::{HeldEntries, HeldGroup};
pub use mq_table::{FilterMode, Source, SourceTimer};
pub use outlet::{Datagrams, Outlet, QueryOutlet};
pub use ranges::{GroupRange, MOST_RANGES, Ranges};
pub use workspace::Workspace;

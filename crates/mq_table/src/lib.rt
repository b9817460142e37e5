//! The state of one multicast group in a router. Records, messages of older hosts, expired timers and queries change it
//! (RFC 3376 sections 6 and 7, RFC 3810 sections 7 and 8).
#![tactic(auto)]

pub mod changes;
mod expiry;
pub mod group;
pub mod heads;
pub mod kind;
mod lowering;
mod merged_records;
mod merged_runs;
pub mod older_hosts;
mod recording;
pub mod retransmission_places;
mod retransmissions;
mod rules;
pub mod sources;
pub mod timers;
pub mod timing;

pub use changes::{Change, Loaded};
pub use group::Group;
pub use heads::Head;
pub use kind::{Kind, NamedEffect};
pub use mq_count::OlderVersion;
pub use older_hosts::{Hosts, translate};
pub use retransmission_places::{
    RetransmissionPlaces, any_has_retransmissions, places_of_retransmissions,
};
pub use sources::{Source, timer_among};
pub use timers::{FilterMode, SourceTimer, runs_on};
pub use timing::Timing;

//! The moments at which a router sends queries.
//!
//! - The groups that are due: `Deadlines`, an index of the held groups' earliest deadlines by number.
//! - The specific queries that are still to go for one group (RFC 3376 section 6.6.3, RFC 3810 section 7.6.3).
//! - General queries, and the election of the querier (RFC 3376 section 6.6.2, RFC 3810 section 7.6.2).
#![tactic(auto)]

pub mod announced;
mod deadline_tree;
pub mod deadlines;
mod due_leaves;
pub mod election;
mod leaf_numbers;
mod node_pairs;
mod portions;
pub mod queries;
mod repair;
pub mod roles;
pub mod schedules;
pub mod sending;
pub mod sinks;

pub use announced::Announced;
pub use deadlines::Deadlines;
pub use election::Election;
pub use queries::QuerySchedule;
pub use roles::OtherQuerier;
pub use schedules::Schedule;
pub use sending::send_waiting;
pub use sinks::{QueryParts, Sink};

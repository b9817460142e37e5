//! The links for C, as `include/mquerier.h` declares them.
//!
//! - The functions that C calls: `igmp` and `mld`. Each calls one of the functions below.
//! - The calls, for both families: `making`, `configuring`, `calls`, `bounds`; and the archive's `version`.
//! - The results that are written to memory of the caller: `queries`, `pages`, `changed`, `counting`, `other_querier`,
//!   `line_room` and `lines`.
//! - The data that cross: `forms`, `ranges`, `statuses`, `milliseconds`. The differences of the families there: `c_family`.
//! - The pointers that C holds, with its places for new ones: `igmp_objects`, `mld_objects` and `lending`.
#![tactic(auto)]

mod bounds;
mod c_family;
mod calls;
mod changed;
mod configuring;
mod counting;
mod forms;
mod igmp;
mod igmp_objects;
mod lending;
mod line_room;
mod lines;
mod making;
mod milliseconds;
mod mld;
mod mld_objects;
mod other_querier;
mod pages;
mod queries;
mod ranges;
mod statuses;
mod version;

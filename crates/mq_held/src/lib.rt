//! The storage of the groups that a link holds.
//!
//! ```text
//! let mut held = HeldGroups::with_room(alloc, 500, 4000)?;
//! match held.find(address, &mut m) {
//!     Ok(number) => held.put(number, &group, schedule, &mut m, &mut moves),
//!     Err(spot) => {
//!         held.insert(spot, address, &group, schedule, &mut m, &mut moves);
//!     }
//! }
//! held.due(now, &mut numbers, &mut spare, &mut m, &mut moves);
//! ```
//!
//! - `HeldGroups`: the finite map from address to group with its schedule, and its queries.
//! - Changes of one group: `group_edits`. Changes of a row where it is stored: `timers_in_place`,
//!   `several_in_place` and `queries_in_place`.
//! - The removal of vacant groups: `vacant_groups`. The groups that are due: `due_groups`.
//! - `HeldGroup`: one group, as it is stored. `HeldEntries`: all, one after the other.
#![tactic(auto)]

mod due_groups;
pub mod earliest;
mod group_edits;
pub mod held_entries;
pub mod held_group;
pub mod held_groups;
mod queries_in_place;
mod scheduled_head;
mod several_in_place;
pub mod timers_in_place;
mod vacant_groups;

pub use earliest::count_schedules;
pub use held_entries::HeldEntries;
pub use held_group::HeldGroup;
pub use held_groups::HeldGroups;
pub use timers_in_place::SourceRoom;

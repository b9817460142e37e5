//! Ascending sets of sources, the search in an ascending slice, and the merge of two slices. A meter of the caller
//! counts each comparison.
//!
//! ```text
//! let mut m = Meter::new();
//! let mut wanted = SourceSet::empty(alloc);
//! wanted.insert(Addr4::from_octets([10, 0, 0, 2]), 366, &mut m)?;
//! let mut merge = merge(held.as_slice(), wanted.as_slice());
//! while let Some(item) = merge.next(&mut m) {
//!     match item {
//!         Merged::Left(held) => ..           // only held
//!         Merged::Both(held, wanted) => ..   // held and wanted
//!         Merged::Right(wanted) => ..        // only wanted
//!     }
//! }
//! ```
//!
//! - A set: `SourceSet`, with its `InsertFault`. `with_room` allocates for all members at once, or fails with `Memory`.
//! - Rows of cells by number, in memory that is reserved once: `Pool`.
//! - An ordered set of keys, each with a number for its life: `NumberedKeys`, with its `Spot`.
//! - Ascending slices of items that carry a key: `Keyed`, `find`, and `merge` with `Merge::next`, which returns
//!   `Merged`.
//! - Laws for the crates above, without effect at run time: `numbers_find_items`, `sets_are_known_by_their_members`,
//!   `binary_digits_bound_a_number`, `rules_act_at_each_key`, `moves_are_paid`.
#![tactic(auto)]

mod extents;
mod firsts;
mod inserting;
pub mod items;
pub mod memory;
pub mod merge_state;
pub mod merging;
pub mod numbered_keys;
mod packing;
mod pages;
pub mod pools;
pub mod searching;
mod slots;
pub mod source_sets;
pub mod spots;

pub use items::{Keyed, numbers_find_items};
pub use memory::Memory;
pub use merge_state::{Merge, Merged};
pub use merging::{merge, rules_act_at_each_key};
pub use numbered_keys::NumberedKeys;
pub use pools::{Pool, moves_are_paid};
pub use searching::{binary_digits_bound_a_number, find};
pub use source_sets::{InsertFault, SourceSet, sets_are_known_by_their_members};
pub use spots::Spot;

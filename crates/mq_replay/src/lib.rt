//! The printed text of captures: their listings, and their replays on a link.
//!
//! - The listing of a capture: `show`.
//! - Its replay on a link: `replay`, with a request `Asked`.
#![tactic(auto)]

mod asked;
mod change_lines;
mod change_pieces;
mod ending;
mod group_line;
mod hexadecimal;
mod listing;
mod one_packet;
mod packet_text;
mod query_outlet;
mod replay_lines;
mod replay_objects;
mod replay_pieces;
mod replaying;
mod running_replay;
mod sent_object;
mod sent_queries;
mod state_object;

pub use asked::Asked;
pub use listing::show;
pub use replaying::replay;

//! Conversion of captures to one classic capture of Ethernet in nanoseconds.
//!
//! ```text
//! let mut input = Watched::new(reader);
//! let mut output = Watched::new(writer);
//! let choice = Choice { interface: None, vlan: None, once: false };  // all packets
//! convert(alloc, choice, &Ready, &mut input, &mut output)            // Ok: the counts
//! ```
//!
//! - `convert` converts a file. `Choice` chooses its packets, and `ConvertFault` says why a conversion ended early.
//! - `find_networks` finds the networks of a file's messages, so that one can be chosen.
//! - A file is one block after another. `Context` is the context of a block, and `BlockFault` a fault of one.
#![tactic(auto)]

mod blocks;
mod choice;
mod comparing;
mod context;
mod converting;
mod counts;
mod dropped;
mod fault;
mod filling;
mod frames;
mod interfaces;
mod kept;
mod moments;
mod needed;
mod network;
mod networks;
mod next_block;
mod packet;
mod packets;
mod passing;
mod pieces;
mod records;
mod seeing;
mod sieve;
mod sizes;
mod tags;
mod unread;
mod waiting;

pub use choice::{Choice, Which, name_of};
pub use context::{Context, Interface, Kind, MOST_INTERFACES, MOST_SEEN};
pub use converting::{convert, convert_in};
pub use counts::ConvertCounts;
pub use fault::{BlockFault, ConvertFault};
pub use needed::{FIRST_BYTES, is_converted};
pub use network::{Messages, Network};
pub use networks::{MOST_NETWORKS, find_networks};
pub use unread::{LinkCount, MOST_LINKS, Unread};

//! Captures: the packets of a classic pcap file, and the message that a frame carries.
#![tactic(auto)]

pub mod fault;
mod filling;
pub mod form;
pub mod frame;
mod ip_options;
pub mod link_type;
mod options;
pub mod reader;
pub mod reader_state;
mod record;
mod supply;

pub use fault::PcapFault;
pub use form::{Endian, Form, Fraction};
pub use frame::{Inner, unwrap_frame};
pub use ip_options::has_router_alert_v4;
pub use link_type::LinkType;
pub use reader_state::{NextRead, Packet, PcapReader, Progress};
pub use record::GREATEST_PACKET;
pub use supply::{Ready, Supply};

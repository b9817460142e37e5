//! The messages of IGMP (RFC 3376) and MLD (RFC 3810), without the IP header.
//!
//! ```text
//! match read_igmp(bytes) {
//!     Ok(Message::Query(query)) => ..                // a router asks: query.group, query.response
//!     Ok(Message::OldReport(version, group)) => ..   // a host of an older version wants the group
//!     Ok(Message::Leave(group)) => ..                // a host of an older version wants it no longer
//!     Ok(Message::Report(records)) => {
//!         for record in records { .. }               // record.kind, record.group, record.sources
//!     }
//!     Err(WireFault::Truncated { at }) => ..         // the field that begins at `at` is cut
//!     Err(fault) => ..                               // a wrong checksum, an unknown type
//! }
//! ```
//!
//! - To parse: `read_igmp`, and `read_mld` with the packet's addresses. They return a `Message` or a `WireFault`, and allocate
//!   nothing; `Sources` and `Records` stay in the bytes.
//! - To write a query of IGMPv3 or MLDv2: `write_igmp` and `write_mld`, at the front of the caller's bytes. If these are too few,
//!   `Small` has the needed length, and the bytes do not change.
//! - Codes of times: `resp8`, `code8`, `resp16` and `code16`.
//! - Checksums: `checksum_ok` and `checksum_of`.
//! - Addresses: `WireKey`.
#![tactic(auto)]

pub mod checksum;
pub mod codes;
mod family;
mod fields;
pub mod igmp;
pub mod message;
pub mod mld;
pub mod query;
mod reading;
pub mod records;
pub mod sources;
pub mod wire_key;
pub mod writing;

pub use checksum::{checksum_of, checksum_ok};
pub use codes::{code8, code16, resp8, resp16};
pub use igmp::{read_igmp, write_igmp};
pub use message::{Message, WireFault};
pub use mld::{read_mld, write_mld};
pub use mq_count::OlderVersion;
pub use query::{Qrv, QuerierFields, Query, QueryVersion};
pub use records::{RecordView, Records};
pub use sources::Sources;
pub use wire_key::WireKey;
pub use writing::Small;

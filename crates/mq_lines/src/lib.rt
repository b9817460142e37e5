//! Lines of messages and of their faults, as text or as objects of JSON.
//!
//! ```text
//! let mut output = Watched::new(writer);
//! igmp_line(false, body, &mut output)                      // Ok(true): the line of a message; Ok(false): that of a fault
//! mld_line(false, source, destination, body, &mut output)  // the same of MLD, whose checksum covers the addresses
//! igmp_line(true, body, &mut output)                       // the same as an object of JSON
//! ```
//!
//! - Whole lines, to an output: `igmp_line`, `mld_line`.
//! - Texts of messages through a buffer, which other texts use too: `put_igmp`, `put_mld`, `put_message`; `put_end` ends
//!   any text.
//! - The address in a text: `LineKey`; `put_address` appends one, `put_address_object` one in quotation marks. In any
//!   object: `put_truth`, and `put_comma` before an item of a list. In both forms: `either`, `put_either`.
#![tactic(auto)]

mod line_key;
mod lines;
mod object_pieces;
mod pieces;

pub use line_key::LineKey;
pub use lines::{igmp_line, mld_line, put_end, put_igmp, put_message, put_mld};
pub use object_pieces::{
    either, put_address, put_address_object, put_comma, put_either, put_truth,
};

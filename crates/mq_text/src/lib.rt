//! Addresses of both families as text, and texts on their way to a writer.
//!
//! ```text
//! let mut text = Text::new();
//! put_v4(&mut text, Addr4::from_octets([239, 1, 2, 3]));    // b"239.1.2.3"
//! put_v6(&mut text, address);                               // and behind it b"ff0e::1234"
//! ```
//!
//! - To append to a `Text`, without allocation: `put_v4`, `put_v6`, `put_decimal` and `put`.
//! - To parse: `read_v4` and `read_v6`.
//! - To print on an `Output`, for example a watched writer: `print`, and `LineFault` for a failed write; `make_room` and `flush`,
//!   for text that goes through a buffer.
#![tactic(auto)]

mod address_v4;
mod address_v6;
mod buffer;
mod output;
mod printing;
mod reading;
mod text;

pub use address_v4::put_v4;
pub use address_v6::put_v6;
pub use buffer::{flush, make_room};
pub use output::Output;
pub use printing::{LineFault, print};
pub use reading::{read_v4, read_v6};
pub use text::{Text, put, put_decimal};

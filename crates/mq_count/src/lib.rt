//! Addresses, times, the meter of their comparisons, and watched streams.
//!
//! ```text
//! let mut m = Meter::new();
//! let (low, high) = (Addr4::from_octets([10, 0, 0, 1]), Addr4::from_octets([10, 0, 0, 2]));
//! low.order(high, &mut m)                          // Less
//! let now = Moment::from_ms(1000)?;
//! let due = now.after(Span::from_ms(260000));      // 261000
//! m.reached(due, now)                              // false
//! m.spent()                                        // 2
//! ```
//!
//! - Addresses: `Addr4`, `Addr6`, and `Key`, by which generic code compares them.
//! - Time: `Moment` and `Span`, in milliseconds, and `Timed` for what has a moment.
//! - The meter: `Meter`. Its contracts say `Spends low high old new`, and the functions of
//!   `metering` that do nothing state the laws of that word.
//! - Moves: `Moves`, which counts the items that storage moves.
//! - Streams: `Watched`.
//! - Text: `write_decimal`.
//! - Words that the messages and the group tables share: `OlderVersion`.
#![tactic(auto)]

pub mod address_v4;
pub mod address_v6;
pub mod decimal;
pub mod keys;
pub mod metering;
pub mod moments;
pub mod moving;
pub mod streams;
pub mod timed;
pub mod versions;

pub use address_v4::Addr4;
pub use address_v6::Addr6;
pub use decimal::write_decimal;
pub use keys::Key;
pub use metering::Meter;
pub use moments::{Moment, Span};
pub use moving::Moves;
pub use streams::Watched;
pub use timed::Timed;
pub use versions::OlderVersion;

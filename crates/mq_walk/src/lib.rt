//! Walks over captures: each packet at its moment, and the ticks between packets.
//!
//! - A walk over a capture: `walk`, with a `Step` for each packet. A walk that a gap ends: `UpToGap`, with a `GaplessStep`. Its end: `Walked`.
//! - The packets of a capture: `NumberedPacket`. Their moments: `Stamp` and `first_moment`.
//! - The ticks between packets: `tick_before`, with a `TickStep` for each tick.
//! - The families whose datagrams captures carry: `CapturedFamily`, `CapturedDatagram`.
//! - The reason why work on a capture ended early: `CaptureFault`. For work that writes: `write_before_wait` after a packet, and
//!   `finish` at the end.
#![tactic(auto)]

mod capture_fault;
mod captured_family;
mod finishing;
mod moments;
mod numbered_packet;
mod stamp;
mod stamps;
mod ticks;
mod waiting;
mod walked;
mod walking;

pub use capture_fault::CaptureFault;
pub use captured_family::{CapturedDatagram, CapturedFamily};
pub use finishing::finish;
pub use numbered_packet::NumberedPacket;
pub use stamp::Stamp;
pub use stamps::first_moment;
pub use ticks::{TickStep, tick_before};
pub use waiting::write_before_wait;
pub use walked::Walked;
pub use walking::{GaplessStep, Step, UpToGap, walk};

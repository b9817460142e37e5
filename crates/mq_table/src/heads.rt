//! A group without its sources.

use crate::timers::FilterMode;
use mq_count::Moment;

/// A group without its sources: its mode, and the moments until which hosts of version 1 or 2 are assumed to be there.
#[derive(Clone, Copy)]
pub struct Head {
    pub mode: FilterMode,
    pub v1: Option<Moment>,
    pub v2: Option<Moment>,
}

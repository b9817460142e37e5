//! A held group without its address and its sources.

use mq_sched::Schedule;
use mq_table::Head;

/// A held group without its address and its sources: its head and its schedule.
#[derive(Clone, Copy)]
pub(crate) struct ScheduledHead {
    pub(crate) head: Head,
    pub(crate) schedule: Schedule,
}

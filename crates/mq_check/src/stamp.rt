//! Moments of packets.

pub(crate) use mq_walk::Stamp;

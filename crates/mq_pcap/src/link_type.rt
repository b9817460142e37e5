//! Link types of captures.

/// The link type of a capture.
#[derive(Clone, Copy)]
pub enum LinkType {
    /// Ethernet: each frame begins with an Ethernet header (link type 1).
    Ethernet,
    /// Raw IP: each frame is an IPv4 or IPv6 packet (link type 101).
    RawIp,
}

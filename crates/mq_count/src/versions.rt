//! Versions of older hosts.

/// The version of an older host's messages.
#[derive(Clone, Copy, PartialEq, Eq)]
pub enum OlderVersion {
    /// IGMPv1 (RFC 1112) or MLDv1 (RFC 2710).
    V1,
    /// IGMPv2 (RFC 2236).
    V2,
}

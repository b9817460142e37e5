//! Addresses and packets of each family in a line.

use mq_count::{Addr4, Addr6};
use mq_link::{Family, Igmp, IgmpEnvelope, Mld, MldEnvelope};
use mq_text::{read_v4, read_v6};
use std::str::SplitWhitespace;

/// A family whose addresses and packets are written in lines.
pub trait Written: Family {
    /// Reads an address.
    fn address(text: &str) -> Option<Self::Address>;

    /// Reads the facts of a packet from the next words.
    fn envelope(words: &mut SplitWhitespace<'_>) -> Option<Self::Envelope>;
}

impl Written for Igmp {
    fn address(text: &str) -> Option<Addr4> {
        read_v4(text)
    }

    fn envelope(words: &mut SplitWhitespace<'_>) -> Option<IgmpEnvelope> {
        Some(IgmpEnvelope {
            source: read_v4(words.next()?)?,
        })
    }
}

impl Written for Mld {
    fn address(text: &str) -> Option<Addr6> {
        read_v6(text)
    }

    fn envelope(words: &mut SplitWhitespace<'_>) -> Option<MldEnvelope> {
        Some(MldEnvelope {
            source: read_v6(words.next()?)?,
            destination: read_v6(words.next()?)?,
            hop_limit: words.next()?.parse::<u8>().ok()?,
            alert: words.next()? == "alert",
        })
    }
}

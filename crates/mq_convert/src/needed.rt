//! Files that have to be converted before they are checked.

ghost use Rattle.std.specs.Prelude.{◌≡◌, ◌≤◌, length};
ghost use Rattle.mq_convert.specs.Needed as spec;
ghost use Rattle.mq_convert.specs.Sizes.{form_in as form_of};

use crate::choice::Choice;
use crate::sizes::{SECTION, form_in};
use mq_pcap::Endian;

/// The number of a file's first bytes that decide whether it is converted.
pub const FIRST_BYTES: usize = 24;

impl Choice {
    /// Returns whether all packets are written.
    pub fn is_all(self) -> bool
        ensures { result ≡ spec.is_all self }
    {
        self.interface.is_none() && self.vlan.is_none() && !self.once
    }
}

/// Returns whether a file with these first bytes has to be converted: a pcapng file, or a classic capture of another link
/// type than Ethernet and raw IP.
#[tactic(auto, unfolding(crate::specs::Needed::is_converted))]
pub fn is_converted(head: &[u8]) -> bool
    ensures { result ≡ spec.is_converted head.now }
{
    if head.len() >= 4 && Endian::Big.double_word(head, 0) == SECTION {
        return true;
    }
    head.len() >= FIRST_BYTES && is_of_other_link(head)
}

/// Returns whether these first bytes are the header of a classic capture of another link type than Ethernet and raw IP.
fn is_of_other_link(head: &[u8]) -> bool
    requires { 24 ≤ length head.now }
    ensures { result ≡ spec.is_of_other_link (form_of head.now) head.now }
{
    let Some((order, _)) = form_in(head) else {
        return false;
    };
    let link = order.double_word(head, 20) % 65_536;
    order.word(head, 4) == 2 && order.word(head, 6) == 4 && link != 1 && link != 101
}

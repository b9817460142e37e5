//! The request of the page for a conversion.

ghost use Rattle.std.specs.Prelude.{◌≡◌};
ghost use Rattle.mq_page.specs.Asked.{choice_asked, interface_asked, vlan_asked};

use mq_convert::{Choice, Which};

/// The request of the page for a conversion.
#[repr(C)]
#[derive(Clone, Copy)]
pub struct Chosen {
    /// The number of the interface, if `interface` is 1.
    pub number: u64,
    /// The network in the outermost tag; 2^64 - 1 stands for any packet.
    pub vlan: u64,
    /// The kind of the request for an interface: 0 for all of them, 1 for one by its number, any other for one by its name.
    pub interface: u32,
    /// The flag to leave out packets that come again; 0 says no.
    pub once: u32,
    /// The name of the interface, padded with zeros.
    pub name: [u8; 16],
}

impl Chosen {
    /// Returns the requested interface, if any.
    fn interface(&self) -> Option<Which>
        ensures { result ≡ interface_asked self.now }
    {
        match self.interface {
            0 => None,
            1 => Some(Which::Number(self.number)),
            _ => Some(Which::Name(u128::from_be_bytes(self.name))),
        }
    }

    /// Returns the requested network, if any.
    fn network(&self) -> Option<u64>
        ensures { result ≡ vlan_asked self.now }
    {
        if self.vlan == u64::MAX {
            return None;
        }
        Some(self.vlan)
    }

    /// Returns the choice of packets.
    pub(crate) fn choice(&self) -> Choice
        ensures { result ≡ choice_asked self.now }
    {
        Choice {
            interface: self.interface(),
            vlan: self.network(),
            once: self.once != 0,
        }
    }
}

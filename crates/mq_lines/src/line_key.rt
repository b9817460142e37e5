//! Addresses in lines.

ghost use Rattle.std.specs.Prelude.{◌≡◌, ◌≤◌, ◌+◌, ◌++◌, length};
ghost use Rattle.arrayvec.specs.ArrayVec.{array_vec_len};
ghost use Rattle.mq_wire.specs.Family.{Family, Igmp, Mld};
ghost use Rattle.mq_lines.specs.Objects.{protocol_text};
ghost use Rattle.mq_lines.specs.Text.{address_text};
ghost use Rattle.mq_lines.specs.Text as spec;

use mq_count::{Addr4, Addr6};
use mq_text::{Text, put_v4, put_v6};
use mq_wire::{OlderVersion, WireKey};

/// An address in a line, and the properties of its family in lines.
pub trait LineKey: WireKey {
    ghost family: { Family };

    /// Appends the address to a text.
    fn put(self, text: &mut Text)
        requires { array_vec_len text.old + 40 ≤ 4096 }
        ensures text { text.new.items ≡ text.old.items ++ address_text family (Self.number self) }
        ensures room { array_vec_len text.new ≤ array_vec_len text.old + 40 };

    /// Returns the family's own version: 3 for IGMP, 2 for MLD.
    fn current_version() -> u8
        ensures { result ≡ spec.current_version family };

    /// Returns the name of the protocol.
    fn protocol() -> &'static [u8]
        ensures name { result.now ≡ protocol_text family }
        ensures short { length result.now ≤ 4 };

    /// Returns whether a query of an older version has a response.
    fn has_response(version: OlderVersion) -> bool
        ensures { result ≡ spec.has_response family version };
}

impl LineKey for Addr4 {
    ghost family = { Igmp };

    fn put(self, text: &mut Text) {
        put_v4(text, self)
    }

    fn current_version() -> u8 {
        3
    }

    fn protocol() -> &'static [u8] {
        b"igmp"
    }

    fn has_response(version: OlderVersion) -> bool {
        match version {
            OlderVersion::V1 => false,
            OlderVersion::V2 => true,
        }
    }
}

impl LineKey for Addr6 {
    ghost family = { Mld };

    fn put(self, text: &mut Text) {
        put_v6(text, self)
    }

    fn current_version() -> u8 {
        2
    }

    fn protocol() -> &'static [u8] {
        b"mld"
    }

    fn has_response(_version: OlderVersion) -> bool {
        true
    }
}

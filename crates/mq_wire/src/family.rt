//! The differences between messages of IGMP and MLD.

ghost use Rattle.std.specs.Prelude.{◌≡◌, ◌≤◌, ℕ, length};
ghost use Rattle.mq_wire.specs.Family.{Family, address_width, group_place};
ghost use Rattle.mq_wire.specs.Family as family;
ghost use Rattle.mq_wire.specs.Fields.{EndsAt};
ghost use Rattle.mq_wire.specs.Queries.{older_spans};
ghost use Rattle.mq_wire.specs.Queries as spec;
ghost use Rattle.mq_wire.specs.Spelling.{type_named};

use crate::message::{MessageType, WireFault};
use crate::wire_key::WireKey;
use mq_count::OlderVersion;

/// The family of messages whose addresses have this type.
pub(crate) trait FamilyKey: WireKey {
    ghost FAMILY: { Family };

    ghost GROUP: { ℕ };

    /// The place of the group in a query or a message of an older version.
    const GROUP: usize;

    ghost GROUP_END: { ℕ };

    /// The end of the group, and of a query of an older version.
    const GROUP_END: usize;

    /// Returns the message type of a code, if it is listed.
    fn type_of(code: u8) -> Option<MessageType>
        ensures { result ≡ type_named FAMILY code };

    /// Returns the end of the fields of an older message, or the place of the first truncated field.
    fn older_end(bytes: &[u8]) -> Result<usize, WireFault>
        ensures { EndsAt (length bytes.now) 0 (older_spans FAMILY) result };

    /// Returns the version of a query that ends with its group.
    fn older_version(bytes: &[u8]) -> OlderVersion
        requires { family.group_end FAMILY ≤ length bytes.now }
        ensures { result ≡ spec.older_version FAMILY bytes.now };

    /// Returns the response of a query that ends with its group, in milliseconds.
    fn older_response(bytes: &[u8]) -> u32
        requires { family.group_end FAMILY ≤ length bytes.now }
        ensures { result ≡ spec.older_response FAMILY bytes.now };

    /// Returns the response of a query of IGMPv3 or MLDv2, in milliseconds.
    fn current_response(bytes: &[u8]) -> u32
        requires { family.group_end FAMILY ≤ length bytes.now }
        ensures { result ≡ spec.current_response FAMILY bytes.now };

    // An address has the family's width, and the group stands at the family's place.
    ghost widths: { Self.WIDTH ≡ address_width FAMILY };

    ghost begins: { GROUP ≡ group_place FAMILY };

    ghost ends: { GROUP_END ≡ family.group_end FAMILY };
}

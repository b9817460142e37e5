//! Calls that only read, and that no other crate makes: each once.

use mq_count::{Addr4, Meter};
use mq_table::Group;
use mq_wire::{checksum_of, checksum_ok};

#[test]
fn checksums(rt: HostRuntime) {
    assert!(rt; checksum_of(b"\x16\x00\x00\x00\xef\x04\x04\x01") == 0xf6f9);
    assert!(rt; checksum_ok(b"\x16\x00\xf6\xf9\xef\x04\x04\x01"));
}

#[test]
fn a_vacant_group_forwards_nothing(rt: HostRuntime) {
    let vacant: Group<Addr4> = Group::vacant(rt.alloc());
    assert!(rt; !vacant.forwards(Addr4::from_octets([10, 0, 0, 1]), &mut Meter::new()));
}

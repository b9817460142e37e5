//! Addresses in messages.

ghost use Rattle.std.specs.Prelude.{◌≡◌, ◌<◌, ◌≤◌, ◌++◌, ℕ, length, drop};
ghost use Rattle.std.proofs.Common.{lit<, lit≤};
ghost use Rattle.byteorder.specs.Endian.{big_number, big_bytes};

use mq_count::{Addr4, Addr6, Key};

/// An address in a message, most significant byte first.
pub trait WireKey: Key {
    ghost WIDTH: { ℕ };

    /// The bytes of an address.
    const WIDTH: usize;

    ghost PER_QUERY: { ℕ };

    /// The sources of a query at most, in packets of at most 1500 bytes. RFC 3376 section 4.1.8, RFC 3810 section
    /// 5.1.10.
    const PER_QUERY: usize;

    /// Returns the address in the first bytes.
    fn read(bytes: &[u8]) -> Self
        requires { WIDTH ≤ length bytes.now }
        ensures { Self.number result ≡ big_number WIDTH bytes.now };

    /// Writes the address into the first bytes. The others do not change.
    fn write(self, out: &mut [u8])
        requires { WIDTH ≤ length out.old }
        ensures { out.new ≡ big_bytes WIDTH (Self.number self) ++ drop WIDTH out.old };

    // An address has some bytes, and few.
    ghost has_bytes: { 0 < WIDTH };

    ghost few_bytes: { WIDTH ≤ 16 };

    // A query has room for at least one source, and for at most 366.
    ghost some_sources: { 0 < PER_QUERY };

    ghost few_sources: { PER_QUERY ≤ 366 };
}

impl WireKey for Addr4 {
    ghost WIDTH = { 4 };

    const WIDTH: usize = 4;

    ghost PER_QUERY = { 366 };

    ghost has_bytes = { lit< tt };

    ghost few_bytes = { lit≤ tt };

    ghost some_sources = { lit< tt };

    ghost few_sources = { lit≤ tt };

    const PER_QUERY: usize = 366;

    fn read(bytes: &[u8]) -> Addr4 {
        Addr4::from_octets([bytes[0], bytes[1], bytes[2], bytes[3]])
    }

    fn write(self, out: &mut [u8]) {
        out[..4].copy_from_slice(&self.octets());
    }
}

impl WireKey for Addr6 {
    ghost WIDTH = { 16 };

    const WIDTH: usize = 16;

    ghost PER_QUERY = { 89 };

    ghost has_bytes = { lit< tt };

    ghost few_bytes = { lit≤ tt };

    ghost some_sources = { lit< tt };

    ghost few_sources = { lit≤ tt };

    const PER_QUERY: usize = 89;

    fn read(bytes: &[u8]) -> Addr6 {
        let mut octets = [0; 16];
        octets.copy_from_slice(&bytes[..16]);
        Addr6::from_octets(octets)
    }

    fn write(self, out: &mut [u8]) {
        out[..16].copy_from_slice(&self.octets());
    }
}

//! IPv4 addresses as text.

ghost use Rattle.std.specs.Prelude.{◌≡◌, ◌≤◌, ◌+◌, ◌++◌};
ghost use Rattle.std.specs.Fmt.{decimal};
ghost use Rattle.arrayvec.specs.ArrayVec.{array_vec_len};
ghost use Rattle.mq_text.specs.AddressV4.{v4_text};

use crate::text::{Text, put, put_few_digits};
use mq_count::Addr4;

/// Appends an IPv4 address: four decimal numbers with dots between them.
#[inline(never)]
pub fn put_v4(text: &mut Text, address: Addr4)
    requires { array_vec_len text.old + 15 ≤ 4096 }
    ensures text { text.new.items ≡ text.old.items ++ v4_text address }
    ensures room { array_vec_len text.new ≤ array_vec_len text.old + 15 }
{
    let [a, b, c, d] = address.octets();
    put_octet(text, a);
    put(text, b".");
    put_octet(text, b);
    put(text, b".");
    put_octet(text, c);
    put(text, b".");
    put_octet(text, d);
}

/// Appends an octet in decimal.
#[inline(always)]
fn put_octet(text: &mut Text, octet: u8)
    requires { array_vec_len text.old + 3 ≤ 4096 }
    ensures text { text.new.items ≡ text.old.items ++ decimal octet }
    ensures room { array_vec_len text.new ≤ array_vec_len text.old + 3 }
{
    put_few_digits(text, u32::from(octet));
}

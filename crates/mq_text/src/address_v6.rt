//! IPv6 addresses as text.

ghost use Rattle.std.specs.Prelude.{◌≡◌, ℕ, ◌≤◌, ◌<◌, ◌+◌, ◌*◌, ◌++◌, false, drop, length};
ghost use Rattle.std.specs.Fmt.{digit_glyph};
ghost use Rattle.arrayvec.specs.ArrayVec.{array_vec_len};
ghost use Rattle.mq_text.specs.AddressV6.{groups_of, hexadecimal, with_colons, shortened, v6_text};
ghost use Rattle.mq_text.specs.AddressV6 as words;

use crate::text::{Text, put};
use mq_count::Addr6;

/// The digits of hexadecimal numbers.
const GLYPHS: [u8; 16] = *b"0123456789abcdef";

/// Consecutive groups of an address: the place of the first, and their number.
#[derive(Clone, Copy)]
struct ZeroGroups {
    place: usize,
    count: usize,
}

/// Appends an IPv6 address in canonical form. These are groups of 16 bits in lower-case hexadecimal with colons between
/// them. `::` replaces the longest run of two or more zero groups, the first if several are equally long.
#[tactic(auto, unfolding(crate::specs::AddressV6::shortened))]
pub fn put_v6(text: &mut Text, address: Addr6)
    requires { array_vec_len text.old + 40 ≤ 4096 }
    ensures text { text.new.items ≡ text.old.items ++ v6_text address }
    ensures room { array_vec_len text.new ≤ array_vec_len text.old + 40 }
{
    let groups = groups(address);
    let run = longest_zeros(&groups);
    if run.count < 2 {
        put_groups(text, &groups);
        return;
    }
    put_groups(text, &groups[..run.place]);
    put(text, b"::");
    put_groups(text, &groups[run.place + run.count..]);
}

/// Returns the eight groups of an address.
fn groups(address: Addr6) -> [u16; 8]
    ensures { result ≡ groups_of address }
{
    let [a, b, c, d, e, f, g, h, i, j, k, l, m, n, o, p] = address.octets();
    [
        group(a, b),
        group(c, d),
        group(e, f),
        group(g, h),
        group(i, j),
        group(k, l),
        group(m, n),
        group(o, p),
    ]
}

/// Returns the group of two octets.
fn group(high: u8, low: u8) -> u16
    ensures { result ≡ high * 256 + low }
{
    u16::from(high) * 256 + u16::from(low)
}

/// Returns the longest run of zero groups, the first if several are equally long. Usually this is the first run,
/// because fewer groups follow it than it has.
fn longest_zeros(groups: &[u16; 8]) -> ZeroGroups
    ensures run { result ≡ words.longest_zeros groups.now }
    ensures within { result.place + result.count ≤ 8 }
{
    let place = first_zero(groups);
    let count = zeros_ahead(&groups[place..]);
    if count > 0 && place + 2 * count >= 8 {
        return ZeroGroups { place, count };
    }
    longest_of_several(groups)
}

/// Returns the place of the first zero group, or the length.
fn first_zero(groups: &[u16; 8]) -> usize
    ensures others { (place : ℕ) → place < result → words.zeros_ahead (drop place groups.now) ≡ 0 }
    ensures within { result ≤ 8 }
{
    let mut place = 0;
    while place < 8 && groups[place] != 0 {
        place += 1;
    }
    place
}

/// Returns the number of zero groups at the front.
fn zeros_ahead(groups: &[u16]) -> usize
    ensures zeros { result ≡ words.zeros_ahead groups.now }
    ensures within { result ≤ length groups.now }
{
    let mut count = 0;
    while count < groups.len() && groups[count] == 0 {
        count += 1;
    }
    count
}

/// Returns the same run as `longest_zeros`. It looks at each group, from the last to the first.
fn longest_of_several(groups: &[u16; 8]) -> ZeroGroups
    ensures run { result ≡ words.longest_zeros groups.now }
    ensures within { result.place + result.count ≤ 8 }
{
    let mut run = ZeroGroups { place: 8, count: 0 };
    let mut zeros = 0;
    let mut place = 8;
    while place > 0 {
        place -= 1;
        zeros = if groups[place] == 0 { zeros + 1 } else { 0 };
        if run.count <= zeros {
            run = ZeroGroups {
                place,
                count: zeros,
            };
        }
    }
    run
}

/// Appends groups with colons between them.
fn put_groups(text: &mut Text, groups: &[u16])
    requires { array_vec_len text.old + 5 * length groups.now ≤ 4096 }
    ensures text { text.new.items ≡ text.old.items ++ with_colons groups.now }
    ensures room { array_vec_len text.new ≤ array_vec_len text.old + 5 * length groups.now }
{
    let [group, others @ ..] = groups else {
        return;
    };
    put_hexadecimal(text, *group);
    if !others.is_empty() {
        put(text, b":");
        put_groups(text, others);
    }
}

/// Appends a number in lower-case hexadecimal.
fn put_hexadecimal(text: &mut Text, number: u16)
    requires { array_vec_len text.old + 4 ≤ 4096 }
    ensures text { text.new.items ≡ text.old.items ++ hexadecimal number }
    ensures room { array_vec_len text.new ≤ array_vec_len text.old + 4 }
{
    match number {
        0..16 => put(text, &[digit(number)]),
        16..256 => put(text, &[digit(number / 16), digit(number % 16)]),
        256..4096 => put(
            text,
            &[
                digit(number / 256),
                digit(number / 16 % 16),
                digit(number % 16),
            ],
        ),
        _ => put(
            text,
            &[
                digit(number / 4096),
                digit(number / 256 % 16),
                digit(number / 16 % 16),
                digit(number % 16),
            ],
        ),
    }
}

/// Returns the digit of a number below 16.
fn digit(number: u16) -> u8
    requires { number < 16 }
    ensures { result ≡ digit_glyph false number }
{
    GLYPHS[usize::from(number)]
}

//! A text buffer, and appending to it.

ghost use Rattle.std.specs.Prelude.{◌≡◌, ◌≤◌, ◌<◌, ◌+◌, ◌/◌, ◌%◌, ◌∷◌, ◌++◌, [], length};
ghost use Rattle.std.specs.Fmt.{decimal};
ghost use Rattle.arrayvec.specs.ArrayVec.{array_vec_len};
ghost use Rattle.mq_text.specs.Digits.{four_digits_of};

use std::marker::Model;

/// The bytes of a text at most.
const ROOM: usize = 4096;

/// The two digits of each number below 100, in order.
const PAIRS: [u8; 200] =
    *b"00010203040506070809101112131415161718192021222324252627282930313233343536373839404142434445464748495051525354555657585960616263646566676869707172737475767778798081828384858687888990919293949596979899";

/// A text whose bytes lie in the value itself, without allocation. A contract sees it as an `ArrayVec` of its bytes.
/// Emptying it costs nothing.
#[derive(Drop)]
pub struct Text {
    bytes: [u8; ROOM],
    length: usize,
}

impl Model for Text {
    ghost use Rattle.std.specs.Prelude.{ℕ, ◌≤◌, take};
    ghost use Rattle.arrayvec.specs.ArrayVec.{ArrayVec};

    ghost Value = { ArrayVec ℕ };

    ghost view = { λ t. record { items = take t.length t.bytes } };

    ghost invariant = { λ t. t.length ≤ 4096 };
}

impl Text {
    /// Returns an empty text.
    pub fn new() -> Text
        ensures { result.items ≡ [] }
    {
        Text {
            bytes: [0; ROOM],
            length: 0,
        }
    }

    /// Returns how many more bytes fit.
    pub fn remaining_capacity(&self) -> usize
        ensures { result + array_vec_len self.now ≡ 4096 }
    {
        ROOM - self.length
    }

    /// Returns the bytes.
    pub fn as_slice(&self) -> &[u8]
        ensures { result.now ≡ self.now.items }
    {
        &self.bytes[..self.length]
    }

    /// Empties the text.
    pub fn clear(&mut self)
        ensures { self.new.items ≡ [] }
    {
        self.length = 0;
    }
}

/// Appends a text.
pub fn put(text: &mut Text, more: &[u8])
    requires { array_vec_len text.old + length more.now ≤ 4096 }
    ensures text { text.new.items ≡ text.old.items ++ more.now }
    ensures room { array_vec_len text.new ≡ array_vec_len text.old + length more.now }
{
    let end = text.length + more.len();
    text.bytes[text.length..end].copy_from_slice(more);
    text.length = end;
}

/// Appends a number in decimal.
#[inline(never)]
pub fn put_decimal(text: &mut Text, number: u64)
    requires { array_vec_len text.old + 20 ≤ 4096 }
    ensures text { text.new.items ≡ text.old.items ++ decimal number }
    ensures room { array_vec_len text.new ≤ array_vec_len text.old + 20 }
{
    if number < 100_000_000 {
        put_some_digits(text, number as u32);
        return;
    }
    put_digits(text, number);
}

/// Appends the digits of a number, the last four after the others.
#[inline(never)]
fn put_digits(text: &mut Text, number: u64)
    requires { array_vec_len text.old + length (decimal number) ≤ 4096 }
    ensures text { text.new.items ≡ text.old.items ++ decimal number }
    ensures room { array_vec_len text.new ≡ array_vec_len text.old + length (decimal number) }
{
    if number < 100_000_000 {
        put_some_digits(text, number as u32);
        return;
    }
    put_digits(text, number / 10_000);
    put(text, &four_digits((number % 10_000) as u32));
}

/// Appends the digits of a number below 100000000.
#[inline(always)]
fn put_some_digits(text: &mut Text, number: u32)
    requires some { number < 100000000 }
    requires room { array_vec_len text.old + length (decimal number) ≤ 4096 }
    ensures text { text.new.items ≡ text.old.items ++ decimal number }
    ensures room { array_vec_len text.new ≡ array_vec_len text.old + length (decimal number) }
{
    if number < 10_000 {
        put_few_digits(text, number);
        return;
    }
    put_few_digits(text, number / 10_000);
    put(text, &four_digits(number % 10_000));
}

/// Appends the digits of a number below 10000.
#[inline(always)]
pub(crate) fn put_few_digits(text: &mut Text, number: u32)
    requires few { number < 10000 }
    requires room { array_vec_len text.old + length (decimal number) ≤ 4096 }
    ensures text { text.new.items ≡ text.old.items ++ decimal number }
    ensures room { array_vec_len text.new ≡ array_vec_len text.old + length (decimal number) }
{
    match number {
        0..10 => put(text, &[digit(number)]),
        10..100 => put(text, &pair(number)),
        100..1000 => {
            let [high, low] = pair(number % 100);
            put(text, &[digit(number / 100), high, low]);
        }
        _ => put(text, &four_digits(number)),
    }
}

/// Returns the digits of a number below 10000, with leading zeros up to four.
fn four_digits(number: u32) -> [u8; 4]
    requires { number < 10000 }
    ensures { result ≡ four_digits_of number }
{
    let [a, b] = pair(number / 100);
    let [c, d] = pair(number % 100);
    [a, b, c, d]
}

/// Returns the digits of a number below 100, with a leading zero if it has one digit.
fn pair(number: u32) -> [u8; 2]
    requires { number < 100 }
    ensures { result ≡ (48 + number / 10) ∷ (48 + number % 10) ∷ [] }
{
    let place = 2 * number as usize;
    [PAIRS[place], PAIRS[place + 1]]
}

/// Returns the digit of a number below 10.
fn digit(number: u32) -> u8
    requires { number < 10 }
    ensures { result ≡ 48 + number }
{
    b'0' + number as u8
}

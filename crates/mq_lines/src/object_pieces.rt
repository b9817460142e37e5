//! Addresses in texts, and parts of any text or object of JSON.

ghost use Rattle.std.specs.Prelude.{◌≡◌, ◌≤◌, ◌+◌, ◌++◌, length, max};
ghost use Rattle.std.specs.List.{All};
ghost use Rattle.arrayvec.specs.ArrayVec.{array_vec_len};
ghost use Rattle.mq_lines.specs.Messages as spec;
ghost use Rattle.mq_lines.specs.Objects.{IsPlain, address_object, comma_before, truth_object};
ghost use Rattle.mq_lines.specs.Text.{address_text};

use crate::line_key::LineKey;
use mq_text::{Text, put};

/// Appends the first text in an object, otherwise the second.
#[inline(always)]
pub fn put_either(json: bool, buffer: &mut Text, object: &[u8], words: &[u8])
    requires { array_vec_len buffer.old + max (length object.now) (length words.now) ≤ 4096 }
    ensures text { buffer.new.items ≡ buffer.old.items ++ spec.either json object.now words.now }
    ensures room { array_vec_len buffer.new ≤ array_vec_len buffer.old + max (length object.now) (length words.now) }
{
    put(buffer, either(json, object, words));
}

/// Returns the first text for an object, otherwise the second.
#[inline(always)]
pub fn either<'a>(json: bool, object: &'a [u8], words: &'a [u8]) -> &'a [u8]
    ensures text { result.now ≡ spec.either json object.now words.now }
    ensures short { length result.now ≤ max (length object.now) (length words.now) }
{
    if json { object } else { words }
}

/// Appends the comma before an item of a list, unless the item is the first.
pub fn put_comma(buffer: &mut Text, is_first: bool)
    requires { array_vec_len buffer.old + 1 ≤ 4096 }
    ensures text { buffer.new.items ≡ buffer.old.items ++ comma_before is_first }
    ensures room { array_vec_len buffer.new ≤ array_vec_len buffer.old + 1 }
{
    if !is_first {
        put(buffer, b",");
    }
}

/// Appends a truth value.
pub fn put_truth(buffer: &mut Text, is_true: bool)
    requires { array_vec_len buffer.old + 5 ≤ 4096 }
    ensures text { buffer.new.items ≡ buffer.old.items ++ truth_object is_true }
    ensures room { array_vec_len buffer.new ≤ array_vec_len buffer.old + 5 }
{
    put(buffer, if is_true { b"true" } else { b"false" });
}

/// Appends an address in quotation marks. No byte of it needs an escape.
pub fn put_address_object<K: LineKey>(buffer: &mut Text, address: K)
    requires { array_vec_len buffer.old + 42 ≤ 4096 }
    ensures text { buffer.new.items ≡ buffer.old.items ++ address_object K.family (K.number address) }
    ensures plain { All IsPlain (address_text K.family (K.number address)) }
    ensures room { array_vec_len buffer.new ≤ array_vec_len buffer.old + 42 }
{
    put(buffer, b"\"");
    put_address(buffer, address);
    put(buffer, b"\"");
}

/// Appends an address.
pub fn put_address<K: LineKey>(buffer: &mut Text, address: K)
    requires { array_vec_len buffer.old + 40 ≤ 4096 }
    ensures text { buffer.new.items ≡ buffer.old.items ++ address_text K.family (K.number address) }
    ensures room { array_vec_len buffer.new ≤ array_vec_len buffer.old + 40 }
{
    address.put(buffer);
}

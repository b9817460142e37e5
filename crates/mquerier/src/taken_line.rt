//! The line of a check for the variables that come from the capture.

ghost use Rattle.std.specs.Prelude.{◌≡◌, ◌≤◌, ◌+◌, ◌++◌, false, length, true};
ghost use Rattle.arrayvec.specs.ArrayVec.{array_vec_len};
ghost use Rattle.mq_check.specs.Numbered.{number_if, numbered_announced, numbered_four, numbered_others};
ghost use Rattle.mquerier.specs.Taking as spec;

use mq_check::{Announced, Four, Others};
use mq_command::Settings;
use mq_lines::{LineKey, put_address, put_address_object, put_comma, put_truth};
use mq_text::{Text, put, put_decimal};

/// Returns whether the Robustness Variable is above 7, as a QRV says, and none is given.
pub(crate) fn is_above_7(given: Option<u32>, qrv: Option<u32>) -> bool
    ensures { result ≡ spec.is_above_7 given qrv }
{
    matches!((given, qrv), (None, Some(0)))
}

/// Returns the line, or the object of JSON, for the querier and the variables that come from the capture.
pub(crate) fn taken_line_of<K: LineKey>(
    json: bool,
    settings: &Settings,
    found: &Announced<K>,
) -> Text
    ensures { result.items ≡ spec.taken_line json K.family settings.now (numbered_announced K.number found.now) }
{
    if json {
        return object_of(settings, found);
    }
    text_of(settings, found)
}

/// Returns the line.
fn text_of<K: LineKey>(settings: &Settings, found: &Announced<K>) -> Text
    ensures { result.items ≡ spec.taken_line false K.family settings.now (numbered_announced K.number found.now) }
{
    let mut line = Text::new();
    put(&mut line, b"taken from the capture: querier ");
    put_address(&mut line, found.querier);
    put_robustness(&mut line, settings.robustness, found.robustness);
    put_taken(
        &mut line,
        b" qi ",
        settings.query_seconds,
        found.query_seconds,
    );
    put_taken(
        &mut line,
        b" qri ",
        settings.response_interval,
        found.response_interval,
    );
    put_taken(
        &mut line,
        b" lmqi ",
        settings.last_member_interval,
        found.last_member_interval,
    );
    put_beside(&mut line, &found.beside);
    put_unjudged(&mut line, is_above_7(settings.robustness, found.robustness));
    put(&mut line, b"\n");
    line
}

/// Returns the object.
fn object_of<K: LineKey>(settings: &Settings, found: &Announced<K>) -> Text
    ensures { result.items ≡ spec.taken_line true K.family settings.now (numbered_announced K.number found.now) }
{
    let mut line = Text::new();
    put(&mut line, b"{\"taken\":{\"querier\":");
    put_address_object(&mut line, found.querier);
    put(&mut line, b",\"rv\":");
    put_value(&mut line, settings.robustness, found.robustness);
    put(&mut line, b",\"qi\":");
    put_value(&mut line, settings.query_seconds, found.query_seconds);
    put(&mut line, b",\"qri\":");
    put_value(
        &mut line,
        settings.response_interval,
        found.response_interval,
    );
    put(&mut line, b",\"lmqi\":");
    put_value(
        &mut line,
        settings.last_member_interval,
        found.last_member_interval,
    );
    put(&mut line, b",\"beside\":");
    put_beside_value(&mut line, &found.beside);
    put(&mut line, b"}}\n");
    line
}

/// Appends the list of the other routers that send general queries, and whether there are more, to the object.
fn put_beside_value<K: LineKey>(line: &mut Text, others: &Others<K>)
    requires room { array_vec_len line.old ≤ 3000 }
    ensures text { line.new.items ≡ line.old.items ++ spec.beside_value K.family (numbered_others K.number others.now) }
    ensures room { array_vec_len line.new ≤ array_vec_len line.old + 500 }
{
    put(line, b"[");
    put_others(line, true, others);
    put(line, b"],\"more\":");
    put_truth(line, others.has_more);
}

/// Appends the value of a variable that comes from the capture and isn't given to the object.
fn put_value(line: &mut Text, given: Option<u32>, found: Option<u32>)
    requires room { array_vec_len line.old ≤ 3000 }
    ensures text { line.new.items ≡ line.old.items ++ spec.taken_value given found }
    ensures room { array_vec_len line.new ≤ array_vec_len line.old + 30 }
{
    match (given, found) {
        (None, Some(value)) => put_decimal(line, u64::from(value)),
        _ => put(line, b"null"),
    }
}

/// Appends the other routers that send general queries, if there are some.
fn put_beside<K: LineKey>(line: &mut Text, others: &Others<K>)
    requires room { array_vec_len line.old ≤ 3000 }
    ensures text { line.new.items ≡ line.old.items ++ spec.beside_text K.family (numbered_others K.number others.now) }
    ensures room { array_vec_len line.new ≤ array_vec_len line.old + 500 }
{
    put_others(line, false, others);
    if others.has_more {
        put(line, b" and more");
    }
}

/// Appends addresses, as items of a list of JSON or in words.
fn put_others<K: LineKey>(line: &mut Text, json: bool, others: &Others<K>)
    requires room { array_vec_len line.old ≤ 3100 }
    ensures text { line.new.items ≡ line.old.items ++ spec.others_text json K.family (numbered_others K.number others.now) }
    ensures room { array_vec_len line.new ≤ array_vec_len line.old + 400 }
{
    put_four(line, json, true, &others.low);
    put_four(line, json, false, &others.high);
}

/// Appends up to four addresses.
fn put_four<K: LineKey>(line: &mut Text, json: bool, is_first: bool, four: &Four<K>)
    requires room { array_vec_len line.old ≤ 3300 }
    ensures text { line.new.items ≡ line.old.items ++ spec.four_text json K.family is_first (numbered_four K.number four.now) }
    ensures room { array_vec_len line.new ≤ array_vec_len line.old + 200 }
{
    put_one(line, json, is_first, four.first);
    put_one(line, json, false, four.second);
    put_one(line, json, false, four.third);
    put_one(line, json, false, four.fourth);
}

/// Appends an address as an item, if there is one.
fn put_one<K: LineKey>(line: &mut Text, json: bool, is_first: bool, address: Option<K>)
    requires room { array_vec_len line.old ≤ 3500 }
    ensures text { line.new.items ≡ line.old.items ++ spec.item_text json K.family is_first (number_if K.number address) }
    ensures room { array_vec_len line.new ≤ array_vec_len line.old + 50 }
{
    let Some(address) = address else {
        return;
    };
    if json {
        put_comma(line, is_first);
        put_address_object(line, address);
    } else {
        put(line, if is_first { b", beside " } else { b", " });
        put_address(line, address);
    }
}

/// Appends the Robustness Variable if it isn't given, or that it is above 7.
fn put_robustness(line: &mut Text, given: Option<u32>, qrv: Option<u32>)
    requires room { array_vec_len line.old ≤ 3000 }
    ensures text { line.new.items ≡ line.old.items ++ spec.robustness_text given qrv }
    ensures room { array_vec_len line.new ≤ array_vec_len line.old + 30 }
{
    if is_above_7(given, qrv) {
        put(line, b" rv above 7");
    } else {
        put_taken(line, b" rv ", given, qrv);
    }
}

/// Appends that what depends on the Robustness Variable isn't judged, if it is above 7.
fn put_unjudged(line: &mut Text, above_7: bool)
    requires room { array_vec_len line.old ≤ 3600 }
    ensures text { line.new.items ≡ line.old.items ++ spec.unjudged_text above_7 }
    ensures room { array_vec_len line.new ≤ array_vec_len line.old + 40 }
{
    if above_7 {
        put(line, b"; what depends on rv is not judged");
    }
}

/// Appends the name and the value of a variable that comes from the capture and isn't given.
fn put_taken(line: &mut Text, name: &[u8], given: Option<u32>, found: Option<u32>)
    requires room { array_vec_len line.old ≤ 3000 }
    requires short { length name.now ≤ 10 }
    ensures text { line.new.items ≡ line.old.items ++ spec.taken_text name.now given found }
    ensures room { array_vec_len line.new ≤ array_vec_len line.old + 30 }
{
    if given.is_some() {
        return;
    }
    if let Some(value) = found {
        put(line, name);
        put_decimal(line, u64::from(value));
    }
}

//! The object on standard error after a conversion.

ghost use Rattle.std.specs.Prelude.{◌≡◌, ◌≤◌, ◌+◌, ◌++◌, true, length};
ghost use Rattle.arrayvec.specs.ArrayVec.{array_vec_len};
ghost use Rattle.mq_lines.specs.Objects.{items_from};
ghost use Rattle.mquerier.specs.Failures as spec;

use mq_convert::{ConvertCounts, LinkCount};
use mq_lines::put_comma;
use mq_text::{Text, put, put_decimal};

/// Returns the object.
pub(crate) fn counts_object_of(counts: &ConvertCounts) -> Text
    ensures { result.items ≡ spec.counts_object counts.now }
{
    let mut object = Text::new();
    put_counts_start(&mut object, counts);
    put_link_items(&mut object, counts.unread.links.as_slice());
    put(&mut object, b"]}}\n");
    object
}

/// Appends the numbers of repeated, dropped and unread packets.
fn put_counts_start(object: &mut Text, counts: &ConvertCounts)
    requires { array_vec_len object.old ≡ 0 }
    ensures text { object.new.items ≡ object.old.items ++ spec.counts_start counts.now }
    ensures room { array_vec_len object.new ≤ 300 }
{
    put_count(object, b"{\"converted\":{\"repeated\":", counts.repeated);
    put_count(object, b",\"dropped\":", counts.dropped);
    put_count(object, b",\"unread\":", counts.unread.count);
    put(object, b",\"links\":[");
}

/// Appends each link type that isn't read, with commas between them.
fn put_link_items(object: &mut Text, rows: &[LinkCount])
    requires start { array_vec_len object.old ≤ 300 }
    requires few { length rows.now ≤ 16 }
    ensures text { object.new.items ≡ object.old.items ++ items_from spec.link_item true rows.now }
    ensures room { array_vec_len object.new ≤ 2000 }
{
    let mut is_first = true;
    for row in rows {
        put_link_item(object, is_first, row);
        is_first = false;
    }
}

/// Appends a link type as an item of a list.
fn put_link_item(object: &mut Text, is_first: bool, row: &LinkCount)
    requires { array_vec_len object.old ≤ 2000 }
    ensures text { object.new.items ≡ object.old.items ++ spec.link_item is_first row.now }
    ensures room { array_vec_len object.new ≤ array_vec_len object.old + 70 }
{
    put_comma(object, is_first);
    put_count(object, b"{\"link\":", u64::from(row.link));
    put_count(object, b",\"packets\":", row.count);
    put(object, b"}");
}

/// Appends a number after the name of its field.
#[tactic(auto, unfolding(crate::specs::Failures::count_field))]
fn put_count(object: &mut Text, name: &[u8], count: u64)
    requires { array_vec_len object.old + 20 + length name.now ≤ 4096 }
    ensures text { object.new.items ≡ object.old.items ++ spec.count_field name.now count }
    ensures room { array_vec_len object.new ≤ array_vec_len object.old + 20 + length name.now }
{
    put(object, name);
    put_decimal(object, count);
}

//! The lines on standard error for packets whose link type isn't read.

ghost use Rattle.std.specs.Prelude.{◌≡◌, ◌≤◌, ◌+◌, ◌++◌, length};
ghost use Rattle.std.specs.List.{flat_map};
ghost use Rattle.arrayvec.specs.ArrayVec.{array_vec_len};
ghost use Rattle.mquerier.specs.Failures.{link_text, others as left_over, others_text, unread_line};

use mq_convert::{LinkCount, Unread};
use mq_text::{Text, put, put_decimal};

/// Appends the lines of packets whose link type isn't read.
pub(crate) fn put_unread(line: &mut Text, unread: &Unread)
    requires { array_vec_len line.old ≤ 160 }
    ensures { line.new.items ≡ line.old.items ++ unread_line unread.now }
{
    let rows = unread.links.as_slice();
    put(line, b"mquerier: ");
    put_decimal(line, unread.count);
    put(line, b" packets of link types that aren't read");
    put_links(line, rows);
    put_others(line, others(unread.count, rows));
    put(line, b"\n");
}

/// Appends a line for each link type.
fn put_links(line: &mut Text, rows: &[LinkCount])
    requires start { array_vec_len line.old ≤ 300 }
    requires few { length rows.now ≤ 16 }
    ensures text { line.new.items ≡ line.old.items ++ flat_map link_text rows.now }
    ensures room { array_vec_len line.new ≤ 2000 }
{
    for row in rows {
        put_link(line, *row);
    }
}

fn put_link(line: &mut Text, row: LinkCount)
    requires { array_vec_len line.old ≤ 2000 }
    ensures text { line.new.items ≡ line.old.items ++ link_text row }
    ensures room { array_vec_len line.new ≤ array_vec_len line.old + 60 }
{
    put(line, b"\n  ");
    put_decimal(line, row.count);
    put(line, b" of link type ");
    put_decimal(line, u64::from(row.link));
}

/// Returns the number of packets whose link type has no row.
fn others(count: u64, rows: &[LinkCount]) -> u64
    ensures { result ≡ left_over count rows.now }
{
    let mut left = count;
    for row in rows {
        left = left.saturating_sub(row.count);
    }
    left
}

/// Appends a line for the other packets, if there are any.
fn put_others(line: &mut Text, count: u64)
    requires { array_vec_len line.old ≤ 2000 }
    ensures text { line.new.items ≡ line.old.items ++ others_text count }
    ensures room { array_vec_len line.new ≤ 2100 }
{
    if count > 0 {
        put(line, b"\n  ");
        put_decimal(line, count);
        put(line, b" of others");
    }
}

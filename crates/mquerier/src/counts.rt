//! The lines on standard error after a conversion.

ghost use Rattle.std.specs.Prelude.{◌≡◌, ◌≤◌, ◌++◌};
ghost use Rattle.arrayvec.specs.ArrayVec.{array_vec_len};
ghost use Rattle.mquerier.specs.Failures.{counts_lines, dropped_line, repeated_line};

use crate::unread::put_unread;
use mq_convert::ConvertCounts;
use mq_text::{Text, put, put_decimal};

/// Returns the lines.
pub fn counts_lines_of(counts: &ConvertCounts) -> Text
    ensures { result.items ≡ counts_lines counts.now }
{
    let mut lines = Text::new();
    put_repeated(&mut lines, counts.repeated);
    put_dropped(&mut lines, counts.dropped);
    if counts.unread.count > 0 {
        put_unread(&mut lines, &counts.unread);
    }
    lines
}

/// Appends the line of repeated packets, if there are any.
fn put_repeated(line: &mut Text, count: u64)
    requires { array_vec_len line.old ≡ 0 }
    ensures text { line.new.items ≡ line.old.items ++ repeated_line count }
    ensures room { array_vec_len line.new ≤ 80 }
{
    if count > 0 {
        put(line, b"mquerier: ");
        put_decimal(line, count);
        put(line, b" packets that came again are left out\n");
    }
}

/// Appends the line of dropped packets, if the file records any.
fn put_dropped(line: &mut Text, count: u64)
    requires { array_vec_len line.old ≤ 80 }
    ensures text { line.new.items ≡ line.old.items ++ dropped_line count }
    ensures room { array_vec_len line.new ≤ 160 }
{
    if count > 0 {
        put(line, b"mquerier: the file records ");
        put_decimal(line, count);
        put(line, b" dropped packets\n");
    }
}

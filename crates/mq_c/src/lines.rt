//! The lines of messages, in memory of the caller.

ghost use Rattle.std.specs.Prelude.{◌≡◌, ◌-◌, [], is_ok, if◌then◌else◌, length};
ghost use Rattle.mq_wire.specs.Family.{Igmp, Mld};
ghost use Rattle.mq_wire.specs.PseudoHeader.{pseudo_header};
ghost use Rattle.mq_c.specs.LineRoom.{LineStands};

use crate::line_room::{Lent, LineRoom};
use mq_count::Addr6;
use mq_lines::{igmp_line, mld_line};
use mq_text::LineFault;

/// Writes the line or the object of an IGMP message, as far as there is room for it.
pub(crate) fn put_igmp_line<L: Lent>(json: bool, body: &[u8], line: &mut [u8]) -> usize
    requires lent { line.old ≡ L.before }
    ensures text { LineStands json Igmp [] body.now line.old line.new result }
{
    let mut room: LineRoom<'_, L> = LineRoom::new(line);
    let printed = igmp_line(json, body, &mut room);
    without_end(room.written(), printed)
}

/// Writes the line or the object of an MLD message, as far as there is room for it.
pub(crate) fn put_mld_line<L: Lent>(
    json: bool,
    source: Addr6,
    destination: Addr6,
    body: &[u8],
    line: &mut [u8],
) -> usize
    requires lent { line.old ≡ L.before }
    ensures text { LineStands json Mld (pseudo_header source destination (length body.now)) body.now line.old line.new result }
{
    let mut room: LineRoom<'_, L> = LineRoom::new(line);
    let printed = mld_line(json, source, destination, body, &mut room);
    without_end(room.written(), printed)
}

/// Returns the number of written bytes of the line, without its end. If all was printed, the last byte is the end.
fn without_end(written: usize, printed: Result<bool, LineFault>) -> usize
    ensures { result ≡ (if is_ok printed then written - 1 else written) }
{
    match printed {
        Ok(_) => written.saturating_sub(1),
        Err(_) => written,
    }
}

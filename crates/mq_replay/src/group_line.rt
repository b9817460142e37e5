//! The groups that a link holds, as lines or as objects of JSON.

ghost use Rattle.std.specs.Prelude.{◌≡◌, ◌||◌, is_err};
ghost use Rattle.std.specs.List.{flat_map};
ghost use Rattle.mq_count.specs.Streams.{inner_of, has_failed};
ghost use Rattle.mq_sets.specs.Ascending.{IsAscending};
ghost use Rattle.mq_table.specs.Stored.{number_in, timers_in};
ghost use Rattle.mq_text.specs.Printing.{Puts};
ghost use Rattle.mq_replay.specs.Events.{Holds, event_in};
ghost use Rattle.mq_replay.specs.ReplayLines.{group_line, timer_text};

use crate::replay_pieces::{put_group_start, put_older_hosts, put_timer};
use crate::state_object::put_state_object;
use mq_count::{Moment, Watched};
use mq_held::HeldGroup;
use mq_lines::LineKey;
use mq_table::Source;
use mq_text::{LineFault, Text, make_room};
use std::io::Write;

/// Puts a group: its filter mode, its sources, and the timers of older hosts.
pub(crate) fn put_group<K: LineKey, W: Write>(
    json: bool,
    moment: Moment,
    group: HeldGroup<'_, K>,
    buffer: &mut Text,
    writer: &mut Watched<W>,
) -> Result<(), LineFault>
    requires ascending { IsAscending (number_in K.number) group.sources.now }
    ensures text { Puts
        (W.contents (inner_of writer.old)) (W.contents (inner_of writer.new))
        buffer.old.items buffer.new.items (event_in json K.family moment (Holds (K.number group.entry.address)
        (record { mode = group.entry.mode; sources = timers_in K.number group.entry.sources.now; v1 = group.entry.v1; v2 = group.entry.v2 }))) result }
    ensures failed { has_failed writer.new ≡ has_failed writer.old || is_err result }
{
    if json {
        return put_state_object(moment, b"group", group, buffer, writer);
    }
    put_group_line(group, buffer, writer)
}

/// Puts the line of a group.
fn put_group_line<K: LineKey, W: Write>(
    group: HeldGroup<'_, K>,
    buffer: &mut Text,
    writer: &mut Watched<W>,
) -> Result<(), LineFault>
    requires ascending { IsAscending (number_in K.number) group.sources.now }
    ensures text { Puts
        (W.contents (inner_of writer.old)) (W.contents (inner_of writer.new))
        buffer.old.items buffer.new.items (group_line K.family (K.number group.entry.address)
        (record { mode = group.entry.mode; sources = timers_in K.number group.entry.sources.now; v1 = group.entry.v1; v2 = group.entry.v2 })) result }
    ensures failed { has_failed writer.new ≡ has_failed writer.old || is_err result }
{
    make_room(buffer, writer)?;
    put_group_start(buffer, group.address, group.mode);
    put_timers(group.sources, buffer, writer)?;
    make_room(buffer, writer)?;
    put_older_hosts(buffer, group.v1, group.v2);
    Ok(())
}

/// Puts each source with its timer after a space.
fn put_timers<K: LineKey, W: Write>(
    sources: &[Source<K>],
    buffer: &mut Text,
    writer: &mut Watched<W>,
) -> Result<(), LineFault>
    ensures text { Puts
        (W.contents (inner_of writer.old)) (W.contents (inner_of writer.new))
        buffer.old.items buffer.new.items (flat_map (λ x. timer_text K.family (K.number x.address) x.timer) sources.now) result }
    ensures failed { has_failed writer.new ≡ has_failed writer.old || is_err result }
{
    for source in sources {
        make_room(buffer, writer)?;
        put_timer(buffer, source);
    }
    Ok(())
}

//! The object of a group.

ghost use Rattle.std.specs.Prelude.{◌≡◌, ◌≤◌, ◌+◌, ◌++◌, ◌||◌, true, codes, is_err, length, map as list_map};
ghost use Rattle.arrayvec.specs.ArrayVec.{array_vec_len};
ghost use Rattle.mq_count.specs.Streams.{inner_of, has_failed};
ghost use Rattle.mq_sets.specs.Ascending.{IsAscending};
ghost use Rattle.mq_table.specs.Group.{vacant};
ghost use Rattle.mq_table.specs.Stored.{number_in, timers_in};
ghost use Rattle.mq_text.specs.Printing.{Puts};
ghost use Rattle.mq_lines.specs.Objects.{items_from};
ghost use Rattle.mq_replay.specs.ReplayObjects as spec;

use crate::replay_objects::put_event;
use crate::replay_pieces::put_moment;
use mq_count::{Moment, Watched};
use mq_held::HeldGroup;
use mq_lines::{LineKey, put_address_object, put_comma};
use mq_table::{FilterMode, Source, SourceTimer};
use mq_text::{LineFault, Text, make_room, put};
use std::io::Write;

/// Puts the object of an event of a group: its filter mode, its sources, and the timers of older hosts.
pub(crate) fn put_state_object<K: LineKey, W: Write>(
    moment: Moment,
    name: &[u8],
    group: HeldGroup<'_, K>,
    buffer: &mut Text,
    writer: &mut Watched<W>,
) -> Result<(), LineFault>
    requires short { length name.now ≤ 6 }
    requires ascending { IsAscending (number_in K.number) group.sources.now }
    ensures text { Puts
        (W.contents (inner_of writer.old)) (W.contents (inner_of writer.new))
        buffer.old.items buffer.new.items (spec.state_object K.family moment name.now (K.number group.entry.address)
        (record { mode = group.entry.mode; sources = timers_in K.number group.entry.sources.now; v1 = group.entry.v1; v2 = group.entry.v2 })) result }
    ensures failed { has_failed writer.new ≡ has_failed writer.old || is_err result }
{
    make_room(buffer, writer)?;
    put_state_start(buffer, moment, name, group.address, group.mode);
    put_timer_items(group.sources, buffer, writer)?;
    make_room(buffer, writer)?;
    put_state_end(buffer, group.v1, group.v2);
    Ok(())
}

/// Puts the object of a changed group that isn't held at the end.
pub(crate) fn put_vacant_object<K: LineKey>(buffer: &mut Text, moment: Moment, address: K)
    requires { array_vec_len buffer.old + 256 ≤ 4096 }
    ensures { buffer.new.items ≡ buffer.old.items
        ++ spec.state_object K.family moment (codes "change") (K.number address) vacant }
{
    put_state_start(buffer, moment, b"change", address, FilterMode::Include);
    put_state_end(buffer, None, None);
}

/// Puts the object of a group at the end, up to its sources.
fn put_state_start<K: LineKey>(
    buffer: &mut Text,
    moment: Moment,
    name: &[u8],
    address: K,
    mode: FilterMode,
)
    requires short { length name.now ≤ 6 }
    requires room { array_vec_len buffer.old + 170 ≤ 4096 }
    ensures text { buffer.new.items ≡ buffer.old.items ++ spec.state_start K.family moment name.now (K.number address) mode }
    ensures room { array_vec_len buffer.new ≤ array_vec_len buffer.old + 170 }
{
    put_event(buffer, moment, name);
    put(buffer, b",\"group\":");
    put_address_object(buffer, address);
    put_mode_fields(buffer, mode);
    put(buffer, b",\"sources\":[");
}

/// Puts the filter mode of a group at the end, and its deadline.
#[tactic(auto, unfolding(crate::specs::ReplayObjects::mode_fields))]
fn put_mode_fields(buffer: &mut Text, mode: FilterMode)
    requires { array_vec_len buffer.old + 50 ≤ 4096 }
    ensures text { buffer.new.items ≡ buffer.old.items ++ spec.mode_fields mode }
    ensures room { array_vec_len buffer.new ≤ array_vec_len buffer.old + 50 }
{
    match mode {
        FilterMode::Include => put(buffer, b",\"filter\":\"include\",\"timer\":null"),
        FilterMode::Exclude(deadline) => {
            put(buffer, b",\"filter\":\"exclude\",\"timer\":");
            put_moment(buffer, deadline);
        }
    }
}

/// Puts each source with its timer, with commas between them.
fn put_timer_items<K: LineKey, W: Write>(
    sources: &[Source<K>],
    buffer: &mut Text,
    writer: &mut Watched<W>,
) -> Result<(), LineFault>
    ensures text { Puts
        (W.contents (inner_of writer.old)) (W.contents (inner_of writer.new))
        buffer.old.items buffer.new.items (items_from (spec.timer_item K.family) true (list_map (λ x. (K.number x.address, x.timer)) sources.now)) result }
    ensures failed { has_failed writer.new ≡ has_failed writer.old || is_err result }
{
    let mut is_first = true;
    for source in sources {
        make_room(buffer, writer)?;
        put_timer_item(buffer, is_first, source);
        is_first = false;
    }
    Ok(())
}

/// Puts a source at the end as an item of a list.
fn put_timer_item<K: LineKey>(buffer: &mut Text, is_first: bool, source: &Source<K>)
    requires { array_vec_len buffer.old + 100 ≤ 4096 }
    ensures { buffer.new.items ≡ buffer.old.items
        ++ spec.timer_item K.family is_first (K.number source.now.address, source.now.timer) }
{
    put_comma(buffer, is_first);
    put(buffer, b"{\"source\":");
    put_address_object(buffer, source.address);
    put(buffer, b",\"timer\":");
    put_timer_object(buffer, source.timer);
    put(buffer, b"}");
}

/// Puts the timer of a source at the end.
fn put_timer_object(buffer: &mut Text, timer: SourceTimer)
    requires { array_vec_len buffer.old + 20 ≤ 4096 }
    ensures text { buffer.new.items ≡ buffer.old.items ++ spec.timer_object timer }
    ensures room { array_vec_len buffer.new ≤ array_vec_len buffer.old + 20 }
{
    match timer {
        SourceTimer::Stopped => put(buffer, b"null"),
        SourceTimer::Running(deadline, _) => put_moment(buffer, deadline),
    }
}

/// Puts the timers of older hosts at the end, and the end of the object.
fn put_state_end(buffer: &mut Text, v1: Option<Moment>, v2: Option<Moment>)
    requires { array_vec_len buffer.old + 60 ≤ 4096 }
    ensures { buffer.new.items ≡ buffer.old.items ++ spec.state_end v1 v2 }
{
    put(buffer, b"],\"v1\":");
    put_deadline_object(buffer, v1);
    put(buffer, b",\"v2\":");
    put_deadline_object(buffer, v2);
    put(buffer, b"}\n");
}

/// Puts the deadline of a timer at the end, if it runs.
fn put_deadline_object(buffer: &mut Text, deadline: Option<Moment>)
    requires { array_vec_len buffer.old + 20 ≤ 4096 }
    ensures text { buffer.new.items ≡ buffer.old.items ++ spec.deadline_object deadline }
    ensures room { array_vec_len buffer.new ≤ array_vec_len buffer.old + 20 }
{
    match deadline {
        None => put(buffer, b"null"),
        Some(deadline) => put_moment(buffer, deadline),
    }
}

//! The groups that an event of a replay has changed, as lines or as objects of JSON.

ghost use Rattle.std.specs.Prelude.{◌≡◌, ◌||◌, is_err};
ghost use Rattle.std.specs.List.{flat_map};
ghost use Rattle.mq_count.specs.Streams.{inner_of, has_failed};
ghost use Rattle.mq_sets.specs.Ascending.{IsAscending};
ghost use Rattle.mq_table.specs.Group.{vacant};
ghost use Rattle.mq_table.specs.Stored.{number_in, timers_in};
ghost use Rattle.mq_held.specs.Groups.{group_at};
ghost use Rattle.mq_text.specs.Printing.{Puts};
ghost use Rattle.mq_replay.specs.ChangeLines.{change_line};
ghost use Rattle.mq_replay.specs.Events.{Changes, change_events, event_in, if_asked};
ghost use Rattle.mq_replay.specs.NamedSources.{named_by};

use crate::asked::Asked;
use crate::change_pieces::{put_change_start, put_named, put_none};
use crate::state_object::{put_state_object, put_vacant_object};
use mq_count::{Moment, Watched};
use mq_held::HeldGroup;
use mq_lines::{LineKey, put_end};
use mq_link::{Family, Link};
use mq_table::{FilterMode, Source};
use mq_text::{LineFault, Text, make_room};
use std::alloc::Allocator;
use std::io::Write;

/// Puts the groups that the last call of a link has changed, if they are requested.
pub(crate) fn put_changes<F: Family, A: Allocator, W: Write>(
    link: &Link<F, A>,
    moment: Moment,
    asked: Asked,
    buffer: &mut Text,
    writer: &mut Watched<W>,
) -> Result<(), LineFault>
where
    F::Address: LineKey,
    ensures text { Puts
        (W.contents (inner_of writer.old)) (W.contents (inner_of writer.new))
        buffer.old.items buffer.new.items
        (if_asked asked.changes (change_events asked.json F.Address.family moment link.now.state.groups link.now.changed)) result }
    ensures failed { has_failed writer.new ≡ has_failed writer.old || is_err result }
{
    if !asked.changes {
        return Ok(());
    }
    put_each(asked.json, link, moment, buffer, writer)
}

/// Puts each group that the last call has changed.
fn put_each<F: Family, A: Allocator, W: Write>(
    json: bool,
    link: &Link<F, A>,
    moment: Moment,
    buffer: &mut Text,
    writer: &mut Watched<W>,
) -> Result<(), LineFault>
where
    F::Address: LineKey,
    ensures text { Puts
        (W.contents (inner_of writer.old)) (W.contents (inner_of writer.new))
        buffer.old.items buffer.new.items
        (change_events json F.Address.family moment link.now.state.groups link.now.changed) result }
    ensures failed { has_failed writer.new ≡ has_failed writer.old || is_err result }
{
    for address in link.changed() {
        put_group(json, link, moment, *address, buffer, writer)?;
    }
    Ok(())
}

/// Puts a group. A group that isn't held forwards nothing.
fn put_group<F: Family, A: Allocator, W: Write>(
    json: bool,
    link: &Link<F, A>,
    moment: Moment,
    address: F::Address,
    buffer: &mut Text,
    writer: &mut Watched<W>,
) -> Result<(), LineFault>
where
    F::Address: LineKey,
    ensures text { Puts
        (W.contents (inner_of writer.old)) (W.contents (inner_of writer.new))
        buffer.old.items buffer.new.items
        (event_in json F.Address.family moment (Changes (F.Address.number address) (group_at link.now.state.groups (F.Address.number address)).group)) result }
    ensures failed { has_failed writer.new ≡ has_failed writer.old || is_err result }
{
    match link.find(address) {
        Some(group) => put_change(json, moment, group, buffer, writer),
        None => put_unheld(json, moment, address, buffer, writer),
    }
}

/// Puts a group that isn't held.
fn put_unheld<K: LineKey, W: Write>(
    json: bool,
    moment: Moment,
    address: K,
    buffer: &mut Text,
    writer: &mut Watched<W>,
) -> Result<(), LineFault>
    ensures text { Puts
        (W.contents (inner_of writer.old)) (W.contents (inner_of writer.new))
        buffer.old.items buffer.new.items (event_in json K.family moment (Changes (K.number address) vacant)) result }
    ensures failed { has_failed writer.new ≡ has_failed writer.old || is_err result }
{
    make_room(buffer, writer)?;
    if json {
        put_vacant_object(buffer, moment, address);
        return Ok(());
    }
    put_none(buffer, moment, address);
    Ok(())
}

/// Puts a group whose filter has changed.
fn put_change<K: LineKey, W: Write>(
    json: bool,
    moment: Moment,
    group: HeldGroup<'_, K>,
    buffer: &mut Text,
    writer: &mut Watched<W>,
) -> Result<(), LineFault>
    requires ascending { IsAscending (number_in K.number) group.sources.now }
    ensures text { Puts
        (W.contents (inner_of writer.old)) (W.contents (inner_of writer.new))
        buffer.old.items buffer.new.items (event_in json K.family moment (Changes (K.number group.entry.address)
        (record { mode = group.entry.mode; sources = timers_in K.number group.entry.sources.now; v1 = group.entry.v1; v2 = group.entry.v2 }))) result }
    ensures failed { has_failed writer.new ≡ has_failed writer.old || is_err result }
{
    if json {
        return put_state_object(moment, b"change", group, buffer, writer);
    }
    put_change_line(
        moment,
        group.address,
        &group.mode,
        group.sources,
        buffer,
        writer,
    )
}

/// Puts the line of a group of this mode, with these sources.
fn put_change_line<K: LineKey, W: Write>(
    moment: Moment,
    address: K,
    mode: &FilterMode,
    sources: &[Source<K>],
    buffer: &mut Text,
    writer: &mut Watched<W>,
) -> Result<(), LineFault>
    requires ascending { IsAscending (number_in K.number) sources.now }
    ensures text { Puts
        (W.contents (inner_of writer.old)) (W.contents (inner_of writer.new))
        buffer.old.items buffer.new.items
        (change_line K.family moment (K.number address) (record { mode = mode.now; sources = timers_in K.number sources.now; v1 = None; v2 = None })) result }
    ensures failed { has_failed writer.new ≡ has_failed writer.old || is_err result }
{
    make_room(buffer, writer)?;
    put_change_start(buffer, moment, address, mode, sources);
    put_all_named(mode, sources, buffer, writer)?;
    put_end(b"\n", buffer, writer)
}

/// Puts each source that the filter names.
fn put_all_named<K: LineKey, W: Write>(
    mode: &FilterMode,
    sources: &[Source<K>],
    buffer: &mut Text,
    writer: &mut Watched<W>,
) -> Result<(), LineFault>
    ensures text { Puts
        (W.contents (inner_of writer.old)) (W.contents (inner_of writer.new))
        buffer.old.items buffer.new.items
        (flat_map (λ x. named_by K.family mode.now (K.number x.address) x.timer) sources.now) result }
    ensures failed { has_failed writer.new ≡ has_failed writer.old || is_err result }
{
    for source in sources {
        make_room(buffer, writer)?;
        put_named(buffer, mode, source);
    }
    Ok(())
}

//! The pieces of the line of a group that was changed.

ghost use Rattle.std.specs.Prelude.{◌≡◌, ◌≤◌, ◌+◌, ◌++◌, codes};
ghost use Rattle.std.specs.List.{list_any};
ghost use Rattle.arrayvec.specs.ArrayVec.{array_vec_len};
ghost use Rattle.mq_table.specs.Filter.{names};
ghost use Rattle.mq_table.specs.Group.{is_include};
ghost use Rattle.mq_replay.specs.ChangeLines.{change_start};
ghost use Rattle.mq_replay.specs.NamedSources.{is_named, name_by, named_by};

use crate::replay_pieces::put_moment;
use mq_count::Moment;
use mq_lines::{LineKey, put_address};
use mq_table::{FilterMode, Source};
use mq_text::{Text, put};

/// Puts the start of the line at the end, up to the sources that the filter names.
pub(crate) fn put_change_start<K: LineKey>(
    buffer: &mut Text,
    moment: Moment,
    address: K,
    mode: &FilterMode,
    sources: &[Source<K>],
)
    requires { array_vec_len buffer.old + 80 ≤ 4096 }
    ensures { buffer.new.items ≡ buffer.old.items
        ++ (change_start K.family moment (K.number address) ++ name_by (is_include mode.now) (list_any (λ x. is_named mode.now x.timer) sources.now)) }
{
    put_moment(buffer, moment);
    put(buffer, b" change ");
    put_address(buffer, address);
    put_name(buffer, mode.is_include(), names_one(mode, sources));
}

/// Puts the line of a group that forwards nothing at the end.
pub(crate) fn put_none<K: LineKey>(buffer: &mut Text, moment: Moment, address: K)
    requires { array_vec_len buffer.old + 80 ≤ 4096 }
    ensures { buffer.new.items ≡ buffer.old.items ++ ((change_start K.family moment (K.number address) ++ codes " none") ++ codes "\n") }
{
    put_moment(buffer, moment);
    put(buffer, b" change ");
    put_address(buffer, address);
    put(buffer, b" none");
    put(buffer, b"\n");
}

/// Puts the kind of the filter at the end: one of three.
fn put_name(buffer: &mut Text, is_include: bool, some: bool)
    requires { array_vec_len buffer.old + 8 ≤ 4096 }
    ensures { buffer.new.items ≡ buffer.old.items ++ name_by is_include some }
{
    if !is_include {
        put(buffer, b" exclude");
    } else if some {
        put(buffer, b" include");
    } else {
        put(buffer, b" none");
    }
}

/// Returns whether the filter of a group in this mode, with these sources, names one.
fn names_one<K: LineKey>(mode: &FilterMode, sources: &[Source<K>]) -> bool
    ensures { result ≡ list_any (λ x. is_named mode.now x.timer) sources.now }
{
    sources.iter().any(|x| mode.names(&Some(x.timer)))
}

/// Puts a source at the end, if the filter of a group of this mode names it.
pub(crate) fn put_named<K: LineKey>(buffer: &mut Text, mode: &FilterMode, source: &Source<K>)
    requires { array_vec_len buffer.old + 42 ≤ 4096 }
    ensures { buffer.new.items ≡ buffer.old.items ++ named_by K.family mode.now (K.number source.now.address) source.now.timer }
{
    if !mode.names(&Some(source.timer)) {
        return;
    }
    if mode.is_include() {
        put(buffer, b" ");
    } else {
        put(buffer, b" !");
    }
    put_address(buffer, source.address);
}

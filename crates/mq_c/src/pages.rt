//! The groups of a link, page by page, and one by its address.

ghost use Rattle.std.specs.Prelude.{◌≡◌, ◌<◌, ◌≤◌, ◌^◌, ◌++◌, length, drop, map as list_map};
ghost use Rattle.mq_table.specs.Group.{group_deadline};
ghost use Rattle.mq_c.specs.Milliseconds.{deadline_or_none};
ghost use Rattle.mq_c.specs.Pages.{IsPage, ShowsGroup, group_form, source_form, stored_form};

use crate::c_family::CFamily;
use crate::forms::{Page, page_of};
use crate::milliseconds::deadline_or_none;
use mq_arena::Lodged;
use mq_held::HeldGroup;
use mq_link::BareLink;
use mq_table::Source;

/// Returns a group in the form of C.
fn group_of<F: CFamily>(group: &HeldGroup<'_, F::Address>) -> F::Group
    requires few { length group.now.sources.now < 2 ^ 32 }
    ensures { result ≡ F.group_with (F.Address.number group.now.address) (length group.now.sources.now) (deadline_or_none (group_deadline group.now.mode)) (deadline_or_none group.now.v1) (deadline_or_none group.now.v2) }
{
    F::group_in_c(
        group.address,
        group.sources.len() as u32,
        deadline_or_none(group.mode.deadline()),
        deadline_or_none(group.v1),
        deadline_or_none(group.v2),
    )
}

/// Returns a source in the form of C.
fn source_of<F: CFamily>(source: &Source<F::Address>) -> F::Source
    ensures { result ≡ stored_form F.Address.number F.source_with source.now }
{
    F::source_in_c(source.address, deadline_or_none(source.timer.deadline()))
}

/// Writes the sources to the front.
fn put_sources<F: CFamily>(from: &[Source<F::Address>], out: &mut [F::Source])
    requires room { length from.now ≤ length out.old }
    ensures { out.new ≡ list_map (stored_form F.Address.number F.source_with) from.now ++ drop (length from.now) out.old }
{
    for (i, source) in from.iter().enumerate() {
        out[i] = source_of::<F>(source);
    }
}

/// Writes the groups from a place on, as many as fit with all their sources.
pub(crate) fn put_groups<F: CFamily>(
    link: &BareLink<F, Lodged>,
    first: u32,
    groups: &mut [F::Group],
    sources: &mut [F::Source],
) -> Page
    ensures { IsPage (group_form F.group_with) (source_form F.source_with) link.now.state.groups first groups.old groups.new sources.old sources.new result }
{
    link.config().is_faultless();
    link.is_well_formed();
    let mut used = 0;
    for count in 0..groups.len() {
        let place = first as usize + count;
        if link.len() <= place {
            return page_of(count, used);
        }
        let entry = link.entry(place);
        if sources.len() - used < entry.sources.len() {
            return page_of(count, used);
        }
        put_sources::<F>(entry.sources, &mut sources[used..]);
        groups[count] = group_of::<F>(&entry);
        used += entry.sources.len();
    }
    page_of(groups.len(), used)
}

/// Writes a group, and its sources if there is room for all of them. If the group isn't held, it writes nothing.
pub(crate) fn put_group<F: CFamily>(
    link: &BareLink<F, Lodged>,
    group: F::Address,
    entry: &mut F::Group,
    sources: &mut [F::Source],
) -> Page
    ensures { ShowsGroup (group_form F.group_with) (source_form F.source_with) link.now.state.groups (F.Address.number group) entry.old entry.new sources.old sources.new result }
{
    link.config().is_faultless();
    link.is_well_formed();
    match link.find(group) {
        None => page_of(0, 0),
        Some(held) => {
            *entry = group_of::<F>(&held);
            if sources.len() < held.sources.len() {
                return page_of(1, 0);
            }
            put_sources::<F>(held.sources, sources);
            page_of(1, held.sources.len())
        }
    }
}

//! Links of MLD, as C calls them.

ghost use Rattle.std.specs.Prelude.{◌≡◌, ◌*◌, ◌<◌, ◌≤◌, ◌^◌, ℕ, IsTrue, MatchOption, true, false, length};
ghost use Rattle.std.specs.Int.{w128, from_be_bytes};
ghost use Rattle.std.specs.FinMap as map;
ghost use Rattle.mq_wire.specs.Family as family;
ghost use Rattle.mq_wire.specs.PseudoHeader.{pseudo_header};
ghost use Rattle.mq_sched.specs.Election.{is_querier, Other};
ghost use Rattle.mq_link.specs.CallCosts.{ReceiveCosts, TickCosts};
ghost use Rattle.mq_link.specs.Configuration.{IsFaultless};
ghost use Rattle.mq_link.specs.Defaults.{configured_by_default};
ghost use Rattle.mq_link.specs.Forwarding.{changed_by_datagram, changed_by_tick};
ghost use Rattle.mq_link.specs.State as state;
ghost use Rattle.mq_link.specs.Tick.{next_of};
ghost use Rattle.mq_link.specs.Workspace.{suffices};
ghost use Rattle.mq_c.specs.Calls.{CallsAt, ReceivesInto, TicksInto, is_done};
ghost use Rattle.mq_c.specs.Changed.{TellsChanged, WorksIn};
ghost use Rattle.mq_c.specs.Configuring.{IsReconfigured};
ghost use Rattle.mq_c.specs.Counted.{IsCounted};
ghost use Rattle.mq_c.specs.Mld.{asked, envelope, group_with, octets_with, source_with};
ghost use Rattle.mq_c.specs.LineRoom.{LineStands};
ghost use Rattle.mq_c.specs.Making.{IsLinkRefused, IsMade, IsWorkspaceMade, IsWorkspaceRefused};
ghost use Rattle.mq_c.specs.Milliseconds.{no_deadline};
ghost use Rattle.mq_c.specs.OtherQuerier.{with_other_querier};
ghost use Rattle.mq_c.specs.Pages.{IsPage, ShowsGroup, group_form, source_form};
ghost use Rattle.mq_c.specs.Rooms.{receive_room, tick_room};
ghost use Rattle.mq_c.specs.Rows.{mld_bytes, mld_workspace_bytes};
ghost use Rattle.mq_c.specs.Sizes.{IsTold, bytes_lent};
ghost use Rattle.mq_c.specs.Statuses as status;

use crate::changed::put_changed;
use crate::configuring::configure;
use crate::counting::{few, put_counters};
use crate::forms::{Answer, MldConfig, MldGroup, MldRange, MldSource, Page};
use crate::lines::put_mld_line;
use crate::making::{
    default_settings, link_in, link_size, with_object, workspace_in, workspace_size,
};
use crate::milliseconds::milliseconds;
use crate::mld_objects::{MldLink, MldLinkPlace, MldWorkspace, MldWorkspacePlace};
use crate::other_querier::other_querier;
use crate::pages::{put_group, put_groups};
use crate::ranges::ranges_of;
use crate::statuses::DONE;
use crate::{bounds, calls};
use mq_arena::{LentMemory, Lodged, Unused};
use mq_count::Addr6;
use mq_link::{BareLink, MOST_RANGES, Mld, MldEnvelope, Workspace};
use std::marker::Brand;

/// Returns the default configuration, with this own address.
#[unsafe(no_mangle)]
pub extern "C" fn mq_mld_defaults(own: &[u8; 16]) -> MldConfig
    ensures { asked result ≡ configured_by_default family.Mld (from_be_bytes w128 own.now) false }
{
    MldConfig {
        settings: default_settings::<Mld>(),
        own: *own,
        source_specific: 0,
        ranges: [MldRange {
            address: [0; 16],
            length: 0,
            rule: 0,
        }; MOST_RANGES],
    }
}

/// Returns the bytes of memory that suffice for a link, wherever the memory begins.
#[unsafe(no_mangle)]
pub extern "C" fn mq_mld_size(config: MldConfig) -> usize
    ensures { IsFaultless (asked config) → IsTold (bytes_lent (mld_bytes (asked config))) result }
{
    with_object::<BareLink<Mld, Lodged>>(link_size::<Mld>(
        config.settings,
        Addr6::from_octets(config.own),
        config.source_specific,
        ranges_of::<Mld>(&config.ranges),
    ))
}

/// Makes a link in memory of the caller, and writes its pointer to the place.
#[unsafe(no_mangle)]
pub extern "C" fn mq_mld_init_units(
    config: MldConfig,
    start: u64,
    memory: LentMemory,
    place: &mut MldLinkPlace,
) -> u32
    ensures made { result ≡ 0 → MatchOption place.new.kept ⊥ (IsMade (asked config) start) }
    ensures refused { 0 < result → IsLinkRefused (asked config) start result }
    ensures place { 0 < result → place.new ≡ place.old }
    ensures granted { result ≡ status.memory → 16 * memory.units < mld_bytes (asked config) }
{
    let mut unused = Unused::of(memory.into_units());
    match link_in::<Mld>(
        &mut unused,
        config.settings,
        Addr6::from_octets(config.own),
        config.source_specific,
        ranges_of::<Mld>(&config.ranges),
        start,
    ) {
        Ok(link) => {
            *place = MldLinkPlace::of(link);
            DONE
        }
        Err(status) => status,
    }
}

/// Returns the bytes of memory that suffice for a workspace, wherever the memory begins.
#[unsafe(no_mangle)]
pub extern "C" fn mq_mld_workspace_size(config: MldConfig) -> usize
    ensures { IsFaultless (asked config) → IsTold (bytes_lent (mld_workspace_bytes (asked config))) result }
{
    with_object::<Workspace<Mld, Lodged>>(workspace_size::<Mld>(
        config.settings,
        Addr6::from_octets(config.own),
        config.source_specific,
        ranges_of::<Mld>(&config.ranges),
    ))
}

/// Makes a workspace in memory of the caller, and writes its pointer to the place.
#[unsafe(no_mangle)]
pub extern "C" fn mq_mld_workspace_init_units(
    config: MldConfig,
    memory: LentMemory,
    place: &mut MldWorkspacePlace,
) -> u32
    ensures made { result ≡ 0 → MatchOption place.new.kept ⊥ (IsWorkspaceMade (asked config)) }
    ensures refused { 0 < result → IsWorkspaceRefused (asked config) result }
    ensures place { 0 < result → place.new ≡ place.old }
    ensures granted { result ≡ status.memory → 16 * memory.units < mld_workspace_bytes (asked config) }
{
    let mut unused = Unused::of(memory.into_units());
    match workspace_in::<Mld>(
        &mut unused,
        config.settings,
        Addr6::from_octets(config.own),
        config.source_specific,
        ranges_of::<Mld>(&config.ranges),
    ) {
        Ok(workspace) => {
            *place = MldWorkspacePlace::of(workspace);
            DONE
        }
        Err(status) => status,
    }
}

/// Sets another configuration.
#[unsafe(no_mangle)]
pub extern "C" fn mq_mld_configure(link: &mut MldLink, config: MldConfig) -> u32
    ensures at { link.new.at ≡ link.old.at }
    ensures configured { IsReconfigured (asked config) link.old.kept link.new.kept result }
    ensures formed { state.IsWellFormed link.new.kept.config link.new.kept.state }
{
    configure(
        link.lend(),
        config.settings,
        Addr6::from_octets(config.own),
        config.source_specific,
        ranges_of::<Mld>(&config.ranges),
    )
}

/// Receives a datagram. With as much memory as the room of a datagram, no query is left out.
#[unsafe(no_mangle)]
pub extern "C" fn mq_mld_receive(
    link: &mut MldLink,
    workspace: &mut MldWorkspace,
    source: &[u8; 16],
    destination: &[u8; 16],
    hop_limit: u8,
    alert: bool,
    body: &[u8],
    now: u64,
    queries: &mut [u8],
) -> Answer
    ensures at { link.new.at ≡ link.old.at }
    ensures workspace_at { workspace.new.at ≡ workspace.old.at }
    ensures workspace { let before = link.old.kept in
        WorksIn (suffices before.config.room workspace.old.kept) now (changed_by_datagram before.config (envelope source.now destination.now hop_limit alert) body.now now before.state)
        workspace.old.kept workspace.new.kept }
    ensures receives { let before = link.old.kept in
        CallsAt (suffices before.config.room workspace.old.kept) now (ReceivesInto 16 (envelope source.now destination.now hop_limit alert) body.now now before link.new.kept queries.old queries.new result)
        before link.new.kept queries.old queries.new result }
    ensures formed { state.IsWellFormed link.new.kept.config link.new.kept.state }
    ensures costs { let before = link.old.kept in
        ReceiveCosts (is_done (suffices before.config.room workspace.old.kept) now) (envelope source.now destination.now hop_limit alert) body.now now before link.new.kept }
    ensures none_left_out { (longest : ℕ) → receive_room 16 longest link.old.kept.config ≤ length queries.old → length body.now ≤ longest → result.unsent ≡ 0 }
{
    let envelope = MldEnvelope {
        source: Addr6::from_octets(*source),
        destination: Addr6::from_octets(*destination),
        hop_limit,
        alert,
    };
    let lent = workspace.lend();
    calls::receive(link.lend(), lent, envelope, body, now, queries)
}

/// Handles what is due. With as much memory as the room of a tick, no query is left out.
#[unsafe(no_mangle)]
pub extern "C" fn mq_mld_tick(
    link: &mut MldLink,
    workspace: &mut MldWorkspace,
    now: u64,
    queries: &mut [u8],
) -> Answer
    ensures at { link.new.at ≡ link.old.at }
    ensures workspace_at { workspace.new.at ≡ workspace.old.at }
    ensures workspace { let before = link.old.kept in
        WorksIn (suffices before.config.room workspace.old.kept) now (changed_by_tick before.config now before.state) workspace.old.kept workspace.new.kept }
    ensures ticks { let before = link.old.kept in
        CallsAt (suffices before.config.room workspace.old.kept) now (TicksInto 16 now before link.new.kept queries.old queries.new result)
        before link.new.kept queries.old queries.new result }
    ensures formed { state.IsWellFormed link.new.kept.config link.new.kept.state }
    ensures later { suffices link.old.kept.config.room workspace.old.kept ≡ true → now ≤ 2 ^ 53 → now < next_of link.new.kept.state }
    ensures costs { let before = link.old.kept in
        TickCosts (is_done (suffices before.config.room workspace.old.kept) now) now before link.new.kept }
    ensures none_left_out { tick_room 16 link.old.kept.config ≤ length queries.old → result.unsent ≡ 0 }
{
    let lent = workspace.lend();
    calls::tick(link.lend(), lent, now, queries)
}

/// Returns the memory that suffices for the queries of one call, if no body is longer than `longest_body`.
#[unsafe(no_mangle)]
pub extern "C" fn mq_mld_outlet_bytes(config: MldConfig, longest_body: u32) -> usize
    ensures bytes { result ≡ receive_room 16 longest_body (asked config) }
    ensures tick { tick_room 16 (asked config) ≤ result }
{
    bounds::outlet_bytes(
        16,
        28,
        89,
        longest_body,
        config.settings.groups,
        config.settings.sources,
        config.settings.scheduled,
    ) as usize
}

/// Returns the next moment at which a tick has something to do.
#[unsafe(no_mangle)]
pub extern "C" fn mq_mld_next_deadline(link: &mut MldLink) -> u64
    ensures answer { result ≡ next_of link.old.kept.state }
    ensures same { link.new.kept ≡ link.old.kept }
    ensures at { link.new.at ≡ link.old.at }
{
    milliseconds(link.lend().next_deadline())
}

/// Returns whether a source of a group is forwarded.
#[unsafe(no_mangle)]
pub extern "C" fn mq_mld_forwards(link: &mut MldLink, group: &[u8; 16], source: &[u8; 16]) -> bool
    ensures answer { result ≡ state.forwards link.old.kept.state (from_be_bytes w128 group.now) (from_be_bytes w128 source.now) }
    ensures same { link.new.kept ≡ link.old.kept }
    ensures at { link.new.at ≡ link.old.at }
{
    link.lend()
        .forwards(Addr6::from_octets(*group), Addr6::from_octets(*source))
}

/// Returns whether the link is querier.
#[unsafe(no_mangle)]
pub extern "C" fn mq_mld_is_querier(link: &mut MldLink) -> bool
    ensures answer { result ≡ is_querier link.old.kept.state.election.role }
    ensures same { link.new.kept ≡ link.old.kept }
    ensures at { link.new.at ≡ link.old.at }
{
    link.lend().is_querier()
}

/// Returns the moment until which another router is querier. Its address is written if it fits.
#[unsafe(no_mangle)]
pub extern "C" fn mq_mld_other_querier(link: &mut MldLink, address: &mut [u8]) -> u64
    ensures none { IsTrue (is_querier link.old.kept.state.election.role) → result ≡ no_deadline }
    ensures deadline { (other deadline : ℕ) → link.old.kept.state.election.role ≡ Other other deadline → result ≡ deadline }
    ensures address { address.new ≡ with_other_querier 16 link.old.kept.state.election.role address.old }
    ensures same { link.new.kept ≡ link.old.kept }
    ensures at { link.new.at ≡ link.old.at }
{
    other_querier(link.lend(), address)
}

/// Returns the number of comparisons that the calls have made.
#[unsafe(no_mangle)]
pub extern "C" fn mq_mld_spent(link: &mut MldLink) -> u64
    ensures answer { result ≡ link.old.kept.spent }
    ensures same { link.new.kept ≡ link.old.kept }
    ensures at { link.new.at ≡ link.old.at }
{
    link.lend().spent()
}

/// Returns the number of list items that the calls have moved to keep the groups.
#[unsafe(no_mangle)]
pub extern "C" fn mq_mld_moved(link: &mut MldLink) -> u64
    ensures answer { result ≡ link.old.kept.moved }
    ensures same { link.new.kept ≡ link.old.kept }
    ensures at { link.new.at ≡ link.old.at }
{
    link.lend().moved()
}

/// Writes the counters, as many as there is room for, and returns how many there are.
#[unsafe(no_mangle)]
pub extern "C" fn mq_mld_counters(link: &mut MldLink, counters: &mut [u64]) -> usize
    ensures counters { IsCounted link.old.kept.state.counters counters.old counters.new result }
    ensures same { link.new.kept ≡ link.old.kept }
    ensures at { link.new.at ≡ link.old.at }
{
    put_counters(link.lend().counts(), counters)
}

/// Returns the number of held groups.
#[unsafe(no_mangle)]
pub extern "C" fn mq_mld_len(link: &mut MldLink) -> u32
    ensures answer { map.len link.old.kept.state.groups < 2 ^ 32 → result ≡ map.len link.old.kept.state.groups }
    ensures same { link.new.kept ≡ link.old.kept }
    ensures at { link.new.at ≡ link.old.at }
{
    few(link.lend().len())
}

/// Writes a page of the groups.
#[unsafe(no_mangle)]
pub extern "C" fn mq_mld_groups(
    link: &mut MldLink,
    first: u32,
    groups: &mut [MldGroup],
    sources: &mut [MldSource],
) -> Page
    ensures page { IsPage (group_form group_with) (source_form source_with) link.old.kept.state.groups first groups.old groups.new sources.old sources.new result }
    ensures same { link.new ≡ link.old }
{
    put_groups::<Mld>(link.lend(), first, groups, sources)
}

/// Writes a group, by its address.
#[unsafe(no_mangle)]
pub extern "C" fn mq_mld_group_at(
    link: &mut MldLink,
    address: &[u8; 16],
    group: &mut MldGroup,
    sources: &mut [MldSource],
) -> Page
    ensures group { ShowsGroup (group_form group_with) (source_form source_with) link.old.kept.state.groups (from_be_bytes w128 address.now) group.old group.new sources.old sources.new result }
    ensures same { link.new ≡ link.old }
{
    put_group::<Mld>(link.lend(), Addr6::from_octets(*address), group, sources)
}

/// Writes the groups that the last call with this workspace changed.
#[unsafe(no_mangle)]
pub extern "C" fn mq_mld_changed(
    workspace: &mut MldWorkspace,
    first: u32,
    addresses: &mut [[u8; 16]],
) -> u32
    ensures changed { TellsChanged octets_with workspace.old.kept.changed first addresses.old addresses.new result }
    ensures same { workspace.new ≡ workspace.old }
{
    put_changed::<Mld>(workspace.lend(), first, addresses)
}

/// Writes the line of a message, or of its fault.
#[unsafe(no_mangle)]
pub extern "C" fn mq_mld_line(
    source: &[u8; 16],
    destination: &[u8; 16],
    body: &[u8],
    line: &mut [u8],
) -> usize
    ensures text { LineStands false family.Mld
        (pseudo_header (from_be_bytes w128 source.now) (from_be_bytes w128 destination.now) (length body.now))
        body.now line.old line.new result }
{
    let source = Addr6::from_octets(*source);
    let destination = Addr6::from_octets(*destination);
    put_mld_line::<Brand>(false, source, destination, body, line)
}

/// Writes the object of a message, or of its fault, as `mq_mld_line` writes the line.
#[unsafe(no_mangle)]
pub extern "C" fn mq_mld_json(
    source: &[u8; 16],
    destination: &[u8; 16],
    body: &[u8],
    line: &mut [u8],
) -> usize
    ensures text { LineStands true family.Mld
        (pseudo_header (from_be_bytes w128 source.now) (from_be_bytes w128 destination.now) (length body.now))
        body.now line.old line.new result }
{
    let source = Addr6::from_octets(*source);
    let destination = Addr6::from_octets(*destination);
    put_mld_line::<Brand>(true, source, destination, body, line)
}

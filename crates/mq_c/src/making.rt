//! The making of links and workspaces for C.

ghost use Rattle.std.specs.Prelude.{◌≡◌, ◌+◌, ◌<◌, ◌≤◌, ◌↔◌, ℕ, IfErr, IsTrue};
ghost use Rattle.std.specs.Result.{MatchResult};
ghost use Rattle.std_alloc.specs.contracts.vec.lodged.Lodged as lodged;
ghost use Rattle.std_alloc.specs.contracts.vec.lodged.LodgedAllocator.TheImpl as lodging;
ghost use Rattle.mq_arena.specs.Vectors.{IsSize, bytes_for, item_bytes};
ghost use Rattle.mq_link.specs.contracts.bare_link.BareLink as bare;
ghost use Rattle.mq_link.specs.contracts.workspace.Workspace as workspace;
ghost use Rattle.mq_link.specs.Configuration.{IsFaultless};
ghost use Rattle.mq_link.specs.Sizes.{bytes_of_workspace};
ghost use Rattle.mq_c.specs.Sizes.{IsTold, bytes_lent, bytes_of_link_lent, bytes_with_object};
ghost use Rattle.mq_c.specs.Making as spec;
ghost use Rattle.mq_c.specs.Statuses.{memory as memory_status};
ghost use Rattle.mq_c.specs.Making.{asked_of, IsConfigOrStatus, IsLinkRefused, IsMade, IsWorkspaceMade, IsWorkspaceRefused};

use crate::forms::Settings;
use crate::statuses::{MEMORY, MOMENT, status_of};
use mq_arena::{Lodged, Unused, block_size, both_sizes, vector_size};
use mq_count::{Key, Moment};
use mq_link::{BareLink, Config, Family, Limits, Ranges, Workspace};
use mq_wire::WireKey;

/// The most bytes that whole units of 16 may have, with those for the alignment.
const GREATEST_SIZE: usize = isize::MAX as usize - 31;

/// The most bytes for the alignment, in a whole unit.
const ALIGNING: usize = 16;

/// Returns the defaults of a family.
pub(crate) fn default_settings<F: Family>() -> Settings
    ensures { result ≡ spec.default_settings F.FAMILY }
{
    let defaults = F::defaults();
    Settings {
        robustness: defaults.robustness,
        query_interval: defaults.query_seconds,
        response_interval: defaults.response_interval,
        last_member_interval: defaults.last_member_interval,
        last_member_query_count: 0,
        groups: defaults.limits.groups,
        group_sources: defaults.limits.group_sources,
        sources: defaults.limits.sources,
        scheduled: defaults.limits.scheduled,
    }
}

/// Returns the configuration of these settings, or the status of its first fault.
pub(crate) fn config_of<F: Family>(
    settings: Settings,
    own: F::Address,
    source_specific: u8,
    ranges: Ranges,
) -> Result<Config<F>, u32>
    ensures { IsConfigOrStatus (asked_of F.FAMILY settings (F.Address.number own) source_specific ranges) result }
{
    let limits = Limits {
        groups: settings.groups,
        group_sources: settings.group_sources,
        sources: settings.sources,
        scheduled: settings.scheduled,
    };
    let config = match Config::new(
        settings.robustness,
        settings.query_interval,
        settings.response_interval,
        settings.last_member_interval,
        limits,
        own,
        source_specific != 0,
    ) {
        Ok(config) => config,
        Err(fault) => return Err(status_of(fault)),
    };
    match config.with_last_member_query_count(settings.last_member_query_count) {
        Ok(config) => Ok(config.with_ranges(ranges)),
        Err(fault) => Err(status_of(fault)),
    }
}

/// Returns whether parts of this size and an object of this type have room in the memory.
fn has_room<T>(memory: &Unused, parts: Option<usize>) -> bool
    ensures { (a : ℕ) → IsSize a parts → IsTrue result ↔ (a + bytes_for (item_bytes T.row) 1 ≤ memory.now) }
{
    let left = memory.size();
    match both_sizes(parts, vector_size::<T>(1)) {
        Some(bytes) => bytes <= left,
        None => false,
    }
}

/// Makes a link with this configuration that starts at a moment, at the front of memory of the caller. Otherwise
/// returns the status that says why there is none, and takes and writes nothing.
pub(crate) fn link_in<'a, F: Family + 'a>(
    memory: &mut Unused,
    settings: Settings,
    own: F::Address,
    source_specific: u8,
    ranges: Ranges,
    start: u64,
) -> Result<&'a mut BareLink<F, Lodged>, u32>
where
    BareLink<F, Lodged>: 'a,
    ensures link { let asked = asked_of F.FAMILY settings (F.Address.number own) source_specific ranges in
        MatchResult result (λ made. IsMade asked start made.now) (λ status. IsLinkRefused asked start status) }
    ensures granted { let asked = asked_of F.FAMILY settings (F.Address.number own) source_specific ranges in
        IfErr result (λ status. status ≡ memory_status → memory.old < bytes_with_object (bare.the_row F.row lodged.the_row F.Address.row F.Envelope.row ⟦<F as Family>⟧ (record { WIDTH = F.Address.WIDTH; PER_QUERY = F.Address.PER_QUERY }) (record { number = F.Address.number }) (record { is_default = F.Address.is_default }) lodging.ghosts) (bytes_of_link_lent F.Address.row asked.limits)) }
    ensures unwritten { IfErr result (λ _. memory.new ≡ memory.old) }
{
    let config = match config_of::<F>(settings, own, source_specific, ranges) {
        Ok(config) => config,
        Err(status) => return Err(status),
    };
    let Some(start) = Moment::from_ms(start) else {
        return Err(MOMENT);
    };
    if !has_room::<BareLink<F, Lodged>>(memory, BareLink::<F, Lodged>::size(&config)) {
        return Err(MEMORY);
    }
    let link = BareLink::new_in(memory, config, start).unwrap();
    Ok(memory.place(link).unwrap())
}

/// Returns the most bytes that `link_in` allocates. Returns None if no memory has as many, or the configuration has a
/// fault.
pub(crate) fn link_size<F: Family>(
    settings: Settings,
    own: F::Address,
    source_specific: u8,
    ranges: Ranges,
) -> Option<usize>
    ensures { let asked = asked_of F.FAMILY settings (F.Address.number own) source_specific ranges in
        IsFaultless asked → IsSize (bytes_of_link_lent F.Address.row asked.limits) result }
{
    match config_of::<F>(settings, own, source_specific, ranges) {
        Ok(config) => BareLink::<F, Lodged>::size(&config),
        Err(_) => None,
    }
}

/// Makes a workspace for links with this configuration, at the front of memory of the caller. Otherwise returns the
/// status that says why there is none, and takes and writes nothing.
pub(crate) fn workspace_in<'a, F: Family + 'a>(
    memory: &mut Unused,
    settings: Settings,
    own: F::Address,
    source_specific: u8,
    ranges: Ranges,
) -> Result<&'a mut Workspace<F, Lodged>, u32>
where
    Workspace<F, Lodged>: 'a,
    ensures workspace { let asked = asked_of F.FAMILY settings (F.Address.number own) source_specific ranges in
        MatchResult result (λ made. IsWorkspaceMade asked made.now) (λ status. IsWorkspaceRefused asked status) }
    ensures granted { let asked = asked_of F.FAMILY settings (F.Address.number own) source_specific ranges in
        IfErr result (λ status. status ≡ memory_status → memory.old < bytes_with_object (workspace.the_row F.row lodged.the_row F.Address.row F.Envelope.row ⟦<F as Family>⟧ (record { WIDTH = F.Address.WIDTH; PER_QUERY = F.Address.PER_QUERY }) (record { number = F.Address.number }) (record { is_default = F.Address.is_default }) lodging.ghosts) (bytes_of_workspace F.Address.row asked.limits)) }
    ensures unwritten { IfErr result (λ _. memory.new ≡ memory.old) }
{
    let config = match config_of::<F>(settings, own, source_specific, ranges) {
        Ok(config) => config,
        Err(status) => return Err(status),
    };
    let limits = config.limits();
    if !has_room::<Workspace<F, Lodged>>(memory, Workspace::<F, Lodged>::size(&limits)) {
        return Err(MEMORY);
    }
    let workspace = Workspace::with_room_in(memory, &limits).unwrap();
    Ok(memory.place(workspace).unwrap())
}

/// Returns the most bytes that `workspace_in` allocates. Returns None if no memory has as many, or the configuration
/// has a fault.
pub(crate) fn workspace_size<F: Family>(
    settings: Settings,
    own: F::Address,
    source_specific: u8,
    ranges: Ranges,
) -> Option<usize>
    ensures { let asked = asked_of F.FAMILY settings (F.Address.number own) source_specific ranges in
        IsFaultless asked → IsSize (bytes_of_workspace F.Address.row asked.limits) result }
{
    match config_of::<F>(settings, own, source_specific, ranges) {
        Ok(config) => Workspace::<F, Lodged>::size(&config.limits()),
        Err(_) => None,
    }
}

/// Returns a size with that of the object, in whole units, and the bytes for the alignment. Returns the greatest number
/// if no memory has as many bytes.
pub(crate) fn with_object<T>(size: Option<usize>) -> usize
    ensures { (a : ℕ) → IsSize a size → IsTold (bytes_lent (bytes_with_object T.row a)) result }
{
    match both_sizes(size, vector_size::<T>(1)) {
        Some(bytes) if bytes <= GREATEST_SIZE => block_size(bytes) + ALIGNING,
        _ => usize::MAX,
    }
}

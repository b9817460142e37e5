//! Another configuration for a running link.

ghost use Rattle.std.specs.Prelude.{◌≡◌, nat_lt};
ghost use Rattle.std.specs.FinMap as map;
ghost use Rattle.std.specs.List.{list_any};
ghost use Rattle.mq_sets.specs.Ascending.{IsAscending};
ghost use Rattle.mq_table.specs.Stored.{number_in};
ghost use Rattle.mq_held.specs.Listed.{entry_in};
ghost use Rattle.mq_link.specs.Configuring as spec;
ghost use Rattle.mq_link.specs.Configuring.{Configures};
ghost use Rattle.mq_link.specs.Router.{link_of};
ghost use Rattle.mq_link.specs.State.{is_source_specific, sources_of};

use crate::config::Config;
use crate::configuration::{ConfigureFault, Limits};
use crate::family::Family;
use crate::router::Router;
use mq_count::Key;
use mq_held::{HeldGroup, HeldGroups};
use mq_table::FilterMode;
use std::alloc::Allocator;

/// Returns whether a limit exceeds that for which memory was allocated.
fn exceeds_room(room: &Limits, limits: &Limits) -> bool
    ensures { result ≡ spec.exceeds_room room.now limits.now }
{
    room.groups < limits.groups
        || room.group_sources < limits.group_sources
        || room.sources < limits.sources
        || room.scheduled < limits.scheduled
}

/// Returns whether a group is in the source-specific range and this is kept.
fn is_source_specific<F: Family>(config: &Config<F>, group: F::Address) -> bool
    ensures { result ≡ is_source_specific config.now (F.Address.number group) }
{
    config.is_faultless();
    config.source_specific() && F::in_source_specific_range(group)
}

/// Returns whether a group is in INCLUDE mode and has no older hosts.
fn names_sources_alone<K: Key>(group: &HeldGroup<'_, K>) -> bool
    ensures { result ≡ spec.names_sources_alone (entry_in K.number group.now).1.group }
{
    matches!(group.mode, FilterMode::Include) && group.v1.is_none() && group.v2.is_none()
}

/// Returns whether a group has more sources than a limit.
#[tactic(auto, using(crate::proofs::Reconfigured::size_stored))]
fn has_more<K: Key>(limit: u32, group: &HeldGroup<'_, K>) -> bool
    requires ascending { IsAscending (number_in K.number) group.now.sources.now }
    ensures { result ≡ nat_lt limit (sources_of (entry_in K.number group.now).1) }
{
    (limit as usize) < group.sources.len()
}

/// Returns whether a link of this configuration may not hold a group.
fn is_barred<F: Family>(config: &Config<F>, group: &HeldGroup<'_, F::Address>) -> bool
    requires ascending { IsAscending (number_in F.Address.number) group.now.sources.now }
    ensures { result ≡ spec.is_barred config.now (entry_in F.Address.number group.now) }
{
    has_more(config.limits().group_sources, group)
        || is_source_specific(config, group.address) && !names_sources_alone(group)
}

/// Returns whether a link of this configuration may not hold some of the groups.
fn any_is_barred<F: Family, A: Allocator>(
    config: &Config<F>,
    held: &HeldGroups<F::Address, A>,
) -> bool
    ensures { result ≡ list_any (spec.is_barred config.now) (map.entries held.now.groups) }
{
    for place in 0..held.len() {
        if is_barred(config, &held.entry(place)) {
            return true;
        }
    }
    false
}

/// Returns whether a link of this configuration may not hold these groups.
fn are_barred<F: Family, A: Allocator>(config: &Config<F>, held: &HeldGroups<F::Address, A>) -> bool
    ensures { result ≡ spec.are_barred config.now held.now.groups }
{
    let limits = config.limits();
    (limits.groups as usize) < held.len()
        || (limits.sources as usize) < held.sources()
        || (limits.scheduled as usize) < held.schedules()
        || any_is_barred(config, held)
}

impl<F: Family, A: Allocator> Router<F, A> {
    /// Sets another configuration, or refuses it and changes nothing.
    pub(crate) fn configure(&mut self, config: Config<F>) -> Result<(), ConfigureFault>
        ensures { Configures config (link_of self.old) (link_of self.new) result }
    {
        config.is_faultless();
        self.lemma_is_stored();
        if exceeds_room(&self.config().room(), &config.limits()) {
            return Err(ConfigureFault::Room);
        }
        if are_barred(&config, self.held()) {
            return Err(ConfigureFault::Held);
        }
        self.status.configure(config);
        Ok(())
    }
}

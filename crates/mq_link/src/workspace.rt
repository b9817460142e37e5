//! The memory for calls of links, which many links may use in turn.

ghost use Rattle.std.specs.Prelude.{◌≡◌, ◌*◌, ◌≤◌, [], length, map, IfOk, is_ok};
ghost use Rattle.mq_arena.specs.Vectors.{IsSize, Takes};
ghost use Rattle.mq_link.specs.Sizes.{bytes_of_workspace};
ghost use Rattle.mq_link.specs.Workspace as spec;

use crate::configuration::Limits;
use crate::family::Family;
use crate::storage::{Lists, Scratch};
use mq_arena::{OfAllocator, VectorSource, both_sizes};
use mq_sets::Memory;
use std::alloc::{Allocator, Global};
use std::marker::Model;

/// The memory for one call of a link.
///
/// It has a group, the sources that a record names and those to ask for. It also has the groups that the records of a
/// datagram meet and change, and the numbers of those that are due. Between two calls it has the addresses of the
/// groups that the last call changed, and nothing else of a link. So the calls of many links may use one workspace, in
/// any order.
///
/// A contract sees the number of groups for which it has room, of sources of one, and these addresses. No call depends
/// on its content before. `with_room` allocates.
#[derive(Drop)]
pub struct Workspace<F: Family, A: Allocator = Global> {
    pub(crate) scratch: Scratch<F::Address, A>,
    pub(crate) lists: Lists<F::Address, A>,
    groups: u32,
    group_sources: u32,
}

impl<F: Family, A: Allocator> Model for Workspace<F, A> {
    ghost use Rattle.std.specs.Prelude.{map};
    ghost use Rattle.mq_link.specs.Workspace.{WorkspaceState, workspace_code, IsWorkspace};

    ghost Value = { WorkspaceState };

    ghost coded = { workspace_code };

    ghost view = { λ w. record {
      groups = w.groups;
      group_sources = w.group_sources;
      changed = map F.Address.number w.lists.changed.items;
    } };

    ghost invariant = { λ w. IsWorkspace F.Address.number w.groups w.group_sources w.scratch w.lists };
}

impl<F: Family, A: Allocator + Copy> Workspace<F, A> {
    /// Returns a workspace for links of these limits, or of limits with no more groups and sources of one. Fails with
    /// `Memory` if memory is refused.
    pub fn with_room(alloc: A, limits: &Limits) -> Result<Workspace<F, A>, Memory>
        ensures { IfOk result (λ w. w ≡ record { groups = limits.now.groups; group_sources = limits.now.group_sources; changed = [] }) }
    {
        Workspace::with_room_in(&mut OfAllocator(alloc), limits)
    }
}

impl<F: Family, A: Allocator> Workspace<F, A> {
    /// Returns the bytes that `with_room_in` allocates, or None if no memory has as many.
    pub fn size(limits: &Limits) -> Option<usize>
        ensures { IsSize (bytes_of_workspace F.Address.row limits.now) result }
    {
        let groups = limits.groups as usize;
        both_sizes(
            Scratch::<F::Address, A>::size(groups, limits.group_sources as usize),
            Lists::<F::Address, A>::size(groups),
        )
    }

    /// Returns a workspace as `with_room` does, allocated from `memory`. It succeeds if `memory` has `size` bytes for
    /// the limits.
    #[tactic(auto, unfolding(crate::specs::Sizes::bytes_of_room))]
    pub fn with_room_in<M: VectorSource<A>>(
        memory: &mut M,
        limits: &Limits,
    ) -> Result<Workspace<F, A>, Memory>
        ensures workspace { IfOk result (λ w. w ≡ record { groups = limits.now.groups; group_sources = limits.now.group_sources; changed = [] }) }
        ensures memory { Takes (bytes_of_workspace F.Address.row limits.now) (M.less_than memory.old) (M.less_than memory.new) (is_ok result) }
    {
        let groups = limits.groups as usize;
        Ok(Workspace {
            scratch: Scratch::with_room(memory, groups, limits.group_sources as usize)?,
            lists: Lists::with_room(memory, groups)?,
            groups: limits.groups,
            group_sources: limits.group_sources,
        })
    }

    /// Returns the addresses of the groups that the last call with this workspace has changed, ascending. Their filter
    /// is another after the tick, or after one of the datagram's records, than before it (RFC 3376 section 6.3, RFC
    /// 3810 section 7.3). A fresh workspace has none. There are at most twice as many as groups may be held: those that
    /// the tick ended, and those that records made.
    pub fn changed(&self) -> &[F::Address]
        ensures changed { map F.Address.number result.now ≡ self.now.changed }
        ensures few { length result.now ≤ 2 * self.now.groups }
    {
        &self.lists.changed
    }

    /// Returns whether the calls of a link of these limits may use the workspace.
    pub fn suffices(&self, limits: &Limits) -> bool
        ensures { result ≡ spec.suffices limits.now self.now }
    {
        limits.groups <= self.groups && limits.group_sources <= self.group_sources
    }
}

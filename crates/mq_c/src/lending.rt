//! Loans of the objects of C. Once a loan ends, the object holds what was last written at its pointer. That value
//! stands apart from the object, whose description it names.

ghost use Rattle.std.specs.Prelude.{◌≡◌};
ghost use types.Logic.{sem};
ghost use denote.Follow.{follows};
ghost use Rattle.mq_c.specs.Rows.{igmp_row, igmp_workspace_row, mld_row, mld_workspace_row};
ghost use Rattle.mq_c.specs.contracts.igmp_objects.IgmpLink as igmp_link;
ghost use Rattle.mq_c.specs.contracts.igmp_objects.IgmpWorkspace as igmp_workspace;
ghost use Rattle.mq_c.specs.contracts.mld_objects.MldLink as mld_link;
ghost use Rattle.mq_c.specs.contracts.mld_objects.MldWorkspace as mld_workspace;

use crate::igmp_objects::{IgmpLink, IgmpWorkspace};
use crate::mld_objects::{MldLink, MldWorkspace};
use mq_arena::Lodged;
use mq_link::{BareLink, Igmp, Mld, Workspace};

impl IgmpLink {
    pub(crate) fn lend(&mut self) -> &mut BareLink<Igmp, Lodged>
        ensures* writes_back { sem 𝓛 (follows igmp_link.the_row igmp_row self.entry.ghost_name result.ghost_name (λ w. record self.old { kept = w })) }
        ensures value { result.now ≡ self.old.kept }
    {
        unsafe { &mut *(self.at as *mut BareLink<Igmp, Lodged>) }
    }
}

impl IgmpWorkspace {
    pub(crate) fn lend(&mut self) -> &mut Workspace<Igmp, Lodged>
        ensures* writes_back { sem 𝓛 (follows igmp_workspace.the_row igmp_workspace_row self.entry.ghost_name result.ghost_name (λ w. record self.old { kept = w })) }
        ensures value { result.now ≡ self.old.kept }
    {
        unsafe { &mut *(self.at as *mut Workspace<Igmp, Lodged>) }
    }
}

impl MldLink {
    pub(crate) fn lend(&mut self) -> &mut BareLink<Mld, Lodged>
        ensures* writes_back { sem 𝓛 (follows mld_link.the_row mld_row self.entry.ghost_name result.ghost_name (λ w. record self.old { kept = w })) }
        ensures value { result.now ≡ self.old.kept }
    {
        unsafe { &mut *(self.at as *mut BareLink<Mld, Lodged>) }
    }
}

impl MldWorkspace {
    pub(crate) fn lend(&mut self) -> &mut Workspace<Mld, Lodged>
        ensures* writes_back { sem 𝓛 (follows mld_workspace.the_row mld_workspace_row self.entry.ghost_name result.ghost_name (λ w. record self.old { kept = w })) }
        ensures value { result.now ≡ self.old.kept }
    {
        unsafe { &mut *(self.at as *mut Workspace<Mld, Lodged>) }
    }
}

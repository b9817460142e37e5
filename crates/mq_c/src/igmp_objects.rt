//! The links and workspaces of IGMP as C has them, and the places for their pointers.

ghost use Rattle.std.specs.Prelude.{◌≡◌, Option, Some};
ghost use Rattle.std.specs.Coded.{coded_option};
ghost use Rattle.mq_link.specs.Link.{LinkValue};
ghost use Rattle.mq_link.specs.Workspace.{WorkspaceState};
ghost use Rattle.mq_c.specs.Rows.{igmp_row, igmp_workspace_row};

use mq_arena::Lodged;
use mq_link::{BareLink, Igmp, Workspace};
use std::marker::Model;

/// A link: a pointer that owns the link at its address.
#[repr(C)]
pub struct IgmpLink {
    pub(crate) at: *mut u8,
    pub(crate) ghost kept: { LinkValue } by { igmp_row.coded },
}

impl Model for IgmpLink {
    ghost use Rattle.std_alloc.specs.Box.Ownership.{box_owns};
    ghost use Rattle.mq_c.specs.Owning.{no_freeing};
    ghost use Rattle.mq_c.specs.Rows.{igmp_row};

    ghost also_owns = { λ h. box_owns no_freeing igmp_row h.at h.kept };
}

/// The place for a link's pointer. Once a pointer was written there, it owns a link. Its content before has no meaning,
/// and is forgotten.
#[repr(C)]
#[derive(Drop)]
pub struct IgmpLinkPlace {
    at: *mut u8,
    pub(crate) ghost kept: { Option LinkValue } by { coded_option igmp_row.coded },
}

impl Model for IgmpLinkPlace {
    ghost use Rattle.mq_c.specs.Owning.{placed};
    ghost use Rattle.mq_c.specs.Rows.{igmp_row};

    ghost also_owns = { λ p. placed igmp_row p.at p.kept };
}

impl IgmpLinkPlace {
    /// Returns the place after a link is written: its pointer and the link, which are C's from now on.
    pub(crate) fn of(link: &'static mut BareLink<Igmp, Lodged>) -> IgmpLinkPlace
        ensures { result.kept ≡ Some link.old }
    {
        let at = link as *mut BareLink<Igmp, Lodged>;
        IgmpLinkPlace { at: at as *mut u8 }
    }
}

/// A workspace: a pointer that owns the workspace at its address.
#[repr(C)]
pub struct IgmpWorkspace {
    pub(crate) at: *mut u8,
    pub(crate) ghost kept: { WorkspaceState } by { igmp_workspace_row.coded },
}

impl Model for IgmpWorkspace {
    ghost use Rattle.std_alloc.specs.Box.Ownership.{box_owns};
    ghost use Rattle.mq_c.specs.Owning.{no_freeing};
    ghost use Rattle.mq_c.specs.Rows.{igmp_workspace_row};

    ghost also_owns = { λ h. box_owns no_freeing igmp_workspace_row h.at h.kept };
}

/// The place for a workspace's pointer, like that of a link.
#[repr(C)]
#[derive(Drop)]
pub struct IgmpWorkspacePlace {
    at: *mut u8,
    pub(crate) ghost kept: { Option WorkspaceState } by { coded_option igmp_workspace_row.coded },
}

impl Model for IgmpWorkspacePlace {
    ghost use Rattle.mq_c.specs.Owning.{placed};
    ghost use Rattle.mq_c.specs.Rows.{igmp_workspace_row};

    ghost also_owns = { λ p. placed igmp_workspace_row p.at p.kept };
}

impl IgmpWorkspacePlace {
    /// Returns the place after a workspace is written: its pointer and the workspace, which are C's from now on.
    pub(crate) fn of(workspace: &'static mut Workspace<Igmp, Lodged>) -> IgmpWorkspacePlace
        ensures { result.kept ≡ Some workspace.old }
    {
        let at = workspace as *mut Workspace<Igmp, Lodged>;
        IgmpWorkspacePlace { at: at as *mut u8 }
    }
}

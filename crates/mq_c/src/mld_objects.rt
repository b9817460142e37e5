//! The links and workspaces of MLD as C has them, and the places for their pointers.

ghost use Rattle.std.specs.Prelude.{◌≡◌, Option, Some};
ghost use Rattle.std.specs.Coded.{coded_option};
ghost use Rattle.mq_link.specs.Link.{LinkValue};
ghost use Rattle.mq_link.specs.Workspace.{WorkspaceState};
ghost use Rattle.mq_c.specs.Rows.{mld_row, mld_workspace_row};

use mq_arena::Lodged;
use mq_link::{BareLink, Mld, Workspace};
use std::marker::Model;

/// A link: a pointer that owns the link at its address.
#[repr(C)]
pub struct MldLink {
    pub(crate) at: *mut u8,
    pub(crate) ghost kept: { LinkValue } by { mld_row.coded },
}

impl Model for MldLink {
    ghost use Rattle.std_alloc.specs.Box.Ownership.{box_owns};
    ghost use Rattle.mq_c.specs.Owning.{no_freeing};
    ghost use Rattle.mq_c.specs.Rows.{mld_row};

    ghost also_owns = { λ h. box_owns no_freeing mld_row h.at h.kept };
}

/// The place for a link's pointer. Once a pointer was written there, it owns a link. Its content before has no meaning,
/// and is forgotten.
#[repr(C)]
#[derive(Drop)]
pub struct MldLinkPlace {
    at: *mut u8,
    pub(crate) ghost kept: { Option LinkValue } by { coded_option mld_row.coded },
}

impl Model for MldLinkPlace {
    ghost use Rattle.mq_c.specs.Owning.{placed};
    ghost use Rattle.mq_c.specs.Rows.{mld_row};

    ghost also_owns = { λ p. placed mld_row p.at p.kept };
}

impl MldLinkPlace {
    /// Returns the place after a link is written: its pointer and the link, which are C's from now on.
    pub(crate) fn of(link: &'static mut BareLink<Mld, Lodged>) -> MldLinkPlace
        ensures { result.kept ≡ Some link.old }
    {
        let at = link as *mut BareLink<Mld, Lodged>;
        MldLinkPlace { at: at as *mut u8 }
    }
}

/// A workspace: a pointer that owns the workspace at its address.
#[repr(C)]
pub struct MldWorkspace {
    pub(crate) at: *mut u8,
    pub(crate) ghost kept: { WorkspaceState } by { mld_workspace_row.coded },
}

impl Model for MldWorkspace {
    ghost use Rattle.std_alloc.specs.Box.Ownership.{box_owns};
    ghost use Rattle.mq_c.specs.Owning.{no_freeing};
    ghost use Rattle.mq_c.specs.Rows.{mld_workspace_row};

    ghost also_owns = { λ h. box_owns no_freeing mld_workspace_row h.at h.kept };
}

/// The place for a workspace's pointer, like that of a link.
#[repr(C)]
#[derive(Drop)]
pub struct MldWorkspacePlace {
    at: *mut u8,
    pub(crate) ghost kept: { Option WorkspaceState } by { coded_option mld_workspace_row.coded },
}

impl Model for MldWorkspacePlace {
    ghost use Rattle.mq_c.specs.Owning.{placed};
    ghost use Rattle.mq_c.specs.Rows.{mld_workspace_row};

    ghost also_owns = { λ p. placed mld_workspace_row p.at p.kept };
}

impl MldWorkspacePlace {
    /// Returns the place after a workspace is written: its pointer and the workspace, which are C's from now on.
    pub(crate) fn of(workspace: &'static mut Workspace<Mld, Lodged>) -> MldWorkspacePlace
        ensures { result.kept ≡ Some workspace.old }
    {
        let at = workspace as *mut Workspace<Mld, Lodged>;
        MldWorkspacePlace { at: at as *mut u8 }
    }
}

//! The groups that a call changed, as its workspace lists them.

ghost use Rattle.std.specs.Prelude.{◌≡◌, ◌++◌, length, take, drop, map as list_map};
ghost use Rattle.mq_c.specs.Changed.{TellsChanged, stored_octets};

use crate::c_family::CFamily;
use crate::counting::few;
use mq_arena::Lodged;
use mq_link::Workspace;

/// Writes addresses to the front, as many as fit.
fn put_addresses<F: CFamily>(from: &[F::Address], out: &mut [F::Octets])
    ensures { out.new ≡ list_map (stored_octets F.Address.number F.octets_with) (take (length out.old) from.now) ++ drop (length from.now) out.old }
{
    for (i, address) in from.iter().enumerate() {
        if out.len() <= i {
            return;
        }
        out[i] = F::octets_in_c(*address);
    }
}

/// Writes the addresses of the groups that the last call with this workspace changed, and returns their number. It
/// writes those from a place on, as many as fit.
pub(crate) fn put_changed<F: CFamily>(
    workspace: &Workspace<F, Lodged>,
    first: u32,
    out: &mut [F::Octets],
) -> u32
    ensures { TellsChanged F.octets_with workspace.now.changed first out.old out.new result }
{
    let changed = workspace.changed();
    let first = (first as usize).min(changed.len());
    put_addresses::<F>(&changed[first..], out);
    few(changed.len())
}

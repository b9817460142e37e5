//! The lines on standard error for a capture of several networks.

ghost use Rattle.std.specs.Prelude.{◌≡◌, ◌≤◌, ◌+◌, ◌++◌, length, true};
ghost use Rattle.arrayvec.specs.ArrayVec.{array_vec_len};
ghost use Rattle.mq_lines.specs.Objects.{items_from};
ghost use Rattle.mquerier.specs.Changes.{output_by};
ghost use Rattle.mquerier.specs.Failures as spec;
ghost use Rattle.mquerier.specs.Status.{IsTold};

use crate::failure::FAULTY;
use mq_convert::Network;
use mq_count::Watched;
use mq_lines::put_comma;
use mq_text::{Text, print, put, put_decimal};
use std::io::Write;

/// Reports on standard error that the messages of a capture are of these networks, and returns the status.
pub fn tell_networks<E: Write>(networks: &[Network], errors: &mut Watched<E>) -> u8
    requires few { length networks.now ≤ 16 }
    ensures status { result ≡ 1 }
    ensures line { IsTold (output_by E.contents errors.old errors.new) (spec.networks_lines networks.now) }
{
    let _ = print(networks_lines_of(networks).as_slice(), errors);
    FAULTY
}

/// Returns the lines.
fn networks_lines_of(networks: &[Network]) -> Text
    requires { length networks.now ≤ 16 }
    ensures { result.items ≡ spec.networks_lines networks.now }
{
    let mut lines = Text::new();
    put(&mut lines, b"mquerier: more than one network:");
    put_networks(&mut lines, networks);
    put(
        &mut lines,
        b"\n  choose one by --interface or --vlan, or take all for one by --once\n",
    );
    lines
}

/// Appends each network, with commas between them.
fn put_networks(lines: &mut Text, networks: &[Network])
    requires start { array_vec_len lines.old ≤ 100 }
    requires few { length networks.now ≤ 16 }
    ensures text { lines.new.items ≡ lines.old.items ++ items_from spec.network_item true networks.now }
    ensures room { array_vec_len lines.new ≤ 2000 }
{
    let mut is_first = true;
    for network in networks {
        put_network(lines, is_first, network);
        is_first = false;
    }
}

/// Appends a network as an item of a list.
fn put_network(lines: &mut Text, is_first: bool, network: &Network)
    requires { array_vec_len lines.old ≤ 2000 }
    ensures text { lines.new.items ≡ lines.old.items ++ spec.network_item is_first network.now }
    ensures room { array_vec_len lines.new ≤ array_vec_len lines.old + 70 }
{
    put_comma(lines, is_first);
    put(lines, b" interface ");
    put_decimal(lines, network.interface);
    put_vlan(lines, network.vlan);
}

fn put_vlan(lines: &mut Text, vlan: Option<u64>)
    requires { array_vec_len lines.old ≤ 2040 }
    ensures text { lines.new.items ≡ lines.old.items ++ spec.vlan_text vlan }
    ensures room { array_vec_len lines.new ≤ array_vec_len lines.old + 30 }
{
    match vlan {
        None => put(lines, b" untagged"),
        Some(vlan) => {
            put(lines, b" vlan ");
            put_decimal(lines, vlan);
        }
    }
}

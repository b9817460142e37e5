//! The networks of the messages in a file.

ghost use Rattle.std.specs.Prelude.{◌≡◌, ◌≤◌, [], Ok, length, option_to_list};
ghost use Rattle.std.specs.List.{list_any};
ghost use Rattle.mq_pcap.specs.Filling.{input_of};
ghost use Rattle.mq_convert.specs.Blocks.{IsHeldWithin};
ghost use Rattle.mq_convert.specs.Networks as spec;
ghost use Rattle.mq_convert.specs.Networks.{Finds};
ghost use Rattle.mq_convert.specs.Putting.{held_of};
ghost use Rattle.mq_convert.specs.Sizes.{most_seen};

use crate::choice::Choice;
use crate::context::{Context, MOST_SEEN};
use crate::converting::read_block;
use crate::fault::ConvertFault;
use crate::network::{Messages, Network, network_of};
use crate::next_block::next_block;
use crate::packet::Packet;
use arrayvec::ArrayVec;
use mq_count::Watched;
use std::io::Read;

/// The greatest number of different networks.
pub const MOST_NETWORKS: usize = 16;

/// Reads a file, and adds the networks of the chosen messages of this protocol: each once, in the order in which they
/// first come. At a fault or a failed read, these are the networks before it.
///
/// `block` is room for a block, of at least `MOST_SEEN` bytes.
pub fn find_networks<R: Read>(
    protocol: Messages,
    choice: Choice,
    block: &mut [u8],
    reader: &mut Watched<R>,
    networks: &mut ArrayVec<Network, MOST_NETWORKS>,
) -> Result<(), ConvertFault>
    requires room { most_seen ≤ length block.old }
    requires start { networks.old.items ≡ [] }
    ensures finds { Finds protocol choice
        (input_of R.remaining reader.old) (input_of R.remaining reader.new)
        networks.new.items result }
{
    let mut context = Context::new();
    let mut number = 0;
    while let Some(size) = next_block(context.kind, number, reader, block)? {
        let seen = &block[..size.min(MOST_SEEN)];
        let held = read_block(&mut context, number, size, seen)?;
        add_held(protocol, choice, held, seen, networks);
        number += 1;
    }
    Ok(())
}

/// Adds the network of a block's packet, if it is a chosen message of this protocol.
fn add_held(
    protocol: Messages,
    choice: Choice,
    held: Option<Packet>,
    block: &[u8],
    networks: &mut ArrayVec<Network, MOST_NETWORKS>,
)
    requires { IsHeldWithin block.now (Ok held) }
    ensures { networks.new.items ≡ spec.networks_of protocol choice networks.old.items (option_to_list (held_of block.now held)) }
{
    let Some(packet) = held else {
        return;
    };
    add_network(network_of(protocol, choice, packet, block), networks);
}

/// Adds a network, if it isn't among these and there is room.
fn add_network(network: Option<Network>, networks: &mut ArrayVec<Network, MOST_NETWORKS>)
    ensures { networks.new.items ≡ spec.with_network networks.old.items network }
{
    let Some(network) = network else {
        return;
    };
    if !is_among(network, networks.as_slice()) && !networks.is_full() {
        networks.push(network);
    }
}

/// Returns whether a network is among these.
fn is_among(network: Network, networks: &[Network]) -> bool
    ensures { result ≡ list_any (spec.is_same network) networks.now }
{
    let mut found = false;
    for other in networks {
        found = found || network.is_same(*other);
    }
    found
}

//! The other querier, as C sees it.

ghost use Rattle.std.specs.Prelude.{◌≡◌, ℕ, IsTrue};
ghost use Rattle.mq_sched.specs.Election.{is_querier, Other};
ghost use Rattle.mq_c.specs.Milliseconds.{no_deadline};
ghost use Rattle.mq_c.specs.OtherQuerier.{with_address, with_other_querier};

use crate::milliseconds::{NONE, milliseconds};
use mq_arena::Lodged;
use mq_link::{BareLink, Family};
use mq_wire::WireKey;

/// Writes an address to the front, if it fits.
fn put_address<K: WireKey>(address: K, out: &mut [u8])
    ensures { out.new ≡ with_address K.WIDTH (K.number address) out.old }
{
    if K::WIDTH <= out.len() {
        address.write(out);
    }
}

/// Returns the moment until which another router is querier. Its address is written if it fits.
pub(crate) fn other_querier<F: Family>(link: &BareLink<F, Lodged>, address: &mut [u8]) -> u64
    ensures none { IsTrue (is_querier link.now.state.election.role) → result ≡ no_deadline }
    ensures deadline { (other deadline : ℕ) → link.now.state.election.role ≡ Other other deadline → result ≡ deadline }
    ensures address { address.new ≡ with_other_querier F.Address.WIDTH link.now.state.election.role address.old }
{
    match link.other_querier() {
        None => NONE,
        Some(other) => {
            put_address(other.address, address);
            milliseconds(other.deadline)
        }
    }
}

//! The receivers of the messages that a link sends.

use mq_count::Key;
use mq_wire::{Query, WireKey};

/// A receiver of the queries of a link, in order.
pub trait QueryOutlet<K: WireKey> {
    ghost use Rattle.std.specs.Prelude.{Bool};
    ghost use Rattle.mq_wire.specs.Numbered.{numbered_query};
    ghost use Rattle.mq_link.specs.Sent.{Outgoing};

    // The effect of one query: the state before, the message, the answer, and the state afterwards.
    ghost takes: { Self → Outgoing → (answer : Bool) → Self → Type 0 };

    /// Takes a query and its datagram for the address `to`, without its IP header. Returns whether it was sent.
    fn query(&mut self, to: K, query: &Query<'_, K>, bytes: &[u8]) -> bool
        ensures { takes self.old (record { to = K.number to; query = numbered_query K.number query.now; bytes = bytes.now }) result self.new };
}

/// A receiver of the datagrams of a link, in order: a socket, or for tests a list.
pub trait Outlet<K: Key> {
    ghost use Rattle.std.specs.Prelude.{ℕ, List, Bool};

    // The effect of one datagram: the state before, its destination, its bytes, the answer, and the state afterwards.
    ghost takes: { Self → (to : ℕ) → (bytes : List ℕ) → (answer : Bool) → Self → Type 0 };

    /// Takes a datagram for the address `to`, without its IP header. Returns whether it was sent.
    fn datagram(&mut self, to: K, bytes: &[u8]) -> bool
        ensures { takes self.old (K.number to) bytes.now result self.new };
}

/// An outlet of datagrams, as one of queries.
#[derive(Drop)]
pub struct Datagrams<O> {
    /// The outlet.
    pub outlet: O,
}

impl<K: WireKey, O: Outlet<K>> QueryOutlet<K> for Datagrams<O> {
    ghost takes = { λ old message answer new. O.takes old.outlet message.to message.bytes answer new.outlet };

    fn query(&mut self, to: K, _query: &Query<'_, K>, bytes: &[u8]) -> bool {
        self.outlet.datagram(to, bytes)
    }
}

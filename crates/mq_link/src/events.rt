//! The events of a link, one after the other.

ghost use Rattle.std.specs.Prelude.{◌≤◌, ◌^◌, map, All};
ghost use Rattle.mq_link.specs.Events.{event_of, moment_at, HasRun};

use crate::family::Family;
use crate::link::Link;
use crate::outlet::QueryOutlet;
use mq_count::Moment;
use std::alloc::Allocator;

/// An event of a link.
#[derive(Drop)]
pub enum Event<'a, F: Family> {
    /// A tick at a moment.
    Tick(Moment),
    /// A datagram.
    Datagram {
        /// The facts of its packet.
        envelope: F::Envelope,
        /// Its bytes without the IP header.
        body: &'a [u8],
        /// The moment at which it came.
        now: Moment,
    },
}

/// Gives all events to a link, in order, by `tick` or `receive`. The answers to the datagrams are not returned. For any
/// events, the acts of the link and the messages of the outlet are a run as the definitions have it. If `Link::new`
/// made the link, it is a run from its start.
pub fn run<F: Family, A: Allocator, O: QueryOutlet<F::Address>>(
    link: &mut Link<F, A>,
    events: &[Event<'_, F>],
    outlet: &mut O,
)
    requires in_range { All (λ event. moment_at event ≤ 2 ^ 53) events.now }
    ensures runs { HasRun O.takes (map (event_of F.envelope_of) events.now) link.old link.new
        outlet.old outlet.new }
{
    for event in events {
        match event {
            Event::Tick(now) => link.tick(*now, outlet),
            Event::Datagram {
                envelope,
                body,
                now,
            } => {
                link.receive(envelope, body, *now, outlet);
            }
        }
    }
}

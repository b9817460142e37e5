//! The receiver of queries.

use mq_count::Key;

/// The parts in which queries of one kind differ. The response time, the robustness variable and the query interval are
/// the same for each query of a kind (RFC 3376 section 4.1, RFC 3810 section 5.1).
#[derive(Drop)]
pub enum QueryParts<'a, K: Key> {
    /// A general query.
    General,
    /// A group-specific query.
    Group {
        /// The group.
        group: K,
        /// The flag Suppress Router-Side Processing.
        suppress: bool,
    },
    /// A group-and-source-specific query.
    Sources {
        /// The group.
        group: K,
        /// The flag Suppress Router-Side Processing.
        suppress: bool,
        /// The sources asked for, ascending, at least one and no more than one message holds.
        sources: &'a [K],
    },
}

/// A receiver of the queries that are sent, in order.
pub trait Sink<K: Key> {
    ghost use Rattle.mq_sched.specs.Sending.{SentQuery};
    ghost use Rattle.mq_sched.specs.Sink.{query_of};

    // The effect of one call: the state before, the query, and the state afterwards.
    ghost takes: { Self → SentQuery → Self → Type 0 };

    /// Takes a query. Returns whether it was passed on; if not, nothing else differs.
    fn send(&mut self, query: QueryParts<'_, K>) -> bool
        ensures { takes self.old (query_of K.number query.entry) self.new };
}

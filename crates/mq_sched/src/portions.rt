//! The sources of one sending, split into messages.

ghost use Rattle.std.specs.Prelude.{◌≡◌, ℕ, ◌<◌, ◌≤◌, List, [], ◌∷◌, ◌++◌, length, map};
ghost use Rattle.arrayvec.specs.ArrayVec.{array_vec_len};
ghost use Rattle.mq_count.specs.Spending.{Spends};
ghost use Rattle.mq_sched.specs.Sending.{SourcesQuery, sources_queries};
ghost use Rattle.mq_sched.specs.Sink.{Sends, SendsOn};
ghost use Rattle.mq_sched.specs.Collected.{goes_with, going_with};

use crate::sinks::{QueryParts, Sink};
use arrayvec::ArrayVec;
use mq_count::{Key, Meter, Moment};
use mq_table::{Source, runs_on};

/// The most sources that a message may hold: those of an IGMP query on an MTU of 1500.
const MOST_PER_QUERY: usize = 366;

/// Sources that are collected for one message, fewer than it holds.
#[derive(Drop)]
struct Collected<K: Key> {
    group: K,
    suppress: bool,
    per_query: usize,
    sources: ArrayVec<K, MOST_PER_QUERY>,
}

impl<K: Key> Collected<K> {
    /// Sends what is collected, and starts the next message.
    fn send<S: Sink<K>>(&mut self, sink: &mut S)
        ensures sent { let query = SourcesQuery (K.number self.old.group) self.old.suppress (map K.number self.old.sources.items) in
            Sends S.takes sink.old (query ∷ []) sink.new }
        ensures parts { self.new ≡ record self.old { sources = self.new.sources } }
        ensures empty { self.new.sources.items ≡ [] }
    {
        sink.send(QueryParts::Sources {
            group: self.group,
            suppress: self.suppress,
            sources: self.sources.as_slice(),
        });
        self.sources.clear();
    }

    /// Collects one more source, and sends what is collected if the message is full.
    fn push<S: Sink<K>>(&mut self, source: K, sink: &mut S)
        requires room { array_vec_len self.old.sources < self.old.per_query }
        requires most { self.old.per_query ≤ 366 }
        ensures sent { let queries = sources_queries self.old.per_query (K.number self.old.group) self.old.suppress in
            (rest : List ℕ) → SendsOn S.takes
            sink.old (queries (map K.number self.old.sources.items ++ (K.number source ∷ rest)))
            sink.new (queries (map K.number self.new.sources.items ++ rest)) }
        ensures parts { self.new ≡ record self.old { sources = self.new.sources } }
        ensures room { array_vec_len self.new.sources < self.old.per_query }
    {
        self.sources.push(source);
        if self.sources.len() == self.per_query {
            self.send(sink);
        }
    }

    /// Sends what is still collected, if there is any.
    fn finish<S: Sink<K>>(mut self, sink: &mut S)
        requires { array_vec_len self.sources < self.per_query }
        ensures { let collected = map K.number self.sources.items in
            Sends S.takes sink.old (sources_queries self.per_query (K.number self.group) self.suppress collected) sink.new }
    {
        if !self.sources.is_empty() {
            self.send(sink);
        }
    }
}

/// Returns whether a source has a retransmission to go with this S flag. It is set if the source's timer is above the
/// limit.
fn goes<K: Key>(source: &Source<K>, suppress: bool, limit: Moment, m: &mut Meter) -> bool
    ensures answer { result ≡ goes_with limit suppress source.now }
    ensures spent { Spends 0 1 m.old m.new }
{
    source.timer.has_retransmissions() && runs_on(source.timer.deadline(), limit, m) == suppress
}

/// Sends the queries for those of a group's sources that go with an S flag.
pub(crate) fn send_sources<K: Key, S: Sink<K>>(
    group: K,
    suppress: bool,
    row: &[Source<K>],
    limit: Moment,
    per_query: usize,
    m: &mut Meter,
    sink: &mut S,
)
    requires holds_one { 0 < per_query }
    requires most { per_query ≤ 366 }
    ensures sent { let going = going_with K.number limit suppress row.now in
        Sends S.takes sink.old (sources_queries per_query (K.number group) suppress going) sink.new }
    ensures spent { Spends 0 (length row.now) m.old m.new }
{
    K::is_small();
    let mut collected = Collected {
        group,
        suppress,
        per_query,
        sources: ArrayVec::new(),
    };
    for source in row {
        if goes(source, suppress, limit, m) {
            collected.push(source.address, sink);
        }
    }
    collected.finish(sink);
}

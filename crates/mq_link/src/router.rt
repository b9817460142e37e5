//! The inside of a link, as one object.

ghost use Rattle.std.specs.Prelude.{◌≡◌, ◌+◌, ◌^◌, ◌<◌, ◌≤◌, IfOk, is_ok};
ghost use Rattle.std.specs.FinMap as map;
ghost use Rattle.std.specs.contracts.vec.Vec as page;
ghost use denote.Builtin.{u16};
ghost use Rattle.mq_arena.specs.Vectors.{Takes};
ghost use Rattle.mq_count.specs.Streams.{counted_on};
ghost use Rattle.mq_link.specs.Counters as counters;
ghost use Rattle.mq_link.specs.Counters.{no_counts};
ghost use Rattle.mq_link.specs.Judging.{verdict_of};
ghost use Rattle.mq_table.specs.Variables.{AreInRange};
ghost use Rattle.mq_sched.specs.Election.{election_at};
ghost use Rattle.mq_link.specs.Configuration.{IsFaultless, IsWithinRoom};
ghost use Rattle.mq_link.specs.Sizes.{bytes_of_link};
ghost use Rattle.mq_link.specs.Sound.{AreSound};
ghost use Rattle.mq_link.specs.State.{sources_in};

use crate::answers::DropReason;
use crate::config::Config;
use crate::counts::Counts;
use crate::family::Family;
use crate::statement::Verdict;
use crate::status::Status;
use crate::storage::Storage;
use mq_arena::VectorSource;
use mq_count::Moment;
use mq_held::HeldGroups;
use mq_sched::Election;
use mq_sets::Memory;
use std::alloc::Allocator;
use std::marker::Model;

/// The changing parts of a link: the router's status, the groups with their storage, and the counters. Its steps are
/// what is due, a received query, a statement and the records of a Report. Each uses a workspace of the caller. A
/// contract sees a `RouterValue`, which a router may have.
#[derive(Drop)]
pub(crate) struct Router<F: Family, A: Allocator> {
    pub(crate) status: Status<F>,
    pub(crate) storage: Storage<F::Address, A>,
    pub(crate) counts: Counts,
}

impl<F: Family, A: Allocator> Model for Router<F, A> {
    ghost use Rattle.mq_table.specs.contracts.timers.FilterMode as filter_mode;
    ghost use Rattle.mq_table.specs.contracts.timers.SourceTimer as source_timer;
    ghost use Rattle.mq_sched.specs.contracts.queries.QuerySchedule as query_schedule;
    ghost use Rattle.mq_link.specs.Router.{RouterValue, router_of, IsStored};
    ghost use Rattle.mq_link.specs.LinkCode.{router_code};

    ghost Value = { RouterValue };

    ghost coded = { router_code filter_mode.the_row.coded source_timer.the_row.coded query_schedule.the_row.coded };

    ghost view = { λ r. router_of r.status r.storage r.counts };

    ghost invariant = { λ r. IsStored r.status r.storage };
}

impl<F: Family, A: Allocator> Router<F, A> {
    /// Returns the router of a link that starts at a moment. Fails with `Memory` if memory is refused.
    pub(crate) fn new<M: VectorSource<A>>(
        memory: &mut M,
        config: Config<F>,
        start: Moment,
    ) -> Result<Router<F, A>, Memory>
        requires in_range { start ≤ 2 ^ 53 }
        ensures router { IfOk result (λ r. r ≡ record {
          at = record { config = config; election = election_at config.timing start; now = start };
          groups = map.empty;
          counters = no_counts;
          spent = 0;
          moved = 0;
          put_by = 0;
        }) }
        ensures memory { Takes (bytes_of_link (page.the_row u16 A.row ⟦<A as Allocator>⟧) F.Address.row config.room) (M.less_than memory.old) (M.less_than memory.new) (is_ok result) }
    {
        config.is_faultless();
        let storage = Storage::with_room(memory, &config.room())?;
        Ok(Router {
            status: Status::new(config, start),
            storage,
            counts: Counts::none(),
        })
    }
}

impl<F: Family, A: Allocator> Router<F, A> {
    /// A lemma: the groups are sound, and a router may have this status. The reserve of moves is at most what packing
    /// the rows moves. It has no effect at run time.
    pub(crate) fn lemma_is_stored(&self)
        ensures put_by { self.now.put_by ≤ sources_in self.now.groups + map.len self.now.groups }
        ensures sound { AreSound self.now.at self.now.groups }
        ensures faultless { IsFaultless self.now.at.config }
        ensures within { IsWithinRoom self.now.at.config }
        ensures family { self.now.at.config.family ≡ F.FAMILY }
        ensures timing { AreInRange self.now.at.election.timing }
        ensures positive { 0 < self.now.at.election.timing.robustness }
        ensures in_range { self.now.at.now ≤ 2 ^ 53 }
    {
        self.status.lemma_is_sound();
    }

    /// Returns its configuration.
    pub(crate) fn config(&self) -> &Config<F>
        ensures { result.now ≡ self.now.at.config }
    {
        self.status.config()
    }

    /// Returns its election.
    pub(crate) fn election(&self) -> &Election<F::Address>
        ensures { result.now.state ≡ self.now.at.election }
    {
        self.status.election()
    }

    /// Returns the groups that it holds.
    pub(crate) fn held(&self) -> &HeldGroups<F::Address, A>
        ensures { result.now.groups ≡ self.now.groups }
    {
        &self.storage.held
    }

    /// Returns its counters.
    pub(crate) fn counts(&self) -> &Counts
        ensures { result.now ≡ self.now.counters }
    {
        &self.counts
    }

    /// Returns its counters, and gives up the router.
    pub(crate) fn into_counts(self) -> Counts
        ensures { result ≡ self.counters }
    {
        self.counts
    }

    /// Returns the number of comparisons that it has made.
    pub(crate) fn spent(&self) -> u64
        ensures { result ≡ self.now.spent }
    {
        self.storage.meter.spent()
    }

    /// Returns the number of items that it has moved to keep its lists.
    pub(crate) fn moved(&self) -> u64
        ensures { result ≡ self.now.moved }
    {
        self.storage.moves.made()
    }

    /// Counts queries that were sent, and queries that were not.
    pub(crate) fn count_answers(&mut self, sent: u64, unsent: u64)
        ensures { self.new ≡ record self.old { counters = record self.old.counters { sent = counted_on self.old.counters.sent sent; unsent = counted_on self.old.counters.unsent unsent } } }
    {
        self.counts.count_answers(sent, unsent);
    }

    /// Counts a datagram that was dropped.
    pub(crate) fn count_dropped(&mut self, reason: DropReason)
        ensures { self.new ≡ record self.old { counters = counters.count_dropped reason self.old.counters } }
    {
        self.counts.count_dropped(reason);
    }

    /// Counts the verdict on a statement.
    pub(crate) fn count_verdict(&mut self, verdict: Verdict)
        ensures { self.new ≡ record self.old { counters = counters.count_verdict (verdict_of verdict) self.old.counters } }
    {
        self.counts.count_verdict(verdict);
    }
}

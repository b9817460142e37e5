//! One link without a workspace of its own.

ghost use Rattle.std.specs.Prelude.{◌≡◌, ℕ, ◌<◌, ◌≤◌, ◌^◌, true, false, [], length, IfOk, IfSome, is_ok, is_some};
ghost use Rattle.std.specs.FinMap as map;
ghost use Rattle.std.specs.contracts.vec.Vec as page;
ghost use denote.Builtin.{u16};
ghost use Rattle.mq_arena.specs.Vectors.{IsSize, Takes};
ghost use Rattle.mq_sets.specs.Ascending.{IsAscending};
ghost use Rattle.mq_table.specs.Stored.{number_in, timers_in};
ghost use Rattle.mq_sched.specs.Election.{is_querier};
ghost use Rattle.mq_sched.specs.StoredElection.{IsOtherOf};
ghost use Rattle.mq_held.specs.Groups.{group_at, sources_of};
ghost use Rattle.mq_held.specs.Places.{HasPlace};
ghost use Rattle.mq_link.specs.CallCosts.{ReceiveCosts, TickCosts};
ghost use Rattle.mq_link.specs.Configuring.{Configures};
ghost use Rattle.mq_link.specs.Storage.{IsGroupAt};
ghost use Rattle.mq_link.specs.Link.{HasTicked, HasReceived, IsUntouched};
ghost use Rattle.mq_link.specs.Sizes.{bytes_of_link};
ghost use Rattle.mq_link.specs.State as state;
ghost use Rattle.mq_link.specs.State.{link_at, IsWellFormed};
ghost use Rattle.mq_link.specs.Tick.{tick_of, next_of};
ghost use Rattle.mq_link.specs.Workspace.{suffices, with_changed};
ghost use Rattle.mq_link.specs.Forwarding.{AreThose, changed_by_datagram, changed_by_tick};

use crate::answers::Received;
use crate::config::Config;
use crate::configuration::ConfigureFault;
use crate::counts::Counts;
use crate::family::Family;
use crate::outlet::QueryOutlet;
use crate::router::Router;
use crate::sender::{QueryTerms, Sender};
use crate::workspace::Workspace;
use mq_arena::{OfAllocator, VectorSource};
use mq_count::{Meter, Moment};
use mq_held::{HeldEntries, HeldGroup, HeldGroups};
use mq_sched::OtherQuerier;
use mq_sets::Memory;
use mq_table::Timing;
use std::alloc::{Allocator, Global};
use std::marker::Model;

/// The error of a call that did nothing. The workspace has room for fewer groups, or for fewer sources of one, than the
/// link's limits allowed when it was made.
#[derive(Clone, Copy)]
pub struct TooSmall;

/// One link of a multicast router, whose calls use a workspace of the caller. Many links may use one in turn. Beside
/// its groups it has no memory that grows with its limits. A contract sees the link of the definitions: its
/// configuration, its state, how many comparisons it has made, and how many items it has moved. `new` allocates the
/// memory of its groups, and no other call allocates.
#[derive(Drop)]
pub struct BareLink<F: Family, A: Allocator = Global> {
    router: Router<F, A>,
}

impl<F: Family, A: Allocator> Model for BareLink<F, A> {
    ghost use Rattle.mq_table.specs.contracts.timers.FilterMode as filter_mode;
    ghost use Rattle.mq_table.specs.contracts.timers.SourceTimer as source_timer;
    ghost use Rattle.mq_sched.specs.contracts.queries.QuerySchedule as query_schedule;
    ghost use Rattle.mq_link.specs.Link.{LinkValue};
    ghost use Rattle.mq_link.specs.LinkCode.{link_code};
    ghost use Rattle.mq_link.specs.Router.{link_of};

    ghost Value = { LinkValue };

    ghost coded = { link_code filter_mode.the_row.coded source_timer.the_row.coded query_schedule.the_row.coded };

    ghost view = { λ l. link_of l.router };
}

impl<F: Family, A: Allocator + Copy> BareLink<F, A> {
    /// Returns a link that starts at `start`, as `Link::new` does. Fails with `Memory` if that of its groups is
    /// refused.
    pub fn new(alloc: A, config: Config<F>, start: Moment) -> Result<BareLink<F, A>, Memory>
        requires in_range { start ≤ 2 ^ 53 }
        ensures { IfOk result (λ link. link ≡ record { config = config; state = link_at config start; spent = 0; moved = 0; changed = [] }) }
    {
        BareLink::new_in(&mut OfAllocator(alloc), config, start)
    }
}

impl<F: Family, A: Allocator> BareLink<F, A> {
    /// Returns the bytes that `new_in` allocates from `memory`, or None if no memory has as many.
    pub fn size(config: &Config<F>) -> Option<usize>
        ensures { IsSize (bytes_of_link (page.the_row u16 A.row ⟦<A as Allocator>⟧) F.Address.row config.now.room) result }
    {
        config.is_faultless();
        let room = config.room();
        HeldGroups::<F::Address, A>::size(room.groups as usize, room.sources as usize)
    }

    /// Returns a link as `new` does, allocated from `memory`. It succeeds if `memory` has `size` bytes for the
    /// configuration.
    pub fn new_in<M: VectorSource<A>>(
        memory: &mut M,
        config: Config<F>,
        start: Moment,
    ) -> Result<BareLink<F, A>, Memory>
        requires in_range { start ≤ 2 ^ 53 }
        ensures link { IfOk result (λ link. link ≡ record { config = config; state = link_at config start; spent = 0; moved = 0; changed = [] }) }
        ensures memory { Takes (bytes_of_link (page.the_row u16 A.row ⟦<A as Allocator>⟧) F.Address.row config.room) (M.less_than memory.old) (M.less_than memory.new) (is_ok result) }
    {
        Ok(BareLink {
            router: Router::new(memory, config, start)?,
        })
    }

    /// Returns whether a workspace has room for the limits with which the link was made.
    pub fn fits<B: Allocator>(&self, workspace: &Workspace<F, B>) -> bool
        ensures { result ≡ suffices self.now.config.room workspace.now }
    {
        workspace.suffices(&self.router.config().room())
    }

    /// Acts like `Link::configure`. The calls of the link need the same room in a workspace as before.
    pub fn configure(&mut self, config: Config<F>) -> Result<(), ConfigureFault>
        ensures configures { Configures config self.old self.new result }
        ensures formed { IsWellFormed self.new.config self.new.state }
    {
        let result = self.router.configure(config);
        self.is_well_formed();
        result
    }

    /// Acts like `Link::tick`, in a workspace of the caller. If that is too small, it does nothing. The content of the
    /// workspace before makes no difference.
    pub fn tick<B: Allocator, O: QueryOutlet<F::Address>>(
        &mut self,
        workspace: &mut Workspace<F, B>,
        now: Moment,
        outlet: &mut O,
    ) -> Result<(), TooSmall>
        requires in_range { now ≤ 2 ^ 53 }
        ensures answer { is_ok result ≡ suffices self.old.config.room workspace.old }
        ensures workspace { workspace.new ≡ with_changed workspace.old workspace.new.changed }
        ensures changed { is_ok result ≡ true → AreThose (changed_by_tick self.old.config now self.old.state) workspace.new.changed }
        ensures unchanged { is_ok result ≡ false → workspace.new ≡ workspace.old }
        ensures ticks { is_ok result ≡ true → HasTicked O.takes now self.old self.new outlet.old outlet.new }
        ensures untouched { is_ok result ≡ false → IsUntouched self.old self.new outlet.old outlet.new }
        ensures config { self.new.config ≡ self.old.config }
        ensures formed { IsWellFormed self.new.config self.new.state }
        ensures later { is_ok result ≡ true → now < next_of self.new.state }
        ensures costs { TickCosts (is_ok result) now self.old self.new }
    {
        self.is_well_formed();
        if self.fits(workspace) {
            self.tick_in(workspace, now, outlet);
            Ok(())
        } else {
            Err(TooSmall)
        }
    }

    /// Acts like `Link::receive`, in a workspace of the caller. If that is too small, it does nothing. The content of
    /// the workspace before makes no difference.
    pub fn receive<B: Allocator, O: QueryOutlet<F::Address>>(
        &mut self,
        workspace: &mut Workspace<F, B>,
        envelope: &F::Envelope,
        body: &[u8],
        now: Moment,
        outlet: &mut O,
    ) -> Result<Received, TooSmall>
        requires in_range { now ≤ 2 ^ 53 }
        ensures answer { is_ok result ≡ suffices self.old.config.room workspace.old }
        ensures workspace { workspace.new ≡ with_changed workspace.old workspace.new.changed }
        ensures changed { is_ok result ≡ true →
            AreThose (changed_by_datagram self.old.config (F.envelope_of envelope.now) body.now now self.old.state) workspace.new.changed }
        ensures unchanged { is_ok result ≡ false → workspace.new ≡ workspace.old }
        ensures receives { IfOk result (λ received. HasReceived O.takes (F.envelope_of envelope.now) body.now now received self.old self.new
            outlet.old outlet.new) }
        ensures untouched { is_ok result ≡ false → IsUntouched self.old self.new outlet.old outlet.new }
        ensures config { self.new.config ≡ self.old.config }
        ensures formed { IsWellFormed self.new.config self.new.state }
        ensures costs { ReceiveCosts (is_ok result) (F.envelope_of envelope.now) body.now now self.old self.new }
    {
        self.is_well_formed();
        if self.fits(workspace) {
            Ok(self.receive_in(workspace, envelope, body, now, outlet))
        } else {
            Err(TooSmall)
        }
    }

    /// Handles a tick, in a workspace that suffices.
    pub(crate) fn tick_in<B: Allocator, O: QueryOutlet<F::Address>>(
        &mut self,
        workspace: &mut Workspace<F, B>,
        now: Moment,
        outlet: &mut O,
    )
        requires in_range { now ≤ 2 ^ 53 }
        requires enough { suffices self.old.config.room workspace.old ≡ true }
        ensures workspace { workspace.new ≡ with_changed workspace.old workspace.new.changed }
        ensures changed { AreThose (changed_by_tick self.old.config now self.old.state) workspace.new.changed }
        ensures config { self.new.config ≡ self.old.config }
        ensures ticks { HasTicked O.takes now self.old self.new outlet.old outlet.new }
        ensures formed { IsWellFormed self.new.config self.new.state }
        ensures later { now < next_of self.new.state }
        ensures costs { TickCosts true now self.old self.new }
    {
        self.is_well_formed();
        self.router.lemma_is_stored();
        let mut terms = QueryTerms::of(self.router.config());
        let mut sender = Sender::new(&mut terms, outlet);
        self.router.come_to(workspace, now, &mut sender);
        self.router.count_answers(sender.sent(), sender.unsent());
        self.is_well_formed();
    }

    /// Handles a datagram, in a workspace that suffices.
    pub(crate) fn receive_in<B: Allocator, O: QueryOutlet<F::Address>>(
        &mut self,
        workspace: &mut Workspace<F, B>,
        envelope: &F::Envelope,
        body: &[u8],
        now: Moment,
        outlet: &mut O,
    ) -> Received
        requires in_range { now ≤ 2 ^ 53 }
        requires enough { suffices self.old.config.room workspace.old ≡ true }
        ensures workspace { workspace.new ≡ with_changed workspace.old workspace.new.changed }
        ensures changed { AreThose (changed_by_datagram self.old.config (F.envelope_of envelope.now) body.now now self.old.state) workspace.new.changed }
        ensures config { self.new.config ≡ self.old.config }
        ensures receives { HasReceived O.takes (F.envelope_of envelope.now) body.now now result self.old self.new
            outlet.old outlet.new }
        ensures formed { IsWellFormed self.new.config self.new.state }
        ensures costs { ReceiveCosts true (F.envelope_of envelope.now) body.now now self.old self.new }
    {
        let mut terms = QueryTerms::of(self.router.config());
        let mut sender = Sender::new(&mut terms, outlet);
        let answer = self
            .router
            .receive(workspace, envelope, body, now, &mut sender);
        self.is_well_formed();
        answer
    }

    /// Returns the link's configuration.
    pub fn config(&self) -> &Config<F>
        ensures { result.now ≡ self.now.config }
    {
        self.router.config()
    }

    /// A lemma: a link may be in this state, and after a tick its next moment is later than that of the tick. It has no
    /// effect at run time.
    pub fn is_well_formed(&self)
        ensures formed { IsWellFormed self.now.config self.now.state }
        ensures later { (now : ℕ) → now < next_of (tick_of self.now.config now self.now.state).state }
    {
        self.router.lemma_is_stored();
    }

    /// Returns the link's counters, and gives up the link.
    pub fn into_counts(self) -> Counts
        ensures { result ≡ self.state.counters }
    {
        self.router.into_counts()
    }

    /// Returns the link's counters.
    pub fn counts(&self) -> &Counts
        ensures { result.now ≡ self.now.state.counters }
    {
        self.router.counts()
    }

    /// Returns the number of comparisons that `tick` and `receive` have made. It stays at the greatest u64.
    pub fn spent(&self) -> u64
        ensures { result ≡ self.now.spent }
    {
        self.router.spent()
    }

    /// Returns the number of list items that `tick` and `receive` have moved to keep the groups. It stays at the
    /// greatest u64.
    pub fn moved(&self) -> u64
        ensures { result ≡ self.now.moved }
    {
        self.router.moved()
    }

    /// Returns whether the router is querier (RFC 3376 section 6.6.2, RFC 3810 section 7.6.2).
    pub fn is_querier(&self) -> bool
        ensures { result ≡ is_querier self.now.state.election.role }
    {
        self.router.election().is_querier()
    }

    /// Returns the other router that is querier, or None if this one is. It is the router of a lower address whose
    /// query came last.
    pub fn other_querier(&self) -> Option<OtherQuerier<F::Address>>
        ensures { IsOtherOf F.Address.number self.now.state.election.role result }
    {
        self.router.election().other_querier()
    }

    /// Returns the timing in force. It is the configured one, except for what was adopted from the queries of other
    /// routers (RFC 3376 sections 4.1.6 and 4.1.7, RFC 3810 sections 5.1.8 and 5.1.9).
    pub fn timing(&self) -> Timing
        ensures { result ≡ self.now.state.election.timing }
    {
        self.router.election().timing()
    }

    /// Returns all held groups by ascending address, each as it is stored.
    pub fn entries(&self) -> HeldEntries<'_, F::Address, A>
        ensures { result ≡ map.entries self.now.state.groups }
    {
        self.router.held().entries()
    }

    /// Returns the number of held groups.
    pub fn len(&self) -> usize
        ensures { result ≡ map.len self.now.state.groups }
    {
        self.router.held().len()
    }

    /// Returns the group at a place, as it is stored. Its place is its rank in the ascending list of the addresses of
    /// all groups, counted from 0.
    pub fn entry(&self, place: usize) -> HeldGroup<'_, F::Address>
        requires place { place < map.len self.now.state.groups }
        ensures place { HasPlace self.now.state.groups (F.Address.number result.address) place }
        ensures group { (address : ℕ) → HasPlace self.now.state.groups address place →
            record { group = record { mode = result.mode; sources = timers_in F.Address.number result.sources.now; v1 = result.v1; v2 = result.v2 }; schedule = result.schedule } ≡ group_at self.now.state.groups address }
        ensures ascending { IsAscending (number_in F.Address.number) result.sources.now }
        ensures len { (address : ℕ) → HasPlace self.now.state.groups address place →
            length result.sources.now ≡ sources_of (group_at self.now.state.groups address) }
    {
        self.router.held().entry(place)
    }

    /// Returns a group as it is stored, or None if it isn't held. It compares addresses on a meter of its own: neither
    /// `spent` nor the bound counts that.
    pub fn find(&self, group: F::Address) -> Option<HeldGroup<'_, F::Address>>
        ensures held { is_some result ≡ map.contains_key self.now.state.groups (F.Address.number group) }
        ensures found { IfSome result (IsGroupAt F.Address.number self.now.state.groups (F.Address.number group)) }
    {
        let held = self.router.held();
        held.lemma_is_numbered();
        match held.find(group, &mut Meter::new()) {
            Ok(number) => Some(held.entry_of(number)),
            Err(_) => None,
        }
    }

    /// Returns the next moment at which a tick has something to do: the earliest of all deadlines and due moments. It
    /// compares two moments on a meter of its own: neither `spent` nor the bound counts that.
    pub fn next_deadline(&self) -> Moment
        ensures { result ≡ next_of self.now.state }
    {
        let next = self.router.election().next_moment();
        match self.router.held().earliest() {
            None => next,
            Some(earliest) => Meter::new().earlier(next, earliest),
        }
    }

    /// Returns whether a group forwards what a source sends, at the last moment that was given. RFC 3376 section 6.3,
    /// RFC 3810 section 7.3. It compares addresses on a meter of its own: neither `spent` nor the bound counts that.
    pub fn forwards(&self, group: F::Address, source: F::Address) -> bool
        ensures { result ≡ state.forwards self.now.state (F.Address.number group) (F.Address.number source) }
    {
        let mut m = Meter::new();
        let held = self.router.held();
        match held.find(group, &mut m) {
            Ok(number) => held.entry_of(number).forwards(source, &mut m),
            Err(_) => false,
        }
    }
}

//! One link with a workspace of its own.

ghost use Rattle.std.specs.Prelude.{◌≡◌, ℕ, ◌+◌, ◌*◌, ◌<◌, ◌≤◌, ◌^◌, [], length, true, map as map_each, IfOk, IfSome, is_ok, is_some};
ghost use Rattle.std.specs.FinMap as map;
ghost use Rattle.std.specs.contracts.vec.Vec as page;
ghost use denote.Builtin.{u16};
ghost use Rattle.mq_arena.specs.Vectors.{IsSize, Takes};
ghost use Rattle.mq_sets.specs.Ascending.{IsAscending};
ghost use Rattle.mq_table.specs.Stored.{number_in, timers_in};
ghost use Rattle.mq_sched.specs.Election.{is_querier};
ghost use Rattle.mq_sched.specs.StoredElection.{IsOtherOf};
ghost use Rattle.mq_held.specs.Groups.{group_at, sources_of};
ghost use Rattle.mq_held.specs.Places.{HasPlace};
ghost use Rattle.mq_link.specs.CallCosts.{ReceiveCosts, TickCosts};
ghost use Rattle.mq_link.specs.Configuring.{Configures};
ghost use Rattle.mq_link.specs.Storage.{IsGroupAt};
ghost use Rattle.mq_link.specs.Forwarding.{AreThose, changed_by_datagram, changed_by_tick};
ghost use Rattle.mq_link.specs.Link.{HasTicked, HasReceived};
ghost use Rattle.mq_link.specs.Sizes.{bytes_of_link, bytes_of_workspace};
ghost use Rattle.mq_link.specs.State as state;
ghost use Rattle.mq_link.specs.State.{link_at, IsWellFormed};
ghost use Rattle.mq_link.specs.Tick.{tick_of, next_of};

use crate::answers::Received;
use crate::bare_link::BareLink;
use crate::config::Config;
use crate::configuration::ConfigureFault;
use crate::counts::Counts;
use crate::family::Family;
use crate::outlet::QueryOutlet;
use crate::workspace::Workspace;
use mq_arena::{OfAllocator, VectorSource, both_sizes};
use mq_count::Moment;
use mq_held::{HeldEntries, HeldGroup};
use mq_sched::OtherQuerier;
use mq_sets::Memory;
use mq_table::Timing;
use std::alloc::{Allocator, Global};
use std::marker::Model;

/// One link of a multicast router with a workspace of its own. A contract sees the link of the definitions: its
/// configuration, its state, how many comparisons it has made, and how many items it has moved. `new` allocates all
/// storage, and no other call allocates.
#[derive(Drop)]
pub struct Link<F: Family, A: Allocator = Global> {
    bare: BareLink<F, A>,
    workspace: Workspace<F, A>,
}

impl<F: Family, A: Allocator> Model for Link<F, A> {
    ghost use Rattle.std.specs.Prelude.{◌≡◌, true};
    ghost use Rattle.mq_table.specs.contracts.timers.FilterMode as filter_mode;
    ghost use Rattle.mq_table.specs.contracts.timers.SourceTimer as source_timer;
    ghost use Rattle.mq_sched.specs.contracts.queries.QuerySchedule as query_schedule;
    ghost use Rattle.mq_link.specs.Link.{LinkValue};
    ghost use Rattle.mq_link.specs.LinkCode.{link_code};
    ghost use Rattle.mq_link.specs.Workspace.{suffices};

    ghost Value = { LinkValue };

    ghost coded = { link_code filter_mode.the_row.coded source_timer.the_row.coded query_schedule.the_row.coded };

    ghost view = { λ l. record l.bare { changed = l.workspace.changed } };

    ghost invariant = { λ l. (suffices l.bare.config.room l.workspace ≡ true) × (l.workspace.groups ≡ l.bare.config.room.groups) };
}

impl<F: Family, A: Allocator + Copy> Link<F, A> {
    /// Returns a link that starts at `start`: nothing is held, and it is querier, with its first general query due. RFC
    /// 3376 section 8.7, RFC 3810 section 9.7. It allocates all memory that its limits allow, or fails with `Memory` if
    /// that is refused. Only `new` can run out of memory.
    pub fn new(alloc: A, config: Config<F>, start: Moment) -> Result<Link<F, A>, Memory>
        requires in_range { start ≤ 2 ^ 53 }
        ensures { IfOk result (λ link. link ≡ record { config = config; state = link_at config start; spent = 0; moved = 0; changed = [] }) }
    {
        Link::new_in(&mut OfAllocator(alloc), config, start)
    }
}

impl<F: Family, A: Allocator> Link<F, A> {
    /// Returns the bytes that `new_in` allocates from `memory`, or None if no memory has as many.
    pub fn size(config: &Config<F>) -> Option<usize>
        ensures { IsSize (bytes_of_workspace F.Address.row config.now.room + bytes_of_link (page.the_row u16 A.row ⟦<A as Allocator>⟧) F.Address.row config.now.room) result }
    {
        both_sizes(
            Workspace::<F, A>::size(&config.room()),
            BareLink::<F, A>::size(config),
        )
    }

    /// Returns a link as `new` does, allocated from `memory`. It succeeds if `memory` has `size` bytes for the
    /// configuration.
    pub fn new_in<M: VectorSource<A>>(
        memory: &mut M,
        config: Config<F>,
        start: Moment,
    ) -> Result<Link<F, A>, Memory>
        requires in_range { start ≤ 2 ^ 53 }
        ensures link { IfOk result (λ link. link ≡ record { config = config; state = link_at config start; spent = 0; moved = 0; changed = [] }) }
        ensures memory { Takes (bytes_of_workspace F.Address.row config.room + bytes_of_link (page.the_row u16 A.row ⟦<A as Allocator>⟧) F.Address.row config.room) (M.less_than memory.old) (M.less_than memory.new) (is_ok result) }
    {
        let workspace = Workspace::with_room_in(memory, &config.room())?;
        Ok(Link {
            bare: BareLink::new_in(memory, config, start)?,
            workspace,
        })
    }

    /// Handles what is due at or before `now`; a moment before the last one counts as the last one.
    ///
    /// In this order timers end, the other querier's deadline ends, the general query is sent if it is due, and the
    /// queries that are due for the groups are sent. However late the call is, each query is sent once. Afterwards
    /// `next_deadline()` is later than `now`. RFC 3376 sections 6.5, 6.6.2 and 6.6.3, RFC 3810 sections 7.5, 7.6.2 and
    /// 7.6.3.
    pub fn tick<O: QueryOutlet<F::Address>>(&mut self, now: Moment, outlet: &mut O)
        requires in_range { now ≤ 2 ^ 53 }
        ensures config { self.new.config ≡ self.old.config }
        ensures changed { AreThose (changed_by_tick self.old.config now self.old.state) self.new.changed }
        ensures ticks { HasTicked O.takes now self.old self.new outlet.old outlet.new }
        ensures formed { IsWellFormed self.new.config self.new.state }
        ensures later { now < next_of self.new.state }
        ensures costs { TickCosts true now self.old self.new }
    {
        self.bare.tick_in(&mut self.workspace, now, outlet);
    }

    /// Receives a datagram that came at `now`, and returns its result.
    ///
    /// First it does what a tick does then. Then the datagram is read, and dropped or taken. The envelope has the facts
    /// of its packet, and `body` has its bytes without the IP header. The bounds hold whatever its records are. RFC
    /// 3376 sections 4, 6.4 and 7.3.2, RFC 3810 sections 5, 7.4 and 8.3.2.
    pub fn receive<O: QueryOutlet<F::Address>>(
        &mut self,
        envelope: &F::Envelope,
        body: &[u8],
        now: Moment,
        outlet: &mut O,
    ) -> Received
        requires in_range { now ≤ 2 ^ 53 }
        ensures config { self.new.config ≡ self.old.config }
        ensures changed { AreThose (changed_by_datagram self.old.config (F.envelope_of envelope.now) body.now now self.old.state) self.new.changed }
        ensures receives { HasReceived O.takes (F.envelope_of envelope.now) body.now now result self.old self.new
            outlet.old outlet.new }
        ensures formed { IsWellFormed self.new.config self.new.state }
        ensures costs { ReceiveCosts true (F.envelope_of envelope.now) body.now now self.old self.new }
    {
        self.bare
            .receive_in(&mut self.workspace, envelope, body, now, outlet)
    }

    /// Sets other variables, limits, own address and treatment of the source-specific range. A call that is refused
    /// changes nothing.
    ///
    /// Groups, timers and schedules stay, and later actions use the new values. A variable that changes is in force at
    /// once, until a query of another router announces another value. A querier stays querier, and its next general
    /// query is due at most one query interval later. If the other querier's address is not lower than a new own one,
    /// this router is querier at once. Afterwards `next_deadline()` may be earlier than before. RFC 3376 sections 6.6.2
    /// and 8, RFC 3810 sections 7.6.2 and 9.
    ///
    /// It is refused if a limit exceeds that with which the link was made, or is below what is held. It looks at each
    /// group once, and neither `spent` nor `moved` counts that.
    pub fn configure(&mut self, config: Config<F>) -> Result<(), ConfigureFault>
        ensures configures { Configures config self.old self.new result }
        ensures formed { IsWellFormed self.new.config self.new.state }
    {
        self.bare.configure(config)
    }

    /// Returns the link's configuration.
    pub fn config(&self) -> &Config<F>
        ensures { result.now ≡ self.now.config }
    {
        self.bare.config()
    }

    /// A lemma: a link may be in this state, and after a tick its next moment is later than that of the tick. It has no
    /// effect at run time.
    pub fn is_well_formed(&self)
        ensures formed { IsWellFormed self.now.config self.now.state }
        ensures later { (now : ℕ) → now < next_of (tick_of self.now.config now self.now.state).state }
    {
        self.bare.is_well_formed();
    }

    /// Returns the link's counters, and gives up the link.
    pub fn into_counts(self) -> Counts
        ensures { result ≡ self.state.counters }
    {
        self.bare.into_counts()
    }

    /// Returns the link's counters.
    pub fn counts(&self) -> &Counts
        ensures { result.now ≡ self.now.state.counters }
    {
        self.bare.counts()
    }

    /// Returns the number of comparisons that `tick` and `receive` have made. It stays at the greatest u64.
    pub fn spent(&self) -> u64
        ensures { result ≡ self.now.spent }
    {
        self.bare.spent()
    }

    /// Returns the number of list items that `tick` and `receive` have moved to keep the groups. It stays at the
    /// greatest u64.
    pub fn moved(&self) -> u64
        ensures { result ≡ self.now.moved }
    {
        self.bare.moved()
    }

    /// Returns whether the router is querier (RFC 3376 section 6.6.2, RFC 3810 section 7.6.2).
    pub fn is_querier(&self) -> bool
        ensures { result ≡ is_querier self.now.state.election.role }
    {
        self.bare.is_querier()
    }

    /// Returns the other router that is querier, or None if this one is. It is the router of a lower address whose
    /// query came last.
    pub fn other_querier(&self) -> Option<OtherQuerier<F::Address>>
        ensures { IsOtherOf F.Address.number self.now.state.election.role result }
    {
        self.bare.other_querier()
    }

    /// Returns the timing in force. It is the configured one, except for what was adopted from the queries of other
    /// routers (RFC 3376 sections 4.1.6 and 4.1.7, RFC 3810 sections 5.1.8 and 5.1.9).
    pub fn timing(&self) -> Timing
        ensures { result ≡ self.now.state.election.timing }
    {
        self.bare.timing()
    }

    /// Returns all held groups by ascending address, each as it is stored.
    pub fn entries(&self) -> HeldEntries<'_, F::Address, A>
        ensures { result ≡ map.entries self.now.state.groups }
    {
        self.bare.entries()
    }

    /// Returns the number of held groups.
    pub fn len(&self) -> usize
        ensures { result ≡ map.len self.now.state.groups }
    {
        self.bare.len()
    }

    /// Returns the group at a place, as it is stored. Its place is its rank in the ascending list of the addresses of
    /// all groups, counted from 0.
    pub fn entry(&self, place: usize) -> HeldGroup<'_, F::Address>
        requires place { place < map.len self.now.state.groups }
        ensures place { HasPlace self.now.state.groups (F.Address.number result.address) place }
        ensures group { (address : ℕ) → HasPlace self.now.state.groups address place →
            record { group = record { mode = result.mode; sources = timers_in F.Address.number result.sources.now; v1 = result.v1; v2 = result.v2 }; schedule = result.schedule } ≡ group_at self.now.state.groups address }
        ensures ascending { IsAscending (number_in F.Address.number) result.sources.now }
        ensures len { (address : ℕ) → HasPlace self.now.state.groups address place →
            length result.sources.now ≡ sources_of (group_at self.now.state.groups address) }
    {
        self.bare.entry(place)
    }

    /// Returns a group as it is stored, or None if it isn't held. It compares addresses on a meter of its own: neither
    /// `spent` nor the bound counts that.
    pub fn find(&self, group: F::Address) -> Option<HeldGroup<'_, F::Address>>
        ensures held { is_some result ≡ map.contains_key self.now.state.groups (F.Address.number group) }
        ensures found { IfSome result (IsGroupAt F.Address.number self.now.state.groups (F.Address.number group)) }
    {
        self.bare.find(group)
    }

    /// Returns the addresses of the groups that the last `tick` or `receive` has changed, ascending. Their filter is
    /// another after the tick, or after one of the datagram's records, than before it (RFC 3376 section 6.3, RFC 3810
    /// section 7.3). A refreshed timer changes nothing. There are at most twice as many as groups may be held: those
    /// that the tick ended, and those that records made.
    pub fn changed(&self) -> &[F::Address]
        ensures changed { map_each F.Address.number result.now ≡ self.now.changed }
        ensures few { length result.now ≤ 2 * self.now.config.room.groups }
    {
        self.workspace.changed()
    }

    /// Returns the next moment at which a tick has something to do: the earliest of all deadlines and due moments. It
    /// compares two moments on a meter of its own: neither `spent` nor the bound counts that.
    pub fn next_deadline(&self) -> Moment
        ensures { result ≡ next_of self.now.state }
    {
        self.bare.next_deadline()
    }

    /// Returns whether a group forwards what a source sends, at the last moment that was given. RFC 3376 section 6.3,
    /// RFC 3810 section 7.3. It compares addresses on a meter of its own: neither `spent` nor the bound counts that.
    pub fn forwards(&self, group: F::Address, source: F::Address) -> bool
        ensures { result ≡ state.forwards self.now.state (F.Address.number group) (F.Address.number source) }
    {
        self.bare.forwards(group, source)
    }
}

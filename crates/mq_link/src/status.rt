//! The status of a router at a moment: its configuration, the querier, and the timing in force.

ghost use Rattle.std.specs.Prelude.{◌≡◌, ◌^◌, ◌<◌, ◌≤◌, ◌∷◌, [], if◌then◌else◌, IfSome};
ghost use Rattle.mq_count.specs.Spending.{Spends};
ghost use Rattle.mq_sched.specs.Announcement.{IsCarried};
ghost use Rattle.mq_sched.specs.Election.{election_at, general_messages, heard, is_querier, loses_role, reconfigured, ticked};
ghost use Rattle.mq_sched.specs.Sending.{GeneralQuery};
ghost use Rattle.mq_table.specs.Variables.{AreInRange};
ghost use Rattle.mq_link.specs.Configuration.{IsFaultless, IsWithinRoom};
ghost use Rattle.mq_link.specs.Configuring.{config_after};
ghost use Rattle.mq_link.specs.Handing.{KeepsIntervals};

use crate::config::Config;
use crate::family::Family;
use mq_count::{Meter, Moment};
use mq_sched::{Announced, Election};
use mq_table::Timing;
use std::marker::Model;

/// The moment, the timing in force, and whether the router is querier.
#[derive(Clone, Copy)]
pub(crate) struct QuerierContext {
    pub(crate) moment: Moment,
    pub(crate) timing: Timing,
    pub(crate) is_querier: bool,
}

/// The configuration of a router, its election, and the last moment that was given. A contract sees the `Setting` of
/// the definitions. Every status has a configuration without faults, and an election of that configuration.
#[derive(Drop)]
pub(crate) struct Status<F: Family> {
    config: Config<F>,
    election: Election<F::Address>,
    moment: Moment,
}

impl<F: Family> Model for Status<F> {
    ghost use Rattle.mq_link.specs.Record.{Setting};

    ghost Value = { Setting };

    ghost use Rattle.mq_link.specs.Status.{IsStatus};

    ghost view = { λ s. record { config = s.config; election = s.election.state; now = s.moment } };

    ghost invariant = { λ s. IsStatus F.FAMILY s.config s.election s.moment };
}

impl<F: Family> Status<F> {
    /// Returns the status of a router that starts at a moment: it is querier.
    pub(crate) fn new(config: Config<F>, start: Moment) -> Status<F>
        requires in_range { start ≤ 2 ^ 53 }
        ensures { result ≡ record { config = config; election = election_at config.timing start; now = start } }
    {
        config.is_faultless();
        let election = Election::new(config.own(), config.timing(), start);
        Status {
            config,
            election,
            moment: start,
        }
    }

    /// A lemma: the configuration has no fault and is of the family, and the timing in force is in range. It has no
    /// effect at run time.
    pub(crate) fn lemma_is_sound(&self)
        ensures faultless { IsFaultless self.now.config }
        ensures within { IsWithinRoom self.now.config }
        ensures family { self.now.config.family ≡ F.FAMILY }
        ensures timing { AreInRange self.now.election.timing }
        ensures positive { 0 < self.now.election.timing.robustness }
        ensures intervals { KeepsIntervals self.now.config.timing self.now.election.timing }
        ensures in_range { self.now.now ≤ 2 ^ 53 }
    {
        let _moment = self.moment;
    }

    /// Sets another configuration, for the memory that the link has.
    pub(crate) fn configure(&mut self, config: Config<F>)
        requires within { IsWithinRoom (config_after self.old.config config) }
        ensures { self.new ≡ record self.old {
          config = config_after self.old.config config;
          election = reconfigured self.old.config.timing config.timing config.own self.old.now self.old.election;
        } }
    {
        config.is_faultless();
        self.lemma_is_sound();
        self.election
            .configure(config.own(), config.timing(), self.moment);
        self.config = config.with_room(self.config.room());
    }

    /// Returns the configuration.
    pub(crate) fn config(&self) -> &Config<F>
        ensures { result.now ≡ self.now.config }
    {
        &self.config
    }

    /// Returns the election.
    pub(crate) fn election(&self) -> &Election<F::Address>
        ensures { result.now.state ≡ self.now.election }
    {
        &self.election
    }

    /// Returns the last moment that was given.
    pub(crate) fn moment(&self) -> Moment
        ensures { result ≡ self.now.now }
    {
        self.moment
    }

    /// Returns the moment, the timing in force, and whether the router is querier.
    pub(crate) fn in_force(&self) -> QuerierContext
        ensures in_force { result ≡ record {
          moment = self.now.now;
          timing = self.now.election.timing;
          is_querier = is_querier self.now.election.role;
        } }
        ensures in_range { result.moment ≤ 2 ^ 53 }
    {
        QuerierContext {
            moment: self.moment,
            timing: self.election.timing(),
            is_querier: self.election.is_querier(),
        }
    }

    /// Handles a moment: what ends then of the election ends. Returns whether a general query is due.
    pub(crate) fn tick(&mut self, now: Moment, m: &mut Meter) -> bool
        requires in_range { now ≤ 2 ^ 53 }
        ensures ticked { self.new ≡ record self.old { election = ticked self.old.config.timing now self.old.election; now = now } }
        ensures sent { general_messages self.old.config.timing now self.old.election ≡ (if result then GeneralQuery ∷ [] else []) }
        ensures spent { Spends 1 1 m.old m.new }
    {
        self.config.is_faultless();
        self.moment = now;
        self.election.tick(now, m)
    }

    /// Handles a query from another router in the election. Returns whether this router loses the role by it.
    pub(crate) fn hear(
        &mut self,
        source: F::Address,
        announced: Option<Announced>,
        m: &mut Meter,
    ) -> bool
        requires carried { IfSome announced IsCarried }
        ensures heard { self.new ≡ record self.old { election = heard self.old.config.timing self.old.config.own self.old.now (F.Address.number source) announced self.old.election } }
        ensures lost { result ≡ loses_role self.old.config.own (F.Address.number source) self.old.election.role }
        ensures spent { Spends 1 1 m.old m.new }
    {
        self.config.is_faultless();
        self.election.hear(source, announced, self.moment, m)
    }
}

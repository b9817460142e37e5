//! Changes of hosts after which some querier sends a query, or sends it no more.

ghost use Rattle.std.specs.Prelude.{◌≡◌, ◌==◌, ◌||◌, flat_map, map as list_map};
ghost use Rattle.mq_check.specs.declared.asked.Asked.TheVariants.{Source};
ghost use Rattle.mq_check.specs.Causes as causes;
ghost use Rattle.mq_check.specs.Checking as spec;
ghost use Rattle.mq_check.specs.Numbered.{numbered_asked};
ghost use Rattle.mq_check.specs.Queries.{specific_terms};

use crate::asked::Asked;
use crate::checked_family::CheckedFamily;
use crate::checking::Checking;
use crate::terms::specific_terms;
use mq_count::Moment;
use mq_lines::LineKey;
use mq_link::{Config, Family};
use mq_table::Timing;
use mq_wire::{Message, Records, Sources};
use std::alloc::Allocator;

/// The types of records that change a group (RFC 3376 section 4.2.12, RFC 3810 section 5.2.12).
const IS_EX: u8 = 2;

const TO_IN: u8 = 3;

const TO_EX: u8 = 4;

const BLOCK: u8 = 6;

/// Returns whether a querier may ask for the sources of a record.
fn is_blocking(kind: u8) -> bool
    ensures { result ≡ (kind == 6 || kind == 4) }
{
    kind == BLOCK || kind == TO_EX
}

/// The circumstances of a change: the configuration, the timing in force, the moment and the number of the packet.
#[derive(Drop)]
pub(crate) struct Changed<'a, F: Family> {
    pub(crate) config: &'a Config<F>,
    pub(crate) in_force: Timing,
    pub(crate) moment: Moment,
    pub(crate) packet: u64,
}

impl<F: CheckedFamily, A: Allocator> Checking<F, A>
where
    F::Address: LineKey,
{
    /// Handles the changes in a datagram of a host. The link drops a datagram if its packet has a fault.
    #[tactic(auto, unfolding(crate::specs::Causes::causes_spelled))]
    pub(crate) fn change_all(&mut self, at: &Changed<'_, F>, envelope: &F::Envelope, body: &[u8])
        ensures { self.new ≡ spec.all_changed at.now.moment (specific_terms at.now.config.now at.now.in_force at.now.packet)
            (causes.causes_in F.FAMILY (record { envelope = F.envelope_of envelope.now; body = body.now })) self.old }
    {
        if F::envelope_fault(envelope).is_some() {
            return;
        }
        match F::read(envelope, body) {
            Ok(Message::Report(records)) => self.change_records(at, records),
            Ok(Message::Leave(group)) => self.change_by(at, TO_IN, group, Sources::lent(&[])),
            Ok(Message::OldReport(_, group)) => {
                self.change_by(at, IS_EX, group, Sources::lent(&[]));
            }
            _ => {}
        }
    }

    /// Handles a change that a querier may answer with a query on a subject, which is this group or belongs to it.
    fn change(&mut self, at: &Changed<'_, F>, group: F::Address, asked: Asked<F::Address>)
        requires of_group { F.Address.number group ≡ spec.group_of (numbered_asked F.Address.number asked) }
        ensures { self.new ≡ spec.one_changed at.now.moment (specific_terms at.now.config.now at.now.in_force at.now.packet) self.old (numbered_asked F.Address.number asked) }
    {
        let terms = specific_terms(at.config, at.in_force, at.packet, group);
        self.forget(at.moment);
        self.schedules.change(at.moment, terms, asked);
    }

    /// Handles the changes in records.
    fn change_records(&mut self, at: &Changed<'_, F>, records: Records<'_, F::Address>)
        ensures { self.new ≡ spec.all_changed at.now.moment (specific_terms at.now.config.now at.now.in_force at.now.packet)
            (flat_map (causes.causes_by F.FAMILY) records.entry) self.old }
    {
        for view in records {
            self.change_by(at, view.kind, view.group, view.sources);
        }
    }

    /// Handles the changes in a record, unless hosts never report its group.
    fn change_by(
        &mut self,
        at: &Changed<'_, F>,
        kind: u8,
        group: F::Address,
        sources: Sources<'_, F::Address>,
    )
        ensures { self.new ≡ spec.all_changed at.now.moment (specific_terms at.now.config.now at.now.in_force at.now.packet)
            (causes.causes_if F.FAMILY kind (F.Address.number group) sources.entry) self.old }
    {
        if !F::is_admitted(group) {
            return;
        }
        if is_blocking(kind) {
            self.change_sources(at, group, sources);
            self.change_all_sources(at, group);
        } else if kind == TO_IN {
            self.change(at, group, Asked::Group(group));
            self.change_all_sources(at, group);
        } else if kind == IS_EX {
            self.change_all_sources(at, group);
        }
    }

    /// Handles a change of all sources of a group.
    fn change_all_sources(&mut self, at: &Changed<'_, F>, group: F::Address)
        ensures { self.new ≡ spec.one_changed at.now.moment (specific_terms at.now.config.now at.now.in_force at.now.packet) self.old (Source (F.Address.number group) 0) }
    {
        self.change(at, group, Asked::Source(group, F::unspecified()));
    }

    /// Handles the change of some sources of a group.
    fn change_sources(
        &mut self,
        at: &Changed<'_, F>,
        group: F::Address,
        sources: Sources<'_, F::Address>,
    )
        ensures { self.new ≡ spec.all_changed at.now.moment (specific_terms at.now.config.now at.now.in_force at.now.packet)
            (list_map (Source (F.Address.number group)) sources.entry) self.old }
    {
        for source in sources {
            self.change(at, group, Asked::Source(group, source));
        }
    }
}

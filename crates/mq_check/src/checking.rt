//! A check's treatment of queries, in order.

ghost use Rattle.std.specs.Prelude.{◌≡◌, ◌≤◌, ◌^◌, IfOk, IfSome, is_ok, flat_map};
ghost use Rattle.mq_arena.specs.Vectors.{Takes};
ghost use Rattle.mq_text.specs.Printing.{output_of};
ghost use Rattle.mq_check.specs.Checking as spec;
ghost use Rattle.mq_check.specs.General.{phase_again, silence_up_to};
ghost use Rattle.mq_check.specs.Queries as queries;
ghost use Rattle.mq_check.specs.Refused.{is_crowded};
ghost use Rattle.mq_check.specs.Schedules.{recent};
ghost use Rattle.mq_check.specs.Sizes.{bytes_of_checking};
ghost use Rattle.mq_check.specs.Standing.{is_set};
ghost use Rattle.mq_check.specs.Telling.{Tells};

use crate::check_terms::CheckFlags;
use crate::checked_family::CheckedFamily;
use crate::earliest_partner::EarliestPartner;
use crate::entry::Entry;
use crate::finding_writer::FindingWriter;
use crate::general::query_interval;
use crate::phase::Phase;
use crate::purging::{Excuses, Expiry, purge, tell_rest};
use crate::refused::Refused;
use crate::schedules::Schedules;
use crate::stamp::Stamp;
use crate::waiting::Waiting;
use mq_arena::VectorSource;
use mq_count::{Meter, Moment, Span, Watched};
use mq_lines::LineKey;
use mq_link::{Family, Link};
use mq_table::Timing;
use mq_text::LineFault;
use mq_wire::Query;
use std::alloc::{AllocError, Allocator};
use std::io::Write;
use std::marker::Model;

/// The pending entries, the last change of the role, the phase of general queries, and the counts of seen queries.
#[derive(Drop)]
pub(crate) struct Checking<F: Family, A: Allocator> {
    pub(crate) waiting: Waiting<F, A>,
    pub(crate) changed: Option<Moment>,
    pub(crate) phase: Phase,
    pub(crate) last_general: Option<Stamp>,
    pub(crate) general: u64,
    pub(crate) specific: u64,
    // The groups for whose sources the querier asked after a change that older hosts mute.
    pub(crate) unmuted: Waiting<F, A>,
    pub(crate) schedules: Schedules<F, A>,
    pub(crate) refused: Refused<F, A>,
}

impl<F: Family, A: Allocator> Model for Checking<F, A> {
    ghost use Rattle.std.specs.Prelude.{◌≤◌, ◌^◌, IfSome};
    ghost use Rattle.mq_check.specs.Checking.{CheckingValue};

    ghost Value = { CheckingValue };

    ghost view = { λ c. record { waiting = c.waiting; changed = c.changed; phase = c.phase; last_general = c.last_general; general = c.general; specific = c.specific; unmuted = c.unmuted; schedules = c.schedules; refused = c.refused } };

    ghost invariant = { λ c. IfSome c.changed (λ moment. moment ≤ 2 ^ 53) };
}

/// Queues a finding if there were no general queries for too long.
fn put_silence<F: Family, A: Allocator>(
    waiting: &mut Waiting<F, A>,
    configured: Timing,
    stamp: Stamp,
    passed: Option<u64>,
)
    ensures { waiting.new ≡ spec.with_silence configured stamp passed waiting.old }
{
    if let Some(passed) = passed {
        waiting.put(Entry::Silence(stamp.moment(), passed, query_interval(configured)));
    }
}

impl<F: Family, A: Allocator> Checking<F, A> {
    /// Returns the check at the start of a capture, with all memory allocated from `memory`. `last_member` is the Last Member
    /// Query Interval in milliseconds.
    pub(crate) fn new<M: VectorSource<A>>(
        memory: &mut M,
        within: u32,
        configured: Timing,
        last_member: u32,
        flags: CheckFlags,
    ) -> Result<Checking<F, A>, AllocError>
        requires interval { last_member ≡ configured.last_member_interval }
        ensures starts { IfOk result (λ c. c ≡ spec.checking_at_start within configured flags) }
        ensures memory { Takes (bytes_of_checking F.Address.row) (M.less_than memory.old) (M.less_than memory.new) (is_ok result) }
    {
        let waiting = Waiting::new(memory)?;
        let unmuted = Waiting::new(memory)?;
        let schedules = Schedules::new(memory, within, configured, last_member, flags)?;
        let refused = Refused::new(memory)?;
        Ok(Checking {
            waiting,
            changed: None,
            phase: Phase::at_start(configured, flags.above_7),
            last_general: None,
            general: 0,
            specific: 0,
            unmuted,
            schedules,
            refused,
        })
    }

    /// Returns whether an entry had no room.
    pub(crate) fn is_full(&self) -> bool
        ensures { result ≡ self.now.waiting.is_full }
    {
        self.waiting.is_full()
    }

    /// Returns whether no group is judged.
    pub(crate) fn is_crowded(&self) -> bool
        ensures { result ≡ is_crowded self.now.refused }
    {
        self.refused.is_crowded()
    }

    /// Returns the number of general queries seen.
    pub(crate) fn general(&self) -> u64
        ensures { result ≡ self.now.general }
    {
        self.general
    }

    /// Returns the number of other queries seen.
    pub(crate) fn specific(&self) -> u64
        ensures { result ≡ self.now.specific }
    {
        self.specific
    }

    /// Returns the earliest moment within the tolerance before another.
    pub(crate) fn near(&self, moment: Moment) -> EarliestPartner
        requires in_range { moment ≤ 2 ^ 53 }
        ensures { result ≡ spec.near moment self.now }
    {
        EarliestPartner::near(self.schedules.repeats.within, moment)
    }

    /// Forgets the schedules in which no query may come any more.
    pub(crate) fn forget(&mut self, moment: Moment)
        ensures { self.new ≡ record self.old { schedules = recent moment self.old.schedules } }
    {
        self.schedules.forget(moment);
    }

    /// Judges S of the seen queries that no Report of this moment can change. Without a moment, all are judged.
    pub(crate) fn judge(&mut self, link: &Link<F, A>, within: u32, now: &Option<Moment>)
        requires in_range { IfSome now.now (λ moment. moment ≤ 2 ^ 53) }
        ensures { self.new
            ≡ spec.with_s_judged within now.now (is_set link.now.state.groups) self.old }
    {
        self.waiting.judge(link, Span::from_ms(within.min(1)), now);
    }

    /// Returns the time without general queries up to a moment, if it is too long.
    pub(crate) fn silence(&self, within: u32, configured: Timing, stamp: Stamp) -> Option<u64>
        ensures { result ≡ silence_up_to within configured stamp self.now.phase }
    {
        self.phase.silence(within, configured, stamp.ms())
    }

    /// Handles the loss of the role.
    pub(crate) fn lose_role(&mut self, within: u32, configured: Timing, stamp: Stamp)
        ensures { self.new ≡ spec.role_lost within configured stamp self.old }
    {
        let passed = self.phase.silence(within, configured, stamp.ms());
        put_silence(&mut self.waiting, configured, stamp, passed);
        self.schedules.drop_all_next();
        self.changed = Some(stamp.moment());
        self.phase = Phase::NotQuerier;
    }

    /// Handles the return of the role.
    pub(crate) fn return_role(&mut self, within: u32, moment: Moment)
        requires in_range { moment ≤ 2 ^ 53 }
        ensures { self.new ≡ spec.role_returned within moment self.old }
    {
        self.phase = self.phase_again(within, moment);
        self.changed = Some(moment);
    }

    /// Returns the phase of general queries after this router becomes querier again.
    fn phase_again(&self, within: u32, moment: Moment) -> Phase
        ensures { result ≡ phase_again within moment self.now.last_general }
    {
        let Some(last) = self.last_general else {
            return Phase::Returned;
        };
        let latest = last.moment().after(Span::from_ms(within));
        if Meter::new().reached(moment, latest) {
            Phase::Heard(last.ms(), 0)
        } else {
            Phase::Returned
        }
    }
}

impl<F: CheckedFamily, A: Allocator> Checking<F, A>
where
    F::Address: LineKey,
{
    /// Handles the end of the capture, after which the partners of wanted queries may come.
    pub(crate) fn excuse_all(&mut self, within: u32, end: Moment)
        requires in_range { end ≤ 2 ^ 53 }
        ensures { self.new ≡ spec.with_all_excused within end self.old }
    {
        self.schedules.forget(end);
        self.waiting
            .excuse(Span::from_ms(within), end, &self.schedules.sent);
        self.schedules.drop_all_next();
    }

    /// Removes all pending entries at the end of a capture, and reports their findings.
    pub(crate) fn tell_rest<W: Write>(
        &mut self,
        within: u32,
        end: Moment,
        told: &mut FindingWriter,
        writer: &mut Watched<W>,
    ) -> Result<(), LineFault>
        requires in_range { end ≤ 2 ^ 53 }
        ensures { Tells F.Address.family (flat_map (spec.found_of_last within end self.old.changed self.old.refused) self.old.waiting.entries) told.old told.new
            (output_of W.contents writer.old) (output_of W.contents writer.new) result }
    {
        let excuses = Excuses {
            within: Span::from_ms(within),
            changed: self.changed,
            refused: &self.refused,
        };
        tell_rest::<F, A, W>(&mut self.waiting, end, &excuses, told, writer)
    }

    /// Removes the entries that have expired at a moment, and reports their findings.
    ///
    /// The queries that were still to come in schedules from before the capture follow.
    pub(crate) fn purge<W: Write>(
        &mut self,
        within: u32,
        now: Moment,
        told: &mut FindingWriter,
        writer: &mut Watched<W>,
    ) -> Result<(), LineFault>
        requires in_range { now ≤ 2 ^ 53 }
        ensures purged { IfOk result (λ _. self.new ≡ spec.purged now self.old) }
        ensures tells { Tells F.Address.family (spec.told within now self.old) told.old told.new
            (output_of W.contents writer.old) (output_of W.contents writer.new) result }
    {
        let expiry = Expiry {
            keep: self.schedules.keep(),
            moment: now,
        };
        let excuses = Excuses {
            within: Span::from_ms(within),
            changed: self.changed,
            refused: &self.refused,
        };
        purge::<F, A, W>(&mut self.waiting, &expiry, &excuses, told, writer)?;
        self.schedules.purge_next(now, &excuses, told, writer)
    }
}

//! The end of a check.

ghost use Rattle.std.specs.Prelude.{◌≡◌, ◌≤◌, ◌+◌, ◌^◌, ◌||◌, IfOk, IfSome, is_err};
ghost use Rattle.mq_count.specs.Streams.{inner_of, has_failed};
ghost use Rattle.mq_text.specs.Printing.{Puts, output_of};
ghost use Rattle.mq_walk.specs.Faults as spec;
ghost use Rattle.mq_walk.specs.PuttingReports.{IsRestPut, end_of, rest_at};
ghost use Rattle.mq_check.specs.Checking.{silence_found, told_at_end};
ghost use Rattle.mq_check.specs.Coming.{checked_in};
ghost use Rattle.mq_check.specs.Ending.{counted_behind, end_text, ended_behind};
ghost use Rattle.mq_check.specs.Telling.{Tells, reported_by};

use crate::basis::Basis;
use crate::checked_family::CheckedFamily;
use crate::finding::Finding;
use crate::finding_writer::FindingWriter;
use crate::general::query_interval;
use crate::judging::tell_finding;
use crate::running_check::Check;
use crate::stamp::Stamp;
use crate::totals::Totals;
use mq_count::Watched;
use mq_lines::LineKey;
use mq_link::Family;
use mq_table::Timing;
use mq_text::LineFault;
use mq_walk::{CaptureFault, Walked};
use std::alloc::Allocator;
use std::io::Write;

impl<F: CheckedFamily, A: Allocator> Check<F, A>
where
    F::Address: LineKey,
{
    /// Checks the time after the last packet. Fails if there is a gap before the end of the check.
    pub(crate) fn rest<W: Write>(
        &mut self,
        walked: Walked,
        writer: &mut Watched<W>,
    ) -> Result<Totals, CaptureFault>
        requires { IfSome self.old.terms.until (λ ms. ms ≤ 2 ^ 53) }
        ensures rest { IsRestPut
            (rest_at (λ end. ended_behind self.old.link.config self.old.terms.within self.old.told end (walked.packets + 1) (checked_in self.old.link self.old.queries))
            (end_of self.old.terms.until walked.last (walked.packets + 1)))
            (W.contents (inner_of writer.old)) (W.contents (inner_of writer.new))
            self.old.told.held self.new.told.held result }
        ensures failed { has_failed writer.new ≡ has_failed writer.old || spec.is_failed_write result }
    {
        let end = walked.end(self.terms.until)?;
        self.end(end, walked.packets + 1, writer)
    }

    /// Checks up to and including the end, and reports the totals. The silence and the basis are those of the end, and not
    /// of the ticks after it.
    fn end<W: Write>(
        &mut self,
        end: Stamp,
        number: u64,
        writer: &mut Watched<W>,
    ) -> Result<Totals, CaptureFault>
        ensures rest { IsRestPut
            (ended_behind self.old.link.config self.old.terms.within self.old.told end number (checked_in self.old.link self.old.queries))
            (W.contents (inner_of writer.old)) (W.contents (inner_of writer.new))
            self.old.told.held self.new.told.held result }
        ensures failed { has_failed writer.new ≡ has_failed writer.old || spec.is_failed_write result }
    {
        self.link.config().is_faultless();
        let configured = self.link.config().timing();
        self.purge_through(end, writer)?;
        let passed = self
            .queries
            .checking()
            .silence(self.terms.within, configured, end);
        let refused = self.link.counts().refused();
        let is_crowded = self.queries.checking().is_crowded();
        let rests_on = self.queries.basis().with_refused(refused, is_crowded);
        self.look_ahead(end, writer)?;
        if self.queries.checking().is_full() {
            return Err(CaptureFault::Waiting { number });
        }
        let totals = self.tell_end(end, passed, rests_on, writer)?;
        Ok(totals)
    }

    /// Reports the findings of the pending entries, then a silence up to the end that is too long, then the totals.
    fn tell_end<W: Write>(
        &mut self,
        end: Stamp,
        passed: Option<u64>,
        rests_on: Basis,
        writer: &mut Watched<W>,
    ) -> Result<Totals, LineFault>
        ensures text { let found = reported_by self.old.told (told_at_end self.old.terms.within self.old.link.config.timing end passed self.old.queries.checking) in Puts
            (W.contents (inner_of writer.old)) (W.contents (inner_of writer.new))
            self.old.told.held self.new.told.held
            (end_text F.Address.family self.old.told.additions found (counted_behind self.old.told.count self.old.queries.checking rests_on found)) result }
        ensures totals { let found = reported_by self.old.told (told_at_end self.old.terms.within self.old.link.config.timing end passed self.old.queries.checking) in
            IfOk result (λ totals. totals ≡ counted_behind self.old.told.count self.old.queries.checking rests_on found) }
        ensures failed { has_failed writer.new ≡ has_failed writer.old || is_err result }
    {
        let configured = self.link.config().timing();
        let general_queries = self.queries.checking().general();
        let other_queries = self.queries.checking().specific();
        self.queries
            .tell_rest(self.terms.within, end.moment(), &mut self.told, writer)?;
        tell_silence::<F, W>(configured, end, passed, &mut self.told, writer)?;
        let counts = self.told.count();
        let totals = Totals {
            general: general_queries,
            specific: other_queries,
            findings: counts.certain,
            possible: counts.possible,
            kinds: counts.kinds,
            basis: rests_on,
        };
        self.told.tell_last(&totals, writer)?;
        Ok(totals)
    }
}

/// Reports a silence up to the end, if it is too long.
fn tell_silence<F: Family, W: Write>(
    configured: Timing,
    end: Stamp,
    passed: Option<u64>,
    told: &mut FindingWriter,
    writer: &mut Watched<W>,
) -> Result<(), LineFault>
where
    F::Address: LineKey,
    ensures { Tells F.Address.family (silence_found configured end passed) told.old told.new
        (output_of W.contents writer.old) (output_of W.contents writer.new) result }
{
    match passed {
        Some(passed) => {
            let silence = Finding::Silence(end.moment(), passed, query_interval(configured));
            tell_finding::<F, W>(silence, told, writer)
        }
        None => Ok(()),
    }
}

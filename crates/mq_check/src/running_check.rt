//! A check in progress, as one object.

ghost use Rattle.std.specs.Prelude.{◌≡◌};
ghost use Rattle.mq_link.specs.State.{link_at};
ghost use Rattle.mq_check.specs.Check.{at_the_start};
ghost use Rattle.mq_check.specs.Checking.{checking_at_start};
ghost use Rattle.mq_check.specs.Coming.{checked_in};
ghost use Rattle.mq_check.specs.Telling.{nothing_told};

use crate::basis::CheckedVariables;
use crate::check_terms::CheckTerms;
use crate::checked_family::CheckedFamily;
use crate::checking::Checking;
use crate::finding_writer::FindingWriter;
use crate::wanted_queries::WantedQueries;
use mq_count::{Moment, Watched};
use mq_lines::LineKey;
use mq_link::Link;
use mq_text::LineFault;
use mq_walk::{CaptureFault, GaplessStep, NumberedPacket, TickStep, first_moment};
use std::alloc::Allocator;
use std::io::Write;

/// A check in progress: the link that has the checked router's address, the queries that are wanted and seen, the terms,
/// and the output of findings. Each step takes a moment or a packet.
#[derive(Drop)]
pub(crate) struct Check<F: CheckedFamily, A: Allocator>
where
    F::Address: LineKey,
{
    pub(crate) link: Link<F, A>,
    pub(crate) queries: WantedQueries<F, A>,
    pub(crate) terms: CheckTerms,
    pub(crate) told: FindingWriter,
}

impl<F: CheckedFamily, A: Allocator> Check<F, A>
where
    F::Address: LineKey,
{
    /// Returns a check before its first packet.
    pub(crate) fn new(link: Link<F, A>, checking: Checking<F, A>, terms: CheckTerms) -> Check<F, A>
        requires link_starts { link.state ≡ link_at link.config 0 }
        requires starts { checking ≡ checking_at_start terms.within link.config.timing terms.flags }
        ensures link { result.link ≡ link }
        ensures terms { result.terms ≡ terms }
        ensures starts { checked_in result.link result.queries ≡ at_the_start result.link.config result.terms.within result.terms.flags }
        ensures told { result.told ≡ nothing_told result.terms.additions }
    {
        link.config().is_faultless();
        let variables = CheckedVariables::of(link.config());
        let own = link.config().own();
        let queries = WantedQueries::new(checking, variables, own, first_moment());
        Check {
            link,
            queries,
            terms,
            told: FindingWriter::new(terms.additions),
        }
    }
}

impl<F: CheckedFamily, A: Allocator, W: Write> TickStep<Watched<W>> for Check<F, A>
where
    F::Address: LineKey,
{
    ghost use Rattle.mq_link.specs.Tick.{next_of};
    ghost use Rattle.mq_text.specs.Printing.{output_of};
    ghost use Rattle.mq_check.specs.Coming.{ChecksTick};

    ghost next = { λ self. next_of self.link.state };

    ghost ticks = { λ moment old new r. ChecksTick F.Address.family moment
        (record { link = old.0.link; queries = old.0.queries; terms = old.0.terms; told = old.0.told; output = output_of W.contents old.1 })
        (record { link = new.0.link; queries = new.0.queries; terms = new.0.terms; told = new.0.told; output = output_of W.contents new.1 }) r };

    fn next_moment(&self) -> Moment {
        self.link.next_deadline()
    }

    fn tick_at(&mut self, moment: Moment, output: &mut Watched<W>) -> Result<(), LineFault> {
        self.link.config().is_faultless();
        self.queries
            .judge(&self.link, self.terms.within, &Some(moment));
        self.queries
            .purge(self.terms.within, moment, &mut self.told, output)?;
        self.tick(moment);
        Ok(())
    }
}

impl<F: CheckedFamily, A: Allocator, W: Write> GaplessStep<Watched<W>> for Check<F, A>
where
    F::Address: LineKey,
{
    ghost use Rattle.std.specs.Prelude.{◌≡◌, []};
    ghost use Rattle.mq_text.specs.Printing.{output_of};
    ghost use Rattle.mq_check.specs.Coming.{TakesChecked};

    ghost takes = { λ packet old new r. TakesChecked F.Address.family packet
        (record { link = old.0.link; queries = old.0.queries; terms = old.0.terms; told = old.0.told; output = output_of W.contents old.1 })
        (record { link = new.0.link; queries = new.0.queries; terms = new.0.terms; told = new.0.told; output = output_of W.contents new.1 }) r };

    ghost is_written = { λ state. state.0.told.held ≡ [] };

    fn packet(
        &mut self,
        packet: &NumberedPacket<'_>,
        output: &mut Watched<W>,
    ) -> Result<(), CaptureFault> {
        self.check_packet(packet, output)?;
        if self.queries.checking().is_full() {
            return Err(CaptureFault::Waiting {
                number: packet.number,
            });
        }
        self.told.write_before_wait(packet.may_wait, output)?;
        Ok(())
    }
}

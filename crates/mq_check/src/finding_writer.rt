//! Buffered output of findings.

ghost use Rattle.std.specs.Prelude.{◌≡◌, ◌||◌, [], ◌∷◌, IfOk, false, true, is_err};
ghost use Rattle.mq_count.specs.Streams.{inner_of, has_failed};
ghost use Rattle.mq_text.specs.Printing.{Puts, output_of};
ghost use Rattle.mq_check.specs.FindingLines.{finding_in_form, finding_line, last_lines};
ghost use Rattle.mq_check.specs.Numbered.{numbered_finding};
ghost use Rattle.mq_check.specs.Repeated.{is_left_out, with_finding};
ghost use Rattle.mq_check.specs.Telling.{Tells, counted_one, nothing_told};

use crate::check_terms::Additions;
use crate::finding::Finding;
use crate::finding_lines::{
    put_citation, put_finding, put_packet, put_packets, put_querier_line, put_totals,
};
use crate::finding_objects::{
    put_checked, put_finding_rest, put_finding_start, put_kinds, put_packets_field, put_roles,
    put_summary_start,
};
use crate::repeated::LastDifferences;
use crate::totals::{FindingCounts, KindCounts, Totals};
use mq_count::Watched;
use mq_lines::LineKey;
use mq_link::Family;
use mq_text::{LineFault, Text, make_room};
use mq_walk::write_before_wait;
use mq_wire::WireKey;
use std::io::Write;
use std::marker::Model;

/// The unwritten text of findings, their additions, the last differences, and the numbers of reported findings.
#[derive(Drop)]
pub(crate) struct FindingWriter {
    pub(crate) buffer: Text,
    additions: Additions,
    last: LastDifferences,
    count: FindingCounts,
}

impl Model for FindingWriter {
    ghost use Rattle.mq_check.specs.Telling.{FindingWriterState};

    ghost Value = { FindingWriterState };

    ghost view = { λ t. record { held = t.buffer.items; additions = t.additions; last = t.last; count = t.count } };
}

impl FindingWriter {
    /// Returns a state without text or findings.
    pub(crate) fn new(additions: Additions) -> FindingWriter
        ensures { result ≡ nothing_told additions }
    {
        FindingWriter {
            buffer: Text::new(),
            additions,
            last: LastDifferences::new(),
            count: FindingCounts {
                certain: 0,
                possible: 0,
                kinds: KindCounts {
                    missing: 0,
                    extra: 0,
                    differs: 0,
                    interval: 0,
                    silence: 0,
                    header: 0,
                },
            },
        }
    }

    /// Returns the numbers of reported findings.
    pub(crate) fn count(&self) -> FindingCounts
        ensures { result ≡ self.now.count }
    {
        self.count
    }

    /// Reports a finding, unless it is left out because it repeats the last one of its variable.
    pub(crate) fn tell<F: Family, W: Write>(
        &mut self,
        finding: Finding<F::Address>,
        writer: &mut Watched<W>,
    ) -> Result<(), LineFault>
    where
        F::Address: LineKey,
        ensures { Tells F.Address.family (numbered_finding F.Address.number finding ∷ []) self.old self.new
            (output_of W.contents writer.old) (output_of W.contents writer.new) result }
    {
        let is_left_out = self.leaves_out(finding);
        self.note(finding);
        if is_left_out {
            return Ok(());
        }
        self.count_one(&finding);
        self.put_line::<F, W>(finding, writer)
    }

    /// Counts a reported finding.
    fn count_one<K: WireKey>(&mut self, finding: &Finding<K>)
        ensures { self.new ≡ record self.old { count = counted_one (numbered_finding K.number finding.now) self.old.count } }
    {
        self.count.kinds.count(finding);
        if finding.is_possible() {
            self.count.possible = self.count.possible.saturating_add(1);
        } else {
            self.count.certain = self.count.certain.saturating_add(1);
        }
    }

    /// Returns whether a finding is left out because it repeats the last one of its variable.
    fn leaves_out<K: WireKey>(&self, finding: Finding<K>) -> bool
        ensures { result ≡ is_left_out self.now.additions.once self.now.last (numbered_finding K.number finding) }
    {
        self.last.repeats(finding) && self.additions.once
    }

    /// Notes a finding, reported or left out.
    fn note<K: WireKey>(&mut self, finding: Finding<K>)
        ensures { self.new ≡ record self.old { last = with_finding (numbered_finding K.number finding) self.old.last } }
    {
        self.last = self.last.with(finding);
    }

    /// Puts the line of a finding. A possible one has a line only if it is requested.
    fn put_line<F: Family, W: Write>(
        &mut self,
        finding: Finding<F::Address>,
        writer: &mut Watched<W>,
    ) -> Result<(), LineFault>
    where
        F::Address: LineKey,
        ensures text { Puts
            (W.contents (inner_of writer.old)) (W.contents (inner_of writer.new))
            self.old.held self.new.held (finding_line F.Address.family self.old.additions (numbered_finding F.Address.number finding)) result }
        ensures additions { self.new.additions ≡ self.old.additions }
        ensures last { self.new.last ≡ self.old.last }
        ensures count { self.new.count ≡ self.old.count }
        ensures failed { has_failed writer.new ≡ has_failed writer.old || is_err result }
    {
        if finding.is_possible() && !self.additions.possible {
            return Ok(());
        }
        put_in_form::<F, W>(finding, self.additions, &mut self.buffer, writer)
    }

    /// Reports the totals and the basis of the verdict.
    pub(crate) fn tell_last<W: Write>(
        &mut self,
        totals: &Totals,
        writer: &mut Watched<W>,
    ) -> Result<(), LineFault>
        ensures text { Puts
            (W.contents (inner_of writer.old)) (W.contents (inner_of writer.new))
            self.old.held self.new.held (last_lines self.old.additions.json totals.now) result }
        ensures failed { has_failed writer.new ≡ has_failed writer.old || is_err result }
    {
        put_last(self.additions, totals, &mut self.buffer, writer)
    }

    /// Writes the buffered text if reading the next record may wait.
    pub(crate) fn write_before_wait<W: Write>(
        &mut self,
        may_wait: bool,
        writer: &mut Watched<W>,
    ) -> Result<(), LineFault>
        ensures text { Puts
            (W.contents (inner_of writer.old)) (W.contents (inner_of writer.new))
            self.old.held self.new.held [] result }
        ensures additions { self.new.additions ≡ self.old.additions }
        ensures last { self.new.last ≡ self.old.last }
        ensures written { may_wait ≡ true → IfOk result (λ _. self.new.held ≡ []) }
        ensures count { self.new.count ≡ self.old.count }
        ensures failed { has_failed writer.new ≡ has_failed writer.old || is_err result }
    {
        write_before_wait(may_wait, &mut self.buffer, writer)
    }
}

/// Puts a finding as a line of text or as an object of JSON.
fn put_in_form<F: Family, W: Write>(
    finding: Finding<F::Address>,
    additions: Additions,
    buffer: &mut Text,
    writer: &mut Watched<W>,
) -> Result<(), LineFault>
where
    F::Address: LineKey,
    ensures text { Puts
        (W.contents (inner_of writer.old)) (W.contents (inner_of writer.new))
        buffer.old.items buffer.new.items (finding_in_form additions.json F.Address.family additions (numbered_finding F.Address.number finding)) result }
    ensures failed { has_failed writer.new ≡ has_failed writer.old || is_err result }
{
    if additions.json {
        return put_finding_object::<F, W>(finding, buffer, writer);
    }
    put_finding_line::<F, W>(finding, additions, buffer, writer)
}

/// Puts the text of a finding and its additions.
fn put_finding_line<F: Family, W: Write>(
    finding: Finding<F::Address>,
    additions: Additions,
    buffer: &mut Text,
    writer: &mut Watched<W>,
) -> Result<(), LineFault>
where
    F::Address: LineKey,
    ensures text { Puts
        (W.contents (inner_of writer.old)) (W.contents (inner_of writer.new))
        buffer.old.items buffer.new.items (finding_in_form false F.Address.family additions (numbered_finding F.Address.number finding)) result }
    ensures failed { has_failed writer.new ≡ has_failed writer.old || is_err result }
{
    make_room(buffer, writer)?;
    put_finding::<F>(buffer, finding);
    make_room(buffer, writer)?;
    put_packet(buffer, additions.packets, finding);
    put_citation(buffer, additions.cite, finding);
    Ok(())
}

/// Puts the object of a finding.
fn put_finding_object<F: Family, W: Write>(
    finding: Finding<F::Address>,
    buffer: &mut Text,
    writer: &mut Watched<W>,
) -> Result<(), LineFault>
where
    F::Address: LineKey,
    ensures text { (additions : Additions) → Puts
        (W.contents (inner_of writer.old)) (W.contents (inner_of writer.new))
        buffer.old.items buffer.new.items (finding_in_form true F.Address.family additions (numbered_finding F.Address.number finding)) result }
    ensures failed { has_failed writer.new ≡ has_failed writer.old || is_err result }
{
    make_room(buffer, writer)?;
    put_finding_start::<F>(buffer, finding);
    make_room(buffer, writer)?;
    put_finding_rest(buffer, finding);
    Ok(())
}

/// Puts the totals and their basis in the requested form.
fn put_last<W: Write>(
    additions: Additions,
    totals: &Totals,
    buffer: &mut Text,
    writer: &mut Watched<W>,
) -> Result<(), LineFault>
    ensures text { Puts
        (W.contents (inner_of writer.old)) (W.contents (inner_of writer.new))
        buffer.old.items buffer.new.items (last_lines additions.json totals.now) result }
    ensures failed { has_failed writer.new ≡ has_failed writer.old || is_err result }
{
    if additions.json {
        return put_summary(totals, buffer, writer);
    }
    put_last_lines(totals, buffer, writer)
}

/// Puts the lines of the totals and of their basis.
fn put_last_lines<W: Write>(
    totals: &Totals,
    buffer: &mut Text,
    writer: &mut Watched<W>,
) -> Result<(), LineFault>
    ensures text { Puts
        (W.contents (inner_of writer.old)) (W.contents (inner_of writer.new))
        buffer.old.items buffer.new.items (last_lines false totals.now) result }
    ensures failed { has_failed writer.new ≡ has_failed writer.old || is_err result }
{
    make_room(buffer, writer)?;
    put_totals(buffer, totals);
    make_room(buffer, writer)?;
    put_packets(buffer, &totals.basis);
    make_room(buffer, writer)?;
    put_querier_line(buffer, &totals.basis);
    Ok(())
}

/// Puts the object of the totals and of their basis.
fn put_summary<W: Write>(
    totals: &Totals,
    buffer: &mut Text,
    writer: &mut Watched<W>,
) -> Result<(), LineFault>
    ensures text { Puts
        (W.contents (inner_of writer.old)) (W.contents (inner_of writer.new))
        buffer.old.items buffer.new.items (last_lines true totals.now) result }
    ensures failed { has_failed writer.new ≡ has_failed writer.old || is_err result }
{
    make_room(buffer, writer)?;
    put_summary_start(buffer, totals);
    make_room(buffer, writer)?;
    put_kinds(buffer, &totals.kinds);
    make_room(buffer, writer)?;
    put_checked(buffer, &totals.basis);
    make_room(buffer, writer)?;
    put_roles(buffer, &totals.basis);
    make_room(buffer, writer)?;
    put_packets_field(buffer, &totals.basis);
    Ok(())
}

//! Removal of pending entries.

ghost use Rattle.std.specs.Prelude.{◌≡◌, ◌≤◌, ◌^◌, IfOk, IfSome};
ghost use Rattle.std.specs.List.{flat_map};
ghost use Rattle.mq_text.specs.Printing.{output_of};
ghost use Rattle.mq_check.specs.Checking.{found_of_last};
ghost use Rattle.mq_check.specs.Numbered.{numbered_entry};
ghost use Rattle.mq_check.specs.Refused.{judged};
ghost use Rattle.mq_check.specs.Telling.{Tells};
ghost use Rattle.mq_check.specs.Waiting as waits;

use crate::earliest_partner::is_near;
use crate::entry::Entry;
use crate::finding_writer::FindingWriter;
use crate::judging::tell_entry;
use crate::refused::Refused;
use crate::waiting::Waiting;
use mq_count::{Moment, Span, Watched};
use mq_lines::LineKey;
use mq_link::Family;
use mq_text::LineFault;
use std::alloc::Allocator;
use std::io::Write;

/// The time after which an entry expires, and the moment at which expired entries are removed.
#[derive(Drop)]
pub(crate) struct Expiry {
    pub(crate) keep: Span,
    pub(crate) moment: Moment,
}

/// The reasons to report nothing of an expired entry: the tolerance, the last change of the role, and the groups that aren't
/// judged.
#[derive(Drop)]
pub(crate) struct Excuses<'a, F: Family, A: Allocator> {
    pub(crate) within: Span,
    pub(crate) changed: Option<Moment>,
    pub(crate) refused: &'a Refused<F, A>,
}

impl<F: Family, A: Allocator> Excuses<'_, F, A> {
    /// Reports the findings of an expired entry, if its subject is judged.
    fn tell<W: Write>(
        &self,
        entry: &Entry<F::Address>,
        told: &mut FindingWriter,
        writer: &mut Watched<W>,
    ) -> Result<(), LineFault>
    where
        F::Address: LineKey,
        requires changed_in_range { IfSome self.now.changed (λ moment. moment ≤ 2 ^ 53) }
        ensures { Tells F.Address.family (judged self.now.within self.now.changed self.now.refused.now (numbered_entry F.Address.number entry.now)) told.old told.new
            (output_of W.contents writer.old) (output_of W.contents writer.new) result }
    {
        if self.refused.leaves_out(entry) {
            return Ok(());
        }
        tell_entry::<F, W>(entry, self.within, &self.changed, told, writer)
    }
}

/// Removes the entries that have expired, and reports their findings.
pub(crate) fn purge<F: Family, A: Allocator, W: Write>(
    waiting: &mut Waiting<F, A>,
    expiry: &Expiry,
    excuses: &Excuses<'_, F, A>,
    told: &mut FindingWriter,
    writer: &mut Watched<W>,
) -> Result<(), LineFault>
where
    F::Address: LineKey,
    requires in_range { expiry.now.moment ≤ 2 ^ 53 }
    requires changed_in_range { IfSome excuses.now.changed (λ moment. moment ≤ 2 ^ 53) }
    ensures purged { IfOk result (λ _. waiting.new ≡ waits.purged expiry.now.keep expiry.now.moment waiting.old) }
    ensures tells { Tells F.Address.family (waits.told expiry.now.keep excuses.now.within expiry.now.moment excuses.now.changed excuses.now.refused.now waiting.old) told.old told.new
        (output_of W.contents writer.old) (output_of W.contents writer.new) result }
{
    while let Some(entry) = waiting.pop_over(expiry.keep, expiry.moment) {
        excuses.tell(&entry, told, writer)?;
    }
    Ok(())
}

/// Removes all pending entries at the end of a capture, and reports their findings. A wanted query has none if it is
/// wanted at most the tolerance before the end, or after it.
pub(crate) fn tell_rest<F: Family, A: Allocator, W: Write>(
    waiting: &mut Waiting<F, A>,
    end: Moment,
    excuses: &Excuses<'_, F, A>,
    told: &mut FindingWriter,
    writer: &mut Watched<W>,
) -> Result<(), LineFault>
where
    F::Address: LineKey,
    requires end_in_range { end ≤ 2 ^ 53 }
    requires changed_in_range { IfSome excuses.now.changed (λ moment. moment ≤ 2 ^ 53) }
    ensures { Tells F.Address.family (flat_map (found_of_last excuses.now.within end excuses.now.changed excuses.now.refused.now) waiting.old.entries) told.old told.new
        (output_of W.contents writer.old) (output_of W.contents writer.new) result }
{
    while let Some(entry) = waiting.pop() {
        let may_come = is_near(excuses.within, entry.moment(), end);
        excuses.tell(&entry.excused_if(may_come), told, writer)?;
    }
    Ok(())
}

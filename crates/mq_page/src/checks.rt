//! The check of the querier of a capture.

ghost use Rattle.std.specs.Prelude.{◌≡◌, ◌*◌, length};
ghost use Rattle.mq_page.specs.Asked.{check_asked, configuration_asked};
ghost use Rattle.mq_page.specs.Calls.{ChecksInto};
ghost use Rattle.mq_page.specs.Faults as spec;

use crate::answer::Answer;
use crate::page_fault::{PageFault, concluded, of_capture};
use crate::settings::{Settings, querier_of};
use crate::telling::told;
use crate::work_room::WorkRoom;
use mq_check::{Additions, CheckFlags, CheckTerms, CheckedFamily, Totals, check_in};
use mq_count::Watched;
use mq_lines::LineKey;
use mq_pcap::Ready;
use mq_walk::CaptureFault;

/// Checks the querier of a capture that has the address `own`. It writes what follows the first `skip` bytes of the text.
pub(crate) fn check_at<F: CheckedFamily>(
    own: F::Address,
    settings: &Settings,
    skip: usize,
    capture: &[u8],
    memory: &'static mut [u128],
    text: &mut [u8],
) -> Answer
where
    F::Address: LineKey,
    ensures { ChecksInto F.Address.row (configuration_asked F.FAMILY (F.Address.number own) settings.now) (check_asked settings.now) skip capture.now (16 * length memory.old) text.old text.new result }
{
    let querier = match querier_of::<F>(own, settings) {
        Ok(querier) => querier,
        Err(fault) => return told(Err(fault), &[], text),
    };
    let Some(room) = WorkRoom::of(memory, skip, text.len()) else {
        return told(Err(PageFault::Memory), &[], text);
    };
    let WorkRoom {
        text: written,
        mut rest,
    } = room;
    let terms = CheckTerms {
        within: settings.within,
        until: settings.end(),
        additions: Additions {
            packets: false,
            cite: settings.cite != 0,
            once: false,
            possible: true,
            json: settings.json != 0,
        },
        flags: CheckFlags {
            began: false,
            strict: false,
            above_7: false,
        },
    };
    let mut reader = Watched::new(capture);
    let mut writer = Watched::new(written);
    let answer = check_in(
        &mut rest,
        querier.config,
        terms,
        &Ready,
        &mut reader,
        &mut writer,
    );
    let room = writer.into_inner();
    told(outcome_of(&answer), shown(&answer, room.part()), text)
}

/// Returns the outcome of a check.
fn outcome_of(answer: &Result<Totals, CaptureFault>) -> Result<u64, PageFault>
    ensures { result ≡ spec.outcome_of spec.concluded spec.of_capture answer.now }
{
    match answer {
        Ok(totals) => concluded(totals),
        Err(fault) => Err(of_capture(*fault)),
    }
}

/// Returns the shown part of a check's text: nothing if the querier is unseen.
fn shown<'a>(answer: &Result<Totals, CaptureFault>, text: &'a [u8]) -> &'a [u8]
    ensures { result.now ≡ spec.shown answer.now text.entry.now }
{
    match answer {
        Ok(totals) if totals.basis.is_unseen() => &text[..0],
        _ => text,
    }
}

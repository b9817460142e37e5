//! The replay of a capture.

ghost use Rattle.std.specs.Prelude.{◌*◌, length};
ghost use Rattle.mq_page.specs.Asked.{configuration_asked, replay_asked};
ghost use Rattle.mq_page.specs.Calls.{ReplaysInto};

use crate::answer::Answer;
use crate::page_fault::{PageFault, of_capture};
use crate::settings::{Settings, querier_of};
use crate::telling::told;
use crate::work_room::WorkRoom;
use mq_count::Watched;
use mq_lines::LineKey;
use mq_pcap::Ready;
use mq_replay::{Asked, replay};
use mq_walk::CapturedFamily;

/// Replays a capture to a querier with the address `own`. It writes what follows the first `skip` bytes of the text.
pub(crate) fn replay_to<F: CapturedFamily>(
    own: F::Address,
    settings: &Settings,
    skip: usize,
    capture: &[u8],
    memory: &'static mut [u128],
    text: &mut [u8],
) -> Answer
where
    F::Address: LineKey,
    ensures { ReplaysInto F.Address.row (configuration_asked F.FAMILY (F.Address.number own) settings.now) (replay_asked settings.now) skip capture.now (16 * length memory.old) text.old text.new result }
{
    let querier = match querier_of::<F>(own, settings) {
        Ok(querier) => querier,
        Err(fault) => return told(Err(fault), &[], text),
    };
    let Some(room) = WorkRoom::of(memory, skip, text.len()) else {
        return told(Err(PageFault::Memory), &[], text);
    };
    let WorkRoom {
        text: written,
        mut rest,
    } = room;
    let asked = Asked {
        until: querier.until,
        changes: settings.changes != 0,
        json: settings.json != 0,
    };
    let mut reader = Watched::new(capture);
    let mut writer = Watched::new(written);
    let outcome = match replay(
        &mut rest,
        querier.config,
        asked,
        &Ready,
        &mut reader,
        &mut writer,
    ) {
        Ok(_counts) => Ok(0),
        Err(fault) => Err(of_capture(fault)),
    };
    let room = writer.into_inner();
    told(outcome, room.part(), text)
}

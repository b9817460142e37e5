//! The listing of a capture.

ghost use Rattle.std.specs.Prelude.{◌*◌, length};
ghost use Rattle.mq_page.specs.Calls.{ListsInto};

use crate::answer::Answer;
use crate::page_fault::{PageFault, of_capture};
use crate::telling::told;
use crate::work_room::WorkRoom;
use mq_count::Watched;
use mq_pcap::Ready;
use mq_replay::show;

/// Lists a capture: a line or an object of JSON for each packet. It writes what follows the first `skip` bytes of the text.
pub(crate) fn list(
    json: bool,
    skip: usize,
    capture: &[u8],
    memory: &'static mut [u128],
    text: &mut [u8],
) -> Answer
    ensures { ListsInto json skip capture.now (16 * length memory.old) text.old text.new result }
{
    let Some(room) = WorkRoom::of(memory, skip, text.len()) else {
        return told(Err(PageFault::Memory), &[], text);
    };
    let WorkRoom {
        text: written,
        mut rest,
    } = room;
    let mut reader = Watched::new(capture);
    let mut writer = Watched::new(written);
    let outcome = match show(&mut rest, json, &Ready, &mut reader, &mut writer) {
        Ok(count) => Ok(count),
        Err(fault) => Err(of_capture(fault)),
    };
    let room = writer.into_inner();
    told(outcome, room.part(), text)
}

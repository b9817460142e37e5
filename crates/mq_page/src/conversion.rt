//! The conversion of a capture.

ghost use Rattle.std.specs.Prelude.{◌*◌, length};
ghost use Rattle.mq_page.specs.Calls.{ConvertsInto};

use crate::answer::Answer;
use crate::page_fault::{PageFault, of_conversion};
use crate::telling::told;
use crate::work_room::WorkRoom;
use mq_convert::{Choice, convert_in};
use mq_count::Watched;
use mq_pcap::Ready;

/// Writes the chosen packets of a capture as one classic capture of Ethernet, after its first `skip` bytes.
pub(crate) fn convert_chosen(
    choice: Choice,
    skip: usize,
    capture: &[u8],
    memory: &'static mut [u128],
    text: &mut [u8],
) -> Answer
    ensures { ConvertsInto choice skip capture.now (16 * length memory.old) text.old text.new result }
{
    let Some(room) = WorkRoom::of(memory, skip, text.len()) else {
        return told(Err(PageFault::Memory), &[], text);
    };
    let WorkRoom {
        text: written,
        mut rest,
    } = room;
    let mut reader = Watched::new(capture);
    let mut writer = Watched::new(written);
    let outcome = match convert_in(&mut rest, choice, &Ready, &mut reader, &mut writer) {
        Ok(counts) => Ok(counts.unread.count),
        Err(fault) => Err(of_conversion(fault)),
    };
    let room = writer.into_inner();
    told(outcome, room.part(), text)
}

//! The result of a call for the page.

ghost use Rattle.std.specs.Prelude.{◌≡◌, ◌++◌, ◌≤◌, length, take, drop, min};
ghost use Rattle.mq_page.specs.Telling as spec;
ghost use Rattle.mq_page.specs.Telling.{IsTold, in_front};

use crate::answer::Answer;
use crate::page_fault::PageFault;
use crate::statuses::{DONE, number_of, status_of};

/// Writes the text to the front of the page's memory, as far as there is room, and returns the answer. A longer text is
/// a fault.
pub(crate) fn told(outcome: Result<u64, PageFault>, text: &[u8], memory: &mut [u8]) -> Answer
    ensures { IsTold outcome text.now memory.old memory.new result }
{
    let outcome = fitted(outcome, text.len(), memory.len());
    let written = put_in_front(text, memory);
    match outcome {
        Ok(number) => Answer {
            status: DONE,
            written: written as u64,
            number,
        },
        Err(fault) => Answer {
            status: status_of(fault),
            written: written as u64,
            number: number_of(fault),
        },
    }
}

/// Returns the outcome for the page, by the bytes of the text and the room. A write fails only at the end of the room,
/// so the second case doesn't come; no clause of the calls below says that.
fn fitted(outcome: Result<u64, PageFault>, written: usize, room: usize) -> Result<u64, PageFault>
    ensures { result ≡ spec.fitted outcome written room }
{
    if written > room {
        return Err(PageFault::Full);
    }
    if matches!(outcome, Err(PageFault::Full)) && written < room {
        return Err(PageFault::Memory);
    }
    outcome
}

/// Writes a text to the front of memory, as far as there is room, and returns how far that is.
pub(crate) fn put_in_front(text: &[u8], memory: &mut [u8]) -> usize
    ensures stands { memory.new ≡ in_front text.now memory.old }
    ensures written { result ≡ min (length memory.old) (length text.now) }
{
    let count = text.len().min(memory.len());
    memory[..count].copy_from_slice(&text[..count]);
    count
}

//! The calls, as the page makes them. Each writes what follows the first `skip` bytes of its text, as far as there is room.

ghost use Rattle.std.specs.Prelude.{◌≡◌, ◌*◌, ◌≤◌, ◌==◌, not, None, false, length, min};
ghost use Rattle.std.specs.Int.{w32, w128, from_be_bytes};
ghost use Rattle.mq_count.specs.contracts.address_v4.Addr4 as addr4;
ghost use Rattle.mq_count.specs.contracts.address_v6.Addr6 as addr6;
ghost use Rattle.mq_wire.specs.Family.{Igmp as FamilyIgmp, Mld as FamilyMld};
ghost use Rattle.mq_page.specs.declared.page_fault.PageFault.{PageFault as ThePageFault};
ghost use Rattle.mq_page.specs.Asked.{check_asked, choice_asked, configuration_asked, replay_asked};
ghost use Rattle.mq_page.specs.Calls.{ChecksInto, ConvertsInto, ListsInto, ReplaysInto};
ghost use Rattle.mq_page.specs.Sentences.{sentence};
ghost use Rattle.mq_page.specs.Statuses.{number_of, status_of};
ghost use Rattle.mq_page.specs.Telling.{in_front};

use crate::answer::Answer;
use crate::checks::check_at;
use crate::chosen::Chosen;
use crate::conversion::convert_chosen;
use crate::listing::list;
use crate::replays::replay_to;
use crate::sentence::sentence_of;
use crate::settings::Settings;
use crate::status_faults::fault_of;
use crate::telling::put_in_front;
use mq_arena::LentMemory;
use mq_convert::Choice;
use mq_count::{Addr4, Addr6};
use mq_link::{Igmp, Mld};

/// Lists a capture: a line for each packet, or an object of JSON if `json` isn't 0.
#[unsafe(no_mangle)]
pub extern "C" fn page_show(
    json: u32,
    skip: usize,
    capture: &[u8],
    memory: LentMemory,
    text: &mut [u8],
) -> Answer
    ensures { ListsInto (not (json == 0)) skip capture.now (16 * memory.units) text.old text.new result }
{
    list(json != 0, skip, capture, memory.into_units(), text)
}

/// Writes all packets of a capture as one classic capture of Ethernet.
#[unsafe(no_mangle)]
pub extern "C" fn page_convert(
    skip: usize,
    capture: &[u8],
    memory: LentMemory,
    text: &mut [u8],
) -> Answer
    ensures { ConvertsInto (record { interface = None; vlan = None; once = false }) skip capture.now (16 * memory.units) text.old text.new result }
{
    let choice = Choice {
        interface: None,
        vlan: None,
        once: false,
    };
    convert_chosen(choice, skip, capture, memory.into_units(), text)
}

/// Writes the chosen packets of a capture as one classic capture of Ethernet.
#[unsafe(no_mangle)]
pub extern "C" fn page_convert_chosen(
    chosen: &Chosen,
    skip: usize,
    capture: &[u8],
    memory: LentMemory,
    text: &mut [u8],
) -> Answer
    ensures { ConvertsInto (choice_asked chosen.now) skip capture.now (16 * memory.units) text.old text.new result }
{
    convert_chosen(chosen.choice(), skip, capture, memory.into_units(), text)
}

/// Replays a capture to a querier of IGMP.
#[unsafe(no_mangle)]
pub extern "C" fn page_replay_igmp(
    own: &[u8; 4],
    settings: &Settings,
    skip: usize,
    capture: &[u8],
    memory: LentMemory,
    text: &mut [u8],
) -> Answer
    ensures { ReplaysInto addr4.the_row (configuration_asked FamilyIgmp (from_be_bytes w32 own.now) settings.now) (replay_asked settings.now) skip capture.now (16 * memory.units) text.old text.new result }
{
    replay_to::<Igmp>(
        Addr4::from_octets(*own),
        settings,
        skip,
        capture,
        memory.into_units(),
        text,
    )
}

/// Replays a capture to a querier of MLD.
#[unsafe(no_mangle)]
pub extern "C" fn page_replay_mld(
    own: &[u8; 16],
    settings: &Settings,
    skip: usize,
    capture: &[u8],
    memory: LentMemory,
    text: &mut [u8],
) -> Answer
    ensures { ReplaysInto addr6.the_row (configuration_asked FamilyMld (from_be_bytes w128 own.now) settings.now) (replay_asked settings.now) skip capture.now (16 * memory.units) text.old text.new result }
{
    replay_to::<Mld>(
        Addr6::from_octets(*own),
        settings,
        skip,
        capture,
        memory.into_units(),
        text,
    )
}

/// Checks the querier of IGMP that has an address.
#[unsafe(no_mangle)]
pub extern "C" fn page_check_igmp(
    own: &[u8; 4],
    settings: &Settings,
    skip: usize,
    capture: &[u8],
    memory: LentMemory,
    text: &mut [u8],
) -> Answer
    ensures { ChecksInto addr4.the_row (configuration_asked FamilyIgmp (from_be_bytes w32 own.now) settings.now) (check_asked settings.now) skip capture.now (16 * memory.units) text.old text.new result }
{
    check_at::<Igmp>(
        Addr4::from_octets(*own),
        settings,
        skip,
        capture,
        memory.into_units(),
        text,
    )
}

/// Checks the querier of MLD that has an address.
#[unsafe(no_mangle)]
pub extern "C" fn page_check_mld(
    own: &[u8; 16],
    settings: &Settings,
    skip: usize,
    capture: &[u8],
    memory: LentMemory,
    text: &mut [u8],
) -> Answer
    ensures { ChecksInto addr6.the_row (configuration_asked FamilyMld (from_be_bytes w128 own.now) settings.now) (check_asked settings.now) skip capture.now (16 * memory.units) text.old text.new result }
{
    check_at::<Mld>(
        Addr6::from_octets(*own),
        settings,
        skip,
        capture,
        memory.into_units(),
        text,
    )
}

/// Writes the sentence for the fault of an answer, as far as there is room, and returns its number of bytes. For an
/// answer without a fault it returns none.
#[unsafe(no_mangle)]
pub extern "C" fn page_fault_text(answer: &Answer, text: &mut [u8]) -> usize
    ensures room { result ≤ length text.old }
    ensures length { length text.new ≡ length text.old }
    ensures written { (fault : ThePageFault) → status_of fault ≡ answer.now.status → number_of fault ≡ answer.now.number → result ≡ min (length text.old) (length (sentence fault)) }
    ensures sentence { (fault : ThePageFault) → status_of fault ≡ answer.now.status → number_of fault ≡ answer.now.number → text.new ≡ in_front (sentence fault) text.old }
{
    match fault_of(answer.status, answer.number) {
        Some(fault) => put_in_front(sentence_of(fault).as_slice(), text),
        None => 0,
    }
}

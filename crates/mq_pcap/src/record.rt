//! One record of a capture.

ghost use Rattle.std.specs.Prelude.{◌≤◌, length};
ghost use Rattle.mq_pcap.specs.Capture.{most_bytes};
ghost use Rattle.mq_pcap.specs.Filling.{input_of};
ghost use Rattle.mq_pcap.specs.Reading.{Reads};

use crate::fault::PcapFault;
use crate::filling::fill;
use crate::form::Form;
use crate::reader_state::Packet;
use mq_count::Watched;
use std::io::Read;

/// The most bytes of a packet.
pub const GREATEST_PACKET: usize = 262_144;

/// The first record number that no capture may have.
const ENDLESS: u64 = 4_294_967_296;

/// The bytes of a record's header.
pub(crate) const RECORD_HEADER: usize = 16;

/// Reads the record of a number.
#[inline(always)]
pub(crate) fn read_record<R: Read>(
    form: Form,
    number: u64,
    reader: &mut Watched<R>,
    buffer: &mut [u8],
) -> Result<Option<Packet>, PcapFault>
    requires { most_bytes ≤ length buffer.old }
    ensures { Reads form number
        (input_of R.remaining reader.old) (input_of R.remaining reader.new)
        buffer.new result }
{
    if number >= ENDLESS {
        let mut byte = [0; 1];
        return match fill(reader, &mut byte)? {
            0 => Ok(None),
            _ => Err(PcapFault::Endless),
        };
    }
    let mut header = [0; RECORD_HEADER];
    let count = fill(reader, &mut header)?;
    if count == 0 {
        return Ok(None);
    }
    if count < RECORD_HEADER {
        return Err(PcapFault::CutHeader { number });
    }
    let length = form.order.double_word(&header, 8) as usize;
    if length > GREATEST_PACKET {
        return Err(PcapFault::TooLong { number });
    }
    if fill(reader, &mut buffer[..length])? < length {
        return Err(PcapFault::CutData { number });
    }
    let seconds = form.order.double_word(&header, 0);
    let fraction = form.order.double_word(&header, 4);
    Ok(Some(Packet {
        stamp_ms: u64::from(seconds) * 1000 + u64::from(form.fraction.whole_ms(fraction)),
        length,
    }))
}

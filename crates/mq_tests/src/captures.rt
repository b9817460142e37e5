//! Captures that are read in pieces, to their end or to a fault, also after as many records as a capture may have. Rows
//! of `tools/refuse.cases` have captures truncated at each length, other headers and moments.

use crate::facts::expect_none_wrong_at;
use crate::faulty::Faulty;
use mq_count::Watched;
use mq_pcap::{GREATEST_PACKET, Packet, PcapFault, PcapReader};
use std::alloc::Global;
use std::io::Read;
use std::process::Abort;

/// A capture of one packet: an IGMPv2 Report in an Ethernet frame of 60 bytes.
const CAPTURE: &[u8] =
    b"\xd4\xc3\xb2\xa1\x02\x00\x04\x00\x00\x00\x00\x00\x00\x00\x00\x00\x00\x00\x04\x00\x01\x00\x00\x00\x00\x00\x00\x00\x00\x00\x00\x00\x3c\x00\x00\x00\x3c\x00\x00\x00\x01\x00\x5e\x01\x02\x03\x02\x00\x00\x00\x00\x01\x08\x00\x45\x00\x00\x1c\x00\x00\x00\x00\x01\x02\x00\x00\x0a\x00\x00\x01\xef\x01\x02\x03\x16\x00\xf8\xfa\xef\x01\x02\x03\x00\x00\x00\x00\x00\x00\x00\x00\x00\x00\x00\x00\x00\x00\x00\x00\x00\x00";

/// The headers of a capture and of a packet that is too long.
const TOO_LONG: &[u8] =
    b"\xd4\xc3\xb2\xa1\x02\x00\x04\x00\x00\x00\x00\x00\x00\x00\x00\x00\x00\x00\x04\x00\x01\x00\x00\x00\x00\x00\x00\x00\x00\x00\x00\x00\x01\x00\x04\x00\x3c\x00\x00\x00";

/// The headers of a capture and of two packets without bytes.
const EMPTY: &[u8] =
    b"\xd4\xc3\xb2\xa1\x02\x00\x04\x00\x00\x00\x00\x00\x00\x00\x00\x00\x00\x00\x04\x00\x01\x00\x00\x00\x00\x00\x00\x00\x00\x00\x00\x00\x00\x00\x00\x00\x00\x00\x00\x00\x00\x00\x00\x00\x00\x00\x00\x00\x00\x00\x00\x00\x00\x00\x00\x00";

fn new_buffer(rt: &impl Abort, alloc: Global) -> Vec<u8> {
    vec![in alloc; 0; GREATEST_PACKET].expect(rt, "memory for a buffer")
}

/// The result of a call for the next packet.
type Answer = Result<Option<Packet>, PcapFault>;

const PACKET: Answer = Ok(Some(Packet {
    stamp_ms: 0,
    length: 60,
}));

const PACKET_OF_NO_BYTES: Answer = Ok(Some(Packet {
    stamp_ms: 0,
    length: 0,
}));

const NEVER: u64 = u64::MAX;

/// The most records of a capture.
const MOST: u32 = u32::MAX;

/// The name of a result.
#[derive(Clone, Copy)]
enum Name {
    Packet,
    Empty,
    End,
    CutHeader,
    CutData,
    TooLong,
    Endless,
    Failed,
}

/// Returns the result of this name for the record of a number.
fn answer_of(name: Name, number: u64) -> Answer {
    match name {
        Name::Packet => PACKET,
        Name::Empty => PACKET_OF_NO_BYTES,
        Name::End => Ok(None),
        Name::CutHeader => Err(PcapFault::CutHeader { number }),
        Name::CutData => Err(PcapFault::CutData { number }),
        Name::TooLong => Err(PcapFault::TooLong { number }),
        Name::Endless => Err(PcapFault::Endless),
        Name::Failed => Err(PcapFault::Read),
    }
}

/// A reading of a capture: its bytes, their number, the records before them, the size of the pieces, and the call of
/// its reader that fails. Then come the first result, and the result that is returned again and again.
type Row = (&'static [u8], usize, u32, usize, u64, Name, Name);

static ROWS: [Row; 12] = [
    (CAPTURE, 100, 0, 1, NEVER, Name::Packet, Name::End),
    (CAPTURE, 100, 0, 7, NEVER, Name::Packet, Name::End),
    (CAPTURE, 100, 0, 100, NEVER, Name::Packet, Name::End),
    (CAPTURE, 24, 0, 100, NEVER, Name::End, Name::End),
    (CAPTURE, 39, 0, 100, NEVER, Name::CutHeader, Name::CutHeader),
    (CAPTURE, 99, 0, 100, NEVER, Name::CutData, Name::CutData),
    (TOO_LONG, 40, 0, 100, NEVER, Name::TooLong, Name::TooLong),
    (EMPTY, 40, MOST - 1, 100, NEVER, Name::Empty, Name::End),
    (EMPTY, 41, MOST - 1, 100, NEVER, Name::Empty, Name::Endless),
    (
        EMPTY,
        39,
        MOST - 1,
        100,
        NEVER,
        Name::CutHeader,
        Name::CutHeader,
    ),
    (EMPTY, 25, MOST, 100, NEVER, Name::Endless, Name::Endless),
    (EMPTY, 24, MOST, 100, NEVER, Name::End, Name::End),
];

/// Returns whether the next result has this name, in a buffer that is long enough.
fn is_next<R: Read>(
    pcap: &mut PcapReader,
    reader: &mut Watched<R>,
    buffer: &mut [u8],
    want: Answer,
) -> bool {
    GREATEST_PACKET <= buffer.len() && pcap.next(reader, buffer) == want
}

/// Returns what is wrong with a capture that is read.
fn wrong_capture(row: &Row, buffer: &mut [u8]) -> Option<&'static str> {
    let (capture, length, before, piece, fails_at, first, then) = *row;
    let Some(bytes) = capture.get(..length) else {
        return Some("so many bytes");
    };
    let mut reader = Watched::new(Faulty::new(bytes, piece, fails_at));
    let Ok(opened) = PcapReader::open(&mut reader) else {
        return Some("it is opened");
    };
    let mut pcap = opened.after(before);
    let number = u64::from(before) + 1;
    if !is_next(&mut pcap, &mut reader, buffer, answer_of(first, number)) {
        return Some("what comes first");
    }
    if !is_next(&mut pcap, &mut reader, buffer, answer_of(then, number)) {
        return Some("what comes then");
    }
    if !is_next(&mut pcap, &mut reader, buffer, answer_of(then, number)) {
        return Some("what comes again");
    }
    if reader.failed() != matches!(then, Name::Failed) {
        return Some("whether the reader failed");
    }
    None
}

#[test]
fn reads_to_the_end_or_a_fault(rt: HostRuntime) {
    let mut buffer = new_buffer(&rt, rt.alloc());
    for place in 0..ROWS.len() {
        let wrong = wrong_capture(&ROWS[place], buffer.as_mut_slice());
        expect_none_wrong_at(&rt, wrong, place);
    }
}

/// Returns what is wrong if one byte is read a call, and this call and all later ones fail. The call is for the file's
/// header, for the packet's, for its bytes, or after the last.
fn wrong_failing(call: u64, buffer: &mut [u8]) -> Option<&'static str> {
    if call <= 24 {
        let mut reader = Watched::new(Faulty::new(CAPTURE, 1, call));
        return match PcapReader::open(&mut reader) {
            Err(PcapFault::Read) if reader.failed() => None,
            _ => Some("a header that can't be read"),
        };
    }
    let first = if call <= 100 {
        Name::Failed
    } else {
        Name::Packet
    };
    wrong_capture(&(CAPTURE, 100, 0, 1, call, first, Name::Failed), buffer)
}

#[test]
fn fails_at_each_read_and_again(rt: HostRuntime) {
    let mut buffer = new_buffer(&rt, rt.alloc());
    for call in 1..102 {
        let wrong = wrong_failing(call, buffer.as_mut_slice());
        expect_none_wrong_at(&rt, wrong, call as usize);
    }
}

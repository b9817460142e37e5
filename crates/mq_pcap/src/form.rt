//! The form of a capture, from the header of its file.

ghost use Rattle.std.specs.Prelude.{◌≡◌, ◌+◌, ◌≤◌, false, length, IfErr, IfOk};
ghost use Rattle.mq_pcap.specs.Capture.{is_read, header_of, header_in, field, milliseconds};

use crate::fault::PcapFault;
use crate::link_type::LinkType;
use byteorder::{BigEndian, ByteOrder, LittleEndian};

/// The order of the bytes of each field.
#[derive(Clone, Copy)]
pub enum Endian {
    /// Most significant byte first.
    Big,
    /// Least significant byte first.
    Little,
}

/// The unit of the fraction of a second in a record's time.
#[derive(Clone, Copy)]
pub enum Fraction {
    Microseconds,
    Nanoseconds,
}

/// The form of a capture's records.
#[derive(Clone, Copy)]
pub struct Form {
    pub order: Endian,
    pub fraction: Fraction,
    pub link: LinkType,
}

/// The bytes of a file's header.
pub(crate) const FILE_HEADER: usize = 24;

const MICROSECONDS: u32 = 0xa1b2_c3d4;

const NANOSECONDS: u32 = 0xa1b2_3c4d;

impl Endian {
    /// Returns the 16 bits at a place.
    pub fn word(self, bytes: &[u8], place: usize) -> u16
        requires { place + 2 ≤ length bytes.now }
        ensures { result ≡ field self place 2 bytes.now }
    {
        match self {
            Endian::Big => BigEndian::read_u16(&bytes[place..]),
            Endian::Little => LittleEndian::read_u16(&bytes[place..]),
        }
    }

    /// Returns the 32 bits at a place.
    pub fn double_word(self, bytes: &[u8], place: usize) -> u32
        requires { place + 4 ≤ length bytes.now }
        ensures { result ≡ field self place 4 bytes.now }
    {
        match self {
            Endian::Big => BigEndian::read_u32(&bytes[place..]),
            Endian::Little => LittleEndian::read_u32(&bytes[place..]),
        }
    }
}

impl Fraction {
    /// Returns the whole milliseconds of a fraction of a second.
    pub(crate) fn whole_ms(self, fraction: u32) -> u32
        ensures { result ≡ milliseconds self fraction }
    {
        match self {
            Fraction::Microseconds => fraction / 1000,
            Fraction::Nanoseconds => fraction / 1_000_000,
        }
    }
}

impl Form {
    /// Returns the form in a file's header, or the first fault.
    #[tactic(auto, unfolding(crate::specs::Capture::header_of))]
    pub(crate) fn of_header(bytes: &[u8]) -> Result<Form, PcapFault>
        ensures form { result ≡ header_of bytes.now }
        ensures whole { IfOk result (λ _. 24 ≤ length bytes.now) }
        ensures of_the_file { IfErr result (λ f. is_read f ≡ false) }
    {
        if bytes.len() < FILE_HEADER {
            return Err(PcapFault::CutHeader { number: 0 });
        }
        let big = Endian::Big.double_word(bytes, 0);
        let little = Endian::Little.double_word(bytes, 0);
        if big == MICROSECONDS {
            return Form::of_rest(Endian::Big, Fraction::Microseconds, bytes);
        }
        if big == NANOSECONDS {
            return Form::of_rest(Endian::Big, Fraction::Nanoseconds, bytes);
        }
        if little == MICROSECONDS {
            return Form::of_rest(Endian::Little, Fraction::Microseconds, bytes);
        }
        if little == NANOSECONDS {
            return Form::of_rest(Endian::Little, Fraction::Nanoseconds, bytes);
        }
        Err(PcapFault::Magic)
    }

    /// Returns the form in the rest of a file's header, after the magic number.
    #[tactic(auto, unfolding(crate::specs::Capture::header_in))]
    fn of_rest(order: Endian, fraction: Fraction, bytes: &[u8]) -> Result<Form, PcapFault>
        requires { 24 ≤ length bytes.now }
        ensures form { result ≡ header_in order fraction bytes.now }
        ensures of_the_file { IfErr result (λ f. is_read f ≡ false) }
    {
        if order.word(bytes, 4) != 2 || order.word(bytes, 6) != 4 {
            return Err(PcapFault::Version);
        }
        let link = match order.double_word(bytes, 20) % 65536 {
            1 => LinkType::Ethernet,
            101 => LinkType::RawIp,
            _ => return Err(PcapFault::LinkType),
        };
        Ok(Form {
            order,
            fraction,
            link,
        })
    }
}

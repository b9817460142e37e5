//! The packets of a capture, in order.

ghost use Rattle.std.specs.Prelude.{◌≡◌, ◌+◌, ◌≤◌, length};
ghost use Rattle.mq_pcap.specs.Capture.{most_bytes};
ghost use Rattle.mq_pcap.specs.Filling.{input_of};
ghost use Rattle.mq_pcap.specs.Reading.{Opens, Reads, form_of, number_of, progress_of, progress_after, records_in, IsAgain};

use crate::fault::PcapFault;
use crate::filling::fill;
use crate::form::{FILE_HEADER, Form};
use crate::link_type::LinkType;
use crate::reader_state::{NextRead, Packet, PcapReader, Progress};
use crate::record::{RECORD_HEADER, read_record};
use crate::supply::Supply;
use mq_count::Watched;
use std::io::Read;

impl PcapReader {
    /// Reads the header of a capture.
    pub fn open<R: Read>(reader: &mut Watched<R>) -> Result<PcapReader, PcapFault>
        ensures { Opens (input_of R.remaining reader.old) (input_of R.remaining reader.new) result }
    {
        let mut header = [0; FILE_HEADER];
        let count = fill(reader, &mut header)?;
        let form = Form::of_header(&header[..count])?;
        Ok(PcapReader {
            form,
            number: 1,
            progress: Progress::Reading,
        })
    }

    /// Returns the reader as it is after `count` records of the capture, whose next record has the following number.
    /// With it a program reads the rest of a capture whose first records it knows.
    pub fn after(self, count: u32) -> PcapReader
        ensures form { form_of result ≡ form_of self }
        ensures number { number_of result ≡ count + 1 }
        ensures progress { progress_of result ≡ progress_of self }
    {
        PcapReader {
            form: self.form,
            number: u64::from(count) + 1,
            progress: self.progress,
        }
    }

    /// Returns the link type of the capture.
    pub fn link(&self) -> LinkType
        ensures { result ≡ (form_of self.now).link }
    {
        self.form.link
    }

    /// Returns whether the read of the next record may wait, since not all its bytes are at hand.
    pub fn next_read<S: Supply>(&self, supply: &S) -> NextRead
        ensures { result.number ≡ number_of self.now }
    {
        let mut header = [0; RECORD_HEADER];
        let there = supply.at_hand(&mut header);
        let length = self.form.order.double_word(&header, 8) as usize;
        NextRead {
            number: self.number,
            may_wait: there < RECORD_HEADER || there - RECORD_HEADER < length,
        }
    }

    /// Reads the next packet into the front of `buffer`, or returns None at the end of the capture. `buffer` has room
    /// for `GREATEST_PACKET`. After a fault it returns the same fault, and after None it returns None. Then it neither
    /// reads nor writes.
    pub fn next<R: Read>(
        &mut self,
        reader: &mut Watched<R>,
        buffer: &mut [u8],
    ) -> Result<Option<Packet>, PcapFault>
        requires { most_bytes ≤ length buffer.old }
        ensures reads { progress_of self.old ≡ Progress.Reading
            → Reads (form_of self.old) (number_of self.old)
            (input_of R.remaining reader.old) (input_of R.remaining reader.new)
            buffer.new result }
        ensures again { IsAgain (progress_of self.old) result }
        ensures untouched { (progress_of self.old ≡ Progress.Reading → ⊥)
            → (reader.new ≡ reader.old) × (buffer.new ≡ buffer.old) }
        ensures form { form_of self.new ≡ form_of self.old }
        ensures number { number_of self.new ≡ number_of self.old + records_in result }
        ensures progress { progress_of self.new ≡ progress_after result }
    {
        match self.progress {
            Progress::Ended => return Ok(None),
            Progress::Stopped(fault) => return Err(fault),
            Progress::Reading => {}
        }
        let answer = read_record(self.form, self.number, reader, buffer);
        match &answer {
            Ok(Some(_)) => self.number += 1,
            Ok(None) => self.progress = Progress::Ended,
            Err(fault) => self.progress = Progress::Stopped(*fault),
        }
        answer
    }
}

//! The input of a check: a file, which is read more than once, or a stream, whose first bytes are kept.

ghost use Rattle.std.specs.Prelude.{◌≤◌, IfOk, length};
ghost use Rattle.mq_convert.specs.Sizes.{most_seen};

use crate::chosen::{CheckedPackets, packets_of};
use crate::console::Console;
use crate::converted::{perform_converted, perform_twice};
use crate::failure::{FAULTY, REFUSED};
use crate::foreign::tell_kind;
use crate::networks::tell_networks;
use crate::program::perform;
use crate::source::Source;
use crate::taking::{names_querier, taking_of};
use crate::unopened::{refuse_file, tell_failed_read, tell_late_querier};
use crate::unseen::{refusal_of, seek};
use arrayvec::ArrayVec;
use mq_command::{Protocol, Request};
use mq_convert::{ConvertFault, FIRST_BYTES, MOST_SEEN, find_networks, is_converted};
use mq_count::Watched;
use std::alloc::Global;
use std::fs::File;
use std::io;
use std::io::{ErrorKind, Read, Write};

/// The most bytes of a stream that are kept to find a querier.
const KEPT: usize = 1 << 26;

/// The most bytes of a stream in which networks are looked for, unless more are kept.
const SEARCHED: usize = 1 << 24;

/// A request for a check.
#[derive(Clone, Copy)]
pub(crate) struct Check<'a> {
    request: &'a Request<'a>,
    protocol: Protocol,
    packets: CheckedPackets,
    /// True if the capture names the querier.
    is_taken: bool,
    /// True if the capture begins before a querier that the request names. Then it isn't searched for the querier.
    began: bool,
}

/// Returns the check, if the request is one for a check.
pub(crate) fn check_of<'a>(request: &'a Request<'a>) -> Option<Check<'a>> {
    let Request::Check {
        protocol,
        flags,
        ..
    } = request
    else {
        return None;
    };
    let is_taken = taking_of(request).is_some();
    Some(Check {
        request,
        protocol: *protocol,
        packets: packets_of(request)?,
        is_taken,
        began: flags.began && !is_taken,
    })
}

/// Returns the file with this name. If it can't be opened, it reports the reason, and the status is `FAULTY`.
pub(crate) fn opened<E: Write>(
    rt: &HostRuntime,
    name: &str,
    errors: &mut Watched<E>,
) -> io::Result<Option<File>> {
    match File::open(rt, name) {
        Ok(file) => Ok(Some(file)),
        Err(error) => {
            let reason = format!(in rt.alloc(); "{error}")?;
            refuse_file(name, &reason, errors);
            Ok(None)
        }
    }
}

impl Check<'_> {
    /// Checks the capture in a file. It is read once to look for networks. A file that can be read only once is a stream.
    pub(crate) fn on_file<W: Write, E: Write>(
        &self,
        rt: &HostRuntime,
        name: &str,
        console: &mut Console<W, E>,
    ) -> io::Result<u8> {
        let alloc = rt.alloc();
        let Some(file) = opened(rt, name, &mut console.errors)? else {
            return Ok(FAULTY);
        };
        if !file.metadata().is_ok_and(|it| it.is_file()) {
            return self.on_stream(alloc, file, console);
        }
        let source = Source::new(alloc, file)?;
        if let Some(status) = self.refusal(alloc, &source, &mut console.errors)? {
            return Ok(status);
        }
        let converts = self.converts(&source.first());
        let Some(file) = opened(rt, name, &mut console.errors)? else {
            return Ok(FAULTY);
        };
        let again = Source::new(alloc, file)?;
        if converts || self.began {
            return Ok(self.on_source(alloc, converts, &again, console));
        }
        let Some(file) = opened(rt, name, &mut console.errors)? else {
            return Ok(FAULTY);
        };
        let third = Source::new(alloc, file)?;
        Ok(self.run_twice(alloc, again, third, console))
    }

    /// Checks the capture that a stream returns.
    pub(crate) fn on_stream<R: Read + Drop, W: Write, E: Write>(
        &self,
        alloc: Global,
        stream: R,
        console: &mut Console<W, E>,
    ) -> io::Result<u8> {
        let mut stream = stream;
        let mut head = [0; FIRST_BYTES];
        let Ok(count) = read_head(&mut stream, &mut head) else {
            return Ok(tell_failed_read(&mut console.errors));
        };
        let head = &head[..count];
        if self.is_taken || self.converts(head) {
            self.on_kept(alloc, head, stream, console)
        } else if self.began {
            self.on_running_stream(alloc, head, stream, console)
        } else {
            self.seeking_from(alloc, head, stream, console)
        }
    }

    /// Checks a capture that has to be converted, or that names the querier. It begins with `head` and then continues with
    /// `stream`. Its first bytes are kept and looked through before. If it names the querier, they have to do so.
    fn on_kept<R: Read + Drop, W: Write, E: Write>(
        &self,
        alloc: Global,
        head: &[u8],
        stream: R,
        console: &mut Console<W, E>,
    ) -> io::Result<u8> {
        let mut stream = stream;
        let converts = self.converts(head);
        let most = if converts { SEARCHED } else { KEPT };
        let mut kept = Vec::new(alloc);
        if let Some(status) = keep(head, &mut stream, most, &mut kept, &mut console.errors)? {
            return Ok(status);
        }
        let bytes = kept.as_slice();
        if let Some(status) = self.refusal(alloc, bytes, &mut console.errors)? {
            return Ok(status);
        }
        if bytes.len() == KEPT && !names_querier(alloc, self.protocol, bytes) {
            return Ok(tell_late_querier(&mut console.errors));
        }
        let again = Source::new(alloc, bytes.chain(stream))?;
        if converts {
            return Ok(self.on_source(alloc, true, &again, console));
        }
        let first = Source::new(alloc, bytes)?;
        Ok(self.run_twice(alloc, first, again, console))
    }

    /// Checks a capture while it comes, from the first message of the querier on. The bytes up to that are kept. If they don't
    /// suffice, it is checked without such a message.
    fn seeking_from<R: Read + Drop, W: Write, E: Write>(
        &self,
        alloc: Global,
        head: &[u8],
        stream: R,
        console: &mut Console<W, E>,
    ) -> io::Result<u8> {
        let mut stream = stream;
        let searched = head.chain(&mut stream).take(SEARCHED as u64);
        let source = Source::keeping(alloc, searched, SEARCHED)?;
        let found = seek(alloc, self.request, &mut Watched::new(&source));
        let kept = source.into_kept();
        // Before a read the kept bytes lack the head.
        let bytes = if kept.is_empty() {
            head
        } else {
            kept.as_slice()
        };
        if bytes.len() < SEARCHED && !matches!(found, Ok(false)) {
            if let Some(status) = self.refusal(alloc, bytes, &mut console.errors)? {
                return Ok(status);
            }
            if let Some(status) = refusal_of(found, &mut console.errors) {
                return Ok(status);
            }
        }
        self.on_running_stream(alloc, bytes, stream, console)
    }

    /// Checks a capture while it comes. Its first bytes are kept, and looked through after the check.
    fn on_running_stream<R: Read + Drop, W: Write, E: Write>(
        &self,
        alloc: Global,
        head: &[u8],
        stream: R,
        console: &mut Console<W, E>,
    ) -> io::Result<u8> {
        let mut block = vec![in alloc; 0; MOST_SEEN]?;
        let source = Source::keeping(alloc, head.chain(stream), SEARCHED)?;
        let status = self.on_source(alloc, false, &source, console);
        if status == FAULTY || status == REFUSED {
            return Ok(status);
        }
        let kept = source.into_kept();
        let refusal = self.refusal_in(block.as_mut_slice(), kept.as_slice(), &mut console.errors);
        Ok(refusal.unwrap_or(status))
    }

    /// Checks the capture of this source once: as it is, or its conversion.
    fn on_source<R: Read, W: Write, E: Write>(
        &self,
        alloc: Global,
        converts: bool,
        source: &Source<R>,
        console: &mut Console<W, E>,
    ) -> u8 {
        let mut input = Watched::new(source);
        let status = if converts {
            let choice = self.packets.choice;
            perform_converted(alloc, choice, self.request, &mut input, console)
        } else {
            perform(alloc, self.request, source, &mut input, console)
        };
        tell_kind(status, source.first(), true, &mut console.errors);
        status
    }

    /// Runs a check that reads the capture twice. `first` and `again` read the same capture, `first` perhaps only its
    /// beginning.
    fn run_twice<Q: Read + Drop, R: Read + Drop, W: Write, E: Write>(
        &self,
        alloc: Global,
        first: Source<Q>,
        again: Source<R>,
        console: &mut Console<W, E>,
    ) -> u8 {
        let mut before = Watched::new(&first);
        let mut input = Watched::new(&again);
        let status = perform_twice(
            alloc,
            self.request,
            &mut before,
            &again,
            &mut input,
            console,
        );
        tell_kind(status, first.first(), true, &mut console.errors);
        status
    }

    /// Returns whether a capture with these first bytes has to be converted.
    fn converts(&self, head: &[u8]) -> bool {
        !self.packets.choice.is_all() || is_converted(head)
    }

    /// Reports the networks of a capture if there are several, or a failed read, and returns the status.
    fn refusal<R: Read + Drop, E: Write>(
        &self,
        alloc: Global,
        reader: R,
        errors: &mut Watched<E>,
    ) -> io::Result<Option<u8>> {
        let mut block = vec![in alloc; 0; MOST_SEEN]?;
        Ok(self.refusal_in(block.as_mut_slice(), reader, errors))
    }

    /// Reports them like `refusal`, with room for a block. The networks are those before a fault of the capture.
    fn refusal_in<R: Read + Drop, E: Write>(
        &self,
        block: &mut [u8],
        reader: R,
        errors: &mut Watched<E>,
    ) -> Option<u8>
        requires { most_seen ≤ length block.old }
    {
        let messages = self.packets.messages?;
        let choice = self.packets.choice;
        let mut networks = ArrayVec::new();
        let mut reader = Watched::new(reader);
        match find_networks(messages, choice, block, &mut reader, &mut networks) {
            Err(ConvertFault::Read) => Some(tell_failed_read(errors)),
            _ if networks.len() > 1 => Some(tell_networks(networks.as_slice(), errors)),
            _ => None,
        }
    }
}

/// Reads the first bytes of a stream, and returns their number. There are fewer if the stream ends before.
fn read_head<R: Read>(stream: &mut R, head: &mut [u8; FIRST_BYTES]) -> io::Result<usize>
    ensures { IfOk result (λ count. count ≤ 24) }
{
    let mut count = 0;
    while count < FIRST_BYTES {
        let more = stream.read(&mut head[count..])?;
        if more == 0 {
            break;
        }
        count += more;
    }
    Ok(count)
}

/// Keeps `head` and the bytes of a stream that follow, at most `most` together. If a read fails, it reports that and
/// returns the status.
fn keep<R: Read, E: Write>(
    head: &[u8],
    stream: &mut R,
    most: usize,
    kept: &mut Vec<u8>,
    errors: &mut Watched<E>,
) -> io::Result<Option<u8>> {
    kept.extend_from_slice(head)?;
    let rest = most.saturating_sub(head.len());
    match stream.take(rest as u64).read_to_end(kept) {
        Ok(_) => Ok(None),
        Err(error) if error.kind() == ErrorKind::OutOfMemory => Err(error),
        Err(_) => Ok(Some(tell_failed_read(errors))),
    }
}

//! The command line of `mquerier`, parsed by `clap`: its requests and its help.
#![tactic(auto)]

ghost use Rattle.std.specs.Prelude.{IfSome};
ghost use Rattle.mq_command.specs.Requests.{IsMessageOf, IsShowOf, IsFamily};

mod arguments;
mod check;
mod convert;
mod replay;

use arguments::{FILE, Form, JSON, Kind, command_of};
pub use check::CheckFlags;
use clap::error::ErrorKind;
use clap::{ArgMatches, Command, Error};
pub use replay::Settings;
use std::alloc::{AllocError, Global};
use std::convert::AsStr;

/// The version, as `MQ_VERSION_TEXT` of include/mquerier.h has it.
pub const VERSION: &str = "3.0.0";

/// A command of the command line, with its arguments.
#[derive(Clone, Copy)]
pub enum Request<'a> {
    /// The line of one message, whose bytes are given in hexadecimal.
    Message {
        /// The message's protocol.
        protocol: Protocol,
        /// The bytes, two digits each.
        hex: &'a str,
        /// The source of the packet, if given.
        from: Option<&'a str>,
        /// The destination of the packet, if given.
        to: Option<&'a str>,
        /// Prints an object of JSON.
        json: bool,
    },
    /// The conversion of a capture to a classic capture of Ethernet, which `show` and `replay` read.
    Convert {
        /// The interface whose packets are written. None stands for all interfaces.
        interface: Option<Interface<'a>>,
        /// The network that the outermost tag of each written packet names, if given.
        vlan: Option<u64>,
        /// Leaves out a packet whose frame was already written, at nearly the same time.
        once: bool,
        /// Prints the counts as an object of JSON.
        json: bool,
        /// The file that the capture is in.
        file: Option<&'a str>,
    },
    /// The listing of the capture.
    Show {
        /// Prints an object of JSON for each line.
        json: bool,
        /// The file that the capture is in.
        file: Option<&'a str>,
    },
    /// The replay of a capture by a querier.
    Replay {
        /// The querier's protocol.
        protocol: Protocol,
        /// The querier's own address.
        own: &'a str,
        /// Its variables and limits.
        settings: Settings,
        /// The time until which it runs at least, in milliseconds after the first packet, if given.
        until: Option<u64>,
        /// Prints changed groups.
        changes: bool,
        /// Prints an object of JSON for each line.
        json: bool,
        /// The file that the capture is in.
        file: Option<&'a str>,
    },
    /// The comparison of a capture's querier with the standards.
    Check {
        /// The querier's protocol.
        protocol: Protocol,
        /// Its address, or `auto` for the querier that the capture names.
        querier: &'a str,
        /// Its variables, and the limits of the querier that it is compared with.
        settings: Settings,
        /// The most milliseconds that a query may be early or late, if given.
        within: Option<u32>,
        /// The flags.
        flags: CheckFlags,
        /// The time until which the capture lasts at least, in milliseconds after the first packet, if given.
        until: Option<u64>,
        /// The packets of the capture that are checked.
        packets: Packets<'a>,
        /// The file that the capture is in.
        file: Option<&'a str>,
    },
}

/// The packets of a capture that are read. The rest is left out.
#[derive(Clone, Copy)]
pub struct Packets<'a> {
    /// The interface of the packets. None stands for all interfaces.
    pub interface: Option<Interface<'a>>,
    /// The network that the outermost tag of each packet names, if given.
    pub vlan: Option<u64>,
    /// Leaves out a packet whose frame was already read, at nearly the same time.
    pub once: bool,
}

impl<'a> Request<'a> {
    /// Returns the name of the input file, or None for standard input.
    pub fn file(&self) -> Option<&'a str> {
        let file = match self {
            Request::Message { .. } => None,
            Request::Convert { file, .. }
            | Request::Show { file, .. }
            | Request::Replay { file, .. }
            | Request::Check { file, .. } => *file,
        };
        match file {
            Some("-") | None => None,
            Some(name) => Some(name),
        }
    }
}

/// An interface of a capture.
#[derive(Clone, Copy)]
pub enum Interface<'a> {
    /// The interface with this number.
    Number(u64),
    /// The interface with this name.
    Name(&'a str),
}

/// A protocol of messages.
#[derive(Clone, Copy)]
pub enum Protocol {
    Igmp,
    Mld,
}

/// Parses a command line, whose first word is the program's name. Its errors are those of `clap`.
pub fn request_of<'a, S: AsStr>(alloc: Global, words: &'a [S]) -> Result<Request<'a>, Error> {
    let mut command = command(alloc, [&replay::FORM, check::form()])?;
    asked(&mut command, words)
}

// The forms with most text come from the caller, since a proof over the text of all takes far longer.
fn command<'a>(alloc: Global, longest: [&'static Form; 2]) -> Result<Command<'a>, AllocError> {
    let mut commands = Vec::new(alloc);
    for form in [&MESSAGE, &convert::FORM, &SHOW] {
        commands.push(command_of(alloc, form)?)?;
    }
    for form in longest {
        commands.push(command_of(alloc, form)?)?;
    }
    Command::new(alloc, "mquerier")
        .version(VERSION)
        .about(ABOUT)
        .after_help(AFTER_HELP)
        .subcommand_required(true)
        .arg_required_else_help(true)
        .subcommands(commands)
}

// The command and its matches are locals of two functions, since a proof over both takes far longer.
fn asked<'a, S: AsStr>(command: &mut Command<'a>, words: &'a [S]) -> Result<Request<'a>, Error> {
    let matches = command.try_get_matches_from_mut(words)?;
    match request_in(&matches) {
        Some(request) => Ok(request),
        None => Err(command.error(ErrorKind::MissingSubcommand, "a command is needed")?),
    }
}

/// Returns the request of matched words. `clap` rejects words without a command or without a required argument.
fn request_in<'a>(matches: &ArgMatches<'a>) -> Option<Request<'a>> {
    match matches.subcommand()? {
        ("message", words) => message_in(words),
        ("convert", words) => Some(convert::request_in(words)),
        ("show", words) => Some(show_in(words)),
        ("check", words) => check::request_in(words),
        (_, words) => replay::request_in(words),
    }
}

fn message_in<'a>(words: &ArgMatches<'a>) -> Option<Request<'a>>
    ensures { IfSome result (IsMessageOf words.now) }
{
    Some(Request::Message {
        protocol: protocol_in(words),
        hex: words.get_str("HEX")?,
        from: words.get_str("from"),
        to: words.get_str("to"),
        json: words.get_flag("json"),
    })
}

fn show_in<'a>(words: &ArgMatches<'a>) -> Request<'a>
    ensures { IsShowOf words.now result }
{
    Request::Show {
        json: words.get_flag("json"),
        file: words.get_str("FILE"),
    }
}

/// Returns the protocol. `clap` rejects every name that isn't listed.
fn protocol_in(words: &ArgMatches<'_>) -> Protocol
    ensures { IsFamily words.now result }
{
    match words.get_str("FAMILY") {
        Some("mld") => Protocol::Mld,
        _ => Protocol::Igmp,
    }
}

const ABOUT: &str = "Reads, converts, replays and checks captures of IGMP and MLD.";

const AFTER_HELP: &str = "\
Examples:
  mquerier show capture.pcap
      prints a line for each packet
  mquerier convert capture.pcapng | mquerier show
      does so for a file in another form, as Wireshark and tcpdump -i any save it
  mquerier replay igmp --own 10.0.0.9 capture.pcap
      prints what a querier at 10.0.0.9 would have sent and learned
  mquerier check igmp --querier 10.0.0.1 capture.pcap
      prints what the querier at 10.0.0.1 does otherwise than the standards want
  mquerier message igmp 1600f8faef010203
      prints: report v2 group 239.1.2.3

FILE is the name of a capture. Without a name, or with -, it is standard input.

Status:
  0 all is done, and a check found nothing
  1 the input is faulty, the output failed or memory ran out
  2 the command line is faulty, or help was asked for
  3 a check found something
  4 a check had nothing to judge

docs/FORMATS.md of the sources explains every line and every status.";

static MESSAGE: Form = Form {
    name: "message",
    about: "Prints what one message says, or its first fault",
    after_help: MESSAGE_AFTER_HELP,
    arguments: &[&[
        ("FAMILY", Kind::Family, "The protocol of the message"),
        ("HEX", Kind::NeededWord, HEX_HELP),
        ("from", Kind::Text("ADDR"), FROM_HELP),
        ("to", Kind::Text("ADDR"), TO_HELP),
        JSON,
    ]],
};

const HEX_HELP: &str = "The message in hexadecimal, without the IP header";

const FROM_HELP: &str = "The source of the message's packet";

const TO_HELP: &str = "The destination of the message's packet";

const MESSAGE_AFTER_HELP: &str = "\
Examples:
  mquerier message igmp 1600f8faef010203
      prints: report v2 group 239.1.2.3
  mquerier message igmp 1700f7faef010203
      prints: leave group 239.1.2.3
  mquerier message igmp 2200e5f90000000105000001e80101010a000001
      prints: report v3 records 1 [ALLOW 232.1.1.1 10.0.0.1]
  mquerier message mld --from fe80::2 --to ff02::16 8f002efe0000000105000001ff0e\
000000000000000000000000123420010db8000000000000000000000001
      prints: report v2 records 1 [ALLOW ff0e::1234 2001:db8::1]
  mquerier message igmp 1600e9ff
      prints: fault 1 truncated at 4

The checksum of an MLD message covers the source and the destination of its packet, so mld needs --from and
--to. With igmp they are read and not used.

The line of a fault goes to standard output too, and the status is 1:
  fault 1 truncated at N  the field that begins at byte N is incomplete
  fault 2 checksum        the checksum is wrong
  fault 3 unknown type    no message has this type
  fault 4 query length    no version has a query of this length

docs/FORMATS.md of the sources, \"Lines of messages\", explains every line.";

static SHOW: Form = Form {
    name: "show",
    about: "Prints a line for each packet of a capture",
    after_help: SHOW_AFTER_HELP,
    arguments: &[&[FILE, JSON]],
};

const SHOW_AFTER_HELP: &str = "\
Example:
  mquerier show capture.pcap
      prints, for a packet: 38 9599 10.9.0.12 igmp report v2 group 239.1.2.4

A line has the number of the packet and its time in milliseconds after the first one. Then it has the source,
the protocol and the message, or the message's fault. For other packets it has one of these words:
  other     a packet of something else
  cut       a packet that is incomplete in the capture
  fragment  a fragment of a packet

To get a capture:
  tcpdump -i INTERFACE -w capture.pcap 'igmp or icmp6 or (ip6 and ip6[6] = 0)'
It has to be a classic capture file of Ethernet or raw IP. mquerier convert makes one of other kinds.

A fault of the capture is one line on standard error, \"mquerier: capture fault K\", for K of 5 to 7 with
\"at record N\". The lines of all packets before it are printed, and the status is 1:
  1 a read of the capture failed
  2 it is no classic capture file; mquerier convert makes one of a pcapng file
  3 the version of the file is not 2.4
  4 the link type is neither Ethernet nor raw IP; mquerier convert makes a file of Ethernet
  5 the file ends within a header
  6 the file ends within a packet
  7 the packet has more than 262144 bytes
  8 the file has more than 4294967295 packets

docs/FORMATS.md of the sources, \"Lines of captures\", explains every line.";

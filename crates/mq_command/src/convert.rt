//! The command `convert`: its options and its request.

ghost use Rattle.std.specs.Prelude.{codes};
ghost use Rattle.clap.specs.Matches.{found_of, first_value};
ghost use Rattle.mq_command.specs.Requests.{IsConvertOf, IsInterface};

use crate::arguments::{FILE, Form, Kind};
use crate::{Interface, Request};
use clap::ArgMatches;

/// Returns the request of the command's words.
pub(crate) fn request_in<'a>(words: &ArgMatches<'a>) -> Request<'a>
    ensures { IsConvertOf words.now result }
{
    Request::Convert {
        interface: interface_in(words),
        vlan: words.get_one::<u64>("vlan"),
        once: words.get_flag("once"),
        json: words.get_flag("json"),
        file: words.get_str("FILE"),
    }
}

/// Returns the chosen interface. A text that is a number is never read as a name.
pub(crate) fn interface_in<'a>(words: &ArgMatches<'a>) -> Option<Interface<'a>>
    ensures { IsInterface (first_value (found_of words.now) (codes "interface")) result }
{
    let text = words.get_str("interface")?;
    match text.parse::<u64>() {
        Ok(number) => Some(Interface::Number(number)),
        Err(_) => Some(Interface::Name(text)),
    }
}

pub(crate) static FORM: Form = Form {
    name: "convert",
    about: "Writes a capture as a classic one of Ethernet, as show and replay read it",
    after_help: AFTER_HELP,
    arguments: &[&[
        ("interface", Kind::Text("WHICH"), INTERFACE_HELP),
        ("vlan", Kind::Long("ID"), VLAN_HELP),
        ("once", Kind::Flag, ONCE_HELP),
        ("json", Kind::Flag, JSON_HELP),
        FILE,
    ]],
};

const INTERFACE_HELP: &str = "\
Write only the packets of this interface. A number counts interfaces from 0
in the order in which the file describes them; for Linux cooked captures of
version 2 (276) it is the index in the header of each packet, as ip link
shows it. Other text is a name of at most 16 bytes, which a pcapng file gives
to its interfaces [default: all]";

const VLAN_HELP: &str =
    "Write only packets whose outermost tag names this network, 0 to 4095 [default: all]";

const ONCE_HELP: &str = "\
Leave out a packet whose frame was already written, at a time at most 5 ms
earlier or later, whatever its interface, direction and tags are. It is
compared with the last 256 packets written. It is always written if bytes of
it are missing, or if its frame exceeds 2048 bytes";

const JSON_HELP: &str = "\
Print the counts on standard error as one object of JSON, also if all are 0";

const AFTER_HELP: &str = "\
Examples:
  mquerier convert capture.pcapng | mquerier show
      lists the packets of a file that Wireshark saved
  mquerier convert --once any.pcap | mquerier check igmp --querier 10.0.0.1
      checks a capture of tcpdump -i any, which has each packet of a bridge twice or more
  mquerier convert --vlan 20 mirror.pcap | mquerier replay igmp --own 10.20.0.9
      replays network 20 of what a mirror port sent

It reads classic captures with all four magic numbers, and pcapng files. It reads these link types: Ethernet
(1), raw IP (101, 12, 14, 228, 229), Linux cooked (113, 276) and BSD loopback (0, 108). For each packet it
writes one record of Ethernet, without tags of 802.1Q and 802.1ad, with its time in nanoseconds. A packet of
another link type becomes one of type 0xffff, which show lists as other.

These lines on standard error leave the status 0:
  mquerier: N packets that came again are left out
  mquerier: the file records N dropped packets
  mquerier: N packets of link types that aren't read
      with a line for each of the first 16 of these link types

A fault of the file is a line there, \"mquerier: conversion fault K\", for K of 2 to 10 with \"at block N\". The
next line has its words below. The packets before it are written, and the status is 1:
  1 a read of the capture failed
  2 the file is no capture
  3 the version of the file is not 2.4, or of a pcapng file not 1
  4 the section is in no byte order
  5 the block has an impossible length
  6 the packet is of an interface that the file did not describe before
  7 the section describes more than 1024 interfaces
  8 the packet is from before 1970 or after 2106
  9 the file ends within the block
  10 the file has more than 4294967295 blocks before it
Blocks are counted from 0, the header of the file. In a classic capture block N is packet N.

docs/FORMATS.md of the sources, \"Captures that are converted\", has the rest.";

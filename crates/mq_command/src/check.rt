//! The command `check`: its options and its request.

ghost use Rattle.std.specs.Prelude.{IfSome};
ghost use Rattle.mq_command.specs.Requests.{IsCheckOf};

use crate::arguments::{Argument, FILE, Form, JSON, Kind};
use crate::convert::interface_in;
use crate::replay::{SPAN, VARIABLES, settings_in};
use crate::{Packets, Request, protocol_in};
use clap::ArgMatches;

/// The flags of a check.
#[derive(Clone, Copy)]
pub struct CheckFlags {
    /// The capture begins before the querier, so each finding is certain.
    pub began: bool,
    /// Prints the section of the standard after each line.
    pub cite: bool,
    /// Prints the number of the packet after each line.
    pub packets: bool,
    /// Prints possible findings.
    pub possible: bool,
    /// Accepts only this project's own readings of the standard.
    pub strict: bool,
    /// Prints an object of JSON for each line.
    pub json: bool,
}

/// Returns the request of the command's words.
pub(crate) fn request_in<'a>(words: &ArgMatches<'a>) -> Option<Request<'a>>
    ensures { IfSome result (IsCheckOf words.now) }
{
    Some(Request::Check {
        protocol: protocol_in(words),
        querier: words.get_str("querier")?,
        settings: settings_in(words),
        within: words.get_one::<u32>("within"),
        flags: CheckFlags {
            began: words.get_flag("began"),
            cite: words.get_flag("cite"),
            packets: words.get_flag("packets"),
            possible: words.get_flag("possible"),
            strict: words.get_flag("strict"),
            json: words.get_flag("json"),
        },
        until: words.get_one::<u64>("until"),
        packets: Packets {
            interface: interface_in(words),
            vlan: words.get_one::<u64>("vlan"),
            once: words.get_flag("once"),
        },
        file: words.get_str("FILE"),
    })
}

/// Returns the form of the command. A proof over it and over other forms takes far longer.
pub(crate) fn form() -> &'static Form {
    &FORM
}

static FORM: Form = Form {
    name: "check",
    about: "Compares the queries of a querier in a capture with those that the standards want",
    after_help: AFTER_HELP,
    arguments: &[ARGUMENTS, VARIABLES, LIMITS, SPAN],
};

const ARGUMENTS: &[Argument] = &[
    ("FAMILY", Kind::Family, "The querier's protocol"),
    FILE,
    ("querier", Kind::NeededText("ADDR|auto"), QUERIER_HELP),
    ("interface", Kind::Text("WHICH"), INTERFACE_HELP),
    ("vlan", Kind::Long("ID"), VLAN_HELP),
    ("once", Kind::Flag, ONCE_HELP),
    ("within", Kind::Number("MS"), WITHIN_HELP),
    ("began", Kind::Flag, BEGAN_HELP),
    ("possible", Kind::Flag, POSSIBLE_HELP),
    ("cite", Kind::Flag, CITE_HELP),
    ("packets", Kind::Flag, PACKETS_HELP),
    ("strict", Kind::Flag, STRICT_HELP),
    JSON,
];

/// The limits of the querier that the capture is compared with.
const LIMITS: &[Argument] = &[
    (
        "groups",
        Kind::Number("N"),
        "Limit of the groups, 1 to 65535 [default: 65535]",
    ),
    (
        "group-sources",
        Kind::Number("N"),
        "Limit of a group's sources, 1 to 1024 [default: 1024]",
    ),
    ("sources", Kind::Number("N"), SOURCES_HELP),
    ("scheduled", Kind::Number("N"), SCHEDULED_HELP),
];

const SOURCES_HELP: &str = "\
Limit of all groups' sources together, 1 to 65535 [default: 65535]";

const SCHEDULED_HELP: &str = "\
Limit of the schedules of specific queries, of which a group has up to two,
1 to 65535 [default: 65535]";

const QUERIER_HELP: &str = "\
The address of the querier; for mld a link-local one, in fe80::/10. auto takes
it and the variables that aren't given from the capture. Of standard input the
first 64 MiB are kept for that";

const INTERFACE_HELP: &str = "\
Check only the packets of this interface, by its number or its name, as
convert --help explains them [default: all]";

const VLAN_HELP: &str =
    "Check only packets whose outermost tag names this network, 0 to 4095 [default: all]";

const ONCE_HELP: &str = "\
Leave out packets that come again, as convert --help explains it, and take all
interfaces and tags for one network";

const WITHIN_HELP: &str = "How many milliseconds earlier or later a query may be [default: 100]";

const BEGAN_HELP: &str =
    "The capture begins before the querier: it held no group and had heard no host";

const POSSIBLE_HELP: &str = "\
Also print the possible findings, which another reading of the standard may
explain, or what the querier held before the capture";

const CITE_HELP: &str = "Print after each line the section of the standard";

const PACKETS_HELP: &str = "Print after each line the number of the packet";

const STRICT_HELP: &str = "Also report what only another reading of the standard allows";

const AFTER_HELP: &str = "\
Examples:
  mquerier check igmp --querier auto capture.pcap
      checks the elected querier of the capture, which has the lowest address, with the variables that its queries
      have; the last line has them: taken from the capture: querier 10.0.0.1 rv 2 qi 125 qri 10000 lmqi 1000
  mquerier check igmp --querier 10.0.0.1 capture.pcap
      prints this, if it asked for a source with a response of 500 ms, and again a second too early:
          4263 differs 232.1.1.1 10.0.0.101: response 500, wanted 1000
          4263 extra 232.1.1.1 10.0.0.101
          5263 missing 232.1.1.1 10.0.0.101
          checked general 1 specific 2: 3 findings
          packets 9 messages 9 malformed 0 cut 0 unread 0; groups held before 0 are unknown
          querier 10.0.0.1 from 0
  mquerier check igmp --querier 10.0.0.1 --once any.pcap
      checks a capture that has packets twice, as tcpdump -i any and mirror ports make them

A querier with this address and these variables starts with the first packet and hears all other messages. A
query that the capture has from the address goes with one that this querier sends for the same, at most
--within milliseconds earlier or later. Sources of one query count like sources of one query each. General
queries have a phase of their own: the time between two of them is judged.

Lines, in which T is a time in milliseconds after the first packet, G a group (0.0.0.0 or :: is all groups) and
S a source of it:
  T missing G S                        a wanted query was not sent
  T extra G S                          a query was sent that is not wanted
  T possible missing G S               the same, unless another reading of the standard, or what was before the capture,
  T possible extra G S                 explains it; these two are printed with --possible, and never make status 3
  T differs G S: FIELD SEEN, wanted W  a field of the query differs; to is its destination, show names the others
  T general after MS, wanted QI        a general query came MS milliseconds after the one before it
  T general none for MS, wanted QI     none came for MS milliseconds, up to the end or another querier
  T packet N ttl X, wanted 1           packet N has a query with another TTL or hop limit
  T packet N alert 0                   it has a query without Router Alert
  T packet N precedence X, wanted 6    it has a query with another IP precedence
  T packet N header checksum           its IPv4 header has a wrong checksum that is not 0
  T packet N checksum                  it has a query with a wrong checksum
  T packet N reserved                  a reserved field of its query is not zero
  T packet N additional                bytes follow the fields of its query
  checked general N specific M: F findings
  possible P: another reading or an earlier state may explain them
                                      if there are P possible findings, printed or not
  packets N messages M malformed F cut C unread U; groups held before 0 are unknown
                                      unread are fragments, second tags, PPPoE and the like; back B and refused R
                                      follow if stamps go back and if the limits refuse records; the groups of a
                                      message with such a record aren't judged from then on
  querier A from 0, lost N, last at T, other B, again at R
                                      how often A lost the role, to B at last, and since when it has it again;
                                      unseen: nothing came from A, though a router with a higher address queries
  taken from the capture: querier A rv N qi S qri MS lmqi MS, beside B, C and more
                                      with --querier auto, without the variables that are given or that are 0; rv above 7 if
                                      QRV is 0, and then what depends on it is not judged; B and
                                      C are the others that send general queries, at most 8

Status:
  0 something was judged, and nothing certain found
  1 the capture has a fault, the output failed or memory ran out
  2 the command line is faulty, or help was asked for
  3 something was judged and something certain found
  4 nothing was judged: half of the packets or more are cut or unread, or there is no message of the family, or no
    query from this address was seen and none is missing or the address is wrong, or the limits refuse records about
    too many groups, or with --querier auto there is no general query; standard error has a line with the reason

Faults of the options are \"mquerier: configuration fault K\", with status 2. The first that holds is reported,
with a second line that names the option:
  1 --rv has to be 1 to 7
  2 --qi has to be 1 to 31744
  3 --qri has to be below --qi, and for igmp 100 to 3174400, for mld 1 to 8387584
  4 --lmqi has to be 100 to 3174400 for igmp, 1 to 8387584 for mld
  5 --groups has to be 1 to 65535
    --group-sources has to be 1 to 1024
    --sources has to be 1 to 65535
    --scheduled has to be 1 to 65535
  6 --own or --querier has to be an address of a router: for igmp not 0.0.0.0 and below 224.0.0.0, for mld in fe80::/10

A fault of the capture is a line on standard error, \"mquerier: capture fault K\", for K of 5 to 7 with
\"at record N\". The next line has its words below. A third names gzip and zstd. The findings before it
are printed, without totals. The status is 1:
  1 a read of the capture failed
  2 it is no classic capture file; mquerier convert makes one of a pcapng file
  3 the version of the file is not 2.4
  5 the file ends within a header
  6 the file ends within a packet
  7 the packet has more than 262144 bytes
  8 the file has more than 4294967295 packets
So it is with \"mquerier: gap before record N\": this packet, or the end, comes more than a day after the packet
before it. And with \"mquerier: too many wait at record N\": more than 65536 queries wait for their partners.

A pcapng file, a file of another link type than Ethernet and raw IP (101), and chosen packets are converted in
memory first. A fault of that is a line \"mquerier: conversion fault K\", with those of convert --help, and
nothing is judged.

The messages of the family have to be of one network. If they are of several interfaces or tags, two lines name
these, and the status is 1:
  mquerier: more than one network: interface 0 untagged, interface 0 vlan 20
    choose one by --interface or --vlan, or take all for one by --once
Of standard input the first 16 MiB are looked through for that. If it need not be kept for anything else, the
findings come before these lines.

docs/FORMATS.md of the sources, \"Checks\", explains every line. docs/READINGS.md has what the standards leave open.";

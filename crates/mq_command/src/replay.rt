//! The command `replay`: its options and its request.

ghost use Rattle.std.specs.Prelude.{IfSome};
ghost use Rattle.mq_command.specs.Requests.{IsReplayOf, IsSettingsOf};

use crate::arguments::{Argument, FILE, Form, JSON, Kind};
use crate::{Request, protocol_in};
use clap::ArgMatches;

/// The variables and limits of a querier, each if given.
#[derive(Clone, Copy)]
pub struct Settings {
    /// The Robustness Variable.
    pub robustness: Option<u32>,
    /// The Query Interval in seconds.
    pub query_seconds: Option<u32>,
    /// The Query Response Interval in milliseconds.
    pub response_interval: Option<u32>,
    /// The Last Member (Last Listener) Query Interval in milliseconds.
    pub last_member_interval: Option<u32>,
    /// The most groups that it may hold.
    pub groups: Option<u32>,
    /// The most sources of a group.
    pub group_sources: Option<u32>,
    /// The most sources of all groups together.
    pub sources: Option<u32>,
    /// The most schedules of specific queries.
    pub scheduled: Option<u32>,
    /// Keeps the source-specific range for source-specific multicast.
    pub source_specific: bool,
}

/// Returns the request of the command's words.
pub(crate) fn request_in<'a>(words: &ArgMatches<'a>) -> Option<Request<'a>>
    ensures { IfSome result (IsReplayOf words.now) }
{
    Some(Request::Replay {
        protocol: protocol_in(words),
        own: words.get_str("own")?,
        settings: settings_in(words),
        until: words.get_one::<u64>("until"),
        changes: words.get_flag("changes"),
        json: words.get_flag("json"),
        file: words.get_str("FILE"),
    })
}

pub(crate) fn settings_in(words: &ArgMatches<'_>) -> Settings
    ensures { IsSettingsOf words.now result }
{
    Settings {
        robustness: words.get_one::<u32>("rv"),
        query_seconds: words.get_one::<u32>("qi"),
        response_interval: words.get_one::<u32>("qri"),
        last_member_interval: words.get_one::<u32>("lmqi"),
        groups: words.get_one::<u32>("groups"),
        group_sources: words.get_one::<u32>("group-sources"),
        sources: words.get_one::<u32>("sources"),
        scheduled: words.get_one::<u32>("scheduled"),
        source_specific: words.get_flag("ssm"),
    }
}

pub(crate) static FORM: Form = Form {
    name: "replay",
    about: "Runs a querier over a capture, and prints what it does",
    after_help: AFTER_HELP,
    arguments: &[
        &[
            ("FAMILY", Kind::Family, "The querier's protocol"),
            FILE,
            ("own", Kind::NeededText("ADDR"), OWN_HELP),
        ],
        VARIABLES,
        LIMITS,
        SPAN,
        &[("changes", Kind::Flag, CHANGES_HELP), JSON],
    ],
};

const OWN_HELP: &str = "The querier's own address; for mld a link-local one, in fe80::/10";

const CHANGES_HELP: &str = "Print a line for each group that is forwarded differently from then on";

/// The variables of a querier.
pub(crate) const VARIABLES: &[Argument] = &[
    ("rv", Kind::Number("N"), RV_HELP),
    ("qi", Kind::Number("S"), QI_HELP),
    ("qri", Kind::Number("MS"), QRI_HELP),
    ("lmqi", Kind::Number("MS"), LMQI_HELP),
];

/// The limits of a querier.
const LIMITS: &[Argument] = &[
    ("groups", Kind::Number("N"), GROUPS_HELP),
    ("group-sources", Kind::Number("N"), GROUP_SOURCES_HELP),
    ("sources", Kind::Number("N"), SOURCES_HELP),
    ("scheduled", Kind::Number("N"), SCHEDULED_HELP),
];

/// The range that a querier keeps, and how long it runs.
pub(crate) const SPAN: &[Argument] = &[
    ("ssm", Kind::Flag, SSM_HELP),
    ("until", Kind::Long("MS"), UNTIL_HELP),
];

const RV_HELP: &str = "Robustness Variable, 1 to 7 [default: 2]";

const QI_HELP: &str = "Query Interval in seconds, 1 to 31744 [default: 125]";

const QRI_HELP: &str = "\
Query Response Interval in milliseconds, below --qi; with --qi of 10 or less
give --qri too; 100 to 3174400 for igmp, 1 to 8387584 for mld
[default: 10000]";

const LMQI_HELP: &str = "\
Last Member (mld: Last Listener) Query Interval in milliseconds; 100 to
3174400 for igmp, 1 to 8387584 for mld [default: 1000]";

const GROUPS_HELP: &str = "Limit of the groups, 1 to 65535 [default: 1024]";

const GROUP_SOURCES_HELP: &str = "\
Limit of a group's sources, 1 to 1024 [default: 366 for igmp, 89 for mld]";

const SOURCES_HELP: &str = "\
Limit of all groups' sources together, 1 to 65535 [default: 16384]";

const SCHEDULED_HELP: &str = "\
Limit of the schedules of specific queries, of which a group has up to two,
1 to 65535 [default: 256]";

const SSM_HELP: &str = "\
Keep 232.0.0.0/8 (igmp) or ff3x::/32 (mld) for source-specific multicast:
EXCLUDE and older messages for groups there are ignored";

const UNTIL_HELP: &str = "Run at least to this moment, at most 2^53 [default: the last packet's]";

const AFTER_HELP: &str = "\
Example:
  mquerier replay igmp --own 10.0.0.9 capture.pcap
      prints this, if the capture is one report of 10.0.0.1 for 239.1.2.3:
          0 send 224.0.0.1 1164ec1e00000000027d0000
          0 receive 1 10.0.0.1 taken 1 0 0
          end 0 querier
          group 239.1.2.3 exclude 260000 v2 260000
          counts received 1 dropped 0 applied 1 ignored 0 refused 0 sent 1 unsent 0

The querier starts with the first packet and hears each message of its protocol. What it sends changes nothing
in the capture. Times (T) are milliseconds after the first packet.

Lines:
  T send ADDR HEX               it sends this query to ADDR; mquerier message reads HEX
  T receive N ADDR taken A I R  packet N, a message from ADDR: A of its records are applied, I ignored, and R
                                refused for a limit
  T receive N ADDR dropped K    packet N, a message that is dropped for reason K
  T skip N WHY                  packet N without a message of the protocol: other, cut or fragment
  T change G ..                 with --changes, after the event that changed group G, what is forwarded then:
                                  none            nothing
                                  include S ..    only what these sources send
                                  exclude !S ..   all but what these sources send
  end T WHO                     the end, and who is querier then: querier is this one, or other
  group G include ..            a group at the end in INCLUDE mode
  group G exclude T ..          or in EXCLUDE mode, with the end of its group timer; then:
                                  S=T   a source and the end of its timer
                                  !S    a source that is not forwarded
                                  v1 T  until when hosts of version 1 are assumed
                                  v2 T  until when hosts of version 2 are assumed
  counts ..                     totals

Reasons for which a message is dropped:
  1 truncated
  2 checksum
  3 unknown type
  4 query length
  5 the source is not link-local (mld)
  6 the hop limit is not 1 (mld)
  7 there is no Router Alert (mld)
  8 a query from the own address or from 0.0.0.0
  9 a query of IGMPv1
  10 an older message for a group that hosts do not report, such as 224.0.0.1

Faults of the options are \"mquerier: configuration fault K\", with status 2. The first that holds is reported:
  1 --rv has to be 1 to 7
  2 --qi has to be 1 to 31744
  3 --qri has to be below --qi, and for igmp 100 to 3174400, for mld 1 to 8387584
  4 --lmqi has to be 100 to 3174400 for igmp, 1 to 8387584 for mld
  5 --groups has to be 1 to 65535
    --group-sources has to be 1 to 1024
    --sources has to be 1 to 65535
    --scheduled has to be 1 to 65535
  6 --own or --querier has to be an address of a router: for igmp not 0.0.0.0 and below 224.0.0.0, for mld in fe80::/10

To get a capture:
  tcpdump -i INTERFACE -w capture.pcap 'igmp or icmp6 or (ip6 and ip6[6] = 0)'
It has to be a classic capture file of Ethernet or raw IP. mquerier convert makes one of other kinds.

A fault of the capture is one line on standard error, \"mquerier: capture fault K\", for K of 5 to 7 with
\"at record N\". The lines of all packets before it are printed, without groups and totals. The status is 1:
  1 a read of the capture failed
  2 it is no classic capture file; mquerier convert makes one of a pcapng file
  3 the version of the file is not 2.4
  4 the link type is neither Ethernet nor raw IP; mquerier convert makes a file of Ethernet
  5 the file ends within a header
  6 the file ends within a packet
  7 the packet has more than 262144 bytes
  8 the file has more than 4294967295 packets
So it is with \"mquerier: gap before record N\": this packet, or the end, comes more than a day after the packet
before it. Cut such a capture in two.

docs/FORMATS.md of the sources, \"Replays\", explains every line.";

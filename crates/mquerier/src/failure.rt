//! Failures of the program, their statuses and their lines on standard error.

ghost use Rattle.std.specs.Prelude.{◌≡◌, ◌≤◌, ◌++◌, codes, length};
ghost use Rattle.std.specs.Fmt.{decimal};
ghost use Rattle.arrayvec.specs.ArrayVec.{array_vec_len};
ghost use Rattle.mquerier.specs.Failures.{status_of, failure_line, failure_text, failure_words, wanted_words, configuration_text, configuration_words, conversion_text, conversion_words, capture_text, capture_words, interval_words, limit_words};

use mq_convert::BlockFault;
use mq_link::{ConfigFault, LimitName};
use mq_pcap::PcapFault;
use mq_text::{Text, put, put_decimal};

/// The statuses of the program.
pub const DONE: u8 = 0;

pub const FAULTY: u8 = 1;

pub const REFUSED: u8 = 2;

pub const FOUND: u8 = 3;

pub const UNJUDGED: u8 = 4;

/// The reason why the program failed.
#[derive(Clone, Copy, PartialEq, Eq)]
pub enum Failure {
    /// An MLD message without the addresses of its packet.
    NoAddresses,
    /// A text that isn't an address of the protocol's family.
    NotAnAddress,
    /// A HEX that isn't hexadecimal.
    NotHex,
    /// An end of a replay or a check above 2^53.
    UntilTooLarge,
    /// A fault in the configuration of a replay's or a check's querier.
    Configuration {
        /// The fault.
        fault: ConfigFault,
        /// Its query interval in seconds.
        query_seconds: u32,
        /// Its query response interval in milliseconds.
        response_interval: u32,
    },
    /// A fault of the capture, or a failed read.
    Capture(PcapFault),
    /// A gap of more than a day in a replay or a check, before a packet or before the end.
    Gap {
        /// The number of that packet. Before the end, it is the packet count plus 1.
        number: u64,
    },
    /// Too many pending entries in a check.
    Waiting {
        /// The number of the packet at which the limit was exceeded. At the end, it is the packet count plus 1.
        number: u64,
    },
    /// A fault of a block in a conversion.
    Conversion {
        /// The number of the block.
        number: u64,
        /// The fault.
        fault: BlockFault,
    },
    /// A failed read in a conversion.
    ConversionRead,
    /// An allocation failure.
    Memory,
    /// A write to the output that failed, or that wrote nothing.
    Write,
}

/// Returns the line of a failure on standard error. With `in_words` a second line explains its number.
pub fn line_of(failure: Failure, in_words: bool) -> Text
    ensures { result.items ≡ failure_line in_words failure }
{
    let mut line = Text::new();
    put(&mut line, b"mquerier: ");
    put_failure(&mut line, failure);
    put_wanted_words(&mut line, failure, in_words);
    put(&mut line, b"\n");
    line
}

/// Appends the second line if words are requested.
fn put_wanted_words(line: &mut Text, failure: Failure, in_words: bool)
    requires { array_vec_len line.old ≤ 60 }
    ensures text { line.new.items ≡ line.old.items ++ wanted_words in_words failure }
    ensures room { array_vec_len line.new ≤ 300 }
{
    if in_words {
        put_words(line, failure);
    }
}

/// Appends the explanation of a failure's number.
fn put_words(line: &mut Text, failure: Failure)
    requires { array_vec_len line.old ≤ 60 }
    ensures text { line.new.items ≡ line.old.items ++ failure_words failure }
    ensures room { array_vec_len line.new ≤ 300 }
{
    match failure {
        Failure::Configuration {
            fault,
            query_seconds,
            response_interval,
        } => put_configuration_words(line, fault, query_seconds, response_interval),
        Failure::Capture(fault) => put_capture_words(line, fault),
        Failure::Gap { .. } => put(
            line,
            b"\n  more than a day lies between the packet before and this one, or the end; groups and totals are not printed",
        ),
        Failure::Waiting { .. } => put(
            line,
            b"\n  more than 65536 queries wait for those that they go with; totals are not printed",
        ),
        Failure::Conversion { fault, .. } => put_conversion_words(line, fault),
        Failure::ConversionRead => put(line, b"\n  a read of the capture failed"),
        _ => {}
    }
}

fn put_configuration_words(
    line: &mut Text,
    fault: ConfigFault,
    query_seconds: u32,
    response_interval: u32,
)
    requires { array_vec_len line.old ≤ 60 }
    ensures text { line.new.items ≡ line.old.items ++ configuration_words fault query_seconds response_interval }
    ensures room { array_vec_len line.new ≤ 300 }
{
    match fault {
        ConfigFault::Robustness => put(line, b"\n  --rv has to be 1 to 7"),
        ConfigFault::QueryInterval => put(line, b"\n  --qi has to be 1 to 31744"),
        ConfigFault::ResponseInterval => {
            let words = intervals_of(query_seconds, response_interval);
            put(line, words.as_slice());
        }
        ConfigFault::LastMember => put(
            line,
            b"\n  --lmqi has to be 100 to 3174400 for igmp, 1 to 8387584 for mld",
        ),
        ConfigFault::Limit { which } => put_limit_words(line, which),
        ConfigFault::OwnAddress => put(
            line,
            b"\n  --own or --querier has to be an address of a router: for igmp not 0.0.0.0 and below 224.0.0.0, for mld in fe80::/10",
        ),
        ConfigFault::LastMemberCount => put(line, b"\n  the query count has to be 0 to 7"),
    }
}

/// Returns the explanation of a wrong query response interval: it isn't below the query interval, or its code can't
/// carry it.
fn intervals_of(query_seconds: u32, response_interval: u32) -> Text
    ensures text { result.items ≡ interval_words query_seconds response_interval }
    ensures room { array_vec_len result ≤ 200 }
{
    let mut line = Text::new();
    put(&mut line, b"\n  --qri is ");
    put_decimal(&mut line, u64::from(response_interval));
    put(&mut line, b" ms, and --qi ");
    put_decimal(&mut line, u64::from(query_seconds));
    put(
        &mut line,
        b" s: --qri has to be below --qi, and for igmp 100 to 3174400, for mld 1 to 8387584",
    );
    line
}

fn put_limit_words(line: &mut Text, which: LimitName)
    requires { array_vec_len line.old ≤ 60 }
    ensures text { line.new.items ≡ line.old.items ++ limit_words which }
    ensures room { array_vec_len line.new ≤ 300 }
{
    match which {
        LimitName::Groups => put(line, b"\n  --groups has to be 1 to 65535"),
        LimitName::GroupSources => put(line, b"\n  --group-sources has to be 1 to 1024"),
        LimitName::Sources => put(line, b"\n  --sources has to be 1 to 65535"),
        LimitName::Scheduled => put(line, b"\n  --scheduled has to be 1 to 65535"),
    }
}

fn put_capture_words(line: &mut Text, fault: PcapFault)
    requires { array_vec_len line.old ≤ 60 }
    ensures text { line.new.items ≡ line.old.items ++ capture_words fault }
    ensures room { array_vec_len line.new ≤ 300 }
{
    match fault {
        PcapFault::Read => put(line, b"\n  a read of the capture failed"),
        PcapFault::Magic => put(
            line,
            b"\n  it is no classic capture file; mquerier convert makes one of a pcapng file",
        ),
        PcapFault::Version => put(line, b"\n  the version of the file is not 2.4"),
        PcapFault::LinkType => put(
            line,
            b"\n  the link type is neither Ethernet nor raw IP; mquerier convert makes a file of Ethernet",
        ),
        PcapFault::CutHeader { .. } => put(line, b"\n  the file ends within a header"),
        PcapFault::CutData { .. } => put(line, b"\n  the file ends within a packet"),
        PcapFault::TooLong { .. } => put(line, b"\n  the packet has more than 262144 bytes"),
        PcapFault::Endless => put(line, b"\n  the file has more than 4294967295 packets"),
    }
}

fn put_conversion_words(line: &mut Text, fault: BlockFault)
    requires { array_vec_len line.old ≤ 60 }
    ensures text { line.new.items ≡ line.old.items ++ conversion_words fault }
    ensures room { array_vec_len line.new ≤ 300 }
{
    match fault {
        BlockFault::NoCapture => put(line, b"\n  the file is no capture"),
        BlockFault::Version => put(
            line,
            b"\n  the version of the file is not 2.4, or of a pcapng file not 1",
        ),
        BlockFault::Order => put(line, b"\n  the section is in no byte order"),
        BlockFault::Length => put(line, b"\n  the block has an impossible length"),
        BlockFault::Interface => put(
            line,
            b"\n  the packet is of an interface that the file did not describe before",
        ),
        BlockFault::Interfaces => put(line, b"\n  the section describes more than 1024 interfaces"),
        BlockFault::Moment => put(line, b"\n  the packet is from before 1970 or after 2106"),
        BlockFault::Cut => put(line, b"\n  the file ends within the block"),
        BlockFault::Endless => put(
            line,
            b"\n  the file has more than 4294967295 blocks before it",
        ),
    }
}

/// Returns the status after a failure.
pub fn status_of_failure(failure: Failure) -> u8
    ensures { result ≡ status_of failure }
{
    match failure {
        Failure::NoAddresses
        | Failure::NotAnAddress
        | Failure::NotHex
        | Failure::UntilTooLarge
        | Failure::Configuration { .. } => REFUSED,
        Failure::Capture(_)
        | Failure::Gap { .. }
        | Failure::Waiting { .. }
        | Failure::Conversion { .. }
        | Failure::ConversionRead
        | Failure::Memory
        | Failure::Write => FAULTY,
    }
}

fn put_failure(line: &mut Text, failure: Failure)
    requires { array_vec_len line.old ≡ 10 }
    ensures text { line.new.items ≡ line.old.items ++ failure_text failure }
    ensures room { array_vec_len line.new ≤ 60 }
{
    match failure {
        Failure::NoAddresses => put(line, b"--from and --to are needed for mld"),
        Failure::NotAnAddress => put(line, b"not an address"),
        Failure::NotHex => put(line, b"not hex"),
        Failure::UntilTooLarge => put(line, b"until is too large"),
        Failure::Configuration { fault, .. } => put_configuration(line, fault),
        Failure::Capture(fault) => put_capture(line, fault),
        Failure::Gap { number } => put_record(line, b"gap before record ", number),
        Failure::Waiting { number } => put_record(line, b"too many wait at record ", number),
        Failure::Conversion { number, fault } => put_conversion(line, number, fault),
        Failure::ConversionRead => put(line, b"conversion fault 1"),
        Failure::Memory => put(line, b"out of memory"),
        Failure::Write => put(line, b"write failed"),
    }
}

fn put_configuration(line: &mut Text, fault: ConfigFault)
    requires { array_vec_len line.old ≡ 10 }
    ensures text { line.new.items ≡ line.old.items ++ configuration_text fault }
    ensures room { array_vec_len line.new ≤ 60 }
{
    match fault {
        ConfigFault::Robustness => put(line, b"configuration fault 1"),
        ConfigFault::QueryInterval => put(line, b"configuration fault 2"),
        ConfigFault::ResponseInterval => put(line, b"configuration fault 3"),
        ConfigFault::LastMember => put(line, b"configuration fault 4"),
        ConfigFault::Limit { .. } => put(line, b"configuration fault 5"),
        ConfigFault::OwnAddress => put(line, b"configuration fault 6"),
        ConfigFault::LastMemberCount => put(line, b"configuration fault 7"),
    }
}

fn put_capture(line: &mut Text, fault: PcapFault)
    requires { array_vec_len line.old ≡ 10 }
    ensures text { line.new.items ≡ line.old.items ++ capture_text fault }
    ensures room { array_vec_len line.new ≤ 60 }
{
    match fault {
        PcapFault::Read => put(line, b"capture fault 1"),
        PcapFault::Magic => put(line, b"capture fault 2"),
        PcapFault::Version => put(line, b"capture fault 3"),
        PcapFault::LinkType => put(line, b"capture fault 4"),
        PcapFault::CutHeader { number } => put_record(line, b"capture fault 5 at record ", number),
        PcapFault::CutData { number } => put_record(line, b"capture fault 6 at record ", number),
        PcapFault::TooLong { number } => put_record(line, b"capture fault 7 at record ", number),
        PcapFault::Endless => put(line, b"capture fault 8"),
    }
}

/// Appends a text and the number of a record.
fn put_record(line: &mut Text, said: &[u8], number: u64)
    requires start { array_vec_len line.old ≡ 10 }
    requires short { length said.now ≤ 30 }
    ensures text { line.new.items ≡ line.old.items ++ (said.now ++ decimal number) }
    ensures room { array_vec_len line.new ≤ 60 }
{
    put(line, said);
    put_decimal(line, number);
}

fn put_conversion(line: &mut Text, number: u64, fault: BlockFault)
    requires { array_vec_len line.old ≡ 10 }
    ensures text { line.new.items ≡ line.old.items ++ (conversion_text fault ++ decimal number) }
    ensures room { array_vec_len line.new ≤ 60 }
{
    match fault {
        BlockFault::NoCapture => put_record(line, b"conversion fault 2 at block ", number),
        BlockFault::Version => put_record(line, b"conversion fault 3 at block ", number),
        BlockFault::Order => put_record(line, b"conversion fault 4 at block ", number),
        BlockFault::Length => put_record(line, b"conversion fault 5 at block ", number),
        BlockFault::Interface => put_record(line, b"conversion fault 6 at block ", number),
        BlockFault::Interfaces => put_record(line, b"conversion fault 7 at block ", number),
        BlockFault::Moment => put_record(line, b"conversion fault 8 at block ", number),
        BlockFault::Cut => put_record(line, b"conversion fault 9 at block ", number),
        BlockFault::Endless => put_record(line, b"conversion fault 10 at block ", number),
    }
}

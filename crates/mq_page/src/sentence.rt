//! The sentence of a fault.

ghost use Rattle.std.specs.Prelude.{◌≡◌, ◌++◌, ◌≤◌, length};
ghost use Rattle.std.specs.Fmt.{decimal};
ghost use Rattle.arrayvec.specs.ArrayVec.{array_vec_len};
ghost use Rattle.mq_page.specs.Sentences.{sentence, capture_sentence, block_sentence, configuration_sentence, unjudged_sentence};

use crate::page_fault::PageFault;
use mq_check::Unjudged;
use mq_convert::BlockFault;
use mq_link::{ConfigFault, LimitName};
use mq_pcap::PcapFault;
use mq_text::{Text, put, put_decimal};

/// Returns the words for a fault.
pub(crate) fn sentence_of(fault: PageFault) -> Text
    ensures { result.items ≡ sentence fault }
{
    let mut text = Text::new();
    put_sentence(&mut text, fault);
    text
}

fn put_sentence(text: &mut Text, fault: PageFault)
    requires { array_vec_len text.old ≡ 0 }
    ensures { text.new.items ≡ text.old.items ++ sentence fault }
{
    match fault {
        PageFault::Full => put(text, b"the text is longer than the memory for it"),
        PageFault::Memory => put(text, b"out of memory"),
        PageFault::Capture(fault) => put_capture(text, fault),
        PageFault::Gap { number } => put_numbered(
            text,
            b"record ",
            number,
            b": more than a day lies between the packet before and this one, or the end",
        ),
        PageFault::Waiting { number } => {
            put_numbered(
                text,
                b"record ",
                number,
                b": more than 65536 queries wait for those that they go with",
            );
        }
        PageFault::ConversionRead => put(text, b"a read of the capture failed"),
        PageFault::Conversion { number, fault } => {
            put_numbered(text, b"block ", number, b": ");
            put_block(text, fault);
        }
        PageFault::UntilTooLarge => put(text, b"until is too large"),
        PageFault::Configuration(fault) => put_configuration(text, fault),
        PageFault::NothingJudged(why) => put_unjudged(text, why),
    }
}

/// Puts a number between two texts.
fn put_numbered(text: &mut Text, before: &[u8], number: u64, after: &[u8])
    requires start { array_vec_len text.old ≡ 0 }
    requires before { length before.now ≤ 40 }
    requires after { length after.now ≤ 100 }
    ensures text { text.new.items ≡ text.old.items ++ (before.now ++ (decimal number ++ after.now)) }
    ensures room { array_vec_len text.new ≤ 160 }
{
    put(text, before);
    put_decimal(text, number);
    put(text, after);
}

fn put_capture(text: &mut Text, fault: PcapFault)
    requires { array_vec_len text.old ≡ 0 }
    ensures { text.new.items ≡ text.old.items ++ capture_sentence fault }
{
    match fault {
        PcapFault::Read => put(text, b"a read of the capture failed"),
        PcapFault::Magic => put(text, b"it is no classic capture file"),
        PcapFault::Version => put(text, b"the version of the file is not 2.4"),
        PcapFault::LinkType => put(text, b"the link type is neither Ethernet nor raw IP"),
        PcapFault::CutHeader { number } => {
            put_numbered(text, b"record ", number, b": the file ends within a header");
        }
        PcapFault::CutData { number } => {
            put_numbered(text, b"record ", number, b": the file ends within a packet");
        }
        PcapFault::TooLong { number } => {
            put_numbered(
                text,
                b"record ",
                number,
                b": the packet has more than 262144 bytes",
            );
        }
        PcapFault::Endless => put(text, b"the file has more than 4294967295 packets"),
    }
}

fn put_block(text: &mut Text, fault: BlockFault)
    requires { array_vec_len text.old ≤ 160 }
    ensures { text.new.items ≡ text.old.items ++ block_sentence fault }
{
    match fault {
        BlockFault::NoCapture => put(text, b"the file is no capture"),
        BlockFault::Version => put(
            text,
            b"the version of the file is not 2.4, or of a pcapng file not 1",
        ),
        BlockFault::Order => put(text, b"the section is in no byte order"),
        BlockFault::Length => put(text, b"the block has an impossible length"),
        BlockFault::Interface => put(
            text,
            b"the packet is of an interface that the file did not describe before",
        ),
        BlockFault::Interfaces => put(text, b"the section describes more than 1024 interfaces"),
        BlockFault::Moment => put(text, b"the packet is from before 1970 or after 2106"),
        BlockFault::Cut => put(text, b"the file ends within the block"),
        BlockFault::Endless => put(text, b"the file has more than 4294967295 blocks before it"),
    }
}

fn put_configuration(text: &mut Text, fault: ConfigFault)
    requires { array_vec_len text.old ≡ 0 }
    ensures { text.new.items ≡ text.old.items ++ configuration_sentence fault }
{
    match fault {
        ConfigFault::Robustness => put(text, b"the robustness variable is not within 1 to 7"),
        ConfigFault::QueryInterval => put(
            text,
            b"the query interval is not within 1 to 31744 seconds",
        ),
        ConfigFault::ResponseInterval => put(
            text,
            b"the response interval is out of range or not below the query interval",
        ),
        ConfigFault::LastMember => put(text, b"the last member query interval is out of range"),
        ConfigFault::Limit { which } => put_limit(text, which),
        ConfigFault::OwnAddress => put(text, b"no router may send queries from the own address"),
        ConfigFault::LastMemberCount => put(
            text,
            b"the last member query count is not within 0 to 7",
        ),
    }
}

fn put_limit(text: &mut Text, which: LimitName)
    requires { array_vec_len text.old ≡ 0 }
    ensures { text.new.items ≡ text.old.items ++ configuration_sentence (ConfigFault.Limit which) }
{
    match which {
        LimitName::Groups => put(text, b"the limit of groups is not within 1 to 65535"),
        LimitName::GroupSources => put(
            text,
            b"the limit of sources of a group is not within 1 to 1024",
        ),
        LimitName::Sources => put(text, b"the limit of sources is not within 1 to 65535"),
        LimitName::Scheduled => put(text, b"the limit of schedules is not within 1 to 65535"),
    }
}

fn put_unjudged(text: &mut Text, why: Unjudged)
    requires { array_vec_len text.old ≡ 0 }
    ensures { text.new.items ≡ text.old.items ++ unjudged_sentence why }
{
    match why {
        Unjudged::NotUnderstood => put(text, b"every second packet or more is cut or isn't read"),
        Unjudged::OutOfOrder => put(
            text,
            b"every second packet or more has a stamp that goes back",
        ),
        Unjudged::NoMessage => put(text, b"there is no message of this family"),
        Unjudged::NoQuery => put(text, b"no query from this address was seen"),
        Unjudged::LimitsExceeded => {
            put(text, b"the limits refuse records about too many groups")
        }
    }
}

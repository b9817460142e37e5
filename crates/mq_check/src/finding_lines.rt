//! The lines of a check.

ghost use Rattle.std.specs.Prelude.{◌≡◌, ◌≤◌, ◌+◌, ◌++◌, length};
ghost use Rattle.arrayvec.specs.ArrayVec.{array_vec_len};
ghost use Rattle.mq_check.specs.FindingLines as spec;
ghost use Rattle.mq_check.specs.Numbered.{numbered_asked, numbered_difference, numbered_finding};

use crate::asked::Asked;
use crate::basis::Basis;
use crate::finding::{Difference, ExtraReason, Finding};
use crate::headers::HeaderFault;
use crate::querier_address::QuerierAddress;
use crate::totals::Totals;
use mq_count::Moment;
use mq_lines::LineKey;
use mq_link::Family;
use mq_text::{Text, put, put_decimal};

/// Appends a moment and the text after it.
#[tactic(auto, unfolding(crate::specs::FindingLines::at_moment))]
pub(crate) fn put_moment(text: &mut Text, moment: Moment, what: &[u8])
    requires { array_vec_len text.old + 20 + length what.now ≤ 4096 }
    ensures text { text.new.items ≡ text.old.items ++ spec.at_moment moment what.now }
    ensures room { array_vec_len text.new ≤ array_vec_len text.old + 20 + length what.now }
{
    let mut digits = [0; 20];
    let count = moment.digits(&mut digits);
    put(text, &digits[..count]);
    put(text, what);
}

/// Appends the subject of a query.
fn put_asked<F: Family>(text: &mut Text, asked: Asked<F::Address>)
where
    F::Address: LineKey,
    requires { array_vec_len text.old + 81 ≤ 4096 }
    ensures text { text.new.items ≡ text.old.items ++ spec.asked_text F.Address.family (numbered_asked F.Address.number asked) }
    ensures room { array_vec_len text.new ≤ array_vec_len text.old + 81 }
{
    match asked {
        Asked::AllGroups => F::unspecified().put(text),
        Asked::Group(group) => group.put(text),
        Asked::Source(group, source) => {
            group.put(text);
            put(text, b" ");
            source.put(text);
        }
    }
}

/// Appends a name and two numbers: the seen one, then the wanted one.
fn put_numbers(text: &mut Text, name: &[u8], seen: u64, wanted: u64)
    requires { array_vec_len text.old + 49 + length name.now ≤ 4096 }
    ensures text { text.new.items ≡ text.old.items ++ spec.numbers_text name.now seen wanted }
    ensures room { array_vec_len text.new ≤ array_vec_len text.old + 49 + length name.now }
{
    put(text, name);
    put_decimal(text, seen);
    put(text, b", wanted ");
    put_decimal(text, wanted);
}

/// Appends 0 or 1.
fn put_flag(text: &mut Text, flag: bool)
    requires { array_vec_len text.old + 1 ≤ 4096 }
    ensures text { text.new.items ≡ text.old.items ++ spec.flag_text flag }
    ensures room { array_vec_len text.new ≤ array_vec_len text.old + 1 }
{
    put(text, if flag { b"1" } else { b"0" });
}

/// Appends a field that differs.
fn put_difference<K: LineKey>(text: &mut Text, difference: Difference<K>)
    requires { array_vec_len text.old + 92 ≤ 4096 }
    ensures text { text.new.items ≡ text.old.items ++ spec.difference_text K.family (numbered_difference K.number difference) }
    ensures room { array_vec_len text.new ≤ array_vec_len text.old + 92 }
{
    match difference {
        Difference::Version(seen, wanted) => {
            put_numbers(text, b"version ", u64::from(seen), u64::from(wanted))
        }
        Difference::Response(seen, wanted) => {
            put_numbers(text, b"response ", u64::from(seen), u64::from(wanted))
        }
        Difference::Suppress(seen, wanted) => {
            put(text, b"s ");
            put_flag(text, seen);
            put(text, b", wanted ");
            put_flag(text, wanted);
        }
        Difference::Robustness(seen, wanted) => {
            put_numbers(text, b"qrv ", u64::from(seen), u64::from(wanted))
        }
        Difference::QueryInterval(seen, wanted) => {
            put_numbers(text, b"interval ", u64::from(seen), u64::from(wanted))
        }
        Difference::Destination(seen, wanted) => {
            put(text, b"to ");
            seen.put(text);
            put(text, b", wanted ");
            wanted.put(text);
        }
    }
}

/// Appends a finding, without the end of its line.
pub(crate) fn put_finding<F: Family>(text: &mut Text, finding: Finding<F::Address>)
where
    F::Address: LineKey,
    requires { array_vec_len text.old + 204 ≤ 4096 }
    ensures text { text.new.items ≡ text.old.items ++ spec.finding_text F.Address.family (numbered_finding F.Address.number finding) }
    ensures room { array_vec_len text.new ≤ array_vec_len text.old + 204 }
{
    match finding {
        Finding::Missing(moment, _, asked) => {
            put_moment(text, moment, b" missing ");
            put_asked::<F>(text, asked);
        }
        Finding::Extra(moment, _, asked, _) => {
            put_moment(text, moment, b" extra ");
            put_asked::<F>(text, asked);
        }
        Finding::PossiblyMissing(moment, _, asked) => {
            put_moment(text, moment, b" possible missing ");
            put_asked::<F>(text, asked);
        }
        Finding::PossiblyExtra(moment, _, asked) => {
            put_moment(text, moment, b" possible extra ");
            put_asked::<F>(text, asked);
        }
        Finding::Differs(moment, _, asked, difference) => {
            put_moment(text, moment, b" differs ");
            put_asked::<F>(text, asked);
            put(text, b": ");
            put_difference(text, difference);
        }
        Finding::Interval(moment, _, passed, wanted) => {
            put_moment(text, moment, b" general after ");
            put_interval(text, passed, wanted);
        }
        Finding::Silence(moment, passed, wanted) => {
            put_moment(text, moment, b" general none for ");
            put_interval(text, passed, wanted);
        }
        Finding::Packet(moment, number, fault) => {
            put_moment(text, moment, b" packet ");
            put_header_fault(text, number, fault);
        }
    }
}

/// Appends a time, then the wanted one.
#[tactic(auto, unfolding(crate::specs::FindingLines::interval_text))]
fn put_interval(text: &mut Text, passed: u64, wanted: u64)
    requires { array_vec_len text.old + 49 ≤ 4096 }
    ensures text { text.new.items ≡ text.old.items ++ spec.interval_text passed wanted }
    ensures room { array_vec_len text.new ≤ array_vec_len text.old + 49 }
{
    put_decimal(text, passed);
    put(text, b", wanted ");
    put_decimal(text, wanted);
}

/// Appends the number of a packet and a fault of its headers.
#[tactic(auto, unfolding(crate::specs::FindingLines::header_fault_text))]
fn put_header_fault(text: &mut Text, number: u64, fault: HeaderFault)
    requires { array_vec_len text.old + 62 ≤ 4096 }
    ensures text { text.new.items ≡ text.old.items ++ spec.header_fault_text number fault }
    ensures room { array_vec_len text.new ≤ array_vec_len text.old + 62 }
{
    put_decimal(text, number);
    match fault {
        HeaderFault::TimeToLive(ttl) => {
            put(text, b" ttl ");
            put_decimal(text, u64::from(ttl));
            put(text, b", wanted 1");
        }
        HeaderFault::NoRouterAlert => put(text, b" alert 0"),
        HeaderFault::Precedence(precedence) => {
            put(text, b" precedence ");
            put_decimal(text, u64::from(precedence));
            put(text, b", wanted 6");
        }
        HeaderFault::HeaderChecksum => put(text, b" header checksum"),
        HeaderFault::WrongChecksum => put(text, b" checksum"),
        HeaderFault::ReservedBits => put(text, b" reserved"),
        HeaderFault::AdditionalData => put(text, b" additional"),
    }
}

/// Appends the section of RFC 3376 or that of RFC 3810, by the family.
pub(crate) fn put_of_family<K: LineKey>(text: &mut Text, igmp: &[u8], mld: &[u8])
    requires { array_vec_len text.old + length igmp.now + length mld.now ≤ 4096 }
    ensures text { text.new.items ≡ text.old.items ++ spec.of_family K.family igmp.now mld.now }
    ensures room { array_vec_len text.new ≤ array_vec_len text.old + length igmp.now + length mld.now }
{
    put(text, if K::current_version() == 3 { igmp } else { mld });
}

/// Appends the section that says when queries are sent.
fn put_sending_section<K: LineKey>(text: &mut Text, asked: Asked<K>)
    requires { array_vec_len text.old + 14 ≤ 4096 }
    ensures text { text.new.items ≡ text.old.items ++ spec.sending_section K.family (numbered_asked K.number asked) }
    ensures room { array_vec_len text.new ≤ array_vec_len text.old + 14 }
{
    match asked {
        Asked::AllGroups => put_of_family::<K>(text, b"6.6.2", b"7.6.2"),
        Asked::Group(_) => put_of_family::<K>(text, b"6.6.3.1", b"7.6.3.1"),
        Asked::Source(..) => put_of_family::<K>(text, b"6.6.3.2", b"7.6.3.2"),
    }
}

/// Appends the section of an extra query.
fn put_extra_section<K: LineKey>(text: &mut Text, asked: Asked<K>, reason: ExtraReason)
    requires { array_vec_len text.old + 14 ≤ 4096 }
    ensures text { text.new.items ≡ text.old.items ++ spec.extra_section K.family reason (numbered_asked K.number asked) }
    ensures room { array_vec_len text.new ≤ array_vec_len text.old + 14 }
{
    match reason {
        ExtraReason::NoChange => put_sending_section(text, asked),
        ExtraReason::OlderHost => put_of_family::<K>(text, b"7.3.2", b"8.3.2"),
        ExtraReason::NotQuerier => put_of_family::<K>(text, b"6.6.2", b"7.6.2"),
    }
}

/// Appends the section of the response.
fn put_response_section<K: LineKey>(text: &mut Text, asked: Asked<K>)
    requires { array_vec_len text.old + 14 ≤ 4096 }
    ensures text { text.new.items ≡ text.old.items ++ spec.response_section K.family (numbered_asked K.number asked) }
    ensures room { array_vec_len text.new ≤ array_vec_len text.old + 14 }
{
    match asked {
        Asked::AllGroups => put_of_family::<K>(text, b"8.3", b"9.3"),
        _ => put_of_family::<K>(text, b"8.8", b"9.8"),
    }
}

/// Appends the section of the S flag.
fn put_suppress_section<K: LineKey>(text: &mut Text, asked: Asked<K>)
    requires { array_vec_len text.old + 14 ≤ 4096 }
    ensures text { text.new.items ≡ text.old.items ++ spec.suppress_section K.family (numbered_asked K.number asked) }
    ensures room { array_vec_len text.new ≤ array_vec_len text.old + 14 }
{
    match asked {
        Asked::AllGroups => put_of_family::<K>(text, b"4.1.5", b"5.1.7"),
        other => put_sending_section(text, other),
    }
}

/// Appends the section of a field.
fn put_field_section<K: LineKey>(text: &mut Text, asked: Asked<K>, difference: Difference<K>)
    requires { array_vec_len text.old + 14 ≤ 4096 }
    ensures text { text.new.items ≡ text.old.items
        ++ spec.field_section K.family (numbered_asked K.number asked) (numbered_difference K.number difference) }
    ensures room { array_vec_len text.new ≤ array_vec_len text.old + 14 }
{
    match difference {
        Difference::Version(..) => put_of_family::<K>(text, b"7.1", b"8.1"),
        Difference::Response(..) => put_response_section(text, asked),
        Difference::Suppress(..) => put_suppress_section(text, asked),
        Difference::Robustness(..) => put_of_family::<K>(text, b"4.1.6", b"5.1.8"),
        Difference::QueryInterval(..) => put_of_family::<K>(text, b"4.1.7", b"5.1.9"),
        Difference::Destination(..) => put_of_family::<K>(text, b"4.1.12", b"5.1.15"),
    }
}

/// Appends the section of a field of the headers.
fn put_fault_section<K: LineKey>(text: &mut Text, fault: HeaderFault)
    requires { array_vec_len text.old + 14 ≤ 4096 }
    ensures text { text.new.items ≡ text.old.items ++ spec.fault_section K.family fault }
    ensures room { array_vec_len text.new ≤ array_vec_len text.old + 14 }
{
    match fault {
        HeaderFault::TimeToLive(_)
        | HeaderFault::NoRouterAlert
        | HeaderFault::Precedence(_)
        | HeaderFault::HeaderChecksum => put_of_family::<K>(text, b"4", b"5"),
        HeaderFault::WrongChecksum => put_of_family::<K>(text, b"4.1.2", b"5.1.2"),
        HeaderFault::ReservedBits => put_of_family::<K>(text, b"4.1.4", b"5.1"),
        HeaderFault::AdditionalData => put_of_family::<K>(text, b"4.1.10", b"5.1.12"),
    }
}

/// Appends the section that a finding violates.
pub(crate) fn put_section<K: LineKey>(text: &mut Text, finding: Finding<K>)
    requires { array_vec_len text.old + 14 ≤ 4096 }
    ensures text { text.new.items ≡ text.old.items ++ spec.section_of K.family (numbered_finding K.number finding) }
    ensures room { array_vec_len text.new ≤ array_vec_len text.old + 14 }
{
    match finding {
        Finding::Missing(_, _, asked)
        | Finding::PossiblyMissing(_, _, asked)
        | Finding::PossiblyExtra(_, _, asked) => put_sending_section(text, asked),
        Finding::Extra(_, _, asked, reason) => put_extra_section(text, asked, reason),
        Finding::Differs(_, _, asked, difference) => put_field_section(text, asked, difference),
        Finding::Interval(..) | Finding::Silence(..) => put_of_family::<K>(text, b"8.2", b"9.2"),
        Finding::Packet(_, _, fault) => put_fault_section::<K>(text, fault),
    }
}

/// Appends the number of a finding's packet, if it is requested and there is one.
#[tactic(auto, unfolding(crate::specs::FindingLines::number_text))]
pub(crate) fn put_packet<K: LineKey>(text: &mut Text, packets: bool, finding: Finding<K>)
    requires { array_vec_len text.old + 28 ≤ 4096 }
    ensures text { text.new.items ≡ text.old.items ++ spec.packet_text packets (numbered_finding K.number finding) }
    ensures room { array_vec_len text.new ≤ array_vec_len text.old + 28 }
{
    let number = finding.packet();
    if packets && number != 0 {
        put(text, b" packet ");
        put_decimal(text, number);
    }
}

/// Appends the section of a finding if it is requested, and ends the line.
pub(crate) fn put_citation<K: LineKey>(text: &mut Text, cite: bool, finding: Finding<K>)
    requires { array_vec_len text.old + 50 ≤ 4096 }
    ensures text { text.new.items ≡ text.old.items ++ spec.citation_text K.family cite (numbered_finding K.number finding) }
    ensures room { array_vec_len text.new ≤ array_vec_len text.old + 50 }
{
    if cite {
        put(text, b" (RFC ");
        put_of_family::<K>(text, b"3376", b"3810");
        put(text, b" section ");
        put_section(text, finding);
        put(text, b")");
    }
    put(text, b"\n");
}

/// Appends the line of the totals, and that of possible findings if there are any.
pub(crate) fn put_totals(text: &mut Text, totals: &Totals)
    requires { array_vec_len text.old + 220 ≤ 4096 }
    ensures { text.new.items ≡ text.old.items ++ spec.totals_line totals.now }
{
    put_counts(text, totals);
    put_possible(text, totals.possible);
}

/// Appends the number of possible findings, if there are any.
fn put_possible(text: &mut Text, possible: u64)
    requires { array_vec_len text.old + 100 ≤ 4096 }
    ensures { text.new.items ≡ text.old.items ++ spec.possible_line possible }
{
    if possible == 0 {
        return;
    }
    put_count(text, b"possible ", possible);
    put(
        text,
        b": another reading or an earlier state may explain them\n",
    );
}

/// Appends the numbers of queries and of certain findings.
fn put_counts(text: &mut Text, totals: &Totals)
    requires { array_vec_len text.old + 120 ≤ 4096 }
    ensures text { text.new.items ≡ text.old.items ++ spec.counts_line totals.now }
    ensures room { array_vec_len text.new ≤ array_vec_len text.old + 120 }
{
    put_count(text, b"checked general ", totals.general);
    put_count(text, b" specific ", totals.specific);
    put_count(text, b": ", totals.findings);
    put(text, b" findings\n");
}

/// Appends a name and a count.
#[tactic(auto, unfolding(crate::specs::FindingLines::count_text))]
pub(crate) fn put_count(text: &mut Text, name: &[u8], count: u64)
    requires { array_vec_len text.old + 20 + length name.now ≤ 4096 }
    ensures text { text.new.items ≡ text.old.items ++ spec.count_text name.now count }
    ensures room { array_vec_len text.new ≤ array_vec_len text.old + 20 + length name.now }
{
    put(text, name);
    put_decimal(text, count);
}

/// Appends a name and a count, if there are any.
fn put_count_if(text: &mut Text, name: &[u8], count: u64)
    requires { array_vec_len text.old + 20 + length name.now ≤ 4096 }
    ensures text { text.new.items ≡ text.old.items ++ spec.count_if name.now count }
    ensures room { array_vec_len text.new ≤ array_vec_len text.old + 20 + length name.now }
{
    if 0 < count {
        put_count(text, name, count);
    }
}

/// Appends the line of the packets. Packets whose stamps go back and records that the link refused stand there if there
/// are any.
pub(crate) fn put_packets(text: &mut Text, basis: &Basis)
    requires { array_vec_len text.old + 232 ≤ 4096 }
    ensures { text.new.items ≡ text.old.items ++ spec.packets_line basis.now }
{
    put_count(text, b"packets ", basis.packets);
    put_count(text, b" messages ", basis.messages);
    put_count(text, b" malformed ", basis.malformed);
    put_count(text, b" cut ", basis.cut);
    put_count(text, b" unread ", basis.unread);
    put_count_if(text, b" back ", basis.back);
    put_count_if(text, b" refused ", basis.refused);
    put(text, b"; groups held before 0 are unknown\n");
}

/// Appends the address of a querier.
pub(crate) fn put_querier(text: &mut Text, querier: &QuerierAddress)
    requires { array_vec_len text.old + 40 ≤ 4096 }
    ensures text { text.new.items ≡ text.old.items ++ spec.querier_text querier.now }
    ensures room { array_vec_len text.new ≤ array_vec_len text.old + 40 }
{
    match querier {
        QuerierAddress::V4(address) => address.put(text),
        QuerierAddress::V6(address) => address.put(text),
    }
}

/// Appends the moment since which the router is querier again, if it is.
fn put_again(text: &mut Text, basis: &Basis)
    requires { array_vec_len text.old + 31 ≤ 4096 }
    ensures text { text.new.items ≡ text.old.items ++ spec.again_text basis.now }
    ensures room { array_vec_len text.new ≤ array_vec_len text.old + 31 }
{
    if basis.is_querier {
        put(text, b", again at ");
        put_moment(text, basis.again_at, b"");
    }
}

/// Appends the number of times that the role was lost, if it was.
fn put_lost(text: &mut Text, basis: &Basis)
    requires { array_vec_len text.old + 136 ≤ 4096 }
    ensures text { text.new.items ≡ text.old.items ++ spec.lost_text basis.now }
    ensures room { array_vec_len text.new ≤ array_vec_len text.old + 136 }
{
    if basis.lost == 0 {
        return;
    }
    put_count(text, b", lost ", basis.lost);
    put(text, b", last at ");
    put_moment(text, basis.lost_at, b", other ");
    put_querier(text, &basis.other);
    put_again(text, basis);
}

/// Appends that nothing came from the router, if a router with a higher address sends queries.
fn put_unseen(text: &mut Text, basis: &Basis)
    requires { array_vec_len text.old + 8 ≤ 4096 }
    ensures text { text.new.items ≡ text.old.items ++ spec.unseen_text basis.now }
    ensures room { array_vec_len text.new ≤ array_vec_len text.old + 8 }
{
    if basis.is_unseen() {
        put(text, b", unseen");
    }
}

/// Appends the line of the checked router.
pub(crate) fn put_querier_line(text: &mut Text, basis: &Basis)
    requires { array_vec_len text.old + 200 ≤ 4096 }
    ensures { text.new.items ≡ text.old.items ++ spec.querier_line basis.now }
{
    put(text, b"querier ");
    put_querier(text, &basis.own);
    put(text, b" from 0");
    put_unseen(text, basis);
    put_lost(text, basis);
    put(text, b"\n");
}

//! The objects of a check.

ghost use Rattle.std.specs.Prelude.{◌≡◌, ◌≤◌, ◌+◌, ◌++◌, codes, length};
ghost use Rattle.arrayvec.specs.ArrayVec.{array_vec_len};
ghost use Rattle.mq_check.specs.FindingLines as spec;
ghost use Rattle.mq_check.specs.Numbered.{numbered_asked, numbered_difference, numbered_finding};

use crate::asked::Asked;
use crate::basis::{Basis, CheckedVariables};
use crate::finding::{Difference, Finding};
use crate::finding_lines::{put_count, put_moment, put_of_family, put_querier, put_section};
use crate::headers::HeaderFault;
use crate::querier_address::QuerierAddress;
use crate::totals::{KindCounts, Totals};
use crate::unjudged::Unjudged;
use mq_count::Moment;
use mq_lines::{LineKey, put_address_object, put_truth};
use mq_link::Family;
use mq_text::{Text, put, put_decimal};

/// Appends the start of a finding: its moment, its kind, whether it is certain, and the subject of its query.
pub(crate) fn put_finding_start<F: Family>(text: &mut Text, finding: Finding<F::Address>)
where
    F::Address: LineKey,
    requires { array_vec_len text.old + 200 ≤ 4096 }
    ensures { text.new.items ≡ text.old.items ++ spec.finding_start F.Address.family (numbered_finding F.Address.number finding) }
{
    match finding {
        Finding::Missing(moment, _, asked) => {
            put_kind(text, moment, b"missing", true);
            put_asked_fields::<F>(text, asked);
        }
        Finding::Extra(moment, _, asked, _) => {
            put_kind(text, moment, b"extra", true);
            put_asked_fields::<F>(text, asked);
        }
        Finding::PossiblyMissing(moment, _, asked) => {
            put_kind(text, moment, b"missing", false);
            put_asked_fields::<F>(text, asked);
        }
        Finding::PossiblyExtra(moment, _, asked) => {
            put_kind(text, moment, b"extra", false);
            put_asked_fields::<F>(text, asked);
        }
        Finding::Differs(moment, _, asked, _) => {
            put_kind(text, moment, b"differs", true);
            put_asked_fields::<F>(text, asked);
        }
        Finding::Interval(moment, ..) => {
            put_kind(text, moment, b"interval", true);
            put(text, b",\"group\":null,\"source\":null");
        }
        Finding::Silence(moment, ..) => {
            put_kind(text, moment, b"silence", true);
            put(text, b",\"group\":null,\"source\":null");
        }
        Finding::Packet(moment, ..) => {
            put_kind(text, moment, b"header", true);
            put(text, b",\"group\":null,\"source\":null");
        }
    }
}

/// Appends the moment and the kind of a finding, and whether it is certain.
#[tactic(auto, unfolding(crate::specs::FindingLines::kind_start))]
fn put_kind(text: &mut Text, moment: Moment, kind: &[u8], is_certain: bool)
    requires { array_vec_len text.old + 70 + length kind.now ≤ 4096 }
    ensures text { text.new.items ≡ text.old.items ++ spec.kind_start moment kind.now is_certain }
    ensures room { array_vec_len text.new ≤ array_vec_len text.old + 70 + length kind.now }
{
    put(text, b"{\"time\":");
    put_moment(text, moment, b",\"finding\":\"");
    put(text, kind);
    put(text, b"\",\"certain\":");
    put_truth(text, is_certain);
}

/// Appends the subject of a query.
#[tactic(auto, unfolding(crate::specs::FindingLines::asked_fields))]
fn put_asked_fields<F: Family>(text: &mut Text, asked: Asked<F::Address>)
where
    F::Address: LineKey,
    requires { array_vec_len text.old + 110 ≤ 4096 }
    ensures text { text.new.items ≡ text.old.items ++ spec.asked_fields F.Address.family (numbered_asked F.Address.number asked) }
    ensures room { array_vec_len text.new ≤ array_vec_len text.old + 110 }
{
    match asked {
        Asked::AllGroups => {
            put(text, b",\"group\":");
            put_address_object(text, F::unspecified());
            put(text, b",\"source\":null");
        }
        Asked::Group(group) => {
            put(text, b",\"group\":");
            put_address_object(text, group);
            put(text, b",\"source\":null");
        }
        Asked::Source(group, source) => {
            put(text, b",\"group\":");
            put_address_object(text, group);
            put(text, b",\"source\":");
            put_address_object(text, source);
        }
    }
}

/// Appends the rest of a finding: the seen and the wanted value, the number of its packet, and the section.
pub(crate) fn put_finding_rest<K: LineKey>(text: &mut Text, finding: Finding<K>)
    requires { array_vec_len text.old + 240 ≤ 4096 }
    ensures { text.new.items ≡ text.old.items ++ spec.finding_rest K.family (numbered_finding K.number finding) }
{
    put_finding_values(text, finding);
    put(text, b",\"packet\":");
    put_number(text, number_of(&finding));
    put(text, b",\"rfc\":");
    put_of_family::<K>(text, b"3376", b"3810");
    put(text, b",\"sections\":[\"");
    put_section(text, finding);
    put(text, b"\"]}\n");
}

/// Appends the seen and the wanted value of a finding, if it has them.
#[tactic(auto, unfolding(crate::specs::FindingLines::finding_values))]
fn put_finding_values<K: LineKey>(text: &mut Text, finding: Finding<K>)
    requires { array_vec_len text.old + 130 ≤ 4096 }
    ensures text { text.new.items ≡ text.old.items ++ spec.finding_values K.family (numbered_finding K.number finding) }
    ensures room { array_vec_len text.new ≤ array_vec_len text.old + 130 }
{
    match finding {
        Finding::Missing(..)
        | Finding::Extra(..)
        | Finding::PossiblyMissing(..)
        | Finding::PossiblyExtra(..) => {
            put(text, b",\"field\":null,\"seen\":null,\"wanted\":null");
        }
        Finding::Differs(_, _, _, difference) => put_difference_values(text, difference),
        Finding::Interval(_, _, passed, wanted) | Finding::Silence(_, passed, wanted) => {
            put_number_values(text, b"null", passed, wanted)
        }
        Finding::Packet(_, _, fault) => put_header_values(text, fault),
    }
}

/// Appends a field with the seen and the wanted number.
#[tactic(auto, unfolding(crate::specs::FindingLines::number_values))]
fn put_number_values(text: &mut Text, field: &[u8], seen: u64, wanted: u64)
    requires { array_vec_len text.old + 70 + length field.now ≤ 4096 }
    ensures text { text.new.items ≡ text.old.items ++ spec.number_values field.now seen wanted }
    ensures room { array_vec_len text.new ≤ array_vec_len text.old + 70 + length field.now }
{
    put(text, b",\"field\":");
    put(text, field);
    put(text, b",\"seen\":");
    put_decimal(text, seen);
    put(text, b",\"wanted\":");
    put_decimal(text, wanted);
}

/// Appends a field that differs, with the seen and the wanted value.
#[tactic(auto, unfolding(crate::specs::FindingLines::difference_values))]
fn put_difference_values<K: LineKey>(text: &mut Text, difference: Difference<K>)
    requires { array_vec_len text.old + 130 ≤ 4096 }
    ensures text { text.new.items ≡ text.old.items ++ spec.difference_values K.family (numbered_difference K.number difference) }
    ensures room { array_vec_len text.new ≤ array_vec_len text.old + 130 }
{
    match difference {
        Difference::Version(seen, wanted) => {
            put_number_values(text, b"\"version\"", u64::from(seen), u64::from(wanted))
        }
        Difference::Response(seen, wanted) => {
            put_number_values(text, b"\"response\"", u64::from(seen), u64::from(wanted))
        }
        Difference::Suppress(seen, wanted) => {
            put(text, b",\"field\":\"s\",\"seen\":");
            put_truth(text, seen);
            put(text, b",\"wanted\":");
            put_truth(text, wanted);
        }
        Difference::Robustness(seen, wanted) => {
            put_number_values(text, b"\"qrv\"", u64::from(seen), u64::from(wanted))
        }
        Difference::QueryInterval(seen, wanted) => {
            put_number_values(text, b"\"interval\"", u64::from(seen), u64::from(wanted))
        }
        Difference::Destination(seen, wanted) => {
            put(text, b",\"field\":\"destination\",\"seen\":");
            put_address_object(text, seen);
            put(text, b",\"wanted\":");
            put_address_object(text, wanted);
        }
    }
}

/// Appends a field of the headers, with the seen and the wanted value if it has them.
#[tactic(auto, unfolding(crate::specs::FindingLines::header_values))]
fn put_header_values(text: &mut Text, fault: HeaderFault)
    requires { array_vec_len text.old + 90 ≤ 4096 }
    ensures text { text.new.items ≡ text.old.items ++ spec.header_values fault }
    ensures room { array_vec_len text.new ≤ array_vec_len text.old + 90 }
{
    match fault {
        HeaderFault::TimeToLive(ttl) => put_number_values(text, b"\"ttl\"", u64::from(ttl), 1),
        HeaderFault::NoRouterAlert => {
            put(text, b",\"field\":\"alert\",\"seen\":false,\"wanted\":true");
        }
        HeaderFault::Precedence(precedence) => {
            put_number_values(text, b"\"precedence\"", u64::from(precedence), 6);
        }
        HeaderFault::HeaderChecksum => {
            put(
                text,
                b",\"field\":\"header checksum\",\"seen\":null,\"wanted\":null",
            );
        }
        HeaderFault::WrongChecksum => {
            put(
                text,
                b",\"field\":\"checksum\",\"seen\":null,\"wanted\":null",
            );
        }
        HeaderFault::ReservedBits => {
            put(
                text,
                b",\"field\":\"reserved\",\"seen\":null,\"wanted\":null",
            );
        }
        HeaderFault::AdditionalData => {
            put(
                text,
                b",\"field\":\"additional\",\"seen\":null,\"wanted\":null",
            );
        }
    }
}

/// Returns the number of the packet of a finding, and 0 if it has none.
fn number_of<K: LineKey>(finding: &Finding<K>) -> u64
    ensures { result ≡ spec.number_of (numbered_finding K.number finding.now) }
{
    match finding {
        Finding::Packet(_, number, _) => *number,
        _ => finding.packet(),
    }
}

/// Appends a number, if it isn't 0.
fn put_number(text: &mut Text, number: u64)
    requires { array_vec_len text.old + 20 ≤ 4096 }
    ensures text { text.new.items ≡ text.old.items ++ spec.number_object number }
    ensures room { array_vec_len text.new ≤ array_vec_len text.old + 20 }
{
    if number == 0 {
        put(text, b"null");
    } else {
        put_decimal(text, number);
    }
}

/// Appends the start of the summary: what was judged, the queries seen, and the findings.
pub(crate) fn put_summary_start(text: &mut Text, totals: &Totals)
    requires { array_vec_len text.old + 200 ≤ 4096 }
    ensures { text.new.items ≡ text.old.items ++ spec.summary_start totals.now }
{
    put_judged(text, totals.unjudged());
    put_count(text, b",\"general\":", totals.general);
    put_count(text, b",\"specific\":", totals.specific);
    put_count(text, b",\"findings\":", totals.findings);
    put_count(text, b",\"possible\":", totals.possible);
}

/// Appends the numbers of findings of each kind.
pub(crate) fn put_kinds(text: &mut Text, kinds: &KindCounts)
    requires { array_vec_len text.old + 200 ≤ 4096 }
    ensures { text.new.items ≡ text.old.items ++ spec.kinds_field kinds.now }
{
    put_count(text, b",\"kinds\":{\"missing\":", kinds.missing);
    put_count(text, b",\"extra\":", kinds.extra);
    put_count(text, b",\"differs\":", kinds.differs);
    put_count(text, b",\"interval\":", kinds.interval);
    put_count(text, b",\"silence\":", kinds.silence);
    put_count(text, b",\"header\":", kinds.header);
    put(text, b"}");
}

/// Appends the checked router, and the variables with which it is checked.
pub(crate) fn put_checked(text: &mut Text, basis: &Basis)
    requires { array_vec_len text.old + 180 ≤ 4096 }
    ensures { text.new.items ≡ text.old.items ++ spec.checked_fields basis.now }
{
    put(text, b",\"querier\":");
    put_querier_object(text, &basis.own);
    put_variables(text, &basis.variables);
}

/// Appends the variables of a check.
fn put_variables(text: &mut Text, variables: &CheckedVariables)
    requires { array_vec_len text.old + 122 ≤ 4096 }
    ensures { text.new.items ≡ text.old.items ++ spec.variables_field variables.now }
{
    put_count(text, b",\"variables\":{\"rv\":", variables.rv);
    put_count(text, b",\"qi\":", variables.qi);
    put_count(text, b",\"qri\":", variables.qri);
    put_count(text, b",\"lmqi\":", variables.lmqi);
    put(text, b"}");
}

/// Appends whether something was judged, and the reason if nothing was.
#[tactic(auto, unfolding(crate::specs::FindingLines::judged_fields))]
fn put_judged(text: &mut Text, why: Option<Unjudged>)
    requires { array_vec_len text.old + 60 ≤ 4096 }
    ensures text { text.new.items ≡ text.old.items ++ spec.judged_fields why }
    ensures room { array_vec_len text.new ≤ array_vec_len text.old + 60 }
{
    put(text, b"{\"summary\":{\"judged\":");
    put_truth(text, why.is_none());
    put(text, b",\"why\":");
    put(text, why_object(why));
}

/// Returns the reason why nothing was judged.
fn why_object(why: Option<Unjudged>) -> &'static [u8]
    ensures text { result.now ≡ spec.why_object why }
    ensures short { length result.now ≤ 12 }
{
    match why {
        None => b"null",
        Some(Unjudged::NotUnderstood) => b"\"unread\"",
        Some(Unjudged::OutOfOrder) => b"\"order\"",
        Some(Unjudged::NoMessage) => b"\"no message\"",
        Some(Unjudged::NoQuery) => b"\"no query\"",
        Some(Unjudged::LimitsExceeded) => b"\"limits\"",
    }
}

/// Appends the address of a querier in quotation marks.
fn put_querier_object(text: &mut Text, querier: &QuerierAddress)
    requires { array_vec_len text.old + 42 ≤ 4096 }
    ensures text { text.new.items ≡ text.old.items ++ spec.querier_object querier.now }
    ensures room { array_vec_len text.new ≤ array_vec_len text.old + 42 }
{
    put(text, b"\"");
    put_querier(text, querier);
    put(text, b"\"");
}

/// Appends the losses of the role.
pub(crate) fn put_roles(text: &mut Text, basis: &Basis)
    requires { array_vec_len text.old + 200 ≤ 4096 }
    ensures { text.new.items ≡ text.old.items ++ spec.roles_field basis.now }
{
    put_count(text, b",\"roles\":{\"lost\":", basis.lost);
    put_last_lost(text, basis);
    put(text, b",\"unseen\":");
    put_truth(text, basis.is_unseen());
    put(text, b"}");
}

/// Appends the last loss of the role, if it was lost.
#[tactic(auto, unfolding(crate::specs::FindingLines::last_lost))]
fn put_last_lost(text: &mut Text, basis: &Basis)
    requires { array_vec_len text.old + 130 ≤ 4096 }
    ensures text { text.new.items ≡ text.old.items ++ spec.last_lost basis.now }
    ensures room { array_vec_len text.new ≤ array_vec_len text.old + 130 }
{
    if basis.lost == 0 {
        put(text, b",\"last_at\":null,\"other\":null,\"again_at\":null");
        return;
    }
    put(text, b",\"last_at\":");
    put_moment(text, basis.lost_at, b",\"other\":");
    put_querier_object(text, &basis.other);
    put(text, b",\"again_at\":");
    put_again_object(text, basis);
}

/// Appends the moment since which the router is querier again, if it is.
fn put_again_object(text: &mut Text, basis: &Basis)
    requires { array_vec_len text.old + 20 ≤ 4096 }
    ensures text { text.new.items ≡ text.old.items ++ spec.again_object basis.now }
    ensures room { array_vec_len text.new ≤ array_vec_len text.old + 20 }
{
    if basis.is_querier {
        put_moment(text, basis.again_at, b"");
    } else {
        put(text, b"null");
    }
}

/// Appends the numbers of packets, to the end of the summary.
pub(crate) fn put_packets_field(text: &mut Text, basis: &Basis)
    requires { array_vec_len text.old + 256 ≤ 4096 }
    ensures { text.new.items ≡ text.old.items ++ spec.packets_field basis.now }
{
    put_count(text, b",\"packets\":{\"packets\":", basis.packets);
    put_count(text, b",\"messages\":", basis.messages);
    put_count(text, b",\"malformed\":", basis.malformed);
    put_count(text, b",\"cut\":", basis.cut);
    put_count(text, b",\"unread\":", basis.unread);
    put_count(text, b",\"back\":", basis.back);
    put_count(text, b",\"refused\":", basis.refused);
    put(text, b"}}}\n");
}

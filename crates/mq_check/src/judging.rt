//! Findings of entries that are no longer pending.

ghost use Rattle.std.specs.Prelude.{◌≡◌, ◌≤◌, ◌^◌, ◌==◌, [], ◌∷◌, IfSome, not, ⊤};
ghost use Rattle.mq_text.specs.Printing.{output_of};
ghost use Rattle.mq_check.specs.declared.finding.Difference.TheVariants as field;
ghost use Rattle.mq_check.specs.Entries as spec;
ghost use Rattle.mq_check.specs.Numbered.{difference_list, numbered_asked, numbered_entry, numbered_finding, numbered_terms, numbered_unpaired};
ghost use Rattle.mq_check.specs.Telling.{Tells};

use crate::asked::Asked;
use crate::entry::{Entry, Need, SVerdict, Unpaired};
use crate::finding::{Difference, Finding};
use crate::finding_writer::FindingWriter;
use crate::terms::{QuerierTerms, Terms, with_s_of};
use mq_count::{Meter, Moment, Span, Watched};
use mq_lines::LineKey;
use mq_link::Family;
use mq_text::LineFault;
use mq_wire::WireKey;
use std::alloc::AllocError;
use std::io::Write;

/// The moment of a seen query, the number of its packet, and its subject.
struct SeenAt<K: WireKey> {
    moment: Moment,
    packet: u64,
    asked: Asked<K>,
}

impl<K: WireKey> Clone for SeenAt<K> {
    ghost is_clone = { λ x y. y ≡ x };

    ghost is_infallible = { λ _. ⊤ };

    fn clone(&self) -> Result<Self, AllocError> {
        Ok(*self)
    }
}

impl<K: WireKey> Copy for SeenAt<K> {}

/// Returns whether the role changed within the tolerance of a moment.
fn is_near_change(within: Span, moment: Moment, changed: &Option<Moment>) -> bool
    requires changed_in_range { IfSome changed.now (λ at. at ≤ 2 ^ 53) }
    ensures { result ≡ spec.is_near_change within moment changed.now }
{
    let Some(changed) = *changed else {
        return false;
    };
    let mut meter = Meter::new();
    if !meter.reached(moment, changed.after(within)) {
        return false;
    }
    !moment.in_range() || meter.reached(changed, moment.after(within))
}

/// Reports one finding.
pub(crate) fn tell_finding<F: Family, W: Write>(
    finding: Finding<F::Address>,
    told: &mut FindingWriter,
    writer: &mut Watched<W>,
) -> Result<(), LineFault>
where
    F::Address: LineKey,
    ensures { Tells F.Address.family (numbered_finding F.Address.number finding ∷ []) told.old told.new
        (output_of W.contents writer.old) (output_of W.contents writer.new) result }
{
    told.tell::<F, W>(finding, writer)
}

/// Reports the findings of an expired entry. `changed` is the last change of the role.
pub(crate) fn tell_entry<F: Family, W: Write>(
    entry: &Entry<F::Address>,
    within: Span,
    changed: &Option<Moment>,
    told: &mut FindingWriter,
    writer: &mut Watched<W>,
) -> Result<(), LineFault>
where
    F::Address: LineKey,
    requires changed_in_range { IfSome changed.now (λ at. at ≤ 2 ^ 53) }
    ensures { Tells F.Address.family (spec.findings_of within changed.now (numbered_entry F.Address.number entry.now)) told.old told.new
        (output_of W.contents writer.old) (output_of W.contents writer.new) result }
{
    match entry {
        Entry::Wanted(moment, asked, terms, need, is_found) => {
            if *is_found {
                return Ok(());
            }
            tell_missing::<F, W>(*need, *moment, terms.packet, *asked, told, writer)
        }
        Entry::Seen(moment, asked, terms, partner, verdict) => match partner {
            Some(wanted) => {
                let expected = with_s_judged(verdict.s, terms, wanted);
                tell_pair::<F, W>(
                    *moment,
                    *asked,
                    terms,
                    &expected,
                    &verdict.alone,
                    told,
                    writer,
                )
            }
            None => {
                if is_near_change(within, *moment, changed) {
                    return Ok(());
                }
                tell_alone::<F, W>(*moment, *asked, terms, &verdict.alone, told, writer)
            }
        },
        Entry::Interval(moment, packet, passed, wanted) => {
            let interval = Finding::Interval(*moment, *packet, *passed, *wanted);
            tell_finding::<F, W>(interval, told, writer)
        }
        Entry::Silence(moment, passed, wanted) => {
            tell_finding::<F, W>(Finding::Silence(*moment, *passed, *wanted), told, writer)
        }
        Entry::Packet(moment, number, fault) => {
            tell_finding::<F, W>(Finding::Packet(*moment, *number, *fault), told, writer)
        }
    }
}

/// Reports that a query is missing, by how it is needed.
fn tell_missing<F: Family, W: Write>(
    need: Need,
    moment: Moment,
    packet: u64,
    asked: Asked<F::Address>,
    told: &mut FindingWriter,
    writer: &mut Watched<W>,
) -> Result<(), LineFault>
where
    F::Address: LineKey,
    ensures { Tells F.Address.family (spec.missing_by need moment packet (numbered_asked F.Address.number asked)) told.old told.new
        (output_of W.contents writer.old) (output_of W.contents writer.new) result }
{
    match need {
        Need::Required => {
            tell_finding::<F, W>(Finding::Missing(moment, packet, asked), told, writer)
        }
        Need::Possible => {
            tell_finding::<F, W>(
                Finding::PossiblyMissing(moment, packet, asked),
                told,
                writer,
            )
        }
        Need::Optional => Ok(()),
    }
}

/// Reports the findings of a seen query that found no partner.
fn tell_alone<F: Family, W: Write>(
    moment: Moment,
    asked: Asked<F::Address>,
    terms: &Terms<F::Address>,
    alone: &Unpaired<F::Address>,
    told: &mut FindingWriter,
    writer: &mut Watched<W>,
) -> Result<(), LineFault>
where
    F::Address: LineKey,
    ensures { Tells F.Address.family
        (spec.findings_alone moment (numbered_asked F.Address.number asked) (numbered_terms F.Address.number terms.now) (numbered_unpaired F.Address.number alone.now))
        told.old told.new (output_of W.contents writer.old) (output_of W.contents writer.new) result }
{
    match alone {
        Unpaired::Extra(reason) => {
            let extra = Finding::Extra(moment, terms.packet, asked, *reason);
            tell_finding::<F, W>(extra, told, writer)
        }
        Unpaired::Possible(wanted) => {
            let extra = Finding::PossiblyExtra(moment, terms.packet, asked);
            tell_finding::<F, W>(extra, told, writer)?;
            tell_differences::<F, W>(moment, asked, terms, wanted, told, writer)
        }
        Unpaired::Scheduled(_) => Ok(()),
        Unpaired::Next(_) => {
            let missing = Finding::PossiblyMissing(moment, terms.packet, asked);
            tell_finding::<F, W>(missing, told, writer)
        }
    }
}

/// Reports the findings of a seen query with a partner. `alone` is its verdict without one.
fn tell_pair<F: Family, W: Write>(
    moment: Moment,
    asked: Asked<F::Address>,
    seen: &Terms<F::Address>,
    wanted: &Terms<F::Address>,
    alone: &Unpaired<F::Address>,
    told: &mut FindingWriter,
    writer: &mut Watched<W>,
) -> Result<(), LineFault>
where
    F::Address: LineKey,
    ensures { Tells F.Address.family
        (spec.findings_of_pair moment (numbered_asked F.Address.number asked) (numbered_terms F.Address.number seen.now) (numbered_terms F.Address.number wanted.now) (numbered_unpaired F.Address.number alone.now))
        told.old told.new (output_of W.contents writer.old) (output_of W.contents writer.new) result }
{
    if alone.is_possible() && has_other_s(seen.querier, wanted.querier) {
        let possible = Unpaired::Possible(with_s_of(seen, wanted));
        return tell_alone::<F, W>(moment, asked, seen, &possible, told, writer);
    }
    tell_differences::<F, W>(moment, asked, seen, wanted, told, writer)
}

/// Returns the terms with which a seen query is compared that has a partner. If S of the query is right, they have it too.
fn with_s_judged<K: WireKey>(s: SVerdict, seen: &Terms<K>, wanted: &Terms<K>) -> Terms<K>
    ensures { numbered_terms K.number result
        ≡ spec.with_s_judged s (numbered_terms K.number seen.now) (numbered_terms K.number wanted.now) }
{
    match s {
        SVerdict::Right => with_s_of(seen, wanted),
        _ => *wanted,
    }
}

/// Returns whether both queries have S, and it differs.
fn has_other_s(seen: Option<QuerierTerms>, wanted: Option<QuerierTerms>) -> bool
    ensures { result ≡ spec.has_other_s seen wanted }
{
    match (seen, wanted) {
        (Some(seen), Some(wanted)) => seen.suppress != wanted.suppress,
        _ => false,
    }
}

/// Reports each field of a seen query that differs from the wanted one.
fn tell_differences<F: Family, W: Write>(
    moment: Moment,
    asked: Asked<F::Address>,
    seen: &Terms<F::Address>,
    wanted: &Terms<F::Address>,
    told: &mut FindingWriter,
    writer: &mut Watched<W>,
) -> Result<(), LineFault>
where
    F::Address: LineKey,
    ensures { Tells F.Address.family
        (spec.differences_found moment (numbered_asked F.Address.number asked) (numbered_terms F.Address.number seen.now) (numbered_terms F.Address.number wanted.now))
        told.old told.new (output_of W.contents writer.old) (output_of W.contents writer.new) result }
{
    let at = SeenAt {
        moment,
        packet: seen.packet,
        asked,
    };
    tell_difference::<F, W>(at, version_differs(seen, wanted), told, writer)?;
    tell_difference::<F, W>(
        at,
        response_differs(seen.response, wanted.response),
        told,
        writer,
    )?;
    tell_querier_differences::<F, W>(at, seen.querier, wanted.querier, told, writer)?;
    tell_difference::<F, W>(
        at,
        destination_differs::<F>(seen.to, wanted.to),
        told,
        writer,
    )
}

/// Reports each field that differs among those that only IGMPv3 and MLDv2 have, if both queries have them.
fn tell_querier_differences<F: Family, W: Write>(
    at: SeenAt<F::Address>,
    seen: Option<QuerierTerms>,
    wanted: Option<QuerierTerms>,
    told: &mut FindingWriter,
    writer: &mut Watched<W>,
) -> Result<(), LineFault>
where
    F::Address: LineKey,
    ensures { Tells F.Address.family
        (spec.differ_at at.moment at.packet (numbered_asked F.Address.number at.asked) (spec.queriers_differ seen wanted))
        told.old told.new (output_of W.contents writer.old) (output_of W.contents writer.new) result }
{
    match (seen, wanted) {
        (Some(seen), Some(wanted)) => { tell_fields::<F, W>(at, seen, wanted, told, writer) }
        _ => Ok(()),
    }
}

/// Reports each field that differs among S, QRV and QQIC.
fn tell_fields<F: Family, W: Write>(
    at: SeenAt<F::Address>,
    seen: QuerierTerms,
    wanted: QuerierTerms,
    told: &mut FindingWriter,
    writer: &mut Watched<W>,
) -> Result<(), LineFault>
where
    F::Address: LineKey,
    ensures { Tells F.Address.family
        (spec.differ_at at.moment at.packet (numbered_asked F.Address.number at.asked) (spec.fields_differ seen wanted))
        told.old told.new (output_of W.contents writer.old) (output_of W.contents writer.new) result }
{
    tell_difference::<F, W>(at, suppress_differs(seen, wanted), told, writer)?;
    tell_difference::<F, W>(at, robustness_differs(seen, wanted), told, writer)?;
    tell_difference::<F, W>(at, interval_differs(seen, wanted), told, writer)
}

/// Reports a field that differs, if there is one.
fn tell_difference<F: Family, W: Write>(
    at: SeenAt<F::Address>,
    difference: Option<Difference<F::Address>>,
    told: &mut FindingWriter,
    writer: &mut Watched<W>,
) -> Result<(), LineFault>
where
    F::Address: LineKey,
    ensures { Tells F.Address.family
        (spec.differ_at at.moment at.packet (numbered_asked F.Address.number at.asked) (difference_list F.Address.number difference))
        told.old told.new (output_of W.contents writer.old) (output_of W.contents writer.new) result }
{
    match difference {
        Some(difference) => {
            let differs = Finding::Differs(at.moment, at.packet, at.asked, difference);
            tell_finding::<F, W>(differs, told, writer)
        }
        None => Ok(()),
    }
}

/// Returns the versions if they differ.
fn version_differs<K: WireKey>(seen: &Terms<K>, wanted: &Terms<K>) -> Option<Difference<K>>
    ensures { difference_list K.number result
        ≡ spec.difference_if (not (seen.now.version == wanted.now.version)) (field.Version seen.now.version wanted.now.version) }
{
    if seen.version == wanted.version {
        None
    } else {
        Some(Difference::Version(seen.version, wanted.version))
    }
}

/// Returns the responses if both queries have one and they differ.
fn response_differs<K: WireKey>(seen: Option<u32>, wanted: Option<u32>) -> Option<Difference<K>>
    ensures { difference_list K.number result ≡ spec.responses_differ seen wanted }
{
    let (Some(seen), Some(wanted)) = (seen, wanted) else {
        return None;
    };
    if seen == wanted {
        None
    } else {
        Some(Difference::Response(seen, wanted))
    }
}

/// Returns the S flags if they differ.
fn suppress_differs<K: WireKey>(seen: QuerierTerms, wanted: QuerierTerms) -> Option<Difference<K>>
    ensures { difference_list K.number result
        ≡ spec.difference_if (spec.is_unlike seen.suppress wanted.suppress) (field.Suppress seen.suppress wanted.suppress) }
{
    if seen.suppress == wanted.suppress {
        None
    } else {
        Some(Difference::Suppress(seen.suppress, wanted.suppress))
    }
}

/// Returns the QRV of both queries if they differ.
fn robustness_differs<K: WireKey>(seen: QuerierTerms, wanted: QuerierTerms) -> Option<Difference<K>>
    ensures { difference_list K.number result
        ≡ spec.difference_if (not (seen.robustness == wanted.robustness)) (field.Robustness seen.robustness wanted.robustness) }
{
    if seen.robustness == wanted.robustness {
        None
    } else {
        Some(Difference::Robustness(seen.robustness, wanted.robustness))
    }
}

/// Returns the QQIC seconds of both queries if they differ.
fn interval_differs<K: WireKey>(seen: QuerierTerms, wanted: QuerierTerms) -> Option<Difference<K>>
    ensures { difference_list K.number result
        ≡ spec.difference_if (not (seen.interval == wanted.interval)) (field.QueryInterval seen.interval wanted.interval) }
{
    if seen.interval == wanted.interval {
        None
    } else {
        Some(Difference::QueryInterval(seen.interval, wanted.interval))
    }
}

/// Returns the destinations if they differ.
fn destination_differs<F: Family>(
    seen: F::Address,
    wanted: F::Address,
) -> Option<Difference<F::Address>>
    ensures { difference_list F.Address.number result
        ≡ spec.difference_if (not (F.Address.number seen == F.Address.number wanted))
        (field.Destination (F.Address.number seen) (F.Address.number wanted)) }
{
    if F::is_same(seen, wanted) {
        None
    } else {
        Some(Difference::Destination(seen, wanted))
    }
}

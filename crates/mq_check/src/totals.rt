//! Totals of a check.

ghost use Rattle.std.specs.Prelude.{◌≡◌};
ghost use Rattle.mq_check.specs.Basis as spec;
ghost use Rattle.mq_check.specs.Numbered.{numbered_finding};
ghost use Rattle.mq_check.specs.Telling.{counted_kind};

use crate::basis::Basis;
use crate::finding::Finding;
use crate::unjudged::Unjudged;
use mq_wire::WireKey;

/// The numbers of certain findings of each kind. A count stays at the greatest u64.
#[derive(Clone, Copy)]
pub struct KindCounts {
    /// Missing queries.
    pub missing: u64,
    /// Extra queries.
    pub extra: u64,
    /// Fields that differ.
    pub differs: u64,
    /// General queries after another interval.
    pub interval: u64,
    /// Times without general queries that are too long.
    pub silence: u64,
    /// Faults of headers.
    pub header: u64,
}

impl KindCounts {
    /// Counts a finding, if it is certain.
    pub(crate) fn count<K: WireKey>(&mut self, finding: &Finding<K>)
        ensures { self.new ≡ counted_kind (numbered_finding K.number finding.now) self.old }
    {
        match finding {
            Finding::Missing(..) => self.missing = self.missing.saturating_add(1),
            Finding::Extra(..) => self.extra = self.extra.saturating_add(1),
            Finding::Differs(..) => self.differs = self.differs.saturating_add(1),
            Finding::Interval(..) => self.interval = self.interval.saturating_add(1),
            Finding::Silence(..) => self.silence = self.silence.saturating_add(1),
            Finding::Packet(..) => self.header = self.header.saturating_add(1),
            Finding::PossiblyMissing(..) | Finding::PossiblyExtra(..) => {}
        }
    }
}

/// The numbers of findings that are certain, and of those that are possible. A count stays at the greatest u64.
#[derive(Clone, Copy)]
pub struct FindingCounts {
    pub certain: u64,
    pub possible: u64,
    /// The certain ones of each kind.
    pub kinds: KindCounts,
}

/// The totals of a check. A count stays at the greatest u64.
#[derive(Clone, Copy)]
pub struct Totals {
    /// The number of general queries seen.
    pub general: u64,
    /// The number of queries for groups and for sources seen.
    pub specific: u64,
    /// The number of certain findings.
    pub findings: u64,
    /// The number of possible findings: the querier is right if it held some groups, or had heard some hosts, before the
    /// capture.
    pub possible: u64,
    /// The numbers of certain findings of each kind.
    pub kinds: KindCounts,
    /// The basis of the verdict.
    pub basis: Basis,
}

impl Totals {
    /// Returns the reason why the check judged nothing, or None if it judged the querier.
    pub fn unjudged(&self) -> Option<Unjudged>
        ensures { result ≡ spec.unjudged_by self.now }
    {
        if self.basis.is_hardly_understood() {
            return Some(Unjudged::NotUnderstood);
        }
        if self.basis.is_out_of_order() {
            return Some(Unjudged::OutOfOrder);
        }
        if !self.basis.has_message() {
            return Some(Unjudged::NoMessage);
        }
        let has_nothing = self.general == 0 && self.specific == 0 && self.findings == 0;
        if self.basis.is_unseen() || has_nothing {
            return Some(Unjudged::NoQuery);
        }
        if self.basis.is_crowded && self.findings == 0 {
            return Some(Unjudged::LimitsExceeded);
        }
        None
    }
}

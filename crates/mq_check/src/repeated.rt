//! Differences in the querier's variables that repeat earlier ones.

ghost use Rattle.std.specs.Prelude.{◌≡◌};
ghost use Rattle.mq_check.specs.Numbered.{numbered_difference, numbered_finding};
ghost use Rattle.mq_check.specs.Repeated as spec;

use crate::asked::Asked;
use crate::finding::{Difference, Finding};
use mq_wire::WireKey;

/// The seen and the wanted value of a field that differs.
#[derive(Clone, Copy)]
pub struct Values {
    /// The value in the seen query.
    pub seen: u32,
    /// The value in the wanted query.
    pub wanted: u32,
}

/// The last difference of each variable in queries of one kind.
#[derive(Clone, Copy)]
pub struct LastOfKind {
    /// That of the response in milliseconds.
    pub response: Option<Values>,
    /// That of QRV.
    pub robustness: Option<Values>,
    /// That of the seconds of QQIC.
    pub interval: Option<Values>,
}

/// The last differences of variables in general queries, and in queries for groups and for sources.
#[derive(Clone, Copy)]
pub struct LastDifferences {
    /// Those of general queries.
    pub general: LastOfKind,
    /// Those of the other queries.
    pub specific: LastOfKind,
}

/// Returns whether these are the values.
fn are_values(last: Option<Values>, seen: u32, wanted: u32) -> bool
    ensures { result ≡ spec.are_values last seen wanted }
{
    let Some(last) = last else {
        return false;
    };
    last.seen == seen && last.wanted == wanted
}

impl LastOfKind {
    /// Returns the state before the first difference.
    fn new() -> LastOfKind
        ensures { result ≡ spec.none_of_kind }
    {
        LastOfKind {
            response: None,
            robustness: None,
            interval: None,
        }
    }

    /// Returns whether a difference has the values of the last one of its variable. A field that is no variable never has
    /// them.
    fn has<K: WireKey>(&self, difference: Difference<K>) -> bool
        ensures { result ≡ spec.has_values (numbered_difference K.number difference) self.now }
    {
        match difference {
            Difference::Response(seen, wanted) => are_values(self.response, seen, wanted),
            Difference::Robustness(seen, wanted) => {
                are_values(self.robustness, u32::from(seen), u32::from(wanted))
            }
            Difference::QueryInterval(seen, wanted) => are_values(self.interval, seen, wanted),
            _ => false,
        }
    }

    /// Returns the state after a difference.
    fn with<K: WireKey>(self, difference: Difference<K>) -> LastOfKind
        ensures { result ≡ spec.with_values (numbered_difference K.number difference) self }
    {
        match difference {
            Difference::Response(seen, wanted) => LastOfKind {
                response: Some(Values { seen, wanted }),
                ..self
            },
            Difference::Robustness(seen, wanted) => LastOfKind {
                robustness: Some(Values {
                    seen: u32::from(seen),
                    wanted: u32::from(wanted),
                }),
                ..self
            },
            Difference::QueryInterval(seen, wanted) => LastOfKind {
                interval: Some(Values { seen, wanted }),
                ..self
            },
            _ => self,
        }
    }
}

impl LastDifferences {
    /// Returns the state before the first finding.
    pub(crate) fn new() -> LastDifferences
        ensures { result ≡ spec.no_differences }
    {
        LastDifferences {
            general: LastOfKind::new(),
            specific: LastOfKind::new(),
        }
    }

    /// Returns whether a finding is the last difference of its variable again, in a query of the same kind.
    pub(crate) fn repeats<K: WireKey>(&self, finding: Finding<K>) -> bool
        ensures { result ≡ spec.repeats (numbered_finding K.number finding) self.now }
    {
        match finding {
            Finding::Differs(_, _, Asked::AllGroups, difference) => self.general.has(difference),
            Finding::Differs(_, _, _, difference) => self.specific.has(difference),
            _ => false,
        }
    }

    /// Returns the state after a finding.
    pub(crate) fn with<K: WireKey>(self, finding: Finding<K>) -> LastDifferences
        ensures { result ≡ spec.with_finding (numbered_finding K.number finding) self }
    {
        match finding {
            Finding::Differs(_, _, Asked::AllGroups, difference) => LastDifferences {
                general: self.general.with(difference),
                ..self
            },
            Finding::Differs(_, _, _, difference) => LastDifferences {
                specific: self.specific.with(difference),
                ..self
            },
            _ => self,
        }
    }
}

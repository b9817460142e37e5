//! The announcement of a querier in a query.

ghost use Rattle.std.specs.Prelude.{◌≡◌};
ghost use Rattle.std.specs.Option.{SomeIff};
ghost use Rattle.mq_sched.specs.Announcement.{Announcement, IsCarried};

use std::marker::Model;

/// The Robustness Variable and the Query Interval in whole seconds; 0 stands for none. A query of IGMPv3 or MLDv2
/// announces them in QRV and QQIC (RFC 3376 sections 4.1.6 and 4.1.7, RFC 3810 sections 5.1.8 and 5.1.9). A contract
/// sees these two numbers.
#[derive(Clone, Copy)]
pub struct Announced {
    robustness: u32,
    query_seconds: u32,
}

impl Model for Announced {
    ghost use Rattle.mq_sched.specs.Announcement.{Announcement, IsCarried};

    ghost Value = { Announcement };

    ghost view = { λ a. record { robustness = a.robustness; query_seconds = a.query_seconds } };

    ghost invariant = { λ a. IsCarried (record { robustness = a.robustness; query_seconds = a.query_seconds }) };

    ghost inverse = { λ v. record { robustness = v.robustness; query_seconds = v.query_seconds } };
}

impl Announced {
    /// Returns the announcement of a query with these values, or None if a field can't carry one of them. The
    /// robustness variable is at most 7, the query interval at most 31744 seconds.
    pub fn new(robustness: u32, query_seconds: u32) -> Option<Announced>
        ensures { let a : Announcement = record { robustness = robustness; query_seconds = query_seconds } in
            SomeIff result (IsCarried a) a }
    {
        if robustness <= 7 && query_seconds <= 31744 {
            Some(Announced {
                robustness,
                query_seconds,
            })
        } else {
            None
        }
    }

    /// A lemma: the field of each value can carry it. It has no effect at run time.
    pub fn is_carried(self)
        ensures { IsCarried self }
    {
        let _held = self.robustness;
    }

    /// Returns the Robustness Variable, or 0 for none.
    pub fn robustness(self) -> u32
        ensures { result ≡ self.robustness }
    {
        self.robustness
    }

    /// Returns the Query Interval in seconds, or 0 for none.
    pub fn query_seconds(self) -> u32
        ensures { result ≡ self.query_seconds }
    {
        self.query_seconds
    }
}

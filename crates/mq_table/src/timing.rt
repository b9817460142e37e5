//! The variables from which a router's timers are computed.

ghost use Rattle.std.specs.Prelude.{◌≡◌};
ghost use Rattle.std.specs.Option.{SomeIff};
ghost use Rattle.mq_table.specs.Variables.{Variables, AreInRange};
ghost use Rattle.mq_table.specs.Timing.{query_interval, membership_interval, older_host_present, other_querier_present, startup_interval, startup_count, last_member_count, last_member_time};

use mq_count::Span;
use std::marker::Model;

/// The variables, each in its range, and what is computed from them (RFC 3376 section 8, RFC 3810 section 9). They are
/// the Robustness Variable, the Query Interval, the Query Response Interval, and the Last Member (for MLD: Last
/// Listener) Query Interval and Query Count. A contract sees these five.
#[derive(Clone, Copy, PartialEq, Eq)]
pub struct Timing {
    robustness: u32,
    query_seconds: u32,
    response_interval: u32,
    last_member_interval: u32,
    last_member_query_count: u32,
}

impl Model for Timing {
    ghost use Rattle.mq_table.specs.Variables.{Variables, AreInRange};

    ghost Value = { Variables };

    ghost view = { λ t. record { robustness = t.robustness; query_seconds = t.query_seconds; response_interval = t.response_interval; last_member_interval = t.last_member_interval; last_member_query_count = t.last_member_query_count } };

    ghost invariant = { λ t. AreInRange (record {
      robustness = t.robustness;
      query_seconds = t.query_seconds;
      response_interval = t.response_interval;
      last_member_interval = t.last_member_interval;
      last_member_query_count = t.last_member_query_count;
    }) };

    ghost inverse = { λ v. record { robustness = v.robustness; query_seconds = v.query_seconds; response_interval = v.response_interval; last_member_interval = v.last_member_interval; last_member_query_count = v.last_member_query_count } };
}

impl Timing {
    /// Returns the timing of these variables, or None if one is out of its range. The ranges are 1 to 7 for the
    /// robustness variable, 1 to 31744 seconds for the query interval, and 1 to 8387584 milliseconds for both other
    /// intervals. The Last Member Query Count is the robustness variable in force.
    pub fn new(
        robustness: u32,
        query_seconds: u32,
        response_interval: u32,
        last_member_interval: u32,
    ) -> Option<Timing>
        ensures { let v : Variables = record { robustness = robustness; query_seconds = query_seconds; response_interval = response_interval; last_member_interval = last_member_interval; last_member_query_count = 0 } in
            SomeIff result (AreInRange v) v }
    {
        if (1..=7).contains(&robustness)
            && (1..=31744).contains(&query_seconds)
            && (1..=8387584).contains(&response_interval)
            && (1..=8387584).contains(&last_member_interval)
        {
            Some(Timing {
                robustness,
                query_seconds,
                response_interval,
                last_member_interval,
                last_member_query_count: 0,
            })
        } else {
            None
        }
    }

    /// Returns this timing with another robustness variable and query interval, or None if one is out of its range. A
    /// query of another router announces these two.
    pub fn adopting(self, robustness: u32, query_seconds: u32) -> Option<Timing>
        ensures { let v : Variables = record self { robustness = robustness; query_seconds = query_seconds } in
            SomeIff result (AreInRange v) v }
    {
        match Timing::new(
            robustness,
            query_seconds,
            self.response_interval,
            self.last_member_interval,
        ) {
            Some(timing) => timing.with_last_member_query_count(self.last_member_query_count),
            None => None,
        }
    }

    /// Returns this timing with another Last Member (Last Listener) Query Count, 0 to 7, or None if it is out of range.
    /// 0 stands for the robustness variable in force, and 7 is the greatest of those.
    pub fn with_last_member_query_count(self, count: u32) -> Option<Timing>
        ensures { let v : Variables = record self { last_member_query_count = count } in
            SomeIff result (AreInRange v) v }
    {
        if count <= 7 {
            Some(Timing {
                last_member_query_count: count,
                ..self
            })
        } else {
            None
        }
    }

    /// A lemma: each variable is in its range. It has no effect at run time.
    pub fn is_in_range(self)
        ensures { AreInRange self }
    {
        let _held = self.robustness;
    }

    /// Returns the Robustness Variable, as a query's QRV carries it.
    pub fn robustness(self) -> u32
        ensures { result ≡ self.robustness }
    {
        self.robustness
    }

    /// Returns the Query Interval in seconds, as a query's QQIC carries it.
    pub fn query_seconds(self) -> u32
        ensures { result ≡ self.query_seconds }
    {
        self.query_seconds
    }

    /// Returns the Query Interval.
    pub fn query_interval(self) -> Span
        ensures { result ≡ query_interval self }
    {
        Span::from_ms(self.query_seconds * 1000)
    }

    /// Returns the Group Membership Interval, for MLD the Multicast Address Listening Interval. RFC 3376 section 8.4,
    /// RFC 3810 section 9.4.
    pub fn membership_interval(self) -> Span
        ensures { result ≡ membership_interval self }
    {
        Span::from_ms(self.robustness * (self.query_seconds * 1000) + self.response_interval)
    }

    /// Returns the time for which a host of an older version is assumed to be there. RFC 3376 section 8.13, RFC 3810
    /// section 9.13.
    pub fn older_host_present(self) -> Span
        ensures { result ≡ older_host_present self }
    {
        Span::from_ms(self.robustness * (self.query_seconds * 1000) + self.response_interval)
    }

    /// Returns the time for which another querier is assumed to be there (RFC 3376 section 8.5, RFC 3810 section 9.5).
    pub fn other_querier_present(self) -> Span
        ensures { result ≡ other_querier_present self }
    {
        Span::from_ms(self.robustness * (self.query_seconds * 1000) + self.response_interval / 2)
    }

    /// Returns the interval of the queries at startup (RFC 3376 section 8.6, RFC 3810 section 9.6).
    pub fn startup_interval(self) -> Span
        ensures { result ≡ startup_interval self }
    {
        Span::from_ms(self.query_seconds * 1000 / 4)
    }

    /// Returns the number of queries at startup (RFC 3376 section 8.7, RFC 3810 section 9.7).
    pub fn startup_count(self) -> u32
        ensures { result ≡ startup_count self }
    {
        self.robustness
    }

    /// Returns the Last Member (Last Listener) Query Interval, between two sendings of a specific query. RFC 3376
    /// section 8.8, RFC 3810 section 9.8.
    pub fn last_member_interval(self) -> Span
        ensures { result ≡ self.last_member_interval }
    {
        Span::from_ms(self.last_member_interval)
    }

    /// Returns the number of sendings of a specific query (RFC 3376 section 8.9, RFC 3810 section 9.9).
    pub fn last_member_count(self) -> u32
        ensures { result ≡ last_member_count self }
    {
        if self.last_member_query_count == 0 {
            self.robustness
        } else {
            self.last_member_query_count
        }
    }

    /// Returns the Last Member (Last Listener) Query Time, to which specific queries lower timers. RFC 3376 section
    /// 8.10, RFC 3810 section 9.10.
    pub fn last_member_time(self) -> Span
        ensures { result ≡ last_member_time self }
    {
        Span::from_ms(self.last_member_interval * self.last_member_count())
    }
}

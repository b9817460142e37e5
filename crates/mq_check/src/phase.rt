//! Phases of general queries.

ghost use Rattle.std.specs.Prelude.{◌≡◌};
ghost use Rattle.mq_check.specs.Checking.{is_querier_in};

/// The phase of the general queries of the checked router.
#[derive(Clone, Copy)]
pub enum Phase {
    /// The phase before the first general query of the capture. This many startup intervals may come.
    Starting(u32),
    /// The phase after a general query at this moment. This many startup intervals may still come.
    Heard(u64, u32),
    /// The phase after the router becomes querier again, before its next general query.
    Returned,
    /// The phase while another router is querier, and no general query is wanted.
    NotQuerier,
}

impl Phase {
    /// Returns whether the router is querier.
    pub(crate) fn is_querier(self) -> bool
        ensures { result ≡ is_querier_in self }
    {
        !matches!(self, Phase::NotQuerier)
    }
}

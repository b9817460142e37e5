//! The filter mode of a group and the timers of its sources.

ghost use Rattle.std.specs.Prelude.{◌≡◌, Some, not, nat_lt};
ghost use Rattle.std.specs.Bool.{beq};
ghost use Rattle.mq_count.specs.Spending.{Spends};
ghost use Rattle.mq_table.specs.Filter.{names};
ghost use Rattle.mq_table.specs.Group.{is_ahead, deadline_of, group_deadline, is_include, retransmissions_of, wants};
ghost use Rattle.mq_table.specs.Retransmissions.{source_counted};

use mq_count::{Meter, Moment};

/// The filter mode of a group; EXCLUDE has the deadline of the group timer. RFC 3810 calls it the filter timer (RFC
/// 3376 section 6.2.1, RFC 3810 section 7.2.1).
#[derive(Clone, Copy)]
pub enum FilterMode {
    /// The mode that forwards the sources of the group alone.
    Include,
    /// The mode that forwards all but the sources whose timer is stopped, with the deadline of the group timer.
    Exclude(Moment),
}

/// The timer of a source: stopped, so at zero, or running until a deadline. The tables write the first as a source of Y
/// and the second as a source of X (RFC 3376 section 6.2.3, RFC 3810 section 7.2.3).
#[derive(Clone, Copy)]
pub enum SourceTimer {
    /// A timer at zero.
    Stopped,
    /// The deadline, and the number of retransmissions that are still to go for the source. The first
    /// group-and-source-specific query counts too (RFC 3376 section 6.6.3.2, RFC 3810 section 7.6.3.2).
    Running(Moment, u32),
}

impl FilterMode {
    /// Returns the deadline of the group timer, which only EXCLUDE has.
    pub fn deadline(&self) -> Option<Moment>
        ensures { result ≡ group_deadline self.now }
    {
        match self {
            FilterMode::Include => None,
            FilterMode::Exclude(deadline) => Some(*deadline),
        }
    }

    /// Returns whether only what some sources send is forwarded, and not all but what some send.
    pub fn is_include(&self) -> bool
        ensures { result ≡ is_include self.now }
    {
        matches!(self, FilterMode::Include)
    }

    /// Returns whether one of two modes is INCLUDE and the other EXCLUDE.
    pub(crate) fn is_unlike(&self, other: &FilterMode) -> bool
        ensures { result ≡ not (beq (is_include self.now) (is_include other.now)) }
    {
        self.is_include() != other.is_include()
    }

    /// Returns whether the filter of a group in this mode names a source with this timer, or with none. INCLUDE names
    /// sources that run, EXCLUDE those that are stopped (RFC 3376 section 6.3, RFC 3810 section 7.3).
    pub fn names(&self, timer: &Option<SourceTimer>) -> bool
        ensures { result ≡ names self.now timer.now }
    {
        match self {
            FilterMode::Include => matches!(timer, Some(SourceTimer::Running(_, _))),
            FilterMode::Exclude(_) => matches!(timer, Some(SourceTimer::Stopped)),
        }
    }

    /// Returns whether a group in this mode wants a source with this timer, or with none. RFC 3376 section 6.3, RFC
    /// 3810 section 7.3.
    pub fn wants(&self, timer: Option<SourceTimer>) -> bool
        ensures { result ≡ wants self.now timer }
    {
        match self {
            FilterMode::Include => matches!(timer, Some(SourceTimer::Running(_, _))),
            FilterMode::Exclude(_) => !matches!(timer, Some(SourceTimer::Stopped)),
        }
    }
}

impl SourceTimer {
    /// Returns the deadline, if the timer runs.
    pub fn deadline(&self) -> Option<Moment>
        ensures { result ≡ deadline_of (Some self.now) }
    {
        match self {
            SourceTimer::Stopped => None,
            SourceTimer::Running(deadline, _) => Some(*deadline),
        }
    }

    /// Returns whether a retransmission is still to go for the source.
    pub fn has_retransmissions(&self) -> bool
        ensures { result ≡ nat_lt 0 (retransmissions_of (Some self.now)) }
    {
        match self {
            SourceTimer::Stopped => false,
            SourceTimer::Running(_, retransmissions) => 0 < *retransmissions,
        }
    }

    /// Returns the timer with one retransmission fewer, if it has one.
    pub fn counted(self) -> SourceTimer
        ensures { result ≡ source_counted self }
    {
        match self {
            SourceTimer::Stopped => SourceTimer::Stopped,
            SourceTimer::Running(deadline, retransmissions) => {
                SourceTimer::Running(deadline, retransmissions.saturating_sub(1))
            }
        }
    }
}

/// Returns whether a timer runs on after a moment: it has a deadline, which is later.
pub fn runs_on(deadline: Option<Moment>, moment: Moment, m: &mut Meter) -> bool
    ensures answer { result ≡ is_ahead moment deadline }
    ensures spent { Spends 0 1 m.old m.new }
{
    match deadline {
        Some(deadline) => !m.reached(deadline, moment),
        None => false,
    }
}

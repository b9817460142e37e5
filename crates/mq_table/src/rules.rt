//! The effect of a record on its group, source by source.

ghost use Rattle.std.specs.Prelude.{◌≡◌, true, false};
ghost use Rattle.mq_table.specs.Group.{Include, Exclude, retransmissions_of};
ghost use Rattle.mq_table.specs.AtSource.{timer_after, is_asked_after, mode_after, asks_group_after, named_effect};
ghost use Rattle.mq_table.specs.MergedRecord.{turns};

use crate::kind::{Kind, NamedEffect};
use crate::timers::{FilterMode, SourceTimer};
use mq_count::Moment;

/// Returns the number of retransmissions that are still to go for a source with this timer.
pub(crate) fn retransmissions_of(timer: Option<SourceTimer>) -> u32
    ensures { result ≡ retransmissions_of timer }
{
    match timer {
        Some(SourceTimer::Running(_, retransmissions)) => retransmissions,
        _ => 0,
    }
}

impl Kind {
    /// Returns the effect of a record of this kind on the sources that it names. Returns None if it may change or ask for
    /// others too.
    pub fn named_effect(self) -> Option<NamedEffect>
        ensures { result ≡ named_effect self }
    {
        match self {
            Kind::IsIn | Kind::Allow => Some(NamedEffect::Restart),
            Kind::Block => Some(NamedEffect::Ask),
            Kind::IsEx | Kind::ToIn | Kind::ToEx => None,
        }
    }
}

/// A record's kind, and what it needs of its group: the mode before, and the end of the group membership interval. A
/// timer that is set to this interval runs until that moment.
#[derive(Clone, Copy)]
pub(crate) struct Rule {
    pub(crate) kind: Kind,
    pub(crate) mode: FilterMode,
    pub(crate) interval_end: Moment,
}

impl Rule {
    /// Returns the timer of a source that the record names, in INCLUDE. The group may not have the source.
    fn named_in_include(&self, before: Option<SourceTimer>) -> Option<SourceTimer>
        ensures { result ≡ timer_after self.now.interval_end Include self.now.kind before true }
    {
        match self.kind {
            Kind::IsIn | Kind::ToIn | Kind::Allow => {
                let retransmissions = retransmissions_of(before);
                Some(SourceTimer::Running(self.interval_end, retransmissions))
            }
            Kind::Block => match &before {
                Some(SourceTimer::Running(_, _)) => before,
                _ => None,
            },
            Kind::IsEx | Kind::ToEx => match &before {
                Some(SourceTimer::Running(_, _)) => before,
                _ => Some(SourceTimer::Stopped),
            },
        }
    }

    /// Returns the timer of a source that the record names, in EXCLUDE with the deadline of its group.
    fn named_in_exclude(&self, group: Moment, before: Option<SourceTimer>) -> Option<SourceTimer>
        ensures { result ≡ timer_after self.now.interval_end (Exclude group) self.now.kind before true }
    {
        match self.kind {
            Kind::IsIn | Kind::ToIn | Kind::Allow => {
                let retransmissions = retransmissions_of(before);
                Some(SourceTimer::Running(self.interval_end, retransmissions))
            }
            Kind::IsEx => before.or(Some(SourceTimer::Running(self.interval_end, 0))),
            Kind::Block | Kind::ToEx => before.or(Some(SourceTimer::Running(group, 0))),
        }
    }

    /// Returns the timer of a source that the record doesn't name.
    fn timer_if_unnamed(&self, before: Option<SourceTimer>) -> Option<SourceTimer>
        ensures { result ≡ timer_after self.now.interval_end self.now.mode self.now.kind before false }
    {
        match (self.kind, self.mode, before) {
            (Kind::IsEx | Kind::ToEx, _, _) => None,
            // No source of INCLUDE is stopped.
            (_, FilterMode::Include, Some(SourceTimer::Stopped)) => None,
            _ => before,
        }
    }

    /// Returns the timer of a source after the record, or None if the new group doesn't have it.
    pub(crate) fn timer_after(
        &self,
        before: Option<SourceTimer>,
        is_named: bool,
    ) -> Option<SourceTimer>
        ensures { result ≡ timer_after self.now.interval_end self.now.mode self.now.kind before is_named }
    {
        if !is_named {
            return self.timer_if_unnamed(before);
        }
        let mode = self.mode;
        match &mode {
            FilterMode::Include => self.named_in_include(before),
            FilterMode::Exclude(group) => self.named_in_exclude(*group, before),
        }
    }

    /// Returns whether the record's query for sources asks for a source.
    pub(crate) fn asks_for(&self, before: Option<SourceTimer>, is_named: bool) -> bool
        ensures { result ≡ is_asked_after self.now.interval_end self.now.mode self.now.kind before is_named }
    {
        let runs = matches!(before, Some(SourceTimer::Running(_, _)));
        let is_stopped = matches!(before, Some(SourceTimer::Stopped));
        match (self.kind, self.mode) {
            (Kind::ToIn, _) => runs && !is_named,
            (Kind::Block | Kind::ToEx, FilterMode::Include) => runs && is_named,
            (Kind::Block | Kind::ToEx, FilterMode::Exclude(_)) => is_named && !is_stopped,
            (Kind::IsIn | Kind::IsEx | Kind::Allow, _) => false,
        }
    }

    /// Returns whether the filter names a source before the record and not after it, or the reverse, if the mode stays.
    pub(crate) fn turns(&self, before: Option<SourceTimer>, is_named: bool) -> bool
        ensures { result ≡ turns self.now.mode before (timer_after self.now.interval_end self.now.mode self.now.kind before is_named) }
    {
        let after = self.timer_after(before, is_named);
        self.mode.names(&before) != self.mode.names(&after)
    }

    /// Returns the mode after the record.
    pub(crate) fn mode_after(&self) -> FilterMode
        ensures { result ≡ mode_after self.now.interval_end self.now.mode self.now.kind }
    {
        match self.kind {
            Kind::IsEx | Kind::ToEx => FilterMode::Exclude(self.interval_end),
            _ => self.mode,
        }
    }

    /// Returns whether the record sends a query to the group.
    pub(crate) fn asks_group(&self) -> bool
        ensures { result ≡ asks_group_after self.now.interval_end self.now.mode self.now.kind }
    {
        matches!(self.kind, Kind::ToIn) && matches!(self.mode, FilterMode::Exclude(_))
    }
}

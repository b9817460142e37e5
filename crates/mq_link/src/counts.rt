//! The counters of a link.

ghost use Rattle.std.specs.Prelude.{◌≡◌, ◌+◌, ◌<◌};
ghost use Rattle.mq_count.specs.Streams.{counted_on};
ghost use Rattle.mq_link.specs.Counters as spec;
ghost use Rattle.mq_link.specs.Counters.{no_counts, counted_at, reason_number, refusal_number, kind_number, Applied, Denied, Ignored, Refused};
ghost use Rattle.mq_link.specs.Judging.{verdict_of};

use crate::answers::{DropReason, MessageKind, Refusal};
use crate::statement::Verdict;
use std::marker::Model;

/// The number of reasons to drop a datagram.
const REASONS: usize = 10;

/// The number of kinds of messages that are counted.
const KINDS: usize = 5;

/// The number of reasons to refuse a record.
const REFUSALS: usize = 7;

/// The counters of a link. Each stays at the greatest number once it has reached it. A contract sees the `Counters` of
/// the definitions.
#[derive(Drop)]
pub struct Counts {
    received: u64,
    dropped: u64,
    dropped_by: [u64; REASONS],
    spelled: [u64; KINDS],
    applied: u64,
    ignored: u64,
    refused: u64,
    refused_by: [u64; REFUSALS],
    sent: u64,
    unsent: u64,
    denied: u64,
}

impl Model for Counts {
    ghost use Rattle.mq_link.specs.Counters.{Counters, reason_number, refusal_number, kind_number};
    ghost use Rattle.mq_link.specs.Counted.{count_in, counters_code};

    ghost Value = { Counters };

    ghost coded = { counters_code };

    ghost view = { λ c. record {
      received = c.received;
      dropped = c.dropped;
      dropped_by = count_in reason_number c.dropped_by;
      spelled = count_in kind_number c.spelled;
      applied = c.applied;
      ignored = c.ignored;
      refused = c.refused;
      refused_by = count_in refusal_number c.refused_by;
      sent = c.sent;
      unsent = c.unsent;
      denied = c.denied;
    } };
}

/// Returns the place of a reason in the order of the numbers.
fn reason_place(reason: DropReason) -> usize
    ensures number { result + 1 ≡ reason_number reason }
    ensures within { result < 10 }
{
    usize::from(reason.number()) - 1
}

/// Returns the place of a kind in the order of the numbers.
fn kind_place(kind: MessageKind) -> usize
    ensures number { result + 1 ≡ kind_number kind }
    ensures within { result < 5 }
{
    match kind {
        MessageKind::Query => 0,
        MessageKind::OlderQuery => 1,
        MessageKind::OlderReport => 2,
        MessageKind::Leave => 3,
        MessageKind::Report => 4,
    }
}

/// Returns the place of a name in the order of the numbers.
fn refusal_place(name: Refusal) -> usize
    ensures number { result + 1 ≡ refusal_number name }
    ensures within { result < 7 }
{
    match name {
        Refusal::Long => 0,
        Refusal::Repeated => 1,
        Refusal::Groups => 2,
        Refusal::GroupSources => 3,
        Refusal::Sources => 4,
        Refusal::Scheduled => 5,
        Refusal::Memory => 6,
    }
}

impl Counts {
    /// Returns counters at zero.
    pub fn none() -> Counts
        ensures { result ≡ no_counts }
    {
        Counts {
            received: 0,
            dropped: 0,
            dropped_by: [0; REASONS],
            spelled: [0; KINDS],
            applied: 0,
            ignored: 0,
            refused: 0,
            refused_by: [0; REFUSALS],
            sent: 0,
            unsent: 0,
            denied: 0,
        }
    }

    /// Counts a datagram that was received.
    pub(crate) fn count_received(&mut self)
        ensures { self.new ≡ spec.count_received self.old }
    {
        self.received = self.received.saturating_add(1);
    }

    /// Counts a parsed message.
    pub(crate) fn count_spelled(&mut self, kind: MessageKind)
        ensures { self.new ≡ spec.count_spelled kind self.old }
    {
        let place = kind_place(kind);
        self.spelled[place] = self.spelled[place].saturating_add(1);
    }

    /// Counts a datagram that was dropped.
    pub(crate) fn count_dropped(&mut self, reason: DropReason)
        ensures { self.new ≡ spec.count_dropped reason self.old }
    {
        self.dropped = self.dropped.saturating_add(1);
        self.count_reason(reason);
    }

    /// Counts the reason alone.
    fn count_reason(&mut self, reason: DropReason)
        ensures { self.new ≡ record self.old { dropped_by = counted_at reason_number reason 1 self.old.dropped_by } }
    {
        let place = reason_place(reason);
        self.dropped_by[place] = self.dropped_by[place].saturating_add(1);
    }

    /// Counts the name alone.
    fn count_refusal(&mut self, name: Refusal)
        ensures { self.new ≡ record self.old { refused_by = counted_at refusal_number name 1 self.old.refused_by } }
    {
        let place = refusal_place(name);
        self.refused_by[place] = self.refused_by[place].saturating_add(1);
    }

    /// Counts the verdict on a statement.
    pub(crate) fn count_verdict(&mut self, verdict: Verdict)
        ensures { self.new ≡ spec.count_verdict (verdict_of verdict) self.old }
    {
        match verdict {
            Verdict::Applied => self.applied = self.applied.saturating_add(1),
            Verdict::Ignored => self.ignored = self.ignored.saturating_add(1),
            Verdict::Denied => {
                self.ignored = self.ignored.saturating_add(1);
                self.denied = self.denied.saturating_add(1);
            }
            Verdict::Refused(name) => {
                self.refused = self.refused.saturating_add(1);
                self.count_refusal(name);
            }
        }
    }

    /// Counts queries that were sent, and queries that were not.
    pub(crate) fn count_answers(&mut self, sent: u64, unsent: u64)
        ensures { self.new ≡ record self.old { sent = counted_on self.old.sent sent; unsent = counted_on self.old.unsent unsent } }
    {
        self.sent = self.sent.saturating_add(sent);
        self.unsent = self.unsent.saturating_add(unsent);
    }

    /// Returns the number of datagrams that were received.
    pub fn received(&self) -> u64
        ensures { result ≡ self.now.received }
    {
        self.received
    }

    /// Returns the number of datagrams that were dropped.
    pub fn dropped(&self) -> u64
        ensures { result ≡ self.now.dropped }
    {
        self.dropped
    }

    /// Returns the number of datagrams that were dropped for a reason.
    pub fn dropped_by(&self, reason: DropReason) -> u64
        ensures { result ≡ self.now.dropped_by reason }
    {
        self.dropped_by[reason_place(reason)]
    }

    /// Returns the number of datagrams that were parsed as a message of a kind, with the dropped ones.
    pub fn spelled(&self, kind: MessageKind) -> u64
        ensures { result ≡ self.now.spelled kind }
    {
        self.spelled[kind_place(kind)]
    }

    /// Returns the number of records that were applied, with those that changed nothing.
    pub fn applied(&self) -> u64
        ensures { result ≡ self.now.applied }
    {
        self.applied
    }

    /// Returns the number of records that said nothing for this link.
    pub fn ignored(&self) -> u64
        ensures { result ≡ self.now.ignored }
    {
        self.ignored
    }

    /// Returns the number of records that were refused.
    pub fn refused(&self) -> u64
        ensures { result ≡ self.now.refused }
    {
        self.refused
    }

    /// Returns the number of records that were refused by a name.
    pub fn refused_by(&self, name: Refusal) -> u64
        ensures { result ≡ self.now.refused_by name }
    {
        self.refused_by[refusal_place(name)]
    }

    /// Returns the number of queries that the outlet sent.
    pub fn sent(&self) -> u64
        ensures { result ≡ self.now.sent }
    {
        self.sent
    }

    /// Returns the number of queries that the outlet did not send.
    pub fn unsent(&self) -> u64
        ensures { result ≡ self.now.unsent }
    {
        self.unsent
    }

    /// Returns the number of ignored records for groups for which hosts may not ask.
    pub fn denied(&self) -> u64
        ensures { result ≡ self.now.denied }
    {
        self.denied
    }
}

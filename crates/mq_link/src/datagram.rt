//! The effect of a datagram on a link: first what is due, then the datagram is read, and dropped or taken.

ghost use Rattle.std.specs.Prelude.{◌≡◌, ◌+◌, ◌*◌, ◌^◌, ◌≤◌, ◌||◌, ℕ, Bool, true, max, None, Ok, length};
ghost use Rattle.std.specs.FinMap as map;
ghost use Rattle.mq_count.specs.Spending.{Spends};
ghost use Rattle.mq_held.specs.Groups.{sources_in};
ghost use Rattle.mq_wire.specs.Numbered.{numbered_message};
ghost use Rattle.mq_link.specs.CallCosts.{ReceiveCosts};
ghost use Rattle.mq_link.specs.Forwarding.{AreThose, changed_by_datagram, changed_by_message, changed_by_read};
ghost use Rattle.mq_link.specs.Cost.{least_length};
ghost use Rattle.mq_link.specs.LeastCost.{least_after, least_of};
ghost use Rattle.mq_link.specs.Link.{HasReceived};
ghost use Rattle.mq_link.specs.Reading.{numbered_read, most_records, records_in, IsCarriedIn};
ghost use Rattle.mq_link.specs.Receive as spec;
ghost use Rattle.mq_link.specs.Moved.{HasMoved};
ghost use Rattle.mq_link.specs.Router.{HasReceipt, link_of, silent_step, state_of};
ghost use Rattle.mq_link.specs.Sender.{TakesQuery};
ghost use Rattle.mq_link.specs.Workspace.{suffices, with_changed};

use crate::answers::{MessageKind, Received};
use crate::counts::Counts;
use crate::dropping::drop_reason;
use crate::family::Family;
use crate::outlet::QueryOutlet;
use crate::router::Router;
use crate::sender::Sender;
use crate::statement::StatementKind;
use crate::workspace::Workspace;
use mq_count::Moment;
use mq_wire::{Message, QueryVersion, WireFault, WireKey};
use std::alloc::Allocator;

/// Returns the kind as which a message is counted.
fn kind_of<K: WireKey>(message: &Message<'_, K>) -> MessageKind
    ensures { result ≡ spec.kind_of (numbered_message K.number message.now) }
{
    match message {
        Message::Query(query) => match query.version {
            QueryVersion::Older(_) => MessageKind::OlderQuery,
            QueryVersion::Current(_) => MessageKind::Query,
        },
        Message::OldReport(_, _) => MessageKind::OlderReport,
        Message::Leave(_) => MessageKind::Leave,
        Message::Report(_) => MessageKind::Report,
    }
}

/// Counts a datagram that was read with this result.
fn count_read<K: WireKey>(counts: &mut Counts, read: &Result<Message<'_, K>, WireFault>)
    ensures { counts.new ≡ spec.count_read (numbered_read K.number read.now) counts.old }
{
    counts.count_received();
    if let Ok(message) = read {
        counts.count_spelled(kind_of(message));
    }
}

impl<F: Family, A: Allocator> Router<F, A> {
    /// Counts a datagram that was read with this result.
    fn count_read(&mut self, read: &Result<Message<'_, F::Address>, WireFault>)
        ensures { self.new ≡ record self.old { counters = spec.count_read (numbered_read F.Address.number read.now) self.old.counters } }
    {
        count_read(&mut self.counts, read);
    }

    /// Takes a message that isn't dropped: a query, or the records of any other message.
    fn take_message<B: Allocator, O: QueryOutlet<F::Address>>(
        &mut self,
        work: &mut Workspace<F, B>,
        envelope: &F::Envelope,
        message: &Message<'_, F::Address>,
        sender: &mut Sender<F, O>,
    ) -> Received
        requires kept { spec.drop_reason self.old.at.config (F.envelope_of envelope.now) (Ok (numbered_message F.Address.number message.now)) ≡ None }
        requires carried { IsCarriedIn (numbered_message F.Address.number message.now) }
        requires counted { length (records_in (numbered_message F.Address.number message.now)) ≤ most_records }
        requires enough { suffices self.old.at.config.room work.old ≡ true }
        requires few_changed { length work.old.changed ≤ self.old.at.config.room.groups }
        ensures receipt { let said = numbered_message F.Address.number message.now in
            let receipt = spec.taken_in self.old.at.config (F.envelope_of envelope.now) said (silent_step (state_of self.old)) in
            HasReceipt (TakesQuery O.takes F.FAMILY) receipt result self.old self.new sender.old sender.new }
        ensures workspace { work.new ≡ with_changed work.old work.new.changed }
        ensures changed { (by_tick : ℕ → Bool) → AreThose by_tick work.old.changed →
            let said = numbered_message F.Address.number message.now in
            AreThose (λ address. by_tick address || changed_by_message self.old.at said self.old.groups address) work.new.changed }
        ensures spent { let said = numbered_message F.Address.number message.now in
            let groups = self.old.groups in
            let most = max (20 * map.len groups) (length work.old.changed) in
            Spends (least_of self.old.at said groups) (24 * sources_in groups + most + 64 * least_length said) self.old.spent self.new.spent }
        ensures moved { let said = numbered_message F.Address.number message.now in
            let groups = self.old.groups in
            HasMoved (24 * sources_in groups + 22 * map.len groups + 256 * least_length said) self.old self.new }
    {
        self.lemma_is_stored();
        match message {
            Message::Query(query) => {
                let source = F::source(envelope);
                self.hear(work, source, query);
                Received::Taken {
                    applied: 0,
                    ignored: 0,
                    refused: 0,
                }
            }
            Message::OldReport(version, group) => {
                let said = StatementKind::OlderJoin(*version);
                self.take_statement(work, *group, said, sender)
            }
            Message::Leave(group) => {
                self.take_statement(work, *group, StatementKind::OlderLeave, sender)
            }
            Message::Report(records) => self.take_records(work, records, sender),
        }
    }

    /// Reads a datagram, counts it, and drops it or takes it.
    fn take_in<B: Allocator, O: QueryOutlet<F::Address>>(
        &mut self,
        work: &mut Workspace<F, B>,
        envelope: &F::Envelope,
        body: &[u8],
        sender: &mut Sender<F, O>,
    ) -> Received
        requires enough { suffices self.old.at.config.room work.old ≡ true }
        requires few_changed { length work.old.changed ≤ self.old.at.config.room.groups }
        ensures receipt { let around = F.envelope_of envelope.now in
            let read = spec.read_of F.FAMILY (spec.pseudo_of F.FAMILY around body.now) body.now in
            let receipt = spec.receipt_after self.old.at.config around read (silent_step (state_of self.old)) in
            HasReceipt (TakesQuery O.takes F.FAMILY) receipt result self.old self.new sender.old sender.new }
        ensures workspace { work.new ≡ with_changed work.old work.new.changed }
        ensures changed { (by_tick : ℕ → Bool) → AreThose by_tick work.old.changed →
            let around = F.envelope_of envelope.now in
            let read = spec.read_of F.FAMILY (spec.pseudo_of F.FAMILY around body.now) body.now in
            let reason = spec.drop_reason self.old.at.config around read in
            AreThose (λ address. by_tick address || changed_by_read self.old.at read reason self.old.groups address) work.new.changed }
        ensures spent { let around = F.envelope_of envelope.now in
            let read = spec.read_of F.FAMILY (spec.pseudo_of F.FAMILY around body.now) body.now in
            let groups = self.old.groups in
            let most = max (20 * map.len groups) (length work.old.changed) in
            Spends (least_after self.old.at around read groups) (24 * sources_in groups + most + 64 * length body.now) self.old.spent self.new.spent }
        ensures moved { let groups = self.old.groups in
            HasMoved (24 * sources_in groups + 22 * map.len groups + 256 * length body.now) self.old self.new }
    {
        let read = F::read(envelope, body);
        self.count_read(&read);
        if let Some(reason) = drop_reason(self.config(), envelope, &read) {
            self.count_dropped(reason);
            return Received::Dropped(reason);
        }
        match read {
            Ok(message) => self.take_message(work, envelope, &message, sender),
            Err(_) => unreachable!(),
        }
    }

    /// Handles a datagram that came at `now`. It does what is due then, drops or takes the datagram, and counts the
    /// answers of the outlet.
    pub(crate) fn receive<B: Allocator, O: QueryOutlet<F::Address>>(
        &mut self,
        work: &mut Workspace<F, B>,
        envelope: &F::Envelope,
        body: &[u8],
        now: Moment,
        sender: &mut Sender<F, O>,
    ) -> Received
        requires in_range { now ≤ 2 ^ 53 }
        requires enough { suffices self.old.at.config.room work.old ≡ true }
        ensures config { self.new.at.config ≡ self.old.at.config }
        ensures receives { HasReceived O.takes (F.envelope_of envelope.now) body.now now result (link_of self.old) (link_of self.new)
            sender.old.outlet.now sender.new.outlet.now }
        ensures same_outlet { sender.new.outlet.ghost_name ≡ sender.old.outlet.ghost_name }
        ensures workspace { work.new ≡ with_changed work.old work.new.changed }
        ensures changed { AreThose (changed_by_datagram self.old.at.config (F.envelope_of envelope.now) body.now now (state_of self.old)) work.new.changed }
        ensures costs { ReceiveCosts true (F.envelope_of envelope.now) body.now now (link_of self.old) (link_of self.new) }
    {
        self.lemma_is_stored();
        self.come_to(work, now, sender);
        let received = self.take_in(work, envelope, body, sender);
        self.count_answers(sender.sent(), sender.unsent());
        received
    }
}

//! The calls of a link that send queries, for both families.

ghost use Rattle.std.specs.Prelude.{◌≡◌, ℕ, ◌<◌, ◌≤◌, ◌^◌, length, true};
ghost use Rattle.mq_link.specs.CallCosts.{ReceiveCosts, TickCosts};
ghost use Rattle.mq_link.specs.Forwarding.{changed_by_datagram, changed_by_tick};
ghost use Rattle.mq_link.specs.State.{IsWellFormed};
ghost use Rattle.mq_link.specs.Tick.{next_of};
ghost use Rattle.mq_link.specs.Workspace.{suffices};
ghost use Rattle.mq_c.specs.Calls as spec;
ghost use Rattle.mq_c.specs.Calls.{CallsAt, TicksInto, ReceivesInto, is_done};
ghost use Rattle.mq_c.specs.Changed.{WorksIn};
ghost use Rattle.mq_c.specs.Queries.{outbox_of};
ghost use Rattle.mq_c.specs.Rooms.{receive_room, tick_room};

use crate::forms::Answer;
use crate::queries::Queries;
use crate::statuses::{DONE, MOMENT, WORKSPACE};
use mq_arena::Lodged;
use mq_count::Moment;
use mq_link::{BareLink, Family, Received, Workspace};

/// Returns the answer of a call that did nothing, for the reason of its status.
fn refused(status: u32) -> Answer
    ensures { result ≡ spec.refused status }
{
    Answer {
        status,
        dropped: 0,
        applied: 0,
        ignored: 0,
        refused: 0,
        sent: 0,
        unsent: 0,
        written: 0,
    }
}

/// Returns the answer to a tick.
fn answer_to_tick(queries: &Queries<'_>) -> Answer
    ensures { result ≡ spec.answer_to_tick (outbox_of queries.now) }
{
    Answer {
        status: DONE,
        dropped: 0,
        applied: 0,
        ignored: 0,
        refused: 0,
        sent: queries.sent(),
        unsent: queries.unsent(),
        written: queries.written() as u64,
    }
}

/// Returns the answer to a datagram.
fn answer_to(received: Received, queries: &Queries<'_>) -> Answer
    ensures { result ≡ spec.answer_to received (outbox_of queries.now) }
{
    match received {
        Received::Taken {
            applied,
            ignored,
            refused,
        } => Answer {
            applied,
            ignored,
            refused,
            ..answer_to_tick(queries)
        },
        Received::Dropped(reason) => Answer {
            dropped: u32::from(reason.number()),
            ..answer_to_tick(queries)
        },
    }
}

/// Handles what is due, in a workspace. With as much memory as the room of a tick, no query is left out.
pub(crate) fn tick<F: Family>(
    link: &mut BareLink<F, Lodged>,
    workspace: &mut Workspace<F, Lodged>,
    now: u64,
    out: &mut [u8],
) -> Answer
    ensures workspace { WorksIn (suffices link.old.config.room workspace.old) now (changed_by_tick link.old.config now link.old.state) workspace.old workspace.new }
    ensures ticks { CallsAt (suffices link.old.config.room workspace.old) now (TicksInto F.Address.WIDTH now link.old link.new out.old out.new result) link.old link.new
        out.old out.new result }
    ensures formed { IsWellFormed link.new.config link.new.state }
    ensures later { suffices link.old.config.room workspace.old ≡ true → now ≤ 2 ^ 53 → now < next_of link.new.state }
    ensures costs { TickCosts (is_done (suffices link.old.config.room workspace.old) now) now link.old link.new }
    ensures none_left_out { tick_room F.Address.WIDTH link.old.config ≤ length out.old → result.unsent ≡ 0 }
{
    link.is_well_formed();
    let Some(now) = Moment::from_ms(now) else {
        return refused(MOMENT);
    };
    let mut queries = Queries::new(out);
    match link.tick(workspace, now, &mut queries) {
        Ok(()) => answer_to_tick(&queries),
        Err(_) => refused(WORKSPACE),
    }
}

/// Receives a datagram, in a workspace. With as much memory as the room of a datagram, no query is left out.
pub(crate) fn receive<F: Family>(
    link: &mut BareLink<F, Lodged>,
    workspace: &mut Workspace<F, Lodged>,
    envelope: F::Envelope,
    body: &[u8],
    now: u64,
    out: &mut [u8],
) -> Answer
    ensures workspace { WorksIn (suffices link.old.config.room workspace.old) now (changed_by_datagram link.old.config (F.envelope_of envelope) body.now now link.old.state)
        workspace.old workspace.new }
    ensures receives { CallsAt (suffices link.old.config.room workspace.old) now (ReceivesInto F.Address.WIDTH (F.envelope_of envelope) body.now now link.old link.new
        out.old out.new result) link.old link.new out.old out.new result }
    ensures formed { IsWellFormed link.new.config link.new.state }
    ensures costs { ReceiveCosts (is_done (suffices link.old.config.room workspace.old) now) (F.envelope_of envelope) body.now now link.old link.new }
    ensures none_left_out { (longest : ℕ) → receive_room F.Address.WIDTH longest link.old.config ≤ length out.old → length body.now ≤ longest → result.unsent ≡ 0 }
{
    link.config().is_faultless();
    link.is_well_formed();
    let Some(now) = Moment::from_ms(now) else {
        return refused(MOMENT);
    };
    let mut queries = Queries::new(out);
    match link.receive(workspace, &envelope, body, now, &mut queries) {
        Ok(received) => answer_to(received, &queries),
        Err(_) => refused(WORKSPACE),
    }
}

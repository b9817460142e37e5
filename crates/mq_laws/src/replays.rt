//! Laws of the text of a replay. The functions have no effect at run time but name the laws that they rest on: each
//! contract is a law.

ghost use Rattle.std.specs.Prelude.{◌≡◌, ◌≤◌, ℕ, List};
ghost use Rattle.std.specs.FinMap as map;
ghost use Rattle.mq_link.specs.Configuration.{Configuration, IsFaultless};
ghost use Rattle.mq_link.specs.Forwarding.{AreThose, changed_by_datagram, changed_by_tick};
ghost use Rattle.mq_link.specs.State.{IsWellFormed, LinkState};
ghost use Rattle.mq_link.specs.Tick.{next_of};
ghost use Rattle.mq_replay.specs.Report.{Replayed, changed_at, those_among, ticked_before};
ghost use Rattle.mq_walk.specs.Datagrams.{Datagram};

use crate::links::{links_keep_form_and_limits, ticks_are_quiet_until_the_next_moment};

/// A lemma: the ticks before a moment are all that there are. After them the link's next moment isn't before it.
pub fn no_tick_is_left()
    ensures { (config : Configuration) (limit : ℕ) (r : Replayed)
        → IsFaultless config → IsWellFormed config r.link
        → limit ≤ next_of (ticked_before config limit r).link }
{
    links_keep_form_and_limits();
    ticks_are_quiet_until_the_next_moment();
}

/// A lemma: a replay has lines for all groups that a tick or a datagram changes. They are the one ascending list of
/// these groups.
pub fn changed_groups_are_told()
    ensures ticked { (config : Configuration) (now : ℕ) (state : LinkState) (listed : List ℕ)
        → AreThose (changed_by_tick config now state) listed
        → those_among (changed_by_tick config now state) (map.keys state.groups) ≡ listed }
    ensures received { (config : Configuration) (now : ℕ) (datagram : Datagram) (state : LinkState) (listed : List ℕ)
        → AreThose (changed_by_datagram config datagram.envelope datagram.body now state) listed
        → changed_at config now datagram state ≡ listed }
{}

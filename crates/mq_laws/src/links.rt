//! Laws of the definitions of a link. The functions have no effect at run time: each contract is a law, for every
//! configuration, state and event.
ghost use Rattle.std.specs.Prelude.{◌≡◌, ◌↔◌, ◌<◌, ◌≤◌, ◌+◌, ◌&&◌, ◌||◌, nat_lt, nat_le, ℕ, Bool, true, false, not, List, [], length, Option, Some, None, Ok, Err};
ghost use Rattle.std.specs.List.{count_by};
ghost use Rattle.std.specs.FinMap as map;
ghost use Rattle.mq_count.specs.Streams.{counted_on};
ghost use Rattle.mq_wire.specs.declared.message.Message.{Message};
ghost use Rattle.mq_wire.specs.declared.message.WireFault.{WireFault};
ghost use Rattle.mq_wire.specs.Family.{Family};
ghost use Rattle.mq_wire.specs.Spelling.{Spells, fault_of};
ghost use Rattle.mq_wire.specs.declared.query.Query.{Query};
ghost use Rattle.mq_wire.specs.declared.records.RecordView.{RecordView};
ghost use Rattle.mq_table.specs.declared.kind.Kind.{Kind};
ghost use Rattle.mq_sets.specs.Ascending.{set_of};
ghost use Rattle.mq_table.specs.Filter.{changes_filter, filter_of};
ghost use Rattle.mq_table.specs.Group.{GroupState, forwards_in};
ghost use Rattle.mq_table.specs.Table.{GroupChange};
ghost use Rattle.mq_sched.specs.Schedule.{ScheduledGroup};
ghost use Rattle.mq_table.specs.Timing.{query_interval};
ghost use Rattle.mq_sched.specs.Election.{Other, Querier, is_querier, loses_role, next_moment};
ghost use Rattle.mq_link.specs.declared.configuration.Limits.{Limits};
ghost use Rattle.mq_link.specs.declared.answers.Refusal.{Refusal};
ghost use Rattle.mq_link.specs.declared.answers.DropReason.{DropReason};
ghost use Rattle.mq_link.specs.declared.answers.Received.TheVariants.{Dropped};
ghost use Rattle.mq_link.specs.Family.{is_admitted};
ghost use Rattle.mq_link.specs.Configuration.{Configuration, IsFaultless, is_allowed};
ghost use Rattle.mq_link.specs.Configuring.{config_after, configure_fault, state_configured};
ghost use Rattle.mq_link.specs.Counters.{Denied, Ignored, Refused, is_applied, counted_at, kind_number};
ghost use Rattle.mq_link.specs.State.{Groups, LinkState, IsWellFormed, forwards, link_at, sources_of, sources_in, schedules_in};
ghost use Rattle.mq_link.specs.Forwarding.{AreThose, changed_by_datagram, changed_by_event, changed_by_tick};
ghost use Rattle.mq_link.specs.Tick.{Step, moment_of, tick_of, next_of, waited};
ghost use Rattle.mq_link.specs.Record.{Setting, Statement, Seen, met, kind_named, leaving, limit_passed, change_in, stated, stated_alone, judged};
ghost use Rattle.mq_link.specs.Heard.{groups_cleared, query_heard};
ghost use Rattle.mq_link.specs.Receive.{Envelope, read_of, pseudo_of, kind_of, receipt_of};
ghost use Rattle.mq_link.specs.Run.{Event, Happening, answered, step_of, answer_to, HandsOut, Run, events_of, events_alone};
ghost use Rattle.mq_link.specs.Sent.{Outgoing};
ghost use Rattle.mq_laws.specs.Laws.{AllAfter, ChangesNothing, IsOnlyCounted, DifferAt, IsGivenWhere, CountsAnswer, records_in, CountsRecords, unanswered, HappenAlike, would_be, would_leave};
ghost use Rattle.mq_laws.specs.Lives.{AllThrough, LifeFrom, Stretch};
ghost use Rattle.mq_laws.specs.Following.{AllFollowed, FilterTable, filter_at, groups_in, nothing_of_any, taken_over};

/// A lemma: a link is well-formed at its start and stays so, whatever it receives. Its groups may be held and are
/// within the limits, and a router that isn't querier has nothing to send.
pub fn links_keep_form_and_limits()
    ensures start { (config : Configuration) (start : ℕ)
        → IsFaultless config → IsWellFormed config (link_at config start) }
    ensures tick { (config : Configuration) (now : ℕ) (state : LinkState)
        → IsFaultless config → IsWellFormed config state → IsWellFormed config (tick_of config now state).state }
    ensures datagram { (config : Configuration) (envelope : Envelope) (bytes : List ℕ) (now : ℕ) (state : LinkState)
        → IsFaultless config → IsWellFormed config state
        → IsWellFormed config (receipt_of config envelope bytes now state).step.state }
    ensures run { (config : Configuration) (start : ℕ) (happenings : List Happening)
        → IsFaultless config → Run config start happenings → AllAfter (IsWellFormed config) happenings }
{}

/// A lemma: a link stays well-formed in all of its life, whatever it receives and whatever configurations it is given in
/// between. Another configuration leaves each filter as it is.
pub fn lives_keep_form()
    ensures configured { (config asked : Configuration) (state : LinkState) → IsFaultless asked
        → asked.family ≡ config.family → configure_fault config asked state.groups ≡ None
        → IsWellFormed config state → IsWellFormed (config_after config asked) (state_configured config asked state) }
    ensures filters { (config asked : Configuration) (state : LinkState) (group : ℕ)
        → filter_at (state_configured config asked state) group ≡ filter_at state group }
    ensures life { (config : Configuration) (start : ℕ) (stretches : List Stretch) → IsFaultless config
        → LifeFrom config (link_at config start) stretches
        → AllThrough IsWellFormed config (link_at config start) stretches }
{}

/// A lemma: after another configuration a router is querier exactly if it was, or if the other querier's address is not
/// lower than its own. A querier's next general query is due at most one query interval later.
pub fn configurations_decide_the_role()
    ensures querier { (config asked : Configuration) (state : LinkState) (due startup_queries : ℕ)
        → state.election.role ≡ Querier due startup_queries
        → is_querier (state_configured config asked state).election.role ≡ true }
    ensures other { (config asked : Configuration) (state : LinkState) (address deadline : ℕ)
        → state.election.role ≡ Other address deadline
        → is_querier (state_configured config asked state).election.role ≡ not (nat_lt address asked.own) }
    ensures due { (config asked : Configuration) (state : LinkState)
        → let election = (state_configured config asked state).election in
        is_querier election.role ≡ true → next_moment election.role ≤ state.last + query_interval election.timing }
{}

/// A lemma: a run is determined by its events and the outlet's answers. No two runs have the same ones.
pub fn one_run()
    ensures { (config : Configuration) (start : ℕ) (a b : List Happening)
        → Run config start a → Run config start b → events_of a ≡ events_of b → a ≡ b }
{}

/// A lemma: the bytes of a datagram are read as the message that they encode, or as their fault.
pub fn bytes_are_read_as_what_they_spell()
    ensures message { (family : Family) (pseudo bytes : List ℕ) (message : Message ℕ)
        → (read_of family pseudo bytes ≡ Ok message) ↔ Spells family pseudo bytes message }
    ensures fault { (family : Family) (pseudo bytes : List ℕ) (fault : WireFault)
        → (read_of family pseudo bytes ≡ Err fault) ↔ (fault_of family pseudo bytes ≡ Some fault) }
{}

/// A lemma: the filters don't depend on the number of ticks. Two ticks leave what the later one alone leaves.
pub fn filters_stay_whatever_the_ticks()
    ensures { (config : Configuration) (a b : ℕ) (state : LinkState) (group source : ℕ) → a ≤ b
        → forwards (tick_of config b (tick_of config a state).state).state group source
        ≡ forwards (tick_of config b state).state group source }
{}

/// A lemma: a record that is refused or ignored changes no group and sends nothing. The same holds for an older Report,
/// a Leave or a Done.
pub fn refused_and_ignored_records_change_nothing()
    ensures record_of { (at : Setting) (seen : Seen) (r : RecordView ℕ) (groups : Groups)
        → is_applied (judged at seen r groups).verdict ≡ false → ChangesNothing groups (judged at seen r groups) }
    ensures statement { (at : Setting) (group : ℕ) (statement : Statement) (groups : Groups)
        → is_applied (stated_alone at group statement groups).verdict ≡ false
        → ChangesNothing groups (stated_alone at group statement groups) }
{}

/// A lemma: a dropped datagram has the effect of the tick at its moment, except for the counters.
pub fn dropped_datagrams_are_ticks()
    ensures { (config : Configuration) (envelope : Envelope) (bytes : List ℕ) (now : ℕ) (state : LinkState)
        (reason : DropReason) → (receipt_of config envelope bytes now state).answer ≡ Dropped reason
        → IsOnlyCounted (tick_of config now state) (receipt_of config envelope bytes now state) }
{}

/// A lemma: a tick before the next moment changes nothing but the last moment, and sends nothing. After a tick the next
/// moment is later than its own, so a second tick at one moment does nothing.
pub fn ticks_are_quiet_until_the_next_moment()
    ensures quiet { (config : Configuration) (now : ℕ) (state : LinkState)
        → IsWellFormed config state → moment_of state now < next_of state
        → tick_of config now state ≡ waited (moment_of state now) state }
    ensures later { (config : Configuration) (now : ℕ) (state : LinkState)
        → IsFaultless config → IsWellFormed config state
        → moment_of state now < next_of (tick_of config now state).state }
    ensures twice { (config : Configuration) (now : ℕ) (state : LinkState)
        → IsFaultless config → IsWellFormed config state
        → tick_of config now (tick_of config now state).state
        ≡ waited (moment_of state now) (tick_of config now state).state }
{}

/// A lemma: after a datagram the next moment is later than its own too. No record, query or older message makes
/// something due at once.
pub fn datagrams_leave_nothing_due()
    ensures { (config : Configuration) (envelope : Envelope) (bytes : List ℕ) (now : ℕ) (state : LinkState)
        → IsFaultless config → IsWellFormed config state
        → moment_of state now < next_of (receipt_of config envelope bytes now state).step.state }
{}

/// A lemma: a router that isn't querier after the tick of a moment sends nothing at it, whatever it receives. No
/// datagram makes it querier, and no tick before the other querier's deadline.
pub fn other_routers_send_nothing()
    ensures before_the_deadline { (config : Configuration) (now address deadline : ℕ) (state : LinkState)
        → state.election.role ≡ Other address deadline → moment_of state now < deadline
        → is_querier (tick_of config now state).state.election.role ≡ false }
    ensures whatever_comes { (config : Configuration) (envelope : Envelope) (bytes : List ℕ) (now : ℕ) (state : LinkState)
        → is_querier (tick_of config now state).state.election.role ≡ false
        → is_querier (receipt_of config envelope bytes now state).step.state.election.role ≡ false }
    ensures tick { (config : Configuration) (now : ℕ) (state : LinkState)
        → IsWellFormed config state → is_querier (tick_of config now state).state.election.role ≡ false
        → (tick_of config now state).queries ≡ [] }
    ensures datagram { (config : Configuration) (envelope : Envelope) (bytes : List ℕ) (now : ℕ) (state : LinkState)
        → IsFaultless config → IsWellFormed config state
        → is_querier (tick_of config now state).state.election.role ≡ false
        → (receipt_of config envelope bytes now state).step.queries ≡ [] }
{}

/// A lemma: a record or a received query changes no group but its own. If the router loses the role by the query, the
/// others lose what was to go for them, and no more.
pub fn other_groups_stay()
    ensures record_of { (at : Setting) (seen : Seen) (r : RecordView ℕ) (groups : Groups)
        → DifferAt r.group groups (judged at seen r groups).groups }
    ensures statement { (at : Setting) (group : ℕ) (statement : Statement) (groups : Groups)
        → DifferAt group groups (stated at group statement groups).groups }
    ensures query { (config : Configuration) (now source : ℕ) (query : Query ℕ) (state : LinkState)
        → loses_role config.own source state.election.role ≡ false
        → DifferAt query.group state.groups (query_heard config now source query state).groups }
    ensures role_lost { (config : Configuration) (now source : ℕ) (query : Query ℕ) (state : LinkState)
        → loses_role config.own source state.election.role ≡ true
        → DifferAt query.group (groups_cleared state.groups) (query_heard config now source query state).groups }
{}

/// A lemma: a limit is named exactly if it is the first in the order that the groups would exceed after a record. So
/// limits that are large enough refuse nothing.
pub fn limits_are_named_in_their_order()
    ensures verdict { (at : Setting) (group : ℕ) (statement : Statement) (groups : Groups) (change : GroupChange)
        (name : Refusal) → change_in at group statement groups ≡ Some change
        → ((stated at group statement groups).verdict ≡ Refused name)
        ↔ (limit_passed at.config.limits (would_leave at group groups change) (would_be at group groups change) ≡ Some name) }
    ensures groups { (limits : Limits) (groups : Groups) (changed : ScheduledGroup)
        → IsGivenWhere (limit_passed limits groups changed) Refusal.Groups
        false
        (nat_lt limits.groups (map.len groups)) }
    ensures group_sources { (limits : Limits) (groups : Groups) (changed : ScheduledGroup)
        → IsGivenWhere (limit_passed limits groups changed) Refusal.GroupSources
        (nat_lt limits.groups (map.len groups))
        (nat_lt limits.group_sources (sources_of changed)) }
    ensures sources { (limits : Limits) (groups : Groups) (changed : ScheduledGroup)
        → IsGivenWhere (limit_passed limits groups changed) Refusal.Sources
        (nat_lt limits.groups (map.len groups) || nat_lt limits.group_sources (sources_of changed))
        (nat_lt limits.sources (sources_in groups)) }
    ensures scheduled { (limits : Limits) (groups : Groups) (changed : ScheduledGroup)
        → IsGivenWhere (limit_passed limits groups changed) Refusal.Scheduled
        (nat_lt limits.groups (map.len groups) || nat_lt limits.group_sources (sources_of changed)
        || nat_lt limits.sources (sources_in groups))
        (nat_lt limits.scheduled (schedules_in groups)) }
    ensures none { (limits : Limits) (groups : Groups) (changed : ScheduledGroup)
        → map.len groups ≤ limits.groups → sources_of changed ≤ limits.group_sources
        → sources_in groups ≤ limits.sources → schedules_in groups ≤ limits.scheduled
        → limit_passed limits groups changed ≡ None }
{}

/// A lemma: a record of an unknown type or for a group that isn't admitted is ignored. So is one for a group for which
/// hosts may not ask, which has a count of its own. Any other is too long exactly if it names more sources than a group
/// may have. If it isn't too long, it is repeated exactly if four records of its
/// datagram met its group, which is held. Memory is never named.
pub fn other_refusals()
    ensures unknown { (at : Setting) (seen : Seen) (r : RecordView ℕ) (groups : Groups)
        → kind_named r.kind ≡ None → (judged at seen r groups).verdict ≡ Ignored }
    ensures not_admitted { (at : Setting) (seen : Seen) (r : RecordView ℕ) (groups : Groups)
        → is_admitted at.config.family r.group ≡ false → (judged at seen r groups).verdict ≡ Ignored }
    ensures denied { (at : Setting) (seen : Seen) (r : RecordView ℕ) (groups : Groups) (kind : Kind)
        → kind_named r.kind ≡ Some kind → is_admitted at.config.family r.group ≡ true
        → is_allowed at.config r.group ≡ false → (judged at seen r groups).verdict ≡ Denied }
    ensures denied_alone { (at : Setting) (group : ℕ) (statement : Statement) (groups : Groups)
        → is_allowed at.config group ≡ false → stated_alone at group statement groups ≡ leaving groups Denied }
    ensures long { (at : Setting) (seen : Seen) (r : RecordView ℕ) (groups : Groups) (kind : Kind)
        → kind_named r.kind ≡ Some kind → is_admitted at.config.family r.group ≡ true
        → is_allowed at.config r.group ≡ true
        → ((judged at seen r groups).verdict ≡ Refused Refusal.Long)
        ↔ (nat_lt at.config.limits.group_sources (length r.sources) ≡ true) }
    ensures repeated { (at : Setting) (seen : Seen) (r : RecordView ℕ) (groups : Groups) (kind : Kind)
        → kind_named r.kind ≡ Some kind → is_admitted at.config.family r.group ≡ true
        → is_allowed at.config r.group ≡ true
        → nat_lt at.config.limits.group_sources (length r.sources) ≡ false
        → ((judged at seen r groups).verdict ≡ Refused Refusal.Repeated)
        ↔ ((map.contains_key groups r.group && nat_le 4 (met seen r.group)) ≡ true) }
    ensures no_memory { (at : Setting) (seen : Seen) (r : RecordView ℕ) (groups : Groups)
        → (judged at seen r groups).verdict ≡ Refused Refusal.Memory → ⊥ }
    ensures memory { (at : Setting) (group : ℕ) (statement : Statement) (groups : Groups)
        → (stated at group statement groups).verdict ≡ Refused Refusal.Memory → ⊥ }
{}

/// A lemma: each datagram is counted once, as received and by its answer. If it encodes a message, it is also counted
/// once by kind, dropped or not. A taken message has as many records applied, ignored and refused as it has records.
/// Each query that the outlet receives is counted as sent or as unsent.
pub fn each_datagram_is_counted_once()
    ensures received { (config : Configuration) (envelope : Envelope) (bytes : List ℕ) (now : ℕ) (state : LinkState)
        → (receipt_of config envelope bytes now state).step.state.counters.received
        ≡ counted_on state.counters.received 1 }
    ensures answer { (config : Configuration) (envelope : Envelope) (bytes : List ℕ) (now : ℕ) (state : LinkState)
        → CountsAnswer (receipt_of config envelope bytes now state).answer state.counters
        (receipt_of config envelope bytes now state).step.state.counters }
    ensures records { (config : Configuration) (envelope : Envelope) (bytes : List ℕ) (now : ℕ) (state : LinkState)
        (message : Message ℕ) → read_of config.family (pseudo_of config.family envelope bytes) bytes ≡ Ok message
        → CountsRecords (records_in message) (receipt_of config envelope bytes now state).answer }
    ensures kind { (config : Configuration) (envelope : Envelope) (bytes : List ℕ) (now : ℕ) (state : LinkState)
        (message : Message ℕ) → read_of config.family (pseudo_of config.family envelope bytes) bytes ≡ Ok message
        → (receipt_of config envelope bytes now state).step.state.counters.spelled
        ≡ counted_at kind_number (kind_of message) 1 state.counters.spelled }
    ensures queries { (config : Configuration) (step : Step) (messages : List Outgoing) (answers : List Bool)
        (after : LinkState) → HandsOut config step messages answers after
        → count_by (λ b. b) answers + count_by not answers ≡ length step.queries }
{}

/// A lemma: the outlet's answers change nothing but `sent` and `unsent`, at once and later. States that differ in these
/// alone do the same, and go on differing in these alone. So two runs of the same events have the same answers,
/// messages and states, except for these. Their sum is the same in both, as far as a u64 has room.
pub fn outlets_decide_nothing_else()
    ensures runs { (config : Configuration) (start : ℕ) (a b : List Happening)
        → Run config start a → Run config start b → events_alone a ≡ events_alone b → HappenAlike a b }
    ensures counted { (answers : List Bool) (step : Step) → unanswered (answered answers step) ≡ unanswered step.state }
    ensures state { (config : Configuration) (event : Event) (a b : LinkState) → unanswered a ≡ unanswered b
        → unanswered (step_of config event a).state ≡ unanswered (step_of config event b).state }
    ensures queries { (config : Configuration) (event : Event) (a b : LinkState) → unanswered a ≡ unanswered b
        → (step_of config event a).queries ≡ (step_of config event b).queries }
    ensures timing { (config : Configuration) (event : Event) (a b : LinkState) → unanswered a ≡ unanswered b
        → (step_of config event a).timing ≡ (step_of config event b).timing }
    ensures answer { (config : Configuration) (event : Event) (a b : LinkState) → unanswered a ≡ unanswered b
        → answer_to config event a ≡ answer_to config event b }
{}

/// A lemma: a group that an event doesn't name keeps its filter, and so what is forwarded of each source. For a
/// datagram this holds over its tick and all its content: records one after the other, older messages, a received
/// query, and what is dropped.
pub fn who_is_not_named_is_as_before()
    ensures tick { (config : Configuration) (now : ℕ) (state : LinkState) (group source : ℕ)
        → changed_by_tick config now state group ≡ false
        → forwards (tick_of config now state).state group source ≡ forwards state group source }
    ensures datagram { (config : Configuration) (envelope : Envelope) (bytes : List ℕ) (now : ℕ) (state : LinkState)
        (group source : ℕ) → changed_by_datagram config envelope bytes now state group ≡ false
        → forwards (receipt_of config envelope bytes now state).step.state group source ≡ forwards state group source }
    ensures filter { (config : Configuration) (event : Event) (state : LinkState) (group : ℕ)
        → changed_by_event config event state group ≡ false
        → filter_at (step_of config event state).state group ≡ filter_at state group }
{}

/// A lemma: a step changes the filter of a group exactly if it turns some source. The source is forwarded before it or
/// after it, and not both. So a tick names the groups in which it turns a source, and no others. A datagram names a
/// group that is not in its message exactly if the tick at its moment does. The same holds for every group if it
/// encodes no message. No other addresses could be the answer of a call.
pub fn who_is_named_was_changed()
    ensures filter { (before after : GroupState)
        → (changes_filter before after ≡ true) ↔ (filter_of after ≡ filter_of before → ⊥) }
    ensures sources { (before after : GroupState) → (changes_filter before after ≡ true)
        ↔ ((source : ℕ) × (forwards_in after source ≡ not (forwards_in before source))) }
    ensures tick { (config : Configuration) (now : ℕ) (state : LinkState) (group : ℕ)
        → (changed_by_tick config now state group ≡ true)
        ↔ ((source : ℕ) × (forwards (tick_of config now state).state group source ≡ not (forwards state group source))) }
    ensures spoken_of { (config : Configuration) (envelope : Envelope) (bytes : List ℕ) (now : ℕ) (state : LinkState)
        (group : ℕ) (message : Message ℕ)
        → read_of config.family (pseudo_of config.family envelope bytes) bytes ≡ Ok message
        → set_of (λ a. a) (groups_in message) group ≡ false
        → changed_by_datagram config envelope bytes now state group ≡ changed_by_tick config now state group }
    ensures unread { (config : Configuration) (envelope : Envelope) (bytes : List ℕ) (now : ℕ) (state : LinkState)
        (group : ℕ) (fault : WireFault)
        → read_of config.family (pseudo_of config.family envelope bytes) bytes ≡ Err fault
        → changed_by_datagram config envelope bytes now state group ≡ changed_by_tick config now state group }
    ensures one_answer { (test : ℕ → Bool) (a b : List ℕ) → AreThose test a → AreThose test b → a ≡ b }
{}

/// A lemma: a table follows a link, so that it forwards at each moment of the run what the link does. It begins with
/// nothing, and after each event takes over the filters of the groups that the event names. The addresses that a call
/// returns name just those groups.
pub fn a_table_follows()
    ensures run { (config : Configuration) (start : ℕ) (happenings : List Happening) → Run config start happenings
        → AllFollowed config (link_at config start) nothing_of_any happenings }
    ensures answered { (config : Configuration) (event : Event) (before after : LinkState) (addresses : List ℕ)
        (table : FilterTable) (group : ℕ) → AreThose (changed_by_event config event before) addresses
        → taken_over (set_of (λ a. a) addresses) after table group
        ≡ taken_over (changed_by_event config event before) after table group }
{}

//! The differences of the families. There are configurations, datagrams of MLD, reasons to drop datagrams, and queries
//! as they are sent.

ghost use Rattle.std.specs.Prelude.{◌≡◌, ◌+◌, ◌*◌, ◌^◌, [], ◌∷◌, true, false, Some, None, length, replicate};
ghost use Rattle.mq_wire.specs.Family.{Igmp, Mld};
ghost use Rattle.mq_table.specs.declared.timers.FilterMode.TheVariants.{Include, Exclude};
ghost use Rattle.mq_table.specs.Examples.{default_timing, until};
ghost use Rattle.mq_sched.specs.Examples.{the_group};
ghost use Rattle.mq_sched.specs.Sending.{GeneralQuery, GroupQuery, SourcesQuery};
ghost use Rattle.mq_link.specs.Family.{is_admitted, in_source_specific_range, is_link_local, is_router_address};
ghost use Rattle.mq_link.specs.Configuration.{configuration_fault};
ghost use Rattle.mq_link.specs.Ranges.{is_allowed_by};
ghost use Rattle.mq_link.specs.Counters.{Applied, Ignored, Refused};
ghost use Rattle.mq_link.specs.Sent.{fields_sent, outgoing};
ghost use Rattle.mq_examples.specs.Links.{igmp, mld, limited, mld_limited, timed, queried, owned, mld_owned, source_specific_mld, host, ipv4, range, from, mld_from, link_local, a_source, a_group, a_source_specific_group, octets, listed, early, asking, saying, Comes, Becomes};

use mq_link::{ConfigFault, DropReason, LimitName, Received, Refusal};

/// The admitted groups.
pub fn groups_admitted()
    ensures below { is_admitted Igmp (ipv4 223 255 255 255) ≡ false }
    ensures first { is_admitted Igmp (ipv4 224 0 0 0) ≡ true }
    ensures all_systems { is_admitted Igmp (ipv4 224 0 0 1) ≡ false }
    ensures next { is_admitted Igmp (ipv4 224 0 0 2) ≡ true }
    ensures last { is_admitted Igmp (ipv4 239 255 255 255) ≡ true }
    ensures above { is_admitted Igmp (ipv4 240 0 0 0) ≡ false }
    ensures unicast { is_admitted Mld a_source ≡ false }
    ensures all_nodes { is_admitted Mld (0xff02 * 2 ^ 112 + 1) ≡ false }
    ensures another { is_admitted Mld (0xff02 * 2 ^ 112 + 2) ≡ true }
    ensures scope_0 { is_admitted Mld (0xff30 * 2 ^ 112 + 1) ≡ false }
    ensures scope_1 { is_admitted Mld (0xff31 * 2 ^ 112 + 1) ≡ false }
    ensures scope_2 { is_admitted Mld (0xff32 * 2 ^ 112 + 1) ≡ true }
    ensures zero { is_admitted Mld 0 ≡ false }
{}

/// The source-specific range, 232.0.0.0/8 and ff3x::/32.
pub fn source_specific_ranges()
    ensures below { in_source_specific_range Igmp (ipv4 231 255 255 255) ≡ false }
    ensures first { in_source_specific_range Igmp (ipv4 232 0 0 0) ≡ true }
    ensures last { in_source_specific_range Igmp (ipv4 232 255 255 255) ≡ true }
    ensures above { in_source_specific_range Igmp (ipv4 233 0 0 0) ≡ false }
    ensures any_scope { in_source_specific_range Mld a_source_specific_group ≡ true }
    ensures greatest { in_source_specific_range Mld (0xff3f0001 * 2 ^ 96 + 0) ≡ false }
    ensures third_octet { in_source_specific_range Mld (0xff3e0100 * 2 ^ 96 + 1) ≡ false }
    ensures fourth_octet { in_source_specific_range Mld (0xff3e0001 * 2 ^ 96 + 1) ≡ false }
    ensures other_flags { in_source_specific_range Mld a_group ≡ false }
{}

/// The ranges of groups that hosts may ask for.
pub fn ranges_of_groups()
    ensures none { is_allowed_by Igmp [] (ipv4 239 1 2 3) ≡ true }
    ensures allowed { is_allowed_by Igmp (range (ipv4 239 1 0 0) 16 true ∷ []) (ipv4 239 1 255 255) ≡ true }
    ensures no_other { is_allowed_by Igmp (range (ipv4 239 1 0 0) 16 true ∷ []) (ipv4 239 2 0 0) ≡ false }
    ensures denied { is_allowed_by Igmp (range (ipv4 239 1 2 3) 31 false ∷ []) (ipv4 239 1 2 2) ≡ false }
    ensures below { is_allowed_by Igmp (range (ipv4 239 1 2 3) 31 false ∷ []) (ipv4 239 1 2 1) ≡ true }
    ensures above { is_allowed_by Igmp (range (ipv4 239 1 2 3) 31 false ∷ []) (ipv4 239 1 2 4) ≡ true }
    ensures first { is_allowed_by Igmp (range (ipv4 239 1 2 0) 24 false ∷ range (ipv4 239 1 0 0) 16 true ∷ []) (ipv4 239 1 2 3) ≡ false }
    ensures second { is_allowed_by Igmp (range (ipv4 239 1 2 0) 24 false ∷ range (ipv4 239 1 0 0) 16 true ∷ []) (ipv4 239 1 3 3) ≡ true }
    ensures neither { is_allowed_by Igmp (range (ipv4 239 1 2 0) 24 false ∷ range (ipv4 239 1 0 0) 16 true ∷ []) (ipv4 239 2 3 3) ≡ false }
    ensures all { is_allowed_by Igmp (range 0 0 false ∷ []) (ipv4 239 255 255 255) ≡ false }
    ensures longer { is_allowed_by Igmp (range (ipv4 239 1 2 3) 40 false ∷ []) (ipv4 239 1 2 3) ≡ false }
    ensures one { is_allowed_by Igmp (range (ipv4 239 1 2 3) 40 false ∷ []) (ipv4 239 1 2 2) ≡ true }
    ensures mld { is_allowed_by Mld (range (0xff0e * 2 ^ 112) 16 false ∷ []) (0xff0e * 2 ^ 112 + 1) ≡ false }
    ensures mld_other { is_allowed_by Mld (range (0xff0e * 2 ^ 112) 16 false ∷ []) (0xff0f * 2 ^ 112 + 1) ≡ true }
    ensures mld_one { is_allowed_by Mld (range (0xff0e * 2 ^ 112) 128 false ∷ []) (0xff0e * 2 ^ 112 + 1) ≡ true }
{}

/// The addresses that a router may have, and link-local ones.
pub fn router_addresses()
    ensures zero { is_router_address Igmp (ipv4 0 0 0 0) ≡ false }
    ensures any { is_router_address Igmp (ipv4 223 255 255 255) ≡ true }
    ensures group { is_router_address Igmp (ipv4 224 0 0 0) ≡ false }
    ensures link_local { is_router_address Mld (link_local 1) ≡ true }
    ensures below { is_link_local (0xfe7f * 2 ^ 112 + 1) ≡ false }
    ensures last { is_link_local (0xfebf * 2 ^ 112 + 1) ≡ true }
    ensures above { is_link_local (0xfec0 * 2 ^ 112 + 1) ≡ false }
    ensures unspecified { is_link_local 0 ≡ false }
{}

/// The first faults of configurations.
pub fn configuration_faults()
    ensures defaults { configuration_fault igmp ≡ None }
    ensures defaults_of_mld { configuration_fault mld ≡ None }
    ensures robustness { configuration_fault (timed 8 0 10000 1000) ≡ Some ConfigFault.Robustness }
    ensures no_robustness { configuration_fault (timed 0 125 10000 1000) ≡ Some ConfigFault.Robustness }
    ensures query_interval { configuration_fault (timed 2 0 10000 1000) ≡ Some ConfigFault.QueryInterval }
    ensures greatest_interval { configuration_fault (timed 2 31744 10000 1000) ≡ None }
    ensures greater_interval { configuration_fault (timed 2 31745 10000 1000) ≡ Some ConfigFault.QueryInterval }
    ensures response { configuration_fault (timed 2 125 125000 1000) ≡ Some ConfigFault.ResponseInterval }
    ensures response_below { configuration_fault (timed 2 125 124999 1000) ≡ None }
    ensures response_below_a_unit { configuration_fault (timed 2 125 99 1000) ≡ Some ConfigFault.ResponseInterval }
    ensures greatest_response { configuration_fault (timed 2 31744 3174400 1000) ≡ None }
    ensures greater_response { configuration_fault (timed 2 31744 3174401 1000) ≡ Some ConfigFault.ResponseInterval }
    ensures last_member { configuration_fault (timed 2 125 10000 50) ≡ Some ConfigFault.LastMember }
    ensures least_last_member { configuration_fault (timed 2 125 10000 100) ≡ None }
    ensures greater_last_member { configuration_fault (timed 2 125 10000 3174401) ≡ Some ConfigFault.LastMember }
    ensures greatest_count { configuration_fault (queried 7) ≡ None }
    ensures greater_count { configuration_fault (queried 8) ≡ Some ConfigFault.LastMemberCount }
    ensures no_response_of_mld { configuration_fault (record mld { timing = (timed 2 125 0 1000).timing })
        ≡ Some ConfigFault.ResponseInterval }
    ensures units_of_mld { configuration_fault (record mld { timing = (timed 2 125 1 1).timing }) ≡ None }
    ensures greater_response_of_mld { configuration_fault (record mld { timing = (timed 2 31744 8387585 1000).timing })
        ≡ Some ConfigFault.ResponseInterval }
    // If two hold, the first is named.
    ensures response_and_last_member { configuration_fault (timed 2 125 125000 50) ≡ Some ConfigFault.ResponseInterval }
    ensures last_member_and_limit { configuration_fault (record (timed 2 125 10000 50) { limits = (limited 0 366 1 1).limits })
        ≡ Some ConfigFault.LastMember }
    ensures limit_and_own { configuration_fault (record (limited 1 366 1 0) { own = 0 })
        ≡ Some (ConfigFault.Limit LimitName.Scheduled) }
    ensures no_groups { configuration_fault (limited 0 366 0 256) ≡ Some (ConfigFault.Limit LimitName.Groups) }
    ensures no_sources { configuration_fault (limited 1024 366 0 256) ≡ Some (ConfigFault.Limit LimitName.Sources) }
    ensures scheduled { configuration_fault (limited 1024 366 16384 65536) ≡ Some (ConfigFault.Limit LimitName.Scheduled) }
    ensures most_group_sources { configuration_fault (mld_limited 1024) ≡ None }
    ensures group_sources { configuration_fault (mld_limited 1025) ≡ Some (ConfigFault.Limit LimitName.GroupSources) }
    ensures own_group { configuration_fault (owned (ipv4 224 0 0 1)) ≡ Some ConfigFault.OwnAddress }
    ensures own_zero { configuration_fault (owned 0) ≡ Some ConfigFault.OwnAddress }
    ensures own_of_mld { configuration_fault (mld_owned a_source) ≡ Some ConfigFault.OwnAddress }
{}

/// A Report of MLD, and the reasons to drop it.
///
/// They are its hop limit, no Router Alert, the unspecified address as source, and a checksum that this source makes
/// wrong. If several reasons hold, it is that of the lowest number.
pub fn a_report_of_mld()
    ensures allowed { Comes mld (mld_from (link_local 2) 1 true)
        (octets 44 0x8f002efe0000000105000001ff0e000000000000000000000000123420010db8000000000000000000000001)
        1000 (early 0 []) (Received.Taken 1 0 0) []
        (early 1000 ((a_group, listed Include ((a_source, until 261000) ∷ [])) ∷ [])) }
    ensures hop_limit { Comes mld (mld_from (link_local 2) 255 true)
        (octets 44 0x8f002efe0000000105000001ff0e000000000000000000000000123420010db8000000000000000000000001)
        1000 (early 0 []) (Received.Dropped DropReason.HopLimit) [] (early 1000 []) }
    ensures no_alert { Comes mld (mld_from (link_local 2) 1 false)
        (octets 44 0x8f002efe0000000105000001ff0e000000000000000000000000123420010db8000000000000000000000001)
        1000 (early 0 []) (Received.Dropped DropReason.NoAlert) [] (early 1000 []) }
    ensures unspecified { Comes mld (mld_from 0 1 true)
        (octets 44 0x8f002d810000000105000001ff0e000000000000000000000000123420010db8000000000000000000000001)
        1000 (early 0 []) (Received.Dropped DropReason.BadSource) [] (early 1000 []) }
    ensures checksum { Comes mld (mld_from 0 1 true)
        (octets 44 0x8f002efe0000000105000001ff0e000000000000000000000000123420010db8000000000000000000000001)
        1000 (early 0 []) (Received.Dropped DropReason.Checksum) [] (early 1000 []) }
    ensures lowest { Comes mld (mld_from 0 255 false)
        (octets 44 0x8f002d810000000105000001ff0e000000000000000000000000123420010db8000000000000000000000001)
        1000 (early 0 []) (Received.Dropped DropReason.BadSource) [] (early 1000 []) }
    ensures lower { Comes mld (mld_from (link_local 2) 255 false)
        (octets 44 0x8f002efe0000000105000001ff0e000000000000000000000000123420010db8000000000000000000000001)
        1000 (early 0 []) (Received.Dropped DropReason.HopLimit) [] (early 1000 []) }
{}

/// The reasons to drop messages of IGMP. They are queries from the own address or from none, or of version 1, and older
/// messages for a group that isn't admitted. A Report from 0.0.0.0 is taken.
pub fn messages_dropped()
    ensures own { Comes igmp (from 9) (octets 12 0x1164eb5f00000000033c0000) 5000 (early 0 [])
        (Received.Dropped DropReason.OwnOrZero) [] (early 5000 []) }
    ensures zero { Comes igmp (record { source = 0; destination = 0; hop_limit = 1; alert = false })
        (octets 12 0x1164eb5f00000000033c0000) 5000 (early 0 [])
        (Received.Dropped DropReason.OwnOrZero) [] (early 5000 []) }
    ensures version_1 { Comes igmp (from 2) (octets 8 0x1100eeff00000000) 5000 (early 0 [])
        (Received.Dropped DropReason.OlderQuery) [] (early 5000 []) }
    ensures own_of_version_1 { Comes igmp (from 9) (octets 8 0x1100eeff00000000) 5000 (early 0 [])
        (Received.Dropped DropReason.OwnOrZero) [] (early 5000 []) }
    ensures all_systems { Comes igmp (from 1) (octets 8 0x160009fee0000001) 5000 (early 0 [])
        (Received.Dropped DropReason.BadGroup) [] (early 5000 []) }
    ensures report_from_zero { Comes igmp (record { source = 0; destination = 0; hop_limit = 1; alert = false })
        (octets 20 0x2200e5f90000000105000001e80101010a000001) 1000 (early 0 [])
        (Received.Taken 1 0 0) []
        (early 1000 ((the_group, listed Include ((host 1, until 261000) ∷ [])) ∷ [])) }
{}

/// TO_EX for ff3e::1, ignored if its range is kept for source-specific multicast. For ff0e::1234 it is applied.
pub fn the_source_specific_range_of_mld()
    ensures ignored { Becomes (asking source_specific_mld 1000) (saying a_source_specific_group 4 [])
        [] Ignored [] [] }
    ensures applied { Becomes (asking source_specific_mld 1000) (saying a_group 4 [])
        [] Applied [] ((a_group, listed (Exclude 261000) []) ∷ []) }
    // Its number of sources counts first.
    ensures long { Becomes (asking source_specific_mld 1000) (saying a_source_specific_group 4 (replicate 90 1))
        [] (Refused Refusal.Long) [] [] }
{}

/// Queries as they are sent: general queries to all systems and all nodes, specific ones to their group.
pub fn queries_as_sent()
    ensures general { outgoing igmp default_timing GeneralQuery
        ≡ record { to = ipv4 224 0 0 1; query = fields_sent default_timing GeneralQuery; bytes = octets 12 0x1164ec1e00000000027d0000 } }
    ensures general_of_mld { outgoing mld default_timing GeneralQuery
        ≡ record { to = 0xff02 * 2 ^ 112 + 1; query = fields_sent default_timing GeneralQuery; bytes = octets 28 0x820056962710000000000000000000000000000000000000027d0000 } }
    ensures source { outgoing igmp default_timing (SourcesQuery the_group false (host 1 ∷ []))
        ≡ record { to = the_group; query = fields_sent default_timing (SourcesQuery the_group false (host 1 ∷ [])); bytes = octets 16 0x110af973e8010101027d00010a000001 } }
    ensures group { outgoing igmp default_timing (GroupQuery (ipv4 239 1 2 3) false)
        ≡ record { to = ipv4 239 1 2 3; query = fields_sent default_timing (GroupQuery (ipv4 239 1 2 3) false); bytes = octets 12 0x110afb73ef010203027d0000 } }
    ensures suppressing { outgoing igmp default_timing (GroupQuery (ipv4 239 1 2 3) true)
        ≡ record { to = ipv4 239 1 2 3; query = fields_sent default_timing (GroupQuery (ipv4 239 1 2 3) true); bytes = octets 12 0x110af373ef0102030a7d0000 } }
    ensures two_sources { outgoing igmp default_timing (SourcesQuery the_group false (host 1 ∷ host 2 ∷ []))
        ≡ record { to = the_group; query = fields_sent default_timing (SourcesQuery the_group false (host 1 ∷ host 2 ∷ [])); bytes = octets 20 0x110aef70e8010101027d00020a0000010a000002 } }
    ensures suppressing_a_source { outgoing igmp default_timing (SourcesQuery the_group true (host 1 ∷ []))
        ≡ record { to = the_group; query = fields_sent default_timing (SourcesQuery the_group true (host 1 ∷ [])); bytes = octets 16 0x110af173e80101010a7d00010a000001 } }
    ensures the_other_source { outgoing igmp default_timing (SourcesQuery the_group false (host 2 ∷ []))
        ≡ record { to = the_group; query = fields_sent default_timing (SourcesQuery the_group false (host 2 ∷ [])); bytes = octets 16 0x110af972e8010101027d00010a000002 } }
{}

/// The length of a query with as many sources as a packet of 1500 octets holds, and with one.
pub fn queries_of_many_sources()
    ensures full { length (outgoing igmp default_timing (SourcesQuery the_group false (replicate 366 (host 1)))).bytes ≡ 1476 }
    ensures one { length (outgoing igmp default_timing (SourcesQuery the_group false (host 1 ∷ []))).bytes ≡ 16 }
    ensures full_of_mld { length (outgoing mld default_timing (SourcesQuery a_group false (replicate 89 a_source))).bytes ≡ 1452 }
    ensures one_of_mld { length (outgoing mld default_timing (SourcesQuery a_group false (a_source ∷ []))).bytes ≡ 44 }
{}

//! The most bytes of the queries of one call.

ghost use Rattle.std.specs.Prelude.{◌≡◌, ◌+◌, ◌*◌, ◌/◌, ◌<◌, min};

/// Returns the most bytes of the queries of a datagram (`receive_room`), which are more than those of a tick. The
/// arguments are the bytes of an address and of a query without sources, and the most sources of a query. The others
/// are the length of the longest body, and the limits of a link.
pub(crate) fn outlet_bytes(
    width: u8,
    head: u8,
    per_query: u16,
    longest: u32,
    groups: u32,
    sources: u32,
    scheduled: u32,
) -> u64
    requires width { 0 < width }
    requires per_query { 0 < per_query }
    ensures { let asked = sources + 4 * (sources + longest / width) in
        result ≡ (width + (2 + head)) * (1 + 2 * scheduled + 3 * min (4 * groups) (1 + longest / (4 + width)) + asked / per_query) + width * asked }
{
    let width = u64::from(width);
    let longest = u64::from(longest);
    let sources = u64::from(sources);
    let asking = (4 * u64::from(groups)).min(1 + longest / (4 + width));
    let asked = sources + 4 * (sources + longest / width);
    let queries = 1 + 2 * u64::from(scheduled) + 3 * asking + asked / u64::from(per_query);
    (width + 2 + u64::from(head)) * queries + width * asked
}

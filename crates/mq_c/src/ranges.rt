//! The ranges of groups of a configuration of C.

ghost use Rattle.std.specs.Prelude.{◌≡◌, ◌<◌, ◌≤◌, ◌++◌, length};
ghost use Rattle.std.specs.List.{flat_map};
ghost use Rattle.std.specs.Option.{option_to_list};

use crate::c_family::CFamily;
use mq_link::{GroupRange, Ranges};

/// Adds a range, if its place is used.
fn add(ranges: &mut Ranges, range: Option<GroupRange>)
    requires room { length ranges.old < 16 }
    ensures { ranges.new ≡ ranges.old ++ option_to_list range }
{
    if let Some(range) = range {
        ranges.push(range);
    }
}

/// Returns the ranges of a configuration, without the unused places.
pub(crate) fn ranges_of<F: CFamily>(given: &[F::Range]) -> Ranges
    requires few { length given.now ≤ 16 }
    ensures { result ≡ flat_map F.range_in given.now }
{
    let mut ranges = Ranges::none();
    for range in given {
        add(&mut ranges, F::range_from_c(*range));
    }
    ranges
}

//! A caller's proof about a meter.

ghost use Rattle.std.specs.Prelude.{◌≡◌, ◌≤◌};

use mq_count::{Meter, Moment};

/// Makes a comparison at the greatest u64, or one below it, which leaves a meter at the greatest. It is a caller's
/// proof, since no run counts so far.
fn compare_at_the_greatest(m: &mut Meter, now: Moment)
    requires { 18446744073709551614 ≤ m.old }
    ensures { m.new ≡ 18446744073709551615 }
{
    let _before = m.spent();
    m.reached(now, now);
}

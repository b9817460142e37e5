//! The greatest moment.

use crate::facts::expect_that;
use mq_count::Moment;

#[test]
fn moments_end_at_two_to_the_53(rt: HostRuntime) {
    expect_that(&rt, Moment::from_ms(9007199254740992).is_some(), "2^53");
    expect_that(
        &rt,
        Moment::from_ms(9007199254740993).is_none(),
        "one above it",
    );
}

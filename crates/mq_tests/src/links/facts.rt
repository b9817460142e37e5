//! A moment, and a fact with its words.

ghost use Rattle.std.specs.Prelude.{◌≤◌, ◌^◌};

use mq_count::Moment;

/// Makes a moment of milliseconds.
pub fn at(ms: u32) -> Moment
    ensures { result ≤ 2 ^ 53 }
{
    Moment::from_ms(u64::from(ms)).unwrap()
}

/// Returns the words, unless the fact holds.
pub fn unless(holds: bool, what: &'static str) -> Option<&'static str> {
    if holds { None } else { Some(what) }
}

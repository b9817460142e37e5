//! Moments as C has them.

ghost use Rattle.std.specs.Prelude.{◌≡◌};
ghost use Rattle.mq_c.specs.Milliseconds.{deadline_or_none};

use mq_count::Moment;

/// The value for no deadline.
pub(crate) const NONE: u64 = u64::MAX;

/// Returns the milliseconds of a moment, read from its digits. A moment gives no number, so within the router no two
/// are compared uncounted.
pub(crate) fn milliseconds(moment: Moment) -> u64
    ensures { result ≡ moment }
{
    let mut digits = [0; 20];
    let length = moment.digits(&mut digits);
    match str::from_utf8(&digits[..length]) {
        Ok(text) => match u64::from_str_radix(text, 10) {
            Ok(number) => number,
            Err(_) => unreachable!(),
        },
        Err(_) => unreachable!(),
    }
}

/// Returns the milliseconds of a deadline, or `NONE`.
pub(crate) fn deadline_or_none(deadline: Option<Moment>) -> u64
    ensures { result ≡ deadline_or_none deadline }
{
    match deadline {
        Some(moment) => milliseconds(moment),
        None => NONE,
    }
}

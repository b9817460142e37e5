//! Numbers in decimal.

ghost use Rattle.std.specs.Prelude.{◌≡◌, ◌≤◌, take, drop, length};
ghost use Rattle.std.specs.Fmt.{decimal};

/// Writes a number in decimal at the front of `out`, without leading zeros, and returns its length. The rest of `out`
/// does not change.
pub fn write_decimal(number: u64, out: &mut [u8; 20]) -> usize
    ensures text { take result out.new ≡ decimal number }
    ensures behind { drop result out.new ≡ drop result out.old }
    ensures len { result ≡ length (decimal number) }
    ensures fits { result ≤ 20 }
{
    if number < 10 {
        out[0] = b'0' + number as u8;
        return 1;
    }
    let before_last = write_decimal(number / 10, out);
    out[before_last] = b'0' + (number % 10) as u8;
    before_last + 1
}

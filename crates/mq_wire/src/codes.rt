//! The codes of times in queries.
//! The maximum response code: RFC 3376 section 4.1.1, RFC 3810 section 5.1.3. The querier's query interval code: RFC 3376
//! section 4.1.7, RFC 3810 section 5.1.9.

ghost use Rattle.std.specs.Prelude.{◌≡◌, ◌≤◌};
ghost use Rattle.mq_wire.specs.Codes.{IsCodeFor, value8, value16, code8_of, code16_of};
ghost use Rattle.mq_wire.specs.Codes as spec;

/// Returns the value of an 8-bit code in the unit of its field, tenths of a second or seconds. A code below 128 is its
/// own value.
pub fn resp8(code: u8) -> u32
    ensures value { result ≡ value8 code }
    ensures greatest { result ≤ 31744 }
{
    if code < 128 {
        return u32::from(code);
    }
    let mantissa = u32::from(code % 16);
    let exponent = code / 16 % 8;
    (mantissa + 16) << (exponent + 3)
}

/// Returns the value of a 16-bit code in milliseconds. A code below 32768 is its own value.
pub fn resp16(code: u16) -> u32
    ensures value { result ≡ value16 code }
    ensures greatest { result ≤ 8387584 }
{
    if code < 32768 {
        return u32::from(code);
    }
    let mantissa = u32::from(code % 4096);
    let exponent = code / 4096 % 8;
    (mantissa + 4096) << (exponent + 3)
}

/// Returns the 8-bit code with the greatest value that is at most `value`.
pub fn code8(value: u32) -> u8
    ensures greatest { IsCodeFor value8 255 value result }
    ensures code { result ≡ code8_of value }
{
    code_of(4, value) as u8
}

/// Returns the 16-bit code with the greatest value that is at most `value`, in milliseconds.
pub fn code16(value: u32) -> u16
    ensures greatest { IsCodeFor value16 65535 value result }
    ensures code { result ≡ code16_of value }
{
    code_of(12, value) as u16
}

/// Returns the code with a mantissa of `bits` bits whose value is the greatest that is at most `value`.
#[tactic(auto, unfolding(crate::specs::Codes::code_of))]
fn code_of(bits: u8, value: u32) -> u32
    requires { bits ≤ 12 }
    ensures { result ≡ spec.code_of bits value }
{
    if value < 1 << (bits + 3) {
        return value;
    }
    for exponent in 0..8u8 {
        if value < 1 << (bits + exponent + 4) {
            let leading = value >> (exponent + 3);
            return ((8 + u32::from(exponent)) << bits) + (leading - (1 << bits));
        }
    }
    (16 << bits) - 1
}

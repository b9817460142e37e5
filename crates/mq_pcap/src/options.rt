//! The options of an IPv6 hop-by-hop header.

ghost use Rattle.std.specs.Prelude.{◌≡◌, ◌∷◌, ◌<◌, [], length, IfSome, MatchOption};
ghost use Rattle.mq_pcap.specs.Options as spec;

use byteorder::{BigEndian, ByteOrder};

/// The type of an option of one byte.
const PAD1: u8 = 0;

/// The type of Router Alert, and the number of its data bytes.
const ROUTER_ALERT: u8 = 5;

const ROUTER_ALERT_LENGTH: usize = 2;

/// Returns whether Router Alert with the value of MLD is among the options. The walk stops at an option that does not
/// fit.
pub(crate) fn has_router_alert(options: &[u8]) -> bool
    ensures { result ≡ spec.has_router_alert options.now }
{
    let mut rest = options;
    while let Some((kind, content, behind)) = first_option(rest) {
        if is_router_alert(kind, content) {
            return true;
        }
        rest = behind;
    }
    false
}

fn is_router_alert(kind: u8, content: &[u8]) -> bool
    ensures { result ≡ spec.is_router_alert (kind, content.now) }
{
    kind == ROUTER_ALERT
        && content.len() == ROUTER_ALERT_LENGTH
        && BigEndian::read_u16(content) == 0
}

/// Returns the type and the data of the first option, and the bytes after it, or None if none fits.
fn first_option(bytes: &[u8]) -> Option<(u8, &[u8], &[u8])>
    ensures option { MatchOption result
        (spec.options_of bytes.now ≡ [])
        (λ o. spec.options_of bytes.now ≡ (o.0, o.1.now) ∷ spec.options_of o.2.now) }
    ensures shorter { IfSome result (λ o. length o.2.now < length bytes.now) }
{
    let (kind, behind) = bytes.split_first()?;
    if *kind == PAD1 {
        return Some((PAD1, &[], behind));
    }
    let end = usize::from(*behind.first()?) + 1;
    if behind.len() < end {
        return None;
    }
    Some((*kind, &behind[1..end], &behind[end..]))
}

//! The options of an IPv4 header.

ghost use Rattle.std.specs.Prelude.{◌≡◌, ◌∷◌, ◌<◌, [], length, IfSome, MatchOption};
ghost use Rattle.mq_pcap.specs.IpOptions as spec;

/// The type that ends the options, and the other type of a single byte.
const END_OF_OPTIONS: u8 = 0;

const NO_OPERATION: u8 = 1;

const ROUTER_ALERT: u8 = 148;

/// Returns whether Router Alert is among the options of an IPv4 header. The walk stops at an option that does not fit.
pub fn has_router_alert_v4(options: &[u8]) -> bool
    ensures { result ≡ spec.has_router_alert_v4 options.now }
{
    let mut rest = options;
    while let Some((kind, behind)) = first_option(rest) {
        if kind == ROUTER_ALERT {
            return true;
        }
        rest = behind;
    }
    false
}

/// Returns the type of the first option, and the bytes after it, or None if none fits.
fn first_option(bytes: &[u8]) -> Option<(u8, &[u8])>
    ensures option { MatchOption result
        (spec.types_of bytes.now ≡ [])
        (λ o. spec.types_of bytes.now ≡ o.0 ∷ spec.types_of o.1.now) }
    ensures shorter { IfSome result (λ o. length o.1.now < length bytes.now) }
{
    let (kind, behind) = bytes.split_first()?;
    if *kind == END_OF_OPTIONS {
        return None;
    }
    if *kind == NO_OPERATION {
        return Some((NO_OPERATION, behind));
    }
    let end = usize::from(*behind.first()?);
    if end < 2 || behind.len() + 1 < end {
        return None;
    }
    Some((*kind, &behind[end - 1..]))
}

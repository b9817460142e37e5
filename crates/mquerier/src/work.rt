//! The work on a request.

ghost use Rattle.std.specs.Prelude.{◌≡◌, ◌||◌, true, false, IfErr, MatchResult, is_err};
ghost use Rattle.std.specs.Option.{option_copied};
ghost use Rattle.std.specs.Io.KnownBytes.{Keeps};
ghost use Rattle.hex.specs.Hex.{decode_of};
ghost use Rattle.mq_command.specs.declared.Protocol.TheVariants.{Igmp, Mld};
ghost use Rattle.mq_count.specs.Streams.{inner_of, has_failed};
ghost use Rattle.mquerier.specs.Changes.{input_by, output_by};
ghost use Rattle.mquerier.specs.Status.{IsCheck, IsConversion, IsNoAddress, IsOfMessage};
ghost use Rattle.mquerier.specs.Working.{IsRefusal, IsUndecoded, IsUnwritten, Works, WorksOnListing, WorksOnMessage};

use crate::breaking::ended;
use crate::failure::Failure;
use crate::replaying::{ReplayOptions, replay_capture};
use hex::FromHexError;
use mq_arena::OfAllocator;
use mq_command::{Protocol, Request};
use mq_count::Watched;
use mq_lines::{igmp_line, mld_line};
use mq_pcap::Supply;
use mq_replay::{Asked, show};
use mq_text::{read_v4, read_v6};
use std::alloc::Global;
use std::io::{Read, Write};

/// Performs a request that is neither a conversion nor a check. For a message it returns whether the line is a
/// message's or a fault's.
pub fn work<S: Supply, R: Read, W: Write>(
    alloc: Global,
    request: &Request<'_>,
    supply: &S,
    input: &mut Watched<R>,
    output: &mut Watched<W>,
) -> Result<bool, Failure>
    requires converts_nothing { IsConversion request.now → ⊥ }
    requires checks_nothing { IsCheck request.now → ⊥ }
    ensures works { Works request.now
        (input_by R.remaining input.old input.new)
        (output_by W.contents output.old output.new)
        result }
    ensures unwritten { IsUnwritten result → output.new ≡ output.old }
    ensures unread { IsOfMessage request.now → input.new ≡ input.old }
    ensures refused { IsRefusal result → input.new ≡ input.old }
{
    match request {
        Request::Message {
            protocol,
            hex,
            from,
            to,
            json,
        } => message(alloc, *json, *protocol, hex, *from, *to, output),
        // The caller performs conversions, which report counts on standard error, and checks, which have their own
        // statuses.
        Request::Convert { .. } | Request::Check { .. } => unreachable!(),
        Request::Show { json, .. } => listing(alloc, *json, supply, input, output),
        Request::Replay {
            protocol,
            own,
            settings,
            until,
            changes,
            json,
            ..
        } => {
            let options = ReplayOptions {
                protocol: *protocol,
                settings: *settings,
                asked: Asked {
                    until: *until,
                    changes: *changes,
                    json: *json,
                },
            };
            replay_capture(alloc, &options, own, supply, input, output)
        }
    }
}

/// Prints the line of a message.
fn message<W: Write>(
    alloc: Global,
    json: bool,
    protocol: Protocol,
    hex: &str,
    from: Option<&str>,
    to: Option<&str>,
    output: &mut Watched<W>,
) -> Result<bool, Failure>
    ensures works { WorksOnMessage json protocol (option_copied from.entry) (option_copied to.entry) hex.now
        (output_by W.contents output.old output.new)
        result }
    ensures unwritten { IsUnwritten result → output.new ≡ output.old }
{
    match protocol {
        Protocol::Igmp => igmp_message(alloc, json, hex, from, to, output),
        Protocol::Mld => mld_message(alloc, json, hex, from, to, output),
    }
}

/// Prints the line of an IGMP message.
fn igmp_message<W: Write>(
    alloc: Global,
    json: bool,
    hex: &str,
    from: Option<&str>,
    to: Option<&str>,
    output: &mut Watched<W>,
) -> Result<bool, Failure>
    ensures works { WorksOnMessage json Igmp (option_copied from.entry) (option_copied to.entry) hex.now
        (output_by W.contents output.old output.new)
        result }
    ensures unwritten { IsUnwritten result → output.new ≡ output.old }
{
    if is_no_v4(from) || is_no_v4(to) {
        return Err(Failure::NotAnAddress);
    }
    let bytes = decoded(alloc, hex)?;
    let Ok(is_message) = igmp_line(json, &bytes, output) else {
        return Err(Failure::Write);
    };
    flush(output)?;
    Ok(is_message)
}

/// Returns whether a text is given that isn't an IPv4 address.
fn is_no_v4(text: Option<&str>) -> bool
    ensures yes { result ≡ true → IsNoAddress Igmp (option_copied text.entry) }
    ensures no { result ≡ false → IsNoAddress Igmp (option_copied text.entry) → ⊥ }
{
    match text {
        Some(text) => read_v4(text).is_none(),
        None => false,
    }
}

/// Prints the line of an MLD message.
fn mld_message<W: Write>(
    alloc: Global,
    json: bool,
    hex: &str,
    from: Option<&str>,
    to: Option<&str>,
    output: &mut Watched<W>,
) -> Result<bool, Failure>
    ensures works { WorksOnMessage json Mld (option_copied from.entry) (option_copied to.entry) hex.now
        (output_by W.contents output.old output.new)
        result }
    ensures unwritten { IsUnwritten result → output.new ≡ output.old }
{
    let Some(from) = from else {
        return Err(Failure::NoAddresses);
    };
    let Some(to) = to else {
        return Err(Failure::NoAddresses);
    };
    let Some(source) = read_v6(from) else {
        return Err(Failure::NotAnAddress);
    };
    let Some(destination) = read_v6(to) else {
        return Err(Failure::NotAnAddress);
    };
    let bytes = decoded(alloc, hex)?;
    let Ok(is_message) = mld_line(json, source, destination, &bytes, output) else {
        return Err(Failure::Write);
    };
    flush(output)?;
    Ok(is_message)
}

/// Decodes a hexadecimal text.
fn decoded(alloc: Global, hex: &str) -> Result<Vec<u8>, Failure>
    ensures { MatchResult result (λ bytes. decode_of hex.now ≡ Ok bytes.items) (IsUndecoded hex.now) }
{
    match hex::decode(alloc, hex) {
        Ok(bytes) => Ok(bytes),
        Err(FromHexError::OutOfMemory) => Err(Failure::Memory),
        Err(_) => Err(Failure::NotHex),
    }
}

/// Prints the listing of the input capture.
fn listing<S: Supply, R: Read, W: Write>(
    alloc: Global,
    json: bool,
    supply: &S,
    input: &mut Watched<R>,
    output: &mut Watched<W>,
) -> Result<bool, Failure>
    ensures works { WorksOnListing json
        (input_by R.remaining input.old input.new)
        (output_by W.contents output.old output.new)
        result }
    ensures accepted { IsRefusal result → ⊥ }
    ensures unwritten { IsUnwritten result → output.new ≡ output.old }
{
    let answer = show(&mut OfAllocator(alloc), json, supply, input, output);
    ended(answer, output)?;
    Ok(true)
}

/// Flushes the output.
pub(crate) fn flush<W: Write>(output: &mut Watched<W>) -> Result<(), Failure>
    ensures bytes { Keeps (W.contents (inner_of output.old)) (W.contents (inner_of output.new)) }
    ensures failed { has_failed output.new ≡ has_failed output.old || is_err result }
    ensures write { IfErr result (λ failure. failure ≡ Failure.Write) }
{
    match output.flush() {
        Ok(()) => Ok(()),
        Err(_) => Err(Failure::Write),
    }
}

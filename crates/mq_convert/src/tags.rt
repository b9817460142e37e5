//! The tags of a frame.

ghost use Rattle.std.specs.Prelude.{◌≡◌, ◌≤◌, length};
ghost use Rattle.mq_convert.specs.Frames as spec;
ghost use Rattle.mq_convert.specs.Frames.{framed};

use crate::frames::Frame;
use mq_pcap::Endian;

/// Returns whether a type is that of a tag.
fn is_tag(kind: u16) -> bool
    ensures { result ≡ spec.is_tag kind }
{
    kind == 0x8100 || kind == 0x88a8 || kind == 0x9100
}

/// Returns the network that the outermost tag names.
pub(crate) fn tag_of(frame: &Frame<'_>) -> Option<u64>
    ensures { result ≡ spec.tag_of (framed frame.now) }
{
    match frame {
        Frame::Whole { kind, payload, .. } if is_tag(*kind) && payload.len() >= 2 => {
            Some(u64::from(Endian::Big.word(payload, 0) % 4096))
        }
        _ => None,
    }
}

/// Returns the frame without its tags.
#[inline(always)]
pub(crate) fn untagged(frame: Frame<'_>) -> Frame<'_>
    ensures { framed result ≡ spec.untagged (framed frame.entry) }
{
    match frame {
        Frame::Whole {
            addresses,
            kind,
            payload,
        } => behind_tags(addresses, kind, payload),
        Frame::Cut(bytes) => Frame::Cut(bytes),
    }
}

/// Returns the frame that follows the tags.
fn behind_tags(addresses: [u8; 12], kind: u16, payload: &[u8]) -> Frame<'_>
    ensures { framed result ≡ spec.behind_tags addresses kind payload.now }
{
    let mut kind = kind;
    let mut rest = payload;
    while is_tag(kind) {
        if rest.len() < 4 {
            return Frame::Cut(rest);
        }
        kind = Endian::Big.word(rest, 2);
        rest = &rest[4..];
    }
    Frame::Whole {
        addresses,
        kind,
        payload: rest,
    }
}

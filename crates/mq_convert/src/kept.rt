//! A packet that went out, for comparison with later ones.

ghost use Rattle.std.specs.Prelude.{◌≤◌};

/// The longest payload of a compared frame, which has 2048 bytes.
pub(crate) const MOST_CARRIED: usize = 2034;

/// A packet that went out: its moment and its frame.
#[derive(Clone, Copy)]
pub(crate) struct Kept {
    pub(crate) moment: u64,
    pub(crate) addresses: [u8; 12],
    pub(crate) kind: u16,
    pub(crate) length: usize,
    pub(crate) payload: [u8; MOST_CARRIED],
    ghost in_range: { length ≤ 2034 },
}

//! The place of an item in pages.

/// The place of a new key in a set of numbered keys: a page, and a place in it. `NumberedKeys::find` returns it, and it
/// is valid until the set changes.
#[derive(Clone, Copy)]
pub struct Spot {
    pub(crate) page: usize,
    pub(crate) place: usize,
}

//! The streams that a run writes.

use mq_count::Watched;

/// The streams that a run writes: its output, and standard error for messages.
#[derive(Drop)]
pub struct Console<W, E> {
    /// The output.
    pub output: Watched<W>,
    /// Standard error.
    pub errors: Watched<E>,
    /// Set if a person reads standard error. Then a second line explains the number of each failure. Conversions and
    /// checks explain it in any case.
    pub in_words: bool,
}

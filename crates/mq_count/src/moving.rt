//! The count of items moved to keep lists.

ghost use Rattle.std.specs.Prelude.{◌≡◌};
ghost use Rattle.mq_count.specs.Spending.{Spends};

use std::marker::Model;

/// The number of list items moved: items written to another place, renumbered, or read to keep the list. A contract
/// sees the number, which stays at the greatest u64. It counts by `Spends`, as a `Meter` does.
#[derive(Drop)]
pub struct Moves {
    made: u64,
}

impl Model for Moves {
    ghost use Rattle.std.specs.Prelude.{ℕ};

    ghost Value = { ℕ };

    ghost view = { λ m. m.made };
}

impl Moves {
    /// Returns a count at zero.
    pub const fn none() -> Moves
        ensures { result ≡ 0 }
    {
        Moves { made: 0 }
    }

    /// Returns the number of moves counted.
    pub const fn made(&self) -> u64
        ensures { result ≡ self.now }
    {
        self.made
    }

    /// Counts `items` moves.
    pub fn count(&mut self, items: usize)
        ensures { Spends items items self.old self.new }
    {
        self.made = self.made.saturating_add(items as u64);
    }
}

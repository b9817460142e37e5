//! The meter of comparisons.

ghost use Rattle.std.specs.Prelude.{◌≡◌, ◌≤◌, ◌↔◌, IsTrue, min};
ghost use Rattle.mq_count.specs.Spending.{Spends, SpendingAddsUp, SpendingIsANumber, SpendingIsGrowth, SpendingStaysInRange};

use crate::moments::Moment;
use std::marker::Model;

/// The number of comparisons made. Only `Key::order`, `Meter::reached`, `Meter::earlier`, `Meter::earliest_with` and
/// `Meter::count_ahead` count. A contract sees the number, which stays at the greatest u64.
#[derive(Drop)]
pub struct Meter {
    spent: u64,
}

impl Model for Meter {
    ghost use Rattle.std.specs.Prelude.{ℕ};

    ghost Value = { ℕ };

    ghost view = { λ m. m.spent };
}

impl Meter {
    /// Returns a meter at zero.
    pub const fn new() -> Meter
        ensures { result ≡ 0 }
    {
        Meter { spent: 0 }
    }

    /// Returns the number of comparisons counted.
    pub const fn spent(&self) -> u64
        ensures { result ≡ self.now }
    {
        self.spent
    }

    /// Returns whether `due` is at or before `now`.
    pub fn reached(&mut self, due: Moment, now: Moment) -> bool
        ensures answer { IsTrue result ↔ (due ≤ now) }
        ensures spent { Spends 1 1 self.old self.new }
    {
        self.count_comparison();
        due.ms() <= now.ms()
    }

    /// Returns the earlier of two moments.
    pub fn earlier(&mut self, a: Moment, b: Moment) -> Moment
        ensures answer { result ≡ min a b }
        ensures spent { Spends 1 1 self.old self.new }
    {
        self.count_comparison();
        if b.ms() < a.ms() { b } else { a }
    }

    /// Counts one comparison. No other crate can call it, so nothing else is counted.
    pub(crate) fn count_comparison(&mut self)
        ensures { Spends 1 1 self.old self.new }
    {
        self.count_comparisons(1);
    }

    /// Counts `count` comparisons.
    pub(crate) fn count_comparisons(&mut self, count: usize)
        ensures { Spends count count self.old self.new }
    {
        self.spent = self.spent.saturating_add(count as u64);
    }
}

/// The law `SpendingAddsUp`.
pub fn counts_add_up()
    ensures { SpendingAddsUp }
{}

/// The law `SpendingIsANumber`.
pub fn counts_are_numbers()
    ensures { SpendingIsANumber }
{}

/// The law `SpendingIsGrowth`.
pub fn counts_are_growth()
    ensures { SpendingIsGrowth }
{}

/// The law `SpendingStaysInRange`.
pub fn counts_stay_in_range()
    ensures { SpendingStaysInRange }
{}

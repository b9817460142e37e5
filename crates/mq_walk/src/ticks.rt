//! The ticks between packets.

ghost use Rattle.std.specs.Prelude.{◌≡◌, ◌≤◌, ◌+◌, ◌^◌};
ghost use Rattle.mq_walk.specs.Ticks.{TicksBefore};

use mq_count::{Meter, Moment};
use mq_text::LineFault;

/// A receiver of the ticks between packets, with an output.
pub trait TickStep<O> {
    ghost use Rattle.std.specs.Prelude.{ℕ, ◌≡◌, ◌<◌, ◌≤◌, ◌^◌, Result, IfOk};
    ghost use Rattle.mq_text.specs.declared.printing.LineFault.{LineFault};

    // The next moment of a state.
    ghost next: { Self → ℕ };

    // The effect of a tick at a moment: the states before, the states afterwards, and the result.
    ghost ticks: { ℕ → Self × O → Self × O → Result Unit LineFault → Type 0 };

    /// Returns the moment of the next tick.
    fn next_moment(&self) -> Moment
        ensures { result ≡ next self.now };

    /// Ticks at a moment. Afterwards the next moment is later.
    fn tick_at(&mut self, moment: Moment, output: &mut O) -> Result<(), LineFault>
        requires { moment ≤ 2 ^ 53 }
        ensures effect { ticks moment (self.old, output.old) (self.new, output.new) result }
        ensures later { IfOk result (λ _. moment < next self.new) };
}

/// Ticks at the next moments, while these are before `limit`. It ends if a tick fails.
pub fn tick_before<O, T: TickStep<O>>(
    steps: &mut T,
    limit: Moment,
    output: &mut O,
) -> Result<(), LineFault>
    requires { limit ≤ 2 ^ 53 + 1 }
    ensures { TicksBefore (λ x. T.next x.0) T.ticks limit (steps.old, output.old) (steps.new, output.new) result }
{
    let mut next = steps.next_moment();
    while !Meter::new().reached(limit, next) {
        steps.tick_at(next, output)?;
        next = steps.next_moment();
    }
    Ok(())
}

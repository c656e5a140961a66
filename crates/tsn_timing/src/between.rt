//! A stream's frames that may be between two instants.
ghost use Rattle.std.specs.Prelude.{◌≡◌, ◌+◌, ◌*◌, ◌≤◌, ◌<◌, ◌≤ℤ◌, ℕ, pos, All};

use crate::timing::Timing;
use tsn_model::bounds::MAX_SPREAD;

impl Timing {
    ghost use Rattle.tsn_model.specs.Network.{stream_count};
    ghost use Rattle.tsn_timing.specs.Between.{IsPartBetween};

    /// The part of a stream's shifts, in their order, that has all those above one number and below another, in nanoseconds: those of
    /// the periods that have such frames, and maybe of few others.
    pub fn shifts_between(&self, stream: usize, low: i64, high: i64) -> &[u64]
        requires { stream < stream_count self.now }
        ensures part { IsPartBetween self.now stream low high result.now }
        ensures bound { All (λ shift. shift ≤ 1_000_000_000 + MAX_SPREAD) result.now }
    {
        // The limits of the network bound the products.
        let _limits = self.cycle();
        let period = self.period(stream);
        let burst = self.burst(stream);
        let begun = turns_begun(high, period).min(self.turns(stream));
        let done = turns_done(low, self.spread(stream), period).min(begun);
        &self.shifts(stream)[(done * burst) as usize..(begun * burst) as usize]
    }
}

// How many of the first periods begin before a number.
fn turns_begun(high: i64, period: u64) -> u64
    requires { 1 ≤ period }
    ensures { (turn : ℕ) → result ≤ turn → high ≤ℤ pos (turn * period) }
{
    if high <= 0 {
        return 0;
    }
    (high as u64 - 1) / period + 1
}

// How many of the first periods have no frame above a number, where their last frames start so long after their first ones.
fn turns_done(low: i64, spread: u64, period: u64) -> u64
    requires period { 1 ≤ period }
    requires spread { spread ≤ MAX_SPREAD }
    ensures { (turn : ℕ) → turn < result → pos (turn * period + spread) ≤ℤ low }
{
    if low < spread as i64 {
        return 0;
    }
    (low as u64 - spread) / period + 1
}

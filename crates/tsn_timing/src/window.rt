//! What is left of a stream's offset by its release, its period and its latest instant.
ghost use Rattle.std.specs.Prelude.{◌≡◌, ◌<◌, ◌≤ℤ◌, pos};

use crate::timing::Timing;

/// The window of a stream's offset, in nanoseconds. No offset is in it where the greatest is below the least.
#[derive(Clone, Copy, PartialEq, Eq)]
pub struct Window {
    /// The release, 0 to 1,000,000,000.
    pub least: u64,
    /// The latest offset with which the stream is done within its period and arrives by its latest instant; it may be below 0.
    pub greatest: i64,
}

impl Timing {
    ghost use Rattle.tsn_model.specs.Network.{stream_count, release_of};
    ghost use Rattle.tsn_model.specs.Schedule.{latest_offset};

    /// The window of a stream's offset: an offset is in it exactly where it breaks neither release, period nor latest instant.
    #[tactic(auto, unfolding(tsn_model::specs::Schedule::latest_offset))]
    pub fn window(&self, stream: usize) -> Window
        requires { stream < stream_count self.now }
        ensures least { result.least ≡ release_of self.now stream }
        ensures greatest { result.greatest ≡ latest_offset self.now stream }
        ensures bound { result.greatest ≤ℤ pos 1_000_000_000 }
    {
        let ends = self.period(stream) as i64 - self.span(stream) as i64;
        let arrives = self.latest(stream) as i64 - self.arrival(stream) as i64;
        Window {
            least: self.release(stream),
            greatest: ends.min(arrives),
        }
    }
}

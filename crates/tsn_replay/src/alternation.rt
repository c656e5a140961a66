//! Which frames of a replay are ready early.
ghost use Rattle.std.specs.Prelude.{◌≡◌, ◌<◌, length};
ghost use Rattle.tsn_model.specs.Network.{IsWellFormed, stream_count};
ghost use Rattle.tsn_model.specs.Schedule.{IsValid};

use std::alloc::{AllocError, Global};
use tsn_gate::windows::{Window, windows_on};
use tsn_model::plain::PlainNetwork;
use tsn_timing::Timing;

/// Of the frames that are planned one after another on a link every second one is early, and in the next cycle the others.
/// So of two that follow one another in a cycle the later one alone is early in every second cycle.
#[derive(Drop)]
pub struct Alternation {
    windows: Vec<Vec<Window>>,
}

impl Alternation {
    /// No frame is early.
    pub fn none(alloc: Global) -> Alternation {
        Alternation {
            windows: Vec::new(alloc),
        }
    }

    /// By what the schedule plans on each link.
    pub fn of(alloc: Global, timing: &Timing, offsets: &[u64]) -> Result<Alternation, AllocError>
        requires formed { IsWellFormed timing.now }
        requires valid { IsValid timing.now offsets.now }
    {
        let mut windows = Vec::new(alloc);
        for link in 0..timing.plain().links() {
            windows.push(windows_on(alloc, timing, offsets, link)?)?;
        }
        Ok(Alternation { windows })
    }

    /// Whether the frame of a stream's shift is early on a hop, in a cycle.
    pub fn is_early(
        &self,
        network: &PlainNetwork,
        offsets: &[u64],
        stream: usize,
        shift: u64,
        cycle: usize,
        hop: usize,
    ) -> bool
        requires stream { stream < stream_count network.now }
        requires count { length offsets.now ≡ stream_count network.now }
    {
        if network.hops(stream) <= hop {
            return false;
        }
        let planned = offsets[stream]
            .saturating_add(shift)
            .saturating_add(network.start(stream, hop));
        match self.windows.get(network.route_link(stream, hop)) {
            Some(windows) => {
                windows.partition_point(|window| window.start < planned) % 2 != cycle % 2
            }
            None => false,
        }
    }
}

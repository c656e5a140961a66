//! Plans: a flowspan with its offsets, or that there is no schedule.
use crate::listed::Sequence;

/// The greatest flowspan, offset and target in a file, in nanoseconds.
pub const MAX_TIME: u64 = 2_000_000_000;

/// The offsets of a plan in nanoseconds, in stream order.
pub type Offsets = Sequence<u64>;

/// What a planner found: a schedule with its flowspan in nanoseconds, or that there is none.
#[derive(Drop)]
pub enum Plan {
    Schedule { flowspan: u64, offsets: Offsets },
    None,
}

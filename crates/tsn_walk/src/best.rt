//! The best schedule so far, as it is known to one who settles nodes.
use tsn_timing::Solved;

/// The best schedule so far as a settler knows it: the least flowspan that it has observed, and its copy of the schedule, which
/// may be an older one.
#[derive(Clone, Copy)]
pub struct SeenBest<'a> {
    /// In nanoseconds.
    pub seen: u64,
    pub best: Option<&'a Solved>,
}

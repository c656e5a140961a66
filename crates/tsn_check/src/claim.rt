//! What the nodes of a certificate are to show.
use tsn_cert::Plan;
use tsn_timing::Timing;

/// That no valid schedule has a flowspan below the target, but for those on the path of a tie with the plan.
#[derive(Clone, Copy)]
pub struct Claim<'a> {
    pub timing: &'a Timing,
    /// In nanoseconds.
    pub target: u64,
    pub plan: &'a Plan,
}

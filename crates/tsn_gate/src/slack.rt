//! How early frames may be ready on a link.
ghost use Rattle.std.specs.Prelude.{◌≡◌, ◌≤◌, ◌<◌, ◌↔◌, ℕ, List, length, IfOk};
ghost use Rattle.tsn_model.specs.Network.{IsWellFormed};
ghost use Rattle.tsn_model.specs.Schedule.{IsValid};
ghost use Rattle.tsn_model.specs.Early.{ToleratesOn};
ghost use Rattle.tsn_model.specs.Tolerance.{AreStartsOn};
ghost use Rattle.tsn_gate.specs.GateLists.{IsUsed};
ghost use Rattle.tsn_gate.specs.Windows.{starts_of};

use crate::windows::{Window, windows_on};
use std::alloc::{AllocError, Global};
use tsn_model::NoMemory;
use tsn_model::tolerance::tolerance;
use tsn_timing::{Timing, Valid};

/// The greatest slack that a valid schedule tolerates on a link that some stream uses, in nanoseconds: frames that are ready
/// there by at most that much sooner than planned still start when planned, by the gates that the schedule asks for.
///
/// # Errors
///
/// There was no memory.
pub fn slack_on(alloc: Global, timing: &Timing, valid: &Valid, link: usize) -> Result<u64, NoMemory>
    requires valid { IsValid timing.now valid.now }
    requires used { IsUsed timing.now link }
    ensures { IfOk result (λ slack. (n : ℕ) → ToleratesOn timing.now valid.now link n ↔ (n ≤ slack)) }
{
    // The network is within its limits.
    let _limits = timing.cycle();
    Ok(slack_by(alloc, timing, valid.offsets(), link)?)
}

// The greatest slack that the schedule of these offsets tolerates.
fn slack_by(alloc: Global, timing: &Timing, offsets: &[u64], link: usize) -> Result<u64, AllocError>
    ghost schedule: { List ℕ }
    requires same { schedule ≡ offsets.now }
    requires formed { IsWellFormed timing.now }
    requires valid { IsValid timing.now schedule }
    requires used { IsUsed timing.now link }
    ensures { IfOk result (λ slack. (n : ℕ) → ToleratesOn timing.now schedule link n ↔ (n ≤ slack)) }
{
    let starts = starts_on(alloc, timing, offsets, link)?;
    Ok(tolerance(timing.plain(), link, &starts))
}

// When frames are planned to start on a link that some stream uses, in each cycle, in order.
fn starts_on(
    alloc: Global,
    timing: &Timing,
    offsets: &[u64],
    link: usize,
) -> Result<Vec<u64>, AllocError>
    requires formed { IsWellFormed timing.now }
    requires valid { IsValid timing.now offsets.now }
    requires used { IsUsed timing.now link }
    ensures starts { IfOk result (λ starts. AreStartsOn timing.now offsets.now link starts.items) }
    ensures some { IfOk result (λ starts. 0 < length starts.items) }
{
    let windows = windows_on(alloc, timing, offsets, link)?;
    starts_of(alloc, &windows)
}

// When the windows begin.
fn starts_of(alloc: Global, windows: &[Window]) -> Result<Vec<u64>, AllocError>
    ensures { IfOk result (λ starts. starts.items ≡ starts_of windows.now) }
{
    let mut starts = Vec::with_capacity(alloc, windows.len())?;
    for window in windows {
        starts.push(window.start)?;
    }
    Ok(starts)
}

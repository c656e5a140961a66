//! What merged lists keep of the background's time.
ghost use Rattle.std.specs.Prelude.{◌≡◌, ◌+◌, ◌≤◌, IfOk, nat_le};
ghost use Rattle.tsn_model.specs.Gates.{cycle_of};
ghost use Rattle.tsn_gate.specs.Merged.{earliest, latest, times_kept};
ghost use Rattle.tsn_gate.specs.Widened.{Keeps};

use crate::timeline::BACKGROUND;
use crate::windows::Window;
use std::alloc::{AllocError, Global};
use tsn_model::GateEntry;

/// The times of the background that a merged list keeps, in order, each of `least` nanoseconds or more. Each is kept if it
/// has so much left once the time kept before it, and what comes between them, have lasted as long, and as far as the
/// cycle's start and end leave room beside it.
pub fn times_kept(
    alloc: Global,
    entries: &[GateEntry],
    least: u64,
    cycle: u64,
) -> Result<Vec<Window>, AllocError>
    requires whole { cycle ≡ cycle_of entries.now }
    requires short { cycle ≤ 1_000_000_000 }
    ensures { IfOk result (λ kept. kept.items ≡ times_kept least entries.now) }
{
    let mut kept = Vec::new(alloc);
    let mut from = 0;
    let mut start = 0;
    for entry in entries {
        from = keep(&mut kept, *entry, start, from, least, cycle)?;
        start += entry.interval;
    }
    Ok(kept)
}

// Adds what is kept of an entry that begins at `start`, if anything is, and returns from when on the next time can begin.
fn keep(
    kept: &mut Vec<Window>,
    entry: GateEntry,
    start: u64,
    from: u64,
    least: u64,
    cycle: u64,
) -> Result<u64, AllocError>
    requires within { start + entry.interval ≤ cycle }
    requires short { cycle ≤ 1_000_000_000 }
    ensures { IfOk result (λ next. Keeps least cycle entry start from kept.old.items kept.new.items next) }
{
    if entry.octet != BACKGROUND {
        return Ok(from);
    }
    let end = start + entry.interval;
    let time = room(Window { start, end }, least, from, cycle);
    if !holds(time, least) {
        return Ok(from);
    }
    kept.push(time)?;
    Ok(time.start + 2 * least)
}

// What can be kept of a time of the background.
fn room(time: Window, least: u64, from: u64, cycle: u64) -> Window
    requires { time.end ≤ cycle }
    ensures start { result.start ≡ earliest least from time }
    ensures end { result.end ≡ latest least cycle time }
    ensures within { result.end ≤ cycle }
{
    let start = if time.start == 0 {
        0
    } else {
        time.start.max(least.max(from))
    };
    let end = if time.end == cycle {
        cycle
    } else {
        time.end.min(cycle.saturating_sub(least))
    };
    Window { start, end }
}

// Whether a time lasts so long.
fn holds(time: Window, least: u64) -> bool
    ensures { result ≡ nat_le (time.start + least) time.end }
{
    time.start <= time.end && time.end - time.start >= least
}

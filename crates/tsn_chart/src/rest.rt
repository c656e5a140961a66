//! The longest time for which a link stays open for the background.
ghost use Rattle.std.specs.Prelude.{◌≡◌, ◌+◌, ◌≤◌, ◌<◌, ◌^◌, fold};
ghost use Rattle.tsn_model.specs.Gates.{cycle_of};
ghost use Rattle.tsn_chart.specs.Rest.{IsLongestOpen, go_on};

use tsn_gate::{GateEntry, GateList};

/// The gates of the background classes (0 to 6) alone open.
pub const BACKGROUND: u8 = 0x7F;

// How long the gates have been open up to some entry's end, and the longest time up to there, in nanoseconds.
#[derive(Clone, Copy)]
struct Run {
    current: u64,
    longest: u64,
}

/// The longest time without a break for which the gates of the background classes alone are open, in nanoseconds: it may go
/// on over the cycle's end, and is at most the cycle.
pub fn longest_open(list: &GateList) -> u64
    ensures { IsLongestOpen list.now.entries result }
{
    let cycle = list.cycle();
    let begun = Run {
        current: 0,
        longest: 0,
    };
    // What is open at the cycle's end goes on at its start.
    let once = go_through(begun, list.entries());
    let twice = go_through(once, list.entries());
    twice.longest.min(cycle)
}

// The entries once more.
fn go_through(begun: Run, entries: &[GateEntry]) -> Run
    requires { begun.current + cycle_of entries.now < 2 ^ 64 }
    ensures { result ≡ fold go_on begun entries.now }
{
    let mut run = begun;
    for entry in entries {
        run = go_on(run, *entry);
    }
    run
}

fn go_on(run: Run, entry: GateEntry) -> Run
    requires { run.current + entry.interval < 2 ^ 64 }
    ensures { result ≡ go_on run entry }
{
    if entry.octet == BACKGROUND {
        let current = run.current + entry.interval;
        Run {
            current,
            longest: run.longest.max(current),
        }
    } else {
        Run {
            current: 0,
            longest: run.longest,
        }
    }
}

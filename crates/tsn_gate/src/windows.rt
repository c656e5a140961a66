//! The windows of a link: the occupancies of the scheduled frames that use it.

ghost use Rattle.std.specs.Prelude.{◌≡◌, ◌+◌, ◌^◌, ◌++◌, ◌≤◌, ◌<◌, ◌↔◌, map, length, IsSome, IfSome, IfOk, OnOk, All, AllPairs};
ghost use Rattle.tsn_model.specs.Network.{IsWellFormed, stream_count};
ghost use Rattle.tsn_model.specs.Schedule.{IsValid};
ghost use Rattle.tsn_model.specs.Timing.{UsesLink};
ghost use Rattle.tsn_gate.specs.Windows.{AreWindowsOf, AreWindows, AreApart, moved, window_of};

use std::alloc::{AllocError, Global};
use tsn_timing::Timing;

/// An interval of the cycle in which scheduled frames occupy a link.
#[derive(Clone, Copy)]
pub struct Window {
    pub start: u64,
    pub end: u64,
}

/// The windows of a link, in order.
pub fn windows_on(
    alloc: Global,
    timing: &Timing,
    offsets: &[u64],
    link: usize,
) -> Result<Vec<Window>, AllocError>
    requires link { link < length timing.now.links }
    requires formed { IsWellFormed timing.now }
    requires valid { IsValid timing.now offsets.now }
    ensures of_streams { IfOk result (λ windows. AreWindowsOf timing.now offsets.now link windows.items) }
    ensures in_order { IfOk result (λ windows. AreWindows timing.now.cycle windows.items) }
{
    let mut windows = stream_windows(alloc, timing, offsets, link)?;
    windows.sort_unstable_by_key(|window| window.start);
    Ok(windows)
}

fn stream_windows(
    alloc: Global,
    timing: &Timing,
    offsets: &[u64],
    link: usize,
) -> Result<Vec<Window>, AllocError>
    requires link { link < length timing.now.links }
    requires formed { IsWellFormed timing.now }
    requires valid { IsValid timing.now offsets.now }
    ensures of_streams { IfOk result (λ windows. AreWindowsOf timing.now offsets.now link windows.items) }
    ensures apart { IfOk result (λ windows. AllPairs AreApart windows.items) }
{
    let mut windows = Vec::new(alloc);
    for stream in 0..timing.streams() {
        if let Some(first) = frame_window(timing, offsets, link, stream) {
            push_windows(&mut windows, first, timing.shifts(stream))?;
        }
    }
    Ok(windows)
}

// Adds a window for each shift, that of a frame so much later.
fn push_windows(windows: &mut Vec<Window>, first: Window, shifts: &[u64]) -> Result<(), AllocError>
    requires order { first.start ≤ first.end }
    requires fits { All (λ shift. first.end + shift < 2 ^ 64) shifts.now }
    ensures { OnOk result (windows.new.items ≡ windows.old.items ++ map (moved first) shifts.now) }
{
    for shift in shifts {
        windows.push(Window {
            start: first.start + *shift,
            end: first.end + *shift,
        })?;
    }
    Ok(())
}

// The window on the link of a frame that a stream starts at its offset, if it uses the link.
fn frame_window(timing: &Timing, offsets: &[u64], link: usize, stream: usize) -> Option<Window>
    requires link { link < length timing.now.links }
    requires stream { stream < stream_count timing.now }
    requires formed { IsWellFormed timing.now }
    requires valid { IsValid timing.now offsets.now }
    ensures used { IsSome result ↔ UsesLink timing.now stream link }
    ensures window { IfSome result (λ window. window ≡ window_of timing.now offsets.now link (record { stream = stream; shift = 0 })) }
{
    let hop = timing.hop_on(stream, link)?;
    let start = offsets[stream] + timing.start(stream, hop);
    Some(Window {
        start,
        end: start + timing.occupancy(stream, hop),
    })
}

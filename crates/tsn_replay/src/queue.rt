//! The scheduled frames, and the queue of a link.
ghost use Rattle.std.specs.Prelude.{◌≡◌, ◌+◌, ◌++◌, ◌≤◌, ◌<◌, ◌⊎◌, ◌↔◌, ℕ, IsTrue, map, length, All, IfOk, OnOk};
ghost use Rattle.tsn_model.specs.Network.{stream_count, route_of, hop_count, Continues};
ghost use Rattle.tsn_model.specs.Timing.{shifts};
ghost use Rattle.tsn_replay.specs.Frames.{AreSpaced};
ghost use Rattle.tsn_replay.specs.Bounds.{latest_free, latest_instant};
ghost use Rattle.tsn_replay.specs.Queue.{Precedes, IsHead, AreInLine, IsOneVisit, IsFirstAmong, IsFirstWaiting, IsVisit, AreVisits, frame_in, first_stage, fresh_frame};
ghost use Rattle.tsn_replay.specs.Feeding.{no_start};
ghost use Rattle.tsn_replay.specs.Progress.{IsTracked, HasTurn, AreFirst, first_turn, arrived};

use crate::visits::Visit;
use std::alloc::{AllocError, Global};
use tsn_model::plain::PlainNetwork;

/// Where a frame is, seen from a hop of its route: still to come, in the queue of its link, or gone.
#[derive(Clone, Copy, PartialEq, Eq)]
pub enum Stage {
    Coming,
    Queued,
    Gone,
}

/// The frame of a stream's shift in a cycle, on a hop: where it is; once it is queued from when on it may start, and its rank
/// among those that may from the same instant on.
#[derive(Clone, Copy)]
pub struct Frame {
    pub stream: usize,
    pub hop: usize,
    pub shift: u64,
    pub cycle: usize,
    pub stage: Stage,
    pub ready: u64,
    pub rank: usize,
}

/// By how much frames may be ready early, and whether a frame is.
#[derive(Clone, Copy)]
pub struct Haste {
    pub slack: u64,
    pub early: bool,
}

/// Each frame of each cycle on each hop: by stream, those of a stream by hop, and those of a hop by cycle, then shift.
pub fn frames_of(
    alloc: Global,
    network: &PlainNetwork,
    offsets: &[u64],
    cycles: usize,
) -> Result<Vec<Frame>, AllocError>
    requires count { length offsets.now ≡ stream_count network.now }
    requires small { All (λ offset. offset ≤ network.now.cycle) offsets.now }
    requires few { cycles ≤ 16 }
    requires spaced { AreSpaced network.now }
    ensures tracked { IfOk result (λ frames. (slack : ℕ) → IsTracked network.now (record { offsets = offsets.now; slack = slack; turn = first_turn network.now offsets.now }) cycles no_start frames.items) }
    ensures first { IfOk result (λ frames. AreFirst network.now offsets.now 0 frames.items) }
    ensures line { IfOk result (λ frames. AreInLine network.now cycles frames.items) }
    ensures ready { IfOk result (λ frames. All (λ (frame : Frame). frame.ready ≤ latest_instant) frames.items) }
{
    let length = network.cycle();
    let mut frames = Vec::new(alloc);
    for stream in 0..network.streams() {
        for hop in 0..network.hops(stream) {
            let stage = first_stage(network, stream, hop);
            for cycle in 0..cycles {
                let begin = cycle as u64 * length + offsets[stream];
                push_cycle(&mut frames, network, stage, stream, hop, cycle, begin)?;
            }
        }
    }
    Ok(frames)
}

// Where a frame is at first: queued where the talker sends.
fn first_stage(network: &PlainNetwork, stream: usize, hop: usize) -> Stage
    requires stream { stream < stream_count network.now }
    requires hop { hop < hop_count network.now stream }
    ensures { result ≡ first_stage network.now stream hop }
{
    // The network is within its limits, so each stream has a hop.
    let _limits = network.cycle();
    let talker = network.link(network.route_link(stream, 0)).from;
    if network.link(network.route_link(stream, hop)).from == talker {
        Stage::Queued
    } else {
        Stage::Coming
    }
}

// Adds a stream's frames of a cycle on a hop, the first of which is ready at that instant if the talker sends there.
fn push_cycle(
    frames: &mut Vec<Frame>,
    network: &PlainNetwork,
    stage: Stage,
    stream: usize,
    hop: usize,
    cycle: usize,
    begin: u64,
) -> Result<(), AllocError>
    requires stream { stream < stream_count network.now }
    requires early { begin ≤ 20_000_000_000 }
    ensures { OnOk result (frames.new.items ≡ frames.old.items
        ++ map (fresh_frame stage stream hop cycle begin) (shifts network.now stream)) }
{
    for turn in 0..network.turns(stream) {
        for place in 0..network.burst(stream) {
            let shift = network.shift(stream, turn, place);
            frames.push(Frame {
                stream,
                hop,
                shift,
                cycle,
                stage,
                ready: begin + shift,
                rank: stream,
            })?;
        }
    }
    Ok(())
}

/// Whether a hop of a stream's route continues another one.
pub fn continues(network: &PlainNetwork, stream: usize, hop: usize, next: usize) -> bool
    requires stream { stream < stream_count network.now }
    requires hop { hop < hop_count network.now stream }
    requires next { next < hop_count network.now stream }
    ensures { IsTrue result ↔ Continues network.now (route_of network.now stream) hop next }
{
    // The network is within its limits, so its routes are of its links.
    let _limits = network.cycle();
    network.link(network.route_link(stream, hop)).to
        == network.link(network.route_link(stream, next)).from
}

/// The item of that number, to which the frame has come that started on another hop at that time. It is ready early or not, after
/// that start, and behind the item before it where this one is of the same stream and hop and queued.
pub fn arrive(
    network: &PlainNetwork,
    frames: &[Frame],
    number: usize,
    started: &Frame,
    time: u64,
    haste: Haste,
) -> Frame
    requires number { number < length frames.now }
    requires stream { (frame_in frames.now number).stream < stream_count network.now }
    requires started { started.now.stream < stream_count network.now }
    requires hop { started.now.hop < hop_count network.now started.now.stream }
    requires time { time ≤ latest_free }
    requires short { haste.slack ≤ 1_000_000 }
    requires sooner { (before : ℕ) → number ≡ before + 1 → IsOneVisit (frame_in frames.now before) (frame_in frames.now number)
        → (frame_in frames.now before).stage ≡ Stage.Queued
        → (frame_in frames.now before).ready < (arrived network.now started.now time (frame_in frames.now number)).ready }
    ensures turn { HasTurn network.now haste.slack frames.now number
        (arrived network.now started.now time (frame_in frames.now number)) (time + 1) result }
    ensures ready { result.ready ≤ latest_instant }
{
    // The network is within its limits, so a hop takes some time.
    let _limits = network.cycle();
    let frame = frames[number];
    let link = network.route_link(started.stream, started.hop);
    let due = Frame {
        stream: frame.stream,
        hop: frame.hop,
        shift: frame.shift,
        cycle: frame.cycle,
        stage: Stage::Queued,
        ready: time + network.hop_delay(started.stream, link),
        rank: frame.rank,
    };
    turned(network, frames, number, due, time + 1, haste)
}

/// The frame of that number, which is to be ready at an instant, with its turn: early or not, no sooner than another instant,
/// and behind the frame before it. Of frames that are ready at one instant those that are early go first.
pub fn turned(
    network: &PlainNetwork,
    frames: &[Frame],
    number: usize,
    due: Frame,
    least: u64,
    haste: Haste,
) -> Frame
    requires number { number < length frames.now }
    requires stream { due.stream < stream_count network.now }
    requires least { least ≤ due.ready }
    requires sooner { (before : ℕ) → number ≡ before + 1 → IsOneVisit (frame_in frames.now before) due
        → (frame_in frames.now before).stage ≡ Stage.Queued
        → (frame_in frames.now before).ready < due.ready }
    ensures { HasTurn network.now haste.slack frames.now number due least result }
{
    let advance = if haste.early { haste.slack } else { 0 };
    let soonest = due.ready.saturating_sub(advance).max(least);
    Frame {
        stream: due.stream,
        hop: due.hop,
        shift: due.shift,
        cycle: due.cycle,
        stage: due.stage,
        ready: soonest.max(behind(frames, number, due)),
        rank: rank_of(network, due.stream, haste),
    }
}

// Where a stream's frame stands among those that are ready with it.
fn rank_of(network: &PlainNetwork, stream: usize, haste: Haste) -> usize
    requires { stream < stream_count network.now }
    ensures { haste.slack ≡ 0 → result ≡ stream }
{
    // The network is within its limits, so it has few streams.
    let _limits = network.cycle();
    if haste.slack == 0 || haste.early {
        stream
    } else {
        network.streams() + stream
    }
}

// The instant after the item before it is ready, where this one is of the same stream and hop and queued.
fn behind(frames: &[Frame], number: usize, due: Frame) -> u64
    requires number { number < length frames.now }
    requires sooner { (before : ℕ) → number ≡ before + 1 → IsOneVisit (frame_in frames.now before) due
        → (frame_in frames.now before).stage ≡ Stage.Queued
        → (frame_in frames.now before).ready < due.ready }
    ensures upto { result ≤ due.ready }
    ensures behind { (before : ℕ) → number ≡ before + 1 → IsOneVisit (frame_in frames.now before) due
        → (frame_in frames.now before).stage ≡ Stage.Queued
        → (frame_in frames.now before).ready < result }
{
    if number == 0 {
        return 0;
    }
    let before = frames[number - 1];
    if before.stream == due.stream && before.hop == due.hop && before.stage == Stage::Queued {
        before.ready + 1
    } else {
        0
    }
}

// Whether one frame is before another in a queue.
fn precedes(a: &Frame, b: &Frame) -> bool
    ensures yes { IsTrue result → Precedes a.now b.now }
    ensures no { Precedes b.now a.now ⊎ IsTrue result }
{
    a.ready < b.ready || a.ready == b.ready && a.rank < b.rank
}

// Of the items from a number on to another one the first that is queued. Those that are gone stand before it, and those that are
// still to come behind it.
fn first_queued(frames: &[Frame], from: usize, to: usize) -> Option<usize>
    requires order { from ≤ to }
    requires within { to ≤ length frames.now }
    requires gone { (a b : ℕ) → from ≤ a → a < b → b < to
        → (frame_in frames.now b).stage ≡ Stage.Gone → (frame_in frames.now a).stage ≡ Stage.Gone }
    requires coming { (a b : ℕ) → from ≤ a → a < b → b < to
        → (frame_in frames.now a).stage ≡ Stage.Coming → (frame_in frames.now b).stage ≡ Stage.Coming }
    ensures { IsFirstWaiting frames.now from to result }
{
    let number = from + frames[from..to].partition_point(|frame| frame.stage == Stage::Gone);
    if number < to && frames[number].stage == Stage::Queued {
        Some(number)
    } else {
        None
    }
}

// Of a stream's frames the one that is first in the link's queue.
fn first_of(
    network: &PlainNetwork,
    frames: &[Frame],
    cycles: usize,
    link: usize,
    visit: Visit,
) -> Option<usize>
    requires visit { IsVisit network.now link visit }
    requires line { AreInLine network.now cycles frames.now }
    ensures { IsFirstAmong network.now frames.now link (λ (frame : Frame). frame.stream ≡ visit.stream) result }
{
    // The network is within its limits, so a route has a link once.
    let _limits = network.cycle();
    let from = visit.first * cycles;
    first_queued(frames, from, from + visit.count * cycles)
}

/// The first frame of the link's queue. The visits are all hops on the link.
pub fn head(
    network: &PlainNetwork,
    frames: &[Frame],
    cycles: usize,
    link: usize,
    visits: &[Visit],
) -> Option<usize>
    requires streams { All (λ (frame : Frame). frame.stream < stream_count network.now) frames.now }
    requires line { AreInLine network.now cycles frames.now }
    requires visits { AreVisits network.now link visits.now }
    ensures { IsHead network.now frames.now link result }
{
    let mut first = None;
    for visit in visits {
        if let Some(number) = first_of(network, frames, cycles, link, *visit) {
            first = match first {
                Some(best) if !precedes(&frames[number], &frames[best]) => Some(best),
                _ => Some(number),
            };
        }
    }
    first
}

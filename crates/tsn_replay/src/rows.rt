//! The rows of a replay's table, from what has started.
ghost use Rattle.std.specs.Prelude.{◌≡◌, ◌+◌, ◌*◌, ◌≤◌, ◌<◌, ◌++◌, ℕ, map, length, slice_index_or, All, IfOk};
ghost use Rattle.std.specs.List.{flat_map, range_with_len};
ghost use Rattle.tsn_model.specs.Network.{stream_count, hop_count};
ghost use Rattle.tsn_model.specs.Timing.{shifts, Sends};
ghost use Rattle.tsn_model.specs.Schedule.{IsValid};
ghost use Rattle.tsn_model.specs.Bridge.{Passage, ScheduledStart, StartedAt, IsPassage};
ghost use Rattle.tsn_replay.specs.Frames.{AreSpaced, AreFirsts, frames_of, place_of};
ghost use Rattle.tsn_replay.specs.Rows.{frame_passages, stream_passages, cycle_passages, passages_of, cell_of, row_of, IsWidth, AreTimes, IsTable, AreRows};

use crate::starts::{Started, Starts};
use crate::trace::Row;
use std::alloc::{AllocError, Global};
use tsn_timing::Timing;

// When the frames of so many cycles start: as the timing and the offsets plan it, and in the replay, by cycle, stream, shift and
// hop, in as many cells a frame as the width. By stream it tells where the first of its frames stands among those of a cycle,
// and behind them how many these are.
#[derive(Clone, Copy)]
struct StartTimes<'a> {
    timing: &'a Timing,
    offsets: &'a [u64],
    firsts: &'a [usize],
    width: usize,
    table: &'a [Option<u64>],
    cycles: usize,
}

/// A row for each frame and hop, by cycle, then stream, then shift, then hop.
pub fn rows_of(
    alloc: Global,
    timing: &Timing,
    offsets: &[u64],
    cycles: usize,
    starts: &Starts,
) -> Result<Vec<Row>, AllocError>
    requires valid { IsValid timing.now offsets.now }
    requires few { cycles ≤ 16 }
    requires passages { All (λ (begun : ScheduledStart). IsPassage timing.now cycles begun.passage) starts.now.scheduled }
    requires once { (passage : Passage) (s t : ℕ) → StartedAt starts.now passage s → StartedAt starts.now passage t → s ≡ t }
    ensures { IfOk result (λ rows. AreRows timing.now offsets.now cycles starts.now rows.items) }
{
    // The network is within its limits.
    let _limits = timing.cycle();
    let firsts = firsts_of(alloc, timing)?;
    let width = width_of(timing);
    let table = table_of(alloc, timing, &firsts, width, cycles, starts.scheduled())?;
    let times = StartTimes {
        timing,
        offsets,
        firsts: &firsts,
        width,
        table: &table,
        cycles,
    };
    rows_by(alloc, times)
}

fn rows_by(alloc: Global, times: StartTimes<'_>) -> Result<Vec<Row>, AllocError>
    requires { AreTimes times.timing.now times.offsets.now times.firsts.now times.width times.table.now times.cycles }
    ensures { IfOk result (λ rows. rows.items ≡ map (row_of times.entry.timing.now times.entry.offsets.now times.entry.width times.entry.table.now) (passages_of times.entry.timing.now times.entry.cycles)) }
{
    let mut rows = Vec::new(alloc);
    for cycle in 0..times.cycles {
        push_cycle(&mut rows, times, cycle)?;
    }
    Ok(rows)
}

fn push_cycle(rows: &mut Vec<Row>, times: StartTimes<'_>, cycle: usize) -> Result<(), AllocError>
    requires times { AreTimes times.timing.now times.offsets.now times.firsts.now times.width times.table.now times.cycles }
    requires cycle { cycle < times.cycles }
    ensures { IfOk result (λ _. rows.new.items ≡ rows.old.items ++ map (row_of times.entry.timing.now times.entry.offsets.now times.entry.width times.entry.table.now) (cycle_passages times.entry.timing.now cycle)) }
{
    for stream in 0..times.timing.streams() {
        push_stream(rows, times, cycle, stream)?;
    }
    Ok(())
}

fn push_stream(
    rows: &mut Vec<Row>,
    times: StartTimes<'_>,
    cycle: usize,
    stream: usize,
) -> Result<(), AllocError>
    requires times { AreTimes times.timing.now times.offsets.now times.firsts.now times.width times.table.now times.cycles }
    requires cycle { cycle < times.cycles }
    requires stream { stream < stream_count times.timing.now }
    ensures { IfOk result (λ _. rows.new.items ≡ rows.old.items ++ map (row_of times.entry.timing.now times.entry.offsets.now times.entry.width times.entry.table.now) (stream_passages times.entry.timing.now cycle stream)) }
{
    for shift in times.timing.shifts(stream) {
        push_frame(rows, times, cycle, stream, *shift)?;
    }
    Ok(())
}

fn push_frame(
    rows: &mut Vec<Row>,
    times: StartTimes<'_>,
    cycle: usize,
    stream: usize,
    shift: u64,
) -> Result<(), AllocError>
    requires times { AreTimes times.timing.now times.offsets.now times.firsts.now times.width times.table.now times.cycles }
    requires cycle { cycle < times.cycles }
    requires stream { stream < stream_count times.timing.now }
    requires sent { Sends times.timing.now stream shift }
    ensures { IfOk result (λ _. rows.new.items ≡ rows.old.items ++ map (row_of times.entry.timing.now times.entry.offsets.now times.entry.width times.entry.table.now) (frame_passages times.entry.timing.now cycle stream shift)) }
{
    for hop in 0..times.timing.hops(stream) {
        rows.push(row(times, cycle, stream, shift, hop))?;
    }
    Ok(())
}

fn row(times: StartTimes<'_>, cycle: usize, stream: usize, shift: u64, hop: usize) -> Row
    requires times { AreTimes times.timing.now times.offsets.now times.firsts.now times.width times.table.now times.cycles }
    requires cycle { cycle < times.cycles }
    requires stream { stream < stream_count times.timing.now }
    requires sent { Sends times.timing.now stream shift }
    requires hop { hop < hop_count times.timing.now stream }
    ensures { result ≡ row_of times.entry.timing.now times.entry.offsets.now times.entry.width times.entry.table.now (record { stream = stream; shift = shift; cycle = cycle; hop = hop }) }
{
    let cell = cell(
        times.timing,
        times.firsts,
        times.width,
        cycle,
        stream,
        shift,
        hop,
    );
    Row {
        stream,
        shift,
        cycle,
        hop,
        planned: cycle as u64 * times.timing.cycle()
            + times.offsets[stream]
            + shift
            + times.timing.start(stream, hop),
        actual: times.table[cell],
    }
}

// The starts by cycle, stream, shift and hop, as many cells for each frame in each cycle as the width.
fn table_of(
    alloc: Global,
    timing: &Timing,
    firsts: &[usize],
    width: usize,
    cycles: usize,
    starts: &[Started],
) -> Result<Vec<Option<u64>>, AllocError>
    requires spaced { AreSpaced timing.now }
    requires firsts { AreFirsts timing.now firsts.now }
    requires wide { IsWidth timing.now width }
    requires few { cycles ≤ 16 }
    requires passages { All (λ (begun : ScheduledStart). IsPassage timing.now cycles begun.passage) starts.now }
    requires once { (i j : ℕ) (d : ScheduledStart) → i < length starts.now → j < length starts.now → (slice_index_or starts.now i d).passage ≡ (slice_index_or starts.now j d).passage
        → (slice_index_or starts.now i d).time ≡ (slice_index_or starts.now j d).time }
    ensures { IfOk result (λ table. IsTable timing.now width cycles starts.now table.items) }
{
    // The network is within its limits, so a cycle has few frames.
    let _limits = timing.cycle();
    let frames = firsts[timing.streams()];
    let mut table = vec![in alloc; None; cycles * frames * width]?;
    for started in starts {
        let cell = cell(
            timing,
            firsts,
            width,
            started.cycle(),
            started.stream(),
            started.shift(),
            started.hop(),
        );
        table[cell] = Some(started.time());
    }
    Ok(table)
}

// The hops of the longest route.
fn width_of(timing: &Timing) -> usize
    ensures { IsWidth timing.now result }
{
    // The network is within its limits, so a route has few hops.
    let _limits = timing.cycle();
    let mut width = 0;
    for stream in 0..timing.streams() {
        width = width.max(timing.hops(stream));
    }
    width
}

// Where a passage stands in the table.
fn cell(
    timing: &Timing,
    firsts: &[usize],
    width: usize,
    cycle: usize,
    stream: usize,
    shift: u64,
    hop: usize,
) -> usize
    requires spaced { AreSpaced timing.now }
    requires firsts { AreFirsts timing.now firsts.now }
    requires wide { IsWidth timing.now width }
    requires stream { stream < stream_count timing.now }
    requires sent { Sends timing.now stream shift }
    requires hop { hop < hop_count timing.now stream }
    requires few { cycle < 16 }
    ensures value { result ≡ cell_of timing.now width (record { stream = stream; shift = shift; cycle = cycle; hop = hop }) }
    ensures within { result < (cycle + 1) * frames_of timing.now * width }
    ensures small { result < 67_108_864 }
{
    // The network is within its limits, so a cycle has few frames.
    let _limits = timing.cycle();
    let frames = firsts[timing.streams()];
    let index = firsts[stream] + place_of(timing, stream, shift);
    (cycle * frames + index) * width + hop
}

// Where a shift stands among those of its stream.
fn place_of(timing: &Timing, stream: usize, shift: u64) -> usize
    requires spaced { AreSpaced timing.now }
    requires stream { stream < stream_count timing.now }
    requires sent { Sends timing.now stream shift }
    ensures value { result ≡ place_of timing.now stream shift }
    ensures within { result < length (shifts timing.now stream) }
{
    timing
        .shifts(stream)
        .partition_point(|other| *other < shift)
}

// By stream where the first of its frames stands among those of a cycle, and behind them how many these are.
fn firsts_of(alloc: Global, timing: &Timing) -> Result<Vec<usize>, AllocError>
    ensures { IfOk result (λ firsts. AreFirsts timing.now firsts.items) }
{
    // The network is within its limits, so there are few frames.
    let _limits = timing.cycle();
    let mut firsts = Vec::new(alloc);
    let mut first = 0;
    firsts.push(first)?;
    for stream in 0..timing.streams() {
        first += timing.shifts(stream).len();
        firsts.push(first)?;
    }
    Ok(firsts)
}

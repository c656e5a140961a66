//! The replay of cycles.
ghost use Rattle.std.specs.Prelude.{◌≡◌, ◌≤◌, ◌<◌, ℕ, length, false, All, IfOk, IfErr};
ghost use Rattle.tsn_model.specs.Network.{IsWellFormed};
ghost use Rattle.tsn_model.specs.Schedule.{IsValid};
ghost use Rattle.tsn_model.specs.Bridge.{BridgeRun, HasWantedGates, IsBridgeRun, IsFed, StartsOnTime};
ghost use Rattle.tsn_model.specs.Early.{Tolerates};
ghost use Rattle.tsn_model.specs.Kept.{KeepsWantedGates};
ghost use Rattle.tsn_replay.specs.Feeding.{background_of};
ghost use Rattle.tsn_replay.specs.Faults.{NamesLinks, KeepsLimits, HasReplayFault};
ghost use Rattle.tsn_replay.specs.Progress.{IsSetting, AreStarts};
ghost use Rattle.tsn_replay.specs.Rows.{AreRows, is_late};
ghost use Rattle.tsn_replay.specs.Records.{IsReplayed, AreRowsOfRun, AreRowsOfEarlyRun};

use crate::alternation::Alternation;
use crate::background::Background;
use crate::conditions::first_fault;
use crate::engine::Replay;
use crate::openings::Openings;
use crate::replay_fault::ReplayFault;
use crate::rows::rows_of;
use crate::starts::Starts;
use crate::table::ReplayTable;
use crate::trace::{Row, Trace};
use std::alloc::{AllocError, Global};
use tsn_gate::GateList;
use tsn_timing::{Problem, Timing, Valid};

/// Replays so many cycles, 1 to 16, of a valid schedule by gate control lists, from instant 0 on. The bridges' clocks are
/// without error.
///
/// A stream's frame is ready on its first link at its offset in its cycle, or later by its shift, and on the next as the
/// timing says from its actual start. On each link the ready frames wait by readiness, then by stream; the first starts as
/// soon as the wire is free, and the scheduled class open for as long as the frame occupies the link. Where none can start,
/// a background frame does, if one waits, the wire is free and a background class open. A frame that starts before the end
/// may end after it.
///
/// By lists that keep the gates that the schedule asks for, each scheduled frame starts when it is planned to.
///
/// # Errors
///
/// `UnknownLink` where a list or a background frame is of no link, two lists are of one link, or a link that a stream uses
/// or on which a background frame waits has no list; else `Limit` where a list doesn't last the cycle, there are more than
/// 10,000 background frames, or one of them has not 64 to 1522 octets or is wanted at or past the end; else `Memory` where
/// a growth was refused.
pub fn replay(
    alloc: Global,
    problem: &Problem,
    valid: &Valid,
    lists: &[GateList],
    cycles: usize,
    background: &Background,
) -> Result<Trace, ReplayFault>
    requires some { 1 ≤ cycles }
    requires few { cycles ≤ 16 }
    requires valid { IsValid problem.now.network valid.now }
    ensures run { IfOk result (λ trace. IsBridgeRun problem.now.network valid.now lists.now cycles trace.run) }
    ensures fed { IfOk result (λ trace. IsFed problem.now.network lists.now cycles (background_of background.now) trace.run) }
    ensures rows { IfOk result (λ trace. AreRows problem.now.network valid.now cycles trace.run trace.rows) }
    ensures named { IfOk result (λ trace. All (λ (row : Row). row.stream < length problem.now.stream_names) trace.rows) }
    ensures on_time { IfOk result (λ _. KeepsWantedGates problem.now.network valid.now lists.now
        → (count : ℕ) (run : BridgeRun) → IsBridgeRun problem.now.network valid.now lists.now count run → StartsOnTime problem.now.network valid.now count run) }
    ensures links { IfOk result (λ _. NamesLinks problem.now.network lists.now (background_of background.now)) }
    ensures limits { IfOk result (λ _. KeepsLimits problem.now.network lists.now cycles (background_of background.now)) }
    ensures fault { IfErr result (HasReplayFault problem.now.network lists.now cycles (background_of background.now)) }
{
    replayed(alloc, problem, valid, lists, cycles, background, true, 0)
}

/// Replays cycles as `replay` does, and gives the rows alone. The starts of background frames aren't kept: the memory that
/// it takes grows with the scheduled frames, and not with the background ones that start.
///
/// # Errors
///
/// Those of `replay`.
pub fn replay_rows(
    alloc: Global,
    problem: &Problem,
    valid: &Valid,
    lists: &[GateList],
    cycles: usize,
    background: &Background,
) -> Result<ReplayTable, ReplayFault>
    requires some { 1 ≤ cycles }
    requires few { cycles ≤ 16 }
    requires valid { IsValid problem.now.network valid.now }
    ensures rows { IfOk result (λ table. AreRowsOfRun problem.now.network valid.now lists.now cycles (background_of background.now) table) }
    ensures named { IfOk result (λ table. All (λ (row : Row). row.stream < length problem.now.stream_names) table) }
    ensures on_time { IfOk result (λ _. KeepsWantedGates problem.now.network valid.now lists.now
        → (count : ℕ) (run : BridgeRun) → IsBridgeRun problem.now.network valid.now lists.now count run → StartsOnTime problem.now.network valid.now count run) }
    ensures links { IfOk result (λ _. NamesLinks problem.now.network lists.now (background_of background.now)) }
    ensures limits { IfOk result (λ _. KeepsLimits problem.now.network lists.now cycles (background_of background.now)) }
    ensures fault { IfErr result (HasReplayFault problem.now.network lists.now cycles (background_of background.now)) }
{
    let trace = replayed(alloc, problem, valid, lists, cycles, background, false, 0)?;
    Ok(trace.into_table())
}

/// Replays cycles as `replay_rows` does, but with frames that are ready early, by so many nanoseconds: of those that are
/// planned one after another on a link every second one, and in the next cycle the others. On its first link a frame is
/// ready no sooner than at the replay's beginning, on a next one after its start on the link before, and on each behind the
/// frames of its stream that were sent before. Of frames that are ready at one instant those that are early go first.
///
/// By the lists that the schedule asks for no row is late, where the schedule tolerates that frames are ready early by so much
/// on each link.
///
/// # Errors
///
/// Those of `replay`.
pub fn replay_early(
    alloc: Global,
    problem: &Problem,
    valid: &Valid,
    lists: &[GateList],
    cycles: usize,
    background: &Background,
    slack: u64,
) -> Result<ReplayTable, ReplayFault>
    requires some { 1 ≤ cycles }
    requires few { cycles ≤ 16 }
    requires short { slack ≤ 1_000_000 }
    requires valid { IsValid problem.now.network valid.now }
    ensures rows { IfOk result (λ table. AreRowsOfEarlyRun problem.now.network valid.now lists.now cycles slack (background_of background.now) table) }
    ensures named { IfOk result (λ table. All (λ (row : Row). row.stream < length problem.now.stream_names) table) }
    ensures on_time { IfOk result (λ table. HasWantedGates problem.now.network valid.now lists.now → Tolerates problem.now.network valid.now (λ link. slack)
        → All (λ row. is_late row ≡ false) table) }
    ensures links { IfOk result (λ _. NamesLinks problem.now.network lists.now (background_of background.now)) }
    ensures limits { IfOk result (λ _. KeepsLimits problem.now.network lists.now cycles (background_of background.now)) }
    ensures fault { IfErr result (HasReplayFault problem.now.network lists.now cycles (background_of background.now)) }
{
    let trace = replayed(
        alloc, problem, valid, lists, cycles, background, false, slack,
    )?;
    // The network is within its limits.
    let _limits = problem.cycle();
    Ok(trace.into_table())
}

// A replay, in which the starts of background frames are kept or not, and some frames are ready early.
fn replayed(
    alloc: Global,
    problem: &Problem,
    valid: &Valid,
    lists: &[GateList],
    cycles: usize,
    background: &Background,
    keeps: bool,
    slack: u64,
) -> Result<Trace, ReplayFault>
    requires some { 1 ≤ cycles }
    requires few { cycles ≤ 16 }
    requires short { slack ≤ 1_000_000 }
    requires valid { IsValid problem.now.network valid.now }
    ensures replayed { IfOk result (IsReplayed keeps slack problem.now.network valid.now lists.now cycles (background_of background.now)) }
    ensures named { IfOk result (λ trace. All (λ (row : Row). row.stream < length problem.now.stream_names) trace.rows) }
    ensures on_time { IfOk result (λ _. KeepsWantedGates problem.now.network valid.now lists.now
        → (count : ℕ) (run : BridgeRun) → IsBridgeRun problem.now.network valid.now lists.now count run → StartsOnTime problem.now.network valid.now count run) }
    ensures links { IfOk result (λ _. NamesLinks problem.now.network lists.now (background_of background.now)) }
    ensures limits { IfOk result (λ _. KeepsLimits problem.now.network lists.now cycles (background_of background.now)) }
    ensures fault { IfErr result (HasReplayFault problem.now.network lists.now cycles (background_of background.now)) }
{
    if let Some(fault) = first_fault(problem, lists, cycles, background) {
        return Err(fault);
    }
    // The network is within its limits, and each stream has a name.
    let _limits = problem.cycle();
    let timing = problem.timing();
    let offsets = valid.offsets();
    let early = early_by(alloc, timing, offsets, slack)?;
    let starts = starts_by(
        alloc, timing, offsets, lists, cycles, background, keeps, slack, &early,
    )?;
    let _names = problem.streams();
    let rows = rows_of(alloc, timing, offsets, cycles, &starts)?;
    Ok(Trace::new(starts, ReplayTable::new(rows)))
}

// Which frames are early, where some are.
fn early_by(
    alloc: Global,
    timing: &Timing,
    offsets: &[u64],
    slack: u64,
) -> Result<Alternation, AllocError>
    requires formed { IsWellFormed timing.now }
    requires valid { IsValid timing.now offsets.now }
{
    if slack == 0 {
        Ok(Alternation::none(alloc))
    } else {
        Alternation::of(alloc, timing, offsets)
    }
}

// What starts in the cycles.
fn starts_by(
    alloc: Global,
    timing: &Timing,
    offsets: &[u64],
    lists: &[GateList],
    cycles: usize,
    background: &Background,
    keeps: bool,
    slack: u64,
    early: &Alternation,
) -> Result<Starts, AllocError>
    requires { IsSetting (record { network = timing.now; offsets = offsets.now; gates = lists.now; cycles = cycles; background = background_of background.now; keeps = keeps; slack = slack }) }
    ensures { IfOk result (AreStarts (record { network = timing.now; offsets = offsets.now; gates = lists.now; cycles = cycles; background = background_of background.now; keeps = keeps; slack = slack })) }
{
    let gates = openings_of(alloc, lists)?;
    let replay = Replay {
        network: timing.plain(),
        offsets,
        gates: &gates,
        cycles,
        background,
        keeps,
        slack,
        early,
    };
    replay.run(alloc)
}

fn openings_of(alloc: Global, lists: &[GateList]) -> Result<Vec<Openings>, AllocError>
    ensures { IfOk result (λ gates. gates.items ≡ lists.now) }
{
    let mut gates = Vec::new(alloc);
    for list in lists {
        gates.push(Openings::of(alloc, list)?)?;
    }
    Ok(gates)
}

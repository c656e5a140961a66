//! The gate control lists that a schedule asks for.
ghost use Rattle.std.specs.Prelude.{◌≡◌, ◌<◌, length, All, IfOk, MatchOption};
ghost use Rattle.tsn_model.specs.Network.{IsWellFormed};
ghost use Rattle.tsn_model.specs.Schedule.{IsValid};
ghost use Rattle.tsn_model.specs.Gates.{guard_of};
ghost use Rattle.tsn_model.specs.Bridge.{HasWantedGates};
ghost use Rattle.tsn_gate.specs.GateLists.{IsUsed, IsListOf, AreWantedLists};

use crate::list::GateList;
use crate::sweep::entries_of;
use crate::windows::windows_on;
use std::alloc::{AllocError, Global};
use tsn_model::NoMemory;
use tsn_model::bounds::MAX_OCTETS_ON_LINK;
use tsn_timing::{Problem, Timing, Valid};

/// For each directed link that a stream uses, by link number, the list that the schedule asks for: in a scheduled frame's
/// window the scheduled class alone is open; before it, for as long as the greatest background frame takes, none is; and
/// else the background classes are. A guard reaches back over the cycle's start. The list lasts the cycle, in as few
/// entries as can be, the last of them not joined with the first.
///
/// # Errors
///
/// There was no memory.
pub fn gate_lists(
    alloc: Global,
    problem: &Problem,
    valid: &Valid,
) -> Result<Vec<GateList>, NoMemory>
    requires { IsValid problem.now.network valid.now }
    ensures lists { IfOk result (λ lists. AreWantedLists problem.now.network valid.now lists.items) }
    ensures gates { IfOk result (λ lists. HasWantedGates problem.now.network valid.now lists.items) }
    ensures exist { IfOk result (λ lists. All (λ list. list.link < length problem.now.network.links) lists.items) }
{
    Ok(lists_of(alloc, problem.timing(), valid.offsets())?)
}

// The lists of all links that a stream uses.
fn lists_of(alloc: Global, timing: &Timing, offsets: &[u64]) -> Result<Vec<GateList>, AllocError>
    requires { IsValid timing.now offsets.now }
    ensures lists { IfOk result (λ lists. AreWantedLists timing.now offsets.now lists.items) }
    ensures gates { IfOk result (λ lists. HasWantedGates timing.now offsets.now lists.items) }
    ensures exist { IfOk result (λ lists. All (λ list. list.link < length timing.now.links) lists.items) }
{
    let cycle = timing.cycle();
    let mut lists = Vec::new(alloc);
    for link in 0..timing.links() {
        if let Some(list) = list_of(alloc, timing, offsets, cycle, link)? {
            lists.push(list)?;
        }
    }
    Ok(lists)
}

// The list of one link, if a stream uses it.
fn list_of(
    alloc: Global,
    timing: &Timing,
    offsets: &[u64],
    cycle: u64,
    link: usize,
) -> Result<Option<GateList>, AllocError>
    requires cycle { cycle ≡ timing.now.cycle }
    requires link { link < length timing.now.links }
    requires formed { IsWellFormed timing.now }
    requires valid { IsValid timing.now offsets.now }
    ensures { IfOk result (λ list. MatchOption list (¬ IsUsed timing.now link) (λ l. IsListOf timing.now offsets.now link l)) }
{
    let windows = windows_on(alloc, timing, offsets, link)?;
    if windows.is_empty() {
        return Ok(None);
    }
    let entries = entries_of(alloc, &windows, cycle, guard(timing, link))?;
    Ok(Some(GateList::of(link, entries)))
}

// How long before a window no background frame may start, in nanoseconds.
#[tactic(auto, unfolding(tsn_model::specs::Gates::guard_of))]
fn guard(timing: &Timing, link: usize) -> u64
    requires link { link < length timing.now.links }
    requires formed { IsWellFormed timing.now }
    ensures { result ≡ guard_of timing.now link }
{
    MAX_OCTETS_ON_LINK * timing.link(link).octet_time
}

//! Replays by lists and background frames that are given as text. What calls the replay does nothing else: all that its
//! contract says would stand in the way of each further proof.
ghost use Rattle.std.specs.Prelude.{◌<◌, All, IfOk, IfSome, length};
ghost use Rattle.tsn_model.specs.Schedule.{IsValid};
ghost use Rattle.tsn_replay.specs.declared.trace.Row.{Row};

use crate::texts::{number, parted, place};
use std::alloc::{AllocError, Global};
use std::process::Abort;
use std::test::Fail;
use tsn_gate::{GateEntry, GateList, gate_lists};
use tsn_networks::Network;
use tsn_replay::{Background, BackgroundFrame, Sent, Trace, replay};
use tsn_timing::{Problem, Valid};

/// What is replayed.
#[derive(Clone, Copy)]
pub struct Play<'a> {
    pub network: Network,
    pub cycle: u64,
    pub offsets: &'a [u64],
    /// Lists that are taken for those that the network asks for, each on a line: a link, and then its entries, each as its octet and its
    /// interval.
    pub lists: &'a [&'a str],
    pub cycles: usize,
    /// Empty, `greedy`, or frames, each as its link, its wanted start and its octets.
    pub background: &'a str,
}

fn valid_of(alloc: Global, problem: &Problem, offsets: &[u64]) -> Option<Valid>
    ensures { IfSome result (λ valid. IsValid problem.now.network valid) }
{
    let offsets = Vec::from_slice(alloc, offsets).ok()?;
    problem.timing().valid(offsets).ok()
}

/// The lists that a network asks for.
fn lists_for(alloc: Global, problem: &Problem, offsets: &[u64]) -> Option<Vec<GateList>> {
    let valid = valid_of(alloc, problem, offsets)?;
    gate_lists(alloc, problem, &valid).ok()
}

/// Takes the list of a link for another one.
fn change(lists: &mut Vec<GateList>, list: GateList) -> Result<(), AllocError> {
    let link = list.link();
    lists.retain(|old| old.link() != link);
    lists.push(list)?;
    Ok(())
}

fn lists_of(alloc: Global, problem: &Problem, play: Play<'_>) -> Result<Vec<GateList>, Fail> {
    let mut lists = lists_for(alloc, problem, play.offsets).ok_or("no lists")?;
    for line in play.lists {
        change(&mut lists, list_of(alloc, line)?)?;
    }
    Ok(lists)
}

/// The list of a line.
fn list_of(alloc: Global, line: &str) -> Result<GateList, Fail> {
    let (link, text) = line.split_once(": ").ok_or("no link")?;
    let mut entries = Vec::new(alloc);
    for entry in text.split(", ") {
        entries.push(entry_of(entry)?)?;
    }
    Ok(gate_list(alloc, place(link)?, &entries).ok_or("the list is refused")?)
}

fn entry_of(text: &str) -> Result<GateEntry, Fail> {
    let (octet, interval) = parted(text)?;
    let octet = u8::from_str_radix(octet, 16)?;
    let interval = number(interval)?;
    Ok(GateEntry { interval, octet })
}

fn gate_list(alloc: Global, link: usize, entries: &[GateEntry]) -> Option<GateList> {
    GateList::new(alloc, link, entries).ok()
}

fn background_of(alloc: Global, text: &str) -> Result<Background, Fail> {
    match text {
        "" => Ok(Background::Nothing),
        "greedy" => Ok(Background::Greedy),
        _ => Ok(Background::Listed(frames_of(alloc, text)?)),
    }
}

fn frames_of(alloc: Global, text: &str) -> Result<Vec<BackgroundFrame>, Fail> {
    let mut frames = Vec::new(alloc);
    for frame in text.split(", ") {
        frames.push(frame_of(frame)?)?;
    }
    Ok(frames)
}

fn frame_of(text: &str) -> Result<BackgroundFrame, Fail> {
    let (link, rest) = parted(text)?;
    let (wanted, octets) = parted(rest)?;
    let link = place(link)?;
    let wanted = number(wanted)?;
    let octets = number(octets)?;
    Ok(BackgroundFrame {
        link,
        wanted,
        octets,
    })
}

/// Replays so many cycles. The error is the fault's number; 0 where there is no such schedule, or number of cycles.
fn played(
    alloc: Global,
    problem: &Problem,
    play: Play<'_>,
    lists: &[GateList],
    background: &Background,
) -> Result<Trace, u8>
    ensures { IfOk result (λ trace. All (λ (row : Row). row.stream < length problem.now.stream_names) trace.rows) }
{
    let Some(valid) = valid_of(alloc, problem, play.offsets) else {
        return Err(0);
    };
    if play.cycles < 1 || 16 < play.cycles {
        return Err(0);
    }
    match replay(alloc, problem, &valid, lists, play.cycles, background) {
        Ok(trace) => Ok(trace),
        Err(fault) => Err(fault.number()),
    }
}

/// A table, behind which what started in the background can be written.
fn table_of(alloc: Global, problem: &Problem, trace: &Trace) -> Option<String>
    requires { All (λ (row : Row). row.stream < length problem.now.stream_names) trace.now.rows }
{
    trace.to_text(alloc, problem).ok()
}

/// Writes what started in the background on a link, each frame as its link, its start and its octets.
fn write_link(
    alloc: Global,
    text: &mut String,
    link: usize,
    background: &[Sent],
) -> Result<(), AllocError> {
    for sent in background {
        if sent.link() == link {
            let (start, octets) = (sent.start(), sent.octets());
            text.push_str(format!(in alloc; "{link} {start} {octets}\n")?.as_str())?;
        }
    }
    Ok(())
}

/// The table of a replay, and behind it the background, link by link.
fn trace_text(alloc: Global, problem: &Problem, trace: &Trace) -> Result<String, Fail>
    requires { All (λ (row : Row). row.stream < length problem.now.stream_names) trace.now.rows }
{
    let mut text = table_of(alloc, problem, trace).ok_or("no table")?;
    for link in 0..problem.links() {
        write_link(alloc, &mut text, link, trace.background())?;
    }
    Ok(text)
}

/// What a replay by these lists shows, or its fault.
fn shown_by(
    alloc: Global,
    problem: &Problem,
    play: Play<'_>,
    lists: &[GateList],
) -> Result<String, Fail> {
    let background = background_of(alloc, play.background)?;
    match played(alloc, problem, play, lists, &background) {
        Ok(trace) => trace_text(alloc, problem, &trace),
        Err(number) => Ok(format!(in alloc; "P{number}")?),
    }
}

/// What a replay shows, or its fault.
fn shown(alloc: Global, play: Play<'_>) -> Result<String, Fail> {
    let problem = play.network.problem(alloc, play.cycle).ok_or("no network")?;
    let lists = lists_of(alloc, &problem, play)?;
    let text = shown_by(alloc, &problem, play, &lists);
    drop(lists);
    drop(problem);
    text
}

/// Compares the table of a replay with the background behind it, or the replay's fault.
pub fn expect_shown<R: Abort + AllocGlobal>(
    rt: &R,
    play: Play<'_>,
    answer: &str,
) -> Result<(), Fail> {
    let text = shown(rt.alloc(), play)?;
    expect_same(rt, text.as_str(), answer);
    Ok(())
}

fn expect_same(rt: &impl Abort, found: &str, wanted: &str) {
    assert_eq!(rt; found, wanted);
}

//! The entries of a leaf over a whole link: whether they are right, and what they come to.
ghost use Rattle.std.specs.Prelude.{◌≡◌, ◌≤◌, ◌<◌, ◌+◌, ◌==◌, ◌&&◌, ℕ};
ghost use Rattle.std.specs.List.{list_any};
ghost use Rattle.tsn_model.specs.Network.{stream_count, hop_count};
ghost use Rattle.tsn_model.specs.Timing.{Sends, start};
ghost use Rattle.tsn_model.specs.Certificate.{load, overload};
ghost use Rattle.tsn_check.specs.Turns.{AreTurns, decisions};
ghost use Rattle.tsn_check.specs.Steps.{FindsBound, FindsEntry, FindsLoad};

use crate::leaf::{below, sum_to};
use crate::path::Turn;
use crate::why::{NodeFault, Shortfall};
use tsn_cert::plan::MAX_TIME;
use tsn_cert::{Entries, Entry};
use tsn_model::Frame;
use tsn_timing::Timing;

/// What some entries come to on their link, in nanoseconds.
#[derive(Clone, Copy)]
pub struct LinkLoad {
    /// The earliest instant at which one of their frames may start on the link.
    pub head: i64,
    /// How long the frames keep the link.
    pub work: u64,
    /// How long after one of the frames has kept the link its stream's first period is through at the soonest; below 0 where it
    /// is through before.
    pub tail: i64,
}

/// Whether the entry is of the frame.
fn is_of(entry: &Entry, frame: Frame) -> bool
    ensures { result ≡ (entry.now.frame.stream == frame.stream && entry.now.frame.shift == frame.shift) }
{
    entry.frame.stream == frame.stream && entry.frame.shift == frame.shift
}

/// Whether one of the entries is of the frame.
fn has_frame(entries: &[Entry], frame: Frame) -> bool
    ensures { result ≡ list_any (λ entry. entry.frame.stream == frame.stream && entry.frame.shift == frame.shift) entries.now }
{
    entries.iter().any(|entry| is_of(entry, frame))
}

/// When a frame starts on a hop of its stream, counted from its stream's offset, in nanoseconds.
fn begin_of(timing: &Timing, frame: Frame, hop: usize) -> u64
    requires stream { frame.stream < stream_count timing.now }
    requires sent { Sends timing.now frame.stream frame.shift }
    requires hop { hop < hop_count timing.now frame.stream }
    ensures value { result ≡ frame.shift + start timing.now frame.stream hop }
    ensures bound { result ≤ 1_230_000_000 }
{
    // The limits of the network bound the shift.
    let _limits = timing.cycle();
    frame.shift + timing.start(frame.stream, hop)
}

/// What an entry behind others comes to on the link.
fn entry_load(
    timing: &Timing,
    path: &[Turn],
    link: usize,
    before: &[Entry],
    entry: &Entry,
) -> Result<LinkLoad, NodeFault>
    requires { AreTurns timing.now path.now }
    ensures { FindsEntry timing.now (decisions path.now) link before.now entry.now result }
{
    let frame = entry.frame;
    let stream = frame.stream;
    if stream >= timing.streams() {
        return Err(NodeFault::NotOnLink);
    }
    if !timing.is_shift(stream, frame.shift) {
        return Err(NodeFault::NotSent);
    }
    let Some(hop) = timing.hop_on(stream, link) else {
        return Err(NodeFault::NotOnLink);
    };
    if has_frame(before, frame) {
        return Err(NodeFault::StreamRepeated);
    }
    let sum = sum_to(timing, path, stream, &entry.chain)?;
    let begin = begin_of(timing, frame, hop);
    let work = timing.separation(stream, hop);
    Ok(LinkLoad {
        head: sum + begin as i64,
        work,
        tail: timing.arrival(stream) as i64 - (begin + work) as i64,
    })
}

/// What the entries of a leaf come to on its link.
pub fn link_load(
    timing: &Timing,
    path: &[Turn],
    link: usize,
    entries: &Entries,
) -> Result<LinkLoad, NodeFault>
    requires { AreTurns timing.now path.now }
    ensures { FindsLoad timing.now (decisions path.now) link entries.now result }
{
    let list = entries.list();
    let mut all = entry_load(timing, path, link, &list[..0], &list[0])?;
    for number in 1..list.len() {
        let next = entry_load(timing, path, link, &list[..number], &list[number])?;
        all = LinkLoad {
            head: all.head.min(next.head),
            work: all.work + next.work,
            tail: all.tail.min(next.tail),
        };
    }
    Ok(all)
}

/// Whether the frames keep the link busy for so long that one of their streams arrives at the target or after it; else when, at
/// the soonest.
pub fn judge_load(
    timing: &Timing,
    target: u64,
    path: &[Turn],
    link: usize,
    entries: &Entries,
) -> Result<Option<Shortfall>, NodeFault>
    requires turns { AreTurns timing.now path.now }
    requires target { target ≤ MAX_TIME }
    ensures { FindsBound timing.now target (decisions path.now) (load link entries.now) result }
{
    let all = link_load(timing, path, link, entries)?;
    Ok(below(all.head + all.work as i64 + all.tail, target))
}

/// Whether the frames keep the link busy behind the cycle; else for how long.
pub fn judge_overload(
    timing: &Timing,
    path: &[Turn],
    link: usize,
    entries: &Entries,
) -> Result<Option<Shortfall>, NodeFault>
    requires { AreTurns timing.now path.now }
    ensures { (target : ℕ) → FindsBound timing.now target (decisions path.now) (overload link entries.now) result }
{
    let all = link_load(timing, path, link, entries)?;
    let end = all.head + all.work as i64;
    let cycle = timing.cycle();
    if end > cycle as i64 {
        Ok(None)
    } else {
        Ok(Some(Shortfall::Overload { link, end, cycle }))
    }
}

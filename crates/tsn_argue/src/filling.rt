//! Moves about rooms on a link: whether sums of works leave so much of them.
ghost use Rattle.std.specs.Prelude.{◌≡◌, ◌≤◌, ◌+◌, [], ◌∷◌, false, length, All, Contains, MatchBool, MatchOption};
ghost use Rattle.tsn_model.specs.Timing.{separation};
ghost use Rattle.tsn_model.specs.Certificate.{IsFrameOn};
ghost use Rattle.tsn_model.specs.Argument.{left_edge, right_edge, IsEdge};
ghost use Rattle.tsn_cert.specs.Move.{edge_of};
ghost use Rattle.tsn_argue.specs.State.{view_of, IsSound};
ghost use Rattle.tsn_argue.specs.Faults.{AreShut, IsFirstOpen};
ghost use Rattle.tsn_argue.specs.Rooms.{IsGroup, network_of, frames_of, from_place, until_place};
ghost use Rattle.tsn_argue.specs.Fillings.{FindsFixed, FindsEdge, FindsFilling, FindsTurn, FindsLost, FindsWasting};

use crate::link::{is_same, judge_frames};
use crate::room::{Gap, Group, hall_of, is_fixed, left_over, span_of, tell};
use crate::seen::{Marks, Seen};
use crate::view::View;
use tsn_cert::{Edge, Filling, Wasting};
use tsn_check::Wrong;
use tsn_model::Frame;
use tsn_sums::{Room, Shelf, Told, first_open};

/// Whether a frame is one of these, and can't move.
fn judge_fixed(view: &View<'_>, link: usize, frames: &Seen, frame: Frame) -> Result<(), Wrong>
    requires sound { IsSound view.now }
    requires on { All (IsFrameOn view.now.timing.now link) frames.now }
    ensures { FindsFixed (view_of view.now) frames.now frame result }
{
    if !frames.has(frame) {
        return Err(Wrong::NotAmong(frame));
    }
    if is_fixed(view, link, frame) {
        Ok(())
    } else {
        Err(Wrong::Movable(frame))
    }
}

/// The same of a frame beside which a room begins or ends, if there is one.
fn judge_edge(view: &View<'_>, link: usize, frames: &Seen, edge: Edge) -> Result<(), Wrong>
    requires sound { IsSound view.now }
    requires on { All (IsFrameOn view.now.timing.now link) frames.now }
    ensures { FindsEdge (view_of view.now) frames.now (edge_of edge) result }
{
    match edge {
        None => Ok(()),
        Some(frame) => judge_fixed(view, link, frames, frame),
    }
}

/// Where a room begins.
#[tactic(auto, unfolding(tsn_model::specs::Argument::left_edge))]
fn low_of(group: &Group<'_>, edge: Edge) -> u64
    requires group { IsGroup group.now }
    requires edge { IsEdge (view_of group.now.view.now) group.now.others.now (edge_of edge) }
    ensures value { result ≡ left_edge (network_of group.now) (view_of group.now.view.now) group.now.link (frames_of group.now) (edge_of edge) }
    ensures small { result ≤ 4_000_000_000 }
{
    match edge {
        None => group.hall.first,
        Some(frame) => span_of(group.view, group.link, frame).end,
    }
}

/// Where it ends.
#[tactic(auto, unfolding(tsn_model::specs::Argument::right_edge))]
fn high_of(group: &Group<'_>, edge: Edge) -> u64
    requires group { IsGroup group.now }
    requires edge { IsEdge (view_of group.now.view.now) group.now.others.now (edge_of edge) }
    ensures value { result ≡ right_edge (network_of group.now) (view_of group.now.view.now) group.now.link (frames_of group.now) (edge_of edge) }
    ensures small { result ≤ 4_000_000_000 }
{
    match edge {
        None => group.hall.last,
        Some(frame) => span_of(group.view, group.link, frame).head,
    }
}

/// The first place of these, if there is one, that isn't shut for the first frame in a room.
fn open_in(group: &Group<'_>, gap: Gap, from: u64, until: u64, marks: &mut Marks) -> Option<u64>
    requires group { IsGroup group.now }
    requires low { gap.low ≤ 4_000_000_000 }
    requires high { gap.high ≤ 4_000_000_000 }
    ensures { MatchOption result
        (AreShut (network_of group.now) (view_of group.now.view.now) group.now.link (frames_of group.now) gap.low gap.high (separation (network_of group.now) group.now.first.stream group.now.link) from until)
        (IsFirstOpen (network_of group.now) (view_of group.now.view.now) group.now.link (frames_of group.now) gap.low gap.high (separation (network_of group.now) group.now.first.stream group.now.link) from until) }
{
    let work = span_of(group.view, group.link, group.first).work;
    let before = tell(group, gap, true, &mut marks.left);
    let after = tell(group, gap, false, &mut marks.right);
    let hall = group.hall;
    let left = Told {
        works: marks.left.rows.list(),
        table: &marks.left.table,
        unit: hall.unit,
        units: before,
    };
    let right = Told {
        works: marks.right.rows.list(),
        table: &marks.right.table,
        unit: hall.unit,
        units: after,
    };
    let room = Room {
        idle: hall.idle,
        low: gap.low,
        high: gap.high,
        work,
    };
    first_open(left, right, room, from, until)
}

/// From which place on a frame may not begin, and until which.
fn places_of(view: &View<'_>, link: usize, frame: Frame, bound: u64, is_back: bool) -> (u64, u64)
    requires sound { IsSound view.now }
    requires possible { view.now.crossed ≡ false }
    requires on { IsFrameOn view.now.timing.now link frame }
    ensures from { result.0 ≡ from_place view.now.timing.now (view_of view.now) link frame bound is_back }
    ensures until { result.1 ≡ until_place view.now.timing.now (view_of view.now) link frame bound is_back }
{
    let span = span_of(view, link, frame);
    if is_back {
        let less = span.work - 1;
        (bound.saturating_sub(less), span.end.saturating_sub(less))
    } else {
        (span.head, bound)
    }
}

/// Whether each place of a frame before a time, or behind it, is shut; else what is wrong.
pub fn judge_filling(
    view: &View<'_>,
    filling: &Filling,
    is_back: bool,
    marks: &mut Marks,
) -> Result<(), Wrong>
    requires sound { IsSound view.now }
    requires possible { view.now.crossed ≡ false }
    ensures { FindsFilling view.now.timing.now (view_of view.now) filling.now is_back result }
{
    let Filling {
        link,
        frame,
        before,
        after,
        bound,
        ..
    } = *filling;
    let others = filling.others.list();
    judge_frames(view.timing, link, frame, others, &mut marks.others)?;
    judge_edge(view, link, &marks.others, before)?;
    judge_edge(view, link, &marks.others, after)?;
    let hall = hall_of(view, link, frame, others);
    let group = Group {
        view,
        link,
        first: frame,
        others,
        hall,
    };
    let low = low_of(&group, before);
    let high = high_of(&group, after);
    let gap = Gap { low, high };
    let (from, until) = places_of(view, link, frame, bound, is_back);
    match open_in(&group, gap, from, until, marks) {
        None => Ok(()),
        Some(place) => Err(Wrong::Open { link, place }),
    }
}

/// Whether a frame that can't move is one of these, and begins behind those before it.
fn judge_turn(
    view: &View<'_>,
    link: usize,
    first: Frame,
    others: &Seen,
    low: u64,
    frame: Frame,
) -> Result<(), Wrong>
    requires sound { IsSound view.now }
    requires possible { view.now.crossed ≡ false }
    requires on { All (IsFrameOn view.now.timing.now link) (first ∷ others.now) }
    ensures { FindsTurn view.now.timing.now (view_of view.now) link (first ∷ others.now) low frame result }
{
    if !is_among(first, others, frame) {
        return Err(Wrong::NotAmong(frame));
    }
    if !is_fixed(view, link, frame) {
        return Err(Wrong::Movable(frame));
    }
    if low <= span_of(view, link, frame).head {
        Ok(())
    } else {
        Err(Wrong::OutOfTurn(frame))
    }
}

/// Whether a frame is the first or one of the others.
fn is_among(first: Frame, others: &Seen, frame: Frame) -> bool
    ensures { MatchBool result (Contains (first ∷ others.now) frame) (Contains (first ∷ others.now) frame → ⊥) }
{
    if is_same(frame, first) {
        return true;
    }
    others.has(frame)
}

/// What frames leave of the rooms between those of them that can't move.
fn lost_between(
    group: &Group<'_>,
    fixed: &[Frame],
    seen: &Seen,
    shelf: &mut Shelf,
) -> Result<u64, Wrong>
    requires group { IsGroup group.now }
    requires seen { seen.now ≡ group.now.others.now }
    ensures { FindsLost (network_of group.now) (view_of group.now.view.now) group.now.link (frames_of group.now) group.now.hall.first group.now.hall.last fixed.now result }
{
    let Group {
        view,
        link,
        first,
        hall,
        ..
    } = *group;
    let mut low = hall.first;
    let mut lost = 0;
    for frame in fixed {
        judge_turn(view, link, first, seen, low, *frame)?;
        let span = span_of(view, link, *frame);
        let high = span.head;
        lost += left_over(group, Gap { low, high }, shelf);
        low = span.end;
    }
    let high = hall.last;
    Ok(lost + left_over(group, Gap { low, high }, shelf))
}

/// What frames leave of their rooms, and how long the link is idle; or what is wrong with them.
pub fn lost_in(view: &View<'_>, wasting: &Wasting, marks: &mut Marks) -> Result<(u64, u64), Wrong>
    requires sound { IsSound view.now }
    requires possible { view.now.crossed ≡ false }
    ensures { FindsWasting view.now.timing.now (view_of view.now) wasting.now result }
{
    let link = wasting.link;
    let [first, others @ ..] = wasting.frames.list() else {
        unreachable!();
    };
    let first = *first;
    judge_frames(view.timing, link, first, others, &mut marks.others)?;
    let hall = hall_of(view, link, first, others);
    let fixed = wasting.fixed.list();
    let Marks {
        others: seen,
        left,
        ..
    } = marks;
    let group = Group {
        view,
        link,
        first,
        others,
        hall,
    };
    let lost = lost_between(&group, fixed, seen, left)?;
    Ok((lost, hall.idle))
}

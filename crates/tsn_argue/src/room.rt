//! Rooms on a link: what sums of the frames' works leave of them.
ghost use Rattle.std.specs.Prelude.{◌≡◌, ◌≤◌, ◌<◌, ◌+◌, ◌-◌, ◌≤ℤ◌, pos, [], ◌∷◌, false, true, length, All, MatchBool};
ghost use Rattle.tsn_model.specs.declared.bounds.TheConstants.{MAX_OCCUPANCY};
ghost use Rattle.tsn_model.specs.Timing.{separation};
ghost use Rattle.tsn_model.specs.Certificate.{IsFrameOn};
ghost use Rattle.tsn_model.specs.Argument.{natural, head_at, end_at, may_lie, unit_on, left_over, IsFixed};
ghost use Rattle.tsn_argue.specs.State.{view_of, IsSound};
ghost use Rattle.tsn_argue.specs.Rooms.{IsSpan, IsHall, IsGroup, network_of, frames_of, IsTelling, key_on, rows_with, rows_on};
ghost use Rattle.tsn_sums.specs.Sums.{AreLow};

use crate::link::{load_of, load_with, visit_of};
use crate::view::View;
use tsn_model::Frame;
use tsn_sums::{Rows, Shelf, Told, common_divisor};
use tsn_timing::Timing;

/// A number that isn't below 0.
#[tactic(auto, using(crate::proofs::RoomLemmas::abs_pos, crate::proofs::RoomLemmas::abs_small))]
fn natural_of(number: i128) -> u64
    requires low { pos 0 ≤ℤ number }
    requires high { number ≤ℤ pos 4_000_000_000 }
    ensures value { pos result ≡ number }
    ensures small { result ≤ 4_000_000_000 }
{
    number.unsigned_abs() as u64
}

/// The earliest begin of a frame on a link, its latest end, and its work; in nanoseconds.
#[derive(Clone, Copy)]
pub struct Span {
    pub head: u64,
    pub end: u64,
    pub work: u64,
}

pub fn span_of(view: &View<'_>, link: usize, frame: Frame) -> Span
    requires sound { IsSound view.now }
    requires possible { view.now.crossed ≡ false }
    requires on { IsFrameOn view.now.timing.now link frame }
    ensures { IsSpan view.now.timing.now (view_of view.now) link frame result }
{
    let load = load_of(view, link, frame);
    let head = natural_of(load.head);
    let end = natural_of(load.end);
    let work = load.work;
    Span { head, end, work }
}

/// Whether a frame can't move any more.
pub fn is_fixed(view: &View<'_>, link: usize, frame: Frame) -> bool
    requires sound { IsSound view.now }
    requires on { IsFrameOn view.now.timing.now link frame }
    ensures { MatchBool result (IsFixed (view_of view.now) frame) (IsFixed (view_of view.now) frame → ⊥) }
{
    let high = view.high.at(frame.stream);
    let low = view.low.at(frame.stream);
    high <= low
}

/// The greatest common divisor of the works of frames.
fn unit_of(timing: &Timing, link: usize, first: Frame, others: &[Frame]) -> u64
    requires { All (IsFrameOn timing.now link) (first ∷ others.now) }
    ensures value { result ≡ unit_on timing.now link (first ∷ others.now) }
    ensures small { result ≤ MAX_OCCUPANCY }
{
    let visit = visit_of(timing, link, first);
    let mut unit = common_divisor(0, visit.work);
    for frame in others {
        let next = visit_of(timing, link, *frame);
        unit = common_divisor(unit, next.work);
    }
    unit
}

/// What frames come to on a link: the greatest common divisor of their works, how long it is idle between their first head and their
/// last end, and these; in nanoseconds.
#[derive(Clone, Copy)]
pub struct Hall {
    pub unit: u64,
    pub idle: u64,
    pub first: u64,
    pub last: u64,
}

pub fn hall_of(view: &View<'_>, link: usize, first: Frame, others: &[Frame]) -> Hall
    requires sound { IsSound view.now }
    requires possible { view.now.crossed ≡ false }
    requires on { All (IsFrameOn view.now.timing.now link) (first ∷ others.now) }
    requires few { length others.now ≤ 65_536 }
    ensures { IsHall view.now.timing.now (view_of view.now) link (first ∷ others.now) result }
{
    let load = load_with(view, link, first, others);
    let unit = unit_of(view.timing, link, first, others);
    let first = natural_of(load.head);
    let last = natural_of(load.end);
    let idle = last.saturating_sub(first + load.work);
    Hall {
        unit,
        idle,
        first,
        last,
    }
}

/// Frames that use a link, on a view, and what they come to there.
#[derive(Clone, Copy)]
pub struct Group<'a> {
    pub view: &'a View<'a>,
    pub link: usize,
    pub first: Frame,
    pub others: &'a [Frame],
    pub hall: Hall,
}

/// A room on a link, from low to high; in nanoseconds.
#[derive(Clone, Copy)]
pub struct Gap {
    pub low: u64,
    pub high: u64,
}

/// Whether a frame may lie in a room.
fn may_lie(view: &View<'_>, link: usize, frame: Frame, span: Span, gap: Gap) -> bool
    requires span { IsSpan view.now.timing.now (view_of view.now) link frame span }
    requires low { gap.low ≤ 4_000_000_000 }
    ensures { MatchBool result (may_lie view.now.timing.now (view_of view.now) link gap.low gap.high frame ≡ true)
        (may_lie view.now.timing.now (view_of view.now) link gap.low gap.high frame ≡ false) }
{
    let Span { head, end, work } = span;
    let Gap { low, high } = gap;
    if end < low + work {
        return false;
    }
    if high < head + work {
        return false;
    }
    true
}

/// How far from the begin of a room, or from its end, a frame is at least.
#[tactic(auto, unfolding(tsn_model::specs::Argument::from_left, tsn_model::specs::Argument::from_right))]
fn key_of(view: &View<'_>, link: usize, frame: Frame, span: Span, gap: Gap, is_left: bool) -> u64
    requires span { IsSpan view.now.timing.now (view_of view.now) link frame span }
    ensures { result ≡ key_on view.now.timing.now (view_of view.now) link gap.low gap.high is_left frame }
{
    if is_left {
        span.head.saturating_sub(gap.low)
    } else {
        gap.high.saturating_sub(span.end)
    }
}

/// Puts the row of a frame that may lie in a room: how far from its begin, or its end, it is, and its work.
fn put_frame(view: &View<'_>, link: usize, frame: Frame, gap: Gap, is_left: bool, rows: &mut Rows)
    requires sound { IsSound view.now }
    requires possible { view.now.crossed ≡ false }
    requires on { IsFrameOn view.now.timing.now link frame }
    requires low { gap.low ≤ 4_000_000_000 }
    requires few { length rows.old < 65_537 }
    ensures rows { rows.new ≡ rows_with view.now.timing.now (view_of view.now) link gap.low gap.high is_left frame rows.old }
    ensures low { AreLow rows.old → AreLow rows.new }
{
    let span = span_of(view, link, frame);
    if !may_lie(view, link, frame, span, gap) {
        return;
    }
    let key = key_of(view, link, frame, span, gap, is_left);
    rows.put(key, span.work);
}

/// The rows of the frames that may lie in a room, by falling keys.
fn collect(group: &Group<'_>, gap: Gap, is_left: bool, rows: &mut Rows)
    requires group { IsGroup group.now }
    requires low { gap.low ≤ 4_000_000_000 }
    ensures rows { rows.new ≡ rows_on (network_of group.now) (view_of group.now.view.now) group.now.link gap.low gap.high is_left (frames_of group.now) }
    ensures low { AreLow rows.new }
{
    let Group {
        view,
        link,
        first,
        others,
        ..
    } = *group;
    rows.clear();
    for step in 0..others.len() {
        let frame = others[others.len() - (step + 1)];
        put_frame(view, link, frame, gap, is_left, rows);
    }
    put_frame(view, link, first, gap, is_left, rows);
}

/// Tells what the frames fill of a room, from its begin or from its end; how many units that has.
pub fn tell(group: &Group<'_>, gap: Gap, is_left: bool, shelf: &mut Shelf) -> usize
    requires group { IsGroup group.now }
    requires low { gap.low ≤ 4_000_000_000 }
    requires high { gap.high ≤ 4_000_000_000 }
    ensures { IsTelling (network_of group.now) (view_of group.now.view.now) group.now.link (frames_of group.now) group.now.hall.unit gap.low gap.high is_left shelf.new result }
{
    collect(group, gap, is_left, &mut shelf.rows);
    let hall = group.hall;
    shelf.tell(hall.unit, hall.idle, gap.high.saturating_sub(gap.low))
}

/// What the frames leave at least of a room.
pub fn left_over(group: &Group<'_>, gap: Gap, shelf: &mut Shelf) -> u64
    requires group { IsGroup group.now }
    requires low { gap.low ≤ 4_000_000_000 }
    requires high { gap.high ≤ 4_000_000_000 }
    ensures value { result ≡ left_over (network_of group.now) (view_of group.now.view.now) group.now.link (frames_of group.now) gap.low gap.high (gap.high - gap.low) }
    ensures within { result ≤ gap.high - gap.low }
{
    let units = tell(group, gap, true, shelf);
    let told = Told {
        works: shelf.rows.list(),
        table: &shelf.table,
        unit: group.hall.unit,
        units,
    };
    let most = gap.high.saturating_sub(gap.low);
    told.wasted(most, most)
}

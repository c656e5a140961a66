//! The frames of a move on a link: whether they are right, and what they come to.
ghost use Rattle.std.specs.Prelude.{◌<◌, OnOk, ◌≡◌, ◌≤◌, ◌+◌, [], ◌∷◌, false, length, All, MatchBool};
ghost use Rattle.std.specs.Int.{int_min, int_max};
ghost use Rattle.tsn_model.specs.declared.bounds.TheConstants.{MAX_OCCUPANCY};
ghost use Rattle.tsn_model.specs.Timing.{separation};
ghost use Rattle.tsn_model.specs.Certificate.{IsFrameOn, begin_on, end_on};
ghost use Rattle.tsn_argue.specs.State.{view_of, IsSound};
ghost use Rattle.tsn_argue.specs.Loads.{IsLoad};
ghost use Rattle.tsn_argue.specs.Frames.{FindsOn, FindsFrame, FindsFrames, FindsChoice, FindsOne};

use crate::seen::Seen;
use crate::view::View;
use tsn_check::Wrong;
use tsn_model::Frame;
use tsn_timing::Timing;

/// Whether the stream is there, sends the frame and uses the link.
fn judge_on(timing: &Timing, link: usize, frame: Frame) -> Result<(), Wrong>
    ensures { FindsOn timing.now link frame result }
{
    let Frame { stream, shift } = frame;
    if stream >= timing.streams() {
        return Err(Wrong::NoStream(stream));
    }
    if !timing.is_shift(stream, shift) {
        return Err(Wrong::NoFrame(frame));
    }
    if timing.hop_on(stream, link).is_some() {
        Ok(())
    } else {
        Err(Wrong::NotOnLink { stream, link })
    }
}

/// Whether a frame is on the link, and is neither the first nor one that was seen; it is seen then.
fn judge_frame(
    timing: &Timing,
    link: usize,
    first: Frame,
    seen: &mut Seen,
    frame: Frame,
) -> Result<(), Wrong>
    requires { length seen.old < 65_536 }
    ensures { FindsFrame timing.now link first seen.old seen.new frame result }
{
    judge_on(timing, link, frame)?;
    if is_same(frame, first) {
        return Err(Wrong::Repeated(frame));
    }
    if seen.add(frame) {
        Ok(())
    } else {
        Err(Wrong::Repeated(frame))
    }
}

/// Whether the frames are on the link and different, and then those behind the first are seen; else what is wrong with the first
/// that isn't right.
pub fn judge_frames(
    timing: &Timing,
    link: usize,
    first: Frame,
    others: &[Frame],
    seen: &mut Seen,
) -> Result<(), Wrong>
    requires { length others.now ≤ 65_536 }
    ensures { FindsFrames timing.now link first others.now seen.new result }
{
    judge_on(timing, link, first)?;
    seen.clear();
    for frame in others {
        judge_frame(timing, link, first, seen, *frame)?;
    }
    Ok(())
}

/// Whether a frame is one of these frames, and none that was seen; it is seen then.
fn judge_one(frames: &Seen, seen: &mut Seen, frame: Frame) -> Result<(), Wrong>
    requires { length seen.old < 65_536 }
    ensures { FindsOne frames.now seen.old seen.new frame result }
{
    if !frames.has(frame) {
        return Err(Wrong::NotAmong(frame));
    }
    if seen.add(frame) {
        Ok(())
    } else {
        Err(Wrong::Repeated(frame))
    }
}

/// Whether some of the frames are each among these once; else what is wrong with the first that isn't.
pub fn judge_choice(frames: &Seen, some: &[Frame], seen: &mut Seen) -> Result<(), Wrong>
    requires some { 1 ≤ length some.now }
    requires few { length some.now ≤ 65_536 }
    ensures { FindsChoice frames.now some.now result }
{
    seen.clear();
    for frame in some {
        judge_one(frames, seen, *frame)?;
    }
    Ok(())
}

/// Whether the two are one frame.
pub fn is_same(one: Frame, other: Frame) -> bool
    ensures { MatchBool result (one ≡ other) (one ≡ other → ⊥) }
{
    one == other
}

/// When a frame starts on a link, counted from its stream's offset, and how long it keeps it, in nanoseconds.
#[derive(Clone, Copy)]
pub struct Visit {
    pub begin: u64,
    pub work: u64,
}

/// A frame on a link that its stream uses.
pub fn visit_of(timing: &Timing, link: usize, frame: Frame) -> Visit
    requires { IsFrameOn timing.now link frame }
    ensures begin { result.begin ≡ begin_on timing.now link frame }
    ensures end { result.begin + result.work ≡ end_on timing.now link frame }
    ensures work { result.work ≡ separation timing.now frame.stream link }
    ensures early { result.begin ≤ 1_500_000_000 }
    ensures short { result.work ≤ MAX_OCCUPANCY }
{
    // The limits of the network bound the shift.
    let _cycle = timing.cycle();
    let Some(hop) = timing.hop_on(frame.stream, link) else {
        unreachable!();
    };
    let begin = frame.shift + timing.start(frame.stream, hop);
    let work = timing.separation(frame.stream, hop);
    Visit { begin, work }
}

/// What frames come to on a link: before its head none starts, by its end each is done with it, and so long they keep it, one
/// after another; in nanoseconds.
#[derive(Clone, Copy)]
pub struct Load {
    pub head: i128,
    pub end: i128,
    pub work: u64,
}

impl Load {
    /// With one that comes to this.
    fn with(self, other: Load) -> Load
        requires { self.work + other.work ≤ 100_000_000_000 }
        ensures head { result.head ≡ int_min self.head other.head }
        ensures end { result.end ≡ int_max self.end other.end }
        ensures work { result.work ≡ self.work + other.work }
    {
        let head = self.head.min(other.head);
        let end = self.end.max(other.end);
        let work = self.work + other.work;
        Load { head, end, work }
    }
}

/// What one frame comes to.
pub fn load_of(view: &View<'_>, link: usize, frame: Frame) -> Load
    requires sound { IsSound view.now }
    requires possible { view.now.crossed ≡ false }
    requires on { IsFrameOn view.now.timing.now link frame }
    ensures { IsLoad view.now.timing.now (view_of view.now) link (frame ∷ []) result }
{
    let _cycle = view.timing.cycle();
    let Visit { begin, work } = visit_of(view.timing, link, frame);
    let low = view.low.at(frame.stream);
    let high = view.high.at(frame.stream);
    let head = low + begin as i128;
    let end = high + begin as i128 + work as i128;
    Load { head, end, work }
}

/// What a frame and others come to.
pub fn load_with(view: &View<'_>, link: usize, first: Frame, others: &[Frame]) -> Load
    requires sound { IsSound view.now }
    requires possible { view.now.crossed ≡ false }
    requires on { All (IsFrameOn view.now.timing.now link) (first ∷ others.now) }
    requires few { length others.now ≤ 65_536 }
    ensures { IsLoad view.now.timing.now (view_of view.now) link (first ∷ others.now) result }
{
    let mut load = load_of(view, link, first);
    for frame in others {
        let next = load_of(view, link, *frame);
        load = load.with(next);
    }
    load
}

/// What some frames come to.
pub fn load_all(view: &View<'_>, link: usize, frames: &[Frame]) -> Load
    requires sound { IsSound view.now }
    requires possible { view.now.crossed ≡ false }
    requires some { 1 ≤ length frames.now }
    requires on { All (IsFrameOn view.now.timing.now link) frames.now }
    requires few { length frames.now ≤ 65_536 }
    ensures { IsLoad view.now.timing.now (view_of view.now) link frames.now result }
{
    let [first, others @ ..] = frames else {
        unreachable!();
    };
    load_with(view, link, *first, others)
}

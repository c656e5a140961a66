//! Moves: the rules by which an argument goes on.
ghost use Rattle.std.specs.Prelude.{◌≡◌, Some};
ghost use Rattle.tsn_cert.specs.declared.motion.Move.TheVariants as form;
ghost use Rattle.tsn_cert.specs.Move.{placing_fits, placing_parts, placing_items, filling_fits, filling_parts, filling_items, wasting_fits, wasting_parts, wasting_items, move_fits, move_in, move_value};

use crate::chain::MAX_NUMBER;
use crate::limited::Limited;
use crate::limits;
use crate::listed::{Listed, Sequence};
use crate::order::{Order, Orders};
use crate::plan::MAX_TIME;
use tsn_model::Frame;

/// The most frames of a move.
pub const MAX_FRAMES: usize = 65_536;

/// Frames of a move.
pub type Frames = Listed<Frame, MAX_FRAMES>;

/// That a frame goes last or first on a link, of itself and others, and by which of the others its stream's offset is bounded.
#[derive(Drop)]
pub struct Placing {
    pub link: usize,
    pub frame: Frame,
    pub others: Frames,
    /// Some of the others.
    pub some: Frames,
}

impl Placing {
    fn fits(&self) -> bool
        ensures fits { result ≡ placing_fits self.now }
        ensures grammar { placing_parts (placing_items self.now) ≡ Some self.now }
    {
        let others = self.others.fit();
        let some = self.some.fit();
        self.link <= MAX_NUMBER && limits::frame_fits(self.frame) && others && some
    }
}

/// Where the room of a frame begins or ends: at another frame, or, without one, where that of all the frames does.
pub type Edge = Option<Frame>;

/// That sums of works of a frame and others leave too much of a room on a link, wherever the frame would begin before a time or
/// end after it, in nanoseconds.
#[derive(Drop)]
pub struct Filling {
    pub link: usize,
    pub frame: Frame,
    pub others: Frames,
    /// One of the others, or none.
    pub before: Edge,
    /// One of the others, or none.
    pub after: Edge,
    pub bound: u64,
}

impl Filling {
    #[tactic(auto, using(crate::proofs::MoveLemmas::filling_back))]
    fn fits(&self) -> bool
        ensures fits { result ≡ filling_fits self.now }
        ensures grammar { filling_parts (filling_items self.now) ≡ Some self.now }
    {
        let others = self.others.fit();
        let edges = limits::edge_fits(self.before) && limits::edge_fits(self.after);
        self.link <= MAX_NUMBER
            && limits::frame_fits(self.frame)
            && others
            && edges
            && self.bound <= MAX_TIME
    }
}

/// That sums of works of frames leave too much of the rooms on a link between some of them.
#[derive(Drop)]
pub struct Wasting {
    pub link: usize,
    pub frames: Frames,
    /// Some of the frames, in turn.
    pub fixed: Sequence<Frame>,
}

impl Wasting {
    #[tactic(auto, using(crate::proofs::MoveLemmas::wasting_back))]
    fn fits(&self) -> bool
        ensures fits { result ≡ wasting_fits self.now }
        ensures grammar { wasting_parts (wasting_items self.now) ≡ Some self.now }
    {
        let frames = self.frames.fit();
        let fixed = self.fixed.fit();
        self.link <= MAX_NUMBER && frames && fixed
    }
}

/// What narrows a view.
#[derive(Drop)]
pub enum Move {
    /// An order of the view bounds the offsets of its two streams.
    Go(Order),
    /// The other order is out of reach, so this one holds.
    Turn(Order),
    /// Of a clause that was shown before, by its number, all facts but one are contradicted.
    Use(usize),
    /// The flowspan is at least the stream's arrival.
    Arrive(usize),
    /// The frame goes last.
    Last(Placing),
    /// The frame goes first.
    First(Placing),
    /// On this link there is no room for these frames.
    Pack(usize, Frames),
    /// The orders lead back to where they begin, later than they began.
    Round(Orders),
    /// The first order is one of the view, and asks for the second one: of the same two streams, in the same direction, by no more.
    Follow(Order, Order),
    /// The frame begins no earlier.
    Fill(Filling),
    /// The frame ends no later.
    FillBack(Filling),
    /// The frames waste more of their rooms than they may.
    Waste(Wasting),
}

fn pack_fits(link: usize, frames: &Frames) -> bool
    ensures fits { result ≡ move_fits (form.Pack link frames.now) }
    ensures grammar { move_in (move_value (form.Pack link frames.now)) ≡ Some (form.Pack link frames.now) }
{
    let fits = frames.fit();
    link <= MAX_NUMBER && fits
}

#[tactic(auto, using(crate::proofs::MoveLemmas::follow_back))]
fn follow_fits(known: &Order, weaker: &Order) -> bool
    ensures fits { result ≡ move_fits (form.Follow known.now weaker.now) }
    ensures grammar { move_in (move_value (form.Follow known.now weaker.now)) ≡ Some (form.Follow known.now weaker.now) }
{
    let fits = weaker.fits();
    known.fits() && fits
}

impl Limited for Move {
    ghost use Rattle.tsn_cert.specs.Move.{move_form, move_fits, move_value};

    ghost form = { move_form };

    ghost within = { move_fits };

    ghost printed = { move_value };

    #[tactic(auto, using(crate::proofs::MoveLemmas::go_back, crate::proofs::MoveLemmas::turn_back, crate::proofs::MoveLemmas::last_back, crate::proofs::MoveLemmas::first_back, crate::proofs::MoveLemmas::round_back, crate::proofs::MoveLemmas::fill_moved, crate::proofs::MoveLemmas::fill_back_moved, crate::proofs::MoveLemmas::waste_moved))]
    fn fits(&self) -> bool {
        match self {
            Move::Go(order) => order.fits(),
            Move::Turn(order) => order.fits(),
            Move::Use(number) => *number <= MAX_NUMBER,
            Move::Arrive(stream) => *stream <= MAX_NUMBER,
            Move::Last(placing) => placing.fits(),
            Move::First(placing) => placing.fits(),
            Move::Pack(link, frames) => pack_fits(*link, frames),
            Move::Round(orders) => orders.fit(),
            Move::Follow(known, weaker) => follow_fits(known, weaker),
            Move::Fill(filling) => filling.fits(),
            Move::FillBack(filling) => filling.fits(),
            Move::Waste(wasting) => wasting.fits(),
        }
    }
}

/// The moves of a step, one after another.
pub type Moves = Sequence<Move>;

//! What is wrong with a fact or a move of an argument, with the numbers that show it.
ghost use Rattle.std.specs.Prelude.{◌≡◌};
ghost use Rattle.tsn_check.specs.Numbers.{wrong_code};

use crate::fault::CheckFault;
use tsn_model::{Decision, Frame};

/// What is wrong with a fact or a move. Times are in nanoseconds.
#[derive(Clone, Copy)]
pub enum Wrong {
    /// Nothing fits the view already.
    Crossed,
    /// There is no stream of this number.
    NoStream(usize),
    /// The stream doesn't use the link of this number.
    NotOnLink {
        stream: usize,
        link: usize,
    },
    /// The stream sends no such frame.
    NoFrame(Frame),
    /// The frame stands twice.
    Repeated(Frame),
    /// The decision's two streams have no such conflict on the link.
    NoConflict(Decision),
    /// The view doesn't have this decision.
    NoOrder(Decision),
    /// There is no clause of this number yet, but so many were shown.
    NoClause {
        number: usize,
        shown: usize,
    },
    /// The clause of this number has so many facts that the view doesn't contradict.
    Left {
        number: usize,
        left: usize,
    },
    /// The frame isn't one of the others.
    NotAmong(Frame),
    /// None of the others is chosen.
    NoneChosen,
    /// The orders don't lead back to where they begin, one after another.
    NotClosed,
    /// What the weights of the orders add up to, which isn't above 0.
    Weight(i64),
    /// By the other order the stream's offset is at least this number, which isn't above the most that it may be.
    InReach {
        stream: usize,
        least: i128,
        most: i128,
    },
    /// One order isn't of the streams of the other one, the same one first.
    OfOthers,
    /// The decision asks for more than the known one does.
    Stronger {
        decision: Decision,
        asked: i64,
        known: i64,
    },
    /// On the link of this number the frames have room: the instant at which they are done at the soonest isn't past the one by
    /// which all of them, or all others than the one that is to go last, are done at the latest.
    Room {
        link: usize,
        bound: i128,
        end: i128,
        of_others: bool,
    },
    /// The frame can still move.
    Movable(Frame),
    /// On the link of this number the frame may begin at this place, so far as sums of works tell.
    Open {
        link: usize,
        place: u64,
    },
    /// The frame doesn't begin behind the ones before it.
    OutOfTurn(Frame),
    /// On the link of this number the frames leave no more of their rooms than they may be idle there.
    Filled {
        link: usize,
        lost: u64,
        idle: u64,
    },
}

impl Wrong {
    /// The fault of a certificate that it is, in the step of this number.
    pub fn code(self, step: usize) -> CheckFault
        ensures { result ≡ wrong_code step self }
    {
        match self {
            Wrong::Crossed => CheckFault::TreeTooLong(step),
            Wrong::NoConflict(_) => CheckFault::NotConflict(step),
            Wrong::NoOrder(_)
            | Wrong::NoClause { .. }
            | Wrong::NotAmong(_)
            | Wrong::NoneChosen
            | Wrong::NotClosed => CheckFault::ChainBroken(step),
            Wrong::Left { .. }
            | Wrong::Weight(_)
            | Wrong::InReach { .. }
            | Wrong::OfOthers
            | Wrong::Stronger { .. }
            | Wrong::Room { .. }
            | Wrong::Movable(_)
            | Wrong::Open { .. }
            | Wrong::OutOfTurn(_)
            | Wrong::Filled { .. } => CheckFault::BoundTooLow(step),
            Wrong::Repeated(_) => CheckFault::StreamRepeated(step),
            Wrong::NoStream(_) | Wrong::NotOnLink { .. } | Wrong::NoFrame(_) => {
                CheckFault::NotOnLink(step)
            }
        }
    }
}

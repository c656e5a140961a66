//! The path from the root of the tree to the place that is open. It alone tells all open places: the others are the right
//! sides of its left turns.
ghost use Rattle.std.specs.Prelude.{◌≡◌, ◌∷◌, [], MatchBool};
ghost use Rattle.tsn_model.specs.Schedule.{IsConflict};
ghost use Rattle.tsn_model.specs.Places.{pending};
ghost use Rattle.tsn_check.specs.Turns.{IsTurn, AreTurns, decisions};

use tsn_model::{Arc, Decision, Side, Triple};
use tsn_timing::{Timing, arc_of};

/// A decision of the path, and what it asks of the offsets.
#[derive(Clone, Copy)]
pub struct Turn {
    pub decision: Decision,
    pub arc: Arc,
}

/// The turn to a side of a conflict.
pub fn turn_to(timing: &Timing, triple: Triple, side: Side) -> Turn
    requires { IsConflict timing.now triple }
    ensures turn { IsTurn timing.now result }
    ensures decision { result.decision ≡ record { triple = triple; side = side } }
{
    let decision = Decision { triple, side };
    Turn {
        decision,
        arc: arc_of(timing, decision),
    }
}

/// Goes on to the next open place: back over the right turns, and from the last left turn to its right side. False where
/// none waits.
pub fn next_place(timing: &Timing, path: &mut Vec<Turn>) -> bool
    requires { AreTurns timing.now path.old.items }
    ensures turns { AreTurns timing.now path.new.items }
    ensures next { MatchBool result
        (pending (decisions path.old.items) ≡ decisions path.new.items ∷ pending (decisions path.new.items))
        (pending (decisions path.old.items) ≡ []) }
{
    while let Some(last) = path.last_mut() {
        match last.decision.side {
            Side::Left => {
                *last = turn_to(timing, last.decision.triple, Side::Right);
                return true;
            }
            Side::Right => path.truncate(path.len() - 1),
        }
    }
    false
}

//! The view that the moves of an argument lead through, so that no move comes too late.
use tsn_bounds::known::{Known, is_impossible};
use tsn_bounds::literal::Literal;
use tsn_bounds::number::{FAR, NONE, at, index, less, put, sum};
use tsn_bounds::reason::{Filling, Placing};
use tsn_bounds::side::{bound_of, lead};
use tsn_bounds::table::Visit;

/// What a move comes to.
#[derive(Clone, Copy, PartialEq, Eq)]
pub enum Made {
    /// The view is narrower.
    Narrowed,
    /// The view is impossible.
    Impossible,
    /// The move can't be made.
    Wrong,
}

/// Narrows a view to where the literal holds.
pub fn narrow(view: &mut [i64], literal: Literal) {
    if at(view, literal.place()) < literal.least {
        put(view, literal.place(), literal.least);
    }
}

/// The other side's arc of a conflict can't be met: by its weight. Narrows the view to where the literal of its gap holds.
pub fn make_turn(known: &Known, view: &mut [i64], literal: Literal, weight: i64) -> Made {
    if !is_out_of_reach(known, view, literal, weight) {
        return Made::Wrong;
    }
    narrow(view, literal);
    judge(known, view)
}

/// Whether the arc between the streams of a literal's pair, in the other direction and of this weight, can't be met.
pub fn is_out_of_reach(known: &Known, view: &[i64], literal: Literal, weight: i64) -> bool {
    let arc = known.arc_by(literal.bound ^ 1, weight, true);
    let least = sum(at(view, arc.from as usize), weight);
    least > at(view, (arc.to ^ 1) as usize).wrapping_neg()
}

/// Makes the view impossible.
pub fn make_impossible(known: &Known, view: &mut [i64]) -> Made {
    let span = known.span();
    let most = at(view, (span ^ 1) as usize).wrapping_neg();
    narrow(view, Literal::of(span, sum(most, 1)));
    Made::Impossible
}

fn judge(known: &Known, view: &[i64]) -> Made {
    if is_impossible(view, known.times as usize) {
        Made::Impossible
    } else {
        Made::Narrowed
    }
}

/// Makes the move of an arc between the streams of a gap's pair, by its weight.
pub fn make_go(known: &Known, view: &mut [i64], gap: u32, weight: i64) -> Made {
    for is_least in [true, false] {
        let arc = known.arc_by(gap, weight, is_least);
        let least = sum(at(view, arc.from as usize), weight);
        narrow(view, Literal::of(arc.to, least));
    }
    judge(known, view)
}

/// Makes the move of an arrival.
pub fn make_arrival(known: &Known, view: &mut [i64], stream: usize) -> Made {
    let arrival = known.table.arrival(stream);
    let own = stream.wrapping_mul(2);
    let span = known.span();
    let done = sum(at(view, own), arrival);
    let until = sum(at(view, (span ^ 1) as usize), arrival);
    narrow(view, Literal::of(span, done));
    narrow(view, Literal::of(index(own) ^ 1, until));
    judge(known, view)
}

/// What the view leaves of a clause: one literal, or none; else it can't be used.
pub fn left_of(known: &Known, view: &[i64], shown: usize) -> Result<Option<Literal>, ()> {
    let mut left = None;
    for literal in known.record.literals(shown) {
        if !is_contradicted(view, *literal) {
            if left.is_some() {
                return Err(());
            }
            left = Some(*literal);
        }
    }
    Ok(left)
}

/// Whether the view's numbers contradict a literal.
pub fn is_contradicted(view: &[i64], literal: Literal) -> bool {
    let opposite = literal.opposite();
    at(view, opposite.place()) >= opposite.least
}

/// Makes the move of what is left of a clause.
pub fn make_use(known: &Known, view: &mut [i64], left: Option<Literal>) -> Made {
    match left {
        None => make_impossible(known, view),
        Some(literal) => {
            narrow(view, literal);
            judge(known, view)
        }
    }
}

/// Makes the move of a placing of these others.
pub fn make_placing(known: &Known, view: &mut [i64], placing: Placing, others: &[u16]) -> Made {
    let link = placing.link as usize;
    let side = placing.side;
    let own = known.table.visit(link, placing.place);
    let mut all = stay_of(known, view, link, side, others);
    let some = stay_of(known, view, link, side, behind(others, placing.idle));
    all.begin = all.begin.min(head_of(view, own, side));
    all.work = sum(all.work, own.work);
    if !all.is_too_long() {
        return Made::Wrong;
    }
    let offset = less(sum(some.begin, some.work), lead(own, side));
    narrow(view, Literal::of(bound_of(own, side), offset));
    judge(known, view)
}

/// All but the first ones, so many.
pub fn behind(places: &[u16], count: usize) -> &[u16] {
    if count <= places.len() {
        &places[count..]
    } else {
        &[]
    }
}

/// Whether frames don't fit where a view leaves them on a link.
pub fn is_overfull(known: &Known, view: &[i64], link: usize, frames: &[u16]) -> bool {
    stay_of(known, view, link, 0, frames).is_too_long()
}

/// Makes the move that a frame can't start before an instant of a room, or none where the view has it at that already, or past it. Answers
/// the instant too, as seen from the filling's side.
pub fn make_filling(
    known: &Known,
    view: &mut [i64],
    filling: Filling,
    frames: &[u16],
) -> (Made, Option<i64>) {
    let link = filling.link as usize;
    let side = filling.side;
    let own = known.table.visit(link, filling.place);
    let high = if filling.after == NONE {
        stay_of(known, view, link, side, frames).end
    } else {
        let last = known.table.visit(link, filling.after as usize);
        head_of(view, last, side)
    };
    let place = filling.head.min(less(sum(high, 1), own.work));
    if place <= head_of(view, own, side) {
        return (judge(known, view), None);
    }
    let offset = less(place, lead(own, side));
    narrow(view, Literal::of(bound_of(own, side), offset));
    (judge(known, view), Some(place))
}

// When frames are on a link, as seen from a side.
fn stay_of(known: &Known, view: &[i64], link: usize, side: u32, places: &[u16]) -> Stay {
    let mut stay = Stay {
        begin: FAR,
        work: 0,
        end: -FAR,
    };
    for place in places {
        let visit = known.table.visit(link, *place as usize);
        stay.begin = stay.begin.min(head_of(view, visit, side));
        stay.work = sum(stay.work, visit.work);
        stay.end = stay.end.max(end_of(view, visit, side));
    }
    stay
}

// The least head of frames on a link, their work, and their greatest end.
#[derive(Clone, Copy)]
struct Stay {
    begin: i64,
    work: i64,
    end: i64,
}

impl Stay {
    fn is_too_long(self) -> bool {
        sum(self.begin, self.work) > self.end
    }
}

fn head_of(view: &[i64], visit: Visit, side: u32) -> i64 {
    sum(at(view, bound_of(visit, side) as usize), lead(visit, side))
}

fn end_of(view: &[i64], visit: Visit, side: u32) -> i64 {
    let bound = at(view, (bound_of(visit, side) ^ 1) as usize);
    less(sum(lead(visit, side), visit.work), bound)
}

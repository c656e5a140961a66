//! A frame on a link as seen from one of its sides: its stream's bounds as heads and ends. A frame's head is the least instant at which
//! it may start on the link, its end the greatest at which its occupancy may end. Seen from the end of the cycle, on side 1, each
//! number's sign is turned and heads are ends. Times are in nanoseconds.
use crate::literal::Literal;
use crate::number::{index, less, sum};
use crate::table::Visit;

/// The bound that gives a frame's head, as seen from a side.
pub fn bound_of(visit: Visit, side: u32) -> u32 {
    index(visit.stream.wrapping_mul(2)).wrapping_add(side)
}

/// How much a frame's head on a link is more than its stream's bound, as seen from a side.
pub fn lead(visit: Visit, side: u32) -> i64 {
    if side == 0 {
        visit.start
    } else {
        sum(visit.start, visit.work).wrapping_neg()
    }
}

/// That a frame's head is at least this.
pub fn head_literal(visit: Visit, side: u32, head: i64) -> Literal {
    Literal::of(bound_of(visit, side), less(head, lead(visit, side)))
}

/// That a frame's end is at most this.
pub fn end_literal(visit: Visit, side: u32, end: i64) -> Literal {
    let least = less(sum(lead(visit, side), visit.work), end);
    Literal::of(bound_of(visit, side) ^ 1, least)
}

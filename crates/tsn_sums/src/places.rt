//! Where work may begin in a room that others fill before and after it.
ghost use Rattle.std.specs.Prelude.{◌≡◌, ℕ, ◌≤◌, ◌<◌, ◌+◌, ◌-◌, ◌*◌, ◌/◌, ◌^◌, MatchBool, MatchOption};
ghost use Rattle.tsn_model.specs.Argument.{wasted};
ghost use Rattle.tsn_sums.specs.Sums.{IsUnit};
ghost use Rattle.tsn_sums.specs.Places.{IsTold, IsSmall, IsFull, AreFull, IsFirstOpen};

use crate::table::{MOST_UNITS, Table};

/// What some works fill of a room, as a table tells for so many units.
#[derive(Clone, Copy)]
pub struct Told<'a> {
    pub works: &'a [(u64, u64)],
    pub table: &'a Table,
    pub unit: u64,
    pub units: usize,
}

impl Told<'_> {
    /// What the works waste of a room.
    pub fn wasted(&self, most: u64, room: u64) -> u64
        requires told { IsTold self.now most }
        requires within { room ≤ most }
        ensures value { result ≡ wasted self.now.unit self.now.works.now room }
        ensures low { result ≤ room }
    {
        let Told {
            works,
            table,
            unit,
            units,
        } = *self;
        table.wasted(works, unit, units, room)
    }
}

/// A room from low to high in which there may be so much idle time, and the work that has its place there; in nanoseconds.
#[derive(Clone, Copy)]
pub struct Room {
    pub idle: u64,
    pub low: u64,
    pub high: u64,
    pub work: u64,
}

/// Whether work that begins at x is in the room, and leaves more than the idle time before and after it.
fn is_full(left: Told<'_>, right: Told<'_>, room: Room, x: u64) -> bool
    requires left { IsTold left (room.high - room.low) }
    requires right { IsTold right (room.high - room.low) }
    requires same { right.unit ≡ left.unit }
    requires small { IsSmall room }
    ensures { MatchBool result (IsFull left.entry.unit left.entry.works.now right.entry.works.now room.idle room.low room.high room.work x)
        (IsFull left.entry.unit left.entry.works.now right.entry.works.now room.idle room.low room.high room.work x → ⊥) }
{
    let Room {
        idle,
        low,
        high,
        work,
    } = room;
    if x < low || x > high {
        return false;
    }
    let end = x + work;
    if end > high {
        return false;
    }
    let most = high - low;
    let before = left.wasted(most, x - low);
    let after = right.wasted(most, high - end);
    idle < before + after
}

/// Up to where it is the same, from a place on where it is so.
fn next_place(left: Told<'_>, right: Told<'_>, room: Room, x: u64) -> u64
    requires left { IsTold left (room.high - room.low) }
    requires right { IsTold right (room.high - room.low) }
    requires same { right.unit ≡ left.unit }
    requires small { IsSmall room }
    requires full { IsFull left.unit left.works.now right.works.now room.idle room.low room.high room.work x }
    ensures further { x < result }
    ensures full { AreFull left.entry.unit left.entry.works.now right.entry.works.now room.idle room.low room.high room.work x result }
{
    let Room {
        idle,
        low,
        high,
        work,
    } = room;
    let part = x - low;
    if part >= MOST_UNITS * left.unit {
        // Nothing is wasted before any place further on, so the jump ends where what is wasted after it is down to the idle time.
        let after = right.wasted(high - low, high - (x + work));
        let more = after.saturating_sub(idle);
        return x + more.max(1);
    }
    let next = (part / left.unit + 1) * left.unit + low;
    let end = high - work + 1;
    next.min(end)
}

/// The first place of these where the work may begin, if there is one: where it isn't in the room, or doesn't leave more than the
/// idle time.
pub fn first_open(left: Told<'_>, right: Told<'_>, room: Room, from: u64, until: u64) -> Option<u64>
    requires left { IsTold left (room.high - room.low) }
    requires right { IsTold right (room.high - room.low) }
    requires same { right.unit ≡ left.unit }
    requires small { IsSmall room }
    ensures { MatchOption result (AreFull left.entry.unit left.entry.works.now right.entry.works.now room.idle room.low room.high room.work from until)
        (IsFirstOpen left.entry.unit left.entry.works.now right.entry.works.now room.idle room.low room.high room.work from until) }
{
    let mut place = from;
    while place < until {
        if !is_full(left, right, room, place) {
            return Some(place);
        }
        place = next_place(left, right, room, place);
    }
    None
}

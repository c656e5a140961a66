//! Reads the numbers of a network. Times are in nanoseconds.
ghost use Rattle.std.specs.Prelude.{◌<◌};
ghost use Rattle.tsn_model.specs.Network.{stream_count};

use std::alloc::{AllocError, Global};
use tsn_bounds::number::{NONE, index, index_at, less, next, push, put_index, signed, sum};
use tsn_bounds::table::{Block, Body, Conflict, NO_VISIT, Pair, Shared, Stays, Table, Visit};
use tsn_timing::Timing;
use tsn_timing::users::User;

/// The numbers of a network, as far as they matter for schedules of at most this flowspan. The error says that there was no memory.
pub fn table_of(alloc: Global, timing: &Timing, most: i64) -> Result<Table, AllocError> {
    let mut table = Table::none(alloc, most);
    match fill_table(&mut table, alloc, timing) {
        Ok(()) => Ok(table),
        Err(error) => {
            drop(table);
            Err(error)
        }
    }
}

fn fill_table(table: &mut Table, alloc: Global, timing: &Timing) -> Result<(), AllocError> {
    note_ways(table, alloc, timing)?;
    note_bodies(&mut table.bodies, timing)?;
    note_pairs(table, alloc, timing)?;
    table.note_rivals(alloc)
}

// The links that matter, and where each stream goes.
fn note_ways(table: &mut Table, alloc: Global, timing: &Timing) -> Result<(), AllocError> {
    let mut places = Vec::new(alloc);
    places.resize(timing.links(), NONE)?;
    note_links(&mut table.links, alloc, timing, &mut places)?;
    note_stays(&mut table.stays, alloc, timing, &places)
}

fn note_stays(
    list: &mut Vec<Stays>,
    alloc: Global,
    timing: &Timing,
    places: &[u32],
) -> Result<(), AllocError> {
    for stream in 0..timing.streams() {
        let stays = stays_of(alloc, timing, stream, places)?;
        push(list, stays)?;
    }
    Ok(())
}

fn note_bodies(bodies: &mut Vec<Body>, timing: &Timing) -> Result<(), AllocError> {
    for stream in 0..timing.streams() {
        push(bodies, body_of(timing, stream))?;
    }
    Ok(())
}

fn body_of(timing: &Timing, stream: usize) -> Body
    requires { stream < stream_count timing.now }
{
    let window = timing.window(stream);
    Body {
        release: signed(window.least),
        arrival: signed(timing.arrival(stream)),
        latest: window.greatest,
    }
}

fn note_links(
    links: &mut Vec<Shared>,
    alloc: Global,
    timing: &Timing,
    places: &mut [u32],
) -> Result<(), AllocError> {
    for link in 0..timing.links() {
        let on = timing.users(link);
        if on.len() > 1 {
            let visits = visits_of(alloc, timing, on)?;
            note_link(links, link, visits, places)?;
        }
    }
    Ok(())
}

// A link that several streams use, where they send three frames or more on it.
fn note_link(
    links: &mut Vec<Shared>,
    link: usize,
    visits: Vec<Visit>,
    places: &mut [u32],
) -> Result<(), AllocError> {
    if visits.len() > 2 {
        put_index(places, link, index(links.len()));
        let shared = Shared {
            number: link,
            visits,
        };
        push(links, shared)?;
    }
    Ok(())
}

fn visits_of(alloc: Global, timing: &Timing, on: &[User]) -> Result<Vec<Visit>, AllocError> {
    let common = common_period(timing, on);
    let mut visits = Vec::new(alloc);
    for user in on {
        note_frames(&mut visits, timing, first_of(timing, *user), common)?;
    }
    Ok(visits)
}

// After how long all frames of a link come again.
fn common_period(timing: &Timing, on: &[User]) -> i64 {
    let mut common = 1i64;
    for user in on {
        if user.stream < timing.streams() {
            common = common_multiple(common, signed(timing.period(user.stream)));
        }
    }
    common
}

fn common_multiple(one: i64, other: i64) -> i64 {
    match one.checked_div(common_divisor(one, other)) {
        Some(parts) => parts.wrapping_mul(other),
        None => other,
    }
}

fn common_divisor(one: i64, other: i64) -> i64 {
    let mut greater = one;
    let mut lesser = other;
    for _ in 0..128 {
        let Some(rest) = greater.checked_rem(lesser) else {
            break;
        };
        greater = lesser;
        lesser = rest;
    }
    greater
}

// The first frame of a stream at a hop.
fn first_of(timing: &Timing, user: User) -> Visit {
    let User { stream, hop } = user;
    if stream >= timing.streams() || hop >= timing.hops(stream) {
        return NO_VISIT;
    }
    Visit {
        stream,
        shift: 0,
        start: signed(timing.start(stream, hop)),
        work: signed(timing.separation(stream, hop)),
    }
}

// The frames of a stream on a link that are sent before an instant, were the offset 0; by the first one.
fn note_frames(
    visits: &mut Vec<Visit>,
    timing: &Timing,
    first: Visit,
    before: i64,
) -> Result<(), AllocError> {
    if first.stream >= timing.streams() {
        return Ok(());
    }
    for shift in timing.shifts(first.stream) {
        let shift = signed(*shift);
        if shift < before {
            let visit = Visit {
                shift,
                start: sum(first.start, shift),
                ..first
            };
            push(visits, visit)?;
        }
    }
    Ok(())
}

fn stays_of(
    alloc: Global,
    timing: &Timing,
    stream: usize,
    places: &[u32],
) -> Result<Stays, AllocError> {
    let mut links = Vec::new(alloc);
    if stream < timing.streams() {
        for hop in 0..timing.hops(stream) {
            let place = index_at(places, timing.route_link(stream, hop));
            if place != NONE {
                push(&mut links, place)?;
            }
        }
    }
    Ok(Stays { links })
}

// Two streams, by how much the right one's offset may be more than the left one's at least and at most, and a link of both.
#[derive(Clone, Copy)]
struct Meeting {
    least: i64,
    greatest: i64,
    link: usize,
    left: Visit,
    right: Visit,
}

// A stream on a link of another one, of a lesser number, with the hops of both.
#[derive(Clone, Copy)]
struct Rivalry {
    right: usize,
    left_hop: usize,
    right_hop: usize,
}

// Two streams, and which of the rivalries are theirs.
#[derive(Clone, Copy)]
struct Couple {
    left: usize,
    right: usize,
    from: usize,
    to: usize,
}

// Lists that are filled again and again: for each stream its rivalries, for each pair the others.
#[derive(Drop)]
struct Lists {
    rivalries: Vec<Rivalry>,
    lags: Vec<i64>,
    conflicts: Vec<Conflict>,
}

fn note_pairs(table: &mut Table, alloc: Global, timing: &Timing) -> Result<(), AllocError> {
    let mut lists = Lists {
        rivalries: Vec::new(alloc),
        lags: Vec::new(alloc),
        conflicts: Vec::new(alloc),
    };
    lists.note_all(table, timing)
}

impl Lists {
    fn note_all(&mut self, table: &mut Table, timing: &Timing) -> Result<(), AllocError> {
        for left in 0..timing.streams() {
            self.note_pairs_of(table, timing, left)?;
        }
        Ok(())
    }

    // The pairs of a stream with those of greater numbers.
    fn note_pairs_of(
        &mut self,
        table: &mut Table,
        timing: &Timing,
        left: usize,
    ) -> Result<(), AllocError> {
        self.rivalries.clear();
        note_rivalries(&mut self.rivalries, timing, left)?;
        let mut from: usize = 0;
        for place in 0..self.rivalries.len() {
            let to = next(place);
            let right = right_at(&self.rivalries, place);
            if right_at(&self.rivalries, to) == right {
                continue;
            }
            let couple = Couple {
                left,
                right,
                from,
                to,
            };
            self.collect(table, timing, couple)?;
            note_pair(table, left, right, &self.conflicts)?;
            from = to;
        }
        Ok(())
    }

    // The conflicts of two streams that can be met.
    fn collect(
        &mut self,
        table: &Table,
        timing: &Timing,
        couple: Couple,
    ) -> Result<(), AllocError> {
        let Couple { left, right, .. } = couple;
        self.conflicts.clear();
        if left >= timing.streams() || right >= timing.streams() {
            return Ok(());
        }
        note_lags(&mut self.lags, timing, left, right)?;
        for rivalry in some_of(&self.rivalries, couple.from, couple.to) {
            let meeting = meeting_of(table, timing, left, *rivalry);
            note_conflicts(&mut self.conflicts, &self.lags, meeting)?;
        }
        self.conflicts
            .sort_unstable_by_key(|conflict: &Conflict| conflict.right_first.wrapping_neg());
        Ok(())
    }
}

// The right stream of a rivalry; none that there is behind the last one.
fn right_at(rivalries: &[Rivalry], place: usize) -> usize {
    match rivalries.get(place) {
        Some(rivalry) => rivalry.right,
        None => usize::MAX,
    }
}

// Those from one place up to another one.
fn some_of(rivalries: &[Rivalry], from: usize, to: usize) -> &[Rivalry] {
    if from <= to && to <= rivalries.len() {
        &rivalries[from..to]
    } else {
        &[]
    }
}

// Who of greater number uses a stream's links.
fn note_rivalries(
    rivalries: &mut Vec<Rivalry>,
    timing: &Timing,
    left: usize,
) -> Result<(), AllocError> {
    if left >= timing.streams() {
        return Ok(());
    }
    for left_hop in 0..timing.hops(left) {
        for user in timing.users(timing.route_link(left, left_hop)) {
            if user.stream > left {
                let rivalry = Rivalry {
                    right: user.stream,
                    left_hop,
                    right_hop: user.hop,
                };
                push(rivalries, rivalry)?;
            }
        }
    }
    rivalries.sort_unstable_by_key(|it: &Rivalry| (it.right, it.left_hop));
    Ok(())
}

fn meeting_of(table: &Table, timing: &Timing, left: usize, rivalry: Rivalry) -> Meeting {
    let right = rivalry.right;
    let one = User {
        stream: left,
        hop: rivalry.left_hop,
    };
    let other = User {
        stream: right,
        hop: rivalry.right_hop,
    };
    Meeting {
        least: less(low_of(table, right), high_of(table, left)),
        greatest: less(high_of(table, right), low_of(table, left)),
        link: link_of(timing, one),
        left: first_of(timing, one),
        right: first_of(timing, other),
    }
}

// The link of a stream's hop; 0 where there is none.
fn link_of(timing: &Timing, user: User) -> usize {
    let User { stream, hop } = user;
    if stream < timing.streams() && hop < timing.hops(stream) {
        timing.route_link(stream, hop)
    } else {
        0
    }
}

fn low_of(table: &Table, stream: usize) -> i64 {
    match table.bodies.get(stream) {
        Some(body) => body.release,
        None => 0,
    }
}

fn high_of(table: &Table, stream: usize) -> i64 {
    match table.bodies.get(stream) {
        Some(body) => body.latest.min(less(table.most, body.arrival)),
        None => 0,
    }
}

// By how much frames of the right stream come after frames of the left one that they may meet, were both offsets 0, each once.
fn note_lags(
    lags: &mut Vec<i64>,
    timing: &Timing,
    left: usize,
    right: usize,
) -> Result<(), AllocError>
    requires left { left < stream_count timing.now }
    requires right { right < stream_count timing.now }
{
    lags.clear();
    let most = signed(timing.period(left));
    let least = signed(timing.period(right)).wrapping_neg();
    for first in timing.shifts(left) {
        let first = signed(*first);
        for second in timing.shifts_between(right, sum(first, least), sum(first, most)) {
            let lag = less(signed(*second), first);
            if least < lag && lag < most {
                push(lags, lag)?;
            }
        }
    }
    lags.sort_unstable();
    lags.dedup();
    Ok(())
}

// The conflicts of two streams on a link.
fn note_conflicts(
    conflicts: &mut Vec<Conflict>,
    lags: &[i64],
    meeting: Meeting,
) -> Result<(), AllocError> {
    let left_first = less(
        sum(meeting.left.start, meeting.left.work),
        meeting.right.start,
    );
    let right_first = less(
        sum(meeting.right.start, meeting.right.work),
        meeting.left.start,
    );
    for lag in lags {
        let conflict = Conflict {
            link: meeting.link,
            lag: *lag,
            left_first: less(left_first, *lag),
            right_first: sum(right_first, *lag),
        };
        if conflict.left_first > meeting.least
            && conflict.right_first.wrapping_neg() < meeting.greatest
        {
            push(conflicts, conflict)?;
        }
    }
    Ok(())
}

// The pair of two streams, with its blocks.
fn note_pair(
    table: &mut Table,
    left: usize,
    right: usize,
    conflicts: &[Conflict],
) -> Result<(), AllocError> {
    if conflicts.is_empty() {
        return Ok(());
    }
    let start = table.blocks.len();
    let first = table.conflicts.len();
    note_least(&mut table.conflicts, conflicts)?;
    for number in first..table.conflicts.len() {
        note_block(table, start, number)?;
    }
    let pair = Pair {
        left,
        right,
        start,
        count: table.blocks.len().wrapping_sub(start),
    };
    push(&mut table.pairs, pair)
}

// Those of the conflicts that forbid something that no other one does.
fn note_least(list: &mut Vec<Conflict>, conflicts: &[Conflict]) -> Result<(), AllocError> {
    let mut top = i64::MIN;
    let mut begin = i64::MIN;
    for conflict in conflicts {
        if conflict.left_first <= top {
            continue;
        }
        if top > i64::MIN && conflict.right_first == begin {
            let _ = list.pop();
        }
        top = conflict.left_first;
        begin = conflict.right_first;
        push(list, *conflict)?;
    }
    Ok(())
}

// Joins a conflict with the block before it, where they overlap; else it begins a block.
fn note_block(table: &mut Table, start: usize, number: usize) -> Result<(), AllocError> {
    let conflict = table.conflict(number);
    let count = table.blocks.len();
    if count > start {
        if let Some(block) = table.blocks.last_mut() {
            if block.left_first > conflict.right_first.wrapping_neg() {
                block.left_first = conflict.left_first;
                block.last = number;
                return Ok(());
            }
        }
    }
    let block = Block {
        left_first: conflict.left_first,
        right_first: conflict.right_first,
        first: number,
        last: number,
    };
    push(&mut table.blocks, block)
}

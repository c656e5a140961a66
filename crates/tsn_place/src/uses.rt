//! Who uses which link.
ghost use Rattle.std.specs.Prelude.{◌<◌};
ghost use Rattle.tsn_model.specs.Network.{stream_count};

use std::alloc::{AllocError, Global};
use tsn_bounds::number::{item_at, push, signed};
use tsn_timing::Timing;

/// A stream on a link. Times are from its offset on.
#[derive(Clone, Copy)]
pub struct Use {
    pub link: usize,
    pub stream: usize,
    pub period: i64,
    /// When the first frame of a period starts on the link.
    pub start: i64,
    /// How long a frame keeps others from it.
    pub work: i64,
    /// How many frames a period has, and how long after each other they start.
    pub burst: u64,
    pub pace: i64,
    /// How much it has to carry in a cycle.
    pub load: i64,
}

/// No use.
pub const NO_USE: Use = Use {
    link: 0,
    stream: 0,
    period: 1,
    start: 0,
    work: 0,
    burst: 0,
    pace: 0,
    load: 0,
};

/// The uses of all links, by links and periods.
pub fn uses_of(alloc: Global, timing: &Timing) -> Result<Vec<Use>, AllocError> {
    let mut uses = Vec::new(alloc);
    for stream in 0..timing.streams() {
        note_uses(&mut uses, timing, stream)?;
    }
    uses.sort_unstable_by_key(|one: &Use| (one.link, one.period, one.stream));
    Ok(uses)
}

fn note_uses(uses: &mut Vec<Use>, timing: &Timing, stream: usize) -> Result<(), AllocError>
    requires { stream < stream_count timing.now }
{
    let burst = timing.burst(stream);
    let frames = signed(burst.wrapping_mul(timing.turns(stream)));
    for hop in 0..timing.hops(stream) {
        let work = signed(timing.separation(stream, hop));
        let one = Use {
            link: timing.route_link(stream, hop),
            stream,
            period: signed(timing.period(stream)),
            start: signed(timing.start(stream, hop)),
            work,
            burst,
            pace: signed(timing.pace(stream)),
            load: work.wrapping_mul(frames),
        };
        push(uses, one)?;
    }
    Ok(())
}

/// The place behind the uses of the same link as the one at this place.
pub fn end_of(uses: &[Use], from: usize) -> usize {
    let link = use_at(uses, from).link;
    for place in from..uses.len() {
        if uses[place].link != link {
            return place;
        }
    }
    uses.len()
}

/// The use of this place.
pub fn use_at(uses: &[Use], place: usize) -> Use {
    item_at(uses, place, NO_USE)
}

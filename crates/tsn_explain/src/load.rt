//! Frames that keep a link together.
use crate::network::TimedNetwork;
use tsn_argue::View;
use tsn_model::Frame;

/// What frames come to on a link, in nanoseconds.
#[derive(Clone, Copy)]
pub struct Load {
    /// The earliest start of one of them there.
    pub head: i128,
    /// How long they keep it together.
    pub work: i128,
    /// The latest instant until which one of them keeps it.
    pub end: i128,
    /// How long after it has kept it the last of them arrives at least.
    pub tail: i128,
}

impl Load {
    /// What no frames come to.
    pub fn none() -> Load {
        Load {
            head: i128::MAX,
            work: 0,
            end: i128::MIN,
            tail: i128::MAX,
        }
    }

    /// With one more frame, whose stream has an offset from the least to the greatest one.
    pub fn with(
        self,
        network: TimedNetwork<'_>,
        link: usize,
        frame: Frame,
        (least, greatest): (i128, i128),
    ) -> Load {
        let visit = network.visit(frame, link);
        let work = visit.end.wrapping_sub(visit.begin);
        let tail = network.times(frame.stream).arrival.wrapping_sub(visit.end);
        Load {
            head: self.head.min(least.wrapping_add(visit.begin)),
            work: self.work.wrapping_add(work),
            end: self.end.max(greatest.wrapping_add(visit.end)),
            tail: self.tail.min(tail),
        }
    }

    /// What frames come to by the offsets of a view.
    pub fn of(network: TimedNetwork<'_>, view: &View<'_>, link: usize, frames: &[Frame]) -> Load {
        let mut load = Load::none();
        for frame in frames {
            let offsets = (view.least(frame.stream), view.greatest(frame.stream));
            load = load.with(network, link, *frame, offsets);
        }
        load
    }

    /// The soonest that the link is free again.
    pub fn free(self) -> i128 {
        self.head.wrapping_add(self.work)
    }

    /// Before this not all of the frames have arrived.
    pub fn bound(self) -> i128 {
        self.free().wrapping_add(self.tail)
    }
}

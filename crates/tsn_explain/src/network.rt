//! A network's names and times, where what isn't there has the name '?' and the time 0.
use tsn_model::{Decision, Frame, Link, Side, Triple};
use tsn_timing::{Problem, Timing, arc_of, arrival_words, is_conflict};

/// A network and its times, in nanoseconds.
#[derive(Clone, Copy)]
pub struct TimedNetwork<'a> {
    pub problem: &'a Problem,
    pub timing: &'a Timing,
}

/// When a frame starts on a link, and until when it keeps it, counted from its stream's offset.
#[derive(Clone, Copy, Default)]
pub struct Visit {
    pub begin: i128,
    pub end: i128,
}

/// The times of a stream.
#[derive(Clone, Copy, Default)]
pub struct Times {
    /// The least offset, and the greatest one with which the stream is done within its period and arrives in time.
    pub release: i128,
    pub latest_offset: i128,
    /// By when it has to arrive.
    pub latest: i128,
    pub period: i128,
    /// When the last frame of a period arrives, and when the frames keep no link any more, counted from the offset.
    pub arrival: i128,
    pub span: i128,
}

impl<'a> TimedNetwork<'a> {
    /// The name of a stream.
    pub fn name(self, stream: usize) -> &'a str {
        if stream < self.problem.streams() {
            self.problem.stream_name(stream)
        } else {
            "?"
        }
    }

    /// The names of the nodes that a link joins.
    pub fn ends(self, link: usize) -> (&'a str, &'a str) {
        let problem = self.problem;
        if link < problem.links() {
            let Link { from, to, .. } = problem.link(link);
            if from < problem.nodes() && to < problem.nodes() {
                return (problem.node_name(from), problem.node_name(to));
            }
        }
        ("?", "?")
    }

    /// When a frame is on a link.
    pub fn visit(self, frame: Frame, link: usize) -> Visit {
        let timing = self.timing;
        let stream = frame.stream;
        if stream >= timing.streams() {
            return Visit::default();
        }
        match timing.hop_on(stream, link) {
            Some(hop) if hop < timing.hops(stream) => {
                let begin = frame.shift as i128 + timing.start(stream, hop) as i128;
                let end = begin + timing.separation(stream, hop) as i128;
                Visit { begin, end }
            }
            _ => Visit::default(),
        }
    }

    /// The times of a stream.
    pub fn times(self, stream: usize) -> Times {
        let timing = self.timing;
        if stream >= timing.streams() {
            return Times::default();
        }
        Times {
            release: timing.release(stream) as i128,
            latest_offset: timing.window(stream).greatest as i128,
            latest: timing.latest(stream) as i128,
            period: timing.period(stream) as i128,
            arrival: timing.arrival(stream) as i128,
            span: timing.span(stream) as i128,
        }
    }

    /// By how much a stream that goes first on a link has to start before the other one.
    pub fn weight(self, decision: Decision) -> i128 {
        if is_conflict(self.timing, decision.triple) {
            arc_of(self.timing, decision).weight as i128
        } else {
            0
        }
    }

    pub fn cycle(self) -> i128 {
        self.timing.cycle() as i128
    }

    /// How long after its offset a stream sends each of its frames.
    pub fn shifts(self, stream: usize) -> &'a [u64] {
        if stream < self.timing.streams() {
            self.timing.shifts(stream)
        } else {
            &[]
        }
    }

    /// Whether a stream sends a frame so long after its offset, where it sends its frames one after another, as by any schedule.
    pub fn sends(self, stream: usize, wanted: i128) -> bool {
        let shifts = self.shifts(stream);
        let place = shifts.partition_point(|shift| (*shift as i128) < wanted);
        match shifts.get(place) {
            Some(shift) => *shift as i128 == wanted,
            None => false,
        }
    }

    /// The first link of a stream's route at whose end the last octet of a period arrives last.
    pub fn last_link(self, stream: usize) -> Option<usize> {
        let timing = self.timing;
        if stream >= timing.streams() {
            return None;
        }
        for hop in 0..timing.hops(stream) {
            if timing.plain().hop_arrival(stream, hop) == timing.arrival(stream) {
                return Some(timing.route_link(stream, hop));
            }
        }
        None
    }

    /// Where a stream arrives, in words that stand behind 'arrives', if it is heard at several ends.
    pub fn arrival_words(self, stream: usize) -> &'static str {
        if stream < self.timing.streams() {
            arrival_words(self.timing, stream)
        } else {
            ""
        }
    }

    /// The last frame of a stream's first period.
    pub fn last_frame(self, stream: usize) -> Frame {
        let mut shift = 0;
        if stream < self.timing.streams() {
            shift = self.timing.spread(stream);
        }
        Frame { stream, shift }
    }

    /// The first stream that can't be done in time from its least offset on.
    pub fn roomless(self) -> Option<usize> {
        for stream in 0..self.timing.streams() {
            let times = self.times(stream);
            if times.release > times.latest_offset {
                return Some(stream);
            }
        }
        None
    }
}

/// The streams that go first and second by a decision, and by how much the second one's frame comes after the first one's, were
/// both offsets 0.
pub fn sides(decision: Decision) -> (usize, usize, i128) {
    let Triple {
        left,
        right,
        lag,
        ..
    } = decision.triple;
    match decision.side {
        Side::Left => (left, right, lag as i128),
        Side::Right => (right, left, -(lag as i128)),
    }
}

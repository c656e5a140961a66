//! Why offsets are no valid schedule.
ghost use Rattle.std.specs.Prelude.{◌<◌};
ghost use Rattle.tsn_model.specs.Network.{stream_count};

use crate::Reason;
use crate::names::{push_later, push_link, push_stream};
use std::alloc::Global;
use tsn_model::{Triple, Violation};
use tsn_text::pieces::{push_count, push_number, push_signed};
use tsn_text::{TextBuilder, line_of};
use tsn_timing::{Problem, Timing, arrival_words};

/// Offsets of the streams of a network, in nanoseconds.
#[derive(Clone, Copy)]
pub struct Schedule<'a> {
    /// The network.
    pub problem: &'a Problem,
    /// Its times.
    pub timing: &'a Timing,
    /// The offset of each stream.
    pub offsets: &'a [u64],
}

impl Schedule<'_> {
    /// The offset of a stream.
    fn offset(self, stream: usize) -> u64 {
        match self.offsets.get(stream) {
            Some(offset) => *offset,
            None => 0,
        }
    }
}

/// Why offsets with this violation are refused, for the network of a file of this name.
pub fn offsets_line(
    alloc: Global,
    name: &str,
    schedule: Schedule<'_>,
    violation: Violation,
) -> Reason {
    let mut text = line_of(alloc, name);
    push_violation(&mut text, schedule, violation);
    Ok(Some(text.finish()?))
}

/// Writes what the violation is.
pub fn push_violation(text: &mut TextBuilder, schedule: Schedule<'_>, violation: Violation) {
    match violation {
        Violation::WrongCount => push_wrong_count(text, schedule),
        Violation::Overlap(triple) => push_overlap(text, schedule, triple),
        Violation::PastCycle(stream) | Violation::Early(stream) | Violation::TooLate(stream) => {
            push_stream(text, schedule.problem, "stream ", stream);
            if stream < schedule.timing.streams() {
                push_times(text, schedule, stream, violation);
            }
        }
    }
}

fn push_wrong_count(text: &mut TextBuilder, schedule: Schedule<'_>) {
    push_count(text, "the number of offsets is ", schedule.offsets.len());
    push_count(text, ", and has to be ", schedule.timing.streams());
    text.push_str(", one for each stream");
}

/// Past which end of its own a stream of this period is.
pub fn past_end(period: u64, cycle: u64) -> &'static str {
    if period < cycle {
        " past its period's end at "
    } else {
        " past the cycle's end at "
    }
}

fn push_overlap(text: &mut TextBuilder, schedule: Schedule<'_>, triple: Triple) {
    let problem = schedule.problem;
    push_stream(text, problem, "stream ", triple.left);
    push_stream(text, problem, " and stream ", triple.right);
    push_later(text, triple.lag);
    match apart(schedule, triple) {
        Some(gap) => {
            push_signed(text, " start ", gap);
            push_link(text, problem, " ns apart on link ", triple.link);
            let slack = schedule.timing.slack();
            push_number(text, ", and have to be more than the slack of ", slack);
            text.push_str(" ns apart");
        }
        None => push_link(text, problem, " overlap on link ", triple.link),
    }
}

// How far apart the frames of a triple start on its link, if they don't occupy it at a common instant.
fn apart(schedule: Schedule<'_>, triple: Triple) -> Option<i128> {
    let (left, left_end) = stay(schedule, triple.left, triple.link)?;
    let (right, right_end) = stay(schedule, triple.right, triple.link)?;
    let lag = triple.lag as i128;
    let gap = right.wrapping_add(lag).wrapping_sub(left);
    if left_end <= right.wrapping_add(lag) {
        Some(gap)
    } else if right_end.wrapping_add(lag) <= left {
        Some(gap.wrapping_neg())
    } else {
        None
    }
}

// When a stream's first frame starts on a link, and when it no longer occupies it.
fn stay(schedule: Schedule<'_>, stream: usize, link: usize) -> Option<(i128, i128)> {
    let timing = schedule.timing;
    if stream >= timing.streams() {
        return None;
    }
    let hop = timing.hop_on(stream, link)?;
    if hop >= timing.hops(stream) {
        return None;
    }
    let begin = schedule.offset(stream) as i128 + timing.start(stream, hop) as i128;
    Some((begin, begin + timing.occupancy(stream, hop) as i128))
}

// Writes which of its times a stream's offset doesn't keep; where one offset alone is within its window, that it has to be that.
fn push_times(text: &mut TextBuilder, schedule: Schedule<'_>, stream: usize, violation: Violation)
    requires { stream < stream_count schedule.timing.now }
{
    let timing = schedule.timing;
    let offset = schedule.offset(stream);
    if let Violation::PastCycle(_) = violation {
        let end = offset.saturating_add(timing.span(stream));
        let period = timing.period(stream);
        push_number(text, ": with offset ", offset);
        push_number(text, " it ends at ", end);
        text.push_str(",");
        return push_number(text, past_end(period, timing.cycle()), period);
    }
    let release = timing.release(stream);
    let latest = timing.latest(stream);
    let travel = timing.arrival(stream);
    if release.saturating_add(travel) == latest {
        push_number(text, ": its offset is ", offset);
        push_number(text, ", and has to be ", release);
    } else if let Violation::Early(_) = violation {
        push_number(text, ": its offset ", offset);
        push_number(text, " is before its release ", release);
    } else {
        push_number(text, ": with offset ", offset);
        text.push_str(" it arrives");
        text.push_str(arrival_words(timing, stream));
        push_number(text, " at ", offset.saturating_add(travel));
        push_number(text, ", after its latest instant ", latest);
    }
}

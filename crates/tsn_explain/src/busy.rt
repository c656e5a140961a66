//! The links that most of the steps of an argument use, in words.
use crate::count::{count_up, take_most};
use crate::load::Load;
use crate::marked::{Mention, mentions_of};
use crate::needs::Part;
use crate::network::TimedNetwork;
use crate::tree::MOST_LINKS;
use crate::writer::Writer;
use std::alloc::{AllocError, Global};
use tsn_cert::{Argument, Goal};
use tsn_model::Frame;

// How many streams are told of a link.
const MOST_STREAMS: usize = 6;

impl Writer<'_> {
    /// Writes the links that most steps of a part use: how many steps, and the streams that are named most there.
    pub fn push_busy(&mut self, argument: &Argument, part: &Part) -> Result<(), AllocError> {
        let until = greatest_flowspan(self.network, argument);
        self.say_number(
            "The links that most of these are about, if all is to be done by ",
            until,
        );
        self.say(":\n");
        let named = mentions_of(self.alloc, argument, part).list.finish()?;
        let mut uses = uses_of(self.alloc, &named, None, self.network.problem.links())?;
        for _ in 0..MOST_LINKS {
            let Some((link, count)) = take_most(&mut uses) else {
                break;
            };
            let streams = self.network.timing.streams();
            let on_link = uses_of(self.alloc, &named, Some(link), streams)?;
            let frames = most_used(self.alloc, on_link)?;
            self.say_count("", count);
            self.say(if count == 1 {
                " step: on "
            } else {
                " steps: on "
            });
            self.push_busy_link(link, &frames, until);
        }
        Ok(())
    }

    // Writes what frames come to on a link by the windows of their streams' offsets, where all is done by an instant.
    fn push_busy_link(&mut self, link: usize, frames: &[Frame], until: i128) {
        let mut load = Load::none();
        for frame in frames {
            let times = self.network.times(frame.stream);
            let offsets = (times.release, times.latest_offset);
            load = load.with(self.network, link, *frame, offsets);
        }
        self.push_begin(link, frames, load);
        let end = load.end.min(until.wrapping_sub(load.tail));
        self.say_number(", and the last one has to be through by ", end);
        self.say(".\n")
    }
}

// The greatest flowspan in question.
fn greatest_flowspan(network: TimedNetwork<'_>, argument: &Argument) -> i128 {
    match argument.goal {
        Goal::First => argument.target as i128,
        Goal::Least => argument.target as i128 - 1,
        Goal::None => network.cycle(),
    }
}

// How many steps name frames on each link, or each stream on one of them, of so many.
fn uses_of(
    alloc: Global,
    named: &[Mention],
    on: Option<usize>,
    places: usize,
) -> Result<Vec<usize>, AllocError> {
    let mut uses = vec![in alloc; 0; places]?;
    let mut last = vec![in alloc; None; places]?;
    for mention in named {
        let place = match on {
            None => mention.link,
            Some(link) if mention.link == link => mention.stream,
            Some(_) => continue,
        };
        if let Some(last) = last.get_mut(place) {
            if *last != Some(mention.step) {
                *last = Some(mention.step);
                count_up(&mut uses, place);
            }
        }
    }
    Ok(uses)
}

// The first frames of the streams of the greatest counts, by their numbers: of those of at least half the first one's.
fn most_used(alloc: Global, mut uses: Vec<usize>) -> Result<Vec<Frame>, AllocError> {
    let mut streams = Vec::new(alloc);
    let mut greatest = 0;
    for _ in 0..MOST_STREAMS {
        let Some((stream, count)) = take_most(&mut uses) else {
            break;
        };
        greatest = count.max(greatest);
        if count < greatest / 2 {
            break;
        }
        streams.push(stream)?;
    }
    streams.sort()?;
    let mut frames = Vec::new(alloc);
    for stream in streams {
        frames.push(Frame { stream, shift: 0 })?;
    }
    Ok(frames)
}

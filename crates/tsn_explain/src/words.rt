//! How streams, frames, links and facts are called, and how numbers are written.
use crate::network::sides;
use crate::writer::Writer;
use std::fmt;
use tsn_argue::News;
use tsn_model::{Decision, Frame};

// The most names that are told of a set of frames.
const MOST_NAMED: usize = 12;

/// A number, as a time in nanoseconds, with commas between the thousands.
#[derive(Clone, Copy)]
pub struct Grouped(pub i128);

impl fmt::Display for Grouped {
    fn fmt<W: fmt::Write>(&self, f: &mut fmt::Formatter<W>) -> fmt::Result {
        if self.0 < 0 {
            f.write_str("-")?;
        }
        let number = self.0.unsigned_abs();
        let mut is_begun = false;
        for unit in [1_000_000_000_000u128, 1_000_000_000, 1_000_000, 1000, 1] {
            if unit > 0 && is_begun {
                write!(f, ",{:03}", number / unit % 1000)?;
            } else if unit > 0 && (number >= unit || unit == 1) {
                write!(f, "{}", number / unit)?;
                is_begun = true;
            }
        }
        Ok(())
    }
}

impl Writer<'_> {
    /// Writes what stands before the element of this place of an enumeration of so many, whose last two a word joins.
    pub fn push_joint(&mut self, place: usize, count: usize, word: &str) {
        if place == 0 {
            return;
        }
        self.say(if place.wrapping_add(1) < count {
            ", "
        } else {
            word
        })
    }

    /// Writes the number of a link, and the nodes that it joins.
    pub fn push_link(&mut self, link: usize) {
        self.say_digits("link ", link);
        self.push_ends(", ", link)
    }

    // Writes the names of the nodes that a link joins behind words.
    fn push_ends(&mut self, words: &str, link: usize) {
        let (from, to) = self.network.ends(link);
        self.say(words);
        self.say(from);
        self.say(" to ");
        self.say(to)
    }

    /// Writes 'the frame of' or 'the frames of' streams, and their names; and by how much a frame is later than the stream's first
    /// one.
    pub fn push_frames(&mut self, frames: &[Frame]) {
        let count = frames.len();
        self.say(if count == 1 {
            "the frame of "
        } else {
            "the frames of "
        });
        for (place, frame) in frames.iter().enumerate() {
            if place == MOST_NAMED {
                self.say_digits(" and ", count.wrapping_sub(place));
                return self.say(" more");
            }
            self.push_joint(place, count, " and ");
            self.push_name(*frame);
        }
    }

    /// Writes 'the frame of' a stream, and its name.
    pub fn push_frame(&mut self, frame: Frame) {
        self.say("the frame of ");
        self.push_name(frame)
    }

    // Writes the name of a frame's stream, and by how much the frame is later than its first one, where it is.
    fn push_name(&mut self, frame: Frame) {
        self.say_stream("", frame.stream);
        if frame.shift > 0 {
            self.say_number(" (", frame.shift as i128);
            self.say(" ns later)");
        }
    }

    /// Writes what a fact says.
    pub fn push_fact(&mut self, news: News) {
        match news {
            News::DoneFrom(from) => self.say_number("nothing is done before ", from),
            News::DoneUntil(until) => self.say_number("all is done by ", until),
            News::From(stream, from) => self.push_start(stream, from, " or later"),
            News::Until(stream, until) => self.push_start(stream, until, " or earlier"),
            News::Order(decision) => self.push_order(decision),
        }
    }

    // Writes when a stream starts, with an ending.
    fn push_start(&mut self, stream: usize, start: i128, ending: &str) {
        self.say_stream("stream ", stream);
        self.say_number(" starts at ", start);
        self.say(ending)
    }

    // Writes that one stream goes before another one on a link, and which of their frames.
    fn push_order(&mut self, decision: Decision) {
        let (first, second, later) = sides(decision);
        self.say_stream("stream ", first);
        self.say_stream(" goes before stream ", second);
        if later > 0 {
            self.say_number("'s frame ", later);
            self.say(" ns later");
        } else if later < 0 {
            self.say_number("'s frame ", later.wrapping_neg());
            self.say(" ns sooner");
        }
        let link = decision.triple.link;
        self.say_digits(" on link ", link);
        self.push_ends(" (", link);
        self.say(")")
    }
}

//! A text about a network.
use crate::load::Load;
use crate::network::{TimedNetwork, sides};
use crate::words::Grouped;
use std::alloc::{AllocError, Global};
use std::fmt::Write;
use tsn_argue::News;
use tsn_cert::Plan;
use tsn_model::{Decision, Frame};

/// A text in the making about a network. What comes after memory was refused is left out, and at the end that is said.
#[derive(Drop)]
pub struct Writer<'a> {
    pub alloc: Global,
    pub network: TimedNetwork<'a>,
    text: String,
    is_refused: bool,
}

impl<'a> Writer<'a> {
    /// Nothing yet.
    pub fn new(alloc: Global, network: TimedNetwork<'a>) -> Writer<'a> {
        Writer {
            alloc,
            network,
            text: String::new(alloc),
            is_refused: false,
        }
    }

    /// The text; the error says that there was no memory for all of it.
    pub fn finish(self) -> Result<String, AllocError> {
        if self.is_refused {
            return Err(AllocError);
        }
        Ok(self.text)
    }

    /// Writes this.
    pub fn say(&mut self, words: &str) {
        if !self.is_refused {
            self.is_refused = self.text.push_str(words).is_err();
        }
    }

    /// Writes a number behind words, as a time in nanoseconds, with commas between the thousands.
    pub fn say_number(&mut self, words: &str, number: i128) {
        self.say(words);
        if !self.is_refused {
            self.is_refused = write!(self.text, "{}", Grouped(number)).is_err();
        }
    }

    /// Writes a count behind words, with commas between the thousands.
    pub fn say_count(&mut self, words: &str, count: usize) {
        self.say_number(words, count as i128)
    }

    /// Writes a count's digits alone behind words, as the number of a link.
    pub fn say_digits(&mut self, words: &str, number: usize) {
        self.say(words);
        if !self.is_refused {
            self.is_refused = write!(self.text, "{number}").is_err();
        }
    }

    /// Writes the name of a stream behind words.
    pub fn say_stream(&mut self, words: &str, stream: usize) {
        self.say(words);
        self.say(self.network.name(stream))
    }

    /// The list that the text needs, or none of it where there was no memory.
    pub fn kept<T>(&mut self, list: Result<Vec<T>, AllocError>) -> Vec<T> {
        let Ok(list) = list else {
            self.is_refused = true;
            return Vec::new(self.alloc);
        };
        list
    }

    /// Writes what is shown.
    pub fn push_claim(&mut self, plan: &Plan) {
        match plan {
            Plan::Schedule { flowspan, .. } => {
                self.say_number("No schedule is done before ", *flowspan as i128);
            }
            Plan::None => {
                let cycle = self.network.cycle();
                self.say_number("There is no schedule within the cycle of ", cycle);
            }
        }
        self.say(" ns.\n")
    }

    /// Writes the link, how long the frames take, and from when on.
    pub fn push_begin(&mut self, link: usize, frames: &[Frame], load: Load) {
        self.push_link(link);
        self.say(", ");
        self.push_frames(frames);
        if frames.len() == 1 {
            self.say_number(" takes ", load.work);
            self.say_number(" ns; it can't start before ", load.head)
        } else {
            self.say_number(" take ", load.work);
            self.say_number(" ns together; the first can't start before ", load.head)
        }
    }

    /// Writes before when nothing is done because of the frames on a link, from the link on.
    pub fn push_load(&mut self, link: usize, frames: &[Frame], load: Load) {
        self.push_begin(link, frames, load);
        let is_one = frames.len() == 1;
        let it = if is_one { "it" } else { "the last one" };
        if load.tail > 0 {
            self.say(", and after ");
            self.say(it);
            self.say_number(" ", load.tail);
            self.say(" ns pass");
        } else if load.tail < 0 {
            self.say(", and ");
            self.say(it);
            self.say_number(" has arrived ", load.tail.wrapping_neg());
            self.say(" ns before the gap behind it ends");
        }
        self.say_number(": so nothing is done before ", load.bound())
    }

    /// Writes that a stream that can't start before an offset isn't done in time.
    pub fn push_no_room(&mut self, stream: usize, offset: i128) {
        let times = self.network.times(stream);
        self.say_stream("stream ", stream);
        self.say_number(" can't start before ", offset);
        let ends = offset.wrapping_add(times.span);
        if ends <= times.period {
            self.say(", and would arrive");
            self.say(self.network.arrival_words(stream));
            self.say_number(" at ", offset.wrapping_add(times.arrival));
            self.say_number(", past its latest instant ", times.latest)
        } else {
            self.say_number(", and would end at ", ends);
            let is_cycle = times.period == self.network.cycle();
            self.say(if is_cycle {
                ", past the cycle"
            } else {
                ", past its period"
            });
            self.say_number("'s end at ", times.period)
        }
    }

    /// Writes that decisions that lead from a stream back to it can't all hold; and them too, unless they stand there already.
    pub fn push_round(&mut self, decisions: &[Decision], is_said: bool) {
        let Some(first) = decisions.first() else {
            return;
        };
        if !is_said {
            self.push_orders(decisions);
            self.say(": ");
        }
        let mut weight: i128 = 0;
        for decision in decisions {
            weight = weight.wrapping_add(self.network.weight(*decision));
        }
        let (stream, _, _) = sides(*first);
        self.say_stream("by these orders stream ", stream);
        self.say_number(" would start ", weight);
        self.say(" ns later than it does, so they can't all hold")
    }

    /// Writes decisions.
    pub fn push_orders(&mut self, decisions: &[Decision]) {
        for (place, decision) in decisions.iter().enumerate() {
            self.push_joint(place, decisions.len(), " and ");
            self.push_fact(News::Order(*decision));
        }
    }
}

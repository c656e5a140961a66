//! What an argument shows, in words.
use crate::narrator::Narrator;
use crate::needs::Part;
use crate::tree::MOST_TOLD;
use crate::writer::Writer;
use std::alloc::AllocError;
use tsn_argue::hear_argument;
use tsn_cert::{Argument, Goal, Plan};
use tsn_check::CheckFault;

impl Writer<'_> {
    /// Writes why the argument's target is right, which this part of its moves shows.
    pub fn push_argument(
        &mut self,
        plan: &Plan,
        argument: &Argument,
        part: Part,
    ) -> Result<(), AllocError> {
        if part.steps.is_empty() {
            self.push_at_once();
        } else {
            self.push_counts(argument, &part);
            if part.steps.len() <= MOST_TOLD {
                self.push_steps(plan, argument, &part)?;
            } else {
                self.push_busy(argument, &part)?;
            }
        }
        if argument.goal == Goal::First {
            let next = match part.steps.last() {
                Some(step) => step.wrapping_add(1),
                None => 0,
            };
            self.push_rest(next, argument.steps.list().len());
        }
        Ok(())
    }

    // Writes why there is no schedule, where no step is needed.
    fn push_at_once(&mut self) {
        let Some(stream) = self.network.roomless() else {
            return;
        };
        self.say("No step is needed: ");
        self.push_no_room(stream, self.network.times(stream).release);
        self.say(".\n")
    }

    // Writes how many steps there are, and how many of them are told.
    fn push_counts(&mut self, argument: &Argument, part: &Part) {
        let count = argument.steps.list().len();
        let told = part.steps.len();
        self.say_count("The argument has ", count);
        self.say(if count == 1 { " step" } else { " steps" });
        if told < count {
            self.say_count(", of which ", told);
            self.say(if told == 1 {
                " shows this"
            } else {
                " show this"
            });
        }
        self.say(if told <= MOST_TOLD { ":\n" } else { ".\n" })
    }

    // Writes the steps of a part. They are checked once more for that: which moves are needed is known only behind the last of them.
    fn push_steps(
        &mut self,
        plan: &Plan,
        argument: &Argument,
        part: &Part,
    ) -> Result<(), AllocError> {
        let problem = self.network.problem;
        let alloc = self.alloc;
        let mut narrator = Narrator::new(self, argument, part);
        let heard = hear_argument(alloc, problem, plan, argument, &mut narrator);
        if let Err(CheckFault::Memory) = heard {
            return Err(AllocError);
        }
        narrator.finish()
    }

    // Writes which steps show that the plan is the first of its flowspan.
    fn push_rest(&mut self, first: usize, count: usize) {
        self.say("Of the schedules of this flowspan the plan is the first in list order: ");
        if first >= count {
            return self.say("nothing else is left.\n");
        }
        let last = count.wrapping_sub(1);
        if first == last {
            self.say_count("step ", first);
            self.say(" shows it.\n")
        } else {
            self.say_count("steps ", first);
            self.say_count(" to ", last);
            self.say(" show it.\n")
        }
    }
}

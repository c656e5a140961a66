//! The steps of an argument in words, as they are checked.
ghost use Rattle.std.specs.Prelude.{None};

use crate::motion::Told;
use crate::needs::Part;
use crate::writer::Writer;
use std::alloc::AllocError;
use tsn_argue::{News, Observer, Shown, View};
use tsn_cert::{Argument, Clause, Fact, Goal, Move, Step};
use tsn_model::Frame;
use tsn_text::ListBuilder;

// Of a network of no more streams all moves are told.
const FEW_STREAMS: usize = 128;

// The most moves of a part that are all told.
const MOST_MOVES: usize = 100;

// How many moves are told from each end of a step, where there are more.
const ENDS: usize = 8;

/// Writes the steps of a part as it hears them: what is supposed, the moves that are of the part, and what follows.
#[derive(Drop)]
pub struct Narrator<'a, 'b> {
    pub writer: &'b mut Writer<'a>,
    pub argument: &'b Argument,
    part: &'b Part,
    /// The step under way.
    pub step: usize,
    // How many moves of it were made.
    count: usize,
    // How many of its moves are told by themselves, and how many of these were made.
    moves: usize,
    passed: usize,
    // Whether the part has so many that those in the middle of a step are left out.
    is_long: bool,
    /// The last frames of the streams whose arrival was bounded and isn't told yet.
    pub limited: ListBuilder<Frame>,
    is_begun: bool,
    /// Before when the last move lets nothing be done, if it says so.
    pub said: Option<i128>,
}

impl Observer for Narrator<'_, '_> {
    ghost heard = { λ _. None };

    fn begin(&mut self, ground: &View<'_>, step: &Step) {
        self.count = 0;
        self.passed = 0;
        if self.is_told() {
            self.moves = self.part.moves_told(self.step, step);
            self.push_begin(ground, step.clause.list());
        }
    }

    fn make(&mut self, view: &View<'_>, _clauses: &[&Clause], motion: &Move, shown: Shown) {
        let needs_first = self.part.has_first(self.step, self.count);
        let needs_second = self.part.has_second(self.step, self.count);
        let is_left_out = self.is_left_out(view, motion);
        self.count = self.count.wrapping_add(1);
        if !is_left_out && (needs_first || needs_second) {
            let told = Told {
                view,
                shown,
                needs_first,
                needs_second,
            };
            self.push_move(&told, motion);
        }
    }

    fn end(&mut self, view: &View<'_>, step: &Step) {
        if self.is_told() {
            self.push_end(view, step.clause.list());
        }
        self.step = self.step.wrapping_add(1);
    }
}

impl<'a, 'b> Narrator<'a, 'b> {
    /// Before the first step.
    pub fn new(
        writer: &'b mut Writer<'a>,
        argument: &'b Argument,
        part: &'b Part,
    ) -> Narrator<'a, 'b> {
        let limited = ListBuilder::new(writer.alloc);
        let streams = writer.network.timing.streams();
        Narrator {
            writer,
            argument,
            part,
            step: 0,
            count: 0,
            moves: 0,
            passed: 0,
            is_long: streams > FEW_STREAMS && part.all_told(argument) > MOST_MOVES,
            limited,
            is_begun: false,
            said: None,
        }
    }

    /// Ends the telling, and says whether there was memory for all that it notes.
    pub fn finish(self) -> Result<(), AllocError> {
        drop(self.limited.finish()?);
        Ok(())
    }

    // Whether the step under way is of the part.
    fn is_told(&self) -> bool {
        self.part.steps.contains(&self.step)
    }

    // Whether the next move is one of those in the middle of a step that are left out, and of the first of them how many they are.
    fn is_left_out(&mut self, view: &View<'_>, motion: &Move) -> bool {
        if !self.is_long || !self.part.is_told(self.step, self.count, motion) {
            return false;
        }
        let place = self.passed;
        self.passed = place.wrapping_add(1);
        let last = self.moves.saturating_sub(ENDS);
        if place < ENDS || place >= last {
            return false;
        }
        if place == ENDS {
            self.push_left_out(view, last.wrapping_sub(ENDS));
        }
        true
    }

    // Writes how many moves are left out.
    fn push_left_out(&mut self, view: &View<'_>, count: usize) {
        self.push_limited(view);
        let writer = self.then();
        writer.say_count("", count);
        writer.say(if count == 1 {
            " more move follows that isn't told"
        } else {
            " more moves follow that aren't told"
        })
    }

    // Writes the opposites of the facts of a step, or which schedules it is about.
    fn push_begin(&mut self, ground: &View<'_>, facts: &[Fact]) {
        self.limited.clear();
        self.is_begun = !facts.is_empty();
        self.said = None;
        self.writer.say_count("Step ", self.step);
        if facts.is_empty() {
            return self.push_schedules(ground);
        }
        self.writer.push_supposed(ground, facts)
    }

    // Writes which schedules are in question.
    fn push_schedules(&mut self, ground: &View<'_>) {
        if self.argument.goal == Goal::None {
            return self.writer.say(": In any schedule, ");
        }
        self.writer
            .say_number(": In a schedule that is done by ", ground.done.high);
        self.writer.say(", ")
    }

    // Writes what a step shows.
    fn push_end(&mut self, view: &View<'_>, facts: &[Fact]) {
        self.push_limited(view);
        if facts.is_empty() {
            self.push_left(view);
        } else if !self.has_said(facts) {
            self.writer.push_conclusion(facts);
        }
        self.writer.say(".\n")
    }

    // Whether the last move said the one fact.
    fn has_said(&self, facts: &[Fact]) -> bool {
        match (facts, self.said) {
            ([Fact::DoneFrom(from)], Some(said)) => *from as i128 == said,
            _ => false,
        }
    }

    // Writes what a step without facts leaves.
    fn push_left(&mut self, view: &View<'_>) {
        let target = self.argument.target as i128;
        if view.crossed {
            self.writer.say(". So there is none")
        } else if self.argument.goal == Goal::First && view.done.low >= target {
            self.writer
                .say_number(". So nothing is done before ", target)
        }
    }

    /// Writes what goes before a move: the writer, for the move.
    pub fn then(&mut self) -> &mut Writer<'a> {
        if self.is_begun {
            self.writer.say(". Then ");
        }
        self.is_begun = true;
        self.writer
    }

    /// Writes by when the frames have to arrive that aren't told yet.
    pub fn push_limited(&mut self, view: &View<'_>) {
        if self.limited.list().is_empty() {
            return;
        }
        self.then();
        let frames = self.limited.list();
        self.writer.push_frames(frames);
        self.writer
            .say(if frames.len() == 1 { " has" } else { " have" });
        self.writer.say_number(" to arrive by ", view.done.high);
        self.limited.clear();
    }
}

impl Writer<'_> {
    // Writes the opposites of the facts of a step, and the first number of the ground that contradicts one.
    fn push_supposed(&mut self, ground: &View<'_>, facts: &[Fact]) {
        self.say(": Suppose that ");
        for (place, fact) in facts.iter().enumerate() {
            self.push_joint(place, facts.len(), " and ");
            self.push_fact(News::opposite_of(*fact));
        }
        for fact in facts {
            if self.push_clash(ground, News::opposite_of(*fact)) {
                break;
            }
        }
    }

    // Writes the facts that a step shows.
    fn push_conclusion(&mut self, facts: &[Fact]) {
        self.say(". So ");
        for (place, fact) in facts.iter().enumerate() {
            self.push_joint(place, facts.len(), " or ");
            self.push_fact(News::of(*fact));
        }
    }

    /// Writes which number of the view contradicts the fact, if one does.
    pub fn push_clash(&mut self, view: &View<'_>, news: News) -> bool {
        if !view.contradicts(news) {
            return false;
        }
        match news {
            News::From(stream, _) => {
                self.say_number(", but it can't start after ", view.greatest(stream))
            }
            News::Until(stream, _) => {
                self.say_number(", but it can't start before ", view.least(stream))
            }
            News::DoneUntil(until) => self.say_number(", but all has to be done by ", until),
            News::DoneFrom(_) => self.say_number(", but all has to be done by ", view.done.high),
            News::Order(_) => return false,
        }
        true
    }
}

//! The moves of an argument: which frames each is about, and its words.
use crate::load::Load;
use crate::marked::Mentions;
use crate::narrator::Narrator;
use crate::network::sides;
use crate::writer::Writer;
use std::alloc::{AllocError, Global};
use tsn_argue::{News, Shown, View, turned};
use tsn_cert::{Argument, Fact, Filling, Move, Order, Placing, Wasting};
use tsn_model::{Decision, Frame};

impl Mentions {
    /// What a move names.
    pub fn add_move(&mut self, motion: &Move) {
        match motion {
            Move::Go(order) | Move::Turn(order) => self.add_orders(&[*order]),
            Move::Use(_) => {}
            Move::Arrive(stream) => self.arrived.push(*stream),
            Move::Last(placing) | Move::First(placing) => {
                self.add_frame(placing.link, placing.frame);
                self.add_frames(placing.link, placing.others.list())
            }
            Move::Pack(link, frames) => self.add_frames(*link, frames.list()),
            Move::Round(orders) => self.add_orders(orders.list()),
            Move::Follow(known, weaker) => self.add_orders(&[*known, *weaker]),
            Move::Fill(filling) | Move::FillBack(filling) => {
                self.add_frame(filling.link, filling.frame);
                self.add_frames(filling.link, filling.others.list())
            }
            Move::Waste(wasting) => self.add_frames(wasting.link, wasting.frames.list()),
        }
    }
}

/// A move that is told: on which view it is made, what it shows, and what of that is needed.
#[derive(Clone, Copy)]
pub struct Told<'a, 'b> {
    pub view: &'a View<'b>,
    pub shown: Shown,
    pub needs_first: bool,
    pub needs_second: bool,
}

impl Told<'_, '_> {
    // Whether the first fact is needed, and is news.
    fn has_first(&self) -> bool {
        self.needs_first && !self.view.knows(self.shown.first)
    }
}

impl Narrator<'_, '_> {
    /// Writes a move, as far as it is needed.
    pub fn push_move(&mut self, told: &Told<'_, '_>, motion: &Move) {
        if let Move::Arrive(stream) = motion {
            return self.push_arrive(told, *stream);
        }
        self.push_limited(told.view);
        match motion {
            Move::Go(_) => self.push_go(told),
            Move::Use(number) => self.push_use(told, *number),
            Move::Pack(link, frames) => self.push_pack(told.view, *link, frames.list()),
            Move::Round(orders) => self.push_closed(orders.list()),
            Move::Waste(wasting) => self.then().push_waste(wasting),
            _ if !told.has_first() => {}
            Move::Turn(order) => self.then().push_turn(told, order.decision()),
            Move::Last(placing) => self.then().push_placing(told, placing, true),
            Move::First(placing) => self.then().push_placing(told, placing, false),
            Move::Follow(known, _) => self.then().push_follow(told, *known),
            Move::Fill(filling) => self.then().push_fill(told, filling, true),
            Move::FillBack(filling) => self.then().push_fill(told, filling, false),
            Move::Arrive(_) => {}
        }
    }

    // Writes from when on a stream's first period may have arrived, and keeps until later that it has to arrive in time.
    fn push_arrive(&mut self, told: &Told<'_, '_>, stream: usize) {
        let Told { view, shown, .. } = *told;
        let frame = self.writer.network.last_frame(stream);
        if told.has_first() {
            self.push_limited(view);
            self.then().push_arrival(view, shown.first, frame);
        }
        let Some(second) = shown.second else {
            return;
        };
        if view.contradicts(shown.first) {
            return;
        }
        if told.needs_second && !view.knows(second) {
            self.limited.push(frame);
        }
        if view.contradicts(second) {
            self.push_limited(view);
            self.writer.push_clash(view, second);
        }
    }

    fn push_go(&mut self, told: &Told<'_, '_>) {
        let Told { view, shown, .. } = *told;
        let Some(second) = shown.second else {
            return;
        };
        if told.has_first() {
            self.then().push_fact(shown.first);
        }
        if told.needs_second && !view.knows(second) {
            if told.has_first() {
                self.writer.say(", and ");
            } else {
                self.then();
            }
            self.writer.push_fact(second);
        }
        if !self.writer.push_clash(view, shown.first) {
            self.writer.push_clash(view, second);
        }
    }

    fn push_use(&mut self, told: &Told<'_, '_>, number: usize) {
        let step = step_of(self.argument, number);
        self.then().push_used(told, step)
    }

    fn push_pack(&mut self, view: &View<'_>, link: usize, frames: &[Frame]) {
        let load = Load::of(self.writer.network, view, link, frames);
        self.then().say("on ");
        if load.bound() > view.done.high {
            self.said = Some(load.bound());
            return self.writer.push_load(link, frames, load);
        }
        self.writer.push_packed(link, frames, load)
    }

    fn push_closed(&mut self, orders: &[Order]) {
        let decisions = decisions_of(self.writer.alloc, orders);
        let decisions = self.writer.kept(decisions);
        let is_said = match self.argument.steps.list().get(self.step) {
            Some(step) => are_supposed(step.clause.list(), &decisions),
            None => false,
        };
        self.then().push_round(&decisions, is_said)
    }
}

// The step that shows the clause of this number.
fn step_of(argument: &Argument, number: usize) -> usize {
    let mut others = number;
    for (place, step) in argument.steps.list().iter().enumerate() {
        if !step.clause.list().is_empty() {
            if others == 0 {
                return place;
            }
            others = others.wrapping_sub(1);
        }
    }
    0
}

impl Writer<'_> {
    // Writes from when on the last frame of a stream's first period may have arrived.
    fn push_arrival(&mut self, view: &View<'_>, shown: News, frame: Frame) {
        if let News::DoneFrom(from) = shown {
            self.push_frame(frame);
            self.say(" arrives");
            self.say(self.network.arrival_words(frame.stream));
            self.say_number(" at ", from);
            self.say(" or later");
        }
        self.push_clash(view, shown);
    }

    fn push_turn(&mut self, told: &Told<'_, '_>, decision: Decision) {
        let (first, second, _) = sides(decision);
        let weight = self.network.weight(turned(decision));
        self.push_fact(told.shown.first);
        self.say_stream(", since the other order would put stream ", first);
        self.say_number(" at ", told.view.least(second).wrapping_add(weight));
        self.say_number(
            " or later, past its latest start ",
            told.view.greatest(first),
        )
    }

    fn push_follow(&mut self, told: &Told<'_, '_>, known: Order) {
        self.push_fact(told.shown.first);
        self.say(", since ");
        self.push_fact(News::Order(known.decision()))
    }

    // Writes what the clause of a step shows.
    fn push_used(&mut self, told: &Told<'_, '_>, step: usize) {
        // Where no fact is left of the clause, what is shown contradicts the view.
        if told.view.contradicts(told.shown.first) {
            self.say_count("none of what step ", step);
            self.say(" says can hold")
        } else {
            self.say_count("by step ", step);
            self.say(", ");
            self.push_fact(told.shown.first)
        }
    }

    // Writes that a frame goes last on a link, or first, and why.
    fn push_placing(&mut self, told: &Told<'_, '_>, placing: &Placing, is_last: bool) {
        let view = told.view;
        self.push_room(view, placing, is_last);
        self.say(". So ");
        self.push_frame(placing.frame);
        self.say(if is_last { " goes last" } else { " goes first" });
        let some = placing.some.list();
        if some.len() < placing.others.list().len() {
            let load = Load::of(self.network, view, placing.link, some);
            self.push_some(some, load, is_last);
        }
        self.say(", and ");
        self.push_fact(told.shown.first);
        self.push_clash(view, told.shown.first);
    }

    // Writes which frames go before a last one, or behind a first one, where these are some of the others.
    fn push_some(&mut self, some: &[Frame], load: Load, is_last: bool) {
        self.say_number(if is_last { ", after " } else { ", before " }, load.work);
        self.say(" ns of ");
        self.push_frames(some);
        if is_last {
            self.say_number(" from ", load.head);
            self.say(" on")
        } else {
            self.say_number(" until ", load.end)
        }
    }

    // Writes that none of the others can go last, or first.
    fn push_room(&mut self, view: &View<'_>, placing: &Placing, is_last: bool) {
        let link = placing.link;
        let list = placing.others.list();
        let frames = self.kept(with_frame(self.alloc, list, placing.frame));
        let all = Load::of(self.network, view, link, &frames);
        let others = Load::of(self.network, view, link, list);
        self.push_on(link);
        self.push_frames(&frames);
        self.say_number(" take ", all.work);
        if is_last {
            self.say_number(" ns together and can't start before ", all.head);
        } else {
            self.say_number(" ns together and have to be through by ", all.end);
        }
        self.say(if list.len() > 1 {
            ". If one of "
        } else {
            ". If "
        });
        self.push_frames(list);
        if is_last {
            self.say_number(" went last, it would be through at ", all.free());
            self.say_number(" or later, past ", others.end)
        } else {
            self.say_number(" went first, they would start at ", others.head);
            let free = others.head.wrapping_add(all.work);
            self.say_number(" or later and take until ", free)
        }
    }

    // Writes on which link it is.
    fn push_on(&mut self, link: usize) {
        self.say("on ");
        self.push_link(link);
        self.say(", ")
    }

    // Writes that frames have to be through too soon on a link, from the link on.
    fn push_packed(&mut self, link: usize, frames: &[Frame], load: Load) {
        let is_one = frames.len() == 1;
        self.push_begin(link, frames, load);
        self.say(if is_one {
            ", and "
        } else {
            ", and the last one "
        });
        self.say_number("has to be through by ", load.end);
        self.say_number(", which is ", load.free().wrapping_sub(load.end));
        self.say(" ns too soon")
    }

    // Writes from when on a frame begins, or until when it ends, and why.
    fn push_fill(&mut self, told: &Told<'_, '_>, filling: &Filling, is_begin: bool) {
        self.push_on(filling.link);
        self.say("where ");
        self.push_frame(filling.frame);
        let place = if is_begin {
            " begins before "
        } else {
            " ends after "
        };
        self.say_number(place, filling.bound as i128);
        self.say(", sums of works of it and ");
        self.push_frames(filling.others.list());
        self.say(" leave more before and behind it than they may. So ");
        self.push_fact(told.shown.first);
        self.push_clash(told.view, told.shown.first);
    }

    // Writes that frames leave more of their rooms on a link than they may.
    fn push_waste(&mut self, wasting: &Wasting) {
        self.push_on(wasting.link);
        self.say("sums of works of ");
        self.push_frames(wasting.frames.list());
        self.say(" leave more between those that can't move than they may")
    }
}

// The frames with one more, by the numbers of their streams and then by their shifts.
fn with_frame(alloc: Global, others: &[Frame], frame: Frame) -> Result<Vec<Frame>, AllocError> {
    let mut all = vec![in alloc; frame]?;
    for other in others {
        all.push(*other)?;
    }
    all.sort_by_key(|frame| (frame.stream, frame.shift))?;
    Ok(all)
}

fn decisions_of(alloc: Global, orders: &[Order]) -> Result<Vec<Decision>, AllocError> {
    let mut decisions = Vec::new(alloc);
    for order in orders {
        decisions.push(order.decision())?;
    }
    Ok(decisions)
}

// Whether the opposites of a clause's facts are these decisions and nothing else.
fn are_supposed(facts: &[Fact], decisions: &[Decision]) -> bool {
    for fact in facts {
        if !is_other_of(*fact, decisions) {
            return false;
        }
    }
    for decision in decisions {
        if !has_other(facts, *decision) {
            return false;
        }
    }
    true
}

// Whether the fact is the order that one of the decisions isn't.
fn is_other_of(fact: Fact, decisions: &[Decision]) -> bool {
    for decision in decisions {
        if is_other(fact, *decision) {
            return true;
        }
    }
    false
}

// Whether one of the facts is the order that a decision isn't.
fn has_other(facts: &[Fact], decision: Decision) -> bool {
    for fact in facts {
        if is_other(*fact, decision) {
            return true;
        }
    }
    false
}

// Whether the fact is the order that a decision isn't.
fn is_other(fact: Fact, decision: Decision) -> bool {
    match fact {
        Fact::Order(order) => turned(order.decision()) == decision,
        _ => false,
    }
}

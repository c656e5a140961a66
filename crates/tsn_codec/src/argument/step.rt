//! Steps of an argument, read and printed; which part of one isn't of the form.
ghost use Rattle.std.specs.Prelude.{◌≡◌};
ghost use Rattle.tsn_cert.specs.Argument.{step_form, step_value, steps_form};
ghost use Rattle.tsn_codec.specs.ArgumentSays.{step_element};
ghost use Rattle.tsn_codec.specs.Steps.{TakesStep, MovesStop, moves_end, PartsStop, parts_end, StepStops, TakesSteps, TakesArray, unread_of};
ghost use Rattle.tsn_codec.specs.Takes.{Takes};

use crate::document;
use crate::list::{Element, Unlisted, array_of, list_or_why};
use crate::tokens::{Tokens, Unread};
use serde_json::Value;
use std::alloc::{AllocError, Global};
use tsn_cert::{Clause, Fact, Key, Misfit, Move, Moves, Part, Refused, Step, Steps};

impl Element for Step {
    ghost use Rattle.tsn_cert.specs.declared.step.Step.{Step};

    ghost Said = { Step };

    ghost seen = { λ step. step };

    ghost form = { step_form };

    fn take(tokens: &mut Tokens<'_>) -> Result<Step, Unread> {
        match step_or_why(tokens, 0) {
            Ok(step) => Ok(step),
            Err(why) => Err(unread(&why)),
        }
    }

    ghost written = { step_value };

    #[tactic(auto, using(tsn_cert::proofs::ArgumentLemmas::step_back, crate::proofs::Elements::map_same))]
    fn print(&self, alloc: Global) -> Result<Value, AllocError> {
        let clause = array_of::<Fact>(alloc, self.clause.list());
        let moves = array_of::<Move>(alloc, self.moves.list());
        document::pair_value(alloc, clause, moves)
    }

    ghost says = { step_element };
}

/// The steps of an argument.
pub(super) fn steps(tokens: &mut Tokens<'_>) -> Result<Steps, Unread>
    ensures { Takes (λ steps. steps) result (steps_form.taken tokens.old) tokens.new }
{
    match steps_or_why(tokens) {
        Ok(steps) => Ok(steps),
        Err(why) => Err(unread(&why)),
    }
}

fn unread(why: &Refused) -> Unread
    ensures { result ≡ unread_of why.now }
{
    match why {
        Refused::Memory => Unread::Memory,
        _ => Unread::OtherForm,
    }
}

/// The steps of an argument, or why there are none.
#[tactic(auto, using(crate::proofs::Elements::map_same))]
pub(super) fn steps_or_why(tokens: &mut Tokens<'_>) -> Result<Steps, Refused>
    ensures { TakesArray result tokens.old tokens.new }
{
    match tokens.open_array() {
        Ok(()) => Ok(Steps::of(steps_inside(tokens)?)),
        Err(Unread::OtherForm) => Err(Refused::WrongShape(Misfit::NoArray(Key::Steps))),
        Err(Unread::Memory) => Err(Refused::Memory),
    }
}

// Those up to the end of their array.
fn steps_inside(tokens: &mut Tokens<'_>) -> Result<Vec<Step>, Refused>
    ensures { TakesSteps result tokens.old tokens.new }
{
    let mut found = Vec::new(tokens.alloc());
    'steps: while !tokens.take_end() {
        match step_or_why(tokens, found.len()) {
            Ok(step) => found.push(step)?,
            Err(why) => return Err(why),
        }
    }
    Ok(found)
}

// The step of this number, or why there is none.
fn step_or_why(tokens: &mut Tokens<'_>, number: usize) -> Result<Step, Refused>
    ensures { TakesStep step_form.taken StepStops number result tokens.old tokens.new }
{
    match tokens.open_array() {
        Ok(()) => step_inside(tokens, number),
        Err(Unread::OtherForm) => Err(Refused::WrongShape(Misfit::NoStep(number))),
        Err(Unread::Memory) => Err(Refused::Memory),
    }
}

// The same behind the bracket that opens it.
fn step_inside(tokens: &mut Tokens<'_>, number: usize) -> Result<Step, Refused>
    ensures { TakesStep parts_end PartsStop number result tokens.old tokens.new }
{
    match list_or_why::<Fact>(tokens) {
        Ok(clause) => step_behind(tokens, clause, number),
        Err(Unlisted::NoArray) => Err(Refused::WrongShape(Misfit::NoStep(number))),
        Err(Unlisted::Behind(facts)) => {
            let part = Part::Fact(facts.len());
            Err(Refused::WrongShape(Misfit::NoPart(number, part)))
        }
        Err(Unlisted::Memory) => Err(Refused::Memory),
    }
}

// The same behind this clause.
#[tactic(auto, using(crate::proofs::Elements::map_same))]
fn step_behind(tokens: &mut Tokens<'_>, clause: Vec<Fact>, number: usize) -> Result<Step, Refused>
    ensures { TakesStep (moves_end clause.items) MovesStop number result tokens.old tokens.new }
{
    let moves = match list_or_why::<Move>(tokens) {
        Ok(moves) => moves,
        Err(Unlisted::NoArray) => return Err(Refused::WrongShape(Misfit::NoStep(number))),
        Err(Unlisted::Behind(moves)) => {
            let part = Part::Move(moves.len());
            return Err(Refused::WrongShape(Misfit::NoPart(number, part)));
        }
        Err(Unlisted::Memory) => return Err(Refused::Memory),
    };
    match tokens.close_array() {
        Ok(()) => Ok(Step {
            clause: Clause::of(clause),
            moves: Moves::of(moves),
        }),
        Err(Unread::OtherForm) => Err(Refused::WrongShape(Misfit::NoStep(number))),
        Err(Unread::Memory) => Err(Refused::Memory),
    }
}

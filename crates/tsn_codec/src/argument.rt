//! Argument files, read and printed.
ghost use Rattle.std.specs.Prelude.{◌≡◌, ◌≤◌, ◌∷◌, true, List, IfOk, IfErr, IfSome, IsTrue, OnOk, None, Some, Ok, codes, string_bytes};
ghost use Rattle.json.specs.Token.{Token, begin_object};
ghost use Rattle.json.specs.Json.{read_key};
ghost use Rattle.json.specs.Lex.{tokens};
ghost use Rattle.serde_json.specs.Data.{depth, object, string, member, no_members};
ghost use Rattle.serde_json.specs.Find.{get};
ghost use Rattle.serde_json.specs.Read.{max_depth};
ghost use Rattle.serde_json.specs.View.{view};
ghost use Rattle.tsn_cert.specs.Form.{number};
ghost use Rattle.tsn_cert.specs.Json.{number_value};
ghost use Rattle.tsn_cert.specs.Fault.{Gives};
ghost use Rattle.tsn_codec.specs.Matter.{IsArgumentExcess, IsWhy, IsObject, IsOfArgument, HasJust, IsStepsMisfit, IsArgumentMisfit, argument_keys};
ghost use Rattle.tsn_cert.specs.Told.{key_name, Finds};
ghost use Rattle.tsn_codec.specs.Written.{ArePlain, HasAs, BeginsArgument, EndsWithTarget, ArgumentStops, IsNoCertificate};
ghost use Rattle.tsn_cert.specs.Argument.{goal_form, argument_format, goal_of, steps_in, steps_form, argument_of, goal_word, argument_fits, argument_in, argument_text};
ghost use Rattle.tsn_cert.specs.ArgumentLaws.{IsArgumentInGrammar};

mod goal;
mod limits;
mod motion;
mod parts;
mod step;
pub mod text;

use crate::document;
use crate::file::{self, File};
use crate::list::array_of;
use crate::tokens::{Tokens, Unread};
use json::Scratch;
use serde_json::{Map, ToValue, Value};
use std::alloc::{AllocError, Global};
use tsn_cert::argument::ARGUMENT_FORMAT;
use tsn_cert::{Argument, Excess, FileFault, Goal, Key, Misfit, Refused, Step, Steps};
use tsn_model::NoMemory;

// The keys of an argument file.
const KEYS: &[Key] = &[Key::Format, Key::Goal, Key::Steps, Key::Target];

/// Reads an argument file.
pub fn argument_from_json(alloc: Global, bytes: &[u8]) -> Result<Argument, FileFault>
    ensures { Gives (λ argument. argument) result (argument_in bytes.now) }
{
    match file::from_bytes::<Argument>(alloc, bytes) {
        Ok(argument) => Ok(argument),
        Err(refused) => Err(refused.code()),
    }
}

impl File for Argument {
    ghost use Rattle.tsn_cert.specs.declared.argument.Argument.{Argument};

    ghost Said = { Argument };

    ghost seen = { λ argument. argument };

    ghost grammar = { argument_of };

    ghost fits = { argument_fits };

    ghost exceeds = { IsArgumentExcess };

    ghost misfits = { IsArgumentMisfit };

    fn take(tokens: &mut Tokens<'_>) -> Result<Argument, Unread> {
        let goal = begin(tokens)?;
        let steps = step::steps(tokens)?;
        match file::target_and_end(tokens) {
            Ok(target) => Ok(Argument {
                goal,
                target,
                steps,
            }),
            Err(error) => {
                drop(steps);
                Err(error)
            }
        }
    }

    fn in_value(alloc: Global, value: &Value) -> Result<Argument, Refused> {
        argument_from(alloc, value)
    }

    fn excess(&self) -> Option<Excess> {
        limits::excess(self)
    }
}

// The argument that the value is.
fn argument_from(alloc: Global, value: &Value) -> Result<Argument, Refused>
    requires { depth (view value.now) ≤ max_depth }
    ensures argument { Finds (λ argument. argument) result (argument_of (view value.now)) }
    ensures told { IfErr result (IsWhy (IsArgumentMisfit (view value.now))) }
{
    if !value.is_object() {
        return Err(Refused::WrongShape(Misfit::NoObject));
    }
    check_format(value)?;
    argument_behind(alloc, value)
}

// Whether an object tells that it is an argument.
fn check_format(value: &Value) -> Result<(), Refused>
    requires { IsObject (view value.now) }
    ensures format { OnOk result (IsOfArgument (view value.now)) }
    ensures none { IfErr result (λ _. argument_of (view value.now) ≡ None) }
    ensures told { IfErr result (IsWhy (IsArgumentMisfit (view value.now))) }
{
    let format = document::member(value, Key::Format)?;
    if document::whole_number_at(format, Key::Format)? == ARGUMENT_FORMAT {
        Ok(())
    } else {
        Err(Refused::WrongShape(Misfit::OtherFormat))
    }
}

// The argument that an object is that tells that it is one.
fn argument_behind(alloc: Global, value: &Value) -> Result<Argument, Refused>
    requires deep { depth (view value.now) ≤ max_depth }
    requires format { IsOfArgument (view value.now) }
    ensures argument { Finds (λ argument. argument) result (argument_of (view value.now)) }
    ensures told { IfErr result (IsWhy (IsArgumentMisfit (view value.now))) }
{
    let (goal, steps, target) = members(value)?;
    let goal = goal_from(goal)?;
    let target = document::whole_number_at(target, Key::Target)?;
    match steps_from(alloc, steps) {
        Ok(steps) => Ok(Argument {
            goal,
            target,
            steps,
        }),
        Err(refused) => Err(refused),
    }
}

// The goal, the steps and the target of an object that has the four keys alone.
fn members(value: &Value) -> Result<(&Value, &Value, &Value), Refused>
    requires { IsOfArgument (view value.now) }
    ensures keys { IfOk result (λ _. HasJust argument_keys (view value.now)) }
    ensures goal { IfOk result (λ m. get (key_name Key.Goal) (view value.now) ≡ Some (view m.0.now)) }
    ensures steps { IfOk result (λ m. get (key_name Key.Steps) (view value.now) ≡ Some (view m.1.now)) }
    ensures target { IfOk result (λ m. get (key_name Key.Target) (view value.now) ≡ Some (view m.2.now)) }
    ensures none { IfErr result (λ _. argument_of (view value.now) ≡ None) }
    ensures told { IfErr result (IsWhy (IsArgumentMisfit (view value.now))) }
{
    let goal = document::member(value, Key::Goal)?;
    let steps = document::member(value, Key::Steps)?;
    let target = document::member(value, Key::Target)?;
    if !document::is_object_of(value, 4) {
        return Err(document::unknown_key(value, KEYS));
    }
    Ok((goal, steps, target))
}

// The goal that the value is.
fn goal_from(value: &Value) -> Result<Goal, Refused>
    ensures goal { Finds (λ goal. goal) result (goal_of (view value.now)) }
    ensures told { IfErr result (λ refused. refused ≡ Refused.WrongShape Misfit.OtherGoal) }
{
    match value.as_str() {
        Some(word) => goal::goal_named(word).ok_or(Refused::WrongShape(Misfit::OtherGoal)),
        None => Err(Refused::WrongShape(Misfit::OtherGoal)),
    }
}

// The steps that the value is.
fn steps_from(alloc: Global, value: &Value) -> Result<Steps, Refused>
    requires { depth (view value.now) ≤ max_depth }
    ensures steps { Finds (λ steps. steps) result (steps_in (view value.now)) }
    ensures told { IfErr result (IsWhy (IsStepsMisfit (view value.now))) }
{
    let text = value.to_string(alloc)?;
    let mut scratch = Scratch::new(alloc);
    let mut tokens = Tokens::of(alloc, text.as_str(), &mut scratch)?;
    step::steps_or_why(&mut tokens)
}

/// What isn't of the form of a file whose keys stand in the order in which they are written, where that is one of its steps; None where
/// it is something else, or it isn't known.
pub(crate) fn misfit_of_written(alloc: Global, text: &str) -> Result<Option<Misfit>, NoMemory>
    requires { ArePlain (tokens text.now) }
    ensures { IfOk result (λ misfit. IfSome misfit (IsNoCertificate text.now)) }
{
    let ends = ends_with_target(alloc, text)?;
    if ends {
        misfit_of_steps(alloc, text)
    } else {
        Ok(None)
    }
}

fn misfit_of_steps(alloc: Global, text: &str) -> Result<Option<Misfit>, NoMemory>
    ensures { IfOk result (λ misfit. IfSome misfit (ArgumentStops (tokens text.now))) }
{
    let mut scratch = Scratch::new(alloc);
    let mut tokens = Tokens::of(alloc, text, &mut scratch)?;
    misfit_in(&mut tokens)
}

// What the steps of a file stop at; None where they don't stop, or the file doesn't begin as an argument.
fn misfit_in(tokens: &mut Tokens<'_>) -> Result<Option<Misfit>, NoMemory>
    ensures { IfOk result (λ misfit. IfSome misfit (ArgumentStops tokens.old)) }
{
    match begin(tokens) {
        Ok(_) => misfit_behind(tokens),
        Err(_) => Ok(None),
    }
}

// The same of the steps alone.
fn misfit_behind(tokens: &mut Tokens<'_>) -> Result<Option<Misfit>, NoMemory>
    ensures { (ts : List Token) → BeginsArgument ts tokens.old → IfOk result (λ misfit. IfSome misfit (ArgumentStops ts)) }
{
    match step::steps_or_why(tokens) {
        Err(Refused::WrongShape(misfit)) => Ok(Some(misfit)),
        Err(Refused::Memory) => Err(NoMemory),
        _ => Ok(None),
    }
}

fn ends_with_target(alloc: Global, text: &str) -> Result<bool, NoMemory>
    ensures { IfOk result (λ ends. ends ≡ true → (ts : List Token) × BeginsArgument (tokens text.now) ts × EndsWithTarget ts) }
{
    let mut scratch = Scratch::new(alloc);
    let mut tokens = Tokens::of(alloc, text, &mut scratch)?;
    Ok(have_keys_in_order(&mut tokens))
}

fn have_keys_in_order(tokens: &mut Tokens<'_>) -> bool
    ensures { result ≡ true → (ts : List Token) × BeginsArgument tokens.old ts × EndsWithTarget ts }
{
    match begin(tokens) {
        Ok(_) => file::is_list_and_target(tokens),
        Err(_) => false,
    }
}

// Takes what stands before the steps.
fn begin(tokens: &mut Tokens<'_>) -> Result<Goal, Unread>
    ensures { IfOk result (λ goal. (inner next last : List Token) × (tokens.old ≡ begin_object ∷ inner)
        × HasAs (codes "format") number argument_format inner next × HasAs (codes "goal") goal_form goal next last
        × (read_key last ≡ Some (Some (codes "steps"), tokens.new))) }
{
    pass_format(tokens)?;
    tokens.key("goal")?;
    let goal = goal::goal(tokens)?;
    tokens.key("steps")?;
    Ok(goal)
}

// Passes what stands before the goal.
fn pass_format(tokens: &mut Tokens<'_>) -> Result<(), Unread>
    ensures { OnOk result ((inner : List Token) × (tokens.old ≡ begin_object ∷ inner) × HasAs (codes "format") number argument_format inner tokens.new) }
{
    tokens.open_object()?;
    tokens.key("format")?;
    if tokens.number()? == ARGUMENT_FORMAT {
        Ok(())
    } else {
        Err(Unread::OtherForm)
    }
}

/// The text of an argument file.
pub fn argument_to_json(alloc: Global, argument: &Argument) -> Result<String, NoMemory>
    ensures text { IfOk result (λ s. string_bytes s ≡ argument_text argument.now) }
    // What is printed is read again.
    ensures reads_back { IfOk result (λ s. IsTrue (argument_fits argument.now)
        → argument_in (string_bytes s) ≡ Ok argument.now) }
    ensures grammar { OnOk result (IsArgumentInGrammar argument.now) }
{
    let steps = array_of::<Step>(alloc, argument.steps.list())?;
    let value = argument_value(alloc, argument.goal, argument.target, steps)?;
    Ok(document::file_text(alloc, value)?)
}

// The value that the file of an argument holds, of whose steps this is the value.
fn argument_value(alloc: Global, goal: Goal, target: u64, steps: Value) -> Result<Value, AllocError>
    ensures { IfOk result (λ v. view v ≡ object (member (codes "format") (number_value argument_format)
        (member (codes "goal") (string (goal_word goal))
        (member (codes "steps") (view steps)
        (member (codes "target") (number_value target) no_members))))) }
{
    let members = Ok(Map::new(alloc));
    let format = Ok(Value::from(ARGUMENT_FORMAT));
    let members = document::with_member(alloc, members, "format", format);
    let goal = goal::goal_word(goal).to_value(alloc);
    let members = document::with_member(alloc, members, "goal", goal);
    let members = document::with_member(alloc, members, "steps", Ok(steps));
    let target = Ok(Value::from(target));
    document::object(document::with_member(alloc, members, "target", target))
}

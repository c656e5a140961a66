//! The steps of an argument, one after another.
ghost use Rattle.std.specs.Prelude.{◌≡◌, ◌⊎◌, OnOk, IfOk, IfErr, [], ◌∷◌, map, length, All};
ghost use Rattle.tsn_model.specs.Network.{stream_count};
ghost use Rattle.tsn_model.specs.Argument.{IsFact, Argues, opposite, learned_all, settled, shown};
ghost use Rattle.tsn_cert.specs.Fact.{fact_of, clause_of};
ghost use Rattle.tsn_cert.specs.Move.{move_of};
ghost use Rattle.tsn_cert.specs.Argument.{step_of, steps_of};
ghost use Rattle.tsn_argue.specs.Faults.{IsArgumentFault};
ghost use Rattle.tsn_argue.specs.State.{view_of, base_of, IsSound, Becomes};
ghost use Rattle.tsn_argue.specs.Motion.{clauses_of, facts_of, AreFacts};
ghost use Rattle.tsn_argue.specs.Steps.{goal_of, IsAim, IsReady, IsFirst, capped_view, JudgesFact, JudgesFacts, TakesMove, TakesMoves, ShowsStep, TakesStep, KeepsClause, FindsBelow, FindsOpen, known_of, known_on};
ghost use Rattle.tsn_argue.specs.Told.{makes, told_moves, told_shown, told_step, told_of, with_told};

use crate::aim::{Aim, Stop};
use crate::motion::{Shown, judge};
use crate::news::News;
use crate::observer::Observer;
use crate::seen::Marks;
use crate::view::View;
use std::alloc::{AllocError, Global};
use tsn_cert::{Clause, Fact, Move, Step};
use tsn_check::{ArgumentFault, Open, StepFault, Wrong};
use tsn_model::NoMemory;
use tsn_timing::{Timing, is_conflict};

/// What is known between two steps: the view, which is the ground, and the clauses that were shown.
#[derive(Drop)]
pub struct Known<'a> {
    pub view: View<'a>,
    pub clauses: Vec<&'a Clause>,
}

/// Whether each fact is of a stream that is there or a decision on a conflict; else what is wrong with the first that isn't.
fn judge_facts(timing: &Timing, clause: &[Fact]) -> Result<(), StepFault>
    ensures { JudgesFacts timing.now (clause_of clause.now) result }
{
    for (number, fact) in clause.iter().enumerate() {
        if let Err(wrong) = judge_fact(timing, *fact) {
            return Err(StepFault::Fact(number, wrong));
        }
    }
    Ok(())
}

fn judge_fact(timing: &Timing, fact: Fact) -> Result<(), Wrong>
    ensures { JudgesFact timing.now (fact_of fact) result }
{
    match fact {
        Fact::From(stream, _) | Fact::Until(stream, _) => {
            if stream < timing.streams() {
                Ok(())
            } else {
                Err(Wrong::NoStream(stream))
            }
        }
        Fact::Order(order) => {
            let decision = order.decision();
            if is_conflict(timing, decision.triple) {
                Ok(())
            } else {
                Err(Wrong::NoConflict(decision))
            }
        }
        Fact::DoneFrom(_) | Fact::DoneUntil(_) => Ok(()),
    }
}

/// The view learns the opposites of the facts of a clause.
fn suppose(view: &mut View<'_>, clause: &[Fact]) -> Result<(), NoMemory>
    requires sound { IsSound view.old }
    requires facts { All (IsFact view.old.timing.now) (clause_of clause.now) }
    ensures { OnOk result (Becomes view.old view.new (learned_all (view_of view.old) (map opposite (clause_of clause.now)))) }
{
    for fact in clause {
        view.learn(News::opposite_of(*fact))?;
    }
    Ok(())
}

/// Makes the move of this number on the view, if that is possible.
fn make<L: Observer>(
    view: &mut View<'_>,
    clauses: &[&Clause],
    number: usize,
    motion: &Move,
    marks: &mut Marks,
    observer: &mut L,
) -> Result<(), Stop>
    requires sound { IsSound view.old }
    requires facts { AreFacts view.old.timing.now (clauses_of clauses.now) }
    ensures taken { TakesMove view.old view.new (clauses_of clauses.now) number (move_of motion.now) result }
    ensures told { OnOk result (L.heard observer.new ≡ with_told (L.heard observer.old)
        (makes (view_of view.old) (move_of motion.now) (shown view.old.timing.now (clauses_of clauses.now) (view_of view.old) (move_of motion.now)) ∷ [])) }
{
    if view.crossed {
        return Err(Stop::Wrong(StepFault::Move(number, Wrong::Crossed)));
    }
    let shown = match judge(view, clauses, motion, marks) {
        Ok(shown) => shown,
        Err(wrong) => return Err(Stop::Wrong(StepFault::Move(number, wrong))),
    };
    observer.make(view, clauses, motion, shown);
    learn_all(view, shown)?;
    Ok(())
}

/// The view learns what a move shows.
fn learn_all(view: &mut View<'_>, shown: Shown) -> Result<(), NoMemory>
    requires sound { IsSound view.old }
    requires facts { All (IsFact view.old.timing.now) (facts_of shown) }
    ensures { OnOk result (Becomes view.old view.new (learned_all (view_of view.old) (facts_of shown))) }
{
    view.learn(shown.first)?;
    match shown.second {
        Some(second) => view.learn(second),
        None => Ok(()),
    }
}

/// Makes the moves one after another, as far as that is possible.
fn make_all<L: Observer>(
    view: &mut View<'_>,
    clauses: &[&Clause],
    moves: &[Move],
    marks: &mut Marks,
    observer: &mut L,
) -> Result<(), Stop>
    requires sound { IsSound view.old }
    requires facts { AreFacts view.old.timing.now (clauses_of clauses.now) }
    ensures taken { TakesMoves view.old view.new (clauses_of clauses.now) (map move_of moves.now) result }
    ensures told { OnOk result (L.heard observer.new ≡ with_told (L.heard observer.old)
        (told_moves view.old.timing.now (clauses_of clauses.now) (view_of view.old) (map move_of moves.now))) }
{
    for (number, motion) in moves.iter().enumerate() {
        make(view, clauses, number, motion, marks, observer)?;
    }
    Ok(())
}

/// The moves of a step, from the opposites of its clause's facts on: whether they show the clause.
fn show<L: Observer>(
    view: &mut View<'_>,
    clauses: &[&Clause],
    step: &Step,
    marks: &mut Marks,
    observer: &mut L,
) -> Result<(), Stop>
    requires sound { IsSound view.old }
    requires ready { view_of view.old ≡ base_of view.old }
    requires facts { AreFacts view.old.timing.now (clauses_of clauses.now) }
    ensures shows { ShowsStep view.old view.new (clauses_of clauses.now) (step_of step.now) result }
    ensures told { OnOk result (L.heard observer.new ≡ with_told (L.heard observer.old)
        (told_shown view.old.timing.now (known_on view.old (clauses_of clauses.now)) (step_of step.now))) }
{
    if view.crossed {
        return Err(Stop::Wrong(StepFault::Settled));
    }
    let clause = step.clause.list();
    judge_facts(view.timing, clause)?;
    observer.begin(view, step);
    suppose(view, clause)?;
    make_all(view, clauses, step.moves.list(), marks, observer)?;
    if clause.is_empty() {
        return Ok(());
    }
    if view.crossed {
        Ok(())
    } else {
        Err(Stop::Wrong(StepFault::Unshown))
    }
}

/// Where the plan is to be the first, and the flowspan can't be lower, the offsets don't come after the plan's.
fn settle(view: &mut View<'_>, aim: &Aim<'_>) -> Result<(), NoMemory>
    requires sound { IsSound view.old }
    requires aim { IsAim view.old.timing.now aim.now }
    ensures { OnOk result (Becomes view.old view.new (settled view.old.timing.now (goal_of aim.now) (view_of view.old))) }
{
    let Aim::First { plan, flowspan } = *aim else {
        return Ok(());
    };
    if view.done.low < flowspan as i128 {
        return Ok(());
    }
    cap(view, plan)
}

/// None of the offsets is above the plan's, up to the first whose least isn't the plan's.
fn cap(view: &mut View<'_>, plan: &[u64]) -> Result<(), NoMemory>
    requires sound { IsSound view.old }
    requires count { length plan.now ≡ stream_count view.old.timing.now }
    ensures { OnOk result (Becomes view.old view.new (capped_view plan.now (view_of view.old))) }
{
    for stream in 0..plan.len() {
        let offset = plan[stream] as i128;
        view.lower(stream, offset)?;
        if view.low.at(stream) < offset {
            break;
        }
    }
    Ok(())
}

impl<'a> Known<'a> {
    /// What is known before the first step.
    fn first(alloc: Global, timing: &'a Timing, aim: &Aim<'_>) -> Result<Known<'a>, NoMemory>
        requires { IsAim timing.now aim.now }
        ensures { IfOk result (IsFirst timing.now (goal_of aim.now)) }
    {
        let view = View::first(alloc, timing, aim)?;
        Ok(Known {
            view,
            clauses: Vec::new(alloc),
        })
    }

    /// Takes one step after another; else tells the first that is wrong, or what they leave in question.
    fn take_all<L: Observer>(
        &mut self,
        aim: &Aim<'_>,
        steps: &'a [Step],
        marks: &mut Marks,
        observer: &mut L,
    ) -> Result<(), ArgumentFault>
        requires first { IsFirst self.old.view.timing.now (goal_of aim.now) self.old }
        requires aim { IsAim self.old.view.timing.now aim.now }
        ensures ok { OnOk result (Argues self.old.view.timing.now (goal_of aim.now) (steps_of steps.now)) }
        ensures err { IfErr result (λ fault. (fault ≡ ArgumentFault.Memory)
            ⊎ IsArgumentFault self.old.view.timing.now (goal_of aim.now) (steps_of steps.now) fault) }
        ensures told { OnOk result (L.heard observer.new ≡ with_told (L.heard observer.old)
            (told_of self.old.view.timing.now (goal_of aim.now) (steps_of steps.now))) }
    {
        for (number, step) in steps.iter().enumerate() {
            if let Err(stop) = self.take(aim, step, marks, observer) {
                return Err(stop.at(number));
            }
        }
        match judge_end(&self.view, aim) {
            None => Ok(()),
            Some(left) => Err(ArgumentFault::Unfinished(steps.len(), left)),
        }
    }

    /// Takes a step, if it is right.
    fn take<L: Observer>(
        &mut self,
        aim: &Aim<'_>,
        step: &'a Step,
        marks: &mut Marks,
        observer: &mut L,
    ) -> Result<(), Stop>
        requires ready { IsReady self.old }
        requires aim { IsAim self.old.view.timing.now aim.now }
        ensures taken { TakesStep (goal_of aim.now) self.old self.new (step_of step.now) result }
        ensures told { OnOk result (L.heard observer.new ≡ with_told (L.heard observer.old)
            (told_step self.old.view.timing.now (known_of self.old) (step_of step.now))) }
    {
        show(
            &mut self.view,
            self.clauses.as_slice(),
            step,
            marks,
            observer,
        )?;
        observer.end(&self.view, step);
        self.keep_clause(&step.clause)?;
        if step.clause.list().len() <= 1 {
            settle(&mut self.view, aim)?;
            self.view.keep();
        }
        Ok(())
    }

    /// Keeps a clause that was shown, and has the view be the ground again, with the fact, if it is one alone. An empty
    /// clause leaves all as it is.
    fn keep_clause(&mut self, clause: &'a Clause) -> Result<(), NoMemory>
        requires sound { IsSound self.old.view }
        requires facts { All (IsFact self.old.view.timing.now) (clause_of clause.now) }
        ensures { OnOk result (KeepsClause self.old self.new (clause_of clause.now)) }
    {
        let facts = clause.list();
        if facts.is_empty() {
            return Ok(());
        }
        self.view.go_back();
        if let Err(error) = self.clauses.push(clause) {
            return Err(AllocError::from(error).into());
        }
        match facts {
            [fact] => self.view.learn(News::of(*fact)),
            _ => Ok(()),
        }
    }
}

/// What is left in question, if anything is but the plan itself.
fn judge_end(view: &View<'_>, aim: &Aim<'_>) -> Option<Open>
    requires sound { IsSound view.now }
    requires aim { IsAim view.now.timing.now aim.now }
    ensures { FindsOpen view.now.timing.now (goal_of aim.now) (view_of view.now) result }
{
    if view.crossed {
        return None;
    }
    let least = view.done.low;
    match *aim {
        Aim::First { plan, flowspan } => {
            if least < flowspan as i128 {
                let planned = flowspan;
                Some(Open::Flowspan { least, planned })
            } else {
                first_below(view, plan)
            }
        }
        Aim::Least { flowspan, .. } => {
            let planned = flowspan;
            Some(Open::Flowspan { least, planned })
        }
        Aim::None => Some(Open::Any(least)),
    }
}

/// The first stream whose least offset is below that of the plan.
fn first_below(view: &View<'_>, plan: &[u64]) -> Option<Open>
    requires sound { IsSound view.now }
    requires count { length plan.now ≡ stream_count view.now.timing.now }
    ensures { FindsBelow plan.now (view_of view.now) result }
{
    for stream in 0..plan.len() {
        let least = view.low.at(stream);
        let planned = plan[stream];
        if least < planned as i128 {
            return Some(Open::Offset {
                stream,
                least,
                planned,
            });
        }
    }
    None
}

/// Whether the steps are right and settle what is to be shown; else their first fault.
pub fn check_steps<L: Observer>(
    alloc: Global,
    timing: &Timing,
    aim: &Aim<'_>,
    steps: &[Step],
    observer: &mut L,
) -> Result<(), ArgumentFault>
    requires { IsAim timing.now aim.now }
    ensures ok { OnOk result (Argues timing.now (goal_of aim.now) (steps_of steps.now)) }
    ensures err { IfErr result (λ fault. (fault ≡ ArgumentFault.Memory)
        ⊎ IsArgumentFault timing.now (goal_of aim.now) (steps_of steps.now) fault) }
    ensures told { OnOk result (L.heard observer.new ≡ with_told (L.heard observer.old)
        (told_of timing.now (goal_of aim.now) (steps_of steps.now))) }
{
    let mut marks = Marks::none(alloc)?;
    let checked = check_with(alloc, timing, aim, steps, &mut marks, observer);
    drop(marks);
    checked
}

/// The same, where these marks are at hand.
fn check_with<L: Observer>(
    alloc: Global,
    timing: &Timing,
    aim: &Aim<'_>,
    steps: &[Step],
    marks: &mut Marks,
    observer: &mut L,
) -> Result<(), ArgumentFault>
    requires { IsAim timing.now aim.now }
    ensures ok { OnOk result (Argues timing.now (goal_of aim.now) (steps_of steps.now)) }
    ensures err { IfErr result (λ fault. (fault ≡ ArgumentFault.Memory)
        ⊎ IsArgumentFault timing.now (goal_of aim.now) (steps_of steps.now) fault) }
    ensures told { OnOk result (L.heard observer.new ≡ with_told (L.heard observer.old)
        (told_of timing.now (goal_of aim.now) (steps_of steps.now))) }
{
    let mut known = Known::first(alloc, timing, aim)?;
    let taken = known.take_all(aim, steps, marks, observer);
    drop(known);
    taken
}

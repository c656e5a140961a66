//! Why an argument is refused, in words: what its first fault is, with the names of the problem.

use crate::Reason;
use crate::claim::{Claim, line_on_plan, push_wrong_target};
use crate::names::push_stream;
use crate::wrong::push_wrong;
use std::alloc::Global;
use tsn_cert::Goal;
use tsn_check::{ArgumentFault, Open, StepFault};
use tsn_text::pieces::{push_count, push_number, push_signed};
use tsn_text::{TextBuilder, line_of};
use tsn_timing::Problem;

/// The line on a plan or its argument, of the file of this name, with this fault.
pub fn line_on_argument(
    alloc: Global,
    claim: Claim<'_>,
    name: &str,
    fault: ArgumentFault,
) -> Reason {
    if let ArgumentFault::Plan(fault) = fault {
        return line_on_plan(alloc, claim, fault);
    }
    let mut text = line_of(alloc, name);
    push_fault(&mut text, claim, fault);
    Ok(Some(text.finish()?))
}

/// Writes what the fault is; of one of the plan nothing, since that has a line of its own.
fn push_fault(text: &mut TextBuilder, claim: Claim<'_>, fault: ArgumentFault) {
    match fault {
        ArgumentFault::Plan(_) => {}
        ArgumentFault::Memory => text.refuse(),
        ArgumentFault::Target { stated, wanted } => {
            push_wrong_target(text, claim.plan, stated, wanted);
        }
        ArgumentFault::Goal(goal) => push_wrong_goal(text, goal),
        ArgumentFault::Step(number, fault) => push_step(text, claim.problem, number, fault),
        ArgumentFault::Unfinished(count, open) => {
            push_unfinished(text, claim.problem, count, open);
        }
    }
}

/// Writes what the goal is, and has to be.
fn push_wrong_goal(text: &mut TextBuilder, goal: Goal) {
    text.push_str(match goal {
        Goal::None => "goal is \"none\", and has to be \"first\" or \"least\"",
        Goal::First => "goal is \"first\", and has to be \"none\"",
        Goal::Least => "goal is \"least\", and has to be \"none\"",
    });
    text.push_str(match goal {
        Goal::None => ", since the plan is a schedule",
        Goal::First | Goal::Least => ", since the plan is that there is no schedule",
    });
}

/// Writes what is wrong with a step of this number.
fn push_step(text: &mut TextBuilder, problem: &Problem, number: usize, fault: StepFault) {
    push_count(text, "step ", number);
    match fault {
        StepFault::Settled => text.push_str(
            " stands after the argument's end: nothing is in question any more",
        ),
        StepFault::Unshown => text.push_str(": its moves end without a contradiction"),
        StepFault::Fact(fact, wrong) => {
            push_count(text, ", fact ", fact);
            text.push_str(": ");
            push_wrong(text, problem, wrong);
        }
        StepFault::Move(motion, wrong) => {
            push_count(text, ", move ", motion);
            text.push_str(": ");
            push_wrong(text, problem, wrong);
        }
    }
}

/// Writes what all steps, so many, leave in question.
fn push_unfinished(text: &mut TextBuilder, problem: &Problem, count: usize, open: Open) {
    push_count(text, "the argument is unfinished after ", count);
    text.push_str(" steps: the ");
    match open {
        Open::Any(least) => push_signed(text, "flowspan may still be ", least),
        Open::Flowspan { least, planned } => {
            push_signed(text, "flowspan may still be ", least);
            push_number(text, ", and the plan's is ", planned);
        }
        Open::Offset {
            stream,
            least,
            planned,
        } => {
            push_stream(text, problem, "offset of stream ", stream);
            push_signed(text, " may still be ", least);
            push_number(text, ", and the plan's is ", planned);
        }
    }
}

//! Why a tree is refused, in words: what its first fault is, with the names of the problem.

use crate::Reason;
use crate::claim::{Claim, line_on_plan, push_wrong_target};
use crate::offsets::past_end;
use std::alloc::Global;
use tsn_cert::Plan;
use tsn_check::{NodeFault, Shortfall, TreeFault};
use tsn_text::pieces::{push_count, push_number, push_signed};
use tsn_text::{TextBuilder, line_of};

/// The line on a plan or its tree, of the file of this name, with this fault.
pub fn line_on_tree(alloc: Global, claim: Claim<'_>, name: &str, fault: TreeFault) -> Reason {
    if let TreeFault::Plan(fault) = fault {
        return line_on_plan(alloc, claim, fault);
    }
    let mut text = line_of(alloc, name);
    push_fault(&mut text, claim.plan, fault);
    Ok(Some(text.finish()?))
}

/// Writes what the fault is; of one of the plan nothing, since that has a line of its own.
fn push_fault(text: &mut TextBuilder, plan: &Plan, fault: TreeFault) {
    match fault {
        TreeFault::Plan(_) => {}
        TreeFault::Memory => text.refuse(),
        TreeFault::Target { stated, wanted } => push_wrong_target(text, plan, stated, wanted),
        TreeFault::Unfinished(_) | TreeFault::TooLong(_) => text.push_shown(fault.code()),
        TreeFault::Node(number, of_node) => push_node(text, plan, number, of_node),
    }
}

/// Writes what is wrong with the node of this number, for this plan.
fn push_node(text: &mut TextBuilder, plan: &Plan, number: usize, fault: NodeFault) {
    match fault {
        NodeFault::NotConflict
        | NodeFault::ChainBroken
        | NodeFault::StreamRepeated
        | NodeFault::NotOnLink => text.push_shown(TreeFault::Node(number, fault).code()),
        NodeFault::NotSent => push_of_node(
            text,
            number,
            " has a frame that its stream doesn't send",
        ),
        NodeFault::TieTooLow(Shortfall::Bound { bound, least }) => {
            push_count(text, "node ", number);
            push_signed(text, ": the bound ", bound as i128);
            push_number(text, " is below the plan's flowspan ", least);
        }
        NodeFault::TooLow(short) | NodeFault::TieTooLow(short) => {
            push_count(text, "node ", number);
            push_short(text, plan, short);
        }
        NodeFault::TieOfNone => push_of_node(
            text,
            number,
            ": it is a tie, and the plan is that there is no schedule",
        ),
        NodeFault::TieSooner => push_of_node(
            text,
            number,
            ": its chains don't show that each schedule on its path is the plan or comes after it",
        ),
    }
}

// Writes words of a node.
fn push_of_node(text: &mut TextBuilder, number: usize, words: &str) {
    push_count(text, "node ", number);
    text.push_str(words);
}

/// Writes what a leaf for this plan comes to, and has to come to.
fn push_short(text: &mut TextBuilder, plan: &Plan, short: Shortfall) {
    match short {
        Shortfall::Bound { bound, least } => push_bound(text, plan, bound, least),
        Shortfall::Overrun {
            stream,
            end,
            period,
            cycle,
            arrival,
            latest,
        } => {
            push_signed(text, ": the bound ", end as i128);
            push_count(text, " of stream ", stream);
            text.push_str("'s end isn't");
            push_number(text, past_end(period, cycle), period);
            push_signed(text, ", nor the bound ", arrival as i128);
            push_number(text, " of its arrival past its latest instant ", latest);
        }
        Shortfall::Cycle { sum } => {
            push_signed(text, ": the weights of its chain add up to ", sum as i128);
            text.push_str(", and have to be above 0");
        }
        Shortfall::Overload { link, end, cycle } => {
            push_signed(text, ": the bound ", end as i128);
            push_count(text, " of link ", link);
            push_number(text, "'s use isn't past the cycle's end at ", cycle);
        }
    }
}

fn push_bound(text: &mut TextBuilder, plan: &Plan, bound: i64, least: u64) {
    push_signed(text, ": the bound ", bound as i128);
    match plan {
        Plan::Schedule { flowspan, .. } if least > *flowspan => {
            push_number(text, " is below ", least);
            text.push_str(", one more than the target");
        }
        _ => push_number(text, " is below the target ", least),
    }
}

//! What is wrong with a fact or a move of an argument, in words.

use crate::names::{push_frame, push_later, push_link, push_stream};
use tsn_check::Wrong;
use tsn_model::{Decision, Frame, Side};
use tsn_text::TextBuilder;
use tsn_text::pieces::{push_count, push_number, push_signed};
use tsn_timing::Problem;

const CROSSED: &str = "behind the moves before it nothing is in question any more";

const OF_OTHERS: &str = "its orders aren't of the same streams, the same one first";

/// Writes what is wrong.
pub fn push_wrong(text: &mut TextBuilder, problem: &Problem, wrong: Wrong) {
    match wrong {
        Wrong::Crossed => text.push_str(CROSSED),
        Wrong::NoneChosen => text.push_str("it is bounded by none of the others"),
        Wrong::NotClosed => text.push_str("its orders don't lead back to where they begin"),
        Wrong::OfOthers => text.push_str(OF_OTHERS),
        Wrong::NoStream(stream) => push_count(text, "there is no stream ", stream),
        Wrong::NoClause { number, shown } => push_no_clause(text, number, shown),
        Wrong::Left { number, left } => push_left(text, number, left),
        Wrong::Weight(sum) => push_weight(text, sum),
        Wrong::NotOnLink { stream, link } => push_not_on_link(text, problem, stream, link),
        Wrong::NoFrame(frame) => push_no_frame(text, problem, frame),
        Wrong::Repeated(frame) => push_frame(text, problem, frame, " stands twice"),
        Wrong::NotAmong(frame) => push_frame(text, problem, frame, " is none of the others"),
        Wrong::NoConflict(decision) => push_no_conflict(text, problem, decision),
        Wrong::NoOrder(decision) => push_no_order(text, problem, decision),
        Wrong::InReach {
            stream,
            least,
            most,
        } => push_in_reach(text, problem, stream, least, most),
        Wrong::Stronger {
            decision,
            asked,
            known,
        } => push_stronger(text, problem, decision, asked, known),
        Wrong::Room {
            link,
            bound,
            end,
            of_others,
        } => {
            push_room(text, bound, end, of_others);
            push_link(text, problem, " on link ", link);
        }
        Wrong::Movable(frame) => push_frame(text, problem, frame, " can still move"),
        Wrong::Open { link, place } => push_open(text, problem, link, place),
        Wrong::OutOfTurn(frame) => {
            push_frame(
                text,
                problem,
                frame,
                " doesn't begin behind the ones before it",
            );
        }
        Wrong::Filled { link, lost, idle } => push_filled(text, problem, link, lost, idle),
    }
}

// Writes that a clause wasn't shown.
fn push_no_clause(text: &mut TextBuilder, number: usize, shown: usize) {
    push_count(text, "clause ", number);
    push_count(text, " wasn't shown before: there are ", shown);
}

// Writes that a clause leaves more than one fact.
fn push_left(text: &mut TextBuilder, number: usize, left: usize) {
    push_count(text, "clause ", number);
    push_count(text, " has ", left);
    text.push_str(" facts left, and may have at most 1");
}

// Writes what weights add up to.
fn push_weight(text: &mut TextBuilder, sum: i64) {
    push_signed(text, "the weights of its orders add up to ", sum as i128);
    text.push_str(", and have to be above 0");
}

// Writes that a stream doesn't use a link.
fn push_not_on_link(text: &mut TextBuilder, problem: &Problem, stream: usize, link: usize) {
    push_stream(text, problem, "stream ", stream);
    push_link(text, problem, " doesn't use link ", link);
}

// Writes that the stream of a frame sends no such frame.
fn push_no_frame(text: &mut TextBuilder, problem: &Problem, frame: Frame) {
    push_stream(text, problem, "stream ", frame.stream);
    push_number(text, " sends no frame ", frame.shift);
    text.push_str(" ns after its offset");
}

// Writes that two streams have no such conflict.
fn push_no_conflict(text: &mut TextBuilder, problem: &Problem, decision: Decision) {
    let Order { first, second, .. } = order_of(decision);
    push_stream(text, problem, "stream ", first);
    push_stream(text, problem, " and stream ", second);
    push_link(
        text,
        problem,
        " have no conflict on link ",
        decision.triple.link,
    );
    if decision.triple.lag != 0 {
        push_signed(text, ", with a lag of ", decision.triple.lag as i128);
    }
}

// Writes which order isn't known.
fn push_no_order(text: &mut TextBuilder, problem: &Problem, decision: Decision) {
    let Order {
        first,
        second,
        later,
    } = order_of(decision);
    push_stream(text, problem, "it isn't known that stream ", first);
    push_stream(text, problem, " goes before stream ", second);
    push_later(text, later);
    push_link(text, problem, " on link ", decision.triple.link);
}

// Writes that the least offset by the other order isn't above the greatest one.
fn push_in_reach(
    text: &mut TextBuilder,
    problem: &Problem,
    stream: usize,
    least: i128,
    most: i128,
) {
    push_signed(text, "by the other order the bound ", least);
    push_stream(text, problem, " of stream ", stream);
    push_signed(text, "'s offset isn't past its greatest one ", most);
}

// Writes by how much an order asks for more than is known.
fn push_stronger(
    text: &mut TextBuilder,
    problem: &Problem,
    decision: Decision,
    asked: i64,
    known: i64,
) {
    let Order { first, second, .. } = order_of(decision);
    push_stream(text, problem, "what follows has stream ", second);
    push_signed(text, " start at least ", asked as i128);
    push_stream(text, problem, " ns after stream ", first);
    push_signed(text, ", and what is known only ", known as i128);
    text.push_str(" ns");
}

// Writes that frames have room on a link, by the bound of their use and the latest end.
fn push_room(text: &mut TextBuilder, bound: i128, end: i128, of_others: bool) {
    push_signed(text, "the bound ", bound);
    text.push_str(" of their use isn't past ");
    text.push_str(if of_others { "the others'" } else { "their" });
    push_signed(text, " latest end ", end);
}

// Writes that a frame may begin at a place.
fn push_open(text: &mut TextBuilder, problem: &Problem, link: usize, place: u64) {
    push_number(text, "sums of works let the frame begin at ", place);
    push_link(text, problem, " on link ", link);
}

// Writes that frames leave no more of their rooms than the idle time.
fn push_filled(text: &mut TextBuilder, problem: &Problem, link: usize, lost: u64, idle: u64) {
    push_number(text, "the ", lost);
    push_number(
        text,
        " ns that sums of works leave aren't more than the ",
        idle,
    );
    push_link(text, problem, " ns of idle time on link ", link);
}

// Two streams of a decision, the one first that goes first.
#[derive(Clone, Copy)]
struct Order {
    first: usize,
    second: usize,
    /// By how much the frame of the second one comes after that of the first one, were both offsets 0.
    later: i64,
}

fn order_of(decision: Decision) -> Order {
    let Decision { triple, side } = decision;
    match side {
        Side::Left => Order {
            first: triple.left,
            second: triple.right,
            later: triple.lag,
        },
        Side::Right => Order {
            first: triple.right,
            second: triple.left,
            later: 0i64.saturating_sub(triple.lag),
        },
    }
}

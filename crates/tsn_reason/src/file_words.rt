//! Why a plan file or a certificate file is refused, in words.

use crate::Reason;
use std::alloc::Global;
use tsn_cert::chain::MAX_NUMBER;
use tsn_cert::limits::MAX_LAG;
use tsn_cert::plan::MAX_TIME;
use tsn_cert::{Excess, Misfit, Part, Refused};
use tsn_model::NoMemory;
use tsn_text::pieces::{push_count, push_name, push_number};
use tsn_text::{TextBuilder, line_of};

// What a number has to be before its limit is looked at.
const NO_NUMBER: &str = " has to be a whole number below 2^64, in digits alone";

/// The line on a network file of this name that is refused, with what is told of it; nothing where there was no memory for that.
pub fn network_line(alloc: Global, name: &str, told: Option<String>) -> Reason {
    let Some(words) = told else {
        return Err(NoMemory);
    };
    let mut text = line_of(alloc, name);
    text.push_str(words.as_str());
    Ok(Some(text.finish()?))
}

/// Why the file of this name is refused.
pub fn file_line(alloc: Global, name: &str, refused: &Refused) -> Reason {
    let mut text = line_of(alloc, name);
    match refused {
        Refused::NotJson(error) => text.push_shown(error),
        Refused::WrongShape(misfit) => push_misfit(&mut text, misfit),
        Refused::NumberTooLarge(excess) => push_excess(&mut text, *excess),
        Refused::Memory => text.refuse(),
    }
    Ok(Some(text.finish()?))
}

fn push_misfit(text: &mut TextBuilder, misfit: &Misfit) {
    match misfit {
        Misfit::NoObject => text.push_str("it has to be an object"),
        Misfit::OtherFormat => text.push_str("format has to be 1, 2 or 3"),
        Misfit::Missing(key) => push_around(text, "the key ", key.name(), " is missing"),
        Misfit::Unknown(key) => {
            push_name(text, "the key ", key.as_str());
            text.push_str(" has no place in it");
        }
        Misfit::OneNull => text.push_str("flowspan and offsets have to be null both or neither"),
        Misfit::OtherGoal => text.push_str("goal has to be \"first\", \"least\" or \"none\""),
        Misfit::NoNumber(key) => push_around(text, "", key.name(), NO_NUMBER),
        Misfit::NoArray(key) => push_around(text, "", key.name(), " has to be an array"),
        Misfit::NoOffset(number) => {
            push_count(text, "offset ", *number);
            text.push_str(NO_NUMBER);
        }
        Misfit::NoNode(number, format) => {
            push_count(text, "node ", *number);
            push_number(text, " has none of the forms of format ", format.number());
        }
        Misfit::NoStep(number) => {
            push_count(text, "step ", *number);
            text.push_str(" has to be an array of two arrays, of facts and of moves");
        }
        Misfit::NoPart(step, part) => {
            push_part(text, *step, *part);
            text.push_str(" has none of the forms of format 3");
        }
    }
}

// Writes a name between words.
fn push_around(text: &mut TextBuilder, before: &str, name: &str, behind: &str) {
    text.push_str(before);
    text.push_str(name);
    text.push_str(behind);
}

// Writes which part of a step it is, by its number.
fn push_part(text: &mut TextBuilder, step: usize, part: Part) {
    push_count(text, "step ", step);
    match part {
        Part::Fact(number) => push_count(text, ", fact ", number),
        Part::Move(number) => push_count(text, ", move ", number),
    }
}

fn push_excess(text: &mut TextBuilder, excess: Excess) {
    match excess {
        Excess::At(key, number) => {
            text.push_str(key.name());
            push_late(text, number);
        }
        Excess::OfOffset(place, number) => {
            push_count(text, "offset ", place);
            push_late(text, number);
        }
        Excess::OfNode { number, lags } => {
            push_count(text, "node ", number);
            push_large(text, lags);
        }
        Excess::OfPart { step, part, lags } => {
            push_part(text, step, part);
            match (part, lags) {
                (Part::Fact(_), false) => {
                    push_number(text, " has a time above ", MAX_TIME);
                    push_count(text, ", or another number above ", MAX_NUMBER);
                }
                (Part::Fact(_), true) | (Part::Move(_), _) => push_large(text, lags),
            }
        }
    }
}

// Writes that a time is this, which is too large.
fn push_late(text: &mut TextBuilder, time: u64) {
    push_number(text, " is ", time);
    push_number(text, ", and may be at most ", MAX_TIME);
}

/// Writes that one of some numbers, of which none is a time, is too large; a lag is told, where there are any.
fn push_large(text: &mut TextBuilder, lags: bool) {
    if lags {
        push_number(text, " has a lag whose size is above ", MAX_LAG);
        push_count(text, ", or another number above ", MAX_NUMBER);
    } else {
        push_count(text, " has a number above ", MAX_NUMBER);
    }
}

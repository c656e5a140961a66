//! Measures parts of the search.

mod book;
mod least;

use std::process::ExitCode;
use std::rt::{Clock, Files};
use std::{fs, io};

/// Runs the measurement that the words ask for, or refuses them.
pub fn measure<R: Clock + Files + Print + Eprint + AllocGlobal>(
    rt: &R,
    words: &[String],
) -> io::Result<ExitCode> {
    let [part, first, second] = words else {
        return Ok(refuse(rt));
    };
    match first.parse::<usize>() {
        Ok(count) => end(rt, part_of(rt, part.as_str(), count, second.as_str())?),
        Err(_) => Ok(refuse(rt)),
    }
}

// Measures that part of the search; false where there is no such part.
fn part_of<R: Clock + Files + Print + Eprint + AllocGlobal>(
    rt: &R,
    part: &str,
    count: usize,
    second: &str,
) -> io::Result<bool> {
    match part {
        "least" => match second.parse::<usize>() {
            Ok(calls) => least::measure(rt, count, calls),
            Err(_) => Ok(false),
        },
        "book" => book::measure(rt, &fs::read(rt, second)?, count),
        _ => Ok(false),
    }
}

fn end<R: Eprint>(rt: &R, is_measured: bool) -> io::Result<ExitCode> {
    Ok(if is_measured {
        ExitCode::SUCCESS
    } else {
        refuse(rt)
    })
}

fn refuse<R: Eprint>(rt: &R) -> ExitCode {
    let _ = eprintln!(rt; "usage: tsn_calls [least STREAMS CALLS | book EVENTS FILE]");
    ExitCode::from(2)
}

//! Rows of text: what is asked, and behind ` = ` what comes out. What is asked is a line, so a test is a table and one call.
//! Each step stands in a function of its own, which ends the test where it fails: so no proof sees more than one step.

use crate::nodes::looks::{print_fitting, print_look, print_look_from};
use crate::nodes::shared_links::{print_arc, print_overlap, print_triples};
use std::process::Abort;
use tsn_networks::Network;
use tsn_timing::Timing;

/// What comes out has to be this.
pub fn expect_text(rt: &impl Abort, found: &str, wanted: &str, asked: &str) {
    assert_eq!(rt; found, wanted, "{asked}");
}

/// The two sides of a text where this mark stands for the first time.
pub fn cut<'a>(rt: &impl Abort, text: &'a str, mark: &str) -> (&'a str, &'a str) {
    text.split_once(mark).expect(rt, "a row with that mark")
}

pub fn number(rt: &impl Abort, text: &str) -> u64 {
    text.parse::<u64>().expect(rt, "a number")
}

/// The number of a link, a stream or a teller.
pub fn place(rt: &impl Abort, text: &str) -> usize {
    number(rt, text) as usize
}

/// Numbers between spaces.
pub fn numbers<R: Abort + AllocGlobal>(rt: &R, text: &str) -> Vec<u64> {
    let mut list = Vec::new(rt.alloc());
    for word in text.split(' ') {
        list.push(number(rt, word)).expect(rt, "memory");
    }
    list
}

/// The times of a network with that cycle, in nanoseconds.
pub fn timing_of<R: Abort + AllocGlobal>(rt: &R, network: Network, cycle: &str) -> Timing {
    network
        .timing(rt.alloc(), number(rt, cycle))
        .expect(rt, "a network")
}

fn answer<R: Abort + AllocGlobal>(rt: &R, timing: &Timing, what: &str, asked: &str) -> String {
    match what {
        "look" => print_look(rt, timing, asked),
        "from" => print_look_from(rt, timing, asked),
        "fits" => print_fitting(rt, timing, asked),
        "shared" => print_triples(rt, timing),
        "arc" => print_arc(rt, timing, asked),
        "overlap" => print_overlap(rt, timing, asked),
        _ => panic!(rt; "nothing answers that"),
    }
}

fn answer_in<R: Abort + AllocGlobal>(rt: &R, network: Network, asked: &str) -> String {
    let (cycle, asked) = cut(rt, asked, ", ");
    let (what, asked) = cut(rt, asked, " ");
    let timing = timing_of(rt, network, cycle);
    let found = answer(rt, &timing, what, asked);
    drop(timing);
    found
}

/// Each row of that network holds, `CYCLE, WHAT: ..`. A line behind `#` says what the next rows are about.
pub fn expect_rows<R: Abort + AllocGlobal>(rt: &R, network: Network, rows: &str) {
    for row in rows.lines() {
        if !row.starts_with('#') {
            expect_row(rt, network, row);
        }
    }
}

fn expect_row<R: Abort + AllocGlobal>(rt: &R, network: Network, row: &str) {
    let (asked, wanted) = cut(rt, row, " =");
    let found = answer_in(rt, network, asked);
    expect_text(rt, found.as_str(), wanted.trim_ascii(), asked);
}

//! Arcs put in and taken out again. What puts an arc in does nothing else, as what calls the solver.

use crate::offsets::arcs::{arc_of, expect_same};
use std::alloc::{AllocError, Global};
use std::process::Abort;
use std::test::Fail;
use tsn_diff::{ArcStack, Net};
use tsn_model::{Arc, NoMemory};

/// Puts an arc in, or finds the chain that it closes.
fn put_in(rt: &impl Abort, stack: &mut ArcStack, arc: Arc) -> Result<Option<Vec<usize>>, NoMemory> {
    assert!(rt; stack.takes(&arc));
    stack.push(arc)
}

/// Takes the last arc out.
fn take_out(rt: &impl Abort, stack: &mut ArcStack) {
    assert!(rt; !stack.arcs().is_empty());
    stack.pop();
}

/// The offsets, the streams that the last arc raised, and how many arcs there are.
fn state_text(alloc: Global, stack: &ArcStack) -> Result<String, AllocError> {
    let offsets = stack.least().offsets();
    let raised = stack.raised();
    let count = stack.arcs().len();
    format!(in alloc; "{offsets:?} {raised:?} {count}")
}

/// Does one step: an arc is put in, or the last one is taken out. Tells the chain that the arc closes.
fn step(rt: &impl Abort, stack: &mut ArcStack, text: &str) -> Result<Option<Vec<usize>>, Fail> {
    if text == "out" {
        take_out(rt, stack);
        return Ok(None);
    }
    Ok(put_in(rt, stack, arc_of(text)?)?)
}

/// What a step came to.
fn step_text(
    alloc: Global,
    closed: &Option<Vec<usize>>,
    state: String,
) -> Result<String, AllocError> {
    match closed {
        Some(chain) => format!(in alloc; "closed {chain:?} {state}"),
        None => Ok(state),
    }
}

/// Does the steps of a table, and compares what each line tells of one.
fn expect_steps<R: Abort + AllocGlobal>(
    rt: &R,
    stack: &mut ArcStack,
    table: &str,
) -> Result<(), Fail> {
    for line in table.lines() {
        let (text, wanted) = line.split_once(": ").ok_or("no answer")?;
        let closed = step(rt, stack, text)?;
        let told = step_text(rt.alloc(), &closed, state_text(rt.alloc(), stack)?)?;
        expect_same(rt, told.as_str(), wanted);
    }
    Ok(())
}

const STEPS: &str = "0 1 5: [100, 105, 0] [1] 1
1 2 -2: [100, 105, 103] [2] 2
0 2 1: [100, 105, 103] [] 3
2 1 3: closed [1, 3] [100, 105, 103] [] 3
2 1 2: [100, 105, 103] [] 4
0 1 7: [100, 107, 105] [1, 2] 5
2 0 -4: closed [4, 1, 5] [100, 107, 105] [1, 2] 5
1 1 1: closed [5] [100, 107, 105] [1, 2] 5
out: [100, 105, 103] [] 4
out: [100, 105, 103] [] 3
out: [100, 105, 103] [2] 2
out: [100, 105, 0] [1] 1
out: [100, 0, 0] [] 0
0 1 4: [100, 104, 0] [1] 1
";

/// A raise that comes to a stream again by a longer way.
const ROUND: &str = "1 3 1: [0, 0, 0, 1] [3] 1
1 2 9: [0, 0, 9, 1] [2] 2
2 3 9: [0, 0, 9, 18] [3] 3
0 1 20: [0, 20, 29, 38] [1, 3, 2] 4
";

fn stack_of(alloc: Global, net: Net) -> Result<ArcStack, NoMemory> {
    ArcStack::new(alloc, net)
}

#[test]
fn arcs_go_in_and_out(rt: HostRuntime) -> Result<(), Fail> {
    let releases = Vec::from_slice(rt.alloc(), &[100, 0, 0])?;
    let mut stack = stack_of(rt.alloc(), Net::released(releases))?;
    expect_steps(&rt, &mut stack, STEPS)?;
    let mut stack = stack_of(rt.alloc(), Net::new(4))?;
    expect_steps(&rt, &mut stack, ROUND)
}

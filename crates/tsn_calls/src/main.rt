//! Calls of the libraries that no command makes, over two networks. A call that meets want of memory is made once more: what it
//! was lent is as before, so nothing else that is printed changes. `bench/refused.py` refuses each call for memory in turn.
//! A function makes one call and hands on little of what its contract says: all of it would stand in the way of each further
//! proof. What has many fields goes to `drop`, so that how it is let go is no part of the function's own proof.
//!
//! With words it measures parts of the search instead. What was found goes to standard output, and how long it took, in
//! nanoseconds, to standard error.
//!
//! - `tsn_calls least STREAMS CALLS`: least offsets of so many streams, so many times.
//! - `tsn_calls book EVENTS FILE`: so many splits of the search of that network, settled in a book.
#![tactic(auto)]

ghost use Rattle.tsn_conflict.specs.Kept.{AreConflictsOf};

mod bench;
mod looks;
mod offsets;
mod search;
mod settlements;
mod steps;
mod told;

use std::io::ErrorKind;
use std::process::ExitCode;
use std::rt::{Clock, Env, Files};
use std::{env, io};
use tsn_conflict::conflicts;
use tsn_conflict::sharing::Conflicts;
use tsn_model::NoMemory;
use tsn_networks::{Network, TEN, TWO};
use tsn_timing::Timing;

// Memory was wanting twice, or where nothing was called yet.
const MEMORY: u8 = 7;

fn main(rt: HostRuntime) -> ExitCode {
    match run(&rt) {
        Ok(code) => code,
        Err(error) if error.kind() == ErrorKind::OutOfMemory => ExitCode::from(MEMORY),
        Err(_) => ExitCode::FAILURE,
    }
}

// Makes the calls where there are no words, and measures what the words ask for.
fn run<R: Env + Clock + Files + Print + Eprint + AllocGlobal>(rt: &R) -> io::Result<ExitCode> {
    let words: Vec<String> = env::args(rt)?.collect(rt.alloc())?;
    match words.as_slice() {
        [] | [_] => Ok(call(rt)),
        [_, words @ ..] => bench::measure(rt, words),
    }
}

fn call<R: Print + AllocGlobal>(rt: &R) -> ExitCode {
    match call_networks(rt) {
        Ok(()) => ExitCode::SUCCESS,
        Err(NoMemory) => ExitCode::from(MEMORY),
    }
}

fn call_networks<R: Print + AllocGlobal>(rt: &R) -> Result<(), NoMemory> {
    call_all(rt, "two streams", TWO)?;
    call_all(rt, "star of ten", TEN)
}

// Makes the calls over a network.
fn call_all<R: Print + AllocGlobal>(rt: &R, name: &str, network: Network) -> Result<(), NoMemory> {
    match network.timing(rt.alloc(), 1_000_000) {
        Some(timing) => call_over(rt, name, &timing),
        None => Err(NoMemory),
    }
}

fn call_over<R: Print + AllocGlobal>(rt: &R, name: &str, timing: &Timing) -> Result<(), NoMemory> {
    if timing.streams() > 128 {
        return Err(NoMemory);
    }
    let shared = conflicts(rt.alloc(), timing)?;
    told::tell_network(rt, name);
    call_each(rt, timing, &shared)
}

fn call_each<R: Print + AllocGlobal>(
    rt: &R,
    timing: &Timing,
    shared: &Conflicts,
) -> Result<(), NoMemory>
    requires { AreConflictsOf timing.now shared.now }
{
    offsets::call(rt, shared, timing.streams())?;
    search::call(rt, timing, shared)
}

//! Runs the commands over tables of rows, as the program does over files, and tells each row that goes wrong. The tables are those of the
//! folder, or those that the words name; docs/rows.md says how a table is written.
#![tactic(auto)]

mod command;
mod console;
mod devices;
mod failing;
mod folder;
mod session;
mod text;

use crate::session::{Session, Tally};
use anyhow::{Context, Result};
use std::process::ExitCode;
use std::rt::{Env, Files};
use std::sync::Wait;
use std::thread::Threads;
use std::{env, fs};

fn main(rt: HostRuntime) -> Result<ExitCode> {
    let tally = run(&rt)?;
    let (held, wrong) = (tally.held, tally.wrong);
    if wrong > 0 || held == 0 {
        println!(&rt; "{wrong} rows don't hold, and {held} do")?;
        return Ok(ExitCode::FAILURE);
    }
    println!(&rt; "all rows hold")?;
    Ok(ExitCode::SUCCESS)
}

// Runs the rows of the tables that the words name, and else of each in the folder.
fn run<R: Env + Files + Print + AllocGlobal + Threads + Wait + Sync + Clone + Drop>(
    rt: &R,
) -> Result<Tally> {
    let words: Vec<String> = env::args(rt)?.collect(rt.alloc())?;
    match words.as_slice() {
        [] | [_] => run_tables(rt, &tables(rt)?),
        [_, names @ ..] => run_tables(rt, names),
    }
}

// The names of the folder's tables.
fn tables<R: Files + AllocGlobal + Clone + Drop>(rt: &R) -> Result<Vec<String>> {
    let mut names = Vec::new(rt.alloc());
    for entry in fs::read_dir(rt, ".")? {
        let entry = entry?;
        if entry.file_name().ends_with(".rows") {
            names.push(String::from_str(rt.alloc(), entry.file_name())?)?;
        }
    }
    names.sort()?;
    Ok(names)
}

fn run_tables<R: Files + Print + AllocGlobal + Threads + Wait + Sync>(
    rt: &R,
    names: &[String],
) -> Result<Tally> {
    let mut tally = Tally::default();
    for name in names {
        let text = fs::read_to_string(rt, name.as_str()).context(format_args!("reading {name}"))?;
        let mut session = Session::new(rt, name.as_str());
        tally = tally.with(session.run(text.as_str())?);
    }
    Ok(tally)
}

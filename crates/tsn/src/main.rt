//! The program: its words, the command that they ask for, and the status with which it ends.
#![tactic(auto)]

use std::alloc::{AllocError, Global};
use std::fs::{File, OpenOptions};
use std::io::ErrorKind;
use std::os::fd::AsRawFd;
use std::process::ExitCode;
use std::rt::{Clock, Env, Files};
use std::sync::Wait;
use std::thread::Threads;
use std::{env, fs, io};
use tsn_outcome::{System, doubled_in, no_memory, refuse, show};
use tsn_words::{Words, WordsFault, words_from};

fn main(rt: HostRuntime) -> ExitCode {
    // (no file that is opened later takes the place of a standard stream)
    let stand_ins = [stand_in(&rt), stand_in(&rt), stand_in(&rt)];
    let status = match run(&rt) {
        Ok(status) => status,
        Err(error) if error.kind() == ErrorKind::OutOfMemory => no_memory(&rt),
        Err(_) => refuse(&rt, "error: the words aren't UTF-8\n"),
    };
    drop(stand_ins);
    ExitCode::from(status)
}

// Stands for the first standard stream that is closed, if one is. What reads from it or writes to it fails, as it does where
// the stream is closed.
fn stand_in(rt: &HostRuntime) -> Option<File> {
    let file = fs::open(rt, "/dev/null")
        .or_else(|_| fs::open(rt, "/"))
        .ok()?;
    match file.as_raw_fd() {
        0 => {
            drop(file);
            let unread = OpenOptions::new().write(true).open(rt, "/dev/null");
            unread.or_else(|_| fs::open(rt, "/")).ok()
        }
        1 | 2 => Some(file),
        _ => None,
    }
}

// Reads the words, runs the command that they ask for, and says the status.
fn run<R: Env + Files + Input + Print + Eprint + Clock + AllocGlobal + Threads + Wait + Sync>(
    rt: &R,
) -> io::Result<u8> {
    let alloc = rt.alloc();
    let args: Vec<String> = env::args(rt)?.collect(alloc)?;
    let mut words = Vec::with_capacity(alloc, args.len())?;
    for arg in &args {
        words.push(arg.as_str())?;
    }
    match words_from(alloc, words.as_slice()) {
        Ok(words) => Ok(run_command(rt, alloc, words)),
        Err(WordsFault::Refused(text)) => Ok(refuse(rt, text.as_str())),
        Err(WordsFault::Asked(text)) => Ok(show(alloc, rt, rt, text.as_str())),
        Err(WordsFault::Memory) => Ok(no_memory(rt)),
    }
}

// Runs a command over the files that its words name, standard input and standard output, and says the status. Where a file is
// refused, or a device fails, a line is told on why. Words that name a file twice are refused.
fn run_command<'a, R: Files + Input + Print + Eprint + Clock + Threads + Wait + Sync>(
    rt: &'a R,
    alloc: Global,
    words: Words<'a>,
) -> u8 {
    match doubled_in(rt, alloc, &words) {
        Ok(Some(text)) => refuse(rt, text.as_str()),
        Ok(None) => {
            let mut system = System {
                rt,
                alloc,
                output: rt,
                told: rt,
            };
            tsn_command::run(rt, rt, alloc, &mut system, words)
        }
        Err(AllocError) => no_memory(rt),
    }
}

//! The commands over the files of a folder, from their words on.

use crate::console::NoConsole;
use crate::devices::{Devices, FolderDevices, RunResult};
use crate::folder::Folder;
use std::alloc::{AllocError, Global};
use std::sync::Wait;
use std::thread::Threads;
use tsn_outcome::run::{DONE, WORDS};
use tsn_words::{Words, WordsFault, words_from};

/// Runs the command that the words ask for; the first word is the program's name. A file that it is to write is kept, where
/// it is made: with its first byte.
pub fn run<R: AllocGlobal + Threads + Wait + Sync>(
    rt: &R,
    words: &[&str],
    folder: &mut Folder,
) -> Result<RunResult, AllocError> {
    let outcome = run_over(rt, words, folder, Devices::Good)?;
    match words_from(rt.alloc(), words) {
        Ok(Words::Plan(words)) => keep_both(folder, words.plan, words.cert, &outcome)?,
        Ok(Words::Prove(words)) => keep_both(folder, words.plan, words.cert, &outcome)?,
        _ => {}
    }
    Ok(outcome)
}

/// Runs the command over devices that work like this, and keeps no file. Where it is to be told how far a search has got, neither
/// clock nor standard error works.
pub fn run_over<R: AllocGlobal + Threads + Wait + Sync>(
    rt: &R,
    words: &[&str],
    folder: &Folder,
    devices: Devices,
) -> Result<RunResult, AllocError> {
    let alloc = rt.alloc();
    match words_from(alloc, words) {
        Ok(words) => {
            let mut given = FolderDevices::new(alloc, folder, devices);
            let status = tsn_command::run(rt, &NoConsole, alloc, &mut given, words);
            Ok(given.into_outcome(status))
        }
        Err(WordsFault::Refused(told)) => Ok(refused(alloc, told)),
        Err(WordsFault::Asked(text)) => Ok(asked(alloc, text)),
        Err(WordsFault::Memory) => Err(AllocError),
    }
}

fn refused(alloc: Global, told: String) -> RunResult {
    RunResult {
        status: WORDS,
        output: Vec::new(alloc),
        plan: Vec::new(alloc),
        cert: Vec::new(alloc),
        told,
    }
}

fn asked(alloc: Global, text: String) -> RunResult {
    RunResult {
        status: DONE,
        output: text.into_bytes(),
        plan: Vec::new(alloc),
        cert: Vec::new(alloc),
        told: String::new(alloc),
    }
}

// Keeps the files of a plan and a certificate.
fn keep_both(
    folder: &mut Folder,
    plan: Option<&str>,
    cert: Option<&str>,
    outcome: &RunResult,
) -> Result<(), AllocError> {
    keep(folder, plan, &outcome.plan)?;
    keep(folder, cert, &outcome.cert)
}

// Keeps a file that was asked for and is made: it is made when its first byte is written.
fn keep(folder: &mut Folder, name: Option<&str>, bytes: &[u8]) -> Result<(), AllocError> {
    match name {
        Some(name) if !bytes.is_empty() => folder.write(
            name,
            Vec::from_slice(folder.alloc(), bytes)?,
        ),
        _ => Ok(()),
    }
}

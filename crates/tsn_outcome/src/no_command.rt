//! What is told where no command runs.

use crate::reason::failure_line;
use crate::run::{DONE, MEMORY, NO_MEMORY_LINE, WORDS, finish};
use std::alloc::Global;
use std::io;
use tsn_device::WriterSink;

/// What standard output is called.
pub(crate) const STANDARD_OUTPUT: &str = "standard output";

/// Writes a text that the words asked for to standard output, and says the status.
pub fn show<P: Print, E: Eprint>(alloc: Global, output: &P, told: &E, text: &str) -> u8 {
    let mut sink = WriterSink::new(STANDARD_OUTPUT, io::writer(output));
    let status = finish(&mut sink, DONE, text.as_bytes());
    let line = failure_line(alloc, status, sink.failure());
    drop(sink);
    if let Some(line) = line {
        let line = line.as_str();
        let _ = eprintln!(told; "tsn: {line}");
    }
    status
}

/// Tells on standard error why the words are refused, and says the status.
pub fn refuse<E: Eprint>(told: &E, text: &str) -> u8 {
    let _ = eprint!(told; "{text}");
    WORDS
}

/// Writes to standard output that memory was refused, before any command runs, and says the status.
pub fn no_memory<P: Print>(output: &P) -> u8 {
    let mut sink = WriterSink::new(STANDARD_OUTPUT, io::writer(output));
    finish(&mut sink, MEMORY, NO_MEMORY_LINE)
}

//! Which device failed, or gave too much, in a line of words.
ghost use Rattle.std.specs.Prelude.{◌<◌, IsSome};

use crate::devices::Opened;
use crate::run::{DEVICE, MAX_FILE};
use std::alloc::{AllocError, Global};
use tsn_device::device::ReadFault;
use tsn_device::{Action, Failure};
use tsn_text::line_of;

/// Why what a run reads was not read whole, if it wasn't.
pub fn fault_of<A>(answered: &Result<A, ReadFault>) -> Option<ReadFault> {
    match answered {
        Ok(_) => None,
        Err(fault) => Some(*fault),
    }
}

/// The line on a source, where it ended a run with this fault.
pub fn source_line<S: Opened>(
    alloc: Global,
    fault: Option<ReadFault>,
    source: &S,
) -> Option<String> {
    match fault {
        Some(ReadFault::TooLong) => too_long_line(alloc, source.name(), source.count()),
        Some(ReadFault::Broken) => failure_line(alloc, DEVICE, source.failure()),
        Some(ReadFault::Memory) | None => None,
    }
}

/// The line on a file of which a write failed, where that ended a run with this fault.
pub fn write_line(
    alloc: Global,
    fault: Option<ReadFault>,
    failure: Option<Failure<'_>>,
) -> Option<String> {
    match fault {
        Some(ReadFault::Broken) => failure_line(alloc, DEVICE, failure),
        Some(ReadFault::TooLong | ReadFault::Memory) | None => None,
    }
}

/// The line on a device that failed, where that ended a run of this status; None where it didn't fail, or where there is no
/// memory for the line.
pub fn failure_line(alloc: Global, status: u8, failure: Option<Failure<'_>>) -> Option<String> {
    match failure {
        Some(failure) if status == DEVICE => failure_text(alloc, failure).ok(),
        _ => None,
    }
}

fn failure_text(alloc: Global, failure: Failure<'_>) -> Result<String, AllocError> {
    let mut text = line_of(alloc, failure.name);
    match failure.action {
        Action::Read => text.push_str("cannot be read: "),
        Action::Write => text.push_str("cannot be written: "),
    }
    let cause = failure.cause;
    text.push_str(format!(in alloc; "{cause}")?.as_str());
    text.finish()
}

// The line on a file of this name that has so many bytes; None where that isn't too many.
fn too_long_line(alloc: Global, name: &str, count: usize) -> Option<String>
    ensures { IsSome result → MAX_FILE < count }
{
    if count > MAX_FILE {
        too_long_text(alloc, name).ok()
    } else {
        None
    }
}

fn too_long_text(alloc: Global, name: &str) -> Result<String, AllocError> {
    let mut text = line_of(alloc, name);
    text.push_str("longer than ");
    text.push_count(MAX_FILE);
    text.push_str(" bytes");
    text.finish()
}

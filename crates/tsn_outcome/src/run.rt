//! What the runs of all commands share: their statuses, and how a run ends.
ghost use Rattle.std.specs.Prelude.{◌<◌, ◌-◌, ◌^◌, [], ◌∷◌};
ghost use Rattle.tsn_outcome.specs.Run.{sink_over};
ghost use Rattle.tsn_outcome.specs.Outcome.{IsOutputOf, IsWrittenAs};

use crate::answer::Answer;
use tsn_device::device::{ReadFault, Sink};
pub use tsn_device::run::{DEVICE, finish};

/// The command did what it was asked for.
pub const DONE: u8 = 0;

/// The words of the command line are refused.
pub const WORDS: u8 = 2;

/// An input is refused.
pub const REFUSED: u8 = 3;

/// There is no schedule.
pub const NO_SCHEDULE: u8 = 4;

/// The limit of settlements, or of conflicts, was met.
pub const STOPPED: u8 = 5;

/// What was to be checked is rejected.
pub const REJECTED: u8 = 6;

/// A growth was refused.
pub const MEMORY: u8 = 7;

/// The line of `MEMORY`.
pub const NO_MEMORY_LINE: &[u8] = b"no memory\n";

/// The line of `REFUSED` where a file is too long.
pub const TOO_LONG_LINE: &[u8] = b"too long\n";

/// The most bytes of a file.
pub const MAX_FILE: usize = 1_099_511_627_776;

/// Writes the line of the answer, or that of the fault for which there is none, and says the status.
pub fn respond<W: Sink>(sink: &mut W, answer: &Result<Answer, ReadFault>) -> u8
    requires few_failures { W.failed sink.old < 2 ^ 64 - 1 }
    ensures { IsWrittenAs IsOutputOf answer.now (sink_over W.taken W.failed sink.old sink.new ∷ []) result }
{
    match answer {
        Ok(answer) => finish(sink, answer.outcome.status(), answer.line.as_bytes()),
        Err(ReadFault::TooLong) => finish(sink, REFUSED, TOO_LONG_LINE),
        Err(ReadFault::Memory) => finish(sink, MEMORY, NO_MEMORY_LINE),
        Err(ReadFault::Broken) => DEVICE,
    }
}

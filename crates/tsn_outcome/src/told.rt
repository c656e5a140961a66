//! How a run ends: what is told, and its status.
ghost use Rattle.std.specs.Prelude.{◌≡◌};
ghost use Rattle.tsn_outcome.specs.Run.{sink_over};
ghost use Rattle.tsn_outcome.specs.Runs.{Says};

use crate::Answer;
use crate::devices::{Given, Made};
use crate::run::DEVICE;
use tsn_device::device::{ReadFault, write_all};

/// How a command ended: its status, and standard output as the command left it.
#[derive(Drop)]
pub struct Ran<W> {
    pub status: u8,
    pub output: W,
}

/// What a run answers, and a line on standard error that says why, in the place of the answer's own.
#[derive(Drop)]
pub struct Told {
    pub answer: Result<Answer, ReadFault>,
    pub reason: Option<String>,
}

/// Writes a text to standard output.
pub fn say<W: Made>(mut output: W, status: u8, text: &[u8]) -> Ran<W>
    requires { W.failed output ≡ 0 }
    ensures { Says status text.now (sink_over W.taken W.failed output result.output) result.status }
{
    match write_all(&mut output, text) {
        Ok(()) => Ran { status, output },
        Err(_) => Ran {
            status: DEVICE,
            output,
        },
    }
}

/// Tells a line, if there is one.
pub fn tell<'a, G: Given<'a>>(given: &mut G, line: Option<String>) {
    if let Some(line) = line {
        given.tell(line.as_str());
    }
}

/// Tells each line of a text, if there is one.
pub fn tell_all<'a, G: Given<'a>>(given: &mut G, text: Option<String>) {
    if let Some(text) = text {
        for line in text.as_str().lines() {
            given.tell(line);
        }
    }
}

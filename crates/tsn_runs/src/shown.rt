//! How what is shown is written.
ghost use Rattle.std.specs.Prelude.{◌<◌, ◌-◌, ◌^◌, [], ◌∷◌};
ghost use Rattle.tsn_outcome.specs.Run.{sink_over};
ghost use Rattle.tsn_outcome.specs.Outcome.{IsWrittenAs};
ghost use Rattle.tsn_cli.specs.Shown.{IsShownBy};

use tsn_cli::Shown;
use tsn_device::device::{ReadFault, Sink};
use tsn_outcome::run::{DONE, finish, respond};

/// Writes what is shown, or the line of the fault for which nothing is, and says the status.
pub fn show<W: Sink>(sink: &mut W, shown: &Result<Shown, ReadFault>) -> u8
    requires few_failures { W.failed sink.old < 2 ^ 64 - 1 }
    ensures { IsWrittenAs IsShownBy shown.now (sink_over W.taken W.failed sink.old sink.new ∷ []) result }
{
    match shown {
        Ok(Shown::Text(text, _)) => finish(sink, DONE, text.as_bytes()),
        Ok(Shown::Said(answer)) => finish(sink, answer.outcome.status(), answer.line.as_bytes()),
        Err(fault) => respond(sink, &Err(*fault)),
    }
}

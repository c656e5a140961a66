//! The law of a run of `plan`. Its function does nothing but cite other laws: its contract is the law.
ghost use Rattle.tsn_cli.specs.Devices.{devices_of};
ghost use Rattle.tsn_command.specs.Laws.{PlanRunIsFirst};

use tsn_cli::laws::planned_is_first;
use tsn_outcome::Given;

/// A run of `plan` that ends with status 0 has read a network file, and its plan file took the first optimal schedule of that network; of
/// one that ends with status 4 the network has no schedule. The certificate's file, where the words name one, took one that shows it.
pub fn plan_run_is_first<'a, G: Given<'a>>(_given: &G)
    ensures { PlanRunIsFirst (devices_of G.Source.Source G.File.Sink G.Given _given.now) }
{
    planned_is_first();
}

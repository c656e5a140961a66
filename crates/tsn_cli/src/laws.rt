//! The laws of the commands that search. Each function does nothing but cite other laws: its contract is the law.

ghost use Rattle.tsn_cli.specs.Laws.{PlanFilesAreOne, PlannedIsAccepted, PlannedIsFirst, ProvedIsAccepted};

use tsn_argue::laws::first_faults_refute;
use tsn_check::laws::{certified_trees_fit, right_plans_fit};
use tsn_codec::{certificate_text_is_read, plan_text_is_read};

/// What `plan` answers to a network file with status 0 has for its plan the first optimal schedule of the network that the file states;
/// with status 4 that network has no schedule. The certificate, where one is wanted, shows it.
pub fn planned_is_first()
    ensures { PlannedIsFirst }
{}

/// Two answers of `plan` to one network file that both end with status 0 have the same plan file, however they were
/// searched for.
pub fn plan_files_are_one()
    ensures { PlanFilesAreOne }
{}

/// What `plan` writes of a plan that it found, or that there is none, is accepted by `check`, where it answers to these files.
pub fn planned_is_accepted()
    ensures { PlannedIsAccepted }
{
    first_faults_refute();
    right_plans_fit();
    certified_trees_fit();
    plan_text_is_read();
    certificate_text_is_read();
}

/// The certificate that `prove` writes of a plan that it proved is accepted by `check`, where it answers to these files.
pub fn proved_is_accepted()
    ensures { ProvedIsAccepted }
{
    first_faults_refute();
}

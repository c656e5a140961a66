//! What is read before a plan is dealt with: a network, and then the plan.
ghost use Rattle.std.specs.Prelude.{◌≡◌, ◌<◌, ◌-◌, ◌^◌};
ghost use Rattle.tsn_outcome.specs.Run.{source_over};
ghost use Rattle.tsn_cli.specs.Inputs.{AreRead, IsReadOver, TakesNetwork, TakesPlan};

use std::alloc::Global;
use tsn_cert::Plan;
use tsn_codec::plan_or_refuse;
use tsn_device::device::{ReadFault, Source, read_all};
use tsn_net::{Refused, read_or_refuse};
use tsn_outcome::run::MAX_FILE;
use tsn_outcome::{Answer, FileKind, file_refusal, refusal};
use tsn_reason::network_line;
use tsn_timing::Problem;

/// A network, or the line on why its file is refused.
#[derive(Drop)]
pub enum NetworkRead {
    Taken(Problem),
    Refused(Answer),
}

/// A plan, or the line on why its file is refused.
#[derive(Drop)]
pub enum PlanRead {
    Taken(Plan),
    Refused(Answer),
}

/// A network and a plan for it, or the line on why the file of one of them is refused.
#[derive(Drop)]
pub enum BothRead {
    Taken(Problem, Plan),
    Refused(Answer),
}

/// Reads a network, and then, where it is taken, a plan.
pub(crate) fn read_both<N: Source, P: Source>(
    alloc: Global,
    network: &mut N,
    plan: &mut P,
) -> Result<BothRead, ReadFault>
    requires network_reads { N.failed network.old < 2 ^ 64 - 1 }
    requires plan_reads { P.failed plan.old < 2 ^ 64 - 1 }
    ensures { AreRead (source_over N.given N.failed N.is_at_end network.old network.new)
        (source_over P.given P.failed P.is_at_end plan.old plan.new) result }
{
    match read_network(alloc, network)? {
        NetworkRead::Taken(problem) => match read_plan(alloc, plan) {
            Ok(PlanRead::Taken(stated)) => Ok(BothRead::Taken(problem, stated)),
            Ok(PlanRead::Refused(answer)) => Ok(BothRead::Refused(answer)),
            Err(fault) => Err(fault),
        },
        NetworkRead::Refused(answer) => Ok(BothRead::Refused(answer)),
    }
}

/// Reads a network.
pub fn read_network<N: Source>(alloc: Global, network: &mut N) -> Result<NetworkRead, ReadFault>
    requires { N.failed network.old < 2 ^ 64 - 1 }
    ensures { IsReadOver TakesNetwork (source_over N.given N.failed N.is_at_end network.old network.new) result }
{
    let file = read_all(alloc, network, MAX_FILE)?;
    match read_or_refuse(alloc, &file) {
        Ok(problem) => Ok(NetworkRead::Taken(problem)),
        Err(refused) => {
            let Refused { fault, words } = refused;
            let reason = network_line(alloc, network.name(), words).unwrap_or(None);
            Ok(NetworkRead::Refused(refusal(alloc, fault, reason)?))
        }
    }
}

/// Reads a plan.
pub fn read_plan<P: Source>(alloc: Global, plan: &mut P) -> Result<PlanRead, ReadFault>
    requires { P.failed plan.old < 2 ^ 64 - 1 }
    ensures { IsReadOver TakesPlan (source_over P.given P.failed P.is_at_end plan.old plan.new) result }
{
    let file = read_all(alloc, plan, MAX_FILE)?;
    match plan_or_refuse(alloc, &file) {
        Ok(plan) => Ok(PlanRead::Taken(plan)),
        Err(refused) => {
            let answer = file_refusal(alloc, FileKind::Plan, plan.name(), &refused)?;
            Ok(PlanRead::Refused(answer))
        }
    }
}

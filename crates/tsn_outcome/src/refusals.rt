//! Why a file, a plan or a certificate is refused.
ghost use Rattle.std.specs.Prelude.{◌≡◌, IfOk, IsErr, Ok};
ghost use Rattle.tsn_cert.specs.Told.{code_of};
ghost use Rattle.tsn_outcome.specs.Outcome.{IsOutcome, output_of};

use crate::{Answer, FileKind, Outcome};
use std::alloc::Global;
use tsn_cert::{FileFault, Refused};
use tsn_check::CheckFault;
use tsn_model::{Code, NetFault, NoMemory};
use tsn_reason::file_line;

/// What is said of a network file with this fault, for this reason.
pub fn refusal(alloc: Global, fault: NetFault, reason: Option<String>) -> Result<Answer, NoMemory>
    ensures outcome { IfOk result (λ a. a.outcome ≡ Outcome.RefusedNetwork fault) }
    ensures line { IfOk result (λ a. IsOutcome (Outcome.RefusedNetwork fault) (output_of (Ok a))) }
    ensures memory { fault.code ≡ Code.Memory → IsErr result }
{
    if fault.code == Code::Memory {
        return Err(NoMemory);
    }
    Answer::because(alloc, Outcome::RefusedNetwork(fault), reason)
}

/// What is said of a file of this kind and this name that is refused.
pub fn file_refusal(
    alloc: Global,
    kind: FileKind,
    name: &str,
    refused: &Refused,
) -> Result<Answer, NoMemory>
    ensures line { IfOk result (λ a. IsOutcome (Outcome.RefusedFile kind (code_of refused.now)) (output_of (Ok a))) }
    ensures memory { code_of refused.now ≡ FileFault.Memory → IsErr result }
{
    let fault = refused.code();
    if fault == FileFault::Memory {
        return Err(NoMemory);
    }
    let reason = file_line(alloc, name, refused).unwrap_or(None);
    Answer::because(alloc, Outcome::RefusedFile(kind, fault), reason)
}

/// What is said of a plan with this fault.
pub fn rejection(
    alloc: Global,
    fault: CheckFault,
    reason: Option<String>,
) -> Result<Answer, NoMemory>
    ensures outcome { IfOk result (λ a. a.outcome ≡ Outcome.RefusedPlan fault) }
    ensures line { IfOk result (λ a. IsOutcome (Outcome.RefusedPlan fault) (output_of (Ok a))) }
    ensures memory { fault ≡ CheckFault.Memory → IsErr result }
{
    if fault == CheckFault::Memory {
        return Err(NoMemory);
    }
    Answer::because(alloc, Outcome::RefusedPlan(fault), reason)
}

/// What is said of a plan and a certificate with this fault.
pub fn cert_rejection(
    alloc: Global,
    fault: CheckFault,
    reason: Option<String>,
) -> Result<Answer, NoMemory>
    ensures line { IfOk result (λ a. IsOutcome (Outcome.RefusedCert fault) (output_of (Ok a))) }
    ensures memory { fault ≡ CheckFault.Memory → IsErr result }
{
    if fault == CheckFault::Memory {
        return Err(NoMemory);
    }
    Answer::because(alloc, Outcome::RefusedCert(fault), reason)
}

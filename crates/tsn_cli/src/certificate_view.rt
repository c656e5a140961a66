//! A plan and its certificate: read, judged, and shown where the certificate is accepted.
ghost use Rattle.std.specs.Prelude.{◌≡◌, ◌<◌, ◌-◌, ◌^◌, ◌⊎◌, [], ◌∷◌, IfOk, Ok};
ghost use Rattle.tsn_timing.specs.Problem.{NamedNetwork};
ghost use Rattle.tsn_cert.specs.declared.plan.Plan.{Plan};
ghost use Rattle.tsn_cert.specs.declared.certificate.Certificate.{Certificate};
ghost use Rattle.tsn_check.specs.Plans.{IsPlanRight};
ghost use Rattle.tsn_argue.specs.Certified.{Certifies, certificate_verdict};
ghost use Rattle.tsn_argue.specs.Faults.{IsFirstFault};
ghost use Rattle.tsn_cli.specs.Inputs.{IsReadOver};
ghost use Rattle.tsn_outcome.specs.Run.{Output, source_over};
ghost use Rattle.tsn_outcome.specs.Outcome.{ComesOver, output_of};
ghost use Rattle.tsn_cli.specs.Shown.{IsSaid, shown_output};
ghost use Rattle.tsn_cli.specs.Check.{CertAnswersBy, JudgesCert, ShowsNothing};

use crate::inputs::{BothRead, read_both};
use crate::shown::Shown;
use std::alloc::Global;
use tsn_argue::{Observer, judge_argument};
use tsn_cert::{Certificate, Plan};
use tsn_check::{CheckFault, Verdict, judge_tree};
use tsn_codec::certificate_or_refuse;
use tsn_device::device::{ReadFault, Source, read_all};
use tsn_model::NoMemory;
use tsn_outcome::run::MAX_FILE;
use tsn_outcome::{Answer, FileKind, cert_rejection, file_refusal};
use tsn_reason::{Claim, line_on_argument, line_on_tree};
use tsn_timing::Problem;

/// What a command makes of a plan whose certificate is accepted.
pub trait CertificateView {
    /// Whether this is shown of them.
    ghost shows: { Self → NamedNetwork → Plan → Certificate → Output → Type 0 };

    /// Whether that is an answer in a line.
    ghost is_line: { Self → Type 0 } = { λ _. ⊥ };

    /// Who observes the steps of an argument as it is judged.
    type Observer: Observer + Drop;

    /// The observer of a certificate, before it is judged; it is told nothing of a tree.
    fn observer(&self, alloc: Global, certificate: &Certificate) -> Self::Observer;

    /// What is shown of the plan that is claimed, and of its certificate, which is accepted with this verdict, and which this observer
    /// observed.
    fn view(
        &self,
        alloc: Global,
        claim: Claim<'_>,
        certificate: &Certificate,
        verdict: Verdict,
        observer: Self::Observer,
    ) -> Result<Shown, NoMemory>
        requires right { IsPlanRight claim.problem.now.network claim.plan.now }
        requires verdict { verdict ≡ certificate_verdict certificate.now claim.plan.now }
        ensures shows { IfOk result (λ a. shows self.now claim.entry.problem.now claim.entry.plan.now certificate.now (shown_output (Ok a))) }
        ensures line { is_line self.now → IfOk result IsSaid };
}

/// What is shown of a plan and its certificate, before it is written: what the view makes of them, or why one is refused.
pub fn certified_shown<N: Source, P: Source, C: Source, V: CertificateView>(
    alloc: Global,
    network: &mut N,
    plan: &mut P,
    cert: &mut C,
    view: &V,
) -> Result<Shown, ReadFault>
    requires network_reads { N.failed network.old < 2 ^ 64 - 1 }
    requires plan_reads { P.failed plan.old < 2 ^ 64 - 1 }
    requires cert_reads { C.failed cert.old < 2 ^ 64 - 1 }
    ensures comes { ComesOver shown_output (CertAnswersBy (V.shows view.now))
        (source_over N.given N.failed N.is_at_end network.old network.new
        ∷ source_over P.given P.failed P.is_at_end plan.old plan.new
        ∷ source_over C.given C.failed C.is_at_end cert.old cert.new ∷ []) result }
    ensures line { V.is_line view.now → IfOk result IsSaid }
{
    match read_both(alloc, network, plan) {
        Ok(BothRead::Taken(problem, stated)) => {
            answer_on(alloc, problem, stated, plan.name(), cert, view)
        }
        Ok(BothRead::Refused(answer)) => Ok(Shown::Said(answer)),
        Err(fault) => Err(fault),
    }
}

/// What the run answers on a network and a plan of the file of this name, to the certificate file that it reads after those.
fn answer_on<C: Source, V: CertificateView>(
    alloc: Global,
    problem: Problem,
    stated: Plan,
    name: &str,
    cert: &mut C,
    view: &V,
) -> Result<Shown, ReadFault>
    requires { C.failed cert.old < 2 ^ 64 - 1 }
    ensures judges { IsReadOver (λ file a. JudgesCert (V.shows view.now problem stated) problem.network stated file (shown_output (Ok a)))
        (source_over C.given C.failed C.is_at_end cert.old cert.new) result }
    ensures line { V.is_line view.now → IfOk result IsSaid }
{
    let bytes = read_all(alloc, cert, MAX_FILE)?;
    let claim = Claim {
        problem: &problem,
        name,
        plan: &stated,
    };
    match certificate_or_refuse(alloc, &bytes) {
        Ok(certificate) => Ok(judgement(alloc, claim, cert.name(), &certificate, view)?),
        Err(refused) => {
            let answer = file_refusal(alloc, FileKind::Cert, cert.name(), &refused)?;
            Ok(Shown::Said(answer))
        }
    }
}

// What is said of a plan and its certificate, of the file of this name.
fn judgement<V: CertificateView>(
    alloc: Global,
    claim: Claim<'_>,
    name: &str,
    certificate: &Certificate,
    view: &V,
) -> Result<Shown, NoMemory>
    ensures judges { IfOk result (λ a. (Certifies claim.entry.problem.now.network claim.entry.plan.now certificate.now
        × V.shows view.now claim.entry.problem.now claim.entry.plan.now certificate.now (shown_output (Ok a)))
        ⊎ ShowsNothing claim.entry.problem.now.network claim.entry.plan.now certificate.now (shown_output (Ok a))) }
    ensures line { V.is_line view.now → IfOk result IsSaid }
{
    let mut observer = view.observer(alloc, certificate);
    match certificate {
        Certificate::Tree(cert) => match judge_tree(alloc, claim.problem, claim.plan, cert) {
            Ok(verdict) => view.view(alloc, claim, certificate, verdict, observer),
            Err(fault) => {
                let reason = line_on_tree(alloc, claim, name, fault).unwrap_or(None);
                let answer = refused(alloc, claim, certificate, fault.code(), reason)?;
                Ok(Shown::Said(answer))
            }
        },
        Certificate::Argument(argument) => {
            match judge_argument(alloc, claim.problem, claim.plan, argument, &mut observer) {
                Ok(verdict) => view.view(alloc, claim, certificate, verdict, observer),
                Err(fault) => {
                    let reason = line_on_argument(alloc, claim, name, fault).unwrap_or(None);
                    let answer = refused(alloc, claim, certificate, fault.code(), reason)?;
                    Ok(Shown::Said(answer))
                }
            }
        }
    }
}

// What is said of a plan and its certificate with this first fault.
fn refused(
    alloc: Global,
    _claim: Claim<'_>,
    _certificate: &Certificate,
    fault: CheckFault,
    reason: Option<String>,
) -> Result<Answer, NoMemory>
    requires { (fault ≡ CheckFault.Memory) ⊎ IsFirstFault _claim.problem.now.network _claim.plan.now _certificate.now fault }
    ensures { IfOk result (λ a. ShowsNothing _claim.entry.problem.now.network _claim.entry.plan.now _certificate.now (output_of (Ok a))) }
{
    cert_rejection(alloc, fault, reason)
}

//! `check`: judges a plan and its certificate.
ghost use Rattle.std.specs.Prelude.{IfOk, Ok};
ghost use Rattle.tsn_outcome.specs.Outcome.{IsOutcome, output_of};
ghost use Rattle.tsn_cli.specs.Check.{IsAccepted, accepted};

use crate::certificate_view::CertificateView;
use crate::shown::Shown;
use std::alloc::Global;
use tsn_argue::Silent;
use tsn_cert::{Certificate, Plan};
use tsn_check::Verdict;
use tsn_model::NoMemory;
use tsn_outcome::{Answer, Outcome};
use tsn_reason::Claim;

/// The verdict on a certificate, in a line.
#[derive(Clone, Copy)]
pub struct VerdictLine;

impl CertificateView for VerdictLine {
    ghost shows = { λ _. IsAccepted };

    ghost is_line = { λ _. Unit {0} };

    type Observer = Silent;

    fn observer(&self, _alloc: Global, _certificate: &Certificate) -> Silent {
        Silent
    }

    fn view(
        &self,
        alloc: Global,
        claim: Claim<'_>,
        _certificate: &Certificate,
        verdict: Verdict,
        _observer: Silent,
    ) -> Result<Shown, NoMemory> {
        Ok(Shown::Said(acceptance(alloc, verdict, claim.plan)?))
    }
}

// What is said of a plan whose certificate is accepted with this verdict.
fn acceptance(alloc: Global, verdict: Verdict, plan: &Plan) -> Result<Answer, NoMemory>
    ensures { IfOk result (λ a. IsOutcome (accepted verdict plan.now) (output_of (Ok a))) }
{
    let flowspan = match plan {
        Plan::Schedule { flowspan, .. } => *flowspan,
        Plan::None => 0,
    };
    match verdict {
        Verdict::Optimal => Answer::of(alloc, Outcome::AcceptedOptimal { flowspan }),
        Verdict::First => Answer::of(alloc, Outcome::AcceptedFirst { flowspan }),
        Verdict::NoSchedule => Answer::of(alloc, Outcome::AcceptedNone),
    }
}

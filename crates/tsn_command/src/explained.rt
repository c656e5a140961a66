//! What a certificate is about, shown in words, or as marks in a picture of its plan.
ghost use Rattle.std.specs.Prelude.{◌≡◌, option_map};
ghost use Rattle.tsn_check.specs.Plans.{IsPlanRight};
ghost use Rattle.tsn_cli.specs.Charts.{RunsChart};
ghost use Rattle.tsn_cli.specs.Explain.{ShowsMarked, ShowsText};
ghost use Rattle.tsn_outcome.specs.Run.{sink_over};

use std::alloc::Global;
use tsn_answer::{Proof, prove};
use tsn_branch::NoSupervisor;
use tsn_cert::Certificate;
use tsn_chart::Drawing;
use tsn_check::Verdict;
use tsn_cli::commands::{certified, table};
use tsn_cli::options::drawing_of;
use tsn_cli::{CertificateView, Shown, Table, plan_shown};
use tsn_explain::{Tracker, explanation, explanation_by, is_large, marked_frames};
use tsn_model::NoMemory;
use tsn_outcome::{Given, Made, Ran};
use tsn_reason::Claim;
use tsn_words::{ChartWords, ExplainWords};

// The most conflicts of the search for an argument that is told in place of a large tree.
const MOST_CONFLICTS: usize = 1000;

// An argument, and what observed it.
#[derive(Drop)]
struct ToldArgument {
    argued: Certificate,
    tracker: Tracker,
}

// What is told of a plan in place of its certificate, if that is a large tree: the argument that the conflict-driven search finds soon,
// if it does.
fn argument_instead(
    alloc: Global,
    claim: Claim<'_>,
    certificate: &Certificate,
) -> Result<Option<ToldArgument>, NoMemory>
    requires { IsPlanRight claim.problem.now.network claim.plan.now }
{
    if !is_large(certificate) {
        return Ok(None);
    }
    match prove(
        alloc,
        claim.problem,
        claim.plan,
        MOST_CONFLICTS,
        &NoSupervisor,
    )? {
        Proof::Proved(argument, _) => observed(alloc, claim, Certificate::Argument(argument)),
        Proof::Undercut(..) | Proof::Stopped(..) => Ok(None),
    }
}

// An argument that is accepted, and what observed it.
fn observed(
    alloc: Global,
    claim: Claim<'_>,
    argued: Certificate,
) -> Result<Option<ToldArgument>, NoMemory> {
    match Tracker::of(alloc, claim.problem, claim.plan, &argued)? {
        Some(tracker) => Ok(Some(ToldArgument { argued, tracker })),
        None => Ok(None),
    }
}

/// The words of a certificate.
#[derive(Clone, Copy)]
pub struct Explanation;

impl CertificateView for Explanation {
    ghost shows = { λ _ problem plan certificate output. ShowsText output };

    type Observer = Tracker;

    fn observer(&self, alloc: Global, certificate: &Certificate) -> Tracker {
        Tracker::new(alloc, certificate)
    }

    fn view(
        &self,
        alloc: Global,
        claim: Claim<'_>,
        certificate: &Certificate,
        _verdict: Verdict,
        tracker: Tracker,
    ) -> Result<Shown, NoMemory> {
        let Claim { problem, plan, .. } = claim;
        let text = match argument_instead(alloc, claim, certificate)? {
            Some(found) => {
                let ToldArgument { argued, tracker } = found;
                let text = explanation_by(alloc, problem, plan, certificate, &argued, tracker);
                drop(argued);
                text?
            }
            None => explanation(alloc, problem, plan, certificate, tracker)?,
        };
        Ok(Shown::Text(text, None))
    }
}

/// A picture of a plan, in which the frames are marked that its certificate is about; a plan without a schedule has none.
#[derive(Clone, Copy)]
struct MarkedPicture(Drawing);

impl CertificateView for MarkedPicture {
    ghost shows = { λ picture. ShowsMarked picture.0 };

    type Observer = Tracker;

    fn observer(&self, alloc: Global, certificate: &Certificate) -> Tracker {
        Tracker::new(alloc, certificate)
    }

    fn view(
        &self,
        alloc: Global,
        claim: Claim<'_>,
        certificate: &Certificate,
        _verdict: Verdict,
        tracker: Tracker,
    ) -> Result<Shown, NoMemory> {
        let marked = match argument_instead(alloc, claim, certificate)? {
            Some(found) => {
                let ToldArgument { argued, tracker } = found;
                let marked = marked_frames(alloc, claim.problem, &argued, tracker);
                drop(argued);
                marked?
            }
            None => marked_frames(alloc, claim.problem, certificate, tracker)?,
        };
        let answer = plan_shown(alloc, claim, Table::Chart(self.0), &marked);
        drop(marked);
        answer
    }
}

/// Draws a plan, with marks where the words name a certificate; the network `-` is standard input.
pub fn picture<'a, G: Given<'a>, W: Made>(
    alloc: Global,
    given: &mut G,
    output: W,
    words: ChartWords<'a>,
) -> Ran<W>
    requires { W.failed output ≡ 0 }
    ensures { RunsChart G.Source.given G.Source.failed G.Source.is_at_end
        (G.opens_network given.old) (G.opens_plan given.old) (G.opens_cert given.old) words.entry
        (option_map (λ cert. cert.now) words.entry.cert)
        (sink_over W.taken W.failed output result.output) result.status }
{
    let ChartWords { network, plan, .. } = words;
    let drawing = drawing_of(words);
    match words.cert {
        Some(cert) => {
            let words = ExplainWords {
                network,
                plan,
                cert,
            };
            let view = MarkedPicture(drawing);
            certified(alloc, given, output, words, &view, false)
        }
        None => table(alloc, given, output, network, plan, Table::Chart(drawing)),
    }
}

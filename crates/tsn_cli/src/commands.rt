//! The commands that judge and show, over what they are given.
ghost use Rattle.std.specs.Prelude.{◌≡◌, [], ◌∷◌, IfOk, IsTrue, Ok};
ghost use Rattle.tsn_outcome.specs.Run.{RunsOver, sink_over};
ghost use Rattle.tsn_outcome.specs.Runs.{OverCert, OverNetwork, OverPlan, RunsTold};
ghost use Rattle.tsn_outcome.specs.Outcome.{IsWrittenAs};
ghost use Rattle.tsn_cli.specs.declared.shown.Shown.TheVariants.{Text};
ghost use Rattle.tsn_cli.specs.Check.{CertAnswersBy};
ghost use Rattle.tsn_cli.specs.Shown.{IsSaid, IsShownBy, IsToldAs, NetworkAnswers};
ghost use Rattle.tsn_cli.specs.Tables.{CanShow, TableAnswers};

use crate::certificate_view::{CertificateView, certified_shown};
use crate::network::{NetworkView, network_shown};
use crate::options::Table;
use crate::shown::Shown;
use crate::tables::table_shown;
use std::alloc::Global;
use tsn_device::device::ReadFault;
use tsn_outcome::json::tell_answer;
use tsn_outcome::reason::{failure_line, fault_of, source_line};
use tsn_outcome::run::{DONE, finish};
use tsn_outcome::told::{Ran, Told, tell, tell_all};
use tsn_outcome::{Given, Made};
use tsn_words::ExplainWords;

/// Shows what a view makes of a network; the network `-` is standard input. With `json` an answer in a line is told as a line of JSON.
pub fn network<'a, G: Given<'a>, W: Made, V: NetworkView>(
    alloc: Global,
    given: &mut G,
    output: W,
    network: &'a str,
    view: &V,
    json: bool,
) -> Ran<W>
    requires output { W.failed output ≡ 0 }
    requires line { IsTrue json → V.is_line view.now }
    ensures { OverNetwork G.Source.given G.Source.failed G.Source.is_at_end (G.opens_network given.old network.now)
        (λ sources. RunsTold json (NetworkAnswers (V.shows view.now)) sources []
        (sink_over W.taken W.failed output result.output) result.status) }
{
    let mut source = given.network(network);
    let shown = network_shown(alloc, &mut source, view);
    let stopped = source_line(alloc, fault_of(&shown), &source);
    drop(source);
    tell_shown(alloc, given, output, shown, stopped, json)
}

/// Shows a plan by a table; the network `-` is standard input.
pub fn table<'a, G: Given<'a>, W: Made>(
    alloc: Global,
    given: &mut G,
    output: W,
    network: &'a str,
    plan: &'a str,
    table: Table,
) -> Ran<W>
    requires table { CanShow table }
    requires output { W.failed output ≡ 0 }
    ensures { OverPlan G.Source.given G.Source.failed G.Source.is_at_end (G.opens_network given.old network.now)
        (G.opens_plan given.old plan.now)
        (λ sources. RunsOver (TableAnswers table) sources (sink_over W.taken W.failed output result.output ∷ []) result.status) }
{
    let mut network = given.network(network);
    let mut plan = given.plan(plan);
    let shown = table_shown(alloc, &mut network, &mut plan, table);
    let fault = fault_of(&shown);
    let stopped = source_line(alloc, fault, &network).or(source_line(alloc, fault, &plan));
    drop(network);
    drop(plan);
    tell_shown(alloc, given, output, shown, stopped, false)
}

/// Shows what a view makes of a plan whose certificate is accepted; the network `-` is standard input. With `json` an answer in a line is
/// told as a line of JSON.
pub fn certified<'a, G: Given<'a>, W: Made, V: CertificateView>(
    alloc: Global,
    given: &mut G,
    output: W,
    words: ExplainWords<'a>,
    view: &V,
    json: bool,
) -> Ran<W>
    requires output { W.failed output ≡ 0 }
    requires line { IsTrue json → V.is_line view.now }
    ensures { OverCert G.Source.given G.Source.failed G.Source.is_at_end (G.opens_network given.old words.entry.network.now)
        (G.opens_plan given.old words.entry.plan.now) (G.opens_cert given.old words.entry.cert.now)
        (λ sources. RunsTold json (CertAnswersBy (V.shows view.now)) sources []
        (sink_over W.taken W.failed output result.output) result.status) }
{
    let mut network = given.network(words.network);
    let mut plan = given.plan(words.plan);
    let mut cert = given.cert(words.cert);
    let shown = certified_shown(alloc, &mut network, &mut plan, &mut cert, view);
    let fault = fault_of(&shown);
    let stopped = source_line(alloc, fault, &network)
        .or(source_line(alloc, fault, &plan))
        .or(source_line(alloc, fault, &cert));
    drop(network);
    drop(plan);
    drop(cert);
    tell_shown(alloc, given, output, shown, stopped, json)
}

// Writes what is shown, and tells remarks on it, or why it is refused or can't be written.
fn tell_shown<'a, G: Given<'a>, W: Made>(
    alloc: Global,
    given: &mut G,
    output: W,
    shown: Result<Shown, ReadFault>,
    reason: Option<String>,
    json: bool,
) -> Ran<W>
    requires { W.failed output ≡ 0 }
    ensures { IsToldAs json shown (sink_over W.taken W.failed output result.output) result.status }
{
    let answer = match shown {
        Ok(Shown::Text(text, remarks)) => return tell_text(alloc, given, output, text, remarks),
        Ok(Shown::Said(answer)) => Ok(answer),
        Err(fault) => Err(fault),
    };
    tell_answer(alloc, given, output, Told { answer, reason }, json)
}

// Writes a text, and tells remarks on it, or why it can't be written.
fn tell_text<'a, G: Given<'a>, W: Made>(
    alloc: Global,
    given: &mut G,
    mut output: W,
    text: String,
    remarks: Option<String>,
) -> Ran<W>
    requires { W.failed output ≡ 0 }
    ensures { IsWrittenAs IsShownBy (Ok (Text text remarks)) (sink_over W.taken W.failed output result.output ∷ []) result.status }
{
    let status = finish(&mut output, DONE, text.as_bytes());
    drop(text);
    if status == DONE {
        tell_all(given, remarks);
    } else {
        tell(given, failure_line(alloc, status, output.failure()));
    }
    Ran { status, output }
}

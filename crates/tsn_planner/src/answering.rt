//! The answer that a search's end gives, with its certificate.
ghost use Rattle.std.specs.Prelude.{◌≡◌, ℕ, [], IfOk};
ghost use Rattle.tsn_model.specs.Network.{Network};
ghost use Rattle.tsn_model.specs.Search.{open_paths};
ghost use Rattle.tsn_answer.specs.declared.effort.Effort.{Effort};
ghost use Rattle.tsn_answer.specs.Optimum.{AnswersOptimum};
ghost use Rattle.tsn_answer.specs.Answer.{IsAnswerBy, IsAnswerReadAgain, IsAnswerShown, IsArgued, IsCertificateBy, IsFinished, IsFound, IsFoundBy, MayArgue, HasNoneOpen, HasNotGivenUp, HasTree, IsCounted, IsOfBook, IsTree, answer_for};

use std::alloc::Global;
use tsn_answer::{Answer, Found, plan_of};
use tsn_book::Book;
use tsn_cert::{Argument, Certificate, Plan};
use tsn_model::NoMemory;

/// The answer, with its certificate. The error says that there was no memory.
pub fn answer_of(alloc: Global, found: Found) -> Result<Answer, NoMemory>
    requires open { HasNoneOpen found }
    requires answered { HasNotGivenUp found }
    ensures optimum { IfOk result (λ answer. (network : Network) (limit : ℕ) → IsFound network limit found → AnswersOptimum network answer) }
    ensures shown { IfOk result (λ answer. (network : Network) (limit : ℕ) → IsFound network limit found → IsAnswerShown network limit answer) }
    ensures read_again { IfOk result (λ answer. (network : Network) (limit : ℕ) → IsFound network limit found → IsAnswerReadAgain answer) }
    ensures method { IfOk result (λ answer. (effort : Effort) → IsFoundBy effort found → IsAnswerBy effort answer) }
    ensures counted { IfOk result (IsCounted found) }
{
    match found {
        Found::Finished(book) => certify(alloc, book),
        Found::Argued(plan, argument) => Ok(argued(plan, argument)),
        Found::Stopped(book, known) => {
            drop(known);
            Ok(Answer::Stopped(book))
        }
        Found::GaveUp(..) => unreachable!(),
    }
}

// The answer of a search that left nothing open.
fn certify(alloc: Global, book: Book) -> Result<Answer, NoMemory>
    requires { open_paths book.history ≡ [] }
    ensures optimum { IfOk result (λ answer. (network : Network) (limit : ℕ) → IsFinished network limit book → AnswersOptimum network answer) }
    ensures shown { IfOk result (λ answer. (network : Network) (limit : ℕ) → IsFinished network limit book → IsAnswerShown network limit answer) }
    ensures read_again { IfOk result IsAnswerReadAgain }
    ensures method { IfOk result (λ answer. (effort : Effort) → IsAnswerBy effort answer) }
    ensures of_book { IfOk result (IsOfBook book) }
{
    let count = book.count();
    let plan = match plan_of(alloc, &book) {
        Ok(plan) => plan,
        Err(fault) => {
            drop(book);
            return Err(fault);
        }
    };
    match book.into_cert() {
        Ok(cert) => Ok(answer_for(plan, Certificate::Tree(cert), count)),
        Err(fault) => {
            drop(plan);
            Err(fault)
        }
    }
}

fn argued(plan: Plan, argument: Argument) -> Answer
    ensures optimum { (network : Network) (limit : ℕ) → IsArgued network limit plan argument → AnswersOptimum network result }
    ensures shown { (network : Network) (limit : ℕ) → IsArgued network limit plan argument → IsAnswerShown network limit result }
    ensures read_again { (network : Network) (limit : ℕ) → IsArgued network limit plan argument → IsAnswerReadAgain result }
    ensures method { (effort : Effort) → MayArgue effort.method effort.limit → IsAnswerBy effort result }
    ensures no_tree { HasTree result → ⊥ }
{
    let count = argument.steps.list().len();
    answer_for(plan, Certificate::Argument(argument), count)
}

fn answer_for(plan: Plan, certificate: Certificate, count: usize) -> Answer
    ensures answer { result ≡ answer_for plan certificate count }
    ensures method { (effort : Effort) → IsCertificateBy effort certificate → IsAnswerBy effort result }
    ensures tree { HasTree result → IsTree certificate }
{
    match plan {
        Plan::Schedule { flowspan, offsets } => {
            Answer::Optimal(Plan::Schedule { flowspan, offsets }, certificate, count)
        }
        Plan::None => Answer::NoSchedule(certificate, count),
    }
}

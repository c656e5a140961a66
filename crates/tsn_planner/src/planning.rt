//! Plans a network.
ghost use Rattle.std.specs.Prelude.{◌≤◌, length, IfOk};
ghost use Rattle.tsn_model.specs.Network.{HasFewStreams};
ghost use Rattle.tsn_answer.specs.Optimum.{AnswersOptimum};
ghost use Rattle.tsn_answer.specs.Answer.{HasTree, IsAnswerBy, IsAnswerReadAgain, IsAnswerShown};
ghost use Rattle.tsn_worker.specs.Team.{IsByTeam, IsTeamAnswer};

use crate::answering::answer_of;
use std::alloc::Global;
use std::sync::Wait;
use std::thread::Threads;
use tsn_answer::{Answer, Effort, MAX_LIMIT, MAX_WORKERS};
use tsn_branch::Supervisor;
use tsn_incumbent::EndedWord;
use tsn_model::NoMemory;
use tsn_timing::Problem;
use tsn_walk::Bag;
use tsn_words::Method;
use tsn_worker::{Searched, search_by, search_in_bags};

/// A planner's answer; and, where several workers have searched and it stands on their book, the word that they shared, with what
/// each had seen and posted in the end.
#[derive(Drop)]
pub struct Planned {
    pub answer: Answer,
    pub word: Option<EndedWord>,
}

/// The lexicographically least of the problem's schedules of least flowspan, or that there is none, each with a
/// certificate that shows it; or, where `limit` nodes (1 to 1,000,000,000) were settled and one is still open,
/// the book with the best schedule so far, if any. The search goes in the order of the file.
///
/// There are 1 to 16 workers. One is the caller, who then starts no thread and waits for nobody but the supervisor. Two or more run in
/// threads of their own, or one after another where no thread can be made; the caller settles the first nodes before they
/// start, and what they leave open after they have ended. The error says that there was no memory for the caller.
#[tactic(auto, using(tsn_worker::proofs::Teams::has_tree))]
pub fn plan<R: Threads + Wait + Sync, S: Supervisor + Sync>(
    rt: &R,
    alloc: Global,
    problem: &Problem,
    workers: usize,
    limit: usize,
    supervisor: &S,
) -> Result<Answer, NoMemory>
    requires workers { (1 ≤ workers) × (workers ≤ MAX_WORKERS) }
    requires some { 1 ≤ limit }
    requires few { limit ≤ MAX_LIMIT }
    requires few_streams { HasFewStreams problem.now.network }
    ensures optimum { IfOk result (AnswersOptimum problem.now.network) }
    ensures shown { IfOk result (IsAnswerShown problem.now.network limit) }
    ensures method { IfOk result HasTree }
    ensures gathered { IfOk result (IsByTeam problem.now.network workers) }
{
    let effort = Effort {
        method: Method::FileOrder,
        workers,
        limit,
    };
    let Planned { answer, word } = plan_by(rt, alloc, problem, effort, supervisor)?;
    drop(word);
    Ok(answer)
}

/// What `plan` answers, by any method, and the word that several workers shared for it.
#[tactic(auto, using(tsn_worker::proofs::Teams::answered))]
pub fn plan_by<R: Threads + Wait + Sync, S: Supervisor + Sync>(
    rt: &R,
    alloc: Global,
    problem: &Problem,
    effort: Effort,
    supervisor: &S,
) -> Result<Planned, NoMemory>
    requires workers { (1 ≤ effort.workers) × (effort.workers ≤ MAX_WORKERS) }
    requires some { 1 ≤ effort.limit }
    requires few { effort.limit ≤ MAX_LIMIT }
    requires few_streams { HasFewStreams problem.now.network }
    ensures optimum { IfOk result (λ planned. AnswersOptimum problem.now.network planned.answer) }
    ensures shown { IfOk result (λ planned. IsAnswerShown problem.now.network effort.limit planned.answer) }
    ensures read_again { IfOk result (λ planned. IsAnswerReadAgain planned.answer) }
    ensures method { IfOk result (λ planned. IsAnswerBy effort planned.answer) }
    ensures gathered { IfOk result (λ planned. IsTeamAnswer problem.now.network effort.workers planned.word planned.answer) }
{
    let Searched { found, word } = search_by(rt, alloc, problem, effort, supervisor)?;
    match answer_of(alloc, found) {
        Ok(answer) => Ok(Planned { answer, word }),
        Err(fault) => {
            drop(word);
            Err(fault)
        }
    }
}

/// What `plan` answers, by 2 to 16 workers, one a bag. The bags are handed in empty.
pub fn plan_over<R: Threads + Wait + Sync, S: Supervisor + Sync, B: Bag + Send>(
    rt: &R,
    alloc: Global,
    problem: &Problem,
    limit: usize,
    supervisor: &S,
    bags: Vec<B>,
) -> Result<Answer, NoMemory>
    requires workers { (2 ≤ length bags.items) × (length bags.items ≤ MAX_WORKERS) }
    requires some { 1 ≤ limit }
    requires few { limit ≤ MAX_LIMIT }
    requires few_streams { HasFewStreams problem.now.network }
    ensures optimum { IfOk result (AnswersOptimum problem.now.network) }
    ensures shown { IfOk result (IsAnswerShown problem.now.network limit) }
    ensures method { IfOk result HasTree }
    ensures gathered { IfOk result (IsByTeam problem.now.network (length bags.items)) }
{
    let Searched { found, word } = search_in_bags(rt, alloc, problem, limit, supervisor, bags)?;
    drop(word);
    answer_of(alloc, found)
}

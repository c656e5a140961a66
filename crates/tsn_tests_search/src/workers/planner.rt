//! Plans a network, and has the checker judge what was planned.

use std::alloc::Global;
use std::process::Abort;
use std::sync::Wait;
use std::test::Fail;
use std::thread::Threads;
use tsn_argue::check_certificate;
use tsn_cert::{Certificate, Plan};
use tsn_check::Verdict;
use tsn_networks::Network;
use tsn_planner::{Planned, plan, plan_by, plan_over};
use tsn_timing::Problem;
use tsn_worker::{Answer, Bag, Effort, Method, Supervisor};

/// More nodes than any of these networks has.
const LIMIT: usize = 1_000_000;

/// What was planned.
#[derive(Drop)]
pub struct Outcome {
    /// The plan's, in nanoseconds; none where no more nodes might be settled.
    pub flowspan: Option<u64>,
    pub settled: usize,
    /// Whether the checker takes the certificate for one of the first schedule of least flowspan.
    pub accepted: bool,
}

/// By which method, by how many workers, and how many nodes may be settled.
pub type Asked = (Method, usize, usize);

/// By so many workers in the order of the file, who may settle as many nodes as there are.
pub fn by(workers: usize) -> Asked {
    (Method::FileOrder, workers, LIMIT)
}

/// The same where so many nodes may be settled.
pub fn few_by(workers: usize, limit: usize) -> Asked {
    (Method::FileOrder, workers, limit)
}

fn problem_of(alloc: Global, network: Network) -> Result<Problem, Fail> {
    Ok(network.problem(alloc, 1_000_000).ok_or("no network")?)
}

fn is_accepted(alloc: Global, problem: &Problem, plan: &Plan, certificate: &Certificate) -> bool {
    match check_certificate(alloc, problem, plan, certificate) {
        Ok(verdict) => verdict == Verdict::First,
        Err(_) => false,
    }
}

fn flowspan_of(plan: &Plan) -> Option<u64> {
    match plan {
        Plan::Schedule { flowspan, .. } => Some(*flowspan),
        Plan::None => None,
    }
}

fn judge(alloc: Global, problem: &Problem, answer: Answer) -> Result<Outcome, Fail> {
    match answer {
        Answer::Optimal(plan, certificate, settled) => Ok(Outcome {
            flowspan: flowspan_of(&plan),
            settled,
            accepted: is_accepted(alloc, problem, &plan, &certificate),
        }),
        Answer::NoSchedule(_, _) => Err(Fail::from("no schedule")),
        Answer::Stopped(book) => Ok(Outcome {
            flowspan: None,
            settled: book.count(),
            accepted: false,
        }),
    }
}

fn answer_over<R: Abort + Threads + Wait + Sync, S: Supervisor + Sync, B: Bag + Send>(
    rt: &R,
    alloc: Global,
    problem: &Problem,
    supervisor: &S,
    bags: Vec<B>,
) -> Answer {
    assert!(rt; 2 <= bags.len() && bags.len() <= 16);
    assert!(rt; problem.timing().streams() <= 128);
    plan_over(rt, alloc, problem, LIMIT, supervisor, bags).expect(rt, "memory")
}

/// Plans by as many workers as there are bags.
pub fn planned_over<
    R: AllocGlobal + Abort + Threads + Wait + Sync,
    S: Supervisor + Sync,
    B: Bag + Send,
>(rt: &R, network: Network, supervisor: &S, bags: Vec<B>) -> Result<Outcome, Fail> {
    let problem = problem_of(rt.alloc(), network)?;
    let answer = answer_over(rt, rt.alloc(), &problem, supervisor, bags);
    judge(rt.alloc(), &problem, answer)
}

fn answer_by<R: Abort + Threads + Wait + Sync, S: Supervisor + Sync>(
    rt: &R,
    alloc: Global,
    problem: &Problem,
    supervisor: &S,
    asked: Asked,
) -> Answer {
    let (method, workers, limit) = asked;
    assert!(rt; 1 <= workers && workers <= 16);
    assert!(rt; 1 <= limit && limit <= LIMIT);
    assert!(rt; problem.timing().streams() <= 128);
    match method {
        Method::FileOrder => {
            plan(rt, alloc, problem, workers, limit, supervisor).expect(rt, "memory")
        }
        Method::Auto | Method::Learn => {
            let effort = Effort {
                method,
                workers,
                limit,
            };
            let Planned { answer, word } = plan_by(rt, alloc, problem, effort, supervisor).expect(
                rt, "memory",
            );
            drop(word);
            answer
        }
    }
}

/// Plans as it is asked.
pub fn planned<R: AllocGlobal + Abort + Threads + Wait + Sync, S: Supervisor + Sync>(
    rt: &R,
    network: Network,
    supervisor: &S,
    asked: Asked,
) -> Result<Outcome, Fail> {
    let problem = problem_of(rt.alloc(), network)?;
    let answer = answer_by(rt, rt.alloc(), &problem, supervisor, asked);
    judge(rt.alloc(), &problem, answer)
}

/// As many nodes are settled as may be, while one is open.
pub fn expect_stopped<R: AllocGlobal + Abort + Threads + Wait + Sync, S: Supervisor + Sync>(
    rt: &R,
    network: Network,
    supervisor: &S,
    asked: Asked,
) -> Result<(), Fail> {
    let found = planned(rt, network, supervisor, asked)?;
    assert_eq!(rt; (found.flowspan, found.settled), (None, asked.2));
    Ok(())
}

/// The plan has to be of this flowspan, and its certificate accepted.
pub fn expect(rt: &impl Abort, outcome: &Outcome, flowspan: u64) {
    assert_eq!(rt; outcome.flowspan, Some(flowspan));
    assert!(rt; outcome.accepted);
}

//! Where a planner can be held and watched.
/// A supervisor that is passed before each settling, told what was settled, and asked whether a worker starts and goes on.
pub trait Supervisor {
    /// Passes the supervisor, on behalf of the teller of this number.
    fn pass(&self, teller: usize);

    /// Hears what the teller of this number has settled since it was told last.
    fn hear(&self, _teller: usize, _news: News) {}

    /// Hears what no schedule's flowspan is below, in nanoseconds.
    fn hear_bound(&self, _bound: u64) {}

    /// Hears that a phase begins.
    fn begin(&self, _phase: Phase) {}

    /// Hears how far the conflict-driven search has got.
    fn hear_learned(&self, _news: LearnedNews) {}

    /// Whether the worker of this number starts. It is asked before the worker's first round; a worker that doesn't start does
    /// nothing.
    fn may_start(&self, _teller: usize) -> bool {
        true
    }

    /// Whether the worker of this number goes on. It is asked after each batch that the worker has settled.
    fn may_go_on(&self, _teller: usize) -> bool {
        true
    }
}

/// What a planner is at.
#[derive(Clone, Copy, PartialEq, Eq)]
pub enum Phase {
    /// The search in the order of the file.
    File,
    /// The conflict-driven search.
    Learning,
    /// The search in the order of the file, along the best schedule known, where the conflict-driven search gave up.
    Along,
}

/// A supervisor that holds nobody.
#[derive(Clone, Copy)]
pub struct NoSupervisor;

impl Supervisor for NoSupervisor {
    fn pass(&self, _teller: usize) {}
}

/// A supervisor, or none, which holds nobody.
impl<S: Supervisor> Supervisor for Option<S> {
    fn pass(&self, teller: usize) {
        if let Some(supervisor) = self {
            supervisor.pass(teller);
        }
    }

    fn hear(&self, teller: usize, news: News) {
        if let Some(supervisor) = self {
            supervisor.hear(teller, news);
        }
    }

    fn hear_bound(&self, bound: u64) {
        if let Some(supervisor) = self {
            supervisor.hear_bound(bound);
        }
    }

    fn begin(&self, phase: Phase) {
        if let Some(supervisor) = self {
            supervisor.begin(phase);
        }
    }

    fn hear_learned(&self, news: LearnedNews) {
        if let Some(supervisor) = self {
            supervisor.hear_learned(news);
        }
    }

    fn may_start(&self, teller: usize) -> bool {
        match self {
            Some(supervisor) => supervisor.may_start(teller),
            None => true,
        }
    }

    fn may_go_on(&self, teller: usize) -> bool {
        match self {
            Some(supervisor) => supervisor.may_go_on(teller),
            None => true,
        }
    }
}

/// What was settled: some nodes, so many of which were split; the others were closed. The flowspan, in nanoseconds, is the
/// least that the teller knows to be solved, if any.
#[derive(Clone, Copy)]
pub struct News {
    pub nodes: usize,
    pub splits: usize,
    pub flowspan: Option<u64>,
}

/// How far the conflict-driven search has got.
#[derive(Clone, Copy)]
pub struct LearnedNews {
    /// The least flowspan that it found, in nanoseconds, if any.
    pub flowspan: Option<u64>,
    /// By its own count no flowspan is less, in nanoseconds. Nothing is proved of it before its argument is accepted.
    pub bound: u64,
    /// Once the flowspan stands: which stream's offset is being lowered, from 0.
    pub stream: Option<usize>,
    /// How many streams there are.
    pub streams: usize,
    /// How many contradictions taught something.
    pub conflicts: u64,
}

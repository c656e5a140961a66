//! A supervisor that notes what it hears, and may hold or stop workers.

use std::sync::{Mutex, Wait};
use tsn_worker::{LearnedNews, News, Phase, Supervisor};

/// How often a worker that is held looks for the others before it goes on alone.
const TURNS: u64 = 5_000_000;

/// What workers are asked to do.
#[derive(Clone, Copy, Debug, PartialEq, Eq)]
pub enum Order {
    /// To work.
    Work,
    /// The one of this number not to start.
    StopOne(usize),
    /// Not to start.
    StopAll,
    /// Not to go on behind the first batch.
    StopBatches,
    /// Workers 0 and 1 to begin only when both have come.
    Meet,
    /// Worker 0 to begin only when the others have settled so many nodes.
    HoldZero(u64),
}

/// What was heard.
#[derive(Clone, Copy)]
pub struct Account {
    /// How often each teller has passed.
    pub passes: [u64; 17],
    /// How often the teller behind the workers has passed before any of them, and behind one.
    pub before: u64,
    pub behind: u64,
    /// Whether a worker that was held went on alone.
    pub went_alone: bool,
    /// How many nodes were settled, how many by worker 0, how many were split, and how many were told of at once, at most.
    pub nodes: u64,
    pub by_zero: u64,
    pub splits: u64,
    pub most: u64,
    /// How often nodes were told of, and how often before a pass for them.
    pub hears: u64,
    pub late: u64,
    /// The least flowspan that was told of.
    pub least: u64,
    /// What no schedule undercuts.
    pub bound: u64,
    /// A digit for each phase: 1 for the order of the file, 2 for the search that learns, 3 for the file along a known schedule.
    pub phases: u64,
    /// How often the search that learns told something, and a digit for each time: 0 where the flowspan is being shown, else the number
    /// of the stream, from 1; and how many conflicts there were.
    pub times: u64,
    pub aims: u64,
    pub conflicts: u64,
    /// The least bound that it told, what it told last, and whether it ever told another flowspan or number of streams before.
    pub least_bound: u64,
    pub learned: Option<LearnedNews>,
    pub has_changed: bool,
}

const NOTHING: Account = Account {
    passes: [0; 17],
    before: 0,
    behind: 0,
    went_alone: false,
    nodes: 0,
    by_zero: 0,
    splits: 0,
    most: 0,
    hears: 0,
    late: 0,
    least: u64::MAX,
    bound: 0,
    phases: 0,
    times: 0,
    aims: 0,
    conflicts: 0,
    least_bound: u64::MAX,
    learned: None,
    has_changed: false,
};

impl Account {
    /// How often any teller has passed.
    pub fn all_passes(&self) -> u64 {
        self.passes_below(17)
    }

    /// How often tellers with lower numbers have passed.
    pub fn passes_below(&self, teller: usize) -> u64 {
        let mut sum = 0u64;
        for passes in self.passes.iter().take(teller) {
            sum = sum.saturating_add(*passes);
        }
        sum
    }

    /// How often this teller has passed.
    pub fn passes_of(&self, teller: usize) -> u64 {
        *self.passes.get(teller).unwrap_or(&0)
    }

    fn note_pass(&mut self, teller: usize, workers: usize) {
        if teller >= workers {
            if self.passes_below(workers) == 0 {
                self.before = self.before.saturating_add(1);
            } else {
                self.behind = self.behind.saturating_add(1);
            }
        }
        if let Some(passes) = self.passes.get_mut(teller) {
            *passes = passes.saturating_add(1);
        }
    }

    fn note_news(&mut self, teller: usize, news: News) {
        let nodes = news.nodes as u64;
        if self.all_passes() <= self.hears {
            self.late = self.late.saturating_add(1);
        }
        self.hears = self.hears.saturating_add(1);
        self.nodes = self.nodes.saturating_add(nodes);
        self.splits = self.splits.saturating_add(news.splits as u64);
        self.most = self.most.max(nodes);
        if teller == 0 {
            self.by_zero = self.by_zero.saturating_add(nodes);
        }
        if let Some(flowspan) = news.flowspan {
            self.least = self.least.min(flowspan);
        }
    }

    fn note_learned(&mut self, news: LearnedNews) {
        let aim = match news.stream {
            Some(stream) => (stream as u64).saturating_add(1),
            None => 0,
        };
        self.times = self.times.saturating_add(1);
        self.aims = with_digit(self.aims, aim);
        self.conflicts = with_digit(self.conflicts, news.conflicts);
        self.least_bound = self.least_bound.min(news.bound);
        if let Some(before) = self.learned {
            let same = before.flowspan == news.flowspan && before.streams == news.streams;
            self.has_changed = self.has_changed || !same;
        }
        self.learned = Some(news);
    }
}

fn with_digit(digits: u64, digit: u64) -> u64 {
    digits.saturating_mul(10).saturating_add(digit)
}

/// A supervisor of so many workers that gives them this order. The teller behind them is the caller.
#[derive(Drop)]
pub struct Witness<R: Wait + Drop> {
    rt: R,
    workers: usize,
    order: Order,
    account: Mutex<Account>,
}

impl<R: Wait + Drop> Witness<R> {
    pub fn new(rt: R, workers: usize, order: Order) -> Witness<R> {
        Witness {
            rt,
            workers,
            order,
            account: Mutex::new(NOTHING),
        }
    }

    /// What was heard so far.
    pub fn account(&self) -> Account {
        *self.account.lock(&self.rt)
    }

    // Whether a teller that passes has to wait still.
    fn holds(&self, teller: usize) -> bool {
        let account = self.account();
        match self.order {
            Order::Meet if teller < 2 => account.passes_of(1 - teller) == 0,
            Order::HoldZero(nodes) if teller == 0 => account.nodes < nodes,
            _ => false,
        }
    }
}

impl<R: Wait + Drop> Supervisor for Witness<R> {
    fn pass(&self, teller: usize) {
        self.account.lock(&self.rt).note_pass(teller, self.workers);
        for _ in 0..TURNS {
            if !self.holds(teller) {
                return;
            }
        }
        let mut account = self.account.lock(&self.rt);
        account.went_alone = true;
    }

    fn may_start(&self, teller: usize) -> bool {
        self.order != Order::StopAll && self.order != Order::StopOne(teller)
    }

    fn may_go_on(&self, _teller: usize) -> bool {
        self.order != Order::StopBatches
    }

    fn hear(&self, teller: usize, news: News) {
        self.account.lock(&self.rt).note_news(teller, news);
    }

    fn hear_bound(&self, bound: u64) {
        let mut account = self.account.lock(&self.rt);
        account.bound = bound;
    }

    fn begin(&self, phase: Phase) {
        let digit = match phase {
            Phase::File => 1,
            Phase::Learning => 2,
            Phase::Along => 3,
        };
        let mut account = self.account.lock(&self.rt);
        account.phases = with_digit(account.phases, digit);
    }

    fn hear_learned(&self, news: LearnedNews) {
        self.account.lock(&self.rt).note_learned(news);
    }
}

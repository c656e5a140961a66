//! A supervisor that tells how far a plan has got.
use crate::heard::Heard;
use crate::supervisor::{LearnedNews, News, Phase, Supervisor};
use std::fmt;
use std::io::Eprint;
use std::sync::atomic::{AtomicBool, AtomicU64, Ordering};
use std::time::{Clock, Instant};

// How many nodes are settled between two looks at the clock.
const STRIDE: u64 = 256;

// How many milliseconds pass between two lines.
const PERIOD: u64 = 1000;

/// A supervisor that holds nobody. About once a second it writes a line to standard error. As long as nodes are settled it has how many
/// were settled since the search began, or began anew, and how many are open, the least flowspan solved, what no schedule's
/// flowspan is below and the gap between the two in nanoseconds, and how many nodes are settled a second. As long as the search
/// learns it has how many conflicts there were, what is being shown, the least flowspan found, what none is below by that
/// search's own count, and how many conflicts there are a second. A clock or a standard error that fails takes lines away, and
/// nothing else.
#[derive(Drop)]
pub struct ProgressWriter<'a, R: Clock + Eprint> {
    rt: &'a R,
    /// Whether one worker searches, who goes on with the nodes that were open before the conflict-driven search.
    is_alone: bool,
    start: Option<Instant>,
    known: Heard,
    settled: AtomicU64,
    splits: AtomicU64,
    conflicts: AtomicU64,
    // Whether the search learns now, and whether it ever told something.
    learns: AtomicBool,
    has_learned: AtomicBool,
    // When the phase began, and when the next line is due, in milliseconds from the start on; and how many nodes were settled as
    // it began.
    began: AtomicU64,
    due: AtomicU64,
    before: AtomicU64,
}

impl<'a, R: Clock + Eprint> ProgressWriter<'a, R> {
    /// Nothing is settled by so many workers, and the clock begins to run.
    pub fn new(rt: &'a R, workers: usize) -> ProgressWriter<'a, R> {
        ProgressWriter {
            rt,
            is_alone: workers <= 1,
            start: Instant::now(rt).ok(),
            known: Heard::new(),
            settled: AtomicU64::new(0),
            splits: AtomicU64::new(0),
            conflicts: AtomicU64::new(0),
            learns: AtomicBool::new(false),
            has_learned: AtomicBool::new(false),
            began: AtomicU64::new(0),
            due: AtomicU64::new(PERIOD),
            before: AtomicU64::new(0),
        }
    }

    /// Writes the last line, where a node was settled or something was learned.
    pub fn end(&self) {
        let settled = self.settled.load(Ordering::SeqCst);
        if settled == 0 && !self.has_learned.load(Ordering::SeqCst) {
            return;
        }
        let Some(elapsed) = self.elapsed() else {
            return;
        };
        if self.learns.load(Ordering::SeqCst) {
            let best = Best::of(self.known.flowspan(), self.known.bound());
            self.write_learned("in all", Sought::None, best, elapsed);
        } else {
            self.write("in all", elapsed);
        }
    }

    // The milliseconds from the start on.
    fn elapsed(&self) -> Option<u64> {
        let start = self.start?;
        let elapsed = start.elapsed(self.rt).ok()?;
        u64::try_from(elapsed.as_millis()).ok()
    }

    // The milliseconds from the start on, where a line is due and no other thread writes it.
    fn due_now(&self) -> Option<u64> {
        let elapsed = self.elapsed()?;
        let due = self.due.load(Ordering::SeqCst);
        if elapsed < due {
            return None;
        }
        let next = elapsed.saturating_add(PERIOD);
        let taken = self
            .due
            .compare_exchange(due, next, Ordering::SeqCst, Ordering::SeqCst);
        if taken.is_ok() { Some(elapsed) } else { None }
    }

    // How many a second, of so many since the phase began.
    fn rate(&self, count: u64, elapsed: u64) -> u64 {
        let began = self.began.load(Ordering::SeqCst);
        rate_of(count, elapsed.saturating_sub(began))
    }

    fn write(&self, when: &str, elapsed: u64) {
        let settled = self.settled.load(Ordering::SeqCst);
        let splits = self.splits.load(Ordering::SeqCst);
        let open_nodes = open_after(settled, splits);
        let before = self.before.load(Ordering::SeqCst);
        let rate = self.rate(settled.saturating_sub(before), elapsed);
        let best = Best::of(self.known.flowspan(), self.known.bound());
        let _ = eprintln!(self.rt;
            "tsn: {when}: settled {settled}, open {open_nodes}, {best}, {rate} nodes a second"
        );
    }

    fn write_learned(&self, when: &str, aim: Sought, best: Best, elapsed: u64) {
        let settled = self.settled.load(Ordering::SeqCst);
        let conflicts = self.conflicts.load(Ordering::SeqCst);
        let rate = self.rate(conflicts, elapsed);
        let _ = eprintln!(self.rt;
            "tsn: {when}: settled {settled}, conflicts {conflicts}, {aim}{best}, {rate} conflicts a second"
        );
    }
}

impl<'a, R: Clock + Eprint> Supervisor for ProgressWriter<'a, R> {
    fn pass(&self, _teller: usize) {}

    fn hear(&self, _teller: usize, news: News) {
        let nodes = news.nodes as u64;
        self.splits.fetch_add(news.splits as u64, Ordering::SeqCst);
        self.known.hear_flowspan(news.flowspan);
        let before = self.settled.fetch_add(nodes, Ordering::SeqCst);
        if before / STRIDE != before.wrapping_add(nodes) / STRIDE {
            if let Some(elapsed) = self.due_now() {
                self.write("so far", elapsed);
            }
        }
    }

    fn hear_bound(&self, bound: u64) {
        self.known.hear_bound(bound);
    }

    fn begin(&self, phase: Phase) {
        if is_anew(phase, self.is_alone) {
            self.settled.store(0, Ordering::SeqCst);
            self.splits.store(0, Ordering::SeqCst);
        }
        self.learns
            .store(phase == Phase::Learning, Ordering::SeqCst);
        self.before
            .store(self.settled.load(Ordering::SeqCst), Ordering::SeqCst);
        self.began
            .store(self.elapsed().unwrap_or(0), Ordering::SeqCst);
    }

    fn hear_learned(&self, news: LearnedNews) {
        self.known.hear_flowspan(news.flowspan);
        self.conflicts.store(news.conflicts, Ordering::SeqCst);
        self.has_learned.store(true, Ordering::SeqCst);
        if let Some(elapsed) = self.due_now() {
            let bound = news.bound.max(self.known.bound().unwrap_or(0));
            let best = Best::of(self.known.flowspan(), Some(bound));
            self.write_learned("so far", Sought::of(news), best, elapsed);
        }
    }
}

// Whether the nodes of the phase are counted anew.
fn is_anew(phase: Phase, is_alone: bool) -> bool {
    match phase {
        Phase::File => true,
        Phase::Learning => false,
        Phase::Along => !is_alone,
    }
}

// What the conflict-driven search is to show, as it is written.
#[derive(Clone, Copy)]
enum Sought {
    None,
    /// The least flowspan.
    Flowspan,
    /// The least offset of the stream of this number, from 1, of so many.
    Stream(usize, usize),
}

impl Sought {
    fn of(news: LearnedNews) -> Sought {
        match news.stream {
            Some(stream) => Sought::Stream(stream.saturating_add(1), news.streams),
            None => Sought::Flowspan,
        }
    }
}

impl fmt::Display for Sought {
    fn fmt<W: fmt::Write>(&self, f: &mut fmt::Formatter<W>) -> fmt::Result {
        match self {
            Sought::None => Ok(()),
            Sought::Flowspan => f.write_str("flowspan, "),
            Sought::Stream(number, streams) => write!(f, "stream {number} of {streams}, "),
        }
    }
}

// The least flowspan known and what none is below, in nanoseconds, as they are written.
#[derive(Clone, Copy)]
struct Best {
    flowspan: Option<u64>,
    bound: Option<u64>,
}

impl Best {
    fn of(flowspan: Option<u64>, bound: Option<u64>) -> Best {
        Best { flowspan, bound }
    }
}

impl fmt::Display for Best {
    fn fmt<W: fmt::Write>(&self, f: &mut fmt::Formatter<W>) -> fmt::Result {
        match (self.flowspan, self.bound) {
            (Some(flowspan), Some(bound)) => {
                let gap = flowspan.saturating_sub(bound);
                write!(f, "best {flowspan} ns, bound {bound} ns, gap {gap} ns")
            }
            (Some(flowspan), None) => write!(f, "best {flowspan} ns"),
            (None, Some(bound)) => write!(f, "best none, bound {bound} ns"),
            (None, None) => f.write_str("best none"),
        }
    }
}

// How many nodes are open: the root is to begin with, a split opens two and closes one, and any other closes one.
fn open_after(settled: u64, splits: u64) -> u64 {
    splits
        .saturating_mul(2)
        .saturating_add(1)
        .saturating_sub(settled)
}

// How many a second.
fn rate_of(count: u64, milliseconds: u64) -> u64 {
    count.saturating_mul(1000) / milliseconds.max(1)
}

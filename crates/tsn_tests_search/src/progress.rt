//! What is told, by a clock that goes on by 600 ms at each look.

use std::alloc::Global;
use std::cell::{Cell, RefCell};
use std::fmt::Display;
use std::io;
use std::io::{Eprint, Error, ErrorKind};
use std::process::Abort;
use std::test::*;
use std::time::{Clock, Duration};
use tsn_branch::ProgressWriter;
use tsn_worker::{LearnedNews, News, Phase, Supervisor};

/// A clock, and a standard error that is kept.
#[derive(Drop)]
struct Console {
    alloc: Global,
    looks: Cell<u64>,
    told: RefCell<String>,
}

impl Console {
    fn new(alloc: Global) -> Console {
        Console {
            alloc,
            looks: Cell::new(0),
            told: RefCell::new(String::new(alloc)),
        }
    }

    fn add(&self, text: &str) -> io::Result<()> {
        match self.told.try_borrow_mut() {
            Ok(mut told) => Ok(told.push_str(text)?),
            Err(_) => Err(Error::from(ErrorKind::ResourceBusy)),
        }
    }

    fn expect(&self, rt: &impl Abort, text: &str) {
        match self.told.try_borrow() {
            Ok(told) => assert_eq!(rt; told.as_str(), text),
            Err(_) => panic!(rt; "it is borrowed"),
        }
    }
}

impl Clock for Console {
    fn monotonic(&self) -> io::Result<Duration> {
        let looks = self.looks.get();
        self.looks.set(looks.saturating_add(1));
        Ok(Duration::from_millis(looks.saturating_mul(600)))
    }

    fn since_1970(&self) -> io::Result<Duration> {
        Err(Error::from(ErrorKind::Unsupported))
    }
}

impl Eprint for Console {
    fn eprint<D: Display + Drop>(&self, value: D) -> io::Result<()> {
        self.add(format!(in self.alloc; "{value}")?.as_str())
    }

    fn eprintln<D: Display + Drop>(&self, value: D) -> io::Result<()> {
        self.add(format!(in self.alloc; "{value}\n")?.as_str())
    }
}

fn news(nodes: usize, splits: usize, flowspan: Option<u64>) -> News {
    News {
        nodes,
        splits,
        flowspan,
    }
}

/// The clock is looked at each 256 nodes: at 600 ms, before a line is due, and at 1200 ms. 512 nodes with 260 splits leave
/// 521 - 512 open.
#[test]
fn a_line_is_told_about_once_a_second(rt: HostRuntime) {
    let console = Console::new(rt.alloc());
    let progress = ProgressWriter::new(&console, 1);
    progress.hear(0, news(200, 100, None));
    progress.hear(1, news(100, 50, Some(2_924)));
    console.expect(&rt, "");
    progress.hear(0, news(212, 110, Some(3_000)));
    console.expect(
        &rt,
        "tsn: so far: settled 512, open 9, best 2924 ns, 426 nodes a second\n",
    );
}

/// The clock is looked at at 600 ms, 1200 ms, 1800 ms and 2400 ms: at the second and the last of these a line is due.
#[test]
fn a_line_waits_for_the_next_second(rt: HostRuntime) {
    let console = Console::new(rt.alloc());
    let progress = ProgressWriter::new(&console, 1);
    for _ in 0..4 {
        progress.hear(0, news(256, 128, None));
    }
    console.expect(
        &rt,
        "tsn: so far: settled 512, open 1, best none, 426 nodes a second\ntsn: so far: settled 1024, open 1, best none, 426 nodes a second\n",
    );
}

/// 3 nodes in the 600 ms between two looks at the clock.
#[test]
fn the_end_is_told(rt: HostRuntime) {
    let console = Console::new(rt.alloc());
    let progress = ProgressWriter::new(&console, 1);
    progress.hear(0, news(3, 1, Some(2_924)));
    progress.end();
    console.expect(
        &rt,
        "tsn: in all: settled 3, open 0, best 2924 ns, 5 nodes a second\n",
    );
}

fn learned(conflicts: u64, stream: Option<usize>) -> LearnedNews {
    LearnedNews {
        flowspan: Some(2_924),
        bound: 2_910,
        stream,
        streams: 2,
        conflicts,
    }
}

/// The clock is looked at as the phase begins, at 600 ms, and at each of the three news and the end: at 1200 ms and 2400 ms a line is
/// due, and the last one is always told. The bound at the end is the one that is proved.
#[test]
fn what_is_learned_is_told(rt: HostRuntime) {
    let console = Console::new(rt.alloc());
    let progress = ProgressWriter::new(&console, 1);
    progress.hear_bound(2_900);
    progress.begin(Phase::Learning);
    progress.hear_learned(learned(3, None));
    progress.hear_learned(learned(7, Some(1)));
    progress.hear_learned(learned(12, Some(1)));
    progress.end();
    console.expect(
        &rt,
        "tsn: so far: settled 0, conflicts 3, flowspan, best 2924 ns, bound 2910 ns, gap 14 ns, 5 conflicts a second\ntsn: so far: settled 0, conflicts 12, stream 2 of 2, best 2924 ns, bound 2910 ns, gap 14 ns, 6 conflicts a second\ntsn: in all: settled 0, conflicts 12, best 2924 ns, bound 2900 ns, gap 24 ns, 5 conflicts a second\n",
    );
}

/// What was shown stands: a lower bound that is heard later doesn't take its place, nor does what the search counts by itself. The first
/// line is told at 1200 ms, 600 ms behind the beginning of the phase, and the last at 1800 ms.
#[test]
fn the_greatest_bound_is_told(rt: HostRuntime) {
    let console = Console::new(rt.alloc());
    let progress = ProgressWriter::new(&console, 1);
    progress.hear_bound(2_920);
    progress.hear_bound(2_900);
    progress.begin(Phase::Learning);
    progress.hear_learned(learned(3, None));
    progress.end();
    console.expect(
        &rt,
        "tsn: so far: settled 0, conflicts 3, flowspan, best 2924 ns, bound 2920 ns, gap 4 ns, 5 conflicts a second\ntsn: in all: settled 0, conflicts 3, best 2924 ns, bound 2920 ns, gap 4 ns, 2 conflicts a second\n",
    );
}

/// Where several go on along a schedule the count begins anew, at 600 ms: 256 nodes with 130 splits leave 261 - 256 open at 1200 ms, 600 ms later.
/// The schedule that was found before is known still.
#[test]
fn a_phase_counts_for_itself(rt: HostRuntime) {
    let console = Console::new(rt.alloc());
    let progress = ProgressWriter::new(&console, 2);
    progress.hear(0, news(200, 100, Some(3_000)));
    progress.begin(Phase::Along);
    progress.hear(0, news(256, 130, None));
    console.expect(
        &rt,
        "tsn: so far: settled 256, open 5, best 3000 ns, 426 nodes a second\n",
    );
}

#[test]
fn nothing_is_told_where_no_node_was_settled(rt: HostRuntime) {
    let console = Console::new(rt.alloc());
    let progress = ProgressWriter::new(&console, 1);
    progress.end();
    console.expect(&rt, "");
}
